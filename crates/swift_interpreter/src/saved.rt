//! Rows of fields, saved before they are changed.

ghost use Rattle.std.specs.Prelude.{◌≡◌, ℕ, ℤ, ◌<◌, ◌≤◌, ◌+◌, ◌-◌, ◌↔◌, List, [], ◌∷◌, ◌++◌, length, drop, get_or, take, slice_set, vec_capacity, vec_len, IsTrue, OnOk, OnErr};
ghost use Rattle.swift_interpreter.specs.Saved.{is_saved, put_back_newest, restored};
ghost use Rattle.swift_interpreter.specs.SavedInside.{newest_first, oldest};
ghost use Rattle.script_code.specs.Seen.{rows_of};

use std::alloc::{AllocError, Global};
use std::marker::Model;
use std::mem;

// An actor's fields.
#[derive(Drop)]
struct SavedRow {
    actor: u32,
    row: Vec<i64>,
}

/// The rows of fields that a turn has changed, as they were before it. Contracts see a list of pairs of an actor's
/// number and its row, the newest first.
#[derive(Drop)]
pub struct SavedRows {
    // The first of them in the order in which they were saved. Behind them are buffers to be used again.
    rows: Vec<SavedRow>,
    used: usize,
}

impl Model for SavedRows {
    ghost use Rattle.std.specs.Prelude.{ℕ, ℤ, ◌≤◌, List, length, take};
    ghost use Rattle.swift_interpreter.specs.SavedInside.{newest_first};

    ghost Value = { List (ℕ × List ℤ) };

    ghost view = { λ s. newest_first (take s.used s.rows.items) };

    ghost invariant = { λ s. s.used ≤ length s.rows.items };
}

impl SavedRows {
    /// No rows. It takes no memory.
    pub fn new(alloc: Global) -> Self
        ensures { result ≡ [] }
    {
        SavedRows {
            rows: Vec::new(alloc),
            used: 0,
        }
    }

    /// Forgets all rows, and keeps their buffers.
    pub fn clear(&mut self)
        ensures { self.new ≡ [] }
    {
        self.used = 0;
    }

    /// How many rows are saved.
    pub fn len(&self) -> usize
        ensures { result ≡ length self.now }
    {
        self.used
    }

    /// The actor whose row stands in this place, the newest at 0.
    #[tactic(auto, using(crate::proofs::SavedLists::actor_at))]
    pub fn actor(&self, place: usize) -> u32
        requires { place < length self.now }
        ensures { result ≡ (get_or self.now place (0, [])).0 }
    {
        self.rows[self.used - 1 - place].actor
    }

    /// Whether an actor's row is saved. Its cost is the number of rows.
    #[inline(always)]
    pub fn has(&self, actor: u32) -> bool
        ensures { result ≡ is_saved self.now actor }
    {
        has_row(&self.rows[..self.used], actor)
    }

    /// Saves an actor's row. Where memory runs out, the rows are as before.
    #[inline(never)]
    pub fn save(&mut self, alloc: Global, actor: u32, row: &[i64]) -> Result<(), AllocError>
        ensures ok { OnOk result (self.new ≡ (actor, row.now) ∷ self.old) }
        ensures err { OnErr result (self.new ≡ self.old) }
    {
        reach(alloc, &mut self.rows, self.used)?;
        set_row(&mut self.rows, self.used, actor, row)?;
        self.used += 1;
        Ok(())
    }

    /// Puts all rows back, the newest first, and forgets them.
    pub fn put_back(&mut self, fields: &mut [Vec<i64>])
        ensures fields { rows_of fields.new ≡ restored self.old (rows_of fields.old) }
        ensures forgotten { self.new ≡ [] }
    {
        while !self.is_empty() {
            self.pop(fields);
        }
    }

    /// The row that an actor has once all rows are put back, where it is this one now. Its cost is the number of rows.
    #[tactic(auto, using(crate::proofs::SavedLists::oldest_is))]
    pub fn row_before<'a>(&'a self, actor: usize, row: &'a [i64]) -> &'a [i64]
        ensures { (fields : List (List ℤ)) → actor < length fields → get_or fields actor [] ≡ row.now → result.now ≡ get_or (restored self.now fields) actor [] }
    {
        oldest_row(&self.rows[..self.used], actor, row)
    }

    fn is_empty(&self) -> bool
        ensures { IsTrue result ↔ (length self.now ≡ 0) }
    {
        self.used == 0
    }

    // Puts the newest row back.
    fn pop(&mut self, fields: &mut [Vec<i64>])
        requires { 0 < length self.old }
        ensures rest { self.new ≡ drop 1 self.old }
        ensures fields { rows_of fields.new ≡ put_back_newest self.old (rows_of fields.old) }
    {
        take_back(&mut self.rows, self.used, fields);
        self.used -= 1;
    }
}

#[inline(always)]
fn has_row(rows: &[SavedRow], actor: u32) -> bool
    ensures { result ≡ is_saved (newest_first rows.now) actor }
{
    let mut left = rows.len();
    while left > 0 {
        left -= 1;
        if rows[left].actor == actor {
            return true;
        }
    }
    false
}

// The oldest row of an actor among these, and this one where there is none.
fn oldest_row<'a>(rows: &'a [SavedRow], actor: usize, row: &'a [i64]) -> &'a [i64]
    ensures { result.now ≡ oldest (newest_first rows.now) actor row.now }
{
    let mut row = row;
    let mut left = rows.len();
    while left > 0 {
        left -= 1;
        if rows[left].actor as usize == actor {
            row = &rows[left].row;
        }
    }
    row
}

// The last of the first `used` saved rows and the row that the fields have in its place change places.
#[tactic(auto, using(crate::proofs::SavedLists::newest_last))]
fn take_back(rows: &mut [SavedRow], used: usize, fields: &mut [Vec<i64>])
    requires some { 0 < used }
    requires within { used ≤ length rows.old }
    ensures older { newest_first (take (used - 1) rows.new) ≡ drop 1 (newest_first (take used rows.old)) }
    ensures fields { rows_of fields.new ≡ put_back_newest (newest_first (take used rows.old)) (rows_of fields.old) }
{
    let saved = &mut rows[used - 1];
    swap_row(fields, saved.actor, &mut saved.row);
}

// An actor's row and another change places. Of an actor that is not there nothing changes.
#[tactic(auto, using(crate::proofs::SavedLists::row_set, std::proofs::lemmas::List::set_past))]
fn swap_row(fields: &mut [Vec<i64>], actor: u32, row: &mut Vec<i64>)
    ensures { rows_of fields.new ≡ slice_set (rows_of fields.old) actor row.old.items }
{
    if (actor as usize) < fields.len() {
        mem::swap(&mut fields[actor as usize], row);
    }
}

// Makes a place for one row more.
fn reach(alloc: Global, rows: &mut Vec<SavedRow>, place: usize) -> Result<(), AllocError>
    requires { place ≤ length rows.old.items }
    ensures older { take place rows.new.items ≡ take place rows.old.items }
    ensures within { place ≤ length rows.new.items }
    ensures ok { OnOk result (place < length rows.new.items) }
{
    if place < rows.len() {
        return Ok(());
    }
    let row = SavedRow {
        actor: 0,
        row: Vec::new(alloc),
    };
    rows.push(row)?;
    Ok(())
}

// Saves an actor's row in a place.
fn set_row(rows: &mut [SavedRow], place: usize, actor: u32, row: &[i64]) -> Result<(), AllocError>
    requires { place < length rows.old }
    ensures older { take place rows.new ≡ take place rows.old }
    ensures ok { OnOk result (newest_first (take (place + 1) rows.new) ≡ (actor, row.now) ∷ newest_first (take place rows.old)) }
{
    let saved = &mut rows[place];
    saved.actor = actor;
    copy_into(row, &mut saved.row)
}

// Up to `FEW` values are copied one at a time: for few it takes a fraction of what a copy of memory does.
const FEW: usize = 8;

// Appends values one at a time.
fn push_each<T: Copy>(from: &[T], to: &mut Vec<T>)
    requires { vec_len to.old + length from.now ≤ vec_capacity to.old }
    ensures { to.new.items ≡ to.old.items ++ from.now }
{
    for value in from {
        to.push_reserved(*value);
    }
}

/// A copy in the buffer of another list, which grows only where it is too small.
pub fn copy_into<T: Copy>(from: &[T], to: &mut Vec<T>) -> Result<(), AllocError>
    ensures { OnOk result (to.new.items ≡ from.now) }
{
    to.clear();
    if from.is_empty() {
        return Ok(());
    }
    if from.len() > FEW || from.len() > to.capacity() {
        return copy_many(from, to);
    }
    push_each(from, to);
    Ok(())
}

// Appends values by a copy of memory. It stands apart, so that a copy of few values makes no call.
#[inline(never)]
fn copy_many<T: Copy>(from: &[T], to: &mut Vec<T>) -> Result<(), AllocError>
    ensures { OnOk result (to.new.items ≡ to.old.items ++ from.now) }
{
    to.extend_from_slice(from)
}
