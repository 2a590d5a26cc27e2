//! The rows of fields that invariants read.

ghost use Rattle.std.specs.Prelude.{◌≡◌, ℕ, ◌<◌, ◌≤◌, [], Contains, IfOk, OnOk, get_or, length};
ghost use Rattle.script_code.specs.Tree.{term_of, terms_of};
ghost use Rattle.swift_undo.specs.Rows.{HaveRows, first_row as first_row_of, reads_only as term_reads_only, row_of, rows_read};
ghost use Rattle.swift_undo.specs.RowsInside.{AreListed, places_of};

use script_code::Formula;
use std::alloc::{AllocError, Global};
use std::marker::Model;

/// The rows of fields that some invariants read (our own): of the first of them the row beside each, and of each row those that read it.
/// In a clause it is the rows, in the order of the invariants.
pub struct InvariantRows {
    rows: Vec<u32>,
    // Of each row, in order, the places of the invariants that read it.
    readers: Vec<Vec<usize>>,
}

// By hand, so that it is not taken apart in each proof of a function that drops one.
impl Drop for InvariantRows {
    fn drop(self) {
        let InvariantRows { rows, readers } = self;
        drop(rows);
        drop(readers);
    }
}

impl Model for InvariantRows {
    ghost use Rattle.std.specs.Prelude.{ℕ, List};
    ghost use Rattle.swift_undo.specs.RowsInside.{AreListed, places_of};

    ghost Value = { List ℕ };

    ghost view = { λ r. r.rows.items };

    ghost invariant = { λ r. AreListed (places_of r.readers.items) r.rows.items };
}

impl InvariantRows {
    /// Beside no invariant stands a row, so that each is tested. It takes no memory.
    pub fn none(alloc: Global) -> InvariantRows
        ensures { result ≡ [] }
    {
        InvariantRows {
            rows: Vec::new(alloc),
            readers: Vec::new(alloc),
        }
    }

    /// How many invariants have a row beside them.
    pub(crate) fn len(&self) -> usize
        ensures { result ≡ length self.now }
    {
        self.rows.len()
    }

    /// The places of the invariants that read a row, as far as a row stands beside them. In constant time.
    pub(crate) fn readers(&self, row: u32) -> &[usize]
        ensures { (place : ℕ) → place < length self.now → get_or self.now place 0 ≡ row → Contains result.now place }
    {
        match self.readers.get(row as usize) {
            Some(places) => places,
            None => &[],
        }
    }
}

/// The row that each of these invariants reads, for `play_kept`, up to the first that reads more than one (our own): a script's
/// invariants read the fields of their own actor alone, so of those it gives all. In time linear in the invariants, with a list for each row
/// up to the last that is read.
pub fn rows_of_invariants(
    alloc: Global,
    invariants: &[Formula],
) -> Result<InvariantRows, AllocError>
    ensures rows { IfOk result (λ rows. rows ≡ rows_read (terms_of invariants.now)) }
    ensures fit { IfOk result (λ rows. HaveRows rows (terms_of invariants.now)) }
{
    let rows = read_rows(alloc, invariants)?;
    let readers = readers_of(alloc, &rows)?;
    Ok(InvariantRows { rows, readers })
}

// Of each row the places in which it stands.
fn readers_of(alloc: Global, rows: &[u32]) -> Result<Vec<Vec<usize>>, AllocError>
    ensures { IfOk result (λ readers. AreListed (places_of readers.items) rows.now) }
{
    let mut readers = Vec::new(alloc);
    for place in 0..rows.len() {
        add_reader(alloc, &mut readers, rows[place], place)?;
    }
    Ok(readers)
}

// Notes that a row stands in this place.
fn add_reader(
    alloc: Global,
    readers: &mut Vec<Vec<usize>>,
    row: u32,
    place: usize,
) -> Result<(), AllocError>
    ensures there { OnOk result (Contains (get_or (places_of readers.new.items) row []) place) }
    ensures kept { OnOk result ((k p : ℕ) → Contains (get_or (places_of readers.old.items) k []) p → Contains (get_or (places_of readers.new.items) k []) p) }
{
    reach(alloc, readers, row)?;
    readers[row as usize].push(place)?;
    Ok(())
}

// Makes a list for this row, and for those before it.
fn reach(alloc: Global, readers: &mut Vec<Vec<usize>>, row: u32) -> Result<(), AllocError>
    ensures there { OnOk result (row < length readers.new.items) }
    ensures same { (k : ℕ) → get_or (places_of readers.new.items) k [] ≡ get_or (places_of readers.old.items) k [] }
{
    while readers.len() <= row as usize {
        readers.push(Vec::new(alloc))?;
    }
    Ok(())
}

fn read_rows(alloc: Global, invariants: &[Formula]) -> Result<Vec<u32>, AllocError>
    ensures { IfOk result (λ rows. rows.items ≡ rows_read (terms_of invariants.now)) }
{
    let mut rows = Vec::new(alloc);
    for invariant in invariants {
        let row = row_read(invariant);
        if !reads_only(invariant, row) {
            return Ok(rows);
        }
        rows.push(row)?;
    }
    Ok(rows)
}

// The row that an expression reads, if it reads one alone.
fn row_read(formula: &Formula) -> u32
    ensures { result ≡ row_of (term_of formula.now) }
{
    first_row(formula).unwrap_or(0)
}

// The row of the field that stands first in an expression.
fn first_row(formula: &Formula) -> Option<u32>
    ensures { result ≡ first_row_of (term_of formula.now) }
{
    match formula {
        Formula::Field(place) => Some(place.actor),
        Formula::Negate(e) | Formula::Not(e) => first_row(e),
        Formula::Binary(_, left, right) => match first_row(left) {
            Some(row) => Some(row),
            None => first_row(right),
        },
        Formula::Number(_)
        | Formula::Variable(_)
        | Formula::Local(_, _)
        | Formula::Priority
        | Formula::Cancelled => None,
    }
}

// Whether an expression reads no other row.
fn reads_only(formula: &Formula, row: u32) -> bool
    ensures { result ≡ term_reads_only row (term_of formula.now) }
{
    match formula {
        Formula::Field(place) => place.actor == row,
        Formula::Negate(e) | Formula::Not(e) => reads_only(e, row),
        Formula::Binary(_, left, right) => reads_only(left, row) && reads_only(right, row),
        Formula::Number(_)
        | Formula::Variable(_)
        | Formula::Local(_, _)
        | Formula::Priority
        | Formula::Cancelled => true,
    }
}
