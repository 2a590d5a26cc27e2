//! The bindings that stand in a task, innermost first (SE-0311).

ghost use Rattle.std.specs.Prelude.{◌≡◌, ℕ, ℤ, ◌<◌, ◌≤◌, ◌-◌, ◌^◌, [], ◌∷◌, None, length, drop, reverse, slice_index_or, vec_len, OnOk, OnErr, IfOk};

use std::alloc::{AllocError, Global};
use std::marker::Model;
use swift_types::LocalId;

/// A binding, and the place of the next outer binding of the same local.
#[derive(Clone, Copy)]
struct BindingEntry {
    local: LocalId,
    value: i64,
    below: Option<usize>,
}

/// The bindings of task locals that stand in a task, each a local and its value (SE-0311). Contracts see a list of
/// pairs of a local's number and its value, innermost first.
///
/// A read takes constant time however deep the bindings are: a table has the place of each local's innermost
/// binding, and each binding the place of the next outer one of its local. The table is as long as the greatest
/// number of a local that was ever bound, plus one: locals are meant to be numbered densely from 0.
pub struct Bindings {
    // Outermost first.
    entries: Vec<BindingEntry>,
    // By the local's number.
    newest: Vec<Option<usize>>,
}

impl Drop for Bindings {
    fn drop(self) {
        let Bindings { entries, newest } = self;
        drop(entries);
        drop(newest);
    }
}

impl Model for Bindings {
    ghost use Rattle.std.specs.Prelude.{ℕ, ℤ, List};

    ghost Value = { List (ℕ × ℤ) };

    ghost use Rattle.swift_locals.specs.BindingsInside.{pairs_of, IsBindings};

    ghost view = { λ b. pairs_of b.entries.items };

    ghost invariant = { IsBindings };
}

/// Lengthens a table by `None`s, so that it has this index. An `Err` says that a growth was refused.
fn reach(table: &mut Vec<Option<usize>>, index: usize) -> Result<(), AllocError>
    requires { index < 2 ^ 32 }
    ensures reached { OnOk result (index < vec_len table.new) }
    ensures same { (i : ℕ) → slice_index_or table.new.items i None ≡ slice_index_or table.old.items i None }
{
    if table.len() <= index {
        table.resize(index + 1, None)?;
    }
    Ok(())
}

/// What the table has at an index: nothing past its end.
fn place_in(table: &[Option<usize>], index: usize) -> Option<usize>
    ensures { result ≡ slice_index_or table.now index None }
{
    if index < table.len() {
        table[index]
    } else {
        None
    }
}

impl Bindings {
    ghost use Rattle.swift_locals.specs.Bindings.{value_of};

    /// No bindings, as in a root and in a detached task. Takes no memory.
    pub fn new(alloc: Global) -> Self
        ensures { result ≡ [] }
    {
        Bindings {
            entries: Vec::new(alloc),
            newest: Vec::new(alloc),
        }
    }

    /// How many bindings stand.
    pub fn depth(&self) -> usize
        ensures { result ≡ length self.now }
    {
        self.entries.len()
    }

    /// Puts a binding in front of the others, as their innermost. Constant time and memory, amortized, once a
    /// local of this number or a greater one was bound. An `Err` says that a growth was refused and leaves the
    /// bindings as they were.
    pub fn bind(&mut self, local: LocalId, value: i64) -> Result<(), AllocError>
        ensures ok { OnOk result (self.new ≡ (local.0, value) ∷ self.old) }
        ensures err { OnErr result (self.new ≡ self.old) }
    {
        let index = local.0 as usize;
        reach(&mut self.newest, index)?;
        let place = self.entries.len();
        let below = self.newest[index];
        self.entries.push(BindingEntry {
            local,
            value,
            below,
        })?;
        self.newest[index] = Some(place);
        Ok(())
    }

    /// Drops the innermost binding, in constant time.
    pub fn unbind(&mut self)
        requires { 0 < length self.old }
        ensures { self.new ≡ drop 1 self.old }
    {
        if let Some(last) = self.entries.pop() {
            self.newest[last.local.0 as usize] = last.below;
        }
    }

    /// The value of the local's innermost binding, in constant time. `None` where it has none: then its declared
    /// default counts.
    pub fn read(&self, local: LocalId) -> Option<i64>
        ensures { result ≡ value_of self.now local.0 }
    {
        let place = place_in(&self.newest, local.0 as usize)?;
        Some(self.entries[place].value)
    }

    /// The binding at a place, counted from the outermost, which is 0: its local and its value. Constant time.
    pub fn entry(&self, place: usize) -> (LocalId, i64)
        requires { place < length self.now }
        ensures { (d : ℕ × ℤ) → slice_index_or (reverse self.now) place d ≡ (result.0.0, result.1) }
    {
        let entry = &self.entries[place];
        (entry.local, entry.value)
    }

    /// Keeps the outermost bindings, as many as are asked for, and drops the others. Takes time by what is dropped.
    pub fn cut(&mut self, depth: usize)
        requires { depth ≤ length self.old }
        ensures { self.new ≡ drop (length self.old - depth) self.old }
    {
        while depth < self.depth() {
            self.unbind();
        }
    }

    /// A second list of these bindings, for a child task. Takes time by the depth and by the length of the table. An `Err`
    /// says that a growth was refused.
    pub fn copy(&self) -> Result<Bindings, AllocError>
        ensures { IfOk result (λ copy. copy ≡ self.now) }
    {
        Ok(Bindings {
            entries: self.entries.clone()?,
            newest: self.newest.clone()?,
        })
    }
}
