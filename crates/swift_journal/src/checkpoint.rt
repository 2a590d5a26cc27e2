//! The checkpoint of an executor.

ghost use Rattle.std.specs.Prelude.{◌≡◌, [], ◌++◌, ◌<◌, ◌^◌, drop, length, map, slice_index_or, take, IfOk, OnOk, OnErr};
ghost use Rattle.script_code.specs.Seen.{rows_of};
ghost use Rattle.swift_journal.specs.Checkpoints.{folded_of};

use crate::brief::BriefExit;
use crate::folded::Folded;
use crate::journal::Journal;
use crate::turns::FoldedTurns;
use std::alloc::{AllocError, Global};
use std::marker::Model;
use swift_types::TaskId;

/// Where the replay of a journal begins: the fields of an executor's actors, and what is left of the turns that led there
/// (our own). Contracts see both, and the turns for which there is room.
///
/// A turn that was folded takes 32 bytes, and eight for each number of how it ended and of the frame after it: 40 bytes where
/// a frame of one variable goes on after a yield. Effects take a list of their own.
pub struct Checkpoint {
    fields: Vec<Vec<i64>>,
    // The turns that were folded, and after them those that are written ahead.
    turns: FoldedTurns,
    // How many were folded.
    count: usize,
}

impl Drop for Checkpoint {
    fn drop(self) {
        let Checkpoint {
            fields,
            turns,
            count: _,
        } = self;
        drop(fields);
        drop(turns);
    }
}

impl Model for Checkpoint {
    ghost use Rattle.std.specs.Prelude.{◌≤◌, ◌<◌, ◌^◌, drop, length, take};
    ghost use Rattle.script_code.specs.Seen.{rows_of};
    ghost use Rattle.swift_journal.specs.Checkpoints.{CheckpointRoomView};

    ghost Value = { CheckpointRoomView };

    ghost view = { λ c. record { view = record { fields = rows_of c.fields.items; folded = take c.count c.turns }; room = drop c.count c.turns } };

    ghost invariant = { λ c. (c.count ≤ length c.turns) × (c.count < 2 ^ 63) };
}

impl Checkpoint {
    ghost use Rattle.swift_journal.specs.Checkpoints.{FoldedView, folded_view, folds};
    ghost use Rattle.swift_journal.specs.Records.{brief_of};

    /// The checkpoint of an executor that has run no turn, whose actors' fields are these. It takes no memory.
    pub fn new(alloc: Global, fields: Vec<Vec<i64>>) -> Self
        ensures { result ≡ record { view = record { fields = rows_of fields.items; folded = [] }; room = [] } }
    {
        Checkpoint {
            fields,
            turns: FoldedTurns::new(alloc),
            count: 0,
        }
    }

    /// Makes room for the turns of a journal, so that the journal as it is now can be folded without memory. Room that was
    /// made before is given up. In time by the size of the journal. An `Err` says that a growth was refused, or that the
    /// turns that were folded have more than 2^32 - 1 numbers or effects.
    pub fn make_room(&mut self, journal: &Journal) -> Result<(), AllocError>
        ensures same { self.new.view ≡ self.old.view }
        ensures ok { OnOk result (self.new.room ≡ map folded_of journal.now) }
        ensures err { OnErr result (self.new.room ≡ []) }
    {
        self.turns.truncate(self.count);
        write_ahead(&mut self.turns, journal)
    }

    /// Folds the turns of a journal for which there is room: they come after those that were folded before, the fields
    /// become those after them, and the journal is empty and keeps its room. It takes no memory, and constant time but for
    /// the fields that were there.
    pub fn fold(&mut self, journal: &mut Journal, fields: Vec<Vec<i64>>)
        requires { self.old.room ≡ map folded_of journal.old }
        ensures folded { self.new.view ≡ folds self.old.view journal.old (rows_of fields.items) }
        ensures room { self.new.room ≡ [] }
        ensures journal { journal.new ≡ [] }
    {
        self.fields = fields;
        self.count = self.turns.len();
        journal.clear();
    }

    /// The fields, of each actor of the executor in text order.
    pub fn fields(&self) -> &[Vec<i64>]
        ensures { rows_of result.now ≡ self.now.view.fields }
    {
        &self.fields
    }

    /// How many turns were folded.
    pub fn len(&self) -> usize
        ensures len { result ≡ length self.now.view.folded }
        ensures limit { length self.now.view.folded < 2 ^ 63 }
    {
        self.count
    }

    /// The task of the turn at a place. Constant time, as the readers below.
    pub fn task(&self, place: usize) -> TaskId
        requires { place < length self.now.view.folded }
        ensures { (d : FoldedView) → result.0 ≡ (slice_index_or self.now.view.folded place d).task }
    {
        self.turns.task(place)
    }

    /// Its number among the turns of its task, from 0.
    pub fn number(&self, place: usize) -> u32
        requires { place < length self.now.view.folded }
        ensures { (d : FoldedView) → result ≡ (slice_index_or self.now.view.folded place d).number }
    {
        self.turns.number(place)
    }

    /// How it ended, without the arguments of a call.
    pub fn exit(&self, place: usize) -> BriefExit
        requires { place < length self.now.view.folded }
        ensures { (d : FoldedView) → result ≡ brief_of (slice_index_or self.now.view.folded place d).exit }
    {
        self.turns.exit(place)
    }

    /// The whole of what is left of it, in time and memory by its size. An `Err` says that a growth was refused.
    pub fn read(&self, alloc: Global, place: usize) -> Result<Folded, AllocError>
        requires { place < length self.now.view.folded }
        ensures { IfOk result (λ turn. (d : FoldedView) → folded_view turn ≡ slice_index_or self.now.view.folded place d) }
    {
        self.turns.read(alloc, place)
    }
}

// Writes the turns of a journal after others. Where a growth is refused those are as they were.
fn write_ahead(turns: &mut FoldedTurns, journal: &Journal) -> Result<(), AllocError>
    ensures ok { OnOk result (turns.new ≡ turns.old ++ map folded_of journal.now) }
    ensures err { OnErr result (turns.new ≡ turns.old) }
{
    let count = turns.len();
    for place in 0..journal.len() {
        if turns.push(&journal.ended(place)).is_err() {
            turns.truncate(count);
            return Err(AllocError);
        }
    }
    Ok(())
}
