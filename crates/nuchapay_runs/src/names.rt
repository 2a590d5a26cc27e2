//! Where a turn stands.

ghost use Rattle.std.specs.Prelude.{◌≡◌, ◌<◌, IfSome, IsTrue, length, slice_index_or};
ghost use Rattle.swift_journal.specs.Checkpoints.{FoldedView};
ghost use Rattle.swift_journal.specs.Records.{RecordView};
ghost use Rattle.nuchapay_runs.specs.Explains.{HasFolded, IsTurnAt, Stands};

use swift_journal::{Checkpoint, Journal};
use swift_report::Report;
use swift_types::TaskId;

/// Where a turn stands in a report.
#[derive(Clone, Copy)]
pub enum Found {
    /// In the journal of this executor, at this place.
    Journal(usize, usize),
    /// In the checkpoint of an executor.
    Folded,
    /// Nowhere.
    Nowhere,
}

// Whether the turn at a place of a journal is this one.
fn is_turn(journal: &Journal, place: usize, task: TaskId, number: u32) -> bool
    requires { place < length journal.now }
    ensures { IsTrue result → (d : RecordView) → ((slice_index_or journal.now place d).task ≡ task.0) × ((slice_index_or journal.now place d).number ≡ number) }
{
    journal.task(place) == task && journal.number(place) == number
}

// Whether the folded turn at a place is this one.
fn is_folded(checkpoint: &Checkpoint, place: usize, task: TaskId, number: u32) -> bool
    requires { place < length checkpoint.now.view.folded }
    ensures { IsTrue result → (d : FoldedView) → ((slice_index_or checkpoint.now.view.folded place d).task ≡ task.0) × ((slice_index_or checkpoint.now.view.folded place d).number ≡ number) }
{
    checkpoint.task(place) == task && checkpoint.number(place) == number
}

// The place of a turn in a journal.
fn place_of(journal: &Journal, task: TaskId, number: u32) -> Option<usize>
    ensures { IfSome result (λ place. IsTurnAt journal.now place task.0 number) }
{
    for place in 0..journal.len() {
        if is_turn(journal, place, task, number) {
            return Some(place);
        }
    }
    None
}

// The place of a turn among those that were folded.
fn folded_place_of(checkpoint: &Checkpoint, task: TaskId, number: u32) -> Option<usize>
    ensures { IfSome result (λ place. HasFolded checkpoint.now.view.folded task.0 number) }
{
    for place in 0..checkpoint.len() {
        if is_folded(checkpoint, place, task, number) {
            return Some(place);
        }
    }
    None
}

/// Where a turn stands. Linear in the report.
pub(crate) fn find_turn(report: &Report, task: TaskId, number: u32) -> Found
    ensures { Stands report.now task.0 number result }
{
    for executor in 0..report.journals.len() {
        if let Some(place) = place_of(&report.journals[executor], task, number) {
            return Found::Journal(executor, place);
        }
    }
    for executor in 0..report.checkpoints.len() {
        if folded_place_of(&report.checkpoints[executor], task, number).is_some() {
            return Found::Folded;
        }
    }
    Found::Nowhere
}
