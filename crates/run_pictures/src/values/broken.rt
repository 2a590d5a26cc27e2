//! Which turn was undone by an invariant.

ghost use Rattle.std.specs.Prelude.{◌≡◌, ◌<◌, length, slice_index_or, IfOk};
ghost use Rattle.swift_journal.specs.Records.{RecordView};
ghost use Rattle.run_pictures.specs.Breaking.{breaks_at, breaks_in, is_broke, is_turn};
ghost use Rattle.run_pictures.specs.Values.{values_views};

use crate::values::change::{Outcome, TurnValues};
use crate::values::turns::turn_values;
use std::alloc::{AllocError, Global};
use swift_journal::Journal;
use swift_report::Report;
use swift_script::Script;
use swift_types::TaskId;

// Whether a turn was undone, since it would have left an invariant false.
fn is_broke(outcome: Outcome) -> bool
    ensures { result ≡ is_broke outcome }
{
    match outcome {
        Outcome::Broke(_) => true,
        _ => false,
    }
}

// Whether the turn at a place of a journal is that of a task with this number.
fn is_turn(journal: &Journal, place: usize, task: TaskId, number: u32) -> bool
    requires { place < length journal.now }
    ensures { (d : RecordView) → result ≡ is_turn task.0 number (slice_index_or journal.now place d) }
{
    journal.task(place).0 == task.0 && journal.number(place) == number
}

// Whether the turn of a task with this number, which is in a journal whose turns did this, was undone by an invariant.
fn breaks_in(journal: &Journal, values: &[TurnValues], task: TaskId, number: u32) -> bool
    ensures { result ≡ breaks_in task.0 number journal.now (values_views values.now) }
{
    for place in 0..journal.len().min(values.len()) {
        if is_turn(journal, place, task, number) {
            return is_broke(values[place].outcome);
        }
    }
    false
}

/// Whether the turn of a task with this number, which a report has in a journal, was undone by an invariant (our own). Each turn of the
/// journals up to its own is played once more.
///
/// # Errors
///
/// `AllocError` where no memory is left for a turn.
pub fn breaks_invariant(
    alloc: Global,
    script: &Script,
    report: &Report,
    task: TaskId,
    number: u32,
) -> Result<bool, AllocError>
    ensures { IfOk result (λ yes. yes ≡ breaks_at script.now task.0 number report.now.checkpoints.items report.now.journals.items) }
{
    for executor in 0..report.checkpoints.len().min(report.journals.len()) {
        let start = report.checkpoints[executor].fields();
        let values = turn_values(alloc, script, start, &report.journals[executor])?;
        if breaks_in(&report.journals[executor], &values, task, number) {
            return Ok(true);
        }
    }
    Ok(false)
}
