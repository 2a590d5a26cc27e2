//! Whether one turn does what another one did.

ghost use Rattle.std.specs.Prelude.{◌≡◌, List, IfOk, IfSome, IsTrue, Some, length, option_map, slice_get, take};
ghost use Rattle.script_code.specs.Seen.{rows_of};
ghost use Rattle.explorer_progress.specs.HintsInside.{ArePlayed, IsAgain, IsRecordAt, IsSameTurn};
ghost use Rattle.explorer_progress.specs.Rounds.{IsAtLimit, changes_at, fields_in, told};
ghost use Rattle.swift_journal.specs.Records.{RecordView};
ghost use Rattle.swift_script.specs.Scripts.{ScriptView};

use crate::hint::RepeatedTask;
use crate::turns::TurnAt;
use run_pictures::{Change, TurnValues, turn_values};
use std::alloc::{AllocError, Global};
use swift_journal::{BriefExit, Checkpoint, Journal, Record};
use swift_report::Report;
use swift_script::Script;
use swift_types::{Fault, Resume};

/// A report, and what each turn of its journals did to the fields.
#[derive(Drop)]
pub(crate) struct PlayedReport {
    pub report: Report,
    pub values: Vec<Vec<TurnValues>>,
}

// The fields of an executor before the turns of its journal.
fn first_fields(checkpoints: &[Checkpoint], executor: usize) -> &[Vec<i64>]
    ensures { rows_of result.now ≡ fields_in (slice_get checkpoints.now executor) }
{
    match checkpoints.get(executor) {
        Some(checkpoint) => checkpoint.fields(),
        None => &[],
    }
}

// What each turn of the journals of a report does to the fields.
fn played_turns(
    alloc: Global,
    script: &Script,
    report: &Report,
) -> Result<Vec<Vec<TurnValues>>, AllocError>
    ensures { IfOk result (λ values. ArePlayed script.now report.now values.items) }
{
    let mut values = Vec::new(alloc);
    for executor in 0..report.journals.len() {
        let start = first_fields(&report.checkpoints, executor);
        values.push(turn_values(alloc, script, start, &report.journals[executor])?)?;
    }
    Ok(values)
}

/// Plays the turns of a report once more.
pub(crate) fn played(
    alloc: Global,
    script: &Script,
    report: Report,
) -> Result<PlayedReport, AllocError>
    ensures report { IfOk result (λ run. run.report ≡ report) }
    ensures values { IfOk result (λ run. ArePlayed script.now report run.values.items) }
{
    let values = played_turns(alloc, script, &report)?;
    Ok(PlayedReport { report, values })
}

fn is_same_change(one: Change, other: Change) -> bool
    ensures { IsTrue result → one ≡ other }
{
    one.actor == other.actor
        && one.field == other.field
        && one.before == other.before
        && one.after == other.after
}

fn are_same_changes(ones: &[Change], others: &[Change]) -> bool
    ensures { IsTrue result → ones.now ≡ others.now }
{
    if ones.len() != others.len() {
        return false;
    }
    for place in 0..ones.len() {
        if !is_same_change(ones[place], others[place]) {
            return false;
        }
    }
    true
}

// Whether the turn at a place of a journal is that at an earlier one again but for its number, and neither makes or cancels anything.
fn is_same_turn(
    alloc: Global,
    journal: &Journal,
    scratch: &mut Journal,
    before: usize,
    place: usize,
) -> Result<bool, AllocError>
    ensures { IfOk result (λ yes. IsTrue yes → IsSameTurn journal.now before place) }
{
    if before >= journal.len() || place >= journal.len() {
        return Ok(false);
    }
    let found = journal.read(alloc, before)?;
    if !found.effects.is_empty() {
        return Ok(false);
    }
    let turn = Record {
        task: found.task,
        number: journal.number(place),
        worker: found.worker,
        frame: &found.frame,
        outer: &found.outer,
        resume: found.resume,
        env: found.env,
        exit: &found.exit,
        effects: &found.effects,
        after: found.after.as_ref(),
    };
    journal.has(place, &turn, scratch)
}

impl PlayedReport {
    // What a turn did to the fields.
    fn changes(&self, turn: TurnAt) -> Option<&[Change]>
        ensures { IfSome result (λ changes. (script : ScriptView) → ArePlayed script self.now.report self.now.values.items → changes_at script self.now.report turn.executor turn.place ≡ Some changes.now) }
    {
        let turns = self.values.get(turn.executor)?;
        let values = turns.get(turn.place)?;
        Some(&values.changes)
    }

    /// The task of a turn, and its method.
    pub(crate) fn task(&self, turn: TurnAt) -> Option<RepeatedTask>
        ensures { IfSome result (λ one. (r : RecordView) × IsRecordAt self.now.report turn r × (one ≡ told r)) }
    {
        let journal = self.report.journals.get(turn.executor)?;
        if turn.place < journal.len() {
            Some(RepeatedTask {
                task: journal.task(turn.place),
                method: journal.method(turn.place),
            })
        } else {
            None
        }
    }

    /// How a turn ended.
    pub(crate) fn exit(&self, turn: TurnAt) -> Option<BriefExit> {
        let journal = self.report.journals.get(turn.executor)?;
        if turn.place < journal.len() {
            Some(journal.exit(turn.place))
        } else {
            None
        }
    }

    /// Whether a turn begins with the fault of a task that has had all its turns.
    pub(crate) fn is_at_limit(&self, turn: TurnAt) -> bool
        ensures { IsTrue result → (r : RecordView) × IsRecordAt self.now.report turn r × IsAtLimit r }
    {
        match self.report.journals.get(turn.executor) {
            Some(journal) => {
                turn.place < journal.len()
                    && matches!(journal.resume(turn.place), Resume::Fault(Fault::Turns))
            }
            None => false,
        }
    }

    /// Whether a turn does what an earlier one of its task did, and nothing that makes another state but for its fields: it begins with the
    /// same frame and is given the same, it leaves the same, changes the same fields from the same values, and makes and cancels nothing.
    pub(crate) fn is_again(
        &self,
        alloc: Global,
        scratch: &mut Journal,
        earlier: TurnAt,
        later: TurnAt,
    ) -> Result<bool, AllocError>
        ensures { IfOk result (λ yes. IsTrue yes → IsAgain self.now earlier later) }
    {
        if earlier.task.0 != later.task.0 || earlier.executor != later.executor {
            return Ok(false);
        }
        let Some(did) = self.changes(earlier) else {
            return Ok(false);
        };
        let Some(does) = self.changes(later) else {
            return Ok(false);
        };
        if !are_same_changes(did, does) {
            return Ok(false);
        }
        let Some(journal) = self.report.journals.get(earlier.executor) else {
            return Ok(false);
        };
        is_same_turn(alloc, journal, scratch, earlier.place, later.place)
    }
}
