//! Texts of what a search has found.

ghost use Rattle.std.specs.Prelude.{◌≡◌, ◌<◌, ◌≤◌, ◌++◌, OnOk, IfOk, decimal, length, map};
ghost use Rattle.script_code.specs.Seen.{rows_of};
ghost use Rattle.swift_explorer.specs.FoundText.{begins, began_before, end_text, end_words, ended_text, is_at_limit, many_text, runs, runs_at_once, schedule_text, step_text, steps_text, to_go_text, turn_text, turns_before};

use crate::exploration::FoundOutcomes;
use crate::moves::Move;
use crate::outcome::RunOutcome;
use itoa::Buffer;
use std::alloc::{AllocError, Global};
use swift_log::EventLog;
use swift_report::{Report, report_text};
use swift_script::Script;
use swift_steps::copy_all_fields;
use swift_types::TaskId;

fn put_number(out: &mut Vec<u8>, number: usize) -> Result<(), AllocError>
    ensures { OnOk result (out.new.items ≡ out.old.items ++ decimal number) }
{
    let mut buffer = Buffer::new();
    out.extend_from_slice(buffer.format(number).as_bytes())
}

/// Appends so many of these, in a word: `one` where there is one.
///
/// # Errors
///
/// `AllocError` where no memory is left for them, of which a part may be there.
pub fn put_many(out: &mut Vec<u8>, number: usize, one: &[u8], many: &[u8]) -> Result<(), AllocError>
    ensures { OnOk result (out.new.items ≡ out.old.items ++ many_text number one.now many.now) }
{
    put_number(out, number)?;
    out.extend_from_slice(b" ")?;
    if number == 1 {
        out.extend_from_slice(one)
    } else {
        out.extend_from_slice(many)
    }
}

fn begins(task: TaskId, step: Move) -> bool
    ensures { result ≡ begins task.0 step }
{
    match step {
        Move::Begin(begun) => begun.0 == task.0,
        _ => false,
    }
}

fn runs(task: TaskId, step: Move) -> bool
    ensures { result ≡ runs task.0 step }
{
    match step {
        Move::Run(run) => run.0 == task.0,
        _ => false,
    }
}

// How many turns of a task begin before this place.
fn turns_before(task: TaskId, path: &[Move], place: usize) -> usize
    requires { place ≤ length path.now }
    ensures { result ≡ turns_before task.0 path.now place }
{
    let mut turns: usize = 0;
    for at in 0..place {
        if begins(task, path[at]) {
            turns += 1;
        }
    }
    turns
}

fn put_turn(out: &mut Vec<u8>, task: TaskId, number: usize) -> Result<(), AllocError>
    ensures { OnOk result (out.new.items ≡ out.old.items ++ turn_text task.0 number) }
{
    out.extend_from_slice(b"t")?;
    put_number(out, task.0 as usize)?;
    out.extend_from_slice(b".")?;
    put_number(out, number)
}

// Whether the step after a place runs the turn that begins there.
fn runs_at_once(task: TaskId, path: &[Move], place: usize) -> bool
    requires { place < length path.now }
    ensures { result ≡ runs_at_once task.0 path.now place }
{
    match path.get(place + 1) {
        Some(step) => runs(task, *step),
        None => false,
    }
}

// Whether the turn that runs at a place began right before.
fn began_before(task: TaskId, path: &[Move], place: usize) -> bool
    requires { place ≤ length path.now }
    ensures { result ≡ began_before task.0 path.now place }
{
    if place == 0 {
        return false;
    }
    begins(task, path[place - 1])
}

// The turn of a task that begins at a place.
fn put_begun(out: &mut Vec<u8>, path: &[Move], place: usize, task: TaskId) -> Result<(), AllocError>
    requires { place < length path.now }
    ensures { OnOk result (out.new.items ≡ out.old.items ++ step_text path.now place (Move.Begin task)) }
{
    out.extend_from_slice(b" ")?;
    put_turn(out, task, turns_before(task, path, place))?;
    if runs_at_once(task, path, place) {
        return Ok(());
    }
    out.extend_from_slice(b"..")
}

// The turn of a task that runs at a place.
fn put_run(out: &mut Vec<u8>, path: &[Move], place: usize, task: TaskId) -> Result<(), AllocError>
    requires { place < length path.now }
    ensures { OnOk result (out.new.items ≡ out.old.items ++ step_text path.now place (Move.Run task)) }
{
    if began_before(task, path, place) {
        return Ok(());
    }
    out.extend_from_slice(b" ..")?;
    put_turn(out, task, turns_before(task, path, place).saturating_sub(1))
}

fn put_step(out: &mut Vec<u8>, path: &[Move], place: usize, step: Move) -> Result<(), AllocError>
    requires { place < length path.now }
    ensures { OnOk result (out.new.items ≡ out.old.items ++ step_text path.now place step) }
{
    match step {
        Move::Add => Ok(()),
        Move::Begin(task) => put_begun(out, path, place, task),
        Move::Run(task) => put_run(out, path, place, task),
    }
}

// The turns of a history, in order.
fn put_steps(out: &mut Vec<u8>, path: &[Move]) -> Result<(), AllocError>
    ensures { OnOk result (out.new.items ≡ out.old.items ++ steps_text path.now 0 path.now) }
{
    for place in 0..path.len() {
        put_step(out, path, place, path[place])?;
    }
    Ok(())
}

/// Appends the line of a schedule (our own): its turns, by task and number. A turn during which others begin or end stands twice: as it
/// begins, with two dots after it, and as it ends, with two dots before it.
///
/// # Errors
///
/// `AllocError` where no memory is left for the line, of which a part may be there.
pub fn put_schedule(out: &mut Vec<u8>, path: &[Move]) -> Result<(), AllocError>
    ensures { OnOk result (out.new.items ≡ out.old.items ++ schedule_text path.now) }
{
    out.extend_from_slice(b"schedule")?;
    put_steps(out, path)?;
    out.extend_from_slice(b"\n")
}

/// The line of a schedule, as `put_schedule` has it (our own).
///
/// # Errors
///
/// `AllocError` where no memory is left for it.
pub fn schedule_text(alloc: Global, path: &[Move]) -> Result<Vec<u8>, AllocError>
    ensures { IfOk result (λ text. text.items ≡ schedule_text path.now) }
{
    let mut out = Vec::new(alloc);
    put_schedule(&mut out, path)?;
    Ok(out)
}

// A report that has the tasks and the fields of an outcome, and nothing else.
fn ended_report(alloc: Global, outcome: &RunOutcome) -> Result<Report, AllocError>
    ensures endings { IfOk result (λ report. report.endings.items ≡ outcome.now.endings.items) }
    ensures fields { IfOk result (λ report. map (λ rows. rows_of rows.items) report.fields.items ≡ map (λ rows. rows_of rows.items) outcome.now.fields.items) }
{
    let endings = Vec::from_slice(alloc, &outcome.endings)?;
    let fields = copy_all_fields(alloc, &outcome.fields)?;
    Ok(Report {
        journals: Vec::new(alloc),
        checkpoints: Vec::new(alloc),
        log: EventLog::new(alloc),
        endings,
        fields,
    })
}

/// Appends the tasks and the fields of an outcome, as a report without journals has them.
///
/// # Errors
///
/// `AllocError` where no memory is left for them.
pub fn put_ended(
    alloc: Global,
    out: &mut Vec<u8>,
    script: &Script,
    outcome: &RunOutcome,
) -> Result<(), AllocError>
    ensures { OnOk result (out.new.items ≡ out.old.items ++ ended_text script.now outcome.now) }
{
    let report = ended_report(alloc, outcome)?;
    let text = report_text(alloc, script, &report, true)?;
    out.extend_from_slice(&text)
}

// Whether a search came to its end, and else why not.
fn end_words(found: &FoundOutcomes) -> &'static [u8]
    ensures { result.now ≡ end_words found.now }
{
    if found.is_complete {
        b", found by a search that came to its end after "
    } else if found.met_limit {
        b", and there may be more: the limit was met after "
    } else if found.ran_short {
        b", and there may be more: the room for tasks ran short after "
    } else {
        b", and there may be more: not every history was followed after "
    }
}

impl FoundOutcomes {
    /// Whether the search has left a history out since it could keep no more, and has not come to its end.
    pub fn is_at_limit(&self) -> bool
        ensures { result ≡ is_at_limit self.now }
    {
        !self.is_complete && self.met_limit
    }
}

// From how many states a search has still to go on, where it has met its limit; and the end of the line.
fn put_to_go(out: &mut Vec<u8>, found: &FoundOutcomes) -> Result<(), AllocError>
    ensures { OnOk result (out.new.items ≡ out.old.items ++ to_go_text found.now) }
{
    if !found.is_at_limit() {
        return out.extend_from_slice(b"\n");
    }
    out.extend_from_slice(b", ")?;
    put_number(out, found.to_go)?;
    out.extend_from_slice(b" of them still to go\n")
}

/// Appends how far a search came, to the end of the line: whether to its end, and else why not; after how many states; and, where it has
/// met its limit, from how many of them it has still to go on.
///
/// # Errors
///
/// `AllocError` where no memory is left for it, of which a part may be there.
pub fn put_end(out: &mut Vec<u8>, found: &FoundOutcomes) -> Result<(), AllocError>
    ensures { OnOk result (out.new.items ≡ out.old.items ++ end_text found.now) }
{
    out.extend_from_slice(end_words(found))?;
    put_many(out, found.states, b"state", b"states")?;
    put_to_go(out, found)
}
