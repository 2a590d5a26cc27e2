//! What a report says at its end.

ghost use Rattle.std.specs.Prelude.{◌≡◌, ◌<◌, ℕ, IfOk, IsTrue, Some, true, length, map, slice_get};
ghost use Rattle.std.specs.Arc.{arc_value};
ghost use Rattle.script_code.specs.Seen.{rows_of};
ghost use Rattle.swift_types.specs.declared.outcome.Ending.{Ending as Ends};
ghost use Rattle.swift_script.specs.Scripts.{executor_count, executor_start, root_count};
ghost use Rattle.swift_events.specs.declared.life.Origin.{Origin as From};
ghost use Rattle.swift_events.specs.Events.{tasks_of};
ghost use Rattle.swift_events.specs.Lives.{life_of};
ghost use Rattle.swift_events.specs.Relations.{opened_by, is_closed};
ghost use Rattle.swift_history.specs.Histories.{IsLegal};
ghost use Rattle.swift_certificate.specs.Reports.{report_view};
ghost use Rattle.swift_certificate.specs.ReplayInside.{AreEndedAt, EndsAt, IsReplay};

use crate::playing::ExecutorProgress;
use crate::replay::Replay;
use std::alloc::{AllocError, Global};
use swift_events::{Event, Origin};
use swift_journal::{Checkpoint, Journal};
use swift_log::EventLog;
use swift_report::Report;
use swift_script::Script;
use swift_tasks::Book;
use swift_types::{Ending, ExecId, TaskId};

fn is_same_event(event: &Event, other: &Event) -> bool
    ensures { IsTrue result → event.now ≡ other.now }
{
    event == other
}

// Whether a log is this one.
fn is_same_log(log: &EventLog, other: &EventLog) -> bool
    ensures { IsTrue result → log.now.events ≡ other.now.events }
{
    if log.len() != other.len() {
        return false;
    }
    for place in 0..log.len() {
        let event = log.event(place);
        let same = other.event(place);
        if !is_same_event(&event, &same) {
            return false;
        }
    }
    true
}

fn is_same_row(row: &[i64], other: &[i64]) -> bool
    ensures { IsTrue result → row.now ≡ other.now }
{
    row == other
}

// Whether the fields of actors are these.
fn are_same_fields(rows: &[Vec<i64>], others: &[Vec<i64>]) -> bool
    ensures { IsTrue result → rows_of rows.now ≡ rows_of others.now }
{
    if rows.len() != others.len() {
        return false;
    }
    for place in 0..rows.len() {
        if !is_same_row(&rows[place], &others[place]) {
            return false;
        }
    }
    true
}

// Whether fields are those that an executor starts with.
fn are_first_fields(
    alloc: Global,
    script: &Script,
    executor: usize,
    rows: &[Vec<i64>],
) -> Result<bool, AllocError>
    requires { executor < executor_count script.now }
    ensures { IfOk result (λ yes. IsTrue yes → rows_of rows.now ≡ executor_start script.now executor) }
{
    script.facts();
    let start = script.executor_start(alloc, ExecId(executor as u32))?;
    Ok(are_same_fields(rows, &start))
}

// Whether an executor was followed to its end, and has these fields there.
fn is_ended(
    alloc: Global,
    script: &Script,
    executor: usize,
    row: &ExecutorProgress,
    own: &[Vec<i64>],
    journal: &Journal,
    checkpoint: &Checkpoint,
    fields: &[Vec<i64>],
) -> Result<bool, AllocError>
    requires { executor < executor_count script.now }
    ensures { IfOk result (λ yes. IsTrue yes → EndsAt script.now executor row.now (rows_of own.now) journal.now checkpoint.now.view (rows_of fields.now)) }
{
    if row.played != journal.len() || row.folded != checkpoint.len() {
        return Ok(false);
    }
    if checkpoint.len() == 0 && !are_first_fields(alloc, script, executor, checkpoint.fields())? {
        return Ok(false);
    }
    Ok(are_same_fields(own, fields))
}

// Whether each executor was.
fn are_ended(
    alloc: Global,
    script: &Script,
    rows: &[ExecutorProgress],
    own: &[Vec<Vec<i64>>],
    report: &Report,
) -> Result<bool, AllocError>
    ensures { IfOk result (λ yes. IsTrue yes → AreEndedAt script.now rows.now (map (λ fields. rows_of fields.items) own.now) (report_view report.now)) }
{
    let count = script.executor_count();
    if rows.len() != count
        || own.len() != count
        || report.journals.len() != count
        || report.checkpoints.len() != count
        || report.fields.len() != count
    {
        return Ok(false);
    }
    for place in 0..count {
        let is_ended = is_ended(
            alloc,
            script,
            place,
            &rows[place],
            &own[place],
            &report.journals[place],
            &report.checkpoints[place],
            &report.fields[place],
        )?;
        if !is_ended {
            return Ok(false);
        }
    }
    Ok(true)
}

// Whether a task comes from there and has ended so.
fn has_ended(book: &Book, task: u32, from: Origin, ending: Ending) -> bool
    ensures origin { IsTrue result → (life_of task book.now.log).origin ≡ Some from }
    ensures ending { IsTrue result → (life_of task book.now.log).ending ≡ Some ending }
{
    let task = TaskId(task);
    book.origin(task) == Some(from) && book.ending(task) == Some(ending)
}

// Whether the tasks of a book have ended as a report says, all of them.
fn have_ended(book: &Book, endings: &[(Origin, Ending)]) -> bool
    ensures many { IsTrue result → length endings.now ≡ tasks_of (root_count book.now.script) book.now.log }
    ensures each { IsTrue result → (t : ℕ) (x : From × Ends) → slice_get endings.now t ≡ Some x → ((life_of t book.now.log).origin ≡ Some x.0) × ((life_of t book.now.log).ending ≡ Some x.1) }
{
    if endings.len() != book.tasks() {
        return false;
    }
    for place in 0..endings.len() {
        let Ok(task) = u32::try_from(place) else {
            return false;
        };
        let (from, ending) = endings[place];
        if !has_ended(book, task, from, ending) {
            return false;
        }
    }
    true
}

// Whether each of the first `tasks` tasks of a book has closed the groups that it has opened.
fn have_closed(book: &Book, tasks: usize) -> bool
    ensures { IsTrue result → (t g : ℕ) → t < tasks → g < opened_by t book.now.log → is_closed t g book.now.log ≡ true }
{
    for place in 0..tasks {
        let Ok(task) = u32::try_from(place) else {
            return false;
        };
        if !book.has_closed_all(TaskId(task)) {
            return false;
        }
    }
    true
}

impl Replay {
    /// Whether a report ends where its history does.
    pub fn agrees(&self, report: &Report) -> Result<bool, AllocError>
        requires { IsReplay (report_view report.now) self.now }
        ensures { IfOk result (λ yes. IsTrue yes → IsLegal (arc_value self.now.history.script) (report_view report.now)) }
    {
        let history = &self.history;
        if history.roots as usize != history.script.root_count()
            || !is_same_log(&report.log, history.book.log())
            || !have_ended(&history.book, &report.endings)
            || !have_closed(&history.book, report.endings.len())
        {
            return Ok(false);
        }
        are_ended(
            history.alloc,
            &history.script,
            &self.rows,
            &history.fields,
            report,
        )
    }
}
