//! Changes of reports.

use crate::journals::{
    JournalChange, changed_journal, start_at, with_made, without_frame, without_last,
};
use std::alloc::{AllocError, Global};
use swift_events::{Event, Origin};
use swift_journal::{Checkpoint, Journal};
use swift_log::EventLog;
use swift_report::Report;
use swift_types::{Ending, Env, TaskId};
use test_support::CaseFault;

/// Makes the change that these words tell.
pub fn make(alloc: Global, report: &mut Report, words: &str) -> Result<(), CaseFault> {
    let (change, number) = words.split_once(' ').unwrap_or((words, "0"));
    let Ok(value) = number.parse::<i64>() else {
        return Err(CaseFault::Form);
    };
    match change {
        "nothing" => {}
        "field" => set_field(&mut report.fields, value),
        "records" => set_journal(&mut report.journals, Journal::new(alloc)),
        "end" => end_all(alloc, report, value)?,
        "ending" => set_ending(&mut report.endings, Ending::Value(value)),
        "origin" => set_origin(&mut report.endings, Origin::Detached(TaskId(0))),
        "cancel" => cancel(alloc, report)?,
        "worker" => change_turns(alloc, &mut report.journals, JournalChange::Worker(7))?,
        "checkpoint" => change_start(alloc, &mut report.checkpoints, value)?,
        "folded" => leave_out_folded(alloc, &mut report.checkpoints)?,
        "frame" => leave_out_frame(alloc, &mut report.checkpoints)?,
        "made" => change_made(alloc, report, value)?,
        _ => return Err(CaseFault::Form),
    }
    Ok(())
}

fn set_field(fields: &mut [Vec<Vec<i64>>], value: i64) {
    if fields.is_empty() || fields[0].is_empty() || fields[0][0].is_empty() {
        return;
    }
    fields[0][0][0] = value;
}

fn set_journal(journals: &mut [Journal], journal: Journal) {
    if !journals.is_empty() {
        journals[0] = journal;
    }
}

// Each task that ends by the log ends with this value.
fn end_all(alloc: Global, report: &mut Report, value: i64) -> Result<(), AllocError> {
    let log = with_ends(alloc, &report.log, value)?;
    report.log = log;
    Ok(())
}

// The events of a log, by which each task that ends ends with this value.
fn with_ends(alloc: Global, log: &EventLog, value: i64) -> Result<EventLog, AllocError> {
    let mut changed = Vec::new(alloc);
    for place in 0..log.len() {
        match log.event(place) {
            Event::End(task, _) => changed.push(Event::End(task, Ending::Value(value)))?,
            other => changed.push(other)?,
        }
    }
    log_of(alloc, &changed)
}

// A log of these events.
fn log_of(alloc: Global, events: &[Event]) -> Result<EventLog, AllocError> {
    let mut log = EventLog::new(alloc);
    for event in events {
        log.reserve(1)?;
        log.push(*event);
    }
    Ok(log)
}

fn set_ending(endings: &mut [(Origin, Ending)], ending: Ending) {
    if !endings.is_empty() {
        endings[0].1 = ending;
    }
}

fn set_origin(endings: &mut [(Origin, Ending)], origin: Origin) {
    if !endings.is_empty() {
        endings[0].0 = origin;
    }
}

// The first task is cancelled before its first turn, which has seen it.
fn cancel(alloc: Global, report: &mut Report) -> Result<(), AllocError> {
    let log = with_cancel(alloc, &report.log)?;
    report.log = log;
    change_turns(alloc, &mut report.journals, JournalChange::Flag)
}

// The events of a log, and before the first of them that begins a turn that task 0 is cancelled.
fn with_cancel(alloc: Global, log: &EventLog) -> Result<EventLog, AllocError> {
    let mut changed = Vec::new(alloc);
    for place in 0..log.len() {
        match log.event(place) {
            Event::Begin {
                task,
                turn: number,
                env,
            } if place < 4 => {
                changed.push(Event::CancelTask(TaskId(0)))?;
                changed.push(Event::Begin {
                    task,
                    turn: number,
                    env: with_flag(env),
                })?;
            }
            other => changed.push(other)?,
        }
    }
    log_of(alloc, &changed)
}

// The environment of a task that was cancelled.
fn with_flag(env: Env) -> Env {
    Env {
        priority: env.priority,
        cancelled: true,
        room: env.room,
    }
}

// Changes the turns of the first executor.
fn change_turns(
    alloc: Global,
    journals: &mut [Journal],
    change: JournalChange,
) -> Result<(), AllocError> {
    if !journals.is_empty() {
        let journal = changed_journal(alloc, &journals[0], change)?;
        journals[0] = journal;
    }
    Ok(())
}

fn change_start(
    alloc: Global,
    checkpoints: &mut [Checkpoint],
    value: i64,
) -> Result<(), AllocError> {
    if !checkpoints.is_empty() {
        start_at(alloc, &mut checkpoints[0], value)?;
    }
    Ok(())
}

fn leave_out_folded(alloc: Global, checkpoints: &mut [Checkpoint]) -> Result<(), CaseFault> {
    if !checkpoints.is_empty() {
        let checkpoint = without_last(alloc, &checkpoints[0])?;
        checkpoints[0] = checkpoint;
    }
    Ok(())
}

fn leave_out_frame(alloc: Global, checkpoints: &mut [Checkpoint]) -> Result<(), CaseFault> {
    if !checkpoints.is_empty() {
        let checkpoint = without_frame(alloc, &checkpoints[0])?;
        checkpoints[0] = checkpoint;
    }
    Ok(())
}

fn change_made(alloc: Global, report: &mut Report, value: i64) -> Result<(), CaseFault> {
    let Ok(made) = u64::try_from(value) else {
        return Err(CaseFault::Form);
    };
    if report.checkpoints.is_empty() {
        return Ok(());
    }
    let (checkpoint, task) = with_made(alloc, &report.checkpoints[0], made)?;
    report.checkpoints[0] = checkpoint;
    Ok(change_turns(alloc, &mut report.journals, JournalChange::Made(task, made))?)
}
