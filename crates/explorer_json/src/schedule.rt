//! Schedules.

ghost use Rattle.std.specs.Prelude.{◌≡◌, ◌<◌, ◌≤◌, ◌++◌, OnOk, codes, length};
ghost use Rattle.swift_explorer.specs.FoundText.{begins, turns_before};
ghost use Rattle.swift_report.specs.ReportJson.{comma};
ghost use Rattle.explorer_json.specs.Schedules.{broken_json, schedule_json, step_json, steps_json, turn_json};

use crate::append::{comma, labelled, say};
use std::alloc::AllocError;
use swift_explorer::Move;
use swift_types::TaskId;

fn begins(task: TaskId, step: Move) -> bool
    ensures { result ≡ begins task.0 step }
{
    match step {
        Move::Begin(begun) => begun.0 == task.0,
        _ => false,
    }
}

// How many turns of a task begin before this place.
fn turns_before(task: TaskId, path: &[Move], place: usize) -> usize
    requires { place ≤ length path.now }
    ensures { result ≡ turns_before task.0 path.now place }
{
    let mut turns: usize = 0;
    for at in 0..place {
        if begins(task, path[at]) {
            turns += 1;
        }
    }
    turns
}

// Which turn.
fn put_turn(out: &mut Vec<u8>, task: TaskId, number: usize) -> Result<(), AllocError>
    ensures { OnOk result (out.new.items ≡ out.old.items ++ turn_json task.0 number) }
{
    labelled(out, b",\"task\":", task.0 as usize)?;
    labelled(out, b",\"turn\":", number)?;
    say(out, b"}")
}

fn put_begun(out: &mut Vec<u8>, path: &[Move], place: usize, task: TaskId) -> Result<(), AllocError>
    requires { place < length path.now }
    ensures { OnOk result (out.new.items ≡ out.old.items ++ step_json path.now place (Move.Begin task)) }
{
    say(out, b"{\"is\":\"begin\"")?;
    put_turn(out, task, turns_before(task, path, place))
}

fn put_run(out: &mut Vec<u8>, path: &[Move], place: usize, task: TaskId) -> Result<(), AllocError>
    requires { place < length path.now }
    ensures { OnOk result (out.new.items ≡ out.old.items ++ step_json path.now place (Move.Run task)) }
{
    say(out, b"{\"is\":\"run\"")?;
    put_turn(out, task, turns_before(task, path, place).saturating_sub(1))
}

fn put_step(out: &mut Vec<u8>, path: &[Move], place: usize, step: Move) -> Result<(), AllocError>
    requires { place < length path.now }
    ensures { OnOk result (out.new.items ≡ out.old.items ++ step_json path.now place step) }
{
    match step {
        Move::Add => say(out, b"{\"is\":\"add\"}"),
        Move::Begin(task) => put_begun(out, path, place, task),
        Move::Run(task) => put_run(out, path, place, task),
    }
}

// The step at a place, after a comma where it is not the first.
fn put_next(out: &mut Vec<u8>, path: &[Move], place: usize, step: Move) -> Result<(), AllocError>
    requires { place < length path.now }
    ensures { OnOk result (out.new.items ≡ out.old.items ++ (comma 0 place ++ step_json path.now place step)) }
{
    comma(out, place)?;
    put_step(out, path, place, step)
}

fn put_steps(out: &mut Vec<u8>, path: &[Move]) -> Result<(), AllocError>
    ensures { OnOk result (out.new.items ≡ out.old.items ++ steps_json path.now 0 path.now) }
{
    for place in 0..path.len() {
        put_next(out, path, place, path[place])?;
    }
    Ok(())
}

/// Appends a schedule: a list of its steps.
pub(crate) fn put_schedule(out: &mut Vec<u8>, path: &[Move]) -> Result<(), AllocError>
    ensures { OnOk result (out.new.items ≡ out.old.items ++ schedule_json path.now) }
{
    say(out, b"[")?;
    put_steps(out, path)?;
    say(out, b"]")
}

/// Appends the schedule to a turn that is undone, or that there is none.
pub(crate) fn put_broken(out: &mut Vec<u8>, broken: &Option<Vec<Move>>) -> Result<(), AllocError>
    ensures { OnOk result (out.new.items ≡ out.old.items ++ broken_json broken.now) }
{
    match broken {
        Some(schedule) => put_schedule(out, schedule),
        None => say(out, b"null"),
    }
}
