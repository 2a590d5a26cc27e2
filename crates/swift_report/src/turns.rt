//! Lines of turns, and of executors.

ghost use Rattle.std.specs.Prelude.{◌≡◌, ◌<◌, ◌^◌, ◌++◌, OnOk, slice_get};
ghost use Rattle.swift_report.specs.Text.{method_text, exit_text, flag_text, env_text, run_text, resume_and_exit_text, turn_text, turns_text, kind_text, heading_text, folded_text, executor_text, executors_text, folded_count};

use crate::append::number;
use crate::line::{Line, line_at};
use crate::names::{executor_kind, executor_name};
use crate::word;
use std::alloc::AllocError;
use swift_journal::{BriefExit, Checkpoint, Journal};
use swift_script::Script;
use swift_types::{Env, ExecutorKind, MethodId};

/// A method by its names; nothing where there is none.
pub(crate) fn method(out: &mut Vec<u8>, script: &Script, method: MethodId) -> Result<(), AllocError>
    ensures { OnOk result (out.new.items ≡ out.old.items ++ method_text script.now method.0) }
{
    if method.0 as usize >= script.method_count() {
        return Ok(());
    }
    out.extend_from_slice(script.actor_name(script.method_actor(method)))?;
    out.extend_from_slice(b".")?;
    out.extend_from_slice(script.method_name(method))
}

fn exit(out: &mut Vec<u8>, script: &Script, exit: BriefExit) -> Result<(), AllocError>
    ensures { OnOk result (out.new.items ≡ out.old.items ++ exit_text script.now exit) }
{
    match exit {
        BriefExit::Call(_, called) => {
            out.extend_from_slice(b"call ")?;
            method(out, script, called)
        }
        BriefExit::Wait(_) => out.extend_from_slice(b"wait"),
        BriefExit::Next(_) => out.extend_from_slice(b"next"),
        BriefExit::Yield => out.extend_from_slice(b"yield"),
        BriefExit::Close(_, pending) => {
            out.extend_from_slice(b"close")?;
            word::pending(out, pending)
        }
        BriefExit::Return(value) => {
            out.extend_from_slice(b"return ")?;
            number(out, value)
        }
        BriefExit::Fault(fault) => {
            out.extend_from_slice(b"fault ")?;
            word::fault(out, fault)
        }
    }
}

fn flag(set: bool) -> &'static [u8]
    ensures { result.now ≡ flag_text set }
{
    if set { b"1" } else { b"0" }
}

// What a turn was given.
fn env(out: &mut Vec<u8>, env: &Env) -> Result<(), AllocError>
    ensures { OnOk result (out.new.items ≡ out.old.items ++ env_text env.now) }
{
    out.extend_from_slice(b" p")?;
    number(out, env.priority.number())?;
    out.extend_from_slice(b" c")?;
    out.extend_from_slice(flag(env.cancelled))
}

// The turn's place, its task, its number there and its worker.
fn run(out: &mut Vec<u8>, place: usize, entry: &Line) -> Result<(), AllocError>
    ensures { OnOk result (out.new.items ≡ out.old.items ++ run_text place entry.now) }
{
    number(out, place)?;
    out.extend_from_slice(b" t")?;
    number(out, entry.task.0)?;
    out.extend_from_slice(b".")?;
    number(out, entry.number)?;
    out.extend_from_slice(b" w")?;
    number(out, entry.worker)
}

// How a turn began and how it ended.
fn resume_and_exit(out: &mut Vec<u8>, script: &Script, entry: &Line) -> Result<(), AllocError>
    ensures { OnOk result (out.new.items ≡ out.old.items ++ resume_and_exit_text script.now entry.now) }
{
    word::resume(out, entry.resume)?;
    out.extend_from_slice(b" -> ")?;
    exit(out, script, entry.exit)
}

fn turn(out: &mut Vec<u8>, script: &Script, place: usize, entry: &Line) -> Result<(), AllocError>
    ensures { OnOk result (out.new.items ≡ out.old.items ++ turn_text script.now place entry.now) }
{
    run(out, place, entry)?;
    out.extend_from_slice(b" ")?;
    method(out, script, entry.method)?;
    env(out, &entry.env)?;
    out.extend_from_slice(b" ")?;
    resume_and_exit(out, script, entry)?;
    out.extend_from_slice(b"\n")
}

// The lines of the turns of a journal, whose places begin at this number.
fn turns(
    out: &mut Vec<u8>,
    script: &Script,
    first: usize,
    journal: &Journal,
) -> Result<(), AllocError>
    requires { first < 2 ^ 63 }
    ensures { OnOk result (out.new.items ≡ out.old.items ++ turns_text script.now first journal.now) }
{
    for place in 0..journal.len() {
        turn(out, script, first + place, &line_at(journal, place))?;
    }
    Ok(())
}

fn kind(out: &mut Vec<u8>, kind: ExecutorKind) -> Result<(), AllocError>
    ensures { OnOk result (out.new.items ≡ out.old.items ++ kind_text kind) }
{
    match kind {
        ExecutorKind::Priority => out.extend_from_slice(b"priority"),
        ExecutorKind::Fifo => out.extend_from_slice(b"fifo"),
        ExecutorKind::Pinned(worker) => {
            out.extend_from_slice(b"pinned ")?;
            number(out, worker)
        }
    }
}

// The line of an executor, with the number `turns` of its turns.
fn heading(
    out: &mut Vec<u8>,
    script: &Script,
    executor: usize,
    turns: usize,
) -> Result<(), AllocError>
    ensures { OnOk result (out.new.items ≡ out.old.items ++ heading_text script.now executor turns) }
{
    out.extend_from_slice(b"executor ")?;
    out.extend_from_slice(executor_name(script, executor))?;
    out.extend_from_slice(b" ")?;
    kind(out, executor_kind(script, executor))?;
    out.extend_from_slice(b" turns ")?;
    number(out, turns)?;
    out.extend_from_slice(b"\n")
}

// The line that says how many turns were folded, where some were.
fn folded_line(out: &mut Vec<u8>, folded: usize) -> Result<(), AllocError>
    ensures { OnOk result (out.new.items ≡ out.old.items ++ folded_text folded) }
{
    if folded == 0 {
        return Ok(());
    }
    out.extend_from_slice(b"folded ")?;
    number(out, folded)?;
    out.extend_from_slice(b"\n")
}

// The lines of the executor with number `place`, with `folded` turns that were folded and those of its journal.
fn executor(
    out: &mut Vec<u8>,
    script: &Script,
    place: usize,
    folded: usize,
    journal: &Journal,
) -> Result<(), AllocError>
    requires { folded < 2 ^ 63 }
    ensures { OnOk result (out.new.items ≡ out.old.items ++ executor_text script.now place folded journal.now) }
{
    let all = folded + journal.len();
    heading(out, script, place, all)?;
    folded_line(out, folded)?;
    turns(out, script, folded, journal)
}

/// How many turns of the executor at a place were folded.
pub(crate) fn folded_at(checkpoints: &[Checkpoint], place: usize) -> usize
    ensures count { result ≡ folded_count (slice_get checkpoints.now place) }
    ensures limit { result < 2 ^ 63 }
{
    match checkpoints.get(place) {
        Some(checkpoint) => checkpoint.len(),
        None => 0,
    }
}

/// The lines of all executors, each with its turns.
pub(crate) fn executors(
    out: &mut Vec<u8>,
    script: &Script,
    checkpoints: &[Checkpoint],
    journals: &[Journal],
) -> Result<(), AllocError>
    ensures { OnOk result (out.new.items ≡ out.old.items ++ executors_text script.now checkpoints.now 0 journals.now) }
{
    for (place, journal) in journals.iter().enumerate() {
        executor(out, script, place, folded_at(checkpoints, place), journal)?;
    }
    Ok(())
}
