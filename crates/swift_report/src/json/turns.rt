//! Turns, and executors.

ghost use Rattle.std.specs.Prelude.{◌≡◌, ◌<◌, ◌^◌, ◌++◌, OnOk, codes};
ghost use Rattle.swift_report.specs.Text.{method_text};
ghost use Rattle.swift_report.specs.ReportJson.{comma, env_json, executor_json, executors_json, exit_json, flag_json, heading_json, kind_json, kind_word, pinned_json, listed_json, pending_json, resume_and_exit_json, run_json, turn_json, turns_json, value_json};

use crate::json::append::{comma, labelled, say, say_three};
use crate::json::word;
use crate::line::{Line, line_at};
use crate::names::{executor_kind, executor_name};
use crate::turns::{folded_at, method};
use std::alloc::AllocError;
use swift_journal::{BriefExit, Checkpoint, Journal};
use swift_script::Script;
use swift_types::{Env, ExecutorKind, Fault, MethodId};

// The exit of a turn that calls a method.
fn call(out: &mut Vec<u8>, script: &Script, called: MethodId) -> Result<(), AllocError>
    ensures { OnOk result (out.new.items ≡ out.old.items ++ (codes "{\"is\":\"call\",\"method\":\"" ++ method_text script.now called.0 ++ codes "\"}")) }
{
    say(out, b"{\"is\":\"call\",\"method\":\"")?;
    method(out, script, called)?;
    say(out, b"\"}")
}

// The exit of a turn that closes a group.
fn close(out: &mut Vec<u8>, pending: Option<Fault>) -> Result<(), AllocError>
    ensures { OnOk result (out.new.items ≡ out.old.items ++ (codes "{\"is\":\"close\"" ++ pending_json pending ++ codes "}")) }
{
    say(out, b"{\"is\":\"close\"")?;
    word::pending(out, pending)?;
    say(out, b"}")
}

// The exit of a turn that leaves its frame with a number.
fn returned(out: &mut Vec<u8>, value: i64) -> Result<(), AllocError>
    ensures { OnOk result (out.new.items ≡ out.old.items ++ (codes "{\"is\":\"return\"" ++ value_json value ++ codes "}")) }
{
    say(out, b"{\"is\":\"return\"")?;
    word::value(out, value)?;
    say(out, b"}")
}

fn exit(out: &mut Vec<u8>, script: &Script, exit: BriefExit) -> Result<(), AllocError>
    ensures { OnOk result (out.new.items ≡ out.old.items ++ exit_json script.now exit) }
{
    match exit {
        BriefExit::Call(_, called) => call(out, script, called),
        BriefExit::Wait(_) => say(out, b"{\"is\":\"wait\"}"),
        BriefExit::Next(_) => say(out, b"{\"is\":\"next\"}"),
        BriefExit::Yield => say(out, b"{\"is\":\"yield\"}"),
        BriefExit::Close(_, pending) => close(out, pending),
        BriefExit::Return(value) => returned(out, value),
        BriefExit::Fault(fault) => word::fault_object(out, fault),
    }
}

// Whether a task was cancelled, as a member.
fn cancelled(set: bool) -> &'static [u8]
    ensures { result.now ≡ codes ",\"cancelled\":" ++ flag_json set }
{
    if set {
        b",\"cancelled\":true"
    } else {
        b",\"cancelled\":false"
    }
}

// What a turn was given.
fn env(out: &mut Vec<u8>, env: &Env) -> Result<(), AllocError>
    ensures { OnOk result (out.new.items ≡ out.old.items ++ env_json env.now) }
{
    labelled(out, b",\"priority\":", env.priority.number())?;
    say(out, cancelled(env.cancelled))
}

// The turn's place, its task, its number there and its worker.
fn run(out: &mut Vec<u8>, place: usize, entry: &Line) -> Result<(), AllocError>
    ensures { OnOk result (out.new.items ≡ out.old.items ++ run_json place entry.now) }
{
    labelled(out, b"\n{\"place\":", place)?;
    labelled(out, b",\"task\":", entry.task.0)?;
    labelled(out, b",\"turn\":", entry.number)?;
    labelled(out, b",\"worker\":", entry.worker)
}

// How a turn began and how it ended.
fn resume_and_exit(out: &mut Vec<u8>, script: &Script, entry: &Line) -> Result<(), AllocError>
    ensures { OnOk result (out.new.items ≡ out.old.items ++ resume_and_exit_json script.now entry.now) }
{
    say(out, b",\"resume\":")?;
    word::resume(out, entry.resume)?;
    say(out, b",\"exit\":")?;
    exit(out, script, entry.exit)
}

fn turn(out: &mut Vec<u8>, script: &Script, place: usize, entry: &Line) -> Result<(), AllocError>
    ensures { OnOk result (out.new.items ≡ out.old.items ++ turn_json script.now place entry.now) }
{
    run(out, place, entry)?;
    say(out, b",\"method\":\"")?;
    method(out, script, entry.method)?;
    say(out, b"\"")?;
    env(out, &entry.env)?;
    resume_and_exit(out, script, entry)?;
    say(out, b"}")
}

// The turn at a place of a list whose first turn has this one.
fn listed(
    out: &mut Vec<u8>,
    script: &Script,
    first: usize,
    place: usize,
    entry: &Line,
) -> Result<(), AllocError>
    ensures { OnOk result (out.new.items ≡ out.old.items ++ listed_json script.now first place entry.now) }
{
    comma(out, first, place)?;
    turn(out, script, place, entry)
}

// The turns of a journal, whose places begin at this number.
fn turns(
    out: &mut Vec<u8>,
    script: &Script,
    first: usize,
    journal: &Journal,
) -> Result<(), AllocError>
    requires { first < 2 ^ 63 }
    ensures { OnOk result (out.new.items ≡ out.old.items ++ turns_json script.now first first journal.now) }
{
    for place in 0..journal.len() {
        listed(out, script, first, first + place, &line_at(journal, place))?;
    }
    Ok(())
}

// The word of a kind, as a member.
fn kind_word(kind: ExecutorKind) -> &'static [u8]
    ensures { result.now ≡ kind_word kind }
{
    match kind {
        ExecutorKind::Priority => b"\"kind\":\"priority\"",
        ExecutorKind::Fifo => b"\"kind\":\"fifo\"",
        ExecutorKind::Pinned(_) => b"\"kind\":\"pinned\"",
    }
}

// The number after `pinned`, as a member.
fn pinned(out: &mut Vec<u8>, kind: ExecutorKind) -> Result<(), AllocError>
    ensures { OnOk result (out.new.items ≡ out.old.items ++ pinned_json kind) }
{
    match kind {
        ExecutorKind::Pinned(worker) => { labelled(out, b",\"pinned\":", worker) }
        _ => Ok(()),
    }
}

fn kind(out: &mut Vec<u8>, kind: ExecutorKind) -> Result<(), AllocError>
    ensures { OnOk result (out.new.items ≡ out.old.items ++ kind_json kind) }
{
    say(out, kind_word(kind))?;
    pinned(out, kind)
}

// An executor, with the number `turns` of its turns, up to its journal.
fn heading(
    out: &mut Vec<u8>,
    script: &Script,
    executor: usize,
    turns: usize,
) -> Result<(), AllocError>
    ensures { OnOk result (out.new.items ≡ out.old.items ++ heading_json script.now executor turns) }
{
    say_three(
        out,
        b"\n{\"executor\":\"",
        executor_name(script, executor),
        b"\",",
    )?;
    kind(out, executor_kind(script, executor))?;
    labelled(out, b",\"turns\":", turns)
}

// The executor with number `place`, with `folded` turns that were folded and those of its journal.
fn executor(
    out: &mut Vec<u8>,
    script: &Script,
    place: usize,
    folded: usize,
    journal: &Journal,
) -> Result<(), AllocError>
    requires { folded < 2 ^ 63 }
    ensures { OnOk result (out.new.items ≡ out.old.items ++ executor_json script.now place folded journal.now) }
{
    let all = folded + journal.len();
    heading(out, script, place, all)?;
    labelled(out, b",\"folded\":", folded)?;
    say(out, b",\"records\":[")?;
    turns(out, script, folded, journal)?;
    say(out, b"]}")
}

// The executor with number `place` in a list: a comma comes before each but the first.
fn listed_executor(
    out: &mut Vec<u8>,
    script: &Script,
    place: usize,
    folded: usize,
    journal: &Journal,
) -> Result<(), AllocError>
    requires { folded < 2 ^ 63 }
    ensures { OnOk result (out.new.items ≡ out.old.items ++ (comma 0 place ++ executor_json script.now place folded journal.now)) }
{
    comma(out, 0, place)?;
    executor(out, script, place, folded, journal)
}

/// All executors, each with its turns.
pub(crate) fn executors(
    out: &mut Vec<u8>,
    script: &Script,
    checkpoints: &[Checkpoint],
    journals: &[Journal],
) -> Result<(), AllocError>
    ensures { OnOk result (out.new.items ≡ out.old.items ++ executors_json script.now checkpoints.now 0 journals.now) }
{
    for (place, journal) in journals.iter().enumerate() {
        listed_executor(out, script, place, folded_at(checkpoints, place), journal)?;
    }
    Ok(())
}
