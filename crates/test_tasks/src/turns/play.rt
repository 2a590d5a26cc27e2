//! Whole turns.

ghost use Rattle.std.specs.Prelude.{◌↔◌, IsTrue};
ghost use Rattle.swift_interpreter.specs.TurnStates.{exit_view};
ghost use Rattle.swift_turn.specs.Body.{CanAdvance, IsRunning};

use crate::turns::begin::TurnStart;
use crate::turns::tell;
use futures::Future;
use futures::task::{Context, Doorbell, Solo};
use std::alloc::{AllocError, AllocGlobal};
use std::random::RandomSource;
use swift_interpreter::Exit;
use swift_script::Script;
use swift_turn::{Body, Step, TurnOutcome};
use swift_types::limits::TURNS;
use swift_types::{Env, Resume};
use test_support::{CaseFault, Said};

/// One turn. None where it can't be run.
pub fn run<R: RandomSource + AllocGlobal>(
    rt: &R,
    script: &Script,
    body: &mut Body,
    begin: TurnStart,
    out: &mut Said,
) -> Result<Option<Exit>, CaseFault> {
    let solo = Solo::new(rt, Doorbell::spinning())?;
    let mut cx = solo.begin();
    let ran = one(script, &mut cx, body, begin, out);
    cx.cancel();
    match ran {
        Some((_fields, exit)) => Ok(Some(exit)),
        None => Ok(None),
    }
}

// One turn: the fields after it, and its exit. None where it can't be run. Where it is refused memory, it is run again on the fields
// that come back.
fn one(
    script: &Script,
    cx: &mut Context<'_>,
    body: &mut Body,
    begin: TurnStart,
    out: &mut Said,
) -> Option<(Vec<Vec<i64>>, Exit)> {
    let (resume, env) = (begin.resume, begin.env);
    let ran = match ran(cx, body, begin.fields, resume, env) {
        Err(fields) => ran(cx, body, fields, resume, env),
        ran => ran,
    };
    match ran {
        Ok(
            Some(
                TurnOutcome {
                    fields,
                    effects,
                    exit,
                },
            ),
        ) => {
            tell::left(out, script, &fields, &effects, &exit);
            return Some((fields, exit));
        }
        Ok(None) => out.put("not possible"),
        Err(_) => out.put("no memory"),
    }
    None
}

// What a turn leaves. None where it can't be run, and the fields where it is refused memory.
fn ran(
    cx: &mut Context<'_>,
    body: &mut Body,
    fields: Vec<Vec<i64>>,
    resume: Resume,
    env: Env,
) -> Result<Option<TurnOutcome>, Vec<Vec<i64>>> {
    if !body.is_running() {
        return Ok(None);
    }
    match polled(cx, body, fields, resume, env) {
        Ok(left) => Ok(Some(left)),
        Err((fields, AllocError)) => Err(fields),
    }
}

// Enters a turn, polls it, and leaves it.
fn polled(
    cx: &mut Context<'_>,
    body: &mut Body,
    fields: Vec<Vec<i64>>,
    resume: Resume,
    env: Env,
) -> Result<TurnOutcome, (Vec<Vec<i64>>, AllocError)>
    requires { IsRunning body.old }
{
    body.enter(fields, resume, env)?;
    let _ = body.poll(cx);
    body.leave()
}

/// Whether a task of this script can be advanced by this exit: a call is of a method of the script.
pub fn can_advance(script: &Script, exit: &Exit) -> bool
    ensures { IsTrue result ↔ CanAdvance script.now (exit_view exit.now) }
{
    match exit {
        Exit::Call(invocation) => (invocation.method.0 as usize) < script.method_count(),
        _ => true,
    }
}

/// Turns to the task's end, each a line, and then what comes next.
pub fn play<R: RandomSource + AllocGlobal>(
    rt: &R,
    script: &Script,
    body: &mut Body,
    begin: TurnStart,
    out: &mut Said,
) -> Result<(), CaseFault> {
    let solo = Solo::new(rt, Doorbell::spinning())?;
    let mut cx = solo.begin();
    let played = turns(script, &mut cx, body, begin, out);
    cx.cancel();
    Ok(played?)
}

fn turns(
    script: &Script,
    cx: &mut Context<'_>,
    body: &mut Body,
    mut begin: TurnStart,
    out: &mut Said,
) -> Result<(), AllocError> {
    let env = begin.env;
    for _ in 0..TURNS {
        let Some((fields, exit)) = one(script, cx, body, begin, out) else {
            return Ok(());
        };
        let Some(resume) = after(body, &exit, out)? else {
            return Ok(());
        };
        begin = TurnStart {
            fields,
            resume,
            env,
        };
    }
    Ok(())
}

// What the task's next turn begins with. Where none follows at once, writes what comes next.
fn after(body: &mut Body, exit: &Exit, out: &mut Said) -> Result<Option<Resume>, AllocError> {
    out.put("\n");
    match next(body, exit)? {
        Some(Step::Run(_, resume)) => return Ok(Some(resume)),
        Some(step) => tell::step(out, step),
        None => out.put("not possible"),
    }
    Ok(None)
}

// What comes next. None where the exit can't be followed.
fn next(body: &mut Body, exit: &Exit) -> Result<Option<Step>, AllocError> {
    if !body.is_running() || !can_advance(body.script(), exit) {
        return Ok(None);
    }
    match body.advance(exit) {
        // Made again where it is refused memory.
        Err(AllocError) => Ok(Some(body.advance(exit)?)),
        Ok(step) => Ok(Some(step)),
    }
}
