//! A task, and the calls on it.

use crate::scripts::method_named;
use crate::show;
use crate::turns::begin::{Opening, TurnStart, change, opening_of, turn_of};
use crate::turns::play::{can_advance, play, run};
use crate::turns::tell;
use futures::Future;
use futures::task::{Doorbell, Poll, Solo};
use std::alloc::{AllocError, AllocGlobal, Global};
use std::marker::Model;
use std::random::RandomSource;
use std::sync::Arc;
use swift_interpreter::{Exit, Frame};
use swift_script::Script;
use swift_turn::{Body, TurnOutcome};
use test_support::{CaseFault, Said, Words};

/// A task, how far its turn is, the exit of its last turn, and the frame that was copied last.
pub struct Task {
    body: Body,
    // The turn was entered, and not polled since.
    is_entered: bool,
    // The turn was polled, and not left since.
    is_polled: bool,
    exit: Option<Exit>,
    frame: Option<Frame>,
}

impl Drop for Task {
    fn drop(self) {
        let Task {
            body,
            is_entered: _,
            is_polled: _,
            exit,
            frame,
        } = self;
        drop(body);
        drop(exit);
        drop(frame);
    }
}

impl Model for Task {
    ghost use Rattle.std.specs.Prelude.{IsTrue};
    ghost use Rattle.swift_turn.specs.Body.{IsPolled};
    ghost use Rattle.test_tasks.specs.StagesInside.{IsEntered};

    ghost Value = { Unit {0} };

    ghost view = { λ _. tt };

    ghost invariant = { λ t. (IsTrue t.is_entered → IsEntered t.body.phase) × (IsTrue t.is_polled → IsPolled t.body.phase) };
}

/// A task of a method with arguments and bindings, by words.
pub fn start(
    alloc: Global,
    script: &Arc<Script>,
    words: &mut Words<'_>,
    out: &mut Said,
) -> Result<Option<Task>, CaseFault> {
    let (name, mut opening) = (words.next(), Words::new(words.all()));
    let Some(method) = method_named(script, None, name) else {
        out.put("no such method");
        return Ok(None);
    };
    let Opening { args, bindings } = opening_of(alloc, &mut opening)?;
    if !opening.are_right() {
        out.put("no such arguments");
        return Ok(None);
    }
    out.put("started");
    let body = Body::start(alloc, Arc::clone(script)?, method, args, bindings)?;
    Ok(Some(Task {
        body,
        is_entered: false,
        is_polled: false,
        exit: None,
        frame: None,
    }))
}

/// The call of this name, with these words.
pub fn call<R: RandomSource + AllocGlobal>(
    rt: &R,
    script: &Script,
    task: &mut Task,
    name: &str,
    words: &str,
    out: &mut Said,
) -> Result<(), CaseFault> {
    let mut words = Words::new(words);
    if name == "put_back" {
        return Ok(put_back(task, &mut words, out)?);
    }
    if words.is_empty() {
        return plain(rt, script, task, name, out);
    }
    let begin = turn_of(rt.alloc(), &mut words)?;
    if !words.are_right() {
        out.put("no such call");
        return Ok(());
    }
    begin_turn(rt, script, task, name, begin, out)
}

// A call of one word.
fn plain<R: RandomSource + AllocGlobal>(
    rt: &R,
    script: &Script,
    task: &mut Task,
    name: &str,
    out: &mut Said,
) -> Result<(), CaseFault> {
    match name {
        "poll" => return poll(rt, task, out),
        "leave" => leave(script, task, out),
        "advance" => advance(task, out)?,
        "actor" => actor(&task.body, out),
        "frame" => frame(script, task, out)?,
        _ => out.put("no such call"),
    }
    Ok(())
}

// A call with what a turn begins with.
fn begin_turn<R: RandomSource + AllocGlobal>(
    rt: &R,
    script: &Script,
    task: &mut Task,
    name: &str,
    begin: TurnStart,
    out: &mut Said,
) -> Result<(), CaseFault> {
    if name == "enter" {
        enter(task, begin, out);
        return Ok(());
    }
    // A turn that is under way is given up.
    task.is_entered = false;
    task.is_polled = false;
    match name {
        "turn" => task.exit = run(rt, script, &mut task.body, begin, out)?,
        "play" => play(rt, script, &mut task.body, begin, out)?,
        _ => out.put("no such call"),
    }
    Ok(())
}

fn enter(task: &mut Task, begin: TurnStart, out: &mut Said) {
    if !task.body.is_running() {
        return out.put("not possible");
    }
    match task.body.enter(begin.fields, begin.resume, begin.env) {
        Ok(()) => {
            task.is_entered = true;
            task.is_polled = false;
            out.put("entered")
        }
        Err((_, AllocError)) => out.put("out of memory"),
    }
}

fn poll<R: RandomSource + AllocGlobal>(
    rt: &R,
    task: &mut Task,
    out: &mut Said,
) -> Result<(), CaseFault> {
    let solo = Solo::new(rt, Doorbell::spinning())?;
    let is_played = task.is_entered && task.body.is_running();
    let mut cx = solo.begin();
    let polled = task.body.poll(&mut cx);
    if is_played {
        task.is_entered = false;
        task.is_polled = true;
    }
    cx.end(&polled);
    match polled {
        Poll::Ready(ended) => {
            out.put("ready ");
            show::ending(out, Some(ended));
        }
        Poll::Pending if is_woken(&solo) => out.put("pending, has yielded"),
        Poll::Pending => out.put("pending, waits"),
    }
    Ok(())
}

// Whether its task is to be polled again.
fn is_woken(solo: &Solo) -> bool {
    match solo.sleep() {
        Some(asleep) => {
            asleep.end();
            false
        }
        None => true,
    }
}

fn leave(script: &Script, task: &mut Task, out: &mut Said) {
    if !task.is_polled {
        return out.put("not possible");
    }
    task.is_entered = false;
    task.is_polled = false;
    match task.body.leave() {
        Ok(
            TurnOutcome {
                fields,
                effects,
                exit,
            },
        ) => {
            tell::left(out, script, &fields, &effects, &exit);
            task.exit = Some(exit);
        }
        Err((_, AllocError)) => out.put("out of memory"),
    }
}

fn advance(task: &mut Task, out: &mut Said) -> Result<(), AllocError> {
    match &task.exit {
        Some(exit) if task.body.is_running() && can_advance(task.body.script(), exit) => {
            // Made again where it is refused memory.
            let step = match task.body.advance(exit) {
                Err(AllocError) => task.body.advance(exit)?,
                Ok(step) => step,
            };
            tell::step(out, step)
        }
        _ => out.put("not possible"),
    }
    Ok(())
}

fn actor(body: &Body, out: &mut Said) {
    if !body.is_running() {
        return out.put("not possible");
    }
    out.number("actor ", i64::from(body.actor().0))
}

fn frame(script: &Script, task: &mut Task, out: &mut Said) -> Result<(), AllocError> {
    if !task.body.is_running() {
        out.put("not possible");
        return Ok(());
    }
    let copy = task.body.frame()?;
    tell::frame_and_outer(out, script, &copy, task.body.outer());
    task.frame = Some(copy);
    Ok(())
}

fn put_back(task: &mut Task, changes: &mut Words<'_>, out: &mut Said) -> Result<(), AllocError> {
    let Some(mut copy) = task.frame.take() else {
        out.put("not possible");
        return Ok(());
    };
    change(&mut copy, changes)?;
    if changes.are_right() {
        put(task, copy, out)
    } else {
        out.put("no such part")
    }
    Ok(())
}

// Puts a frame back, where that may be done.
fn put(task: &mut Task, copy: Frame, out: &mut Said) {
    if !task.body.is_running() || !task.body.can_put_back(&copy) {
        return out.put("not possible");
    }
    task.body.put_back(copy);
    out.put("put back")
}
