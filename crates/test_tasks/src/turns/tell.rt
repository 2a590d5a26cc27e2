//! What turns leave, as text.

use crate::show::{self, LOCALS};
use script_code::Binding;
use swift_interpreter::{Effect, Exit, Frame, Invocation, TaskName};
use swift_locals::Bindings;
use swift_script::Script;
use swift_turn::Step;
use swift_types::{ActorId, LocalId, MethodId, Priority};
use test_support::Said;

/// What a turn gave: the fields, the effects, and the exit.
pub fn left(
    out: &mut Said,
    script: &Script,
    fields: &Vec<Vec<i64>>,
    effects: &[Effect],
    exit: &Exit,
) {
    out.debug("", fields);
    out.put(", ");
    if effects.is_empty() {
        out.put("no effects, ");
    }
    for done in effects {
        effect(out, script, done);
        out.put(", ");
    }
    show_exit(out, script, exit)
}

fn effect(out: &mut Said, script: &Script, done: &Effect) {
    match done {
        Effect::Spawn {
            invocation: spawned,
            priority: given,
            bindings: standing,
        } => made_with(out, script, spawned, *given, standing, "spawn "),
        Effect::Detach(detached, given) => made(out, script, detached, Some(*given), "detach "),
        Effect::Open => out.put("open"),
        Effect::Add {
            group,
            unless_cancelled: unless,
            invocation: child,
            priority: given,
            bindings: standing,
        } => {
            let word = if *unless { " unless " } else { " " };
            out.number("add ", i64::from(*group));
            made_with(out, script, child, *given, standing, word)
        }
        Effect::CancelTask(name) => task(out, "cancel ", *name),
        Effect::CancelGroup(group) => out.number("cancel group ", i64::from(*group)),
    }
}

// A task that is made, and the priority that it is given, behind a word.
fn made(out: &mut Said, script: &Script, called: &Invocation, given: Option<Priority>, word: &str) {
    invocation(out, script, called, word);
    if let Some(given) = given {
        out.put(" at ");
        out.put(show::priority(given));
    }
}

// The same, and the bindings that it is given, if there are any.
fn made_with(
    out: &mut Said,
    script: &Script,
    called: &Invocation,
    given: Option<Priority>,
    standing: &Bindings,
    word: &str,
) {
    made(out, script, called, given, word);
    if standing.depth() > 0 {
        out.put(" with ");
        bindings(out, standing);
    }
}

// A method with its arguments, behind a word.
fn invocation(out: &mut Said, script: &Script, called: &Invocation, word: &str) {
    out.put(word);
    actor(out, script, called.actor);
    out.put(".");
    method(out, script, called.method);
    out.debug(" ", &called.args)
}

// What is read of each local that is bound, and how many bindings stand.
fn bindings(out: &mut Said, standing: &Bindings) {
    let depth = standing.depth();
    if depth == 0 {
        return out.put("none");
    }
    let mut open = "{";
    for local in 0..LOCALS {
        if let Some(value) = standing.read(LocalId(local)) {
            out.number(open, i64::from(local));
            out.number(": ", value);
            open = ", ";
        }
    }
    // No script reads a local that it does not declare.
    out.put(if open == "{" { "{" } else { "" });
    out.count("} of ", depth as u64)
}

// A task, as a frame names it, behind a word.
fn task(out: &mut Said, word: &str, name: TaskName) {
    out.put(word);
    match name {
        TaskName::Root(root) => out.number("root ", i64::from(root.0)),
        TaskName::Own(number) => out.number("task ", i64::from(number)),
    }
}

fn show_exit(out: &mut Said, script: &Script, exit: &Exit) {
    match exit {
        Exit::Call(called) => invocation(out, script, called, "call "),
        Exit::Wait(name) => task(out, "wait ", *name),
        Exit::Next(group) => out.number("next ", i64::from(*group)),
        Exit::Close(group, None) => out.number("close ", i64::from(*group)),
        Exit::Close(group, Some(pending)) => {
            out.number("close ", i64::from(*group));
            out.put(" ");
            show::fault(out, *pending)
        }
        Exit::Yield => out.put("yield"),
        Exit::Return(value) => out.number("return ", *value),
        Exit::Fault(left) => show::fault(out, *left),
    }
}

fn actor(out: &mut Said, script: &Script, called: ActorId) {
    if called.0 as usize >= script.actor_count() {
        return out.put("?");
    }
    out.bytes(script.actor_name(called))
}

fn method(out: &mut Said, script: &Script, called: MethodId) {
    if called.0 as usize >= script.method_count() {
        return out.put("?");
    }
    out.bytes(script.method_name(called))
}

/// What comes after a turn.
pub fn step(out: &mut Said, next: Step) {
    match next {
        Step::Run(actor, with) => {
            out.number("run actor ", i64::from(actor.0));
            out.put(" ");
            show::resume(out, with)
        }
        Step::Ended(ended) => {
            out.put("ended ");
            show::ending(out, Some(ended))
        }
        Step::Await => out.put("await"),
    }
}

/// A frame, and the bindings that stand outside it.
pub fn frame_and_outer(out: &mut Said, script: &Script, copy: &Frame, outer: &Bindings) {
    frame(out, script, copy);
    out.put(" outer ");
    bindings(out, outer)
}

// A frame, part by part, without where it is. What is innermost stands last.
fn frame(out: &mut Said, script: &Script, copy: &Frame) {
    method(out, script, copy.method);
    out.debug(" vars ", &copy.variables);
    out.debug(" handles ", &copy.handles);
    out.put(" own ");
    own(out, &copy.own);
    out.debug(" groups ", &copy.groups);
    out.put(" pending ");
    match copy.pending {
        Some(pending) => show::fault(out, pending),
        None => out.put("none"),
    }
    out.count(" made ", copy.made);
    out.count(" opened ", copy.opened)
}

// The bindings of a frame.
fn own(out: &mut Said, made: &[Binding]) {
    let mut open = "[";
    for binding in made {
        out.number(open, i64::from(binding.local.0));
        out.number(": ", binding.value);
        open = ", ";
    }
    out.put(if open == "[" { "[]" } else { "]" })
}
