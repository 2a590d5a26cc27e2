//! Events and jobs as text.

use swift_events::{Event, Origin};
use swift_interpreter::Frame;
use swift_job::Job;
use swift_locals::Bindings;
use swift_script::Script;
use swift_turn::Body;
use swift_types::{Ending, Env, Fault, LocalId, Priority, Resume, TaskId};
use test_support::Said;

/// Locals with these numbers are read, more than a script of these cases has.
pub const LOCALS: u32 = 16;

/// The name of a priority.
pub fn priority(given: Priority) -> &'static str {
    match given {
        Priority::Background => "background",
        Priority::Low => "low",
        Priority::Medium => "medium",
        Priority::High => "high",
    }
}

/// A fault, with the word `fault` before it.
pub fn fault(out: &mut Said, raised: Fault) {
    let word = match raised {
        Fault::Thrown(value) => return out.number("fault thrown ", value),
        Fault::Cancelled => "fault cancelled",
        Fault::Invariant => "fault invariant",
        Fault::Overflow => "fault overflow",
        Fault::Steps => "fault steps",
        Fault::Turns => "fault turns",
        Fault::Depth => "fault depth",
        Fault::Tasks => "fault tasks",
        Fault::Empty => "fault empty",
        Fault::Isolation => "fault isolation",
    };
    out.put(word)
}

/// What a turn begins with.
pub fn resume(out: &mut Said, begun: Resume) {
    match begun {
        Resume::Start => out.put("start"),
        Resume::Go => out.put("go"),
        Resume::Value(value) => out.number("value ", value),
        Resume::Fault(raised) => fault(out, raised),
    }
}

/// How a task has ended.
pub fn ending(out: &mut Said, ended: Option<Ending>) {
    match ended {
        None => out.put("none"),
        Some(Ending::Value(value)) => out.number("value ", value),
        Some(Ending::Fault(raised)) => fault(out, raised),
    }
}

// A number of a task or a group, behind words.
fn numbered(out: &mut Said, before: &str, number: u32) {
    out.number(before, i64::from(number))
}

// Two numbers, each behind words.
fn two(out: &mut Said, before: &str, first: u32, between: &str, second: u32) {
    numbered(out, before, first);
    numbered(out, between, second)
}

/// Where a task comes from.
pub fn origin(out: &mut Said, from: Option<Origin>) {
    match from {
        None => out.put("none"),
        Some(Origin::Root) => out.put("root"),
        Some(Origin::Child(owner, group)) => two(out, "child of t", owner.0, " group ", group),
        Some(Origin::Spawned(by)) => numbered(out, "spawned by t", by.0),
        Some(Origin::Detached(by)) => numbered(out, "detached by t", by.0),
    }
}

/// What a turn is given.
pub fn env(out: &mut Said, given: Env) {
    out.put(priority(given.priority));
    two(out, " ", u32::from(given.cancelled), " ", given.room)
}

/// An event.
pub fn event(out: &mut Said, happened: Event) {
    match happened {
        Event::Root(..) | Event::Free { .. } | Event::Child { .. } => made(out, happened),
        Event::Begin { .. } | Event::Apply(..) | Event::End(..) | Event::Give { .. } => {
            turn_event(out, happened)
        }
        Event::CancelTask(TaskId(task)) => numbered(out, "cancel t", task),
        Event::Wait(TaskId(task), TaskId(awaited)) => two(out, "wait t", task, " for t", awaited),
        _ => group_event(out, happened),
    }
}

// A task that is made, and its priority.
fn made(out: &mut Said, happened: Event) {
    let own = match happened {
        Event::Root(TaskId(task), own) => {
            numbered(out, "root t", task);
            own
        }
        Event::Free {
            task: TaskId(task),
            maker: TaskId(by),
            priority: own,
            detached,
        } => {
            let word = if detached { "detach t" } else { "spawn t" };
            two(out, word, task, " by t", by);
            own
        }
        Event::Child {
            task: TaskId(task),
            owner: TaskId(owner),
            group,
            priority: own,
        } => {
            two(out, "child t", task, " of t", owner);
            numbered(out, " group ", group);
            own
        }
        _ => return,
    };
    out.put(" ");
    out.put(priority(own))
}

// A task's turns, and its end.
fn turn_event(out: &mut Said, happened: Event) {
    match happened {
        Event::Begin {
            task: TaskId(task),
            turn: number,
            env: given,
        } => {
            two(out, "begin t", task, ".", number);
            out.put(" ");
            env(out, given)
        }
        Event::Apply(TaskId(task), number) => two(out, "apply t", task, ".", number),
        Event::End(TaskId(task), ended) => {
            numbered(out, "end t", task);
            out.put(" ");
            ending(out, Some(ended))
        }
        Event::Give {
            task: TaskId(task),
            turn: number,
            resume: begun,
        } => {
            two(out, "give t", task, ".", number);
            out.put(" ");
            resume(out, begun)
        }
        _ => {}
    }
}

// An event of a group.
fn group_event(out: &mut Said, happened: Event) {
    let (word, group) = match happened {
        Event::Open(_, group) => ("open t", group),
        Event::Skip(_, group) => ("skip t", group),
        Event::CancelGroup(_, group) => ("cancel t", group),
        Event::Next(_, group) => ("next t", group),
        Event::Close(_, group) => ("close t", group),
        _ => return,
    };
    two(out, word, happened.task().0, " group ", group)
}

/// A job.
pub fn job(out: &mut Said, script: &Script, made: &Job<Body>) {
    two(out, "job t", made.task().0, ".", made.number());
    out.put(" ");
    resume(out, made.resume());
    out.put(" in ");
    let body = made.body();
    if !body.is_running() {
        return out.put("no frame");
    }
    frame(out, script, body.top());
    bindings(out, body.outer())
}

// The method of a frame, by its name, and its variables.
fn frame(out: &mut Said, script: &Script, top: &Frame) {
    if top.method.0 as usize >= script.method_count() {
        return out.put("no method");
    }
    out.bytes(script.method_name(top.method));
    out.debug(" ", &top.variables)
}

// What is read of each local that is bound, and how many bindings stand.
fn bindings(out: &mut Said, standing: &Bindings) {
    let depth = standing.depth();
    if depth == 0 {
        return;
    }
    for local in 0..LOCALS {
        if let Some(value) = standing.read(LocalId(local)) {
            numbered(out, " ", local);
            out.number("=", value);
        }
    }
    out.count(" of ", depth as u64)
}
