//! Calls, what is waited for, and tasks that are made.

use crate::expression::{is_literal, may_throw, say_number, say_tried};
use crate::page::SwiftPage;
use crate::prelude::Difference;
use crate::scope::{Handle, MethodScope, find_actor, is_together};
use crate::words::{say_method, say_type, say_value};
use script_grammar::{Add, Awaited, Call, Decl, Expr, Make, Name, Wait};
use swift_types::Priority;

/// The name of a method, after its actor's.
pub(crate) fn say_called(page: &mut SwiftPage, decls: &[Decl], actor: &Name, method: &Name) {
    say_type(page, actor);
    page.say(".shared.");
    match find_actor(decls, actor) {
        Some(found) => say_method(page, found, method),
        None => say_value(page, method),
    }
}

// A comma, but not before the first.
fn say_comma(page: &mut SwiftPage, index: usize) {
    match index {
        0 => {}
        _ => page.say(", "),
    }
}

// The name of the argument that was computed at this place.
fn say_kept(page: &mut SwiftPage, index: usize) {
    page.say("m_");
    page.say_count(index)
}

fn can_overflow(args: &[Expr]) -> bool {
    for arg in args {
        if may_throw(arg) {
            return true;
        }
    }
    false
}

// A call, with its arguments in place.
fn say_call(page: &mut SwiftPage, scope: &MethodScope<'_>, call: &Call) {
    say_called(page, scope.decls, &call.actor, &call.method);
    page.say("(");
    for (index, arg) in call.args.iter().enumerate() {
        say_comma(page, index);
        say_tried(page, scope, arg);
    }
    page.say(")")
}

// A call whose arguments were computed before.
fn say_kept_call(page: &mut SwiftPage, scope: &MethodScope<'_>, call: &Call) {
    say_called(page, scope.decls, &call.actor, &call.method);
    page.say("(");
    for index in 0..call.args.len() {
        say_comma(page, index);
        say_kept(page, index);
    }
    page.say(")")
}

// A wait that does not suspend where this is so already.
fn see_wait(page: &mut SwiftPage, scope: &MethodScope<'_>, awaited: &Awaited) {
    match awaited {
        Awaited::Call(call) => match find_actor(scope.decls, &call.actor) {
            Some(actor) if is_together(actor, scope.actor) => page.see(Difference::NoSuspension),
            _ => {}
        },
        Awaited::Task(_) => page.see(Difference::NoSuspension),
        Awaited::Next(_) => {
            page.see(Difference::NoSuspension);
            page.see(Difference::LateEnds);
        }
    }
}

/// What is waited for, after `try await`.
pub(crate) fn say_awaited(page: &mut SwiftPage, scope: &MethodScope<'_>, awaited: &Awaited) {
    see_wait(page, scope, awaited);
    match awaited {
        Awaited::Call(call) => say_call(page, scope, call),
        Awaited::Task(name) => {
            say_task(page, scope, name);
            page.say(".value")
        }
        Awaited::Next(name) => {
            page.say("Run.next(");
            say_value(page, name);
            page.say(".next())")
        }
    }
}

/// What is waited for, after `try await`, where arguments that can overflow were computed before.
pub(crate) fn say_awaited_later(page: &mut SwiftPage, scope: &MethodScope<'_>, awaited: &Awaited) {
    match awaited {
        Awaited::Call(call) if can_overflow(&call.args) => {
            see_wait(page, scope, awaited);
            say_kept_call(page, scope, call)
        }
        _ => say_awaited(page, scope, awaited),
    }
}

/// Computes the arguments of what is waited for, where they can overflow: what `else` catches is what the call ends with, and not that.
pub(crate) fn keep_arguments(page: &mut SwiftPage, scope: &MethodScope<'_>, awaited: &Awaited) {
    match awaited {
        Awaited::Call(call) if can_overflow(&call.args) => {
            for (index, arg) in call.args.iter().enumerate() {
                page.begin();
                page.say("let ");
                say_kept(page, index);
                page.say(": Int64 = ");
                say_number(page, scope, arg);
                page.end("");
            }
        }
        _ => {}
    }
}

/// Whether the arguments of what is waited for can overflow.
pub(crate) fn is_kept(wait: &Wait) -> bool {
    match &wait.awaited {
        Awaited::Call(call) => can_overflow(&call.args),
        _ => false,
    }
}

/// A task: one that the method made, or else a root.
pub(crate) fn say_task(page: &mut SwiftPage, scope: &MethodScope<'_>, name: &Name) {
    match scope.handle(name) {
        Some(Handle::Task) => say_value(page, name),
        _ => {
            page.say("Root.");
            say_value(page, name)
        }
    }
}

/// The name of a priority.
pub(crate) fn priority(priority: Priority) -> &'static str {
    match priority {
        Priority::Background => ".background",
        Priority::Low => ".low",
        Priority::Medium => ".medium",
        Priority::High => ".high",
    }
}

// An argument that a closure takes along. A literal has to say that it is of 64 bits.
fn say_argument(page: &mut SwiftPage, scope: &MethodScope<'_>, arg: &Expr) {
    if is_literal(arg) {
        page.say("Int64(");
        say_tried(page, scope, arg);
        page.say(")")
    } else {
        say_number(page, scope, arg)
    }
}

// What a closure takes along: the arguments, and then the number of its task.
fn say_list(page: &mut SwiftPage, scope: &MethodScope<'_>, args: &[Expr], origin: &'static str) {
    page.say(" [");
    for (index, arg) in args.iter().enumerate() {
        say_kept(page, index);
        page.say(" = ");
        say_argument(page, scope, arg);
        page.say(", ");
    }
    page.say("m_task = Run.made(");
    page.say(origin);
    page.say(")]")
}

// The closure of a task, from its actor on.
fn say_closure(page: &mut SwiftPage, scope: &MethodScope<'_>, call: &Call, origin: &'static str) {
    page.see(Difference::AtOnce);
    page.say(" { @Sendable @");
    say_type(page, &call.actor);
    say_list(page, scope, &call.args, origin);
    page.open(" in");
    page.begin();
    page.say("try await Run.noted(m_task) { try await ");
    say_kept_call(page, scope, call);
    page.end(" }")
}

// The priority that was given, if one was.
fn say_given(page: &mut SwiftPage, given: Option<Priority>) {
    match given {
        Some(found) => {
            page.say("(priority: ");
            page.say(priority(found));
            page.say(")")
        }
        None => {}
    }
}

/// A task that is made. The line has begun.
pub(crate) fn say_make(page: &mut SwiftPage, scope: &MethodScope<'_>, make: &Make) {
    match make {
        Make::Spawn(call, given) => {
            if given.is_none() {
                page.see(Difference::FirstPriority);
            }
            page.say("Task");
            say_given(page, *given);
            say_closure(page, scope, call, ".spawned")
        }
        Make::Detach(call, given) => {
            page.say("Task.detached");
            say_given(page, Some(*given));
            say_closure(page, scope, call, ".detached")
        }
    }
    page.close("}")
}

/// A child of a group. One that is left out where the group is cancelled gives its number back.
pub(crate) fn say_add(page: &mut SwiftPage, scope: &MethodScope<'_>, add: &Add) {
    if add.priority.is_some() {
        page.see(Difference::ChildPriority);
    }
    page.begin();
    page.say(if add.unless { "Run.added(" } else { "" });
    say_value(page, &add.group);
    page.say(if add.unless {
        ".addTaskUnlessCancelled"
    } else {
        ".addTask"
    });
    say_given(page, add.priority);
    say_closure(page, scope, &add.call, ".child");
    page.close(if add.unless { "})" } else { "}" })
}
