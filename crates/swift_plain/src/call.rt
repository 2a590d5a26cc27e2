//! Calls, what is waited for, and tasks that are made.

ghost use Rattle.std.specs.Prelude.{◌≡◌, ◌++◌, map};
ghost use Rattle.std.specs.List.{list_any};
ghost use Rattle.script_grammar.specs.Tree.{text_of, view, view_add, view_awaited, view_call, view_decl, view_make, view_wait};
ghost use Rattle.plain_parts.specs.Pages.{GoesOn};
ghost use Rattle.swift_plain.specs.Calls as calls;
ghost use Rattle.swift_plain.specs.Places.{view_place};

use crate::place::Place;
use crate::signature::{call_throws, gives_number, task_throws};
use plain_parts::{
    Page, call_of, is_same, one_more, say_instance, say_method, say_number, say_other, say_value,
};
use script_grammar::{Add, Awaited, Call, Decl, Expr, Make, Name, Wait};
use swift_types::Priority;

/// The method that is called, behind the instance of its actor.
pub(crate) fn say_called(page: &mut Page, decls: &[Decl], actor: &Name, method: &Name)
    ensures { GoesOn page.old page.new (calls.called_text (map view_decl decls.now) (text_of actor.now) (text_of method.now)) }
{
    say_instance(page, actor);
    page.say(".");
    say_method(page, decls, actor, method)
}

fn say_more_arguments(page: &mut Page, decls: &[Decl], args: &[Expr])
    ensures { GoesOn page.old page.new (calls.more_arguments (map view_decl decls.now) (map view args.now)) }
{
    match args {
        [] => page.say(""),
        [arg, rest @ ..] => {
            page.say(", ");
            say_number(page, decls, arg);
            say_more_arguments(page, decls, rest)
        }
    }
}

fn say_all_arguments(page: &mut Page, decls: &[Decl], args: &[Expr])
    ensures { GoesOn page.old page.new (calls.all_arguments (map view_decl decls.now) (map view args.now)) }
{
    match args {
        [] => page.say(""),
        [arg, rest @ ..] => {
            say_number(page, decls, arg);
            say_more_arguments(page, decls, rest)
        }
    }
}

fn say_call(page: &mut Page, place: Place<'_>, call: &Call)
    ensures { GoesOn page.old page.new (calls.call_text (view_place place.entry) (view_call call.now)) }
{
    say_called(page, place.decls, &call.actor, &call.method);
    page.say("(");
    say_all_arguments(page, place.decls, &call.args);
    page.say(")")
}

// What is waited for.
fn say_awaited(page: &mut Page, place: Place<'_>, awaited: &Awaited)
    ensures { GoesOn page.old page.new (calls.awaited_text (view_place place.entry) (view_awaited awaited.now)) }
{
    match awaited {
        Awaited::Call(call) => say_call(page, place, call),
        Awaited::Task(name) => {
            say_value(page, place.decls, name);
            page.say(".value")
        }
        Awaited::Next(name) => {
            say_value(page, place.decls, name);
            page.say(".next()")
        }
    }
}

// Whether what is waited for may end with an error.
fn may_throw(place: Place<'_>, awaited: &Awaited) -> bool
    ensures { result ≡ calls.may_throw (view_place place.entry) (view_awaited awaited.now) }
{
    match awaited {
        Awaited::Call(call) => call_throws(place.throwers, call),
        Awaited::Task(name) => task_throws(&place.method.body, place.throwers, name),
        Awaited::Next(_) => place.group_throws,
    }
}

/// Whether what is waited for gives a number.
pub(crate) fn is_number(place: Place<'_>, awaited: &Awaited) -> bool
    ensures { result ≡ calls.is_number (view_place place.entry) (view_awaited awaited.now) }
{
    match awaited {
        Awaited::Call(call) => gives_number(place.decls, &call.actor, &call.method),
        Awaited::Task(_) | Awaited::Next(_) => true,
    }
}

/// What stands before something that is waited for.
pub(crate) fn awaiting(throws: bool) -> &'static str
    ensures { result.now ≡ calls.awaiting throws }
{
    if throws { "try await " } else { "await " }
}

// What stands behind something that is waited for: Swift has no number where there is no child, and a plain file always has one.
fn fallback(awaited: &Awaited) -> &'static str
    ensures { result.now ≡ calls.fallback (view_awaited awaited.now) }
{
    match awaited {
        Awaited::Call(_) | Awaited::Task(_) => "",
        Awaited::Next(_) => " ?? 0",
    }
}

/// A wait as a number.
pub(crate) fn say_wait(page: &mut Page, place: Place<'_>, wait: &Wait)
    ensures { GoesOn page.old page.new (calls.wait_text (view_place place.entry) (view_wait wait.now)) }
{
    match &wait.other {
        Some(other) => {
            page.say("(try? await ");
            say_awaited(page, place, &wait.awaited);
            page.say(") ?? ");
            say_other(page, place.decls, other)
        }
        None => {
            page.say(awaiting(may_throw(place, &wait.awaited)));
            say_awaited(page, place, &wait.awaited);
            page.say(fallback(&wait.awaited))
        }
    }
}

fn any_param(params: &[Name], name: &Name) -> bool
    ensures { result ≡ list_any (λ param. calls.is_named (text_of name.now) (text_of param)) params.now }
{
    params.iter().any(|param| is_same(param, name))
}

fn is_among(params: &[Name], name: &Name) -> bool
    ensures { result ≡ calls.is_among (map text_of params.now) (text_of name.now) }
{
    any_param(params, name)
}

fn is_param(place: Place<'_>, name: &Name) -> bool
    ensures { result ≡ calls.is_param (view_place place.entry) (text_of name.now) }
{
    is_among(&place.method.params, name)
}

// Whether an argument of a task needs a name: it is no number from 0 on, and no parameter.
fn is_given(place: Place<'_>, arg: &Expr) -> bool
    ensures { result ≡ calls.is_given (view_place place.entry) (view arg.now) }
{
    match arg {
        Expr::Name(name) => !is_param(place, name),
        Expr::Number(_) => false,
        _ => true,
    }
}

/// The name that an argument of a task was given.
pub(crate) fn say_given(page: &mut Page, number: usize)
    ensures { GoesOn page.old page.new (calls.given_name number) }
{
    page.say("g_");
    page.say_count(number)
}

// The number of the last name, after that of an argument.
fn after_argument(place: Place<'_>, arg: &Expr, given: usize) -> usize
    ensures { result ≡ calls.after_argument (view_place place.entry) (view arg.now) given }
{
    if is_given(place, arg) {
        one_more(given)
    } else {
        given
    }
}

/// The number of the last name, after those of arguments.
pub(crate) fn after_arguments(place: Place<'_>, args: &[Expr], given: usize) -> usize
    ensures { result ≡ calls.after_arguments (view_place place.entry) (map view args.now) given }
{
    match args {
        [] => given,
        [arg, rest @ ..] => after_arguments(place, rest, after_argument(place, arg, given)),
    }
}

// The line that names an argument.
fn say_named(page: &mut Page, place: Place<'_>, depth: usize, arg: &Expr, given: usize)
    ensures { GoesOn page.old page.new (calls.named_text (view_place place.entry) depth (view arg.now) given) }
{
    if is_given(place, arg) {
        page.begin(depth);
        page.say("let ");
        say_given(page, one_more(given));
        page.say(" = ");
        say_number(page, place.decls, arg);
        page.say("\n")
    } else {
        page.say("")
    }
}

/// Names the arguments of a task, each on a line, where they have to be computed before the task is made.
pub(crate) fn say_all_named(
    page: &mut Page,
    place: Place<'_>,
    depth: usize,
    args: &[Expr],
    given: usize,
)
    ensures { GoesOn page.old page.new (calls.all_named (view_place place.entry) depth (map view args.now) given) }
{
    match args {
        [] => page.say(""),
        [arg, rest @ ..] => {
            say_named(page, place, depth, arg, given);
            say_all_named(page, place, depth, rest, after_argument(place, arg, given))
        }
    }
}

fn say_task_argument(page: &mut Page, place: Place<'_>, arg: &Expr, given: usize)
    ensures { GoesOn page.old page.new (calls.task_argument (view_place place.entry) (view arg.now) given) }
{
    if is_given(place, arg) {
        say_given(page, one_more(given))
    } else {
        say_number(page, place.decls, arg)
    }
}

fn say_more_task_arguments(page: &mut Page, place: Place<'_>, args: &[Expr], given: usize)
    ensures { GoesOn page.old page.new (calls.more_task_arguments (view_place place.entry) (map view args.now) given) }
{
    match args {
        [] => page.say(""),
        [arg, rest @ ..] => {
            page.say(", ");
            say_task_argument(page, place, arg, given);
            say_more_task_arguments(page, place, rest, after_argument(place, arg, given))
        }
    }
}

fn say_task_arguments(page: &mut Page, place: Place<'_>, args: &[Expr], given: usize)
    ensures { GoesOn page.old page.new (calls.task_arguments (view_place place.entry) (map view args.now) given) }
{
    match args {
        [] => page.say(""),
        [arg, rest @ ..] => {
            say_task_argument(page, place, arg, given);
            say_more_task_arguments(page, place, rest, after_argument(place, arg, given))
        }
    }
}

// The closure of a task, and the end of its line.
fn say_closure(page: &mut Page, place: Place<'_>, call: &Call, given: usize)
    ensures { GoesOn page.old page.new (calls.closure_text (view_place place.entry) (view_call call.now) given) }
{
    page.say(" { ");
    page.say(awaiting(call_throws(place.throwers, call)));
    say_called(page, place.decls, &call.actor, &call.method);
    page.say("(");
    say_task_arguments(page, place, &call.args, given);
    page.say(") }\n")
}

// The name of a priority.
fn priority(priority: Priority) -> &'static str
    ensures { result.now ≡ calls.priority_text priority }
{
    match priority {
        Priority::Background => ".background",
        Priority::Low => ".low",
        Priority::Medium => ".medium",
        Priority::High => ".high",
    }
}

// A priority that was given.
#[tactic(auto, unfolding(crate::specs::Calls::stated_priority))]
fn say_stated(page: &mut Page, found: Priority)
    ensures { GoesOn page.old page.new (calls.stated_priority found) }
{
    page.say("(priority: ");
    page.say(priority(found));
    page.say(")")
}

/// The priority that was given, if one was.
pub(crate) fn say_priority(page: &mut Page, given: Option<Priority>)
    ensures { GoesOn page.old page.new (calls.given_priority given) }
{
    match given {
        Some(found) => say_stated(page, found),
        None => page.say(""),
    }
}

/// The priority that a detached task or a root is given, if it is not medium.
pub(crate) fn given_of(found: Priority) -> Option<Priority>
    ensures { result ≡ calls.given_of found }
{
    match found {
        Priority::Medium => None,
        _ => Some(found),
    }
}

// A detached task, and the end of its line.
#[tactic(auto, unfolding(crate::specs::Calls::detached_text))]
fn say_detached(page: &mut Page, place: Place<'_>, call: &Call, found: Priority, given: usize)
    ensures { GoesOn page.old page.new (calls.detached_text (view_place place.entry) (view_call call.now) found given) }
{
    page.say("Task.detached");
    say_priority(page, given_of(found));
    say_closure(page, place, call, given)
}

/// A task that is made, and the end of its line.
pub(crate) fn say_make(page: &mut Page, place: Place<'_>, make: &Make, given: usize)
    ensures { GoesOn page.old page.new (calls.make_text (view_place place.entry) (view_make make.now) given) }
{
    match make {
        Make::Spawn(call, found) => {
            page.say("Task");
            say_priority(page, *found);
            say_closure(page, place, call, given)
        }
        Make::Detach(call, found) => say_detached(page, place, call, *found, given),
    }
}

/// A child of a group, behind the lines that name its arguments.
pub(crate) fn say_add(page: &mut Page, place: Place<'_>, depth: usize, add: &Add, given: usize)
    ensures { GoesOn page.old page.new (calls.add_text (view_place place.entry) depth (view_add add.now) given) }
{
    say_all_named(page, place, depth, &add.call.args, given);
    page.begin(depth);
    say_value(page, place.decls, &add.group);
    page.say(".addTask");
    say_closure(page, place, &add.call, given)
}

/// A task with a name, behind the lines that name its arguments.
pub(crate) fn say_task(
    page: &mut Page,
    place: Place<'_>,
    depth: usize,
    name: &Name,
    make: &Make,
    given: usize,
)
    ensures { GoesOn page.old page.new (calls.task_text (view_place place.entry) depth (text_of name.now) (view_make make.now) given) }
{
    say_all_named(page, place, depth, &call_of(make).args, given);
    page.begin(depth);
    page.say("let ");
    say_value(page, place.decls, name);
    page.say(" = ");
    say_make(page, place, make, given)
}
