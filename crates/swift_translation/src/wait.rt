//! What is waited for, and what tasks run.

ghost use Rattle.std.specs.Prelude.{◌≡◌, []};
ghost use Rattle.swift_translation.specs.StatementTexts.{apart_text, arguments_text, await_text, call_text, callee_text, called_text, caught_head, caught_text, closure_call, else_text, getter_text, here_text, home_text, is_call, method_name_text, method_text, set_head, target_text, wait_text, waited_text, word_line};
ghost use Rattle.swift_translation.specs.WritingInside.{GoesOn};

use crate::naming::{
    write_caught, write_field_name, write_instance, write_name, write_unit, write_variable,
};
use crate::source::{Context, Source};
use crate::value::{write_operands, write_value};
use crate::writer::Writer;
use swift_expressions::{Callee, NONE, Target, Wait};
use swift_syntax::{MethodDecl, Rule};

/// A line that begins with a word.
#[tactic(auto, unfolding(crate::specs::StatementTexts::word_line))]
pub(crate) fn begin_line(out: &mut Writer, at: &Context<'_>, word: &str)
    ensures { GoesOn out.old out.new (word_line at.now word.now) }
{
    out.line(at.open_blocks);
    out.say(word)
}

/// `let` or nothing, a variable, and `=`.
#[tactic(auto, unfolding(crate::specs::StatementTexts::set_head))]
pub(crate) fn begin_set(out: &mut Writer, at: &Context<'_>, word: &str, variable: usize)
    ensures { GoesOn out.old out.new (set_head at.now word.now variable) }
{
    begin_line(out, at, word);
    write_variable(out, at, variable);
    out.say(" = ")
}

// A method or a field of the own instance, which would end the turn where Swift does not, is refused.
fn refuse_own(out: &mut Writer, source: &Source<'_>, instance: usize, token: usize)
    ensures { GoesOn out.old out.new [] }
{
    if instance == source.instance && !source.is_closure {
        out.refuse(Rule::NotYet, token)
    }
}

// The name of a method of an instance.
#[tactic(auto, unfolding(crate::specs::StatementTexts::method_name_text))]
fn write_method_name(out: &mut Writer, source: &Source<'_>, instance: usize, method: usize)
    ensures { GoesOn out.old out.new (method_name_text source.now method) }
{
    if let Some(declared) = source.tree.methods.get(method).copied() {
        refuse_own(out, source, instance, declared.name);
        write_name(out, source, declared.name)
    }
}

// A method of an instance.
#[tactic(auto, unfolding(crate::specs::StatementTexts::method_text))]
fn write_method(out: &mut Writer, source: &Source<'_>, instance: usize, method: usize)
    ensures { GoesOn out.old out.new (method_text source.now instance method) }
{
    write_instance(out, source, instance);
    out.say(".");
    write_method_name(out, source, instance, method)
}

// A field of an instance.
#[tactic(auto, unfolding(crate::specs::StatementTexts::getter_text))]
fn write_getter(out: &mut Writer, source: &Source<'_>, instance: usize, field: usize)
    ensures { GoesOn out.old out.new (getter_text source.now instance field) }
{
    write_instance(out, source, instance);
    out.say(".");
    if let Some(declared) = source.tree.fields.get(field).copied() {
        refuse_own(out, source, instance, declared.name);
        write_field_name(out, source, declared.name)
    }
}

// The actor in which a method runs: an instance, or that of closures where it is a function outside of actors.
fn write_home(out: &mut Writer, source: &Source<'_>, instance: usize, method: MethodDecl)
    ensures { GoesOn out.old out.new (home_text source.now instance method) }
{
    if method.actor == NONE {
        out.say("Task")
    } else {
        write_instance(out, source, instance)
    }
}

// A method of an instance, or a function outside of actors, whatever the instance.
#[tactic(auto, unfolding(crate::specs::StatementTexts::call_text))]
fn write_call(out: &mut Writer, source: &Source<'_>, instance: usize, method: MethodDecl)
    ensures { GoesOn out.old out.new (call_text source.now instance method) }
{
    write_home(out, source, instance, method);
    out.say(".");
    write_name(out, source, method.name)
}

// The same of the method at a place, if there is one.
#[tactic(auto, unfolding(crate::specs::StatementTexts::called_text))]
fn write_called(out: &mut Writer, source: &Source<'_>, instance: usize, method: usize)
    ensures { GoesOn out.old out.new (called_text source.now instance method) }
{
    if let Some(declared) = source.tree.methods.get(method).copied() {
        write_call(out, source, instance, declared)
    }
}

#[tactic(auto, unfolding(crate::specs::StatementTexts::arguments_text))]
fn write_arguments(out: &mut Writer, at: &Context<'_>, first: usize)
    ensures { GoesOn out.old out.new (arguments_text at.now first) }
{
    out.say("(");
    write_operands(out, at, first);
    out.say(")")
}

// A method that a closure became, and what is handed to it.
#[tactic(auto, unfolding(crate::specs::StatementTexts::closure_call))]
fn write_closure(out: &mut Writer, at: &Context<'_>, unit: usize, first: usize)
    ensures { GoesOn out.old out.new (closure_call at.now unit first) }
{
    out.say("Task.");
    write_unit(out, &at.source, unit);
    write_arguments(out, at, first)
}

// What is waited for.
fn write_wait(out: &mut Writer, at: &Context<'_>, what: Wait)
    ensures { GoesOn out.old out.new (wait_text at.now what) }
{
    match what {
        Wait::Method(instance, method, first) => {
            write_method(out, &at.source, instance, method);
            write_arguments(out, at, first)
        }
        Wait::Getter(instance, field) => {
            write_getter(out, &at.source, instance, field);
            out.say("()")
        }
        Wait::Own(method, first) => {
            write_called(out, &at.source, at.source.instance, method);
            write_arguments(out, at, first)
        }
        Wait::Unit(unit, first) => write_closure(out, at, unit, first),
        Wait::Task(variable) => {
            out.say("task ");
            write_variable(out, at, variable)
        }
        Wait::Next(variable) => {
            out.say("next ");
            write_variable(out, at, variable)
        }
    }
}

// Whether what is waited for is a call, which the waiting task does itself.
fn is_call(what: Wait) -> bool
    ensures { result ≡ is_call what }
{
    match what {
        Wait::Method(..) | Wait::Getter(..) | Wait::Own(..) | Wait::Unit(..) => true,
        Wait::Task(_) | Wait::Next(_) => false,
    }
}

// Begins a statement whose result goes to a variable that begins there, unless it goes nowhere.
fn begin_target(out: &mut Writer, at: &Context<'_>, target: Target)
    ensures { GoesOn out.old out.new (target_text at.now target) }
{
    match target {
        Target::Nothing => out.line(at.open_blocks),
        Target::Declare(variable) => begin_set(out, at, "let ", variable),
    }
}

// The beginning of a statement that makes a task for a call whose error is caught.
#[tactic(auto, unfolding(crate::specs::StatementTexts::caught_head))]
fn begin_caught(out: &mut Writer, at: &Context<'_>, place: usize)
    ensures { GoesOn out.old out.new (caught_head at.now place) }
{
    begin_line(out, at, "let ");
    write_caught(out, at, place);
    out.say(" = spawn ")
}

// A call whose error is caught as a task: nothing in Swift catches what ends the process, and that a task was ended by it is seen.
#[tactic(auto, unfolding(crate::specs::StatementTexts::caught_text))]
fn make_caught(out: &mut Writer, at: &Context<'_>, place: usize, what: Wait)
    ensures { GoesOn out.old out.new (caught_text at.now place what) }
{
    begin_caught(out, at, place);
    write_wait(out, at, what);
    out.say(";")
}

// A wait for the task of a call that is caught.
#[tactic(auto, unfolding(crate::specs::StatementTexts::apart_text))]
fn wait_apart(out: &mut Writer, at: &Context<'_>, place: usize, target: Target, what: Wait)
    ensures { GoesOn out.old out.new (apart_text at.now place target what) }
{
    make_caught(out, at, place, what);
    begin_target(out, at, target);
    out.say("await task ");
    write_caught(out, at, place)
}

#[tactic(auto, unfolding(crate::specs::StatementTexts::here_text))]
fn wait_here(out: &mut Writer, at: &Context<'_>, target: Target, what: Wait)
    ensures { GoesOn out.old out.new (here_text at.now target what) }
{
    begin_target(out, at, target);
    out.say("await ");
    write_wait(out, at, what)
}

fn write_await(
    out: &mut Writer,
    at: &Context<'_>,
    place: usize,
    target: Target,
    what: Wait,
    otherwise: usize,
)
    ensures { GoesOn out.old out.new (await_text at.now place target what otherwise) }
{
    if otherwise != NONE && (is_call(what) && !at.source.may_ask_cancelled) {
        wait_apart(out, at, place, target, what)
    } else {
        wait_here(out, at, target, what)
    }
}

// The value that stands for the result where a wait ends with a fault, if there is one.
fn write_else(out: &mut Writer, at: &Context<'_>, otherwise: usize)
    ensures { GoesOn out.old out.new (else_text at.now otherwise) }
{
    if otherwise != NONE {
        out.say(" else ");
        write_value(out, at, otherwise)
    }
}

/// A wait, with the value that stands for its result where it ends with a fault, if there is one.
#[tactic(auto, unfolding(crate::specs::StatementTexts::waited_text))]
pub(crate) fn wait(
    out: &mut Writer,
    at: &Context<'_>,
    place: usize,
    target: Target,
    what: Wait,
    otherwise: usize,
)
    ensures { GoesOn out.old out.new (waited_text at.now place target what otherwise) }
{
    write_await(out, at, place, target, what, otherwise);
    write_else(out, at, otherwise);
    out.say(";")
}

/// What a task runs.
pub(crate) fn write_callee(out: &mut Writer, at: &Context<'_>, callee: Callee)
    ensures { GoesOn out.old out.new (callee_text at.now callee) }
{
    match callee {
        Callee::Method(instance, method, first) => {
            write_called(out, &at.source, instance, method);
            write_arguments(out, at, first)
        }
        Callee::Unit(unit, first) => write_closure(out, at, unit, first),
    }
}
