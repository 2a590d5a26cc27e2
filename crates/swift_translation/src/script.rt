//! Whole scripts.

ghost use Rattle.std.specs.Prelude.{◌≡◌, IsFalse, IsNone};
ghost use Rattle.swift_translation.specs.ScriptTexts.{declared_text, executor_at, executor_named, executor_of, executors_text, expectation_at, expectation_of, expectations_text, kind_at, kind_of, kind_text, literal_or_zero, local_at, local_of, locals_text, script_text};
ghost use Rattle.swift_translation.specs.WritingInside.{GoesOn};

use crate::actor::write_actors;
use crate::naming::{write_instance, write_name};
use crate::pool::{write_main, write_pool};
use crate::source::Source;
use crate::start::literal;
use crate::value::write_bare;
use crate::writer::Writer;
use swift_syntax::{Breach, ExecutorKindDecl, LocalDecl, Rule};

fn write_kind(out: &mut Writer, source: &Source<'_>, kind: ExecutorKindDecl)
    ensures { GoesOn out.old out.new (kind_text kind) }
{
    match kind {
        ExecutorKindDecl::Fifo => out.say(" fifo;\n"),
        ExecutorKindDecl::Priority => out.say(" priority;\n"),
        ExecutorKindDecl::Pinned(number) => {
            out.say(" pinned ");
            out.number(source.alloc, number);
            out.say(";\n")
        }
    }
}

// The place of the executor class that a token names.
#[tactic(auto, unfolding(crate::specs::ScriptTexts::executor_named))]
fn executor_named(source: &Source<'_>, of: usize) -> Option<usize>
    ensures { result ≡ executor_named source.now of }
{
    source
        .tree
        .executors
        .iter()
        .position(|e| source.are_same(e.name, of))
}

// The kind of the executor class at a place.
#[tactic(auto, unfolding(crate::specs::ScriptTexts::kind_at))]
fn kind_at(source: &Source<'_>, place: usize) -> Option<ExecutorKindDecl>
    ensures { result ≡ kind_at source.now place }
{
    match source.tree.executors.get(place).copied() {
        Some(declared) => Some(declared.kind),
        None => None,
    }
}

// The kind of the executor class that a token names, if it names one.
fn kind_of(source: &Source<'_>, of: usize) -> Option<ExecutorKindDecl>
    ensures { result ≡ kind_of source.now of }
{
    match executor_named(source, of) {
        Some(place) => kind_at(source, place),
        None => None,
    }
}

// An executor.
#[tactic(auto, unfolding(crate::specs::ScriptTexts::executor_of))]
fn write_executor(out: &mut Writer, source: &Source<'_>, instance: usize, kind: ExecutorKindDecl)
    ensures { GoesOn out.old out.new (executor_of source.now instance kind) }
{
    out.say("executor ");
    write_instance(out, source, instance);
    write_kind(out, source, kind)
}

// The instance at a place, if it is an executor.
fn write_executor_at(out: &mut Writer, source: &Source<'_>, instance: usize)
    ensures { GoesOn out.old out.new (executor_at source.now instance) }
{
    if let Some(declared) = source.tree.instances.get(instance).copied() {
        if let Some(kind) = kind_of(source, declared.of) {
            write_executor(out, source, instance, kind)
        }
    }
}

#[tactic(auto, unfolding(crate::specs::ScriptTexts::executors_text))]
fn write_executors(out: &mut Writer, source: &Source<'_>)
    ensures { GoesOn out.old out.new (executors_text source.now) }
{
    for instance in 0..source.tree.instances.len() {
        write_executor_at(out, source, instance);
    }
}

// The number of a literal, or 0.
fn literal_or_zero(source: &Source<'_>, place: usize) -> i64
    ensures { result ≡ literal_or_zero source.now place }
{
    match literal(source, place) {
        Some(number) => number,
        None => 0,
    }
}

// A task local, with its default.
#[tactic(auto, unfolding(crate::specs::ScriptTexts::local_of))]
fn write_local(out: &mut Writer, source: &Source<'_>, declared: LocalDecl)
    ensures { GoesOn out.old out.new (local_of source.now declared) }
{
    out.say("local ");
    write_name(out, source, declared.name);
    out.say(" = ");
    out.number(source.alloc, literal_or_zero(source, declared.value));
    out.say(";\n")
}

// The task local at a place.
fn write_local_at(out: &mut Writer, source: &Source<'_>, place: usize)
    ensures { GoesOn out.old out.new (local_at source.now place) }
{
    if let Some(declared) = source.tree.locals.get(place).copied() {
        write_local(out, source, declared)
    }
}

#[tactic(auto, unfolding(crate::specs::ScriptTexts::locals_text))]
fn write_locals(out: &mut Writer, source: &Source<'_>)
    ensures { GoesOn out.old out.new (locals_text source.now) }
{
    for place in 0..source.tree.locals.len() {
        write_local_at(out, source, place);
    }
}

// The most bytes that an expectation may have in a script.
const EXPECTED: usize = 1_000;

// What is expected, in a comment.
#[tactic(auto, unfolding(crate::specs::ScriptTexts::expectation_of))]
fn write_expectation(out: &mut Writer, source: &Source<'_>, value: usize)
    ensures { GoesOn out.old out.new (expectation_of source.now value) }
{
    out.say("//: expect ");
    write_bare(out, &source.context(), value);
    out.say("\n")
}

// What is expected at a place. It is refused where it is too long: two of these bytes are the rest of its line.
fn write_expectation_at(out: &mut Writer, source: &Source<'_>, place: usize)
    ensures { GoesOn out.old out.new (expectation_at source.now place) }
{
    let Some(declared) = source.tree.expectations.get(place).copied() else {
        return;
    };
    let Some(value) = source.code.expectations.get(place).copied() else {
        return;
    };
    let before = out.text.len();
    write_expectation(out, source, value);
    if out.text.len().saturating_sub(before) > EXPECTED {
        out.refuse(Rule::TooLarge, declared.token)
    }
}

// What is expected of the end of each run, in comments that `explore` reads.
#[tactic(auto, unfolding(crate::specs::ScriptTexts::expectations_text))]
fn write_expectations(out: &mut Writer, source: &Source<'_>)
    ensures { GoesOn out.old out.new (expectations_text source.now) }
{
    for place in 0..source.tree.expectations.len() {
        write_expectation_at(out, source, place);
    }
}

// What stands before the actors.
#[tactic(auto, unfolding(crate::specs::ScriptTexts::declared_text))]
fn write_declared(out: &mut Writer, source: &Source<'_>)
    ensures { GoesOn out.old out.new (declared_text source.now) }
{
    write_expectations(out, source);
    write_executors(out, source);
    write_locals(out, source)
}

// All of a script.
#[tactic(auto, unfolding(crate::specs::ScriptTexts::script_text))]
fn write_script(out: &mut Writer, source: &Source<'_>)
    ensures { GoesOn out.old out.new (script_text source.now) }
{
    write_declared(out, source);
    write_actors(out, source);
    write_pool(out, source);
    write_main(out, source)
}

// The first rule that is broken; that memory has run out, where something is missing and no other one is.
fn broken(out: &Writer) -> Option<Breach>
    ensures { IsNone result → IsFalse out.now.is_partial }
{
    if !out.is_partial {
        return out.refused;
    }
    match out.refused {
        Some(breach) => Some(breach),
        None => Some(Breach {
            rule: Rule::Memory,
            token: 0,
        }),
    }
}

/// The text of the script of instructions, and the first rule that is broken.
pub(crate) fn script(source: &Source<'_>) -> (Vec<u8>, Option<Breach>)
    ensures { IsNone result.1 → result.0.items ≡ script_text source.now }
{
    let mut out = Writer::new(source.alloc);
    write_script(&mut out, source);
    let breach = broken(&out);
    (out.text, breach)
}
