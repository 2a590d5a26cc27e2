//! Actors with their fields, invariants and methods.

ghost use Rattle.std.specs.Prelude.{◌≡◌};
ghost use Rattle.swift_translation.specs.ActorTexts.{actor_head, actor_text, actors_text, declared_field, executor_text, field_line, fields_text, is_read, method_at, methods_text, opened_actor, own_actor, own_field, read_at, read_text, reads_text};
ghost use Rattle.swift_translation.specs.WritingInside.{GoesOn};

use crate::naming::{write_field_name, write_instance, write_name};
use crate::requirement::{has_requirement, write_invariants};
use crate::source::Source;
use crate::start::{actor_of, start_value};
use crate::unit::write_method;
use crate::writer::Writer;
use swift_syntax::{Access, FieldDecl};

// A field with its start value.
#[tactic(auto, unfolding(crate::specs::ActorTexts::declared_field))]
fn write_var(out: &mut Writer, source: &Source<'_>, field: FieldDecl, number: i64)
    ensures { GoesOn out.old out.new (declared_field source.now field number) }
{
    out.say("\n    var ");
    write_field_name(out, source, field.name);
    out.say(" = ");
    out.number(source.alloc, number);
    out.say(";")
}

// A field with its start value; a `let` is none.
fn write_field(out: &mut Writer, source: &Source<'_>, field: FieldDecl)
    ensures { GoesOn out.old out.new (field_line source.now field) }
{
    let number = start_value(out, source, source.instance, field);
    if field.is_var {
        write_var(out, source, field, number)
    }
}

// The field at a place, if it is an actor's.
fn write_own_field(out: &mut Writer, source: &Source<'_>, actor: usize, place: usize)
    ensures { GoesOn out.old out.new (own_field source.now actor place) }
{
    if let Some(field) = source.tree.fields.get(place).copied() {
        if field.actor == actor {
            write_field(out, source, field)
        }
    }
}

fn write_fields(out: &mut Writer, source: &Source<'_>, actor: usize)
    ensures { GoesOn out.old out.new (fields_text source.now actor) }
{
    for place in 0..source.tree.fields.len() {
        write_own_field(out, source, actor, place);
    }
}

// The method that reads a field.
#[tactic(auto, unfolding(crate::specs::ActorTexts::read_text))]
fn write_read(out: &mut Writer, source: &Source<'_>, field: FieldDecl)
    ensures { GoesOn out.old out.new (read_text source.now field) }
{
    out.say("\n    func ");
    write_field_name(out, source, field.name);
    out.say("() { return ");
    write_field_name(out, source, field.name);
    out.say("; }")
}

// Whether other actors read a field of an actor.
fn is_read(field: FieldDecl, actor: usize) -> bool
    ensures { result ≡ is_read field actor }
{
    match field.access {
        Access::Open => field.actor == actor && field.is_var,
        Access::Private => false,
    }
}

// The method that reads the field at a place, if other actors read that.
fn write_read_at(out: &mut Writer, source: &Source<'_>, actor: usize, place: usize)
    ensures { GoesOn out.old out.new (read_at source.now actor place) }
{
    if let Some(field) = source.tree.fields.get(place).copied() {
        if is_read(field, actor) {
            write_read(out, source, field)
        }
    }
}

fn write_reads(out: &mut Writer, source: &Source<'_>, actor: usize)
    ensures { GoesOn out.old out.new (reads_text source.now actor) }
{
    for place in 0..source.tree.fields.len() {
        write_read_at(out, source, actor, place);
    }
}

// The method at a place, if it is an actor's.
fn write_own_method(out: &mut Writer, source: &Source<'_>, actor: usize, place: usize)
    ensures { GoesOn out.old out.new (method_at source.now actor place) }
{
    if let Some(method) = source.tree.methods.get(place).copied() {
        if method.actor == actor {
            write_method(out, source, place, method)
        }
    }
}

fn write_methods(out: &mut Writer, source: &Source<'_>, actor: usize)
    ensures { GoesOn out.old out.new (methods_text source.now actor) }
{
    for place in 0..source.tree.methods.len() {
        write_own_method(out, source, actor, place);
    }
}

// The executor of an actor, if it has one of its own.
fn write_executor(out: &mut Writer, source: &Source<'_>, actor: usize)
    ensures { GoesOn out.old out.new (executor_text source.now actor) }
{
    if let Some(declared) = source.tree.actors.get(actor).copied() {
        if declared.executor != 0 {
            out.say(" on ");
            write_name(out, source, declared.executor)
        }
    }
}

// What stands before the members of an actor.
#[tactic(auto, unfolding(crate::specs::ActorTexts::actor_head))]
fn write_head(out: &mut Writer, source: &Source<'_>, actor: usize)
    ensures { GoesOn out.old out.new (actor_head source.now actor) }
{
    out.say("\nactor ");
    write_instance(out, source, source.instance);
    write_executor(out, source, actor);
    out.say(" {")
}

// The fields of an actor, and what has to hold of them.
#[tactic(auto, unfolding(crate::specs::ActorTexts::opened_actor))]
fn write_state(out: &mut Writer, source: &Source<'_>, actor: usize)
    ensures { GoesOn out.old out.new (opened_actor source.now actor) }
{
    write_fields(out, source, actor);
    write_invariants(out, source, actor, has_requirement(source, actor, false))
}

// An instance, as an actor of its own.
#[tactic(auto, unfolding(crate::specs::ActorTexts::actor_text))]
fn write_actor(out: &mut Writer, source: &Source<'_>, actor: usize)
    ensures { GoesOn out.old out.new (actor_text source.now actor) }
{
    write_head(out, source, actor);
    write_state(out, source, actor);
    write_methods(out, source, actor);
    write_reads(out, source, actor);
    out.say("\n}\n")
}

// The instance at a place, if it is one of an actor.
fn write_own_actor(out: &mut Writer, source: &Source<'_>, instance: usize)
    ensures { GoesOn out.old out.new (own_actor source.now instance) }
{
    if let Some(actor) = actor_of(source, instance) {
        write_actor(out, &source.of_instance(instance), actor)
    }
}

/// The instances of actors, each as an actor of its own.
#[tactic(auto, unfolding(crate::specs::ActorTexts::actors_text))]
pub(crate) fn write_actors(out: &mut Writer, source: &Source<'_>)
    ensures { GoesOn out.old out.new (actors_text source.now) }
{
    for instance in 0..source.tree.instances.len() {
        write_own_actor(out, source, instance);
    }
}
