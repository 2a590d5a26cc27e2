//! Closures, functions outside of actors, and `main`.

ghost use Rattle.std.specs.Prelude.{◌≡◌};
ghost use Rattle.swift_translation.specs.ActorTexts.{all_closures, closures_of, closures_text, function_at, functions_text, has_closure, has_function, has_pool, is_closure_of, main_head, main_method, main_of, main_text, own_closures, pool_actor, pool_methods, pool_text, printed_field, printed_fields, requirement_text, root_text, runs_alone};
ghost use Rattle.swift_translation.specs.WritingInside.{GoesOn};

use crate::naming::{write_name, write_printed};
use crate::requirement::{has_requirement, write_precondition};
use crate::source::Source;
use crate::start::actor_of;
use crate::unit::{write_closure, write_method, write_rest, write_unit_lines};
use crate::walk::is_closure;
use crate::writer::Writer;
use swift_expressions::{NONE, Unit, UnitKind};
use swift_syntax::MethodDecl;

// Whether a unit is a closure in a method of an actor.
fn is_closure_of(unit: Unit, actor: usize) -> bool
    ensures { result ≡ is_closure_of unit actor }
{
    match unit.kind {
        UnitKind::Closure => unit.actor == actor,
        UnitKind::Method(_) | UnitKind::Main => false,
    }
}

// The unit at a place, if it is such a closure.
fn write_own_closure(out: &mut Writer, source: &Source<'_>, actor: usize, place: usize)
    ensures { GoesOn out.old out.new (closures_of source.now actor place) }
{
    if let Some(unit) = source.unit_at(place) {
        if is_closure_of(unit, actor) {
            write_closure(out, source, place, unit)
        }
    }
}

// The closures of an actor's methods, for an instance of it; those of `main` for none.
fn write_closures(out: &mut Writer, source: &Source<'_>, actor: usize)
    ensures { GoesOn out.old out.new (closures_text source.now actor) }
{
    for place in 0..source.code.units.len() {
        write_own_closure(out, source, actor, place);
    }
}

// Whether a method is a function outside of actors that runs as a method of its own.
fn runs_alone(method: MethodDecl) -> bool
    ensures { result ≡ runs_alone method }
{
    method.actor == NONE && method.is_async
}

// The method at a place, if it is such a function.
fn write_function(out: &mut Writer, source: &Source<'_>, place: usize)
    ensures { GoesOn out.old out.new (function_at source.now place) }
{
    if let Some(method) = source.tree.methods.get(place).copied() {
        if runs_alone(method) {
            write_method(out, source, place, method)
        }
    }
}

// The functions outside of actors that are `async`.
fn write_functions(out: &mut Writer, source: &Source<'_>)
    ensures { GoesOn out.old out.new (functions_text source.now) }
{
    for place in 0..source.tree.methods.len() {
        write_function(out, source, place);
    }
}

// The closures of an instance's actor.
fn write_closures_of(out: &mut Writer, source: &Source<'_>, instance: usize)
    ensures { GoesOn out.old out.new (own_closures source.now instance) }
{
    if let Some(actor) = actor_of(source, instance) {
        write_closures(out, &source.of_instance(instance), actor)
    }
}

// The closures of all instances.
fn write_all_closures(out: &mut Writer, source: &Source<'_>)
    ensures { GoesOn out.old out.new (all_closures source.now) }
{
    for instance in 0..source.tree.instances.len() {
        write_closures_of(out, source, instance);
    }
}

// What has to hold of the pool, or of `main`: that no precondition has failed.
fn write_requirement(out: &mut Writer, is_required: bool)
    ensures { GoesOn out.old out.new (requirement_text is_required) }
{
    if is_required {
        write_precondition(out);
        out.say(";")
    }
}

// Whether there is a closure.
#[tactic(auto, unfolding(crate::specs::ActorTexts::has_closure))]
fn has_closure(source: &Source<'_>) -> bool
    ensures { result ≡ has_closure source.now }
{
    source.code.units.iter().any(|u| is_closure(u.kind))
}

// Whether there is a function outside of actors that is `async`.
#[tactic(auto, unfolding(crate::specs::ActorTexts::has_function))]
fn has_function(source: &Source<'_>) -> bool
    ensures { result ≡ has_function source.now }
{
    source.tree.methods.iter().any(|m| runs_alone(*m))
}

// Whether something runs in the pool.
fn has_pool(source: &Source<'_>) -> bool
    ensures { result ≡ has_pool source.now }
{
    has_closure(source) || has_function(source)
}

// The methods of the pool.
#[tactic(auto, unfolding(crate::specs::ActorTexts::pool_methods))]
fn write_pool_methods(out: &mut Writer, source: &Source<'_>)
    ensures { GoesOn out.old out.new (pool_methods source.now) }
{
    write_all_closures(out, source);
    let own = source.of_instance(NONE);
    write_functions(out, &own);
    write_closures(out, &own, NONE)
}

// The actor in which they run.
#[tactic(auto, unfolding(crate::specs::ActorTexts::pool_actor))]
fn write_pool_actor(out: &mut Writer, source: &Source<'_>)
    ensures { GoesOn out.old out.new (pool_actor source.now) }
{
    out.say("\n// Closures run here.\nactor Task {");
    write_requirement(out, has_requirement(source, NONE, true));
    write_pool_methods(out, source);
    out.say("\n}\n")
}

/// The actor in which closures run, and functions outside of actors that are `async`.
#[tactic(auto, unfolding(crate::specs::ActorTexts::pool_text))]
pub(crate) fn write_pool(out: &mut Writer, source: &Source<'_>)
    ensures { GoesOn out.old out.new (pool_text source.now) }
{
    if has_pool(source) {
        write_pool_actor(out, source)
    }
}

// The field for a value that `main` prints.
#[tactic(auto, unfolding(crate::specs::ActorTexts::printed_field))]
fn write_printed_field(out: &mut Writer, source: &Source<'_>, place: usize)
    ensures { GoesOn out.old out.new (printed_field source.now place) }
{
    out.say("\n    var ");
    write_printed(out, source, place);
    out.say(" = 0;")
}

fn write_printed_fields(out: &mut Writer, source: &Source<'_>)
    ensures { GoesOn out.old out.new (printed_fields source.now) }
{
    for place in 0..source.code.printed.len() {
        write_printed_field(out, source, place);
    }
}

// What stands before the method of `main`.
#[tactic(auto, unfolding(crate::specs::ActorTexts::main_head))]
fn write_main_head(out: &mut Writer, source: &Source<'_>, name: usize)
    ensures { GoesOn out.old out.new (main_head source.now name) }
{
    out.say("\nactor ");
    write_name(out, source, name);
    out.say(" {");
    write_printed_fields(out, source);
    write_requirement(out, has_requirement(source, NONE, false))
}

// The method of `main`.
#[tactic(auto, unfolding(crate::specs::ActorTexts::main_method))]
fn write_main_method(out: &mut Writer, source: &Source<'_>)
    ensures { GoesOn out.old out.new (main_method source.now) }
{
    let place = source.tree.methods.len();
    write_unit_lines(out, source, place);
    out.say("\n    func main");
    write_rest(out, source, place)
}

// The root task, which runs `main` of a type.
#[tactic(auto, unfolding(crate::specs::ActorTexts::root_text))]
fn write_root(out: &mut Writer, source: &Source<'_>, name: usize)
    ensures { GoesOn out.old out.new (root_text source.now name) }
{
    out.say("}\nroot main = ");
    write_name(out, source, name);
    out.say(".main();\n")
}

// `main` of a type, and the root task, which runs it.
#[tactic(auto, unfolding(crate::specs::ActorTexts::main_of))]
fn write_main_of(out: &mut Writer, source: &Source<'_>, name: usize)
    ensures { GoesOn out.old out.new (main_of source.now name) }
{
    write_main_head(out, source, name);
    write_main_method(out, source);
    write_root(out, source, name)
}

/// `main`, as an actor with what it prints.
#[tactic(auto, unfolding(crate::specs::ActorTexts::main_text))]
pub(crate) fn write_main(out: &mut Writer, source: &Source<'_>)
    ensures { GoesOn out.old out.new (main_text source.now) }
{
    if let Some(main) = source.tree.mains.first().copied() {
        write_main_of(out, &source.of_instance(NONE), main.name)
    }
}
