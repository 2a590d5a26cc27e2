//! The names of a script.
//!
//! A name of the file keeps its bytes, but for a keyword of scripts and a name that ends in `_`, which get one `_` more. All other names of
//! variables and of fields of instances end in one `_`, so they are none of these; so is that of a variable that begins as those of printed
//! values. A method that reads a field has the name of the field, which no method of its actor has. Closures, and functions outside of actors
//! that are `async`, are methods of the actor `Task`, a name that no file may give, and printed values are fields of that of `main`. Closures
//! and printed values have their lines in their names; the name of such a function has no `_line` in it.

ghost use Rattle.std.specs.Prelude.{◌≡◌, ◌++◌, ◌∷◌, [], decimal};
ghost use Rattle.swift_translation.specs.Names.{Caught, spelled};
ghost use Rattle.swift_translation.specs.ValueTexts.{closure_text, declared_text, field_name_text, instance_text, name_text, own_closure_text, printed_text, unit_text, variable_text, which_of};
ghost use Rattle.swift_translation.specs.WritingInside.{GoesOn};

use crate::source::{Context, Source};
use crate::spelling::{
    spell_caught, spell_closure, spell_function_closure, spell_made, spell_main_closure,
    spell_name, spell_spot, spell_temporary, spell_variable,
};
use crate::writer::Writer;
use swift_expressions::{NONE, Spot, Unit, Variable};

/// The name of a token.
#[tactic(auto, unfolding(crate::specs::ValueTexts::name_text))]
pub(crate) fn write_name(out: &mut Writer, source: &Source<'_>, token: usize)
    ensures { GoesOn out.old out.new (name_text source.now token) }
{
    spell_name(out, source.bytes(token))
}

/// The name of a field.
#[tactic(auto, unfolding(crate::specs::ValueTexts::field_name_text))]
pub(crate) fn write_field_name(out: &mut Writer, source: &Source<'_>, token: usize)
    ensures { GoesOn out.old out.new (field_name_text source.now token) }
{
    spell_variable(out, source.alloc, source.bytes(token), 0, 0)
}

/// A word, the number of a method that was put in, and `_`.
pub(crate) fn write_made(out: &mut Writer, at: &Context<'_>, word: &str)
    ensures { GoesOn out.old out.new (word.now ++ decimal at.now.serial ++ 95 ∷ []) }
{
    spell_made(out, at.source.alloc, word, at.serial)
}

/// The same between two texts.
pub(crate) fn write_made_between(
    out: &mut Writer,
    at: &Context<'_>,
    front: &str,
    word: &str,
    back: &str,
)
    ensures { GoesOn out.old out.new (front.now ++ (word.now ++ decimal at.now.serial ++ 95 ∷ []) ++ back.now) }
{
    out.say(front);
    write_made(out, at, word);
    out.say(back)
}

// The name of a variable, by its place.
fn spell_declared(out: &mut Writer, at: &Context<'_>, place: usize, variable: Variable)
    ensures { GoesOn out.old out.new (declared_text at.now place variable) }
{
    let alloc = at.source.alloc;
    if variable.token == 0 {
        spell_temporary(out, alloc, place, at.serial)
    } else {
        let bytes = at.source.bytes(variable.token);
        spell_variable(out, alloc, bytes, variable.duplicate, at.serial)
    }
}

/// The name of a variable.
#[tactic(auto, unfolding(crate::specs::ValueTexts::variable_text))]
pub(crate) fn write_variable(out: &mut Writer, at: &Context<'_>, place: usize)
    ensures { GoesOn out.old out.new (variable_text at.now place) }
{
    match at.source.variable_at(place) {
        Some(variable) => spell_declared(out, at, place, variable),
        None => out.say("_"),
    }
}

/// The name of the task for a call whose error is caught, by the place of its instruction.
pub(crate) fn write_caught(out: &mut Writer, at: &Context<'_>, place: usize)
    ensures { GoesOn out.old out.new (spelled (Caught place at.now.serial)) }
{
    spell_caught(out, at.source.alloc, place, at.serial)
}

/// The name of an instance.
#[tactic(auto, unfolding(crate::specs::ValueTexts::instance_text))]
pub(crate) fn write_instance(out: &mut Writer, source: &Source<'_>, instance: usize)
    ensures { GoesOn out.old out.new (instance_text source.now instance) }
{
    if let Some(declared) = source.tree.instances.get(instance).copied() {
        write_name(out, source, declared.name)
    }
}

/// Which of its kind something is on its line, from 2 on; 0 is the first.
pub(crate) fn which_of(spot: Spot) -> usize
    ensures { result ≡ which_of spot }
{
    if spot.before == 0 {
        0
    } else {
        spot.before.saturating_add(1)
    }
}

/// The name of the field that holds a value that `main` prints.
#[tactic(auto, unfolding(crate::specs::ValueTexts::printed_text))]
pub(crate) fn write_printed(out: &mut Writer, source: &Source<'_>, place: usize)
    ensures { GoesOn out.old out.new (printed_text source.now place) }
{
    if let Some(spot) = source.code.printed.get(place).copied() {
        spell_spot(out, source.alloc, "print_line", spot.line, which_of(spot))
    }
}

/// The name of the field that holds the line of a precondition that fails.
pub(crate) const PRECONDITION: &str = "precondition_line_";

// The name of the method that a closure became which stands in a method of an actor, for the instance that is written.
fn spell_own_closure(out: &mut Writer, source: &Source<'_>, unit: Unit)
    ensures { GoesOn out.old out.new (own_closure_text source.now unit) }
{
    if let Some(declared) = source.tree.instances.get(source.instance).copied() {
        let instance = source.bytes(declared.name);
        let method = source.bytes(unit.method);
        spell_closure(
            out,
            source.alloc,
            instance,
            method,
            unit.spot.line,
            which_of(unit.spot),
        )
    }
}

// The name of the method that a closure became.
fn spell_unit(out: &mut Writer, source: &Source<'_>, unit: Unit)
    ensures { GoesOn out.old out.new (closure_text source.now unit) }
{
    let alloc = source.alloc;
    let line = unit.spot.line;
    let which = which_of(unit.spot);
    if unit.method == NONE {
        spell_main_closure(out, alloc, line, which)
    } else if unit.actor == NONE {
        spell_function_closure(out, alloc, source.bytes(unit.method), line, which)
    } else {
        spell_own_closure(out, source, unit)
    }
}

/// The name of the method that a closure became: that of the method in which it stands, behind its instance where that is no function, and
/// its line.
#[tactic(auto, unfolding(crate::specs::ValueTexts::unit_text))]
pub(crate) fn write_unit(out: &mut Writer, source: &Source<'_>, unit: usize)
    ensures { GoesOn out.old out.new (unit_text source.now unit) }
{
    if let Some(found) = source.unit_at(unit) {
        spell_unit(out, source, found)
    }
}
