//! What has to hold of actors.

ghost use Rattle.std.specs.Prelude.{◌≡◌, ◌&&◌, not};
ghost use Rattle.swift_translation.specs.ActorTexts.{has_none, has_requirement, instructions_of, invariant_at, invariants_end, invariants_text, is_at, is_invariant_of, is_require, own_invariants, precondition_field, precondition_test, precondition_text, required_text, requires, value_of_invariant};
ghost use Rattle.swift_translation.specs.WritingInside.{GoesOn};

use crate::naming::PRECONDITION;
use crate::source::Source;
use crate::unit::between;
use crate::value::write_value;
use crate::writer::Writer;
use swift_expressions::{Instruction, NONE, Unit, UnitKind};

// Whether an instruction says what has to hold.
fn is_require(instruction: Instruction) -> bool
    ensures { result ≡ is_require instruction }
{
    matches!(instruction, Instruction::Require(..))
}

// The instructions of a unit, with those of closures in it.
#[tactic(auto, unfolding(crate::specs::ActorTexts::instructions_of))]
fn instructions_of<'a>(source: &Source<'a>, unit: Unit) -> &'a [Instruction]
    ensures { result.now ≡ instructions_of source.now unit }
{
    let (before, _) = source
        .code
        .instructions
        .split_at(unit.to.min(source.code.instructions.len()));
    let (_, own) = before.split_at(unit.from.min(before.len()));
    own
}

// Whether an instruction of a unit says what has to hold.
fn has_require(source: &Source<'_>, unit: Unit) -> bool
    ensures { result ≡ requires source.now unit }
{
    instructions_of(source, unit).iter().any(|i| is_require(*i))
}

// Whether a unit is of an actor, or of the pool. A function may be put in anywhere.
fn is_at(unit: Unit, actor: usize, wants_closure: bool) -> bool
    ensures { result ≡ is_at unit actor wants_closure }
{
    match unit.kind {
        UnitKind::Method(_) => unit.actor == NONE || (!wants_closure && unit.actor == actor),
        UnitKind::Closure => wants_closure,
        UnitKind::Main => !wants_closure && unit.actor == actor,
    }
}

// Whether a unit of an actor, or of the pool, has something that has to hold.
pub(crate) fn has_requirement(source: &Source<'_>, actor: usize, wants_closure: bool) -> bool
    ensures { result ≡ has_requirement source.now actor wants_closure }
{
    source.code.units.iter().any(|u| is_at(*u, actor, wants_closure) && has_require(source, *u))
}

// The field for the line of a precondition that fails.
#[tactic(auto, unfolding(crate::specs::ActorTexts::precondition_field))]
fn write_precondition_field(out: &mut Writer)
    ensures { GoesOn out.old out.new precondition_field }
{
    out.say("\n    var ");
    out.say(PRECONDITION);
    out.say(" = 0;")
}

// None has failed.
#[tactic(auto, unfolding(crate::specs::ActorTexts::precondition_test))]
fn write_precondition_test(out: &mut Writer)
    ensures { GoesOn out.old out.new precondition_test }
{
    out.say("\n    invariant ");
    out.say(PRECONDITION);
    out.say(" == 0")
}

// That field, and what has to hold of it.
#[tactic(auto, unfolding(crate::specs::ActorTexts::precondition_text))]
pub(crate) fn write_precondition(out: &mut Writer)
    ensures { GoesOn out.old out.new precondition_text }
{
    write_precondition_field(out);
    write_precondition_test(out)
}

// The same, where something has to hold.
fn write_required(out: &mut Writer, is_required: bool)
    ensures { GoesOn out.old out.new (required_text is_required) }
{
    if is_required {
        write_precondition(out)
    }
}

// The value of the invariant at a place, if there is one.
fn write_invariant_value(out: &mut Writer, source: &Source<'_>, place: usize)
    ensures { GoesOn out.old out.new (value_of_invariant source.now place) }
{
    if let Some(value) = source.code.invariants.get(place).copied() {
        write_value(out, &source.context(), value)
    }
}

// Whether the invariant at a place is an actor's.
fn is_invariant_of(source: &Source<'_>, actor: usize, place: usize) -> bool
    ensures { result ≡ is_invariant_of source.now actor place }
{
    match source.tree.invariants.get(place).copied() {
        Some(invariant) => invariant.actor == actor,
        None => false,
    }
}

// The invariant at a place, if it is an actor's. Whether the next one is the first.
fn write_invariant(
    out: &mut Writer,
    source: &Source<'_>,
    actor: usize,
    place: usize,
    is_first: bool,
) -> bool
    ensures text { GoesOn out.old out.new (invariant_at source.now actor is_first place) }
    ensures first { result ≡ (is_first && not (is_invariant_of source.now actor place)) }
{
    if is_invariant_of(source, actor, place) {
        between(out, is_first, "\n    invariant ", " && ");
        write_invariant_value(out, source, place);
        false
    } else {
        is_first
    }
}

// The invariants of an actor. Whether there is none.
fn write_own_invariants(
    out: &mut Writer,
    source: &Source<'_>,
    actor: usize,
    is_required: bool,
) -> bool
    ensures text { GoesOn out.old out.new (own_invariants source.now actor is_required) }
    ensures none { result ≡ has_none source.now actor is_required }
{
    let mut is_first = !is_required;
    for place in 0..source.tree.invariants.len() {
        is_first = write_invariant(out, source, actor, place, is_first);
    }
    is_first
}

// The end of what has to hold, if something has.
fn end_invariants(out: &mut Writer, is_none: bool)
    ensures { GoesOn out.old out.new (invariants_end is_none) }
{
    if !is_none {
        out.say(";")
    }
}

// What has to hold of an actor, with what was required in its methods.
#[tactic(auto, unfolding(crate::specs::ActorTexts::invariants_text))]
pub(crate) fn write_invariants(
    out: &mut Writer,
    source: &Source<'_>,
    actor: usize,
    is_required: bool,
)
    ensures { GoesOn out.old out.new (invariants_text source.now actor is_required) }
{
    write_required(out, is_required);
    let is_none = write_own_invariants(out, source, actor, is_required);
    end_invariants(out, is_none)
}
