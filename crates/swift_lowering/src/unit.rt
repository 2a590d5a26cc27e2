//! Units whose instructions stand among those of others.

ghost use Rattle.std.specs.Prelude.{◌≡◌, IsNone, length, slice_get};
ghost use Rattle.swift_expressions.specs.Instructions.{KeepsRefusal};
ghost use Rattle.swift_expressions.specs.States.{Becomes, state_of};
ghost use Rattle.swift_lowering.specs.Units.{BeginsUnit, actor_if, method_if, unit_ended, with_bounds, with_instruction};

use swift_expressions::{Instruction, Lowering, NONE, UnitKind};

/// A unit whose instructions stand among those of another one.
#[derive(Clone, Copy)]
pub(crate) struct OpenUnit {
    /// Its place.
    pub unit: usize,
    /// The place of the instruction that goes over it.
    pub skip: usize,
}

// The actor of the unit that is lowered.
fn own_actor(lowering: &Lowering<'_>) -> usize
    ensures { result ≡ actor_if (slice_get lowering.now.code.units.items lowering.now.setting.unit) }
{
    match lowering.code.units.get(lowering.setting.unit) {
        Some(outer) => outer.actor,
        None => NONE,
    }
}

// The token of its method's name.
fn own_method(lowering: &Lowering<'_>) -> usize
    ensures { result ≡ method_if (slice_get lowering.now.code.units.items lowering.now.setting.unit) }
{
    match lowering.code.units.get(lowering.setting.unit) {
        Some(outer) => outer.method,
        None => NONE,
    }
}

/// A unit that a closure becomes begins here, at a token.
pub(crate) fn begin_unit(lowering: &mut Lowering<'_>, token: usize) -> OpenUnit
    ensures begins { IsNone lowering.new.refused → BeginsUnit (state_of lowering.old) token (state_of lowering.new) }
    ensures unit { IsNone lowering.new.refused → result.unit ≡ length lowering.old.code.units.items }
    ensures skip { IsNone lowering.new.refused → result.skip ≡ length lowering.old.code.instructions.items }
    ensures refused { KeepsRefusal lowering.old lowering.new }
{
    let actor = own_actor(lowering);
    let method = own_method(lowering);
    let unit = lowering.unit(UnitKind::Closure, actor, method, token);
    let skip = lowering.here();
    lowering.put(Instruction::Skip(0));
    OpenUnit { unit, skip }
}

/// A unit that a closure becomes ends here, with a token.
pub(crate) fn end_unit(lowering: &mut Lowering<'_>, begun: OpenUnit, end: usize)
    ensures state { Becomes lowering.new (unit_ended begun.unit begun.skip end (state_of lowering.old)) }
    ensures refused { KeepsRefusal lowering.old lowering.new }
{
    let here = lowering.here();
    let from = begun.skip.saturating_add(1);
    bound(lowering, begun.unit, from, here, end);
    exchange(lowering, begun.skip, Instruction::Skip(here));
}

/// A unit has its instructions from a place on, up to another one, and ends with a token.
pub(crate) fn bound(lowering: &mut Lowering<'_>, unit: usize, from: usize, to: usize, end: usize)
    ensures state { Becomes lowering.new (with_bounds unit from to end (state_of lowering.old)) }
    ensures instructions { lowering.new.code.instructions ≡ lowering.old.code.instructions }
    ensures refused { KeepsRefusal lowering.old lowering.new }
{
    if let Some(made) = lowering.code.units.get_mut(unit) {
        made.from = from;
        made.to = to;
        made.end = end;
    }
}

/// Puts another instruction in the place of one.
pub(crate) fn exchange(lowering: &mut Lowering<'_>, place: usize, instruction: Instruction)
    ensures state { Becomes lowering.new (with_instruction place instruction (state_of lowering.old)) }
    ensures refused { KeepsRefusal lowering.old lowering.new }
{
    if let Some(found) = lowering.code.instructions.get_mut(place) {
        *found = instruction;
    }
}
