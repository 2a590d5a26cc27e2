//! What closures capture.

ghost use Rattle.std.specs.Prelude.{◌≡◌, ℕ, IsNone, IsTrue, length, true};
ghost use Rattle.swift_expressions.specs.Instructions.{KeepsRefusal};
ghost use Rattle.swift_expressions.specs.States.{Becomes, state_of};
ghost use Rattle.swift_lowering.specs.Closures.{Captures, CapturesAll, Receives, handed, is_value};
ghost use Rattle.swift_lowering.specs.EndsInside.{IsHandedOver};

use crate::catching::begin_or;
use crate::closure::ClosureBody;
use swift_expressions::{
    Binding, Lowering, NONE, Standing, Typed, Value, constant_named, declare, instance_named,
    refuse_hidden, standing_at,
};
use swift_syntax::{Rule, Sign, TokenKind};

// Whether a name stands at a token that may be captured.
fn may_be_captured(lowering: &Lowering<'_>, token: usize) -> bool {
    if !lowering.is_name(token) {
        return false;
    }
    !is_sign(lowering, token.saturating_sub(1), Sign::Dot)
        && !is_sign(lowering, token.saturating_add(1), Sign::Colon)
}

fn is_sign(lowering: &Lowering<'_>, place: usize, sign: Sign) -> bool {
    match lowering.tokens.get(place) {
        Some(token) => match token.kind {
            TokenKind::Sign(found) => found == sign,
            _ => false,
        },
        None => false,
    }
}

// Whether a closure's list has the name of a token.
fn is_listed(lowering: &Lowering<'_>, captures: usize, token: usize) -> bool {
    let mut place = captures;
    for _ in 0..lowering.tree.arguments.len() {
        match lowering.tree.argument(place) {
            Some(argument) => {
                if lowering.are_same(argument.label, token) {
                    return true;
                }
                place = argument.next;
            }
            None => return false,
        }
    }
    false
}

// Whether a name is captured already.
fn is_captured(lowering: &Lowering<'_>, from: usize, token: usize) -> bool {
    lowering
        .scope
        .iter()
        .skip(from)
        .any(|b| lowering.are_same(b.token, token))
}

// A parameter of the unit, for which the name stands from here on.
fn receive(lowering: &mut Lowering<'_>, unit: usize, token: usize, found: Binding)
    ensures handed_over { IsNone lowering.new.refused → IsHandedOver lowering.old lowering.new unit token }
    ensures receives { IsNone lowering.new.refused → Receives (state_of lowering.old) unit token found (state_of lowering.new) }
    ensures refused { KeepsRefusal lowering.old lowering.new }
{
    let outer = lowering.setting.unit;
    lowering.setting.unit = unit;
    let variable = lowering.variable(found.token, true);
    lowering.setting.unit = outer;
    declare(lowering, token, variable, found.kind, false);
}

// Whether what a name stands for may be captured: a value, of a variable only where the closure's list has its name.
fn may_be_handed(lowering: &Lowering<'_>, found: Binding, captures: usize, token: usize) -> bool
    ensures { IsTrue result → is_value found.standing ≡ true }
{
    match found.standing {
        Standing::Constant => true,
        Standing::Variable => is_listed(lowering, captures, token),
        Standing::Task | Standing::Group | Standing::Child => false,
    }
}

// Captures what a name in scope stands for, as a parameter of the unit. The place of the last operand.
fn capture(
    lowering: &mut Lowering<'_>,
    unit: usize,
    captures: usize,
    token: usize,
    last: usize,
) -> usize
    ensures captures { IsNone lowering.new.refused → Captures (state_of lowering.old) unit token last (state_of lowering.new) result }
    ensures refused { KeepsRefusal lowering.old lowering.new }
{
    let Some(found) = standing_at(lowering, token) else {
        return last;
    };
    if may_be_handed(lowering, found, captures, token) {
        let operand = hand_over(lowering, found, last);
        receive(lowering, unit, token, found);
        return operand;
    }
    lowering.refuse(Rule::Captured, token);
    last
}

// What a name stands for is handed over, behind the operand at a place. The operand's place.
fn hand_over(lowering: &mut Lowering<'_>, found: Binding, last: usize) -> usize
    ensures state { Becomes lowering.new (handed found last (state_of lowering.old)) }
    ensures place { IsNone lowering.new.refused → result ≡ length lowering.old.code.operands.items }
    ensures refused { KeepsRefusal lowering.old lowering.new }
{
    let value = lowering.value(Value::Variable(found.variable));
    let kind = found.kind;
    lowering.operand(Typed { value, kind }, last)
}

// Refuses a name that is not global, or that means a member here.
fn want_global(lowering: &mut Lowering<'_>, token: usize)
    ensures state { Becomes lowering.new (state_of lowering.old) }
    ensures refused { KeepsRefusal lowering.old lowering.new }
{
    if instance_named(lowering, token).is_none() && constant_named(lowering, token).is_none() {
        lowering.refuse(Rule::UnknownName, token);
    }
    refuse_hidden(lowering, token);
}

/// Refuses names in a closure's list that stand for nothing.
pub(crate) fn refuse_unknown(lowering: &mut Lowering<'_>, captures: usize)
    ensures state { Becomes lowering.new (state_of lowering.old) }
    ensures refused { KeepsRefusal lowering.old lowering.new }
{
    let mut place = captures;
    for _ in 0..lowering.tree.arguments.len() {
        let Some(argument) = lowering.tree.argument(place) else {
            return;
        };
        let label = argument.label;
        if standing_at(lowering, label).is_none() {
            want_global(lowering, label);
        }
        place = argument.next;
    }
}

/// Captures what the names in a closure stand for. The place of the first operand, or `NONE`.
pub(crate) fn capture_all(lowering: &mut Lowering<'_>, unit: usize, body: ClosureBody) -> usize
    ensures captures { IsNone lowering.new.refused → (last : ℕ) × CapturesAll (state_of lowering.old) unit (state_of lowering.new) result last }
    ensures refused { KeepsRefusal lowering.old lowering.new }
{
    let from = lowering.scope.len();
    let mut first = NONE;
    let mut last = NONE;
    for token in body.from..body.to {
        if !may_be_captured(lowering, token) || is_captured(lowering, from, token) {
            continue;
        }
        let next = capture(lowering, unit, body.captures, token, last);
        first = begin_or(first, next);
        last = next;
    }
    first
}
