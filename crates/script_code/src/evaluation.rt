//! The value of a formula.

ghost use Rattle.std.specs.Prelude.{◌≡◌, Some};
ghost use Rattle.script_code.specs.Seen.{pairs_of, scene_of, term_if_lent, rows_of};
ghost use Rattle.swift_locals.specs.Bindings.{value_of};
ghost use Rattle.script_code.specs.Tree.{term_of};
ghost use Rattle.script_code.specs.Value.{ev, flag, field_at, holds as holds_spec, joined, number_at};

use crate::cells::value_of_cells;
use crate::formula::{FieldPlace, Formula};
use crate::sight::{Binding, Sight};
use std::alloc::Global;
use swift_locals::Bindings;
use swift_types::{Env, LocalId, Operator, Priority};

/// The value of a formula, or None where a value on the way leaves 64 bits (our own). A variable or field that is not
/// there counts as 0. Its cost is at most the formula's size.
pub fn value(formula: &Formula, sight: Sight<'_>) -> Option<i64>
    ensures { result ≡ ev (term_of formula.now) (scene_of sight.entry) }
{
    evaluate(formula, &sight)
}

// The value of a formula, with what it reads by reference, which is cheaper to hand on to each operand.
fn evaluate(formula: &Formula, sight: &Sight<'_>) -> Option<i64>
    ensures { result ≡ ev (term_of formula.now) (scene_of sight.now) }
{
    match formula {
        Formula::Number(n) => Some(*n),
        Formula::Variable(x) => Some(number(sight.variables, *x)),
        Formula::Field(place) => Some(field(sight.fields, *place)),
        Formula::Local(local, default) => Some(read_local(sight, *local).unwrap_or(*default)),
        Formula::Priority => Some(i64::from(sight.env.priority.number())),
        Formula::Cancelled => Some(flag_of(sight.env.cancelled)),
        Formula::Negate(e) => evaluate(e, sight)?.checked_neg(),
        Formula::Not(e) => Some(flag_of(evaluate(e, sight)? == 0)),
        Formula::Binary(operator, left, right) => {
            let x = evaluate(left, sight)?;
            match operator {
                Operator::And if x == 0 => Some(0),
                Operator::Or if x != 0 => Some(1),
                _ => {
                    let y = evaluate(right, sight)?;
                    join(*operator, x, y)
                }
            }
        }
    }
}

/// Whether the invariant of an actor, if it has one, holds of the fields of its executor's actors: its value is a number
/// other than 0. One that overflows does not hold (our own).
#[tactic(auto, using(crate::proofs::Giving::holds_given))]
pub fn holds(alloc: Global, invariant: Option<&Formula>, fields: &[Vec<i64>]) -> bool
    ensures { result ≡ holds_spec (term_if_lent invariant.entry) (rows_of fields.now) }
{
    let Some(test) = invariant else {
        return true;
    };
    if let Some(v) = value_of_cells(test, &[], fields) {
        return v != 0;
    }
    let env = Env {
        priority: Priority::Background,
        cancelled: false,
        room: 0,
    };
    let sight = Sight {
        variables: &[],
        fields,
        own: &[],
        outer: &Bindings::new(alloc),
        env: &env,
    };
    match value(test, sight) {
        Some(v) => v != 0,
        None => false,
    }
}

// The value of a local's innermost binding: one of the frame's own, or else one that stood when the frame began.
#[tactic(auto, using(crate::proofs::LocalReads::value_joined))]
fn read_local(sight: &Sight<'_>, local: LocalId) -> Option<i64>
    ensures { result ≡ value_of (scene_of sight.now).bindings local.0 }
{
    match read_own(sight.own, local) {
        Some(v) => Some(v),
        None => sight.outer.read(local),
    }
}

// The value of the last binding of a local. Its cost is at most the number of bindings.
fn read_own(own: &[Binding], local: LocalId) -> Option<i64>
    ensures { result ≡ value_of (pairs_of own.now) local.0 }
{
    let mut left = own.len();
    while left > 0 {
        left -= 1;
        let binding = own[left];
        if binding.local == local {
            return Some(binding.value);
        }
    }
    None
}

// The number that is kept in a place, or 0 where there is no such place.
#[inline(always)]
pub fn number(xs: &[i64], k: u32) -> i64
    ensures { result ≡ number_at xs.now k }
{
    match xs.get(k as usize) {
        Some(x) => *x,
        None => 0,
    }
}

// The number that is kept in a field, or 0 where there is no such field.
#[inline(always)]
pub fn field(fields: &[Vec<i64>], place: FieldPlace) -> i64
    ensures { result ≡ field_at (rows_of fields.now) place }
{
    match fields.get(place.actor as usize) {
        Some(row) => number(row, place.field),
        None => 0,
    }
}

#[inline(always)]
pub fn flag_of(b: bool) -> i64
    ensures { result ≡ flag b }
{
    if b { 1 } else { 0 }
}

// An operator on both its values.
#[inline(always)]
pub fn join(operator: Operator, x: i64, y: i64) -> Option<i64>
    ensures { result ≡ joined operator x (Some y) }
{
    match operator {
        Operator::Or => Some(flag_of(x != 0 || y != 0)),
        Operator::And => Some(flag_of(x != 0 && y != 0)),
        Operator::Equal => Some(flag_of(x == y)),
        Operator::Unequal => Some(flag_of(x != y)),
        Operator::Less => Some(flag_of(x < y)),
        Operator::AtMost => Some(flag_of(x <= y)),
        Operator::Greater => Some(flag_of(x > y)),
        Operator::AtLeast => Some(flag_of(x >= y)),
        Operator::Plus => x.checked_add(y),
        Operator::Minus => x.checked_sub(y),
        Operator::Times => x.checked_mul(y),
    }
}
