//! Values with their types.

ghost use Rattle.std.specs.Prelude.{◌≡◌, IsNone, IsSome};
ghost use Rattle.swift_expressions.specs.Instructions.{IsKept, IsPlaced, KeepsRefusal};
ghost use Rattle.swift_expressions.specs.Lowered.{Keeps, KeepsIf, kind_in, literal_kind, literal_number, number_below};
ghost use Rattle.swift_expressions.specs.States.{Becomes, Gives, state_of};

use crate::code::{Instruction, Kind, Value};
use crate::lowering::Lowering;
use swift_syntax::{ExprForm, Rule, ValueType};

/// The kind of a type.
pub fn kind_of(found: ValueType) -> Kind
    ensures { result ≡ kind_in found }
{
    match found {
        ValueType::Int => Kind::Int,
        ValueType::Bool => Kind::Bool,
        ValueType::Void => Kind::Void,
    }
}

/// A value with its type.
#[derive(Clone, Copy)]
pub struct Typed {
    /// The place of the value.
    pub value: usize,
    /// Its type.
    pub kind: Kind,
}

/// What stands for a value where a refusal was noted.
pub fn refused(lowering: &mut Lowering<'_>, rule: Rule, token: usize) -> Typed
    ensures noted { IsSome lowering.new.refused }
{
    lowering.refuse(rule, token);
    let value = lowering.number(0);
    Typed {
        value,
        kind: Kind::Int,
    }
}

/// A value of a kind.
pub fn with_kind(lowering: &mut Lowering<'_>, value: Value, kind: Kind) -> Typed
    ensures put { IsNone lowering.new.refused → IsPlaced lowering.old.code lowering.new.code value result.value }
    ensures kind { result.kind ≡ kind }
    ensures instructions { lowering.new.code.instructions ≡ lowering.old.code.instructions }
    ensures gives { IsNone lowering.new.refused → Gives (state_of lowering.old) value kind (state_of lowering.new) result }
    ensures refused { KeepsRefusal lowering.old lowering.new }
{
    let value = lowering.value(value);
    Typed { value, kind }
}

/// Refuses a value of another kind than is wanted.
pub fn want(lowering: &mut Lowering<'_>, found: Typed, kind: Kind, token: usize)
    ensures code { lowering.new.code ≡ lowering.old.code }
    ensures state { Becomes lowering.new (state_of lowering.old) }
    ensures refused { KeepsRefusal lowering.old lowering.new }
{
    if found.kind != kind {
        lowering.refuse(Rule::WrongType, token);
    }
}

// The number of what a `-` stands before.
fn number_below(form: ExprForm) -> i64
    ensures { result ≡ number_below form }
{
    match form {
        ExprForm::Number(number) => number.checked_neg().unwrap_or(0),
        _ => 0,
    }
}

/// The value of a literal, and its type.
pub fn literal(lowering: &mut Lowering<'_>, place: usize) -> (i64, Kind)
    ensures number { IsNone lowering.new.refused → result.0 ≡ literal_number (state_of lowering.old) place }
    ensures kind { IsNone lowering.new.refused → result.1 ≡ literal_kind (state_of lowering.old) place }
    ensures code { lowering.new.code ≡ lowering.old.code }
    ensures state { Becomes lowering.new (state_of lowering.old) }
    ensures refused { KeepsRefusal lowering.old lowering.new }
{
    let expr = lowering.expr(place);
    match expr.form {
        ExprForm::Number(number) => (number, Kind::Int),
        ExprForm::Truth(truth) => (i64::from(truth), Kind::Bool),
        ExprForm::Negate(inner) => (number_below(lowering.expr(inner).form), Kind::Int),
        _ => {
            lowering.refuse(Rule::Outside, expr.token);
            (0, Kind::Int)
        }
    }
}

/// Keeps a value in a variable, unless nothing can change it.
pub fn keep(lowering: &mut Lowering<'_>, found: Typed) -> Typed
    ensures kept { IsNone lowering.new.refused → IsKept lowering.old lowering.new found result }
    ensures kind { result.kind ≡ found.kind }
    ensures keeps { IsNone lowering.new.refused → Keeps (state_of lowering.old) found (state_of lowering.new) result }
    ensures refused { KeepsRefusal lowering.old lowering.new }
{
    match lowering.value_at(found.value) {
        Value::Number(_) | Value::Variable(_) => found,
        _ => {
            let variable = lowering.temporary();
            lowering.put(Instruction::Let(variable, found.value));
            with_kind(lowering, Value::Variable(variable), found.kind)
        }
    }
}

/// Keeps a value in a variable where something may change it before it is used, unless nothing can.
pub(crate) fn keep_if(lowering: &mut Lowering<'_>, found: Typed, may_change: bool) -> Typed
    ensures keeps { IsNone lowering.new.refused → KeepsIf may_change (state_of lowering.old) found (state_of lowering.new) result }
    ensures refused { KeepsRefusal lowering.old lowering.new }
{
    if may_change {
        keep(lowering, found)
    } else {
        found
    }
}
