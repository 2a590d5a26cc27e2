//! Which instructions are silent: no field is read or set, nothing is looked at, and nothing is done to other tasks.

ghost use Rattle.std.specs.Prelude.{◌≡◌};
ghost use Rattle.script_code.specs.Tree.{term_if, term_of, terms_of, wanted_of};
ghost use Rattle.swift_reordering.specs.Silent.{operation_is_silent, place_is_own, term_if_is_own, term_is_own, terms_are_own, wanted_is_own};
ghost use Rattle.swift_reordering.specs.Statements.{instruction_is};

use script_code::{Act, CompiledAwait, Formula, Instruction, NumberPlace};

// Whether an expression reads no field, and neither the task's priority nor whether it is cancelled.
fn term_is_own(formula: &Formula) -> bool
    ensures { result ≡ term_is_own (term_of formula.now) }
{
    match formula {
        Formula::Field(_) | Formula::Priority | Formula::Cancelled => false,
        Formula::Negate(operand) | Formula::Not(operand) => term_is_own(operand),
        Formula::Binary(_, left, right) => term_is_own(left) && term_is_own(right),
        Formula::Number(_) | Formula::Variable(_) | Formula::Local(_, _) => true,
    }
}

// The same of each of these.
fn terms_are_own(formulas: &[Formula]) -> bool
    ensures { result ≡ terms_are_own (terms_of formulas.now) }
{
    for formula in formulas {
        if !term_is_own(formula) {
            return false;
        }
    }
    true
}

// The same of an expression, if there is one.
fn term_if_is_own(formula: &Option<Formula>) -> bool
    ensures { result ≡ term_if_is_own (term_if formula.now) }
{
    match formula {
        Some(formula) => term_is_own(formula),
        None => true,
    }
}

// The same of what is waited for.
fn wanted_is_own(awaited: &CompiledAwait) -> bool
    ensures { result ≡ wanted_is_own (wanted_of awaited.now) }
{
    match awaited {
        CompiledAwait::Call(call) => terms_are_own(&call.args),
        CompiledAwait::Root(_) | CompiledAwait::Task(_) | CompiledAwait::Next(_) => true,
    }
}

// Whether a number goes to no field.
fn place_is_own(place: &Option<NumberPlace>) -> bool
    ensures { result ≡ place_is_own place.now }
{
    match place {
        Some(NumberPlace::Field(_)) => false,
        Some(NumberPlace::Variable(_)) | None => true,
    }
}

/// Whether an instruction is silent, wherever it goes on.
pub(crate) fn line_is_own(line: &Instruction) -> bool
    ensures { result ≡ instruction_is operation_is_silent term_is_own line.now }
{
    match &line.act {
        Act::Test(formula)
        | Act::SetVariable(_, formula)
        | Act::Return(formula)
        | Act::Throw(formula)
        | Act::Bind(_, formula) => term_is_own(formula),
        Act::Wait(awaited) => wanted_is_own(awaited),
        Act::Receive(place, other) => place_is_own(place) && term_if_is_own(other),
        Act::SetField(_, _)
        | Act::Check
        | Act::Spawn { .. }
        | Act::Detach { .. }
        | Act::Add { .. }
        | Act::Cancel(_)
        | Act::Open(_) => false,
        Act::End | Act::Yield | Act::Close | Act::Unbind | Act::Assume | Act::Isolated => true,
    }
}
