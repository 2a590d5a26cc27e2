//! Which instructions look away: it makes no difference to their turns what they are given of their task. Whether that is cancelled may make
//! one where it is so already, since it stays so.

ghost use Rattle.std.specs.Prelude.{◌≡◌};
ghost use Rattle.script_code.specs.Tree.{term_if, term_of, terms_of, wanted_of};
ghost use Rattle.swift_reordering.specs.Away.{operation_looks_away, term_if_looks_away, term_looks_away, terms_look_away, wanted_looks_away};
ghost use Rattle.swift_reordering.specs.Statements.{instruction_is};

use script_code::{Act, CompiledAwait, Formula, Instruction};

// Whether an expression reads neither the task's priority nor, unless it is cancelled, whether it is.
fn term_looks_away(formula: &Formula, cancelled: bool) -> bool
    ensures { result ≡ term_looks_away cancelled (term_of formula.now) }
{
    match formula {
        Formula::Priority => false,
        Formula::Cancelled => cancelled,
        Formula::Negate(operand) | Formula::Not(operand) => term_looks_away(operand, cancelled),
        Formula::Binary(_, left, right) => term_looks_away(left, cancelled)
            && term_looks_away(right, cancelled),
        Formula::Number(_) | Formula::Variable(_) | Formula::Field(_) | Formula::Local(_, _) =>
            true,
    }
}

// The same of each of these.
fn terms_look_away(formulas: &[Formula], cancelled: bool) -> bool
    ensures { result ≡ terms_look_away cancelled (terms_of formulas.now) }
{
    for formula in formulas {
        if !term_looks_away(formula, cancelled) {
            return false;
        }
    }
    true
}

// The same of an expression, if there is one.
fn term_if_looks_away(formula: &Option<Formula>, cancelled: bool) -> bool
    ensures { result ≡ term_if_looks_away cancelled (term_if formula.now) }
{
    match formula {
        Some(formula) => term_looks_away(formula, cancelled),
        None => true,
    }
}

// The same of what is waited for.
fn wanted_looks_away(awaited: &CompiledAwait, cancelled: bool) -> bool
    ensures { result ≡ wanted_looks_away cancelled (wanted_of awaited.now) }
{
    match awaited {
        CompiledAwait::Call(call) => terms_look_away(&call.args, cancelled),
        CompiledAwait::Root(_) | CompiledAwait::Task(_) | CompiledAwait::Next(_) => true,
    }
}

/// Whether an instruction looks away, wherever it goes on, of a task that may be cancelled already.
pub(crate) fn instruction_looks_away(line: &Instruction, cancelled: bool) -> bool
    ensures { result ≡ instruction_is (operation_looks_away cancelled) (term_looks_away cancelled) line.now }
{
    match &line.act {
        Act::Test(formula)
        | Act::SetVariable(_, formula)
        | Act::SetField(_, formula)
        | Act::Return(formula)
        | Act::Throw(formula)
        | Act::Bind(_, formula) => term_looks_away(formula, cancelled),
        Act::Wait(awaited) => wanted_looks_away(awaited, cancelled),
        Act::Receive(_, other) => term_if_looks_away(other, cancelled),
        Act::Spawn {
            call,
            priority,
            handle: _,
        } => priority.is_some() && terms_look_away(&call.args, cancelled),
        Act::Detach {
            call,
            priority: _,
            handle: _,
        }
        | Act::Add {
            group: _,
            unless_cancelled: _,
            call,
            priority: _,
        } => terms_look_away(&call.args, cancelled),
        Act::Check => cancelled,
        Act::Cancel(_)
        | Act::Open(_)
        | Act::End
        | Act::Yield
        | Act::Close
        | Act::Unbind
        | Act::Assume
        | Act::Isolated => true,
    }
}
