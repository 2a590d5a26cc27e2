//! Statements without a block.

ghost use Rattle.std.specs.Prelude.{◌≡◌, ℕ, IsNone};
ghost use Rattle.swift_expressions.specs.Instructions.{KeepsRefusal};
ghost use Rattle.swift_expressions.specs.States.{form_at, state_of};
ghost use Rattle.swift_lowering.specs.Statements.{DoesPlain, LetsGo, is_let_go};

use crate::alone::is_said;
use crate::assignment::{assign, give, give_nothing, throw, toggle};
use crate::print::{print, require};
use swift_expressions::{Fallback, Lowering, expression, want_wait};
use swift_syntax::{ExprForm, Into, Rule, Stmt, StmtForm};

// `try? e`, whose value is let go.
fn ignore_fault(lowering: &mut Lowering<'_>, inner: usize)
    ensures lets_go { (place : ℕ) → form_at (state_of lowering.old) place ≡ ExprForm.TryOptional inner → IsNone lowering.new.refused → LetsGo (state_of lowering.old) place (state_of lowering.new) }
    ensures refused { KeepsRefusal lowering.old lowering.new }
{
    want_wait(lowering, inner);
    let zero = lowering.number(0);
    lowering.setting.fallback = Fallback::Fault(zero);
    expression(lowering, inner);
    // It is taken by the wait.
    let is_left = !matches!(lowering.setting.fallback, Fallback::None);
    let token = lowering.expr(inner).token;
    lowering.refuse_where(is_left, Rule::NotYet, token);
    lowering.setting.fallback = Fallback::None;
}

// An expression whose value is let go.
fn effect(lowering: &mut Lowering<'_>, place: usize)
    ensures lets_go { IsNone lowering.new.refused → LetsGo (state_of lowering.old) place (state_of lowering.new) }
    ensures refused { KeepsRefusal lowering.old lowering.new }
{
    let expr = lowering.expr(place);
    match expr.form {
        ExprForm::TryOptional(inner) => ignore_fault(lowering, inner),
        ExprForm::Call(_, first) if is_said(lowering, place) => {
            if lowering.spells(expr.token, "print") {
                print(lowering, first, expr.token);
            } else {
                require(lowering, first, expr.token);
            }
        }
        _ => {
            expression(lowering, place);
        }
    }
}

// Whether a value is let go.
fn is_let_go(into: Into) -> bool
    ensures { result ≡ is_let_go into }
{
    match into {
        Into::Nothing => true,
        Into::Let(..) | Into::Var(..) | Into::Assign(_) | Into::Return => false,
    }
}

/// A statement without a block.
pub(crate) fn simple(lowering: &mut Lowering<'_>, stmt: Stmt)
    ensures does { IsNone lowering.new.refused → DoesPlain (state_of lowering.old) stmt.token (state_of lowering.new) stmt.form }
    ensures refused { KeepsRefusal lowering.old lowering.new }
{
    match stmt.form {
        StmtForm::Value(into, place) => {
            if is_let_go(into) {
                effect(lowering, place);
            } else {
                let found = expression(lowering, place);
                give(lowering, into, found, stmt);
            }
        }
        StmtForm::Assign(how, is_own, place) => assign(lowering, how, is_own, place, stmt.token),
        StmtForm::Toggle(is_own) => toggle(lowering, is_own, stmt.token),
        StmtForm::Return => give_nothing(lowering, stmt),
        StmtForm::Throw(place) => throw(lowering, place),
        // An `async let` in a `do`, which is refused already.
        _ => lowering.refuse(Rule::NotYet, stmt.token),
    }
}
