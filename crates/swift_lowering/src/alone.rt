//! What of a block is but a value.

ghost use Rattle.std.specs.Prelude.{◌≡◌, ◌↔◌, ℕ, IsTrue};
ghost use Rattle.swift_expressions.specs.States.{form_at, state_of};
ghost use Rattle.swift_lowering.specs.Alone.{IsLetGo, IsLone, IsSayingWord, calls_nobody, is_try_optional, value_of};
ghost use Rattle.swift_lowering.specs.Statements.{IsSaid};

use swift_expressions::Lowering;
use swift_syntax::{ExprForm, Into, Receiver, StmtForm};

// What a statement says that is but a value, which goes back or is let go.
fn value_of(form: StmtForm) -> Option<usize>
    ensures { result ≡ value_of form }
{
    match form {
        StmtForm::Value(Into::Nothing, value) => Some(value),
        StmtForm::Value(Into::Return, value) => Some(value),
        _ => None,
    }
}

/// The value that is all that a block says, or 0.
pub(crate) fn lone_value(lowering: &Lowering<'_>, first: usize) -> usize
    ensures { IsLone (state_of lowering.now) first result }
{
    let Some(stmt) = lowering.stmt(first) else {
        return 0;
    };
    if stmt.next != 0 {
        return 0;
    }
    let Some(value) = value_of(stmt.form) else {
        return 0;
    };
    if is_said(lowering, value) {
        return 0;
    }
    value
}

// Whether an expression is a `try?`.
fn is_try_optional(form: ExprForm) -> bool
    ensures { result ≡ is_try_optional form }
{
    match form {
        ExprForm::TryOptional(_) => true,
        _ => false,
    }
}

// Whether an expression calls what nobody is named for.
fn calls_nobody(form: ExprForm) -> bool
    ensures { result ≡ calls_nobody form }
{
    match form {
        ExprForm::Call(Receiver::Nobody, _) => true,
        _ => false,
    }
}

// Whether a token is `print`, `precondition` or `assert`.
fn is_saying_word(lowering: &Lowering<'_>, token: usize) -> bool
    ensures { IsTrue result ↔ IsSayingWord (state_of lowering.now) token }
{
    lowering.spells(token, "print")
        || lowering.spells(token, "precondition")
        || lowering.spells(token, "assert")
}

/// Whether an expression is a call of `print`, `precondition` or `assert`, or a `try?`.
pub(crate) fn is_said(lowering: &Lowering<'_>, value: usize) -> bool
    ensures said { IsTrue result → (receiver : Receiver) (first : ℕ) → form_at (state_of lowering.now) value ≡ ExprForm.Call receiver first → IsSaid (state_of lowering.now) value }
    ensures let_go { IsTrue result ↔ IsLetGo (state_of lowering.now) value }
{
    let expr = lowering.expr(value);
    if is_try_optional(expr.form) {
        return true;
    }
    if calls_nobody(expr.form) {
        return is_saying_word(lowering, expr.token);
    }
    false
}
