//! Which expressions do something, or may change what is read beside them.

ghost use Rattle.std.specs.Prelude.{◌≡◌};
ghost use Rattle.swift_expressions.specs.Lowered.{acts, is_acting, is_acting_within};
ghost use Rattle.swift_expressions.specs.States.{state_of};

use crate::lowering::Lowering;
use swift_syntax::ExprForm;

// Whether an argument of a list does something.
fn arguments_act(lowering: &Lowering<'_>, first: usize) -> bool {
    let mut place = first;
    for _ in 0..lowering.tree.arguments.len() {
        match lowering.argument(place) {
            Some(argument) => {
                if acts_at(lowering, argument.value, DEPTH) {
                    return true;
                }
                place = argument.next;
            }
            None => return false,
        }
    }
    false
}

// Whether an expression does something.
#[tactic(auto, using(crate::proofs::Acting::acts_deeper))]
fn acts_at(lowering: &Lowering<'_>, place: usize, depth: u32) -> bool
    ensures { result ≡ is_acting_within (state_of lowering.now) depth place }
{
    if depth == 0 {
        return true;
    }
    match lowering.expr(place).form {
        ExprForm::Call(..) | ExprForm::Await(_) | ExprForm::TryOptional(_) => true,
        ExprForm::Negate(inner) | ExprForm::Not(inner) | ExprForm::Try(inner) => {
            acts_at(lowering, inner, depth - 1)
        }
        ExprForm::Binary(_, left, right)
        | ExprForm::Both(left, right)
        | ExprForm::Otherwise(left, right) => {
            acts_at(lowering, left, depth - 1) || acts_at(lowering, right, depth - 1)
        }
        // It becomes a statement.
        ExprForm::Choice(..) => true,
        // A field of another actor, or the value of a task.
        ExprForm::Member(_) => true,
        ExprForm::Missing
        | ExprForm::Number(_)
        | ExprForm::Truth(_)
        | ExprForm::Text
        | ExprForm::Name
        | ExprForm::OwnMember
        | ExprForm::Case => false,
    }
}

/// How deep expressions and statements are looked into.
pub const DEPTH: u32 = 400;

/// Whether an expression itself becomes more than a value.
pub(crate) fn is_acting(lowering: &Lowering<'_>, place: usize) -> bool
    ensures { result ≡ is_acting (state_of lowering.now) place }
{
    acts_at(lowering, place, DEPTH)
}

/// Whether an expression becomes more than a value: a call, a wait, a choice, or a part that is one. `await x` of an `async let` has the
/// keyword somewhere on its left, so a name under an `await` counts too. Fields of instances in an expectation are values.
pub(crate) fn acts(lowering: &Lowering<'_>, place: usize) -> bool
    ensures { result ≡ acts (state_of lowering.now) place }
{
    !lowering.setting.is_expectation && (is_acting(lowering, place) || lowering.setting.is_awaited)
}

/// Whether one of these arguments does.
pub(crate) fn any_acts(lowering: &Lowering<'_>, first: usize) -> bool {
    arguments_act(lowering, first)
}
