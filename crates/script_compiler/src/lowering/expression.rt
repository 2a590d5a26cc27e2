//! Expressions: their names stand there, and become places.

ghost use Rattle.std.specs.Prelude.{◌≡◌, ◌≤◌, map, IfOk, OnOk};
ghost use Rattle.swift_types.specs.declared.limits.TheConstants.{BYTES};
ghost use Rattle.script_grammar.specs.Tree.{Named, view, view_if};
ghost use Rattle.script_names.specs.Texts.{place_of};
ghost use Rattle.script_names.specs.Rules.{past, past_all, past_if, expression_error, expressions_error, optional_error};
ghost use Rattle.script_names.specs.Finds.{Finds};
ghost use Rattle.script_code.specs.Tree.{local as local_term, term_of, terms_of, term_if};
ghost use Rattle.script_compiler.specs.Lowered.{default_of, place_named, lowered, lowered_if};

use crate::lowering::plan::Plan;
use crate::lowering::standing::StandingNames;
use script_code::{FieldPlace, Formula, NumberPlace};
use script_grammar::Expr;
use script_names::{CheckError, at_name, declared_fault, number_fault};
use std::alloc::Global;

/// The field of that name, or else the variable, found by hashes. A name that stands nowhere is taken as the variable
/// after the last.
#[tactic(auto, unfolding(crate::specs::Lowered::place_named))]
pub(crate) fn place(plan: &Plan, scope: &StandingNames<'_>, name: &[u8]) -> NumberPlace
    ensures { result ≡ place_named plan.now scope.now name.now }
{
    match scope.field(name) {
        Some(field) => NumberPlace::Field(FieldPlace {
            actor: plan.actor_place(scope.actor()),
            field: field as u32,
        }),
        None => NumberPlace::Variable(scope.number_place(name)),
    }
}

// What the place of a name holds.
fn lower_name(plan: &Plan, scope: &StandingNames<'_>, name: &[u8]) -> Formula
    ensures { term_of result ≡ lowered plan.now scope.now (Named name.now) }
{
    match place(plan, scope, name) {
        NumberPlace::Variable(k) => Formula::Variable(k),
        NumberPlace::Field(k) => Formula::Field(k),
    }
}

// What is read of a task local.
fn local(plan: &Plan, name: &[u8]) -> Formula
    ensures { term_of result ≡ local_term (place_of plan.now.directory.locals name.now) (default_of plan.now name.now) }
{
    let (local, default) = plan.local(name);
    Formula::Local(local, default)
}

/// An expression with places for its names, in time linear in its size. Each name stands there, as a field or a number; from then
/// on it is one of those before `at`.
pub(crate) fn expression(
    alloc: Global,
    plan: &Plan,
    scope: &StandingNames<'_>,
    at: &mut u32,
    expr: &Expr,
) -> Result<Formula, CheckError>
    requires { past (view expr.now) at.old ≤ BYTES }
    ensures finds { Finds result (expression_error scope.now at.old (view expr.now)) }
    ensures after { OnOk result (at.new ≡ past (view expr.now) at.old) }
    ensures formula { IfOk result (λ f. term_of f ≡ lowered plan.now scope.now (view expr.now)) }
{
    match expr {
        Expr::Number(n) => Ok(Formula::Number(*n)),
        Expr::Name(name) => {
            at_name(at, number_fault(scope.meaning(&name.text)))?;
            Ok(lower_name(plan, scope, &name.text))
        }
        Expr::Local(name) => {
            at_name(at, declared_fault(scope.declared().local(&name.text)))?;
            Ok(local(plan, &name.text))
        }
        Expr::Priority => Ok(Formula::Priority),
        Expr::Cancelled => Ok(Formula::Cancelled),
        Expr::Negate(operand) => {
            let operand = expression(alloc, plan, scope, at, operand)?;
            Ok(Formula::Negate(Box::new(alloc, operand)?))
        }
        Expr::Not(operand) => {
            let operand = expression(alloc, plan, scope, at, operand)?;
            Ok(Formula::Not(Box::new(alloc, operand)?))
        }
        Expr::Binary(operator, left, right) => {
            let left = expression(alloc, plan, scope, at, left)?;
            let right = expression(alloc, plan, scope, at, right)?;
            Ok(Formula::Binary(*operator, Box::new(alloc, left)?, Box::new(alloc, right)?))
        }
    }
}

/// Each of some expressions, in order.
pub(crate) fn expressions(
    alloc: Global,
    plan: &Plan,
    scope: &StandingNames<'_>,
    at: &mut u32,
    exprs: &[Expr],
) -> Result<Vec<Formula>, CheckError>
    requires { past_all (map view exprs.now) at.old ≤ BYTES }
    ensures finds { Finds result (expressions_error scope.now at.old (map view exprs.now)) }
    ensures after { OnOk result (at.new ≡ past_all (map view exprs.now) at.old) }
    ensures formulas { IfOk result (λ v. terms_of v.items ≡ map (lowered plan.now scope.now) (map view exprs.now)) }
{
    let mut formulas = Vec::with_capacity(alloc, exprs.len())?;
    for expr in exprs {
        formulas.push(expression(alloc, plan, scope, at, expr)?)?;
    }
    Ok(formulas)
}

/// An expression, if there is one.
pub(crate) fn expression_if(
    alloc: Global,
    plan: &Plan,
    scope: &StandingNames<'_>,
    at: &mut u32,
    expr: &Option<Expr>,
) -> Result<Option<Formula>, CheckError>
    requires { past_if (view_if expr.now) at.old ≤ BYTES }
    ensures finds { Finds result (optional_error scope.now at.old (view_if expr.now)) }
    ensures after { OnOk result (at.new ≡ past_if (view_if expr.now) at.old) }
    ensures formula { IfOk result (λ f. term_if f ≡ lowered_if plan.now scope.now (view_if expr.now)) }
{
    match expr {
        Some(expr) => Ok(Some(expression(alloc, plan, scope, at, expr)?)),
        None => Ok(None),
    }
}
