//! Statements without a block: their names stand there. Each of these functions puts what its part stands for after the
//! statements that are there.

ghost use Rattle.std.specs.Prelude.{◌≡◌, ◌<◌, ◌≤◌, None, length, suc, OnOk};
ghost use Rattle.swift_types.specs.declared.limits.TheConstants.{BYTES};
ghost use Rattle.script_grammar.specs.Tree.{Do, Adds, text_of, view_wait, view_value, view_make, view_add, view_action};
ghost use Rattle.script_names.specs.Scope.{meaning_of};
ghost use Rattle.script_names.specs.Rules.{at_name, new_fault, group_fault, bind_fault, or_else, past_wait, past_value, past_make, past_action, wait_error, value_error, make_error, action_error, scope_after};
ghost use Rattle.script_names.specs.Finds.{Finds};
ghost use Rattle.script_code.specs.Layout.{greatest};
ghost use Rattle.script_code.specs.Statements.{code_of};
ghost use Rattle.script_code.specs.Tree.{followed, act, end};
ghost use Rattle.script_compiler.specs.Lowered.{wait_to, value_to, make_to, action_code};

use crate::lowering::call::{awaited, call, cancelled};
use crate::lowering::expression::{expression, expression_if, place};
use crate::lowering::plan::Plan;
use crate::lowering::standing::StandingNames;
use script_code::{Act, NumberPlace, Statement, push_act};
use script_grammar::{Action, Add, Make, Name, Value, Wait};
use script_names::{
    CheckError, NameErrorKind, NameKind, at_name, group_fault, new_fault, number_fault,
};
use std::alloc::Global;

// A wait: one act that asks, and one that takes the answer.
#[tactic(auto, using(script_code::proofs::Layouts::followed_then))]
fn wait(
    alloc: Global,
    plan: &Plan,
    scope: &StandingNames<'_>,
    at: &mut u32,
    statements: &mut Vec<Statement>,
    place: Option<NumberPlace>,
    wait: &Wait,
) -> Result<(), CheckError>
    requires { past_wait (view_wait wait.now) at.old ≤ BYTES }
    ensures finds { Finds result (wait_error scope.now at.old (view_wait wait.now)) }
    ensures after { OnOk result (at.new ≡ past_wait (view_wait wait.now) at.old) }
    ensures code { OnOk result (code_of statements.new.items ≡ followed (code_of statements.old.items) (wait_to plan.now scope.now place (view_wait wait.now))) }
{
    let awaited = awaited(alloc, plan, scope, at, &wait.awaited)?;
    let other = expression_if(alloc, plan, scope, at, &wait.other)?;
    push_act(statements, Act::Wait(awaited))?;
    Ok(push_act(statements, Act::Receive(place, other))?)
}

// A place is set to a value.
fn assignment(
    alloc: Global,
    plan: &Plan,
    scope: &StandingNames<'_>,
    at: &mut u32,
    statements: &mut Vec<Statement>,
    place: NumberPlace,
    value: &Value,
) -> Result<(), CheckError>
    requires { past_value (view_value value.now) at.old ≤ BYTES }
    ensures finds { Finds result (value_error scope.now at.old (view_value value.now)) }
    ensures after { OnOk result (at.new ≡ past_value (view_value value.now) at.old) }
    ensures code { OnOk result (code_of statements.new.items ≡ followed (code_of statements.old.items) (value_to plan.now scope.now place (view_value value.now))) }
{
    match value {
        Value::Expr(expr) => {
            let formula = expression(alloc, plan, scope, at, expr)?;
            let act = match place {
                NumberPlace::Variable(k) => Act::SetVariable(k, formula),
                NumberPlace::Field(k) => Act::SetField(k, formula),
            };
            Ok(push_act(statements, act)?)
        }
        Value::Await(awaited) => wait(alloc, plan, scope, at, statements, Some(place), awaited),
    }
}

// A task is made, whose number goes to a handle, if there is one.
fn make(
    alloc: Global,
    plan: &Plan,
    scope: &StandingNames<'_>,
    at: &mut u32,
    statements: &mut Vec<Statement>,
    handle: Option<u32>,
    make: &Make,
) -> Result<(), CheckError>
    requires { past_make (view_make make.now) at.old ≤ BYTES }
    ensures finds { Finds result (make_error scope.now at.old (view_make make.now)) }
    ensures after { OnOk result (at.new ≡ past_make (view_make make.now) at.old) }
    ensures code { OnOk result (code_of statements.new.items ≡ followed (code_of statements.old.items) (act (make_to plan.now scope.now handle (view_make make.now)) end)) }
{
    match make {
        Make::Spawn(spawned, priority) => {
            let call = call(alloc, plan, scope, at, spawned)?;
            let priority = *priority;
            Ok(push_act(
                statements,
                Act::Spawn {
                    call,
                    priority,
                    handle,
                },
            )?)
        }
        Make::Detach(detached, priority) => {
            let call = call(alloc, plan, scope, at, detached)?;
            let priority = *priority;
            Ok(push_act(
                statements,
                Act::Detach {
                    call,
                    priority,
                    handle,
                },
            )?)
        }
    }
}

/// A new name does not stand there yet.
pub(crate) fn new_name(
    scope: &StandingNames<'_>,
    at: &mut u32,
    name: &Name,
) -> Result<(), CheckError>
    requires { at.old < BYTES }
    ensures finds { Finds result (at_name at.old (new_fault (meaning_of scope.now (text_of name.now)))) }
    ensures after { OnOk result (at.new ≡ suc at.old) }
    ensures new { OnOk result (meaning_of scope.now (text_of name.now) ≡ None) }
{
    at_name(at, new_fault(scope.meaning(&name.text)))
}

// A child is added to a group that was opened inside the innermost open `bind`.
fn add_fault(scope: &StandingNames<'_>, group: &Name) -> Option<NameErrorKind>
    ensures { result ≡ or_else (group_fault (meaning_of scope.now (text_of group.now))) (bind_fault scope.now (text_of group.now)) }
{
    match group_fault(scope.meaning(&group.text)) {
        None => scope.bind_fault(&group.text),
        fault => fault,
    }
}

// A child is added to a group.
fn add(
    alloc: Global,
    plan: &Plan,
    scope: &StandingNames<'_>,
    at: &mut u32,
    statements: &mut Vec<Statement>,
    child: &Add,
) -> Result<(), CheckError>
    requires { past_action (Adds (view_add child.now)) at.old ≤ BYTES }
    ensures finds { Finds result (action_error scope.now at.old (Adds (view_add child.now))) }
    ensures after { OnOk result (at.new ≡ past_action (Adds (view_add child.now)) at.old) }
    ensures code { OnOk result (code_of statements.new.items ≡ followed (code_of statements.old.items) (action_code plan.now scope.now (Adds (view_add child.now)))) }
{
    at_name(at, add_fault(scope, &child.group))?;
    let act = Act::Add {
        group: scope.handle_place(&child.group.text),
        unless_cancelled: child.unless,
        call: call(alloc, plan, scope, at, &child.call)?,
        priority: child.priority,
    };
    Ok(push_act(statements, act)?)
}

/// A statement without a block. A variable that it makes stands after it.
#[tactic(auto, using(script_names::proofs::Grows::value_grows, script_names::proofs::Grows::make_grows))]
pub(crate) fn action(
    alloc: Global,
    plan: &Plan,
    scope: &mut StandingNames<'_>,
    at: &mut u32,
    statements: &mut Vec<Statement>,
    action: &Action,
) -> Result<(), CheckError>
    requires names { past_action (view_action action.now) at.old ≤ BYTES }
    requires room { length scope.old.kinds < greatest }
    ensures finds { Finds result (action_error scope.old at.old (view_action action.now)) }
    ensures after { OnOk result (at.new ≡ past_action (view_action action.now) at.old) }
    ensures code { OnOk result (code_of statements.new.items ≡ followed (code_of statements.old.items) (action_code plan.now scope.old (view_action action.now))) }
    ensures scope { OnOk result (scope.new ≡ scope_after scope.old (Do (view_action action.now))) }
{
    match action {
        Action::Let(name, value) => {
            new_name(scope, at, name)?;
            let place = NumberPlace::Variable(scope.counts().numbers);
            assignment(alloc, plan, scope, at, statements, place, value)?;
            Ok(scope.add(alloc, &name.text, NameKind::Number)?)
        }
        Action::LetTask(name, made) => {
            new_name(scope, at, name)?;
            let handle = Some(scope.counts().handles);
            make(alloc, plan, scope, at, statements, handle, made)?;
            Ok(scope.add(alloc, &name.text, NameKind::Task)?)
        }
        Action::Assign(name, value) => {
            at_name(at, number_fault(scope.meaning(&name.text)))?;
            let place = place(plan, scope, &name.text);
            assignment(alloc, plan, scope, at, statements, place, value)
        }
        Action::Await(awaited) => wait(alloc, plan, scope, at, statements, None, awaited),
        Action::Make(made) => make(alloc, plan, scope, at, statements, None, made),
        Action::Add(child) => add(alloc, plan, scope, at, statements, child),
        Action::Cancel(name) => {
            let cancelled = cancelled(scope, at, name)?;
            Ok(push_act(statements, Act::Cancel(cancelled))?)
        }
        Action::Return(expr) => {
            let value = expression(alloc, plan, scope, at, expr)?;
            Ok(push_act(statements, Act::Return(value))?)
        }
        Action::Throw(expr) => {
            let value = expression(alloc, plan, scope, at, expr)?;
            Ok(push_act(statements, Act::Throw(value))?)
        }
        Action::Check => Ok(push_act(statements, Act::Check)?),
        Action::Yield => Ok(push_act(statements, Act::Yield)?),
    }
}
