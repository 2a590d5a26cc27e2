//! Calls, and what is waited for: their names stand there, and become numbers.

ghost use Rattle.std.specs.Prelude.{◌≡◌, ◌≤◌, suc, IfOk, OnOk};
ghost use Rattle.swift_types.specs.declared.limits.TheConstants.{BYTES};
ghost use Rattle.script_grammar.specs.Tree.{text_of, view_call, view_awaited};
ghost use Rattle.script_names.specs.Texts.{is_among, place_of};
ghost use Rattle.script_names.specs.Directory.{method_place};
ghost use Rattle.script_names.specs.Scope.{meaning_of};
ghost use Rattle.script_names.specs.Rules.{at_name, cancel_fault, past_call, past_awaited, target_error, call_error, awaited_error};
ghost use Rattle.script_names.specs.Finds.{Finds};
ghost use Rattle.script_code.specs.Tree.{target_of as target_said, wanted_of as wanted_said};
ghost use Rattle.script_compiler.specs.Few.{HasFewNames};
ghost use Rattle.script_compiler.specs.Lowered.{target_of, task_named, wanted_of, cancelled_named};

use crate::lowering::expression::expressions;
use crate::lowering::plan::Plan;
use crate::lowering::standing::StandingNames;
use script_code::{Cancelled, CompiledAwait, CompiledCall};
use script_grammar::{Awaited, Call, Name};
use script_names::{
    CheckError, Declared, NameErrorKind, NameKind, at_name, cancel_fault, declared_fault,
    group_fault, task_fault, where_so,
};
use std::alloc::Global;
use swift_types::{ActorId, MethodId, RootId};

/// The numbers of an actor and of one of its methods, which has `count` parameters. An error is at the actor's name where no
/// actor has that name, and else at the method's.
pub(crate) fn target(
    alloc: Global,
    declared: &Declared,
    at: &mut u32,
    actor: &Name,
    method: &Name,
    count: usize,
) -> Result<(ActorId, MethodId), CheckError>
    requires room { suc (suc at.old) ≤ BYTES }
    requires few { HasFewNames declared.now }
    ensures finds { Finds result (target_error declared.now at.old (text_of actor.now) (text_of method.now) count) }
    ensures after { OnOk result (at.new ≡ suc (suc at.old)) }
    ensures actor { IfOk result (λ r. r.0.0 ≡ place_of declared.now.actors (text_of actor.now)) }
    ensures method { IfOk result (λ r. r.1.0 ≡ method_place declared.now (text_of actor.now) (text_of method.now)) }
{
    let place = declared.actor(&actor.text);
    at_name(at, declared_fault(place))?;
    let Some(number) = declared.method(alloc, &actor.text, &method.text)? else {
        return Err(CheckError::at(NameErrorKind::Unknown, *at));
    };
    let is_as_many = declared.parameters(number).unwrap_or(0) == count;
    at_name(at, where_so(!is_as_many, NameErrorKind::Arguments))?;
    Ok((ActorId(place.unwrap_or(0) as u32), MethodId(number as u32)))
}

/// A call, by the numbers of its actor and method. The target comes first, and then its arguments.
pub(crate) fn call(
    alloc: Global,
    plan: &Plan,
    scope: &StandingNames<'_>,
    at: &mut u32,
    call: &Call,
) -> Result<CompiledCall, CheckError>
    requires { past_call (view_call call.now) at.old ≤ BYTES }
    ensures finds { Finds result (call_error scope.now at.old (view_call call.now)) }
    ensures after { OnOk result (at.new ≡ past_call (view_call call.now) at.old) }
    ensures call { IfOk result (λ c. target_said c ≡ target_of plan.now scope.now (view_call call.now)) }
{
    let (actor, method) = target(
        alloc,
        scope.declared(),
        at,
        &call.actor,
        &call.method,
        call.args.len(),
    )?;
    let args = expressions(alloc, plan, scope, at, &call.args)?;
    Ok(CompiledCall {
        actor,
        method,
        args,
    })
}

// A name after `task` is the task variable of that name, or else the root.
fn task(scope: &StandingNames<'_>, name: &[u8]) -> CompiledAwait
    ensures { wanted_said result ≡ task_named scope.now name.now (meaning_of scope.now name.now) }
{
    match scope.meaning(name) {
        Some(NameKind::Task) => CompiledAwait::Task(scope.handle_place(name)),
        _ => CompiledAwait::Root(root(scope, name)),
    }
}

fn root(scope: &StandingNames<'_>, name: &[u8]) -> RootId
    ensures { result.0 ≡ place_of scope.now.directory.roots name.now }
{
    RootId(scope.declared().root_or_len(name) as u32)
}

/// What is waited for.
pub(crate) fn awaited(
    alloc: Global,
    plan: &Plan,
    scope: &StandingNames<'_>,
    at: &mut u32,
    awaited: &Awaited,
) -> Result<CompiledAwait, CheckError>
    requires { past_awaited (view_awaited awaited.now) at.old ≤ BYTES }
    ensures finds { Finds result (awaited_error scope.now at.old (view_awaited awaited.now)) }
    ensures after { OnOk result (at.new ≡ past_awaited (view_awaited awaited.now) at.old) }
    ensures wanted { IfOk result (λ w. wanted_said w ≡ wanted_of plan.now scope.now (view_awaited awaited.now)) }
{
    match awaited {
        Awaited::Call(called) => Ok(CompiledAwait::Call(call(alloc, plan, scope, at, called)?)),
        Awaited::Task(name) => {
            let is_root = scope.declared().root(&name.text).is_some();
            at_name(at, task_fault(is_root, scope.meaning(&name.text)))?;
            Ok(task(scope, &name.text))
        }
        Awaited::Next(name) => {
            at_name(at, group_fault(scope.meaning(&name.text)))?;
            Ok(CompiledAwait::Next(scope.handle_place(&name.text)))
        }
    }
}

/// What a name after `cancel` stands for: the task variable or the group of that name, or else the root.
pub(crate) fn cancelled(
    scope: &StandingNames<'_>,
    at: &mut u32,
    name: &Name,
) -> Result<Cancelled, CheckError>
    requires { suc at.old ≤ BYTES }
    ensures finds { Finds result (at_name at.old (cancel_fault (is_among scope.now.directory.roots (text_of name.now)) (meaning_of scope.now (text_of name.now)))) }
    ensures after { OnOk result (at.new ≡ suc at.old) }
    ensures cancelled { IfOk result (λ c. c ≡ cancelled_named scope.now (text_of name.now) (meaning_of scope.now (text_of name.now))) }
{
    let meaning = scope.meaning(&name.text);
    let is_root = scope.declared().root(&name.text).is_some();
    at_name(at, cancel_fault(is_root, meaning))?;
    Ok(match meaning {
        Some(NameKind::Task) => Cancelled::Task(scope.handle_place(&name.text)),
        Some(NameKind::Group) => Cancelled::Group(scope.handle_place(&name.text)),
        _ => Cancelled::Root(root(scope, &name.text)),
    })
}
