//! Calls of methods.

ghost use Rattle.std.specs.Prelude.{◌≡◌, ◌≢◌, ℕ, Bool, IsNone, IsSome, IsTrue, None, Some, codes, pos, slice_get};
ghost use Rattle.swift_expressions.specs.Instructions.{IsHoisted, KeepsRefusal};
ghost use Rattle.swift_expressions.specs.Lowered.{Calls, CallsOwn, checked, slept, takes_values, yielding};
ghost use Rattle.swift_expressions.specs.Scopes.{IsCalled, IsFree, IsInnermost};
ghost use Rattle.swift_expressions.specs.States.{Becomes, Gives, bytes_at, put, state_of};
ghost use Rattle.swift_expressions.specs.declared.call.Called.TheVariants as callees;

use crate::code::{Instruction, Kind, NONE, Target, UnitKind, Value, Wait};
use crate::lowering::{Fallback, Lowering};
use crate::naming::{
    actor_of, function_named, instance_named, is_hidden, method_at, method_named, refuse_hidden,
};
use crate::operands::Operands;
use crate::scope::{Binding, Standing, binding_at, find};
use crate::typed::{Typed, kind_of, refused, with_kind};
use crate::waits::{
    group_next, wait, wait_for_all, want_await, want_await_where, want_try, want_try_where,
    yield_where,
};
use swift_syntax::{Access, MethodDecl, Receiver, Rule};

/// What is called.
#[derive(Clone, Copy)]
pub(crate) enum Called {
    /// Nothing, where a refusal was noted.
    Nothing,
    /// A method of the own actor, or a function outside of actors.
    Own(usize),
    /// A method of an instance.
    Other(usize, usize),
    /// `Task.yield`
    Yield,
    /// `Task.sleep`
    Sleep,
    /// `Task.checkCancellation`
    Check,
    /// `next` of the group at a place in scope.
    Next(usize),
    /// `waitForAll` of the group at a place in scope.
    WaitForAll(usize),
    /// `cancel` or `cancelAll` of the variable.
    Cancel(usize),
}

/// What is called, and whether it takes values.
#[derive(Clone, Copy)]
pub(crate) struct Method {
    /// What is called.
    pub called: Called,
    /// Whether its arguments are values.
    pub takes_operands: bool,
}

fn as_method(called: Called) -> Method
    ensures called { result.called ≡ called }
    ensures values { result.takes_operands ≡ takes_values called }
{
    let takes_operands = matches!(called, Called::Own(_) | Called::Other(..));
    Method {
        called,
        takes_operands,
    }
}

// Nothing is called: a refusal is noted.
fn unknown(lowering: &mut Lowering<'_>, rule: Rule, token: usize) -> Method
    ensures noted { IsSome lowering.new.refused }
    ensures state { Becomes lowering.new (state_of lowering.old) }
    ensures known { IsNone lowering.new.refused → result.called ≢ callees.Nothing }
    ensures values { result.takes_operands ≡ takes_values result.called }
    ensures refused { KeepsRefusal lowering.old lowering.new }
{
    lowering.refuse(rule, token);
    as_method(Called::Nothing)
}

// A method of the own actor.
fn own_method(lowering: &mut Lowering<'_>, token: usize) -> Method
    ensures named { IsNone lowering.new.refused → IsCalled (state_of lowering.old) token Receiver.Own result.called }
    ensures state { Becomes lowering.new (state_of lowering.old) }
    ensures known { IsNone lowering.new.refused → result.called ≢ callees.Nothing }
    ensures values { result.takes_operands ≡ takes_values result.called }
    ensures refused { KeepsRefusal lowering.old lowering.new }
{
    let actor = lowering.setting.actor;
    match method_named(lowering, actor, token) {
        Some(place) => as_method(Called::Own(place)),
        None => {
            let rule = rule_of_unknown(lowering, token);
            unknown(lowering, rule, token)
        }
    }
}

// A method of the own actor; else a function outside of actors, which it would hide.
fn own_or_function(lowering: &mut Lowering<'_>, token: usize) -> Method
    ensures named { IsNone lowering.new.refused → IsFree (state_of lowering.old) token → IsCalled (state_of lowering.old) token Receiver.Nobody result.called }
    ensures state { Becomes lowering.new (state_of lowering.old) }
    ensures known { IsNone lowering.new.refused → result.called ≢ callees.Nothing }
    ensures values { result.takes_operands ≡ takes_values result.called }
    ensures refused { KeepsRefusal lowering.old lowering.new }
{
    let actor = lowering.setting.actor;
    if let Some(place) = method_named(lowering, actor, token) {
        return as_method(Called::Own(place));
    }
    let Some(place) = function_named(lowering, token) else {
        let rule = rule_of_unknown(lowering, token);
        return unknown(lowering, rule, token);
    };
    refuse_hidden(lowering, token);
    as_method(Called::Own(place))
}

// Why nothing of this name can be called.
fn rule_of_unknown(lowering: &Lowering<'_>, token: usize) -> Rule {
    if lowering
        .tree
        .actors
        .iter()
        .any(|a| lowering.are_same(a.name, token))
    {
        return Rule::ActorValue;
    }
    if lowering.setting.is_closure && is_hidden(lowering, token) {
        Rule::Captured
    } else {
        Rule::UnknownName
    }
}

// A method of the type `Task`.
fn task_method(lowering: &mut Lowering<'_>, token: usize) -> Method
    ensures named { IsNone lowering.new.refused → (of : ℕ) → IsFree (state_of lowering.old) of → bytes_at (state_of lowering.old) of ≡ codes "Task" → IsCalled (state_of lowering.old) token (Receiver.Named of) result.called }
    ensures state { Becomes lowering.new (state_of lowering.old) }
    ensures known { IsNone lowering.new.refused → result.called ≢ callees.Nothing }
    ensures values { result.takes_operands ≡ takes_values result.called }
    ensures refused { KeepsRefusal lowering.old lowering.new }
{
    if lowering.spells(token, "yield") {
        return as_method(Called::Yield);
    }
    if lowering.spells(token, "sleep") {
        return as_method(Called::Sleep);
    }
    if lowering.spells(token, "checkCancellation") {
        return as_method(Called::Check);
    }
    unknown(lowering, Rule::UnknownName, token)
}

// A method of the group at a place in scope.
fn group_method(lowering: &mut Lowering<'_>, place: usize, found: Binding, token: usize) -> Method
    ensures named { IsNone lowering.new.refused → (of : ℕ) → IsInnermost (state_of lowering.old) of place → slice_get lowering.old.scope.items place ≡ Some found → found.standing ≡ Standing.Group → IsCalled (state_of lowering.old) token (Receiver.Named of) result.called }
    ensures state { Becomes lowering.new (state_of lowering.old) }
    ensures known { IsNone lowering.new.refused → result.called ≢ callees.Nothing }
    ensures values { result.takes_operands ≡ takes_values result.called }
    ensures refused { KeepsRefusal lowering.old lowering.new }
{
    if lowering.spells(token, "next") {
        return as_method(Called::Next(place));
    }
    if lowering.spells(token, "waitForAll") {
        return as_method(Called::WaitForAll(place));
    }
    if lowering.spells(token, "cancelAll") {
        return as_method(Called::Cancel(found.variable));
    }
    unknown(lowering, Rule::UnknownName, token)
}

// A method of the task or group at a place in scope.
fn scope_method(lowering: &mut Lowering<'_>, place: usize, token: usize) -> Method
    ensures named { IsNone lowering.new.refused → (of : ℕ) → IsInnermost (state_of lowering.old) of place → IsCalled (state_of lowering.old) token (Receiver.Named of) result.called }
    ensures state { Becomes lowering.new (state_of lowering.old) }
    ensures known { IsNone lowering.new.refused → result.called ≢ callees.Nothing }
    ensures values { result.takes_operands ≡ takes_values result.called }
    ensures refused { KeepsRefusal lowering.old lowering.new }
{
    let Some(found) = binding_at(lowering, place) else {
        return unknown(lowering, Rule::UnknownName, token);
    };
    match found.standing {
        Standing::Group => group_method(lowering, place, found, token),
        Standing::Task => {
            if lowering.spells(token, "cancel") {
                return as_method(Called::Cancel(found.variable));
            }
            unknown(lowering, Rule::UnknownName, token)
        }
        Standing::Constant | Standing::Variable | Standing::Child => {
            unknown(lowering, Rule::UnknownName, token)
        }
    }
}

// A method of what a name stands for: something in scope, `Task`, or an instance.
fn method_of_name(lowering: &mut Lowering<'_>, of: usize, token: usize) -> Method
    ensures named { IsNone lowering.new.refused → IsCalled (state_of lowering.old) token (Receiver.Named of) result.called }
    ensures state { Becomes lowering.new (state_of lowering.old) }
    ensures known { IsNone lowering.new.refused → result.called ≢ callees.Nothing }
    ensures values { result.takes_operands ≡ takes_values result.called }
    ensures refused { KeepsRefusal lowering.old lowering.new }
{
    if let Some(place) = find(lowering, of) {
        return scope_method(lowering, place, token);
    }
    if lowering.spells(of, "Task") {
        return task_method(lowering, token);
    }
    let Some(instance) = instance_named(lowering, of) else {
        return unknown(lowering, Rule::UnknownName, of);
    };
    refuse_hidden(lowering, of);
    let actor = actor_of(lowering, instance);
    let Some(place) = method_named(lowering, actor, token) else {
        return unknown(lowering, Rule::UnknownName, token);
    };
    as_method(Called::Other(instance, place))
}

// What a call names that has no receiver. No name in scope is a method.
fn method_of_nobody(lowering: &mut Lowering<'_>, token: usize) -> Method
    ensures named { IsNone lowering.new.refused → IsCalled (state_of lowering.old) token Receiver.Nobody result.called }
    ensures state { Becomes lowering.new (state_of lowering.old) }
    ensures known { IsNone lowering.new.refused → result.called ≢ callees.Nothing }
    ensures values { result.takes_operands ≡ takes_values result.called }
    ensures refused { KeepsRefusal lowering.old lowering.new }
{
    if let Some(_) = find(lowering, token) {
        return unknown(lowering, Rule::NameTwice, token);
    }
    own_or_function(lowering, token)
}

/// What a call names.
pub(crate) fn method_of(lowering: &mut Lowering<'_>, receiver: Receiver, token: usize) -> Method
    ensures named { IsNone lowering.new.refused → IsCalled (state_of lowering.old) token receiver result.called }
    ensures state { Becomes lowering.new (state_of lowering.old) }
    ensures known { IsNone lowering.new.refused → result.called ≢ callees.Nothing }
    ensures values { result.takes_operands ≡ takes_values result.called }
    ensures refused { KeepsRefusal lowering.old lowering.new }
{
    match receiver {
        Receiver::Nobody => method_of_nobody(lowering, token),
        Receiver::Own => own_method(lowering, token),
        Receiver::Named(of) => method_of_name(lowering, of, token),
    }
}

/// Whether an argument has the label of a parameter.
pub fn has_label(lowering: &Lowering<'_>, label: usize, wanted: usize) -> bool {
    if label == 0 || wanted == 0 {
        return label == wanted;
    }
    lowering.are_same(label, wanted)
}

/// Refuses arguments other than these parameters want.
pub fn want_arguments(
    lowering: &mut Lowering<'_>,
    first_param: usize,
    params_end: usize,
    first: usize,
    given: Operands,
    token: usize,
)
    ensures state { Becomes lowering.new (state_of lowering.old) }
    ensures refused { KeepsRefusal lowering.old lowering.new }
{
    if given.count != params_end.saturating_sub(first_param) {
        lowering.refuse(Rule::Arguments, token);
        return;
    }
    let mut place = first;
    let mut operand = given.first;
    for number in first_param..params_end {
        let (Some(argument), Some(param), Some(found)) = (
            lowering.tree.argument(place),
            lowering.tree.params.get(number).copied(),
            lowering.operand_at(operand),
        ) else {
            return;
        };
        if !has_label(lowering, argument.label, param.label) {
            lowering.refuse(Rule::Arguments, token);
        }
        if found.kind != kind_of(param.value_type) {
            lowering.refuse(Rule::WrongType, token);
        }
        place = argument.next;
        operand = found.next;
    }
}

// A call of a method of the own actor, or of a function.
fn call_own(
    lowering: &mut Lowering<'_>,
    place: usize,
    declared: MethodDecl,
    given: Operands,
    token: usize,
) -> Typed
    // A function that is `async` runs outside of the actor that calls it, so other turns come in there.
    ensures hops { IsTrue declared.is_async → declared.actor ≡ NONE → IsNone lowering.new.refused → IsHoisted lowering.old lowering.new (Wait.Own place given.first) result }
    ensures calls { IsNone lowering.new.refused → CallsOwn (state_of lowering.old) place declared given token (state_of lowering.new) result }
    ensures refused { KeepsRefusal lowering.old lowering.new }
{
    let kind = kind_of(declared.result);
    want_await_where(lowering, declared.is_async, token);
    if let Fallback::Fault(_) = lowering.setting.fallback {
        lowering.refuse_where(!declared.is_async, Rule::NotYet, token);
        return wait(lowering, Wait::Own(place, given.first), kind);
    }
    if declared.is_async && declared.actor == NONE {
        return wait(lowering, Wait::Own(place, given.first), kind);
    }
    if kind == Kind::Void {
        lowering.put(Instruction::Inline(Target::Nothing, place, given.first, token));
        return with_kind(lowering, Value::Number(0), kind);
    }
    let variable = lowering.temporary();
    let target = Target::Declare(variable);
    lowering.put(Instruction::Inline(target, place, given.first, token));
    with_kind(lowering, Value::Variable(variable), kind)
}

// A call of a declared method.
fn call_method(
    lowering: &mut Lowering<'_>,
    place: usize,
    instance: Option<usize>,
    first: usize,
    given: Operands,
    token: usize,
) -> Typed
    ensures own { instance ≡ None → IsNone lowering.new.refused → Calls (state_of lowering.old) given token (state_of lowering.new) result (callees.Own place) }
    ensures other { (i : ℕ) → instance ≡ Some i → IsNone lowering.new.refused → Calls (state_of lowering.old) given token (state_of lowering.new) result (callees.Other i place) }
    ensures refused { KeepsRefusal lowering.old lowering.new }
{
    let Some(declared) = method_at(lowering, place) else {
        return refused(lowering, Rule::UnknownName, token);
    };
    let MethodDecl {
        first_param,
        params_end,
        ..
    } = declared;
    want_arguments(lowering, first_param, params_end, first, given, token);
    want_try_where(lowering, declared.is_throwing, token);
    match instance {
        Some(instance) => {
            lowering.refuse_where(declared.access == Access::Private, Rule::Private, token);
            want_await(lowering, token);
            let what = Wait::Method(instance, place, given.first);
            wait(lowering, what, kind_of(declared.result))
        }
        None => call_own(lowering, place, declared, given, token),
    }
}

// Whether a task begins only where its maker waits: `main` and what it spawns share the main actor.
fn begins_behind(lowering: &Lowering<'_>, variable: usize) -> bool {
    let is_main = match lowering.code.units.get(lowering.setting.unit) {
        Some(unit) => matches!(unit.kind, UnitKind::Main),
        None => false,
    };
    is_main
        && lowering.code.instructions.iter().any(|i| match i {
            Instruction::Make(made, false, _, _) => *made == variable,
            _ => false,
        })
}

// Cancels a task or a group. What was made before may begin before it is cancelled; in an actor's method others would come in here.
fn cancel(lowering: &mut Lowering<'_>, variable: usize)
    ensures state { IsNone lowering.new.refused → (yields : Bool) × (state_of lowering.new ≡ put (Instruction.Cancel variable) (yielding yields (state_of lowering.old))) }
    ensures refused { KeepsRefusal lowering.old lowering.new }
{
    let yields = lowering.setting.is_closure && !begins_behind(lowering, variable);
    yield_where(lowering, yields);
    lowering.put(Instruction::Cancel(variable));
}

// `Task.sleep`: any delay is among the orders that are searched.
fn sleep(lowering: &mut Lowering<'_>, token: usize)
    ensures state { Becomes lowering.new (slept (state_of lowering.old)) }
    ensures refused { KeepsRefusal lowering.old lowering.new }
{
    want_await(lowering, token);
    want_try(lowering, token);
    let is_caught = matches!(lowering.setting.fallback, Fallback::Fault(_));
    lowering.setting.fallback = Fallback::None;
    lowering.put(Instruction::Yield);
    if !is_caught {
        lowering.put(Instruction::Check);
    }
}

// `Task.checkCancellation`
fn check(lowering: &mut Lowering<'_>, token: usize)
    ensures state { Becomes lowering.new (checked (state_of lowering.old)) }
    ensures refused { KeepsRefusal lowering.old lowering.new }
{
    want_try(lowering, token);
    if lowering.take_fault() == NONE {
        lowering.put(Instruction::Check);
    }
}

// What a call gives that gives nothing.
fn nothing(lowering: &mut Lowering<'_>) -> Typed
    ensures gives { IsNone lowering.new.refused → Gives (state_of lowering.old) (Value.Number (pos 0)) Kind.Void (state_of lowering.new) result }
    ensures refused { KeepsRefusal lowering.old lowering.new }
{
    with_kind(lowering, Value::Number(0), Kind::Void)
}

/// A call, with its arguments lowered where it takes values.
pub(crate) fn call(
    lowering: &mut Lowering<'_>,
    method: Method,
    first: usize,
    given: Operands,
    token: usize,
) -> Typed
    ensures calls { method.called ≢ callees.Nothing → IsNone lowering.new.refused → Calls (state_of lowering.old) given token (state_of lowering.new) result method.called }
    ensures refused { KeepsRefusal lowering.old lowering.new }
{
    let is_bare = !method.takes_operands && !matches!(method.called, Called::Sleep);
    lowering.refuse_where(is_bare && first != 0, Rule::Arguments, token);
    match method.called {
        Called::Own(place) => call_method(lowering, place, None, first, given, token),
        Called::Other(instance, place) => {
            call_method(lowering, place, Some(instance), first, given, token)
        }
        Called::Next(place) => group_next(lowering, place, token),
        Called::WaitForAll(place) => wait_for_all(lowering, place, token),
        Called::Nothing => nothing(lowering),
        Called::Yield => {
            want_await(lowering, token);
            lowering.put(Instruction::Yield);
            nothing(lowering)
        }
        Called::Sleep => {
            sleep(lowering, token);
            nothing(lowering)
        }
        Called::Check => {
            check(lowering, token);
            nothing(lowering)
        }
        Called::Cancel(variable) => {
            cancel(lowering, variable);
            nothing(lowering)
        }
    }
}
