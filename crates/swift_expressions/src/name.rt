//! What names stand for, as values.

ghost use Rattle.std.specs.Prelude.{◌≡◌, ℕ, IsNone, codes, true, false};
ghost use Rattle.swift_expressions.specs.Instructions.{KeepsRefusal};
ghost use Rattle.swift_expressions.specs.Lowered.{Means, Names, field_kind, local_kind};
ghost use Rattle.swift_expressions.specs.Scopes.{IsFree, IsPriority};
ghost use Rattle.swift_expressions.specs.States.{Becomes, bytes_at, state_of};

use crate::code::{Kind, Value};
use crate::lowering::Lowering;
use crate::naming::{
    constant_literal, constant_named, field_at, field_named, instance_named, local_named,
    refuse_hidden,
};
use crate::scope::{Standing, binding_at, find};
use crate::typed::{Typed, kind_of, literal, refused, with_kind};
use crate::waits::{field_of, getter, next_child, task_value};
use swift_syntax::{ExprForm, FieldStart, Rule};
use swift_types::Priority;

/// The type of a field of an actor.
pub fn field_kind(lowering: &mut Lowering<'_>, field: usize) -> Kind
    ensures kind { IsNone lowering.new.refused → result ≡ field_kind (state_of lowering.old) field }
    ensures code { IsNone lowering.new.refused → lowering.new.code ≡ lowering.old.code }
    ensures state { Becomes lowering.new (state_of lowering.old) }
    ensures refused { KeepsRefusal lowering.old lowering.new }
{
    let Some(declared) = field_at(lowering, field) else {
        return Kind::Int;
    };
    if let Some(found) = declared.value_type {
        return kind_of(found);
    }
    match declared.start {
        FieldStart::Value(value) => literal(lowering, value).1,
        FieldStart::None => refused(lowering, Rule::WrongType, declared.name).kind,
    }
}

// A name that stands in no scope.
fn global_name(lowering: &mut Lowering<'_>, token: usize) -> Typed
    ensures means { IsFree (state_of lowering.old) token → IsNone lowering.new.refused → Means (state_of lowering.old) token (state_of lowering.new) result }
    ensures refused { KeepsRefusal lowering.old lowering.new }
{
    let actor = lowering.setting.actor;
    if let Some(field) = field_named(lowering, actor, token) {
        let kind = field_kind(lowering, field);
        return with_kind(lowering, Value::Field(field), kind);
    }
    if let Some(place) = constant_named(lowering, token) {
        refuse_hidden(lowering, token);
        let value = constant_literal(lowering, place);
        let (number, kind) = literal(lowering, value);
        return with_kind(lowering, Value::Number(number), kind);
    }
    if instance_named(lowering, token).is_some() {
        return refused(lowering, Rule::ActorValue, token);
    }
    refused(lowering, Rule::UnknownName, token)
}

/// A name.
pub(crate) fn name(lowering: &mut Lowering<'_>, token: usize) -> Typed
    ensures means { IsNone lowering.new.refused → Means (state_of lowering.old) token (state_of lowering.new) result }
    ensures refused { KeepsRefusal lowering.old lowering.new }
{
    if lowering.spells(token, "_") {
        return refused(lowering, Rule::UnknownName, token);
    }
    let Some(place) = find(lowering, token) else {
        return global_name(lowering, token);
    };
    let Some(found) = binding_at(lowering, place) else {
        return global_name(lowering, token);
    };
    match found.standing {
        Standing::Constant | Standing::Variable => {
            with_kind(lowering, Value::Variable(found.variable), found.kind)
        }
        Standing::Child => next_child(lowering, place, found, token),
        Standing::Task | Standing::Group => refused(lowering, Rule::WrongType, token),
    }
}

/// A field of the own actor.
pub(crate) fn own_field(lowering: &mut Lowering<'_>, token: usize) -> Typed
    ensures names { IsNone lowering.new.refused → Names (state_of lowering.old) token (state_of lowering.new) result ExprForm.OwnMember }
    ensures refused { KeepsRefusal lowering.old lowering.new }
{
    let actor = lowering.setting.actor;
    match field_named(lowering, actor, token) {
        Some(field) => {
            let kind = field_kind(lowering, field);
            with_kind(lowering, Value::Field(field), kind)
        }
        None => refused(lowering, Rule::UnknownName, token),
    }
}

// A member of the type `Task`.
fn task_member(lowering: &mut Lowering<'_>, token: usize) -> Typed
    ensures names { (of : ℕ) → lowering.old.setting.is_expectation ≡ false → IsFree (state_of lowering.old) of → bytes_at (state_of lowering.old) of ≡ codes "Task" → IsNone lowering.new.refused → Names (state_of lowering.old) token (state_of lowering.new) result (ExprForm.Member of) }
    ensures refused { KeepsRefusal lowering.old lowering.new }
{
    if lowering.spells(token, "isCancelled") {
        return with_kind(lowering, Value::Cancelled, Kind::Bool);
    }
    if lowering.spells(token, "currentPriority") {
        return with_kind(lowering, Value::Priority, Kind::Urgency);
    }
    refused(lowering, Rule::UnknownName, token)
}

// A field of an instance at the end of a run. A constant one is its number there.
fn field_at_end(lowering: &mut Lowering<'_>, of: usize, token: usize) -> Typed
    ensures names { lowering.old.setting.is_expectation ≡ true → IsNone lowering.new.refused → Names (state_of lowering.old) token (state_of lowering.new) result (ExprForm.Member of) }
    ensures refused { KeepsRefusal lowering.old lowering.new }
{
    let Some(instance) = instance_named(lowering, of) else {
        return refused(lowering, Rule::UnknownName, of);
    };
    match field_of(lowering, instance, token) {
        Some(field) => {
            let kind = field_kind(lowering, field);
            with_kind(lowering, Value::Member(instance, field), kind)
        }
        None => refused(lowering, Rule::UnknownName, token),
    }
}

/// `OF.NAME`
pub(crate) fn member(lowering: &mut Lowering<'_>, of: usize, token: usize) -> Typed
    ensures names { IsNone lowering.new.refused → Names (state_of lowering.old) token (state_of lowering.new) result (ExprForm.Member of) }
    ensures refused { KeepsRefusal lowering.old lowering.new }
{
    let is_expectation = lowering.setting.is_expectation;
    if is_expectation {
        return field_at_end(lowering, of, token);
    }
    if let Some(place) = find(lowering, of) {
        return task_value(lowering, place, token);
    }
    if lowering.spells(of, "Task") {
        return task_member(lowering, token);
    }
    if let Some(local) = local_named(lowering, of, token) {
        refuse_hidden(lowering, of);
        let kind = local_kind(lowering, local);
        return with_kind(lowering, Value::Local(local), kind);
    }
    match instance_named(lowering, of) {
        Some(instance) => {
            refuse_hidden(lowering, of);
            getter(lowering, instance, token)
        }
        None => refused(lowering, Rule::UnknownName, of),
    }
}

/// The type of a task local.
pub fn local_kind(lowering: &mut Lowering<'_>, local: usize) -> Kind
    ensures kind { IsNone lowering.new.refused → result ≡ local_kind (state_of lowering.old) local }
    ensures state { Becomes lowering.new (state_of lowering.old) }
    ensures refused { KeepsRefusal lowering.old lowering.new }
{
    let Some(declared) = lowering.tree.locals.get(local).copied() else {
        return Kind::Int;
    };
    match declared.value_type {
        Some(found) => kind_of(found),
        None => literal(lowering, declared.value).1,
    }
}

/// The priority that a token names (SE-0304).
pub fn priority_named(lowering: &mut Lowering<'_>, token: usize) -> Priority
    ensures named { IsNone lowering.new.refused → IsPriority (state_of lowering.old) token result }
    ensures state { Becomes lowering.new (state_of lowering.old) }
    ensures refused { KeepsRefusal lowering.old lowering.new }
{
    if lowering.spells(token, "background") {
        return Priority::Background;
    }
    if lowering.spells(token, "low") || lowering.spells(token, "utility") {
        return Priority::Low;
    }
    if lowering.spells(token, "medium") {
        return Priority::Medium;
    }
    if lowering.spells(token, "high") || lowering.spells(token, "userInitiated") {
        return Priority::High;
    }
    lowering.refuse(Rule::UnknownName, token);
    Priority::Background
}
