//! Names.

ghost use Rattle.std.specs.Prelude.{◌≡◌, ◌≢◌, ◌↔◌, ℕ, IfNone, IfSome, IsTrue, slice_get};
ghost use Rattle.swift_expressions.specs.Instructions.{KeepsRefusal};
ghost use Rattle.swift_expressions.specs.Lowered.{constant_literal};
ghost use Rattle.swift_expressions.specs.Scopes.{HasNoMethod, IsActorAt, IsConstantAt, IsFieldAt, IsFirst, IsInstanceAt, IsLocalAt, IsMethodAt, IsMethodOf, IsOfActor};
ghost use Rattle.swift_expressions.specs.States.{Becomes, state_of};

use crate::code::NONE;
use crate::lowering::Lowering;
use swift_syntax::{FieldDecl, InstanceDecl, MethodDecl, Rule};

/// The place of the method of an actor with the bytes of a token: of such ones the first.
pub fn method_named(lowering: &Lowering<'_>, actor: usize, token: usize) -> Option<usize>
    ensures found { IfSome result (IsMethodOf (state_of lowering.now) actor token) }
    ensures none { IfNone result (HasNoMethod (state_of lowering.now) actor token) }
{
    if actor == NONE {
        return None;
    }
    declared_in(lowering, actor, token)
}

/// The place of the function outside of actors with the bytes of a token: of such ones the first.
pub fn function_named(lowering: &Lowering<'_>, token: usize) -> Option<usize>
    ensures found { IfSome result (IsFirst (IsMethodAt (state_of lowering.now) NONE token)) }
    ensures none { IfNone result ((place : ℕ) → IsMethodAt (state_of lowering.now) NONE token place → ⊥) }
{
    declared_in(lowering, NONE, token)
}

// Whether a method of an actor, or a function where that is `NONE`, stands at a place, and has the bytes of a token.
fn is_method_at(lowering: &Lowering<'_>, actor: usize, token: usize, place: usize) -> bool
    ensures { IsTrue result ↔ IsMethodAt (state_of lowering.now) actor token place }
{
    match method_at(lowering, place) {
        Some(method) => method.actor == actor && lowering.are_same(method.name, token),
        None => false,
    }
}

// The place of the method of an actor, or of the function where that is `NONE`, with the bytes of a token: of such ones the first.
fn declared_in(lowering: &Lowering<'_>, actor: usize, token: usize) -> Option<usize>
    ensures found { IfSome result (IsFirst (IsMethodAt (state_of lowering.now) actor token)) }
    ensures none { IfNone result ((place : ℕ) → IsMethodAt (state_of lowering.now) actor token place → ⊥) }
{
    for place in 0..lowering.tree.methods.len() {
        if is_method_at(lowering, actor, token, place) {
            return Some(place);
        }
    }
    None
}

// Whether a field of an actor stands at a place, and has the bytes of a token.
fn is_field_at(lowering: &Lowering<'_>, actor: usize, token: usize, place: usize) -> bool
    ensures { IsTrue result ↔ IsFieldAt (state_of lowering.now) actor token place }
{
    match field_at(lowering, place) {
        Some(field) => field.actor == actor && lowering.are_same(field.name, token),
        None => false,
    }
}

/// The place of the field of an actor with the bytes of a token: of such ones the first.
pub fn field_named(lowering: &Lowering<'_>, actor: usize, token: usize) -> Option<usize>
    ensures found { IfSome result (IsFirst (IsFieldAt (state_of lowering.now) actor token)) }
    ensures none { IfNone result ((place : ℕ) → IsFieldAt (state_of lowering.now) actor token place → ⊥) }
{
    for place in 0..lowering.tree.fields.len() {
        if is_field_at(lowering, actor, token, place) {
            return Some(place);
        }
    }
    None
}

// Whether an instance stands at a place, and has the bytes of a token.
fn is_instance_at(lowering: &Lowering<'_>, token: usize, place: usize) -> bool
    ensures { IsTrue result ↔ IsInstanceAt (state_of lowering.now) token place }
{
    match instance_at(lowering, place) {
        Some(instance) => lowering.are_same(instance.name, token),
        None => false,
    }
}

/// The place of the instance with the bytes of a token: of such ones the first.
pub fn instance_named(lowering: &Lowering<'_>, token: usize) -> Option<usize>
    ensures found { IfSome result (IsFirst (IsInstanceAt (state_of lowering.now) token)) }
    ensures none { IfNone result ((place : ℕ) → IsInstanceAt (state_of lowering.now) token place → ⊥) }
{
    for place in 0..lowering.tree.instances.len() {
        if is_instance_at(lowering, token, place) {
            return Some(place);
        }
    }
    None
}

// Whether a global constant stands at a place, and has the bytes of a token.
fn is_constant_at(lowering: &Lowering<'_>, token: usize, place: usize) -> bool
    ensures { IsTrue result ↔ IsConstantAt (state_of lowering.now) token place }
{
    match lowering.tree.constants.get(place) {
        Some(constant) => lowering.are_same(constant.name, token),
        None => false,
    }
}

/// The place of the constant with the bytes of a token: of such ones the first.
pub fn constant_named(lowering: &Lowering<'_>, token: usize) -> Option<usize>
    ensures found { IfSome result (IsFirst (IsConstantAt (state_of lowering.now) token)) }
    ensures none { IfNone result ((place : ℕ) → IsConstantAt (state_of lowering.now) token place → ⊥) }
{
    for place in 0..lowering.tree.constants.len() {
        if is_constant_at(lowering, token, place) {
            return Some(place);
        }
    }
    None
}

// Whether a task local of an enum stands at a place, each with the bytes of a token.
fn is_local_at(lowering: &Lowering<'_>, of: usize, token: usize, place: usize) -> bool
    ensures { IsTrue result ↔ IsLocalAt (state_of lowering.now) of token place }
{
    match lowering.tree.locals.get(place) {
        Some(local) => lowering.are_same(local.of, of) && lowering.are_same(local.name, token),
        None => false,
    }
}

/// The literal of the constant at a place.
pub(crate) fn constant_literal(lowering: &Lowering<'_>, place: usize) -> usize
    ensures { result ≡ constant_literal (state_of lowering.now) place }
{
    match lowering.tree.constants.get(place) {
        Some(constant) => constant.value,
        None => 0,
    }
}

/// The place of the task local of an enum, each with the bytes of a token: of such ones the first.
pub fn local_named(lowering: &Lowering<'_>, of: usize, token: usize) -> Option<usize>
    ensures found { IfSome result (IsFirst (IsLocalAt (state_of lowering.now) of token)) }
    ensures none { IfNone result ((place : ℕ) → IsLocalAt (state_of lowering.now) of token place → ⊥) }
{
    for place in 0..lowering.tree.locals.len() {
        if is_local_at(lowering, of, token, place) {
            return Some(place);
        }
    }
    None
}

// Whether an actor stands at a place, and has the bytes of a token.
fn is_actor_at(lowering: &Lowering<'_>, token: usize, place: usize) -> bool
    ensures { IsTrue result ↔ IsActorAt (state_of lowering.now) token place }
{
    match lowering.tree.actors.get(place) {
        Some(actor) => lowering.are_same(actor.name, token),
        None => false,
    }
}

// The place of the actor with the bytes of a token: of such ones the first.
fn actor_named(lowering: &Lowering<'_>, token: usize) -> Option<usize>
    ensures found { IfSome result (IsFirst (IsActorAt (state_of lowering.now) token)) }
    ensures none { IfNone result ((place : ℕ) → IsActorAt (state_of lowering.now) token place → ⊥) }
{
    for place in 0..lowering.tree.actors.len() {
        if is_actor_at(lowering, token, place) {
            return Some(place);
        }
    }
    None
}

/// The place of the actor of an instance, or `NONE` where it is an executor's.
pub fn actor_of(lowering: &Lowering<'_>, instance: usize) -> usize
    ensures found { result ≢ NONE → IsOfActor (state_of lowering.now) instance result }
{
    let Some(declared) = instance_at(lowering, instance) else {
        return NONE;
    };
    match actor_named(lowering, declared.of) {
        Some(actor) => actor,
        None => NONE,
    }
}

/// Whether an actor has a member with the bytes of a token. Each has an `unownedExecutor`, and perhaps an `invariant`.
pub fn has_member(lowering: &Lowering<'_>, actor: usize, token: usize) -> bool {
    method_named(lowering, actor, token).is_some()
        || field_named(lowering, actor, token).is_some()
        || lowering.spells(token, "unownedExecutor")
        || lowering.spells(token, "invariant")
}

// The actor in whose text stands what is lowered, also in a closure, or `NONE` in that of `main`.
fn home(lowering: &Lowering<'_>) -> usize {
    if lowering.setting.actor != NONE {
        return lowering.setting.actor;
    }
    match lowering.code.units.get(lowering.setting.unit) {
        Some(unit) => unit.actor,
        None => NONE,
    }
}

/// Whether a global name that stands here means a member of the type around it, as in Swift, also in a closure. An expectation stands in
/// no type.
pub fn is_hidden(lowering: &Lowering<'_>, token: usize) -> bool {
    if lowering.setting.is_expectation {
        return false;
    }
    match home(lowering) {
        NONE => lowering.spells(token, "main"),
        actor => has_member(lowering, actor, token),
    }
}

/// Refuses a global name that means a member here.
pub fn refuse_hidden(lowering: &mut Lowering<'_>, token: usize)
    ensures state { Becomes lowering.new (state_of lowering.old) }
    ensures refused { KeepsRefusal lowering.old lowering.new }
{
    if is_hidden(lowering, token) {
        lowering.refuse(Rule::NameTwice, token);
    }
}

/// Whether a name is one of what Swift itself has and this subset uses.
pub fn is_kept(lowering: &Lowering<'_>, name: usize) -> bool {
    lowering.spells(name, "Task")
        || lowering.spells(name, "print")
        || lowering.spells(name, "precondition")
        || lowering.spells(name, "assert")
        || lowering.spells(name, "withTaskGroup")
        || lowering.spells(name, "withThrowingTaskGroup")
        || lowering.spells(name, "precedencegroup")
        || lowering.spells(name, "Any")
}

/// The method at a place.
pub fn method_at(lowering: &Lowering<'_>, place: usize) -> Option<MethodDecl>
    ensures { result ≡ slice_get lowering.now.tree.now.value.methods.items place }
{
    lowering.tree.methods.get(place).copied()
}

/// The field at a place.
pub fn field_at(lowering: &Lowering<'_>, place: usize) -> Option<FieldDecl>
    ensures { result ≡ slice_get lowering.now.tree.now.value.fields.items place }
{
    lowering.tree.fields.get(place).copied()
}

/// The instance at a place.
pub fn instance_at(lowering: &Lowering<'_>, place: usize) -> Option<InstanceDecl>
    ensures { result ≡ slice_get lowering.now.tree.now.value.instances.items place }
{
    lowering.tree.instances.get(place).copied()
}
