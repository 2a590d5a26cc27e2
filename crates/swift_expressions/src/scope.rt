//! What stands in scope.

ghost use Rattle.std.specs.Prelude.{◌≡◌, ◌↔◌, ℕ, IfNone, IfSome, IsNone, IsTrue, Some, slice_get};
ghost use Rattle.swift_expressions.specs.Instructions.{IsBound, KeepsRefusal};
ghost use Rattle.swift_expressions.specs.Lowered.{used};
ghost use Rattle.swift_expressions.specs.Scopes.{IsFree, IsInnermost, IsNamedAt};
ghost use Rattle.swift_expressions.specs.States.{Becomes, Binds, left_to, standing_of, state_of, with_partial};

use crate::code::Kind;
use crate::lowering::Lowering;
use crate::naming::is_kept;
use swift_syntax::Rule;

/// What a name in scope stands for.
#[derive(Clone, Copy, PartialEq, Eq)]
pub enum Standing {
    /// A value that never changes.
    Constant,
    /// A value that may be assigned.
    Variable,
    /// A task.
    Task,
    /// A group.
    Group,
    /// The one child of an `async let`.
    Child,
}

/// A name in scope.
#[derive(Clone, Copy)]
pub struct Binding {
    /// The token of its name.
    pub token: usize,
    /// What it stands for.
    pub standing: Standing,
    /// Its variable.
    pub variable: usize,
    /// The type of its value, or of the value of what it names.
    pub kind: Kind,
    /// Whether what it names may end with a fault.
    pub is_throwing: bool,
    /// Of a group, the variable that counts its children.
    pub count: usize,
    /// How many loops are open where it begins.
    pub loops: usize,
    /// Whether it is awaited.
    pub is_used: bool,
    /// Whether a child may have been left out of the group.
    pub is_partial: bool,
}

// Whether a name that is seen in scope stands at a place, and has the bytes of a token.
fn is_named_at(lowering: &Lowering<'_>, token: usize, place: usize) -> bool
    ensures { IsTrue result ↔ IsNamedAt (state_of lowering.now) token place }
{
    if place < lowering.setting.boundary {
        return false;
    }
    match lowering.scope.get(place) {
        Some(binding) => lowering.are_same(binding.token, token),
        None => false,
    }
}

/// The place of the innermost name in scope with the bytes of a token: of the names that are seen there, the one that came last.
pub fn find(lowering: &Lowering<'_>, token: usize) -> Option<usize>
    ensures found { IfSome result (IsInnermost (state_of lowering.now) token) }
    ensures none { IfNone result (IsFree (state_of lowering.now) token) }
{
    let mut found = None;
    for place in 0..lowering.scope.len() {
        if is_named_at(lowering, token, place) {
            found = Some(place);
        }
    }
    found
}

/// The name in scope at a place.
pub fn binding_at(lowering: &Lowering<'_>, place: usize) -> Option<Binding>
    ensures { result ≡ slice_get lowering.now.scope.items place }
{
    lowering.scope.get(place).copied()
}

/// The innermost name in scope with the bytes of a token.
pub fn standing_at(lowering: &Lowering<'_>, token: usize) -> Option<Binding>
    ensures found { IfSome result (λ b. (place : ℕ) × IsInnermost (state_of lowering.now) token place × (slice_get lowering.now.scope.items place ≡ Some b)) }
    ensures none { IfNone result (IsFree (state_of lowering.now) token) }
{
    match find(lowering, token) {
        Some(place) => binding_at(lowering, place),
        None => None,
    }
}

/// Notes that the name in scope at a place is awaited.
pub fn mark_used(lowering: &mut Lowering<'_>, place: usize)
    ensures state { Becomes lowering.new (used place (state_of lowering.old)) }
    ensures refused { KeepsRefusal lowering.old lowering.new }
{
    if let Some(binding) = lowering.scope.get_mut(place) {
        binding.is_used = true;
    }
}

/// Notes that a child may have been left out of the group at a place.
pub fn mark_partial(lowering: &mut Lowering<'_>, place: usize)
    ensures state { Becomes lowering.new (with_partial place (state_of lowering.old)) }
    ensures refused { KeepsRefusal lowering.old lowering.new }
{
    if let Some(binding) = lowering.scope.get_mut(place) {
        binding.is_partial = true;
    }
}

// Refuses a task that is not awaited.
fn refuse_left(lowering: &mut Lowering<'_>, from: usize)
    ensures state { Becomes lowering.new (state_of lowering.old) }
    ensures refused { KeepsRefusal lowering.old lowering.new }
{
    let mut left = None;
    for (place, binding) in lowering.scope.iter().enumerate() {
        if place >= from && binding.standing == Standing::Task && !binding.is_used {
            left = Some(binding.token);
        }
    }
    if let Some(token) = left {
        lowering.refuse(Rule::TaskLeft, token);
    }
}

/// Ends the names in scope from a place on.
pub fn leave(lowering: &mut Lowering<'_>, from: usize)
    ensures state { Becomes lowering.new (left_to from (state_of lowering.old)) }
    ensures refused { KeepsRefusal lowering.old lowering.new }
{
    refuse_left(lowering, from);
    lowering.scope.truncate(from);
}

/// A value in scope, with the name of a token.
pub fn declare(lowering: &mut Lowering<'_>, token: usize, variable: usize, kind: Kind, is_var: bool)
    ensures bound { IsNone lowering.new.refused → IsBound lowering.old lowering.new token variable }
    ensures code { lowering.new.code ≡ lowering.old.code }
    ensures binds { IsNone lowering.new.refused → Binds (state_of lowering.old) token (standing_of is_var) variable kind variable (state_of lowering.new) }
    ensures refused { KeepsRefusal lowering.old lowering.new }
{
    let standing = if is_var {
        Standing::Variable
    } else {
        Standing::Constant
    };
    declare_as(lowering, token, standing, variable, kind, false, variable);
}

/// A name in scope. Tasks, groups and values are alike here.
pub fn declare_as(
    lowering: &mut Lowering<'_>,
    token: usize,
    standing: Standing,
    variable: usize,
    kind: Kind,
    is_throwing: bool,
    count: usize,
)
    ensures bound { IsNone lowering.new.refused → IsBound lowering.old lowering.new token variable }
    ensures code { lowering.new.code ≡ lowering.old.code }
    ensures binds { IsNone lowering.new.refused → Binds (state_of lowering.old) token standing variable kind count (state_of lowering.new) }
    ensures refused { KeepsRefusal lowering.old lowering.new }
{
    let loops = lowering.setting.loops;
    if is_kept(lowering, token) {
        lowering.refuse(Rule::NameTwice, token);
    }
    lowering.bind(Binding {
        token,
        standing,
        variable,
        kind,
        is_throwing,
        count,
        loops,
        is_used: false,
        is_partial: false,
    });
}
