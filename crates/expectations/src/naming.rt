//! What the names of an expectation stand for.

ghost use Rattle.std.specs.Prelude.{◌≡◌, ◌<◌, ◌++◌, ◌∷◌, IfOk, IfSome, length};
ghost use Rattle.script_code.specs.Tree.{term_of};
ghost use Rattle.swift_script.specs.Scripts.{actor_count, actor_fields, actor_name, field_name, root_count, root_name};
ghost use Rattle.expectations.specs.Texts.{Names};

use crate::fault::MisreadKind;
use script_code::{FieldPlace, Formula};
use swift_script::Script;
use swift_types::{ActorId, RootId};

// The root of this name.
fn root_named(script: &Script, name: &[u8]) -> Option<u32>
    ensures { IfSome result (λ r. (r < root_count script.now) × (root_name script.now r ≡ name.now)) }
{
    script.facts();
    for root in 0..script.root_count() {
        let number = root as u32;
        if script.root_name(RootId(number)) == name {
            return Some(number);
        }
    }
    None
}

// The actor of this name.
fn actor_named(script: &Script, name: &[u8]) -> Option<ActorId>
    ensures { IfSome result (λ a. (a.0 < actor_count script.now) × (actor_name script.now a.0 ≡ name.now)) }
{
    script.facts();
    for actor in 0..script.actor_count() {
        let number = ActorId(actor as u32);
        if script.actor_name(number) == name {
            return Some(number);
        }
    }
    None
}

// How many fields an actor has.
fn field_count(script: &Script, actor: ActorId) -> usize
    ensures { result ≡ length (actor_fields script.now actor.0) }
{
    script.actor_fields(actor).len()
}

// The field of this name, among those of an actor.
fn field_named(script: &Script, actor: ActorId, name: &[u8]) -> Option<u32>
    ensures { IfSome result (λ f. (f < length (actor_fields script.now actor.0)) × (field_name script.now actor.0 f ≡ name.now)) }
{
    let fields = field_count(script, actor);
    for field in 0..u32::MAX {
        if field as usize >= fields {
            return None;
        }
        if script.field_name(actor, field as usize) == name {
            return Some(field);
        }
    }
    None
}

// What stands before the first dot of a name, and what after it.
fn split_name(name: &[u8]) -> Option<(&[u8], &[u8])>
    ensures { IfSome result (λ x. name.now ≡ x.0.now ++ 46 ∷ x.1.now) }
{
    for place in 0..name.len() {
        if name[place] == b'.' {
            return Some((&name[..place], &name[place + 1..]));
        }
    }
    None
}

/// What a name stands for: `Actor.field` for a field, and the name of a root for its value. Linear in the names of the script.
///
/// # Errors
///
/// The script has no such actor, the actor no such field, or the script no such root.
#[tactic(auto, using(crate::proofs::NamesOf::names_field, crate::proofs::NamesOf::names_root))]
pub(crate) fn named(script: &Script, name: &[u8]) -> Result<Formula, MisreadKind>
    ensures { IfOk result (λ f. Names script.now name.now (term_of f)) }
{
    let Some((owner, field)) = split_name(name) else {
        return match root_named(script, name) {
            Some(root) => Ok(Formula::Variable(root)),
            None => Err(MisreadKind::NoRoot),
        };
    };
    let Some(actor) = actor_named(script, owner) else {
        return Err(MisreadKind::NoActor);
    };
    match field_named(script, actor, field) {
        Some(number) => Ok(Formula::Field(FieldPlace {
            actor: actor.0,
            field: number,
        })),
        None => Err(MisreadKind::NoField),
    }
}
