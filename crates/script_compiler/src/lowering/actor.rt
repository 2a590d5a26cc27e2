//! Actors: their names are in order, and become places.

ghost use Rattle.std.specs.Prelude.{◌≡◌, ◌≤◌, ◌++◌, ◌∷◌, [], List, map, IfOk, OnOk};
ghost use Rattle.std.specs.List.{AllZip};
ghost use Rattle.swift_types.specs.declared.limits.TheConstants.{BYTES};
ghost use Rattle.script_grammar.specs.Tree.{text_if, view_field, view_method, view_actor, Acts};
ghost use Rattle.script_grammar.specs.Size.{methods_size, actor_size};
ghost use Rattle.script_names.specs.Scope.{fields_alone};
ghost use Rattle.script_names.specs.Rules.{past_name_if, past_fields, past_methods, past_actor, on_error, fields_error, methods_error, actor_error, seen_after};
ghost use Rattle.script_names.specs.Finds.{Finds};
ghost use Rattle.script_compiler.specs.Compiled.{MethodView, method_of, actor_of};
ghost use Rattle.script_compiler.specs.IsCompiled.{field_view, actor_view, IsMethod};

use crate::compiled::{CompiledActor, CompiledField, CompiledMethod};
use crate::lowering::method::{invariant, method};
use crate::lowering::plan::Plan;
use script_grammar::{Actor, Field, Method, Name};
use script_names::{
    CheckError, Declared, NameErrorKind, Names, Seed, SeenNames, at_name, declared_fault,
    unless_seen, where_so,
};
use std::alloc::Global;
use swift_types::limits::ACTORS;
use swift_types::{ActorId, ExecId};

// An actor runs on an executor that is declared.
fn on(declared: &Declared, at: &mut u32, executor: &Option<Name>) -> Result<(), CheckError>
    requires { past_name_if (text_if executor.now) at.old ≤ BYTES }
    ensures finds { Finds result (on_error declared.now at.old (text_if executor.now)) }
    ensures after { OnOk result (at.new ≡ past_name_if (text_if executor.now) at.old) }
{
    match executor {
        Some(name) => at_name(at, declared_fault(declared.executor(&name.text))),
        None => Ok(()),
    }
}

// The fields of an actor are distinct.
fn fields(
    alloc: Global,
    seed: Seed,
    at: &mut u32,
    fields: &[Field],
) -> Result<Vec<CompiledField>, CheckError>
    requires { past_fields (map view_field fields.now) at.old ≤ BYTES }
    ensures finds { Finds result (fields_error [] at.old (map view_field fields.now)) }
    ensures after { OnOk result (at.new ≡ past_fields (map view_field fields.now) at.old) }
    ensures fields { IfOk result (λ v. map field_view v.items ≡ map view_field fields.now) }
{
    let mut seen = Names::new(alloc, seed);
    let mut compiled = Vec::new(alloc);
    for field in fields {
        unless_seen(&seen, at, &field.name)?;
        seen.add(alloc, &field.name.text)?;
        let name = Vec::from_slice(alloc, &field.name.text)?;
        compiled.push(CompiledField {
            name,
            start: field.start,
        })?;
    }
    Ok(compiled)
}

// The methods of an actor are distinct. They go after those of the actors before it.
fn methods(
    alloc: Global,
    plan: &Plan,
    actor: ActorId,
    at: &mut u32,
    methods: &[Method],
    all: &mut Vec<CompiledMethod>,
) -> Result<(), CheckError>
    requires names { past_methods (map view_method methods.now) at.old ≤ BYTES }
    requires size { methods_size (map view_method methods.now) ≤ BYTES }
    ensures finds { Finds result (methods_error (fields_alone plan.now.directory actor.0) [] at.old (map view_method methods.now)) }
    ensures after { OnOk result (at.new ≡ past_methods (map view_method methods.now) at.old) }
    ensures methods { OnOk result ((done : List MethodView) → AllZip IsMethod all.old.items done → AllZip IsMethod all.new.items (done ++ map (method_of plan.now actor.0) (map view_method methods.now))) }
{
    let mut seen = Names::new(alloc, plan.declared().seed());
    for next in methods {
        all.push(method(alloc, plan, actor, &seen, at, next)?)?;
        seen.add(alloc, &next.name.text)?;
    }
    Ok(())
}

/// An actor goes after those before it, and its methods after theirs. Actors are distinct, also from executors, and not too
/// many; an invariant names fields alone. Time and memory are linear in the fields, the invariant and the methods.
#[tactic(auto, using(script_names::proofs::Grows::name_if_grows, script_names::proofs::Grows::fields_grow, script_names::proofs::Grows::if_grows, script_names::proofs::Grows::methods_grow))]
pub(crate) fn actor(
    alloc: Global,
    plan: &Plan,
    seen: &mut SeenNames,
    at: &mut u32,
    actor: &Actor,
    actors: &mut Vec<CompiledActor>,
    all: &mut Vec<CompiledMethod>,
) -> Result<(), CheckError>
    requires names { past_actor (view_actor actor.now) at.old ≤ BYTES }
    requires size { actor_size (view_actor actor.now) ≤ BYTES }
    ensures finds { Finds result (actor_error plan.now.directory seen.old at.old (view_actor actor.now)) }
    ensures after { OnOk result (at.new ≡ past_actor (view_actor actor.now) at.old) }
    ensures seen { OnOk result (seen.new ≡ seen_after seen.old (Acts (view_actor actor.now))) }
    ensures actors { OnOk result (map actor_view actors.new.items ≡ map actor_view actors.old.items ++ actor_of plan.now seen.old.actors (view_actor actor.now) ∷ []) }
    ensures methods { OnOk result ((done : List MethodView) → AllZip IsMethod all.old.items done → AllZip IsMethod all.new.items (done ++ map (method_of plan.now seen.old.actors) (map view_method actor.now.methods.items))) }
{
    let mut here = *at;
    unless_seen(&seen.places, &mut here, &actor.name)?;
    let place = seen.actors;
    at_name(at, where_so(place >= ACTORS, NameErrorKind::TooMany))?;
    on(plan.declared(), at, &actor.executor)?;
    let fields = fields(alloc, plan.declared().seed(), at, &actor.fields)?;
    let invariant = invariant(alloc, plan, place, at, &actor.invariant)?;
    methods(alloc, plan, ActorId(place as u32), at, &actor.methods, all)?;
    let name = Vec::from_slice(alloc, &actor.name.text)?;
    actors.push(CompiledActor {
        name,
        executor: ExecId(plan.executor(place)),
        fields,
        invariant,
    })?;
    seen.places.add(alloc, &actor.name.text)?;
    seen.actors += 1;
    Ok(())
}
