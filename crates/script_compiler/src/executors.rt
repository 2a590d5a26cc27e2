//! Executors, and the actors of each.

ghost use Rattle.std.specs.Prelude.{◌≡◌, ◌≤◌, ◌++◌, ◌∷◌, [], All, length, map, slice_get, IfOk, OnOk};
ghost use Rattle.swift_types.specs.declared.limits.TheConstants.{ACTORS};
ghost use Rattle.script_grammar.specs.Tree.{view_decl};
ghost use Rattle.script_printing.specs.Script.{script_in};
ghost use Rattle.script_code.specs.Seen.{term_if_lent};
ghost use Rattle.script_code.specs.Tree.{terms_of};
ghost use Rattle.script_compiler.specs.Compiled.{own_executors, invariant_if, term_list, invariants_among};
ghost use Rattle.script_compiler.specs.IsCompiled.{actor_number, actor_view, executor_view, HasInvariants};
ghost use Rattle.script_compiler.specs.MembersInside.{members_below, executors_by};

use crate::compiled::{CompiledActor, CompiledExecutor};
use crate::copy::copy_formula;
use crate::lowering::Plan;
use script_code::Formula;
use script_grammar::Decl;
use std::alloc::{AllocError, Global};
use swift_types::{ActorId, ExecutorKind};

// The actors of an executor, among the first `actors` of the script.
fn members(
    alloc: Global,
    plan: &Plan,
    executor: usize,
    actors: usize,
) -> Result<Vec<ActorId>, AllocError>
    requires { actors ≤ ACTORS }
    ensures { IfOk result (λ v. map actor_number v.items ≡ members_below plan.now executor 0 actors) }
{
    let mut members = Vec::new(alloc);
    for actor in 0..actors {
        if plan.executor(actor) as usize == executor {
            members.push(ActorId(actor as u32))?;
        }
    }
    Ok(members)
}

// The invariant of an actor, if there is one.
fn invariant_of(actors: &[CompiledActor], actor: ActorId) -> Option<&Formula>
    ensures { term_if_lent result ≡ invariant_if (slice_get (map actor_view actors.now) actor.0) }
{
    match actors.get(actor.0 as usize) {
        Some(actor) => actor.invariant.as_ref(),
        None => None,
    }
}

// One formula more, if there is one.
fn add_copy(
    alloc: Global,
    formula: Option<&Formula>,
    all: &mut Vec<Formula>,
) -> Result<(), AllocError>
    ensures { OnOk result (terms_of all.new.items ≡ terms_of all.old.items ++ term_list (term_if_lent formula.entry)) }
{
    let Some(formula) = formula else {
        return Ok(());
    };
    all.push(copy_formula(alloc, formula)?)?;
    Ok(())
}

// The invariants of these actors, in order.
fn invariants(
    alloc: Global,
    actors: &[CompiledActor],
    members: &[ActorId],
) -> Result<Vec<Formula>, AllocError>
    ensures { IfOk result (λ v. terms_of v.items ≡ invariants_among (map actor_view actors.now) (map actor_number members.now)) }
{
    let mut invariants = Vec::new(alloc);
    for member in members {
        add_copy(alloc, invariant_of(actors, *member), &mut invariants)?;
    }
    Ok(invariants)
}

fn executor(
    alloc: Global,
    plan: &Plan,
    actors: &[CompiledActor],
    place: usize,
    name: &[u8],
    kind: ExecutorKind,
) -> Result<CompiledExecutor, AllocError>
    requires { length actors.now ≤ ACTORS }
    ensures view { IfOk result (λ x. executor_view x ≡ record { name = name.now; kind = kind; actors = members_below plan.now place 0 (length actors.now) }) }
    ensures invariants { IfOk result (HasInvariants (map actor_view actors.now)) }
{
    let name = Vec::from_slice(alloc, name)?;
    let members = members(alloc, plan, place, actors.len())?;
    let invariants = invariants(alloc, actors, &members)?;
    Ok(CompiledExecutor {
        name,
        kind,
        actors: members,
        invariants,
    })
}

// One executor more.
fn add(
    alloc: Global,
    plan: &Plan,
    actors: &[CompiledActor],
    name: &[u8],
    kind: ExecutorKind,
    all: &mut Vec<CompiledExecutor>,
) -> Result<(), AllocError>
    requires actors { length actors.now ≤ ACTORS }
    requires invariants { All (HasInvariants (map actor_view actors.now)) all.old.items }
    ensures view { OnOk result (map executor_view all.new.items ≡ map executor_view all.old.items ++ record { name = name.now; kind = kind; actors = members_below plan.now (length all.old.items) 0 (length actors.now) } ∷ []) }
    ensures invariants { OnOk result (All (HasInvariants (map actor_view actors.now)) all.new.items) }
{
    let made = executor(alloc, plan, actors, all.len(), name, kind)?;
    all.push(made)?;
    Ok(())
}

// The executors that are declared.
fn compile_declared(
    alloc: Global,
    plan: &Plan,
    actors: &[CompiledActor],
    decls: &[Decl],
) -> Result<Vec<CompiledExecutor>, AllocError>
    requires { length actors.now ≤ ACTORS }
    ensures view { IfOk result (λ v. map executor_view v.items ≡ executors_by plan.now (length actors.now) 0 (script_in (map view_decl decls.now)).executors) }
    ensures invariants { IfOk result (λ v. All (HasInvariants (map actor_view actors.now)) v.items) }
{
    let mut all = Vec::new(alloc);
    for decl in decls {
        if let Decl::Executor(executor) = decl {
            let name = &executor.name.text;
            add(alloc, plan, actors, name, executor.kind, &mut all)?;
        }
    }
    Ok(all)
}

// The executors that actors have of their own.
fn add_own(
    alloc: Global,
    plan: &Plan,
    actors: &[CompiledActor],
    decls: &[Decl],
    all: &mut Vec<CompiledExecutor>,
) -> Result<(), AllocError>
    requires actors { length actors.now ≤ ACTORS }
    requires invariants { All (HasInvariants (map actor_view actors.now)) all.old.items }
    ensures view { OnOk result (map executor_view all.new.items ≡ map executor_view all.old.items ++ executors_by plan.now (length actors.now) (length all.old.items) (own_executors (script_in (map view_decl decls.now)).actors)) }
    ensures invariants { OnOk result (All (HasInvariants (map actor_view actors.now)) all.new.items) }
{
    for decl in decls {
        if let Decl::Actor(actor) = decl
            && actor.executor.is_none()
        {
            let name = &actor.name.text;
            add(alloc, plan, actors, name, ExecutorKind::Priority, all)?;
        }
    }
    Ok(())
}

/// The executors of a script whose actors are these, the declared ones first. Linear in the declarations and in the
/// invariants, and for the actors of each in the pairs of executors and actors, of which there are 128 and 64 at most.
pub(crate) fn compile_executors(
    alloc: Global,
    plan: &Plan,
    actors: &[CompiledActor],
    decls: &[Decl],
) -> Result<Vec<CompiledExecutor>, AllocError>
    requires { length actors.now ≤ ACTORS }
    ensures view { let tree = script_in (map view_decl decls.now) in
        IfOk result (λ v. map executor_view v.items ≡ executors_by plan.now (length actors.now) 0 (tree.executors ++ own_executors tree.actors)) }
    ensures invariants { IfOk result (λ v. All (HasInvariants (map actor_view actors.now)) v.items) }
{
    let mut all = compile_declared(alloc, plan, actors, decls)?;
    add_own(alloc, plan, actors, decls, &mut all)?;
    Ok(all)
}
