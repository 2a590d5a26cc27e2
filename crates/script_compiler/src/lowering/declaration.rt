//! Declarations, in the order of the text: their names are in order, and each is compiled.

ghost use Rattle.std.specs.Prelude.{◌≡◌, ◌<◌, ◌≤◌, ◌++◌, ◌∷◌, [], map, suc, IfOk, OnOk};
ghost use Rattle.std.specs.List.{AllZip};
ghost use Rattle.swift_types.specs.declared.limits.TheConstants.{BYTES};
ghost use Rattle.script_grammar.specs.Tree.{view_executor, view_local, view_root, view_decl, Executes, Binds, Roots};
ghost use Rattle.script_grammar.specs.Size.{decl_size, script_size};
ghost use Rattle.script_names.specs.Rules.{past_decl, names_in, kind_error, executor_error, root_error, repeat_error, decl_error, seen_after, declarations_error};
ghost use Rattle.script_names.specs.Finds.{Finds};
ghost use Rattle.script_printing.specs.Script.{script_in};
ghost use Rattle.script_compiler.specs.Compiled.{root_of, actors_from, methods_from};
ghost use Rattle.script_compiler.specs.IsCompiled.{local_view, actor_view, root_view, IsMethod};
ghost use Rattle.script_compiler.specs.PartsInside.{ArePartsAfter};

use crate::compiled::{
    Compiled, CompiledActor, CompiledExecutor, CompiledLocal, CompiledMethod, CompiledRoot,
};
use crate::lowering::actor::actor;
use crate::lowering::call::target;
use crate::lowering::plan::Plan;
use script_grammar::{Decl, Executor, Local, Root};
use script_names::{CheckError, NameErrorKind, SeenNames, at_name, unless_seen, where_so};
use std::alloc::Global;
use swift_types::ExecutorKind;
use swift_types::limits::{EXECUTORS, TASKS, WORKERS};

/// What declarations are compiled to, but for their executors.
pub(crate) struct Parts {
    /// The task locals.
    pub locals: Vec<CompiledLocal>,
    /// The actors.
    pub actors: Vec<CompiledActor>,
    /// The methods of all actors.
    pub methods: Vec<CompiledMethod>,
    /// The roots.
    pub roots: Vec<CompiledRoot>,
}

impl Drop for Parts {
    fn drop(self) {
        let Parts {
            locals,
            actors,
            methods,
            roots,
        } = self;
        drop(locals);
        drop(actors);
        drop(methods);
        drop(roots);
    }
}

impl Parts {
    /// With the executors too.
    pub(crate) fn with_executors(self, executors: Vec<CompiledExecutor>) -> Compiled
        ensures { result ≡ record { executors = executors; locals = self.locals; actors = self.actors; methods = self.methods; roots = self.roots } }
    {
        let Parts {
            locals,
            actors,
            methods,
            roots,
        } = self;
        Compiled {
            executors,
            locals,
            actors,
            methods,
            roots,
        }
    }
}

// A worker's number is below the greatest number of workers.
fn kind(at: &mut u32, kind: ExecutorKind) -> Result<(), CheckError>
    requires { at.old < BYTES }
    ensures finds { Finds result (kind_error at.old kind) }
    ensures after { OnOk result (at.new ≡ suc at.old) }
{
    let is_too_great = match kind {
        ExecutorKind::Pinned(worker) => worker >= WORKERS as i64,
        ExecutorKind::Priority | ExecutorKind::Fifo => false,
    };
    at_name(at, where_so(is_too_great, NameErrorKind::TooGreat))
}

// Executors are distinct, also from actors, and not too many.
fn executor(
    alloc: Global,
    seen: &mut SeenNames,
    at: &mut u32,
    executor: &Executor,
) -> Result<(), CheckError>
    requires { at.old < BYTES }
    ensures finds { Finds result (executor_error seen.old at.old (view_executor executor.now)) }
    ensures after { OnOk result (at.new ≡ suc at.old) }
    ensures seen { OnOk result (seen.new ≡ seen_after seen.old (Executes (view_executor executor.now))) }
{
    let mut here = *at;
    unless_seen(&seen.places, &mut here, &executor.name)?;
    let mut here = *at;
    let is_one_more = seen.executors >= EXECUTORS;
    at_name(&mut here, where_so(is_one_more, NameErrorKind::TooMany))?;
    kind(at, executor.kind)?;
    seen.places.add(alloc, &executor.name.text)?;
    seen.executors += 1;
    Ok(())
}

// Task locals are distinct.
fn local(
    alloc: Global,
    seen: &mut SeenNames,
    at: &mut u32,
    local: &Local,
) -> Result<CompiledLocal, CheckError>
    requires { at.old < BYTES }
    ensures finds { Finds result (repeat_error seen.old.locals at.old (view_local local.now).name) }
    ensures after { OnOk result (at.new ≡ suc at.old) }
    ensures seen { OnOk result (seen.new ≡ seen_after seen.old (Binds (view_local local.now))) }
    ensures local { IfOk result (λ l. local_view l ≡ view_local local.now) }
{
    unless_seen(&seen.locals, at, &local.name)?;
    seen.locals.add(alloc, &local.name.text)?;
    let name = Vec::from_slice(alloc, &local.name.text)?;
    Ok(CompiledLocal {
        name,
        default: local.default,
    })
}

// Roots are distinct and not too many, and each calls a method.
fn root(
    alloc: Global,
    plan: &Plan,
    seen: &mut SeenNames,
    at: &mut u32,
    root: &Root,
) -> Result<CompiledRoot, CheckError>
    requires { past_decl (Roots (view_root root.now)) at.old ≤ BYTES }
    ensures finds { Finds result (root_error plan.now.directory seen.old at.old (view_root root.now)) }
    ensures after { OnOk result (at.new ≡ past_decl (Roots (view_root root.now)) at.old) }
    ensures seen { OnOk result (seen.new ≡ seen_after seen.old (Roots (view_root root.now))) }
    ensures root { IfOk result (λ r. root_view r ≡ root_of plan.now (view_root root.now)) }
{
    let mut here = *at;
    unless_seen(&seen.roots, &mut here, &root.name)?;
    let is_one_more = seen.roots.len() >= TASKS;
    at_name(at, where_so(is_one_more, NameErrorKind::TooMany))?;
    let declared = plan.declared();
    let (_, method) = target(
        alloc,
        declared,
        at,
        &root.actor,
        &root.method,
        root.args.len(),
    )?;
    seen.roots.add(alloc, &root.name.text)?;
    let name = Vec::from_slice(alloc, &root.name.text)?;
    let args = Vec::from_slice(alloc, &root.args)?;
    Ok(CompiledRoot {
        name,
        method,
        args,
        priority: root.priority,
    })
}

// The names of a declaration are in order, and its own is seen from then on. What it is compiled to goes after the others.
fn declaration(
    alloc: Global,
    plan: &Plan,
    seen: &mut SeenNames,
    at: &mut u32,
    decl: &Decl,
    parts: &mut Parts,
) -> Result<(), CheckError>
    requires names { past_decl (view_decl decl.now) at.old ≤ BYTES }
    requires size { decl_size (view_decl decl.now) ≤ BYTES }
    ensures finds { Finds result (decl_error plan.now.directory seen.old at.old (view_decl decl.now)) }
    ensures after { OnOk result (at.new ≡ past_decl (view_decl decl.now) at.old) }
    ensures seen { OnOk result (seen.new ≡ seen_after seen.old (view_decl decl.now)) }
    ensures parts { OnOk result (ArePartsAfter plan.now seen.old.actors (script_in (view_decl decl.now ∷ [])) parts.old parts.new) }
{
    match decl {
        Decl::Executor(next) => executor(alloc, seen, at, next),
        Decl::Local(next) => Ok(parts.locals.push(local(alloc, seen, at, next)?)?),
        Decl::Actor(next) => actor(
            alloc,
            plan,
            seen,
            at,
            next,
            &mut parts.actors,
            &mut parts.methods,
        ),
        Decl::Root(next) => Ok(parts.roots.push(root(alloc, plan, seen, at, next)?)?),
    }
}

/// What the declarations are compiled to, where their names are in order, but for their executors. Linear in the declarations
/// and all within them, and for each `assume` in the fields of its actor or in the names of the method that are new since
/// that actor was last assumed, whichever are fewer.
pub(crate) fn declarations(alloc: Global, plan: &Plan, decls: &[Decl]) -> Result<Parts, CheckError>
    requires names { names_in (map view_decl decls.now) ≤ BYTES }
    requires size { script_size (map view_decl decls.now) ≤ BYTES }
    ensures finds { Finds result (declarations_error plan.now.directory (record { places = []; locals = []; roots = []; executors = 0; actors = 0 }) 0 (map view_decl decls.now)) }
    ensures locals { IfOk result (λ p. map local_view p.locals.items ≡ (script_in (map view_decl decls.now)).locals) }
    ensures actors { IfOk result (λ p. map actor_view p.actors.items ≡ actors_from plan.now 0 (script_in (map view_decl decls.now)).actors) }
    ensures methods { IfOk result (λ p. AllZip IsMethod p.methods.items (methods_from plan.now 0 (script_in (map view_decl decls.now)).actors)) }
    ensures roots { IfOk result (λ p. map root_view p.roots.items ≡ map (root_of plan.now) (script_in (map view_decl decls.now)).roots) }
{
    let mut seen = SeenNames::nothing(alloc, plan.declared().seed());
    let mut at = 0;
    let mut parts = Parts {
        locals: Vec::new(alloc),
        actors: Vec::new(alloc),
        methods: Vec::new(alloc),
        roots: Vec::new(alloc),
    };
    for decl in decls {
        declaration(alloc, plan, &mut seen, &mut at, decl, &mut parts)?;
    }
    Ok(parts)
}
