//! What lowering knows of a whole script.

ghost use Rattle.std.specs.Prelude.{◌≡◌, ◌==◌, ◌+◌, ◌<◌, ◌≤◌, ℕ, ◌∷◌, ◌++◌, length, map, take, slice_get, unwrap_or, count_by, List, IfOk, OnOk};
ghost use Rattle.swift_types.specs.declared.limits.TheConstants.{ACTORS, BYTES};
ghost use Rattle.script_grammar.specs.Tree.{DeclTree, text_if, view_decl};
ghost use Rattle.script_names.specs.Texts.{place_of};
ghost use Rattle.script_compiler.specs.Few.{HasFewNames};
ghost use Rattle.script_compiler.specs.Plan.{AreActorPlaces, defaults_in, executors_from, on_executor, executor_at, actor_place_in, actor_place_of};
ghost use Rattle.script_compiler.specs.Lowered.{default_of};

use script_grammar::{Decl, Name};
use script_names::Declared;
use std::alloc::{AllocError, Global};
use std::marker::Model;
use swift_types::LocalId;
use swift_types::limits::ACTORS;

/// What lowering knows of a whole script: what it declares, the defaults of its task locals, and for each actor its
/// executor and its place among the actors of that executor.
pub struct Plan {
    declared: Declared,
    defaults: Vec<i64>,
    executors: Vec<u32>,
    actor_places: Vec<u32>,
}

impl Drop for Plan {
    fn drop(self) {
        let Plan {
            declared,
            defaults,
            executors,
            actor_places,
        } = self;
        drop(declared);
        drop(defaults);
        drop(executors);
        drop(actor_places);
    }
}

impl Model for Plan {
    ghost use Rattle.script_compiler.specs.Plan.{PlanView};
    ghost use Rattle.script_compiler.specs.PlanInside.{IsSmallPlan};

    ghost Value = { PlanView };

    ghost view = { λ p. record { directory = p.declared; defaults = p.defaults.items; executors = p.executors.items } };

    ghost invariant = { λ p. IsSmallPlan p.declared p.executors.items p.actor_places.items };
}

impl Plan {
    /// The plan of a script, from what it declares: that of its first actors, of which there may be 64. Linear in the
    /// declarations, and for these places in the pairs of actors. `Err` says that there was no memory.
    pub(crate) fn of(alloc: Global, declared: Declared, decls: &[Decl]) -> Result<Plan, AllocError>
        // All that they declare has numbers of 32 bits.
        requires names { HasFewNames declared }
        ensures directory { IfOk result (λ p. p.directory ≡ declared) }
        ensures defaults { IfOk result (λ p. p.defaults ≡ defaults_in (map view_decl decls.now)) }
        ensures executors { IfOk result (λ p. p.executors ≡ take ACTORS (executors_from declared.executors (length declared.executors) (map view_decl decls.now))) }
    {
        let defaults = defaults(alloc, decls)?;
        let executors = executors(alloc, &declared, decls)?;
        let actor_places = actor_places(alloc, &executors)?;
        Ok(Plan {
            declared,
            defaults,
            executors,
            actor_places,
        })
    }

    /// What the script declares.
    pub fn declared(&self) -> &Declared
        ensures directory { result.now ≡ self.now.directory }
        ensures few { HasFewNames result.now }
    {
        &self.declared
    }

    /// The executor of the actor at a place, or 0 where there is no such actor.
    pub fn executor(&self, actor: usize) -> u32
        ensures { result ≡ executor_at self.now actor }
    {
        executor_at(&self.executors, actor)
    }

    /// The place of an actor among those of its executor, in constant time. One that is not there would come after all those of
    /// executor 0.
    pub fn actor_place(&self, actor: usize) -> u32
        ensures { result ≡ actor_place_of self.now actor }
    {
        match self.actor_places.get(actor) {
            Some(place) => *place,
            None => actor_place_in(&self.executors, actor) as u32,
        }
    }

    /// A task local, and its default.
    #[tactic(auto, unfolding(crate::specs::Lowered::default_of))]
    pub(crate) fn local(&self, name: &[u8]) -> (LocalId, i64)
        ensures number { result.0.0 ≡ place_of self.now.directory.locals name.now }
        ensures default { result.1 ≡ default_of self.now name.now }
    {
        let place = self.declared.local_or_len(name);
        let default = self.defaults.get(place).copied().unwrap_or(0);
        (LocalId(place as u32), default)
    }
}

fn defaults(alloc: Global, decls: &[Decl]) -> Result<Vec<i64>, AllocError>
    ensures { IfOk result (λ v. v.items ≡ defaults_in (map view_decl decls.now)) }
{
    let mut defaults = Vec::new(alloc);
    for decl in decls {
        if let Decl::Local(local) = decl {
            defaults.push(local.default)?;
        }
    }
    Ok(defaults)
}

// The executor of each of the first actors. Those without one have their own, after the declared ones.
fn executors(alloc: Global, declared: &Declared, decls: &[Decl]) -> Result<Vec<u32>, AllocError>
    requires { length declared.now.executors ≤ BYTES }
    ensures executors { IfOk result (λ v. v.items ≡ take ACTORS (executors_from declared.now.executors (length declared.now.executors) (map view_decl decls.now))) }
    ensures few { IfOk result (λ v. length v.items ≤ ACTORS) }
{
    let mut executors = Vec::new(alloc);
    let mut own = declared.executor_count() as u32;
    for decl in decls {
        if executors.len() < ACTORS {
            own = add_executor(declared, own, decl, &mut executors)?;
        }
    }
    Ok(executors)
}

// The executor of one actor more, where the declaration is one. The answer is the number that the next actor's own executor has.
fn add_executor(
    declared: &Declared,
    own: u32,
    decl: &Decl,
    executors: &mut Vec<u32>,
) -> Result<u32, AllocError>
    requires executors { length declared.now.executors ≤ BYTES }
    requires own { own < BYTES + ACTORS }
    ensures executors { IfOk result (λ next. (others : List DeclTree) → executors.new.items ++ executors_from declared.now.executors next others ≡ executors.old.items ++ executors_from declared.now.executors own (view_decl decl.now ∷ others)) }
    ensures own { IfOk result (λ next. next + length executors.old.items ≤ own + length executors.new.items) }
    ensures most { OnOk result (length executors.new.items ≤ length executors.old.items + 1) }
{
    let Decl::Actor(actor) = decl else {
        return Ok(own);
    };
    let (executor, next) = executor_on(declared, own, &actor.executor);
    executors.push(executor)?;
    Ok(next)
}

// An actor's executor, and the number that the next actor's own executor has.
fn executor_on(declared: &Declared, own: u32, on: &Option<Name>) -> (u32, u32)
    requires executors { length declared.now.executors ≤ BYTES }
    requires own { own < BYTES + ACTORS }
    ensures executor { (others : ℕ → List ℕ) → on_executor declared.now.executors own (text_if on.now) others ≡ result.0 ∷ others result.1 }
    ensures next { result.1 ≤ own + 1 }
{
    match on {
        None => (own, own + 1),
        Some(name) => (declared.executor_or_len(&name.text) as u32, own),
    }
}

fn actor_places(alloc: Global, executors: &[u32]) -> Result<Vec<u32>, AllocError>
    requires { length executors.now ≤ ACTORS }
    ensures { IfOk result (λ v. AreActorPlaces executors.now v.items) }
{
    let mut actor_places = Vec::new(alloc);
    for actor in 0..executors.len() {
        actor_places.push(actor_place_in(executors, actor) as u32)?;
    }
    Ok(actor_places)
}

// The executor of the actor at a place, or 0 where there is no such actor.
fn executor_at(executors: &[u32], actor: usize) -> u32
    ensures { result ≡ unwrap_or (slice_get executors.now actor) 0 }
{
    executors.get(actor).copied().unwrap_or(0)
}

// How often an executor stands among others.
fn count_of(executors: &[u32], own: u32) -> usize
    ensures count { result ≡ count_by (λ e. e == own) executors.now }
    ensures most { result ≤ length executors.now }
{
    executors.iter().filter(|e| **e == own).count()
}

fn actor_place_in(executors: &[u32], actor: usize) -> usize
    ensures place { result ≡ actor_place_in executors.now actor }
    ensures most { result ≤ length executors.now }
{
    let own = executor_at(executors, actor);
    count_of(&executors[..actor.min(executors.len())], own)
}
