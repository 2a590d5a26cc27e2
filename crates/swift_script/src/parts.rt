//! What there is in a script, by numbers. Each call takes constant time and no memory.

ghost use Rattle.std.specs.Prelude.{◌≡◌, ◌<◌, map, IfOk};
ghost use Rattle.script_code.specs.Instructions.{FollowsCode};
ghost use Rattle.script_code.specs.Layout.{code_at};
ghost use Rattle.script_code.specs.Seen.{rows_of, term_if_lent};
ghost use Rattle.script_code.specs.Tree.{terms_of};
ghost use Rattle.script_compiler.specs.IsCompiled.{actor_number, field_view};
ghost use Rattle.swift_script.specs.LentInside.{field_lent};
ghost use Rattle.swift_script.specs.Scripts.{executor_name, executor_kind, executor_actors, executor_invariants, executor_start, local_name, actor_name, actor_executor, actor_fields, field_at, field_name, actor_invariant, method_count, method_name, method_actor, method_params, method_numbers, method_handles, method_code, root_name, root_method, root_args, root_priority};

use crate::script::Script;
use script_code::{Formula, Instruction};
use script_compiler::CompiledField;
use std::alloc::{AllocError, Global};
use swift_types::{ActorId, ExecId, ExecutorKind, LocalId, MethodId, Priority, RootId};

impl Script {
    /// The name of an executor (SE-0392), which for an actor's own is that of the actor; empty for one that the script
    /// lacks.
    pub fn executor_name(&self, executor: ExecId) -> &[u8]
        ensures { result.now ≡ executor_name self.now executor.0 }
    {
        match self.executor(executor) {
            Some(found) => &found.name,
            None => &[],
        }
    }

    /// How an executor takes its jobs; by priority for one that the script lacks.
    pub fn executor_kind(&self, executor: ExecId) -> ExecutorKind
        ensures { result ≡ executor_kind self.now executor.0 }
    {
        match self.executor(executor) {
            Some(found) => found.kind,
            None => ExecutorKind::Priority,
        }
    }

    /// The actors that run on an executor (SE-0392), in text order; none for one that the script lacks.
    pub fn executor_actors(&self, executor: ExecId) -> &[ActorId]
        ensures { map actor_number result.now ≡ executor_actors self.now executor.0 }
    {
        match self.executor(executor) {
            Some(found) => &found.actors,
            None => &[],
        }
    }

    /// The name of a task local (SE-0311); empty for one that the script lacks.
    pub fn local_name(&self, local: LocalId) -> &[u8]
        ensures { result.now ≡ local_name self.now local.0 }
    {
        match self.local(local) {
            Some(found) => &found.name,
            None => &[],
        }
    }

    /// The name of an actor (SE-0306); empty for one that the script lacks.
    pub fn actor_name(&self, actor: ActorId) -> &[u8]
        ensures { result.now ≡ actor_name self.now actor.0 }
    {
        match self.actor(actor) {
            Some(found) => &found.name,
            None => &[],
        }
    }

    /// The executor that an actor runs on (SE-0392); the first one for an actor that the script lacks.
    pub fn actor_executor(&self, actor: ActorId) -> ExecId
        ensures { result.0 ≡ actor_executor self.now actor.0 }
    {
        match self.actor(actor) {
            Some(found) => found.executor,
            None => ExecId(0),
        }
    }

    /// The fields of an actor with what they start with, in text order; none for an actor that the script lacks.
    pub fn actor_fields(&self, actor: ActorId) -> &[CompiledField]
        ensures { map field_view result.now ≡ actor_fields self.now actor.0 }
    {
        match self.actor(actor) {
            Some(found) => &found.fields,
            None => &[],
        }
    }

    fn field(&self, actor: ActorId, field: usize) -> Option<&CompiledField>
        ensures { field_lent result ≡ field_at self.now actor.0 field }
    {
        self.actor_fields(actor).get(field)
    }

    /// The name of a field, by its number among the fields of its actor, from 0 in text order; empty for one that the
    /// script lacks.
    pub fn field_name(&self, actor: ActorId, field: usize) -> &[u8]
        ensures { result.now ≡ field_name self.now actor.0 field }
    {
        match self.field(actor, field) {
            Some(found) => &found.name,
            None => &[],
        }
    }

    /// The invariant of an actor, if it has one: a test of the fields of its executor's actors (our own).
    pub fn actor_invariant(&self, actor: ActorId) -> Option<&Formula>
        ensures { term_if_lent result ≡ actor_invariant self.now actor.0 }
    {
        match self.actor(actor) {
            Some(found) => found.invariant.as_ref(),
            None => None,
        }
    }

    /// The name of a method.
    pub fn method_name(&self, method: MethodId) -> &[u8]
        requires { method.0 < method_count self.now }
        ensures { result.now ≡ method_name self.now method.0 }
    {
        &self.method(method).name
    }

    /// The actor that a method is of.
    pub fn method_actor(&self, method: MethodId) -> ActorId
        requires { method.0 < method_count self.now }
        ensures { result.0 ≡ method_actor self.now method.0 }
    {
        self.method(method).actor
    }

    /// How many parameters a method has: the first of its numbers.
    pub fn method_params(&self, method: MethodId) -> u32
        requires { method.0 < method_count self.now }
        ensures { result ≡ method_params self.now method.0 }
    {
        self.method(method).params
    }

    /// How many places for numbers a frame of a method has: as many as parameters and variables stand at once at most.
    pub fn method_numbers(&self, method: MethodId) -> u32
        requires { method.0 < method_count self.now }
        ensures { result ≡ method_numbers self.now method.0 }
    {
        self.method(method).numbers
    }

    /// How many places for handles a frame of a method has: as many as task variables and groups stand at once at most.
    pub fn method_handles(&self, method: MethodId) -> u32
        requires { method.0 < method_count self.now }
        ensures { result ≡ method_handles self.now method.0 }
    {
        self.method(method).handles
    }

    /// A method as numbered instructions. To follow them from number 0 on is to do the method's statements.
    pub fn instructions(&self, method: MethodId) -> &[Instruction]
        requires { method.0 < method_count self.now }
        ensures { FollowsCode result.now (method_code self.now method.0) (code_at (method_code self.now method.0)) }
    {
        &self.method(method).instructions
    }

    /// The name of a root (our own); empty for one that the script lacks.
    pub fn root_name(&self, root: RootId) -> &[u8]
        ensures { result.now ≡ root_name self.now root.0 }
    {
        match self.root(root) {
            Some(found) => &found.name,
            None => &[],
        }
    }

    /// The method that a root runs; the first one for a root that the script lacks.
    pub fn root_method(&self, root: RootId) -> MethodId
        ensures { result.0 ≡ root_method self.now root.0 }
    {
        match self.root(root) {
            Some(found) => found.method,
            None => MethodId(0),
        }
    }

    /// The arguments of the method that a root runs; none for a root that the script lacks.
    pub fn root_args(&self, root: RootId) -> &[i64]
        ensures { result.now ≡ root_args self.now root.0 }
    {
        match self.root(root) {
            Some(found) => &found.args,
            None => &[],
        }
    }

    /// The priority of a root's task; medium for a root that the script lacks.
    pub fn root_priority(&self, root: RootId) -> Priority
        ensures { result ≡ root_priority self.now root.0 }
    {
        match self.root(root) {
            Some(found) => found.priority,
            None => Priority::Medium,
        }
    }
}
