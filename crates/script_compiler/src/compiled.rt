//! What a script is compiled to.

use script_code::{Formula, Instruction};
use swift_types::{ActorId, ExecId, ExecutorKind, MethodId, Priority};

/// A serial executor (SE-0392).
#[derive(Drop)]
pub struct CompiledExecutor {
    /// What it is called: for an actor's own executor, as the actor.
    pub name: Vec<u8>,
    /// How it takes its jobs: `Priority` for an actor's own executor.
    pub kind: ExecutorKind,
    /// The actors that run on it, in text order.
    pub actors: Vec<ActorId>,
    /// The invariants of those of its actors that have one, in the same order (our own).
    pub invariants: Vec<Formula>,
}

/// A task local (SE-0311).
#[derive(Drop)]
pub struct CompiledLocal {
    /// What it is called.
    pub name: Vec<u8>,
    /// What is read of it where it is not bound.
    pub default: i64,
}

/// A field of an actor.
#[derive(Drop)]
pub struct CompiledField {
    /// What it is called.
    pub name: Vec<u8>,
    /// Its value before the first turn.
    pub start: i64,
}

/// An actor (SE-0306).
#[derive(Drop)]
pub struct CompiledActor {
    /// What it is called.
    pub name: Vec<u8>,
    /// The executor that it runs on (SE-0392).
    pub executor: ExecId,
    /// Its fields, in text order.
    pub fields: Vec<CompiledField>,
    /// Its invariant, if it has one: a test of the fields of its executor's actors (our own).
    pub invariant: Option<Formula>,
}

/// A method of an actor, ready to run.
#[derive(Drop)]
pub struct CompiledMethod {
    /// What it is called.
    pub name: Vec<u8>,
    /// The actor that it is of.
    pub actor: ActorId,
    /// How many parameters it has: the first of its numbers.
    pub params: u32,
    /// How many numbers a frame of it has: parameters and variables.
    pub numbers: u32,
    /// How many handles a frame of it has: task variables and groups.
    pub handles: u32,
    /// What there is to do, from instruction 0 on.
    pub instructions: Vec<Instruction>,
}

/// A task that a run starts with (our own).
#[derive(Drop)]
pub struct CompiledRoot {
    /// What it is called.
    pub name: Vec<u8>,
    /// The method that it runs.
    pub method: MethodId,
    /// The method's arguments, in order.
    pub args: Vec<i64>,
    /// Its priority.
    pub priority: Priority,
}

/// All that a run needs of a script. Each thing stands at the place that its number says: executors, task locals, actors and
/// roots are numbered in text order, the declared executors before those that actors have of their own, and methods actor
/// by actor.
pub struct Compiled {
    /// The executors, the declared ones first.
    pub executors: Vec<CompiledExecutor>,
    /// The task locals.
    pub locals: Vec<CompiledLocal>,
    /// The actors.
    pub actors: Vec<CompiledActor>,
    /// The methods of all actors.
    pub methods: Vec<CompiledMethod>,
    /// The roots.
    pub roots: Vec<CompiledRoot>,
}

impl Drop for Compiled {
    fn drop(self) {
        let Compiled {
            executors,
            locals,
            actors,
            methods,
            roots,
        } = self;
        drop(executors);
        drop(locals);
        drop(actors);
        drop(methods);
        drop(roots);
    }
}
