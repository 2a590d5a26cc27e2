//! What fields start with, and the invariants at the start.

ghost use Rattle.std.specs.Prelude.{◌≡◌, ℕ, map, slice_get, IfOk};
ghost use Rattle.script_code.specs.Seen.{rows_of};
ghost use Rattle.script_code.specs.Tree.{terms_of};
ghost use Rattle.script_code.specs.Value.{holds as it_holds};
ghost use Rattle.script_compiler.specs.Compiled.{CompiledView, executor_invariants};
ghost use Rattle.script_compiler.specs.IsCompiled.{actor_number, actor_view, executor_view, field_view, IsCompiled};
ghost use Rattle.script_compiler.specs.Starts.{start_if, starts_at, first_false_from};
ghost use Rattle.script_compiler.specs.RowsInside.{rows_among, rows_in, rows_at, all_rows_of, first_false_in};

use crate::compiled::{Compiled, CompiledActor, CompiledExecutor, CompiledField};
use script_code::{Formula, holds};
use std::alloc::{AllocError, Global};
use swift_types::{ActorId, ExecId};

impl Compiled {
    /// The invariants of an executor's actors, in the order of the actors and in constant time; none for an executor that
    /// is not there.
    pub fn invariants(&self, executor: ExecId) -> &[Formula]
        ensures { (v : CompiledView) → IsCompiled self.now v → terms_of result.now ≡ executor_invariants v executor.0 }
    {
        match self.executors.get(executor.0 as usize) {
            Some(executor) => &executor.invariants,
            None => &[],
        }
    }

    /// What the fields of an executor's actors start with, a row for each actor, in time and memory linear in them; none
    /// for an executor that is not there. `Err` says that there was no memory.
    pub fn start_rows(&self, alloc: Global, executor: ExecId) -> Result<Vec<Vec<i64>>, AllocError>
        ensures { IfOk result (λ rows. (v : CompiledView) → IsCompiled self.now v → rows_of rows.items ≡ starts_at v executor.0) }
    {
        match self.executors.get(executor.0 as usize) {
            Some(executor) => rows(alloc, &self.actors, &executor.actors),
            None => Ok(Vec::new(alloc)),
        }
    }
}

// What these fields start with.
fn starts(alloc: Global, fields: &[CompiledField]) -> Result<Vec<i64>, AllocError>
    ensures { IfOk result (λ v. v.items ≡ map (λ f. f.start) (map field_view fields.now)) }
{
    let mut row = Vec::with_capacity(alloc, fields.len())?;
    for field in fields {
        row.push(field.start)?;
    }
    Ok(row)
}

// What the fields of an actor start with; none for an actor that is not there.
fn row(alloc: Global, actors: &[CompiledActor], actor: ActorId) -> Result<Vec<i64>, AllocError>
    ensures { IfOk result (λ v. v.items ≡ start_if (slice_get (map actor_view actors.now) actor.0)) }
{
    match actors.get(actor.0 as usize) {
        Some(actor) => starts(alloc, &actor.fields),
        None => Ok(Vec::new(alloc)),
    }
}

// What the fields of these actors start with.
fn rows(
    alloc: Global,
    actors: &[CompiledActor],
    members: &[ActorId],
) -> Result<Vec<Vec<i64>>, AllocError>
    ensures { IfOk result (λ v. rows_of v.items ≡ rows_among (map actor_view actors.now) (map actor_number members.now)) }
{
    let mut rows = Vec::with_capacity(alloc, members.len())?;
    for member in members {
        rows.push(row(alloc, actors, *member)?)?;
    }
    Ok(rows)
}

// What the fields of each executor's actors start with.
fn all_rows(
    alloc: Global,
    executors: &[CompiledExecutor],
    actors: &[CompiledActor],
) -> Result<Vec<Vec<Vec<i64>>>, AllocError>
    ensures { IfOk result (λ v. all_rows_of v.items ≡ rows_in (map executor_view executors.now) (map actor_view actors.now)) }
{
    let mut all = Vec::with_capacity(alloc, executors.len())?;
    for executor in executors {
        all.push(rows(alloc, actors, &executor.actors)?)?;
    }
    Ok(all)
}

// Whether an actor's invariant, if it has one, holds of its executor's rows.
fn starts_well(alloc: Global, all: &[Vec<Vec<i64>>], actor: &CompiledActor) -> bool
    ensures { result ≡ it_holds (actor_view actor.now).invariant (rows_at (all_rows_of all.now) actor.now.executor.0) }
{
    let invariant = actor.invariant.as_ref();
    match all.get(actor.executor.0 as usize) {
        Some(rows) => holds(alloc, invariant, rows),
        None => holds(alloc, invariant, &[]),
    }
}

fn first_false_among(
    alloc: Global,
    all: &[Vec<Vec<i64>>],
    actors: &[CompiledActor],
) -> Option<usize>
    ensures { result ≡ first_false_in (all_rows_of all.now) 0 (map actor_view actors.now) }
{
    for (k, actor) in actors.iter().enumerate() {
        if !starts_well(alloc, all, actor) {
            return Some(k);
        }
    }
    None
}

/// The place of the first actor whose invariant does not hold of what the fields of its executor's actors start with; one
/// that overflows does not hold (our own). `Err` says that there was no memory.
///
/// Time is linear in the fields and invariants, and memory in the fields.
pub fn first_false(alloc: Global, compiled: &Compiled) -> Result<Option<usize>, AllocError>
    ensures { IfOk result (λ first. (v : CompiledView) → IsCompiled compiled.now v → first ≡ first_false_from v 0 v.actors) }
{
    let all = all_rows(alloc, &compiled.executors, &compiled.actors)?;
    Ok(first_false_among(alloc, &all, &compiled.actors))
}
