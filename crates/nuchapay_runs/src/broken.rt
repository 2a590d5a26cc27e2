//! Which invariants turns have broken.

ghost use Rattle.std.specs.Prelude.{◌≡◌, map, IfOk};
ghost use Rattle.nuchapay_runs.specs.Broken.{broken_text, broken_texts, invariant_if};
ghost use Rattle.nuchapay_runs.specs.OwnedInside.{owned_if};
ghost use Rattle.nuchapay_runs.specs.SaysInside.{Says};

use crate::invariants::{OwnedInvariant, invariant_among, write_invariant};
use crate::text::Text;
use run_pictures::{Outcome, TurnValues};
use std::alloc::{AllocError, Global};
use swift_script::Script;
use swift_types::ExecId;

// Goes on with an invariant, if it is one.
fn write_if(
    out: &mut Text,
    script: &Script,
    executor: ExecId,
    invariant: Option<OwnedInvariant<'_>>,
)
    ensures { Says out.old out.new (invariant_if script.now executor.0 (owned_if invariant.entry)) }
{
    if let Some(invariant) = invariant {
        write_invariant(out, script, executor, invariant)
    }
}

// Goes on with the invariant that a turn would have left false, of which this became.
fn write_broken(out: &mut Text, script: &Script, executor: ExecId, outcome: Outcome)
    ensures { Says out.old out.new (broken_text script.now executor.0 outcome) }
{
    if let Outcome::Broke(place) = outcome {
        let invariant = invariant_among(script, script.executor_actors(executor), place);
        write_if(out, script, executor, invariant)
    }
}

// The invariant that a turn would have left false, of which this became.
fn broken(
    alloc: Global,
    script: &Script,
    executor: ExecId,
    outcome: Outcome,
) -> Result<Vec<u8>, AllocError>
    ensures { IfOk result (λ text. text.items ≡ broken_text script.now executor.0 outcome) }
{
    let mut out = Text::new(alloc);
    write_broken(&mut out, script, executor, outcome);
    out.into_bytes()
}

/// Of each turn of an executor, in order, the invariant that it would have left false, as the printed form has it (our own); of a turn that
/// was undone for another cause, or kept, nothing.
///
/// # Errors
///
/// `AllocError` where there is no memory for them.
pub fn broken_invariants(
    alloc: Global,
    script: &Script,
    executor: ExecId,
    turns: &[TurnValues],
) -> Result<Vec<Vec<u8>>, AllocError>
    ensures { IfOk result (λ texts. map (λ text. text.items) texts.items ≡ broken_texts script.now executor.0 turns.now) }
{
    let mut texts = Vec::with_capacity(alloc, turns.len())?;
    for turn in turns {
        texts.push(broken(alloc, script, executor, turn.outcome)?)?;
    }
    Ok(texts)
}
