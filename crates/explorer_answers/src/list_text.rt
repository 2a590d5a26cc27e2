//! All that a search has found, as a text.

ghost use Rattle.std.specs.Prelude.{◌≡◌, ◌<◌, ◌+◌, ◌++◌, ◌^◌, IfOk, OnOk, decimal, length};
ghost use Rattle.swift_explorer.specs.FoundText.{end_text, ended_text, many_text, schedule_text};
ghost use Rattle.explorer_answers.specs.Dots.{with_legend};
ghost use Rattle.explorer_answers.specs.ListText.{broken_text, ending_text, found_text, outcome_text, outcomes_text, search_text};
ghost use Rattle.explorer_answers.specs.Names.{names_text};

use crate::dots::put_with_legend;
use crate::names::put_names;
use crate::text::put_number;
use std::alloc::{AllocError, Global};
use swift_explorer::{FoundOutcomes, RunOutcome, put_end, put_ended, put_many, put_schedule};
use swift_script::Script;

/// Appends an outcome's schedule, what its tasks are called, how they have ended, and its fields.
pub(crate) fn put_ending(
    alloc: Global,
    out: &mut Vec<u8>,
    script: &Script,
    outcome: &RunOutcome,
) -> Result<(), AllocError>
    ensures { OnOk result (out.new.items ≡ out.old.items ++ ending_text script.now outcome.now) }
{
    put_schedule(out, &outcome.schedule)?;
    put_names(alloc, out, script, &outcome.endings)?;
    put_ended(alloc, out, script, outcome)
}

// An outcome, with its number.
fn put_outcome(
    alloc: Global,
    out: &mut Vec<u8>,
    script: &Script,
    place: usize,
    outcome: &RunOutcome,
) -> Result<(), AllocError>
    requires { place < 2 ^ 63 }
    ensures { OnOk result (out.new.items ≡ out.old.items ++ outcome_text script.now place outcome.now) }
{
    out.extend_from_slice(b"\noutcome ")?;
    put_number(out, place + 1)?;
    out.extend_from_slice(b"\n")?;
    put_ending(alloc, out, script, outcome)
}

fn put_outcomes(
    alloc: Global,
    out: &mut Vec<u8>,
    script: &Script,
    outcomes: &[RunOutcome],
) -> Result<(), AllocError>
    ensures { OnOk result (out.new.items ≡ out.old.items ++ outcomes_text script.now 0 outcomes.now) }
{
    for place in 0..outcomes.len() {
        put_outcome(alloc, out, script, place, &outcomes[place])?;
    }
    Ok(())
}

// What is known of turns that are undone.
fn put_broken(out: &mut Vec<u8>, found: &FoundOutcomes) -> Result<(), AllocError>
    ensures { OnOk result (out.new.items ≡ out.old.items ++ broken_text found.now.broken) }
{
    match &found.broken {
        Some(schedule) => {
            out.extend_from_slice(b"a turn is undone by invariant\n")?;
            put_schedule(out, schedule)
        }
        None => out.extend_from_slice(b"no turn was found that is undone by invariant\n"),
    }
}

// How far the search came.
fn put_search(out: &mut Vec<u8>, found: &FoundOutcomes) -> Result<(), AllocError>
    ensures { OnOk result (out.new.items ≡ out.old.items ++ search_text found.now) }
{
    put_many(out, found.outcomes.len(), b"outcome", b"outcomes")?;
    put_end(out, found)
}

// The turns that are undone, and each outcome.
fn listed(alloc: Global, script: &Script, found: &FoundOutcomes) -> Result<Vec<u8>, AllocError>
    ensures { IfOk result (λ text. text.items ≡ broken_text found.now.broken ++ outcomes_text script.now 0 found.now.outcomes.items) }
{
    let mut text = Vec::new(alloc);
    put_broken(&mut text, found)?;
    put_outcomes(alloc, &mut text, script, &found.outcomes)?;
    Ok(text)
}

/// Appends what a search has found: how many outcomes, and whether the search came to its end; whether a turn was undone by `invariant`,
/// with the schedule to one that was found; and each outcome, with the schedule to it that was found, as a report without journals.
///
/// A schedule is a line of turns, by task and number. A turn during which others begin or end stands twice: as it begins, with two dots
/// after it, and as it ends, with two dots before it. Where some do, a line before the first of these schedules says so. Below an outcome's
/// schedule stand the names of its tasks that are no roots, if there are any.
pub(crate) fn put_found(
    alloc: Global,
    out: &mut Vec<u8>,
    script: &Script,
    found: &FoundOutcomes,
) -> Result<(), AllocError>
    ensures { OnOk result (out.new.items ≡ out.old.items ++ found_text script.now found.now) }
{
    put_search(out, found)?;
    let text = listed(alloc, script, found)?;
    put_with_legend(out, &text)
}
