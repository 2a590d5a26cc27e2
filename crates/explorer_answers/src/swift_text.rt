//! The answer of a search of a Swift file's script, as a text.

ghost use Rattle.std.specs.Prelude.{◌≡◌, ◌<◌, ◌+◌, ◌++◌, ◌^◌, IfOk, OnOk, count_by, decimal};
ghost use Rattle.swift_explorer.specs.FoundText.{end_text, many_text};
ghost use Rattle.explorer_answers.specs.Dots.{with_legend};
ghost use Rattle.explorer_answers.specs.ListText.{ending_text};
ghost use Rattle.explorer_answers.specs.SwiftMeanings.{is_outcome};
ghost use Rattle.explorer_answers.specs.SwiftText.{fails, head_text, stopped_head, stopped_text, swift_answer_text, swift_asked_text, swift_failures_text, swift_first_text, swift_found_text, swift_list_text, swift_search_text, told_if, told_text, told_texts};

use crate::dots::put_with_legend;
use crate::list_text::put_ending;
use crate::meaning::{SwiftMeaning, is_outcome, swift_meaning};
use crate::text::{none_said, put_fails, put_number, verdict_at};
use expectations::Expectation;
use std::alloc::{AllocError, Global};
use swift_explorer::{FoundOutcomes, RunOutcome, put_end, put_many, put_schedule};
use swift_script::Script;

// Whether an expectation fails in an outcome that Swift has.
fn fails(
    alloc: Global,
    script: &Script,
    expectation: &Expectation,
    outcome: &RunOutcome,
) -> Result<bool, AllocError>
    ensures { IfOk result (λ b. b ≡ fails script.now expectation.now outcome.now) }
{
    let found = verdict_at(alloc, script, expectation, outcome)?;
    Ok(is_outcome(outcome) && !found.is_so())
}

// An expectation in the first outcome in which it fails.
fn put_first(
    alloc: Global,
    out: &mut Vec<u8>,
    script: &Script,
    expectation: &Expectation,
    outcomes: &[RunOutcome],
) -> Result<(), AllocError>
    ensures { OnOk result (out.new.items ≡ out.old.items ++ swift_first_text script.now expectation.now 0 outcomes.now) }
{
    for place in 0..outcomes.len() {
        let is_failed = fails(alloc, script, expectation, &outcomes[place])?;
        if is_failed {
            let found = verdict_at(alloc, script, expectation, &outcomes[place])?;
            return put_fails(
                alloc,
                out,
                script,
                expectation,
                place,
                &outcomes[place],
                found,
            );
        }
    }
    Ok(())
}

// Each expectation that fails.
fn put_failures(
    alloc: Global,
    out: &mut Vec<u8>,
    script: &Script,
    outcomes: &[RunOutcome],
    asked: &[Expectation],
) -> Result<(), AllocError>
    ensures { OnOk result (out.new.items ≡ out.old.items ++ swift_failures_text script.now outcomes.now asked.now) }
{
    for place in 0..asked.len() {
        put_first(alloc, out, script, &asked[place], outcomes)?;
    }
    Ok(())
}

// What is said of expectations.
#[tactic(auto, using(crate::proofs::Failing::or_else_empty, crate::proofs::Failing::or_else_some))]
fn asked_said(
    alloc: Global,
    script: &Script,
    asked: &[Expectation],
    found: &FoundOutcomes,
) -> Result<Vec<u8>, AllocError>
    ensures { IfOk result (λ text. text.items ≡ swift_asked_text script.now asked.now found.now) }
{
    let mut out = Vec::new(alloc);
    put_failures(alloc, &mut out, script, &found.outcomes, asked)?;
    if out.is_empty() {
        out.extend_from_slice(none_said(found.is_complete, asked))?;
    }
    Ok(out)
}

// How many outcomes the program may end in.
fn many_outcomes(outcomes: &[RunOutcome]) -> usize
    ensures { result ≡ count_by is_outcome outcomes.now }
{
    outcomes
        .iter()
        .filter(|outcome| is_outcome(outcome))
        .count()
}

// How far the search came.
fn put_search(out: &mut Vec<u8>, found: &FoundOutcomes) -> Result<(), AllocError>
    ensures { OnOk result (out.new.items ≡ out.old.items ++ swift_search_text found.now) }
{
    put_many(out, many_outcomes(&found.outcomes), b"outcome", b"outcomes")?;
    put_end(out, found)
}

// What is said of whether such a turn was found.
fn stopped_head(is_found: bool) -> &'static [u8]
    ensures { result.now ≡ stopped_head is_found }
{
    if is_found {
        b"ends the process: an invariant or precondition fails\n"
    } else {
        b"no turn was found in which an invariant or precondition fails\n"
    }
}

// What is known of turns that end the process since something does not hold.
fn put_stopped(out: &mut Vec<u8>, found: &FoundOutcomes) -> Result<(), AllocError>
    ensures { OnOk result (out.new.items ≡ out.old.items ++ stopped_text found.now.broken) }
{
    match &found.broken {
        Some(schedule) => {
            out.extend_from_slice(stopped_head(true))?;
            put_schedule(out, schedule)
        }
        None => out.extend_from_slice(stopped_head(false)),
    }
}

// What is said first of an outcome that has this meaning.
fn head(meaning: SwiftMeaning) -> &'static [u8]
    ensures { result.now ≡ head_text meaning }
{
    match meaning {
        SwiftMeaning::Outcome => b"\noutcome ",
        SwiftMeaning::EndsProcess => b"\nends the process: before outcome ",
        SwiftMeaning::MaySpin => b"\nmay spin: at a limit in outcome ",
    }
}

// An outcome, with its number.
fn put_told(
    alloc: Global,
    out: &mut Vec<u8>,
    script: &Script,
    meaning: SwiftMeaning,
    place: usize,
    outcome: &RunOutcome,
) -> Result<(), AllocError>
    requires { place < 2 ^ 63 }
    ensures { OnOk result (out.new.items ≡ out.old.items ++ told_text script.now meaning place outcome.now) }
{
    out.extend_from_slice(head(meaning))?;
    put_number(out, place + 1)?;
    out.extend_from_slice(b"\n")?;
    put_ending(alloc, out, script, outcome)
}

// An outcome, where it has this meaning.
fn put_if(
    alloc: Global,
    out: &mut Vec<u8>,
    script: &Script,
    meaning: SwiftMeaning,
    place: usize,
    outcome: &RunOutcome,
) -> Result<(), AllocError>
    requires { place < 2 ^ 63 }
    ensures { OnOk result (out.new.items ≡ out.old.items ++ told_if script.now meaning place outcome.now) }
{
    if swift_meaning(outcome).is(meaning) {
        return put_told(alloc, out, script, meaning, place, outcome);
    }
    Ok(())
}

// The outcomes that have this meaning.
fn put_all(
    alloc: Global,
    out: &mut Vec<u8>,
    script: &Script,
    meaning: SwiftMeaning,
    outcomes: &[RunOutcome],
) -> Result<(), AllocError>
    ensures { OnOk result (out.new.items ≡ out.old.items ++ told_texts script.now meaning 0 outcomes.now) }
{
    for place in 0..outcomes.len() {
        put_if(alloc, out, script, meaning, place, &outcomes[place])?;
    }
    Ok(())
}

// The turns that end the process, and the outcomes.
fn put_listed(
    alloc: Global,
    out: &mut Vec<u8>,
    script: &Script,
    found: &FoundOutcomes,
) -> Result<(), AllocError>
    ensures { OnOk result (out.new.items ≡ out.old.items ++ swift_list_text script.now found.now) }
{
    put_stopped(out, found)?;
    put_all(alloc, out, script, SwiftMeaning::Outcome, &found.outcomes)?;
    put_all(
        alloc,
        out,
        script,
        SwiftMeaning::EndsProcess,
        &found.outcomes,
    )?;
    put_all(alloc, out, script, SwiftMeaning::MaySpin, &found.outcomes)
}

// All that was found.
fn put_found(
    alloc: Global,
    out: &mut Vec<u8>,
    script: &Script,
    found: &FoundOutcomes,
) -> Result<(), AllocError>
    ensures { OnOk result (out.new.items ≡ out.old.items ++ swift_found_text script.now found.now) }
{
    put_search(out, found)?;
    let mut text = Vec::new(alloc);
    put_listed(alloc, &mut text, script, found)?;
    put_with_legend(out, &text)
}

/// What a search of the script of a Swift file says to expectations (the format is our own), as `answer_text` does, but of outcomes that
/// Swift has alone. After these come, with the schedules to them, those before which the process ends, and those at a limit that Swift does
/// not have. Each has its number among all that were found.
///
/// # Errors
///
/// `AllocError` where no memory is left for the text.
pub fn swift_answer_text(
    alloc: Global,
    script: &Script,
    asked: &[Expectation],
    found: &FoundOutcomes,
) -> Result<Vec<u8>, AllocError>
    ensures { IfOk result (λ text. text.items ≡ swift_answer_text script.now asked.now found.now) }
{
    let mut out = asked_said(alloc, script, asked, found)?;
    put_found(alloc, &mut out, script, found)?;
    Ok(out)
}
