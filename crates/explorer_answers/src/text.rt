//! The answer, as a text.

ghost use Rattle.std.specs.Prelude.{◌≡◌, ◌<◌, ◌+◌, ◌++◌, ◌^◌, IfOk, OnOk, codes, decimal};
ghost use Rattle.explorer_answers.specs.AnswerText.{answer_text, asked_text, failures_text, fails_text, first_text, none_text, verdict_at};

use crate::list_text::put_found;
use crate::names::put_names;
use expectations::{Expectation, Verdict, put_failure, verdict};
use itoa::Buffer;
use std::alloc::{AllocError, Global};
use swift_explorer::{FoundOutcomes, RunOutcome, put_schedule};
use swift_script::Script;

pub(crate) fn put_number(out: &mut Vec<u8>, number: usize) -> Result<(), AllocError>
    ensures { OnOk result (out.new.items ≡ out.old.items ++ decimal number) }
{
    let mut buffer = Buffer::new();
    out.extend_from_slice(buffer.format(number).as_bytes())
}

// In which outcome, from 1, something fails.
fn put_place(out: &mut Vec<u8>, place: usize) -> Result<(), AllocError>
    requires { place < 2 ^ 63 }
    ensures { OnOk result (out.new.items ≡ out.old.items ++ (codes "fails in outcome " ++ decimal (place + 1) ++ codes ": ")) }
{
    out.extend_from_slice(b"fails in outcome ")?;
    put_number(out, place + 1)?;
    out.extend_from_slice(b": ")
}

// An expectation that fails in the outcome at a place.
pub(crate) fn put_fails(
    alloc: Global,
    out: &mut Vec<u8>,
    script: &Script,
    expectation: &Expectation,
    place: usize,
    outcome: &RunOutcome,
    verdict: Verdict,
) -> Result<(), AllocError>
    requires place { place < 2 ^ 63 }
    requires verdict { verdict ≡ verdict_at script.now expectation.now outcome.now }
    ensures { OnOk result (out.new.items ≡ out.old.items ++ fails_text script.now expectation.now place outcome.now) }
{
    put_place(out, place)?;
    put_failure(
        alloc,
        out,
        script,
        &outcome.endings,
        &outcome.fields,
        expectation,
        verdict,
    )?;
    put_schedule(out, &outcome.schedule)?;
    put_names(alloc, out, script, &outcome.endings)?;
    out.extend_from_slice(b"\n")
}

// What comes of an expectation in an outcome.
pub(crate) fn verdict_at(
    alloc: Global,
    script: &Script,
    expectation: &Expectation,
    outcome: &RunOutcome,
) -> Result<Verdict, AllocError>
    ensures { IfOk result (λ v. v ≡ verdict_at script.now expectation.now outcome.now) }
{
    verdict(
        alloc,
        script,
        expectation,
        &outcome.endings,
        &outcome.fields,
    )
}

// An expectation in the first outcome in which it fails.
fn put_first(
    alloc: Global,
    out: &mut Vec<u8>,
    script: &Script,
    expectation: &Expectation,
    outcomes: &[RunOutcome],
) -> Result<(), AllocError>
    ensures { OnOk result (out.new.items ≡ out.old.items ++ first_text script.now expectation.now 0 outcomes.now) }
{
    for place in 0..outcomes.len() {
        let found = verdict_at(alloc, script, expectation, &outcomes[place])?;
        if !found.is_so() {
            return put_fails(
                alloc,
                out,
                script,
                expectation,
                place,
                &outcomes[place],
                found,
            );
        }
    }
    Ok(())
}

// Each expectation that fails.
fn put_failures(
    alloc: Global,
    out: &mut Vec<u8>,
    script: &Script,
    outcomes: &[RunOutcome],
    asked: &[Expectation],
) -> Result<(), AllocError>
    ensures { OnOk result (out.new.items ≡ out.old.items ++ failures_text script.now outcomes.now asked.now) }
{
    for place in 0..asked.len() {
        put_first(alloc, out, script, &asked[place], outcomes)?;
    }
    Ok(())
}

// That none of the expectations fails.
pub(crate) fn none_said(is_complete: bool, asked: &[Expectation]) -> &'static [u8]
    ensures { result.now ≡ none_text is_complete asked.now }
{
    match asked {
        [] => b"",
        [_, ..] => {
            if is_complete {
                b"each expectation holds in each outcome\n\n"
            } else {
                b"no expectation fails in the outcomes that were found\n\n"
            }
        }
    }
}

// What is said of expectations.
#[tactic(auto, using(crate::proofs::Failing::or_else_empty, crate::proofs::Failing::or_else_some))]
fn asked_said(
    alloc: Global,
    script: &Script,
    asked: &[Expectation],
    found: &FoundOutcomes,
) -> Result<Vec<u8>, AllocError>
    ensures { IfOk result (λ text. text.items ≡ asked_text script.now asked.now found.now) }
{
    let mut out = Vec::new(alloc);
    put_failures(alloc, &mut out, script, &found.outcomes, asked)?;
    if out.is_empty() {
        out.extend_from_slice(none_said(found.is_complete, asked))?;
    }
    Ok(out)
}

/// What a search says to expectations (the format is our own): of each that fails the first outcome in which it does, with what it reads
/// there and the schedule; or that none fails. Then all that was found: how many outcomes, and whether the search came to its end; whether
/// a turn was undone by `invariant`, with the schedule to one; and each outcome, with the schedule to it that was found, the names of tasks
/// that are no roots, and how the tasks and the fields end, as a report without journals says it.
///
/// A schedule is a line of turns, by task and number. A turn during which others begin or end stands twice: as it begins, with two dots
/// after it, and as it ends, with two dots before it. Where some do, `DOTS` stands before the list.
///
/// # Errors
///
/// `AllocError` where no memory is left for the text.
pub fn answer_text(
    alloc: Global,
    script: &Script,
    asked: &[Expectation],
    found: &FoundOutcomes,
) -> Result<Vec<u8>, AllocError>
    ensures { IfOk result (λ text. text.items ≡ answer_text script.now asked.now found.now) }
{
    let mut out = asked_said(alloc, script, asked, found)?;
    put_found(alloc, &mut out, script, found)?;
    Ok(out)
}
