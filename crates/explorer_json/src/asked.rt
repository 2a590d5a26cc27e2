//! What is asked, and what comes of it.

ghost use Rattle.std.specs.Prelude.{◌≡◌, ◌++◌, OnOk};
ghost use Rattle.swift_report.specs.ReportJson.{comma};
ghost use Rattle.explorer_answers.specs.AnswerText.{verdict_at};
ghost use Rattle.explorer_json.specs.AnswerJson.{expectation_json, expectations_json, verdict_json, verdicts_json};

use crate::append::{comma, say};
use crate::string::put_string;
use expectations::{Expectation, Verdict, verdict};
use std::alloc::{AllocError, Global};
use swift_explorer::RunOutcome;
use swift_script::Script;

fn verdict_word(verdict: Verdict) -> &'static [u8]
    ensures { result.now ≡ verdict_json verdict }
{
    match verdict {
        Verdict::Holds => b"\"holds\"",
        Verdict::IsFalse => b"\"false\"",
        Verdict::Overflows => b"\"overflow\"",
        Verdict::HasFault => b"\"fault\"",
    }
}

// What comes of an expectation in the outcome at a place.
fn put_verdict(
    alloc: Global,
    out: &mut Vec<u8>,
    script: &Script,
    expectation: &Expectation,
    place: usize,
    outcome: &RunOutcome,
) -> Result<(), AllocError>
    ensures { OnOk result (out.new.items ≡ out.old.items ++ (comma 0 place ++ verdict_json (verdict_at script.now expectation.now outcome.now))) }
{
    let found = verdict(
        alloc,
        script,
        expectation,
        &outcome.endings,
        &outcome.fields,
    )?;
    comma(out, place)?;
    say(out, verdict_word(found))
}

// What comes of it in each outcome.
fn put_verdicts(
    alloc: Global,
    out: &mut Vec<u8>,
    script: &Script,
    expectation: &Expectation,
    outcomes: &[RunOutcome],
) -> Result<(), AllocError>
    ensures { OnOk result (out.new.items ≡ out.old.items ++ verdicts_json script.now expectation.now 0 outcomes.now) }
{
    for place in 0..outcomes.len() {
        put_verdict(alloc, out, script, expectation, place, &outcomes[place])?;
    }
    Ok(())
}

// The expectation at a place.
fn put_expectation(
    alloc: Global,
    out: &mut Vec<u8>,
    script: &Script,
    outcomes: &[RunOutcome],
    place: usize,
    expectation: &Expectation,
) -> Result<(), AllocError>
    ensures { OnOk result (out.new.items ≡ out.old.items ++ expectation_json script.now outcomes.now place expectation.now) }
{
    comma(out, place)?;
    say(out, b"\n{\"text\":")?;
    put_string(out, expectation.said())?;
    say(out, b",\"verdicts\":[")?;
    put_verdicts(alloc, out, script, expectation, outcomes)?;
    say(out, b"]}")
}

/// Appends each expectation, with what comes of it in each outcome.
pub(crate) fn put_expectations(
    alloc: Global,
    out: &mut Vec<u8>,
    script: &Script,
    outcomes: &[RunOutcome],
    asked: &[Expectation],
) -> Result<(), AllocError>
    ensures { OnOk result (out.new.items ≡ out.old.items ++ expectations_json script.now outcomes.now 0 asked.now) }
{
    for place in 0..asked.len() {
        put_expectation(alloc, out, script, outcomes, place, &asked[place])?;
    }
    Ok(())
}
