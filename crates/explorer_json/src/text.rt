//! All that a search says.

ghost use Rattle.std.specs.Prelude.{◌≡◌, ◌<◌, ◌^◌, ◌++◌, IfOk, OnOk};
ghost use Rattle.explorer_json.specs.AnswerJson.{answer_json, answer_word, end_json, outcome_json, outcomes_json, script_json, search_json, start_json, sum_json, to_go_json};

use crate::append::{comma, labelled, say};
use crate::asked::put_expectations;
use crate::ended::put_ended;
use crate::schedule::{put_broken, put_schedule};
use expectations::{Answer, Expectation};
use explorer_answers::answered;
use script_sums::script_sum;
use std::alloc::{AllocError, Global};
use swift_explorer::{FoundOutcomes, RunOutcome};
use swift_script::Script;

// The outcome at a place.
fn put_outcome(
    alloc: Global,
    out: &mut Vec<u8>,
    script: &Script,
    place: usize,
    outcome: &RunOutcome,
) -> Result<(), AllocError>
    requires { place < 2 ^ 63 }
    ensures { OnOk result (out.new.items ≡ out.old.items ++ outcome_json script.now place outcome.now) }
{
    comma(out, place)?;
    labelled(out, b"\n{\"outcome\":", place + 1)?;
    say(out, b",\"schedule\":")?;
    put_schedule(out, &outcome.schedule)?;
    say(out, b",\n\"end\":")?;
    put_ended(alloc, out, script, outcome)?;
    say(out, b"}")
}

pub(crate) fn put_outcomes(
    alloc: Global,
    out: &mut Vec<u8>,
    script: &Script,
    outcomes: &[RunOutcome],
) -> Result<(), AllocError>
    ensures { OnOk result (out.new.items ≡ out.old.items ++ outcomes_json script.now 0 outcomes.now) }
{
    for place in 0..outcomes.len() {
        put_outcome(alloc, out, script, place, &outcomes[place])?;
    }
    Ok(())
}

fn answer_word(answer: Answer) -> &'static [u8]
    ensures { result.now ≡ answer_word answer }
{
    match answer {
        Answer::Holds => b"{\"answer\":\"holds\"",
        Answer::Fails => b"{\"answer\":\"fails\"",
        Answer::Undecided => b"{\"answer\":\"undecided\"",
    }
}

// A sum.
fn put_sum(out: &mut Vec<u8>, sum: &[u8]) -> Result<(), AllocError>
    ensures { OnOk result (out.new.items ≡ out.old.items ++ sum_json sum.now) }
{
    say(out, b",\n\"script\":\"")?;
    say(out, sum)?;
    say(out, b"\"")
}

// Of which script it is.
fn put_script(alloc: Global, out: &mut Vec<u8>, text: &[u8]) -> Result<(), AllocError>
    ensures { OnOk result (out.new.items ≡ out.old.items ++ script_json text.now) }
{
    let sum = script_sum(alloc, text)?;
    put_sum(out, sum.as_bytes())
}

// The answer, and of which script it is.
pub(crate) fn put_start(
    alloc: Global,
    out: &mut Vec<u8>,
    text: &[u8],
    answer: Answer,
) -> Result<(), AllocError>
    ensures { OnOk result (out.new.items ≡ out.old.items ++ start_json text.now answer) }
{
    say(out, answer_word(answer))?;
    put_script(alloc, out, text)
}

// Whether the search came to its end, and else why not.
fn end_of(found: &FoundOutcomes) -> &'static [u8]
    ensures { result.now ≡ end_json found.now }
{
    if found.is_complete {
        b",\n\"search\":\"complete\""
    } else if found.met_limit {
        b",\n\"search\":\"limit\""
    } else if found.ran_short {
        b",\n\"search\":\"room\""
    } else {
        b",\n\"search\":\"partial\""
    }
}

// From how many histories it has still to go on, where it has met its limit.
fn put_to_go(out: &mut Vec<u8>, found: &FoundOutcomes) -> Result<(), AllocError>
    ensures { OnOk result (out.new.items ≡ out.old.items ++ to_go_json found.now) }
{
    if found.is_at_limit() {
        return labelled(out, b",\"to_go\":", found.to_go);
    }
    Ok(())
}

// How far the search came.
pub(crate) fn put_search(out: &mut Vec<u8>, found: &FoundOutcomes) -> Result<(), AllocError>
    ensures { OnOk result (out.new.items ≡ out.old.items ++ search_json found.now) }
{
    say(out, end_of(found))?;
    labelled(out, b",\"states\":", found.states)?;
    put_to_go(out, found)?;
    say(out, b",\n\"undone\":")?;
    put_broken(out, &found.broken)
}

// All of it, to a text that is there.
fn put_answer(
    alloc: Global,
    out: &mut Vec<u8>,
    text: &[u8],
    script: &Script,
    asked: &[Expectation],
    found: &FoundOutcomes,
) -> Result<(), AllocError>
    ensures { OnOk result (out.new.items ≡ out.old.items ++ answer_json text.now script.now asked.now found.now) }
{
    let answer = answered(alloc, script, asked, found)?;
    put_start(alloc, out, text, answer)?;
    put_search(out, found)?;
    say(out, b",\n\"expectations\":[")?;
    put_expectations(alloc, out, script, &found.outcomes, asked)?;
    say(out, b"],\n\"outcomes\":[")?;
    put_outcomes(alloc, out, script, &found.outcomes)?;
    say(out, b"]}\n")
}

/// What a search of the script that `text` spells says to expectations, as one JSON value (the format is our own): the answer; the sum of
/// the text; whether the search came to its end, how many histories it kept, and from how many it has still to go on, where it met its
/// limit; a schedule to a turn that `invariant` undoes, or `null`; each expectation, with what comes of it in each outcome; and the
/// outcomes, each with its schedule, and with its tasks and fields as `report_json` has them. All of it is UTF-8 where the expectations are,
/// and ASCII but for these. Linear in the tasks and fields of the outcomes, times the expectations, and in the schedules, times the length
/// of each.
///
/// # Errors
///
/// `AllocError` where no memory is left for the text.
pub fn answer_json(
    alloc: Global,
    text: &[u8],
    script: &Script,
    asked: &[Expectation],
    found: &FoundOutcomes,
) -> Result<Vec<u8>, AllocError>
    ensures { IfOk result (λ json. json.items ≡ answer_json text.now script.now asked.now found.now) }
{
    let mut out = Vec::new(alloc);
    put_answer(alloc, &mut out, text, script, asked, found)?;
    Ok(out)
}
