//! All that a search of a Swift file's script says.

ghost use Rattle.std.specs.Prelude.{◌≡◌, ◌++◌, IfOk, OnOk};
ghost use Rattle.swift_report.specs.ReportJson.{comma};
ghost use Rattle.explorer_answers.specs.SwiftMeanings.{meaning};
ghost use Rattle.explorer_json.specs.SwiftJson.{meaning_json, meanings_json, swift_answer_json, swift_head_json};

use crate::append::{comma, say};
use crate::asked::put_expectations;
use crate::text::{put_outcomes, put_search, put_start};
use expectations::Expectation;
use explorer_answers::{SwiftMeaning, swift_answered, swift_meaning};
use std::alloc::{AllocError, Global};
use swift_explorer::{FoundOutcomes, RunOutcome};
use swift_script::Script;

fn meaning_word(meaning: SwiftMeaning) -> &'static [u8]
    ensures { result.now ≡ meaning_json meaning }
{
    match meaning {
        SwiftMeaning::Outcome => b"\"outcome\"",
        SwiftMeaning::EndsProcess => b"\"ends\"",
        SwiftMeaning::MaySpin => b"\"spins\"",
    }
}

// What the outcome at a place says of Swift.
fn put_meaning(out: &mut Vec<u8>, place: usize, outcome: &RunOutcome) -> Result<(), AllocError>
    ensures { OnOk result (out.new.items ≡ out.old.items ++ (comma 0 place ++ meaning_json (meaning outcome.now))) }
{
    comma(out, place)?;
    say(out, meaning_word(swift_meaning(outcome)))
}

// What each outcome says of Swift.
fn put_meanings(out: &mut Vec<u8>, outcomes: &[RunOutcome]) -> Result<(), AllocError>
    ensures { OnOk result (out.new.items ≡ out.old.items ++ meanings_json 0 outcomes.now) }
{
    for place in 0..outcomes.len() {
        put_meaning(out, place, &outcomes[place])?;
    }
    Ok(())
}

// How far the search came, and what each outcome says of Swift.
fn put_head(out: &mut Vec<u8>, found: &FoundOutcomes) -> Result<(), AllocError>
    ensures { OnOk result (out.new.items ≡ out.old.items ++ swift_head_json found.now) }
{
    put_search(out, found)?;
    say(out, b",\n\"swift\":[")?;
    put_meanings(out, &found.outcomes)
}

// All of it, to a text that is there.
fn put_answer(
    alloc: Global,
    out: &mut Vec<u8>,
    text: &[u8],
    script: &Script,
    asked: &[Expectation],
    found: &FoundOutcomes,
) -> Result<(), AllocError>
    ensures { OnOk result (out.new.items ≡ out.old.items ++ swift_answer_json text.now script.now asked.now found.now) }
{
    let answer = swift_answered(alloc, script, asked, found)?;
    put_start(alloc, out, text, answer)?;
    put_head(out, found)?;
    say(out, b"],\n\"expectations\":[")?;
    put_expectations(alloc, out, script, &found.outcomes, asked)?;
    say(out, b"],\n\"outcomes\":[")?;
    put_outcomes(alloc, out, script, &found.outcomes)?;
    say(out, b"]}\n")
}

/// What a search of the script that `text` spells, which a Swift file has become, says to expectations, as `answer_json` has it (the format
/// is our own), with what each outcome says of Swift: `outcome`, `ends` where the process ends before it, or `spins` where it is at a limit
/// that Swift does not have.
///
/// # Errors
///
/// `AllocError` where no memory is left for the text.
pub fn swift_answer_json(
    alloc: Global,
    text: &[u8],
    script: &Script,
    asked: &[Expectation],
    found: &FoundOutcomes,
) -> Result<Vec<u8>, AllocError>
    ensures { IfOk result (λ json. json.items ≡ swift_answer_json text.now script.now asked.now found.now) }
{
    let mut out = Vec::new(alloc);
    put_answer(alloc, &mut out, text, script, asked, found)?;
    Ok(out)
}
