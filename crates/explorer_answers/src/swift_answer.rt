//! What a search of a Swift file's script says to expectations.

ghost use Rattle.std.specs.Prelude.{◌≡◌, IfOk, map};
ghost use Rattle.std.specs.List.{list_all};
ghost use Rattle.explorer_answers.specs.SwiftAnswers.{goes_on, swift_answer_of, swift_verdicts_at, swift_verdicts_in};

use crate::meaning::{SwiftMeaning, is_outcome, swift_meaning};
use expectations::{Answer, Expectation, Verdict, answer_in, verdicts};
use std::alloc::{AllocError, Global};
use swift_explorer::{FoundOutcomes, RunOutcome};
use swift_script::Script;

// What comes of each expectation in an outcome; of one that is none of Swift nothing is asked.
fn verdicts_at(
    alloc: Global,
    script: &Script,
    asked: &[Expectation],
    outcome: &RunOutcome,
) -> Result<Vec<Verdict>, AllocError>
    ensures { IfOk result (λ row. row.items ≡ swift_verdicts_at script.now asked.now outcome.now) }
{
    if is_outcome(outcome) {
        verdicts(alloc, script, asked, &outcome.endings, &outcome.fields)
    } else {
        Ok(Vec::new(alloc))
    }
}

// What comes of each expectation in each outcome.
fn swift_judged(
    alloc: Global,
    script: &Script,
    asked: &[Expectation],
    outcomes: &[RunOutcome],
) -> Result<Vec<Vec<Verdict>>, AllocError>
    ensures { IfOk result (λ all. map (λ row. row.items) all.items ≡ swift_verdicts_in script.now asked.now outcomes.now) }
{
    let mut all = Vec::new(alloc);
    for outcome in outcomes {
        all.push(verdicts_at(alloc, script, asked, outcome)?)?;
    }
    Ok(all)
}

// Whether the process goes on to an outcome.
fn goes_on(outcome: &RunOutcome) -> bool
    ensures { result ≡ goes_on outcome.now }
{
    !swift_meaning(outcome).is(SwiftMeaning::EndsProcess)
}

// Whether the process goes on to each outcome.
fn all_go_on(outcomes: &[RunOutcome]) -> bool
    ensures { result ≡ list_all goes_on outcomes.now }
{
    outcomes.iter().all(|outcome| goes_on(outcome))
}

/// What a search of the script of a Swift file says to expectations, as `answered` does; but of outcomes before which the process ends, or
/// that are at a limit which Swift does not have, nothing is asked, and where the process ends before some outcome, they fail (our own).
///
/// # Errors
///
/// `AllocError` where no memory was left.
pub fn swift_answered(
    alloc: Global,
    script: &Script,
    asked: &[Expectation],
    found: &FoundOutcomes,
) -> Result<Answer, AllocError>
    ensures { IfOk result (λ answer. answer ≡ swift_answer_of script.now asked.now found.now) }
{
    let all = swift_judged(alloc, script, asked, &found.outcomes)?;
    let is_broken = found.broken.is_some() || !all_go_on(&found.outcomes);
    Ok(answer_in(found.is_complete, is_broken, &all))
}
