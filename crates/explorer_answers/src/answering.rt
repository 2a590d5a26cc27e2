//! What comes of each expectation in each outcome, and the answer.

ghost use Rattle.std.specs.Prelude.{◌≡◌, IfOk, map};
ghost use Rattle.explorer_answers.specs.Answered.{answer_of, verdicts_in};

use expectations::{Answer, Expectation, Verdict, answer_in, verdicts};
use std::alloc::{AllocError, Global};
use swift_explorer::{FoundOutcomes, RunOutcome};
use swift_script::Script;

/// What comes of each expectation in each outcome, in order. Linear in the outcomes' tasks and fields, times the expectations.
///
/// # Errors
///
/// `AllocError` where no memory was left.
pub fn judged(
    alloc: Global,
    script: &Script,
    asked: &[Expectation],
    outcomes: &[RunOutcome],
) -> Result<Vec<Vec<Verdict>>, AllocError>
    ensures { IfOk result (λ all. map (λ row. row.items) all.items ≡ verdicts_in script.now asked.now outcomes.now) }
{
    let mut all = Vec::new(alloc);
    for outcome in outcomes {
        all.push(verdicts(alloc, script, asked, &outcome.endings, &outcome.fields)?)?;
    }
    Ok(all)
}

/// What a search says to expectations: they hold where it came to its end, each holds in each outcome, and no turn is undone since it
/// would break an invariant; they fail where one does in an outcome, or a turn is undone; else they are undecided (our own).
///
/// # Errors
///
/// `AllocError` where no memory was left.
pub fn answered(
    alloc: Global,
    script: &Script,
    asked: &[Expectation],
    found: &FoundOutcomes,
) -> Result<Answer, AllocError>
    ensures { IfOk result (λ answer. answer ≡ answer_of script.now asked.now found.now) }
{
    let all = judged(alloc, script, asked, &found.outcomes)?;
    Ok(answer_in(found.is_complete, found.broken.is_some(), &all))
}
