//! In what two outcomes differ.

ghost use Rattle.std.specs.Prelude.{◌≡◌, IfOk};
ghost use Rattle.std.specs.Arc.{arc_value};
ghost use Rattle.explorer_differences.specs.Difference.{difference_text as text_of};
ghost use Rattle.nuchapay.specs.Differences.{IsCompared, outcome_of};

use crate::explore::{place_of, search_all};
use crate::scheduled::ScheduledRun;
use explorer_differences::difference_text;
use nuchapay_tool::OutcomePair;
use std::alloc::{AllocError, Global};
use std::mem::replace;
use std::sync::Arc;
use swift_explorer::RunOutcome;
use swift_script::read;
use swift_tool::ToolFault;

/// In what two outcomes differ, as a text, or which of them is missing.
#[derive(Drop)]
pub enum Compared {
    Text(Vec<u8>),
    /// There is no outcome with this number: so many were found.
    NoOutcome(u32, usize),
}

/// In what two outcomes of a script differ that `explore` lists. How far the search is, standard error is told now and then.
pub fn pair_compared(
    rt: &HostRuntime,
    text: &[u8],
    limit: u32,
    pair: OutcomePair,
) -> Result<Compared, ToolFault>
    ensures { IfOk result (IsCompared text.now limit pair) }
{
    let alloc = rt.alloc();
    let script = Arc::new(alloc, read(alloc, text)?)?;
    let found = search_all(rt, &script, limit as usize)?;
    let many = found.outcomes.len();
    let Some(first) = place_of(many, pair.first) else {
        return Ok(Compared::NoOutcome(pair.first, many));
    };
    let Some(second) = place_of(many, pair.second) else {
        return Ok(Compared::NoOutcome(pair.second, many));
    };
    let numbers = (pair.first, pair.second);
    let said = difference_text(
        alloc,
        &script,
        numbers,
        &found.outcomes[first],
        &found.outcomes[second],
    )?;
    Ok(Compared::Text(said))
}

// The outcome that a run by a schedule has come to.
fn outcome_of(alloc: Global, run: ScheduledRun) -> RunOutcome
    ensures { result ≡ outcome_of run }
{
    let mut run = run;
    let schedule = replace(&mut run.schedule, Vec::new(alloc));
    let endings = replace(&mut run.report.endings, Vec::new(alloc));
    let fields = replace(&mut run.report.fields, Vec::new(alloc));
    RunOutcome {
        schedule,
        endings,
        fields,
    }
}

/// In what the outcomes of two runs of a script differ, which have these numbers.
pub fn runs_compared(
    alloc: Global,
    pair: OutcomePair,
    first: ScheduledRun,
    second: ScheduledRun,
) -> Result<Vec<u8>, AllocError>
    ensures { IfOk result (λ said. said.items ≡ text_of (arc_value first.script) pair.first pair.second (outcome_of first) (outcome_of second)) }
{
    let script = Arc::clone(&first.script)?;
    let numbers = (pair.first, pair.second);
    let first = outcome_of(alloc, first);
    let second = outcome_of(alloc, second);
    difference_text(alloc, &script, numbers, &first, &second)
}
