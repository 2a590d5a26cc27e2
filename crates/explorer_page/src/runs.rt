//! The runs that a page shows.

ghost use Rattle.std.specs.Prelude.{◌≡◌, IfOk, take};
ghost use Rattle.std.specs.Arc.{arc_value};
ghost use Rattle.explorer_page.specs.Runs.{AreRuns, IsRunOf};

use std::alloc::{AllocError, AllocFailed, Global};
use std::sync::Arc;
use swift_certificate::legal;
use swift_explorer::{RunOutcome, schedule_report};
use swift_report::Report;
use swift_script::Script;

/// Of how many outcomes a page shows what each turn did: of the first ones.
pub(crate) const SHOWN: usize = 100;

/// Why there is no page.
#[derive(Clone, Copy, Debug, Drop, PartialEq, Eq)]
pub enum PageError {
    /// No memory was left.
    Memory,
    /// The schedule of an outcome was not followed to its end.
    Unfinished,
    /// The report of a schedule is not legal.
    Illegal,
}

impl From<AllocError> for PageError {
    fn from(_fault: AllocError) -> PageError {
        PageError::Memory
    }
}

impl<T: Drop> From<AllocFailed<T>> for PageError {
    fn from(_fault: AllocFailed<T>) -> PageError {
        PageError::Memory
    }
}

// The report of an outcome's schedule. Only a legal report is given.
fn run_of(alloc: Global, script: &Arc<Script>, outcome: &RunOutcome) -> Result<Report, PageError>
    ensures { IfOk result (IsRunOf (arc_value script.now) outcome.now) }
{
    let Some(report) = schedule_report(alloc, script, &outcome.schedule)? else {
        return Err(PageError::Unfinished);
    };
    if !legal(alloc, script, &report)? {
        return Err(PageError::Illegal);
    }
    Ok(report)
}

/// The reports of these outcomes' schedules, in order.
pub(crate) fn runs_of(
    alloc: Global,
    script: &Arc<Script>,
    outcomes: &[RunOutcome],
) -> Result<Vec<Report>, PageError>
    ensures { IfOk result (λ runs. AreRuns (arc_value script.now) outcomes.now runs.items) }
{
    let mut runs = Vec::with_capacity(alloc, outcomes.len())?;
    for outcome in outcomes {
        let run = run_of(alloc, script, outcome)?;
        runs.push(run)?;
    }
    Ok(runs)
}

/// The first outcomes, of which each turn is shown.
pub(crate) fn shown(outcomes: &[RunOutcome]) -> &[RunOutcome]
    ensures { result.now ≡ take SHOWN outcomes.now }
{
    if outcomes.len() <= SHOWN {
        return outcomes;
    }
    &outcomes[..SHOWN]
}
