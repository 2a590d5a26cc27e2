//! A schedule that is run again.

ghost use Rattle.std.specs.Prelude.{IfOk, IfSome};
ghost use Rattle.std.specs.Arc.{arc_value};
ghost use Rattle.swift_explorer.specs.Outcomes.{IsLogOf};

use crate::history::{Followed, SearchedHistory};
use crate::moves::Move;
use crate::search::follow;
use std::alloc::{AllocError, Global};
use std::sync::Arc;
use swift_report::Report;
use swift_script::Script;

/// The report of a schedule: its steps are done again from the beginning, by one worker, and each turn is written into the journal of its
/// executor. Nothing where a step may not follow, or where some task has not ended then. A schedule that a search gives with an
/// outcome leads to it again (our own).
///
/// Its log is that of the schedule. That the report is legal is not promised here; `legal` of swift_certificate tells.
///
/// # Errors
///
/// `AllocError` where no memory was left.
pub fn schedule_report(
    alloc: Global,
    script: &Arc<Script>,
    schedule: &[Move],
) -> Result<Option<Report>, AllocError>
    ensures { IfOk result (λ o. IfSome o (λ report. IsLogOf (arc_value script.now) schedule.now report.log.events)) }
{
    let mut history = SearchedHistory::with_journals(alloc, script)?;
    match follow(&mut history, schedule) {
        Ok(Followed::No) => {
            history.close();
            Ok(None)
        }
        Ok(_) => history.into_report(),
        Err(fault) => {
            history.close();
            Err(fault)
        }
    }
}
