//! How the tasks of an outcome have ended, and its fields.

ghost use Rattle.std.specs.Prelude.{◌≡◌, ◌++◌, IfOk, OnOk, map};
ghost use Rattle.script_code.specs.Seen.{rows_of};
ghost use Rattle.explorer_json.specs.AnswerJson.{ended_json};

use crate::append::say;
use std::alloc::{AllocError, Global};
use swift_explorer::RunOutcome;
use swift_log::EventLog;
use swift_report::{Report, report_json};
use swift_script::Script;

// A copy of the fields of an executor.
fn copy_of(alloc: Global, rows: &[Vec<i64>]) -> Result<Vec<Vec<i64>>, AllocError>
    ensures { IfOk result (λ copy. rows_of copy.items ≡ rows_of rows.now) }
{
    let mut copy = Vec::with_capacity(alloc, rows.len())?;
    for row in rows {
        copy.push(Vec::from_slice(alloc, row)?)?;
    }
    Ok(copy)
}

// A copy of the fields of all executors.
fn all_copied(alloc: Global, all: &[Vec<Vec<i64>>]) -> Result<Vec<Vec<Vec<i64>>>, AllocError>
    ensures { IfOk result (λ copy. map (λ rows. rows_of rows.items) copy.items ≡ map (λ rows. rows_of rows.items) all.now) }
{
    let mut copy = Vec::with_capacity(alloc, all.len())?;
    for rows in all {
        copy.push(copy_of(alloc, rows)?)?;
    }
    Ok(copy)
}

// A report that has the tasks and the fields of an outcome, and nothing else.
fn ended_report(alloc: Global, outcome: &RunOutcome) -> Result<Report, AllocError>
    ensures endings { IfOk result (λ report. report.endings.items ≡ outcome.now.endings.items) }
    ensures fields { IfOk result (λ report. map (λ rows. rows_of rows.items) report.fields.items ≡ map (λ rows. rows_of rows.items) outcome.now.fields.items) }
{
    let endings = Vec::from_slice(alloc, &outcome.endings)?;
    let fields = all_copied(alloc, &outcome.fields)?;
    Ok(Report {
        journals: Vec::new(alloc),
        checkpoints: Vec::new(alloc),
        log: EventLog::new(alloc),
        endings,
        fields,
    })
}

/// Appends the tasks and the fields of an outcome, as the report of a run without journals has them.
pub(crate) fn put_ended(
    alloc: Global,
    out: &mut Vec<u8>,
    script: &Script,
    outcome: &RunOutcome,
) -> Result<(), AllocError>
    ensures { OnOk result (out.new.items ≡ out.old.items ++ ended_json script.now outcome.now) }
{
    let report = ended_report(alloc, outcome)?;
    let text = report_json(alloc, script, &report, true)?;
    say(out, &text)
}
