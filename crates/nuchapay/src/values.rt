//! Runs whose turns are explained.

ghost use Rattle.std.specs.Prelude.{◌≡◌, IfOk, IfSome};
ghost use Rattle.std.specs.Arc.{arc_value};
ghost use Rattle.swift_tool.specs.Run.{end_well};
ghost use Rattle.nuchapay.specs.Runs.{IsAsked, IsNotedRunOf, IsOfRun, IsReportOf, IsTurnMeant};

use nuchapay_runs::{Explained, explain_turn, report_with_values};
use nuchapay_tool::{TurnName, TurnWord};
use std::alloc::{AllocError, AllocGlobal, Global};
use std::random::RandomSource;
use std::sync::{Arc, Wait};
use std::thread::Threads;
use swift_events::Origin;
use swift_report::Report;
use swift_script::{Script, read};
use swift_tool::ToolFault;
use swift_types::{Ending, TaskId};
use swift_workers::{Open, run};
use task_names::find_task;

/// A text, and whether each task of the run ended with a value.
#[derive(Drop)]
pub struct Said {
    pub text: Vec<u8>,
    pub is_well: bool,
}

/// Runs the script that a text spells.
pub fn run_text<R>(rt: &R, text: &[u8], workers: u32) -> Result<(Arc<Script>, Report), ToolFault>
where
    R: RandomSource + AllocGlobal + Threads + Wait + Sync,
    ensures { IfOk result (λ r. IsReportOf text.now (arc_value r.0) r.1) }
{
    let alloc = rt.alloc();
    let found = read(alloc, text)?;
    found.facts();
    let script = Arc::new(alloc, found)?;
    let shared = Arc::clone(&script)?;
    let report = run(rt, shared, workers, &Open)?;
    Ok((script, report))
}

/// Whether each task ended with a value.
pub fn all_ended_well(endings: &[(Origin, Ending)]) -> bool
    ensures { result ≡ end_well endings.now }
{
    match endings {
        [] => true,
        [(_, ending), rest @ ..] => match ending {
            Ending::Value(_) => all_ended_well(rest),
            Ending::Fault(_) => false,
        },
    }
}

/// Runs a script: its report, with what each turn did to the fields.
pub fn report_of<R>(rt: &R, text: &[u8], workers: u32) -> Result<Said, ToolFault>
where
    R: RandomSource + AllocGlobal + Threads + Wait + Sync,
    ensures { IfOk result (λ said. IsNotedRunOf text.now said.text.items said.is_well) }
{
    let (script, report) = run_text(rt, text, workers)?;
    let is_well = all_ended_well(&report.endings);
    let text = report_with_values(rt.alloc(), &script, &report)?;
    Ok(Said { text, is_well })
}

/// A turn that was asked for.
#[derive(Drop)]
pub enum AskedTurn {
    /// This one, and what is known of it.
    Turn(TurnName, Explained),
    /// The run has no task of this name.
    NoTask,
}

// The turn that is meant, if there is a task of its name.
fn turn_meant(
    alloc: Global,
    script: &Script,
    report: &Report,
    word: TurnWord<'_>,
) -> Result<Option<TurnName>, AllocError>
    ensures { IfOk result (λ o. IfSome o (IsTurnMeant script.now report.now word.entry)) }
{
    match word {
        TurnWord::Numbered(name) => Ok(Some(name)),
        TurnWord::Named(name, number) => {
            let found = find_task(alloc, script, &report.endings, name.as_bytes())?;
            match found {
                Some(task) => Ok(Some(TurnName {
                    task: task.0,
                    number,
                })),
                None => Ok(None),
            }
        }
    }
}

/// Explains a turn of a report.
pub fn asked_turn(
    alloc: Global,
    script: &Script,
    report: &Report,
    word: TurnWord<'_>,
) -> Result<AskedTurn, AllocError>
    ensures { IfOk result (IsAsked word.entry script.now report.now) }
{
    match turn_meant(alloc, script, report, word)? {
        Some(name) => {
            let found = explain_turn(alloc, script, report, TaskId(name.task), name.number)?;
            Ok(AskedTurn::Turn(name, found))
        }
        None => Ok(AskedTurn::NoTask),
    }
}

/// Runs a script, and explains a turn.
pub fn explained_turn<R>(
    rt: &R,
    text: &[u8],
    word: TurnWord<'_>,
    workers: u32,
) -> Result<AskedTurn, ToolFault>
where
    R: RandomSource + AllocGlobal + Threads + Wait + Sync,
    ensures { IfOk result (λ found. IsOfRun text.now (λ script report. IsAsked word.entry script report found)) }
{
    let (script, report) = run_text(rt, text, workers)?;
    let found = asked_turn(rt.alloc(), &script, &report, word)?;
    Ok(found)
}
