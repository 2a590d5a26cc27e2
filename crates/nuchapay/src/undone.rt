//! The turn that a schedule ends with, and whether an invariant undoes it.

ghost use Rattle.std.specs.Prelude.{◌≡◌, ◌-◌, IfOk, IfSome, IsTrue, length, option_and_then, slice_get};
ghost use Rattle.swift_explorer.specs.FoundText.{begins, turns_before};
ghost use Rattle.nuchapay.specs.LastTurns.{EndsWith, IsUndoneLast, task_of};

use nuchapay_tool::TurnName;
use run_pictures::breaks_invariant;
use std::alloc::{AllocError, Global};
use swift_explorer::Move;
use swift_report::Report;
use swift_script::Script;
use swift_types::TaskId;

fn begins(task: TaskId, step: Move) -> bool
    ensures { result ≡ begins task.0 step }
{
    match step {
        Move::Begin(begun) => begun.0 == task.0,
        _ => false,
    }
}

/// How many turns of a task these steps begin.
pub fn begun(path: &[Move], task: TaskId) -> usize
    ensures { result ≡ turns_before task.0 path.now (length path.now) }
{
    let mut turns: usize = 0;
    for at in 0..path.len() {
        if begins(task, path[at]) {
            turns += 1;
        }
    }
    turns
}

// The number of the task whose turn begins or runs in a step.
fn task_of(step: Move) -> Option<u32>
    ensures { result ≡ task_of step }
{
    match step {
        Move::Add => None,
        Move::Begin(task) | Move::Run(task) => Some(task.0),
    }
}

// That of the last of these steps.
fn last_task(steps: &[Move]) -> Option<u32>
    ensures { result ≡ option_and_then task_of (slice_get steps.now (length steps.now - 1)) }
{
    task_of(*steps.last()?)
}

/// The turn that the last of these steps begins or runs.
pub fn last_turn(steps: &[Move]) -> Option<TurnName>
    ensures { IfSome result (EndsWith steps.now) }
{
    let task = last_task(steps)?;
    let turns = begun(steps, TaskId(task));
    let number = u32::try_from(turns.saturating_sub(1)).ok()?;
    Some(TurnName { task, number })
}

/// Whether the turn that these steps end with was undone by an invariant, in a report that they make.
pub fn is_undone_last(
    alloc: Global,
    script: &Script,
    steps: &[Move],
    report: &Report,
) -> Result<bool, AllocError>
    ensures { IfOk result (λ yes. IsTrue yes → IsUndoneLast script.now steps.now report.now) }
{
    match last_turn(steps) {
        Some(turn) => breaks_invariant(alloc, script, report, TaskId(turn.task), turn.number),
        None => Ok(false),
    }
}
