//! The steps of a schedule, as a value of JSON has them.

ghost use Rattle.std.specs.Prelude.{IfOk, IfSome, map};
ghost use Rattle.serde_json.specs.View.{view};
ghost use Rattle.explorer_files.specs.Steps.{AreSavedSteps, HasTask, IsSavedSchedule, IsSavedStep};

use serde_json::Value;
use std::alloc::{AllocError, Global};
use swift_explorer::Move;
use swift_types::TaskId;

// The task of a step.
fn task_of(step: &Value) -> Option<TaskId>
    ensures { IfSome result (λ task. HasTask task.0 (view step.now)) }
{
    let number = step.get("task").and_then(Value::as_u64)?;
    match u32::try_from(number) {
        Ok(task) => Some(TaskId(task)),
        Err(_) => None,
    }
}

// The step that a value is.
fn step_of(step: &Value) -> Option<Move>
    ensures { IfSome result (IsSavedStep (view step.now)) }
{
    let word = step.get("is").and_then(Value::as_str)?;
    if word == "add" {
        return Some(Move::Add);
    }
    let task = task_of(step)?;
    if word == "begin" {
        return Some(Move::Begin(task));
    }
    if word == "run" {
        return Some(Move::Run(task));
    }
    None
}

// The steps that values are, in order.
fn steps_of(alloc: Global, values: &[Value]) -> Result<Option<Vec<Move>>, AllocError>
    ensures { IfOk result (λ found. IfSome found (λ steps. AreSavedSteps (map view values.now) steps.items)) }
{
    let mut steps = Vec::with_capacity(alloc, values.len())?;
    for value in values {
        match step_of(value) {
            Some(step) => steps.push(step)?,
            None => return Ok(None),
        }
    }
    Ok(Some(steps))
}

/// The schedule that a value is, if it is one.
pub(crate) fn schedule_of(alloc: Global, value: &Value) -> Result<Option<Vec<Move>>, AllocError>
    ensures { IfOk result (λ found. IfSome found (λ steps. IsSavedSchedule (view value.now) steps.items)) }
{
    match value.as_array() {
        Some(values) => steps_of(alloc, values),
        None => Ok(None),
    }
}
