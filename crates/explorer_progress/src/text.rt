//! A hint in words.

ghost use Rattle.std.specs.Prelude.{◌≡◌, ◌++◌, IfOk, OnOk, decimal};
ghost use Rattle.explorer_progress.specs.HintText.{between_text, called_text, hint_text, listed_text, repeats_text, round_text, tasks_text, turns_text, verb_text};

use crate::hint::{NoProgress, RepeatedTask};
use itoa::Buffer;
use std::alloc::{AllocError, Global};
use swift_events::Origin;
use swift_script::Script;
use swift_types::{Ending, TaskId};
use task_names::put_task_name;

// Appends a number.
fn put_number(out: &mut Vec<u8>, number: usize) -> Result<(), AllocError>
    ensures { OnOk result (out.new.items ≡ out.old.items ++ decimal number) }
{
    let mut buffer = Buffer::new();
    out.extend_from_slice(buffer.format(number).as_bytes())
}

// A task, with its name beside its number.
fn put_called(
    out: &mut Vec<u8>,
    script: &Script,
    endings: &[(Origin, Ending)],
    task: TaskId,
) -> Result<(), AllocError>
    ensures { OnOk result (out.new.items ≡ out.old.items ++ called_text script.now endings.now task.0) }
{
    out.extend_from_slice(b"t")?;
    put_number(out, task.0 as usize)?;
    out.extend_from_slice(b" (")?;
    put_task_name(out, script, endings, task)?;
    out.extend_from_slice(b")")
}

// What stands before a task at this place, of so many.
fn between(place: usize, many: usize) -> &'static [u8]
    ensures { result.now ≡ between_text place many }
{
    if place == 0 {
        b""
    } else if place == many.saturating_sub(1) {
        b" and "
    } else {
        b", "
    }
}

// That and the task.
fn put_listed(
    out: &mut Vec<u8>,
    script: &Script,
    endings: &[(Origin, Ending)],
    place: usize,
    many: usize,
    one: RepeatedTask,
) -> Result<(), AllocError>
    ensures { OnOk result (out.new.items ≡ out.old.items ++ listed_text script.now endings.now place many one) }
{
    out.extend_from_slice(between(place, many))?;
    put_called(out, script, endings, one.task)
}

// Tasks, of which there are so many: `t0 (a), t1 (b) and t2 (b/1)`.
fn put_tasks(
    out: &mut Vec<u8>,
    script: &Script,
    endings: &[(Origin, Ending)],
    tasks: &[RepeatedTask],
    many: usize,
) -> Result<(), AllocError>
    ensures { OnOk result (out.new.items ≡ out.old.items ++ tasks_text script.now endings.now 0 many tasks.now) }
{
    for place in 0..tasks.len() {
        put_listed(out, script, endings, place, many, tasks[place])?;
    }
    Ok(())
}

// What one task does, or several do.
fn verb(many: usize) -> &'static [u8]
    ensures { result.now ≡ verb_text many }
{
    if many == 1 {
        b" repeats the last "
    } else {
        b" repeat the last "
    }
}

// So many turns.
fn put_turns(out: &mut Vec<u8>, turns: usize) -> Result<(), AllocError>
    ensures { OnOk result (out.new.items ≡ out.old.items ++ turns_text turns) }
{
    if turns == 1 {
        return out.extend_from_slice(b"turn");
    }
    put_number(out, turns)?;
    out.extend_from_slice(b" turns")
}

// So many turns, and of what.
fn put_round(out: &mut Vec<u8>, turns: usize) -> Result<(), AllocError>
    ensures { OnOk result (out.new.items ≡ out.old.items ++ round_text turns) }
{
    put_turns(out, turns)?;
    out.extend_from_slice(b" of this schedule, and no other task is ready")
}

// How many turns so many tasks repeat.
fn put_repeats(out: &mut Vec<u8>, many: usize, turns: usize) -> Result<(), AllocError>
    ensures { OnOk result (out.new.items ≡ out.old.items ++ repeats_text many turns) }
{
    out.extend_from_slice(verb(many))?;
    put_round(out, turns)
}

/// Which tasks of a script repeat how many turns, in words (the format is our own): `t0 (a) and t1 (b) repeat the last 2 turns of this
/// schedule, and no other task is ready`.
///
/// # Errors
///
/// `AllocError` where no memory is left for the text.
pub fn hint_text(alloc: Global, script: &Script, hint: &NoProgress) -> Result<Vec<u8>, AllocError>
    ensures { IfOk result (λ text. text.items ≡ hint_text script.now hint.now) }
{
    let mut out = Vec::new(alloc);
    let many = hint.tasks.len();
    put_tasks(&mut out, script, &hint.endings, &hint.tasks, many)?;
    put_repeats(&mut out, many, hint.turns)?;
    Ok(out)
}

/// A task of a hint, with its name beside its number: `t2 (b/1)`.
///
/// # Errors
///
/// `AllocError` where no memory is left for the text.
pub fn called_text(
    alloc: Global,
    script: &Script,
    hint: &NoProgress,
    task: TaskId,
) -> Result<Vec<u8>, AllocError>
    ensures { IfOk result (λ text. text.items ≡ called_text script.now hint.now.endings.items task.0) }
{
    let mut out = Vec::new(alloc);
    put_called(&mut out, script, &hint.endings, task)?;
    Ok(out)
}
