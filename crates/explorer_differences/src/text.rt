//! Steps of two schedules, and how tasks have ended.

ghost use Rattle.std.specs.Prelude.{◌≡◌, ◌++◌, IfOk, OnOk, codes, count_by, decimal};
ghost use Rattle.swift_explorer.specs.FoundText.{ended_text, schedule_text};
ghost use Rattle.explorer_differences.specs.Difference.{agreement_text, difference_text, ended_difference, ends_difference, is_space, many_steps_text, shared_text, steps_difference, then_text};

use crate::lines::{after_line, after_lines, back, front, put_lines, put_number};
use crate::names::put_names;
use crate::words::shared_words;
use std::alloc::{AllocError, Global};
use swift_explorer::{Move, RunOutcome, put_ended, put_many, schedule_text};
use swift_script::Script;

// The bytes of the word that the line of a schedule begins with.
const WORD: usize = 8;

// How many steps these are, each of which has a space before it.
fn steps_in(steps: &[u8]) -> usize
    ensures { result ≡ count_by is_space steps.now }
{
    steps.iter().filter(|byte| **byte == b' ').count()
}

// For how many steps two schedules agree.
fn put_many_steps(out: &mut Vec<u8>, steps: &[u8]) -> Result<(), AllocError>
    ensures { OnOk result (out.new.items ≡ out.old.items ++ many_steps_text steps.now) }
{
    out.extend_from_slice(b"the schedules agree for ")?;
    put_many(out, steps_in(steps), b"step", b"steps")
}

// The steps for which they do.
fn put_shared(out: &mut Vec<u8>, steps: &[u8]) -> Result<(), AllocError>
    ensures { OnOk result (out.new.items ≡ out.old.items ++ shared_text steps.now) }
{
    put_many_steps(out, steps)?;
    out.extend_from_slice(b":")?;
    out.extend_from_slice(steps)?;
    out.extend_from_slice(b"\n")
}

// The steps that two schedules begin with, if any.
fn put_agreement(out: &mut Vec<u8>, steps: &[u8]) -> Result<(), AllocError>
    ensures { OnOk result (out.new.items ≡ out.old.items ++ agreement_text steps.now) }
{
    if steps.is_empty() {
        return out.extend_from_slice(b"the schedules part at the first step\n");
    }
    put_shared(out, steps)
}

// The steps that the schedule of an outcome goes on with.
fn put_then(out: &mut Vec<u8>, number: u32, steps: &[u8]) -> Result<(), AllocError>
    ensures { OnOk result (out.new.items ≡ out.old.items ++ then_text number steps.now) }
{
    out.extend_from_slice(b"then ")?;
    put_number(out, number)?;
    out.extend_from_slice(b":")?;
    out.extend_from_slice(steps)
}

// Up to where the lines of two schedules agree, and how each goes on.
fn put_parting(
    out: &mut Vec<u8>,
    numbers: (u32, u32),
    first: &[u8],
    second: &[u8],
) -> Result<(), AllocError>
    ensures { OnOk result (out.new.items ≡ out.old.items ++ steps_difference numbers.0 numbers.1 first.now second.now) }
{
    let shared = shared_words(first, second);
    put_agreement(out, back(front(first, shared), WORD))?;
    put_then(out, numbers.0, back(first, shared))?;
    put_then(out, numbers.1, back(second, shared))
}

// Up to where two schedules agree, and how each goes on.
fn put_schedules(
    alloc: Global,
    out: &mut Vec<u8>,
    numbers: (u32, u32),
    first: &[Move],
    second: &[Move],
) -> Result<(), AllocError>
    ensures { OnOk result (out.new.items ≡ out.old.items ++ steps_difference numbers.0 numbers.1 (schedule_text first.now) (schedule_text second.now)) }
{
    let left = schedule_text(alloc, first)?;
    let right = schedule_text(alloc, second)?;
    put_parting(out, numbers, &left, &right)
}

// How the tasks of an outcome have ended, and its fields.
fn ended(alloc: Global, script: &Script, outcome: &RunOutcome) -> Result<Vec<u8>, AllocError>
    ensures { IfOk result (λ text. text.items ≡ ended_text script.now outcome.now) }
{
    let mut out = Vec::new(alloc);
    put_ended(alloc, &mut out, script, outcome)?;
    Ok(out)
}

// Which tasks end otherwise, and which fields have other values, of texts that have the lines of so many tasks.
fn put_ended_lines(
    out: &mut Vec<u8>,
    numbers: (u32, u32),
    first: &[u8],
    second: &[u8],
    tasks: (usize, usize),
) -> Result<(), AllocError>
    ensures { OnOk result (out.new.items ≡ out.old.items ++ ended_difference numbers.0 numbers.1 first.now second.now tasks.0 tasks.1) }
{
    let fields = after_lines(after_line(first), tasks.0);
    let others = after_lines(after_line(second), tasks.1);
    put_lines(
        out,
        numbers,
        front(first, first.len().saturating_sub(fields.len())),
        front(second, second.len().saturating_sub(others.len())),
    )?;
    put_lines(out, numbers, fields, others)
}

// Which tasks of two outcomes end otherwise, and which fields have other values.
fn put_ends(
    alloc: Global,
    out: &mut Vec<u8>,
    script: &Script,
    numbers: (u32, u32),
    first: &RunOutcome,
    second: &RunOutcome,
) -> Result<(), AllocError>
    ensures { OnOk result (out.new.items ≡ out.old.items ++ ends_difference script.now numbers.0 numbers.1 first.now second.now) }
{
    let left = ended(alloc, script, first)?;
    let right = ended(alloc, script, second)?;
    let tasks = (first.endings.len(), second.endings.len());
    put_ended_lines(out, numbers, &left, &right, tasks)
}

/// In what two outcomes of a script differ, which have these numbers in the list of a search (the format is our own): the steps that their
/// schedules begin with, both of them, and how each goes on from there; what the tasks are called; then a line of each task that ends
/// otherwise and of each field that has another value, with what each outcome has there. Steps and lines are as the list of a search has
/// them; what is told alike is left out. Linear in the fields, in the square of the schedules' steps, and in the square of the tasks, for
/// each of their makers.
///
/// # Errors
///
/// `AllocError` where no memory is left for the text.
pub fn difference_text(
    alloc: Global,
    script: &Script,
    numbers: (u32, u32),
    first: &RunOutcome,
    second: &RunOutcome,
) -> Result<Vec<u8>, AllocError>
    ensures { IfOk result (λ text. text.items ≡ difference_text script.now numbers.0 numbers.1 first.now second.now) }
{
    let mut out = Vec::new(alloc);
    put_schedules(alloc, &mut out, numbers, &first.schedule, &second.schedule)?;
    put_names(alloc, &mut out, script, numbers, first, second)?;
    put_ends(alloc, &mut out, script, numbers, first, second)?;
    Ok(out)
}
