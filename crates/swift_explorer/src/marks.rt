//! Marks of instructions: what they say holds from an instruction that has one up to each end of the turn that comes next.

ghost use Rattle.std.specs.Prelude.{◌≡◌, IfOk, IsTrue, true};
ghost use Rattle.swift_script.specs.Scripts.{ScriptView};
ghost use Rattle.swift_turn.specs.Body.{IsRunning};
ghost use Rattle.swift_reordering.specs.Marks.{AreMarked, is_marked, may_be_marked, turn_ends};
ghost use Rattle.swift_reordering.specs.Statements.{instruction_is};
ghost use Rattle.swift_explorer.specs.MarksInside.{AreTold, HaveMarks, frames_are, operation_is, term_is};

use crate::away::instruction_looks_away;
use crate::history::none_used;
use crate::silent::line_is_own;
use script_code::{Act, Instruction};
use std::alloc::{AllocError, Global};
use swift_script::Script;
use swift_turn::Body;
use swift_types::MethodId;

// What marks say.
#[derive(Clone, Copy)]
pub(crate) enum MarkKind {
    // The turn is silent.
    Silent,
    // It looks away.
    Away,
    // It looks away where its task is cancelled.
    AwayCancelled,
}

/// By which marks it is told that turns look away.
#[derive(Drop)]
pub(crate) struct AwayMarks {
    // Those of any task.
    pub(crate) any: Vec<Vec<bool>>,
    // Those of a task that is cancelled.
    pub(crate) cancelled: Vec<Vec<bool>>,
}

// Whether an instruction is so, wherever it goes on.
fn line_is(kind: MarkKind, line: &Instruction) -> bool
    ensures { result ≡ instruction_is (operation_is kind) (term_is kind) line.now }
{
    match kind {
        MarkKind::Silent => line_is_own(line),
        MarkKind::Away => instruction_looks_away(line, false),
        MarkKind::AwayCancelled => instruction_looks_away(line, true),
    }
}

// Whether the turn ends with an instruction.
fn turn_ends(line: &Instruction) -> bool
    ensures { result ≡ turn_ends line.now }
{
    match &line.act {
        Act::End | Act::Return(_) | Act::Throw(_) | Act::Yield | Act::Wait(_) => true,
        _ => false,
    }
}

// Whether an instruction has a mark; one past the last has.
fn is_marked(marks: &[bool], place: u32) -> bool
    ensures { result ≡ is_marked marks.now place }
{
    match marks.get(place as usize) {
        Some(mark) => *mark,
        None => true,
    }
}

// Whether an instruction is so, and the turn ends with it or goes on with one that has a mark.
fn may_be_marked(kind: MarkKind, marks: &[bool], line: &Instruction) -> bool
    ensures { result ≡ may_be_marked (operation_is kind) (term_is kind) marks.now line.now }
{
    if !line_is(kind, line) {
        return false;
    }
    if turn_ends(line) {
        return true;
    }
    match &line.act {
        Act::Test(_) => is_marked(marks, line.next) && is_marked(marks, line.other),
        _ => is_marked(marks, line.next),
    }
}

// Whether an instruction may have its mark, where it has one.
fn line_is_right(kind: MarkKind, marks: &[bool], place: usize, line: &Instruction) -> bool
    ensures { IsTrue result → is_marked marks.now place ≡ true → may_be_marked (operation_is kind) (term_is kind) marks.now line.now ≡ true }
{
    let Ok(number) = u32::try_from(place) else {
        return false;
    };
    !is_marked(marks, number) || may_be_marked(kind, marks, line)
}

// Whether each instruction that has a mark may have it.
fn are_marked(kind: MarkKind, marks: &[bool], lines: &[Instruction]) -> bool
    ensures { IsTrue result → AreMarked (operation_is kind) (term_is kind) marks.now lines.now }
{
    for place in 0..lines.len() {
        if !line_is_right(kind, marks, place, &lines[place]) {
            return false;
        }
    }
    true
}

// Takes the mark from each instruction that may not have it. Most instructions are followed by one with a smaller number, so that it has
// been looked at by then.
fn unmark(kind: MarkKind, marks: &mut [bool], lines: &[Instruction]) {
    for place in 0..lines.len() {
        if place < marks.len() && marks[place] && !may_be_marked(kind, marks, &lines[place]) {
            marks[place] = false;
        }
    }
}

// Marks for the instructions of a method. It takes passes over the instructions until one changes nothing: some more than loops lie in one
// another.
fn marks_of(alloc: Global, kind: MarkKind, lines: &[Instruction]) -> Result<Vec<bool>, AllocError>
    ensures { IfOk result (λ marks. AreMarked (operation_is kind) (term_is kind) marks.items lines.now) }
{
    let mut marks = vec![in alloc; true; lines.len()]?;
    for _ in 0..lines.len() {
        if are_marked(kind, &marks, lines) {
            return Ok(marks);
        }
        unmark(kind, &mut marks, lines);
    }
    none_used(alloc, lines.len())
}

/// The same for each method, by its number.
pub(crate) fn methods_marks(
    alloc: Global,
    kind: MarkKind,
    script: &Script,
) -> Result<Vec<Vec<bool>>, AllocError>
    ensures { IfOk result (λ marks. HaveMarks kind script.now marks.items) }
{
    let count = script.method_count();
    let mut marks = Vec::with_capacity(alloc, count)?;
    for place in 0..count {
        let Ok(number) = u32::try_from(place) else {
            return Ok(marks);
        };
        let own = marks_of(alloc, kind, script.instructions(MethodId(number)))?;
        marks.push(own)?;
    }
    Ok(marks)
}

/// Marks of each method that tell which turns look away.
pub(crate) fn away_marks(alloc: Global, script: &Script) -> Result<AwayMarks, AllocError>
    ensures { IfOk result (AreTold script.now) }
{
    let any = methods_marks(alloc, MarkKind::Away, script)?;
    let cancelled = methods_marks(alloc, MarkKind::AwayCancelled, script)?;
    Ok(AwayMarks { any, cancelled })
}

/// Whether marks say it of the next turn of a task with these frames.
pub(crate) fn body_is_marked(body: &Body, marks: &[Vec<bool>]) -> bool
    requires { IsRunning body.now }
    ensures { IsTrue result → (kind : MarkKind) (script : ScriptView) → HaveMarks kind script marks.now → frames_are kind script body.now.task.frames ≡ true }
{
    let frame = body.top();
    if frame.pending.is_some() {
        return true;
    }
    match marks.get(frame.method.0 as usize) {
        Some(own) => is_marked(own, frame.instruction),
        None => false,
    }
}
