//! Turns that repeat at the end of a run.

ghost use Rattle.std.specs.Prelude.{◌≤◌, IfOk, IfSome, IsTrue};
ghost use Rattle.explorer_progress.specs.HintsInside.{AllRepeat, AreRepeated, RepeatsAt};

use crate::again::PlayedReport;
use crate::turns::TurnAt;
use std::alloc::{AllocError, Global};
use swift_journal::{BriefExit, Journal};

// Of more turns than this nobody sees that they repeat.
const LONGEST: usize = 1_000;

/// Turns that repeat: from this place on those at `from..from + period`, again and again.
#[derive(Clone, Copy)]
pub(crate) struct Repeated {
    pub from: usize,
    pub period: usize,
}

// Whether the turn at a place does what that did which stands so many before it.
fn repeats_at(
    alloc: Global,
    run: &PlayedReport,
    turns: &[TurnAt],
    scratch: &mut Journal,
    later: usize,
    period: usize,
) -> Result<bool, AllocError>
    ensures { IfOk result (λ yes. IsTrue yes → RepeatsAt run.now turns.now period later) }
{
    if later >= turns.len() || later < period {
        return Ok(false);
    }
    run.is_again(alloc, scratch, turns[later - period], turns[later])
}

// Whether as many turns before a place do what as many did before them.
fn repeats_before(
    alloc: Global,
    run: &PlayedReport,
    turns: &[TurnAt],
    scratch: &mut Journal,
    end: usize,
    period: usize,
) -> Result<bool, AllocError> {
    let mut later = end;
    for _ in 0..period {
        later = later.saturating_sub(1);
        if !repeats_at(alloc, run, turns, scratch, later, period)? {
            return Ok(false);
        }
    }
    Ok(true)
}

// How many turns before a place are the fewest that repeat.
fn period_before(
    alloc: Global,
    run: &PlayedReport,
    turns: &[TurnAt],
    scratch: &mut Journal,
    end: usize,
) -> Result<Option<usize>, AllocError>
    ensures { IfOk result (λ o. IfSome o (λ period. 1 ≤ period)) }
{
    for fewer in 0..LONGEST {
        let period = fewer + 1;
        if period > end / 2 {
            return Ok(None);
        }
        if repeats_before(alloc, run, turns, scratch, end, period)? {
            return Ok(Some(period));
        }
    }
    Ok(None)
}

// From which place on each turn up to another place repeats.
fn first_repeated(
    alloc: Global,
    run: &PlayedReport,
    turns: &[TurnAt],
    scratch: &mut Journal,
    end: usize,
    period: usize,
) -> Result<usize, AllocError>
    ensures { IfOk result (λ from. AllRepeat run.now turns.now period from end) }
{
    let mut from = end;
    for _ in 0..end {
        let later = from.saturating_sub(1);
        if !repeats_at(alloc, run, turns, scratch, later, period)? {
            return Ok(from);
        }
        from = later;
    }
    Ok(from)
}

/// The turns that repeat up to a place, where some do.
pub(crate) fn repeated_before(
    alloc: Global,
    run: &PlayedReport,
    turns: &[TurnAt],
    end: usize,
) -> Result<Option<Repeated>, AllocError>
    ensures { IfOk result (λ o. IfSome o (AreRepeated run.now turns.now end)) }
{
    let mut scratch = Journal::new(alloc);
    let Some(period) = period_before(alloc, run, turns, &mut scratch, end)? else {
        return Ok(None);
    };
    let again = first_repeated(alloc, run, turns, &mut scratch, end, period)?;
    Ok(Some(Repeated {
        from: again.saturating_sub(period),
        period,
    }))
}

// How many frames more a task has after a turn that ends so. Nothing of one after which it may wait for others.
fn frames_more(exit: BriefExit) -> Option<i64> {
    match exit {
        BriefExit::Call(_, _) => Some(1),
        BriefExit::Return(_) | BriefExit::Fault(_) => Some(-1),
        BriefExit::Yield | BriefExit::Wait(_) => Some(0),
        BriefExit::Next(_) | BriefExit::Close(_, _) => None,
    }
}

// How many frames more a task has after these turns; 1 where one of them may wait for others.
fn all_frames_more(run: &PlayedReport, turns: &[TurnAt], task: u32) -> i64 {
    let mut frames: i64 = 0;
    for turn in turns {
        if turn.task.0 == task {
            let Some(exit) = run.exit(*turn) else {
                return 1;
            };
            let Some(more) = frames_more(exit) else {
                return 1;
            };
            frames = frames.saturating_add(more);
        }
    }
    frames
}

/// Whether each task has as many frames after these turns as before them, and none of them waits for others.
pub(crate) fn leaves_frames(run: &PlayedReport, turns: &[TurnAt]) -> bool {
    for turn in turns {
        if all_frames_more(run, turns, turn.task.0) != 0 {
            return false;
        }
    }
    true
}
