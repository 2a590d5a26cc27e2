//! The turns of a run, in the order of its schedule.

ghost use Rattle.std.specs.Prelude.{◌≡◌, ◌+◌, ◌<◌, List, IfOk, IfSome, IsTrue, get_or, length, replicate, set, slice_get, unwrap_or, []};
ghost use Rattle.explorer_progress.specs.HintsInside.{AreTurns, AreTurnsTo, IsThere};

use std::alloc::{AllocError, Global};
use swift_explorer::Move;
use swift_journal::Journal;
use swift_report::Report;
use swift_types::TaskId;

/// A turn of a run.
#[derive(Clone, Copy)]
pub(crate) struct TurnAt {
    /// The place of the step that runs it, in the schedule.
    pub step: usize,
    pub task: TaskId,
    /// The number of its executor.
    pub executor: usize,
    /// Its place in the journal of that.
    pub place: usize,
}

// One more at this place. How many it was; none where the place is not there.
fn count(counts: &mut Vec<usize>, place: usize) -> Option<usize>
    ensures within { IfSome result (λ was. place < length counts.old.items) }
    ensures was { IfSome result (λ was. was ≡ get_or counts.old.items place 0) }
    ensures more { IfSome result (λ was. counts.new.items ≡ set counts.old.items place (was + 1)) }
{
    if place >= counts.len() {
        return None;
    }
    let was = counts[place];
    let more = was.checked_add(1)?;
    counts[place] = more;
    Some(was)
}

// Whether the turn at a place of a journal is this turn of a task.
fn is_there(journal: &Journal, place: usize, task: TaskId, number: usize) -> bool
    ensures { IsTrue result → IsThere journal.now place task.0 number }
{
    if place >= journal.len() || journal.task(place).0 != task.0 {
        return false;
    }
    journal.number(place) as usize == number
}

// The executor whose next turn, after as many as were taken of each, is this turn of a task.
fn executor_of(journals: &[Journal], taken: &[usize], task: TaskId, number: usize) -> Option<usize>
    ensures { IfSome result (λ e. IsThere (unwrap_or (slice_get journals.now e) []) (get_or taken.now e 0) task.0 number) }
{
    for executor in 0..journals.len() {
        if executor < taken.len() && is_there(&journals[executor], taken[executor], task, number) {
            return Some(executor);
        }
    }
    None
}

// How many turns of each executor, and of each task, were found.
#[derive(Drop)]
struct Found {
    taken: Vec<usize>,
    run: Vec<usize>,
}

// The turn that the step at a place runs, where it is this task's, after those that were found. Nothing where it is not there.
fn find_turn(report: &Report, found: &mut Found, step: usize, task: TaskId) -> Option<TurnAt>
    ensures step { IfSome result (λ turn. (turn.step ≡ step) × (turn.task ≡ task)) }
    ensures there { IfSome result (λ turn. IsThere (unwrap_or (slice_get report.now.journals.items turn.executor) []) turn.place task.0 (get_or found.old.run.items task.0 0)) }
    ensures within { IfSome result (λ turn. task.0 < length found.old.run.items) }
    ensures more { IfSome result (λ turn. found.new.run.items ≡ set found.old.run.items task.0 (get_or found.old.run.items task.0 0 + 1)) }
{
    let number = count(&mut found.run, task.0 as usize)?;
    let executor = executor_of(&report.journals, &found.taken, task, number)?;
    let place = count(&mut found.taken, executor)?;
    Some(TurnAt {
        step,
        task,
        executor,
        place,
    })
}

// Adds the turn that the step at a place runs, if it runs one, to those of the steps before. Whether it is there.
fn add_turn(
    turns: &mut Vec<TurnAt>,
    found: &mut Found,
    schedule: &[Move],
    report: &Report,
    step: usize,
) -> Result<bool, AllocError>
    requires within { step < length schedule.now }
    requires before { AreTurnsTo report.now schedule.now step turns.old.items found.old.run.items }
    ensures { IfOk result (λ yes. IsTrue yes → AreTurnsTo report.now schedule.now (step + 1) turns.new.items found.new.run.items) }
{
    match schedule[step] {
        Move::Run(task) => {
            let Some(turn) = find_turn(report, found, step, task) else {
                return Ok(false);
            };
            turns.push(turn)?;
            Ok(true)
        }
        Move::Add => Ok(true),
        Move::Begin(_) => Ok(true),
    }
}

/// The turns of a report, as its schedule runs them, each where its journal has it. Nothing where one is not there, as in the report of
/// another schedule. Linear in the steps, times the executors.
pub(crate) fn turns_of(
    alloc: Global,
    schedule: &[Move],
    report: &Report,
) -> Result<Option<Vec<TurnAt>>, AllocError>
    ensures { IfOk result (λ o. IfSome o (λ turns. AreTurns report.now schedule.now turns.items)) }
{
    let mut found = Found {
        taken: vec![in alloc; 0_usize; report.journals.len()]?,
        run: vec![in alloc; 0_usize; report.endings.len()]?,
    };
    let mut turns = Vec::new(alloc);
    for step in 0..schedule.len() {
        if !add_turn(&mut turns, &mut found, schedule, report, step)? {
            return Ok(None);
        }
    }
    Ok(Some(turns))
}
