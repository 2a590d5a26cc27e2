//! From a search to a hint.

ghost use Rattle.std.specs.Prelude.{◌≡◌, ◌+◌, ◌<◌, ◌≤◌, List, [], IfOk, IfSome, OnOk, length, min, take};
ghost use Rattle.std.specs.Arc.{arc_value};
ghost use Rattle.swift_journal.specs.Records.{RecordView};
ghost use Rattle.explorer_progress.specs.Hints.{IsHint, IsReportOf};
ghost use Rattle.explorer_progress.specs.HintsInside.{AreRecords, AreRepeated, AreTurns, Begins, IsIn, IsLimit, IsOf, IsPlayed};
ghost use Rattle.explorer_progress.specs.Rounds.{is_told, tasks_of, told, with_task};

use crate::again::{PlayedReport, played};
use crate::repeated::{Repeated, leaves_frames, repeated_before};
use crate::turns::{TurnAt, turns_of};
use std::alloc::{AllocError, Global};
use std::sync::Arc;
use swift_certificate::legal;
use swift_events::Origin;
use swift_explorer::{
    Completion, FoundOutcomes, Move, RunOutcome, complete_schedule, schedule_report,
};
use swift_report::Report;
use swift_script::Script;
use swift_types::{Ending, Fault, MethodId, TaskId};

// A search of a script with more roots is led to no end for a hint: that takes time by the square of the tasks.
const ROOTS: usize = 64;

/// A task whose turns repeat, and the method that the first of these is of.
#[derive(Clone, Copy)]
pub struct RepeatedTask {
    pub task: TaskId,
    pub method: MethodId,
}

/// Tasks that repeat their turns (our own): as a run goes on after the schedule, each turn does what the one a round before it did.
#[derive(Drop)]
pub struct NoProgress {
    /// A schedule that ends with the first round.
    pub schedule: Vec<Move>,
    /// How many turns a round has.
    pub turns: usize,
    /// The tasks, each one once.
    pub tasks: Vec<RepeatedTask>,
    /// Where the tasks come from of a run that begins so, and how they end there.
    pub endings: Vec<(Origin, Ending)>,
}

// Whether a task was ended since it had had all its turns.
fn ends_at_limit(endings: &[(Origin, Ending)]) -> bool {
    for ended in endings {
        if matches!(ended.1, Ending::Fault(Fault::Turns)) {
            return true;
        }
    }
    false
}

// The first outcome in which some task was ended so.
fn first_at_limit(outcomes: &[RunOutcome]) -> Option<&RunOutcome> {
    for outcome in outcomes {
        if ends_at_limit(&outcome.endings) {
            return Some(outcome);
        }
    }
    None
}

// The place of the first turn that begins with the fault of a task that has had all its turns.
fn limit_in(run: &PlayedReport, turns: &[TurnAt]) -> Option<usize>
    ensures { IfSome result (IsLimit run.now.report turns.now) }
{
    for place in 0..turns.len() {
        if run.is_at_limit(turns[place]) {
            return Some(place);
        }
    }
    None
}

// The turns of a task among the first of these.
fn turns_of_task(
    alloc: Global,
    turns: &[TurnAt],
    end: usize,
    task: TaskId,
) -> Result<Vec<TurnAt>, AllocError> {
    let mut own = Vec::new(alloc);
    for turn in &turns[..end.min(turns.len())] {
        if turn.task.0 == task.0 {
            own.push(*turn)?;
        }
    }
    Ok(own)
}

// So many of the first steps of a schedule, or all where there are fewer.
fn first_steps(alloc: Global, schedule: &[Move], many: usize) -> Result<Vec<Move>, AllocError>
    ensures { IfOk result (λ steps. steps.items ≡ take (min many (length schedule.now)) schedule.now) }
{
    let many = many.min(schedule.len());
    Vec::from_slice(alloc, &schedule[..many])
}

// The steps up to the one at a place.
fn steps_to(alloc: Global, schedule: &[Move], step: usize) -> Result<Vec<Move>, AllocError>
    ensures begins { IfOk result (λ steps. Begins steps.items schedule.now) }
    ensures upto { IfOk result (λ steps. step < length schedule.now → steps.items ≡ take (step + 1) schedule.now) }
{
    let steps = first_steps(alloc, schedule, step.saturating_add(1))?;
    Ok(steps)
}

// The report of a schedule, where it is legal.
fn legal_report(
    alloc: Global,
    script: &Arc<Script>,
    schedule: &[Move],
) -> Result<Option<Report>, AllocError>
    ensures { IfOk result (λ o. IfSome o (IsReportOf (arc_value script.now) schedule.now)) }
{
    let Some(report) = schedule_report(alloc, script, schedule)? else {
        return Ok(None);
    };
    if !legal(alloc, script, &report)? {
        return Ok(None);
    }
    Ok(Some(report))
}

// That, played, and its turns in order.
fn run_of(
    alloc: Global,
    script: &Arc<Script>,
    schedule: &[Move],
) -> Result<Option<(PlayedReport, Vec<TurnAt>)>, AllocError>
    ensures report { IfOk result (λ o. IfSome o (λ run. IsReportOf (arc_value script.now) schedule.now run.0.report)) }
    ensures turns { IfOk result (λ o. IfSome o (λ run. AreTurns run.0.report schedule.now run.1.items)) }
    ensures values { IfOk result (λ o. IfSome o (λ run. IsPlayed (arc_value script.now) run.0)) }
{
    let Some(report) = legal_report(alloc, script, schedule)? else {
        return Ok(None);
    };
    let Some(turns) = turns_of(alloc, schedule, &report)? else {
        return Ok(None);
    };
    let run = played(alloc, script, report)?;
    Ok(Some((run, turns)))
}

// The steps of an outcome's schedule up to where the task that has had all its turns begins to repeat its own, where it does.
fn before_spinning(
    alloc: Global,
    script: &Arc<Script>,
    schedule: &[Move],
) -> Result<Option<Vec<Move>>, AllocError> {
    let Some((run, turns)) = run_of(alloc, script, schedule)? else {
        return Ok(None);
    };
    let Some(end) = limit_in(&run, &turns) else {
        return Ok(None);
    };
    if end >= turns.len() {
        return Ok(None);
    }
    let own = turns_of_task(alloc, &turns, end, turns[end].task)?;
    let Some(repeated) = repeated_before(alloc, &run, &own, own.len())? else {
        return Ok(None);
    };
    match own.get(repeated.from) {
        Some(first) => Ok(Some(steps_to(alloc, schedule, first.step)?)),
        None => Ok(None),
    }
}

fn is_among(tasks: &[RepeatedTask], task: TaskId) -> bool
    ensures { result ≡ is_told task.0 tasks.now }
{
    for one in tasks {
        if one.task.0 == task.0 {
            return true;
        }
    }
    false
}

// Adds the task of a turn to those that are told, where it is not among them.
fn add_task(tasks: &mut Vec<RepeatedTask>, one: RepeatedTask) -> Result<(), AllocError>
    ensures { OnOk result ((r : RecordView) → one ≡ told r → tasks.new.items ≡ with_task tasks.old.items r) }
{
    if is_among(tasks, one.task) {
        return Ok(());
    }
    tasks.push(one)?;
    Ok(())
}

// The tasks of these turns, each once. Nothing where a turn is not there.
fn tasks_of(
    alloc: Global,
    run: &PlayedReport,
    turns: &[TurnAt],
) -> Result<Option<Vec<RepeatedTask>>, AllocError>
    ensures { IfOk result (λ o. IfSome o (λ tasks. (round : List RecordView) × AreRecords run.now.report turns.now round × (tasks.items ≡ tasks_of [] round))) }
{
    let mut tasks = Vec::new(alloc);
    for place in 0..turns.len() {
        let Some(one) = run.task(turns[place]) else {
            return Ok(None);
        };
        add_task(&mut tasks, one)?;
    }
    Ok(Some(tasks))
}

// What is said of turns that repeat up to the turn at a place, of which the first round ends before this one.
fn hint_at(
    alloc: Global,
    run: &PlayedReport,
    turns: &[TurnAt],
    schedule: &[Move],
    end: usize,
    repeated: Repeated,
    round: usize,
) -> Result<Option<NoProgress>, AllocError>
    requires turns { AreTurns run.now.report schedule.now turns.now }
    requires limit { IsLimit run.now.report turns.now end }
    requires repeated { AreRepeated run.now turns.now end repeated }
    requires round { round ≡ repeated.from + repeated.period }
    requires within { round ≤ length turns.now }
    requires long { round + length run.now.report.endings.items ≤ end }
    ensures { IfOk result (λ o. IfSome o (IsOf run.now schedule.now)) }
{
    let Some(tasks) = tasks_of(alloc, run, &turns[repeated.from..round])? else {
        return Ok(None);
    };
    match turns.get(round.saturating_sub(1)) {
        Some(last) => Ok(Some(NoProgress {
            schedule: steps_to(alloc, schedule, last.step)?,
            turns: repeated.period,
            tasks,
            endings: Vec::from_slice(alloc, &run.report.endings)?,
        })),
        None => Ok(None),
    }
}

// The same, where all tasks that are ready are among those of the turns: each has had a turn in the time of a round and of one turn of
// each task.
fn hint_of(
    alloc: Global,
    run: &PlayedReport,
    turns: &[TurnAt],
    schedule: &[Move],
    end: usize,
    repeated: Repeated,
) -> Result<Option<NoProgress>, AllocError>
    requires turns { AreTurns run.now.report schedule.now turns.now }
    requires limit { IsLimit run.now.report turns.now end }
    requires repeated { AreRepeated run.now turns.now end repeated }
    ensures { IfOk result (λ o. IfSome o (IsOf run.now schedule.now)) }
{
    let Some(round) = repeated.from.checked_add(repeated.period) else {
        return Ok(None);
    };
    let Some(long) = round.checked_add(run.report.endings.len()) else {
        return Ok(None);
    };
    if round > turns.len() || end < long || !leaves_frames(run, &turns[repeated.from..round]) {
        return Ok(None);
    }
    let found = hint_at(alloc, run, turns, schedule, end, repeated, round)?;
    Ok(found)
}

// What is said of a whole schedule.
fn hint_in(
    alloc: Global,
    script: &Arc<Script>,
    schedule: &[Move],
) -> Result<Option<NoProgress>, AllocError>
    ensures { IfOk result (λ o. IfSome o (IsIn (arc_value script.now) schedule.now)) }
{
    let Some((run, turns)) = run_of(alloc, script, schedule)? else {
        return Ok(None);
    };
    let Some(end) = limit_in(&run, &turns) else {
        return Ok(None);
    };
    let Some(repeated) = repeated_before(alloc, &run, &turns, end)? else {
        return Ok(None);
    };
    let found = hint_of(alloc, &run, &turns, schedule, end, repeated)?;
    Ok(found)
}

// What is said where a schedule is led to its end, with a turn of each task that is ready in a circle.
fn hint_after(
    alloc: Global,
    script: &Arc<Script>,
    start: &[Move],
) -> Result<Option<NoProgress>, AllocError>
    ensures { IfOk result (λ o. IfSome o (IsHint (arc_value script.now))) }
{
    match complete_schedule(alloc, script, start)? {
        Completion::Whole(whole) => {
            let found = hint_in(alloc, script, &whole)?;
            Ok(found)
        }
        Completion::Stopped(_, _) | Completion::Unfinished => Ok(None),
    }
}

/// Tasks of a script that repeat their turns for ever (our own): by the first outcome in which a task was ended since it had had all its
/// turns, from where it begins to repeat its own; or, where a search met its limit and found none such, from the beginning. From there the
/// schedule is led on, each time with the next task's turn; where that comes to a task that has had all its turns, and the turns before
/// that repeat and change nothing else, it is said which.
///
/// It is a hint. Promised is that the schedule can be done, and that its last turns are those of the tasks that are told; that in a run
/// which goes on after it they repeat, one after the other, for as many turns more, at least, as the run has tasks, and until some task has
/// had all its turns; and where the tasks of that run come from. So nobody else has a turn meanwhile, though each task that is ready would;
/// this, that no other task is ready, is tested. It costs a run of up to 1,000 turns of each task, followed thrice.
///
/// # Errors
///
/// `AllocError` where no memory was left.
pub fn no_progress(
    alloc: Global,
    script: &Arc<Script>,
    found: &FoundOutcomes,
) -> Result<Option<NoProgress>, AllocError>
    ensures { IfOk result (λ o. IfSome o (IsHint (arc_value script.now))) }
{
    if let Some(outcome) = first_at_limit(&found.outcomes) {
        return match before_spinning(alloc, script, &outcome.schedule)? {
            Some(start) => hint_after(alloc, script, &start),
            None => Ok(None),
        };
    }
    if found.met_limit && script.root_count() <= ROOTS {
        return hint_after(alloc, script, &[]);
    }
    Ok(None)
}
