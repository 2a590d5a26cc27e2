//! A schedule that is led to its end.

ghost use Rattle.std.specs.Prelude.{◌≡◌, ℕ, ◌++◌, List, [], ◌∷◌, IfOk, IfSome, IsTrue, None};
ghost use Rattle.std.specs.Arc.{arc_value};
ghost use Rattle.swift_explorer.specs.Completions.{IsCompletion, IsFaultOf, IsStepFault, IsStopped};
ghost use Rattle.swift_explorer.specs.HistoryInside.{IsPath, WasDone};
ghost use Rattle.swift_explorer.specs.Outcomes.{IsBrokenAfter};
ghost use Rattle.swift_explorer.specs.declared.moves.Move.{Move};

use crate::history::{Followed, SearchedHistory};
use crate::moves::Move;
use std::alloc::{AllocError, Global};
use std::sync::Arc;
use swift_script::Script;
use swift_types::TaskId;

// Of steps that are chosen, at most so many are tried.
const CHOSEN: usize = 1_000_000;

/// Why a step may not follow (our own), by the log of the steps before it.
#[derive(Clone, Copy)]
pub enum StepFault {
    /// Its task was not made yet.
    NotMade,
    /// Its task has ended.
    Ended,
    /// A turn of its task is under way, and another one can't begin.
    UnderWay,
    /// Its task has no turn under way that could run.
    NotBegun,
    /// Its task waits: for a task, or for a result of a group.
    Waits,
    /// A turn of this task is under way, at the same executor.
    Busy(TaskId),
    /// For another cause, as that a root was not added.
    Other,
}

/// What comes of a schedule (our own).
#[derive(Drop)]
pub enum Completion {
    /// Its steps can be done. They stand first here; after them stand others that were chosen, until none may follow.
    Whole(Vec<Move>),
    /// The step at this place is the first that may not follow.
    Stopped(usize, StepFault),
    /// Some task had not ended after a million steps that were chosen, or there are more tasks than numbers for them.
    Unfinished,
}

impl SearchedHistory {
    // Why the next turn of a task may not begin, where it may not.
    fn begin_fault(&self, task: TaskId) -> StepFault
        ensures { IsFaultOf self.now.steps.book.log task.0 result }
    {
        if self.steps.book.origin(task).is_none() {
            return StepFault::NotMade;
        }
        if self.steps.book.ending(task).is_some() {
            return StepFault::Ended;
        }
        if self.has_begun(task) {
            return StepFault::UnderWay;
        }
        match self.steps.executor_of(task) {
            Some(executor) => self.busy_fault(executor),
            None => StepFault::Waits,
        }
    }

    // Which turn keeps an executor from beginning another one.
    fn busy_fault(&self, executor: usize) -> StepFault
        ensures { (t : ℕ) → IsFaultOf self.now.steps.book.log t result }
    {
        for place in 0..self.steps.tasks.len() {
            let Ok(number) = u32::try_from(place) else {
                return StepFault::Other;
            };
            let other = TaskId(number);
            if self.has_begun(other) && self.steps.executor_of(other) == Some(executor) {
                return StepFault::Busy(other);
            }
        }
        StepFault::Other
    }

    // Why the turn of a task that is under way may not run, where it may not.
    fn run_fault(&self, task: TaskId) -> StepFault
        ensures { IsFaultOf self.now.steps.book.log task.0 result }
    {
        if self.steps.book.origin(task).is_none() {
            return StepFault::NotMade;
        }
        if self.steps.book.ending(task).is_some() {
            return StepFault::Ended;
        }
        if self.has_begun(task) {
            StepFault::Other
        } else {
            StepFault::NotBegun
        }
    }

    // Why a step may not follow, where it may not.
    fn step_fault(&self, step: Move) -> StepFault
        ensures { IsStepFault self.now.steps.book.log step result }
    {
        match step {
            Move::Add => StepFault::Other,
            Move::Begin(task) => self.begin_fault(task),
            Move::Run(task) => self.run_fault(task),
        }
    }
}

// Follows these steps up to the first that may not follow: its place, and why.
fn follow_or_stop(
    history: &mut SearchedHistory,
    path: &[Move],
) -> Result<Option<(usize, StepFault)>, AllocError>
    requires { IsPath (arc_value history.old.steps.script) [] history.old }
    ensures script { history.new.steps.script ≡ history.old.steps.script }
    ensures path { IfOk result (λ o. o ≡ None → IsPath (arc_value history.old.steps.script) path.now history.new) }
    ensures stopped { IfOk result (λ o. IfSome o (λ at. IsStopped (arc_value history.old.steps.script) path.now at.0 at.1)) }
{
    for (place, step) in path.iter().enumerate() {
        let fault = history.step_fault(*step);
        if let Followed::No = history.step(*step)? {
            return Ok(Some((place, fault)));
        }
    }
    Ok(None)
}

// The task of a step; none of one that adds a root.
pub(crate) fn task_of(step: Move) -> Option<TaskId> {
    match step {
        Move::Add => None,
        Move::Begin(task) | Move::Run(task) => Some(task),
    }
}

// Whether a step begins a turn of a task that comes after this one.
fn is_later(step: Move, last: Option<TaskId>) -> bool {
    match (step, last) {
        (Move::Begin(task), Some(last)) => task.0 > last.0,
        _ => true,
    }
}

// The step to choose of those that may follow: of turns that may begin that of the next task after the last one's, in a circle. Those
// that run come first.
pub(crate) fn next_in_turn(moves: &[Move], last: Option<TaskId>) -> Option<Move> {
    for step in moves {
        if is_later(*step, last) {
            return Some(*step);
        }
    }
    moves.first().copied()
}

// Does one more step after these, and puts it to them.
pub(crate) fn push_step(
    history: &mut SearchedHistory,
    path: &mut Vec<Move>,
    step: Move,
) -> Result<Followed, AllocError>
    requires { IsPath (arc_value history.old.steps.script) path.old.items history.old }
    ensures script { history.new.steps.script ≡ history.old.steps.script }
    ensures path { IfOk result (λ f. WasDone f → IsPath (arc_value history.old.steps.script) path.new.items history.new) }
    ensures one { IfOk result (λ f. WasDone f → path.new.items ≡ path.old.items ++ step ∷ []) }
    ensures broken { IfOk result (λ f. f ≡ Followed.Broken → IsBrokenAfter (arc_value history.old.steps.script) path.new.items) }
{
    let done = history.step(step)?;
    if let Followed::No = done {
        return Ok(Followed::No);
    }
    path.push(step)?;
    Ok(done)
}

// Goes on, where these steps have led, until no step may follow: whether that was reached. Each step is put to the others.
fn go_to_the_end(history: &mut SearchedHistory, path: &mut Vec<Move>) -> Result<bool, AllocError>
    requires { IsPath (arc_value history.old.steps.script) path.old.items history.old }
    ensures script { history.new.steps.script ≡ history.old.steps.script }
    ensures path { IfOk result (λ done. IsTrue done → IsPath (arc_value history.old.steps.script) path.new.items history.new) }
    ensures after { IfOk result (λ done. IsTrue done → (rest : List Move) × (path.new.items ≡ path.old.items ++ rest)) }
{
    let mut last: Option<TaskId> = None;
    for _ in 0..CHOSEN {
        let Some(moves) = history.next()? else {
            return Ok(false);
        };
        let Some(step) = next_in_turn(&moves, last) else {
            return Ok(true);
        };
        if let Followed::No = push_step(history, path, step)? {
            return Ok(false);
        }
        last = task_of(step);
    }
    Ok(false)
}

// What comes of a schedule, of a history in which nothing has happened.
fn complete(
    alloc: Global,
    history: &mut SearchedHistory,
    schedule: &[Move],
) -> Result<Completion, AllocError>
    requires { IsPath (arc_value history.old.steps.script) [] history.old }
    ensures { IfOk result (IsCompletion (arc_value history.old.steps.script) schedule.now) }
{
    if let Some((place, fault)) = follow_or_stop(history, schedule)? {
        return Ok(Completion::Stopped(place, fault));
    }
    let mut path = Vec::from_slice(alloc, schedule)?;
    if go_to_the_end(history, &mut path)? {
        Ok(Completion::Whole(path))
    } else {
        Ok(Completion::Unfinished)
    }
}

/// Follows the steps of a schedule from the beginning, and goes on after them, until no step may follow: each time with the turn that is
/// under way, or else with that of the next task in their order, after the last one's, in a circle. Where one of its steps may not follow,
/// says which is the first, and why.
///
/// What it promises: the steps of a whole schedule can be done; and where one was stopped, those before it can, and what is said of the
/// one that can't is so after them.
///
/// # Errors
///
/// `AllocError` where no memory was left.
pub fn complete_schedule(
    alloc: Global,
    script: &Arc<Script>,
    schedule: &[Move],
) -> Result<Completion, AllocError>
    ensures { IfOk result (IsCompletion (arc_value script.now) schedule.now) }
{
    let mut history = SearchedHistory::new(alloc, script)?;
    let done = complete(alloc, &mut history, schedule);
    history.close();
    done
}
