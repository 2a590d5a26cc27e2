//! Steps of a search: a turn that looks away begins and runs at once.

ghost use Rattle.std.specs.Prelude.{◌≡◌, ◌++◌, ◌↔◌, IfOk, IfSome, IsTrue, OnOk, true};
ghost use Rattle.std.specs.Arc.{arc_value};
ghost use Rattle.swift_explorer.specs.FusedInside.{ArePlansOf, HasEachStep, IsPlanOf, IsRoomy, LooksAway, first_half, last_half};
ghost use Rattle.swift_explorer.specs.MarksInside.{AreTold, HaveMarks, NextIs};

use crate::flags::is_cancelled;
use crate::history::SearchedHistory;
use crate::marks::{AwayMarks, MarkKind, body_is_marked};
use crate::moves::Move;
use std::alloc::{AllocError, Global};
use swift_types::TaskId;
use swift_types::limits::{MADE, TASKS};

// One step of a search.
#[derive(Clone, Copy)]
pub(crate) enum Step {
    // A step of the history.
    One(Move),
    // The next turn of a task, which looks away, begins, and runs at once.
    Turn(TaskId),
}

impl Step {
    // What it does last.
    pub(crate) fn last(self) -> Move
        ensures { result ≡ last_half self }
    {
        match self {
            Step::One(step) => step,
            Step::Turn(task) => Move::Run(task),
        }
    }

    // Writes what it does before that.
    pub(crate) fn put_first(self, path: &mut Vec<Move>) -> Result<(), AllocError>
        ensures { OnOk result (path.new.items ≡ path.old.items ++ first_half self) }
    {
        match self {
            Step::One(_) => Ok(()),
            Step::Turn(task) => {
                path.push(Move::Begin(task))?;
                Ok(())
            }
        }
    }
}

impl SearchedHistory {
    // Whether marks say it of the next turn of a task.
    pub(crate) fn is_marked(&self, marks: &[Vec<bool>], task: TaskId) -> bool
        ensures { IsTrue result → (kind : MarkKind) → HaveMarks kind (arc_value self.now.steps.script) marks.now → NextIs kind self.now task }
    {
        let place = task.0 as usize;
        if place >= self.steps.tasks.len() {
            return false;
        }
        let Some(ready) = &self.steps.tasks[place] else {
            return false;
        };
        ready.body.is_running() && body_is_marked(&ready.body, marks)
    }

    // Whether the next turn of a task looks away, whatever is known of that.
    #[tactic(auto, using(crate::proofs::LooksAway::away_always))]
    fn always_looks_away(&self, away: &AwayMarks, task: TaskId) -> bool
        ensures { IsTrue result → AreTold (arc_value self.now.steps.script) away.now → LooksAway self.now task }
    {
        self.is_marked(&away.any, task)
    }

    // Whether it does since the task is cancelled.
    #[tactic(auto, using(crate::proofs::LooksAway::away_cancelled))]
    fn looks_at_what_stays(&self, away: &AwayMarks, task: TaskId) -> bool
        ensures { IsTrue result → AreTold (arc_value self.now.steps.script) away.now → LooksAway self.now task }
    {
        self.is_marked(&away.cancelled, task) && is_cancelled(&self.steps.book, task)
    }

    // Whether the next turn of a task looks away.
    pub(crate) fn looks_away(&self, away: &AwayMarks, task: TaskId) -> bool
        ensures { IsTrue result → AreTold (arc_value self.now.steps.script) away.now → LooksAway self.now task }
    {
        self.always_looks_away(away, task) || self.looks_at_what_stays(away, task)
    }

    // The step of a search that does this first.
    fn plan_of(&self, away: &AwayMarks, step: Move) -> Step
        ensures { AreTold (arc_value self.now.steps.script) away.now → IsPlanOf self.now step result }
    {
        match step {
            Move::Begin(task) if self.looks_away(away, task) => Step::Turn(task),
            _ => Step::One(step),
        }
    }

    // The same of each of these.
    fn plans_of(&self, away: &AwayMarks, moves: &[Move]) -> Result<Vec<Step>, AllocError>
        ensures { IfOk result (λ steps. AreTold (arc_value self.now.steps.script) away.now → ArePlansOf self.now moves.now steps.items) }
    {
        let mut steps = Vec::with_capacity(self.steps.alloc, moves.len())?;
        for step in moves {
            steps.push(self.plan_of(away, *step))?;
        }
        Ok(steps)
    }

    /// The steps of a search that may follow, in the order of `next`. None is left out. Nothing where there are more tasks than numbers
    /// for them.
    pub(crate) fn next_fused(&self, away: &AwayMarks) -> Result<Option<Vec<Step>>, AllocError>
        ensures { IfOk result (λ o. IfSome o (λ steps. AreTold (arc_value self.now.steps.script) away.now → HasEachStep self.now steps.items)) }
    {
        match self.next()? {
            Some(moves) => Ok(Some(self.plans_of(away, &moves)?)),
            None => Ok(None),
        }
    }

    /// Whether there is room: so few tasks that turns at all executors, and one more, may each make 16.
    pub(crate) fn has_room(&self) -> bool
        ensures { IsTrue result ↔ IsRoomy self.now }
    {
        self.steps.script.facts();
        let most = MADE * (self.steps.script.executor_count() + 1);
        most <= TASKS && self.steps.book.tasks() <= TASKS - most
    }
}
