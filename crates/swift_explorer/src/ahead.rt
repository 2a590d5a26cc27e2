//! Silent turns that run at once, ahead of what may come in between.

ghost use Rattle.std.specs.Prelude.{◌≡◌, ◌⊎◌, IfOk, IsTrue, OnOk, Some, true};
ghost use Rattle.std.specs.Arc.{arc_value};
ghost use Rattle.swift_script.specs.Scripts.{ScriptView};
ghost use Rattle.swift_interpreter.specs.TurnStates.{exit_view};
ghost use Rattle.swift_turn.specs.Body.{HasFrames, IfRunning, IsRunning, callers_of};
ghost use Rattle.swift_reordering.specs.Silent.{frame_is_silent};
ghost use Rattle.swift_reordering.specs.Unnamed.{IsUnnamed};
ghost use Rattle.swift_steps.specs.declared.next_turn.NextTurn.{NextTurn};
ghost use Rattle.swift_explorer.specs.AheadInside.{GoesAlone, GoesOnAtOnce, IsAsBefore, IsNotLost, IsQuietAt, RunsAhead, RunsTurn, StartsHold};
ghost use Rattle.swift_explorer.specs.HistoryInside.{IsSomeHistory, WasDone};
ghost use Rattle.swift_steps.specs.NextTurns.{given_at};
ghost use Rattle.swift_explorer.specs.MarksInside.{AreTold, HaveSilentMarks};

use crate::history::{Followed, SearchedHistory};
use crate::marks::AwayMarks;
use crate::moves::Move;
use crate::unnamed::root_is_unnamed;
use std::alloc::AllocError;
use swift_interpreter::Exit;
use swift_script::Script;
use swift_steps::{copy_fields, put, take};
use swift_turn::{Body, TurnOutcome, replay_turn};
use swift_types::{Env, Fault, Priority, TaskId};

// At most so many turns run at once.
const AHEAD: usize = 100_000;

// What has come of a turn that was to run ahead.
#[derive(Clone, Copy)]
pub(crate) enum TurnAhead {
    // It has run.
    Ran,
    // It may not, and the history is as it was.
    Stays,
    // It could not be followed. What is left of the history means nothing.
    Lost,
}

// Whether the frame that runs has a caller.
fn has_caller(body: &Body) -> bool
    ensures { IsTrue result → HasFrames (callers_of body.now.task.frames) }
{
    !body.callers().is_empty()
}

// Whether the frame that runs may be left unseen: it has a caller, or its task is a root that no line of the script names.
fn leaves_unseen(body: &Body, script: &Script, task: TaskId) -> bool
    ensures { IsTrue result → HasFrames (callers_of body.now.task.frames) ⊎ IsUnnamed script.now task.0 }
{
    has_caller(body) || root_is_unnamed(script, task)
}

// Whether a task goes on at once after a turn that ends so, or has ended and is a root that no line of the script names; and no invariant
// is broken by it.
fn goes_on(body: &Body, exit: &Exit, script: &Script, task: TaskId) -> bool
    ensures { IsTrue result → GoesOnAtOnce script.now task.0 (callers_of body.now.task.frames) (exit_view exit.now) }
{
    match exit {
        Exit::Call(_) | Exit::Yield => true,
        Exit::Fault(Fault::Invariant) => false,
        Exit::Return(_) | Exit::Fault(_) => leaves_unseen(body, script, task),
        Exit::Wait(_) | Exit::Next(_) | Exit::Close(_, _) => false,
    }
}

impl SearchedHistory {
    // Whether the next turn of a task is silent, and looks away.
    fn is_quiet(&self, away: &AwayMarks, marks: &[Vec<bool>], task: TaskId) -> bool
        ensures { IsTrue result → AreTold (arc_value self.now.steps.script) away.now → HaveSilentMarks (arc_value self.now.steps.script) marks.now → IsQuietAt self.now task }
    {
        self.is_marked(marks, task) && self.looks_away(away, task)
    }

    // Whether a task goes on at once after its next turn at an executor, where that looks at nothing, or ends unseen. The history is as before.
    fn goes_alone(&mut self, task: TaskId, place: usize) -> Result<bool, AllocError>
        requires { IsSomeHistory self.old }
        ensures script { self.new.steps.script ≡ self.old.steps.script }
        ensures same { OnOk result (IsAsBefore self.old self.new) }
        ensures alone { IfOk result (λ alone. IsTrue alone → GoesAlone self.old task place) }
    {
        if place >= self.steps.fields.len() {
            return Ok(false);
        }
        let fields = copy_fields(self.steps.alloc, &self.steps.fields[place])?;
        let Some(mut ready) = take(&mut self.steps.tasks, task) else {
            return Ok(false);
        };
        let frame = ready.body.frame()?;
        let env = Env {
            priority: Priority::Background,
            cancelled: false,
            room: 0,
        };
        let Ok(
            TurnOutcome {
                fields: _,
                effects: _,
                exit,
            },
        ) = replay_turn(&mut ready.body, fields, ready.resume, env)
        else {
            return Err(AllocError);
        };
        let goes = goes_on(&ready.body, &exit, &self.steps.script, task);
        ready.body.put_back(frame);
        put(&mut self.steps.tasks, task, ready)?;
        Ok(goes)
    }

    // The next turn of a task runs, where it is silent and the task goes on at once, or ends unseen.
    #[tactic(auto, using(crate::proofs::Trial::unchanged))]
    fn run_one(
        &mut self,
        away: &AwayMarks,
        marks: &[Vec<bool>],
        task: TaskId,
    ) -> Result<TurnAhead, AllocError>
        requires history { IsSomeHistory self.old }
        requires told { AreTold (arc_value self.old.steps.script) away.now }
        requires marked { HaveSilentMarks (arc_value self.old.steps.script) marks.now }
        requires hold { StartsHold (arc_value self.old.steps.script) }
        ensures script { self.new.steps.script ≡ self.old.steps.script }
        ensures stays { IfOk result (λ a. a ≡ TurnAhead.Stays → IsAsBefore self.old self.new) }
        ensures ran { IfOk result (λ a. a ≡ TurnAhead.Ran → RunsTurn self.old self.new task) }
    {
        if !self.is_quiet(away, marks, task) || !self.can_begin(task) {
            return Ok(TurnAhead::Stays);
        }
        let Some(place) = self.steps.executor_of(task) else {
            return Ok(TurnAhead::Stays);
        };
        if !self.goes_alone(task, place)? {
            return Ok(TurnAhead::Stays);
        }
        if let Followed::No = self.step(Move::Begin(task))? {
            return Ok(TurnAhead::Lost);
        }
        match self.step(Move::Run(task))? {
            Followed::No => Ok(TurnAhead::Lost),
            _ => Ok(TurnAhead::Ran),
        }
    }

    // The same, and it is put to these steps.
    #[tactic(auto, using(crate::proofs::RunningAhead::stays_ahead, crate::proofs::RunningAhead::ran_ahead))]
    fn run_and_push(
        &mut self,
        away: &AwayMarks,
        marks: &[Vec<bool>],
        task: TaskId,
        moves: &mut Vec<Move>,
    ) -> Result<TurnAhead, AllocError>
        requires history { IsSomeHistory self.old }
        requires told { AreTold (arc_value self.old.steps.script) away.now }
        requires marked { HaveSilentMarks (arc_value self.old.steps.script) marks.now }
        requires hold { StartsHold (arc_value self.old.steps.script) }
        ensures { IfOk result (λ a. IsNotLost a → RunsAhead self.old self.new moves.old.items moves.new.items) }
    {
        match self.run_one(away, marks, task)? {
            TurnAhead::Lost => Ok(TurnAhead::Lost),
            TurnAhead::Stays => Ok(TurnAhead::Stays),
            TurnAhead::Ran => {
                moves.push(Move::Begin(task))?;
                moves.push(Move::Run(task))?;
                Ok(TurnAhead::Ran)
            }
        }
    }

    // Silent turns run, task by task, and are put to these steps.
    pub(crate) fn run_ahead(
        &mut self,
        away: &AwayMarks,
        marks: &[Vec<bool>],
        moves: &mut Vec<Move>,
    ) -> Result<Followed, AllocError>
        requires history { IsSomeHistory self.old }
        requires told { AreTold (arc_value self.old.steps.script) away.now }
        requires marked { HaveSilentMarks (arc_value self.old.steps.script) marks.now }
        requires hold { StartsHold (arc_value self.old.steps.script) }
        ensures { IfOk result (λ f. WasDone f → RunsAhead self.old self.new moves.old.items moves.new.items) }
    {
        let mut place: usize = 0;
        'turns: for _ in 0..AHEAD {
            let Ok(number) = u32::try_from(place) else {
                return Ok(Followed::Yes);
            };
            if place >= self.steps.tasks.len() {
                return Ok(Followed::Yes);
            }
            let ran = self.run_and_push(away, marks, TaskId(number), moves)?;
            if let TurnAhead::Lost = ran {
                return Ok(Followed::No);
            }
            if let TurnAhead::Stays = ran {
                place += 1;
            }
        }
        Ok(Followed::Yes)
    }
}
