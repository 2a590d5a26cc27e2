//! What the exit of a turn writes, and what its task's next turn begins with.

ghost use Rattle.std.specs.Prelude.{◌≡◌, ◌+◌, ◌<◌, ◌≤◌, [], ◌∷◌, ◌++◌, Some, None, IsTrue};
ghost use Rattle.swift_groups.specs.Next.{next_of};
ghost use Rattle.swift_groups.specs.Close.{close_of};
ghost use Rattle.swift_interpreter.specs.TurnStates.{exit_view};
ghost use Rattle.swift_turn.specs.declared.step.Step.TheVariants.{Ended};
ghost use Rattle.swift_ledger.specs.Ledgers.{IsMade};
ghost use Rattle.swift_events.specs.Lives.{life_of};
ghost use Rattle.swift_events.specs.Relations.{group_of, is_open_group};
ghost use Rattle.swift_history.specs.TurnEnds.{resume_at, resume_of, wait_events, wait_resume, next_events, next_resume, close_events, close_resume, end_events, step_resume, exit_events, exit_resume};
ghost use Rattle.swift_tasks.specs.ApplyingInside.{CanLeave};

use crate::effects::task_of;
use swift_events::Event;
use swift_groups::{Close, NextResult};
use swift_interpreter::Exit;
use swift_ledger::Ledger;
use swift_turn::Step;
use swift_types::limits::TURNS;
use swift_types::{Ending, Fault, Resume, TaskId};

// What the turn of this number begins with, when it is to begin with this.
pub fn resume_at(number: u32, resume: Resume) -> Resume
    ensures { result ≡ resume_at number resume }
{
    if number < TURNS {
        resume
    } else {
        Resume::Fault(Fault::Turns)
    }
}

// What waits for a task goes on with its ending.
pub fn resume_of(ending: Ending) -> Resume
    ensures { result ≡ resume_of ending }
{
    match ending {
        Ending::Value(value) => Resume::Value(value),
        Ending::Fault(fault) => Resume::Fault(fault),
    }
}

// A task waits for another one, unless that has ended.
fn note_wait(ledger: &mut Ledger, task: TaskId, awaited: TaskId) -> Option<Resume>
    requires mine { IsMade ledger.old.log task }
    requires awaited { IsMade ledger.old.log awaited }
    requires spare { 0 < ledger.old.spare }
    ensures roots { ledger.new.roots ≡ ledger.old.roots }
    ensures log { ledger.new.log ≡ ledger.old.log ++ wait_events task.0 awaited (life_of awaited.0 ledger.old.log).ending }
    ensures spare { ledger.old.spare ≤ ledger.new.spare + 1 }
    ensures resume { result ≡ wait_resume (life_of awaited.0 ledger.old.log).ending }
{
    match ledger.life(awaited).ending {
        Some(ending) => Some(resume_of(ending)),
        None => {
            ledger.note(Event::Wait(task, awaited));
            None
        }
    }
}

// A task asks for the next result of a group, where there is one or will be one.
fn note_next(ledger: &mut Ledger, task: TaskId, group: u32) -> Option<Resume>
    requires mine { IsMade ledger.old.log task }
    requires group { IsTrue (is_open_group task.0 group ledger.old.log) }
    requires spare { 0 < ledger.old.spare }
    ensures roots { ledger.new.roots ≡ ledger.old.roots }
    ensures log { ledger.new.log ≡ ledger.old.log ++ next_events task.0 group (next_of (group_of task.0 group ledger.old.log)) }
    ensures spare { ledger.old.spare ≤ ledger.new.spare + 1 }
    ensures resume { result ≡ next_resume (next_of (group_of task.0 group ledger.old.log)) }
{
    match ledger.next_of(task, group) {
        NextResult::Empty => Some(Resume::Fault(Fault::Empty)),
        NextResult::Result(_, ending) => {
            ledger.note(Event::Next(task, group));
            Some(resume_of(ending))
        }
        NextResult::Wait => {
            ledger.note(Event::Next(task, group));
            None
        }
    }
}

// A group is cancelled.
pub fn note_cancel_group(ledger: &mut Ledger, task: TaskId, group: u32)
    requires mine { IsMade ledger.old.log task }
    requires group { IsTrue (is_open_group task.0 group ledger.old.log) }
    requires spare { 0 < ledger.old.spare }
    ensures roots { ledger.new.roots ≡ ledger.old.roots }
    ensures log { ledger.new.log ≡ ledger.old.log ++ Event.CancelGroup task group ∷ [] }
    ensures spare { ledger.new.spare + 1 ≡ ledger.old.spare }
    ensures mine { IsMade ledger.new.log task }
    ensures group { IsTrue (is_open_group task.0 group ledger.new.log) }
{
    ledger.note(Event::CancelGroup(task, group));
}

// A task closes a group, which is cancelled first where it is closed with a fault.
fn note_close(ledger: &mut Ledger, task: TaskId, group: u32, fault: Option<Fault>) -> Option<Resume>
    requires mine { IsMade ledger.old.log task }
    requires group { IsTrue (is_open_group task.0 group ledger.old.log) }
    requires spare { 1 < ledger.old.spare }
    ensures roots { ledger.new.roots ≡ ledger.old.roots }
    ensures log { ledger.new.log ≡ ledger.old.log ++ close_events task.0 group fault }
    ensures spare { ledger.old.spare ≤ ledger.new.spare + 2 }
    ensures resume { result ≡ close_resume (close_of (group_of task.0 group ledger.old.log)) }
{
    let close = ledger.close_of(task, group);
    if fault.is_some() {
        note_cancel_group(ledger, task, group);
    }
    ledger.note(Event::Close(task, group));
    match close {
        Close::Done => Some(Resume::Go),
        Close::Wait => None,
    }
}

// A task goes on, or has ended.
fn note_step(ledger: &mut Ledger, task: TaskId, step: Step) -> Option<Resume>
    requires mine { IsMade ledger.old.log task }
    requires unended { (life_of task.0 ledger.old.log).ending ≡ None }
    requires spare { 0 < ledger.old.spare }
    ensures roots { ledger.new.roots ≡ ledger.old.roots }
    ensures log { ledger.new.log ≡ ledger.old.log ++ end_events task.0 step }
    ensures spare { ledger.old.spare ≤ ledger.new.spare + 1 }
    ensures resume { result ≡ step_resume step }
{
    match step {
        Step::Run(_, resume) => Some(resume),
        Step::Ended(ending) => {
            ledger.note(Event::End(task, ending));
            None
        }
        Step::Await => None,
    }
}

// The exit of a turn is written. What the task's next turn begins with comes back, where it need not wait and has not ended.
pub fn note_exit(ledger: &mut Ledger, task: TaskId, exit: &Exit, step: Step) -> Option<Resume>
    requires mine { IsMade ledger.old.log task }
    requires leave { CanLeave task.0 ledger.old.log (exit_view exit.now) }
    requires unended { (life_of task.0 ledger.old.log).ending ≡ None }
    requires spare { 1 < ledger.old.spare }
    ensures roots { ledger.new.roots ≡ ledger.old.roots }
    ensures log { ledger.new.log ≡ ledger.old.log ++ exit_events task.0 ledger.old.log (exit_view exit.now) step }
    ensures spare { ledger.old.spare ≤ ledger.new.spare + 2 }
    ensures resume { result ≡ exit_resume task.0 ledger.old.log (exit_view exit.now) step }
{
    match exit {
        Exit::Wait(name) => {
            let awaited = task_of(ledger, task, *name);
            note_wait(ledger, task, awaited)
        }
        Exit::Next(group) => note_next(ledger, task, *group),
        Exit::Close(group, fault) => note_close(ledger, task, *group, *fault),
        Exit::Call(_) | Exit::Yield | Exit::Return(_) | Exit::Fault(_) => {
            note_step(ledger, task, step)
        }
    }
}
