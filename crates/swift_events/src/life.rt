//! What the events of one task say of it.

ghost use Rattle.std.specs.Prelude.{◌≡◌};
ghost use Rattle.swift_events.specs.Lives.{unborn, lived, is_open, room_held};

use crate::event::Event;
use swift_types::{Ending, Env, Resume, TaskId};

/// Where a task comes from (SE-0304).
#[derive(Clone, Copy, PartialEq, Eq)]
pub enum Origin {
    /// It is the script's root of the same number.
    Root,
    /// A child of the owner's group of this number.
    Child(TaskId, u32),
    /// Spawned by this task.
    Spawned(TaskId),
    /// Detached by this task.
    Detached(TaskId),
}

/// The last job that was made for a task (our own).
#[derive(Clone, Copy)]
pub struct LastJob {
    /// The number of its turn.
    pub number: u32,
    /// What that turn begins with.
    pub resume: Resume,
}

/// How far a task is with its last job (our own).
#[derive(Clone, Copy)]
pub enum JobStage {
    /// The job was made.
    Given,
    /// Its turn has begun, in this environment, whose room is reserved.
    Begun(Env),
    /// Its turn was applied.
    Applied,
    /// After that turn the task waits for the end of this task.
    Waits(TaskId),
    /// After that turn the task has asked for a result of its group of this number.
    Asks(u32),
    /// After that turn the task closes its group of this number.
    Closes(u32),
}

/// What is known of a task by its own events: of each kind, what the last one says.
#[derive(Clone, Copy)]
pub struct Life {
    /// Where it comes from; none where it was not made yet.
    pub origin: Option<Origin>,
    /// Its last job.
    pub given: Option<LastJob>,
    /// How far it is with that.
    pub stage: Option<JobStage>,
    /// How it has ended.
    pub ending: Option<Ending>,
}

impl Life {
    /// Of a task without events.
    pub fn unborn() -> Life
        ensures { result ≡ unborn }
    {
        Life {
            origin: None,
            given: None,
            stage: None,
            ending: None,
        }
    }

    /// What is known once one more event of the task is written.
    pub fn after(self, event: Event) -> Life
        ensures { result ≡ lived self event }
    {
        let mut life = self;
        match event {
            Event::Root(_, _) => life.origin = Some(Origin::Root),
            Event::Free {
                maker: by,
                detached: false,
                ..
            } => life.origin = Some(Origin::Spawned(by)),
            Event::Free {
                maker: by,
                detached: true,
                ..
            } => life.origin = Some(Origin::Detached(by)),
            Event::Child { owner, group, .. } => life.origin = Some(Origin::Child(owner, group)),
            Event::Begin { env, .. } => life.stage = Some(JobStage::Begun(env)),
            Event::Apply(_, _) => life.stage = Some(JobStage::Applied),
            Event::Wait(_, awaited) => life.stage = Some(JobStage::Waits(awaited)),
            Event::Next(_, group) => life.stage = Some(JobStage::Asks(group)),
            Event::Close(_, group) => life.stage = Some(JobStage::Closes(group)),
            Event::End(_, ending) => life.ending = Some(ending),
            Event::Give {
                turn: number,
                resume,
                ..
            } => {
                life.given = Some(LastJob { number, resume });
                life.stage = Some(JobStage::Given);
            }
            Event::Open(_, _)
            | Event::Skip(_, _)
            | Event::CancelTask(_)
            | Event::CancelGroup(_, _) => {}
        }
        life
    }

    /// Whether the task was made and has not ended.
    pub fn is_open(&self) -> bool
        ensures { result ≡ is_open self.now }
    {
        self.origin.is_some() && self.ending.is_none()
    }

    /// How many tasks its turn that is under way may still make: the room that is reserved for it.
    pub fn room(&self) -> u32
        ensures { result ≡ room_held self.now }
    {
        match self.stage {
            Some(JobStage::Begun(env)) => env.room,
            _ => 0,
        }
    }
}
