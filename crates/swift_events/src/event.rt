//! What happens to tasks.

use swift_types::{Ending, Env, Priority, Resume, TaskId};

/// What happened to a task (SE-0304; that it is logged, and in these steps, is our own). Each event is of one task,
/// which comes first, and groups are numbered within their owner in order of opening, from 0.
#[derive(Clone, Copy, PartialEq, Eq)]
pub enum Event {
    /// A root's task, with its priority.
    Root(TaskId, Priority),
    /// The turn of this number begins, in this environment, whose room is reserved from here on. A turn may begin
    /// again: the last time counts.
    Begin {
        /// Whose turn.
        task: TaskId,
        /// Its number among the turns of the task.
        turn: u32,
        /// What it reads of its task.
        env: Env,
    },
    /// The turn of this number has ended, and its effects follow.
    Apply(TaskId, u32),
    /// A task that is no child is made by another, with its priority; the flag says whether it is detached.
    Free {
        /// The new task.
        task: TaskId,
        /// The task that makes it.
        maker: TaskId,
        /// Its priority.
        priority: Priority,
        /// Whether it is detached.
        detached: bool,
    },
    /// The owner opens its group of this number.
    Open(TaskId, u32),
    /// A child is added to the owner's group of this number, with a priority that it has beside its owner's.
    Child {
        /// The new task.
        task: TaskId,
        /// The task whose group it is.
        owner: TaskId,
        /// The number of the group within its owner.
        group: u32,
        /// The priority that it has beside its owner's.
        priority: Priority,
    },
    /// A child of the owner's group of this number is left out, since the group is cancelled.
    Skip(TaskId, u32),
    /// A task that has not ended is cancelled.
    CancelTask(TaskId),
    /// The owner's group of this number is cancelled.
    CancelGroup(TaskId, u32),
    /// The first task waits for the end of the second, which has not ended.
    Wait(TaskId, TaskId),
    /// The owner asks for one more result of its group of this number, and the group has one or will have.
    Next(TaskId, u32),
    /// The owner closes its group of this number, and goes on when each child of it has ended.
    Close(TaskId, u32),
    /// The task has ended.
    End(TaskId, Ending),
    /// A job is made for the task's turn of this number, which begins with this.
    Give {
        /// Whose turn.
        task: TaskId,
        /// Its number among the turns of the task.
        turn: u32,
        /// What it begins with.
        resume: Resume,
    },
}

ghost use Rattle.std.specs.Prelude.{◌≡◌};
ghost use Rattle.swift_events.specs.Events.{task_of, is_made};

impl Event {
    /// The task that the event is of.
    pub fn task(&self) -> TaskId
        ensures { result.0 ≡ task_of self.now }
    {
        match *self {
            Event::Root(task, _)
            | Event::Begin { task, .. }
            | Event::Apply(task, _)
            | Event::Free { task, .. }
            | Event::Open(task, _)
            | Event::Child { task, .. }
            | Event::Skip(task, _)
            | Event::CancelTask(task)
            | Event::CancelGroup(task, _)
            | Event::Wait(task, _)
            | Event::Next(task, _)
            | Event::Close(task, _)
            | Event::End(task, _)
            | Event::Give { task, .. } => task,
        }
    }

    /// Whether it makes a task that is no root: one with a new number.
    pub fn makes_task(&self) -> bool
        ensures { result ≡ is_made self.now }
    {
        matches!(*self, Event::Free { .. } | Event::Child { .. })
    }
}
