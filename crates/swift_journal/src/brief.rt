//! How a turn ended, in short.

use swift_interpreter::TaskName;
use swift_types::{ActorId, Fault, MethodId};

/// How a turn ended, without the arguments of a call: what a report prints of it (our own).
#[derive(Clone, Copy)]
pub enum BriefExit {
    /// A method of an actor was called.
    Call(ActorId, MethodId),
    /// The task waited for the end of a task.
    Wait(TaskName),
    /// The task waited for the next child of a group, by the group's number within its task.
    Next(u32),
    /// A group was closed, by its number within its task, perhaps with a fault pending.
    Close(u32, Option<Fault>),
    /// The task gave way.
    Yield,
    /// The frame was left with a value.
    Return(i64),
    /// The frame was left with a fault.
    Fault(Fault),
}
