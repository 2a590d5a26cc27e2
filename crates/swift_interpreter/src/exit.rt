//! How a turn ends.

use crate::effect::{Invocation, TaskName};
use swift_types::Fault;

/// How a turn ends (SE-0306: at each await, and where its frame is left).
#[derive(Drop)]
pub enum Exit {
    /// A method of an actor is called.
    Call(Invocation),
    /// The task waits for the end of a task (SE-0304).
    Wait(TaskName),
    /// The task waits for the next child of a group, by the group's number within its task (SE-0304).
    Next(u32),
    /// A group is closed, by its number within its task, which waits for all its children (SE-0304). A fault is pending
    /// where one has left the group's block.
    Close(u32, Option<Fault>),
    /// The task gives way, and goes on in a later turn.
    Yield,
    /// The frame is left with a value.
    Return(i64),
    /// The frame is left with a fault.
    Fault(Fault),
}
