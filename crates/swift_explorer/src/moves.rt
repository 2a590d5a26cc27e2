//! Steps of a history.

use swift_types::TaskId;

/// One step of a history (our own). Between the two steps of a turn others may do theirs, on other executors.
#[derive(Clone, Copy, PartialEq, Eq)]
pub enum Move {
    /// The next root is added, in text order.
    Add,
    /// The next turn of a task begins: here it is fixed which priority it reads, whether it is cancelled, and how many tasks it may make.
    Begin(TaskId),
    /// The turn that a task has begun runs, and what it did takes effect.
    Run(TaskId),
}
