//! What groups answer.

use swift_types::{Ending, TaskId};

/// The number of a group: how many groups were opened before it.
#[derive(Clone, Copy)]
pub struct GroupId(pub usize);

/// What a wait for the next result of a group gives (SE-0304).
#[derive(Clone, Copy)]
pub enum NextResult {
    /// A child that ended and was not handed out before, with its ending.
    Result(TaskId, Ending),
    /// Each ending was handed out, and a child has not ended yet.
    Wait,
    /// Each child has ended, and each ending was handed out.
    Empty,
}

/// What closing a group gives (SE-0304).
#[derive(Clone, Copy)]
pub enum Close {
    /// Each child has ended. From here on the group refuses every call.
    Done,
    /// A child has not ended yet: the group is to be closed again when one has.
    Wait,
}
