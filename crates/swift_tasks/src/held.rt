//! Tasks that wait.

use swift_turn::Body;

/// A task that waits.
#[derive(Drop)]
pub struct WaitingTask {
    /// The number of its next turn.
    pub number: u32,
    /// What runs it.
    pub body: Body,
}
