//! What comes after a turn.

use swift_types::{ActorId, Ending, Resume};

/// What comes after a turn, as `Body::advance` says (our own).
#[derive(Clone, Copy)]
pub enum Step {
    /// The next turn runs for this actor, and begins with this.
    Run(ActorId, Resume),
    /// The task has ended.
    Ended(Ending),
    /// The next turn comes when what the turn waits for has ended.
    Await,
}
