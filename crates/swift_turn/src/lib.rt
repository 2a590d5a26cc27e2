//! Turns of a task: frames that are entered, polled and left by hand, as a future.
#![tactic(auto)]

// A task's frames, as a future.
mod body;
// What holds of the definitions.
pub mod laws;
// Frames that begin, and copies of frames.
mod opening;
// What a turn leaves.
mod outcome;
// The bindings of callers.
mod outer;
// Where a body is with its turn.
mod phase;
// The frames below the one that runs.
mod stack;
// What comes after a turn.
mod step;
// One turn: entered, played and left.
mod whole;

pub use body::Body;
pub use outcome::TurnOutcome;
pub use step::Step;
pub use whole::{play_turn_from, replay_turn};
