//! The log of a run: what happened to its tasks, in order, and what follows from it.
//!
//! The types here are plain. What a log gives is defined over the log alone, in specs/: what is known of a task
//! (specs/Lives.antt), which tasks are cancelled, which groups there are, who waits for whom (specs/Relations.antt),
//! and the environment of a turn (specs/Room.antt).
#![tactic(auto)]

// Events, and what they say of one task.
mod event;
mod life;

// Laws of cancellation.
pub mod laws;

pub use event::Event;
pub use life::{JobStage, LastJob, Life, Origin};
