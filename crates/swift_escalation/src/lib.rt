//! The priorities of tasks that wait for one another.
#![tactic(auto)]

// Tasks by place, with their levels, which are raised along edges.
mod graph;

// Where each task stands there.
mod places;

// What holds of the definitions.
pub mod laws;

// The events so far, and each task's priority by them.
mod waits;

pub use waits::{PriorityEvent, Waits, WaitsFault};
