//! Jobs: turns of tasks that are still to be run, each of which has to be spent once.
#![tactic(auto)]

// One turn of a task that is still to be run.
mod job;

pub use job::{Job, spend_all};
