//! Runs a script to its end on one to eight threads, over the executors and the book of tasks.
#![tactic(auto)]

// Where one worker waits.
mod bell;
// Whether a worker's turns are links of chains of calls.
mod chain;

// The executors of a script, and the desks of each worker.
mod crew;

// Why a run was given up.
mod fault;

// What the lock of a pool keeps, and what its seats know.
mod known;

/// What holds of the calls of a pool.
pub mod laws;

// What a run leaves.
mod leave;

// The tokens of executors that have jobs.
mod pool;

// What holds of the pool and of what all seats know.
mod rule;

// Jobs on their way to executors.
mod sending;

// The pool as workers share it.
mod shared_pool;

// The pool where it lies in its lock.
mod shelf;

// The turns of one worker.
mod turns;

// Whole runs.
mod whole;

pub use fault::RunFault;
pub use swift_executor::{Gate, Moment, Open};
pub use whole::run;
