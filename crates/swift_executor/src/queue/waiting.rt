//! A job that waits in a queue.

use swift_job::Job;
use swift_types::Priority;

/// A job that waits, with its priority and its arrival number.
pub(crate) struct Waiting<B> {
    pub job: Job<B>,
    pub priority: Priority,
    pub arrival: u64,
}
