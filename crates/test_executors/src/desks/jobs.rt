//! Jobs that are kept.

use swift_job::{Job, spend_all};
use swift_turn::Body;

/// Jobs, the oldest first. Where they are dropped, they are spent.
pub struct Jobs {
    pub list: Vec<Job<Body>>,
}

impl Drop for Jobs {
    fn drop(self) {
        let Jobs { list } = self;
        spend_all(list);
    }
}
