//! Reports of runs.

use swift_events::Origin;
use swift_journal::{Checkpoint, Journal};
use swift_log::EventLog;
use swift_types::Ending;

/// What a run leaves.
pub struct Report {
    /// The journal of each executor, in the order of executors.
    pub journals: Vec<Journal>,
    /// The checkpoint of each executor, in the same order: what is left of the turns before its journal.
    pub checkpoints: Vec<Checkpoint>,
    /// What happened to tasks, in order.
    pub log: EventLog,
    /// Where each task comes from, and how it ended, in the order of tasks.
    pub endings: Vec<(Origin, Ending)>,
    /// The fields of the actors of each executor, in the order of executors, and of each one's actors in text order.
    pub fields: Vec<Vec<Vec<i64>>>,
}

impl Drop for Report {
    fn drop(self) {
        let Report {
            journals,
            checkpoints,
            log,
            endings,
            fields,
        } = self;
        drop(journals);
        drop(checkpoints);
        drop(log);
        drop(endings);
        drop(fields);
    }
}
