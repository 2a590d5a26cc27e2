//! How a history has ended.

use crate::moves::Move;
use swift_events::Origin;
use swift_types::Ending;

/// How the tasks of a history have ended, and the fields.
#[derive(Drop)]
pub struct RunOutcome {
    /// The steps that lead to it.
    pub schedule: Vec<Move>,
    /// Where each task comes from, and how it has ended, in the order of tasks.
    pub endings: Vec<(Origin, Ending)>,
    /// The fields of the actors of each executor, in the order of executors, and of each one's actors in text order.
    pub fields: Vec<Vec<Vec<i64>>>,
}

/// What is known of the end of a history.
#[derive(Drop)]
pub enum End {
    /// Some task has not ended, or was not made.
    NotYet,
    /// Each task has ended; but a root was left out, or a group may be open. No history that was followed comes to it.
    Unknown,
    /// Each task has ended so.
    Reached(RunOutcome),
}
