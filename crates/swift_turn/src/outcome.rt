//! What a turn leaves.

use swift_interpreter::{Effect, Exit};

/// What a turn leaves (our own).
#[derive(Drop)]
pub struct TurnOutcome {
    /// The fields after it of the actors of its executor, a list for each in text order.
    pub fields: Vec<Vec<i64>>,
    /// What it did, in order.
    pub effects: Vec<Effect>,
    /// How it ended.
    pub exit: Exit,
}
