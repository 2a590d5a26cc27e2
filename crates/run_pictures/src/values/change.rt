//! Changes of fields, and what became of a turn.

/// A field that a turn changed, or would have changed (our own).
#[derive(Clone, Copy)]
pub struct Change {
    /// The place of its actor among those of the executor, in text order.
    pub actor: usize,
    /// Its place among that actor's fields.
    pub field: usize,
    /// Its value when the turn began.
    pub before: i64,
    /// Its value when the turn ended, another one.
    pub after: i64,
}

/// What became of a turn (our own).
#[derive(Clone, Copy)]
pub enum Outcome {
    /// It was kept.
    Kept,
    /// It was undone, since it ended with `overflow`, `steps`, `tasks` or `isolation`. A turn that such a fault came to from a call,
    /// and which caught none, counts here too: it has changed nothing.
    Undone,
    /// It was undone, since it would have left this invariant false and none before it: its place among those of its executor.
    Broke(usize),
}

/// What a turn did to the fields of its executor's actors (our own).
pub struct TurnValues {
    /// What became of it.
    pub outcome: Outcome,
    /// The fields whose value was another at its end, in the order of actors and then of fields; where it was undone, those that it
    /// would have left so.
    pub changes: Vec<Change>,
}

impl Drop for TurnValues {
    fn drop(self) {
        let TurnValues {
            outcome: _,
            changes,
        } = self;
        drop(changes);
    }
}
