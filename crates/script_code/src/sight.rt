//! What a formula is read against.

use swift_locals::Bindings;
use swift_types::{Env, LocalId};

/// A binding of a task local that a frame has made (SE-0311).
#[derive(Clone, Copy)]
pub struct Binding {
    /// The local, by its number.
    pub local: LocalId,
    /// What a read of it gives.
    pub value: i64,
}

/// What a formula is read against: the variables of its frame, the fields of its executor's actors, the bindings that
/// stand in its task, and what the turn was given.
#[derive(Clone, Copy)]
pub struct Sight<'a> {
    /// The variables of the frame, by number.
    pub variables: &'a [i64],
    /// The fields of each actor of the executor, in the order of the actors.
    pub fields: &'a [Vec<i64>],
    /// The bindings that the frame has made, the innermost last.
    pub own: &'a [Binding],
    /// The bindings that stood when the frame began.
    pub outer: &'a Bindings,
    /// What the turn was given at its start.
    pub env: &'a Env,
}
