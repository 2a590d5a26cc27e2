//! What a turn is given and does not change.

use script_code::{Formula, Instruction};
use swift_locals::Bindings;
use swift_types::Env;

/// What a turn is given and does not change.
#[derive(Clone, Copy)]
pub struct TurnInput<'a> {
    /// The instructions of the frame's method.
    pub instructions: &'a [Instruction],
    /// The invariants of the actors of the executor that the frame runs on.
    pub invariants: &'a [Formula],
    /// The bindings that stood when the frame began.
    pub outer: &'a Bindings,
    /// What the turn reads of its task.
    pub env: &'a Env,
}
