//! Where a body is with its turn.

use swift_interpreter::Exit;
use swift_types::{Env, Resume};

/// Where a body is with its turn. The fields of a turn that is under way, and its effects, lie beside it.
#[derive(Drop)]
pub enum Phase {
    Idle,
    /// To be polled.
    Entered(Resume, Env),
    /// How it ended.
    Played(Exit),
    /// It ran out of memory. The fields are those from before it.
    OutOfMemory,
}
