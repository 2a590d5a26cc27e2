//! A turn that was folded, as a checkpoint gives it back.

use swift_interpreter::{Effect, Exit, Frame};
use swift_types::TaskId;

/// What is left of a turn that was folded, copied out of a checkpoint (our own).
#[derive(Drop)]
pub struct Folded {
    /// The task.
    pub task: TaskId,
    /// The turn's number among the turns of its task, from 0.
    pub number: u32,
    /// How it ended.
    pub exit: Exit,
    /// What it did beside its fields.
    pub effects: Vec<Effect>,
    /// The frame as the turn left it. None where the frame was left.
    pub after: Option<Frame>,
}
