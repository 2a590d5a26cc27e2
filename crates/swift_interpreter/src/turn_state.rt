//! A turn that is under way.

use crate::effect::Effect;
use crate::frame::Frame;

// The greatest number of a task or a group within its task.
pub const LAST_NUMBER: u64 = 0xFFFF_FFFF;

/// A turn that is under way (our own).
pub struct TurnState {
    /// The frame that runs.
    pub frame: Frame,
    /// The fields of each actor of the executor, in the order of the actors.
    pub fields: Vec<Vec<i64>>,
    /// What is to be done when the turn has ended, in order.
    pub effects: Vec<Effect>,
    /// How many tasks the turn may still make.
    pub room: u32,
}

impl Drop for TurnState {
    fn drop(self) {
        let TurnState {
            frame,
            fields,
            effects,
            room: _,
        } = self;
        drop(frame);
        drop(fields);
        drop(effects);
    }
}
