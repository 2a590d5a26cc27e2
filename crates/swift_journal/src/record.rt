//! A turn, as a journal is given it and as it gives it back.

use swift_interpreter::{Effect, Exit, Frame};
use swift_locals::Bindings;
use swift_types::{Env, Resume, TaskId};

/// A turn of a task, lent to a journal (our own).
#[derive(Clone, Copy)]
pub struct Record<'a> {
    /// The task.
    pub task: TaskId,
    /// The turn's number among the turns of its task, from 0.
    pub number: u32,
    /// The worker that runs it, from 0.
    pub worker: u32,
    /// The frame as it was before the turn.
    pub frame: &'a Frame,
    /// The bindings that stood when the frame began (SE-0311).
    pub outer: &'a Bindings,
    /// What the turn begins with.
    pub resume: Resume,
    /// What it is given.
    pub env: Env,
    /// How it ends.
    pub exit: &'a Exit,
    /// What it does beside its fields.
    pub effects: &'a [Effect],
    /// The frame as the turn leaves it. None where the frame is left.
    pub after: Option<&'a Frame>,
}

/// A turn of a task, copied out of a journal. Its fields are those of a [`Record`].
pub struct OwnedRecord {
    /// The task.
    pub task: TaskId,
    /// The turn's number among the turns of its task, from 0.
    pub number: u32,
    /// The worker that ran it, from 0.
    pub worker: u32,
    /// The frame as it was before the turn.
    pub frame: Frame,
    /// The bindings that stood when the frame began (SE-0311).
    pub outer: Bindings,
    /// What the turn began with.
    pub resume: Resume,
    /// What it was given.
    pub env: Env,
    /// How it ended.
    pub exit: Exit,
    /// What it did beside its fields.
    pub effects: Vec<Effect>,
    /// The frame as the turn left it. None where the frame was left.
    pub after: Option<Frame>,
}

impl Drop for OwnedRecord {
    fn drop(self) {
        let OwnedRecord {
            task: _,
            number: _,
            worker: _,
            frame,
            outer,
            resume: _,
            env: _,
            exit,
            effects,
            after,
        } = self;
        drop(frame);
        drop(outer);
        drop(exit);
        drop(effects);
        drop(after);
    }
}
