//! A turn that was played.

ghost use Rattle.std.specs.Prelude.{◌≡◌};
ghost use Rattle.swift_interpreter.specs.Frames.{frame_view};
ghost use Rattle.swift_interpreter.specs.TurnStates.{exit_view};
ghost use Rattle.swift_journal.specs.Records.{frame_if_lent, record_view};
ghost use Rattle.swift_turn.specs.Body.{IsRunning};
ghost use Rattle.swift_steps.specs.OpenHistories.{kept_first, record_of};

use crate::next_turn::NextTurn;
use swift_interpreter::{Effect, Exit, Frame};
use swift_journal::Record;
use swift_turn::Body;
use swift_types::{Env, TaskId};

/// A turn that was played, and is to be applied.
#[derive(Drop)]
pub struct PlayedTurn {
    /// The task.
    pub task: TaskId,
    /// The number of the executor that it ran on.
    pub place: usize,
    /// What it was given.
    pub env: Env,
    /// What it began with, with the frames that it has left.
    pub ready: NextTurn,
    /// How it has ended.
    pub exit: Exit,
    /// What it has done beside its fields.
    pub effects: Vec<Effect>,
}

// The frame after a turn that ended so, where one goes on.
fn frame_after<'a>(body: &'a Body, exit: &Exit) -> Option<&'a Frame>
    requires { IsRunning body.now }
    ensures { frame_if_lent result ≡ kept_first (exit_view exit.now) body.now.task.frames }
{
    match exit {
        Exit::Return(_) | Exit::Fault(_) => None,
        _ => Some(body.top()),
    }
}

impl PlayedTurn {
    /// Its record in a journal: by a worker, and of the frame that stood before it.
    pub fn record<'a>(&'a self, frame: &'a Frame, worker: u32) -> Record<'a>
        requires { IsRunning self.now.ready.body }
        ensures { record_view result ≡ record_of self.now worker (frame_view frame.now) }
    {
        Record {
            task: self.task,
            number: self.ready.number,
            worker,
            frame,
            outer: self.ready.body.outer(),
            resume: self.ready.resume,
            env: self.env,
            exit: &self.exit,
            effects: &self.effects,
            after: frame_after(&self.ready.body, &self.exit),
        }
    }
}
