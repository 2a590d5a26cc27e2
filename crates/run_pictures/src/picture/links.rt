//! How one turn made the job of another.

use crate::picture::boxes::TurnBox;
use swift_journal::BriefExit;
use swift_types::Resume;

/// How one turn made the job of another (our own).
#[derive(Clone, Copy)]
pub(crate) enum Link {
    /// It made the task.
    Spawn,
    /// It called the method that the other begins.
    Call,
    /// It left its frame, and the other goes on with the caller's.
    Return,
    /// The task goes on by itself.
    Goes,
    /// The other's task waited for it.
    Wake,
}

impl Link {
    /// How the maker of a turn's job made it.
    pub fn between(maker: &TurnBox, turn: &TurnBox) -> Link {
        if maker.task != turn.task {
            return if turn.number == 0 {
                Link::Spawn
            } else {
                Link::Wake
            };
        }
        match maker.exit {
            BriefExit::Call(_, _) if turn.resume == Resume::Start => Link::Call,
            BriefExit::Return(_) | BriefExit::Fault(_) => Link::Return,
            _ => Link::Goes,
        }
    }

    /// Its word.
    pub fn word(self) -> &'static str {
        match self {
            Link::Spawn => "spawn",
            Link::Call => "call",
            Link::Return => "return",
            Link::Goes => "goes on",
            Link::Wake => "wake",
        }
    }
}
