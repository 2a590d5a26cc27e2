//! Why the book refuses.

use std::alloc::AllocError;
use thiserror::Error;

/// Why the book refuses a call (our own). A call that was refused has changed nothing.
#[derive(Clone, Copy, Debug, PartialEq, Eq, Error)]
pub enum BookFault {
    /// A task that was not made, a root that the script lacks, or one that was added before.
    #[error("B1 unknown task")]
    Unknown,
    /// The task has ended.
    #[error("B2 task completed")]
    Completed,
    /// A growth was refused.
    #[error("B3 no memory")]
    Memory,
    /// A turn that is not the task's next one, or has not begun; effects or an exit that do not fit it; or a body of
    /// another script; or a turn numbered 2^32 - 1, after which none could come.
    #[error("B4 not this turn")]
    Refused,
}

impl From<AllocError> for BookFault {
    ghost use Rattle.std.specs.Prelude.{◌≡◌};
    ghost use Rattle.swift_tasks.specs.declared.fault.BookFault.TheVariants.{Memory};

    ghost from_gives = { λ _ fault. fault ≡ Memory };

    fn from(_e: AllocError) -> BookFault {
        BookFault::Memory
    }
}
