//! Why an executor refuses.

use std::alloc::AllocError;
use swift_tasks::BookFault;
use thiserror::Error;

/// Why an executor refuses a call (our own). No job is lost. After a refused call of `ExecState` fields and journal are as before, by
/// contract, and so they are after a refused `Exec::run_some`, but jobs of the inbox may have become ready.
#[derive(Clone, Copy, Debug, PartialEq, Eq, Error)]
pub enum ExecFault {
    /// A growth was refused.
    #[error("X1 no memory")]
    Memory,
    /// The executor is pinned to another worker.
    #[error("X2 wrong worker")]
    Worker,
    /// The inbox was found full.
    #[error("X3 full")]
    Full,
    /// The book refused, for another reason than memory.
    #[error("X4 refused by the book: {0}")]
    Refused(BookFault),
    /// The desk has no allowance left. It has the number of a full inbox: no job more is taken from this desk.
    #[error("X3 spent")]
    Spent,
}

impl From<AllocError> for ExecFault {
    ghost use Rattle.std.specs.Prelude.{◌≡◌};
    ghost use Rattle.swift_executor.specs.declared.fault.ExecFault.TheVariants.{Memory};

    ghost from_gives = { λ _ fault. fault ≡ Memory };

    fn from(_e: AllocError) -> ExecFault {
        ExecFault::Memory
    }
}

impl From<BookFault> for ExecFault {
    ghost use Rattle.std.specs.Prelude.{◌≡◌};
    ghost use Rattle.swift_executor.specs.Refusals.{fault_of};

    ghost from_gives = { λ cause fault. fault ≡ fault_of cause };

    fn from(cause: BookFault) -> ExecFault {
        match cause {
            BookFault::Memory => ExecFault::Memory,
            _ => ExecFault::Refused(cause),
        }
    }
}
