//! Why a run was given up.

use std::alloc::{AllocError, AllocFailed};
use swift_executor::ExecFault;
use swift_tasks::BookFault;
use thiserror::Error;

/// Why a run leaves no report (our own). Nothing of it remains.
#[derive(Clone, Copy, Debug, PartialEq, Eq, Error)]
pub enum RunFault {
    /// A number of workers other than 1 to 8.
    #[error("N1 number of workers")]
    Workers,
    /// A growth was refused, or no thread could be made.
    #[error("N2 no memory")]
    Memory,
    /// A task has not ended, and no executor has a job that could go on with it; or a job was sent and not run.
    #[error("N3 unfinished jobs")]
    Unfinished,
    /// A report that is not legal. No run ends with it: `run` leaves legal reports alone. It stands for reports from elsewhere.
    #[error("N4 report not legal")]
    Illegal,
    /// An executor had no room for a job, or the book refused a turn.
    #[error("N5 executor refused")]
    Executor,
}

// Why a run was given up.
#[derive(Clone, Copy)]
pub enum Halt {
    Memory,
    Unfinished,
    Executor,
}

impl From<AllocError> for Halt {
    fn from(_e: AllocError) -> Halt {
        Halt::Memory
    }
}

impl<T: Drop> From<AllocFailed<T>> for Halt {
    fn from(_e: AllocFailed<T>) -> Halt {
        Halt::Memory
    }
}

impl From<ExecFault> for Halt {
    fn from(fault: ExecFault) -> Halt {
        match fault {
            ExecFault::Memory => Halt::Memory,
            ExecFault::Worker | ExecFault::Full | ExecFault::Refused(_) | ExecFault::Spent =>
                Halt::Executor,
        }
    }
}

impl From<BookFault> for Halt {
    fn from(fault: BookFault) -> Halt {
        Halt::from(ExecFault::from(fault))
    }
}

impl From<Halt> for RunFault {
    ghost use Rattle.std.specs.Prelude.{◌≢◌};
    ghost use Rattle.swift_workers.specs.declared.fault.RunFault.TheVariants.{Illegal, Workers};

    ghost from_gives = { λ _ fault. (fault ≢ Workers) × (fault ≢ Illegal) };

    fn from(halt: Halt) -> RunFault {
        match halt {
            Halt::Memory => RunFault::Memory,
            Halt::Unfinished => RunFault::Unfinished,
            Halt::Executor => RunFault::Executor,
        }
    }
}
