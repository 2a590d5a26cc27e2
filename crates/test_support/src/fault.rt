//! Why a case has no answer.

use std::alloc::{AllocError, AllocFailed};
use std::io;
use std::io::ErrorKind;

/// Why a case has no answer. Out of memory, it is made again; else the program stops.
#[derive(Clone, Copy, Debug, PartialEq, Eq)]
pub enum CaseFault {
    /// A case has not the form that it needs.
    Form,
    /// A script that has to be run is refused, or its run is.
    Script,
    /// A growth was refused.
    Memory,
    /// A call that was to be refused memory was not.
    Granted,
    /// Standard input or output failed.
    Device,
}

impl From<AllocError> for CaseFault {
    fn from(_fault: AllocError) -> CaseFault {
        CaseFault::Memory
    }
}

impl<T: Drop> From<AllocFailed<T>> for CaseFault {
    fn from(_fault: AllocFailed<T>) -> CaseFault {
        CaseFault::Memory
    }
}

impl From<io::Error> for CaseFault {
    fn from(fault: io::Error) -> CaseFault {
        if fault.kind() == ErrorKind::OutOfMemory {
            return CaseFault::Memory;
        }
        CaseFault::Device
    }
}
