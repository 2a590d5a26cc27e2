//! Why nothing, or not all, was printed.

ghost use Rattle.std.specs.Prelude.{◌≡◌};
ghost use Rattle.swift_workers.specs.declared.fault.RunFault.TheVariants.{Memory};
ghost use Rattle.swift_tool.specs.Ended.{status_of_fault};
ghost use Rattle.swift_tool.specs.declared.fault.ToolFault.TheVariants.{Device, Run, Script};

use std::alloc::{AllocError, AllocFailed};
use swift_report::Device;
use swift_script::ScriptFault;
use swift_workers::RunFault;
use thiserror::Error;

/// Why a text was not run to its end and printed (our own). Nothing was written, unless a device failed: then a prefix
/// of the report's text may have been.
#[derive(Clone, Copy, Debug, PartialEq, Eq, Error)]
pub enum ToolFault {
    /// The script was refused.
    #[error("{0}")]
    Script(ScriptFault),
    /// The run was refused, or there was no memory to read the text, for the run, or for the report's text.
    #[error("{0}")]
    Run(RunFault),
    /// A read or a write failed, or a write took no byte.
    #[error("device")]
    Device,
}

impl ToolFault {
    /// The status of a program that it ends: 3 for a script that was refused, else 4.
    pub fn status(self) -> u8
        ensures { result ≡ status_of_fault self }
    {
        match self {
            ToolFault::Script(_) => 3,
            ToolFault::Run(_) | ToolFault::Device => 4,
        }
    }
}

impl From<ScriptFault> for ToolFault {
    ghost from_gives = { λ e f. f ≡ Script e };

    fn from(fault: ScriptFault) -> ToolFault {
        ToolFault::Script(fault)
    }
}

impl From<RunFault> for ToolFault {
    ghost from_gives = { λ e f. f ≡ Run e };

    fn from(fault: RunFault) -> ToolFault {
        ToolFault::Run(fault)
    }
}

impl From<Device> for ToolFault {
    ghost from_gives = { λ _ f. f ≡ Device };

    fn from(_fault: Device) -> ToolFault {
        ToolFault::Device
    }
}

impl From<AllocError> for ToolFault {
    ghost from_gives = { λ _ f. f ≡ Run Memory };

    fn from(_fault: AllocError) -> ToolFault {
        ToolFault::Run(RunFault::Memory)
    }
}

impl<T: Drop> From<AllocFailed<T>> for ToolFault {
    ghost from_gives = { λ _ f. f ≡ Run Memory };

    fn from(_fault: AllocFailed<T>) -> ToolFault {
        ToolFault::Run(RunFault::Memory)
    }
}
