//! How the program `swiftrun` ends.

ghost use Rattle.std.specs.Prelude.{◌≡◌};
ghost use Rattle.swift_tool.specs.Ended.{status_of};

use crate::fault::ToolFault;

/// The status of a program that has run a script: 0 where each task ended with a value, 1 where one ended with a fault, 3 for a
/// script that was refused, 4 for a run that was refused or a device that failed (our own). Words that were refused have a
/// status of their own, which `clap` gives.
pub fn status(ended: &Result<bool, ToolFault>) -> u8
    ensures { result ≡ status_of ended.now }
{
    match ended {
        Ok(true) => 0,
        Ok(false) => 1,
        Err(fault) => fault.status(),
    }
}
