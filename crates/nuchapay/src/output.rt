//! What the program writes, and how it ends.

use crate::places::{ScriptFile, methods_text};
use crate::values::Said;
use nuchapay_tool::Checked;
use std::alloc::AllocError;
use swift_report::write_all;
use swift_tool::{ToolFault, status};

/// Says what went wrong, if anything did. The status to end with.
pub fn tell(rt: &HostRuntime, ended: Result<bool, ToolFault>) -> u8 {
    if let Err(fault) = ended {
        let _ = eprintln!(rt; "nuchapay: {fault}");
    }
    status(&ended)
}

/// Writes a text to standard output.
pub fn write_out(rt: &HostRuntime, text: &[u8]) -> Result<bool, ToolFault> {
    write_all(&mut rt.stdout(), text)?;
    Ok(true)
}

/// Says on standard output what a check says as JSON. The status to end with.
pub fn say_checked(rt: &HostRuntime, checked: Result<Checked, AllocError>) -> u8 {
    match checked {
        Ok(Checked::Accepted(said)) => tell(rt, write_out(rt, said.as_bytes())),
        Ok(Checked::Refused(said)) => match write_all(&mut rt.stdout(), said.as_bytes()) {
            Ok(()) => 3,
            Err(fault) => tell(rt, Err(ToolFault::from(fault))),
        },
        Err(fault) => tell(rt, Err(ToolFault::from(fault))),
    }
}

/// Writes what is said of a run, and behind it from which lines of a Swift file each method is: nothing before there is memory for both.
/// Whether each task ended with a value.
pub fn write_said(
    rt: &HostRuntime,
    said: Result<Said, ToolFault>,
    file: ScriptFile<'_>,
) -> Result<bool, ToolFault> {
    let said = said?;
    let methods = methods_text(rt.alloc(), file)?;
    write_out(rt, &said.text)?;
    write_out(rt, &methods)?;
    Ok(said.is_well)
}
