//! Faults, and what a turn or a task began and ended with, in words.

ghost use Rattle.std.specs.Prelude.{◌≡◌, ◌++◌, OnOk};
ghost use Rattle.swift_report.specs.Text.{fault_text, resume_text, ending_text, pending_text};

use crate::append::number;
use std::alloc::AllocError;
use swift_types::{Ending, Fault, Resume};

pub(crate) fn fault(out: &mut Vec<u8>, fault: Fault) -> Result<(), AllocError>
    ensures { OnOk result (out.new.items ≡ out.old.items ++ fault_text fault) }
{
    match fault {
        Fault::Thrown(value) => {
            out.extend_from_slice(b"thrown ")?;
            number(out, value)
        }
        Fault::Cancelled => out.extend_from_slice(b"cancelled"),
        Fault::Invariant => out.extend_from_slice(b"invariant"),
        Fault::Overflow => out.extend_from_slice(b"overflow"),
        Fault::Steps => out.extend_from_slice(b"steps"),
        Fault::Turns => out.extend_from_slice(b"turns"),
        Fault::Depth => out.extend_from_slice(b"depth"),
        Fault::Tasks => out.extend_from_slice(b"tasks"),
        Fault::Empty => out.extend_from_slice(b"empty"),
        Fault::Isolation => out.extend_from_slice(b"isolation"),
    }
}

pub(crate) fn resume(out: &mut Vec<u8>, resume: Resume) -> Result<(), AllocError>
    ensures { OnOk result (out.new.items ≡ out.old.items ++ resume_text resume) }
{
    match resume {
        Resume::Start => out.extend_from_slice(b"start"),
        Resume::Go => out.extend_from_slice(b"go"),
        Resume::Value(value) => {
            out.extend_from_slice(b"value ")?;
            number(out, value)
        }
        Resume::Fault(raised) => {
            out.extend_from_slice(b"fault ")?;
            fault(out, raised)
        }
    }
}

pub(crate) fn ending(out: &mut Vec<u8>, ending: Ending) -> Result<(), AllocError>
    ensures { OnOk result (out.new.items ≡ out.old.items ++ ending_text ending) }
{
    match ending {
        Ending::Value(value) => {
            out.extend_from_slice(b"value ")?;
            number(out, value)
        }
        Ending::Fault(raised) => {
            out.extend_from_slice(b"fault ")?;
            fault(out, raised)
        }
    }
}

pub(crate) fn pending(out: &mut Vec<u8>, pending: Option<Fault>) -> Result<(), AllocError>
    ensures { OnOk result (out.new.items ≡ out.old.items ++ pending_text pending) }
{
    match pending {
        Some(raised) => {
            out.extend_from_slice(b" fault ")?;
            fault(out, raised)
        }
        None => Ok(()),
    }
}
