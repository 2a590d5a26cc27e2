//! Faults, and what a turn or a task began and ended with.

ghost use Rattle.std.specs.Prelude.{◌≡◌, ◌++◌, OnOk, codes};
ghost use Rattle.swift_report.specs.ReportJson.{ending_json, fault_json, fault_word, pending_json, resume_json, thrown_json, value_json};

use crate::json::append::{labelled, say};
use std::alloc::AllocError;
use swift_types::{Ending, Fault, Resume};

// The word of a fault, as a member.
fn fault_word(fault: Fault) -> &'static [u8]
    ensures { result.now ≡ fault_word fault }
{
    match fault {
        Fault::Thrown(_) => b"\"fault\":\"thrown\"",
        Fault::Cancelled => b"\"fault\":\"cancelled\"",
        Fault::Invariant => b"\"fault\":\"invariant\"",
        Fault::Overflow => b"\"fault\":\"overflow\"",
        Fault::Steps => b"\"fault\":\"steps\"",
        Fault::Turns => b"\"fault\":\"turns\"",
        Fault::Depth => b"\"fault\":\"depth\"",
        Fault::Tasks => b"\"fault\":\"tasks\"",
        Fault::Empty => b"\"fault\":\"empty\"",
        Fault::Isolation => b"\"fault\":\"isolation\"",
    }
}

/// A number, as a member after others.
pub(crate) fn value(out: &mut Vec<u8>, value: i64) -> Result<(), AllocError>
    ensures { OnOk result (out.new.items ≡ out.old.items ++ value_json value) }
{
    labelled(out, b",\"value\":", value)
}

// The value of a throw, as a member.
fn thrown(out: &mut Vec<u8>, fault: Fault) -> Result<(), AllocError>
    ensures { OnOk result (out.new.items ≡ out.old.items ++ thrown_json fault) }
{
    match fault {
        Fault::Thrown(number) => value(out, number),
        _ => Ok(()),
    }
}

pub(crate) fn fault(out: &mut Vec<u8>, fault: Fault) -> Result<(), AllocError>
    ensures { OnOk result (out.new.items ≡ out.old.items ++ fault_json fault) }
{
    say(out, fault_word(fault))?;
    thrown(out, fault)
}

// A number, as an object.
fn value_object(out: &mut Vec<u8>, given: i64) -> Result<(), AllocError>
    ensures { OnOk result (out.new.items ≡ out.old.items ++ (codes "{\"is\":\"value\"" ++ value_json given ++ codes "}")) }
{
    say(out, b"{\"is\":\"value\"")?;
    value(out, given)?;
    say(out, b"}")
}

/// A fault, as an object.
pub(crate) fn fault_object(out: &mut Vec<u8>, raised: Fault) -> Result<(), AllocError>
    ensures { OnOk result (out.new.items ≡ out.old.items ++ (codes "{\"is\":\"fault\"," ++ fault_json raised ++ codes "}")) }
{
    say(out, b"{\"is\":\"fault\",")?;
    fault(out, raised)?;
    say(out, b"}")
}

pub(crate) fn resume(out: &mut Vec<u8>, resume: Resume) -> Result<(), AllocError>
    ensures { OnOk result (out.new.items ≡ out.old.items ++ resume_json resume) }
{
    match resume {
        Resume::Start => say(out, b"{\"is\":\"start\"}"),
        Resume::Go => say(out, b"{\"is\":\"go\"}"),
        Resume::Value(given) => value_object(out, given),
        Resume::Fault(raised) => fault_object(out, raised),
    }
}

pub(crate) fn ending(out: &mut Vec<u8>, ending: Ending) -> Result<(), AllocError>
    ensures { OnOk result (out.new.items ≡ out.old.items ++ ending_json ending) }
{
    match ending {
        Ending::Value(given) => value_object(out, given),
        Ending::Fault(raised) => fault_object(out, raised),
    }
}

pub(crate) fn pending(out: &mut Vec<u8>, pending: Option<Fault>) -> Result<(), AllocError>
    ensures { OnOk result (out.new.items ≡ out.old.items ++ pending_json pending) }
{
    match pending {
        Some(raised) => {
            say(out, b",")?;
            fault(out, raised)
        }
        None => Ok(()),
    }
}
