//! Turns in words, those of a report.

ghost use Rattle.std.specs.Prelude.{◌≡◌, ◌++◌, OnOk, codes};
ghost use Rattle.swift_report.specs.Text.{ending_text, exit_text, fault_text, method_text, pending_text, resume_text};

use crate::picture::pieces::{labelled, say};
use std::alloc::AllocError;
use swift_journal::BriefExit;
use swift_script::Script;
use swift_types::{Ending, ExecId, Fault, MethodId, Resume};

fn fault(out: &mut Vec<u8>, fault: Fault) -> Result<(), AllocError>
    ensures { OnOk result (out.new.items ≡ out.old.items ++ fault_text fault) }
{
    match fault {
        Fault::Thrown(value) => labelled(out, b"thrown ", value),
        Fault::Cancelled => say(out, b"cancelled"),
        Fault::Invariant => say(out, b"invariant"),
        Fault::Overflow => say(out, b"overflow"),
        Fault::Steps => say(out, b"steps"),
        Fault::Turns => say(out, b"turns"),
        Fault::Depth => say(out, b"depth"),
        Fault::Tasks => say(out, b"tasks"),
        Fault::Empty => say(out, b"empty"),
        Fault::Isolation => say(out, b"isolation"),
    }
}

// A fault after its label.
fn labelled_fault(out: &mut Vec<u8>, label: &[u8], raised: Fault) -> Result<(), AllocError>
    ensures { OnOk result (out.new.items ≡ out.old.items ++ (label.now ++ fault_text raised)) }
{
    say(out, label)?;
    fault(out, raised)
}

/// What a turn began with.
pub fn resume(out: &mut Vec<u8>, resume: Resume) -> Result<(), AllocError>
    ensures { OnOk result (out.new.items ≡ out.old.items ++ resume_text resume) }
{
    match resume {
        Resume::Start => say(out, b"start"),
        Resume::Go => say(out, b"go"),
        Resume::Value(value) => labelled(out, b"value ", value),
        Resume::Fault(raised) => labelled_fault(out, b"fault ", raised),
    }
}

/// How a task ended.
pub fn ending(out: &mut Vec<u8>, ending: Ending) -> Result<(), AllocError>
    ensures { OnOk result (out.new.items ≡ out.old.items ++ ending_text ending) }
{
    match ending {
        Ending::Value(value) => labelled(out, b"value ", value),
        Ending::Fault(raised) => labelled_fault(out, b"fault ", raised),
    }
}

/// A method by its names, that of its actor first; nothing for a method that the script lacks.
pub fn method(out: &mut Vec<u8>, script: &Script, method: MethodId) -> Result<(), AllocError>
    ensures { OnOk result (out.new.items ≡ out.old.items ++ method_text script.now method.0) }
{
    if method.0 as usize >= script.method_count() {
        return Ok(());
    }
    say(out, script.actor_name(script.method_actor(method)))?;
    say(out, b".")?;
    say(out, script.method_name(method))
}

// The exit of a turn that calls a method.
fn call(out: &mut Vec<u8>, script: &Script, called: MethodId) -> Result<(), AllocError>
    ensures { OnOk result (out.new.items ≡ out.old.items ++ (codes "call " ++ method_text script.now called.0)) }
{
    say(out, b"call ")?;
    method(out, script, called)
}

// A fault that is pending while a group is closed.
fn pending(out: &mut Vec<u8>, pending: Option<Fault>) -> Result<(), AllocError>
    ensures { OnOk result (out.new.items ≡ out.old.items ++ pending_text pending) }
{
    match pending {
        Some(raised) => labelled_fault(out, b" fault ", raised),
        None => Ok(()),
    }
}

// The exit of a turn that closes a group.
fn close(out: &mut Vec<u8>, kept: Option<Fault>) -> Result<(), AllocError>
    ensures { OnOk result (out.new.items ≡ out.old.items ++ (codes "close" ++ pending_text kept)) }
{
    say(out, b"close")?;
    pending(out, kept)
}

/// How a turn ended.
pub fn exit(out: &mut Vec<u8>, script: &Script, exit: BriefExit) -> Result<(), AllocError>
    ensures { OnOk result (out.new.items ≡ out.old.items ++ exit_text script.now exit) }
{
    match exit {
        BriefExit::Call(_, called) => call(out, script, called),
        BriefExit::Wait(_) => say(out, b"wait"),
        BriefExit::Next(_) => say(out, b"next"),
        BriefExit::Yield => say(out, b"yield"),
        BriefExit::Close(_, kept) => close(out, kept),
        BriefExit::Return(value) => labelled(out, b"return ", value),
        BriefExit::Fault(raised) => labelled_fault(out, b"fault ", raised),
    }
}

/// The name of the executor at a place; nothing where there is none.
pub fn executor_name(script: &Script, executor: usize) -> &[u8] {
    match u32::try_from(executor) {
        Ok(number) => script.executor_name(ExecId(number)),
        Err(_) => &[],
    }
}
