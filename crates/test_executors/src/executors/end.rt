//! What is left of executors.

use crate::desks::{BookOf, Door, Leavings, Left};
use crate::executors::stage::CaseStage;
use crate::executors::tell::tell_place;
use std::alloc::{AllocGlobal, Global};
use std::sync::Wait;
use test_support::{CaseFault, Said};

/// Closes the executors of a case, each with the last of its desks: a line for each, and a report.
pub fn close_all<K, R>(rt: &R, stage: CaseStage<K>, out: &mut Said) -> Result<(), CaseFault>
where
    K: BookOf,
    R: Wait + AllocGlobal,
{
    let CaseStage { setting, doors, .. } = stage;
    let mut leavings = Leavings::new(rt.alloc(), doors.len())?;
    let mut number = 0u32;
    for door in doors {
        if close_one(rt, door.into_inner(), number, &mut leavings, out)? {
            number = number.saturating_add(1);
        }
    }
    leavings.tell(rt.alloc(), &setting, out)
}

// Closes an executor with the last of its desks, and writes its line. Whether it was the last.
fn close_one<K, R>(
    rt: &R,
    door: Door<K>,
    number: u32,
    leavings: &mut Leavings,
    out: &mut Said,
) -> Result<bool, CaseFault>
where
    K: BookOf,
    R: Wait + AllocGlobal,
{
    let Some(left) = leavings.close(rt, door) else {
        return Ok(false);
    };
    tell_left(rt.alloc(), number, &left, out)?;
    Ok(true)
}

/// Writes what the executor of this number has left beside its turns.
pub fn tell_left(alloc: Global, number: u32, left: &Left, out: &mut Said) -> Result<(), CaseFault> {
    out.number("executor ", i64::from(number));
    out.count(": ", left.pending);
    out.put(" pending");
    tell_place(alloc, &left.ready.list, " ready", out)?;
    tell_place(alloc, &left.inbox.list, " in the inbox", out)?;
    out.put("\n");
    Ok(())
}
