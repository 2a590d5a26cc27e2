//! Calls, one after another.

use crate::executors::call::{CaseCall, call_of};
use swift_executor::{Gate, Open};
use test_support::{CaseFault, Said};

/// What the calls of a case are made on. It may be dropped at any time.
pub trait Callee<R>: Drop {
    /// Makes a call, and writes what it answered. One that was refused memory may be made again.
    fn answer<G: Gate>(
        &self,
        rt: &R,
        call: CaseCall,
        gate: &G,
        out: &mut Said,
    ) -> Result<(), CaseFault>;

    /// Makes a new desk of the executor of this one, which comes behind the others.
    fn split(&mut self, rt: &R, desk: u32) -> Result<(), CaseFault>;

    /// Closes the executors: a line for each, and a report.
    fn close(self, rt: &R, out: &mut Said) -> Result<(), CaseFault>;
}

/// Makes a call, again where it was refused memory, and writes what it answered.
pub fn make<R, C, G>(rt: &R, callee: &C, text: &str, count: u32, gate: &G, out: &mut Said)
where
    C: Callee<R>,
    G: Gate,
{
    if let Some(call) = call_of(text, count) {
        let made = match callee.answer(rt, call, gate, out) {
            Err(CaseFault::Memory) => callee.answer(rt, call, gate, out),
            made => made,
        };
        if made.is_ok() {
            return;
        }
    }
    out.put("not made")
}

/// Makes calls, and writes each with its answer on a line of its own, behind these words.
pub fn play<R, C>(rt: &R, callee: &C, before: &str, calls: &str, count: u32, out: &mut Said)
where
    C: Callee<R>,
{
    for text in calls.split("; ") {
        out.put(before);
        out.put(text);
        out.put(": ");
        make(rt, callee, text, count, &Open, out);
        out.put("\n");
    }
}
