//! A case.

use crate::executors::ROOM;
use crate::executors::acting::Acting;
use crate::executors::call::{call_of, number};
use crate::executors::callee::{Callee, make, play as play_calls};
use std::alloc::AllocGlobal;
use std::sync::{Mutex, Wait};
use swift_executor::Open;
use test_support::{CaseFault, Said};

/// The words of a case.
#[derive(Clone, Copy)]
pub struct CasePlan<'a> {
    pub script: &'a str,
    /// For how many workers its executors are made.
    pub workers: u32,
    /// For how many jobs each of them has room.
    pub room: u32,
    /// A line for each call.
    pub calls: &'a str,
}

impl<'a> CasePlan<'a> {
    /// The same without its last call.
    pub fn without_last(self) -> CasePlan<'a> {
        let (calls, _last) = self.calls.rsplit_once('\n').unwrap_or((self.calls, ""));
        CasePlan { calls, ..self }
    }
}

/// `SCRIPT`, `--`, `WORKERS ROOM`, and the calls, each on a line of its own.
pub fn plan_of(case: &str) -> Option<CasePlan<'_>> {
    let (script, lines) = case.split_once("\n--\n")?;
    let (head, calls) = lines.split_once('\n')?;
    let (workers, room) = pair_of(head, " ")?;
    Some(CasePlan {
        script,
        workers,
        room,
        calls,
    })
}

// Two numbers, with these words between them.
fn pair_of(words: &str, between: &str) -> Option<(u32, u32)> {
    let (first, second) = words.split_once(between)?;
    Some((number(first, 0)?, number(second, 0)?))
}

/// Makes these calls, writes each with its answer, and what closing the executors gives. `Granted` where the last one is to be refused
/// memory, and is not.
pub fn play_on<R, C>(rt: &R, mut callee: C, lines: &str, out: &mut Said) -> Result<(), CaseFault>
where
    R: Wait + AllocGlobal,
    C: Callee<R>,
{
    if let Some((calls, last)) = lines.split_once("\nrefused ") {
        play_lines(rt, &mut callee, calls, out)?;
        return close_refused(rt, callee, last, out);
    }
    let calls = lines.strip_suffix("\ndrop");
    play_lines(rt, &mut callee, calls.unwrap_or(lines), out)?;
    if calls.is_none() {
        return callee.close(rt, out);
    }
    drop(callee);
    out.put("dropped\n");
    Ok(())
}

// Closes the executors once this call is refused memory.
fn close_refused<R, C>(rt: &R, callee: C, call: &str, out: &mut Said) -> Result<(), CaseFault>
where
    C: Callee<R>,
{
    let Some(call) = call_of(call, 0) else {
        return Err(CaseFault::Form);
    };
    match callee.answer(rt, call, &Open, out) {
        Err(CaseFault::Memory) => callee.close(rt, out),
        _ => Err(CaseFault::Granted),
    }
}

// Makes the calls of these lines.
fn play_lines<R, C>(rt: &R, callee: &mut C, lines: &str, out: &mut Said) -> Result<(), CaseFault>
where
    R: Wait + AllocGlobal,
    C: Callee<R>,
{
    for line in lines.split('\n') {
        play_line(rt, callee, line, out)?;
    }
    Ok(())
}

// Makes the calls of a line.
fn play_line<R, C>(rt: &R, callee: &mut C, line: &str, out: &mut Said) -> Result<(), CaseFault>
where
    R: Wait + AllocGlobal,
    C: Callee<R>,
{
    if let Some(rest) = line.strip_prefix("at ") {
        return play_at(rt, callee, line, rest, out);
    }
    if let Some(desk) = line.strip_prefix("split ") {
        return play_split(rt, callee, line, desk, out);
    }
    if let Some((range, calls)) = line.split_once(": ") {
        return play_range(rt, callee, range, calls, out);
    }
    play_calls(rt, callee, "", line, 0, out);
    Ok(())
}

// A new desk.
fn play_split<R, C>(
    rt: &R,
    callee: &mut C,
    line: &str,
    desk: &str,
    out: &mut Said,
) -> Result<(), CaseFault>
where
    C: Callee<R>,
{
    let Some(desk) = number(desk, 0) else {
        return Err(CaseFault::Form);
    };
    callee.split(rt, desk)?;
    out.put(line);
    out.put(": ok\n");
    Ok(())
}

// The words of a call with a gate that makes others at a moment.
#[derive(Clone, Copy)]
struct Acts<'a> {
    moment: &'a str,
    calls: &'a str,
    call: &'a str,
}

// `MOMENT { CALLS } CALL`.
fn acts_of(words: &str) -> Option<Acts<'_>> {
    let (moment, rest) = words.split_once(" { ")?;
    let (calls, call) = rest.split_once(" } ")?;
    Some(Acts {
        moment,
        calls,
        call,
    })
}

// A call with a gate that makes others at a moment.
fn play_at<R, C>(
    rt: &R,
    callee: &C,
    line: &str,
    words: &str,
    out: &mut Said,
) -> Result<(), CaseFault>
where
    R: Wait + AllocGlobal,
    C: Callee<R>,
{
    let Some(acts) = acts_of(words) else {
        return Err(CaseFault::Form);
    };
    let gate = Acting {
        rt,
        callee,
        moment: acts.moment,
        calls: acts.calls,
        lines: Mutex::new(Said::with_room(rt.alloc(), ROOM)?),
    };
    let mut answer = Said::with_room(rt.alloc(), ROOM)?;
    make(rt, callee, acts.call, 0, &gate, &mut answer);
    out.part(&gate.lines.into_inner());
    out.put(line);
    out.put(": ");
    out.part(&answer);
    out.put("\n");
    Ok(())
}

// Makes calls for each number of a range, `FIRST to LAST`, and writes what they answer for the last.
fn play_range<R, C>(
    rt: &R,
    callee: &C,
    range: &str,
    calls: &str,
    out: &mut Said,
) -> Result<(), CaseFault>
where
    R: AllocGlobal,
    C: Callee<R>,
{
    let Some((first, last)) = pair_of(range, " to ") else {
        return Err(CaseFault::Form);
    };
    let mut lines = Said::with_room(rt.alloc(), ROOM)?;
    for count in first..=last {
        lines.clear();
        play_calls(rt, callee, "  ", calls, count, &mut lines);
    }
    out.put(range);
    out.put(":\n");
    out.part(&lines);
    Ok(())
}
