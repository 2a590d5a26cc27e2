//! Calls on executors that threads share, on their run queues and on their inboxes.
//!
//! The kinds of cases (test_support says what one is) are:
//!
//! - `executors`: what each of some calls on executors answered. The text, which is taken as it is, has a script, a line `--`, a line
//!   `WORKERS ROOM`, and a line for each call. Each case has the executors of its script, all made for these workers and with this
//!   room, and a book of tasks. It ends by closing them: its last lines say how many jobs each had pending, and which were ready and
//!   in its inbox, and are a report of their turns and fields, without tasks. A case whose last line is `drop` ends by dropping them. In one
//!   whose last line is `refused CALL` they are closed as soon as this call is refused memory; where it is not, the case is made again
//!   without it.
//!   The calls are
//!
//!   ```text
//!   root ROOT              adds a root; its job is kept
//!   enqueue TASK by DESK   sends the oldest job that is kept of that task
//!   run WORKER by DESK     a visit of a worker; the jobs that it makes are kept
//!   ending TASK
//!   allowance DESK         how many jobs may still be sent by it
//!   look DESK              the fields of the executor, how many turns its journal has, and which jobs are ready, or that it is busy
//!   split DESK             a new desk of the same executor
//!   at MOMENT { CALL; .. } CALL
//!                          the last call, with a gate that makes the others at that moment, once
//!   FIRST to LAST: CALL; ..
//!                          the calls for each number, which stands in place of `#`; what the last of them answer is written
//!   ```
//!
//!   Desks are numbered from 0: first the one that each executor is made with, in the order of executors, and then those that were
//!   split. Calls in braces use other desks than the call behind them. MOMENT is the name of a moment of the gate. In answers `t3.1`
//!   is turn 1 of task 3.
//! - `queue`, `inbox` and `inbox_threads`: a line for each call; what calls a part has stands at the head of its file. A line
//!   `FIRST to LAST: CALL`, or `FIRST to LAST by STEP: CALL`, makes a call of a queue for each number, up or down, which stands in place of
//!   `#`, and the number below it in place of `@`; of its answers one that is the same as the one before is not written again.
#![tactic(auto)]

// What calls on executors work with.
mod desks;
// Calls on executors that threads share.
mod executors;
// Inboxes of executors, and two threads.
mod inbox;
// A queue of jobs.
mod queue;

use crate::inbox::{play_inbox, play_threads};
use crate::queue::play_queue;
use std::alloc::AllocGlobal;
use std::io;
use std::io::Write;
use std::random::RandomSource;
use std::sync::Wait;
use std::thread::Threads;
use test_support::{Case, CaseFault, Said, texts_of};

fn main(rt: HostRuntime) -> Result<(), CaseFault> {
    make_cases(&rt, &rt)
}

// Writes what is said of each case. The runtime comes twice, since it waits in `main` alone.
fn make_cases<W>(rt: &HostRuntime, wait: &W) -> Result<(), CaseFault>
where
    W: RandomSource + AllocGlobal + Threads + Wait + Sync,
{
    let input = io::read_to_string(rt.alloc(), rt.stdin())?;
    let mut texts = texts_of(&input).split("\n== ");
    let _comment = texts.next();
    for text in texts {
        let out = written(wait, text)?;
        rt.stdout().write_all(out.as_bytes())?;
    }
    Ok(())
}

// What is written for the case of a text, which is made again where it was refused memory.
fn written<R>(rt: &R, text: &str) -> Result<String, CaseFault>
where
    R: RandomSource + AllocGlobal + Threads + Wait + Sync,
{
    let Some(case) = Case::of(text) else {
        return Err(CaseFault::Form);
    };
    let mut said = Said::new(rt.alloc());
    match answer(rt, &case, &mut said) {
        Ok(()) if !said.is_cut() => return case.written(rt.alloc(), &said),
        Ok(()) | Err(CaseFault::Memory) => {}
        Err(fault) => return Err(fault),
    }
    let mut again = Said::new(rt.alloc());
    answer(rt, &case, &mut again)?;
    case.written_again(rt.alloc(), &mut again, &said)
}

// Writes what is said of a case.
fn answer<R>(rt: &R, case: &Case<'_>, out: &mut Said) -> Result<(), CaseFault>
where
    R: RandomSource + AllocGlobal + Threads + Wait + Sync,
{
    let (alloc, text) = (rt.alloc(), case.text);
    match case.kind {
        "executors" => executors::calls(rt, text, out),
        "queue" => play_queue(alloc, text, out),
        "inbox" => play_inbox(rt, alloc, text, out),
        "inbox_threads" => play_threads(rt, alloc, text, out),
        _ => Err(CaseFault::Form),
    }
}
