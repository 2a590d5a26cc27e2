//! Runs of scripts whose gate looks on, and reports that are changed.
//!
//! The kinds of cases (test_support says what one is), each with a script, are:
//!
//! - `crew`: what is said of a run on no worker and on nine.
//! - `moments`: how often a gate is told of each kind of moment, and of a turn of task 1 on executor 0.
//! - `turns`: the report of a run on four workers without the lines of its turns, of which the order depends on the schedule, and whether
//!   it is legal.
//! - `gated`: of how many of two hundred such runs the report is the same, and legal. In each of them a thread gives way at one moment,
//!   each time a later one.
//! - `legal`: whether the report of a run on two workers is legal.
//! - `meet`: of two executors that are run by two workers, how many wait, once they are begun, until the other is begun too.
//! - `faults`, without a script: what is said of each fault of a run.
//! - `changed`: whether the report of a run on one worker is legal once it is changed as the title says. After a line `--` stands
//!   another script, against which the report is held. The changes are
//!
//!   ```text
//!   nothing
//!   field N          the first field is N
//!   records          the first executor's journal has no turns
//!   end N            each task has ended with the value N, by the log
//!   ending N         the first task has, by the endings
//!   origin           the first task is a detached one, by the endings
//!   cancel           the first task is cancelled before its first turn, which has seen it
//!   worker           each turn of the first executor ran on worker 7
//!   checkpoint N     the one field of the first checkpoint is N
//!   folded           the last turn of the first checkpoint is left out
//!   frame            the last turn of the first checkpoint leaves no frame
//!   made N           its task has made N tasks, in the frame that it leaves and in the later turns of the first journal
//!   ```
#![tactic(auto)]

// Changes of reports.
mod change;
// Runs whose threads give way.
mod gated;
// Changes of journals and of checkpoints.
mod journals;
// Two executors that wait for each other.
mod meeting;
// What a gate is told of a run.
mod moments;
// Runs, and what is said of them.
mod workers;

use std::alloc::AllocGlobal;
use std::io;
use std::io::Write;
use std::random::RandomSource;
use std::sync::Wait;
use std::thread::Threads;
use test_support::{Case, CaseFault, Said, texts_of};

fn main(rt: HostRuntime) -> Result<(), CaseFault> {
    make_cases(&rt, &rt)
}

// Writes what is said of each case. The runtime comes twice, since it waits in `main` alone.
fn make_cases<W>(rt: &HostRuntime, wait: &W) -> Result<(), CaseFault>
where
    W: RandomSource + AllocGlobal + Threads + Wait + Sync,
{
    let input = io::read_to_string(rt.alloc(), rt.stdin())?;
    let mut texts = texts_of(&input).split("\n== ");
    let _comment = texts.next();
    for text in texts {
        let out = written(wait, text)?;
        rt.stdout().write_all(out.as_bytes())?;
    }
    Ok(())
}

// What is written for the case of a text, which is made again where it was refused memory.
fn written<R>(rt: &R, text: &str) -> Result<String, CaseFault>
where
    R: RandomSource + AllocGlobal + Threads + Wait + Sync,
{
    let Some(case) = Case::of(text) else {
        return Err(CaseFault::Form);
    };
    let mut said = Said::new(rt.alloc());
    match answer(rt, &case, &mut said) {
        Ok(()) if !said.is_cut() => return case.written(rt.alloc(), &said),
        Ok(()) | Err(CaseFault::Memory) => {}
        Err(fault) => return Err(fault),
    }
    let mut again = Said::new(rt.alloc());
    answer(rt, &case, &mut again)?;
    case.written_again(rt.alloc(), &mut again, &said)
}

// Writes what is said of a case.
fn answer<R>(rt: &R, case: &Case<'_>, out: &mut Said) -> Result<(), CaseFault>
where
    R: RandomSource + AllocGlobal + Threads + Wait + Sync,
{
    workers::answer(rt, case.kind, case.title, case.text, out)
}
