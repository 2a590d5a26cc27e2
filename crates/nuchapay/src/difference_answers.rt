//! What is said of two outcomes.

use crate::differences::{Compared, pair_compared, runs_compared};
use crate::output::{tell, write_out};
use crate::schedule_answers::{file_of, run_of_file, say_no_run};
use crate::scheduled::NoRun;
use nuchapay_tool::{OutcomePair, ScheduleChoice};
use std::alloc::AllocError;
use swift_tool::ToolFault;

// Writes in what two outcomes differ. The status to end with.
fn say_text(rt: &HostRuntime, said: Result<Vec<u8>, AllocError>) -> u8 {
    match said {
        Ok(text) => tell(rt, write_out(rt, &text)),
        Err(fault) => tell(rt, Err(ToolFault::from(fault))),
    }
}

/// Says in what two outcomes of a search differ. The status to end with: 2 where one of them is missing.
pub fn say_difference(rt: &HostRuntime, text: &[u8], limit: u32, pair: OutcomePair) -> u8 {
    match pair_compared(rt, text, limit, pair) {
        Ok(Compared::Text(said)) => say_text(rt, Ok(said)),
        Ok(Compared::NoOutcome(outcome, many)) => say_no_run(
            rt,
            ScheduleChoice::Outcome { limit, outcome },
            NoRun::NoOutcome(many),
        ),
        Err(fault) => tell(rt, Err(fault)),
    }
}

/// Says in what two outcomes of a file differ. The status to end with, as that of a run by a schedule of a file.
pub fn say_saved_difference(
    rt: &HostRuntime,
    path: &str,
    text: &[u8],
    name: &str,
    pair: OutcomePair,
) -> u8 {
    let file = match file_of(rt, name) {
        Ok(file) => file,
        Err(status) => return status,
    };
    let first = match run_of_file(rt, path, text, name, &file, pair.first) {
        Ok(run) => run,
        Err(status) => return status,
    };
    match run_of_file(rt, path, text, name, &file, pair.second) {
        Ok(second) => say_text(rt, runs_compared(rt.alloc(), pair, first, second)),
        Err(status) => status,
    }
}
