//! What is said of a search.

use crate::explore::{ExploreFault, SearchAnswer};
use crate::output::{tell, write_out};
use crate::places::{ScriptFile, methods_text};
use expectations::{Answer, Misread};
use std::fs;
use swift_tool::ToolFault;
use swift_workers::RunFault;

/// Writes what a search says. The status to end with: that of the answer, 2 or 3 for an expectation that is none, of the command line or
/// of a comment, and 5 where no memory was left.
///
/// What is to be kept goes into the file first, which is made, or cut to nothing where it is there; 4 where that fails. Where a script is
/// given, it is told behind all else from which lines of a Swift file its methods are. Nothing is written before there is memory for all.
pub fn say_explored(
    rt: &HostRuntime,
    save: Option<&str>,
    found: Result<SearchAnswer, ExploreFault>,
    file: Option<ScriptFile<'_>>,
) -> u8 {
    match found {
        Ok(said) => {
            let methods = match file {
                Some(file) => methods_text(rt.alloc(), file),
                None => Ok(Vec::new(rt.alloc())),
            };
            match methods {
                Ok(methods) => say_answer(rt, save, said, file, &methods),
                Err(_) => say_no_memory(rt),
            }
        }
        Err(ExploreFault::Run(fault)) => tell(rt, Err(ToolFault::Run(fault))),
        Err(ExploreFault::Script(fault)) => tell(rt, Err(ToolFault::from(fault))),
        Err(ExploreFault::Misread(fault)) => say_misread(rt, fault),
        Err(ExploreFault::Memory) => say_no_memory(rt),
    }
}

// Says that a search decides nothing for want of memory. The status to end with.
fn say_no_memory(rt: &HostRuntime) -> u8 {
    let _ = tell(rt, Err(ToolFault::Run(RunFault::Memory)));
    Answer::Undecided.status()
}

// Writes an answer, the lines of methods behind it. The status to end with.
fn say_answer(
    rt: &HostRuntime,
    save: Option<&str>,
    said: SearchAnswer,
    file: Option<ScriptFile<'_>>,
    methods: &[u8],
) -> u8 {
    let SearchAnswer {
        answer,
        text,
        saved,
    } = said;
    if let (Some(path), Some(json)) = (save, saved) {
        if let Err(error) = fs::write(rt, path, &json) {
            let _ = eprintln!(rt; "nuchapay: {path}: {error}");
            return 4;
        }
    }
    if let Err(fault) = write_out(rt, &text) {
        return tell(rt, Err(fault));
    }
    if let Some(file) = file {
        say_limit(rt, file, answer);
    }
    match write_out(rt, methods) {
        Ok(_) => answer.status(),
        Err(fault) => tell(rt, Err(fault)),
    }
}

// Says which loops of a Swift file a search does not come to the end of, where it did not; nothing of a script.
fn say_limit(rt: &HostRuntime, file: ScriptFile<'_>, answer: Answer) {
    if matches!(answer, Answer::Undecided) && !file.places.is_empty() {
        let words = SPINS;
        let _ = eprintln!(rt; "nuchapay: {words}");
    }
}

// What to write for a loop that waits for another task.
const SPINS: &str =
    "a loop that waits by Task.yield() until another task changes a field has an order for each of its turns, so no limit may be enough: give it an end, as in `while isBusy && tries < 3 { tries += 1; await Task.yield() }`";

// Says what is wrong with an expectation. The status to end with.
fn say_misread(rt: &HostRuntime, fault: Misread) -> u8 {
    let Misread {
        number,
        line,
        byte,
        kind,
    } = fault;
    if line == 0 {
        let _ = eprintln!(rt; "nuchapay: expectation {number} at byte {byte}: {kind}");
        2
    } else {
        let _ = eprintln!(rt;
            "nuchapay: line {line}: expectation {number} at byte {byte} of its line: {kind}"
        );
        3
    }
}
