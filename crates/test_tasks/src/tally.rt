//! How often each answer was given.

use std::alloc::{AllocError, Global};
use std::fmt::Display;
use swift_script::ScriptFaultKind;
use test_support::Said;

// An answer, which is none where the text was accepted, and how often it was given.
#[derive(Drop)]
struct Count {
    answer: Option<ScriptFaultKind>,
    times: u32,
}

/// How often each answer was given, in order of first answers.
#[derive(Drop)]
pub struct Tally {
    counts: Vec<Count>,
}

impl Tally {
    /// No answer yet.
    pub fn new(alloc: Global) -> Tally {
        Tally {
            counts: Vec::new(alloc),
        }
    }

    /// Counts an answer.
    pub fn add(&mut self, answer: Option<ScriptFaultKind>) -> Result<(), AllocError> {
        if !self.has_counted(answer) {
            self.counts.push(Count { answer, times: 1 })?;
        }
        Ok(())
    }

    // Counts an answer that was given before, and says whether it was.
    fn has_counted(&mut self, answer: Option<ScriptFaultKind>) -> bool {
        for count in self.counts.iter_mut() {
            if count.answer == answer {
                count.times = count.times.saturating_add(1);
                return true;
            }
        }
        false
    }

    /// Writes a line for each answer.
    pub fn write(&self, out: &mut Said) {
        for count in &self.counts {
            out.count("", u64::from(count.times));
            out.put(" ");
            tell_answer(&count.answer, out);
        }
    }
}

/// Writes an answer, which is none where the text was accepted, and ends its line.
pub fn tell_answer<T: Display>(answer: &Option<T>, out: &mut Said) {
    match answer {
        None => out.put("accepted"),
        Some(fault) => out.value(fault),
    }
    out.put("\n")
}
