//! Priorities of tasks that wait: `reserve CALLS`, `add_root TASK PRIORITY`, `add_free TASK PRIORITY`, `add_child TASK
//! PARENT PRIORITY`, `wait TASK TASK`, `priority TASK`.

use std::alloc::Global;
use swift_escalation::{Waits, WaitsFault};
use swift_types::Priority;
use test_support::{CaseFault, Part, Said, Words};

/// Priorities of tasks that wait, and what answers calls on them.
#[derive(Drop)]
pub struct WaitsPart {
    waits: Waits,
}

impl WaitsPart {
    /// No task yet.
    pub fn new(alloc: Global) -> WaitsPart {
        WaitsPart {
            waits: Waits::new(alloc),
        }
    }
}

fn shown(found: Option<Priority>) -> &'static str {
    match found {
        None => "none",
        Some(Priority::Background) => "background",
        Some(Priority::Low) => "low",
        Some(Priority::Medium) => "medium",
        Some(Priority::High) => "high",
    }
}

// What a call answers that gives no value.
fn done(out: &mut Said, answer: Result<(), WaitsFault>) {
    match answer {
        Ok(()) => out.put("ok"),
        Err(fault) => out.value(&fault),
    }
}

// A child, with its parent and its priority.
fn add_child(waits: &mut Waits, words: &mut Words<'_>) -> Result<(), WaitsFault> {
    let (child, parent) = (words.task(), words.task());
    waits.add_child(child, parent, words.priority())
}

impl Part for WaitsPart {
    fn answer(
        &mut self,
        _alloc: Global,
        words: &mut Words<'_>,
        out: &mut Said,
    ) -> Result<(), CaseFault> {
        match words.next() {
            "priority" => out.put(shown(self.waits.priority(words.task()))),
            "reserve" => done(out, self.waits.reserve(words.size())),
            "add_root" => done(out, self.waits.add_root(words.task(), words.priority())),
            "add_free" => done(out, self.waits.add_free(words.task(), words.priority())),
            "add_child" => done(out, add_child(&mut self.waits, words)),
            "wait" => done(out, self.waits.wait(words.task(), words.task())),
            _ => words.refuse(),
        }
        Ok(())
    }
}
