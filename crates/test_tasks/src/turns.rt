//! A case of calls on a task, turn by turn.

// What tasks and turns begin with, by words.
mod begin;
// Whole turns.
mod play;
// A task, and the calls on it.
mod task;
// What turns leave, as text.
mod tell;

use crate::scripts::script_of;
use crate::turns::task::{Task, call, start};
use std::alloc::{AllocGlobal, Global};
use std::random::RandomSource;
use std::sync::Arc;
use swift_script::Script;
use test_support::{CaseFault, Form, Part, Said, Words, play};

// A script, and the task that was started last.
#[derive(Drop)]
struct TurnCases<'a, R> {
    rt: &'a R,
    script: Arc<Script>,
    task: Option<Task>,
}

impl<R: RandomSource + AllocGlobal> Part for TurnCases<'_, R> {
    fn answer(
        &mut self,
        alloc: Global,
        words: &mut Words<'_>,
        out: &mut Said,
    ) -> Result<(), CaseFault> {
        let name = words.next();
        if name == "start" {
            self.task = start(alloc, &self.script, words, out)?;
            return Ok(());
        }
        match &mut self.task {
            Some(task) => call(self.rt, &self.script, task, name, words.all(), out),
            None => {
                words.all();
                out.put("not possible");
                Ok(())
            }
        }
    }
}

/// Reads the script of a case, and makes its calls.
pub fn play_turns<R: RandomSource + AllocGlobal>(
    rt: &R,
    case: &str,
    out: &mut Said,
) -> Result<(), CaseFault> {
    let Some((text, calls)) = case.split_once("\n--\n") else {
        return Err(CaseFault::Form);
    };
    let alloc = rt.alloc();
    let script = script_of(alloc, text)?;
    let mut turns = TurnCases {
        rt,
        script,
        task: None,
    };
    play(alloc, &mut turns, Form::Plain, calls, out)
}
