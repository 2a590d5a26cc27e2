//! Calls on the crates that stand on no script: task locals, waits, groups, formulas and status words.
//!
//! A case (test_support says what one is) has a line for each call, and its kind is that of its part: `locals`, `waits`, `groups`,
//! `formulas` or `status_words`. Each case has a part of its own. What calls a part has stands at the head of its file. What has to be
//! written for the cases of the file stdin stands in the file stdout.
#![tactic(auto)]

// Values of formulas.
mod formulas;
// Task groups.
mod groups;
// Bindings of task locals.
mod locals;
// Priorities of tasks that wait.
mod waits;
// Status words, and two threads.
mod word;

use crate::formulas::FormulasPart;
use crate::groups::GroupsPart;
use crate::locals::LocalsPart;
use crate::waits::WaitsPart;
use crate::word::play_words;
use std::alloc::{AllocGlobal, Global};
use std::io;
use std::io::Write;
use std::sync::Wait;
use std::thread::Threads;
use test_support::{Case, CaseFault, Form, Said, play, texts_of};

fn main(rt: HostRuntime) -> Result<(), CaseFault> {
    make_cases(&rt, &rt)
}

// Writes what is said of each case. The runtime comes twice, since it waits in `main` alone.
fn make_cases<W>(rt: &HostRuntime, wait: &W) -> Result<(), CaseFault>
where
    W: AllocGlobal + Threads + Wait + Sync,
{
    let input = io::read_to_string(rt.alloc(), rt.stdin())?;
    let mut texts = texts_of(&input).split("\n== ");
    let _comment = texts.next();
    for text in texts {
        let out = written(wait, text)?;
        rt.stdout().write_all(out.as_bytes())?;
    }
    Ok(())
}

// What is written for the case of a text, which is made again where it was refused memory.
fn written<R>(rt: &R, text: &str) -> Result<String, CaseFault>
where
    R: AllocGlobal + Threads + Wait + Sync,
{
    let Some(case) = Case::of(text) else {
        return Err(CaseFault::Form);
    };
    let mut said = Said::new(rt.alloc());
    match answer(rt, &case, &mut said) {
        Ok(()) if !said.is_cut() => return case.written(rt.alloc(), &said),
        Ok(()) | Err(CaseFault::Memory) => {}
        Err(fault) => return Err(fault),
    }
    let mut again = Said::new(rt.alloc());
    answer(rt, &case, &mut again)?;
    case.written_again(rt.alloc(), &mut again, &said)
}

// Writes what is said of a case.
fn answer<R>(rt: &R, case: &Case<'_>, out: &mut Said) -> Result<(), CaseFault>
where
    R: AllocGlobal + Threads + Wait + Sync,
{
    let (alloc, text) = (rt.alloc(), case.text);
    match case.kind {
        "status_words" => play_words(rt, alloc, text, out),
        _ => answer_alone(alloc, case.kind, text, out),
    }
}

// What the calls of a part answer that needs memory alone.
fn answer_alone(alloc: Global, part: &str, calls: &str, out: &mut Said) -> Result<(), CaseFault> {
    match part {
        "locals" => play(alloc, &mut LocalsPart::new(alloc), Form::Plain, calls, out),
        "waits" => play(alloc, &mut WaitsPart::new(alloc), Form::Plain, calls, out),
        "groups" => play(alloc, &mut GroupsPart::new(alloc), Form::Plain, calls, out),
        "formulas" => play(alloc, &mut FormulasPart, Form::Plain, calls, out),
        _ => Err(CaseFault::Form),
    }
}
