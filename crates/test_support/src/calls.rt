//! Calls, one after another.

use crate::fault::CaseFault;
use crate::said::Said;
use crate::words::Words;
use std::alloc::{AllocError, Global};

/// A part of the runtime that is called.
pub trait Part {
    /// Makes the call that has these words, and writes its answer.
    fn answer(
        &mut self,
        alloc: Global,
        words: &mut Words<'_>,
        out: &mut Said,
    ) -> Result<(), CaseFault>;
}

/// What is written for a call.
#[derive(Clone, Copy, PartialEq, Eq)]
pub enum Form {
    /// Its answer.
    Plain,
    /// Its line, and then its answer.
    Named,
}

/// Makes the calls of these lines, and writes their answers.
pub fn play<P: Part>(
    alloc: Global,
    part: &mut P,
    form: Form,
    calls: &str,
    out: &mut Said,
) -> Result<(), CaseFault> {
    for line in calls.split('\n') {
        if line.starts_with('#') || line.starts_with("//") {
            continue;
        }
        match line.split_once(": ") {
            None => {
                let answer = called(alloc, part, line)?;
                tell(form, line, &answer, out);
            }
            Some((range, call)) => play_range(alloc, part, form, line, range, call, out)?,
        }
    }
    Ok(())
}

// Writes an answer, of a call or of one of a range.
fn tell(form: Form, line: &str, answer: &Said, out: &mut Said) {
    if form == Form::Named {
        out.put(line);
        out.put(": ");
    }
    out.part(answer);
    out.put("\n")
}

// Makes one call, and makes it again where it is refused memory.
fn called<P: Part>(alloc: Global, part: &mut P, call: &str) -> Result<Said, CaseFault> {
    let mut answer = Said::new(alloc);
    make(alloc, part, call, &mut answer)?;
    if answer.so_far().ends_with("no memory") {
        answer.clear();
        make(alloc, part, call, &mut answer)?;
    }
    Ok(answer)
}

// Makes one call.
fn make<P: Part>(
    alloc: Global,
    part: &mut P,
    call: &str,
    answer: &mut Said,
) -> Result<(), CaseFault> {
    let mut words = Words::new(call);
    part.answer(alloc, &mut words, answer)?;
    if words.are_right() {
        Ok(())
    } else {
        Err(CaseFault::Form)
    }
}

// Makes a call with this number in place of each `#`, and the number below it in place of each `@`.
fn called_with<P: Part>(
    alloc: Global,
    part: &mut P,
    call: &str,
    count: u32,
) -> Result<Said, CaseFault> {
    let call = numbered(alloc, call, '#', count)?;
    let call = numbered(alloc, &call, '@', count.saturating_sub(1))?;
    called(alloc, part, &call)
}

// The call with a number in place of each of these marks.
fn numbered(alloc: Global, call: &str, mark: char, count: u32) -> Result<String, AllocError> {
    let mut made = Said::new(alloc);
    for (place, piece) in call.split(mark).enumerate() {
        if place > 0 {
            made.count("", u64::from(count));
        }
        made.put(piece);
    }
    made.end()
}

// The numbers of a range, `FIRST to LAST` or `FIRST to LAST by STEP`.
fn range_of(range: &str) -> Option<(u32, u32, u32)> {
    let mut words = Words::new(range);
    let first = words.number();
    let to = words.next();
    let last = words.number();
    let step = if words.has("by") { words.number() } else { 1 };
    if to == "to" && words.are_right() {
        Some((first, last, step))
    } else {
        None
    }
}

// The number at this place of a range, which goes up or down.
fn number_at(first: u32, last: u32, place: u32) -> u32 {
    if first <= last {
        first.saturating_add(place)
    } else {
        first.saturating_sub(place)
    }
}

// Makes a call for each number of a range, and writes each answer that is not the one before.
fn play_range<P: Part>(
    alloc: Global,
    part: &mut P,
    form: Form,
    line: &str,
    range: &str,
    call: &str,
    out: &mut Said,
) -> Result<(), CaseFault> {
    let Some((first, last, step)) = range_of(range) else {
        return Err(CaseFault::Form);
    };
    let mut before = Said::new(alloc);
    for place in 0..=first.abs_diff(last) {
        if step > 1 && place % step != 0 {
            continue;
        }
        let answer = called_with(alloc, part, call, number_at(first, last, place))?;
        if answer.so_far() != before.so_far() {
            tell(form, line, &answer, out);
        }
        before = answer;
    }
    Ok(())
}
