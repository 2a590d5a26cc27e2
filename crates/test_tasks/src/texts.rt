//! One text, changed at each of its places.

ghost use Rattle.std.specs.Prelude.{◌≡◌, IfOk, slice_set};

use crate::tally::{Tally, tell_answer};
use std::alloc::{AllocError, Global};
use swift_script::{Script, ScriptFault, ScriptFaultKind, print_script, read};
use swift_types::limits::BYTES;
use test_support::{CaseFault, Said};

// A line for a stretch of places with one answer.
fn stretch(out: &mut Said, from: usize, to: usize, answer: &Option<ScriptFault>) {
    out.count("", from as u64);
    if from != to {
        out.count(" to ", to as u64);
    }
    out.put(" ");
    tell_answer(answer, out)
}

// The answers by place, a line for each stretch.
fn stretches(out: &mut Said, answers: &[Option<ScriptFault>]) {
    let mut from = 0;
    for (place, answer) in answers.iter().enumerate() {
        let next = place + 1;
        if answers.get(next) != Some(answer) {
            stretch(out, from, place, answer);
            from = next;
        }
    }
}

// Whether a printed form is read as this script, and printed the same.
fn is_read_again(alloc: Global, script: &Script, printed: &str) -> Result<bool, CaseFault> {
    match read(alloc, printed.as_bytes()) {
        Ok(again) => {
            let second = print_script(alloc, &again)?;
            Ok(script.says_the_same(&again) && second.as_str() == printed)
        }
        Err(_) => Ok(false),
    }
}

// A line more where the printed form of a script is not read again.
fn check(alloc: Global, script: &Script, out: &mut Said) -> Result<(), CaseFault> {
    let printed = print_script(alloc, script)?;
    if printed.len() <= BYTES && !is_read_again(alloc, script, &printed)? {
        out.put("wrong: this is not read again: ");
        out.put(&printed);
        out.put("\n");
    }
    Ok(())
}

// Why a text is refused, if it is: the cause and the line, without the bytes that differ at each place. A line more where it is accepted
// and its printed form is not read again.
fn refusal(alloc: Global, text: &[u8], out: &mut Said) -> Result<Option<ScriptFault>, CaseFault> {
    match read(alloc, text) {
        Ok(script) => {
            check(alloc, &script, out)?;
            Ok(None)
        }
        Err(fault) if fault.kind == ScriptFaultKind::Memory => Err(CaseFault::Memory),
        Err(fault) => Ok(Some(ScriptFault {
            span: None,
            ..fault
        })),
    }
}

// How often each answer is given.
fn counted(
    alloc: Global,
    answers: &[Option<ScriptFault>],
    out: &mut Said,
) -> Result<(), AllocError> {
    let mut tally = Tally::new(alloc);
    for answer in answers {
        tally.add(answer.map(|fault| fault.kind))?;
    }
    tally.write(out);
    Ok(())
}

/// What is said of each prefix, by its length.
pub fn prefixes(alloc: Global, text: &[u8], out: &mut Said) -> Result<(), CaseFault> {
    let mut answers = Vec::new(alloc);
    for length in 0..=text.len() {
        answers.push(refusal(alloc, &text[..length], out)?)?;
    }
    stretches(out, &answers);
    Ok(counted(alloc, &answers, out)?)
}

// The text with a byte in this place.
fn with_byte(alloc: Global, text: &[u8], place: usize, byte: u8) -> Result<Vec<u8>, AllocError>
    ensures { IfOk result (λ changed. changed.items ≡ slice_set text.now place byte) }
{
    let mut changed = Vec::from_slice(alloc, text)?;
    if place < changed.len() {
        changed[place] = byte;
    }
    Ok(changed)
}

/// What is said of the text with a byte outside text in each place.
pub fn spoiled(alloc: Global, text: &[u8], out: &mut Said) -> Result<(), CaseFault> {
    let mut answers = Vec::new(alloc);
    for place in 0..text.len() {
        let changed = with_byte(alloc, text, place, 0x80)?;
        answers.push(refusal(alloc, &changed, out)?)?;
    }
    stretches(out, &answers);
    Ok(counted(alloc, &answers, out)?)
}

// The answers with each byte of text in this place.
fn replaced_at(
    alloc: Global,
    text: &[u8],
    place: usize,
    answers: &mut Vec<Option<ScriptFault>>,
    out: &mut Said,
) -> Result<(), CaseFault> {
    for byte in 0x20..0x7F {
        let changed = with_byte(alloc, text, place, byte)?;
        answers.push(refusal(alloc, &changed, out)?)?;
    }
    Ok(())
}

/// How often each answer is given, with each byte of text in each place.
pub fn replaced(alloc: Global, text: &[u8], out: &mut Said) -> Result<(), CaseFault> {
    let mut answers = Vec::new(alloc);
    for place in 0..text.len() {
        replaced_at(alloc, text, place, &mut answers, out)?;
    }
    Ok(counted(alloc, &answers, out)?)
}
