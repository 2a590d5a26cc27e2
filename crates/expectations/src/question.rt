//! All that is asked of a script.

ghost use Rattle.std.specs.Prelude.{◌≡◌, ◌++◌, ◌∷◌, [], ℕ, List, IfOk, OnOk, map};
ghost use Rattle.expectations.specs.Questions.{AreExpected, IsAsked, IsExpected};

use crate::comments::{Commented, in_comments};
use crate::expectation::Expectation;
use crate::fault::{ExpectationError, Misread};
use crate::reading::read_test;
use std::alloc::Global;
use swift_script::Script;

// The same fault, of the expectation of this number, in this line, where so many bytes come before its text.
fn placed(error: ExpectationError, number: usize, line: usize, before: usize) -> ExpectationError {
    match error {
        ExpectationError::Misread(fault) => ExpectationError::Misread(Misread {
            number,
            line,
            byte: fault.byte.saturating_add(before),
            kind: fault.kind,
        }),
        ExpectationError::Memory => ExpectationError::Memory,
    }
}

// The expectation of a text, after those before it.
fn add(
    alloc: Global,
    script: &Script,
    text: &[u8],
    line: usize,
    before: usize,
    asked: &mut Vec<Expectation>,
) -> Result<(), ExpectationError>
    ensures { OnOk result ((e : Expectation) × IsExpected script.now text.now e × (asked.new.items ≡ asked.old.items ++ e ∷ [])) }
{
    match read_test(alloc, script, text) {
        Ok(test) => {
            asked.push(test)?;
            Ok(())
        }
        Err(error) => Err(placed(error, asked.len().saturating_add(1), line, before)),
    }
}

// The expectations of the command line.
fn of_words(
    alloc: Global,
    script: &Script,
    words: &[&str],
) -> Result<Vec<Expectation>, ExpectationError>
    ensures { IfOk result (λ v. AreExpected script.now (map (λ w. w.now) words.now) v.items) }
{
    let mut asked = Vec::new(alloc);
    for word in words {
        add(alloc, script, word.as_bytes(), 0, 0, &mut asked)?;
    }
    Ok(asked)
}

// The expectations of a script's comments, after those before them.
fn add_comments(
    alloc: Global,
    script: &Script,
    comments: &[Commented<'_>],
    asked: &mut Vec<Expectation>,
) -> Result<(), ExpectationError>
    ensures { (texts : List (List ℕ)) → AreExpected script.now texts asked.old.items → OnOk result (AreExpected script.now (texts ++ map (λ c. c.text.now) comments.now) asked.new.items) }
{
    for comment in comments {
        add(
            alloc,
            script,
            comment.text,
            comment.line,
            comment.before,
            asked,
        )?;
    }
    Ok(())
}

/// What is asked of a script (our own): the expectations of `words`, then those of the comments of its text, and last that no root ends
/// with a fault, where `without_fault` says so. Linear in the texts, times the names of the script.
///
/// # Errors
///
/// `Misread` for the first text that is no expectation of the script; `Memory` where no memory was left.
pub fn ask(
    alloc: Global,
    script: &Script,
    bytes: &[u8],
    words: &[&str],
    without_fault: bool,
) -> Result<Vec<Expectation>, ExpectationError>
    ensures { IfOk result (λ asked. IsAsked script.now bytes.now (map (λ w. w.now) words.now) without_fault asked.items) }
{
    let comments = in_comments(alloc, bytes)?;
    let mut asked = of_words(alloc, script, words)?;
    add_comments(alloc, script, &comments, &mut asked)?;
    if without_fault {
        asked.push(Expectation::NoFault)?;
    }
    Ok(asked)
}
