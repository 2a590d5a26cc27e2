//! What tasks and turns begin with, by words.

use std::alloc::{AllocError, Global};
use swift_interpreter::Frame;
use swift_locals::Bindings;
use swift_types::{Env, LocalId, Resume};
use test_support::Words;

/// What a turn begins with.
#[derive(Drop)]
pub struct TurnStart {
    pub fields: Vec<Vec<i64>>,
    pub resume: Resume,
    pub env: Env,
}

/// What a task begins with.
#[derive(Drop)]
pub struct Opening {
    pub args: Vec<i64>,
    pub bindings: Bindings,
}

/// A turn.
pub fn turn_of(alloc: Global, words: &mut Words<'_>) -> Result<TurnStart, AllocError> {
    Ok(TurnStart {
        fields: rows(alloc, words)?,
        resume: words.resume(),
        env: env(words),
    })
}

fn env(words: &mut Words<'_>) -> Env {
    Env {
        priority: words.priority(),
        cancelled: words.next() == "1",
        room: words.number(),
    }
}

// Rows of fields, each after the first with a `/` in front, up to a word that begins a resume. A row without fields is `-`.
fn rows(alloc: Global, words: &mut Words<'_>) -> Result<Vec<Vec<i64>>, AllocError> {
    let mut found = Vec::new(alloc);
    for word in words.rest().split(' ') {
        match word {
            "start" | "go" | "value" | "fault" => return Ok(found),
            "/" => {}
            "-" => found.push(Vec::new(alloc))?,
            _ => found.push(words.values_of(alloc, word)?)?,
        }
        words.next();
    }
    Ok(found)
}

/// Arguments, one a word, and bindings of locals, each LOCAL=VALUE, the outermost first, with a `with` between them.
pub fn opening_of(alloc: Global, words: &mut Words<'_>) -> Result<Opening, AllocError> {
    let mut args = Vec::new(alloc);
    let mut bindings = Bindings::new(alloc);
    for word in words.all().split_terminator(' ') {
        if word == "with" {
            continue;
        }
        match word.split_once('=') {
            Some((local, bound)) => {
                let local = LocalId(words.number_of(local));
                bindings.bind(local, words.value_of(bound))?;
            }
            None => args.push(words.value_of(word))?,
        }
    }
    Ok(Opening { args, bindings })
}

/// Changes a frame: `made=NUMBER` and `opened=NUMBER` are the counts of its task, `line=NUMBER` is where it is, and a number
/// alone is a group that it has open too.
pub fn change(frame: &mut Frame, words: &mut Words<'_>) -> Result<(), AllocError> {
    for word in words.all().split_terminator(' ') {
        match word.split_once('=') {
            Some((part, count)) => set(frame, words, part, count),
            None => frame.groups.push(words.number_of(word))?,
        }
    }
    Ok(())
}

fn set(frame: &mut Frame, words: &mut Words<'_>, part: &str, count: &str) {
    match part {
        "made" => frame.made = words.count_of(count),
        "opened" => frame.opened = words.count_of(count),
        "line" => frame.instruction = words.number_of(count),
        _ => words.refuse(),
    }
}
