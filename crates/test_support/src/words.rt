//! The words of a call.

use std::alloc::{AllocError, Global};
use swift_types::{Fault, Priority, Resume, TaskId};

/// The words of a call, with a space between them, which are read one after another. Where one is missing, or is not of the kind that
/// is asked for, that is noted, and something of that kind is handed out: who has a call made asks at its end alone.
#[derive(Drop)]
pub struct Words<'a> {
    rest: &'a str,
    is_wrong: bool,
}

impl<'a> Words<'a> {
    /// The words of this text.
    pub fn new(text: &'a str) -> Words<'a> {
        Words {
            rest: text,
            is_wrong: false,
        }
    }

    /// Whether all words were of the kind that was asked for, and none is left.
    pub fn are_right(&self) -> bool {
        !self.is_wrong && self.rest.is_empty()
    }

    /// Whether no word is left.
    pub fn is_empty(&self) -> bool {
        self.rest.is_empty()
    }

    /// Notes that a word is none that may stand there.
    pub fn refuse(&mut self) {
        self.is_wrong = true;
    }

    /// The next word.
    pub fn next(&mut self) -> &'a str {
        let (word, rest) = self.rest.split_once(' ').unwrap_or((self.rest, ""));
        self.rest = rest;
        word
    }

    /// Whether the next word is this one, which is taken then.
    pub fn has(&mut self, word: &str) -> bool {
        let (next, rest) = self.rest.split_once(' ').unwrap_or((self.rest, ""));
        if next != word {
            return false;
        }
        self.rest = rest;
        true
    }

    /// The words that are left, which stay.
    pub fn rest(&self) -> &'a str {
        self.rest
    }

    /// The words that are left.
    pub fn all(&mut self) -> &'a str {
        let rest = self.rest;
        self.rest = "";
        rest
    }

    /// The number of a thing that this word is.
    pub fn number_of(&mut self, word: &str) -> u32 {
        match word.parse::<u32>() {
            Ok(number) => number,
            Err(_) => {
                self.is_wrong = true;
                0
            }
        }
    }

    /// The count that this word is.
    pub fn count_of(&mut self, word: &str) -> u64 {
        match word.parse::<u64>() {
            Ok(count) => count,
            Err(_) => {
                self.is_wrong = true;
                0
            }
        }
    }

    /// The value that this word is.
    pub fn value_of(&mut self, word: &str) -> i64 {
        match word.parse::<i64>() {
            Ok(value) => value,
            Err(_) => {
                self.is_wrong = true;
                0
            }
        }
    }

    /// The values that this word is, with commas between them.
    pub fn values_of(&mut self, alloc: Global, word: &str) -> Result<Vec<i64>, AllocError> {
        let mut found = Vec::new(alloc);
        if word.is_empty() {
            return Ok(found);
        }
        for word in word.split(',') {
            found.push(self.value_of(word))?;
        }
        Ok(found)
    }

    /// A number of a thing.
    pub fn number(&mut self) -> u32 {
        let word = self.next();
        self.number_of(word)
    }

    /// How many, or how deep.
    pub fn size(&mut self) -> usize {
        self.count() as usize
    }

    /// How many.
    pub fn count(&mut self) -> u64 {
        let word = self.next();
        self.count_of(word)
    }

    /// A value.
    pub fn value(&mut self) -> i64 {
        let word = self.next();
        self.value_of(word)
    }

    /// A task, by its number.
    pub fn task(&mut self) -> TaskId {
        TaskId(self.number())
    }

    /// A priority, by its name.
    pub fn priority(&mut self) -> Priority {
        match self.next() {
            "background" => Priority::Background,
            "low" => Priority::Low,
            "medium" => Priority::Medium,
            "high" => Priority::High,
            _ => {
                self.is_wrong = true;
                Priority::Medium
            }
        }
    }

    /// A fault.
    pub fn fault(&mut self) -> Fault {
        match self.next() {
            "thrown" => Fault::Thrown(self.value()),
            "cancelled" => Fault::Cancelled,
            "invariant" => Fault::Invariant,
            "overflow" => Fault::Overflow,
            "steps" => Fault::Steps,
            "turns" => Fault::Turns,
            "depth" => Fault::Depth,
            "tasks" => Fault::Tasks,
            "empty" => Fault::Empty,
            "isolation" => Fault::Isolation,
            _ => {
                self.is_wrong = true;
                Fault::Cancelled
            }
        }
    }

    /// What a turn begins with.
    pub fn resume(&mut self) -> Resume {
        match self.next() {
            "start" => Resume::Start,
            "go" => Resume::Go,
            "value" => Resume::Value(self.value()),
            "fault" => Resume::Fault(self.fault()),
            _ => {
                self.is_wrong = true;
                Resume::Start
            }
        }
    }
}
