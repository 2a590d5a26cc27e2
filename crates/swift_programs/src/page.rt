//! Lines of a Swift program, with their indentation.

ghost use Rattle.swift_programs.specs.LinesInside.{GoesOn};

use crate::prelude::{DIFFERENCES, Difference};
use std::alloc::{AllocError, Global};

/// Lines that are being written. Where memory runs out they end there, and `into_text` says so: who writes them asks at the end alone.
pub(crate) struct SwiftPage {
    text: Vec<u8>,
    depth: usize,
    // What Swift does otherwise on the line that is being written.
    notes: Vec<Difference>,
    is_cut: bool,
}

impl Drop for SwiftPage {
    fn drop(self) {
        let SwiftPage {
            text,
            depth: _,
            notes,
            is_cut: _,
        } = self;
        drop(text);
        drop(notes);
    }
}

impl SwiftPage {
    /// No lines, to be indented by `depth` levels.
    pub(crate) fn new(alloc: Global, depth: usize) -> SwiftPage {
        SwiftPage {
            text: Vec::new(alloc),
            depth,
            notes: Vec::new(alloc),
            is_cut: false,
        }
    }

    /// The lines, if there was memory for all of them.
    pub(crate) fn into_text(self) -> Result<Vec<u8>, AllocError> {
        let SwiftPage {
            text,
            depth: _,
            notes,
            is_cut,
        } = self;
        drop(notes);
        if is_cut { Err(AllocError) } else { Ok(text) }
    }

    /// What was done beside these lines: where it ran out of memory, they end here.
    pub(crate) fn need(&mut self, done: Result<(), AllocError>) {
        if done.is_err() {
            self.is_cut = true;
        }
    }

    /// Begins a line: four spaces for each level.
    pub(crate) fn begin(&mut self) {
        for _ in 0..self.depth {
            self.say("    ");
        }
    }

    /// Goes on with a line.
    pub(crate) fn say(&mut self, words: &str) {
        self.say_bytes(words.as_bytes())
    }

    /// Goes on with a line, by the bytes of a name.
    pub(crate) fn say_bytes(&mut self, bytes: &[u8])
        ensures { GoesOn self.old self.new bytes.now }
    {
        if !self.is_cut && self.text.extend_from_slice(bytes).is_err() {
            self.is_cut = true;
        }
    }

    /// Goes on with a line, by a number.
    pub(crate) fn say_number(&mut self, number: i64) {
        if !self.is_cut {
            match number.to_string(*self.text.allocator()) {
                Ok(digits) => self.say(&digits),
                Err(_) => self.is_cut = true,
            }
        }
    }

    /// Goes on with a line, by a count.
    pub(crate) fn say_count(&mut self, count: usize) {
        if !self.is_cut {
            match count.to_string(*self.text.allocator()) {
                Ok(digits) => self.say(&digits),
                Err(_) => self.is_cut = true,
            }
        }
    }

    /// Notes that Swift does otherwise on this line. Its end says so.
    pub(crate) fn see(&mut self, difference: Difference) {
        if !self.is_cut && self.notes.push(difference).is_err() {
            self.is_cut = true;
        }
    }

    // Whether this was noted on this line.
    fn is_noted(&self, number: usize) -> bool {
        for note in &self.notes {
            if note.number() == number {
                return true;
            }
        }
        false
    }

    // The numbers of what was noted on this line, in order.
    fn say_notes(&mut self) {
        let mut before = " // see ";
        for number in 1..=DIFFERENCES {
            if self.is_noted(number) {
                self.say(before);
                self.say_count(number);
                before = ", ";
            }
        }
        self.notes.clear();
    }

    /// Ends a line.
    pub(crate) fn end(&mut self, words: &str) {
        self.say(words);
        if !self.notes.is_empty() {
            self.say_notes();
        }
        self.say("\n")
    }

    /// A whole line.
    pub(crate) fn line(&mut self, words: &str) {
        self.begin();
        self.end(words)
    }

    /// Ends a line that opens a block.
    pub(crate) fn open(&mut self, words: &str) {
        self.end(words);
        self.depth = self.depth.saturating_add(1);
    }

    /// A line that closes a block.
    pub(crate) fn close(&mut self, words: &str) {
        self.depth = self.depth.saturating_sub(1);
        self.line(words)
    }

    /// A line that closes a block and opens another one.
    pub(crate) fn close_open(&mut self, words: &str) {
        self.close(words);
        self.depth = self.depth.saturating_add(1);
    }
}
