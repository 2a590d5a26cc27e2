//! Texts that are being written.

use std::alloc::{AllocError, Global};
use std::fmt::{Debug, Display, Write};

/// A text that is being written. Where memory runs out it notes that, takes no more, and `end` says so: who writes it asks at the end
/// alone.
pub struct Said {
    text: String,
    is_cut: bool,
}

impl Drop for Said {
    fn drop(self) {
        let Said { text, is_cut: _ } = self;
        drop(text);
    }
}

impl Said {
    /// Nothing.
    pub fn new(alloc: Global) -> Said {
        Said {
            text: String::new(alloc),
            is_cut: false,
        }
    }

    /// Nothing, with room for `room` bytes.
    pub fn with_room(alloc: Global, room: usize) -> Result<Said, AllocError> {
        let text = String::with_capacity(alloc, room)?;
        Ok(Said {
            text,
            is_cut: false,
        })
    }

    /// Whether nothing was written.
    pub fn is_empty(&self) -> bool {
        self.text.is_empty()
    }

    /// Whether memory ran out.
    pub fn is_cut(&self) -> bool {
        self.is_cut
    }

    /// What was written so far.
    pub fn so_far(&self) -> &str {
        &self.text
    }

    /// Nothing again.
    pub fn clear(&mut self) {
        self.text.clear();
    }

    // Notes whether there was memory.
    fn note(&mut self, done: Result<(), AllocError>) {
        if done.is_err() {
            self.is_cut = true;
        }
    }

    /// Goes on with these words.
    pub fn put(&mut self, words: &str) {
        if !self.is_cut {
            let done = self.text.push_str(words);
            self.note(done);
        }
    }

    /// Goes on with these bytes, or with a `?` where they are no text.
    pub fn bytes(&mut self, bytes: &[u8]) {
        match str::from_utf8(bytes) {
            Ok(words) => self.put(words),
            Err(_) => self.put("?"),
        }
    }

    /// Goes on with words and a number.
    pub fn number(&mut self, before: &str, number: i64) {
        self.put(before);
        self.value(&number)
    }

    /// Goes on with words and a count.
    pub fn count(&mut self, before: &str, count: u64) {
        self.put(before);
        self.value(&count)
    }

    /// Goes on with what is said of a value.
    pub fn value<T: Display>(&mut self, value: &T) {
        if !self.is_cut {
            let done = write!(self.text, "{value}");
            self.note(done);
        }
    }

    /// Goes on with words and a value as `Debug` has it.
    pub fn debug<T: Debug>(&mut self, before: &str, value: &T) {
        self.put(before);
        if !self.is_cut {
            let done = write!(self.text, "{value:?}");
            self.note(done);
        }
    }

    /// Goes on with words and whether something is so.
    pub fn whether(&mut self, before: &str, is_so: bool) {
        self.put(before);
        self.put(if is_so { "true" } else { "false" })
    }

    /// Goes on with a text that was written apart.
    pub fn part(&mut self, part: &Said) {
        self.put(&part.text);
        if part.is_cut {
            self.is_cut = true;
        }
    }

    /// The text, if there was memory for all of it.
    pub fn end(self) -> Result<String, AllocError> {
        let Said { text, is_cut } = self;
        if is_cut { Err(AllocError) } else { Ok(text) }
    }
}
