//! The words of a journal, the last of which may be cut off again.

ghost use Rattle.std.specs.Prelude.{◌≡◌, [], ◌∷◌, ◌++◌, take, length, OnOk};
ghost use Rattle.swift_journal.specs.TailInside.{whole};

use crate::words::append_words;
use std::alloc::{AllocError, Global};
use std::marker::Model;

// Words, and where those begin that are being written. Whoever writes a turn may stop at a growth that is refused: its
// words are then cut off. Contracts see the words from before, and those that were written since.
#[derive(Drop)]
pub struct Tail {
    words: Vec<i64>,
    // Where the words begin that are being written.
    start: usize,
}

impl Model for Tail {
    ghost use Rattle.std.specs.Prelude.{◌≤◌, drop, length, take};
    ghost use Rattle.swift_journal.specs.TailInside.{TailView};

    ghost Value = { TailView };

    ghost view = { λ t. record { before = take t.start t.words.items; written = drop t.start t.words.items } };

    ghost invariant = { λ t. t.start ≤ length t.words.items };
}

impl Tail {
    // No words. It takes no memory.
    pub fn new(alloc: Global) -> Self
        ensures { result ≡ record { before = []; written = [] } }
    {
        Tail {
            words: Vec::new(alloc),
            start: 0,
        }
    }

    // All words that there are count as words from before from now on.
    pub fn begin(&mut self)
        ensures { self.new ≡ record { before = whole self.old; written = [] } }
    {
        self.start = self.words.len();
    }

    // Appends a word.
    pub fn push(&mut self, word: i64) -> Result<(), AllocError>
        ensures before { self.new.before ≡ self.old.before }
        ensures written { OnOk result (self.new.written ≡ self.old.written ++ word ∷ []) }
    {
        self.words.push(word)?;
        Ok(())
    }

    // Appends words.
    pub fn extend(&mut self, words: &[i64]) -> Result<(), AllocError>
        ensures before { self.new.before ≡ self.old.before }
        ensures written { OnOk result (self.new.written ≡ self.old.written ++ words.now) }
    {
        append_words(&mut self.words, words)
    }

    // Cuts off what was written.
    pub fn cut(&mut self)
        ensures { self.new ≡ record { before = self.old.before; written = [] } }
    {
        self.words.truncate(self.start);
    }

    // Keeps the first `count` words, all of which are then words from before.
    pub fn truncate(&mut self, count: usize)
        ensures { self.new ≡ record { before = take count (whole self.old); written = [] } }
    {
        self.words.truncate(count);
        self.start = self.words.len();
    }

    // Where the words begin that are being written.
    pub fn start(&self) -> usize
        ensures { result ≡ length self.now.before }
    {
        self.start
    }

    // How many words were written.
    pub fn size(&self) -> usize
        ensures { result ≡ length self.now.written }
    {
        self.words.len() - self.start
    }

    // All words.
    pub fn all(&self) -> &[i64]
        ensures { result.now ≡ whole self.now }
    {
        &self.words
    }
}
