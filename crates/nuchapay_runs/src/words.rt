//! The words of a text.

use std::alloc::{AllocError, Global};

// Where a word stands.
#[derive(Clone, Copy)]
struct WordSpan {
    start: usize,
    end: usize,
}

/// A text, and its words: what stands between spaces and line feeds.
pub struct Words<'a> {
    text: &'a [u8],
    spans: Vec<WordSpan>,
}

impl Drop for Words<'_> {
    fn drop(self) {
        let Words { text: _, spans } = self;
        drop(spans);
    }
}

// A part of a text; empty where there is no such part.
fn part(text: &[u8], start: usize, end: usize) -> &[u8] {
    if start <= end && end <= text.len() {
        &text[start..end]
    } else {
        &[]
    }
}

fn is_space(byte: u8) -> bool {
    byte == b' ' || byte == b'\n'
}

impl<'a> Words<'a> {
    /// Those of this text, in time and memory linear in it.
    pub fn new(alloc: Global, text: &'a [u8]) -> Result<Self, AllocError> {
        let mut spans = Vec::new(alloc);
        let mut start = 0;
        for (place, byte) in text.iter().enumerate() {
            if is_space(*byte) {
                if start < place {
                    spans.push(WordSpan { start, end: place })?;
                }
                start = place + 1;
            }
        }
        if start < text.len() {
            spans.push(WordSpan {
                start,
                end: text.len(),
            })?;
        }
        Ok(Words { text, spans })
    }

    /// The word at a place; empty past the last.
    pub fn word(&self, place: usize) -> &'a [u8] {
        match self.spans.get(place) {
            Some(span) => part(self.text, span.start, span.end),
            None => &[],
        }
    }

    /// The text from one word to another, both with it; empty where there is none.
    pub fn from_to(&self, first: usize, last: usize) -> &'a [u8] {
        match (self.spans.get(first), self.spans.get(last)) {
            (Some(first), Some(last)) => part(self.text, first.start, last.end),
            _ => &[],
        }
    }

    /// The place of the first such word from a place on; past the last where there is none.
    pub fn find(&self, word: &[u8], from: usize) -> usize {
        for place in from..self.spans.len() {
            if self.word(place) == word {
                return place;
            }
        }
        self.spans.len()
    }

    /// How many words there are.
    pub fn len(&self) -> usize {
        self.spans.len()
    }
}
