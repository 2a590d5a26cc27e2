//! Lines of a file.

use std::alloc::{AllocError, Global};
use swift_syntax::Token;

/// Where something stands.
#[derive(Clone, Copy)]
pub struct Spot {
    /// The number of its line, from 1.
    pub line: usize,
    /// How many of its kind stand before it on that line.
    pub before: usize,
}

/// The lines on which tokens begin, and how many closures and printed values were met on each.
#[derive(Drop)]
pub struct Lines {
    // The number of each token's line.
    numbers: Vec<usize>,
    closures: Vec<usize>,
    printed: Vec<usize>,
}

// How many lines end in these bytes.
fn feeds(bytes: &[u8]) -> usize {
    bytes.iter().filter(|b| **b == b'\n').count()
}

// The number of the line of each token, and of the last one.
fn numbers_of(
    alloc: Global,
    text: &[u8],
    tokens: &[Token],
) -> Result<(Vec<usize>, usize), AllocError> {
    let mut numbers = Vec::with_capacity(alloc, tokens.len())?;
    let mut line: usize = 1;
    let mut at: usize = 0;
    for token in tokens {
        if let Some(between) = text.get(at..token.from) {
            line = line.saturating_add(feeds(between));
            at = token.from;
        }
        numbers.push(line)?;
    }
    Ok((numbers, line))
}

// One more on a line. How many there were before.
fn count_on(counts: &mut Vec<usize>, line: usize) -> usize {
    match counts.get_mut(line) {
        Some(count) => {
            let before = *count;
            *count = before.saturating_add(1);
            before
        }
        None => 0,
    }
}

impl Lines {
    /// No lines.
    pub fn new(alloc: Global) -> Lines {
        Lines {
            numbers: Vec::new(alloc),
            closures: Vec::new(alloc),
            printed: Vec::new(alloc),
        }
    }

    /// The lines of the tokens of a text, in its order. Linear in the text.
    ///
    /// # Errors
    ///
    /// `AllocError` where there is no memory for them.
    pub fn of(alloc: Global, text: &[u8], tokens: &[Token]) -> Result<Lines, AllocError> {
        let (numbers, last) = numbers_of(alloc, text, tokens)?;
        let many = last.saturating_add(1);
        let closures = vec![in alloc; 0_usize; many]?;
        let printed = vec![in alloc; 0_usize; many]?;
        Ok(Lines {
            numbers,
            closures,
            printed,
        })
    }

    /// The number of the line on which a token begins, from 1; 0 where there is no such token.
    pub fn line(&self, token: usize) -> usize {
        self.numbers.get(token).copied().unwrap_or(0)
    }

    /// Where a closure stands that begins at a token.
    pub fn closure(&mut self, token: usize) -> Spot {
        let line = self.line(token);
        let before = count_on(&mut self.closures, line);
        Spot { line, before }
    }

    /// Where a value stands that is printed by the `print` at a token.
    pub fn printed(&mut self, token: usize) -> Spot {
        let line = self.line(token);
        let before = count_on(&mut self.printed, line);
        Spot { line, before }
    }
}
