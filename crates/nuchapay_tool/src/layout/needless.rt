//! Parentheses that say nothing.

use crate::layout::part::{LayoutPart, part_at};
use script_tokens::{Mark, Token};
use std::alloc::{AllocError, Global};

// How tightly an operator binds: 1 to 5 for those between two operands, 6 for `-` and `!` in front of one, 0 for no operator.
fn binding(part: LayoutPart, mark: Mark) -> u32 {
    match part {
        LayoutPart::Prefix => 6,
        LayoutPart::Infix => infix_binding(mark),
        _ => 0,
    }
}

const COMPARISON: u32 = 3;

fn infix_binding(mark: Mark) -> u32 {
    match mark {
        Mark::Or => 1,
        Mark::And => 2,
        Mark::Equal | Mark::Unequal => COMPARISON,
        Mark::Less | Mark::AtMost | Mark::Greater | Mark::AtLeast => COMPARISON,
        Mark::Plus | Mark::Minus => 4,
        Mark::Times => 5,
        _ => 0,
    }
}

// A parenthesis that is open.
#[derive(Clone, Copy)]
struct Opened {
    // Its place among the tokens.
    place: usize,
    // Whether it is round an expression, and not that of arguments.
    is_round: bool,
    // How tightly the operator in it binds that binds least; 0 until one comes.
    binds: u32,
}

// The binding of two operators that binds less, where 0 is that of none.
fn looser(binds: u32, other: u32) -> u32 {
    if binds == 0 || (other > 0 && other < binds) {
        other
    } else {
        binds
    }
}

// Whether an expression needs its parenthesis: by how tightly the operator within binds that binds least, and how tightly those do that
// stand right before it and right behind it. Operators of one kind are read from the left, comparisons not at all.
fn is_needed(inner: u32, before: u32, behind: u32) -> bool {
    inner > 0
        && (inner <= before || inner < behind || (inner == COMPARISON && behind == COMPARISON))
}

// How tightly the operator at a place binds; 0 where none is.
fn binding_at(tokens: &[Token], place: usize) -> u32 {
    match tokens.get(place) {
        Some(Token::Sign(Mark::At)) => 0,
        Some(Token::Sign(mark)) => binding(part_at(tokens, place), *mark),
        _ => 0,
    }
}

// How tightly the operator before a place binds; 0 where none is.
fn binding_before(tokens: &[Token], place: usize) -> u32 {
    match place.checked_sub(1) {
        Some(before) => binding_at(tokens, before),
        None => 0,
    }
}

/// The parentheses that are open while tokens are gone through, and which have turned out to be needless.
#[derive(Drop)]
struct Parentheses {
    opened: Vec<Opened>,
    needless: Vec<usize>,
}

impl Parentheses {
    // Goes past the token at a place.
    fn pass(&mut self, tokens: &[Token], place: usize, part: LayoutPart) -> Result<(), AllocError> {
        match part {
            LayoutPart::Round | LayoutPart::Open => {
                let is_round = matches!(part, LayoutPart::Round);
                self.opened.push(Opened {
                    place,
                    is_round,
                    binds: 0,
                })?;
                Ok(())
            }
            LayoutPart::Prefix | LayoutPart::Infix => self.hold(binding_at(tokens, place)),
            LayoutPart::Close => self.close(tokens, place),
            _ => Ok(()),
        }
    }

    // Keeps of the innermost parenthesis that an operator stands in it which binds so tightly.
    fn hold(&mut self, binds: u32) -> Result<(), AllocError> {
        let Some(last) = self.opened.pop() else {
            return Ok(());
        };
        self.opened.push(Opened {
            place: last.place,
            is_round: last.is_round,
            binds: looser(last.binds, binds),
        })?;
        Ok(())
    }

    // Closes the parenthesis that was opened last. Without it, what is in it stands in the one around.
    fn close(&mut self, tokens: &[Token], place: usize) -> Result<(), AllocError> {
        let Some(last) = self.opened.pop() else {
            return Ok(());
        };
        let before = binding_before(tokens, last.place);
        let behind = binding_at(tokens, place.saturating_add(1));
        if !last.is_round || is_needed(last.binds, before, behind) {
            return Ok(());
        }
        self.needless.push(last.place)?;
        self.needless.push(place)?;
        self.hold(last.binds)
    }
}

/// For each token of a script whether it is one of a parenthesis without which the same is read. Linear in the tokens.
pub(crate) fn needless(alloc: Global, tokens: &[Token]) -> Result<Vec<bool>, AllocError> {
    let mut found = Parentheses {
        opened: Vec::new(alloc),
        needless: Vec::new(alloc),
    };
    for place in 0..tokens.len() {
        found.pass(tokens, place, part_at(tokens, place))?;
    }
    let mut flags = vec![in alloc; false; tokens.len()]?;
    for place in found.needless.iter() {
        if *place < flags.len() {
            flags[*place] = true;
        }
    }
    Ok(flags)
}
