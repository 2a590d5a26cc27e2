//! The tokens of a text.

ghost use Rattle.std.specs.Prelude.{IfOk, All};
ghost use Rattle.swift_syntax.specs.Lexes.{AreTokensOf};
ghost use Rattle.swift_syntax.specs.Places.{IsTokenOf};

use crate::front::{Piece, front};
use crate::token::Token;
use std::alloc::{AllocError, Global};

/// The tokens of a text, which may be of any length. It never refuses: what begins no token is a token of its own. `Err` says that there
/// was no memory. Linear in the bytes.
pub fn tokens(alloc: Global, text: &[u8]) -> Result<Vec<Token>, AllocError>
    // The text consists of these tokens, and of no others (`one_reading`).
    ensures tokens { IfOk result (λ found. AreTokensOf text.now found.items) }
    ensures within { IfOk result (λ found. All (IsTokenOf text.now) found.items) }
{
    let mut found = Vec::new(alloc);
    let mut rest = text;
    let mut begins_line = true;
    let mut after_space = true;
    while !rest.is_empty() {
        let from = text.len().saturating_sub(rest.len());
        let (piece, after) = front(rest);
        let to = text.len().saturating_sub(after.len());
        match piece {
            Piece::Space => after_space = true,
            Piece::Line => {
                begins_line = true;
                after_space = true;
            }
            Piece::Token(kind) => {
                found.push(Token {
                    kind,
                    from,
                    to,
                    begins_line,
                    after_space,
                })?;
                begins_line = false;
                after_space = false;
            }
        }
        rest = after;
    }
    Ok(found)
}
