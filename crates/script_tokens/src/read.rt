//! All tokens of a text.

ghost use Rattle.std.specs.Prelude.{◌≡◌, map, length, IfOk};
ghost use Rattle.script_tokens.specs.Lexes.{Lexes};
ghost use Rattle.script_tokens.specs.Pieces.{piece};
ghost use Rattle.script_tokens.specs.Spans.{StandAt};

use crate::front::front;
use crate::list::Tokens;
use crate::span::Span;
use std::alloc::{AllocError, Global};

/// The tokens of a text, which may be of any length. It never refuses: a byte that begins no token and a number that
/// is too large are tokens. `Err` says that there was no memory. Time and memory are linear in the bytes: each name is
/// copied once, and beside its name a token takes some tens of bytes.
pub fn tokens(alloc: Global, text: &[u8]) -> Result<Tokens, AllocError>
    // The text consists of these tokens, and of no others (`one_reading`).
    ensures tokens { IfOk result (λ t. Lexes text.now (map piece t.tokens.items)) }
    // They are these bytes, and no others (`one_list_of_spans`).
    ensures spans { IfOk result (λ t. StandAt text.now text.now t.spans.items) }
    // Each token has its bytes.
    ensures as_many { IfOk result (λ t. length t.spans.items ≡ length t.tokens.items) }
{
    let mut found = Tokens {
        tokens: Vec::new(alloc),
        spans: Vec::new(alloc),
    };
    let mut rest = text;
    while !rest.is_empty() {
        let (lexeme, after) = front(rest);
        match lexeme {
            Some(lexeme) => {
                let span = Span {
                    from: text.len() - rest.len(),
                    to: text.len() - after.len(),
                };
                found.add(alloc, lexeme, span)?
            }
            None => {}
        }
        rest = after;
    }
    Ok(found)
}
