//! At which places the tokens of a text stand, and which bytes they are.

ghost use Rattle.std.specs.Prelude.{◌≡◌, map};
ghost use Rattle.script_tokens.specs.Pieces.{piece};
ghost use Rattle.swift_script.specs.FaultPlaces.{place_of, span_at};
ghost use Rattle.swift_script.specs.SpelledInside.{passes};

use script_tokens::{Keyword, Span, Token};

/// What is looked for among tokens.
#[derive(Clone, Copy)]
pub(crate) enum Sought {
    Name,
    Invariant,
    Root,
}

fn passes(sought: Sought, token: &Token) -> bool
    ensures { result ≡ passes sought (piece token.now) }
{
    match sought {
        Sought::Name => matches!(token, Token::Name(_)),
        Sought::Invariant => matches!(token, Token::Key(Keyword::Invariant)),
        Sought::Root => matches!(token, Token::Key(Keyword::Root)),
    }
}

/// The place of the token that is sought and has `before` others of its kind before it; the number of tokens where there
/// is none. Linear in the tokens.
pub(crate) fn place_of(tokens: &[Token], sought: Sought, before: usize) -> usize
    ensures { result ≡ place_of (passes sought) before (map piece tokens.now) }
{
    let mut left = before;
    for (place, token) in tokens.iter().enumerate() {
        if passes(sought, token) {
            if left == 0 {
                return place;
            }
            left -= 1;
        }
    }
    tokens.len()
}

/// The bytes of the token at a place; past the last token the end of the text.
pub(crate) fn span_at(text: &[u8], spans: &[Span], place: usize) -> Span
    ensures { result ≡ span_at text.now spans.now place }
{
    let end = Span {
        from: text.len(),
        to: text.len() + 1,
    };
    spans.get(place).copied().unwrap_or(end)
}
