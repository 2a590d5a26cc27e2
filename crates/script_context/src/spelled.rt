//! Tokens as they are spelled.

ghost use Rattle.std.specs.Prelude.{◌≡◌, ◌↔◌, IsTrue, MatchOption, Some, None};
ghost use Rattle.script_context.specs.Words.{IsKeyAt, IsSignAt, name_at, word, word_at};

use script_tokens::{Keyword, Mark, Token};

/// The spelling of a token, but for numbers and bytes that begin no token, which have none.
pub fn word(token: &Token) -> &[u8]
    ensures { result.now ≡ word token.now }
{
    match token {
        Token::Name(text) => text,
        Token::Key(keyword) => keyword.spelling(),
        Token::Sign(mark) => mark.spelling(),
        Token::Num(_) | Token::Huge | Token::Stray => b"",
    }
}

/// The spelling of the token at a place; empty past the last one.
pub fn word_at(tokens: &[Token], place: usize) -> &[u8]
    ensures { result.now ≡ word_at tokens.now place }
{
    match tokens.get(place) {
        Some(token) => word(token),
        None => b"",
    }
}

/// The name at a place.
pub fn name_at(tokens: &[Token], place: usize) -> Option<&[u8]>
    ensures { MatchOption result (name_at tokens.now place ≡ None) (λ name. name_at tokens.now place ≡ Some name.now) }
{
    match tokens.get(place) {
        Some(Token::Name(text)) => Some(text),
        _ => None,
    }
}

/// Whether this keyword stands at a place.
pub fn is_key(tokens: &[Token], place: usize, keyword: Keyword) -> bool
    ensures { IsTrue result ↔ IsKeyAt tokens.now place keyword }
{
    match tokens.get(place) {
        Some(Token::Key(found)) => *found as u8 == keyword as u8,
        _ => false,
    }
}

/// Whether this mark stands at a place.
pub fn is_sign(tokens: &[Token], place: usize, mark: Mark) -> bool
    ensures { IsTrue result ↔ IsSignAt tokens.now place mark }
{
    match tokens.get(place) {
        Some(Token::Sign(found)) => *found as u8 == mark as u8,
        _ => false,
    }
}
