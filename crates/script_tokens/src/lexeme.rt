//! A token while its name still lies in the text.

ghost use Rattle.std.specs.Prelude.{◌≡◌, IfOk};
ghost use Rattle.script_tokens.specs.Pieces.{piece, lexeme_piece};

use crate::keyword::Keyword;
use crate::mark::Mark;
use crate::token::{NameText, Token};
use std::alloc::{AllocError, Global};

/// A token as it is found. A name lies in the text that it is read from, so finding one needs no memory.
#[derive(Clone, Copy)]
pub(crate) enum Lexeme<'a> {
    /// A number from 0 to 9223372036854775807.
    Num(i64),
    /// A number that no `i64` holds.
    Huge,
    /// A name: a word that is no keyword.
    Name(&'a [u8]),
    /// A word that is a keyword.
    Key(Keyword),
    /// A sign of one or two bytes.
    Sign(Mark),
    /// A byte that begins no token.
    Stray,
}

/// The token that says the same, with a copy of its name. `Err` says that there was no memory for the copy. Linear in
/// the bytes of the name.
pub(crate) fn to_token(alloc: Global, lexeme: Lexeme<'_>) -> Result<Token, AllocError>
    ensures { IfOk result (λ t. piece t ≡ lexeme_piece lexeme.entry) }
{
    match lexeme {
        Lexeme::Num(number) => Ok(Token::Num(number)),
        Lexeme::Huge => Ok(Token::Huge),
        Lexeme::Name(name) => Ok(Token::Name(NameText::from_slice(alloc, name)?)),
        Lexeme::Key(keyword) => Ok(Token::Key(keyword)),
        Lexeme::Sign(mark) => Ok(Token::Sign(mark)),
        Lexeme::Stray => Ok(Token::Stray),
    }
}
