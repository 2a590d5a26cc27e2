//! What a text consists of, piece by piece.

use crate::keyword::Keyword;
use crate::mark::Mark;

/// The bytes of a name.
pub type NameText = Vec<u8>;

/// What stands between white space and comments. A name has a copy of its bytes, so a token outlives the text that it
/// was read from.
#[derive(Drop)]
pub enum Token {
    /// A number from 0 to 9223372036854775807.
    Num(i64),
    /// A number that no `i64` holds.
    Huge,
    /// A name: a word that is no keyword.
    Name(NameText),
    /// A word that is a keyword.
    Key(Keyword),
    /// A sign of one or two bytes.
    Sign(Mark),
    /// A byte that begins no token.
    Stray,
}
