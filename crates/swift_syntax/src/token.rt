//! One token.

use crate::sign::Sign;
use crate::word::Word;

/// What a token is.
#[derive(Clone, Copy)]
pub enum TokenKind {
    /// A word that is no keyword.
    Name,
    /// A keyword.
    Key(Word),
    /// A number from 0 to 9223372036854775807.
    Number(i64),
    /// A number that no `Int` holds.
    Huge,
    /// A string without interpolations, on one line.
    Text,
    /// A string with an interpolation.
    Interpolated,
    /// A sign.
    Sign(Sign),
    /// The beginning of the comment `// invariant: EXPR`, up to its colon. What follows it on the line are tokens.
    Invariant,
    /// The beginning of the comment `// executor: KIND`, up to its colon. What follows it on the line are tokens.
    Executor,
    /// The beginning of the comment `// expect: EXPR`, up to its colon. What follows it on the line are tokens.
    Expect,
    /// A byte that begins no token, or a string or comment that does not end.
    Stray,
    /// The end of the text.
    End,
}

/// What stands between white space and comments.
#[derive(Clone, Copy)]
pub struct Token {
    /// What it is.
    pub kind: TokenKind,
    /// The place of its first byte.
    pub from: usize,
    /// The place behind its last byte.
    pub to: usize,
    /// Whether it is the first one on its line.
    pub begins_line: bool,
    /// Whether white space, a comment or nothing stands before it.
    pub after_space: bool,
}
