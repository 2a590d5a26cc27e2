//! The token at which a text is refused.

use script_tokens::Token;

/// The token at which a text is refused (our own).
#[derive(Clone, Copy)]
pub struct Blamed<'a> {
    /// The tokens of the text.
    pub tokens: &'a [Token],
    /// How many come before it; all of them where the text ends early.
    pub place: usize,
    /// Its bytes.
    pub found: &'a [u8],
}
