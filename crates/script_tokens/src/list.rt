//! The list of a text's tokens, with their lines.

ghost use Rattle.std.specs.Prelude.{◌≡◌, ◌++◌, ◌∷◌, [], map, OnOk};
ghost use Rattle.script_tokens.specs.Pieces.{piece, lexeme_piece};

use crate::lexeme::{Lexeme, to_token};
use crate::span::Span;
use crate::token::Token;
use std::alloc::{AllocError, Global};

/// What a text consists of, and which bytes each token is.
#[derive(Drop)]
pub struct Tokens {
    /// The tokens, in order.
    pub tokens: Vec<Token>,
    /// The bytes of the token at the same place.
    pub spans: Vec<Span>,
}

impl Tokens {
    /// Puts a token after the others. Its name is copied.
    pub(crate) fn add(
        &mut self,
        alloc: Global,
        lexeme: Lexeme<'_>,
        span: Span,
    ) -> Result<(), AllocError>
        ensures tokens { OnOk result (map piece self.new.tokens.items ≡ map piece self.old.tokens.items ++ lexeme_piece lexeme.entry ∷ []) }
        ensures spans { OnOk result (self.new.spans.items ≡ self.old.spans.items ++ span ∷ []) }
    {
        self.tokens.push(to_token(alloc, lexeme)?)?;
        self.spans.push(span)?;
        Ok(())
    }
}
