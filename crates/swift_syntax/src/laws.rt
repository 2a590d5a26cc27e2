//! What holds of the definitions.

ghost use Rattle.std.specs.Prelude.{◌≡◌, ℕ, List};
ghost use Rattle.swift_syntax.specs.Lexes.{AreTokensOf};
ghost use Rattle.swift_syntax.specs.declared.token.Token.{Token};

/// A law: a text consists of one list of tokens. It does nothing.
pub fn one_reading()
    ensures { (text : List ℕ) (a b : List Token) → AreTokensOf text a → AreTokensOf text b → a ≡ b }
{}
