//! What holds of the definitions.

ghost use Rattle.std.specs.Prelude.{◌≡◌, ◌≤◌, ℕ, List, length};
ghost use Rattle.script_tokens.specs.Lexes.{Lexes};
ghost use Rattle.script_tokens.specs.declared.span.Span.{Span};
ghost use Rattle.script_tokens.specs.Pieces.{TokenView};
ghost use Rattle.script_tokens.specs.Spans.{StandAt};

/// A law: a text consists of one list of tokens. It does nothing.
pub fn one_reading()
    ensures { (text : List ℕ) (a b : List TokenView) → Lexes text a → Lexes text b → a ≡ b }
{}

/// A law: the tokens of a text are one list of its bytes. It does nothing.
pub fn one_list_of_spans()
    ensures { (text : List ℕ) (a b : List Span) → StandAt text text a → StandAt text text b → a ≡ b }
{}

/// A law: a text has no more tokens than bytes. It does nothing.
pub fn few_tokens()
    ensures { (text : List ℕ) (tokens : List TokenView) → Lexes text tokens → length tokens ≤ length text }
{}
