//! Laws of the grammar. They call nothing: each is its contract.

ghost use Rattle.std.specs.Prelude.{◌≡◌, ℕ, List};
ghost use Rattle.script_tokens.specs.Pieces.{TokenView};
ghost use Rattle.script_grammar.specs.Tree.{DeclTree};
ghost use Rattle.script_grammar.specs.Grammar.{IsScript};

/// Tokens spell at most one script, whatever the limits.
pub fn one_script()
    ensures { (m n : ℕ) (tokens : List TokenView) (a b : List DeclTree) → IsScript m tokens a → IsScript n tokens b → a ≡ b }
{}
