//! What holds of the definitions.

ghost use Rattle.std.specs.Prelude.{ℕ, ◌≤◌, List, length};
ghost use Rattle.script_tokens.specs.Pieces.{TokenView};
ghost use Rattle.script_grammar.specs.Tree.{DeclTree};
ghost use Rattle.script_grammar.specs.Grammar.{IsScript};
ghost use Rattle.script_grammar.specs.Size.{script_size};

/// A law: the size of a script is at most the number of its tokens. It does nothing.
pub fn scripts_are_short()
    ensures { (limit : ℕ) (tokens : List TokenView) (decls : List DeclTree) → IsScript limit tokens decls → script_size decls ≤ length tokens }
{}
