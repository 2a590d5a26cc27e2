//! Laws of the definitions. They call nothing: each is its contract.

ghost use Rattle.std.specs.Prelude.{◌≡◌, ◌≤◌, ℕ, List, None, length};
ghost use Rattle.script_tokens.specs.Pieces.{TokenView};
ghost use Rattle.script_grammar.specs.Tree.{DeclTree};
ghost use Rattle.script_grammar.specs.Grammar.{IsScript};
ghost use Rattle.script_names.specs.Directory.{directory_of, declared_in};
ghost use Rattle.script_names.specs.Rules.{names_in, names_error};

/// Where the names of a script are in order, its directory is the list of what stands in the text: no executor, task
/// local, root, actor, field or method is left out, so the place of each in the directory is its place in the text.
pub fn names_errors_are_complete()
    ensures { (decls : List DeclTree) → names_error decls ≡ None → directory_of decls ≡ declared_in decls }
{}

/// A script has no more names than tokens, whatever the limit of nesting.
pub fn names_are_few()
    ensures { (limit : ℕ) (tokens : List TokenView) (decls : List DeclTree) → IsScript limit tokens decls → names_in decls ≤ length tokens }
{}
