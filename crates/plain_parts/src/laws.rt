//! What holds of the definitions.

ghost use Rattle.std.specs.Prelude.{◌≡◌, ◌≤◌, ℕ, List, map, true};
ghost use Rattle.script_grammar.specs.declared.region.Atoms.TheVariants.{Every};
ghost use Rattle.script_grammar.specs.Grammar.{SpellsExpr};
ghost use Rattle.script_grammar.specs.Tree.{ExprTree, height_of};
ghost use Rattle.plain_parts.specs.Expressions.{expr_tokens, reads_plain, renamed, token_in};

/// A law: the tokens of an expression spell that expression, with its names as they are written, at each level, and with no more
/// parentheses open than it is high. The levels are those of a script, which are Swift's. It does nothing.
pub fn expressions_are_spelled()
    ensures { (f : List ℕ → List ℕ) (e : ExprTree) (opens level : ℕ) → reads_plain e ≡ true → height_of e ≤ opens → SpellsExpr Every opens level (map token_in (expr_tokens f e level)) (renamed f e) }
{}
