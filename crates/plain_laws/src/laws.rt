//! What holds of the definitions.

ghost use Rattle.std.specs.Prelude.{◌≡◌, ◌<◌, ◌^◌, ◌++◌, Bool, ℕ, List, true, false, length};
ghost use Rattle.plain_parts.specs.Expressions.{as_test, expr_bytes, reads_plain, renamed};
ghost use Rattle.script_grammar.specs.Tree.{ExprTree};
ghost use Rattle.swift_syntax.specs.Expressions.{SpellsExpr, SwiftTree, kind_at};
ghost use Rattle.swift_syntax.specs.declared.token.Token.{Token};
ghost use Rattle.plain_laws.specs.Lines.{IsAssignReadBack, IsLetReadBack, IsReturnReadBack, assign_line, let_line, return_line};
ghost use Rattle.plain_laws.specs.Readings.{AreTold, EndsExpr, IsReadBack, Means, Rest, ends_before, expr_told};
ghost use Rattle.plain_laws.specs.Texts.{IsName, IsWritable, goes_on};

/// A law: where the tokens of a script's expression stand, as `--plain` writes it, the reader of Swift takes them, and no others, for an
/// expression, and that one means what the script's does. What follows them begins with no operator, and goes on with no name. It does
/// nothing.
pub fn expressions_are_read()
    ensures { (text : List ℕ) (tokens : List Token) (f : List ℕ → List ℕ) (e : ExprTree) (from end to : ℕ) (tree : SwiftTree) → reads_plain e ≡ true → AreTold text tokens from (expr_told f e 5) end → EndsExpr tokens end → SpellsExpr tokens from to tree → (to ≡ end) × Means text tokens tree (renamed f e) }
{}

/// A law: where the bytes of a script's expression stand, as `--plain` writes it, the reader of Swift finds its tokens, and what it takes
/// them for means the script's expression. The tokens are no more than a `u64` can count. It does nothing.
pub fn expressions_are_read_back()
    ensures { (text : List ℕ) (tokens : List Token) (f : List ℕ → List ℕ) (e : ExprTree) (i : ℕ) (rest : List ℕ) → length tokens < 2 ^ 64 → IsWritable f e → goes_on rest ≡ false → Rest text tokens i (expr_bytes f e 5 ++ rest) → IsReadBack text tokens f e i rest }
{}

/// A law: what `--plain` writes as a test can be written in Swift as well as the number that it tests. It does nothing.
pub fn tests_are_writable()
    ensures { (f : List ℕ → List ℕ) (e : ExprTree) → IsWritable f e → IsWritable f (as_test e) }
{}

/// A law: behind what `--plain` writes of an expression stands a name or a keyword of the next line, a brace, a parenthesis that closes, a
/// comma, or the end of the text: with none of them an expression goes on. It does nothing.
pub fn expressions_end()
    ensures { (tokens : List Token) (i : ℕ) → ends_before (kind_at tokens i) ≡ true → EndsExpr tokens i }
{}

/// A law: where the bytes of a line stand that returns a number of a script, as `--plain` writes it, the reader of Swift finds `return`, on
/// the same line what it takes for an expression, which means the script's, and what follows on the next line. It does nothing.
pub fn returns_are_read_back()
    ensures { (text : List ℕ) (tokens : List Token) (f : List ℕ → List ℕ) (d : ℕ) (e : ExprTree) (i : ℕ) (rest : List ℕ) → length tokens < 2 ^ 64 → IsWritable f e → Rest text tokens i (return_line f d e ++ rest) → IsReturnReadBack text tokens f e i rest }
{}

/// A law: where the bytes of a line stand that sets a variable or a field to a number of a script, as `--plain` writes it, the reader of
/// Swift finds the name, `=`, and the same. It does nothing.
pub fn assignments_are_read_back()
    ensures { (text : List ℕ) (tokens : List Token) (f : List ℕ → List ℕ) (d : ℕ) (w : List ℕ) (e : ExprTree) (i : ℕ) (rest : List ℕ) → length tokens < 2 ^ 64 → IsName (f w) → IsWritable f e → Rest text tokens i (assign_line f d w e ++ rest) → IsAssignReadBack text tokens f w e i rest }
{}

/// A law: where the bytes of a line stand that makes a variable with a number of a script, as `--plain` writes it, the reader of Swift finds
/// `let` or `var`, and the same. It does nothing.
pub fn variables_are_read_back()
    ensures { (text : List ℕ) (tokens : List Token) (f : List ℕ → List ℕ) (is_var : Bool) (d : ℕ) (w : List ℕ) (e : ExprTree) (i : ℕ) (rest : List ℕ) → length tokens < 2 ^ 64 → IsName (f w) → IsWritable f e → Rest text tokens i (let_line f is_var d w e ++ rest) → IsLetReadBack text tokens f is_var w e i rest }
{}
