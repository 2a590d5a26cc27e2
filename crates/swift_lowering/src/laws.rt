//! What holds of the definitions.

ghost use Rattle.std.specs.Prelude.{Bool, ℕ, ◌≤◌, Some, length};
ghost use Rattle.swift_types.specs.declared.operator.Operator.{Operator};
ghost use Rattle.swift_syntax.specs.declared.tree.Stmt.{Stmt};
ghost use Rattle.swift_syntax.specs.declared.tree.StmtForm.{StmtForm};
ghost use Rattle.swift_expressions.specs.Lowered.{Grows};
ghost use Rattle.swift_expressions.specs.States.{State};
ghost use Rattle.swift_lowering.specs.Blocks.{AttemptsBlock, Does, DoesBlock};
ghost use Rattle.swift_lowering.specs.Statements.{Assigns, DoesPlain, ReadsLate};

/// A law: an assignment with an operator reads what it changes after its right side was computed, whatever that did. It does nothing.
pub fn an_operator_reads_late()
    ensures { (s u : State) (name : ℕ) (is_own : Bool) (place : ℕ) (o : Operator) → Assigns s name is_own place u (Some o) → ReadsLate s place o u }
{}

/// A law: what a statement becomes, with its blocks and closures, stands behind what was put before it, and that stays as it is. It does
/// nothing.
pub fn what_statements_put_stays()
    ensures plain { (s t : State) (token : ℕ) (form : StmtForm) → DoesPlain s token t form → Grows s t }
    ensures any { (s t : State) (stmt : Stmt) → Does s stmt t → Grows s t }
{}

/// A law: the names of a block end with it, also with that of a `do`, so that no more are in scope behind it than before. It does nothing.
pub fn names_end_with_their_block()
    ensures block { (s t : State) (first : ℕ) → DoesBlock s first t → length t.scope ≤ length s.scope }
    ensures of_do { (s t : State) (flag token first : ℕ) → AttemptsBlock s flag token first t → length t.scope ≤ length s.scope }
{}
