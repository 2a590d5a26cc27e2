//! What holds of the definitions.

ghost use Rattle.std.specs.Prelude.{ℕ};
ghost use Rattle.swift_expressions.specs.Lowered.{Grows, Lowers};
ghost use Rattle.swift_expressions.specs.States.{State};
ghost use Rattle.swift_expressions.specs.declared.typed.Typed.{Typed};

/// A law: what an expression becomes stands behind what was put before it, and that stays as it is. It does nothing.
pub fn what_is_put_stays()
    ensures { (s t : State) (place : ℕ) (found : Typed) → Lowers s place t found → Grows s t }
{}
