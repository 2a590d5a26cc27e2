//! What holds of the definitions.

ghost use Rattle.std.specs.Prelude.{◌≡◌, ℕ, List};
ghost use Rattle.script_grammar.specs.Tree.{ActorTree};
ghost use Rattle.swift_programs.specs.Names.{member_name, method_name, type_name, value_name};

/// A law: names that differ are spelled differently, where both are those of actors, or of fields, parameters, variables and roots, or of
/// executors and task locals, or of methods of one actor. It does nothing.
pub fn names_stay_apart()
    ensures types { (a b : List ℕ) → type_name a ≡ type_name b → a ≡ b }
    ensures values { (a b : List ℕ) → value_name a ≡ value_name b → a ≡ b }
    ensures members { (a b : List ℕ) → member_name a ≡ member_name b → a ≡ b }
    ensures methods { (actor : ActorTree) (a b : List ℕ) → method_name actor a ≡ method_name actor b → a ≡ b }
{}
