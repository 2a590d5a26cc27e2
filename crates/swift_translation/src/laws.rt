//! What holds of the definitions.

ghost use Rattle.std.specs.Prelude.{◌≡◌};
ghost use Rattle.swift_translation.specs.Names.{IsNumbered, NameView, spelled};

/// Two fields and variables of an actor that a script spells the same are one.
pub fn names_are_told_apart()
    ensures law { (a b : NameView) → IsNumbered a → IsNumbered b → spelled a ≡ spelled b → a ≡ b }
{}
