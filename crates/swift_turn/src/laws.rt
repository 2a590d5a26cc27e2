//! Laws of the definitions alone. A call costs nothing; its contract is the law.

ghost use Rattle.swift_turn.specs.Laws.{BindingsEnd};

/// A method that is called finds the bindings that stand in its caller. Where it is left, its caller has its own bindings
/// again, and finds those that it found before: those of the method are gone (SE-0311).
pub fn bindings_end_with_their_method()
    ensures { BindingsEnd }
{}
