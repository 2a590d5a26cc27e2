//! Laws of the definitions alone. A call costs nothing; its contract is the law.

ghost use Rattle.swift_undo.specs.Laws.{InvariantsAreKept, OthersAreKept, UndoneChangesNothing};

/// Where an invariant of an executor's actors holds before a turn, it holds after it, whatever the turn's statements, its
/// resume and its environment (our own).
pub fn invariants_are_kept()
    ensures { InvariantsAreKept }
{}

/// A turn that ends with a false invariant, `overflow`, `steps`, `tasks` or `isolation` changes nothing but how its frame
/// is left: the frame's variables, handles and statements still to do, its task's counts, all fields, the effects and
/// the room are as before the turn. The frame's bindings go, and of the groups that were open the innermost one is
/// closed (our own).
pub fn undone_turn_changes_nothing()
    ensures { UndoneChangesNothing }
{}

/// Every other turn, one that throws too, is kept whole, and leaves all invariants of its executor's actors true (our
/// own).
pub fn other_turns_are_kept()
    ensures { OthersAreKept }
{}
