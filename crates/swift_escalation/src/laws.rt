//! Laws of the definitions alone. A call costs nothing; its contract is the law.

ghost use Rattle.swift_escalation.specs.Laws.{NeverFalls};

/// A task's priority never falls as events are added (our own).
pub fn priorities_never_fall()
    ensures { NeverFalls }
{}
