//! What holds of each turn of a run, folded or not. A call costs nothing; its contract is the law.

ghost use Rattle.swift_laws.specs.Whole.{AllTurnsAreKnown, FoldedTurnsAreKnown};

/// Each turn that the log of a run applies has its record in the whole report, of which the run's report is the fold, and in one place
/// alone. It has begun with the priority that its task had at that point of the log (SE-0304), and finds the bindings that it inherits
/// (SE-0311).
pub fn all_turns_are_known()
    ensures { AllTurnsAreKnown }
{}

/// Each folded turn of a run's report is what a fold leaves of a record of the whole report (our own).
pub fn folded_turns_are_known()
    ensures { FoldedTurnsAreKnown }
{}
