//! Laws of the definitions alone. A call costs nothing; its contract is the law.

ghost use Rattle.swift_tasks.specs.Laws.{EndsOnce, StaysWithinRoom, PrioritiesNeverFall};

/// A task ends at most once: with whatever events a run goes on, its ending stays (SE-0304).
pub fn tasks_end_once()
    ensures { EndsOnce }
{}

/// With what turns under way may still make, a run never has more than 1,024 tasks (our own).
pub fn runs_stay_within_room()
    ensures { StaysWithinRoom }
{}

/// A task's priority never falls along a log (our own).
pub fn priorities_never_fall()
    ensures { PrioritiesNeverFall }
{
    swift_escalation::laws::priorities_never_fall();
}
