//! What holds of each legal report. A call costs nothing; its contract is the law.

ghost use Rattle.swift_laws.specs.Laws.{EachTurnStandsOnce, TurnsAreNumbered, AppliedTurnsStand, GivenJobsAreApplied, TurnsHaveTheirPriority};

/// In a legal report no turn stands twice, in journals and checkpoints together (our own).
pub fn each_turn_stands_once()
    ensures { EachTurnStandsOnce }
{}

/// In a legal report the turns of a task are numbered 0, 1, 2 and so on, in the order in which the log applies them, and each
/// turn that stands in the report is one of them (our own).
pub fn turns_are_numbered()
    ensures { TurnsAreNumbered }
{}

/// Each turn that the log of a legal report applies stands in the report, in a journal or in a checkpoint, where the script's
/// actors run on its executors (our own).
pub fn applied_turns_stand()
    ensures { AppliedTurnsStand }
{}

/// The jobs that the log of a legal report gives for a task are, in order, those of the turns of the task that it applies: no job
/// is left, and none is run twice (our own).
pub fn given_jobs_are_applied()
    ensures { GivenJobsAreApplied }
{}

/// Each turn in a journal of a legal report has begun at a point of the log with the priority that its task had there: the
/// greatest of those given to tasks from which it is reached along children and waits (SE-0304). Its environment says whether its
/// task was cancelled there.
pub fn turns_have_their_priority()
    ensures { TurnsHaveTheirPriority }
{}
