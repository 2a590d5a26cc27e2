//! What holds of histories whose turns begin late. A call costs nothing; its contract is the law.

ghost use Rattle.swift_reordering.specs.Fused.{EachIsFused};
ghost use Rattle.swift_reordering.specs.FusedSteps.{ClosedHasEachExit, ClosedHasEachOutcome};
ghost use Rattle.swift_reordering.specs.Marks.{MarksTell};
ghost use Rattle.swift_reordering.specs.RunAhead.{ClosedAheadHasEachExit, ClosedAheadHasEachOutcome};
ghost use Rattle.swift_reordering.specs.SilentSearch.{ClosedSilentlyHasEachExit, ClosedSilentlyHasEachOutcome};
ghost use Rattle.swift_reordering.specs.SilentTurns.{SilentTurnsCommute, SilentTurnsMayGoFirst};
ghost use Rattle.swift_reordering.specs.Unnamed.{InstructionsSpare, TurnsSpare};
ghost use Rattle.swift_reordering.specs.Waiting.{BeginsMayWait};

/// A report in order has another with the same endings, fields and turns, in which each turn that looks away begins right before it runs,
/// where no executor has folded turns and room never binds (our own).
pub fn each_report_is_fused()
    ensures { EachIsFused }
{}

/// A list of histories that is closed under steps in which a turn that looks away begins and runs at once has the outcome of each legal
/// report in order without folded turns, where there is room in each of them (our own).
pub fn closed_histories_have_each_outcome()
    ensures { ClosedHasEachOutcome }
{}

/// Each turn of such a report ends as a turn does of a step after one of them (our own).
pub fn closed_histories_have_each_exit()
    ensures { ClosedHasEachExit }
{}

/// The begin of a turn that looks away may wait for a block of another task (our own).
pub fn begins_may_wait()
    ensures { BeginsMayWait }
{}

/// From an instruction that has a mark each statement is as marks say, up to each end of the turn (our own).
pub fn marks_tell()
    ensures { MarksTell }
{}

/// A method neither waits for a root nor cancels it by its name where none of its instructions does (our own).
pub fn instructions_spare()
    ensures { InstructionsSpare }
{}

/// Nor does a turn of such a method (our own).
pub fn turns_spare()
    ensures { TurnsSpare }
{}

/// A turn that touches nothing but its own task, which goes on at once or is a root that no line names and ends, may run before or after a
/// block of another task (our own).
pub fn silent_turns_commute()
    ensures { SilentTurnsCommute }
{}

/// Such a turn may go before all that stands before it in a history in order, where there is room (our own).
pub fn silent_turns_may_go_first()
    ensures { SilentTurnsMayGoFirst }
{}

/// A list of histories from each of which either each step or one silent turn leads alike to one of them has the outcome of each legal
/// report in order without folded turns, where room never binds and the invariants hold at the start (our own).
pub fn silently_closed_histories_have_each_outcome()
    ensures { ClosedSilentlyHasEachOutcome }
{}

/// Each turn of such a report ends as a turn does of a step that was tried (our own).
pub fn silently_closed_histories_have_each_exit()
    ensures { ClosedSilentlyHasEachExit }
{}

/// A list of histories from each of which each step, with silent turns after it, leads as one of them, has the outcome of each legal report
/// in order without folded turns, where there is room in each of them and the invariants hold at the start (our own).
pub fn histories_closed_ahead_have_each_outcome()
    ensures { ClosedAheadHasEachOutcome }
{}

/// Each turn of such a report ends as a turn does that was tried (our own).
pub fn histories_closed_ahead_have_each_exit()
    ensures { ClosedAheadHasEachExit }
{}
