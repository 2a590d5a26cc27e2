//! What holds of histories and their digests. A call costs nothing; its contract is the law.

ghost use Rattle.swift_digest.specs.Futures.{SameFutures, TurnsAreDetermined};
ghost use Rattle.swift_digest.specs.Explored.{ExploredHasEachOutcome, ExploredHasEachOrderlyOutcome, RepresentedHasEachOutcome};

/// Of two histories that lead to one digest, and to the same waiting tasks, jobs and fields, each way in which the first goes on is one of
/// the second, where no executor that has no record in the first has one in the second (our own).
pub fn alike_histories_go_on_alike()
    ensures { SameFutures }
{}

/// A history and a task decide where the task's next turn leads (our own).
pub fn turns_are_determined()
    ensures { TurnsAreDetermined }
{}

/// A list of states that is closed under one more block has the outcome of each legal report whose executors have folded no turn (our
/// own).
pub fn explored_states_have_each_outcome()
    ensures { ExploredHasEachOutcome }
{}

/// A list of states that is closed under one more block in order has the outcome of each such report where executors run one turn at a
/// time, after all roots were added (our own).
pub fn explored_states_have_each_orderly_outcome()
    ensures { ExploredHasEachOrderlyOutcome }
{}

/// A list of histories, of which one is kept for all that lead alike, has the outcome of each such report, too (our own).
pub fn represented_histories_have_each_outcome()
    ensures { RepresentedHasEachOutcome }
{}
