//! Laws of cancellation (SE-0304), over a log alone. A call costs nothing; its contract is the law.

ghost use Rattle.swift_events.specs.Laws.{NotCancelledWithMaker, CancelledWithGroup, StaysCancelled};

/// A task that was spawned or detached is cancelled by its own name alone, and not with its maker (SE-0304).
pub fn free_tasks_are_not_cancelled_with_their_maker()
    ensures { NotCancelledWithMaker }
{}

/// A child is cancelled by its own name, or where its group is: by the group's name, or with the group's owner
/// (SE-0304).
pub fn children_are_cancelled_with_their_group()
    ensures { CancelledWithGroup }
{}

/// A task that is cancelled stays so as the log grows (SE-0304).
pub fn cancelled_tasks_stay_cancelled()
    ensures { StaysCancelled }
{}
