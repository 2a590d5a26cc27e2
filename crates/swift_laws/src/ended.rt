//! Structured concurrency (SE-0304): an ended task leaves no task behind. A call costs nothing; its contract is the law.

ghost use Rattle.swift_laws.specs.Ended.{WaitersGoOnAfter, OwnersGoOnAfter, EndedWaitForNone, EndedLeaveNoneClosed, EndedLeaveNoChildren, EndedReachEnded};

/// In a legal report a task that waits for another goes on only when that has ended (SE-0304).
pub fn waiting_tasks_go_on_after_the_awaited()
    ensures { WaitersGoOnAfter }
{}

/// In a legal report a task that closes a group goes on only when each child of it has ended (SE-0304).
pub fn owners_go_on_after_their_children()
    ensures { OwnersGoOnAfter }
{}

/// Wherever the log of a legal report is cut, each task that an ended task has waited for has ended (SE-0304).
pub fn ended_tasks_wait_for_none()
    ensures { EndedWaitForNone }
{}

/// Wherever the log of a legal report is cut, each child of a group that an ended task has closed has ended (SE-0304).
pub fn ended_tasks_leave_no_children_of_closed_groups()
    ensures { EndedLeaveNoneClosed }
{}

/// Wherever the log of a legal report is cut, each child that was added to a group of an ended task has ended (SE-0304).
pub fn ended_tasks_leave_no_children()
    ensures { EndedLeaveNoChildren }
{}

/// Wherever the log of a legal report is cut, each task that is reached from an ended task along children and waits has ended
/// (SE-0304).
pub fn ended_tasks_reach_only_ended_ones()
    ensures { EndedReachEnded }
{}
