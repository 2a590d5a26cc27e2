//! Lists of tasks that the log gives of each task: those that it has spawned or detached, and those that have waited
//! for it.

ghost use Rattle.std.specs.Prelude.{◌≡◌, ℕ, ◌+◌, ◌^◌, ◌<◌, ◌∷◌, [], ◌++◌, length};
ghost use Rattle.swift_events.specs.Relations.{own_tasks, waiters_of};
ghost use Rattle.swift_ledger.specs.Ledgers.{CanNote};
ghost use Rattle.swift_ledger.specs.WellFormedInside.{IsWellFormed};
ghost use Rattle.swift_ledger.specs.ListsInside.{AreLists, HasSpare};
ghost use Rattle.swift_ledger.specs.RelativesInside.{own_pair, waiter_pair};

use crate::lists::TaskLists;
use swift_events::Event;
use swift_log::EventLog;
use swift_types::TaskId;

/// The maker and the task where an event is the spawn or the detach of a task.
fn own_pair(event: Event) -> Option<(TaskId, TaskId)>
    ensures { result ≡ own_pair event }
{
    match event {
        Event::Free {
            task: made,
            maker: by,
            ..
        } => Some((by, made)),
        Event::Root(_, _)
        | Event::Begin { .. }
        | Event::Apply(_, _)
        | Event::Open(_, _)
        | Event::Child { .. }
        | Event::Skip(_, _)
        | Event::CancelTask(_)
        | Event::CancelGroup(_, _)
        | Event::Wait(_, _)
        | Event::Next(_, _)
        | Event::Close(_, _)
        | Event::End(_, _)
        | Event::Give { .. } => None,
    }
}

/// The awaited task and the waiter where an event is a wait for a task.
fn waiter_pair(event: Event) -> Option<(TaskId, TaskId)>
    ensures { result ≡ waiter_pair event }
{
    match event {
        Event::Wait(waiter, awaited) => Some((awaited, waiter)),
        Event::Root(_, _)
        | Event::Begin { .. }
        | Event::Apply(_, _)
        | Event::Free { .. }
        | Event::Open(_, _)
        | Event::Child { .. }
        | Event::Skip(_, _)
        | Event::CancelTask(_)
        | Event::CancelGroup(_, _)
        | Event::Next(_, _)
        | Event::Close(_, _)
        | Event::End(_, _)
        | Event::Give { .. } => None,
    }
}

/// Keeps the tasks that each task has spawned or detached, by one event.
pub(crate) fn note_own(own: &mut TaskLists, roots: usize, log: &EventLog, event: Event)
    requires own { AreLists own.old (λ t. own_tasks t log.now.events) }
    requires log { IsWellFormed roots log.now.events }
    requires fits { CanNote roots log.now.events event }
    requires short { length log.now.events + 1 < 2 ^ 64 }
    requires spare { HasSpare own.old 1 }
    ensures own { AreLists own.new (λ t. own_tasks t (log.now.events ++ event ∷ [])) }
    ensures spare { (n : ℕ) → HasSpare own.old (n + 1) → HasSpare own.new n }
{
    if let Some((by, made)) = own_pair(event) {
        own.push(by, made);
    }
}

/// Keeps the tasks that have waited for each task, by one event.
pub(crate) fn note_waiter(waiters: &mut TaskLists, roots: usize, log: &EventLog, event: Event)
    requires waiters { AreLists waiters.old (λ t. waiters_of t log.now.events) }
    requires log { IsWellFormed roots log.now.events }
    requires fits { CanNote roots log.now.events event }
    requires short { length log.now.events + 1 < 2 ^ 64 }
    requires spare { HasSpare waiters.old 1 }
    ensures waiters { AreLists waiters.new (λ t. waiters_of t (log.now.events ++ event ∷ [])) }
    ensures spare { (n : ℕ) → HasSpare waiters.old (n + 1) → HasSpare waiters.new n }
{
    if let Some((awaited, waiter)) = waiter_pair(event) {
        waiters.push(awaited, waiter);
    }
}
