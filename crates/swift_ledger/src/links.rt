//! The log's part in priorities: the tasks that it adds, and who waits for whom.

ghost use Rattle.std.specs.Prelude.{◌≡◌, ◌+◌, ◌<◌, ◌≤◌, ◌∷◌, [], ◌++◌, Some, OnOk};
ghost use Rattle.swift_escalation.specs.Waits.{WaitsView};
ghost use Rattle.swift_events.specs.Relations.{link_in, links_of};
ghost use Rattle.swift_ledger.specs.Ledgers.{CanNote};
ghost use Rattle.swift_ledger.specs.WellFormedInside.{IsWellFormed};
ghost use Rattle.swift_ledger.specs.LinksInside.{CanLink};

use std::alloc::AllocError;
use swift_escalation::{PriorityEvent as Link, Waits};
use swift_events::Event;
use swift_log::EventLog;

/// What an event is for priorities, if it is anything.
pub(crate) fn link_of(event: Event) -> Option<Link>
    ensures { result ≡ link_in event }
{
    match event {
        Event::Root(task, priority) => Some(Link::Root(task, priority)),
        Event::Free { task, priority, .. } => Some(Link::Free(task, priority)),
        Event::Child {
            task,
            owner,
            priority,
            ..
        } => Some(Link::Child {
            task,
            parent: owner,
            own: priority,
        }),
        Event::Wait(task, awaited) => Some(Link::Wait(task, awaited)),
        Event::Begin { .. }
        | Event::Apply(_, _)
        | Event::Open(_, _)
        | Event::Skip(_, _)
        | Event::CancelTask(_)
        | Event::CancelGroup(_, _)
        | Event::Next(_, _)
        | Event::Close(_, _)
        | Event::End(_, _)
        | Event::Give { .. } => None,
    }
}

/// Makes room for this many calls of `note_link`. Nothing else changes, also where there is no memory.
pub(crate) fn reserve_links(waits: &mut Waits, calls: usize) -> Result<(), AllocError>
    ensures same { waits.new.events ≡ waits.old.events }
    ensures spare { waits.old.reserved ≤ waits.new.reserved }
    ensures ok { OnOk result (calls ≤ waits.new.reserved) }
{
    match waits.reserve(calls) {
        Ok(()) => Ok(()),
        Err(_) => Err(AllocError),
    }
}

/// Follows the log by one event.
pub(crate) fn note_link(waits: &mut Waits, roots: usize, log: &EventLog, event: Event)
    requires links { waits.old.events ≡ links_of log.now.events }
    requires log { IsWellFormed roots log.now.events }
    requires fits { CanNote roots log.now.events event }
    requires spare { 0 < waits.old.reserved }
    ensures links { waits.new.events ≡ links_of (log.now.events ++ event ∷ []) }
    ensures spare { waits.old.reserved ≤ waits.new.reserved + 1 }
{
    if let Some(link) = link_of(event) {
        add_link(waits, link);
    }
}

/// Adds a task or a wait.
fn add_link(waits: &mut Waits, link: Link)
    requires fits { CanLink waits.old.events link }
    requires spare { 0 < waits.old.reserved }
    ensures links { waits.new.events ≡ waits.old.events ++ link ∷ [] }
    ensures spare { waits.old.reserved ≤ waits.new.reserved + 1 }
{
    match link {
        Link::Root(task, priority) => {
            let Ok(()) = waits.add_root(task, priority) else {
                unreachable!()
            };
        }
        Link::Child {
            task,
            parent: owner,
            own: priority,
        } => {
            let Ok(()) = waits.add_child(task, owner, priority) else {
                unreachable!()
            };
        }
        Link::Free(task, priority) => {
            let Ok(()) = waits.add_free(task, priority) else {
                unreachable!()
            };
        }
        Link::Wait(waiter, awaited) => {
            let Ok(()) = waits.wait(waiter, awaited) else {
                unreachable!()
            };
        }
    }
}
