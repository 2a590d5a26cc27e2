//! Which tasks are cancelled, read off the log.

ghost use Rattle.std.specs.Prelude.{◌≡◌, IsTrue, true};
ghost use Rattle.std.specs.List.{list_any};
ghost use Rattle.swift_events.specs.Relations.{is_cancelled};
ghost use Rattle.swift_explorer.specs.FlagsInside.{cancelled_below, names};

use swift_events::{Event, Origin};
use swift_log::EventLog;
use swift_tasks::Book;
use swift_types::TaskId;

// What a cancel names.
#[derive(Clone, Copy)]
pub(crate) enum Named {
    // A task.
    Task(TaskId),
    // The owner's group of this number.
    Group(TaskId, u32),
}

// Whether an event is a cancel that names it.
fn names(event: Event, named: Named) -> bool
    ensures { result ≡ names named event }
{
    match named {
        Named::Task(task) => match event {
            Event::CancelTask(other) => other.0 == task.0,
            _ => false,
        },
        Named::Group(owner, group) => match event {
            Event::CancelGroup(other, number) => other.0 == owner.0 && group == number,
            _ => false,
        },
    }
}

// Whether a cancel has named it.
fn was_named(log: &EventLog, named: Named) -> bool
    ensures { IsTrue result → list_any (names named) log.now.events ≡ true }
{
    for place in 0..log.len() {
        if names(log.event(place), named) {
            return true;
        }
    }
    false
}

// Whether a task is cancelled, as far as it and so many owners above it show.
fn is_cancelled_below(book: &Book, task: TaskId, owners: u32) -> bool
    ensures { IsTrue result → cancelled_below owners task.0 book.now.log ≡ true }
{
    if was_named(book.log(), Named::Task(task)) {
        return true;
    }
    let Some(Origin::Child(owner, group)) = book.origin(task) else {
        return false;
    };
    if was_named(book.log(), Named::Group(owner, group)) {
        return true;
    }
    if owners == 0 {
        return false;
    }
    is_cancelled_below(book, owner, owners - 1)
}

/// Whether a task is cancelled: a cancel has named it, or its group, or an owner above that (SE-0304). The log is read twice for each of these.
pub(crate) fn is_cancelled(book: &Book, task: TaskId) -> bool
    ensures { IsTrue result → is_cancelled task.0 book.now.log ≡ true }
{
    is_cancelled_below(book, task, task.0)
}
