//! How an event is stored.

ghost use Rattle.std.specs.Prelude.{◌≡◌, ◌<◌, IfSome, length, slice_index_or};
ghost use Rattle.std.specs.Option.{option_to_list};
ghost use Rattle.swift_events.specs.declared.event.Event.{Event};
ghost use Rattle.swift_log.specs.EntriesInside.{ending_of, entry_of, event_of, events_of, number_at, numbers_in, numbers_of, outcome_of, resume_of, width_of, Joins};

use swift_events::Event;
use swift_types::{Ending, Env, Fault, Priority, Resume, TaskId};

/// How a task ended, without the number that it may have ended with.
#[derive(Clone, Copy)]
pub(crate) enum EndingKind {
    /// With a value.
    Value,
    /// By a `throw`, which has a value.
    Thrown,
    /// By each of the other faults.
    Cancelled,
    Invariant,
    Overflow,
    Steps,
    Turns,
    Depth,
    Tasks,
    Empty,
    Isolation,
}

/// An event as it is stored, or the events of one turn: in 16 bytes, since small fields come first, next to the tag. A number of
/// 64 bits stands in a list beside the entries, and the last field of `End` and `GiveAfter` is its place there.
#[derive(Clone, Copy)]
pub(crate) enum LogEntry {
    Root(Priority, TaskId),
    Begin(Priority, bool, TaskId, u32, u32),
    /// A turn that begins, and its apply.
    Turn(Priority, bool, TaskId, u32, u32),
    /// A turn that begins, its apply, and the job of the next turn, which goes on without an answer.
    Yield(Priority, bool, TaskId, u32, u32),
    Apply(TaskId, u32),
    Free(Priority, bool, TaskId, TaskId),
    Open(TaskId, u32),
    Child(Priority, TaskId, TaskId, u32),
    Skip(TaskId, u32),
    CancelTask(TaskId),
    CancelGroup(TaskId, u32),
    Wait(TaskId, TaskId),
    Next(TaskId, u32),
    Close(TaskId, u32),
    End(EndingKind, TaskId, u32),
    /// A job that begins a task.
    GiveStart(TaskId, u32),
    /// A job that goes on without an answer.
    GiveGo(TaskId, u32),
    /// A job that goes on after something has ended so.
    GiveAfter(EndingKind, TaskId, u32, u32),
}

const _: () = prove!(size_of::<LogEntry>() == 16);

impl EndingKind {
    /// How a task ended.
    pub(crate) fn of(ending: Ending) -> EndingKind
        ensures { result ≡ outcome_of ending }
    {
        match ending {
            Ending::Value(_) => EndingKind::Value,
            Ending::Fault(Fault::Thrown(_)) => EndingKind::Thrown,
            Ending::Fault(Fault::Cancelled) => EndingKind::Cancelled,
            Ending::Fault(Fault::Invariant) => EndingKind::Invariant,
            Ending::Fault(Fault::Overflow) => EndingKind::Overflow,
            Ending::Fault(Fault::Steps) => EndingKind::Steps,
            Ending::Fault(Fault::Turns) => EndingKind::Turns,
            Ending::Fault(Fault::Depth) => EndingKind::Depth,
            Ending::Fault(Fault::Tasks) => EndingKind::Tasks,
            Ending::Fault(Fault::Empty) => EndingKind::Empty,
            Ending::Fault(Fault::Isolation) => EndingKind::Isolation,
        }
    }

    /// The ending, with this number where it has one.
    pub(crate) fn ending(self, number: i64) -> Ending
        ensures { result ≡ ending_of self number }
    {
        match self {
            EndingKind::Value => Ending::Value(number),
            EndingKind::Thrown => Ending::Fault(Fault::Thrown(number)),
            EndingKind::Cancelled => Ending::Fault(Fault::Cancelled),
            EndingKind::Invariant => Ending::Fault(Fault::Invariant),
            EndingKind::Overflow => Ending::Fault(Fault::Overflow),
            EndingKind::Steps => Ending::Fault(Fault::Steps),
            EndingKind::Turns => Ending::Fault(Fault::Turns),
            EndingKind::Depth => Ending::Fault(Fault::Depth),
            EndingKind::Tasks => Ending::Fault(Fault::Tasks),
            EndingKind::Empty => Ending::Fault(Fault::Empty),
            EndingKind::Isolation => Ending::Fault(Fault::Isolation),
        }
    }
}

/// What goes on after such an ending is resumed with it.
fn resume_of(ending: Ending) -> Resume
    ensures { result ≡ resume_of ending }
{
    match ending {
        Ending::Value(value) => Resume::Value(value),
        Ending::Fault(fault) => Resume::Fault(fault),
    }
}

/// The number at a place: 0 past the end.
fn number_at(numbers: &[i64], place: u32) -> i64
    ensures { result ≡ number_at numbers.now place }
{
    if (place as usize) < numbers.len() {
        numbers[place as usize]
    } else {
        0
    }
}

/// The number that an ending has.
fn number_in(ending: Ending) -> Option<i64>
    ensures { option_to_list result ≡ numbers_in ending }
{
    match ending {
        Ending::Value(value) => Some(value),
        Ending::Fault(Fault::Thrown(value)) => Some(value),
        Ending::Fault(_) => None,
    }
}

/// The number that an event says, and that its entry has no room for.
#[inline(always)]
pub(crate) fn number_of(event: Event) -> Option<i64>
    ensures { option_to_list result ≡ numbers_of event }
{
    match event {
        Event::End(_, ending) => number_in(ending),
        Event::Give {
            resume: Resume::Value(value),
            ..
        } => Some(value),
        Event::Give {
            resume: Resume::Fault(fault),
            ..
        } => number_in(Ending::Fault(fault)),
        _ => None,
    }
}

impl LogEntry {
    /// The entry of an event, whose number, if it has one, will stand at this place.
    #[inline(always)]
    pub(crate) fn of(event: Event, place: u32) -> LogEntry
        ensures { result ≡ entry_of event place }
    {
        match event {
            Event::Root(task, priority) => LogEntry::Root(priority, task),
            Event::Begin {
                task,
                turn: number,
                env,
            } => { LogEntry::Begin(env.priority, env.cancelled, task, number, env.room) }
            Event::Apply(task, number) => LogEntry::Apply(task, number),
            Event::Free {
                task,
                maker: by,
                priority,
                detached,
            } => LogEntry::Free(priority, detached, task, by),
            Event::Open(owner, group) => LogEntry::Open(owner, group),
            Event::Child {
                task,
                owner,
                group,
                priority,
            } => { LogEntry::Child(priority, task, owner, group) }
            Event::Skip(owner, group) => LogEntry::Skip(owner, group),
            Event::CancelTask(task) => LogEntry::CancelTask(task),
            Event::CancelGroup(owner, group) => LogEntry::CancelGroup(owner, group),
            Event::Wait(task, awaited) => LogEntry::Wait(task, awaited),
            Event::Next(owner, group) => LogEntry::Next(owner, group),
            Event::Close(owner, group) => LogEntry::Close(owner, group),
            Event::End(task, ending) => LogEntry::End(EndingKind::of(ending), task, place),
            Event::Give {
                task,
                turn: number,
                resume: Resume::Start,
            } => LogEntry::GiveStart(task, number),
            Event::Give {
                task,
                turn: number,
                resume: Resume::Go,
            } => LogEntry::GiveGo(task, number),
            Event::Give {
                task,
                turn: number,
                resume: Resume::Value(_),
            } => { LogEntry::GiveAfter(EndingKind::Value, task, number, place) }
            Event::Give {
                task,
                turn: number,
                resume: Resume::Fault(fault),
            } => { LogEntry::GiveAfter(EndingKind::of(Ending::Fault(fault)), task, number, place) }
        }
    }

    /// The entry that stands for the events of this one and for one more: for an apply of the turn that has begun here, and then
    /// for the job of the turn after it that goes on without an answer.
    #[inline(always)]
    pub(crate) fn with(self, event: Event) -> Option<LogEntry>
        ensures { IfSome result (λ entry. Joins self event entry) }
    {
        match (self, event) {
            (LogEntry::Begin(priority, cancelled, task, number, room), Event::Apply(of, turn))
                if of == task && turn == number => {
                Some(LogEntry::Turn(priority, cancelled, task, number, room))
            }
            (
                LogEntry::Turn(priority, cancelled, task, number, room),
                Event::Give {
                    task: of,
                    turn,
                    resume: Resume::Go,
                },
            ) if of == task && turn == number.wrapping_add(1) => {
                Some(LogEntry::Yield(priority, cancelled, task, number, room))
            }
            _ => None,
        }
    }

    /// How many events the entry stands for: 1 to 3.
    pub(crate) fn width(self) -> usize
        ensures { result ≡ width_of self }
    {
        match self {
            LogEntry::Turn(..) => 2,
            LogEntry::Yield(..) => 3,
            _ => 1,
        }
    }

    /// The event at a place among those that the entry stands for, by the numbers that stand beside the entries.
    pub(crate) fn event_at(self, place: usize, numbers: &[i64]) -> Event
        requires { place < width_of self }
        ensures { (d : Event) → result ≡ slice_index_or (events_of numbers.now self) place d }
    {
        match (self, place) {
            (LogEntry::Turn(_, _, task, number, _), 1)
            | (LogEntry::Yield(_, _, task, number, _), 1) => Event::Apply(task, number),
            (LogEntry::Yield(_, _, task, number, _), 2) => Event::Give {
                task,
                turn: number.wrapping_add(1),
                resume: Resume::Go,
            },
            _ => self.event(numbers),
        }
    }

    /// The first event of an entry, by the numbers that stand beside the entries.
    fn event(self, numbers: &[i64]) -> Event
        ensures { result ≡ event_of numbers.now self }
    {
        match self {
            LogEntry::Root(priority, task) => Event::Root(task, priority),
            LogEntry::Begin(priority, cancelled, task, number, room)
            | LogEntry::Turn(priority, cancelled, task, number, room)
            | LogEntry::Yield(priority, cancelled, task, number, room) => {
                let env = Env {
                    priority,
                    cancelled,
                    room,
                };
                Event::Begin {
                    task,
                    turn: number,
                    env,
                }
            }
            LogEntry::Apply(task, number) => Event::Apply(task, number),
            LogEntry::Free(priority, detached, task, by) => {
                Event::Free {
                    task,
                    maker: by,
                    priority,
                    detached,
                }
            }
            LogEntry::Open(owner, group) => Event::Open(owner, group),
            LogEntry::Child(priority, task, owner, group) => {
                Event::Child {
                    task,
                    owner,
                    group,
                    priority,
                }
            }
            LogEntry::Skip(owner, group) => Event::Skip(owner, group),
            LogEntry::CancelTask(task) => Event::CancelTask(task),
            LogEntry::CancelGroup(owner, group) => Event::CancelGroup(owner, group),
            LogEntry::Wait(task, awaited) => Event::Wait(task, awaited),
            LogEntry::Next(owner, group) => Event::Next(owner, group),
            LogEntry::Close(owner, group) => Event::Close(owner, group),
            LogEntry::End(outcome, task, place) => {
                Event::End(task, outcome.ending(number_at(numbers, place)))
            }
            LogEntry::GiveStart(task, number) => Event::Give {
                task,
                turn: number,
                resume: Resume::Start,
            },
            LogEntry::GiveGo(task, number) => Event::Give {
                task,
                turn: number,
                resume: Resume::Go,
            },
            LogEntry::GiveAfter(outcome, task, number, place) => {
                let ending = outcome.ending(number_at(numbers, place));
                Event::Give {
                    task,
                    turn: number,
                    resume: resume_of(ending),
                }
            }
        }
    }
}
