//! The log.

ghost use Rattle.std.specs.Prelude.{◌≡◌, ◌++◌, OnOk, codes, decimal};
ghost use Rattle.swift_events.specs.Events.{task_of};
ghost use Rattle.run_page.specs.RunJson.{comma, event_json, event_word, events_json, other_of};

use crate::append::{comma, labelled, say};
use std::alloc::AllocError;
use swift_events::Event;
use swift_log::EventLog;

// What an event is called.
fn event_word(event: Event) -> &'static [u8]
    ensures { result.now ≡ event_word event }
{
    match event {
        Event::Root(_, _) => b"[\"root\",",
        Event::Begin { .. } => b"[\"begin\",",
        Event::Apply(_, _) => b"[\"apply\",",
        Event::Free { .. } => b"[\"free\",",
        Event::Open(_, _) => b"[\"open\",",
        Event::Child { .. } => b"[\"child\",",
        Event::Skip(_, _) => b"[\"skip\",",
        Event::CancelTask(_) => b"[\"cancel task\",",
        Event::CancelGroup(_, _) => b"[\"cancel group\",",
        Event::Wait(_, _) => b"[\"wait\",",
        Event::Next(_, _) => b"[\"next\",",
        Event::Close(_, _) => b"[\"close\",",
        Event::End(_, _) => b"[\"end\",",
        Event::Give { .. } => b"[\"give\",",
    }
}

// The second number of an event: that of a turn, of a group, or of the other task; 0 where it has none.
fn other_of(event: Event) -> u32
    ensures { result ≡ other_of event }
{
    match event {
        Event::Begin { turn, .. } | Event::Give { turn, .. } => turn,
        Event::Apply(_, number)
        | Event::Open(_, number)
        | Event::Skip(_, number)
        | Event::CancelGroup(_, number)
        | Event::Next(_, number)
        | Event::Close(_, number) => number,
        Event::Free { maker: other, .. } | Event::Child { owner: other, .. } => other.0,
        Event::Wait(_, other) => other.0,
        Event::Root(_, _) | Event::CancelTask(_) | Event::End(_, _) => 0,
    }
}

// The event at a place of the log.
fn event(out: &mut Vec<u8>, place: usize, event: Event) -> Result<(), AllocError>
    ensures { OnOk result (out.new.items ≡ out.old.items ++ event_json place event) }
{
    comma(out, place)?;
    labelled(out, event_word(event), event.task().0)?;
    labelled(out, b",", other_of(event))?;
    say(out, b"]")
}

/// The events of a log, in order.
pub(crate) fn events(out: &mut Vec<u8>, log: &EventLog) -> Result<(), AllocError>
    ensures { OnOk result (out.new.items ≡ out.old.items ++ events_json 0 log.now.events) }
{
    for place in 0..log.len() {
        event(out, place, log.event(place))?;
    }
    Ok(())
}
