//! What a turn did with groups, and whom it cancelled.

ghost use Rattle.std.specs.Prelude.{◌≡◌};
ghost use Rattle.run_pictures.specs.GivingWay.{begins_block};

use crate::picture::picture_text::PictureText;
use swift_events::Event;
use swift_log::EventLog;

/// Whether an event begins a block of the log.
pub(crate) fn begins_block(event: &Event) -> bool
    ensures { result ≡ begins_block event.now }
{
    matches!(
        event,
        Event::Root(_, _) | Event::Begin { .. } | Event::Apply(_, _)
    )
}

// What an event is called, and the number that it has. None for one that lines and exits tell.
fn mark_of(event: &Event) -> Option<(&'static str, usize)> {
    match *event {
        Event::Open(_, group) => Some(("opens group ", group as usize)),
        Event::Skip(_, group) => Some(("skips in group ", group as usize)),
        Event::CancelGroup(_, group) => Some(("cancels group ", group as usize)),
        Event::CancelTask(task) => Some(("cancels t", task.0 as usize)),
        _ => None,
    }
}

/// What the turn did that was applied at this place of the log, in the order of the log, each in a line. Linear in that.
pub(crate) fn write_marks(out: &mut PictureText, log: &EventLog, end: usize) {
    for place in end.saturating_add(1)..log.len() {
        let event = log.event(place);
        if begins_block(&event) {
            return;
        }
        if let Some((word, number)) = mark_of(&event) {
            out.fill_with("@$\n", word, &[number]);
        }
    }
}
