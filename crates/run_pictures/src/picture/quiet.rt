//! Which turns only give way.

ghost use Rattle.std.specs.Prelude.{◌≡◌, ◌+◌, drop, length, IfOk};
ghost use Rattle.run_pictures.specs.GivingWay.{gives_way, goes_on, has_none, is_go, is_same_env, is_yield, only_goes_on};

use crate::picture::Picture;
use crate::picture::boxes::TurnBox;
use crate::picture::marks::begins_block;
use crate::{Change, TurnValues};
use std::alloc::{AllocError, Global};
use swift_events::Event;
use swift_journal::BriefExit;
use swift_log::EventLog;
use swift_types::{Env, Resume, TaskId};

// Whether a turn went on by itself.
fn is_go(resume: Resume) -> bool
    ensures { result ≡ is_go resume }
{
    match resume {
        Resume::Go => true,
        _ => false,
    }
}

// Whether a turn gave way.
fn is_yield(exit: BriefExit) -> bool
    ensures { result ≡ is_yield exit }
{
    match exit {
        BriefExit::Yield => true,
        _ => false,
    }
}

// Whether two turns were given the same priority, and were both cancelled or both not.
fn is_same_env(one: Env, two: Env) -> bool
    ensures { result ≡ is_same_env one two }
{
    if one.priority.number() != two.priority.number() {
        return false;
    }
    if one.cancelled {
        two.cancelled
    } else {
        !two.cancelled
    }
}

// Whether nothing was changed.
fn has_none(changes: &[Change]) -> bool
    ensures { result ≡ has_none changes.now }
{
    match changes {
        [] => true,
        _ => false,
    }
}

// Whether an event makes the next job of this task.
fn goes_on(task: TaskId, event: &Event) -> bool
    ensures { result ≡ goes_on task.0 event.now }
{
    match *event {
        Event::Give { task: of, .. } => of.0 == task.0,
        _ => false,
    }
}

// Whether the events from this place of the log on, up to the next block, make jobs of this task alone. Linear in these.
fn only_goes_on(task: TaskId, log: &EventLog, from: usize) -> bool
    ensures { result ≡ only_goes_on task.0 (drop from log.now.events) }
{
    for place in from..log.len() {
        let event = log.event(place);
        if begins_block(&event) {
            return true;
        }
        if !goes_on(task, &event) {
            return false;
        }
    }
    true
}

/// Whether a turn only gives way: it was given what its task's turn before was, changed no field and did nothing else. `from` is the place
/// in the log after its end.
pub fn gives_way(
    turn: &TurnBox,
    before: &TurnBox,
    changes: &[Change],
    log: &EventLog,
    from: usize,
) -> bool
    ensures { result ≡ gives_way turn.now before.now changes.now (drop from log.now.events) }
{
    is_go(turn.resume)
        && is_yield(turn.exit)
        && is_same_env(before.env, turn.env)
        && has_none(changes)
        && only_goes_on(turn.task, log, from)
}

// What the turn of a box did to the fields; none where that is not known.
fn changes_at<'a>(
    values: &'a [Vec<TurnValues>],
    turn: &TurnBox,
    at: usize,
) -> Option<&'a [Change]> {
    let of_executor = values.get(turn.executor)?;
    let done = of_executor.get(at)?;
    Some(&done.changes)
}

// Whether the turn of the box at a place only gives way. It is the turn at place `at` of its journal.
fn is_quiet(
    picture: &Picture,
    values: &[Vec<TurnValues>],
    log: &EventLog,
    place: usize,
    at: usize,
) -> bool {
    let Some((turn, placed)) = picture.at(place) else {
        return false;
    };
    let Some(changes) = changes_at(values, turn, at) else {
        return false;
    };
    let before = match placed.before {
        Some(before) => picture.boxes.get(before),
        None => None,
    };
    match before {
        Some(before) => gives_way(
            turn,
            before,
            changes,
            log,
            placed.moment.end.saturating_add(1),
        ),
        None => false,
    }
}

/// Which turns only give way, in the order in which they began, by what each turn of each executor did to the fields. In time linear in
/// the picture and the log. An `Err` says that a growth was refused.
pub(crate) fn quiet_turns(
    alloc: Global,
    picture: &Picture,
    values: &[Vec<TurnValues>],
    log: &EventLog,
) -> Result<Vec<bool>, AllocError>
    ensures { IfOk result (λ quiet. length quiet.items ≡ length picture.now.boxes.items) }
{
    let mut quiet = vec![in alloc; false; picture.boxes.len()]?;
    let mut executor = 0_usize;
    let mut first = 0_usize;
    for (place, (turn, placed)) in picture.boxes.iter().zip(&picture.placed).enumerate() {
        if turn.executor != executor {
            executor = turn.executor;
            first = place;
        }
        if placed.moment.column < quiet.len() {
            quiet[placed.moment.column] = is_quiet(
                picture,
                values,
                log,
                place,
                place.saturating_sub(first),
            );
        }
    }
    Ok(quiet)
}
