//! What is said of one turn in a report.

ghost use Rattle.std.specs.Prelude.{◌≡◌, ◌++◌, OnOk};
ghost use Rattle.script_code.specs.Seen.{rows_of};
ghost use Rattle.nuchapay_runs.specs.False.{false_lines, false_text};
ghost use Rattle.nuchapay_runs.specs.Noted.{broken_lines, called_text, first_lines, front_of, notes_text};
ghost use Rattle.nuchapay_runs.specs.Notes.{actor_at as actor_among, change_lines, change_text, note_line, note_lines, place_text};
ghost use Rattle.nuchapay_runs.specs.OwnedInside.{owned_if, owned_of};
ghost use Rattle.nuchapay_runs.specs.SaysInside.{Says};
ghost use Rattle.run_pictures.specs.Values.{values_view};

use crate::invariants::{OwnedInvariant, invariant_among, write_false};
use crate::number::number;
use crate::text::Text;
use run_pictures::{Change, Outcome, TurnValues};
use std::alloc::{AllocError, Global};
use swift_events::Origin;
use swift_script::Script;
use swift_types::{ActorId, Ending, ExecId, TaskId};

/// The actor at a place of an executor; the first one where there is none.
pub(crate) fn actor_at(script: &Script, executor: ExecId, place: usize) -> ActorId
    ensures { result.0 ≡ actor_among script.now executor.0 place }
{
    match script.executor_actors(executor).get(place) {
        Some(actor) => *actor,
        None => ActorId(0),
    }
}

/// Appends a field by its names, that of its actor first: `Account.balance`.
pub(crate) fn write_place(
    out: &mut Vec<u8>,
    script: &Script,
    executor: ExecId,
    actor: usize,
    field: usize,
) -> Result<(), AllocError>
    ensures { OnOk result (out.new.items ≡ out.old.items ++ place_text script.now executor.0 actor field) }
{
    let actor = actor_at(script, executor, actor);
    out.extend_from_slice(script.actor_name(actor))?;
    out.extend_from_slice(b".")?;
    out.extend_from_slice(script.field_name(actor, field))
}

/// Appends a changed field with its values before and after, without a line feed: `Account.balance 10 -> 0` (our own).
///
/// # Errors
///
/// `AllocError` where there is no memory for it.
pub fn write_change(
    out: &mut Vec<u8>,
    script: &Script,
    executor: ExecId,
    change: &Change,
) -> Result<(), AllocError>
    ensures { OnOk result (out.new.items ≡ out.old.items ++ change_text script.now executor.0 change.now) }
{
    write_place(out, script, executor, change.actor, change.field)?;
    out.extend_from_slice(b" ")?;
    number(out, change.before)?;
    out.extend_from_slice(b" -> ")?;
    number(out, change.after)
}

// A change after these words.
fn write_fronted(out: &mut Text, script: &Script, executor: ExecId, front: &[u8], change: &Change)
    ensures { Says out.old out.new (front.now ++ change_text script.now executor.0 change.now) }
{
    out.say(front);
    out.change(script, executor, change)
}

/// Goes on with the line of a change, which says so much in front.
pub(crate) fn write_change_line(
    out: &mut Text,
    script: &Script,
    executor: ExecId,
    front: &[u8],
    change: &Change,
)
    ensures { Says out.old out.new (note_line (front.now ++ change_text script.now executor.0 change.now)) }
{
    out.say(b"    ");
    write_fronted(out, script, executor, front, change);
    out.say(b"\n")
}

/// Goes on with a line for each of these changes, which says so much in front.
pub(crate) fn write_lines(
    out: &mut Text,
    script: &Script,
    executor: ExecId,
    front: &[u8],
    changes: &[Change],
)
    ensures { Says out.old out.new (note_lines (change_lines script.now executor.0 front.now changes.now)) }
{
    for change in changes {
        write_change_line(out, script, executor, front, change);
    }
}

// Goes on with the line of an invariant that a turn would have left false.
fn write_false_note(
    out: &mut Text,
    alloc: Global,
    script: &Script,
    executor: ExecId,
    before: &[Vec<i64>],
    changes: &[Change],
    invariant: OwnedInvariant<'_>,
)
    ensures { Says out.old out.new (note_line (false_text script.now executor.0 changes.now (rows_of before.now) (owned_of invariant.entry))) }
{
    out.say(b"    ");
    write_false(out, alloc, script, executor, changes, before, invariant);
    out.say(b"\n")
}

// Goes on with a line that says which invariant a turn would have left false, where there is one.
#[tactic(auto, using(crate::proofs::Joined::one_line))]
fn write_false_line(
    out: &mut Text,
    alloc: Global,
    script: &Script,
    executor: ExecId,
    before: &[Vec<i64>],
    changes: &[Change],
    invariant: Option<OwnedInvariant<'_>>,
)
    ensures { Says out.old out.new (note_lines (false_lines script.now executor.0 changes.now (rows_of before.now) (owned_if invariant.entry))) }
{
    if let Some(invariant) = invariant {
        write_false_note(out, alloc, script, executor, before, changes, invariant)
    }
}

/// Goes on with a line that says which invariant a turn would have left false, if it is one, where these are the fields from before it.
pub(crate) fn write_broken(
    out: &mut Text,
    alloc: Global,
    script: &Script,
    executor: ExecId,
    before: &[Vec<i64>],
    turn: &TurnValues,
)
    ensures { Says out.old out.new (note_lines (broken_lines script.now executor.0 turn.now.changes.items (rows_of before.now) turn.now.outcome)) }
{
    if let Outcome::Broke(place) = turn.outcome {
        let invariant = invariant_among(script, script.executor_actors(executor), place);
        write_false_line(
            out,
            alloc,
            script,
            executor,
            before,
            &turn.changes,
            invariant,
        )
    }
}

// What stands before a change.
fn front_of(outcome: Outcome) -> &'static [u8]
    ensures { result.now ≡ front_of outcome }
{
    match outcome {
        Outcome::Kept => b"",
        Outcome::Undone | Outcome::Broke(_) => b"would have left ",
    }
}

/// Goes on with what is said below the line of a turn: which fields it changed; of one that was undone, what it would have left, and which
/// invariant is false there. The fields are those from before it.
pub(crate) fn write_notes(
    out: &mut Text,
    alloc: Global,
    script: &Script,
    executor: ExecId,
    before: &[Vec<i64>],
    turn: &TurnValues,
)
    ensures { Says out.old out.new (notes_text script.now executor.0 (rows_of before.now) (values_view turn.now)) }
{
    write_lines(out, script, executor, front_of(turn.outcome), &turn.changes);
    write_broken(out, alloc, script, executor, before, turn)
}

// Goes on with the line of what a task is called.
fn write_called(out: &mut Text, script: &Script, endings: &[(Origin, Ending)], task: TaskId)
    ensures { Says out.old out.new (note_line (called_text script.now endings.now task.0)) }
{
    out.say(b"    ");
    out.called(script, endings, task);
    out.say(b"\n")
}

/// Goes on with what is said of the task of a turn with this number: at its first turn what the task is called.
#[tactic(auto, using(crate::proofs::Joined::one_line))]
pub(crate) fn write_first(
    out: &mut Text,
    script: &Script,
    endings: &[(Origin, Ending)],
    task: TaskId,
    number: u32,
)
    ensures { Says out.old out.new (note_lines (first_lines script.now endings.now task.0 number)) }
{
    if number == 0 {
        write_called(out, script, endings, task)
    }
}
