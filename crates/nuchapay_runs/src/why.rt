//! What is told of one turn.

ghost use Rattle.std.specs.Prelude.{◌≡◌, ◌+◌, ◌<◌, ◌≤◌, [], length, flat_map, map, reverse, slice_get, slice_range, unwrap_or};
ghost use Rattle.script_code.specs.Seen.{pair_of, rows_of};
ghost use Rattle.swift_interpreter.specs.Frames.{frame_if};
ghost use Rattle.swift_journal.specs.Records.{owned_view};
ghost use Rattle.nuchapay_runs.specs.NamedInside.{names_view};
ghost use Rattle.nuchapay_runs.specs.SaysInside.{Says};
ghost use Rattle.run_pictures.specs.Values.{values_view, values_views};
ghost use Rattle.nuchapay_runs.specs.Why.{arrow_text, binding_text, bindings_text, blame_text, blamed_text, by_text, cancelled_text, changed_to, ends_text, field_line, fields_text, found_text, given_text, goes_on_text, is_change_at, kept_changes, left_by_text, meanwhile_text, name_note, other_text, row_text, undone_text, variable_line, variables_text, waiting_text};

use crate::formula::{NamesAt, write_variable};
use crate::notes::{write_broken, write_change_line, write_lines};
use crate::statement::write_statement;
use crate::text::Text;
use run_pictures::{Change, Outcome, TurnValues};
use script_code::{Binding, Instruction};
use std::alloc::Global;
use swift_events::Origin;
use swift_interpreter::Frame;
use swift_journal::{Journal, OwnedRecord};
use swift_script::Script;
use swift_types::{Ending, ExecId, LocalId, TaskId};

// Where a frame goes on, if it does.
fn write_goes_on(
    out: &mut Text,
    names: &NamesAt<'_>,
    instructions: &[Instruction],
    after: &Option<Frame>,
)
    ensures { Says out.old out.new (goes_on_text (names_view names.now) instructions.now (frame_if after.now)) }
{
    if let Some(after) = after {
        out.say(b"\n    goes on at ");
        write_statement(out, names, instructions, after.instruction as usize)
    }
}

/// Goes on with the statements at which a turn began, and at which its frame goes on, where it does.
pub(crate) fn write_ends(
    out: &mut Text,
    names: &NamesAt<'_>,
    instructions: &[Instruction],
    found: &OwnedRecord,
)
    ensures { Says out.old out.new (ends_text (names_view names.now) instructions.now (owned_view found.now)) }
{
    out.say(b"\n    began at ");
    write_statement(out, names, instructions, found.frame.instruction as usize);
    write_goes_on(out, names, instructions, &found.after)
}

fn cancelled_words(cancelled: bool) -> &'static [u8]
    ensures { result.now ≡ cancelled_text cancelled }
{
    if cancelled {
        b", cancelled\n"
    } else {
        b", not cancelled\n"
    }
}

// What a turn began with, and what it was given.
fn write_given(out: &mut Text, found: &OwnedRecord)
    ensures { Says out.old out.new (given_text (owned_view found.now)) }
{
    out.say(b"\nbegan with\n    ");
    out.resume(found.resume);
    out.say(b"\n    priority ");
    out.number(found.env.priority.number());
    out.say(cancelled_words(found.env.cancelled))
}

// The line of a variable.
fn write_variable_line(out: &mut Text, names: &NamesAt<'_>, variable: usize, value: i64)
    ensures { Says out.old out.new (variable_line (names_view names.now) variable value) }
{
    out.say(b"    ");
    write_variable(out, names, variable);
    out.say(b" ");
    out.number(value);
    out.say(b"\n")
}

// A line for each variable.
fn write_variables(out: &mut Text, names: &NamesAt<'_>, variables: &[i64])
    ensures { Says out.old out.new (variables_text (names_view names.now) 0 variables.now) }
{
    for (place, value) in variables.iter().enumerate() {
        write_variable_line(out, names, place, *value);
    }
}

fn write_binding(out: &mut Text, script: &Script, local: LocalId, value: i64)
    ensures { Says out.old out.new (binding_text script.now (local.0, value)) }
{
    out.say(b"    @");
    out.say(script.local_name(local));
    out.say(b" ");
    out.number(value);
    out.say(b"\n")
}

// A line for each binding that stood when the frame began, the outermost first.
fn write_outer(out: &mut Text, script: &Script, found: &OwnedRecord)
    ensures { Says out.old out.new (bindings_text script.now (reverse found.now.outer)) }
{
    for place in 0..found.outer.depth() {
        let (local, value) = found.outer.entry(place);
        write_binding(out, script, local, value);
    }
}

// A line for each binding of the frame.
fn write_own(out: &mut Text, script: &Script, own: &[Binding])
    ensures { Says out.old out.new (bindings_text script.now (map pair_of own.now)) }
{
    for binding in own {
        write_binding(out, script, binding.local, binding.value);
    }
}

/// Goes on with what a turn found: what it began with, its variables, and the bindings that stood.
pub(crate) fn write_found(out: &mut Text, names: &NamesAt<'_>, found: &OwnedRecord)
    ensures { Says out.old out.new (found_text (names_view names.now) (owned_view found.now)) }
{
    write_given(out, found);
    write_variables(out, names, &found.frame.variables);
    write_outer(out, names.script, found);
    write_own(out, names.script, &found.frame.own)
}

// The changes that stay.
fn kept_changes(values: &TurnValues) -> &[Change]
    ensures { result.now ≡ kept_changes (values_view values.now) }
{
    match values.outcome {
        Outcome::Kept => &values.changes,
        Outcome::Undone | Outcome::Broke(_) => &[],
    }
}

fn is_change_at(change: &Change, actor: usize, field: usize) -> bool
    ensures { result ≡ is_change_at change.now actor field }
{
    change.actor == actor && change.field == field
}

// The value that a field got, where a change is of it.
fn changed_to(changes: &[Change], actor: usize, field: usize) -> Option<i64>
    ensures { result ≡ changed_to changes.now actor field }
{
    for change in changes {
        if is_change_at(change, actor, field) {
            return Some(change.after);
        }
    }
    None
}

// The new value of a field, where it has one.
fn write_arrow(out: &mut Text, after: Option<i64>)
    ensures { Says out.old out.new (arrow_text after) }
{
    if let Some(after) = after {
        out.say(b" -> ");
        out.number(after)
    }
}

// The line of a field, with its new value where it has one.
fn write_field_line(
    out: &mut Text,
    script: &Script,
    executor: ExecId,
    actor: usize,
    field: usize,
    value: i64,
    after: Option<i64>,
)
    ensures { Says out.old out.new (field_line script.now executor.0 actor field value after) }
{
    out.say(b"    ");
    out.place(script, executor, actor, field);
    out.say(b" ");
    out.number(value);
    write_arrow(out, after);
    out.say(b"\n")
}

// A line for each field of an actor, with what these changes make of it.
fn write_row(
    out: &mut Text,
    script: &Script,
    executor: ExecId,
    actor: usize,
    changes: &[Change],
    row: &[i64],
)
    ensures { Says out.old out.new (row_text script.now executor.0 actor changes.now 0 row.now) }
{
    for (field, value) in row.iter().enumerate() {
        let after = changed_to(changes, actor, field);
        write_field_line(out, script, executor, actor, field, *value, after);
    }
}

// The line of a change of another actor's field.
fn write_other(out: &mut Text, script: &Script, executor: ExecId, actor: usize, change: &Change)
    ensures { Says out.old out.new (other_text script.now executor.0 actor change.now) }
{
    if change.actor != actor {
        write_change_line(out, script, executor, b"", change)
    }
}

// A line for each change of another actor's field.
fn write_others(out: &mut Text, script: &Script, executor: ExecId, actor: usize, changes: &[Change])
    ensures { Says out.old out.new (flat_map (other_text script.now executor.0 actor) changes.now) }
{
    for change in changes {
        write_other(out, script, executor, actor, change);
    }
}

// What a turn would have left, where that is another thing than it found.
fn write_left_by(
    out: &mut Text,
    alloc: Global,
    script: &Script,
    executor: ExecId,
    before: &[Vec<i64>],
    values: &TurnValues,
)
    ensures { Says out.old out.new (left_by_text script.now executor.0 (rows_of before.now) values.now.changes.items values.now.outcome) }
{
    let changes: &[Change] = &values.changes;
    let [_first, _rest @ ..] = changes else {
        return;
    };
    out.say(b"would have left\n");
    write_lines(out, script, executor, b"", &values.changes);
    write_broken(out, alloc, script, executor, before, values)
}

// What a turn that was undone would have left.
fn write_undone(
    out: &mut Text,
    alloc: Global,
    script: &Script,
    executor: ExecId,
    before: &[Vec<i64>],
    values: &TurnValues,
)
    ensures { Says out.old out.new (undone_text script.now executor.0 (rows_of before.now) values.now.changes.items values.now.outcome) }
{
    match values.outcome {
        Outcome::Kept => {}
        Outcome::Undone | Outcome::Broke(_) => {
            write_left_by(out, alloc, script, executor, before, values)
        }
    }
}

// The fields of an actor among these; none where it is not there.
fn row_at(fields: &[Vec<i64>], actor: usize) -> &[i64]
    ensures { result.now ≡ unwrap_or (slice_get (rows_of fields.now) actor) [] }
{
    match fields.get(actor) {
        Some(row) => row,
        None => &[],
    }
}

/// Goes on with the fields of a turn's actor, which stands at this place of its executor, from before the turn, and with what the turn made
/// of them and of others; of one that was undone, with what it would have left.
pub(crate) fn write_fields(
    out: &mut Text,
    alloc: Global,
    script: &Script,
    executor: ExecId,
    actor: usize,
    before: &[Vec<i64>],
    values: &TurnValues,
)
    ensures { Says out.old out.new (fields_text script.now executor.0 actor (rows_of before.now) (values_view values.now)) }
{
    let kept = kept_changes(values);
    out.say(b"fields\n");
    write_row(out, script, executor, actor, kept, row_at(before, actor));
    write_others(out, script, executor, actor, kept);
    write_undone(out, alloc, script, executor, before, values)
}

// A turn that made changes while a task was waiting, of a run whose tasks come from there.
#[derive(Clone, Copy)]
struct TurnBetween<'a> {
    endings: &'a [(Origin, Ending)],
    waiting: TaskId,
    task: TaskId,
    number: u32,
}

/// Goes on with the name of a task, after its number.
pub(crate) fn write_name_note(
    out: &mut Text,
    script: &Script,
    endings: &[(Origin, Ending)],
    task: TaskId,
)
    ensures { Says out.old out.new (name_note script.now endings.now task.0) }
{
    out.say(b" (");
    out.task(script, endings, task);
    out.say(b")")
}

// Which turn made a change.
fn write_by(out: &mut Text, script: &Script, between: TurnBetween<'_>)
    ensures { Says out.old out.new (by_text script.now between.entry.endings.now between.entry.task.0 between.entry.number) }
{
    out.say(b" by t");
    out.number(between.task.0);
    out.say(b".");
    out.number(between.number);
    write_name_note(out, script, between.endings, between.task);
    out.say(b"\n")
}

// Who was waiting.
fn write_waiting(out: &mut Text, script: &Script, between: TurnBetween<'_>)
    ensures { Says out.old out.new (waiting_text script.now between.entry.endings.now between.entry.waiting.0) }
{
    out.say(b"changed while t");
    out.number(between.waiting.0);
    write_name_note(out, script, between.endings, between.waiting);
    out.say(b" was waiting: ")
}

// A line for a change that a turn made while a task was waiting.
fn write_blamed(
    out: &mut Text,
    script: &Script,
    executor: ExecId,
    between: TurnBetween<'_>,
    change: &Change,
)
    ensures { Says out.old out.new (blame_text script.now between.entry.endings.now executor.0 between.entry.waiting.0 between.entry.task.0 between.entry.number change.now) }
{
    write_waiting(out, script, between);
    out.change(script, executor, change);
    write_by(out, script, between)
}

// This line for a change of the actor's field.
fn write_if_blamed(
    out: &mut Text,
    script: &Script,
    executor: ExecId,
    actor: usize,
    between: TurnBetween<'_>,
    change: &Change,
)
    ensures { Says out.old out.new (blamed_text script.now between.entry.endings.now executor.0 actor between.entry.waiting.0 between.entry.task.0 between.entry.number change.now) }
{
    if change.actor == actor {
        write_blamed(out, script, executor, between, change)
    }
}

// A line for each change of an actor's field that a turn made while a task was waiting.
fn write_changed(
    out: &mut Text,
    script: &Script,
    executor: ExecId,
    actor: usize,
    between: TurnBetween<'_>,
    changes: &[Change],
)
    ensures { Says out.old out.new (flat_map (blamed_text script.now between.entry.endings.now executor.0 actor between.entry.waiting.0 between.entry.task.0 between.entry.number) changes.now) }
{
    for change in changes {
        write_if_blamed(out, script, executor, actor, between, change);
    }
}

/// Goes on with a line for each change of an actor's field that the turns between two places of a journal made, while a task was waiting,
/// in a run whose tasks come from there.
pub(crate) fn write_meanwhile(
    out: &mut Text,
    script: &Script,
    executor: ExecId,
    actor: usize,
    endings: &[(Origin, Ending)],
    waiting: TaskId,
    journal: &Journal,
    values: &[TurnValues],
    from: usize,
    to: usize,
)
    requires turns { to ≤ length journal.now }
    requires values { to ≤ length values.now }
    ensures { Says out.old out.new (meanwhile_text script.now endings.now executor.0 actor waiting.0 (slice_range journal.now from to) (slice_range (values_views values.now) from to)) }
{
    for place in from..to {
        let between = TurnBetween {
            endings,
            waiting,
            task: journal.task(place),
            number: journal.number(place),
        };
        write_changed(
            out,
            script,
            executor,
            actor,
            between,
            kept_changes(&values[place]),
        );
    }
}
