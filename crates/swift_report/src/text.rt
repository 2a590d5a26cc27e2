//! The text of a report.

ghost use Rattle.std.specs.Prelude.{◌≡◌, ℤ, ◌<◌, ◌++◌, map, IfOk, OnOk};
ghost use Rattle.swift_report.specs.Text.{journals_text, origin_text, task_name, task_text, tasks_text, field_text, number_of, row_among, row_of, values_text, fields_text, report_text};
ghost use Rattle.swift_script.specs.Scripts.{actor_count};

use crate::append::number;
use crate::names::{actor_name, field_name, root_name};
use crate::report::Report;
use crate::turns::executors;
use crate::word;
use std::alloc::{AllocError, Global};
use swift_events::Origin;
use swift_script::Script;
use swift_types::{ActorId, Ending, TaskId};

/// The text of a report on a script (the format is our own), as the bytes that are written: the journals unless it
/// is `quiet`, the tasks, and the fields. All of it is ASCII where the names of the script are.
///
/// A line for each executor, turn, task and field, each ended by a line feed. Of turns that were folded only the number
/// is told, in a line of its own. A name that the script lacks is left empty. Linear in the report.
///
/// # Errors
///
/// `AllocError` where no memory is left for the text.
pub fn report_text(
    alloc: Global,
    script: &Script,
    report: &Report,
    quiet: bool,
) -> Result<Vec<u8>, AllocError>
    ensures { IfOk result (λ t. t.items ≡ report_text script.now report.now quiet) }
{
    let mut out = Vec::new(alloc);
    journals(&mut out, script, report, quiet)?;
    out.extend_from_slice(b"tasks\n")?;
    tasks(&mut out, script, &report.endings)?;
    out.extend_from_slice(b"fields\n")?;
    fields(&mut out, script, &report.fields)?;
    Ok(out)
}

fn journals(
    out: &mut Vec<u8>,
    script: &Script,
    report: &Report,
    quiet: bool,
) -> Result<(), AllocError>
    ensures { OnOk result (out.new.items ≡ out.old.items ++ journals_text script.now quiet report.now.checkpoints.items report.now.journals.items) }
{
    if quiet {
        return Ok(());
    }
    out.extend_from_slice(b"journals\n")?;
    executors(out, script, &report.checkpoints, &report.journals)
}

// A task, by its number.
fn task_name(out: &mut Vec<u8>, task: TaskId) -> Result<(), AllocError>
    ensures { OnOk result (out.new.items ≡ out.old.items ++ task_name task) }
{
    out.extend_from_slice(b"t")?;
    number(out, task.0)
}

// Where the task of this number comes from.
fn origin(
    out: &mut Vec<u8>,
    script: &Script,
    number_of: usize,
    origin: Origin,
) -> Result<(), AllocError>
    ensures { OnOk result (out.new.items ≡ out.old.items ++ origin_text script.now number_of origin) }
{
    match origin {
        Origin::Root => {
            out.extend_from_slice(b"root ")?;
            out.extend_from_slice(root_name(script, number_of))
        }
        Origin::Child(owner, _) => {
            out.extend_from_slice(b"child ")?;
            task_name(out, owner)
        }
        Origin::Spawned(by) => {
            out.extend_from_slice(b"spawned ")?;
            task_name(out, by)
        }
        Origin::Detached(by) => {
            out.extend_from_slice(b"detached ")?;
            task_name(out, by)
        }
    }
}

fn task(
    out: &mut Vec<u8>,
    script: &Script,
    number_of: usize,
    ended: (Origin, Ending),
) -> Result<(), AllocError>
    ensures { OnOk result (out.new.items ≡ out.old.items ++ task_text script.now number_of ended) }
{
    let (comes_from, ending) = ended;
    out.extend_from_slice(b"t")?;
    number(out, number_of)?;
    out.extend_from_slice(b" ")?;
    origin(out, script, number_of, comes_from)?;
    out.extend_from_slice(b" ")?;
    word::ending(out, ending)?;
    out.extend_from_slice(b"\n")
}

fn tasks(out: &mut Vec<u8>, script: &Script, endings: &[(Origin, Ending)]) -> Result<(), AllocError>
    ensures { OnOk result (out.new.items ≡ out.old.items ++ tasks_text script.now 0 endings.now) }
{
    for (number_of, ended) in endings.iter().enumerate() {
        task(out, script, number_of, *ended)?;
    }
    Ok(())
}

fn field(
    out: &mut Vec<u8>,
    script: &Script,
    actor: usize,
    field: usize,
    value: i64,
) -> Result<(), AllocError>
    ensures { OnOk result (out.new.items ≡ out.old.items ++ field_text script.now actor field value) }
{
    out.extend_from_slice(actor_name(script, actor))?;
    out.extend_from_slice(b".")?;
    out.extend_from_slice(field_name(script, actor, field))?;
    out.extend_from_slice(b" ")?;
    number(out, value)?;
    out.extend_from_slice(b"\n")
}

// The fields of one actor.
fn values(
    out: &mut Vec<u8>,
    script: &Script,
    actor: usize,
    values: &[i64],
) -> Result<(), AllocError>
    ensures { OnOk result (out.new.items ≡ out.old.items ++ values_text script.now actor 0 values.now) }
{
    for (place, value) in values.iter().enumerate() {
        field(out, script, actor, place, *value)?;
    }
    Ok(())
}

// The fields of an actor, among those of the actors of its executor.
fn row_among<'a>(actors: &[ActorId], rows: &'a [Vec<i64>], actor: ActorId) -> &'a [i64]
    ensures { result.now ≡ row_among (map number_of actors.now) rows.now actor.0 }
{
    let [first, others @ ..] = actors else {
        return &[];
    };
    let [row, rest @ ..] = rows else {
        return &[];
    };
    if *first == actor {
        return row;
    }
    row_among(others, rest, actor)
}

/// The fields of an actor, where those of the actors of each executor are given.
pub(crate) fn row_of<'a>(script: &Script, fields: &'a [Vec<Vec<i64>>], actor: ActorId) -> &'a [i64]
    requires { actor.0 < actor_count script.now }
    ensures { result.now ≡ row_of script.now fields.now actor.0 }
{
    let executor = script.actor_executor(actor);
    match fields.get(executor.0 as usize) {
        Some(rows) => row_among(script.executor_actors(executor), rows, actor),
        None => &[],
    }
}

fn fields(out: &mut Vec<u8>, script: &Script, fields: &[Vec<Vec<i64>>]) -> Result<(), AllocError>
    ensures { OnOk result (out.new.items ≡ out.old.items ++ fields_text script.now fields.now 0 (actor_count script.now)) }
{
    script.facts();
    for actor in 0..script.actor_count() {
        values(
            out,
            script,
            actor,
            row_of(script, fields, ActorId(actor as u32)),
        )?;
    }
    Ok(())
}
