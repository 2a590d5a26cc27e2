//! A report as JSON.

ghost use Rattle.std.specs.Prelude.{◌≡◌, ◌++◌, IfOk, OnOk};
ghost use Rattle.swift_report.specs.ReportJson.{actor_json, field_json, fields_json, journals_json, origin_json, report_json, task_json, tasks_json, values_json};
ghost use Rattle.swift_script.specs.Scripts.{actor_count};

use crate::json::append::{comma, labelled, say, say_three};
use crate::json::turns::executors;
use crate::json::word;
use crate::names::{actor_name, field_name, root_name};
use crate::report::Report;
use crate::text::row_of;
use std::alloc::{AllocError, Global};
use swift_events::Origin;
use swift_script::Script;
use swift_types::{ActorId, Ending};

/// A report on a script as JSON (the format is our own), as the bytes that are written: the journals unless it is `quiet`, the tasks,
/// and the fields. All of it is ASCII where the names of the script are. Names have no bytes that JSON would escape.
///
/// Of turns that were folded only the number is told. A name that the script lacks is left empty. Linear in the report.
///
/// # Errors
///
/// `AllocError` where no memory is left for the text.
pub fn report_json(
    alloc: Global,
    script: &Script,
    report: &Report,
    quiet: bool,
) -> Result<Vec<u8>, AllocError>
    ensures { IfOk result (λ t. t.items ≡ report_json script.now report.now quiet) }
{
    let mut out = Vec::new(alloc);
    members(&mut out, script, report, quiet)?;
    Ok(out)
}

// The members of a report. In a function of its own, so that nothing has to be let go where a growth is refused.
fn members(
    out: &mut Vec<u8>,
    script: &Script,
    report: &Report,
    quiet: bool,
) -> Result<(), AllocError>
    ensures { OnOk result (out.new.items ≡ out.old.items ++ report_json script.now report.now quiet) }
{
    say(out, b"{")?;
    journals(out, script, report, quiet)?;
    say(out, b"\"tasks\":[")?;
    tasks(out, script, &report.endings)?;
    say(out, b"],\n\"fields\":{")?;
    fields(out, script, &report.fields)?;
    say(out, b"}}\n")
}

fn journals(
    out: &mut Vec<u8>,
    script: &Script,
    report: &Report,
    quiet: bool,
) -> Result<(), AllocError>
    ensures { OnOk result (out.new.items ≡ out.old.items ++ journals_json script.now quiet report.now.checkpoints.items report.now.journals.items) }
{
    if quiet {
        return Ok(());
    }
    say(out, b"\"journals\":[")?;
    executors(out, script, &report.checkpoints, &report.journals)?;
    say(out, b"],\n")
}

// Where the task of this number comes from.
fn origin(
    out: &mut Vec<u8>,
    script: &Script,
    number_of: usize,
    origin: Origin,
) -> Result<(), AllocError>
    ensures { OnOk result (out.new.items ≡ out.old.items ++ origin_json script.now number_of origin) }
{
    match origin {
        Origin::Root => {
            let name = root_name(script, number_of);
            say_three(out, b"\"from\":\"root\",\"root\":\"", name, b"\"")
        }
        Origin::Child(owner, _) => labelled(out, b"\"from\":\"child\",\"by\":", owner.0),
        Origin::Spawned(by) => labelled(out, b"\"from\":\"spawned\",\"by\":", by.0),
        Origin::Detached(by) => labelled(out, b"\"from\":\"detached\",\"by\":", by.0),
    }
}

fn task(
    out: &mut Vec<u8>,
    script: &Script,
    number_of: usize,
    ended: (Origin, Ending),
) -> Result<(), AllocError>
    ensures { OnOk result (out.new.items ≡ out.old.items ++ task_json script.now number_of ended) }
{
    let (comes_from, ending) = ended;
    comma(out, 0, number_of)?;
    labelled(out, b"\n{\"task\":", number_of)?;
    say(out, b",")?;
    origin(out, script, number_of, comes_from)?;
    say(out, b",\"ending\":")?;
    word::ending(out, ending)?;
    say(out, b"}")
}

fn tasks(out: &mut Vec<u8>, script: &Script, endings: &[(Origin, Ending)]) -> Result<(), AllocError>
    ensures { OnOk result (out.new.items ≡ out.old.items ++ tasks_json script.now 0 endings.now) }
{
    for (number_of, ended) in endings.iter().enumerate() {
        task(out, script, number_of, *ended)?;
    }
    Ok(())
}

fn field(
    out: &mut Vec<u8>,
    script: &Script,
    actor: usize,
    field: usize,
    value: i64,
) -> Result<(), AllocError>
    ensures { OnOk result (out.new.items ≡ out.old.items ++ field_json script.now actor field value) }
{
    comma(out, 0, field)?;
    say(out, b"\"")?;
    say(out, field_name(script, actor, field))?;
    labelled(out, b"\":", value)
}

// The fields of one actor.
fn values(
    out: &mut Vec<u8>,
    script: &Script,
    actor: usize,
    values: &[i64],
) -> Result<(), AllocError>
    ensures { OnOk result (out.new.items ≡ out.old.items ++ values_json script.now actor 0 values.now) }
{
    for (place, value) in values.iter().enumerate() {
        field(out, script, actor, place, *value)?;
    }
    Ok(())
}

// An actor with its fields.
fn actor_fields(
    out: &mut Vec<u8>,
    script: &Script,
    actor: usize,
    row: &[i64],
) -> Result<(), AllocError>
    ensures { OnOk result (out.new.items ≡ out.old.items ++ actor_json script.now actor row.now) }
{
    comma(out, 0, actor)?;
    say_three(out, b"\n\"", actor_name(script, actor), b"\":{")?;
    values(out, script, actor, row)?;
    say(out, b"}")
}

fn fields(out: &mut Vec<u8>, script: &Script, fields: &[Vec<Vec<i64>>]) -> Result<(), AllocError>
    ensures { OnOk result (out.new.items ≡ out.old.items ++ fields_json script.now fields.now 0 (actor_count script.now)) }
{
    script.facts();
    for actor in 0..script.actor_count() {
        let row = row_of(script, fields, ActorId(actor as u32));
        actor_fields(out, script, actor, row)?;
    }
    Ok(())
}
