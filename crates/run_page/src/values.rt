//! What turns did to the fields.

ghost use Rattle.std.specs.Prelude.{◌≡◌, ◌<◌, ◌^◌, ◌++◌, OnOk, codes};
ghost use Rattle.swift_script.specs.Scripts.{executor_count};
ghost use Rattle.nuchapay_runs.specs.Notes.{change_text};
ghost use Rattle.run_pictures.specs.Values.{values_view, values_views};
ghost use Rattle.run_page.specs.RunJson.{all_values_json, change_json, changes_json, comma, executor_json, listed_json, outcome_word, turn_json, turns_json};

use crate::append::{comma, say};
use nuchapay_runs::write_change;
use run_pictures::{Change, Outcome, TurnValues, turn_values};
use std::alloc::{AllocError, Global};
use swift_report::Report;
use swift_script::Script;
use swift_types::ExecId;

// What became of a turn.
fn outcome_word(outcome: Outcome) -> &'static [u8]
    ensures { result.now ≡ outcome_word outcome }
{
    match outcome {
        Outcome::Kept => b"[\"kept\"",
        Outcome::Undone => b"[\"undone\"",
        Outcome::Broke(_) => b"[\"broke\"",
    }
}

fn change(
    out: &mut Vec<u8>,
    script: &Script,
    executor: ExecId,
    change: &Change,
) -> Result<(), AllocError>
    ensures { OnOk result (out.new.items ≡ out.old.items ++ change_json script.now executor.0 change.now) }
{
    say(out, b",\"")?;
    write_change(out, script, executor, change)?;
    say(out, b"\"")
}

fn changes(
    out: &mut Vec<u8>,
    script: &Script,
    executor: ExecId,
    changes: &[Change],
) -> Result<(), AllocError>
    ensures { OnOk result (out.new.items ≡ out.old.items ++ changes_json script.now executor.0 changes.now) }
{
    for one in changes {
        change(out, script, executor, one)?;
    }
    Ok(())
}

// What the turn at a place of its journal did.
fn turn(
    out: &mut Vec<u8>,
    script: &Script,
    executor: ExecId,
    place: usize,
    values: &TurnValues,
) -> Result<(), AllocError>
    ensures { OnOk result (out.new.items ≡ out.old.items ++ turn_json script.now executor.0 place (values_view values.now)) }
{
    comma(out, place)?;
    say(out, outcome_word(values.outcome))?;
    changes(out, script, executor, &values.changes)?;
    say(out, b"]")
}

fn turns(
    out: &mut Vec<u8>,
    script: &Script,
    executor: ExecId,
    values: &[TurnValues],
) -> Result<(), AllocError>
    ensures { OnOk result (out.new.items ≡ out.old.items ++ turns_json script.now executor.0 0 (values_views values.now)) }
{
    for (place, one) in values.iter().enumerate() {
        turn(out, script, executor, place, one)?;
    }
    Ok(())
}

// What the turns of an executor's journal did; nothing where it has none.
fn executor(
    alloc: Global,
    out: &mut Vec<u8>,
    script: &Script,
    report: &Report,
    executor: ExecId,
) -> Result<(), AllocError>
    ensures { OnOk result (out.new.items ≡ out.old.items ++ executor_json script.now report.now executor.0) }
{
    let Some(checkpoint) = report.checkpoints.get(executor.0 as usize) else {
        return Ok(());
    };
    let Some(journal) = report.journals.get(executor.0 as usize) else {
        return Ok(());
    };
    let values = turn_values(alloc, script, checkpoint.fields(), journal)?;
    turns(out, script, executor, &values)
}

// The executor at a place of the list, with what its turns did.
fn listed(
    alloc: Global,
    out: &mut Vec<u8>,
    script: &Script,
    report: &Report,
    place: usize,
) -> Result<(), AllocError>
    requires { place < 2 ^ 32 }
    ensures { OnOk result (out.new.items ≡ out.old.items ++ listed_json script.now report.now place) }
{
    comma(out, place)?;
    say(out, b"[")?;
    executor(alloc, out, script, report, ExecId(place as u32))?;
    say(out, b"]")
}

/// What the turns of each executor's journal did to the fields. It costs to play each turn once more.
pub(crate) fn all_values(
    alloc: Global,
    out: &mut Vec<u8>,
    script: &Script,
    report: &Report,
) -> Result<(), AllocError>
    ensures { OnOk result (out.new.items ≡ out.old.items ++ all_values_json script.now report.now 0 (executor_count script.now)) }
{
    script.facts();
    for place in 0..script.executor_count() {
        listed(alloc, out, script, report, place)?;
    }
    Ok(())
}
