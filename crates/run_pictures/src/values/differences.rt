//! In which fields two lists of rows differ.

ghost use Rattle.std.specs.Prelude.{◌≡◌, ◌++◌, OnOk, false};
ghost use Rattle.script_code.specs.Seen.{rows_of};
ghost use Rattle.swift_interpreter.specs.Saved.{is_saved, restored};
ghost use Rattle.run_pictures.specs.Values.{difference, differences, row_differences};

use crate::values::change::Change;
use std::alloc::AllocError;
use swift_interpreter::SavedRows;

// Appends the difference of a field, if there is one.
fn add_difference(
    changes: &mut Vec<Change>,
    actor: usize,
    field: usize,
    before: i64,
    after: i64,
) -> Result<(), AllocError>
    ensures { OnOk result (changes.new.items ≡ changes.old.items ++ difference actor field before after) }
{
    if before == after {
        return Ok(());
    }
    changes.push(Change {
        actor,
        field,
        before,
        after,
    })?;
    Ok(())
}

// Appends the differences of an actor's fields.
fn add_row(
    changes: &mut Vec<Change>,
    actor: usize,
    before: &[i64],
    after: &[i64],
) -> Result<(), AllocError>
    ensures { OnOk result (changes.new.items ≡ changes.old.items ++ row_differences actor 0 before.now after.now) }
{
    for field in 0..before.len().min(after.len()) {
        add_difference(changes, actor, field, before[field], after[field])?;
    }
    Ok(())
}

// Appends the fields of a row whose values differ, where `differs` says that there may be any.
#[tactic(auto, using(crate::proofs::Rows::no_difference))]
fn add_row_if(
    differs: bool,
    changes: &mut Vec<Change>,
    actor: usize,
    before: &[i64],
    after: &[i64],
) -> Result<(), AllocError>
    requires { differs ≡ false → before.now ≡ after.now }
    ensures { OnOk result (changes.new.items ≡ changes.old.items ++ row_differences actor 0 before.now after.now) }
{
    if !differs {
        return Ok(());
    }
    add_row(changes, actor, before, after)
}

// Makes a row what another is, which may differ or does not.
fn follow_row(differs: bool, row: &mut Vec<i64>, after: &[i64]) -> Result<(), AllocError>
    requires { differs ≡ false → row.old.items ≡ after.now }
    ensures { OnOk result (row.new.items ≡ after.now) }
{
    if !differs {
        return Ok(());
    }
    row.clear();
    row.extend_from_slice(after)
}

// Whether the row of an actor may have changed since rows were saved.
fn may_differ(saved: &SavedRows, actor: usize) -> bool
    ensures { result ≡ false → is_saved saved.now actor ≡ false }
{
    match u32::try_from(actor) {
        Ok(actor) => saved.has(actor),
        Err(_) => true,
    }
}

/// Appends the differences of fields, of which each row that differs was saved. It costs the fields of the saved rows, and for each
/// other row a look at what was saved.
pub fn add_differences(
    changes: &mut Vec<Change>,
    saved: &SavedRows,
    before: &[Vec<i64>],
    after: &[Vec<i64>],
) -> Result<(), AllocError>
    requires { restored saved.now (rows_of after.now) ≡ rows_of before.now }
    ensures { OnOk result (changes.new.items ≡ changes.old.items ++ differences 0 (rows_of before.now) (rows_of after.now)) }
{
    for actor in 0..before.len().min(after.len()) {
        let differs = may_differ(saved, actor);
        add_row_if(differs, changes, actor, &before[actor], &after[actor])?;
    }
    Ok(())
}

/// Makes fields what others are, from which each row that differs was saved, at the same cost. Out of memory, some rows are.
pub fn follow(
    fields: &mut [Vec<i64>],
    saved: &SavedRows,
    after: &[Vec<i64>],
) -> Result<(), AllocError>
    requires { restored saved.now (rows_of after.now) ≡ rows_of fields.old }
    ensures { OnOk result (rows_of fields.new ≡ rows_of after.now) }
{
    for actor in 0..fields.len().min(after.len()) {
        let differs = may_differ(saved, actor);
        follow_row(differs, &mut fields[actor], &after[actor])?;
    }
    Ok(())
}
