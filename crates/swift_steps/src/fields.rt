//! Copies of fields.

ghost use Rattle.std.specs.Prelude.{◌≡◌, IfOk, map};
ghost use Rattle.script_code.specs.Seen.{rows_of};

use std::alloc::{AllocError, Global};

/// A copy of the fields of an executor's actors. It takes memory for all of them, and an `Err` says that there was none.
pub fn copy_fields(alloc: Global, rows: &[Vec<i64>]) -> Result<Vec<Vec<i64>>, AllocError>
    ensures { IfOk result (λ copy. rows_of copy.items ≡ rows_of rows.now) }
{
    let mut copy = Vec::with_capacity(alloc, rows.len())?;
    for row in rows {
        copy.push(Vec::from_slice(alloc, row)?)?;
    }
    Ok(copy)
}

/// A copy of the fields of all executors. It takes memory for all of them, and an `Err` says that there was none.
pub fn copy_all_fields(
    alloc: Global,
    all: &[Vec<Vec<i64>>],
) -> Result<Vec<Vec<Vec<i64>>>, AllocError>
    ensures { IfOk result (λ copy. map (λ rows. rows_of rows.items) copy.items ≡ map (λ rows. rows_of rows.items) all.now) }
{
    let mut copy = Vec::with_capacity(alloc, all.len())?;
    for rows in all {
        copy.push(copy_fields(alloc, rows)?)?;
    }
    Ok(copy)
}
