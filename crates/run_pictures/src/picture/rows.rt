//! The rows of a picture, and which lanes each of them has.

use crate::picture::Picture;
use crate::picture::layout::{COLUMNS, Lane, Layout};
use std::alloc::{AllocError, Global};

// What a row has over its lanes where there are several, for its number.
const OVER_LANES: usize = 24;

/// A row of cells.
#[derive(Clone, Copy)]
pub(crate) struct Row {
    /// Where it begins.
    pub top: usize,
    /// The place of its first cell.
    pub first: usize,
    /// How many cells it has.
    pub cells: usize,
}

/// Where rows and lanes stand.
#[derive(Drop)]
pub(crate) struct LaidRows {
    /// The rows.
    pub rows: Vec<Row>,
    /// Where the lanes of each row begin, in the order of rows and then of executors; none where a row has not that lane.
    pub tops: Vec<Option<usize>>,
    /// Where the last row ends.
    pub bottom: usize,
}

// How many rows so many cells take, 1 at least.
fn rows_of(cells: usize) -> usize {
    cells.div_ceil(COLUMNS).max(1)
}

/// Which lanes have a box in which row, in the order of rows and then of executors. In time linear in the picture, since a box reaches into
/// a further row once for each worker at most. An `Err` says that a growth was refused.
pub(crate) fn used_lanes(
    alloc: Global,
    layout: &Layout,
    picture: &Picture,
) -> Result<Vec<bool>, AllocError> {
    let lanes = layout.lanes.len();
    let rows = rows_of(layout.cells.len());
    let mut used = vec![in alloc; false; rows.saturating_mul(lanes)]?;
    for (turn, placed) in picture.boxes.iter().zip(&picture.placed) {
        if layout.shows(placed) {
            for row in layout.row(placed)..layout.last_row(placed).saturating_add(1) {
                let place = row.saturating_mul(lanes).saturating_add(turn.executor);
                if let Some(flag) = used.get_mut(place) {
                    *flag = true;
                }
            }
        }
    }
    Ok(used)
}

// The row at a place, without its height.
fn row_at(row: usize, cells: usize, top: usize) -> Row {
    let first = row.saturating_mul(COLUMNS);
    Row {
        top,
        first,
        cells: cells.saturating_sub(first).min(COLUMNS),
    }
}

/// Puts rows of so many cells one below the other, the first one here, and in each row its lanes. One row has all lanes; of several each
/// has those with a box in it. An `Err` says that a growth was refused.
pub(crate) fn lay_rows(
    alloc: Global,
    lanes: &[Lane],
    used: &[bool],
    cells: usize,
    top: usize,
) -> Result<LaidRows, AllocError> {
    let count = rows_of(cells);
    let mut rows = Vec::with_capacity(alloc, count)?;
    let mut tops = Vec::with_capacity(alloc, used.len())?;
    let mut top = top;
    for row in 0..count {
        rows.push(row_at(row, cells, top))?;
        if count > 1 {
            top = top.saturating_add(OVER_LANES);
        }
        top = lay_lanes(&mut tops, lanes, used, row, count > 1, top)?;
    }
    Ok(LaidRows {
        rows,
        tops,
        bottom: top,
    })
}

// Puts the lanes of a row one below the other; those without a box are left out where that is wanted. Where the last one ends.
fn lay_lanes(
    tops: &mut Vec<Option<usize>>,
    lanes: &[Lane],
    used: &[bool],
    row: usize,
    only_used: bool,
    top: usize,
) -> Result<usize, AllocError> {
    let mut top = top;
    for (executor, lane) in lanes.iter().enumerate() {
        let place = row.saturating_mul(lanes.len()).saturating_add(executor);
        let is_used = used.get(place).copied().unwrap_or(false);
        if is_used || !only_used {
            tops.push(Some(top))?;
            top = top.saturating_add(lane.height());
        } else {
            tops.push(None)?;
        }
    }
    Ok(top)
}
