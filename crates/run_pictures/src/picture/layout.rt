//! Where things stand in a picture. Lengths are in pixels, from the left and from the top.

ghost use Rattle.std.specs.Prelude.{◌≡◌, ◌%◌, Bool, List, ◌++◌, IfOk, OnOk, length, replicate};
ghost use Rattle.run_pictures.specs.Drawn.{first_of, last_cells, left_of, own_slot, shown_slot, slots_from};
ghost use Rattle.run_pictures.specs.SaysInside.{IsOfLayout, box_top, top_of};

use crate::TurnValues;
use crate::picture::Picture;
use crate::picture::cells::{Cell, cells_of};
use crate::picture::legend::legend_height;
use crate::picture::overview::overview_height;
use crate::picture::placed::PlacedTurn;
use crate::picture::quiet::quiet_turns;
use crate::picture::rows::{Row, lay_rows, used_lanes};
use std::alloc::{AllocError, Global};
use swift_log::EventLog;
use swift_types::TaskId;

/// How many cells are shown at most: the last ones.
pub(crate) const SHOWN: usize = 1_000;

/// How many cells stand in a row at most. A row of so many is 1,984 pixels wide.
pub(crate) const COLUMNS: usize = 12;

/// Where the first column of boxes begins.
pub(crate) const LEFT: usize = 168;

/// From one column to the next.
pub(crate) const PITCH: usize = 150;

/// How wide the box of a turn is that no other turn overlaps.
pub(crate) const WIDE: usize = 132;

/// How tall a box is.
pub(crate) const TALL: usize = 70;

/// Where the first lane begins, or the overview.
pub(crate) const HEAD: usize = 70;

/// What a lane has over its boxes, for its name and lines.
pub(crate) const OVER: usize = 58;

// What it has under them, for three lines of text.
const UNDER: usize = 54;

// How tall a lane without boxes is.
const EMPTY: usize = 80;

/// What is left on the right.
pub(crate) const MARGIN: usize = 16;

// The least width, in which the heading and the legend find room.
const LEAST: usize = 940;

/// The lane of an executor.
#[derive(Clone, Copy)]
pub(crate) struct Lane {
    /// The place of its first box.
    pub first: usize,
    /// How many boxes it has, those that are not shown too.
    pub boxes: usize,
    /// How many of them are shown.
    pub shown: usize,
}

impl Lane {
    const NONE: Lane = Lane {
        first: 0,
        boxes: 0,
        shown: 0,
    };

    /// How tall it is.
    pub fn height(&self) -> usize {
        if self.shown == 0 {
            EMPTY
        } else {
            OVER + TALL + UNDER
        }
    }
}

/// Where the boxes and lanes of a picture stand.
#[derive(Drop)]
pub(crate) struct Layout {
    /// The cells that are shown, in order.
    pub cells: Vec<Cell>,
    /// The rows of cells, one below the other.
    pub rows: Vec<Row>,
    /// The lanes, in the order of executors.
    pub lanes: Vec<Lane>,
    /// How wide the picture is.
    pub width: usize,
    /// How tall it is.
    pub height: usize,
    /// Where the legend begins: below the rows, or where there are several below the overview.
    pub legend: usize,
    /// How many turns are not shown, those that were folded into a checkpoint too.
    pub earlier: usize,
    // The column of the first turn that is shown.
    first_column: usize,
    // The place of the cell of each column, from that one on.
    slots: Vec<usize>,
    // Where the lanes of each row begin; none where a row has not that lane.
    tops: Vec<Option<usize>>,
}

// The lanes of a picture, of which the turns from a column on are shown.
fn counted_lanes(
    alloc: Global,
    picture: &Picture,
    first_column: usize,
) -> Result<Vec<Lane>, AllocError> {
    let mut lanes = vec![in alloc; Lane::NONE; picture.folded.len()]?;
    for (turn, placed) in picture.boxes.iter().zip(&picture.placed) {
        if let Some(lane) = lanes.get_mut(turn.executor) {
            lane.boxes = lane.boxes.saturating_add(1);
            if placed.moment.column >= first_column {
                lane.shown = lane.shown.saturating_add(1);
            }
        }
    }
    let mut first = 0_usize;
    for lane in lanes.iter_mut() {
        lane.first = first;
        first = first.saturating_add(lane.boxes);
    }
    Ok(lanes)
}

fn sum_of(counts: &[usize]) -> usize {
    let mut sum = 0_usize;
    for count in counts {
        sum = sum.saturating_add(*count);
    }
    sum
}

// Which turns only give way. Where all find room in a row, it is said of none, so that none is folded.
fn quiet_of(
    alloc: Global,
    picture: &Picture,
    values: &[Vec<TurnValues>],
    log: &EventLog,
) -> Result<Vec<bool>, AllocError>
    ensures { IfOk result (λ quiet. length quiet.items ≡ length picture.now.boxes.items) }
{
    if picture.boxes.len() <= COLUMNS {
        return vec![in alloc; false; picture.boxes.len()];
    }
    quiet_turns(alloc, picture, values, log)
}

// The last cells of turns, of which these flags say whether they only give way.
fn last_cells(alloc: Global, quiet: &[bool]) -> Result<Vec<Cell>, AllocError>
    ensures { IfOk result (λ cells. cells.items ≡ last_cells quiet.now) }
{
    let all = cells_of(alloc, quiet)?;
    let (_, shown) = all.split_at(all.len().saturating_sub(SHOWN));
    Vec::from_slice(alloc, shown)
}

// The cells of a picture, the last ones of which are shown.
fn shown_cells(
    alloc: Global,
    picture: &Picture,
    values: &[Vec<TurnValues>],
    log: &EventLog,
) -> Result<Vec<Cell>, AllocError>
    ensures { IfOk result (λ cells. (quiet : List Bool) × (length quiet ≡ length picture.now.boxes.items) × (cells.items ≡ last_cells quiet)) }
{
    let quiet = quiet_of(alloc, picture, values, log)?;
    last_cells(alloc, &quiet)
}

// Adds the place of a cell for each of so many turns.
fn add_slots(slots: &mut Vec<usize>, slot: usize, turns: usize) -> Result<(), AllocError>
    ensures { OnOk result (slots.new.items ≡ slots.old.items ++ replicate turns slot) }
{
    for _turn in 0..turns {
        slots.push(slot)?;
    }
    Ok(())
}

// The place of the cell of each column, from the first that is shown on.
fn slots_of(alloc: Global, cells: &[Cell]) -> Result<Vec<usize>, AllocError>
    ensures { IfOk result (λ slots. slots.items ≡ slots_from 0 cells.now) }
{
    let mut slots = Vec::new(alloc);
    for slot in 0..cells.len() {
        add_slots(&mut slots, slot, cells[slot].turns)?;
    }
    Ok(slots)
}

// The column of the first of these cells; where there are none, how many columns there are.
fn first_of(cells: &[Cell], columns: usize) -> usize
    ensures { result ≡ first_of cells.now columns }
{
    match cells {
        [first, ..] => first.first,
        [] => columns,
    }
}

// How wide a picture of so many cells is.
fn width_of(cells: usize) -> usize {
    LEFT.saturating_add(cells.min(COLUMNS).saturating_mul(PITCH))
        .saturating_add(MARGIN)
        .max(LEAST)
}

impl Layout {
    /// Where the boxes and lanes of a picture of so many tasks stand, by what each turn did to the fields, in time linear in the picture
    /// and the log. An `Err` says that a growth was refused.
    pub fn of(
        alloc: Global,
        picture: &Picture,
        values: &[Vec<TurnValues>],
        log: &EventLog,
        tasks: usize,
    ) -> Result<Layout, AllocError>
        ensures { IfOk result (IsOfLayout (length picture.now.boxes.items)) }
    {
        let cells = shown_cells(alloc, picture, values, log)?;
        let first_column = first_of(&cells, picture.boxes.len());
        let mut layout = Layout {
            rows: Vec::new(alloc),
            lanes: counted_lanes(alloc, picture, first_column)?,
            width: width_of(cells.len()),
            height: 0,
            legend: 0,
            earlier: sum_of(&picture.folded).saturating_add(first_column),
            first_column,
            slots: slots_of(alloc, &cells)?,
            tops: Vec::new(alloc),
            cells,
        };
        layout.lay(alloc, picture, tasks)?;
        Ok(layout)
    }

    // Puts the lanes of each row one below the other.
    fn lay(&mut self, alloc: Global, picture: &Picture, tasks: usize) -> Result<(), AllocError>
        ensures cells { OnOk result (self.new.cells ≡ self.old.cells) }
        ensures slots { OnOk result (self.new.slots ≡ self.old.slots) }
        ensures first { OnOk result (self.new.first_column ≡ self.old.first_column) }
    {
        let legend = legend_height(self, tasks);
        let used = used_lanes(alloc, self, picture)?;
        let over = if self.is_wrapped() {
            overview_height(self.lanes.len()).saturating_add(HEAD)
        } else {
            HEAD
        };
        let top = if self.is_wrapped() {
            over.saturating_add(legend)
        } else {
            over
        };
        let laid = lay_rows(alloc, &self.lanes, &used, self.cells.len(), top)?;
        self.height = laid.bottom;
        self.legend = over;
        if !self.is_wrapped() {
            self.height = laid.bottom.saturating_add(legend);
            self.legend = laid.bottom;
        }
        self.rows = laid.rows;
        self.tops = laid.tops;
        Ok(())
    }

    // The place of the cell of a column, where that is shown.
    fn shown_slot(&self, column: usize) -> Option<usize>
        ensures { result ≡ shown_slot self.now.slots.items self.now.first_column column }
    {
        if column < self.first_column {
            return None;
        }
        self.slots.get(column - self.first_column).copied()
    }

    /// The place of the cell that a turn has for itself, where that is shown.
    pub fn own_slot(&self, placed: &PlacedTurn) -> Option<usize>
        ensures { result ≡ own_slot self.now.cells.items self.now.slots.items self.now.first_column placed.now.moment.column }
    {
        let slot = self.shown_slot(placed.moment.column)?;
        match self.cells.get(slot) {
            Some(cell) if cell.is_fold() => None,
            _ => Some(slot),
        }
    }

    /// Whether the turn of a box is shown, by itself or folded.
    pub fn shows(&self, placed: &PlacedTurn) -> bool {
        placed.moment.column >= self.first_column
    }

    // The place of the cell of a column.
    fn slot(&self, column: usize) -> usize {
        match self.slots.get(column.saturating_sub(self.first_column)) {
            Some(slot) => *slot,
            None => 0,
        }
    }

    /// The place of the cell in which a turn is.
    pub fn slot_of(&self, placed: &PlacedTurn) -> usize {
        self.slot(placed.moment.column)
    }

    /// The place of the cell in which a turn ended: that of the last turn that began before its end.
    pub fn last_slot(&self, placed: &PlacedTurn) -> usize {
        if self.is_folded(placed) {
            return self.slot_of(placed);
        }
        self.slot(placed.moment.last_column.max(placed.moment.column))
    }

    /// Whether a turn is folded with others.
    pub fn is_folded(&self, placed: &PlacedTurn) -> bool {
        match self.cells.get(self.slot_of(placed)) {
            Some(cell) => cell.is_fold(),
            None => false,
        }
    }

    /// The row in which the box of a turn begins.
    pub fn row(&self, placed: &PlacedTurn) -> usize {
        self.slot_of(placed) / COLUMNS
    }

    /// The row in which it ends.
    pub fn last_row(&self, placed: &PlacedTurn) -> usize {
        self.last_slot(placed) / COLUMNS
    }

    /// Where the box of a turn begins, in its first row.
    pub fn left(&self, placed: &PlacedTurn) -> usize {
        left_of(self.slot_of(placed))
    }

    /// Where it ends, in its last row.
    pub fn right(&self, placed: &PlacedTurn) -> usize {
        left_of(self.last_slot(placed)).saturating_add(WIDE)
    }

    /// Where it ends in its first row: at the end of that row, if it goes on in the next.
    pub fn first_right(&self, placed: &PlacedTurn) -> usize {
        if self.row(placed) == self.last_row(placed) {
            self.right(placed)
        } else {
            self.width.saturating_sub(MARGIN)
        }
    }

    /// Where the lane of an executor begins in a row, if that row has it.
    pub fn top(&self, row: usize, executor: usize) -> Option<usize>
        ensures { result ≡ top_of self.now row executor }
    {
        let first = row.saturating_mul(self.lanes.len());
        match self.tops.get(first.saturating_add(executor)) {
            Some(top) => *top,
            None => None,
        }
    }

    /// Where the boxes of an executor begin in a row.
    pub fn box_top(&self, row: usize, executor: usize) -> usize
        ensures { result ≡ box_top self.now row executor }
    {
        match self.top(row, executor) {
            Some(top) => top.saturating_add(OVER),
            None => HEAD,
        }
    }

    /// Whether there are several rows.
    pub fn is_wrapped(&self) -> bool {
        self.cells.len() > COLUMNS
    }

    /// Whether some turns are folded with others.
    pub fn has_folds(&self) -> bool {
        self.cells.len() < self.slots.len()
    }
}

/// Where a cell begins, by its place.
pub(crate) fn left_of(slot: usize) -> usize
    ensures { result ≡ left_of slot }
{
    slot % COLUMNS * PITCH + LEFT
}

/// The colour of a task, by its number in the palette.
pub(crate) fn colour(task: TaskId) -> usize
    ensures { result ≡ task.0 % 12 }
{
    task.0 as usize % 12
}

/// How far over the boxes the lines to a task's turns run.
pub(crate) fn level(task: TaskId) -> usize {
    8 + task.0 as usize % 8 * 4
}
