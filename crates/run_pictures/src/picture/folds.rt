//! Turns that only give way, folded.

ghost use Rattle.std.specs.Prelude.{nat_lt, IfOk};
ghost use Rattle.run_pictures.specs.Drawn.{AreFolds, IsFoldOf, fold_text};
ghost use Rattle.run_pictures.specs.SaysInside.{Says, SaysSome};

use crate::picture::Picture;
use crate::picture::boxes::TurnBox;
use crate::picture::cells::Cell;
use crate::picture::layout::{COLUMNS, Layout, TALL, WIDE, left_of};
use crate::picture::picture_text::PictureText;
use crate::picture::text::{begin_text, end_text};
use std::alloc::{AllocError, Global};

// The place of the box of each column, in the order of columns; past the last box where a column has none.
fn boxes_by_column(alloc: Global, picture: &Picture) -> Result<Vec<usize>, AllocError> {
    let mut by_column = vec![in alloc; usize::MAX; picture.boxes.len()]?;
    for (place, placed) in picture.placed.iter().enumerate() {
        if let Some(entry) = by_column.get_mut(placed.moment.column) {
            *entry = place;
        }
    }
    Ok(by_column)
}

// The box of the turn of a column.
fn box_of_column<'a>(
    picture: &'a Picture,
    by_column: &[usize],
    column: usize,
) -> Option<&'a TurnBox> {
    picture.boxes.get(*by_column.get(column)?)
}

// The turn of a column by its name.
fn write_turn_at(out: &mut PictureText, picture: &Picture, by_column: &[usize], column: usize) {
    if let Some(turn) = box_of_column(picture, by_column, column) {
        out.turn(turn)
    }
}

// Begins the group of a fold, with a title that says how many turns it has.
fn begin_fold(out: &mut PictureText, cell: &Cell)
    ensures { Says out.old out.new (fold_text cell.now.turns) }
{
    out.say(b"<g><title>");
    out.number(cell.turns);
    out.say(b" turns in a row that only give way: ")
}

// What its title says after that: which turns they are.
fn write_first_and_last(
    out: &mut PictureText,
    picture: &Picture,
    by_column: &[usize],
    cell: &Cell,
) {
    write_turn_at(out, picture, by_column, cell.first);
    out.say(b" to ");
    let last = cell.first.saturating_add(cell.turns).saturating_sub(1);
    write_turn_at(out, picture, by_column, last);
    out.say(b"</title>\n")
}

// What stands in the lane of an executor of a fold that has so many turns there.
fn write_folded(out: &mut PictureText, count: usize, at: (usize, usize)) {
    out.fill(
        "<rect class=\"k\" x=\"$\" y=\"$\" width=\"$\" height=\"$\" rx=\"6\"/>\n",
        &[at.0, at.1, WIDE, TALL],
    );
    let middle = at.0.saturating_add(WIDE / 2);
    begin_text(out, "b j", middle, at.1.saturating_add(32));
    out.fill("+ $ more", &[count]);
    end_text(out);
    begin_text(out, "g j", middle, at.1.saturating_add(48));
    out.say(b"that only give way");
    end_text(out)
}

// How many turns of a fold each executor has.
fn count_turns(counts: &mut [usize], picture: &Picture, by_column: &[usize], cell: &Cell) {
    for count in counts.iter_mut() {
        *count = 0;
    }
    for column in cell.first..cell.first.saturating_add(cell.turns) {
        if let Some(turn) = box_of_column(picture, by_column, column) {
            if let Some(count) = counts.get_mut(turn.executor) {
                *count = count.saturating_add(1);
            }
        }
    }
}

// What is known of the turns of folds, and what is written on again and again.
#[derive(Drop)]
struct FoldScratch {
    by_column: Vec<usize>,
    counts: Vec<usize>,
    rest: PictureText,
}

// What stands of a fold after the beginning of its title, in the lanes of its turns.
fn write_lanes(
    scratch: &mut FoldScratch,
    picture: &Picture,
    layout: &Layout,
    slot: usize,
    cell: &Cell,
) {
    count_turns(&mut scratch.counts, picture, &scratch.by_column, cell);
    scratch.rest.clear();
    write_first_and_last(&mut scratch.rest, picture, &scratch.by_column, cell);
    for (executor, count) in scratch.counts.iter().enumerate() {
        if *count > 0 {
            let top = layout.box_top(slot / COLUMNS, executor);
            write_folded(&mut scratch.rest, *count, (left_of(slot), top));
        }
    }
    scratch.rest.say(b"</g>\n")
}

// The fold of a cell, if it is one.
fn write_fold(
    out: &mut PictureText,
    scratch: &mut FoldScratch,
    picture: &Picture,
    layout: &Layout,
    slot: usize,
    cell: &Cell,
)
    ensures { SaysSome (IsFoldOf cell.now (nat_lt 1 cell.now.turns)) out.old out.new }
{
    if !cell.is_fold() {
        return;
    }
    write_lanes(scratch, picture, layout, slot, cell);
    begin_fold(out, cell);
    out.say(scratch.rest.bytes())
}

// What is known of the turns of folds.
fn fold_scratch(
    alloc: Global,
    picture: &Picture,
    layout: &Layout,
) -> Result<FoldScratch, AllocError> {
    Ok(FoldScratch {
        by_column: boxes_by_column(alloc, picture)?,
        counts: vec![in alloc; 0_usize; layout.lanes.len()]?,
        rest: PictureText::new(alloc),
    })
}

// The folds of all cells.
fn write_all(out: &mut PictureText, scratch: &mut FoldScratch, picture: &Picture, layout: &Layout)
    ensures { SaysSome (AreFolds layout.now.cells.items) out.old out.new }
{
    for slot in 0..layout.cells.len() {
        write_fold(out, scratch, picture, layout, slot, &layout.cells[slot]);
    }
}

/// The folds that are shown, each in the lanes of its turns. In time linear in the turns, and for each fold in the executors. An `Err` says
/// that a growth was refused.
pub(crate) fn folds_text(
    alloc: Global,
    picture: &Picture,
    layout: &Layout,
) -> Result<Vec<u8>, AllocError>
    ensures { IfOk result (λ text. AreFolds layout.now.cells.items text.items) }
{
    let mut scratch = fold_scratch(alloc, picture, layout)?;
    let mut out = PictureText::new(alloc);
    write_all(&mut out, &mut scratch, picture, layout);
    scratch.rest.whole()?;
    let text = out.into_bytes()?;
    Ok(text)
}
