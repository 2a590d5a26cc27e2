//! The overview of a picture of several rows: a strip for each executor, with a mark for each cell.

use crate::picture::boxes::TurnBox;
use crate::picture::layout::{COLUMNS, HEAD, LEFT, Layout, MARGIN, colour};
use crate::picture::picture_text::PictureText;
use crate::picture::placed::PlacedTurn;
use crate::picture::text::{begin_text, end_text, write_text};
use crate::picture::{Picture, word};
use swift_script::Script;

// How tall the strip of an executor is, and how far down it its name stands.
const STRIP: usize = 16;

const NAME_DOWN: usize = 12;

// What is over the strips, for the numbers of rows and the marks of undone turns, and under them.
const OVER: usize = 30;

const UNDER: usize = 14;

// How many characters of 11 pixels find room in the name of a strip.
const IN_NAME: usize = 12;

// How wide a cell is at most.
const WIDEST: usize = 30;

/// How tall the overview of so many executors is.
pub(crate) fn overview_height(lanes: usize) -> usize {
    lanes.saturating_mul(STRIP).saturating_add(OVER + UNDER)
}

// How wide the strips are.
fn strips_width(layout: &Layout) -> usize {
    layout
        .width
        .saturating_sub(LEFT + MARGIN)
        .min(layout.cells.len().saturating_mul(WIDEST))
}

// Where the mark of a cell begins.
fn mark_left(layout: &Layout, slot: usize) -> usize {
    let along = slot.saturating_mul(strips_width(layout)) / layout.cells.len().max(1);
    along.saturating_add(LEFT)
}

// The name of an executor, and how many turns it has run.
fn write_strip_name(
    out: &mut PictureText,
    script: &Script,
    picture: &Picture,
    layout: &Layout,
    executor: usize,
) {
    let y = executor
        .saturating_mul(STRIP)
        .saturating_add(HEAD + OVER + NAME_DOWN);
    let name = word::executor_name(script, executor);
    write_text(out, "b", (16, y), name, IN_NAME);
    begin_text(out, "g e", LEFT - 10, y);
    let boxes = match layout.lanes.get(executor) {
        Some(lane) => lane.boxes,
        None => 0,
    };
    let folded = picture.folded.get(executor).copied().unwrap_or(0);
    let turns = boxes.saturating_add(folded);
    out.fill(if turns == 1 { "$ turn" } else { "$ turns" }, &[turns]);
    end_text(out)
}

// A line where each row begins, with the number of the row, which leads there.
fn write_row_marks(out: &mut PictureText, layout: &Layout) {
    let below = layout.lanes.len().saturating_mul(STRIP);
    for (row, _) in layout.rows.iter().enumerate() {
        let x = mark_left(layout, row.saturating_mul(COLUMNS));
        let number = row.saturating_add(1);
        let down = below.saturating_add(OVER - 4);
        out.fill(
            "<path class=\"o\" d=\"M$,$v$\"/>\n<a href=\"#row$\">",
            &[x, HEAD + 4, down, number],
        );
        out.fill(
            "<text class=\"g\" x=\"$\" y=\"$\">$</text>\n</a>\n",
            &[x.saturating_add(3), HEAD + 12, number],
        );
    }
}

// The mark of a turn, or of folded ones, in a strip, up to where it ends: in units of a tenth of a cell, and of a pixel.
fn write_mark(out: &mut PictureText, layout: &Layout, turn: &TurnBox, placed: &PlacedTurn) {
    out.say(b"<path class=\"");
    if layout.is_folded(placed) {
        out.say(b"fk");
    } else if placed.is_undone {
        out.say(b"fx");
    } else {
        out.fill("f$", &[colour(turn.task)]);
    }
    let slot = layout.slot_of(placed);
    let further = layout.last_slot(placed).saturating_sub(slot);
    let wide = further.saturating_mul(10).saturating_add(9);
    let left = slot.saturating_mul(10);
    let top = turn.executor.saturating_mul(STRIP);
    out.fill("\" d=\"M$,$h$v14h-$z\"/>\n", &[left, top, wide, wide])
}

// The marks of all turns that are shown; one for each cell and executor.
fn write_marks(out: &mut PictureText, picture: &Picture, layout: &Layout) {
    let width = strips_width(layout);
    let height = layout.lanes.len().saturating_mul(STRIP);
    let units = layout.cells.len().saturating_mul(10);
    out.fill(
        "<svg x=\"$\" y=\"$\" width=\"$\" height=\"$\" viewBox=\"0 0 $ $\" preserveAspectRatio=\"none\">\n",
        &[LEFT, HEAD + OVER, width, height, units, height],
    );
    let mut marked = None;
    for (turn, placed) in picture.boxes.iter().zip(&picture.placed) {
        if layout.shows(placed) {
            // The boxes of an executor follow each other, and so do those of a fold among these.
            let here = Some((turn.executor, layout.slot_of(placed)));
            if here != marked {
                write_mark(out, layout, turn, placed);
                marked = here;
            }
        }
    }
    out.say(b"</svg>\n")
}

// An arrow over each turn that was undone.
fn write_undone(out: &mut PictureText, picture: &Picture, layout: &Layout) {
    for placed in &picture.placed {
        if layout.shows(placed) && placed.is_undone {
            let middle = mark_left(layout, layout.slot_of(placed)).saturating_add(mark_left(
                layout,
                layout.slot_of(placed).saturating_add(1),
            )) / 2;
            out.fill(
                "<path class=\"fx\" d=\"M$,$h10l-5,9z\"/>\n",
                &[middle.saturating_sub(5), HEAD + OVER - 11],
            );
        }
    }
}

/// Where each row begins in the order of the log, and which turns were undone.
pub(crate) fn write_overview(
    out: &mut PictureText,
    script: &Script,
    picture: &Picture,
    layout: &Layout,
) {
    for executor in 0..layout.lanes.len() {
        write_strip_name(out, script, picture, layout, executor);
    }
    write_row_marks(out, layout);
    write_marks(out, picture, layout);
    write_undone(out, picture, layout)
}
