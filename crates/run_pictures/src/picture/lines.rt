//! Lines from turn to turn.

use crate::picture::Picture;
use crate::picture::boxes::TurnBox;
use crate::picture::layout::{Layout, colour, level};
use crate::picture::links::Link;
use crate::picture::picture_text::PictureText;
use crate::picture::placed::PlacedTurn;
use crate::picture::text::{begin_text, end_text};
use swift_types::TaskId;

// How the lines of a link are drawn, by their classes.
fn class_of(link: Link) -> &'static str {
    match link {
        Link::Spawn => "ls",
        Link::Call => "lc",
        Link::Return => "lr",
        Link::Goes => "lg",
        Link::Wake => "lk",
    }
}

// The beginning of a line: from the end of the box of a turn up, to the height at which lines to this task run.
fn begin_line(
    out: &mut PictureText,
    layout: &Layout,
    class: &str,
    from: (&TurnBox, &PlacedTurn),
    to: &TurnBox,
) {
    let top = layout.box_top(layout.last_row(from.1), from.0.executor);
    let right = layout.right(from.1).saturating_sub(12);
    let over = top.saturating_sub(level(to.task));
    out.fill_with(
        "<path class=\"@ s$\" d=\"M$,$V$",
        class,
        &[colour(to.task), right, top, over],
    )
}

// The head of a line into the top of a box.
fn head_above(out: &mut PictureText, task: TaskId, at: usize, top: usize) {
    out.fill(
        "\"/>\n<path class=\"f$\" d=\"M$,$h8l-4,8z\"/>\n",
        &[colour(task), at.saturating_sub(4), top.saturating_sub(8)],
    )
}

// The end of a line into the top of a box of the same lane, so far from its left, with a head.
fn end_above(out: &mut PictureText, layout: &Layout, to: (&TurnBox, &PlacedTurn), along: usize) {
    let at = layout.left(to.1).saturating_add(along);
    let top = layout.box_top(layout.row(to.1), to.0.executor);
    out.fill("H$V$", &[at, top]);
    head_above(out, to.0.task, at, top)
}

// The end of a line into the left side of a box of another lane, with a head.
fn end_beside(out: &mut PictureText, layout: &Layout, to: (&TurnBox, &PlacedTurn)) {
    let left = layout.left(to.1);
    let at = layout
        .box_top(layout.row(to.1), to.0.executor)
        .saturating_add(12);
    out.fill("H$V$H$", &[left.saturating_sub(10), at, left]);
    out.fill(
        "\"/>\n<path class=\"f$\" d=\"M$,$v8l8,-4z\"/>\n",
        &[
            colour(to.0.task),
            left.saturating_sub(8),
            at.saturating_sub(4),
        ],
    )
}

// The end of a line from another row: the line that was begun ends beside its box, and another one, so far from the left of this box, comes
// from above, beside the name of the turn that it comes from.
fn end_far(
    out: &mut PictureText,
    layout: &Layout,
    class: &str,
    from: &TurnBox,
    to: (&TurnBox, &PlacedTurn),
    along: usize,
) {
    let at = layout.left(to.1).saturating_add(along);
    let top = layout.box_top(layout.row(to.1), to.0.executor);
    out.fill_with(
        "h14\"/>\n<path class=\"@ s$\" d=\"M$,$V$",
        class,
        &[colour(to.0.task), at, top.saturating_sub(36), top],
    );
    head_above(out, to.0.task, at, top);
    begin_text(out, "g m", at.saturating_add(7), top.saturating_sub(28));
    out.turn(from);
    end_text(out)
}

// A line from the end of the box of a turn to that of another: one into its top arrives so far from its left, or so far where it comes from
// another row.
fn write_line(
    out: &mut PictureText,
    layout: &Layout,
    class: &str,
    from: (&TurnBox, &PlacedTurn),
    to: (&TurnBox, &PlacedTurn),
    along: (usize, usize),
) {
    begin_line(out, layout, class, from, to.0);
    if layout.last_row(from.1) != layout.row(to.1) {
        end_far(out, layout, class, from.0, to, along.1)
    } else if from.0.executor == to.0.executor {
        end_above(out, layout, to, along.0)
    } else {
        end_beside(out, layout, to)
    }
}

// The line from the box of the turn that made a turn's job.
fn write_link(
    out: &mut PictureText,
    layout: &Layout,
    maker: (&TurnBox, &PlacedTurn),
    turn: (&TurnBox, &PlacedTurn),
) {
    let class = class_of(Link::between(maker.0, turn.0));
    write_line(out, layout, class, maker, turn, (16, 10))
}

// The line along which a task waited, from its turn before to a turn that another task has woken.
fn write_wait(
    out: &mut PictureText,
    layout: &Layout,
    before: (&TurnBox, &PlacedTurn),
    turn: (&TurnBox, &PlacedTurn),
) {
    write_line(out, layout, "lw", before, turn, (32, 72))
}

// The box at a place, where it is shown.
fn shown_at<'a>(
    layout: &Layout,
    picture: &'a Picture,
    place: Option<usize>,
) -> Option<(&'a TurnBox, &'a PlacedTurn)> {
    let found = picture.at(place?)?;
    if layout.shows(found.1) {
        Some(found)
    } else {
        None
    }
}

// The lines to a turn: from the one that made its job, and where that one is of another task, from the one that waited.
fn write_lines_to(
    out: &mut PictureText,
    layout: &Layout,
    picture: &Picture,
    turn: &TurnBox,
    placed: &PlacedTurn,
) {
    let Some(maker) = shown_at(layout, picture, placed.maker) else {
        return;
    };
    if maker.0.task != turn.task {
        if let Some(before) = shown_at(layout, picture, placed.before) {
            write_wait(out, layout, before, (turn, placed));
        }
    }
    write_link(out, layout, maker, (turn, placed))
}

/// The lines to the boxes that are shown, from those that are and from folds.
pub(crate) fn write_lines(out: &mut PictureText, layout: &Layout, picture: &Picture) {
    for (turn, placed) in picture.boxes.iter().zip(&picture.placed) {
        if layout.shows(placed) && !layout.is_folded(placed) {
            write_lines_to(out, layout, picture, turn, placed);
        }
    }
}
