//! The legend of a picture.

ghost use Rattle.std.specs.Prelude.{◌≤◌};

use crate::picture::card::View;
use crate::picture::layout::Layout;
use crate::picture::picture_text::PictureText;
use crate::picture::text::{begin_text, end_text, write_text};
use swift_events::Origin;
use swift_types::Ending;

// How many tasks are told at most.
const TOLD: usize = 48;

// How wide an entry is, how many characters of 12 pixels find room in it, and how tall a row is.
const WIDE: usize = 300;

const FITTING: usize = 36;

const ROW: usize = 20;

// What is left above the rows of tasks, and what the rows below them take.
const ABOVE: usize = 26;

const BELOW: usize = 66;

// How many tasks are told.
fn told(tasks: usize) -> usize {
    tasks.min(TOLD)
}

// How many entries stand in a row.
fn entries(layout: &Layout) -> usize
    ensures { 1 ≤ result }
{
    (layout.width / WIDE).clamp(1, 4)
}

// How tall the rows of tasks are.
fn tasks_height(layout: &Layout, tasks: usize) -> usize {
    told(tasks).div_ceil(entries(layout)).saturating_mul(ROW)
}

// How tall the line on rows is, where there are several.
fn rows_height(layout: &Layout) -> usize {
    if layout.is_wrapped() { ROW } else { 0 }
}

/// How tall the legend is.
pub(crate) fn legend_height(layout: &Layout, tasks: usize) -> usize {
    tasks_height(layout, tasks)
        .saturating_add(rows_height(layout))
        .saturating_add(ABOVE + BELOW)
}

// What lines between rows look like.
fn write_on_rows(out: &mut PictureText, y: usize) {
    begin_text(out, "t g", 16, y);
    out.say(
        b"A line between two rows is cut: where it arrives stands the turn that it comes from.",
    );
    end_text(out)
}

// The name of a task that is no root.
fn write_name(line: &mut PictureText, view: View<'_>, task: usize, origin: Origin) {
    if let Origin::Root = origin {
        return;
    }
    line.say(view.name(task));
    line.say(b", ")
}

// The task of a number: its colour, what it is called, where it comes from, and how it ended.
fn write_task(
    out: &mut PictureText,
    view: View<'_>,
    task: usize,
    ended: (Origin, Ending),
    at: (usize, usize),
    line: &mut PictureText,
) {
    out.fill(
        "<rect class=\"c$\" x=\"$\" y=\"$\" width=\"14\" height=\"12\" rx=\"3\"/>\n",
        &[task % 12, at.0, at.1],
    );
    line.clear();
    line.fill("t$ ", &[task]);
    write_name(line, view, task, ended.0);
    line.origin(view.script, task, ended.0);
    line.say(b": ");
    line.ending(ended.1);
    let place = (at.0.saturating_add(22), at.1.saturating_add(10));
    write_text(out, "t", place, line.bytes(), FITTING)
}

fn write_tasks(
    out: &mut PictureText,
    view: View<'_>,
    endings: &[(Origin, Ending)],
    top: usize,
    line: &mut PictureText,
) {
    let entries = entries(view.layout);
    for (task, ended) in endings.iter().enumerate() {
        if task >= TOLD {
            return;
        }
        let x = (task % entries).saturating_mul(WIDE).saturating_add(16);
        let y = (task / entries).saturating_mul(ROW).saturating_add(top);
        write_task(out, view, task, *ended, (x, y), line);
    }
}

// A line of a kind, with what it stands for.
fn write_sample(out: &mut PictureText, class: &str, word: &str, x: usize, y: usize) {
    out.fill_with(
        "<path class=\"@ s8\" d=\"M$,$h40\"/>\n",
        class,
        &[x, y.saturating_sub(4)],
    );
    out.fill_with(
        "<text class=\"t\" x=\"$\" y=\"$\">@</text>\n",
        word,
        &[x.saturating_add(48), y],
    )
}

/// Which colour is which task, and which line stands for what.
pub(crate) fn write_legend(
    out: &mut PictureText,
    view: View<'_>,
    endings: &[(Origin, Ending)],
    line: &mut PictureText,
) {
    let layout = view.layout;
    let top = layout.legend.saturating_add(ABOVE);
    write_tasks(out, view, endings, top, line);
    let y = top
        .saturating_add(tasks_height(layout, endings.len()))
        .saturating_add(18);
    write_sample(out, "lg", "goes on", 16, y);
    write_sample(out, "lc", "call", 160, y);
    write_sample(out, "lr", "return", 284, y);
    write_sample(out, "ls", "spawn", 418, y);
    write_sample(out, "lw", "waits", 548, y);
    write_sample(out, "lk", "wakes", 678, y);
    begin_text(out, "t g", 16, y.saturating_add(26));
    out.say(
        "p0 to p3: the priority, \u{25b2} where it was raised; c1: the task was cancelled. Below a box: what its turn did and changed.".as_bytes(),
    );
    if endings.len() > TOLD {
        let others = endings.len().saturating_sub(TOLD);
        out.fill(" Not listed: $ tasks.", &[others]);
    }
    end_text(out);
    if layout.is_wrapped() {
        write_on_rows(out, y.saturating_add(26 + ROW))
    }
}
