//! A picture as SVG.

ghost use Rattle.std.specs.Prelude.{◌≡◌, List, ◌++◌, IfOk, OnOk, length};
ghost use Rattle.swift_events.specs.declared.life.Origin.{Origin};
ghost use Rattle.swift_types.specs.declared.outcome.Ending.{Ending};
ghost use Rattle.run_pictures.specs.Drawn.{AreDrawn, IsDrawn, IsPicture};
ghost use Rattle.run_pictures.specs.SaysInside.{AreNames, IsOfLayout, SaysSome, sheet_of};

use crate::picture::boxes::TurnBox;
use crate::picture::card::{Scratch, View, write_card};
use crate::picture::fields::{write_broken, write_changes};
use crate::picture::folds::folds_text;
use crate::picture::layout::{LEFT, Lane, Layout, OVER, TALL, left_of};
use crate::picture::legend::write_legend;
use crate::picture::lines::write_lines;
use crate::picture::marks::write_marks;
use crate::picture::overview::write_overview;
use crate::picture::picture_text::PictureText;
use crate::picture::placed::PlacedTurn;
use crate::picture::rows::Row;
use crate::picture::style::{LONG_STYLE, STYLE};
use crate::picture::text::{begin_text, end_text, write_text};
use crate::picture::{Picture, word};
use crate::{TurnValues, turn_values};
use std::alloc::{AllocError, Global};
use swift_events::Origin;
use swift_report::Report;
use swift_script::Script;
use swift_types::{Ending, ExecId, ExecutorKind, TaskId};
use task_names::task_name;

// How many characters of 13 pixels find room before the lanes.
const IN_GUTTER: usize = 18;

// How a run is called: its script and its workers.
fn write_heading(out: &mut PictureText, name: &str, workers: u32) {
    out.file_name(name);
    let words = if workers == 1 {
        ", $ worker"
    } else {
        ", $ workers"
    };
    out.fill(words, &[workers as usize])
}

// What stands before the lanes.
fn write_head(out: &mut PictureText, layout: &Layout, name: &str, workers: u32) {
    let (width, height) = (layout.width, layout.height);
    out.fill(
        "<svg xmlns=\"http://www.w3.org/2000/svg\" width=\"$\" height=\"$\" viewBox=\"0 0 $ $\">\n<title>",
        &[width, height, width, height],
    );
    write_heading(out, name, workers);
    out.say(b"</title>\n");
    out.say(STYLE.as_bytes());
    if layout.is_wrapped() || layout.has_folds() {
        out.say(LONG_STYLE.as_bytes());
    }
    out.say(b"<rect width=\"100%\" height=\"100%\" fill=\"#ffffff\"/>\n");
    begin_text(out, "h", 16, 28);
    write_heading(out, name, workers);
    end_text(out);
    begin_text(out, "t g", 16, 50);
    write_order(out, layout);
    end_text(out)
}

// How a picture is read, and how many turns it does not show.
fn write_order(out: &mut PictureText, layout: &Layout) {
    out.say(if layout.is_wrapped() {
        b"From left to right, and then the row below: the order of the log."
    } else {
        b"From left to right: the order of the log."
    });
    out.say(b" A box is a turn, in the colour of its task; a crossed one was undone.");
    if layout.earlier > 0 {
        out.fill(" Not shown: $ earlier turns.", &[layout.earlier]);
    }
}

// How an executor takes its jobs.
fn write_kind(out: &mut PictureText, script: &Script, executor: usize) {
    let kind = match u32::try_from(executor) {
        Ok(number) => script.executor_kind(ExecId(number)),
        Err(_) => ExecutorKind::Priority,
    };
    match kind {
        ExecutorKind::Priority => out.say(b"by priority"),
        ExecutorKind::Fifo => out.say(b"fifo"),
        ExecutorKind::Pinned(worker) => {
            out.say(b"pinned ");
            out.number(worker)
        }
    }
}

// What stands before a lane: its executor, and how it takes its jobs. Where the first of the two stands.
fn write_gutter(
    out: &mut PictureText,
    script: &Script,
    executor: usize,
    lane: &Lane,
    top: usize,
) -> usize {
    let at = top.saturating_add(if lane.shown == 0 { 20 } else { 62 });
    let name = word::executor_name(script, executor);
    write_text(out, "n", (16, at), name, IN_GUTTER);
    begin_text(out, "g", 16, at.saturating_add(16));
    write_kind(out, script, executor);
    end_text(out);
    at
}

// Below what stands before a lane, how many turns its executor has run.
fn write_turns(out: &mut PictureText, lane: &Lane, folded: usize, top: usize) {
    begin_text(out, "g", 16, top.saturating_add(32));
    let turns = lane.boxes.saturating_add(folded);
    out.fill(if turns == 1 { "$ turn" } else { "$ turns" }, &[turns]);
    end_text(out);
    let earlier = turns.saturating_sub(lane.shown);
    if earlier == 0 {
        return;
    }
    begin_text(out, "g", 16, top.saturating_add(48));
    out.fill("$ not shown", &[earlier]);
    end_text(out)
}

// A line from left to right.
fn write_rail(out: &mut PictureText, from: usize, y: usize, to: usize) {
    out.fill("<path class=\"o\" d=\"M$,$H$\"/>\n", &[from, y, to])
}

// The lines behind a lane: the one that its boxes stand on, and the one below it.
fn write_rails(out: &mut PictureText, layout: &Layout, lane: &Lane, top: usize) {
    if lane.shown > 0 {
        let middle = top.saturating_add(OVER + TALL / 2);
        write_rail(out, LEFT - 8, middle, layout.width);
    }
    write_rail(out, 0, top.saturating_add(lane.height()), layout.width)
}

// The name of an executor again, over each eighth column but the first, for those who scroll.
fn write_names(out: &mut PictureText, script: &Script, executor: usize, row: &Row, top: usize) {
    let name = word::executor_name(script, executor);
    for column in 1..row.cells {
        if column % 8 == 0 {
            let left = left_of(row.first.saturating_add(column));
            write_text(out, "g", (left, top.saturating_add(15)), name, IN_GUTTER);
        }
    }
}

// What stands before and behind the boxes of a lane that begins here, in a row.
fn write_lane(
    out: &mut PictureText,
    view: View<'_>,
    executor: usize,
    lane: &Lane,
    row: &Row,
    top: usize,
) {
    write_rails(out, view.layout, lane, top);
    let at = write_gutter(out, view.script, executor, lane, top);
    // Of several rows the overview says how many turns an executor has run.
    if view.layout.is_wrapped() {
        return;
    }
    let folded = view.picture.folded.get(executor).copied().unwrap_or(0);
    write_turns(out, lane, folded, at);
    if lane.shown > 0 {
        write_names(out, view.script, executor, row, top);
    }
}

// The number of a row.
fn write_number(out: &mut PictureText, row: usize, top: usize) {
    let number = row.saturating_add(1);
    out.fill(
        "<text id=\"row$\" class=\"h\" x=\"16\" y=\"$\">row $</text>\n",
        &[number, top.saturating_add(18), number],
    )
}

// The lanes of all rows.
fn write_rows(out: &mut PictureText, view: View<'_>) {
    for (place, row) in view.layout.rows.iter().enumerate() {
        if view.layout.is_wrapped() {
            write_number(out, place, row.top);
        }
        for (executor, lane) in view.layout.lanes.iter().enumerate() {
            if let Some(top) = view.layout.top(place, executor) {
                write_lane(out, view, executor, lane, row, top);
            }
        }
    }
}

// What stands below a box: what its turn did with groups, and to the fields.
fn write_lines_below(
    out: &mut PictureText,
    view: View<'_>,
    turn: &TurnBox,
    placed: &PlacedTurn,
    at: usize,
) {
    out.clear();
    write_marks(out, view.log, placed.moment.end);
    let Some(values) = view.values.get(turn.executor) else {
        return;
    };
    write_broken(out, view.broken_at(turn.executor, at));
    if let Some(done) = values.get(at) {
        write_changes(out, view.script, turn.executor, done, placed.is_undone);
    }
}

// The box of a turn, which stands at place `at` of its executor's journal: nothing where it is not shown by itself.
fn write_box(
    out: &mut PictureText,
    view: View<'_>,
    turn: &TurnBox,
    placed: &PlacedTurn,
    at: usize,
    scratch: &mut Scratch,
)
    ensures { (es : List (Origin × Ending)) → AreNames view.entry.script.now es view.entry.names.now → SaysSome (IsDrawn (sheet_of view.entry.script.now es view.entry.layout.now) turn.now placed.now) out.old out.new }
{
    let Some(slot) = view.layout.own_slot(placed) else {
        return;
    };
    write_lines_below(&mut scratch.below, view, turn, placed, at);
    write_card(out, view, turn, placed, slot, scratch)
}

// What the turns of an executor did to its fields; nothing where it has no journal.
fn values_at(
    alloc: Global,
    script: &Script,
    report: &Report,
    executor: usize,
) -> Result<Vec<TurnValues>, AllocError> {
    let Some(journal) = report.journals.get(executor) else {
        return Ok(Vec::new(alloc));
    };
    let Some(checkpoint) = report.checkpoints.get(executor) else {
        return Ok(Vec::new(alloc));
    };
    turn_values(alloc, script, checkpoint.fields(), journal)
}

/// What the turns of each executor's journal did to its fields. Each turn is played once more.
///
/// # Errors
///
/// `AllocError` where no memory is left for it.
pub fn played_turns(
    alloc: Global,
    script: &Script,
    report: &Report,
) -> Result<Vec<Vec<TurnValues>>, AllocError> {
    let mut all = Vec::with_capacity(alloc, report.journals.len())?;
    for executor in 0..report.journals.len() {
        all.push(values_at(alloc, script, report, executor)?)?;
    }
    Ok(all)
}

// What each task is called.
fn names_of(
    alloc: Global,
    script: &Script,
    endings: &[(Origin, Ending)],
) -> Result<Vec<Vec<u8>>, AllocError>
    ensures { IfOk result (λ names. AreNames script.now endings.now names.items) }
{
    let mut names = Vec::with_capacity(alloc, endings.len())?;
    for place in 0..endings.len() {
        let Ok(number) = u32::try_from(place) else {
            return Err(AllocError);
        };
        names.push(task_name(alloc, script, endings, TaskId(number))?)?;
    }
    Ok(names)
}

// The boxes of all turns, in order.
fn write_boxes(out: &mut PictureText, view: View<'_>, scratch: &mut Scratch)
    ensures { (es : List (Origin × Ending)) → AreNames view.entry.script.now es view.entry.names.now → SaysSome (AreDrawn (sheet_of view.entry.script.now es view.entry.layout.now) view.entry.picture.now.boxes.items view.entry.picture.now.placed.items) out.old out.new }
{
    let turns = &view.picture.boxes;
    let placed = &view.picture.placed;
    let mut executor = 0_usize;
    let mut first = 0_usize;
    for place in 0..turns.len().min(placed.len()) {
        if turns[place].executor != executor {
            executor = turns[place].executor;
            first = place;
        }
        let at = place.saturating_sub(first);
        write_box(out, view, &turns[place], &placed[place], at, scratch);
    }
}

// The same as a text.
fn boxes_text(alloc: Global, view: View<'_>, scratch: &mut Scratch) -> Result<Vec<u8>, AllocError>
    ensures { IfOk result (λ text. (es : List (Origin × Ending)) → AreNames view.entry.script.now es view.entry.names.now → AreDrawn (sheet_of view.entry.script.now es view.entry.layout.now) view.entry.picture.now.boxes.items view.entry.picture.now.placed.items text.items) }
{
    let mut out = PictureText::new(alloc);
    write_boxes(&mut out, view, scratch);
    scratch.below.whole()?;
    scratch.line.whole()?;
    scratch.rest.whole()?;
    let text = out.into_bytes()?;
    Ok(text)
}

// What comes before the boxes.
fn text_before(
    alloc: Global,
    view: View<'_>,
    name: &str,
    workers: u32,
) -> Result<Vec<u8>, AllocError> {
    let mut out = PictureText::new(alloc);
    write_head(&mut out, view.layout, name, workers);
    if view.layout.is_wrapped() {
        write_overview(&mut out, view.script, view.picture, view.layout);
    }
    write_rows(&mut out, view);
    write_lines(&mut out, view.layout, view.picture);
    out.into_bytes()
}

// What comes after the folds. What is written on is written on again.
fn text_after(
    alloc: Global,
    view: View<'_>,
    endings: &[(Origin, Ending)],
    scratch: &mut Scratch,
) -> Result<Vec<u8>, AllocError> {
    let mut out = PictureText::new(alloc);
    write_legend(&mut out, view, endings, &mut scratch.line);
    out.say(b"</svg>\n");
    scratch.line.whole()?;
    out.into_bytes()
}

// Appends the boxes, the folds, and what comes after them.
fn join(text: &mut Vec<u8>, boxes: &[u8], folds: &[u8], after: &[u8]) -> Result<(), AllocError>
    ensures { OnOk result (text.new.items ≡ text.old.items ++ boxes.now ++ folds.now ++ after.now) }
{
    text.extend_from_slice(boxes)?;
    text.extend_from_slice(folds)?;
    text.extend_from_slice(after)
}

// The boxes and the folds, and what comes before and after them, as one text.
fn whole_text(
    alloc: Global,
    view: View<'_>,
    endings: &[(Origin, Ending)],
    name: &str,
    workers: u32,
) -> Result<Vec<u8>, AllocError>
    requires names { AreNames view.script.now endings.now view.names.now }
    requires layout { IsOfLayout (length view.picture.now.boxes.items) view.layout.now }
    ensures { IfOk result (λ text. IsPicture view.entry.script.now endings.now view.entry.picture.now text.items) }
{
    let mut scratch = Scratch {
        below: PictureText::new(alloc),
        line: PictureText::new(alloc),
        rest: PictureText::new(alloc),
    };
    let mut text = text_before(alloc, view, name, workers)?;
    let boxes = boxes_text(alloc, view, &mut scratch)?;
    let folds = folds_text(alloc, view.picture, view.layout)?;
    let after = text_after(alloc, view, endings, &mut scratch)?;
    join(&mut text, &boxes, &folds, &after)?;
    Ok(text)
}

/// What the turns of a run's journals did, by executors, in order.
#[derive(Clone, Copy)]
pub struct PlayedTurns<'a> {
    /// What each did to the fields, as `played_turns` gives it.
    pub values: &'a [Vec<TurnValues>],
    /// The invariant that each would have left false, as the printed form has it; empty where it is none.
    pub broken: &'a [Vec<Vec<u8>>],
}

/// A picture of the run of a script as SVG (the form is our own): a lane for each executor, in it from left to right a box for each turn,
/// and lines for what made what. `name` is the path of the script, of which the last part is shown. More than twelve turns stand in rows of
/// twelve cells, below an overview, and four turns and more in a row that only give way are folded (`cells_of`, `gives_way`). Only the last
/// 1,000 cells are shown, and of the turns before them the number. It stands alone: no script, and no font that has to be loaded. What
/// stands below boxes is told by `played`. It is linear in the picture and the log, and takes for each row the executors, and what names of
/// tasks cost (`task_name`).
///
/// What it promises: the text has, one after the other, a box for each turn that is shown by itself, which begins with the turn's line and
/// stands in the lane of its executor, and then for each cell of several turns how many they are. It says nothing of what stands before
/// and after these, nor of what else is in them, nor in which order turns began, nor which were undone.
///
/// # Errors
///
/// `AllocError` where no memory is left for the text.
pub fn svg_text(
    alloc: Global,
    script: &Script,
    report: &Report,
    picture: &Picture,
    played: PlayedTurns<'_>,
    name: &str,
    workers: u32,
) -> Result<Vec<u8>, AllocError>
    ensures { IfOk result (λ text. IsPicture script.now report.now.endings.items picture.now text.items) }
{
    let names = names_of(alloc, script, &report.endings)?;
    let tasks = report.endings.len();
    let layout = Layout::of(alloc, picture, played.values, &report.log, tasks)?;
    let view = View {
        script,
        log: &report.log,
        picture,
        layout: &layout,
        names: &names,
        values: played.values,
        broken: played.broken,
    };
    let text = whole_text(alloc, view, &report.endings, name, workers)?;
    Ok(text)
}
