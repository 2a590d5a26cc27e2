//! A run as a picture: a list of boxes, one for each turn, when each ran and what made it; and its text, as SVG and as a trace.

ghost use Rattle.std.specs.Prelude.{◌≡◌, IfOk};
ghost use Rattle.run_pictures.specs.Boxes.{boxes_of};

// What stands below a box.
mod below;
// One box for each turn.
mod boxes;
// The box of a turn, with what stands in it.
mod card;
// One cell for turns in a row that only give way.
mod cells;
// Why a picture was not written.
mod fault;
// What turns did to the fields.
mod fields;
// Turns that only give way, folded.
mod folds;
// What the log says of each turn.
mod history;
// When the turn of each box ran, and what made it.
mod placed;
// Texts that are being written.
mod picture_text;
// Pieces of texts.
mod pieces;
// Fonts, colours and lines.
mod style;
// A picture as SVG.
mod svg;
// Lines of text.
mod text;
// The lanes of a picture, and where things stand in it.
mod layout;
// The legend of a picture.
mod legend;
// Lines from turn to turn.
mod lines;
// How one turn made the job of another.
mod links;
// What a turn did with groups, and whom it cancelled.
mod marks;
// An overview of several rows.
mod overview;
// Which turns only give way.
mod quiet;
// The rows of a picture.
mod rows;
// A picture as a trace.
mod trace;
// Turns in words.
pub mod word;

use crate::picture::boxes::boxes_of;
use crate::picture::history::history_of;
use crate::picture::placed::{PlacedTurn, place_boxes};
pub use boxes::{TurnBox, box_at};
pub use cells::{Cell, cells_of};
pub use fault::PictureFault;
pub use quiet::gives_way;
use std::alloc::{AllocError, Global};
pub use svg::{PlayedTurns, played_turns, svg_text};
use swift_journal::Checkpoint;
use swift_log::EventLog;
use swift_report::Report;
pub use trace::write_trace;

/// A run as a picture (our own): a box for each turn of the journals, and what the log says of when it ran and what made it. Turns that
/// were folded have no box.
#[derive(Drop)]
pub struct Picture {
    /// The boxes.
    pub boxes: Vec<TurnBox>,
    // When the turn of each box ran, in the order of boxes.
    pub(crate) placed: Vec<PlacedTurn>,
    // How many turns of each executor were folded.
    pub(crate) folded: Vec<usize>,
}

impl Picture {
    // The box at a place, with when its turn ran.
    pub(crate) fn at(&self, place: usize) -> Option<(&TurnBox, &PlacedTurn)> {
        let turn = self.boxes.get(place)?;
        let placed = self.placed.get(place)?;
        Some((turn, placed))
    }
}

// How many turns of each executor were folded.
fn folded_turns(alloc: Global, checkpoints: &[Checkpoint]) -> Result<Vec<usize>, AllocError> {
    let mut folded = Vec::with_capacity(alloc, checkpoints.len())?;
    for checkpoint in checkpoints {
        folded.push(checkpoint.len())?;
    }
    Ok(folded)
}

// When the turn of each box ran, and what made it, by the log of a run of `tasks` tasks.
fn placed_by_log(
    alloc: Global,
    tasks: usize,
    log: &EventLog,
    boxes: &[TurnBox],
) -> Result<Vec<PlacedTurn>, AllocError> {
    let history = history_of(alloc, tasks, log)?;
    place_boxes(alloc, &history, boxes)
}

/// The picture of a run, in time and memory linear in its report: one box for each turn of the journals, with that turn's task, number
/// and exit, in that order.
///
/// # Errors
///
/// `AllocError` where no memory is left for it.
pub fn picture_of(alloc: Global, report: &Report) -> Result<Picture, AllocError>
    ensures { IfOk result (λ picture. picture.boxes.items ≡ boxes_of 0 report.now.journals.items) }
{
    let boxes = boxes_of(alloc, &report.journals)?;
    let placed = placed_by_log(alloc, report.endings.len(), &report.log, &boxes)?;
    let folded = folded_turns(alloc, &report.checkpoints)?;
    Ok(Picture {
        boxes,
        placed,
        folded,
    })
}
