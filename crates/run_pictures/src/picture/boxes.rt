//! One box for each turn.

ghost use Rattle.std.specs.Prelude.{◌≡◌, ◌<◌, ◌++◌, length, map, slice_index_or, IfOk, OnOk};
ghost use Rattle.swift_journal.specs.Records.{RecordView};
ghost use Rattle.run_pictures.specs.Boxes.{box_of, boxes_of};

use std::alloc::{AllocError, Global};
use swift_journal::{BriefExit, Journal};
use swift_types::{Env, MethodId, Resume, TaskId};

/// The box of a turn, with what the turn's journal says of it (our own).
#[derive(Clone, Copy)]
pub struct TurnBox {
    /// The place of its executor, whose journal has the turn.
    pub executor: usize,
    /// Its task.
    pub task: TaskId,
    /// Its number among the turns of its task, from 0.
    pub number: u32,
    /// The worker that ran it, from 0.
    pub worker: u32,
    /// The method of its frame.
    pub method: MethodId,
    /// What it was given.
    pub env: Env,
    /// What it began with.
    pub resume: Resume,
    /// How it ended.
    pub exit: BriefExit,
}

/// The box of the turn at a place of a journal.
pub fn box_at(journal: &Journal, executor: usize, place: usize) -> TurnBox
    requires { place < length journal.now }
    ensures { (d : RecordView) → result ≡ box_of executor (slice_index_or journal.now place d) }
{
    TurnBox {
        executor,
        task: journal.task(place),
        number: journal.number(place),
        worker: journal.worker(place),
        method: journal.method(place),
        env: journal.env(place),
        resume: journal.resume(place),
        exit: journal.exit(place),
    }
}

// Adds the boxes of an executor.
fn add_boxes(boxes: &mut Vec<TurnBox>, executor: usize, journal: &Journal) -> Result<(), AllocError>
    ensures { OnOk result (boxes.new.items ≡ boxes.old.items ++ map (box_of executor) journal.now) }
{
    for place in 0..journal.len() {
        boxes.push(box_at(journal, executor, place))?;
    }
    Ok(())
}

// How many turns the journals have.
fn turns(journals: &[Journal]) -> usize {
    let mut sum = 0_usize;
    for journal in journals {
        sum = sum.saturating_add(journal.len());
    }
    sum
}

/// One box for each turn of the journals, in the order of executors and then of turns. An `Err` says that a growth was refused.
pub(crate) fn boxes_of(alloc: Global, journals: &[Journal]) -> Result<Vec<TurnBox>, AllocError>
    ensures { IfOk result (λ boxes. boxes.items ≡ boxes_of 0 journals.now) }
{
    let mut boxes = Vec::with_capacity(alloc, turns(journals))?;
    for (executor, journal) in journals.iter().enumerate() {
        add_boxes(&mut boxes, executor, journal)?;
    }
    Ok(boxes)
}
