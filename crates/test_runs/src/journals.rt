//! Changes of journals and of checkpoints.

use std::alloc::{AllocError, Global};
use swift_interpreter::Frame;
use swift_journal::{Checkpoint, Folded, Journal, OwnedRecord, Record};
use swift_locals::Bindings;
use swift_types::{Env, Priority, Resume, TaskId};
use test_support::CaseFault;

/// What is changed of each turn of a journal.
#[derive(Clone, Copy)]
pub enum JournalChange {
    /// The worker that ran it.
    Worker(u32),
    /// Its task was cancelled.
    Flag,
    /// Its task has made this number of tasks, if it is this one.
    Made(TaskId, u64),
}

// Makes a change of a turn.
fn change_turn(turn: &mut OwnedRecord, change: JournalChange) {
    match change {
        JournalChange::Worker(worker) => turn.worker = worker,
        JournalChange::Flag => turn.env.cancelled = true,
        JournalChange::Made(task, made) => {
            if turn.task == task {
                turn.frame.made = made;
                set_made(&mut turn.after, made);
            }
        }
    }
}

// Sets how many tasks the task of a frame has made.
fn set_made(frame: &mut Option<Frame>, made: u64) {
    if let Some(frame) = frame {
        frame.made = made;
    }
}

// Puts a turn to a journal.
fn push(journal: &mut Journal, turn: &OwnedRecord) -> Result<(), AllocError> {
    journal.push(&Record {
        task: turn.task,
        number: turn.number,
        worker: turn.worker,
        frame: &turn.frame,
        outer: &turn.outer,
        resume: turn.resume,
        env: turn.env,
        exit: &turn.exit,
        effects: &turn.effects,
        after: turn.after.as_ref(),
    })
}

/// The same turns, each changed.
pub fn changed_journal(
    alloc: Global,
    journal: &Journal,
    change: JournalChange,
) -> Result<Journal, AllocError> {
    let mut changed = Journal::new(alloc);
    for place in 0..journal.len() {
        let mut turn = journal.read(alloc, place)?;
        change_turn(&mut turn, change);
        push(&mut changed, &turn)?;
    }
    Ok(changed)
}

// Fields of one actor that has one.
fn one_field(alloc: Global, value: i64) -> Result<Vec<Vec<i64>>, AllocError> {
    let mut row = Vec::new(alloc);
    row.push(value)?;
    let mut rows = Vec::new(alloc);
    rows.push(row)?;
    Ok(rows)
}

// Folds the turns of a journal, after which the fields are these.
fn fold(
    checkpoint: &mut Checkpoint,
    mut journal: Journal,
    fields: Vec<Vec<i64>>,
) -> Result<(), AllocError> {
    checkpoint.make_room(&journal)?;
    checkpoint.fold(&mut journal, fields);
    Ok(())
}

/// Sets the fields of a checkpoint of one actor that has one field.
pub fn start_at(alloc: Global, checkpoint: &mut Checkpoint, value: i64) -> Result<(), AllocError> {
    let fields = one_field(alloc, value)?;
    fold(checkpoint, Journal::new(alloc), fields)
}

/// The same checkpoint without its last turn.
pub fn without_last(alloc: Global, checkpoint: &Checkpoint) -> Result<Checkpoint, CaseFault> {
    with_last(alloc, checkpoint, None)
}

/// The same checkpoint, whose last turn leaves no frame.
pub fn without_frame(alloc: Global, checkpoint: &Checkpoint) -> Result<Checkpoint, CaseFault> {
    let mut turn = last_of(alloc, checkpoint)?;
    turn.after = None;
    with_last(alloc, checkpoint, Some(&turn))
}

/// A checkpoint in whose last turn the frame that it leaves says that its task has made `made` tasks, and this task.
pub fn with_made(
    alloc: Global,
    checkpoint: &Checkpoint,
    made: u64,
) -> Result<(Checkpoint, TaskId), CaseFault> {
    let mut turn = last_of(alloc, checkpoint)?;
    set_made(&mut turn.after, made);
    let changed = with_last(alloc, checkpoint, Some(&turn))?;
    Ok((changed, turn.task))
}

// The last turn of a checkpoint.
fn last_of(alloc: Global, checkpoint: &Checkpoint) -> Result<Folded, CaseFault> {
    let count = checkpoint.len();
    if count == 0 {
        return Err(CaseFault::Form);
    }
    Ok(checkpoint.read(alloc, count - 1)?)
}

// The same checkpoint with this turn in place of its last one, or with none there.
fn with_last(
    alloc: Global,
    checkpoint: &Checkpoint,
    last: Option<&Folded>,
) -> Result<Checkpoint, CaseFault> {
    let mut journal = all_but_last(alloc, checkpoint)?;
    if let Some(turn) = last {
        push_folded(alloc, &mut journal, turn)?;
    }
    let fields = copy_of(alloc, checkpoint.fields())?;
    let mut changed = Checkpoint::new(alloc, Vec::new(alloc));
    fold(&mut changed, journal, fields)?;
    Ok(changed)
}

// The turns of a checkpoint but for the last, as far as it has them.
fn all_but_last(alloc: Global, checkpoint: &Checkpoint) -> Result<Journal, AllocError> {
    let mut journal = Journal::new(alloc);
    let left = checkpoint.len().saturating_sub(1);
    for place in 0..left {
        let turn = checkpoint.read(alloc, place)?;
        push_folded(alloc, &mut journal, &turn)?;
    }
    Ok(journal)
}

// The same fields.
fn copy_of(alloc: Global, fields: &[Vec<i64>]) -> Result<Vec<Vec<i64>>, AllocError> {
    let mut copy = Vec::new(alloc);
    for row in fields {
        copy.push(Vec::from_slice(alloc, row)?)?;
    }
    Ok(copy)
}

// Puts a turn to a journal of which a checkpoint has what is left. The rest of it is made up.
fn push_folded(alloc: Global, journal: &mut Journal, turn: &Folded) -> Result<(), AllocError> {
    journal.push(&Record {
        task: turn.task,
        number: turn.number,
        worker: 0,
        frame: &Frame::new(alloc),
        outer: &Bindings::new(alloc),
        resume: Resume::Go,
        env: Env {
            priority: Priority::Low,
            cancelled: false,
            room: 0,
        },
        exit: &turn.exit,
        effects: &turn.effects,
        after: turn.after.as_ref(),
    })
}
