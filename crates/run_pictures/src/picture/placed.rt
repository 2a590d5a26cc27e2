//! When the turn of each box ran, and what made it.

ghost use Rattle.std.specs.Prelude.{◌≡◌};
ghost use Rattle.run_pictures.specs.UndoneInside.{undoes_its_turn};

use crate::picture::boxes::TurnBox;
use crate::picture::history::{History, TurnMoment, sum_up};
use std::alloc::{AllocError, Global};
use swift_journal::BriefExit;
use swift_types::{Fault, Resume, TaskId};

/// When the turn of a box ran, what made it, and whether it was undone.
#[derive(Clone, Copy)]
pub(crate) struct PlacedTurn {
    /// What the log says of it. Its columns count only turns that have a box.
    pub moment: TurnMoment,
    /// The box of the turn that made its job, if it has one.
    pub maker: Option<usize>,
    /// The box of the turn before it of the same task, if it has one.
    pub before: Option<usize>,
    /// Whether it was undone.
    pub is_undone: bool,
}

// Whether a fault undoes the turn in which it comes up.
fn undoes(fault: Fault) -> bool
    ensures { result ≡ undoes_its_turn fault }
{
    matches!(
        fault,
        Fault::Invariant | Fault::Overflow | Fault::Steps | Fault::Tasks | Fault::Isolation
    )
}

// The fault that a turn has left its frame with, or will once its groups are closed.
fn fault_of(exit: BriefExit) -> Option<Fault> {
    match exit {
        BriefExit::Fault(fault) => Some(fault),
        BriefExit::Close(_, pending) => pending,
        _ => None,
    }
}

// Whether the turn before had this fault pending, which this turn goes on with.
fn was_pending(before: Option<&TurnBox>, fault: Fault) -> bool {
    match before {
        Some(
            TurnBox {
                exit: BriefExit::Close(_, Some(pending)),
                ..
            },
        ) => *pending == fault,
        _ => false,
    }
}

// Whether a turn was undone: its fault is one that undoes a turn, and came up in this one. It did not where the turn began with it, or
// where it was pending before.
fn is_undone(turn: &TurnBox, before: Option<&TurnBox>) -> bool {
    let Some(fault) = fault_of(turn.exit) else {
        return false;
    };
    undoes(fault) && turn.resume != Resume::Fault(fault) && !was_pending(before, fault)
}

// The box of each slot, if it has one.
fn boxes_by_slot(
    alloc: Global,
    history: &History,
    boxes: &[TurnBox],
) -> Result<Vec<Option<usize>>, AllocError> {
    let mut by_slot = vec![in alloc; None; history.len()]?;
    for (place, turn) in boxes.iter().enumerate() {
        if let Some(entry) = by_slot.get_mut(history.slot(turn.task, turn.number)) {
            *entry = Some(place);
        }
    }
    Ok(by_slot)
}

// The box of a slot, if it has one.
fn box_at(by_slot: &[Option<usize>], slot: usize) -> Option<usize> {
    match by_slot.get(slot) {
        Some(found) => *found,
        None => None,
    }
}

// The box of the turn before this one of its task, if it has one.
fn box_before(history: &History, by_slot: &[Option<usize>], turn: &TurnBox) -> Option<usize> {
    let number = turn.number.checked_sub(1)?;
    box_at(by_slot, history.slot(turn.task, number))
}

// Leaves out the columns of turns that have no box.
fn close_columns(
    alloc: Global,
    columns: usize,
    placed: &mut [PlacedTurn],
) -> Result<(), AllocError> {
    let mut before = vec![in alloc; 0_usize; columns.saturating_add(1)]?;
    for one in placed.iter() {
        if let Some(count) = before.get_mut(one.moment.column) {
            *count = 1;
        }
    }
    let all = sum_up(&mut before);
    for one in placed.iter_mut() {
        let next = one.moment.last_column.saturating_add(1);
        one.moment.column = before.get(one.moment.column).copied().unwrap_or(all);
        one.moment.last_column = before.get(next).copied().unwrap_or(all).saturating_sub(1);
    }
    Ok(())
}

/// When the turn of each box ran, and what made it, in the order of boxes, in time and memory linear in the log. An `Err` says that a
/// growth was refused.
pub(crate) fn place_boxes(
    alloc: Global,
    history: &History,
    boxes: &[TurnBox],
) -> Result<Vec<PlacedTurn>, AllocError> {
    let by_slot = boxes_by_slot(alloc, history, boxes)?;
    let mut placed = Vec::with_capacity(alloc, boxes.len())?;
    for turn in boxes {
        let moment = history.moment(history.slot(turn.task, turn.number));
        let maker = match moment.maker {
            Some(slot) => box_at(&by_slot, slot),
            None => None,
        };
        let before = box_before(history, &by_slot, turn);
        let is_undone = match before {
            Some(place) => is_undone(turn, boxes.get(place)),
            None => is_undone(turn, None),
        };
        placed.push(PlacedTurn {
            moment,
            maker,
            before,
            is_undone,
        })?;
    }
    close_columns(alloc, history.columns, &mut placed)?;
    Ok(placed)
}
