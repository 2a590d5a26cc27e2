//! Undoing a turn.

ghost use Rattle.std.specs.Prelude.{◌≡◌, ◌≤◌, [], IfOk, OnErr, OnOk, vec_capacity, vec_len};
ghost use Rattle.swift_interpreter.specs.Frames.{blank_frame, frame_view, state_in};
ghost use Rattle.swift_interpreter.specs.Turn.{exits};
ghost use Rattle.swift_interpreter.specs.TurnStates.{exit_view, fields_before, played_of, state_of};
ghost use Rattle.script_code.specs.Seen.{rows_of};

use std::alloc::{AllocError, Global};
use std::mem;
use swift_interpreter::{Exit, Frame, SavedRows, TurnState, leave_frame};

/// What undoes a turn: buffers for a copy of its frame and for the rows of fields that it has changed (our own). It may serve any
/// turn, and they are used again from one to the next.
pub struct Undo {
    /// The frame from before the turn.
    pub frame: Frame,
    /// The rows that the turn has set, as they were.
    pub saved: SavedRows,
}

impl Drop for Undo {
    fn drop(self) {
        let Undo { frame, saved } = self;
        drop(frame);
        drop(saved);
    }
}

impl Undo {
    /// Nothing to undo. It takes no memory.
    pub fn new(alloc: Global) -> Self
        ensures frame { frame_view result.frame ≡ blank_frame }
        ensures saved { result.saved ≡ [] }
    {
        Undo {
            frame: Frame::new(alloc),
            saved: SavedRows::new(alloc),
        }
    }

    /// Makes room for a copy of a frame, so that a turn of it takes no memory for that. An error says that a growth was
    /// refused. It may be called between turns only.
    pub fn make_room(&mut self, frame: &Frame) -> Result<(), AllocError>
        ensures variables { OnOk result (vec_len frame.now.variables ≤ vec_capacity self.new.frame.variables) }
        ensures handles { OnOk result (vec_len frame.now.handles ≤ vec_capacity self.new.frame.handles) }
        ensures own { OnOk result (vec_len frame.now.own ≤ vec_capacity self.new.frame.own) }
        ensures groups { OnOk result (vec_len frame.now.groups ≤ vec_capacity self.new.frame.groups) }
        ensures saved { self.new.saved ≡ self.old.saved }
    {
        self.frame.variables.clear();
        self.frame.variables.reserve(frame.variables.len())?;
        self.frame.handles.clear();
        self.frame.handles.reserve(frame.handles.len())?;
        self.frame.own.clear();
        self.frame.own.reserve(frame.own.len())?;
        self.frame.groups.clear();
        self.frame.groups.reserve(frame.groups.len())
    }
}

// A turn begins, with no effects, which may make this many tasks; `before` becomes a copy of its frame, and no rows are saved.
pub fn begin_turn(
    before: &mut Frame,
    saved: &mut SavedRows,
    turn: &mut TurnState,
    room: u32,
) -> Result<(), AllocError>
    ensures state { (at : _) → state_of at turn.new ≡ state_in at (frame_view turn.old.frame) (rows_of turn.old.fields.items) [] room }
    ensures frame { frame_view turn.new.frame ≡ frame_view turn.old.frame }
    ensures fields { turn.new.fields.items ≡ turn.old.fields.items }
    ensures method { turn.new.frame.method ≡ turn.old.frame.method }
    ensures copy { OnOk result (frame_view before.new ≡ frame_view turn.old.frame) }
    ensures copy_method { OnOk result (before.new.method ≡ turn.old.frame.method) }
    ensures saved { saved.new ≡ [] }
{
    turn.effects.clear();
    turn.room = room;
    saved.clear();
    before.copy_from(&turn.frame)
}

// The turn under way is undone: it has done nothing, and may make this many tasks.
pub fn undo_turn(before: &mut Frame, saved: &mut SavedRows, turn: &mut TurnState, room: u32)
    ensures state { (at : _) → state_of at turn.new ≡ state_in at (frame_view before.old) (fields_before saved.old turn.old) [] room }
    ensures frame { frame_view turn.new.frame ≡ frame_view before.old }
    ensures fields { rows_of turn.new.fields.items ≡ fields_before saved.old turn.old }
    ensures method { turn.new.frame.method ≡ before.old.method }
    ensures saved { saved.new ≡ [] }
{
    mem::swap(&mut turn.frame, before);
    saved.put_back(&mut turn.fields);
    turn.effects.clear();
    turn.room = room;
}

// The turn under way is undone, and its frame is left as the exit says. The frame from before it is still held. After an error
// the frame is not left.
pub fn leave_undone(
    before: &mut Frame,
    saved: &mut SavedRows,
    turn: &mut TurnState,
    room: u32,
    exit: Exit,
) -> Result<Exit, AllocError>
    ensures left { IfOk result (λ last. (at : _) → played_of (state_of at turn.new) last
        ≡ exits (state_in at (frame_view before.old) (fields_before saved.old turn.old) [] room) (exit_view exit)) }
    ensures before { OnOk result (frame_view before.new ≡ frame_view before.old) }
    ensures frame { OnErr result (frame_view turn.new.frame ≡ frame_view before.old) }
    ensures fields { rows_of turn.new.fields.items ≡ fields_before saved.old turn.old }
    ensures method { turn.new.frame.method ≡ before.old.method }
    ensures saved { saved.new ≡ [] }
{
    undo_turn(before, saved, turn, room);
    before.copy_from(&turn.frame)?;
    Ok(leave_frame(turn, exit))
}
