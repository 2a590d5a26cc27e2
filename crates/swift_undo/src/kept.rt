//! A whole turn, and what is kept of it.

ghost use Rattle.std.specs.Prelude.{◌≡◌, ℕ, IfOk, OnErr, OnOk};
ghost use Rattle.swift_interpreter.specs.Frames.{frame_view};
ghost use Rattle.swift_interpreter.specs.Saved.{restored};
ghost use Rattle.swift_interpreter.specs.Turn.{kept, undoes as undoes_turn};
ghost use Rattle.swift_interpreter.specs.TurnStates.{beginning, exit_view, given_of, played_of, state_of};
ghost use Rattle.script_code.specs.Instructions.{FollowsCode};
ghost use Rattle.script_code.specs.Seen.{rows_of};
ghost use Rattle.script_code.specs.Tree.{Code, terms_of};
ghost use Rattle.swift_undo.specs.Rows.{AreSpared};

use crate::rows::InvariantRows;
use crate::tested::all_hold;
use crate::undo::{begin_turn, leave_undone, undo_turn};
use std::alloc::{AllocError, Global};
use swift_interpreter::{Exit, Frame, SavedRows, TurnInput, TurnState, leave_frame, play_whole};
use swift_types::{Fault, Resume};

/// Plays the turn of a frame that begins with a resume, of at most `limit` steps, and leaves in `turn` what is kept of
/// it: the frame, the fields, and the effects in order (SE-0306 for turns that end at each await; steps, faults and
/// undoing are our own). Effects and room that stood in `turn` before count for nothing.
///
/// A turn that ends with `overflow`, `steps`, `tasks` or `isolation` is undone, and one that would leave an invariant
/// of the executor's actors false, with the fault `invariant`: all is as before it, has no effects, and the frame is left
/// with that fault. Where the instructions stand for statements, what is kept is that of the statements.
///
/// Only those invariants are tested that the turn can have made false: of the first ones, beside each of which `rows` has the row that it
/// reads (`rows_of_invariants`), and which hold before the turn, those whose row the turn has set; and the others.
///
/// The last two are buffers of the caller's, which are used again from turn to turn: `before` becomes the frame from before
/// the turn, and `saved` the rows that it has set, as they were. What they had before counts for nothing.
///
/// Where memory runs out, the frame and the fields are as before.
///
/// It costs the steps, a copy of the frame (two where the turn is undone), a copy of each row of fields that it changes, and the
/// invariants that it tests: it does not look at the others. It takes memory only where a list grows.
pub fn play_kept(
    alloc: Global,
    given: TurnInput<'_>,
    rows: &InvariantRows,
    turn: &mut TurnState,
    before: &mut Frame,
    saved: &mut SavedRows,
    resume: Resume,
    limit: u32,
) -> Result<Exit, AllocError>
    requires { AreSpared rows.now (terms_of given.invariants.now) (rows_of turn.old.fields.items) }
    ensures kept { IfOk result (λ exit. (code : Code) → (at : ℕ → Code) → FollowsCode given.entry.instructions.now code at
        → played_of (state_of at turn.new) exit
        ≡ kept (given_of given.entry) limit (terms_of given.entry.invariants.now) (beginning at given.entry.env.now turn.old) resume) }
    ensures frame { OnErr result (frame_view turn.new.frame ≡ frame_view turn.old.frame) }
    ensures fields { OnErr result (rows_of turn.new.fields.items ≡ rows_of turn.old.fields.items) }
    ensures method { turn.new.frame.method ≡ turn.old.frame.method }
    ensures before { OnOk result (frame_view before.new ≡ frame_view turn.old.frame) }
    ensures saved { restored saved.new (rows_of turn.new.fields.items) ≡ rows_of turn.old.fields.items }
{
    let room = given.env.room;
    begin_turn(before, saved, turn, room)?;
    let Ok(exit) = play_whole(alloc, given, turn, saved, resume, limit) else {
        undo_turn(before, saved, turn, room);
        return Err(AllocError);
    };
    if undoes(&exit) {
        return leave_undone(before, saved, turn, room, exit);
    }
    if !all_hold(alloc, given.invariants, rows, saved, &turn.fields) {
        return leave_undone(before, saved, turn, room, Exit::Fault(Fault::Invariant));
    }
    Ok(leave_frame(turn, exit))
}

// Whether an exit undoes its turn.
fn undoes(exit: &Exit) -> bool
    ensures { result ≡ undoes_turn (exit_view exit.now) }
{
    matches!(
        exit,
        Exit::Fault(Fault::Overflow | Fault::Steps | Fault::Tasks | Fault::Isolation)
    )
}
