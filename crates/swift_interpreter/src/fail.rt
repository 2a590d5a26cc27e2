//! A frame that a fault leaves.

ghost use Rattle.std.specs.Prelude.{◌≡◌};
ghost use Rattle.swift_interpreter.specs.Turn.{exits, left_by};
ghost use Rattle.swift_interpreter.specs.TurnStates.{exit_view, played_of, state_of};

use crate::exit::Exit;
use crate::group::pop_group;
use crate::turn_state::TurnState;
use swift_types::Fault;

/// Leaves the frame as the exit says: a fault ends its bindings, and closes its innermost group first, if one is open (our own).
pub fn leave_frame(turn: &mut TurnState, exit: Exit) -> Exit
    ensures left { (at : _) → played_of (state_of at turn.new) result ≡ exits (state_of at turn.old) (exit_view exit) }
    ensures fields { turn.new.fields.items ≡ turn.old.fields.items }
    ensures method { turn.new.frame.method ≡ turn.old.frame.method }
{
    match exit {
        Exit::Fault(f) => leave_by(turn, f),
        _ => exit,
    }
}

// A fault leaves the frame: its bindings go, and the innermost group is closed first, if one is open.
fn leave_by(turn: &mut TurnState, f: Fault) -> Exit
    ensures left { (at : _) → let s = state_of at turn.old in played_of (state_of at turn.new) result ≡ left_by f s.groups s }
    ensures fields { turn.new.fields.items ≡ turn.old.fields.items }
    ensures method { turn.new.frame.method ≡ turn.old.frame.method }
{
    turn.frame.own.clear();
    match pop_group(&mut turn.frame.groups) {
        Some(group) => {
            turn.frame.pending = Some(f);
            Exit::Close(group, Some(f))
        }
        None => Exit::Fault(f),
    }
}
