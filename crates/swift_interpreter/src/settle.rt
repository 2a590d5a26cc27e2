//! The ends of `bind` blocks.

ghost use Rattle.std.specs.Prelude.{◌≡◌, slice_get};
ghost use Rattle.swift_interpreter.specs.Turn.{settled, tail};
ghost use Rattle.swift_interpreter.specs.TurnStates.{state_of, unbound};
ghost use Rattle.script_code.specs.Instructions.{FollowsCode};
ghost use Rattle.script_code.specs.Seen.{pairs_of};

use crate::turn_state::TurnState;
use script_code::{Act, Binding, Instruction};

// The `bind` blocks that end next end. There are at most as many as there are instructions, since statements have an end.
pub fn settle(instructions: &[Instruction], turn: &mut TurnState)
    ensures settled { (code : _) → (at : _) → FollowsCode instructions.now code at
        → state_of at turn.new ≡ settled (at turn.old.frame.instruction) (state_of at turn.old) }
    ensures fields { turn.new.fields.items ≡ turn.old.fields.items }
    ensures method { turn.new.frame.method ≡ turn.old.frame.method }
{
    for ended in 0..instructions.len() {
        let Some(next) = unbind_at(instructions, turn.frame.instruction) else {
            return;
        };
        unbind(turn, next);
    }
}

// The instruction after the end of a `bind` block, where one stands there.
fn unbind_at(instructions: &[Instruction], line: u32) -> Option<u32>
    ensures { result ≡ unbound (slice_get instructions.now line) }
{
    match instructions.get(line as usize) {
        Some(instruction) => match instruction.act {
            Act::Unbind => Some(instruction.next),
            _ => None,
        },
        None => None,
    }
}

// The innermost binding ends, and the frame goes on at an instruction.
pub fn unbind(turn: &mut TurnState, next: u32)
    ensures state { (at : _) → let s = state_of at turn.old in state_of at turn.new ≡ record s { todo = at next; own = tail s.own } }
    ensures fields { turn.new.fields.items ≡ turn.old.fields.items }
    ensures method { turn.new.frame.method ≡ turn.old.frame.method }
{
    drop_innermost(&mut turn.frame.own);
    turn.frame.instruction = next;
}

fn drop_innermost(own: &mut Vec<Binding>)
    ensures { pairs_of own.new.items ≡ tail (pairs_of own.old.items) }
{
    let _ = own.pop();
}
