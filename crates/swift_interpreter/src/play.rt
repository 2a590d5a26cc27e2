//! The statements of one turn.

ghost use Rattle.std.specs.Prelude.{◌≡◌, true, false, IfOk};
ghost use Rattle.swift_interpreter.specs.Turn.{act, at_limit, end_of, leaves, turn as turn_of, yielding};
ghost use Rattle.swift_interpreter.specs.TurnStates.{fields_before, lent, played_of, state_of};
ghost use Rattle.script_code.specs.Instructions.{FollowsCode, first};

use crate::at_once::step_at_once;
use crate::exit::Exit;
use crate::group::close;
use crate::saved::SavedRows;
use crate::settle::settle;
use crate::step::step;
use crate::turn_state::TurnState;
use script_code::{Act, Instruction};
use std::alloc::{AllocError, Global};
use swift_locals::Bindings;
use swift_types::{Env, Fault};

// At most `limit` steps.
#[inline(never)]
pub fn play<'a>(
    alloc: Global,
    instructions: &[Instruction],
    outer: &'a Bindings,
    env: &'a Env,
    turn: &mut TurnState,
    saved: &mut SavedRows,
    limit: u32,
) -> Result<Exit, AllocError>
    ensures played { IfOk result (λ exit. (code : _) → (at : _) → FollowsCode instructions.now code at
        → played_of (state_of at turn.new) exit ≡ turn_of (lent outer.now env.now) limit (state_of at turn.old)) }
    ensures back { fields_before saved.new turn.new ≡ fields_before saved.old turn.old }
    ensures method { turn.new.frame.method ≡ turn.old.frame.method }
{
    for used in 0..limit {
        let done = step_at_once(alloc, instructions, turn, saved)?;
        if done {
            continue;
        }
        settle(instructions, turn);
        let gave = gives_way(instructions, turn);
        if gave {
            return Ok(Exit::Yield);
        }
        if let Some(exit) = step(alloc, instructions, outer, env, turn, saved)? {
            return Ok(exit);
        }
    }
    settle(instructions, turn);
    Ok(end_of_steps(instructions, turn))
}

// Does the statement that comes next, if it gives way. Says whether it did; else nothing is done. Most turns end so, and a step costs
// more than all of this.
#[inline(always)]
fn gives_way(instructions: &[Instruction], turn: &mut TurnState) -> bool
    ensures done { result ≡ true → (g : _) → (code : _) → (at : _) → FollowsCode instructions.now code at
        → leaves (state_of at turn.new) yielding ≡ act g (first (at turn.old.frame.instruction)) (state_of at turn.old) }
    ensures other { result ≡ false → turn.new ≡ turn.old }
    ensures fields { turn.new.fields.items ≡ turn.old.fields.items }
    ensures method { turn.new.frame.method ≡ turn.old.frame.method }
{
    let Some(instruction) = instructions.get(turn.frame.instruction as usize) else {
        return false;
    };
    match instruction.act {
        Act::Yield => {
            turn.frame.instruction = instruction.next;
            true
        }
        _ => false,
    }
}

// No step is left. The end of the method and the end of a group's block are none.
fn end_of_steps(instructions: &[Instruction], turn: &mut TurnState) -> Exit
    ensures end { (code : _) → (at : _) → FollowsCode instructions.now code at
        → played_of (state_of at turn.new) result ≡ end_of (at_limit (first (at turn.old.frame.instruction)) (state_of at turn.old)) }
    ensures fields { turn.new.fields.items ≡ turn.old.fields.items }
    ensures method { turn.new.frame.method ≡ turn.old.frame.method }
{
    let Some(instruction) = instructions.get(turn.frame.instruction as usize) else {
        return Exit::Return(0);
    };
    match &instruction.act {
        Act::End => Exit::Return(0),
        Act::Close => match close(turn, instruction.next) {
            Some(exit) => exit,
            None => Exit::Fault(Fault::Steps),
        },
        _ => Exit::Fault(Fault::Steps),
    }
}
