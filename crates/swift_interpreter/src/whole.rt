//! A whole turn: its resume, and its statements.

ghost use Rattle.std.specs.Prelude.{◌≡◌, IfOk};
ghost use Rattle.swift_interpreter.specs.Turn.{whole_turn};
ghost use Rattle.swift_interpreter.specs.TurnStates.{fields_before, given_of, played_of, state_of};
ghost use Rattle.script_code.specs.Instructions.{FollowsCode};

use crate::exit::Exit;
use crate::given::TurnInput;
use crate::play::play;
use crate::resume::take;
use crate::saved::SavedRows;
use crate::turn_state::TurnState;
use std::alloc::{AllocError, Global};
use swift_types::Resume;

/// Plays the turn of a frame that begins with a resume, of at most `limit` steps (SE-0306 for turns that end at each await;
/// steps and faults are our own). What it has done stands in `turn`, however it ends, and after an error too; each row of
/// fields that it changes is saved before that, so that `saved` can put the fields back.
pub fn play_whole(
    alloc: Global,
    given: TurnInput<'_>,
    turn: &mut TurnState,
    saved: &mut SavedRows,
    resume: Resume,
    limit: u32,
) -> Result<Exit, AllocError>
    ensures played { IfOk result (λ exit. (code : _) → (at : _) → FollowsCode given.entry.instructions.now code at
        → played_of (state_of at turn.new) exit ≡ whole_turn (given_of given.entry) limit (state_of at turn.old) resume) }
    ensures back { fields_before saved.new turn.new ≡ fields_before saved.old turn.old }
    ensures method { turn.new.frame.method ≡ turn.old.frame.method }
{
    let TurnInput {
        instructions,
        outer,
        env,
        ..
    } = given;
    if let Some(exit) = take(alloc, instructions, outer, env, turn, saved, resume)? {
        return Ok(exit);
    }
    play(alloc, instructions, outer, env, turn, saved, limit)
}
