//! What a turn begins with.

ghost use Rattle.std.specs.Prelude.{◌≡◌, IfOk};
ghost use Rattle.swift_interpreter.specs.Turn.{caught, given, received, taken};
ghost use Rattle.swift_interpreter.specs.TurnStates.{fields_before, lent, next_of, state_of};
ghost use Rattle.script_code.specs.Instructions.{FollowsCode, first};
ghost use Rattle.script_code.specs.Tree.{term_if};

use crate::exit::Exit;
use crate::place::give;
use crate::saved::SavedRows;
use crate::turn_state::TurnState;
use script_code::{Act, Formula, Instruction, NumberPlace, Sight, value};
use std::alloc::{AllocError, Global};
use swift_locals::Bindings;
use swift_types::{Env, Fault, Resume};

// The resume goes to the await that stands open, if one does. None where the frame goes on.
pub fn take<'a>(
    alloc: Global,
    instructions: &[Instruction],
    outer: &'a Bindings,
    env: &'a Env,
    turn: &mut TurnState,
    saved: &mut SavedRows,
    resume: Resume,
) -> Result<Option<Exit>, AllocError>
    ensures next { IfOk result (λ exit. (code : _) → (at : _) → FollowsCode instructions.now code at
        → next_of (state_of at turn.new) exit ≡ taken (lent outer.now env.now) turn.old.frame.pending (first (at turn.old.frame.instruction)) resume (state_of at turn.old)) }
    ensures back { fields_before saved.new turn.new ≡ fields_before saved.old turn.old }
    ensures method { turn.new.frame.method ≡ turn.old.frame.method }
{
    if let Some(f) = turn.frame.pending {
        return Ok(Some(Exit::Fault(f)));
    }
    let Some(
        Instruction {
            act: Act::Receive(place, other),
            next,
            ..
        },
    ) = instructions.get(turn.frame.instruction as usize)
    else {
        return Ok(match resume {
            Resume::Fault(f) => Some(Exit::Fault(f)),
            _ => None,
        });
    };
    receive(alloc, resume, other, outer, env, turn, saved, *place, *next)
}

// The resume goes to an await that stands open.
fn receive<'a>(
    alloc: Global,
    resume: Resume,
    other: &Option<Formula>,
    outer: &'a Bindings,
    env: &'a Env,
    turn: &mut TurnState,
    saved: &mut SavedRows,
    place: Option<NumberPlace>,
    next: u32,
) -> Result<Option<Exit>, AllocError>
    ensures next { IfOk result (λ exit. (at : _) → next_of (state_of at turn.new) exit
        ≡ received (lent outer.now env.now) place (term_if other.now) (at next) resume (state_of at turn.old)) }
    ensures back { fields_before saved.new turn.new ≡ fields_before saved.old turn.old }
    ensures method { turn.new.frame.method ≡ turn.old.frame.method }
{
    let v = match resume {
        Resume::Start | Resume::Go => 0,
        Resume::Value(v) => v,
        Resume::Fault(f) => return catch(alloc, f, other, outer, env, turn, saved, place, next),
    };
    give(alloc, turn, saved, place, next, v)
}

// A fault comes to an await that stands open. None where `else` gives a value in its place.
fn catch<'a>(
    alloc: Global,
    f: Fault,
    other: &Option<Formula>,
    outer: &'a Bindings,
    env: &'a Env,
    turn: &mut TurnState,
    saved: &mut SavedRows,
    place: Option<NumberPlace>,
    next: u32,
) -> Result<Option<Exit>, AllocError>
    ensures next { IfOk result (λ exit. (at : _) → let s = state_of at turn.old in next_of (state_of at turn.new) exit
        ≡ caught (lent outer.now env.now) f (term_if other.now) s (given place (at next) s)) }
    ensures back { fields_before saved.new turn.new ≡ fields_before saved.old turn.old }
    ensures method { turn.new.frame.method ≡ turn.old.frame.method }
{
    if f == Fault::Turns {
        return Ok(Some(Exit::Fault(f)));
    }
    let Some(e) = other else {
        return Ok(Some(Exit::Fault(f)));
    };
    let sight = Sight {
        variables: &turn.frame.variables,
        fields: &turn.fields,
        own: &turn.frame.own,
        outer,
        env,
    };
    let Some(v) = value(e, sight) else {
        return Ok(Some(Exit::Fault(Fault::Overflow)));
    };
    give(alloc, turn, saved, place, next, v)
}
