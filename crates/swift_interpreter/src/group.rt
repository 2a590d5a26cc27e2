//! Groups that a frame opens and closes, and what it cancels.

ghost use Rattle.std.specs.Prelude.{◌≡◌, reverse, IfOk};
ghost use Rattle.swift_interpreter.specs.Frames.{effect_view};
ghost use Rattle.swift_interpreter.specs.Turn.{cancel_of, cancels, close_group, head, open_group, tail};
ghost use Rattle.swift_interpreter.specs.TurnStates.{next_of, state_of};

use crate::effect::{Effect, TaskName};
use crate::exit::Exit;
use crate::place::put;
use crate::turn_state::{LAST_NUMBER, TurnState};
use crate::values::handle_at;
use script_code::Cancelled;
use std::alloc::AllocError;
use swift_types::Fault;

// A group is opened, and the handle gets its number.
#[inline(never)]
pub fn open(turn: &mut TurnState, handle: u32, next: u32) -> Result<Option<Exit>, AllocError>
    ensures next { IfOk result (λ exit. (at : _) → next_of (state_of at turn.new) exit
        ≡ open_group handle (at next) (state_of at turn.old)) }
    ensures fields { turn.new.fields.items ≡ turn.old.fields.items }
    ensures method { turn.new.frame.method ≡ turn.old.frame.method }
{
    if turn.frame.opened > LAST_NUMBER {
        return Ok(Some(Exit::Fault(Fault::Overflow)));
    }
    let number = turn.frame.opened as u32;
    turn.effects.push(Effect::Open)?;
    turn.frame.groups.push(number)?;
    put(&mut turn.frame.handles, handle, number);
    turn.frame.opened += 1;
    turn.frame.instruction = next;
    Ok(None)
}

// The end of a group's block: the innermost group is closed.
pub fn close(turn: &mut TurnState, next: u32) -> Option<Exit>
    ensures next { (at : _) → next_of (state_of at turn.new) result
        ≡ close_group (reverse turn.old.frame.groups.items) (at next) (state_of at turn.old) }
    ensures fields { turn.new.fields.items ≡ turn.old.fields.items }
    ensures method { turn.new.frame.method ≡ turn.old.frame.method }
{
    turn.frame.instruction = next;
    match pop_group(&mut turn.frame.groups) {
        Some(group) => Some(Exit::Close(group, None)),
        None => None,
    }
}

// The innermost group.
pub fn pop_group(groups: &mut Vec<u32>) -> Option<u32>
    ensures first { result ≡ head (reverse groups.old.items) }
    ensures rest { reverse groups.new.items ≡ tail (reverse groups.old.items) }
{
    groups.pop()
}

// A task or a group is cancelled, when the turn has ended.
#[inline(never)]
pub fn cancel(
    turn: &mut TurnState,
    cancelled: Cancelled,
    next: u32,
) -> Result<Option<Exit>, AllocError>
    ensures next { IfOk result (λ exit. (at : _) → next_of (state_of at turn.new) exit
        ≡ cancels cancelled (at next) (state_of at turn.old)) }
    ensures fields { turn.new.fields.items ≡ turn.old.fields.items }
    ensures method { turn.new.frame.method ≡ turn.old.frame.method }
{
    let effect = cancelling(&turn.frame.handles, cancelled);
    turn.effects.push(effect)?;
    turn.frame.instruction = next;
    Ok(None)
}

fn cancelling(handles: &[u32], cancelled: Cancelled) -> Effect
    ensures { effect_view result ≡ cancel_of handles.now cancelled }
{
    match cancelled {
        Cancelled::Root(root) => Effect::CancelTask(TaskName::Root(root)),
        Cancelled::Task(handle) => Effect::CancelTask(TaskName::Own(handle_at(handles, handle))),
        Cancelled::Group(handle) => Effect::CancelGroup(handle_at(handles, handle)),
    }
}
