//! Tasks and children that a turn makes.

ghost use Rattle.std.specs.Prelude.{◌≡◌, ◌++◌, IfOk};
ghost use Rattle.swift_interpreter.specs.Frames.{effect_view};
ghost use Rattle.swift_interpreter.specs.Turn.{add_child, adding, detaching, handle_at as handle_of, invoked, keep as kept_in, make as made_by, scene, spawning, with_invocation};
ghost use Rattle.swift_interpreter.specs.TurnStates.{lent, next_of, state_of};
ghost use Rattle.script_code.specs.Tree.{target_of};
ghost use Rattle.script_code.specs.Value.{evs};

use crate::effect::Effect;
use crate::exit::Exit;
use crate::place::put;
use crate::turn_state::{LAST_NUMBER, TurnState};
use crate::values::{handle_at, invoke, standing};
use script_code::{CompiledCall, Sight};
use std::alloc::{AllocError, Global};
use swift_locals::Bindings;
use swift_types::{Env, Fault, Priority};

// A task is spawned, with the bindings that stand. Where an argument has no value the turn overflows.
#[inline(never)]
pub fn spawn<'a>(
    alloc: Global,
    call: &CompiledCall,
    outer: &'a Bindings,
    env: &'a Env,
    turn: &mut TurnState,
    priority: Option<Priority>,
    handle: Option<u32>,
    next: u32,
) -> Result<Option<Exit>, AllocError>
    ensures next { IfOk result (λ exit. (at : _) → let s = state_of at turn.old in let c = target_of call.now in next_of (state_of at turn.new) exit
        ≡ with_invocation (invoked c (evs c.args (scene (lent outer.now env.now) s))) s (λ i. made_by (spawning i priority (s.own ++ outer.now)) handle (at next) s)) }
    ensures fields { turn.new.fields.items ≡ turn.old.fields.items }
    ensures method { turn.new.frame.method ≡ turn.old.frame.method }
{
    let sight = Sight {
        variables: &turn.frame.variables,
        fields: &turn.fields,
        own: &turn.frame.own,
        outer,
        env,
    };
    let Some(invocation) = invoke(alloc, call, sight)? else {
        return Ok(Some(Exit::Fault(Fault::Overflow)));
    };
    let bindings = standing(outer, &turn.frame.own)?;
    make(
        turn,
        Effect::Spawn {
            invocation,
            priority,
            bindings,
        },
        handle,
        next,
    )
}

// A detached task is made, which has no bindings.
#[inline(never)]
pub fn detach<'a>(
    alloc: Global,
    call: &CompiledCall,
    outer: &'a Bindings,
    env: &'a Env,
    turn: &mut TurnState,
    priority: Priority,
    handle: Option<u32>,
    next: u32,
) -> Result<Option<Exit>, AllocError>
    ensures next { IfOk result (λ exit. (at : _) → let s = state_of at turn.old in let c = target_of call.now in next_of (state_of at turn.new) exit
        ≡ with_invocation (invoked c (evs c.args (scene (lent outer.now env.now) s))) s (λ i. made_by (detaching i priority) handle (at next) s)) }
    ensures fields { turn.new.fields.items ≡ turn.old.fields.items }
    ensures method { turn.new.frame.method ≡ turn.old.frame.method }
{
    let sight = Sight {
        variables: &turn.frame.variables,
        fields: &turn.fields,
        own: &turn.frame.own,
        outer,
        env,
    };
    let Some(invocation) = invoke(alloc, call, sight)? else {
        return Ok(Some(Exit::Fault(Fault::Overflow)));
    };
    make(turn, Effect::Detach(invocation, priority), handle, next)
}

// A child is added to the group of a handle, with the bindings that stand.
#[inline(never)]
pub fn add<'a>(
    alloc: Global,
    call: &CompiledCall,
    outer: &'a Bindings,
    env: &'a Env,
    turn: &mut TurnState,
    handle: u32,
    unless: bool,
    priority: Option<Priority>,
    next: u32,
) -> Result<Option<Exit>, AllocError>
    ensures next { IfOk result (λ exit. (at : _) → let s = state_of at turn.old in let c = target_of call.now in next_of (state_of at turn.new) exit
        ≡ with_invocation (invoked c (evs c.args (scene (lent outer.now env.now) s))) s (λ i. add_child (adding (handle_of s.handles handle) unless i priority (s.own ++ outer.now)) (at next) s)) }
    ensures fields { turn.new.fields.items ≡ turn.old.fields.items }
    ensures method { turn.new.frame.method ≡ turn.old.frame.method }
{
    let sight = Sight {
        variables: &turn.frame.variables,
        fields: &turn.fields,
        own: &turn.frame.own,
        outer,
        env,
    };
    let Some(invocation) = invoke(alloc, call, sight)? else {
        return Ok(Some(Exit::Fault(Fault::Overflow)));
    };
    let inherited = standing(outer, &turn.frame.own)?;
    let group = handle_at(&turn.frame.handles, handle);
    add_to(
        turn,
        Effect::Add {
            group,
            unless_cancelled: unless,
            invocation,
            priority,
            bindings: inherited,
        },
        next,
    )
}

// A task is made, if there is room for it. The handle gets its number, if there is one.
fn make(
    turn: &mut TurnState,
    effect: Effect,
    handle: Option<u32>,
    next: u32,
) -> Result<Option<Exit>, AllocError>
    ensures next { IfOk result (λ exit. (at : _) → next_of (state_of at turn.new) exit ≡ made_by (effect_view effect) handle (at next) (state_of at turn.old)) }
    ensures fields { turn.new.fields.items ≡ turn.old.fields.items }
    ensures method { turn.new.frame.method ≡ turn.old.frame.method }
{
    if turn.room == 0 {
        return Ok(Some(Exit::Fault(Fault::Tasks)));
    }
    if turn.frame.made > LAST_NUMBER {
        return Ok(Some(Exit::Fault(Fault::Overflow)));
    }
    turn.effects.push(effect)?;
    keep(&mut turn.frame.handles, handle, turn.frame.made as u32);
    turn.frame.made += 1;
    turn.room -= 1;
    turn.frame.instruction = next;
    Ok(None)
}

// A child is added, if there is room for it.
fn add_to(turn: &mut TurnState, effect: Effect, next: u32) -> Result<Option<Exit>, AllocError>
    ensures next { IfOk result (λ exit. (at : _) → next_of (state_of at turn.new) exit ≡ add_child (effect_view effect) (at next) (state_of at turn.old)) }
    ensures fields { turn.new.fields.items ≡ turn.old.fields.items }
    ensures method { turn.new.frame.method ≡ turn.old.frame.method }
{
    if turn.room == 0 {
        return Ok(Some(Exit::Fault(Fault::Tasks)));
    }
    turn.effects.push(effect)?;
    turn.room -= 1;
    turn.frame.instruction = next;
    Ok(None)
}

// A handle gets a number, if one is to get it.
fn keep(handles: &mut Vec<u32>, handle: Option<u32>, number: u32)
    ensures { handles.new.items ≡ kept_in handle number handles.old.items }
{
    if let Some(handle) = handle {
        put(handles, handle, number);
    }
}
