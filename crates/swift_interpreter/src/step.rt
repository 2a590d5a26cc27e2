//! Statements, one after another.

ghost use Rattle.std.specs.Prelude.{◌≡◌, ◌∷◌, if◌then◌else◌, IfOk, Some};
ghost use Rattle.swift_interpreter.specs.Frames.{invocation_if};
ghost use Rattle.swift_interpreter.specs.Turn.{act, calling, failing, given, goes, leaves, returning, tail, wait_for, with_invocation, with_value};
ghost use Rattle.swift_interpreter.specs.TurnStates.{exit_view, fields_before, lent, next_of, state_of};
ghost use Rattle.swift_types.specs.declared.outcome.Fault.TheVariants.{Cancelled, Thrown};
ghost use Rattle.script_code.specs.Instructions.{FollowsCode, first, first_by};
ghost use Rattle.script_code.specs.Tree.{wanted_of};
ghost use Rattle.script_code.specs.Value.{is_zero};

use crate::effect::{Invocation, TaskName};
use crate::exit::Exit;
use crate::group::{cancel, close, open};
use crate::make::{add, detach, spawn};
use crate::place::{give, put};
use crate::saved::SavedRows;
use crate::settle::unbind;
use crate::turn_state::TurnState;
use crate::values::{handle_at, invoke};
use script_code::{
    Act, Binding, CompiledAwait, FieldPlace, Instruction, NumberPlace, Sight, value,
};
use std::alloc::{AllocError, Global};
use swift_locals::Bindings;
use swift_types::{Env, Fault, LocalId};

// One statement. None where the turn goes on.
#[inline(never)]
pub fn step<'a>(
    alloc: Global,
    instructions: &[Instruction],
    outer: &'a Bindings,
    env: &'a Env,
    turn: &mut TurnState,
    saved: &mut SavedRows,
) -> Result<Option<Exit>, AllocError>
    ensures next { IfOk result (λ exit. (code : _) → (at : _) → FollowsCode instructions.now code at
        → next_of (state_of at turn.new) exit ≡ act (lent outer.now env.now) (first (at turn.old.frame.instruction)) (state_of at turn.old)) }
    ensures back { fields_before saved.new turn.new ≡ fields_before saved.old turn.old }
    ensures method { turn.new.frame.method ≡ turn.old.frame.method }
{
    let Some(instruction) = instructions.get(turn.frame.instruction as usize) else {
        return Ok(Some(Exit::Return(0)));
    };
    perform(alloc, instruction, outer, env, turn, saved)
}

// What an instruction does.
#[inline(always)]
fn perform<'a>(
    alloc: Global,
    instruction: &Instruction,
    outer: &'a Bindings,
    env: &'a Env,
    turn: &mut TurnState,
    saved: &mut SavedRows,
) -> Result<Option<Exit>, AllocError>
    ensures next { IfOk result (λ exit. (at : _) → next_of (state_of at turn.new) exit
        ≡ act (lent outer.now env.now) (first_by at instruction.now.act instruction.now.next instruction.now.other) (state_of at turn.old)) }
    ensures back { fields_before saved.new turn.new ≡ fields_before saved.old turn.old }
    ensures method { turn.new.frame.method ≡ turn.old.frame.method }
{
    let next = instruction.next;
    let sight = Sight {
        variables: &turn.frame.variables,
        fields: &turn.fields,
        own: &turn.frame.own,
        outer,
        env,
    };
    match &instruction.act {
        Act::End => Ok(Some(Exit::Return(0))),
        Act::Test(e) => Ok(branch(value(e, sight), turn, instruction)),
        Act::SetVariable(x, e) => Ok(set_variable(value(e, sight), turn, *x, next)),
        Act::SetField(place, e) => set_field(alloc, value(e, sight), turn, saved, *place, next),
        Act::Return(e) => Ok(Some(return_value(value(e, sight)))),
        Act::Throw(e) => Ok(Some(thrown(value(e, sight)))),
        Act::Check => Ok(check(env.cancelled, turn, next)),
        Act::Yield => {
            turn.frame.instruction = next;
            Ok(Some(Exit::Yield))
        }
        Act::Wait(awaited) => wait(alloc, outer, env, turn, awaited, next),
        Act::Receive(place, _) => give(alloc, turn, saved, *place, next, 0),
        Act::Spawn {
            call,
            priority: p,
            handle: h,
        } => spawn(alloc, call, outer, env, turn, *p, *h, next),
        Act::Detach {
            call,
            priority: p,
            handle: h,
        } => detach(alloc, call, outer, env, turn, *p, *h, next),
        Act::Add {
            group,
            unless_cancelled: unless,
            call,
            priority: p,
        } => { add(alloc, call, outer, env, turn, *group, *unless, *p, next) }
        Act::Cancel(cancelled) => cancel(turn, *cancelled, next),
        Act::Open(handle) => open(turn, *handle, next),
        Act::Close => Ok(close(turn, next)),
        Act::Bind(local, e) => bind(value(e, sight), turn, *local, next),
        Act::Unbind => Ok(end_block(turn, next)),
        Act::Assume => {
            turn.frame.instruction = next;
            Ok(None)
        }
        Act::Isolated => Ok(Some(Exit::Fault(Fault::Isolation))),
    }
}

// The frame goes on after a test, where its value is 0 at the other instruction. Without one the turn
// overflows.
fn branch(v: Option<i64>, turn: &mut TurnState, instruction: &Instruction) -> Option<Exit>
    ensures next { (at : _) → let s = state_of at turn.old in next_of (state_of at turn.new) result
        ≡ with_value v s (λ x. goes (record s { todo = if is_zero x then at instruction.now.other else at instruction.now.next })) }
    ensures fields { turn.new.fields.items ≡ turn.old.fields.items }
    ensures method { turn.new.frame.method ≡ turn.old.frame.method }
{
    let Some(v) = v else {
        return Some(Exit::Fault(Fault::Overflow));
    };
    turn.frame.instruction = if v == 0 {
        instruction.other
    } else {
        instruction.next
    };
    None
}

// A value goes to a variable. Without one the turn overflows.
fn set_variable(v: Option<i64>, turn: &mut TurnState, x: u32, next: u32) -> Option<Exit>
    ensures next { (at : _) → let s = state_of at turn.old in next_of (state_of at turn.new) result
        ≡ with_value v s (given (Some (NumberPlace.Variable x)) (at next) s) }
    ensures fields { turn.new.fields.items ≡ turn.old.fields.items }
    ensures method { turn.new.frame.method ≡ turn.old.frame.method }
{
    let Some(v) = v else {
        return Some(Exit::Fault(Fault::Overflow));
    };
    put(&mut turn.frame.variables, x, v);
    turn.frame.instruction = next;
    None
}

// A value goes to a field. Without one the turn overflows.
fn set_field(
    alloc: Global,
    v: Option<i64>,
    turn: &mut TurnState,
    saved: &mut SavedRows,
    place: FieldPlace,
    next: u32,
) -> Result<Option<Exit>, AllocError>
    ensures next { IfOk result (λ exit. (at : _) → let s = state_of at turn.old in next_of (state_of at turn.new) exit
        ≡ with_value v s (given (Some (NumberPlace.Field place)) (at next) s)) }
    ensures back { fields_before saved.new turn.new ≡ fields_before saved.old turn.old }
    ensures method { turn.new.frame.method ≡ turn.old.frame.method }
{
    let Some(v) = v else {
        return Ok(Some(Exit::Fault(Fault::Overflow)));
    };
    give(alloc, turn, saved, Some(NumberPlace::Field(place)), next, v)
}

// The frame is left with a value. Without one the turn overflows.
fn return_value(v: Option<i64>) -> Exit
    ensures { (s : _) → leaves s (exit_view result) ≡ with_value v s (λ x. leaves s (returning x)) }
{
    match v {
        Some(v) => Exit::Return(v),
        None => Exit::Fault(Fault::Overflow),
    }
}

// The frame is left with a throw of a value. Without one the turn overflows.
fn thrown(v: Option<i64>) -> Exit
    ensures { (s : _) → leaves s (exit_view result) ≡ with_value v s (λ x. leaves s (failing (Thrown x))) }
{
    match v {
        Some(v) => Exit::Fault(Fault::Thrown(v)),
        None => Exit::Fault(Fault::Overflow),
    }
}

// The frame is left where the task was cancelled at the start of the turn.
fn check(cancelled: bool, turn: &mut TurnState, next: u32) -> Option<Exit>
    ensures next { (at : _) → let s = state_of at turn.old in next_of (state_of at turn.new) result
        ≡ (if cancelled then leaves s (failing Cancelled) else goes (record s { todo = at next })) }
    ensures fields { turn.new.fields.items ≡ turn.old.fields.items }
    ensures method { turn.new.frame.method ≡ turn.old.frame.method }
{
    if cancelled {
        return Some(Exit::Fault(Fault::Cancelled));
    }
    turn.frame.instruction = next;
    None
}

// The turn ends by waiting.
#[inline(never)]
fn wait<'a>(
    alloc: Global,
    outer: &'a Bindings,
    env: &'a Env,
    turn: &mut TurnState,
    awaited: &CompiledAwait,
    next: u32,
) -> Result<Option<Exit>, AllocError>
    ensures next { IfOk result (λ exit. (at : _) → next_of (state_of at turn.new) exit
        ≡ wait_for (lent outer.now env.now) (wanted_of awaited.now) (at next) (state_of at turn.old)) }
    ensures fields { turn.new.fields.items ≡ turn.old.fields.items }
    ensures method { turn.new.frame.method ≡ turn.old.frame.method }
{
    let exit = match awaited {
        CompiledAwait::Call(call) => {
            let sight = Sight {
                variables: &turn.frame.variables,
                fields: &turn.fields,
                own: &turn.frame.own,
                outer,
                env,
            };
            let Some(invocation) = invoke(alloc, call, sight)? else {
                return Ok(Some(Exit::Fault(Fault::Overflow)));
            };
            Exit::Call(invocation)
        }
        CompiledAwait::Root(root) => Exit::Wait(TaskName::Root(*root)),
        CompiledAwait::Task(handle) => Exit::Wait(TaskName::Own(handle_at(
            &turn.frame.handles,
            *handle,
        ))),
        CompiledAwait::Next(handle) => Exit::Next(handle_at(&turn.frame.handles, *handle)),
    };
    turn.frame.instruction = next;
    Ok(Some(exit))
}

// The innermost binding ends.
fn end_block(turn: &mut TurnState, next: u32) -> Option<Exit>
    ensures next { (at : _) → let s = state_of at turn.old in next_of (state_of at turn.new) result
        ≡ goes (record s { todo = at next; own = tail s.own }) }
    ensures fields { turn.new.fields.items ≡ turn.old.fields.items }
    ensures method { turn.new.frame.method ≡ turn.old.frame.method }
{
    unbind(turn, next);
    None
}

// A local is bound. Without a value the turn overflows.
#[inline(never)]
fn bind(
    v: Option<i64>,
    turn: &mut TurnState,
    local: LocalId,
    next: u32,
) -> Result<Option<Exit>, AllocError>
    ensures next { IfOk result (λ exit. (at : _) → let s = state_of at turn.old in next_of (state_of at turn.new) exit
        ≡ with_value v s (λ x. goes (record s { todo = at next; own = (local.0, x) ∷ s.own }))) }
    ensures fields { turn.new.fields.items ≡ turn.old.fields.items }
    ensures method { turn.new.frame.method ≡ turn.old.frame.method }
{
    let Some(value) = v else {
        return Ok(Some(Exit::Fault(Fault::Overflow)));
    };
    turn.frame.own.push(Binding { local, value })?;
    turn.frame.instruction = next;
    Ok(None)
}
