//! A method as numbered instructions.

use crate::formula::{CompiledCall, FieldPlace, Formula};
use swift_types::{LocalId, Priority, RootId};

/// Where a number is kept: in a variable of the frame, or in a field.
#[derive(Clone, Copy)]
pub enum NumberPlace {
    /// A variable, by its number within its method.
    Variable(u32),
    /// A field of an actor of the executor.
    Field(FieldPlace),
}

/// What a turn can wait for. Handles, which hold the numbers of tasks and groups, are numbered from 0 within their
/// method.
pub enum CompiledAwait {
    /// What a call gives (SE-0306).
    Call(CompiledCall),
    /// What a root's task ends with (SE-0304).
    Root(RootId),
    /// What the task of a handle ends with (SE-0304).
    Task(u32),
    /// What the next child of a handle's group ends with (SE-0304).
    Next(u32),
}

impl Drop for CompiledAwait {
    fn drop(self) {
        match self {
            CompiledAwait::Call(call) => drop(call),
            CompiledAwait::Root(_) | CompiledAwait::Task(_) | CompiledAwait::Next(_) => {}
        }
    }
}

/// What is cancelled (SE-0304).
#[derive(Clone, Copy)]
pub enum Cancelled {
    /// A root's task.
    Root(RootId),
    /// The task of a handle.
    Task(u32),
    /// The group of a handle.
    Group(u32),
}

/// What an instruction does (our own).
pub enum Act {
    /// The end of the method, which gives 0. It is no step.
    End,
    /// An `if`, or one test of a `while`: the instruction goes on at `next` where the value is not 0, else at `other`.
    Test(Formula),
    /// A variable gets a value.
    SetVariable(u32, Formula),
    /// A field gets a value.
    SetField(FieldPlace, Formula),
    /// The frame is left with a value.
    Return(Formula),
    /// The frame is left with the fault `thrown` and a value.
    Throw(Formula),
    /// The frame is left with the fault `cancelled`, where the task was cancelled at the start of the turn.
    Check,
    /// The turn ends, and the next one goes on after it.
    Yield,
    /// The turn ends by waiting. The answer is taken by the instruction `next`, a `Receive`.
    Wait(CompiledAwait),
    /// An await that stands open (SE-0306). The value that it is given goes to the place, if there is one. A fault
    /// gives way to the value of the second formula, if there is one. It is no step.
    Receive(Option<NumberPlace>, Option<Formula>),
    /// An unstructured task is made, with its maker's priority where none is given. The handle gets its number, if
    /// there is one.
    Spawn {
        /// What it runs.
        call: CompiledCall,
        /// The priority that is given.
        priority: Option<Priority>,
        /// Where its number is kept.
        handle: Option<u32>,
    },
    /// A detached task is made. The handle gets its number, if there is one.
    Detach {
        /// What it runs.
        call: CompiledCall,
        /// Its priority.
        priority: Priority,
        /// Where its number is kept.
        handle: Option<u32>,
    },
    /// A child is added to the group of a handle; where the flag is set, only if the group is not cancelled by then.
    Add {
        /// The handle of the group.
        group: u32,
        /// Whether a cancelled group gets no child.
        unless_cancelled: bool,
        /// What it runs.
        call: CompiledCall,
        /// The priority that is given.
        priority: Option<Priority>,
    },
    /// A task or a group is cancelled.
    Cancel(Cancelled),
    /// A group is opened, and the handle gets its number.
    Open(u32),
    /// The end of a group's block: the turn ends, and the children are waited for. It is no step.
    Close,
    /// A task local is bound.
    Bind(LocalId, Formula),
    /// The innermost binding ends. It is no step.
    Unbind,
    /// An `assume` of an actor of the same executor begins. Its fields have places as the others have.
    Assume,
    /// An `assume` of an actor of another executor: the fault `isolation`.
    Isolated,
}

impl Drop for Act {
    fn drop(self) {
        match self {
            Act::Test(formula)
            | Act::SetVariable(_, formula)
            | Act::SetField(_, formula)
            | Act::Return(formula)
            | Act::Throw(formula)
            | Act::Bind(_, formula) => drop(formula),
            Act::Wait(awaited) => drop(awaited),
            Act::Receive(_, other) => drop(other),
            Act::Spawn {
                call,
                priority: _,
                handle: _,
            }
            | Act::Detach {
                call,
                priority: _,
                handle: _,
            }
            | Act::Add {
                group: _,
                unless_cancelled: _,
                call,
                priority: _,
            } => drop(call),
            Act::Cancel(_)
            | Act::Open(_)
            | Act::End
            | Act::Check
            | Act::Yield
            | Act::Close
            | Act::Unbind
            | Act::Assume
            | Act::Isolated => {}
        }
    }
}

/// An instruction, and the numbers of the instructions that may follow it. An instruction's number past the last
/// instruction acts as the end of the method.
#[derive(Drop)]
pub struct Instruction {
    /// What the instruction does.
    pub act: Act,
    /// The instruction that follows.
    pub next: u32,
    /// The instruction that follows a test that does not hold. Other instructions leave it unread.
    pub other: u32,
}
