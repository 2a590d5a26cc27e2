//! Expressions whose names are resolved to numbers.

use swift_types::{ActorId, LocalId, MethodId, Operator};

/// A field of an actor, by numbers from 0.
#[derive(Clone, Copy)]
pub struct FieldPlace {
    /// The actor, among the actors of the executor that the frame runs on.
    pub actor: u32,
    /// The field, among those of the actor.
    pub field: u32,
}

/// An expression over whole numbers of 64 bits (our own). Variables are numbered from 0 within their method.
#[derive(Drop)]
pub enum Formula {
    /// A number that is written out.
    Number(i64),
    /// What a variable of the frame holds.
    Variable(u32),
    /// What a field holds.
    Field(FieldPlace),
    /// What is read of a task local, with its default (SE-0311).
    Local(LocalId, i64),
    /// The task's priority at the start of the turn, from 0 (background) to 3 (high).
    Priority,
    /// 1 where the task was cancelled at the start of the turn, else 0.
    Cancelled,
    /// `-`, in front of one operand.
    Negate(Box<Formula>),
    /// `!`: 1 where its operand is 0, else 0.
    Not(Box<Formula>),
    /// An operator between two operands. `&&` and `||` look at the right one only where the left one does not decide.
    Binary(Operator, Box<Formula>, Box<Formula>),
}

/// A call of a method of an actor (SE-0306), with its arguments from left to right.
pub struct CompiledCall {
    /// The actor that the method is of.
    pub actor: ActorId,
    /// The method, by its number among all methods of the script.
    pub method: MethodId,
    /// As many as the method has parameters.
    pub args: Vec<Formula>,
}

impl Drop for CompiledCall {
    fn drop(self) {
        let CompiledCall {
            actor: _,
            method: _,
            args,
        } = self;
        drop(args);
    }
}
