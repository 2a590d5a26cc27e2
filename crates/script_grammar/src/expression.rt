//! Expressions, calls, and what is waited for.

use script_tokens::NameText;
use swift_types::Operator;

/// A name, as the text has it.
pub struct Name {
    /// Its bytes.
    pub text: NameText,
}

impl Drop for Name {
    fn drop(self) {
        let Name { text } = self;
        drop(text);
    }
}

/// An expression, of height 32 at most: an atom has height 1, and an operator is one higher than its higher operand.
/// Parentheses leave no trace.
#[derive(Drop)]
pub enum Expr {
    /// A number. A script's text has none below 0.
    Number(i64),
    /// A field, a parameter or a variable.
    Name(Name),
    /// `@L`: what is read of a task local (SE-0311).
    Local(Name),
    /// `priority`: the task's, from 0 (background) to 3 (high), at the start of its turn (our own numbers).
    Priority,
    /// `cancelled`: 1 where the task was cancelled at the start of its turn, else 0 (SE-0304).
    Cancelled,
    /// `-e`
    Negate(Box<Expr>),
    /// `!e`: 1 where `e` is 0, else 0.
    Not(Box<Expr>),
    /// An operator, with the operand on its left and the one on its right.
    Binary(Operator, Box<Expr>, Box<Expr>),
}

/// A call of an actor's method.
pub struct Call {
    /// The actor.
    pub actor: Name,
    /// Its method.
    pub method: Name,
    /// The arguments, in order.
    pub args: Vec<Expr>,
}

impl Drop for Call {
    fn drop(self) {
        let Call {
            actor,
            method,
            args,
        } = self;
        drop(actor);
        drop(method);
        drop(args);
    }
}

/// What a turn can wait for.
pub enum Awaited {
    /// `await A.f(..)`: what a call gives (SE-0306).
    Call(Call),
    /// `await task t`: what a task ends with, by its variable, or else by its root (SE-0304).
    Task(Name),
    /// `await next g`: what the next child of a group ends with (SE-0304).
    Next(Name),
}

impl Drop for Awaited {
    fn drop(self) {
        match self {
            Awaited::Call(call) => drop(call),
            Awaited::Task(name) | Awaited::Next(name) => drop(name),
        }
    }
}

/// An `await`.
pub struct Wait {
    /// What is waited for.
    pub awaited: Awaited,
    /// What stands after `else`: the value where that ends with a fault (our own).
    pub other: Option<Expr>,
}

impl Drop for Wait {
    fn drop(self) {
        let Wait { awaited, other } = self;
        drop(awaited);
        drop(other);
    }
}

/// What a variable or a field is set to.
pub enum Value {
    /// An expression's value.
    Expr(Expr),
    /// What is waited for.
    Await(Wait),
}

impl Drop for Value {
    fn drop(self) {
        match self {
            Value::Expr(value) => drop(value),
            Value::Await(wait) => drop(wait),
        }
    }
}
