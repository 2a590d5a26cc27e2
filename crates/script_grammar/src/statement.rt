//! Statements and blocks.

use crate::expression::{Call, Expr, Name, Value, Wait};
use swift_types::Priority;

/// A task that is made beside the one that makes it.
pub enum Make {
    /// `spawn A.f(..)`: an unstructured task, with the priority of its maker where none is given (SE-0304).
    Spawn(Call, Option<Priority>),
    /// `detach A.f(..)`: a detached task; medium where no priority is given (SE-0304, the default is our own).
    Detach(Call, Priority),
}

impl Drop for Make {
    fn drop(self) {
        match self {
            Make::Spawn(call, _) | Make::Detach(call, _) => drop(call),
        }
    }
}

/// `add g A.f(..)`: a child task of a group (SE-0304).
pub struct Add {
    /// The group.
    pub group: Name,
    /// Whether nothing is added where the group is cancelled by then (`addTaskUnlessCancelled`).
    pub unless: bool,
    /// What the child runs.
    pub call: Call,
    /// The priority that is given to it, if one is.
    pub priority: Option<Priority>,
}

impl Drop for Add {
    fn drop(self) {
        let Add {
            group,
            unless: _,
            call,
            priority: _,
        } = self;
        drop(group);
        drop(call);
    }
}

/// A statement that does something and holds no block.
pub enum Action {
    /// `let x = v;` makes a variable.
    Let(Name, Value),
    /// `let h = spawn ..;` or `let h = detach ..;` makes a task and a variable for it.
    LetTask(Name, Make),
    /// `x = v;`
    Assign(Name, Value),
    /// `await ..;` lets go what it gives.
    Await(Wait),
    /// `spawn ..;` or `detach ..;`
    Make(Make),
    /// `add g ..;`
    Add(Add),
    /// `cancel x;`: a task variable, a group, or else a root.
    Cancel(Name),
    /// `return e;`
    Return(Expr),
    /// `throw e;`
    Throw(Expr),
    /// `check;` ends the method with a fault where the task was cancelled (`checkCancellation`).
    Check,
    /// `yield;` ends the turn, and the next one goes on after it.
    Yield,
}

impl Drop for Action {
    fn drop(self) {
        match self {
            Action::Let(name, value) | Action::Assign(name, value) => {
                drop(name);
                drop(value);
            }
            Action::LetTask(name, make) => {
                drop(name);
                drop(make);
            }
            Action::Await(wait) => drop(wait),
            Action::Make(make) => drop(make),
            Action::Add(add) => drop(add),
            Action::Cancel(name) => drop(name),
            Action::Return(value) | Action::Throw(value) => drop(value),
            Action::Check | Action::Yield => {}
        }
    }
}

/// What stands in front of a block.
pub enum Head {
    /// `if e`
    If(Expr),
    /// `while e`
    While(Expr),
    /// `bind L = e`: the task local has this value in the block (SE-0311).
    Bind(Name, Expr),
    /// `group g`: a task group, which ends with the block (SE-0304).
    Group(Name),
    /// `assume A`: in the block stand the fields of another actor of the same executor (SE-0392).
    Assume(Name),
}

impl Drop for Head {
    fn drop(self) {
        match self {
            Head::If(test) | Head::While(test) => drop(test),
            Head::Bind(name, value) => {
                drop(name);
                drop(value);
            }
            Head::Group(name) | Head::Assume(name) => drop(name),
        }
    }
}

/// A statement. Blocks stand in one another 32 deep at most, that of the method included.
#[derive(Drop)]
pub enum Stmt {
    /// One that holds no block.
    Do(Box<Action>),
    /// One with a block.
    Block(Head, Vec<Stmt>),
    /// `if e { .. } else { .. }`
    IfElse(Expr, Vec<Stmt>, Vec<Stmt>),
}
