//! Declarations.

use crate::expression::{Expr, Name};
use crate::statement::Stmt;
use swift_types::{ExecutorKind, Priority};

/// A serial executor (SE-0392).
#[derive(Drop)]
pub struct Executor {
    /// What it is called.
    pub name: Name,
    /// How it takes its jobs.
    pub kind: ExecutorKind,
}

/// A task local (SE-0311).
#[derive(Drop)]
pub struct Local {
    /// What it is called.
    pub name: Name,
    /// What is read of it where it is not bound.
    pub default: i64,
}

/// A field of an actor, with its start value.
#[derive(Drop)]
pub struct Field {
    /// What it is called.
    pub name: Name,
    /// Its value before the first turn.
    pub start: i64,
}

/// A method of an actor.
pub struct Method {
    /// What it is called.
    pub name: Name,
    /// Its parameters, in order.
    pub params: Vec<Name>,
    /// The statements of its block, in order.
    pub body: Vec<Stmt>,
}

impl Drop for Method {
    fn drop(self) {
        let Method { name, params, body } = self;
        drop(name);
        drop(params);
        drop(body);
    }
}

/// An actor (SE-0306).
pub struct Actor {
    /// What it is called.
    pub name: Name,
    /// The executor that it runs on, if one is named (SE-0392). Else it has one of its own.
    pub executor: Option<Name>,
    /// Its fields, in order.
    pub fields: Vec<Field>,
    /// Its invariant, if it has one: a test that holds after each turn on its executor (our own).
    pub invariant: Option<Expr>,
    /// Its methods, in order.
    pub methods: Vec<Method>,
}

impl Drop for Actor {
    fn drop(self) {
        let Actor {
            name,
            executor,
            fields,
            invariant,
            methods,
        } = self;
        drop(name);
        drop(executor);
        drop(fields);
        drop(invariant);
        drop(methods);
    }
}

/// A task that a run starts with (our own).
pub struct Root {
    /// What it is called.
    pub name: Name,
    /// The actor whose method it runs.
    pub actor: Name,
    /// The method that it runs.
    pub method: Name,
    /// The method's arguments, in order.
    pub args: Vec<i64>,
    /// Its priority: medium where none is given.
    pub priority: Priority,
}

impl Drop for Root {
    fn drop(self) {
        let Root {
            name,
            actor,
            method,
            args,
            priority: _,
        } = self;
        drop(name);
        drop(actor);
        drop(method);
        drop(args);
    }
}

/// A declaration.
#[derive(Drop)]
pub enum Decl {
    /// `executor E ..;`
    Executor(Executor),
    /// `local L = ..;`
    Local(Local),
    /// `actor A { .. }`
    Actor(Actor),
    /// `root a = A.f(..);`
    Root(Root),
}
