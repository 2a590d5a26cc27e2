//! The parser of scripts: it finds the tree that tokens spell by `script_grammar`, or the first fault.
#![tactic(auto)]

// Statements without a block.
mod action;
// Actors with their fields, invariant and methods.
mod actor;
// Calls of methods.
mod call;
// Executors and task locals.
mod executor;
// Expressions.
mod expression;
// Why tokens spell no script.
mod fault;
// What holds of the grammar.
pub mod laws;
// How deep a script may nest.
pub mod limits;
// Tasks that are made.
mod make;
// An expression with its height.
mod measured;
// Whole numbers.
mod number;
// The parts of a rule that are one token.
mod one_token;
// Priorities.
mod priority;
// Roots with their arguments and priority.
mod root;
// Whole scripts.
mod script;
// Statements and blocks.
mod statement;
// What is waited for, and the values of variables.
mod wait;

pub use fault::{Kind, ParseFault, ReadError};
pub use script::parse;
