//! A script's protocol as somebody would write it in Swift: a file of the subset that `nuchapay` reads.
#![tactic(auto)]

// Actors, with their fields, invariants and methods, and their instances.
mod actor;
// Calls, what is waited for, and tasks that are made.
mod call;
// The errors that a file throws.
mod failures;
// Whole files.
mod file;
// What a statement of a method stands in.
mod place;
// What methods give in Swift.
mod signature;
// Statements and blocks.
mod statement;
// Which methods throw.
mod thrower;
// From the text of a script.
mod translated;

pub use plain_forms::Form;
pub use translated::{PlainError, plain_swift};
