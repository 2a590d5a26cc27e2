//! A script's protocol as a Swift program: from a script's tree to a program's actors and methods, and to its text.
#![tactic(auto)]

// Actors, with their fields, invariants and methods.
mod actor;
// Calls, what is waited for, and tasks that are made.
mod call;
// Whether calls can go as deep as a task has frames.
mod depth;
// Expressions.
mod expression;
// What statements do with a name, and where they end.
mod flow;
// What holds of the definitions.
mod laws;
// Lines of a Swift program.
mod page;
// What is the same in each program.
mod prelude;
// Swift programs, as lists of actors and methods.
mod program;
// What names mean at a place of a method.
mod scope;
// Statements and blocks.
mod statement;
// Whole programs.
mod whole;
// From the text of a script.
mod translated;
// How names of a script are spelled in Swift.
mod words;

pub use laws::names_stay_apart;
pub use program::{SwiftActor, SwiftMethod, SwiftProgram, spell};
pub use translated::translate;
pub use whole::swift_program;
