//! The book of tasks: which tasks there are, which turns may begin, and what their ends make. A book's value is its script, its
//! log and the tasks that wait; what a call writes and makes is defined over these alone (crate `swift_history`).
#![tactic(auto)]

// What a turn did is taken.
mod applying;
// The bodies of the tasks that a turn makes.
mod bodies;
// The book.
mod book;
// Whether the effects and the exit of a turn fit it.
mod checks;
// What the effects of a turn write and make.
mod effects;
// What the exit of a turn writes, and what its task's next turn begins with.
mod exits;
// Why the book refuses.
mod fault;
// Tasks that wait.
mod held;
// What holds of the definitions.
pub mod laws;
// Which turns may begin and be applied.
mod refusals;
// Calls between turns: roots, cancels, priorities, and the end of the run.
mod requests;
// The end of a turn.
mod turns;
// Which tasks go on after a turn.
mod waking;

pub use book::Book;
pub use fault::BookFault;
