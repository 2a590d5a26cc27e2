//! Outcomes that some order of turns of a script leads to.
#![tactic(auto)]

// Silent turns that run at once.
mod ahead;
// Which instructions look away.
mod away;
// A schedule that is led to its end.
mod completion;
// Histories that are followed to an end.
mod dive;
// A search that is made in parts.
mod exploration;
// Which tasks are cancelled.
mod flags;
// What is left of tasks to do, as numbers.
mod frames;
// Steps of a search.
mod fused;
// One history, followed from its beginning.
mod history;
// Histories that a search has kept.
mod kept;
// Keys that are known.
mod key_set;
// What decides how a history may go on, as numbers.
mod keys;
// Marks of instructions.
mod marks;
// Steps of a history.
mod moves;
// How a history has ended.
mod outcome;
// Keys by the numbers of their parts.
mod parts;
// Histories that are kept beside the nodes that the search has still to go on from.
mod queue;
// A schedule that is run again.
mod schedule;
// The search.
mod search;
// Which instructions are silent.
mod silent;
// Texts of what a search has found.
mod text;
// Roots that no line names.
mod unnamed;

pub use completion::{Completion, StepFault, complete_schedule};
pub use exploration::{Exploration, FoundOutcomes};
pub use keys::laws;
pub use moves::Move;
pub use outcome::RunOutcome;
pub use schedule::schedule_report;
pub use text::{put_end, put_ended, put_many, put_schedule, schedule_text};
