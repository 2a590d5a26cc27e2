//! A history of a script that goes on step by step: a root is added, the next turn of a task begins, is played, and is applied.
#![tactic(auto)]

// Copies of fields.
mod fields;
// A history, led by a book.
mod history;
// What the next turn of each task begins with.
mod next_turn;
// A turn that was played.
mod played;

pub use fields::{copy_all_fields, copy_fields};
pub use history::OpenHistory;
pub use next_turn::{NextTurn, copy_all, put, take};
pub use played::PlayedTurn;
