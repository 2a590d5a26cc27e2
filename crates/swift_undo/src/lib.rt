//! A whole turn, what is kept of it, and how it is undone.
#![tactic(auto)]

mod kept;
pub mod laws;
mod rows;
mod tested;
mod undo;

pub use kept::play_kept;
pub use rows::{InvariantRows, rows_of_invariants};
pub use undo::Undo;
