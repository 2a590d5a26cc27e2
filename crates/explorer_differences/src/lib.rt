//! In what two outcomes of a script differ.
#![tactic(auto)]

// Lines of two texts that differ.
mod lines;
// What tasks are called.
mod names;
// Steps of two schedules, and how tasks have ended.
mod text;
// Where two lines of words part.
mod words;

pub use text::difference_text;
