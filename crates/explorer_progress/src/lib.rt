//! Whether tasks repeat their turns for ever, along a schedule on which nobody else is ready: a hint, beside what a search finds.
#![tactic(auto)]

// Whether one turn does what another one did.
mod again;
// From a search to a hint.
mod hint;
// Turns that repeat at the end of a run.
mod repeated;
// A hint in words.
mod text;
// The turns of a run, in the order of its schedule.
mod turns;

pub use hint::{NoProgress, RepeatedTask, no_progress};
pub use text::{called_text, hint_text};
