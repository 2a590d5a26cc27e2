//! Schedules that stand in a file which `explore --save` has written.
#![tactic(auto)]

// Which schedule of a file is meant.
mod saved;
// The steps of a schedule.
mod steps;

pub use saved::{SavedChoice, SavedSchedule, saved_schedule};
