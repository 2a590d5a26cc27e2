//! What the turns of a run did to the fields, and the run as a picture.
#![tactic(auto)]

// A run as a picture.
pub mod picture;
// What turns did to the fields.
mod values;

pub use values::{
    Change, Outcome, Player, TurnValues, breaks_invariant, fields_before, last_turn, turn_values,
};
