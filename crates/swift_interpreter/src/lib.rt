//! The statements of one turn of a frame.
#![tactic(auto)]

mod at_once;
mod effect;
mod exit;
mod fail;
mod frame;
mod given;
mod group;
mod make;
mod place;
mod play;
mod resume;
mod saved;
mod settle;
mod step;
mod turn_state;
mod values;
mod whole;

pub use effect::{Effect, Invocation, TaskName};
pub use exit::Exit;
pub use fail::leave_frame;
pub use frame::Frame;
pub use given::TurnInput;
pub use saved::SavedRows;
pub use turn_state::TurnState;
pub use whole::play_whole;
