//! What the turns of a journal did to the fields: each turn is played once more.

// Which turn was undone by an invariant.
mod broken;
// Changes of fields, and what became of a turn.
mod change;
// In which fields two lists of rows differ.
mod differences;
// Which invariant is false.
mod invariants;
// The last turn of a task.
mod last;
// What a script lacks.
mod parts;
// One turn.
mod player;
// All turns of a journal.
mod turns;

pub use broken::breaks_invariant;
pub use change::{Change, Outcome, TurnValues};
pub use last::last_turn;
pub use player::Player;
pub use turns::{fields_before, turn_values};
