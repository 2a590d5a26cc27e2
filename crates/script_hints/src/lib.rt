//! What helps to mend a text that is refused: what could have stood there, what to write, and which other place is concerned.
#![tactic(auto)]

// How many arguments a call has.
mod arguments;
// What helps to mend a refusal.
mod hint;
// Other refusals than of a token or a name.
mod limits;
// What is said of what could stand at a place.
mod listing;
// Which mistake was made at a token.
mod mistake;
// Mistakes, by what stands around the token.
mod mistakes;
// Names that are unknown, taken, or something else.
mod names;
// Roots that wait for later ones.
mod roots;
// Bytes outside ASCII.
mod stray;
// Texts that are written.
mod text;
// A token that does not fit.
mod unexpected;

pub use arguments::arguments_hint;
pub use hint::{Fix, FixPlace, Hint, Note};
pub use limits::{bound_hint, deep_hint, false_invariant_hint, huge_hint, limit_hint};
pub use names::{confused_hint, twice_hint, unknown_hint};
pub use roots::root_hint;
pub use stray::{StrayHint, stray_hint};
pub use unexpected::{end_hint, unexpected_hint};
