//! Scripts of the whole language: read from text, checked, and ready to run.
#![tactic(auto)]

// Equality of scripts.
mod equality;
// Why a text is not accepted.
mod fault;
// What holds of the definitions.
pub mod laws;
// The rules on names and counts.
mod naming;
// What there is in a script, by numbers.
mod parts;
// At which places the tokens of a text stand, and which bytes they are.
mod place;
// The printed form of a script.
mod printed;
// From text to a script.
mod reading;
// Scripts that were read.
mod script;
// From bytes to declarations.
mod spelled;
// Declarations by kinds.
mod split;
// The rules on invariants, and on roots that wait.
mod start;

pub use fault::{ScriptFault, ScriptFaultKind};
pub use printed::print_script;
pub use reading::read;
pub use script::Script;
