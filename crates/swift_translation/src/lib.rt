//! A Swift file as a script: the text of a script with the same outcomes, from the instructions of `swift_lowering`.
#![tactic(auto)]

// Actors with their fields, invariants and methods.
mod actor;
// A body that is written.
mod body;
// From the text of a file to that of a script.
mod file;
// Methods that are put in where they are called.
mod frame;
// What holds of the definitions.
mod laws;
// The line of a text on which a place lies.
mod line;
// Forms that are often written, and what to write in place of them.
mod mistakes;
// The names of a script.
mod naming;
// Closures, functions outside of actors, and `main`.
mod pool;
// From which lines of a file the methods of its script are.
mod places;
// The text of a table of methods.
mod place_text;
// What helps where a file is refused.
mod refused;
// What has to hold of actors.
mod requirement;
// Whole scripts.
mod script;
// From what a script is written.
mod source;
// How names of a script are spelled.
mod spelling;
// The start values of fields.
mod start;
// Instructions that open and close no block, as statements.
mod statement;
// Instructions as statements, and their blocks.
mod step;
// Units as methods.
mod unit;
// Values as expressions.
mod value;
// What is waited for.
mod wait;
// The instructions of a body.
mod walk;
// Words that a script keeps.
mod word;
// A text that is written.
mod writer;

pub use file::{SwiftScript, Translation, translate};
pub use laws::names_are_told_apart;
pub use place_text::{method_line, places_text};
pub use places::MethodPlace;
pub use refused::refusal_help;
