//! What a search of a script's histories says to what is asked, as JSON.
#![tactic(auto)]

// Numbers and commas at the end of a text.
mod append;
// What is asked, and what comes of it.
mod asked;
// How the tasks of an outcome have ended, and its fields.
mod ended;
// Schedules.
mod schedule;
// Strings.
mod string;
// All that a search of a Swift file's script says.
mod swift;
// All that a search says.
mod text;

pub use string::put_string;
pub use swift::swift_answer_json;
pub use text::answer_json;
