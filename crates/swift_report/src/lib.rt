//! What a run leaves: the journal of each executor, how each task ended, and the fields; its text, and its JSON; and how a text is written
//! to a device.
#![tactic(auto)]

// Numbers in decimal.
mod append;
// A report as JSON.
mod json;
// What is told of a turn.
mod line;
// Names by the places of journals and fields.
mod names;
// A whole text into a writer.
mod output;
// Reports.
mod report;
// The text of a report.
mod text;
// Lines of turns and executors.
mod turns;
// Faults, resumes and endings in words.
mod word;

pub use json::report_json;
pub use output::{Device, write_all};
pub use report::Report;
pub use text::report_text;
