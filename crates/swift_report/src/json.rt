//! From a report to its JSON.

// Texts, labels and commas.
mod append;
// A report.
mod text;
// Turns and executors.
mod turns;
// Faults, resumes and endings.
mod word;

pub use text::report_json;
