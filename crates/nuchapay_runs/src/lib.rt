//! What is told of a run in words: below each turn of a report what it did to the fields, one turn with what came before it, and the names
//! of tasks.
#![tactic(auto)]

// Which invariants turns have broken.
mod broken;
// One turn explained.
mod explained;
// Fields as a turn leaves them.
mod fields;
// Expressions in words.
mod formula;
// The invariants of an executor's actors.
mod invariants;
// The lines of a report, one by one.
mod line;
// Where a turn stands.
mod names;
// What is said of one turn in a report.
mod notes;
// Numbers in decimal.
mod number;
// Parts of a printed form.
mod printed;
// The report with what is said of each turn.
mod report;
// Statements in words.
mod statement;
// Texts that are being written.
mod text;
// What is told of one turn.
mod why;
// The words of a text.
mod words;

pub use broken::broken_invariants;
pub use explained::{Explained, explain_turn};
pub use notes::write_change;
pub use report::report_with_values;
