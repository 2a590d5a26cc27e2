//! A run as one page for a browser, which needs no network and no server: a front that is the same for all runs, the run as JSON, and an
//! end that is the same too.
#![tactic(auto)]

// Texts, numbers and commas.
mod append;
// What is said of each turn.
mod explanations;
// The log.
mod log;
// JSON that can't be markup.
mod markup;
// What stands beside the report.
mod more;
// The whole page.
mod page;
// Texts as JSON.
mod quote;
// The parts of a page that are the same for all runs.
mod texts;
// What turns did to the fields.
mod values;

pub use append::{say, say_text};
pub use markup::escape;
pub use more::Heading;
pub use page::page_text;
