//! From a script's text to its report, as lines or as JSON, for any program.
#![tactic(auto)]

// How the program ends.
mod ended;
// Why nothing, or not all, was printed.
mod fault;
// A script from a device.
mod input;
// From a script's text to its report's JSON.
mod json;
// From a script's text to a report's.
mod run;
// How a script is run.
mod settings;
// What the words of a command line ask for.
mod words;

pub use ended::status;
pub use fault::ToolFault;
pub use input::read_input;
pub use json::run_json;
pub use run::run_text;
pub use settings::Options;
pub use words::options;
