//! What somebody expects of how a script's runs end: read from a text, and looked at in an end.
#![tactic(auto)]

// What a search says to what is asked.
mod answer;
// Expectations in the comments of a script.
mod comments;
// Expectations, and what comes of them.
mod expectation;
// Why a text is no expectation.
mod fault;
// How a run has ended, as expectations see it.
mod judging;
// What holds of the definitions.
pub mod laws;
// What the names of an expectation stand for.
mod naming;
// All that is asked of a script.
mod question;
// From a text to an expectation.
mod reading;
// What an expectation reads.
mod reads;
// Tokens with the field of an actor as one name.
mod spelling;
// What is said of an expectation that fails.
mod text;

pub use answer::{Answer, answer_in};
pub use expectation::{Expectation, Verdict};
pub use fault::{ExpectationError, Misread, MisreadKind};
pub use judging::{verdict, verdicts};
pub use question::ask;
pub use text::put_failure;
