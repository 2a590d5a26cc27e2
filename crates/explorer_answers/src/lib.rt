//! What a search of a script's histories says to what is asked.
#![tactic(auto)]

// What comes of each expectation in each outcome, and the answer.
mod answering;
// What the dots of schedules mean.
mod dots;
// All that was found, as a text.
mod list_text;
// What an outcome of a Swift file's script says of Swift.
mod meaning;
// What the tasks of an outcome are called.
mod names;
// What a search of a Swift file's script says.
mod swift_answer;
// The same, as a text.
mod swift_text;
// The answer, as a text.
mod text;

pub use answering::{answered, judged};
pub use dots::DOTS;
pub use meaning::{SwiftMeaning, swift_meaning};
pub use swift_answer::swift_answered;
pub use swift_text::swift_answer_text;
pub use text::answer_text;
