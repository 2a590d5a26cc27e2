//! The commands of the program `nuchapay`, each from text to text.
#![tactic(auto)]

// What helps to mend a text that is refused.
mod advice;
// Whether a text is a script, and why not.
mod checks;
// Whether a text is a script, as JSON.
mod checks_json;
// The colours of a text for a terminal.
mod colours;
// A file that is refused before there is a script.
mod files;
// What to write, where that helps.
mod fixes;
// The commands, and the words that each takes.
mod commands;
// A script from a device.
mod input;
// JSON that is being written.
mod json_text;
// Tokens as a person would lay them out.
mod layout;
// The mark under a line of a text.
mod mark;
// The words of `explore`.
mod explore_words;
// What is explained of a refusal or a fault.
mod page;
// The page of each topic.
mod pages;
// A script as a person would lay it out.
mod laid;
// The printed form of a text.
mod printed;
// The pages of the refusals of a script.
mod refusals;
// The text of a refusal.
mod refused;
// What a command line asks for.
mod requests;
// The pages of the refusals of a run.
mod run_refusals;
// The words that name the schedule of a run.
mod schedule_words;
// The lines of a text.
mod source;
// What can be explained.
mod topic;
// The pages of the faults of a turn.
mod turn_faults;
// How a turn is named.
mod turn_names;
// The words of a command line.
mod words;

pub use checks::{Checked, check};
pub use checks_json::{check_json, refused_file_json};
pub use files::{FileRefusal, refused_file};
pub use input::read_input;
pub use laid::pretty;
pub use page::{Page, ScriptPair, explain};
pub use pages::page_of;
pub use printed::print;
pub use requests::{
    Input, Language, OutcomePair, PictureFormat, Question, Request, RunForm, SavedPlace, SavedWord,
    ScheduleChoice, SearchFormat, Source,
};
pub use topic::{RunRefusal, Topic, TurnFault, find_topic};
pub use turn_names::{TurnName, TurnWord, turn_name, turn_word};
pub use words::request;
