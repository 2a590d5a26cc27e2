//! Answers questions about scripts of actors: runs them, checks them, prints them, and explains their refusals and faults.
//!
//! Its first argument is a command: `run`, `why`, `check`, `explain`, `print`, `show`, `swift` or `explore`; `--help` and `--version` are
//! taken too. Status 0 stands for a run whose tasks all ended with a value, a script that is accepted, outcomes that are as expected, and
//! for help; 1 for a run with a task that ended with a fault, or an outcome that is not as expected, 2 for words that were refused, 3 for a
//! script that was refused, 4 for a run that was refused, or a file or device that failed, 5 for a search that decides nothing.
#![tactic(auto)]

// What is said of two outcomes.
mod difference_answers;
// In what two outcomes differ.
mod differences;
// Outcomes of orders of turns.
mod explore;
// Outcomes of orders of turns of a Swift file.
mod explore_swift;
// The text of a script.
mod input;
// What the program writes, and how it ends.
mod output;
// From which lines of a Swift file turns are.
mod places;
// What standard error is told of tasks that repeat their turns.
mod progress;
// What is said of runs by a schedule.
mod schedule_answers;
// Runs by a schedule.
mod scheduled;
// Schedules that were written down.
mod schedules;
// What is said of a search.
mod search_answers;
// Runs as pictures.
mod show;
// What standard error is told of a schedule.
mod told;
// What is said of a turn.
mod turn_answers;
// The turn that a schedule ends with.
mod undone;
// Runs whose turns are explained.
mod values;

use crate::difference_answers::{say_difference, say_saved_difference};
use crate::explore::explored;
use crate::explore_swift::explored_swift;
use crate::input::{name_of, say_no_script, script};
use crate::output::{say_checked, tell, write_out, write_said};
use crate::places::ScriptFile;
use crate::schedule_answers::{say_broken, say_saved, say_scheduled};
use crate::scheduled::broken_line;
use crate::search_answers::say_explored;
use crate::show::show_run;
use crate::turn_answers::say_turn;
use crate::values::{explained_turn, report_of};
use explorer_page::SearchHeading;
use nuchapay_tool::{
    Checked, Language, Question, Request, SearchFormat, Topic, check, check_json, explain, page_of,
    pretty, print, request,
};
use std::alloc::{AllocError, AllocGlobal};
use std::env;
use std::io::ErrorKind;
use std::process::ExitCode;
use std::random::RandomSource;
use std::sync::Wait;
use std::thread::Threads;
use swift_plain::{Form, PlainError, plain_swift};
use swift_programs::translate;
use swift_report::write_all;
use swift_tool::{ToolFault, run_json, run_text};
use swift_workers::Open;

fn main(rt: HostRuntime) -> ExitCode {
    let alloc = rt.alloc();
    let found = match env::args(&rt) {
        Ok(found) => found,
        Err(error) => return no_words(&rt, error.kind()),
    };
    let collected: Result<Vec<String>, AllocError> = found.collect(alloc);
    let Ok(words) = collected else {
        return no_words(&rt, ErrorKind::OutOfMemory);
    };
    match request(alloc, &words) {
        Ok(request) => ExitCode::from(answer(&rt, &rt, request)),
        Err(refused) => match refused.print(&rt) {
            Ok(()) => ExitCode::from(refused.exit_code() as u8),
            Err(_) => ExitCode::from(tell(&rt, Err(ToolFault::Device))),
        },
    }
}

// Says why the words could not be read.
fn no_words(rt: &HostRuntime, kind: ErrorKind) -> ExitCode {
    let why = match kind {
        ErrorKind::InvalidData => "an argument is not UTF-8",
        _ => "no memory for the words",
    };
    let _ = eprintln!(rt; "nuchapay: {why}");
    ExitCode::from(2)
}

// Does what is asked for. The status to end with. The runtime comes twice, since it waits in `main` alone.
fn answer<R>(host: &HostRuntime, rt: &R, request: Request<'_>) -> u8
where
    R: RandomSource + AllocGlobal + Threads + Wait + Sync,
{
    match request {
        Request::Explain(topic) => tell(host, write_page(host, topic)),
        Request::Ask(input, question) => match script(host, input) {
            Ok(read) => {
                let file = ScriptFile {
                    name: name_of(input.source),
                    language: input.language,
                    text: &read.text,
                    places: &read.places,
                };
                answer_of(host, rt, file, question)
            }
            Err(why) => say_no_script(host, name_of(input.source), &question, why),
        },
    }
}

// Answers a question about a script. The status to end with.
fn answer_of<R>(host: &HostRuntime, rt: &R, file: ScriptFile<'_>, question: Question<'_>) -> u8
where
    R: RandomSource + AllocGlobal + Threads + Wait + Sync,
{
    let out = &mut host.stdout();
    let ScriptFile { name, text, .. } = file;
    let is_swift = file.language == Language::Swift;
    match question {
        Question::Run(workers, quiet) => tell(host, run_text(rt, text, workers, quiet, &Open, out)),
        Question::RunJson(workers, quiet) => {
            tell(host, run_json(rt, text, workers, quiet, &Open, out))
        }
        Question::Values(workers) => {
            tell(host, write_said(host, report_of(rt, text, workers), file))
        }
        Question::Why(word, workers) => {
            say_turn(host, file, word, explained_turn(rt, text, word, workers))
        }
        Question::Check(colour) => say_check(host, name, text, colour),
        Question::CheckJson => say_checked(host, check_json(host.alloc(), name, text)),
        // What a Swift file becomes is laid out, and says from which lines each method is.
        Question::Print(_) if is_swift => tell(host, write_out(host, text)),
        Question::Print(is_pretty) => tell(host, write_printed(host, text, is_pretty)),
        Question::Show(workers, format) => {
            tell(host, show_run(rt, text, name, workers, format, out))
        }
        Question::Scheduled(schedule, form) => say_scheduled(host, file, schedule, form),
        Question::Saved(place, form) => say_saved(host, file, place, form),
        Question::Swift => tell(host, write_swift(host, text)),
        Question::PlainSwift => say_plain(host, text),
        Question::Explore {
            limit,
            expected,
            without_fault,
            format,
            save,
        } => {
            let heading = SearchHeading { name, text };
            let keeps = save.is_some();
            let found = if is_swift {
                explored_swift(
                    host,
                    heading,
                    file.places,
                    limit,
                    &expected,
                    without_fault,
                    format,
                    keeps,
                )
            } else {
                explored(
                    host,
                    heading,
                    limit,
                    &expected,
                    without_fault,
                    format,
                    keeps,
                )
            };
            let shown = match format {
                SearchFormat::Text => Some(file),
                SearchFormat::Json | SearchFormat::Html => None,
            };
            say_explored(host, save, found, shown)
        }
        Question::ExploreBroken(limit) => say_broken(host, limit, broken_line(host, text, limit)),
        Question::Difference(limit, pair) => say_difference(host, text, limit, pair),
        Question::SavedDifference(path, pair) => say_saved_difference(host, name, text, path, pair),
    }
}

// Says whether a text is a script. The status to end with.
fn say_check(rt: &HostRuntime, name: &str, text: &[u8], colour: bool) -> u8 {
    match check(rt.alloc(), name, text, colour) {
        Ok(Checked::Accepted(said)) => tell(rt, write_out(rt, said.as_bytes())),
        Ok(Checked::Refused(said)) => match write_all(&mut rt.stderr(), said.as_bytes()) {
            Ok(()) => 3,
            Err(_) => 4,
        },
        Err(fault) => tell(rt, Err(ToolFault::from(fault))),
    }
}

fn write_printed(rt: &HostRuntime, text: &[u8], is_pretty: bool) -> Result<bool, ToolFault> {
    if is_pretty {
        let said = pretty(rt.alloc(), text)?;
        return write_out(rt, &said);
    }
    let said = print(rt.alloc(), text)?;
    write_out(rt, said.as_bytes())
}

fn write_swift(rt: &HostRuntime, text: &[u8]) -> Result<bool, ToolFault> {
    let said = translate(rt.alloc(), text)?;
    write_out(rt, &said)
}

// Writes a script as plain Swift, or says which form has none. The status to end with.
fn say_plain(rt: &HostRuntime, text: &[u8]) -> u8 {
    match plain_swift(rt.alloc(), text) {
        Ok(said) => tell(rt, write_out(rt, &said)),
        Err(PlainError::Form(line, form)) => say_form(rt, line, form),
        Err(PlainError::Script(fault)) => tell(rt, Err(ToolFault::from(fault))),
        Err(PlainError::Memory) => tell(rt, Err(ToolFault::from(AllocError))),
    }
}

// Says that a form has no plain Swift. The status to end with.
fn say_form(rt: &HostRuntime, line: u32, form: Form) -> u8 {
    let words = form.words();
    match format!(in rt.alloc(); "nuchapay: line {line}: {words}\n") {
        Ok(said) => match write_all(&mut rt.stderr(), said.as_bytes()) {
            Ok(()) => 3,
            Err(_) => 4,
        },
        Err(_) => tell(rt, Err(ToolFault::from(AllocError))),
    }
}

fn write_page(rt: &HostRuntime, topic: Topic) -> Result<bool, ToolFault> {
    let said = explain(rt.alloc(), page_of(topic))?;
    write_out(rt, said.as_bytes())
}
