//! The words of `explore`.

ghost use Rattle.std.specs.Prelude.{IfOk};
ghost use Rattle.nuchapay_tool.specs.Requests.{HasCrew, IsOnCrew};

use crate::requests::{OutcomePair, Question, Request, RunForm, ScheduleChoice, SearchFormat};
use crate::schedule_words::{saved_by, saved_pair};
use crate::words::{Refused, conflict, input};
use clap::ArgMatches;
use clap::error::ErrorKind;
use std::alloc::{AllocError, Global};

// What is expected of outcomes.
fn expected<'a>(alloc: Global, found: &ArgMatches<'a>) -> Result<Vec<&'a str>, AllocError> {
    match found.get_strs("expect") {
        Some(words) => Vec::from_slice(alloc, words),
        None => Ok(Vec::new(alloc)),
    }
}

// How what is found is to be written.
fn format_of(found: &ArgMatches<'_>) -> SearchFormat {
    match found.get_str("format") {
        Some("json") => SearchFormat::Json,
        Some("html") => SearchFormat::Html,
        _ => SearchFormat::Text,
    }
}

// The outcomes that are to be compared, if any are.
fn pair_of(found: &ArgMatches<'_>) -> Option<OutcomePair> {
    let mut numbers = found.get_many::<u32>("diff")?;
    match (numbers.next()?, numbers.next()?) {
        (Ok(first), Ok(second)) => Some(OutcomePair { first, second }),
        _ => None,
    }
}

// Whether one schedule is asked about, or two are.
fn is_of_some(found: &ArgMatches<'_>) -> bool {
    let outcome = found.get_one::<u32>("schedule");
    outcome.is_some()
        || found.get_flag("broken")
        || found.get_str("from").is_some()
        || pair_of(found).is_some()
}

// Why words that are of all outcomes have no place there, if some are given.
fn misplaced(found: &ArgMatches<'_>) -> Option<&'static str> {
    if found.get_flag("no-fault") || found.get_strs("expect").is_some() {
        return Some(
            "--expect and --no-fault are asked of all outcomes: they have no place beside --broken, --schedule or --diff",
        );
    }
    if found.get_str("save").is_some() {
        return Some("--save is for all outcomes, and not for --broken, --schedule or --diff");
    }
    match format_of(found) {
        SearchFormat::Text => None,
        SearchFormat::Json => {
            Some("--format json is for all outcomes, and not for --broken, --schedule or --diff")
        }
        SearchFormat::Html => {
            Some("--format html is for all outcomes, and not for --broken, --schedule or --diff")
        }
    }
}

/// The search that is asked for. What is expected is asked of all outcomes, so there is no place for it beside one schedule or two.
pub(crate) fn explore_request<'a>(
    alloc: Global,
    found: &ArgMatches<'a>,
) -> Result<Request<'a>, Refused>
    ensures { IfOk result HasCrew }
{
    if !is_of_some(found) {
        return expecting_request(alloc, found);
    }
    if let Some(said) = misplaced(found) {
        return Err(conflict(said));
    }
    let question = match pair_of(found) {
        Some(pair) => pair_question(found, pair),
        None => one_question(found),
    };
    match question {
        Ok(question) => Ok(Request::Ask(input(found), question)),
        Err(refused) => Err(refused),
    }
}

// What is asked of two outcomes.
fn pair_question<'a>(found: &ArgMatches<'a>, pair: OutcomePair) -> Result<Question<'a>, Refused>
    ensures { IfOk result IsOnCrew }
{
    if found.get_one::<u32>("schedule").is_some() || found.get_flag("broken") {
        return Err(conflict(
            "--diff is of two outcomes: it has no place beside --broken or --schedule",
        ));
    }
    if pair.first == pair.second {
        return Err(conflict("--diff compares two outcomes: give two numbers"));
    }
    if let Some(path) = found.get_str("from") {
        return saved_pair(found, path, pair);
    }
    Ok(Question::Difference(searched(found), pair))
}

// What is asked of one schedule.
fn one_question<'a>(found: &ArgMatches<'a>) -> Result<Question<'a>, Refused>
    ensures { IfOk result IsOnCrew }
{
    let outcome = found.get_one::<u32>("schedule");
    let broken = found.get_flag("broken");
    if let Some(path) = found.get_str("from") {
        return saved_by(found, path, outcome, broken);
    }
    schedule_question(searched(found), outcome, broken)
}

// The schedule that is asked for, of which there may be one.
fn schedule_question<'a>(
    limit: u32,
    outcome: Option<u32>,
    broken: bool,
) -> Result<Question<'a>, Refused>
    ensures { IfOk result IsOnCrew }
{
    match outcome {
        Some(outcome) if !broken => {
            let choice = ScheduleChoice::Outcome { limit, outcome };
            Ok(Question::Scheduled(choice, RunForm::Report(false)))
        }
        None => Ok(Question::ExploreBroken(limit)),
        Some(_) => Err(conflict("--broken and --schedule each name a schedule: give one of them")),
    }
}

// The outcomes that are asked for, and what is expected of them.
fn expecting_request<'a>(alloc: Global, found: &ArgMatches<'a>) -> Result<Request<'a>, Refused>
    ensures { IfOk result HasCrew }
{
    let Ok(expected) = expected(alloc, found) else {
        return Err(Refused {
            kind: ErrorKind::Io,
            said: "no memory for the words",
        });
    };
    let question = Question::Explore {
        limit: searched(found),
        expected,
        without_fault: found.get_flag("no-fault"),
        format: format_of(found),
        save: found.get_str("save"),
    };
    Ok(Request::Ask(input(found), question))
}

// How many states a search keeps.
fn searched(found: &ArgMatches<'_>) -> u32 {
    found.get_one::<u32>("limit").unwrap_or(100_000)
}
