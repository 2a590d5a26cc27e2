//! The words of a command line.

ghost use Rattle.std.specs.Prelude.{◌≡◌, ◌≢◌, ◌≤◌, None, codes, IfOk, IfSome};
ghost use Rattle.swift_types.specs.declared.limits.TheConstants.{WORKERS};
ghost use Rattle.nuchapay_tool.specs.LanguagesInside.{language_by_source};
ghost use Rattle.nuchapay_tool.specs.Requests.{HasCrew, IsOnCrew};
ghost use Rattle.nuchapay_tool.specs.declared.requests.Language.TheVariants.{Script, Swift};
ghost use Rattle.nuchapay_tool.specs.declared.requests.Source.TheVariants.{File, Stdin};

use crate::commands::command;
use crate::explore_words::explore_request;
use crate::requests::{Input, Language, PictureFormat, Question, Request, RunForm, Source};
use crate::schedule_words::{ScheduleWords, chosen_schedule, question_of};
use crate::topic::find_topic;
use crate::turn_names::{TurnWord, turn_word};
use clap::error::ErrorKind;
use clap::{ArgMatches, Command, Error};
use std::alloc::Global;
use swift_types::limits::WORKERS;

/// The text that is asked about: that of the file that was named, in the language that was.
pub(crate) fn input<'a>(matches: &ArgMatches<'a>) -> Input<'a> {
    let source = match matches.get_str("file") {
        Some(path) => source_of(path),
        None => Source::Stdin,
    };
    let language = language_of(matches.get_str("language"), source);
    Input { source, language }
}

// Where a script comes from, by the word for it.
fn source_of(path: &str) -> Source<'_>
    ensures dash { path.entry.now ≡ codes "-" → result ≡ Stdin }
    ensures other { path.entry.now ≢ codes "-" → result ≡ File path.entry }
{
    if path == "-" {
        Source::Stdin
    } else {
        Source::File(path)
    }
}

// In which language a text is: as this word says, or where there is none, by the name of its file.
fn language_of(word: Option<&str>, source: Source<'_>) -> Language
    ensures swift { IfSome word.entry (λ w. w.now ≡ codes "swift" → result ≡ Swift) }
    ensures script { IfSome word.entry (λ w. w.now ≢ codes "swift" → result ≡ Script) }
    ensures unsaid { word.entry ≡ None → result ≡ language_by_source source.entry }
{
    match word {
        Some("swift") => Language::Swift,
        Some(_) => Language::Script,
        None => language_by_source(source),
    }
}

// In which language a text is, by where it comes from.
fn language_by_source(source: Source<'_>) -> Language
    ensures { result ≡ language_by_source source.entry }
{
    match source {
        Source::File(path) if path.as_bytes().ends_with(b".swift") => Language::Swift,
        _ => Language::Script,
    }
}

/// Words that were read, and that ask for nothing that there is.
#[derive(Clone, Copy)]
pub(crate) struct Refused {
    pub(crate) kind: ErrorKind,
    pub(crate) said: &'static str,
}

/// Arguments that have no place beside one another.
pub(crate) fn conflict(said: &'static str) -> Refused {
    Refused {
        kind: ErrorKind::ArgumentConflict,
        said,
    }
}

// A word that names nothing that there is.
fn invalid(said: &'static str) -> Refused {
    Refused {
        kind: ErrorKind::InvalidValue,
        said,
    }
}

// What the words of `run` ask for.
fn run_request<'a>(matches: &ArgMatches<'a>) -> Result<Request<'a>, Refused>
    ensures { IfOk result HasCrew }
{
    let form = report_form(matches)?;
    if let Some(schedule) = chosen_schedule(matches)? {
        return Ok(scheduled(matches, schedule, form));
    }
    let workers = workers_of(matches);
    let question = match form {
        RunForm::Json(quiet) => Question::RunJson(workers, quiet),
        RunForm::Values => Question::Values(workers),
        _ => Question::Run(workers, matches.get_flag("quiet")),
    };
    Ok(Request::Ask(input(matches), question))
}

// What `run` is to say of a run.
fn report_form<'a>(matches: &ArgMatches<'a>) -> Result<RunForm<'a>, Refused> {
    let quiet = matches.get_flag("quiet");
    let values = matches.get_flag("values");
    if is_json(matches) {
        if values {
            return Err(conflict("--values is for text, and not for JSON"));
        }
        return Ok(RunForm::Json(quiet));
    }
    if values && !quiet {
        return Ok(RunForm::Values);
    }
    Ok(RunForm::Report(quiet))
}

// A run by a schedule.
fn scheduled<'a>(
    matches: &ArgMatches<'a>,
    schedule: ScheduleWords<'a>,
    form: RunForm<'a>,
) -> Request<'a>
    ensures { HasCrew result }
{
    Request::Ask(input(matches), question_of(schedule, form))
}

// Whether a report is to be JSON.
fn is_json(matches: &ArgMatches<'_>) -> bool {
    matches!(matches.get_str("format"), Some("json"))
}

// On how many threads. What the command says of the number is said again, for the contract.
fn workers_of(matches: &ArgMatches<'_>) -> u32
    ensures least { 1 ≤ result }
    ensures most { result ≤ WORKERS }
{
    let workers = matches.get_one::<u32>("workers").unwrap_or(1);
    workers.clamp(1, WORKERS as u32)
}

// What the words of `show` ask for.
fn show_request<'a>(matches: &ArgMatches<'a>) -> Result<Request<'a>, Refused>
    ensures { IfOk result HasCrew }
{
    let format = match matches.get_str("format") {
        Some("html") => PictureFormat::Html,
        Some("trace") => PictureFormat::Trace,
        _ => PictureFormat::Svg,
    };
    if let Some(schedule) = chosen_schedule(matches)? {
        return Ok(scheduled(matches, schedule, RunForm::Picture(format)));
    }
    let question = Question::Show(workers_of(matches), format);
    Ok(Request::Ask(input(matches), question))
}

// What the words of `why` ask for, if they name a turn, or a schedule to one.
fn why_request<'a>(matches: &ArgMatches<'a>) -> Result<Request<'a>, Refused>
    ensures { IfOk result HasCrew }
{
    let name = named_turn(matches)?;
    if let Some(schedule) = chosen_schedule(matches)? {
        if name.is_some() || schedule.is_broken() {
            return Ok(scheduled(matches, schedule, RunForm::Why(name)));
        }
    }
    match name {
        Some(name) => {
            let question = Question::Why(name, workers_of(matches));
            Ok(Request::Ask(input(matches), question))
        }
        None => Err(Refused {
            kind: ErrorKind::MissingRequiredArgument,
            said: "TURN is missing: t1.0 is the first turn of task 1. It may be missing only beside --broken",
        }),
    }
}

// The turn that is named, if one is.
fn named_turn<'a>(matches: &ArgMatches<'a>) -> Result<Option<TurnWord<'a>>, Refused> {
    let Some(word) = matches.get_str("turn") else {
        return Ok(None);
    };
    match turn_word(word) {
        Some(name) => Ok(Some(name)),
        None => Err(invalid(
            "a turn is named as in a journal: t1.0 is the first turn of task 1, and second.0 that of the task second",
        )),
    }
}

// What the words of `check` ask for, if they name a colour that there is.
fn check_request<'a>(matches: &ArgMatches<'a>) -> Result<Request<'a>, Refused>
    ensures { IfOk result HasCrew }
{
    match is_second(matches, "color", "never", "always") {
        Some(_) if is_json(matches) => Ok(Request::Ask(input(matches), Question::CheckJson)),
        Some(colour) => Ok(Request::Ask(input(matches), Question::Check(colour))),
        None => Err(invalid("a colour is always or never")),
    }
}

// What the words of `explain` ask for, if they name a topic.
fn explain_request<'a>(word: Option<&'a str>) -> Result<Request<'a>, Refused>
    ensures { IfOk result HasCrew }
{
    match word.and_then(find_topic) {
        Some(topic) => Ok(Request::Explain(topic)),
        None => Err(invalid("a topic is S1 to S14, N1 to N5, or the word of a fault")),
    }
}

// What the words of a command line ask for.
fn requested<'a>(alloc: Global, matches: &ArgMatches<'a>) -> Result<Request<'a>, Refused>
    ensures { IfOk result HasCrew }
{
    if let Some(found) = matches.subcommand_matches("run") {
        return run_request(found);
    }
    if let Some(found) = matches.subcommand_matches("check") {
        return check_request(found);
    }
    if let Some(found) = matches.subcommand_matches("print") {
        let question = Question::Print(found.get_flag("pretty"));
        return Ok(Request::Ask(input(found), question));
    }
    if let Some(found) = matches.subcommand_matches("show") {
        return show_request(found);
    }
    if let Some(found) = matches.subcommand_matches("why") {
        return why_request(found);
    }
    if let Some(found) = matches.subcommand_matches("swift") {
        return Ok(Request::Ask(input(found), swift_question(found)));
    }
    if let Some(found) = matches.subcommand_matches("explore") {
        return explore_request(alloc, found);
    }
    match matches.subcommand_matches("explain") {
        Some(found) => explain_request(found.get_str("topic")),
        None => explain_request(None),
    }
}

// Which Swift is asked for.
fn swift_question<'a>(found: &ArgMatches<'_>) -> Question<'a>
    ensures { IsOnCrew result }
{
    if found.get_flag("plain") {
        Question::PlainSwift
    } else {
        Question::Swift
    }
}

// Whether the second of two words is what an argument says, and not the first, which is meant where it is missing; none where it is
// another word.
fn is_second(matches: &ArgMatches<'_>, argument: &str, first: &str, second: &str) -> Option<bool> {
    match matches.get_str(argument) {
        Some(word) if word == second => Some(true),
        Some(word) if word != first => None,
        _ => Some(false),
    }
}

/// Reads the arguments of a command line, of which the first is the program's name (our own):
///
/// - `run`, with a file, `--workers N` from 1 to 8 and 1 where it is not given, `--quiet`, `--format` with `text` or `json`, `text` where it
///   is not given, and `--values`, for which there is no place where `--quiet` is given, and which is refused beside `json`;
/// - `why`, with a file, the name of a turn, and `--workers N`; the turn may be missing beside `--broken`;
/// - `run`, `why` and `show` with one of `--outcome K`, `--schedule TURNS` and `--broken`, and beside the first and the last of these with
///   `--limit N` as for `explore`, or with `--from FILE`; `--workers` is refused beside them;
/// - `swift`, with a file and `--plain`;
/// - `explore`, with a file, `--limit N` from 1 to 10,000,000, 100,000 where it is not given, and either one of `--schedule K`, from 1 to
///   10,000,000, and `--broken`, or `--expect EXPR`, also more than once, `--no-fault`, `--save FILE`,
///   and `--format` with `text`, `json` or `html`, `text` where it is not given; with `--from FILE` beside `--schedule` and `--broken`, in
///   place of `--limit`;
/// - `show`, with a file, `--workers N`, and `--format` with `svg`, `html` or `trace`, `svg` where it is not given;
/// - `check`, with a file, `--color always` or `never`, which is meant where it is not given, and `--format` with `text` or `json`, `text`
///   where it is not given;
/// - `print`, with a file and `--pretty`;
/// - `explain`, with the word of a topic.
///
/// A file that is `-` or missing is standard input. Beside a file there may be `--language` with `script` or `swift`; without it a file whose
/// name ends in `.swift` is Swift, and all else is a script.
///
/// # Errors
///
/// No command or another one, any other argument, a number that is none or out of range, a word that names no topic or no turn, one given
/// twice, `--help` and `--version`, and arguments for which there is no memory. The error's text is the one to show, and its
/// `exit_code` the status to end with: 0 for help and the version, else 2.
pub fn request<'a>(alloc: Global, words: &'a [String]) -> Result<Request<'a>, Error>
    ensures { IfOk result HasCrew }
{
    let mut command = command(alloc)?;
    request_of(alloc, &mut command, words)
}

// What a command line asks for, by the words that the program takes.
fn request_of<'a>(
    alloc: Global,
    command: &mut Command<'a>,
    words: &'a [String],
) -> Result<Request<'a>, Error>
    ensures { IfOk result HasCrew }
{
    let matches = command.try_get_matches_from_mut(words)?;
    let found = requested(alloc, &matches);
    drop(matches);
    match found {
        Ok(request) => Ok(request),
        Err(refused) => Err(command.error(refused.kind, refused.said)?),
    }
}
