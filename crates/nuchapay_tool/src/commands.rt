//! The commands of the program, and the words that each takes.

use clap::{Arg, ArgAction, Command, value_parser};
use std::alloc::{AllocError, Global};

// A command.
#[derive(Clone, Copy)]
struct CommandWords {
    name: &'static str,
    about: &'static str,
    example: &'static str,
    words: &'static [Word],
}

// A word that a command takes.
#[derive(Clone, Copy)]
struct Word {
    name: &'static str,
    kind: Kind,
    // What is meant where it is missing.
    default: Option<&'static str>,
    help: &'static str,
}

// How a word is given. The first text is what help calls its value.
#[derive(Clone, Copy)]
enum Kind {
    // By its place. It may be missing.
    Operand(&'static str),
    // By its place. It may not be missing.
    Required(&'static str),
    // As `--NAME` by itself.
    Flag,
    // Behind `--NAME`.
    Text(&'static str),
    // Behind `--NAME`, any number of times.
    Texts(&'static str),
    // One of these, behind `--NAME`.
    OneOf(&'static str, &'static [&'static str]),
    // A number from 1 to one below this, behind `--NAME`.
    Number(&'static str, i64),
    // Two such numbers, with what help calls each.
    Numbers(&'static [&'static str], i64),
}

macro_rules! default {
    () => {
        None
    };
    ($default:literal) => {
        Some($default)
    };
}

// A word of its own, in parentheses, or one that several commands take, by its name.
macro_rules! word {
    (($name:literal $kind:ident $(($($given:expr),+))? $(or $default:literal)? => $help:literal)) => {
        Word {
            name: $name,
            kind: Kind::$kind $(($($given),+))?,
            default: default!($($default)?),
            help: $help,
        }
    };
    ($shared:ident) => {
        $shared
    };
}

macro_rules! commands {
    ($($name:literal => $about:literal, $example:literal, [$($word:tt)*];)*) => {
        [$(CommandWords {
            name: $name,
            about: $about,
            example: $example,
            words: &[$(word!($word)),*],
        }),*]
    };
}

// Numbers are at most 10,000,000.
const MOST: i64 = 10_000_001;

const FILE: Word =
    word!(("file" Operand("FILE") => "The script; standard input where it is - or missing"));

const LANGUAGE: Word = word!(("language" OneOf("LANGUAGE", &["script", "swift"]) =>
    "Reads a text in this language, whatever its name is; without it a name that ends in .swift is of Swift"));

const WORKERS: Word =
    word!(("workers" Number("N", 9) or "1" => "Runs the tasks on N threads, from 1 to 8"));

const LIMIT: Word =
    word!(("limit" Number("N", MOST) or "100000" => "Keeps at most N states, from 1 to 10000000"));

const FROM: Word = word!(("from" Text("FILE") =>
    "Takes the schedule from FILE, which explore --save has written, without a search"));

const OUTCOME: Word =
    word!(("outcome" Number("K", MOST) => "Takes the schedule of outcome K, as explore lists it"));

const SCHEDULE: Word =
    word!(("schedule" Text("TURNS") => "Takes this schedule, as explore prints it: 't0.0 t1.0 t0.1'"));

const BROKEN: Word =
    word!(("broken" Flag => "Takes a schedule to a turn that an invariant undoes, as explore finds it"));

static COMMANDS: [CommandWords; 8] = commands! {
    "run" => "Runs a script, and prints the journal of each executor, how each task ended, and the fields",
        "Example: nuchapay run --workers 4 examples/account.actors",
        [FILE LANGUAGE WORKERS
            ("quiet" Flag => "Leaves the journals out of the report")
            ("values" Flag => "Says below each turn which fields it changed")
            ("format" OneOf("FORMAT", &["text", "json"]) or "text" => "Prints the report as text, or as JSON")
            OUTCOME SCHEDULE BROKEN LIMIT FROM];
    "why" => "Runs a script, and explains one of its turns: what it began with, what it did to the fields, and who changed them meanwhile",
        "Example: nuchapay why examples/account.actors t1.1",
        [("file" Required("FILE") => "The script; standard input where it is -")
            ("turn" Operand("TURN") =>
                "The turn, as the journal names it, t1.0, or by its task's name, second.0; by --broken it may be missing")
            LANGUAGE WORKERS OUTCOME SCHEDULE BROKEN LIMIT FROM];
    "check" => "Says whether a script is accepted; else why not, where, and what to do",
        "Example: nuchapay check examples/account.actors",
        [FILE LANGUAGE
            ("color" Text("WHEN") or "never" => "Colours what is said of a refusal: always or never")
            ("format" OneOf("FORMAT", &["text", "json"]) or "text" =>
                "Says it as text, or as JSON for an editor, on standard output")];
    "explain" => "Explains a refusal or a fault, with a script for which it comes, and the same one mended",
        "Example: nuchapay explain S7",
        [("topic" Required("TOPIC") => "The number of a refusal (S1 to S14, N1 to N5), or the word of a fault, as overflow")];
    "print" => "Prints the printed form of a script, which is the same for texts that spell one script",
        "Example: nuchapay print examples/account.actors",
        [FILE LANGUAGE ("pretty" Flag => "Lays the script out: indented, one statement on a line")];
    "show" => "Runs a script, and shows the run as a picture",
        "Example: nuchapay show examples/account.actors > account.svg",
        [FILE LANGUAGE WORKERS
            ("format" OneOf("FORMAT", &["svg", "html", "trace"]) or "svg" =>
                "A picture, a page for a browser, or a trace for Perfetto and chrome://tracing")
            OUTCOME SCHEDULE BROKEN LIMIT FROM];
    "swift" => "Prints a script as a Swift program, for Swift's own runtime",
        "Example: nuchapay swift examples/account.actors",
        [FILE LANGUAGE ("plain" Flag => "Prints it as somebody would write it, without a runtime")];
    "explore" => "Lists outcomes that some order of turns leads to, each with its schedule, and says whether each is as expected",
        "Example: nuchapay explore --expect 'Account.balance == 0' examples/account.actors",
        [FILE LANGUAGE LIMIT
            ("broken" Flag => "Prints the schedule to a turn that an invariant undoes, and nothing else")
            ("schedule" Number("K", MOST) => "Runs the schedule of outcome K again, and prints the whole report")
            ("diff" Numbers(&["K", "L"], MOST) => "Says in what outcomes K and L differ, and from where their schedules do")
            ("expect" Texts("EXPR") => "Fails where EXPR, over Actor.field and the values of roots, is 0 in an outcome")
            ("no-fault" Flag => "Fails where a root ends with a fault in an outcome")
            ("format" OneOf("FORMAT", &["text", "json", "html"]) or "text" =>
                "Prints what was found as text, as JSON, or as a page for a browser")
            ("save" Text("FILE") => "Keeps what was found in FILE as JSON too, for --from")
            FROM];
};

// An argument that takes a value, as help calls it.
fn valued<'a>(arg: Arg<'a>, value: &'static str) -> Arg<'a> {
    arg.value_name(value).action(ArgAction::Set)
}

// The same, behind `--NAME`.
fn named<'a>(arg: Arg<'a>, name: &'static str, value: &'static str) -> Arg<'a> {
    valued(arg, value).long(name)
}

fn numbered<'a>(arg: Arg<'a>, end: i64) -> Arg<'a> {
    arg.value_parser(value_parser!(u32).range(1..end))
}

fn with_kind<'a>(arg: Arg<'a>, name: &'static str, kind: Kind) -> Arg<'a> {
    match kind {
        Kind::Operand(value) => valued(arg, value),
        Kind::Required(value) => valued(arg, value).required(true),
        Kind::Flag => arg.long(name).action(ArgAction::SetTrue),
        Kind::Text(value) => named(arg, name, value),
        Kind::Texts(value) => named(arg, name, value).action(ArgAction::Append),
        Kind::OneOf(value, words) => named(arg, name, value).value_parser(words),
        Kind::Number(value, end) => numbered(named(arg, name, value), end),
        Kind::Numbers(values, end) => numbered(named(arg, name, "").value_names(values), end),
    }
}

fn with_default<'a>(arg: Arg<'a>, default: Option<&'static str>) -> Arg<'a> {
    match default {
        Some(default) => arg.default_value(default),
        None => arg,
    }
}

fn arg_of<'a>(alloc: Global, word: &'static Word) -> Arg<'a> {
    let arg = Arg::new(alloc, word.name).help(word.help);
    with_default(with_kind(arg, word.name, word.kind), word.default)
}

fn command_of<'a>(alloc: Global, row: &'static CommandWords) -> Result<Command<'a>, AllocError> {
    let mut words = Command::new(alloc, row.name)
        .about(row.about)
        .after_help(row.example);
    for word in row.words {
        words = words.arg(arg_of(alloc, word))?;
    }
    Ok(words)
}

fn program<'a>(alloc: Global) -> Command<'a> {
    Command::new(alloc, "nuchapay")
        .about("Runs scripts of actors, and answers questions about them")
        .version("0.1.0")
        .subcommand_required(true)
        .arg_required_else_help(true)
}

// The words of a program, with one command more. In a function of its own, so that this is the one place where they are let go.
fn with_command<'a>(
    words: Result<Command<'a>, AllocError>,
    more: Result<Command<'a>, AllocError>,
) -> Result<Command<'a>, AllocError> {
    words?.subcommand(more?)
}

/// The words that the program takes.
pub(crate) fn command<'a>(alloc: Global) -> Result<Command<'a>, AllocError> {
    let mut words = Ok(program(alloc));
    for row in &COMMANDS {
        words = with_command(words, command_of(alloc, row));
    }
    words
}
