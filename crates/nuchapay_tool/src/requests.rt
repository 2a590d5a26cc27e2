//! What a command line asks for.

use crate::topic::Topic;
use crate::turn_names::TurnWord;

/// Where a script comes from (our own).
#[derive(Clone, Copy)]
pub enum Source<'a> {
    /// Standard input.
    Stdin,
    /// A file, by its path.
    File(&'a str),
}

/// In which language a text is (our own).
#[derive(Clone, Copy, PartialEq, Eq)]
pub enum Language {
    /// The language of scripts.
    Script,
    /// Swift, of which a subset is read.
    Swift,
}

/// The text that a question is about (our own).
#[derive(Clone, Copy)]
pub struct Input<'a> {
    /// Where it comes from.
    pub source: Source<'a>,
    /// In which language it is.
    pub language: Language,
}

/// How a picture is written (our own).
#[derive(Clone, Copy)]
pub enum PictureFormat {
    /// As SVG, for people.
    Svg,
    /// As a page of HTML, for a browser.
    Html,
    /// As JSON in the Trace Event Format, for Perfetto and chrome://tracing.
    Trace,
}

/// How what a search has found is written (our own).
#[derive(Clone, Copy, PartialEq, Eq)]
pub enum SearchFormat {
    /// As text, for people.
    Text,
    /// As JSON, for programs.
    Json,
    /// As a page of HTML, for a browser.
    Html,
}

/// Which schedule of a file that `explore --save` has written (our own).
#[derive(Clone, Copy)]
pub enum SavedWord {
    /// That of the outcome with this number, from 1.
    Outcome(u32),
    /// The one to a turn that is undone by an invariant.
    Broken,
}

/// A schedule that stands in a file (our own).
#[derive(Clone, Copy)]
pub struct SavedPlace<'a> {
    /// The file's path.
    pub path: &'a str,
    /// Which of its schedules.
    pub word: SavedWord,
}

/// Two outcomes of a list, by their numbers, from 1 (our own).
#[derive(Clone, Copy)]
pub struct OutcomePair {
    pub first: u32,
    pub second: u32,
}

/// By which schedule a run is made (our own).
#[derive(Clone, Copy)]
pub enum ScheduleChoice<'a> {
    /// That of the outcome with this number, from 1, of those that a search finds which keeps at most `limit` histories.
    Outcome { limit: u32, outcome: u32 },
    /// The one that these words spell, as `explore` prints it.
    Given(&'a str),
    /// One to a turn that is undone by an invariant, which a search finds that keeps at most `limit` histories.
    Broken { limit: u32 },
}

/// What is to be said of a run by a schedule (our own).
#[derive(Clone, Copy)]
pub enum RunForm<'a> {
    /// Its report, and whether without its journals.
    Report(bool),
    /// The same as JSON.
    Json(bool),
    /// Its report, and below each turn what it did to the fields.
    Values,
    /// One of its turns, explained. Where none is named, the turn that is undone.
    Why(Option<TurnWord<'a>>),
    /// The run as a picture in this format.
    Picture(PictureFormat),
    /// The line of its schedule, and nothing else.
    Line,
}

/// What a command line asks for (our own).
#[derive(Drop)]
pub enum Request<'a> {
    /// To explain a refusal or a fault.
    Explain(Topic),
    /// To answer a question about the script that this text is, or becomes.
    Ask(Input<'a>, Question<'a>),
}

/// What is asked about a script (our own).
#[derive(Drop)]
pub enum Question<'a> {
    /// Its run, on how many threads (1 to 8 where `request` made it), and whether without its journals.
    Run(u32, bool),
    /// Its run, as `Run` has it, with the report as JSON.
    RunJson(u32, bool),
    /// Its run on this number of threads, and what each turn did to the fields.
    Values(u32),
    /// One of the turns of its run on this number of threads, explained.
    Why(TurnWord<'a>, u32),
    /// Whether its text is a script, and why not; with colours where this says so.
    Check(bool),
    /// The same as JSON.
    CheckJson,
    /// Its printed form; laid out for people where this says so.
    Print(bool),
    /// Its run on this number of threads, as a picture in this format.
    Show(u32, PictureFormat),
    /// This of its run by a schedule.
    Scheduled(ScheduleChoice<'a>, RunForm<'a>),
    /// This of its run by a schedule that stands in a file.
    Saved(SavedPlace<'a>, RunForm<'a>),
    /// Its Swift program.
    Swift,
    /// Its plain Swift, without a runtime.
    PlainSwift,
    /// The outcomes of its histories, of which at most so many are kept; and whether each of them is as these expectations say, and perhaps
    /// without a root that ends with a fault; in this format. As JSON it is kept in a file too, where one is named.
    Explore {
        limit: u32,
        expected: Vec<&'a str>,
        without_fault: bool,
        format: SearchFormat,
        save: Option<&'a str>,
    },
    /// The schedule to a turn that is undone by an invariant, by a search that keeps at most so many histories.
    ExploreBroken(u32),
    /// In what two outcomes differ, of those that a search finds which keeps at most so many histories.
    Difference(u32, OutcomePair),
    /// In what two outcomes differ that stand in a file of this path.
    SavedDifference(&'a str, OutcomePair),
}
