//! The words that name the schedule of a run.

ghost use Rattle.std.specs.Prelude.{IfOk};
ghost use Rattle.nuchapay_tool.specs.Requests.{IsOnCrew};

use crate::requests::{OutcomePair, Question, RunForm, SavedPlace, SavedWord, ScheduleChoice};
use crate::words::{Refused, conflict};
use clap::ArgMatches;
use clap::error::ErrorKind;
use clap::parser::ValueSource;

// Why there is no limit for what stands in a file.
const NO_SEARCH: Refused = Refused {
    kind: ErrorKind::ArgumentConflict,
    said: "--limit is for a search, and --from makes none",
};

/// By which schedule a run is to be made.
#[derive(Clone, Copy)]
pub(crate) enum ScheduleWords<'a> {
    /// By one that is searched for, or given.
    Chosen(ScheduleChoice<'a>),
    /// By one that stands in a file.
    Saved(SavedPlace<'a>),
}

impl<'a> ScheduleWords<'a> {
    /// Whether it is one to a turn that is undone.
    pub(crate) fn is_broken(self) -> bool {
        match self {
            ScheduleWords::Chosen(choice) => matches!(choice, ScheduleChoice::Broken { .. }),
            ScheduleWords::Saved(place) => matches!(place.word, SavedWord::Broken),
        }
    }
}

/// What asks this of such a run.
pub(crate) fn question_of<'a>(schedule: ScheduleWords<'a>, form: RunForm<'a>) -> Question<'a>
    ensures { IsOnCrew result }
{
    match schedule {
        ScheduleWords::Chosen(choice) => Question::Scheduled(choice, form),
        ScheduleWords::Saved(place) => Question::Saved(place, form),
    }
}

// Whether an argument was given, and not its default.
fn is_given(matches: &ArgMatches<'_>, argument: &str) -> bool {
    matches!(
        matches.value_source(argument),
        Some(ValueSource::CommandLine)
    )
}

/// By which schedule a run is to be made, if by one: as `--outcome`, `--schedule` or `--broken` says, of which there may be one, and beside
/// which there is no place for `--workers`; and where `--from` names a file, by that one of its schedules.
pub(crate) fn chosen_schedule<'a>(
    matches: &ArgMatches<'a>,
) -> Result<Option<ScheduleWords<'a>>, Refused> {
    let choice = one_schedule(matches)?;
    if choice.is_some() && is_given(matches, "workers") {
        return Err(conflict(
            "a schedule is followed on one thread: --workers has no place beside it",
        ));
    }
    if let Some(path) = matches.get_str("from") {
        return match saved_place(matches, path, choice) {
            Ok(place) => Ok(Some(ScheduleWords::Saved(place))),
            Err(refused) => Err(refused),
        };
    }
    if is_given(matches, "limit") && !is_searched(choice) {
        return Err(conflict("--limit is for --outcome and --broken, which search"));
    }
    Ok(choice.map(ScheduleWords::Chosen))
}

// Which schedule of a file is meant.
fn saved_place<'a>(
    matches: &ArgMatches<'a>,
    path: &'a str,
    choice: Option<ScheduleChoice<'a>>,
) -> Result<SavedPlace<'a>, Refused> {
    if is_given(matches, "limit") {
        return Err(NO_SEARCH);
    }
    match choice {
        Some(ScheduleChoice::Outcome { outcome, .. }) => Ok(SavedPlace {
            path,
            word: SavedWord::Outcome(outcome),
        }),
        Some(ScheduleChoice::Broken { .. }) => Ok(SavedPlace {
            path,
            word: SavedWord::Broken,
        }),
        _ => Err(conflict(
            "--from names a file of schedules: --outcome K or --broken says which of them",
        )),
    }
}

/// Which schedule of a file `explore` is to run or to print.
pub(crate) fn saved_by<'a>(
    matches: &ArgMatches<'a>,
    path: &'a str,
    outcome: Option<u32>,
    broken: bool,
) -> Result<Question<'a>, Refused>
    ensures { IfOk result IsOnCrew }
{
    if is_given(matches, "limit") {
        return Err(NO_SEARCH);
    }
    match (outcome, broken) {
        (Some(number), false) => {
            let word = SavedWord::Outcome(number);
            Ok(Question::Saved(SavedPlace { path, word }, RunForm::Report(false)))
        }
        (None, true) => {
            let word = SavedWord::Broken;
            Ok(Question::Saved(SavedPlace { path, word }, RunForm::Line))
        }
        _ => Err(conflict(
            "--from names a file of schedules: --schedule K, --broken or --diff K L says which of them",
        )),
    }
}

/// Which two outcomes of a file `explore` is to compare.
pub(crate) fn saved_pair<'a>(
    matches: &ArgMatches<'a>,
    path: &'a str,
    pair: OutcomePair,
) -> Result<Question<'a>, Refused>
    ensures { IfOk result IsOnCrew }
{
    if is_given(matches, "limit") {
        return Err(NO_SEARCH);
    }
    Ok(Question::SavedDifference(path, pair))
}

// Whether a schedule is to be searched for.
fn is_searched(choice: Option<ScheduleChoice<'_>>) -> bool {
    matches!(
        choice,
        Some(ScheduleChoice::Outcome { .. } | ScheduleChoice::Broken { .. })
    )
}

// The turns of a schedule, without the word in front that `explore` prints.
fn turns_of(words: &str) -> &str {
    match words.strip_prefix("schedule ") {
        Some(turns) => turns,
        None => words,
    }
}

// The schedule that is named, of which there may be one.
fn one_schedule<'a>(matches: &ArgMatches<'a>) -> Result<Option<ScheduleChoice<'a>>, Refused> {
    let limit = matches.get_one::<u32>("limit").unwrap_or(100_000);
    let outcome = matches.get_one::<u32>("outcome");
    let given = matches.get_str("schedule");
    match (outcome, given, matches.get_flag("broken")) {
        (None, None, false) => Ok(None),
        (Some(outcome), None, false) => Ok(Some(ScheduleChoice::Outcome { limit, outcome })),
        (None, Some(words), false) => Ok(Some(ScheduleChoice::Given(turns_of(words)))),
        (None, None, true) => Ok(Some(ScheduleChoice::Broken { limit })),
        _ => Err(conflict(
            "--outcome, --schedule and --broken each name a schedule: give one of them",
        )),
    }
}
