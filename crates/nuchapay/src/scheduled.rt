//! Runs by a schedule.

ghost use Rattle.std.specs.Prelude.{◌≡◌, false, take, IfOk, Some};
ghost use Rattle.std.specs.Arc.{arc_value};
ghost use Rattle.swift_explorer.specs.FoundText.{schedule_text};
ghost use Rattle.swift_report.specs.Text.{report_text};
ghost use Rattle.swift_report.specs.ReportJson.{report_json};
ghost use Rattle.swift_tool.specs.Run.{end_well};
ghost use Rattle.nuchapay_runs.specs.Noted.{noted_text};
ghost use Rattle.nuchapay_runs.specs.Notes.{IsAnnotated};
ghost use Rattle.nuchapay_tool.specs.declared.turn_names.TurnWord.{TurnWord};
ghost use Rattle.nuchapay.specs.Runs.{IsAsked};
ghost use Rattle.swift_script.specs.Scripts.{ScriptView};
ghost use Rattle.nuchapay.specs.Scheduled.{IsAsMeant, IsBrokenLine, IsChosen, IsCompleted, IsRunOrNone, IsSavedRun, IsScheduledReport};

use crate::explore::{place_of, search_all};
use crate::schedules::{ReadSchedule, WordFault, read_schedule};
use crate::undone::{is_undone_last, last_turn};
use crate::values::{AskedTurn, all_ended_well, asked_turn};
use explorer_files::{SavedChoice, SavedSchedule, saved_schedule};
use nuchapay_runs::report_with_values;
use nuchapay_tool::{ScheduleChoice, TurnWord};
use std::alloc::{AllocError, Global};
use std::sync::Arc;
use swift_certificate::legal;
use swift_explorer::{
    Completion, Move, StepFault, complete_schedule, schedule_report, schedule_text,
};
use swift_report::{Report, report_json, report_text};
use swift_script::{Script, read};
use swift_tool::ToolFault;
use swift_types::TaskId;
use swift_workers::RunFault;

/// A schedule of a script, and the report that it makes.
#[derive(Drop)]
pub struct ScheduledRun {
    pub script: Arc<Script>,
    /// Its steps. Those after the first `given` were chosen.
    pub schedule: Vec<Move>,
    pub given: usize,
    /// A legal report, whose log is that of these steps.
    pub report: Report,
}

/// Why there is no run by a schedule.
#[derive(Drop)]
pub enum NoRun {
    /// There is no such outcome: this many were found.
    NoOutcome(usize),
    /// No turn was found that is undone by an invariant; and whether the search came to its end, so that there is none.
    NoneBroken(bool),
    /// The last turn of a schedule of a file is not undone by an invariant.
    NotUndone,
    /// The word with this number, from 1, can't stand in a schedule where it stands.
    Word(usize, WordFault),
    /// It is not written as a schedule is printed.
    OtherText,
    /// The turn that this step begins or ends can't begin or end there. The word with this number, from 1, has the step.
    Step(usize, StepFault),
    /// The tasks have not ended after as many steps as are tried.
    Unfinished,
}

/// A run by a schedule, or why there is none.
#[derive(Drop)]
pub enum ChosenRun {
    Run(ScheduledRun),
    None(NoRun),
}

/// A run by a schedule of a file, or what the file has in its place.
#[derive(Drop)]
pub enum SavedRun {
    /// What came of the schedule.
    Followed(ChosenRun),
    /// The file has no such schedule of this script.
    NotThere(SavedSchedule),
}

/// The report of a schedule. Only a legal report is given.
pub fn scheduled_report(
    alloc: Global,
    script: &Arc<Script>,
    schedule: &[Move],
) -> Result<Report, ToolFault>
    ensures { IfOk result (IsScheduledReport (arc_value script.now) schedule.now) }
{
    let Some(report) = schedule_report(alloc, script, schedule)? else {
        return Err(ToolFault::Run(RunFault::Unfinished));
    };
    if !legal(alloc, script, &report)? {
        return Err(ToolFault::Run(RunFault::Illegal));
    }
    Ok(report)
}

// The word of a schedule that has the step at a place, from 1: turns are words, and one that ends right after it begins is one word.
fn word_number(schedule: &[Move], place: usize) -> usize {
    let mut words: usize = 0;
    let mut last: Option<TaskId> = None;
    for step in &schedule[..place.saturating_add(1).min(schedule.len())] {
        match *step {
            Move::Add => {}
            Move::Begin(task) => {
                words = words.saturating_add(1);
                last = Some(task);
            }
            Move::Run(task) => {
                if last != Some(task) {
                    words = words.saturating_add(1);
                }
                last = None;
            }
        }
    }
    words
}

// The run of a schedule whose first steps are these. Where tasks are left then, the rest is chosen.
fn completed_run(
    alloc: Global,
    script: Arc<Script>,
    schedule: &[Move],
) -> Result<ChosenRun, ToolFault>
    ensures { IfOk result (IsCompleted (arc_value script) schedule.now) }
{
    match complete_schedule(alloc, &script, schedule)? {
        Completion::Whole(whole) => {
            let report = scheduled_report(alloc, &script, &whole)?;
            Ok(ChosenRun::Run(ScheduledRun {
                script,
                schedule: whole,
                given: schedule.len(),
                report,
            }))
        }
        Completion::Stopped(place, fault) => Ok(ChosenRun::None(NoRun::Step(
            word_number(schedule, place),
            fault,
        ))),
        Completion::Unfinished => Ok(ChosenRun::None(NoRun::Unfinished)),
    }
}

// The run of the outcome with this number.
fn outcome_run(
    rt: &HostRuntime,
    script: Arc<Script>,
    limit: u32,
    outcome: u32,
) -> Result<ChosenRun, ToolFault>
    ensures { IfOk result (IsRunOrNone (arc_value script) (ScheduleChoice.Outcome limit outcome)) }
{
    let alloc = rt.alloc();
    let found = search_all(rt, &script, limit as usize)?;
    let Some(place) = place_of(found.outcomes.len(), outcome) else {
        return Ok(ChosenRun::None(NoRun::NoOutcome(found.outcomes.len())));
    };
    let schedule = Vec::from_slice(alloc, &found.outcomes[place].schedule)?;
    let report = scheduled_report(alloc, &script, &schedule)?;
    let given = schedule.len();
    Ok(ChosenRun::Run(ScheduledRun {
        script,
        schedule,
        given,
        report,
    }))
}

// The run of a schedule to a turn that is undone by an invariant.
fn broken_run(rt: &HostRuntime, script: Arc<Script>, limit: u32) -> Result<ChosenRun, ToolFault>
    ensures { IfOk result (IsRunOrNone (arc_value script) (ScheduleChoice.Broken limit)) }
{
    let found = search_all(rt, &script, limit as usize)?;
    match &found.broken {
        Some(schedule) => completed_run(rt.alloc(), script, schedule),
        None => Ok(ChosenRun::None(NoRun::NoneBroken(found.is_complete))),
    }
}

/// A schedule to a turn that is undone by an invariant, as a line, or why there is none.
#[derive(Drop)]
pub enum BrokenLine {
    Line(Vec<u8>),
    /// None was found; and whether the search came to its end, so that there is none.
    None(bool),
}

/// The schedule to a turn that is undone by an invariant that `explore` finds, as it prints it. How far the search is, standard error is
/// told now and then.
pub fn broken_line(rt: &HostRuntime, text: &[u8], limit: u32) -> Result<BrokenLine, ToolFault>
    ensures { IfOk result (IsBrokenLine text.now) }
{
    let alloc = rt.alloc();
    let script = Arc::new(alloc, read(alloc, text)?)?;
    let found = search_all(rt, &script, limit as usize)?;
    match &found.broken {
        Some(schedule) => {
            let line = schedule_text(alloc, schedule)?;
            Ok(BrokenLine::Line(line))
        }
        None => Ok(BrokenLine::None(found.is_complete)),
    }
}

// The run of a schedule that was written down.
fn given_run(alloc: Global, script: Arc<Script>, words: &str) -> Result<ChosenRun, ToolFault>
    ensures { IfOk result (IsRunOrNone (arc_value script) (ScheduleChoice.Given words.entry)) }
{
    match read_schedule(alloc, script.root_count(), words)? {
        ReadSchedule::Steps(schedule) => completed_run(alloc, script, &schedule),
        ReadSchedule::Refused(number, fault) => Ok(ChosenRun::None(NoRun::Word(number, fault))),
        ReadSchedule::OtherText => Ok(ChosenRun::None(NoRun::OtherText)),
    }
}

/// The run of a script by a schedule. Its report is followed by `legal` first. How far a search is, standard error is told now and then.
pub fn chosen_run(
    rt: &HostRuntime,
    text: &[u8],
    choice: ScheduleChoice<'_>,
) -> Result<ChosenRun, ToolFault>
    ensures { IfOk result (IsChosen text.now choice.entry) }
{
    let alloc = rt.alloc();
    let script = Arc::new(alloc, read(alloc, text)?)?;
    match choice {
        ScheduleChoice::Outcome { limit, outcome } => outcome_run(rt, script, limit, outcome),
        ScheduleChoice::Given(words) => given_run(alloc, script, words),
        ScheduleChoice::Broken { limit } => broken_run(rt, script, limit),
    }
}

// The run by a schedule of a file, where it is what is meant: of one to a turn that is undone, its last turn is asked again.
fn as_meant(
    alloc: Global,
    choice: SavedChoice,
    steps: &[Move],
    found: ChosenRun,
) -> Result<ChosenRun, AllocError>
    ensures { (script : ScriptView) → IsCompleted script steps.now found → IfOk result (λ run. IsCompleted script steps.now run × IsAsMeant choice script steps.now run) }
{
    match choice {
        SavedChoice::Outcome(_) => Ok(found),
        SavedChoice::Broken => match found {
            ChosenRun::Run(run) => {
                if is_undone_last(alloc, &run.script, steps, &run.report)? {
                    return Ok(ChosenRun::Run(run));
                }
                Ok(ChosenRun::None(NoRun::NotUndone))
            }
            ChosenRun::None(why) => Ok(ChosenRun::None(why)),
        },
    }
}

/// The run of a script by the schedule that is meant of a file, which a search was kept in. The file's steps are followed as those of a
/// schedule that was given, the report is followed by `legal`, and the last turn of one to a turn that is undone is asked again: of the
/// file nothing else is believed.
pub fn saved_run(
    alloc: Global,
    text: &[u8],
    file: &[u8],
    choice: SavedChoice,
) -> Result<SavedRun, ToolFault>
    ensures { IfOk result (IsSavedRun text.now file.now choice) }
{
    let script = Arc::new(alloc, read(alloc, text)?)?;
    match saved_schedule(alloc, file, text, choice)? {
        SavedSchedule::Steps(schedule) => {
            let run = completed_run(alloc, script, &schedule)?;
            let meant = as_meant(alloc, choice, &schedule, run)?;
            Ok(SavedRun::Followed(meant))
        }
        found => Ok(SavedRun::NotThere(found)),
    }
}

impl ScheduledRun {
    /// Whether each task ended with a value.
    pub fn is_well(&self) -> bool
        ensures { result ≡ end_well self.now.report.endings.items }
    {
        all_ended_well(&self.report.endings)
    }

    /// Its report, as text; with `quiet` without the journals.
    pub fn text(&self, alloc: Global, quiet: bool) -> Result<Vec<u8>, AllocError>
        ensures { IfOk result (λ said. said.items ≡ report_text (arc_value self.now.script) self.now.report quiet) }
    {
        report_text(alloc, &self.script, &self.report, quiet)
    }

    /// Its report as JSON, in the same way.
    pub fn json(&self, alloc: Global, quiet: bool) -> Result<Vec<u8>, AllocError>
        ensures { IfOk result (λ said. said.items ≡ report_json (arc_value self.now.script) self.now.report quiet) }
    {
        report_json(alloc, &self.script, &self.report, quiet)
    }

    /// Its report, with what each turn did to the fields.
    pub fn values(&self, alloc: Global) -> Result<Vec<u8>, AllocError>
        ensures said { IfOk result (λ said. said.items ≡ noted_text (arc_value self.now.script) self.now.report) }
        ensures annotated { IfOk result (λ said. IsAnnotated (report_text (arc_value self.now.script) self.now.report false) said.items) }
    {
        report_with_values(alloc, &self.script, &self.report)
    }

    /// A turn, explained. Where none is named, the one of the last step that was given.
    pub fn why(&self, alloc: Global, word: Option<TurnWord<'_>>) -> Result<AskedTurn, AllocError>
        ensures { (w : TurnWord) → word.entry ≡ Some w → IfOk result (IsAsked w (arc_value self.now.script) self.now.report) }
    {
        let word = match word {
            Some(word) => word,
            None => match last_turn(self.given_steps()) {
                Some(name) => TurnWord::Numbered(name),
                None => return Ok(AskedTurn::NoTask),
            },
        };
        asked_turn(alloc, &self.script, &self.report, word)
    }

    /// The steps that were given.
    pub fn given_steps(&self) -> &[Move]
        ensures { result.now ≡ take self.now.given self.now.schedule.items }
    {
        &self.schedule[..self.given.min(self.schedule.len())]
    }

    /// The line of these, as `explore` prints it.
    pub fn given_line(&self, alloc: Global) -> Result<Vec<u8>, AllocError>
        ensures { IfOk result (λ line. line.items ≡ schedule_text (take self.now.given self.now.schedule.items)) }
    {
        schedule_text(alloc, self.given_steps())
    }

    /// The turns that were chosen after these, as a schedule has them, each with a space in front; empty where none was.
    pub fn chosen_turns(&self, alloc: Global) -> Result<Vec<u8>, AllocError> {
        let whole = schedule_text(alloc, &self.schedule)?;
        let given = self.given_line(alloc)?;
        rest_of(alloc, without_feed(&whole), without_feed(&given))
    }
}

// A line without its line feed.
fn without_feed(line: &[u8]) -> &[u8] {
    line.split_at(line.len().saturating_sub(1)).0
}

// The last word of a line.
fn last_word(line: &[u8]) -> &[u8] {
    let mut from = 0;
    for (place, byte) in line.iter().enumerate() {
        if *byte == b' ' {
            from = place.saturating_add(1);
        }
    }
    line.get(from..).unwrap_or(line)
}

// The turns of a schedule after those that were given, both as lines. A turn that was only begun there, with two dots after it, ends here:
// in the whole schedule it has no dots where that is at once.
fn rest_of(alloc: Global, whole: &[u8], given: &[u8]) -> Result<Vec<u8>, AllocError> {
    let mut rest = Vec::new(alloc);
    let mut shared = given.len();
    if !whole.starts_with(given) {
        shared = given.len().saturating_sub(2);
        rest.extend_from_slice(b" ..")?;
        rest.extend_from_slice(last_word(given.split_at(shared).0))?;
    }
    rest.extend_from_slice(whole.split_at(shared.min(whole.len())).1)?;
    Ok(rest)
}
