//! What is said of runs by a schedule.

use crate::output::{tell, write_out};
use crate::places::{ScriptFile, method_text, methods_text};
use crate::scheduled::{
    BrokenLine, ChosenRun, NoRun, SavedRun, ScheduledRun, chosen_run, saved_run,
};
use crate::schedules::has_parted_turn;
use crate::show::show_report;
use crate::told::{chosen_text, no_run_text};
use crate::turn_answers::{say_explained, say_no_task};
use crate::values::AskedTurn;
use explorer_answers::DOTS;
use explorer_files::{SavedChoice, SavedSchedule};
use nuchapay_runs::Explained;
use nuchapay_tool::{RunForm, SavedPlace, SavedWord, ScheduleChoice, TurnWord};
use run_page::Heading;
use std::alloc::{AllocError, Global};
use std::fs;
use swift_report::write_all;
use swift_tool::ToolFault;

/// Says this of a run by a schedule. The status to end with.
pub fn say_scheduled(
    rt: &HostRuntime,
    file: ScriptFile<'_>,
    schedule: ScheduleChoice<'_>,
    form: RunForm<'_>,
) -> u8 {
    match chosen_run(rt, file.text, schedule) {
        Ok(ChosenRun::Run(run)) => say_run(rt, file, &run, form),
        Ok(ChosenRun::None(why)) => say_no_run(rt, schedule, why),
        Err(fault) => tell(rt, Err(fault)),
    }
}

// Says this of a run of a script. The status to end with.
fn say_run(rt: &HostRuntime, file: ScriptFile<'_>, run: &ScheduledRun, form: RunForm<'_>) -> u8 {
    match chosen_text(rt.alloc(), run) {
        Ok(said) => say_after(rt, file, run, form, said),
        Err(fault) => tell(rt, Err(ToolFault::from(fault))),
    }
}

/// What a file of schedules has; the status to end with where it can't be read, which is said.
pub(crate) fn file_of(rt: &HostRuntime, name: &str) -> Result<Vec<u8>, u8> {
    match fs::read(rt, name) {
        Ok(file) => Ok(file),
        Err(error) => {
            let _ = eprintln!(rt; "nuchapay: {name}: {error}");
            Err(4)
        }
    }
}

/// The run by the schedule of an outcome of a file, once it is said what was chosen of it, where something was; the status to end with
/// where there is none, which is said.
pub(crate) fn run_of_file(
    rt: &HostRuntime,
    path: &str,
    text: &[u8],
    name: &str,
    file: &[u8],
    outcome: u32,
) -> Result<ScheduledRun, u8> {
    match saved_run(rt.alloc(), text, file, SavedChoice::Outcome(outcome)) {
        Ok(SavedRun::Followed(ChosenRun::Run(run))) => with_chosen(rt, run),
        Ok(SavedRun::Followed(ChosenRun::None(why))) => {
            Err(say_no_run(rt, ScheduleChoice::Given(""), why))
        }
        Ok(SavedRun::NotThere(found)) => Err(say_not_there(rt, path, name, found)),
        Err(fault) => Err(tell(rt, Err(fault))),
    }
}

// A run, once it is said what was chosen of its schedule, where something was.
fn with_chosen(rt: &HostRuntime, run: ScheduledRun) -> Result<ScheduledRun, u8> {
    match chosen_text(rt.alloc(), &run) {
        Ok(said) => {
            if let Some(said) = said {
                let _ = eprintln!(rt; "nuchapay: {said}");
            }
            Ok(run)
        }
        Err(fault) => Err(tell(rt, Err(ToolFault::from(fault)))),
    }
}

/// Says this of a run by a schedule of a file. The status to end with: 2 where the file is of another script, or has no such schedule.
pub fn say_saved(
    rt: &HostRuntime,
    script: ScriptFile<'_>,
    place: SavedPlace<'_>,
    form: RunForm<'_>,
) -> u8 {
    let file = match file_of(rt, place.path) {
        Ok(file) => file,
        Err(status) => return status,
    };
    let choice = match place.word {
        SavedWord::Outcome(number) => SavedChoice::Outcome(number),
        SavedWord::Broken => SavedChoice::Broken,
    };
    match saved_run(rt.alloc(), script.text, &file, choice) {
        Ok(SavedRun::Followed(ChosenRun::Run(run))) => say_run(rt, script, &run, form),
        Ok(SavedRun::Followed(ChosenRun::None(why))) => {
            say_no_run(rt, ScheduleChoice::Given(""), why)
        }
        Ok(SavedRun::NotThere(found)) => say_not_there(rt, script.name, place.path, found),
        Err(fault) => tell(rt, Err(fault)),
    }
}

// Says what a file has in place of the schedule that is meant. The status to end with.
fn say_not_there(rt: &HostRuntime, path: &str, name: &str, found: SavedSchedule) -> u8 {
    match found {
        SavedSchedule::OtherScript => {
            let _ = eprintln!(rt;
                "nuchapay: {name} is of another script than {path}, or of this one before it was changed"
            );
        }
        SavedSchedule::NoOutcome(many) => {
            let _ = eprintln!(rt; "nuchapay: {name} has no such outcome: it has {many}");
        }
        SavedSchedule::NoneBroken => {
            let _ = eprintln!(rt;
                "nuchapay: {name} has no schedule to a turn that is undone by an invariant"
            );
        }
        SavedSchedule::Steps(_) | SavedSchedule::OtherFile => {
            let _ = eprintln!(rt; "nuchapay: {name} is no file that explore --save has written");
        }
    }
    2
}

// Says what was chosen of a run's schedule, where something was, and then this of the run. The status to end with.
fn say_after(
    rt: &HostRuntime,
    file: ScriptFile<'_>,
    run: &ScheduledRun,
    form: RunForm<'_>,
    chosen: Option<String>,
) -> u8 {
    if let Some(said) = chosen {
        let _ = eprintln!(rt; "nuchapay: {said}");
    }
    say_form(rt, file, run, form)
}

/// Says why there is no run by a schedule. The status to end with.
pub(crate) fn say_no_run(rt: &HostRuntime, schedule: ScheduleChoice<'_>, why: NoRun) -> u8 {
    match no_run_text(rt.alloc(), schedule, why) {
        Ok(said) => {
            let _ = eprintln!(rt; "nuchapay: {said}");
            2
        }
        Err(fault) => tell(rt, Err(ToolFault::from(fault))),
    }
}

// Says this of a run. The status to end with.
fn say_form(rt: &HostRuntime, file: ScriptFile<'_>, run: &ScheduledRun, form: RunForm<'_>) -> u8 {
    let alloc = rt.alloc();
    match form {
        RunForm::Report(quiet) => tell(rt, write_run(rt, run, run.text(alloc, quiet))),
        RunForm::Json(quiet) => tell(rt, write_run(rt, run, run.json(alloc, quiet))),
        RunForm::Values => tell(rt, write_run(rt, run, values_text(alloc, file, run))),
        RunForm::Why(word) => say_why(rt, file, run, word),
        RunForm::Line => tell(rt, write_line(rt, run)),
        RunForm::Picture(format) => {
            let heading = Heading {
                name: file.name,
                workers: 1,
                source: file.text,
            };
            let shown = show_report(
                alloc,
                &run.script,
                &run.report,
                heading,
                format,
                &mut rt.stdout(),
            );
            tell(rt, shown.map(|()| run.is_well()))
        }
    }
}

// Says what is known of a turn of a run, after the line of its schedule. The status to end with.
fn say_why(
    rt: &HostRuntime,
    file: ScriptFile<'_>,
    run: &ScheduledRun,
    word: Option<TurnWord<'_>>,
) -> u8 {
    match run.why(rt.alloc(), word) {
        Ok(AskedTurn::Turn(_name, Explained::Found(said))) => {
            tell(rt, write_after(rt, file, run, &said))
        }
        Ok(AskedTurn::Turn(name, found)) => say_explained(rt, file, name, found),
        Ok(AskedTurn::NoTask) => say_no_task(rt, word),
        Err(fault) => tell(rt, Err(ToolFault::from(fault))),
    }
}

// Writes the line of a run's schedule.
fn write_line(rt: &HostRuntime, run: &ScheduledRun) -> Result<bool, ToolFault> {
    let line = run.given_line(rt.alloc())?;
    write_out(rt, &line)
}

// Writes what explains a turn after the line of its run's schedule, and after what its dots mean, where it has some; behind it, from which
// lines of a Swift file the turn's method is. Nothing before there is memory for all.
fn write_after(
    rt: &HostRuntime,
    file: ScriptFile<'_>,
    run: &ScheduledRun,
    said: &[u8],
) -> Result<bool, ToolFault> {
    let line = run.given_line(rt.alloc())?;
    let method = method_text(rt.alloc(), file, said)?;
    write_out(rt, &line)?;
    if has_parted_turn(run.given_steps()) {
        write_out(rt, DOTS.as_bytes())?;
    }
    write_out(rt, said)?;
    write_out(rt, &method)
}

// What is said of the turns of a run, and behind it from which lines of a Swift file each method is.
fn values_text(
    alloc: Global,
    file: ScriptFile<'_>,
    run: &ScheduledRun,
) -> Result<Vec<u8>, AllocError> {
    let mut text = run.values(alloc)?;
    let methods = methods_text(alloc, file)?;
    text.extend_from_slice(&methods)?;
    Ok(text)
}

// Writes what is said of a run. Whether each task ended with a value.
fn write_run(
    rt: &HostRuntime,
    run: &ScheduledRun,
    said: Result<Vec<u8>, AllocError>,
) -> Result<bool, ToolFault> {
    let text = said?;
    write_all(&mut rt.stdout(), &text)?;
    Ok(run.is_well())
}

/// Writes the schedule to a turn that is undone by an invariant. The status to end with.
pub fn say_broken(rt: &HostRuntime, limit: u32, found: Result<BrokenLine, ToolFault>) -> u8 {
    match found {
        Ok(BrokenLine::Line(line)) => tell(rt, write_out(rt, &line)),
        Ok(BrokenLine::None(all)) => {
            say_no_run(rt, ScheduleChoice::Broken { limit }, NoRun::NoneBroken(all))
        }
        Err(fault) => tell(rt, Err(fault)),
    }
}
