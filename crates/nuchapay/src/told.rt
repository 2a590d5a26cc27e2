//! What standard error is told of a schedule.

use crate::scheduled::{NoRun, ScheduledRun};
use crate::schedules::{WordFault, word_at};
use nuchapay_tool::{ScheduleChoice, TurnName};
use std::alloc::{AllocError, Global};
use swift_explorer::StepFault;

// The words of a schedule, where they were given.
fn words_of<'a>(choice: ScheduleChoice<'a>) -> &'a str {
    match choice {
        ScheduleChoice::Given(words) => words,
        _ => "",
    }
}

// Of a task, why its turn can't begin or end.
fn step_cause(alloc: Global, fault: StepFault) -> Result<String, AllocError> {
    match fault {
        StepFault::NotMade => String::from_str(alloc, "its task is not made yet"),
        StepFault::Ended => String::from_str(alloc, "its task has ended"),
        StepFault::UnderWay => String::from_str(alloc, "another turn of its task is under way"),
        StepFault::NotBegun => String::from_str(alloc, "no turn of its task is under way"),
        StepFault::Waits => String::from_str(alloc, "its task waits"),
        StepFault::Busy(task) => {
            format!(in alloc; "a turn of t{} is under way at its executor", task.0)
        }
        StepFault::Other => String::from_str(alloc, "it is not in order"),
    }
}

// Why a word can't stand where it stands.
fn word_cause(alloc: Global, fault: WordFault) -> Result<String, AllocError> {
    match fault {
        WordFault::NoTurn => {
            String::from_str(
                alloc,
                "a turn is named as in a journal, as t1.0, t1.0.. or ..t1.0",
            )
        }
        WordFault::OtherNumber(TurnName { task, number: _ }, next) => {
            format!(in alloc; "there it is t{task}.{next}")
        }
        WordFault::NotBegun(TurnName { task, number: _ }) => {
            format!(in alloc; "no turn of t{task} has begun")
        }
    }
}

/// Why there is no run by a schedule, in a line.
pub fn no_run_text(
    alloc: Global,
    choice: ScheduleChoice<'_>,
    why: NoRun,
) -> Result<String, AllocError> {
    let words = words_of(choice);
    match why {
        NoRun::NoOutcome(many) => match choice {
            ScheduleChoice::Outcome { limit: _, outcome } => {
                format!(in alloc; "there is no outcome {outcome}: {many} were found")
            }
            _ => String::from_str(alloc, "there is no such outcome"),
        },
        NoRun::NoneBroken(true) => {
            String::from_str(
                alloc,
                "no turn is undone by an invariant, in any order of turns",
            )
        }
        NoRun::NoneBroken(false) => String::from_str(
            alloc,
            "no turn was found that is undone by an invariant, and the search did not come to its end: --limit N keeps more states",
        ),
        NoRun::NotUndone => String::from_str(
            alloc,
            "the last turn of the file's schedule is not undone by an invariant",
        ),
        NoRun::Word(number, fault) => {
            let cause = word_cause(alloc, fault)?;
            let word = word_at(words, number);
            format!(in alloc; "step {number} of the schedule cannot be {word}: {cause}")
        }
        NoRun::Step(number, fault) => {
            let cause = step_cause(alloc, fault)?;
            let word = word_at(words, number);
            if word.is_empty() {
                return format!(in alloc; "step {number} of the schedule cannot be done: {cause}");
            }
            format!(in alloc; "step {number} of the schedule, {word}, cannot be done: {cause}")
        }
        NoRun::OtherText => String::from_str(
            alloc,
            "the schedule is not as explore prints it: turns with one space between, and dots only where a turn begins or ends apart",
        ),
        NoRun::Unfinished => {
            String::from_str(alloc, "after a million turns more some task has not ended")
        }
    }
}

/// That turns were chosen after a schedule, in a line, if any were.
pub fn chosen_text(alloc: Global, run: &ScheduledRun) -> Result<Option<String>, AllocError> {
    let turns = run.chosen_turns(alloc)?;
    match str::from_utf8(&turns) {
        Ok(turns) if !turns.is_empty() => {
            let said = format!(in alloc;
                "the schedule ends before the run does; the rest was chosen, each time the next task's turn:{turns}"
            )?;
            Ok(Some(said))
        }
        _ => Ok(None),
    }
}
