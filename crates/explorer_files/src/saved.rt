//! Which schedule of a file is meant, and what the file has of it.

ghost use Rattle.std.specs.Prelude.{◌≡◌, IfOk, IfSome, codes, option_and_then, option_map, string_bytes};
ghost use Rattle.serde_json.specs.Find.{as_array, at, get};
ghost use Rattle.serde_json.specs.View.{items_view, view};
ghost use Rattle.explorer_files.specs.Saved.{IsFoundIn, IsPart, IsSavedAs, IsSavedIn, sum_in};

use crate::steps::schedule_of;
use script_sums::script_sum;
use serde_json::Value;
use std::alloc::{AllocError, Global};
use swift_explorer::Move;

/// Which schedule of a file is meant (our own).
#[derive(Clone, Copy)]
pub enum SavedChoice {
    /// That of the outcome with this number, from 1.
    Outcome(u32),
    /// The one to a turn that is undone by an invariant.
    Broken,
}

/// What a file has of that (our own).
#[derive(Drop)]
pub enum SavedSchedule {
    /// The schedule's steps.
    Steps(Vec<Move>),
    /// The file is of another script: it has another sum.
    OtherScript,
    /// The file has no such outcome, and so many others.
    NoOutcome(usize),
    /// The file has no schedule to a turn that is undone.
    NoneBroken,
    /// The file is not as `explore --save` writes it.
    OtherFile,
}

// The sum that a value says its script has.
fn sum_in(value: &Value) -> Option<&str>
    ensures { option_map (λ sum. sum.now) result ≡ sum_in (view value.now) }
{
    value.get("script")?.as_str()
}

// The schedule of the outcome at a place.
fn schedule_at(value: &Value, place: usize) -> Option<&Value>
    ensures { option_map (λ v. view v.now) result ≡ option_and_then (get (codes "schedule")) (option_and_then (at place) (get (codes "outcomes") (view value.now))) }
{
    value.get("outcomes")?.get(place)?.get("schedule")
}

// The outcomes of a value.
fn outcomes_in(value: &Value) -> Option<&Vec<Value>>
    ensures { option_map (λ v. items_view v.now.items) result ≡ option_and_then as_array (get (codes "outcomes") (view value.now)) }
{
    value.get("outcomes")?.as_array()
}

// A schedule, if there is one.
fn steps_or_none(alloc: Global, part: Option<&Value>) -> Result<Option<Vec<Move>>, AllocError>
    ensures { IfOk result (λ found. IfSome found (λ steps. IsPart (option_map (λ v. view v.now) part.entry) steps.items)) }
{
    match part {
        Some(part) => schedule_of(alloc, part),
        None => Ok(None),
    }
}

// The schedule of the outcome with this number, from 1.
fn outcome_in(alloc: Global, value: &Value, number: u32) -> Result<SavedSchedule, AllocError>
    ensures { IfOk result (IsFoundIn (SavedChoice.Outcome number) (view value.now)) }
{
    let Some(outcomes) = outcomes_in(value) else {
        return Ok(SavedSchedule::OtherFile);
    };
    let many = outcomes.len();
    if number == 0 || many < number as usize {
        return Ok(SavedSchedule::NoOutcome(many));
    }
    match steps_or_none(alloc, schedule_at(value, number as usize - 1))? {
        Some(steps) => Ok(SavedSchedule::Steps(steps)),
        None => Ok(SavedSchedule::OtherFile),
    }
}

// The schedule to a turn that is undone.
fn broken_in(alloc: Global, value: &Value) -> Result<SavedSchedule, AllocError>
    ensures { IfOk result (IsFoundIn SavedChoice.Broken (view value.now)) }
{
    let Some(part) = value.get("undone") else {
        return Ok(SavedSchedule::OtherFile);
    };
    if part.is_null() {
        return Ok(SavedSchedule::NoneBroken);
    }
    match schedule_of(alloc, part)? {
        Some(steps) => Ok(SavedSchedule::Steps(steps)),
        None => Ok(SavedSchedule::OtherFile),
    }
}

// The schedule that is meant, of a value that is of the script.
fn chosen_in(alloc: Global, value: &Value, choice: SavedChoice) -> Result<SavedSchedule, AllocError>
    ensures { IfOk result (IsFoundIn choice (view value.now)) }
{
    match choice {
        SavedChoice::Outcome(number) => outcome_in(alloc, value, number),
        SavedChoice::Broken => broken_in(alloc, value),
    }
}

// The schedule that is meant, if the value's script has this sum.
fn schedule_in(
    alloc: Global,
    value: &Value,
    sum: &str,
    choice: SavedChoice,
) -> Result<SavedSchedule, AllocError>
    ensures { IfOk result (IsSavedIn sum.now choice (view value.now)) }
{
    let Some(own) = sum_in(value) else {
        return Ok(SavedSchedule::OtherFile);
    };
    if own != sum {
        return Ok(SavedSchedule::OtherScript);
    }
    chosen_in(alloc, value, choice)
}

/// The schedule that is meant, of a file that `explore --save` or `explore --format json` has written for the script of this text (our
/// own). A file of another script is refused, by its sum. Nothing else of the file is compared with the script: whether the steps can be
/// done is for the one who follows them. Linear in the file and in the text.
///
/// # Errors
///
/// `AllocError` where no memory is left for the value of the file.
pub fn saved_schedule(
    alloc: Global,
    file: &[u8],
    script: &[u8],
    choice: SavedChoice,
) -> Result<SavedSchedule, AllocError>
    ensures { IfOk result (IsSavedAs file.now script.now choice) }
{
    let value = match Value::from_slice(alloc, file) {
        Ok(value) => value,
        Err(error) if error.is_memory() => return Err(AllocError),
        Err(_) => return Ok(SavedSchedule::OtherFile),
    };
    let sum = script_sum(alloc, script)?;
    schedule_in(alloc, &value, &sum, choice)
}
