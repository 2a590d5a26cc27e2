//! Schedules that were written down.

ghost use Rattle.std.specs.Prelude.{◌≡◌, IfOk};
ghost use Rattle.nuchapay.specs.Schedules.{IsReadAs, line_of};

use crate::undone::begun;
use nuchapay_tool::{TurnName, turn_name};
use std::alloc::{AllocError, Global};
use swift_explorer::{Move, schedule_text};
use swift_types::TaskId;

/// Why a word of a schedule can't stand where it stands (our own).
#[derive(Clone, Copy)]
pub enum WordFault {
    /// It names no turn.
    NoTurn,
    /// The next turn of its task has another number: this one.
    OtherNumber(TurnName, usize),
    /// It ends a turn, and none of its task has begun.
    NotBegun(TurnName),
}

/// What was read of a schedule (our own).
#[derive(Drop)]
pub enum ReadSchedule {
    /// Its steps: first each root is added.
    Steps(Vec<Move>),
    /// The word with this number, from 1, can't stand there.
    Refused(usize, WordFault),
    /// It is not written as a schedule is printed, as one with two spaces between turns.
    OtherText,
}

// A word of a schedule: a turn, and whether it begins and ends here.
#[derive(Clone, Copy)]
struct StepWord {
    turn: TurnName,
    begins: bool,
    ends: bool,
}

// A word of a schedule, as `t0.1`, `t0.1..` or `..t0.1`.
fn step_word(word: &str) -> Option<StepWord> {
    let (rest, begins) = match word.strip_prefix("..") {
        Some(rest) => (rest, false),
        None => (word, true),
    };
    let (rest, ends) = match rest.strip_suffix("..") {
        Some(rest) => (rest, false),
        None => (rest, true),
    };
    Some(StepWord {
        turn: turn_name(rest)?,
        begins,
        ends,
    })
}

/// Whether some turn of these does not end right after it begins.
pub fn has_parted_turn(path: &[Move]) -> bool {
    let mut begun: Option<TaskId> = None;
    for step in path {
        match (begun, *step) {
            (Some(task), Move::Run(ended)) if task == ended => begun = None,
            (Some(_), _) | (None, Move::Run(_)) => return true,
            (None, Move::Begin(task)) => begun = Some(task),
            (None, Move::Add) => {}
        }
    }
    begun.is_some()
}

// Why a word can't stand after these steps, as far as its number tells.
fn number_fault(path: &[Move], word: StepWord) -> Option<WordFault> {
    let turns = begun(path, TaskId(word.turn.task));
    if word.begins {
        return if turns == word.turn.number as usize {
            None
        } else {
            Some(WordFault::OtherNumber(word.turn, turns))
        };
    }
    match turns.checked_sub(1) {
        None => Some(WordFault::NotBegun(word.turn)),
        Some(last) if last == word.turn.number as usize => None,
        Some(last) => Some(WordFault::OtherNumber(word.turn, last)),
    }
}

// Puts the steps of a word to those before it, unless it can't stand there: why not.
fn put_word(path: &mut Vec<Move>, word: &str) -> Result<Option<WordFault>, AllocError> {
    let Some(found) = step_word(word) else {
        return Ok(Some(WordFault::NoTurn));
    };
    let fault = number_fault(path, found);
    if fault.is_some() {
        return Ok(fault);
    }
    let task = TaskId(found.turn.task);
    if found.begins {
        path.push(Move::Begin(task))?;
    }
    if found.ends {
        path.push(Move::Run(task))?;
    }
    Ok(None)
}

// The steps that add so many roots.
fn roots_added(alloc: Global, roots: usize) -> Result<Vec<Move>, AllocError> {
    let mut path = Vec::with_capacity(alloc, roots)?;
    for _ in 0..roots {
        path.push(Move::Add)?;
    }
    Ok(path)
}

// The line of a schedule that these words are.
fn line_of(alloc: Global, words: &[u8]) -> Result<Vec<u8>, AllocError>
    ensures { IfOk result (λ line. line.items ≡ line_of words.now) }
{
    let [_, ..] = words else {
        return Vec::from_slice(alloc, b"schedule\n");
    };
    let mut line = Vec::from_slice(alloc, b"schedule ")?;
    line.extend_from_slice(words)?;
    line.extend_from_slice(b"\n")?;
    Ok(line)
}

// The steps of these words, where each can stand where it stands.
fn read_words(alloc: Global, roots: usize, words: &str) -> Result<ReadSchedule, AllocError> {
    let mut path = roots_added(alloc, roots)?;
    if words.is_empty() {
        return Ok(ReadSchedule::Steps(path));
    }
    let mut number: usize = 0;
    for word in words.split(' ') {
        number = number.saturating_add(1);
        if let Some(fault) = put_word(&mut path, word)? {
            return Ok(ReadSchedule::Refused(number, fault));
        }
    }
    Ok(ReadSchedule::Steps(path))
}

/// The word with this number, from 1, of those of a schedule; empty where there is none.
pub fn word_at(words: &str, number: usize) -> &str {
    let mut place: usize = 0;
    for word in words.split(' ') {
        place = place.saturating_add(1);
        if place == number {
            return word;
        }
    }
    ""
}

/// Reads a schedule as `explore` prints it, without the word in front: turns with a space between, of a script with so many roots (our
/// own). What is read prints as what was given: the steps are printed again, and compared. It costs the square of their number.
///
/// # Errors
///
/// `AllocError` where no memory was left.
pub fn read_schedule(alloc: Global, roots: usize, words: &str) -> Result<ReadSchedule, AllocError>
    ensures { IfOk result (IsReadAs words.now) }
{
    let found = read_words(alloc, roots, words)?;
    let ReadSchedule::Steps(path) = found else {
        return Ok(found);
    };
    let printed = schedule_text(alloc, &path)?;
    let given = line_of(alloc, words.as_bytes())?;
    if printed == given {
        Ok(ReadSchedule::Steps(path))
    } else {
        Ok(ReadSchedule::OtherText)
    }
}
