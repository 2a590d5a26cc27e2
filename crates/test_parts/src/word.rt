//! Status words, whose states are numbers, and their seats, which are numbered too: 0 is the one that a word is opened with. The first
//! line of a case is the word's first state. At the end the seats are given up, and the word is closed.
//!
//! ```text
//! split SEAT            a new seat
//! allowance SEAT, holds SEAT, count SEAT
//! begin SEAT            how many jobs are pending, and the state
//! end SEAT STATE, leave SEAT STATE
//!                       gives this state back
//! ```
//!
//! Two cases are one line, which names them: `two_seats_are_joined`, and `two_threads_take_turns`.

ghost use Rattle.std.specs.Prelude.{◌≡◌, None, IfOk};
ghost use Rattle.std.specs.Arc.{arc_value};
ghost use Rattle.swift_word.specs.Seat.{IsSeatOf, first_seat};

use std::alloc::{AllocError, Global};
use std::marker::Model;
use std::sync::{Arc, Wait};
use std::thread;
use std::thread::Threads;
use swift_word::{Begun, Named, Spent, Word, WordSeat};
use test_support::{CaseFault, Form, Part, Said, Words, play};

// Numbers, which all have one name.
#[derive(PartialEq, Drop)]
struct Number(u64);

impl Named for Number {
    type Name = ();

    type Image = ();

    ghost name = { λ _. tt };

    ghost image = { λ _. tt };
}

// A word with this state.
fn opened(alloc: Global, state: Number) -> Result<(Word<Number>, WordSeat<Number>), CaseFault>
    ensures { IfOk result (λ r. r.1 ≡ first_seat r.0) }
{
    match Word::open(alloc, state) {
        // The state comes back, and opens one then.
        Err((state, AllocError)) => match Word::open(alloc, state) {
            Ok(opened) => Ok(opened),
            Err(_) => Err(CaseFault::Memory),
        },
        Ok(opened) => Ok(opened),
    }
}

// A seat of a word, and how many jobs were pending when it began, where it holds. The state was given up then: another number is given
// back.
struct CaseSeat {
    word: Arc<Word<Number>>,
    seat: WordSeat<Number>,
    found: Option<u64>,
}

impl Drop for CaseSeat {
    fn drop(self) {
        let CaseSeat {
            word,
            seat,
            found: _,
        } = self;
        drop(seat);
        drop(word);
    }
}

impl Model for CaseSeat {
    ghost use Rattle.std.specs.Prelude.{◌≡◌};
    ghost use Rattle.std.specs.Arc.{arc_value};
    ghost use Rattle.swift_word.specs.Seat.{IsSeatOf};

    ghost Value = { Unit {0} };

    ghost view = { λ _. tt };

    ghost invariant = { λ s. IsSeatOf (arc_value s.word) s.seat × (s.seat.holding ≡ s.found) };
}

impl CaseSeat {
    // A new seat.
    fn split(&mut self) -> Result<CaseSeat, AllocError> {
        let word = Arc::clone(&self.word)?;
        let seat = self.seat.split(&self.word);
        Ok(CaseSeat {
            word,
            seat,
            found: None,
        })
    }

    // Counts a job.
    fn count(&mut self, out: &mut Said) {
        match self.word.count(&mut self.seat) {
            Ok(was) => out.debug("", &was),
            Err(Spent) => out.put("Spent"),
        }
    }

    // Takes the state.
    fn begin(&mut self, out: &mut Said) -> Result<(), CaseFault> {
        if self.found.is_some() {
            return Err(CaseFault::Form);
        }
        match self.word.begin(&mut self.seat) {
            Begun::Busy => out.put("Busy"),
            Begun::Run(pending, Number(state)) => {
                self.found = Some(pending);
                out.count("", pending);
                out.count(" pending, state ", state);
            }
        }
        Ok(())
    }

    // Gives this state back after a turn.
    fn end(&mut self, state: u64, out: &mut Said) -> Result<(), CaseFault> {
        let Some(1..) = self.found else {
            return Err(CaseFault::Form);
        };
        let left = self.word.end(&mut self.seat, Number(state), 1);
        self.found = None;
        out.debug("", &left);
        Ok(())
    }

    // Gives this state back, and no turn was run.
    fn leave(&mut self, state: u64, out: &mut Said) -> Result<(), CaseFault> {
        if self.found.is_none() {
            return Err(CaseFault::Form);
        }
        let left = self.word.leave(&mut self.seat, Number(state));
        self.found = None;
        out.debug("", &left);
        Ok(())
    }

    // A call on this seat but for `split`.
    fn call(&mut self, verb: &str, words: &mut Words<'_>, out: &mut Said) -> Result<(), CaseFault> {
        match verb {
            "allowance" => out.count("", self.seat.allowance()),
            "holds" => out.whether("", self.seat.holds()),
            "count" => self.count(out),
            "begin" => return self.begin(out),
            "end" => return self.end(words.count(), out),
            "leave" => return self.leave(words.count(), out),
            _ => words.refuse(),
        }
        Ok(())
    }
}

// The seats of a word, in order of their numbers.
#[derive(Drop)]
struct WordPart {
    seats: Vec<CaseSeat>,
}

impl Part for WordPart {
    fn answer(
        &mut self,
        _alloc: Global,
        words: &mut Words<'_>,
        out: &mut Said,
    ) -> Result<(), CaseFault> {
        let (verb, place) = (words.next(), words.size());
        let Some(seat) = self.seats.get_mut(place) else {
            return Err(CaseFault::Form);
        };
        if verb != "split" {
            return seat.call(verb, words, out);
        }
        let new = seat.split()?;
        self.seats.push(new)?;
        out.put("ok");
        Ok(())
    }
}

// The first seat of a word.
fn first(
    alloc: Global,
    word: &Arc<Word<Number>>,
    seat: WordSeat<Number>,
) -> Result<WordPart, AllocError>
    requires { seat ≡ first_seat (arc_value word.now) }
{
    let first = CaseSeat {
        word: Arc::clone(word)?,
        seat,
        found: None,
    };
    let mut seats = Vec::new(alloc);
    seats.push(first)?;
    Ok(WordPart { seats })
}

// What a word is when it is closed: how many jobs are pending, and its state, where no seat holds.
fn tell_closed(closed: (u64, Option<Number>), out: &mut Said) {
    let (pending, state) = closed;
    out.count("closed: ", pending);
    out.put(" pending");
    if let Some(Number(state)) = state {
        out.count(", state ", state);
    }
    out.put("\n")
}

// Opens a word with this state, makes the calls, and closes it.
fn play_calls(alloc: Global, state: u64, calls: &str, out: &mut Said) -> Result<(), CaseFault> {
    let (word, seat) = opened(alloc, Number(state))?;
    let word = Arc::new(alloc, word)?;
    let mut part = first(alloc, &word, seat)?;
    let played = play(alloc, &mut part, Form::Plain, calls, out);
    drop(part);
    let Some(word) = Arc::into_inner(word) else {
        return Err(CaseFault::Form);
    };
    let closed = word.close();
    played?;
    tell_closed(closed, out);
    Ok(())
}

// A seat that holds takes in another one.
fn two_seats_are_joined(alloc: Global, out: &mut Said) -> Result<(), CaseFault> {
    let (word, mut a) = opened(alloc, Number(5))?;
    let mut b = a.split(&word);
    let counted = word.count(&mut b);
    drop(word.begin(&mut a));
    a.join(&word, b);
    out.debug("", &counted);
    out.count(", ", a.allowance());
    out.whether(" left, holds: ", a.holds());
    out.put("\n");
    tell_closed(word.close(), out);
    Ok(())
}

// Counts a job, and runs one as soon as no other seat holds: the state becomes one more. Each thread ends no more jobs
// than it counted before, so one is pending; where none were, nothing would be run.
fn take_turn<R: Wait>(rt: &R, word: &Word<Number>, seat: &mut WordSeat<Number>)
    requires { IsSeatOf word.now seat.old × (seat.old.holding ≡ None) }
    ensures { IsSeatOf word.now seat.new × (seat.new.holding ≡ None) }
{
    if word.count(seat).is_err() {
        return;
    }
    for _ in rt.forever() {
        if let Begun::Run(pending, state) = word.begin(seat) {
            if pending > 0 {
                word.end(seat, Number(state.0.wrapping_add(1)), 1);
            } else {
                word.leave(seat, state);
            }
            return;
        }
        thread::yield_now();
    }
}

fn take_turns<R: Wait>(rt: &R, word: &Word<Number>, mut seat: WordSeat<Number>, turns: u64) -> u64
    requires { IsSeatOf word.now seat × (seat.holding ≡ None) }
{
    for _ in 0..turns {
        take_turn(rt, word, &mut seat);
    }
    seat.allowance()
}

fn by_two_threads<R: Threads + Wait + Sync>(
    rt: &R,
    word: &Word<Number>,
    a: WordSeat<Number>,
    b: WordSeat<Number>,
    turns: u64,
) -> (u64, u64)
    requires one { IsSeatOf word.now a × (a.holding ≡ None) }
    requires other { IsSeatOf word.now b × (b.holding ≡ None) }
{
    thread::join(
        rt,
        move || -> u64
            requires { IsSeatOf word.now a × (a.holding ≡ None) }
        { take_turns(rt, word, a, turns) },
        move || -> u64
            requires { IsSeatOf word.now b × (b.holding ≡ None) }
        { take_turns(rt, word, b, turns) },
    )
}

// Half a million turns by each of two threads, none of them lost.
fn two_threads_take_turns<R: Threads + Wait + Sync>(
    rt: &R,
    alloc: Global,
    out: &mut Said,
) -> Result<(), CaseFault> {
    let (word, mut a) = opened(alloc, Number(0))?;
    let b = a.split(&word);
    let (first, second) = by_two_threads(rt, &word, a, b, 500_000);
    out.count("", first);
    out.count(" and ", second);
    out.put(" left\n");
    tell_closed(word.close(), out);
    Ok(())
}

/// Opens a word, and makes the calls of a case.
pub fn play_words<R: Threads + Wait + Sync>(
    rt: &R,
    alloc: Global,
    case: &str,
    out: &mut Said,
) -> Result<(), CaseFault> {
    match case {
        "two_seats_are_joined" => two_seats_are_joined(alloc, out),
        "two_threads_take_turns" => two_threads_take_turns(rt, alloc, out),
        _ => {
            let (state, calls) = case.split_once('\n').unwrap_or((case, ""));
            let mut head = Words::new(state);
            let state = head.count();
            if !head.are_right() {
                return Err(CaseFault::Form);
            }
            play_calls(alloc, state, calls, out)
        }
    }
}
