//! Texts of scripts that are changed at each of their places, turns of tasks, and books of tasks.
//!
//! The kinds of cases (test_support says what one is) are:
//!
//! - `prefixes`: what is said of each prefix of a script's text, by its length; `spoiled`: what is said with the byte 0x80 in each
//!   place. For both, how often each answer is given.
//! - `replaced`: with each of 0x20 to 0x7E in each place, how often each answer is given. What is accepted is printed, and has to be read
//!   again.
//! - `book` and `task`: a line for each call. A line `FIRST to LAST: CALL`, or `FIRST to LAST by STEP: CALL`, makes a call for each
//!   number, up or down, which stands in place of `#`, and the number below it in place of `@`; of its answers one that is the same as the
//!   one before is not written again. A call is the name of a method, and its arguments. Answers are `ok`, what the call answered, or the
//!   text of its refusal.
//!
//! A case of `book` has a script, a line `--`, and then its calls; a line of these that begins with `//` is a comment. Of each call it
//! writes the events that it wrote and the jobs that it gave, too. It ends by closing its book: its last lines are the number of
//! events, how many jobs were given and not applied, and the jobs of tasks that wait. No turn is played: a line says what a turn has
//! done.
//!
//! ```text
//! root ROOT             adds a root
//! begin JOB             begins the turn of a job
//! apply JOB; EFFECT; ..; EXIT
//!                       applies it, with its effects in order
//! turn JOB; EFFECT; ..; EXIT
//!                       begins it, and applies it if it has begun
//! cancel TASK, ending TASK, origin TASK, priorities TASK .., levels, open_tasks
//! quiet CALL            the same, of which only the answer is written
//!
//! JOB    = TASK                              the last job that the book gave for that task
//!        | TASK as NUMBER RESUME [of WHICH]  one that was not given by the book
//! EFFECT = spawn METHOD [at PRIORITY] [with LOCAL=VALUE ..]
//!        | detach METHOD [at PRIORITY]
//!        | open
//!        | add GROUP [unless] METHOD [at PRIORITY] [with LOCAL=VALUE ..]
//!        | cancel NAME | cancel group GROUP
//! EXIT   = call METHOD | wait NAME | next GROUP | close GROUP [FAULT] | yield | return VALUE | fault FAULT
//! NAME   = root ROOT | task NUMBER           a task among those that this one has spawned or detached
//! METHOD = ACTOR.METHOD(VALUE,..)            each by its name, or by its number
//! ```
//!
//! WHICH says of which script the job's body is: `equal`, read from another text of the same script, or `other`, with one more
//! local. Groups are numbered within their task. In answers `t3.1` is turn 1 of task 3; an environment is a priority, whether
//! the task is cancelled, and room; and a job has the frames of its body, the innermost first, with their variables, and the
//! bindings that stand.
//!
//! A case of `task` has a script, a line `--`, and then calls, each made once; a line of these that begins with `#` is a comment.
//! Here turns are played. A call whose condition doesn't hold isn't made: its answer is `not possible`.
//!
//! ```text
//! start METHOD ARG.. [with LOCAL=VALUE ..]
//!                       a task whose first frame is the first method of this name, and in which locals are bound,
//!                       by their numbers, the outermost first
//! enter TURN, poll, leave, actor, frame
//! advance               by the exit of the turn that was left last
//! put_back CHANGE..     the frame that was copied last, with changes: a number is a group that is open too, the
//!                       innermost last; `made=N` and `opened=N` are counts of the task, `line=N` is where it is
//! turn TURN             by three calls, which enter, poll and leave it
//! play TURN             turns to the task's end, with no other task between them: one line each, then what comes next
//! ```
//!
//! A TURN is FIELDS RESUME PRIORITY CANCELLED ROOM, as `3,-1 / 5 value 7 medium 0 16`. FIELDS has a row for each actor of
//! the executor, with `/` between them, of numbers with commas between them; a row without fields is `-`. RESUME is
//! `start`, `go`, `value NUMBER` or `fault FAULT`; CANCELLED is 0 or 1. Where a task goes from executor to executor, `play`
//! gives each the fields of the one before, so it is for tasks of one executor.
//!
//! The answer to a turn is its fields, its effects in order, and its exit. Tasks and groups are named by their numbers
//! within the task, as `task 0` and `group 0`, and roots as `root 0`. `{0: 5} of 2` are two bindings, of which local 0 reads
//! as 5.
#![tactic(auto)]

// What calls on a book answer.
mod answers;
// Calls on a book.
mod book;
// A case of calls on a book.
mod book_case;
// What a turn has done, by words.
mod done;
// Jobs that were given, and jobs that were not.
mod jobs;
// The script of a case.
mod scripts;
// Events and jobs as text.
mod show;
// How often each answer was given.
mod tally;
// One text, changed at each of its places.
mod texts;
// A case of calls on a task, turn by turn.
mod turns;

use crate::book_case::play_book;
use crate::turns::play_turns;
use std::alloc::AllocGlobal;
use std::io;
use std::io::Write;
use std::random::RandomSource;
use test_support::{Case, CaseFault, Said, texts_of};

fn main(rt: HostRuntime) -> Result<(), CaseFault> {
    make_cases(&rt, &rt)
}

// Writes what is said of each case.
fn make_cases<W>(rt: &HostRuntime, wait: &W) -> Result<(), CaseFault>
where
    W: RandomSource + AllocGlobal,
{
    let input = io::read_to_string(rt.alloc(), rt.stdin())?;
    let mut texts = texts_of(&input).split("\n== ");
    let _comment = texts.next();
    for text in texts {
        let out = written(wait, text)?;
        rt.stdout().write_all(out.as_bytes())?;
    }
    Ok(())
}

// What is written for the case of a text, which is made again where it was refused memory.
fn written<R>(rt: &R, text: &str) -> Result<String, CaseFault>
where
    R: RandomSource + AllocGlobal,
{
    let Some(case) = Case::of(text) else {
        return Err(CaseFault::Form);
    };
    let mut said = Said::new(rt.alloc());
    match answer(rt, &case, &mut said) {
        Ok(()) if !said.is_cut() => return case.written(rt.alloc(), &said),
        Ok(()) | Err(CaseFault::Memory) => {}
        Err(fault) => return Err(fault),
    }
    let mut again = Said::new(rt.alloc());
    answer(rt, &case, &mut again)?;
    case.written_again(rt.alloc(), &mut again, &said)
}

// Writes what is said of a case.
fn answer<R>(rt: &R, case: &Case<'_>, out: &mut Said) -> Result<(), CaseFault>
where
    R: RandomSource + AllocGlobal,
{
    let (alloc, text) = (rt.alloc(), case.text);
    match case.kind {
        "prefixes" => texts::prefixes(alloc, text.as_bytes(), out),
        "spoiled" => texts::spoiled(alloc, text.as_bytes(), out),
        "replaced" => texts::replaced(alloc, text.as_bytes(), out),
        "book" => play_book(alloc, text, out),
        "task" => play_turns(rt, text, out),
        _ => Err(CaseFault::Form),
    }
}
