//! The turns of a visit, which are played before they have begun.

ghost use Rattle.std.specs.Prelude.{◌≡◌, ◌<◌, ◌≤◌, None, map, IfOk, IfErr, IfSome, IfNone, OnErr};
ghost use Rattle.futures.specs.Task.{Keeps};
ghost use Rattle.swift_history.specs.Jobs.{job_facts};
ghost use Rattle.swift_executor.specs.Exec.{IsAtMost};
ghost use Rattle.swift_executor.specs.PlayedAheadInside.{Afresh, RunsAhead, SameUnlessRun, StaysWhole};
ghost use Rattle.swift_executor.specs.Held.{IsOfBook, KeepsJobs};
ghost use Rattle.swift_executor.specs.Visits.{FindsNone, IsRefused, RunsTurn, RunsTurns};

use crate::batch::{BATCH, run_batch};
use crate::committing::Ahead;
use crate::fault::ExecFault;
use crate::gate::{Gate, Moment};
use crate::resting::TakenState;
use crate::run::{finish_one, turn_one};
use futures::task::Context;
use std::sync::Wait;
use swift_shared_book::{BookLock, TicketedJobs};
use swift_types::{ExecId, TaskId};

// Plays the turn of the job that comes first by the levels that were given before, as one that begins as expected, and commits it.
fn play_ahead<R: Wait>(
    rt: &R,
    held: &mut TakenState,
    worker: u32,
    book: &BookLock,
    cx: &mut Context<'_>,
    jobs: &mut TicketedJobs,
) -> Ahead
    requires free { held.old.state.chosen ≡ None }
    requires book { IsOfBook book.now held.old }
    requires jobs { jobs.old.book ≡ book.now.id }
    ensures done { RunsAhead worker (map job_facts jobs.old.jobs) (map job_facts jobs.new.jobs) held.old held.new result }
    ensures jobs { KeepsJobs held.old.state.script jobs.old jobs.new }
    ensures same { SameUnlessRun jobs.old jobs.new result }
    ensures kept { Keeps cx.old cx.new }
{
    if !held.state.goes_ahead() {
        return Ahead::Not;
    }
    let room = held.state.last_room();
    let Some(task) = held.state.choose_ahead() else {
        return Ahead::Not;
    };
    held.state.assume(worker, task, room);
    let Ok(()) = held.state.play(cx) else {
        return Ahead::Not;
    };
    let seat = &mut held.seat;
    held.state
        .commit(rt, worker, book, seat, &mut held.is_orderly, jobs)
}

// Tells that the job of a task was chosen.
fn tell_chose<G: Gate>(gate: &G, executor: ExecId, worker: u32, task: TaskId) {
    gate.at(Moment::Chose {
        executor,
        worker,
        task,
    });
}

// Tells that the turn of a task was journalled.
fn tell_turned<G: Gate>(gate: &G, executor: ExecId, worker: u32, task: TaskId) {
    gate.at(Moment::Turned {
        executor,
        worker,
        task,
    });
}

// Runs a turn of the job that comes first, which is played before it begins where it can be. None where no job is ready.
pub(crate) fn turn_ahead<R, G>(
    rt: &R,
    held: &mut TakenState,
    executor: ExecId,
    worker: u32,
    book: &BookLock,
    cx: &mut Context<'_>,
    jobs: &mut TicketedJobs,
    gate: &G,
) -> Result<Option<TaskId>, ExecFault>
where
    R: Wait,
    G: Gate,
    requires free { held.old.state.chosen ≡ None }
    requires book { IsOfBook book.now held.old }
    requires jobs { jobs.old.book ≡ book.now.id }
    ensures runs { IfOk result (λ ran. IfSome ran (λ task. Afresh (RunsTurn worker task (map job_facts jobs.old.jobs) (map job_facts jobs.new.jobs)) held.old held.new)) }
    ensures none { IfOk result (λ ran. IfNone ran (Afresh FindsNone held.old held.new)) }
    ensures refused { IfErr result (λ fault. Afresh (IsRefused worker fault) held.old held.new) }
    ensures jobs { KeepsJobs held.old.state.script jobs.old jobs.new }
    ensures idle { IfOk result (λ ran. IfNone ran (jobs.new ≡ jobs.old)) }
    ensures err { OnErr result (jobs.new ≡ jobs.old) }
    ensures kept { Keeps cx.old cx.new }
{
    match play_ahead(rt, held, worker, book, cx, jobs) {
        Ahead::Applied(task) => {
            tell_chose(gate, executor, worker, task);
            tell_turned(gate, executor, worker, task);
            Ok(Some(task))
        }
        Ahead::Begun(task) => {
            tell_chose(gate, executor, worker, task);
            finish_one(rt, held, book, cx, jobs)?;
            tell_turned(gate, executor, worker, task);
            Ok(Some(task))
        }
        Ahead::Not => turn_one(rt, held, executor, worker, book, cx, jobs, gate),
    }
}

// Tells that these turns were run.
fn tell_batch<G: Gate>(
    gate: &G,
    executor: ExecId,
    worker: u32,
    tasks: &[TaskId; BATCH],
    done: usize,
) {
    for at in 0..BATCH {
        if at < done {
            tell_chose(gate, executor, worker, tasks[at]);
            tell_turned(gate, executor, worker, tasks[at]);
        }
    }
}

// Runs turns that are played before they begin, by one lock of the book, as many at most; and then the one that has begun behind them, if
// one has: where that is refused, its job is ready again, and it is told only where no other was run. The task of the last turn, and how
// many were run. None where none was run.
fn batch_ahead<R, G>(
    rt: &R,
    held: &mut TakenState,
    executor: ExecId,
    worker: u32,
    most: u64,
    book: &BookLock,
    cx: &mut Context<'_>,
    jobs: &mut TicketedJobs,
    gate: &G,
) -> Result<Option<(TaskId, u64)>, ExecFault>
where
    R: Wait,
    G: Gate,
    requires free { held.old.state.chosen ≡ None }
    requires book { IsOfBook book.now held.old }
    requires jobs { jobs.old.book ≡ book.now.id }
    ensures runs { IfOk result (λ ran. IfSome ran (λ r. RunsTurns worker r.1 r.0 (map job_facts jobs.old.jobs) (map job_facts jobs.new.jobs) held.old held.new)) }
    ensures most { IfOk result (λ ran. IfSome ran (λ r. IsAtMost most r.1)) }
    ensures none { IfOk result (λ ran. IfNone ran (StaysWhole held.old held.new)) }
    ensures refused { IfErr result (λ fault. Afresh (IsRefused worker fault) held.old held.new) }
    ensures jobs { KeepsJobs held.old.state.script jobs.old jobs.new }
    ensures idle { IfOk result (λ ran. IfNone ran (jobs.new ≡ jobs.old)) }
    ensures err { OnErr result (jobs.new ≡ jobs.old) }
    ensures kept { Keeps cx.old cx.new }
{
    if most < 2 {
        return Ok(None);
    }
    let ran = run_batch(rt, held, worker, most as usize, book, cx, jobs);
    tell_batch(gate, executor, worker, &ran.tasks, ran.done);
    let last = ran.last;
    let done = ran.done as u64;
    match ran.begun {
        Some(task) => {
            tell_chose(gate, executor, worker, task);
            match finish_one(rt, held, book, cx, jobs) {
                Ok(()) => {
                    tell_turned(gate, executor, worker, task);
                    Ok(Some((task, done + 1)))
                }
                Err(fault) => {
                    if done == 0 {
                        Err(fault)
                    } else {
                        Ok(Some((last, done)))
                    }
                }
            }
        }
        None => {
            if done == 0 {
                Ok(None)
            } else {
                Ok(Some((last, done)))
            }
        }
    }
}

// Runs turns one after the other, each of the job that comes first then, as many at most, and at least one where a job is ready. It ends
// where none is ready any more, or a turn is refused: the first one's refusal is told, a later one's job is ready again and the next visit
// meets it. The task of the last turn, and how many were run. None where no job is ready.
pub(crate) fn turns_ahead<R, G>(
    rt: &R,
    held: &mut TakenState,
    executor: ExecId,
    worker: u32,
    most: u64,
    book: &BookLock,
    cx: &mut Context<'_>,
    jobs: &mut TicketedJobs,
    gate: &G,
) -> Result<Option<(TaskId, u64)>, ExecFault>
where
    R: Wait,
    G: Gate,
    requires most { 0 < most }
    requires free { held.old.state.chosen ≡ None }
    requires book { IsOfBook book.now held.old }
    requires jobs { jobs.old.book ≡ book.now.id }
    ensures runs { IfOk result (λ ran. IfSome ran (λ r. RunsTurns worker r.1 r.0 (map job_facts jobs.old.jobs) (map job_facts jobs.new.jobs) held.old held.new)) }
    ensures most { IfOk result (λ ran. IfSome ran (λ r. IsAtMost most r.1)) }
    ensures none { IfOk result (λ ran. IfNone ran (Afresh FindsNone held.old held.new)) }
    ensures refused { IfErr result (λ fault. Afresh (IsRefused worker fault) held.old held.new) }
    ensures jobs { KeepsJobs held.old.state.script jobs.old jobs.new }
    ensures idle { IfOk result (λ ran. IfNone ran (jobs.new ≡ jobs.old)) }
    ensures err { OnErr result (jobs.new ≡ jobs.old) }
    ensures kept { Keeps cx.old cx.new }
{
    match batch_ahead(rt, held, executor, worker, most, book, cx, jobs, gate) {
        Ok(Some(ran)) => Ok(Some(ran)),
        Ok(None) => match turn_ahead(rt, held, executor, worker, book, cx, jobs, gate) {
            Ok(Some(task)) => Ok(Some((task, 1))),
            Ok(None) => Ok(None),
            Err(fault) => Err(fault),
        },
        Err(fault) => Err(fault),
    }
}
