//! The executors of a script, and the desks of each worker.

ghost use Rattle.std.specs.Prelude.{◌≡◌, ◌<◌, Some, IfOk, OnOk, length};
ghost use Rattle.std.specs.Arc.{arc_value};
ghost use Rattle.swift_script.specs.Scripts.{executor_count};
ghost use Rattle.swift_shared_book.specs.Shared.{IsSeatOf, knowing};
ghost use Rattle.swift_workers.specs.CrewInside.{AreAtSites, AreDesksOf, AreHandsOf, AreOthers, has_opened};

use crate::fault::Halt;
use crate::shared_pool::SharedPool;
use std::alloc::Global;
use std::sync::Arc;
use swift_executor::{Desk, Exec};
use swift_script::Script;
use swift_shared_book::{BookLock, BookSeat, TicketedJobs};
use swift_types::ExecId;
use swift_types::limits::TASKS;

/// What the workers of a run share.
#[derive(Clone, Copy)]
pub struct Crew<'a> {
    pub script: &'a Script,
    pub execs: &'a [Exec],
    pub book: &'a BookLock,
    pub pool: &'a SharedPool,
    /// How many workers there are.
    pub workers: u32,
}

/// What a worker has of its own: its number, a desk at each executor, in their order, the tokens that it has to put, in order, and the
/// jobs that its turn has made and that it has to send, with their tickets. Between turns there are no such jobs.
#[derive(Drop)]
pub struct Hand {
    pub worker: u32,
    pub desks: Vec<Desk>,
    pub tokens: Vec<ExecId>,
    /// The executor that it visits, or has visited.
    pub at: ExecId,
    /// Whether its turn there has sent a job to another executor.
    pub is_link: bool,
    pub jobs: TicketedJobs,
}

// Room for `APART` desks more, 128 bytes, stays empty behind those of a worker. A worker writes its desks in each turn, and those of the
// next one lie behind them: so no line of the cache has desks of both.
const APART: usize = 8;

/// The executors of a script, in order, each with room for the jobs of all tasks and a seat of this book for its account, and the
/// desks of the first worker. The seat is the one that opens accounts, and has opened none.
pub fn open_all(
    alloc: Global,
    script: &Arc<Script>,
    workers: u32,
    book: &BookLock,
    seat: &mut BookSeat,
) -> Result<(Vec<Exec>, Vec<Desk>), Halt>
    requires workers { 0 < workers }
    requires seat { IsSeatOf book.now seat.old }
    requires book { book.now.script ≡ arc_value script.now }
    requires maker { seat.old.knows.maker ≡ Some (record { executors = 0; roots = 0 }) }
    ensures seat { OnOk result (seat.new ≡ knowing (has_opened (executor_count (arc_value script.now)) seat.old.knows) seat.old) }
    ensures sites { IfOk result (λ r. AreAtSites book.now r.0.items) }
    ensures many { IfOk result (λ r. length r.0.items ≡ executor_count (arc_value script.now)) }
    ensures desks { IfOk result (λ r. AreDesksOf r.0.items r.1.items) }
{
    script.facts();
    let mut desks = Vec::with_capacity(alloc, script.executor_count().saturating_add(APART))?;
    let mut execs = Vec::new(alloc);
    for place in 0..script.executor_count() {
        let executor = ExecId(place as u32);
        let script = Arc::clone(script)?;
        let own = book.open_account(seat);
        let (exec, desk) = Exec::new(alloc, script, executor, workers, TASKS, own)?;
        execs.push(exec)?;
        desks.push(desk)?;
    }
    Ok((execs, desks))
}

/// A desk more at each executor.
pub fn split_all(alloc: Global, execs: &[Exec], desks: &mut Vec<Desk>) -> Result<Vec<Desk>, Halt>
    requires { AreDesksOf execs.now desks.old.items }
    ensures kept { AreDesksOf execs.now desks.new.items }
    ensures others { IfOk result (λ others. AreDesksOf execs.now others.items) }
{
    let mut others = Vec::with_capacity(alloc, execs.len().saturating_add(APART))?;
    for place in 0..execs.len() {
        others.push(desks[place].split(&execs[place]))?;
    }
    Ok(others)
}

/// The hands of the workers but the first, by desks that are split from the first one's. None has jobs.
pub fn others_of(
    alloc: Global,
    execs: &[Exec],
    first: &mut Vec<Desk>,
    workers: u32,
    book: &BookLock,
    seat: &mut BookSeat,
) -> Result<Vec<Hand>, Halt>
    requires desks { AreDesksOf execs.now first.old.items }
    requires seat { IsSeatOf book.now seat.old }
    ensures first { AreDesksOf execs.now first.new.items }
    ensures seat { seat.new ≡ seat.old }
    ensures others { IfOk result (λ hands. AreHandsOf book.now execs.now hands.items) }
    ensures workers { IfOk result (λ hands. AreOthers workers hands.items) }
{
    let mut hands = Vec::new(alloc);
    for worker in 1..workers {
        let desks = split_all(alloc, execs, first)?;
        let tokens = Vec::new(alloc);
        let jobs = book.no_jobs(alloc, seat);
        hands.push(Hand {
            worker,
            desks,
            tokens,
            at: ExecId(0),
            is_link: false,
            jobs,
        })?;
    }
    Ok(hands)
}
