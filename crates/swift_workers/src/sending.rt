//! Jobs on their way to executors.

ghost use Rattle.std.specs.Prelude.{◌≡◌, [], Some, OnOk};
ghost use Rattle.std.specs.List.{AllByRecursion};
ghost use Rattle.swift_script.specs.Scripts.{executor_count, root_count};
ghost use Rattle.swift_shared_book.specs.Shared.{IsSeatOf};
ghost use Rattle.swift_tasks.specs.Books.{IsJobOf};
ghost use Rattle.swift_workers.specs.CrewInside.{AreAtSites, AreDesksOf};

use crate::crew::{Crew, Hand};
use crate::fault::Halt;
use std::sync::Wait;
use swift_executor::{Desk, Gate};
use swift_job::Job;
use swift_script::Script;
use swift_shared_book::{BookLock, BookSeat, TicketedJob, TicketedJobs};
use swift_turn::Body;
use swift_types::{ExecId, RootId};
use swift_word::BeforeCount;

/// Gives a job up, with the task that it would go on with.
pub fn give_up(job: Job<Body>) {
    let (_task, _number, _resume, _body) = job.spend();
}

// Puts a job into the inbox of the executor of its actor. A job that is refused is given up, with its ticket.
fn put<R: Wait, G: Gate>(
    rt: &R,
    crew: Crew<'_>,
    desks: &mut Vec<Desk>,
    job: TicketedJob,
    gate: &G,
) -> Result<(ExecId, BeforeCount), Halt>
    requires sites { AreAtSites crew.book.now crew.execs.now }
    requires script { crew.book.now.script ≡ crew.script.now }
    requires desks { AreDesksOf crew.execs.now desks.old.items }
    requires job { IsJobOf crew.script.now job.job }
    requires book { job.book ≡ Some crew.book.now.id }
    ensures desks { AreDesksOf crew.entry.execs.now desks.new.items }
{
    let on = crew.script.actor_executor(job.job().body().actor());
    let place = on.0 as usize;
    if place >= crew.execs.len() {
        // Each actor has one of these executors.
        drop(job);
        return Err(Halt::Executor);
    }
    let exec = &crew.execs[place];
    let desk = &mut desks[place];
    match exec.enqueue(rt, desk, job, gate) {
        Ok(was) => Ok((on, was)),
        Err((job, fault)) => {
            drop(job);
            Err(Halt::from(fault))
        }
    }
}

// Sends a job to the executor of its actor. Where that was idle, its token goes behind those that the worker has to put.
fn send<R: Wait, G: Gate>(
    rt: &R,
    crew: Crew<'_>,
    hand: &mut Hand,
    job: TicketedJob,
    gate: &G,
) -> Result<(), Halt>
    requires sites { AreAtSites crew.book.now crew.execs.now }
    requires script { crew.book.now.script ≡ crew.script.now }
    requires desks { AreDesksOf crew.execs.now hand.old.desks.items }
    requires job { IsJobOf crew.script.now job.job }
    requires book { job.book ≡ Some crew.book.now.id }
    ensures desks { AreDesksOf crew.entry.execs.now hand.new.desks.items }
    ensures jobs { hand.new.jobs ≡ hand.old.jobs }
{
    let (on, was) = put(rt, crew, &mut hand.desks, job, gate)?;
    if on != hand.at {
        hand.is_link = true;
    }
    if was == BeforeCount::Idle {
        // Where there is no memory for it the token is lost, and the run is given up: no executor is visited any more.
        hand.tokens.push(on)?;
    }
    Ok(())
}

/// Sends each job of the hand to the executor of its actor, in order. The tokens of executors that were idle go behind those that the
/// worker has to put, in this order. After a refusal the jobs that are left stay in the hand.
pub fn send_all<R: Wait, G: Gate>(
    rt: &R,
    crew: Crew<'_>,
    hand: &mut Hand,
    gate: &G,
) -> Result<(), Halt>
    requires sites { AreAtSites crew.book.now crew.execs.now }
    requires script { crew.book.now.script ≡ crew.script.now }
    requires desks { AreDesksOf crew.execs.now hand.old.desks.items }
    requires book { hand.old.jobs.book ≡ crew.book.now.id }
    requires jobs { AllByRecursion (IsJobOf crew.script.now) hand.old.jobs.jobs }
    ensures desks { AreDesksOf crew.entry.execs.now hand.new.desks.items }
    ensures book { hand.new.jobs.book ≡ hand.old.jobs.book }
    ensures sent { OnOk result (hand.new.jobs.jobs ≡ []) }
{
    while let Some(job) = hand.jobs.take_first(crew.book) {
        send(rt, crew, hand, job, gate)?;
    }
    Ok(())
}

/// Adds each root, in order of declaration, by the seat that adds roots, and has added none. The jobs of their first turns come behind
/// those of the list, in the same order.
pub fn add_roots<R: Wait>(
    rt: &R,
    script: &Script,
    book: &BookLock,
    seat: &mut BookSeat,
    jobs: &mut TicketedJobs,
) -> Result<(), Halt>
    requires seat { IsSeatOf book.now seat.old }
    requires script { book.now.script ≡ script.now }
    requires maker { seat.old.knows.maker ≡ Some (record { executors = executor_count script.now; roots = 0 }) }
    requires book { jobs.old.book ≡ book.now.id }
    requires jobs { AllByRecursion (IsJobOf script.now) jobs.old.jobs }
    ensures seat { IsSeatOf book.now seat.new }
    ensures maker { OnOk result (seat.new.knows.maker ≡ Some (record { executors = executor_count script.now; roots = root_count script.now })) }
    ensures book { jobs.new.book ≡ jobs.old.book }
    ensures jobs { AllByRecursion (IsJobOf script.now) jobs.new.jobs }
{
    script.facts();
    for place in 0..script.root_count() {
        book.add_root(rt, seat, RootId(place as u32), jobs)?;
    }
    Ok(())
}
