//! Whole runs.

ghost use Rattle.std.specs.Prelude.{◌≡◌, ◌≢◌, ◌⊎◌, ◌↔◌, ◌<◌, Err, Some, length, IfNone, IfOk, IfSome, OnOk};
ghost use Rattle.std.specs.Arc.{arc_value};
ghost use Rattle.swift_types.specs.declared.limits.TheConstants.{WORKERS};
ghost use Rattle.swift_script.specs.Scripts.{executor_count, root_count};
ghost use Rattle.swift_history.specs.Histories.{IsLegal};
ghost use Rattle.swift_history.specs.Orderly.{IsOrderlyLegal};
ghost use Rattle.swift_course.specs.Seats.{first_view};
ghost use Rattle.swift_course.specs.Whole.{HasWhole};
ghost use Rattle.swift_certificate.specs.Reports.{report_view};
ghost use Rattle.swift_shared_book.specs.Shared.{IsSeatOf, seat_of};
ghost use Rattle.swift_workers.specs.declared.fault.RunFault.TheVariants.{Illegal, Workers};
ghost use Rattle.swift_workers.specs.CrewInside.{AreAtSites, AreHandsOf, AreOthers, IsHandOf};
ghost use Rattle.swift_workers.specs.Leaves.{AreEndings, AreReplayed, KeepInvariants};
ghost use Rattle.swift_workers.specs.Pools.{first_known};
ghost use Rattle.swift_workers.specs.PoolCallsInside.{HasStopped, IsPoolSeatOf};

use crate::crew::{Crew, Hand, open_all, others_of, split_all};
use crate::fault::{Halt, RunFault};
use crate::leave::report_of;
use crate::sending::{add_roots, send_all};
use crate::shared_pool::{PoolSeat, SharedPool};
use crate::turns::work;
use std::alloc::{AllocGlobal, Global};
use std::random::RandomSource;
use std::sync::{Arc, Wait};
use std::thread;
use std::thread::Threads;
use swift_executor::{Exec, Gate};
use swift_job::spend_all;
use swift_report::Report;
use swift_script::Script;
use swift_shared_book::{BookLock, BookSeat};
use swift_tasks::Book;
use swift_types::ExecId;
use swift_types::limits::WORKERS;

/// Runs a script to its end on one to eight threads, and leaves the report of the run (SE-0304 for tasks, SE-0392 for executors
/// that run one job at a time; the pool of tokens is our own). The report is legal, by proof: nothing checks it again. The book of tasks
/// takes a turn only by its ticket, and each executor's seat knows the turns that it has taken; at the end the seats are gathered, which
/// takes time and memory linear in the executors, and the endings are read off the book, in time linear in the log.
///
/// An executor with jobs has a token, until a worker takes it. A worker takes the oldest token of an executor that it may run,
/// runs one turn there, and sends the jobs that the turn made. Then the token goes behind the others where more is pending, and
/// after it one for each executor that was idle. A pinned executor is run by one worker alone. A worker that finds no such token sleeps
/// while a token is left or another worker is under way, and else stops. It may also sleep while others run short turns that call each
/// other's actors, and one of them may run each token. It stops, too, once the run is given up. The roots' jobs
/// are sent first, as the text declares them; then the workers start. With one worker a run is determined. `run` returns when
/// each thread that it made has ended.
///
/// # Errors
///
/// `Workers` stands for any number of workers but 1 to 8, `Memory` for a growth that was refused or a thread that could not be
/// made, `Unfinished` for a task that has not ended or has a group open, or a job that was not run, though no executor has a token, and
/// `Executor` for an executor that had no room or a turn that the book refused. No run ends with `Illegal`. Nothing of a refused run
/// remains.
pub fn run<R, G>(rt: &R, script: Arc<Script>, workers: u32, gate: &G) -> Result<Report, RunFault>
where
    R: RandomSource + AllocGlobal + Threads + Wait + Sync,
    G: Gate + Sync,
    ensures workers { (result ≡ Err Workers) ↔ ((workers ≡ 0) ⊎ (WORKERS < workers)) }
    ensures never_illegal { result ≢ Err Illegal }
    // The report is one that a history of blocks has made, each of which may stand after those before it.
    ensures legal { IfOk result (λ r. IsLegal (arc_value script) (report_view r)) }
    // Its blocks are in order: roots are added as the text declares them, and a turn begins once each is there, and only at an executor
    // that has no turn under way.
    ensures orderly { IfOk result (λ r. IsOrderlyLegal (arc_value script) (report_view r)) }
    // No turn is forgotten: it is the fold of a report that is legal in the same way, and has each turn of the run in its journals.
    ensures whole { IfOk result (λ r. HasWhole (arc_value script) (report_view r)) }
    // The turns of each executor are lawful from the start values on, those that were folded too; those of its journal are of its
    // actors, and replaying them gives the fields.
    ensures lawful { IfOk result (λ r. AreReplayed (arc_value script) 0 r.checkpoints.items r.journals.items r.fields.items) }
    // The fields meet each invariant that holds at the start.
    ensures invariants { IfOk result (λ r. KeepInvariants (arc_value script) 0 r.fields.items) }
    ensures journals { IfOk result (λ r. length r.journals.items ≡ executor_count (arc_value script)) }
    ensures checkpoints { IfOk result (λ r. length r.checkpoints.items ≡ executor_count (arc_value script)) }
    ensures fields { IfOk result (λ r. length r.fields.items ≡ executor_count (arc_value script)) }
    // The log says of each task where it comes from and how it has ended. The first tasks are the roots, in order of declaration.
    ensures endings { IfOk result (λ r. AreEndings (root_count (arc_value script)) r.log.events r.endings.items) }
{
    if workers == 0 || workers as usize > WORKERS {
        return Err(RunFault::Workers);
    }
    Ok(run_all(rt, &script, workers, gate)?)
}

fn run_all<R, G>(rt: &R, script: &Arc<Script>, workers: u32, gate: &G) -> Result<Report, Halt>
where
    R: RandomSource + AllocGlobal + Threads + Wait + Sync,
    G: Gate + Sync,
    requires { 0 < workers }
    ensures orderly { IfOk result (λ r. IsOrderlyLegal (arc_value script.now) (report_view r)) }
    ensures whole { IfOk result (λ r. HasWhole (arc_value script.now) (report_view r)) }
    ensures lawful { IfOk result (λ r. AreReplayed (arc_value script.now) 0 r.checkpoints.items r.journals.items r.fields.items) }
    ensures invariants { IfOk result (λ r. KeepInvariants (arc_value script.now) 0 r.fields.items) }
    ensures journals { IfOk result (λ r. length r.journals.items ≡ executor_count (arc_value script.now)) }
    ensures checkpoints { IfOk result (λ r. length r.checkpoints.items ≡ executor_count (arc_value script.now)) }
    ensures fields { IfOk result (λ r. length r.fields.items ≡ executor_count (arc_value script.now)) }
    ensures endings { IfOk result (λ r. AreEndings (root_count (arc_value script.now)) r.log.events r.endings.items) }
{
    let alloc = rt.alloc();
    let (book, mut seat) = shared_book(alloc, script)?;
    let (execs, mut desks) = open_all(alloc, script, workers, &book, &mut seat)?;
    let others = others_of(alloc, &execs, &mut desks, workers, &book, &mut seat)?;
    let closers = split_all(alloc, &execs, &mut desks)?;
    let first = Hand {
        worker: 0,
        desks,
        tokens: Vec::new(alloc),
        at: ExecId(0),
        is_link: false,
        jobs: book.no_jobs(alloc, &mut seat),
    };
    let played = play(
        rt, alloc, script, &execs, first, others, &book, &mut seat, workers, gate,
    );
    report_of(rt, alloc, script, execs, closers, book, seat, played)
}

// A book without tasks, as threads share it, and its first seat.
fn shared_book(alloc: Global, script: &Arc<Script>) -> Result<(BookLock, BookSeat), Halt>
    ensures script { IfOk result (λ r. r.0.script ≡ arc_value script.now) }
    ensures seat { IfOk result (λ r. r.1 ≡ seat_of r.0 (first_view (arc_value script.now))) }
{
    let book = Book::new(alloc, Arc::clone(script)?)?;
    match BookLock::new(alloc, book) {
        Ok(shared) => Ok(shared),
        Err((book, _)) => {
            let (_log, waiting) = book.close();
            spend_all(waiting);
            Err(Halt::Memory)
        }
    }
}

// Adds the roots to a book without tasks, sends their jobs by the first hand, and has the workers run until no token is left.
fn play<R, G>(
    rt: &R,
    alloc: Global,
    script: &Script,
    execs: &[Exec],
    first: Hand,
    others: Vec<Hand>,
    book: &BookLock,
    seat: &mut BookSeat,
    workers: u32,
    gate: &G,
) -> Result<(), Halt>
where
    R: RandomSource + AllocGlobal + Threads + Wait + Sync,
    G: Gate + Sync,
    requires sites { AreAtSites book.now execs.now }
    requires script { book.now.script ≡ script.now }
    requires first { IsHandOf book.now execs.now first }
    requires worker { first.worker ≡ 0 }
    requires others { AreHandsOf book.now execs.now others.items }
    requires workers { AreOthers workers others.items }
    requires seat { IsSeatOf book.now seat.old }
    requires maker { seat.old.knows.maker ≡ Some (record { executors = executor_count script.now; roots = 0 }) }
    ensures seat { IsSeatOf book.now seat.new }
    ensures maker { OnOk result (seat.new.knows.maker ≡ Some (record { executors = executor_count script.now; roots = root_count script.now })) }
{
    let (pool, place) = SharedPool::new(alloc, script, workers)?;
    let crew = Crew {
        script,
        execs,
        book,
        pool: &pool,
        workers,
    };
    let (place, played) = play_roots(rt, crew, first, others, seat, place, gate);
    first_of(pool.into_halt(place), played)
}

// The first cause that is there.
fn first_of(halt: Option<Halt>, played: Result<(), Halt>) -> Result<(), Halt>
    ensures given_up { IfSome halt (λ h. result ≡ Err h) }
    ensures played { IfNone halt (result ≡ played) }
{
    match halt {
        Some(halt) => Err(halt),
        None => played,
    }
}

// Adds the roots, sends their jobs and has the workers run. The seat of the pool comes back: where the workers have run, it owes nothing.
fn play_roots<R, G>(
    rt: &R,
    crew: Crew<'_>,
    mut first: Hand,
    others: Vec<Hand>,
    seat: &mut BookSeat,
    mut place: PoolSeat,
    gate: &G,
) -> (PoolSeat, Result<(), Halt>)
where
    R: RandomSource + AllocGlobal + Threads + Wait + Sync,
    G: Gate + Sync,
    requires sites { AreAtSites crew.book.now crew.execs.now }
    requires script { crew.book.now.script ≡ crew.script.now }
    requires first { IsHandOf crew.book.now crew.execs.now first }
    requires others { AreHandsOf crew.book.now crew.execs.now others.items }
    requires workers { length others.items < 4294967295 }
    requires pool { crew.pool.now.crew ≡ record { script = crew.script.now; workers = crew.workers } }
    requires place { IsPoolSeatOf crew.pool.now place }
    requires known { place.known.view ≡ first_known crew.pool.now.crew }
    requires seat { IsSeatOf crew.book.now seat.old }
    requires maker { seat.old.knows.maker ≡ Some (record { executors = executor_count crew.script.now; roots = 0 }) }
    ensures place { IsPoolSeatOf crew.entry.pool.now result.0 }
    ensures stopped { OnOk result.1 (HasStopped result.0) }
    ensures seat { IsSeatOf crew.entry.book.now seat.new }
    ensures maker { OnOk result.1 (seat.new.knows.maker ≡ Some (record { executors = executor_count crew.entry.script.now; roots = root_count crew.entry.script.now })) }
{
    if let Err(halt) = send_roots(rt, crew, &mut first, seat, gate) {
        return (place, Err(halt));
    }
    crew.pool.put_first(rt, &mut place, &first.tokens);
    (start(rt, crew, first, others, place, gate), Ok(()))
}

// Adds the roots, and sends their jobs.
fn send_roots<R: Wait, G: Gate>(
    rt: &R,
    crew: Crew<'_>,
    first: &mut Hand,
    seat: &mut BookSeat,
    gate: &G,
) -> Result<(), Halt>
    requires sites { AreAtSites crew.book.now crew.execs.now }
    requires script { crew.book.now.script ≡ crew.script.now }
    requires first { IsHandOf crew.book.now crew.execs.now first.old }
    requires seat { IsSeatOf crew.book.now seat.old }
    requires maker { seat.old.knows.maker ≡ Some (record { executors = executor_count crew.script.now; roots = 0 }) }
    ensures first { OnOk result (IsHandOf crew.entry.book.now crew.entry.execs.now first.new) }
    ensures seat { IsSeatOf crew.entry.book.now seat.new }
    ensures maker { OnOk result (seat.new.knows.maker ≡ Some (record { executors = executor_count crew.entry.script.now; roots = root_count crew.entry.script.now })) }
{
    add_roots(rt, crew.script, crew.book, seat, &mut first.jobs)?;
    send_all(rt, crew, first, gate)
}

// Each worker on a thread of its own, with a seat of its own, and the first on this one, whose seat comes back.
fn start<R, G>(
    rt: &R,
    crew: Crew<'_>,
    first: Hand,
    mut others: Vec<Hand>,
    mut place: PoolSeat,
    gate: &G,
) -> PoolSeat
where
    R: RandomSource + AllocGlobal + Threads + Wait + Sync,
    G: Gate + Sync,
    requires sites { AreAtSites crew.book.now crew.execs.now }
    requires script { crew.book.now.script ≡ crew.script.now }
    requires first { IsHandOf crew.book.now crew.execs.now first }
    requires others { AreHandsOf crew.book.now crew.execs.now others.items }
    requires pool { crew.pool.now.crew ≡ record { script = crew.script.now; workers = crew.workers } }
    requires place { IsPoolSeatOf crew.pool.now place }
    requires owes { (place.known.view.owes ≡ 0) × (length others.items < place.known.view.parts) }
    ensures place { IsPoolSeatOf crew.entry.pool.now result }
    ensures stopped { HasStopped result }
{
    thread::scope(
        thread::scope_env(),
        rt,
        |scope| -> PoolSeat
            requires sites { AreAtSites crew.book.now crew.execs.now }
            requires script { crew.book.now.script ≡ crew.script.now }
            requires first { IsHandOf crew.book.now crew.execs.now first }
            requires others { AreHandsOf crew.book.now crew.execs.now others.items }
            requires pool { crew.pool.now.crew ≡ record { script = crew.script.now; workers = crew.workers } }
            requires place { IsPoolSeatOf crew.pool.now place }
            requires owes { (place.known.view.owes ≡ 0) × (length others.items < place.known.view.parts) }
            ensures place { IsPoolSeatOf crew.entry.pool.now result }
            ensures stopped { HasStopped result }
        {
            while let Some(hand) = others.pop() {
                let own = crew.pool.split(&mut place);
                let spawned = scope.spawn(
                    move || -> ()
                        requires sites { AreAtSites crew.book.now crew.execs.now }
                        requires script { crew.book.now.script ≡ crew.script.now }
                        requires hand { IsHandOf crew.book.now crew.execs.now hand }
                        requires pool { crew.pool.now.crew ≡ record { script = crew.script.now; workers = crew.workers } }
                        requires own { IsPoolSeatOf crew.pool.now own }
                        requires owes { (own.known.view.owes ≡ 0) × (0 < own.known.view.parts) }
                    { drop(work(rt, crew, hand, own, gate)) },
                );
                if spawned.is_err() {
                    crew.pool.give_up(rt, &mut place, Halt::Memory);
                }
            }
            work(rt, crew, first, place, gate)
        },
    )
}
