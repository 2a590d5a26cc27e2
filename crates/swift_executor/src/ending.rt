//! A turn that begins, and one that ends, in the book that threads share.

ghost use Rattle.std.specs.Prelude.{◌≡◌, ◌⊎◌, [], ◌∷◌, true, None, Some, map, IfErr, IfOk, MatchResult, OnErr, OnOk};
ghost use Rattle.std.specs.List.{AllByRecursion};
ghost use Rattle.swift_interpreter.specs.Frames.{effect_views};
ghost use Rattle.swift_interpreter.specs.TurnStates.{exit_view};
ghost use Rattle.swift_course.specs.Steps.{order_applied, order_begun};
ghost use Rattle.swift_shared_book.specs.Shared.{BeginsTicket, HasPlayed, HasTicket, IsAsTaken, IsInRun, IsSeatOf, RunsAtSeat, after_turn, knowing, newest, seat_of};
ghost use Rattle.swift_shared_book.specs.Calls.{facts_of};
ghost use Rattle.swift_tasks.specs.Books.{BookView, IsJobOf};
ghost use Rattle.swift_tasks.specs.Refusals.{IsRefusal as BookRefusal, refusal_of_begin};
ghost use Rattle.swift_executor.specs.Refusals.{IsRefusal};
ghost use Rattle.swift_history.specs.Jobs.{job_facts};
ghost use Rattle.swift_history.specs.Orderly.{has_last_root};
ghost use Rattle.swift_turn.specs.Body.{IsRunning};
ghost use Rattle.swift_journal.specs.Records.{RecordView};
ghost use Rattle.swift_executor.specs.PlayingInside.{BeginsShared, HasJob, IsRefused, IsTaken};
ghost use Rattle.swift_executor.specs.Seats.{HaveSeen, IsSeatFor, orders_of, records_in, seen_by};
ghost use Rattle.swift_executor.specs.State.{BeginsTurn, EndsTurn, HasChosen, IsPicked, IsPlayed, PutsBack, record_of, refusal_to_apply, refusal_to_begin};

use crate::chosen::{Chosen, ChosenStage, PlayedTurn};
use crate::fault::ExecFault;
use crate::playing::settle;
use crate::state::ExecState;
use crate::turns::prepare;
use std::sync::Wait;
use swift_history::laws::{invariants_stay, lawful_grows};
use swift_job::Job;
use swift_journal::Journal;
use swift_script::Script;
use swift_shared_book::{BookLock, BookSeat, OpenBook, TicketedJobs};
use swift_tasks::{Book, BookFault};
use swift_turn::Body;
use swift_types::TaskId;

// Begins the turn of a job that was picked, by its ticket, in a book that was taken, and gives the book back.
fn begin_locked(
    chosen: &mut Chosen,
    worker: u32,
    book: &BookLock,
    seat: &mut BookSeat,
    taken: OpenBook,
) -> Result<(), BookFault>
    requires untouched { IsAsTaken book.now taken.seat taken.book.value }
    requires job { HasJob chosen.old.job (λ j. (j.body.script ≡ book.now.script) × HasTicket (job_facts j) taken.seat.knows.tickets × RunsAtSeat book.now.script taken.seat.knows (job_facts j)) }
    ensures ok { OnOk result (HasJob chosen.old.job (BeginsShared taken.book.value.script taken.book.value.log (has_last_root taken.book.value.script taken.book.value.log) worker chosen.old chosen.new taken.seat.knows seat.new.knows)) }
    ensures seat { (seat.new.lock ≡ book.now.id) × (seat.new.here ≡ true) }
    ensures err { OnErr result ((chosen.new ≡ chosen.old) × (seat.new ≡ seat_of book.now taken.seat.knows)) }
    ensures refused { MatchResult result (λ _. HasJob chosen.old.job (λ j. refusal_of_begin taken.book.value.script taken.book.value.log j ≡ None)) (λ fault. HasJob chosen.old.job (λ j. BookRefusal (refusal_of_begin taken.book.value.script taken.book.value.log j) fault)) }
{
    let Some(job) = &chosen.job else {
        unreachable!()
    };
    match book.begin(seat, taken, job) {
        Ok(env) => {
            chosen.stage = ChosenStage::Begun(worker, env);
            Ok(())
        }
        Err(fault) => Err(fault),
    }
}

// Locks the book, and lets it take the turn of a job that was played, whose record is the newest of this journal. Where it refuses,
// the job is as before.
fn apply_locked<R: Wait>(
    rt: &R,
    place: &mut Option<Job<Body>>,
    played: &PlayedTurn,
    journal: &Journal,
    book: &BookLock,
    seat: &mut BookSeat,
    jobs: &mut TicketedJobs,
) -> Result<TaskId, BookFault>
    requires job { HasJob place.old (λ j. IsRunning j.body × (j.body.script ≡ book.now.script)) }
    requires seat { IsSeatOf book.now seat.old }
    requires jobs { jobs.old.book ≡ book.now.id }
    requires plays { HasJob place.old (λ j. (r : RecordView) × (newest journal.now ≡ Some r) × (r.exit ≡ exit_view played.now.exit) × (r.effects ≡ effect_views played.now.effects.items) × HasPlayed book.now.script seat.old.knows j r) }
    ensures ok { IfOk result (λ task. HasJob place.old (IsTaken seat.old.knows played.now (map job_facts jobs.old.jobs) (map job_facts jobs.new.jobs) task)) }
    ensures seat { OnOk result ((r : RecordView) × (newest journal.now ≡ Some r) × (seat.new ≡ knowing (after_turn r seat.old.knows) seat.old)) }
    ensures gone { OnOk result (place.new ≡ None) }
    ensures bodies { AllByRecursion (IsJobOf book.now.script) jobs.old.jobs → AllByRecursion (IsJobOf book.now.script) jobs.new.jobs }
    ensures lock { jobs.new.book ≡ jobs.old.book }
    ensures same { OnErr result ((place.new ≡ place.old) × (seat.new ≡ seat.old)) }
    ensures err { OnErr result (jobs.new ≡ jobs.old) }
    ensures refused { IfErr result (λ fault. HasJob place.old (IsRefused seat.old.knows played.now fault)) }
{
    let Some(job) = &*place else { unreachable!() };
    let task = job.task();
    match book.apply(
        rt,
        seat,
        place,
        journal,
        &played.exit,
        &played.effects,
        jobs,
    ) {
        Ok(()) => Ok(task),
        Err(fault) => Err(fault),
    }
}

// Whether the script's last root is there, by a book. Then each is, since they are added in order.
fn has_last_root(script: &Script, book: &Book) -> bool
    ensures { result ≡ has_last_root script.now book.now.log }
{
    script.facts();
    let roots = script.root_count();
    roots == 0 || book.origin(TaskId((roots - 1) as u32)).is_some()
}

// Whether turns that have begun in order still do, where one more begins in this book: the last root is there.
pub(crate) fn still_orderly(was: bool, script: &Script, book: &Book) -> bool
    requires { book.now.script ≡ script.now }
    ensures before { result ≡ true → was ≡ true }
    ensures there { result ≡ true → has_last_root book.now.script book.now.log ≡ true }
{
    was && has_last_root(script, book)
}

impl ExecState {
    // Whether turns that have begun in order still do, where one more begins in this book: the last root is there.
    pub(crate) fn stays_orderly(&self, was: bool, book: &Book) -> bool
        requires { book.now.script ≡ self.now.script }
        ensures before { result ≡ true → was ≡ true }
        ensures there { result ≡ true → has_last_root book.now.script book.now.log ≡ true }
    {
        was && has_last_root(self.home.script(), book)
    }

    /// Begins the turn of the chosen job on a worker, in a book that was taken, and keeps what the book gives it; the book is given back.
    /// So its lock is not taken anew after `choose`. The seat is that of the executor, by which the book was taken: it has the job's ticket,
    /// which then says that the turn has begun. The caller sees to it that the executor is not pinned to another worker. Constant time.
    ///
    /// The refusals are those of `Book::begin` in this book, `Memory` or `Refused` with the cause: the book is then as before, and the job
    /// is ready again with the number of its arrival.
    pub fn start(
        &mut self,
        worker: u32,
        book: &BookLock,
        seat: &mut BookSeat,
        taken: OpenBook,
    ) -> Result<(), ExecFault>
        requires picked { HasChosen self.old (λ c. IsPicked c.stage) }
        requires untouched { IsAsTaken book.now taken.seat taken.book.value }
        requires seat { IsSeatOf book.now (seat_of book.now taken.seat.knows) }
        requires script { book.now.script ≡ self.old.script }
        requires known { IsSeatFor self.old (seat_of book.now taken.seat.knows) }
        requires front { HaveSeen taken.book.value.log taken.seat.knows }
        ensures seat { IsSeatOf book.now seat.new }
        ensures known { IsSeatFor self.new seat.new }
        ensures ok { OnOk result (BeginsTurn taken.book.value worker self.old self.new) }
        ensures order { OnOk result (orders_of seat.new.knows ≡ map (order_begun (has_last_root taken.book.value.script taken.book.value.log)) (orders_of taken.seat.knows)) }
        ensures seen { OnOk result (seen_by seat.new.knows ≡ taken.book.value.log ∷ []) }
        ensures back { OnErr result (HasChosen self.old (PutsBack self.old self.new)) }
        ensures same { OnErr result (seat.new ≡ seat_of book.now taken.seat.knows) }
        ensures records { records_in seat.new.knows ≡ records_in taken.seat.knows }
        ensures refused { MatchResult result (λ _. refusal_to_begin taken.book.value self.old.chosen ≡ None) (IsRefusal (refusal_to_begin taken.book.value self.old.chosen)) }
    {
        match begin_locked(&mut self.chosen, worker, book, seat, taken) {
            Ok(()) => Ok(()),
            Err(fault) => {
                self.put_back();
                Err(ExecFault::from(fault))
            }
        }
    }

    /// Journals the turn that was played, and lets the book take it, by the executor's seat, which then has its record. The jobs that the
    /// turn makes come behind those that `jobs` has, with their tickets. A journal that has 4,096 turns then is folded. It takes no memory
    /// for a turn that only gives way, but for the growth of the journal and of the log; all memory is taken before the book changes. The
    /// lock is held only while the book takes the turn: the record, and room for a fold, are made before, and the journal is folded after.
    ///
    /// A refusal is `Memory`, or one that stands in a book that the run has come to: `jobs`, the book, the fields and the journal are then
    /// as before, and the job is ready again with the number of its arrival.
    pub fn turn<R: Wait>(
        &mut self,
        rt: &R,
        book: &BookLock,
        seat: &mut BookSeat,
        jobs: &mut TicketedJobs,
    ) -> Result<(), ExecFault>
        requires played { HasChosen self.old (λ c. IsPlayed c.stage) }
        requires seat { IsSeatOf book.now seat.old }
        requires script { book.now.script ≡ self.old.script }
        requires known { IsSeatFor self.old seat.old }
        requires jobs { jobs.old.book ≡ book.now.id }
        ensures seat { IsSeatOf book.now seat.new }
        ensures known { IsSeatFor self.new seat.new }
        ensures ok { OnOk result (EndsTurn seat.old.knows (map job_facts jobs.old.jobs) (map job_facts jobs.new.jobs) self.old self.new) }
        // The seat's account has the record of the turn.
        ensures told { OnOk result ((r : RecordView) × (record_of self.old.chosen ≡ Some r) × (seat.new ≡ knowing (after_turn r seat.old.knows) seat.old)) }
        ensures order { OnOk result (orders_of seat.new.knows ≡ map order_applied (orders_of seat.old.knows)) }
        ensures bodies { AllByRecursion (IsJobOf self.old.script) jobs.old.jobs → AllByRecursion (IsJobOf self.old.script) jobs.new.jobs }
        ensures lock { jobs.new.book ≡ jobs.old.book }
        ensures back { OnErr result (HasChosen self.old (PutsBack self.old self.new)) }
        ensures err { OnErr result ((jobs.new ≡ jobs.old) × (seat.new ≡ seat.old)) }
        ensures refused { IfErr result (λ fault. (fault ≡ ExecFault.Memory) ⊎ ((b : BookView) × (b.script ≡ self.old.script) × IsInRun seat.old.knows (facts_of b) × IsRefusal (refusal_to_apply b self.old.chosen) fault)) }
    {
        let Ok(copy) = prepare(
            self.alloc,
            &mut self.journal,
            &mut self.checkpoint,
            &self.chosen,
            &self.played,
        ) else {
            self.put_back();
            return Err(ExecFault::Memory);
        };
        match apply_locked(
            rt,
            &mut self.chosen.job,
            &self.played,
            &self.journal,
            book,
            seat,
            jobs,
        ) {
            Ok(task) => {
                settle(&mut self.journal, &mut self.checkpoint, copy);
                lawful_grows();
                invariants_stay();
                self.played.fields.keep();
                self.ready.forward(task);
                Ok(())
            }
            Err(fault) => {
                self.journal.retract();
                self.put_back();
                Err(ExecFault::from(fault))
            }
        }
    }
}
