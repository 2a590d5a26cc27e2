//! The calls of the book under its lock.

ghost use Rattle.std.specs.Prelude.{◌≡◌, ◌⊎◌, ◌+◌, ◌≤◌, [], ◌∷◌, ◌++◌, true, Some, None, IfOk, IfSome, IsSomeAnd, OnOk, OnErr, IfErr, MatchResult, map, drop, vec_len};
ghost use Rattle.std.specs.List.{AllByRecursion};
ghost use Rattle.swift_script.specs.Scripts.{root_count};
ghost use Rattle.swift_interpreter.specs.Frames.{effect_views};
ghost use Rattle.swift_interpreter.specs.TurnStates.{exit_view};
ghost use Rattle.swift_turn.specs.Body.{BodyView, IsRunning};
ghost use Rattle.swift_job.specs.Job.{JobView};
ghost use Rattle.swift_events.specs.Room.{IsEnv};
ghost use Rattle.swift_journal.specs.Records.{RecordView};
ghost use Rattle.swift_history.specs.Orderly.{has_last_root};
ghost use Rattle.swift_history.specs.TurnEnds.{root_job};
ghost use Rattle.swift_course.specs.Views.{Maker};
ghost use Rattle.swift_tasks.specs.Books.{BookView, IsEndOf, IsJobOf};
ghost use Rattle.swift_history.specs.Jobs.{job_facts};
ghost use Rattle.swift_tasks.specs.Refusals.{IsRefusal, refusal_of_apply, refusal_of_begin, refusal_of_root};
ghost use Rattle.swift_shared_book.specs.Calls.{facts_of};
ghost use Rattle.swift_shared_book.specs.SharedInside.{HasTicketsOf};
ghost use Rattle.swift_shared_book.specs.Shared.{BeginsTicket, HasPlayed, HasTicket, IsInRun, IsSeatOf, IsAsTaken, RunsAtSeat, after_turn, knowing, newest, seat_of};

use crate::jobs::{TicketedJobs, turn};
use crate::opened::OpenBook;
use crate::seat::BookSeat;
use crate::shared::BookLock;
use std::marker::Brand;
use std::sync::Wait;
use swift_interpreter::{Effect, Exit};
use swift_job::Job;
use swift_journal::Journal;
use swift_tasks::BookFault;
use swift_turn::Body;
use swift_types::{Env, RootId};

// The jobs past the first `from` ones.
pub(crate) fn jobs_from(jobs: &Vec<Job<Body>>, from: usize) -> &[Job<Body>]
    requires { from ≤ vec_len jobs.now }
    ensures { result.now ≡ drop from jobs.now.items }
{
    &jobs[from..]
}

impl BookLock {
    /// Begins the turn of a job in a book that was taken, and gives the book back. The seat by which it was taken has the job's ticket:
    /// the environment comes back, and the ticket then says so, and comes first (SE-0304). The job runs on the executor of the seat's one
    /// account, which then says how the executor's turns have begun (our own). The refusals are those of `Book::begin`, and give the book
    /// back as it was. So whoever has asked the book something takes it once for both.
    pub fn begin(
        &self,
        seat: &mut BookSeat,
        mut taken: OpenBook,
        job: &Job<Body>,
    ) -> Result<Env, BookFault>
        requires untouched { IsAsTaken self.now taken.seat taken.book.value }
        requires job { job.now.body.script ≡ self.now.script }
        requires ticket { HasTicket (job_facts job.now) taken.seat.knows.tickets }
        requires account { RunsAtSeat self.now.script taken.seat.knows (job_facts job.now) }
        ensures ok { IfOk result (λ env. BeginsTicket taken.book.value.log (has_last_root taken.book.value.script taken.book.value.log) (job_facts job.now) env taken.seat.knows seat.new.knows) }
        ensures given { IfOk result (λ env. IsEnv (root_count taken.book.value.script) job.now.task taken.book.value.log env) }
        ensures lock { (seat.new.lock ≡ self.now.id) × (seat.new.here ≡ true) }
        ensures err { OnErr result (seat.new ≡ seat_of self.now taken.seat.knows) }
        ensures refused { MatchResult result (λ _. refusal_of_begin taken.book.value.script taken.book.value.log job.now ≡ None) (IsRefusal (refusal_of_begin taken.book.value.script taken.book.value.log job.now)) }
    {
        match taken.book.begin_known(job) {
            Ok(env) => {
                self.give_begun::<Brand>(seat, taken, job, env);
                Ok(env)
            }
            Err(fault) => {
                self.leave(seat, taken);
                Err(fault)
            }
        }
    }

    // Applies the turn of the job in a place in a book that was taken, and gives the book back. The jobs that the turn makes come last in
    // the list, and their tickets in its seat.
    fn apply_taken(
        &self,
        seat: &mut BookSeat,
        mut taken: OpenBook,
        place: &mut Option<Job<Body>>,
        journal: &Journal,
        exit: &Exit,
        effects: &[Effect],
        jobs: &mut Vec<Job<Body>>,
        tickets: &mut BookSeat,
    ) -> Result<(), BookFault>
        requires untouched { IsAsTaken self.now taken.seat taken.book.value }
        requires tickets { (tickets.old.lock ≡ self.now.id) × HasTicketsOf jobs.old.items tickets.old }
        requires job { IsSomeAnd place.old (λ j. IsRunning j.body × (j.body.script ≡ self.now.script)) }
        requires played { IsSomeAnd place.old (λ j. (r : RecordView) × (newest journal.now ≡ Some r) × (r.exit ≡ exit_view exit.now) × (r.effects ≡ effect_views effects.now) × HasPlayed self.now.script taken.seat.knows j r) }
        ensures ok { OnOk result (IsSomeAnd place.old (λ j. (b' : BookView) × (b'.script ≡ taken.book.value.script)
            × IsEndOf taken.book.value (map job_facts jobs.old.items) j (effect_views effects.now) (exit_view exit.now) b'.log b'.held (map job_facts jobs.new.items))) }
        ensures seat { OnOk result (IfSome (newest journal.now) (λ r. seat.new ≡ seat_of self.now (after_turn r taken.seat.knows))) }
        ensures gone { OnOk result (place.new ≡ None) }
        ensures bodies { AllByRecursion (IsJobOf self.now.script) jobs.old.items → AllByRecursion (IsJobOf self.now.script) jobs.new.items }
        ensures tickets { (tickets.new.lock ≡ self.now.id) × HasTicketsOf jobs.new.items tickets.new }
        ensures err { OnErr result ((seat.new ≡ seat_of self.now taken.seat.knows) × (place.new ≡ place.old) × (jobs.new.items ≡ jobs.old.items) × (tickets.new ≡ tickets.old)) }
        ensures refused { MatchResult result (λ _. IsSomeAnd place.old (λ j. refusal_of_apply taken.book.value.script taken.book.value.log j (effect_views effects.now) (exit_view exit.now) ≡ None))
            (λ fault. IsSomeAnd place.old (λ j. IsRefusal (refusal_of_apply taken.book.value.script taken.book.value.log j (effect_views effects.now) (exit_view exit.now)) fault)) }
    {
        let before = jobs.len();
        match taken.book.apply_in(place, exit, effects, jobs) {
            Ok(()) => {
                let made = jobs_from(jobs, before);
                self.give_turn(seat, taken, journal, made, tickets);
                Ok(())
            }
            Err(fault) => {
                self.leave(seat, taken);
                Err(fault)
            }
        }
    }

    /// Applies the turn of the job in a place, by the seat's first ticket; the newest record of the journal is that of the turn, and
    /// comes into the seat's account (SE-0304, SE-0306). The ticket is spent. The jobs that the turn makes come behind those of the
    /// list, with their tickets, and the place is empty. The refusals are those of `Book::apply_in`, and leave all as it was. The book is
    /// one that the run has come to. It takes the book once, and time and memory as `Book::apply_in` does; where jobs were taken out of
    /// the list since the last call, time linear in those that are left.
    pub fn apply<R: Wait>(
        &self,
        rt: &R,
        seat: &mut BookSeat,
        place: &mut Option<Job<Body>>,
        journal: &Journal,
        exit: &Exit,
        effects: &[Effect],
        jobs: &mut TicketedJobs,
    ) -> Result<(), BookFault>
        requires seat { IsSeatOf self.now seat.old }
        requires jobs { jobs.old.book ≡ self.now.id }
        requires job { IsSomeAnd place.old (λ j. IsRunning j.body × (j.body.script ≡ self.now.script)) }
        requires played { IsSomeAnd place.old (λ j. (r : RecordView) × (newest journal.now ≡ Some r) × (r.exit ≡ exit_view exit.now) × (r.effects ≡ effect_views effects.now) × HasPlayed self.now.script seat.old.knows j r) }
        ensures ok { OnOk result (IsSomeAnd place.old (λ j. (b : BookView) × (b' : BookView) × (b.script ≡ self.now.script) × (b'.script ≡ b.script) × IsInRun seat.old.knows (facts_of b)
            × (refusal_of_apply b.script b.log j (effect_views effects.now) (exit_view exit.now) ≡ None)
            × IsEndOf b (map job_facts jobs.old.jobs) j (effect_views effects.now) (exit_view exit.now) b'.log b'.held (map job_facts jobs.new.jobs))) }
        ensures seat { OnOk result (IfSome (newest journal.now) (λ r. seat.new ≡ knowing (after_turn r seat.old.knows) seat.old)) }
        ensures gone { OnOk result (place.new ≡ None) }
        ensures bodies { AllByRecursion (IsJobOf self.now.script) jobs.old.jobs → AllByRecursion (IsJobOf self.now.script) jobs.new.jobs }
        ensures lock { jobs.new.book ≡ jobs.old.book }
        ensures err { OnErr result ((seat.new ≡ seat.old) × (place.new ≡ place.old) × (jobs.new ≡ jobs.old)) }
        ensures refused { IfErr result (λ fault. (b : BookView) × (b.script ≡ self.now.script) × IsInRun seat.old.knows (facts_of b) × IsSomeAnd place.old (λ j. IsRefusal (refusal_of_apply b.script b.log j (effect_views effects.now) (exit_view exit.now)) fault)) }
    {
        turn(&mut jobs.jobs, &mut jobs.is_reversed, false);
        let taken = self.lock(rt, seat);
        self.apply_taken(
            seat,
            taken,
            place,
            journal,
            exit,
            effects,
            &mut jobs.jobs,
            &mut jobs.seat,
        )
    }

    /// Adds the next root, by the seat that adds roots: the job of its first turn comes behind those of the list, with its ticket
    /// (SE-0304; that roots are added in order is our own). The refusals are those of `Book::add_root`, and `Memory` comes first where
    /// the list can't grow; they leave all as it was. It takes the book once, and time and memory as `Book::add_root` does; where jobs
    /// were taken out of the list since the last call, time linear in those that are left.
    pub fn add_root<R: Wait>(
        &self,
        rt: &R,
        seat: &mut BookSeat,
        root: RootId,
        jobs: &mut TicketedJobs,
    ) -> Result<(), BookFault>
        requires seat { IsSeatOf self.now seat.old }
        requires jobs { jobs.old.book ≡ self.now.id }
        requires next { (m : Maker) × (seat.old.knows.maker ≡ Some m) × (m.roots ≡ root.0) }
        ensures seat { OnOk result (IfSome seat.old.knows.maker (λ m. seat.new ≡ knowing (record seat.old.knows { maker = Some (record m { roots = m.roots + 1 }) }) seat.old)) }
        ensures job { OnOk result ((j : JobView BodyView) × (jobs.new ≡ record jobs.old { jobs = jobs.old.jobs ++ j ∷ [] }) × (job_facts j ≡ root_job self.now.script root.0) × IsJobOf self.now.script j) }
        ensures err { OnErr result ((seat.new ≡ seat.old) × (jobs.new ≡ jobs.old)) }
        ensures refused { MatchResult result (λ _. (b : BookView) × (b.script ≡ self.now.script) × (refusal_of_root b.script b.log root.0 ≡ None))
            (λ fault. (fault ≡ BookFault.Memory) ⊎ ((b : BookView) × (b.script ≡ self.now.script) × (refusal_of_root b.script b.log root.0 ≡ Some fault))) }
    {
        turn(&mut jobs.jobs, &mut jobs.is_reversed, false);
        // Before the book changes: a refusal then leaves it as it was.
        jobs.jobs.reserve(1)?;
        let mut taken = self.lock(rt, seat);
        match taken.book.add_root(root) {
            Ok(job) => {
                jobs.jobs.push_reserved(job);
                self.give_root(seat, taken);
                let ticket = self.part(seat, 1);
                self.append(&mut jobs.seat, ticket);
                Ok(())
            }
            Err(fault) => {
                self.leave(seat, taken);
                Err(fault)
            }
        }
    }
}
