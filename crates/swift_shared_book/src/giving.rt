//! How what was done to the book is given back.

ghost use Rattle.std.specs.Prelude.{◌≡◌, true, Some, IfSome, IsSome, map};
ghost use Rattle.swift_history.specs.Jobs.{job_facts};
ghost use Rattle.swift_history.specs.Orderly.{has_last_root};
ghost use Rattle.swift_course.specs.Seats.{gathered};
ghost use Rattle.swift_shared_book.specs.Calls.{facts_of};
ghost use Rattle.swift_shared_book.specs.Shared.{BeginsTicket, after_turn, newest, seat_of, tickets_view};
ghost use Rattle.swift_shared_book.specs.StepsInside.{KnowsRoot, MayGiveBack, knowing_record};

use crate::opened::{OpenBook, OpenSeat};
use crate::rule::{AddsRoot, BookApplies, BookBegins, NamesBegun, Told};
use crate::seat::BookSeat;
use crate::shared::BookLock;
use crate::shelf::Shelf;
use std::marker::Brand;
use std::mem;
use swift_job::Job;
use swift_journal::Journal;
use swift_turn::Body;
use swift_types::Env;

impl BookLock {
    // Gives the book back, in which the turn of this job has begun.
    pub(crate) fn give_begun<K: NamesBegun>(
        &self,
        seat: &mut BookSeat,
        given: OpenBook,
        job: &Job<Body>,
        env: Env,
    )
        requires name { (K.job ≡ Some (job_facts job.now)) × (K.env ≡ Some env) }
        requires lock { given.seat.lock ≡ self.now.id }
        requires gives { MayGiveBack given.seat.knows given.seat.taken (facts_of given.book.value) (λ taken. BeginsTicket taken.log (has_last_root taken.script taken.log) (job_facts job.now) env given.seat.knows) }
        ensures lock { (seat.new.lock ≡ self.now.id) × (seat.new.here ≡ true) }
        ensures begun { IfSome given.seat.taken (λ taken. BeginsTicket taken.log (has_last_root taken.script taken.log) (job_facts job.now) env given.seat.knows seat.new.knows) }
    {
        let _task = job.task();
        let _env = env;
        let OpenBook {
            book,
            seat: OpenSeat { seat: mut giving },
        } = given;
        self.lock
            .unlock::<BookBegins<K>>(&mut giving, Shelf { book });
        seat.put(giving);
    }

    // Gives the book back, to which a root was added.
    pub(crate) fn give_root(&self, seat: &mut BookSeat, given: OpenBook)
        requires lock { given.seat.lock ≡ self.now.id }
        requires gives { MayGiveBack given.seat.knows given.seat.taken (facts_of given.book.value) (KnowsRoot given.seat.knows) }
        ensures lock { (seat.new.lock ≡ self.now.id) × (seat.new.here ≡ true) }
        ensures root { IfSome given.seat.taken (λ taken. KnowsRoot given.seat.knows taken seat.new.knows) }
    {
        let OpenBook {
            book,
            seat: OpenSeat { seat: mut giving },
        } = given;
        self.lock.unlock::<AddsRoot>(&mut giving, Shelf { book });
        seat.put(giving);
    }

    // Gives the book back, to which a turn was applied that made these jobs.
    fn give_applied<K: Told>(
        &self,
        seat: &mut BookSeat,
        given: OpenBook,
        journal: &Journal,
        made: &[Job<Body>],
    )
        requires name { K.view ≡ knowing_record (newest journal.now) (map job_facts made.now) given.seat.knows }
        requires lock { given.seat.lock ≡ self.now.id }
        requires gives { MayGiveBack given.seat.knows given.seat.taken (facts_of given.book.value) (λ _ w. w ≡ knowing_record (newest journal.now) (map job_facts made.now) given.seat.knows) }
        ensures { seat.new ≡ seat_of self.now (knowing_record (newest journal.now) (map job_facts made.now) given.seat.knows) }
    {
        let _turns = journal.len();
        let _made = made.len();
        let OpenBook {
            book,
            seat: OpenSeat { seat: mut giving },
        } = given;
        self.lock
            .unlock::<BookApplies<K>>(&mut giving, Shelf { book });
        seat.put(giving);
    }

    // Gives the book back, to which a turn was applied: the tickets of the jobs that it made come behind those of another seat.
    pub(crate) fn give_turn(
        &self,
        seat: &mut BookSeat,
        given: OpenBook,
        journal: &Journal,
        made: &[Job<Body>],
        tickets: &mut BookSeat,
    )
        requires lock { given.seat.lock ≡ self.now.id }
        requires gives { MayGiveBack given.seat.knows given.seat.taken (facts_of given.book.value) (λ _ w. w ≡ knowing_record (newest journal.now) (map job_facts made.now) given.seat.knows) }
        requires newest { IsSome (newest journal.now) }
        requires tickets { (tickets.old.lock ≡ self.now.id) × (tickets.old.here ≡ true) }
        ensures seat { IfSome (newest journal.now) (λ r. seat.new ≡ seat_of self.now (after_turn r given.seat.knows)) }
        ensures tickets { tickets.new ≡ seat_of self.now (gathered (tickets_view given.seat.knows.script made.now) tickets.old.knows) }
    {
        self.give_applied::<Brand>(seat, given, journal, made);
        let parted = self.part(seat, made.len());
        self.append(tickets, parted);
    }

    // The tickets of another seat come behind those of a seat.
    pub(crate) fn append(&self, tickets: &mut BookSeat, more: BookSeat)
        requires same { (tickets.old.lock ≡ self.now.id) × (more.lock ≡ self.now.id) }
        requires here { (tickets.old.here ≡ true) × (more.here ≡ true) }
        ensures { tickets.new ≡ seat_of self.now (gathered more.knows tickets.old.knows) }
    {
        let before = mem::replace(tickets, more);
        self.gather(tickets, before);
    }
}
