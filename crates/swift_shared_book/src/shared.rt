//! The book as threads share it.

ghost use Rattle.std.specs.Prelude.{◌≡◌, ℕ, ◌<◌, true, Some, [], IfOk, IfErr, IfSome};
ghost use Rattle.swift_script.specs.Scripts.{executor_count};
ghost use Rattle.swift_tasks.specs.Books.{empty_book};
ghost use Rattle.swift_history.specs.Jobs.{job_facts};
ghost use Rattle.swift_course.specs.Views.{Maker};
ghost use Rattle.swift_course.specs.Reports.{Knows};
ghost use Rattle.swift_course.specs.Seats.{account_parted, first_view, gathered, maker_left, some_left, some_parted};
ghost use Rattle.swift_shared_book.specs.Calls.{facts_of};
ghost use Rattle.swift_shared_book.specs.Shared.{IsInRun, IsSeatOf, knowing, seat_of, with_ticket};

use crate::TicketedJob;
use crate::jobs::TicketedJobs;
use crate::lock::Lock;
use crate::opened::{OpenBook, OpenSeat};
use crate::rule::{BookRule, Finds, Gathers, NamesCount, OpensAccount, PartsTickets, Stays};
use crate::seat::BookSeat;
use crate::shelf::Shelf;
use std::alloc::{AllocError, Global};
use std::marker::{Brand, Model};
use std::sync::Wait;
use swift_course::known::Known;
use swift_job::Job;
use swift_tasks::Book;
use swift_turn::Body;

/// The book of a run, as threads share it by reference; each takes it by a `BookSeat` of its own (our own). In a clause it is which
/// lock it is, and the script of its book, which never changes. Where a lock is dropped, its book is closed.
///
/// A call that takes the book waits until no other thread has it, and is one atomic step to take it and one to give it back where none
/// has. Each other call takes constant time and at most two loads. None takes memory where its own comment says nothing else.
pub struct BookLock {
    pub(crate) lock: Lock<Shelf, Known, BookRule>,
}

impl Drop for BookLock {
    fn drop(self) {
        let BookLock { lock } = self;
        drop(lock);
    }
}

impl Model for BookLock {
    ghost use Rattle.std.specs.Coded.{codes};
    ghost use Rattle.swift_script.specs.Codes.{expression_code, statement_code, block_code};
    ghost use Rattle.swift_shared_book.specs.Shared.{BookLockView};

    ghost Value = { BookLockView };

    ghost coded = { Prim.hlevel (codes, expression_code, statement_code (block_code (Prim.hlevel (codes, expression_code)) (Prim.hlevel (codes, expression_code)))) };

    ghost view = { λ l. record { id = l.lock.id; script = l.lock.opened.facts.script } };
}

impl BookLock {
    /// A lock that keeps this book, and its first seat, which opens accounts and adds roots. The book must be as `Book::new` gives it.
    /// It takes memory for the book and for the lock. An `Err` says that a growth was refused, and gives the book back.
    pub fn new(alloc: Global, book: Book) -> Result<(BookLock, BookSeat), (Book, AllocError)>
        requires { book ≡ empty_book book.script }
        ensures script { IfOk result (λ r. r.0.script ≡ book.script) }
        ensures seat { IfOk result (λ r. r.1 ≡ seat_of r.0 (first_view book.script)) }
        ensures err { IfErr result (λ r. r.0 ≡ book) }
    {
        let book = match Box::new(alloc, book) {
            Ok(book) => book,
            Err(refused) => return Err((refused.value, AllocError)),
        };
        match Lock::new(alloc, Shelf { book }) {
            Ok((lock, seat)) => Ok((BookLock { lock }, BookSeat::of(seat))),
            Err((shelf, error)) => Err((Box::into_inner(shelf.into_book()), error)),
        }
    }

    /// Takes the book, and waits until it can; `leave` gives it back. It is of the script of the lock: nothing is compared. What the seat
    /// knows is true of it.
    pub fn lock<R: Wait>(&self, rt: &R, seat: &mut BookSeat) -> OpenBook
        requires { IsSeatOf self.now seat.old }
        ensures script { result.book.value.script ≡ self.now.script }
        ensures seat { result.seat ≡ record { lock = self.now.id; knows = seat.old.knows; taken = Some (facts_of result.book.value) } }
        ensures knows { Knows seat.old.knows (facts_of result.book.value) }
        ensures run { IsInRun seat.old.knows (facts_of result.book.value) }
    {
        let mut taking = seat.take();
        let shelf = self.lock.lock::<Finds, R>(rt, &mut taking);
        OpenBook {
            book: shelf.into_book(),
            seat: OpenSeat { seat: taking },
        }
    }

    /// Gives the book back as it was, and with it the seat by which it was taken. What only a reader computes, as levels, may have
    /// changed.
    pub fn leave(&self, seat: &mut BookSeat, given: OpenBook)
        requires lock { given.seat.lock ≡ self.now.id }
        requires same { given.seat.taken ≡ Some (facts_of given.book.value) }
        ensures { seat.new ≡ seat_of self.now given.seat.knows }
    {
        let OpenBook {
            book,
            seat: OpenSeat { seat: mut giving },
        } = given;
        self.lock.unlock::<Stays>(&mut giving, Shelf { book });
        seat.put(giving);
    }

    /// A seat for the next executor of the script, whose account has no turns. The seat must be the one that opens accounts.
    pub fn open_account(&self, seat: &mut BookSeat) -> BookSeat
        requires seat { IsSeatOf self.now seat.old }
        requires next { (m : Maker) × (seat.old.knows.maker ≡ Some m) × (m.executors < executor_count self.now.script) }
        ensures maker { seat.new ≡ knowing (maker_left seat.old.knows) seat.old }
        ensures new { result ≡ seat_of self.now (account_parted seat.old.knows) }
    {
        let mut maker = seat.take();
        let account = maker.split::<OpensAccount, BookRule>(&self.lock);
        seat.put(maker);
        BookSeat::of(account)
    }

    // The first `count` tickets of a seat, in a seat of their own.
    fn part_some<K: NamesCount>(&self, seat: &mut BookSeat, count: usize) -> BookSeat
        requires name { K.count ≡ count }
        requires seat { (seat.old.lock ≡ self.now.id) × (seat.old.here ≡ true) }
        ensures left { seat.new ≡ knowing (some_left count seat.old.knows) seat.old }
        ensures new { result ≡ seat_of self.now (some_parted count seat.old.knows) }
    {
        let _count = count;
        let mut left = seat.take();
        let parted = left.split::<PartsTickets<K>, BookRule>(&self.lock);
        seat.put(left);
        BookSeat::of(parted)
    }

    // Parts off the first `count` tickets of a seat, in a seat of their own.
    pub(crate) fn part(&self, seat: &mut BookSeat, count: usize) -> BookSeat
        requires { (seat.old.lock ≡ self.now.id) × (seat.old.here ≡ true) }
        ensures left { seat.new ≡ knowing (some_left count seat.old.knows) seat.old }
        ensures new { result ≡ seat_of self.now (some_parted count seat.old.knows) }
    {
        self.part_some::<Brand>(seat, count)
    }

    /// A list of no jobs, for those that the book will give. It takes no memory.
    pub fn no_jobs(&self, alloc: Global, seat: &mut BookSeat) -> TicketedJobs
        requires { IsSeatOf self.now seat.old }
        ensures same { seat.new ≡ seat.old }
        ensures none { result ≡ record { book = self.now.id; jobs = [] } }
    {
        TicketedJobs::none(alloc, self.part(seat, 0))
    }

    /// The job, whose ticket the seat then has.
    pub fn accept(&self, seat: &mut BookSeat, job: TicketedJob) -> Job<Body>
        requires lock { (seat.old.lock ≡ self.now.id) × (seat.old.here ≡ true) }
        requires book { job.book ≡ Some self.now.id }
        ensures job { result ≡ job.job }
        ensures seat { seat.new ≡ knowing (with_ticket (job_facts job.job) seat.old.knows) seat.old }
    {
        let (job, ticket) = job.into_parts();
        self.gather(seat, BookSeat::of_ticket(ticket));
        job
    }

    /// A seat takes over what another has: its accounts, and its tickets.
    pub fn gather(&self, seat: &mut BookSeat, other: BookSeat)
        requires same { (seat.old.lock ≡ self.now.id) × (other.lock ≡ self.now.id) }
        requires here { (seat.old.here ≡ true) × (other.here ≡ true) }
        ensures { seat.new ≡ knowing (gathered seat.old.knows other.knows) seat.old }
    {
        let mut both = seat.take();
        both.join::<Gathers, BookRule>(&self.lock, other.into_seat());
        seat.put(both);
    }

    /// Gives the lock up: its book, where none has taken it. What the seat knows is true of it.
    pub fn close(self, seat: BookSeat) -> Option<Book>
        requires { IsSeatOf self seat }
        ensures script { IfSome result (λ book. book.script ≡ self.script) }
        ensures knows { IfSome result (λ book. Knows seat.knows (facts_of book)) }
    {
        let BookLock { lock } = self;
        match lock.close::<Finds>(seat.into_seat()) {
            Some(shelf) => Some(Box::into_inner(shelf.into_book())),
            None => None,
        }
    }
}
