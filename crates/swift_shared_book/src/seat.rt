//! A thread's right to take the book.

ghost use Rattle.std.specs.Prelude.{◌≡◌, true, false, None, Some, [], ◌∷◌};
ghost use Rattle.swift_course.specs.declared.known.Known.{Known as KnownIs};
ghost use Rattle.swift_shared_book.specs.Shared.{BookSeatView};

use crate::BookName;
use crate::lock::{Badge, LockSeat};
use crate::shelf::Shelf;
use std::marker::Model;
use swift_course::known::{BookImage, Known};

/// A thread's right to take the book of one run, and what it knows of the run: the turns of its executors, the tickets of jobs that it
/// has, and for one seat of a lock, how many executors and roots there are (our own). A lock is made with its first seat, and each
/// further one is split from another. It has no bytes. A seat may go to another thread, and can't be shared.
///
/// In a clause it is its lock, whether it is there, and what it knows. It is not there only while a call of the lock is under way.
#[derive(Drop)]
pub struct BookSeat {
    badge: Badge<BookImage, Known>,
}

impl Model for BookSeat {
    ghost use Rattle.std.specs.Coded.{codes};
    ghost use Rattle.swift_script.specs.Codes.{expression_code, statement_code, block_code};
    ghost use Rattle.swift_shared_book.specs.Shared.{BookSeatView, is_there, view_in};
    ghost use Rattle.swift_shared_book.specs.SharedInside.{IsOneAtMost};

    ghost Value = { BookSeatView };

    ghost coded = { Prim.hlevel (codes, expression_code, statement_code (block_code (Prim.hlevel (codes, expression_code)) (Prim.hlevel (codes, expression_code)))) };

    ghost view = { λ s. record { lock = s.badge.lock; here = is_there s.badge.knows; knows = view_in s.badge.knows } };

    ghost invariant = { λ s. IsOneAtMost s.badge.knows };
}

impl BookSeat {
    /// The book that it is of, by its lock.
    pub fn name(&self) -> BookName
        ensures { self.now.here ≡ true → result ≡ Some self.now.lock }
    {
        BookName::of(&self.badge)
    }

    // The seat of a lock that was just made, or one that was split off.
    pub(crate) fn of(seat: LockSeat<Shelf, Known>) -> BookSeat
        requires { seat.held ≡ None }
        ensures { result ≡ record { lock = seat.lock; here = true; knows = seat.known.view } }
    {
        BookSeat {
            badge: seat.into_badge(),
        }
    }

    // The seat of a ticket.
    pub(crate) fn of_ticket(badge: Badge<BookImage, Known>) -> BookSeat
        requires { (known : KnownIs) × (badge.knows ≡ known ∷ []) }
        ensures lock { (result.lock ≡ badge.lock) × (result.here ≡ true) }
        ensures knows { badge.knows ≡ record { view = result.knows } ∷ [] }
    {
        BookSeat { badge }
    }

    // Its badge.
    pub(crate) fn into_badge(self) -> Badge<BookImage, Known>
        requires { self.here ≡ true }
        ensures lock { result.lock ≡ self.lock }
        ensures knows { result.knows ≡ record { view = self.knows } ∷ [] }
    {
        let BookSeat { badge } = self;
        badge
    }

    // What the lock takes for a seat.
    pub(crate) fn into_seat(self) -> LockSeat<Shelf, Known>
        requires { self.here ≡ true }
        ensures { result ≡ record { lock = self.lock; known = record { view = self.knows }; held = None } }
    {
        self.into_badge().into_seat()
    }

    // What the lock takes for a seat, out of its place, which it leaves empty.
    pub(crate) fn take(&mut self) -> LockSeat<Shelf, Known>
        requires { self.old.here ≡ true }
        ensures seat { result ≡ record { lock = self.old.lock; known = record { view = self.old.knows }; held = None } }
        ensures out { self.new.here ≡ false }
    {
        self.badge.take()
    }

    // Puts a seat into its place.
    pub(crate) fn put(&mut self, seat: LockSeat<Shelf, Known>)
        requires { seat.held ≡ None }
        ensures { self.new ≡ record { lock = seat.lock; here = true; knows = seat.known.view } }
    {
        *self = BookSeat::of(seat);
    }
}
