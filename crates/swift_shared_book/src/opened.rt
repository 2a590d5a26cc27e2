//! A book that was taken from its lock.

use crate::lock::LockSeat;
use crate::shelf::Shelf;
use std::marker::Model;
use swift_course::known::Known;
use swift_tasks::Book;

/// A book that was taken from its lock. It can't be dropped: a call of the lock gives it back.
pub struct OpenBook {
    pub book: Box<Book>,
    /// The right to give it back.
    pub seat: OpenSeat,
}

/// A seat that has taken the book of its lock. It has no bytes. In a clause it is its lock, what it knows, and the book as
/// it was when it was taken.
#[derive(Drop)]
pub struct OpenSeat {
    pub(crate) seat: LockSeat<Shelf, Known>,
}

impl Model for OpenSeat {
    ghost use Rattle.std.specs.Prelude.{IsSome};
    ghost use Rattle.std.specs.Coded.{codes};
    ghost use Rattle.swift_script.specs.Codes.{expression_code, statement_code, block_code};
    ghost use Rattle.swift_shared_book.specs.Shared.{OpenSeatView, facts_in};

    ghost Value = { OpenSeatView };

    ghost coded = { Prim.hlevel (codes, expression_code, statement_code (block_code (Prim.hlevel (codes, expression_code)) (Prim.hlevel (codes, expression_code)))) };

    ghost view = { λ s. record { lock = s.seat.lock; knows = s.seat.known.view; taken = facts_in s.seat.held } };

    ghost invariant = { λ s. IsSome s.seat.held };
}
