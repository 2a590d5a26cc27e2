//! Which book it is.

ghost use Rattle.std.specs.Prelude.{◌≡◌};
ghost use Rattle.swift_shared_book.specs.Tickets.{book_of};

use crate::lock::Badge;
use std::marker::Model;
use std::snapshot::Snapshot;
use swift_course::known::{BookImage, Known};

/// Which book it is, by its lock, or none. It has no bytes: contracts alone see it.
#[derive(Drop)]
pub struct BookName {
    badge: Snapshot<Badge<BookImage, Known>>,
}

impl Model for BookName {
    ghost use Rattle.std.specs.Prelude.{Option};
    ghost use Rattle.std.specs.Coded.{codes};
    ghost use Rattle.atomic_table.specs.Seated.{TableId};
    ghost use Rattle.swift_shared_book.specs.Tickets.{book_of};

    ghost Value = { Option TableId };

    ghost coded = { Prim.hlevel codes };

    ghost view = { λ n. book_of n.badge.value };
}

impl BookName {
    /// The book of this badge; none where the badge is no seat.
    pub fn of(badge: &Badge<BookImage, Known>) -> BookName
        ensures { result ≡ book_of badge.now }
    {
        BookName {
            badge: Snapshot::of(badge),
        }
    }
}
