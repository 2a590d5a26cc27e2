//! What holds of the book and of what all seats know, and what the calls tell.

ghost use Rattle.std.specs.Prelude.{◌≡◌, ℕ, List, [], Option, Some, None, IfSome};
ghost use Rattle.swift_types.specs.declared.env.Env.{Env};
ghost use Rattle.swift_history.specs.Orderly.{has_last_root};
ghost use Rattle.swift_history.specs.TurnEnds.{JobFacts};
ghost use Rattle.swift_course.specs.Views.{BookKnown, no_view};
ghost use Rattle.swift_course.specs.Reports.{Knows};
ghost use Rattle.swift_course.specs.Rule.{HoldsOf};
ghost use Rattle.swift_course.specs.Seats.{account_parted, first_view, gathered, maker_left, some_left, some_parted};
ghost use Rattle.swift_shared_book.specs.Shared.{BeginsTicket, IsInRun};
ghost use Rattle.swift_journal.specs.Records.{RecordView};
ghost use Rattle.swift_shared_book.specs.StepsInside.{CommitsNamed, KnowsRoot};

use crate::lock::{Join, Lesson, LockRule, Split, UnlockOutcome};
use std::marker::{Brand, PhantomData};
use swift_course::known::{BookImage, Known};

/// The rule: some history of the script led to the book, and what each seat knows of it is true.
pub struct BookRule;

impl LockRule<BookImage, Known> for BookRule {
    ghost holds = { HoldsOf };

    ghost first = { λ image. record { view = first_view image.facts.script } };
}

/// What a seat knows is true of the book that it takes, which is one that the run has come to.
pub struct Finds;

impl Lesson<BookImage, Known> for Finds {
    ghost fact = { λ known image. Knows known.view image.facts × IsInRun known.view image.facts };
}

/// A book is given back as it was.
pub struct Stays;

impl UnlockOutcome<BookImage, Known> for Stays {
    ghost then = { λ known _ _ known'. known'.view ≡ known.view };
}

/// Names the job whose turn has begun, and the environment of the turn, in proofs alone.
pub trait NamesBegun {
    ghost job: { Option JobFacts };

    ghost env: { Option Env };
}

impl NamesBegun for Brand {
    ghost job = { None };

    ghost env = { None };
}

/// The turn of a ticket has begun.
pub struct BookBegins<K> {
    of: PhantomData<K>,
}

impl<K: NamesBegun> UnlockOutcome<BookImage, Known> for BookBegins<K> {
    ghost then = { λ known taken _ known'. IfSome K.job (λ job. IfSome K.env (λ env. BeginsTicket taken.facts.log (has_last_root taken.facts.script taken.facts.log) job env known.view known'.view)) };
}

/// Names what a seat knows after a turn, in proofs alone: the record of the turn is in its view, and the book does not have it.
pub trait Told {
    ghost view: { BookKnown };
}

impl Told for Brand {
    ghost view = { no_view };
}

/// A turn was applied.
pub struct BookApplies<K> {
    of: PhantomData<K>,
}

impl<K: Told> UnlockOutcome<BookImage, Known> for BookApplies<K> {
    ghost then = { λ _ _ _ known'. known'.view ≡ K.view };
}

/// Names the job whose turn has begun and was applied at once, the record of the turn, and the jobs that it has made, in proofs alone.
pub trait NamesCommit {
    ghost job: { Option JobFacts };

    ghost written: { Option RecordView };

    ghost made: { List JobFacts };
}

impl NamesCommit for Brand {
    ghost job = { None };

    ghost written = { None };

    ghost made = { [] };
}

/// A turn has begun, and was applied.
pub struct BookCommits<K> {
    of: PhantomData<K>,
}

impl<K: NamesCommit> UnlockOutcome<BookImage, Known> for BookCommits<K> {
    ghost then = { λ known taken _ known'. CommitsNamed K.job K.written K.made known.view taken.facts known'.view };
}

/// A root was added.
pub struct AddsRoot;

impl UnlockOutcome<BookImage, Known> for AddsRoot {
    ghost then = { λ known taken _ known'. KnowsRoot known.view taken.facts known'.view };
}

/// Names how many tickets are parted off, in proofs alone.
pub trait NamesCount {
    ghost count: { ℕ };
}

impl NamesCount for Brand {
    ghost count = { 0 };
}

/// The first tickets go to a seat of their own.
pub struct PartsTickets<K> {
    of: PhantomData<K>,
}

impl<K: NamesCount> Split<Known> for PartsTickets<K> {
    ghost left = { λ known. record { view = some_left K.count known.view } };

    ghost right = { λ known. record { view = some_parted K.count known.view } };
}

/// A seat for the next executor.
pub struct OpensAccount;

impl Split<Known> for OpensAccount {
    ghost left = { λ known. record { view = maker_left known.view } };

    ghost right = { λ known. record { view = account_parted known.view } };
}

/// A seat takes over the accounts and the tickets of another.
pub struct Gathers;

impl Join<Known> for Gathers {
    ghost both = { λ known other. record { view = gathered known.view other.view } };

    ghost spent = { record { view = no_view } };
}
