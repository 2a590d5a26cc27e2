//! The rule of a lock, and what each kind of step tells its seat.

ghost use Rattle.std.specs.Prelude.{List, Option, None};
ghost use Rattle.swift_shared_book.specs.LockRule.{LockInvariant};
ghost use Rattle.swift_shared_book.specs.LockStepsInside as steps;

use crate::lock::Locked;
use crate::lock::view::LockKnown;
use atomic_table::{Join, Play, Split, TableRule};
use std::marker::{Brand, PhantomData};
use std::snapshot::Snapshot;

/// The rule of a lock, by its user: a fact about the image of what the lock keeps, and about what all its seats know. It
/// holds between any two steps; while a seat holds, it holds of the image of what that seat took.
pub trait LockRule<I, V> {
    ghost holds: { I → List V → Type 0 };

    // What the first seat knows, by the image of what the lock is made with.
    ghost first: { I → V };
}

/// What a seat learns when it locks, or when the lock is closed: of what it knows and of the image of what it gets.
pub trait Lesson<I, V> {
    ghost fact: { V → I → Type 0 };
}

/// What a seat knows once it has unlocked: of what it knew, the image of what it took, the image of what it gave back,
/// and what it knows then.
pub trait UnlockOutcome<I, V> {
    ghost then: { V → I → I → V → Type 0 };
}

/// The rule of the table: the user's, with what ties word, slot and seats to it.
pub struct TheRule<T, V, P> {
    of: PhantomData<(T, V, P)>,
}

impl<T: Locked, V, P: LockRule<T::Image, V>> TableRule<
    Option<T>,
    LockKnown<T::Image, V>,
    Snapshot<T>,
> for TheRule<T, V, P> {
    ghost holds = { λ opened. LockInvariant T.image P.holds };

    ghost first = { λ opened. steps.free (P.first (T.image opened.value)) };
}

/// Where the word was 0, the slot goes to the seat.
pub struct Locks<L> {
    of: PhantomData<L>,
}

impl<T: Locked, V, L: Lesson<T::Image, V>> Play<Option<T>, LockKnown<T::Image, V>> for Locks<L> {
    ghost then = { steps.Locks T.image L.fact };
}

/// The slot comes back.
pub struct Unlocks<O> {
    of: PhantomData<O>,
}

impl<T: Locked, V, O: UnlockOutcome<T::Image, V>> Play<Option<T>, LockKnown<T::Image, V>>
    for Unlocks<O> {
    ghost then = { steps.Unlocks T.image O.then };
}

/// Names the image that a seat holds from now on, in proofs alone.
pub trait NamesImage<I> {
    ghost image: { Option I };
}

impl<I> NamesImage<I> for Brand {
    ghost image = { None };
}

/// The seat that holds puts another image in the place of what it took.
pub struct Publishes<K, O> {
    of: PhantomData<(K, O)>,
}

impl<T: Locked, V, K: NamesImage<T::Image>, O: UnlockOutcome<T::Image, V>> Play<
    Option<T>,
    LockKnown<T::Image, V>,
> for Publishes<K, O> {
    ghost then = { steps.Publishes K.image O.then };
}

/// A seat that holds learns of what it took.
pub struct Recalls<L> {
    of: PhantomData<L>,
}

impl<T: Locked, V, L: Lesson<T::Image, V>> Play<Option<T>, LockKnown<T::Image, V>> for Recalls<L> {
    ghost then = { steps.Recalls L.fact };
}

/// How what a seat knows is parted between two, and put together again.
pub struct Knows<M> {
    of: PhantomData<M>,
}

impl<I, V, M: Split<V>> Split<LockKnown<I, V>> for Knows<M> {
    ghost left = { λ v. steps.with_known v (M.left v.known) };

    ghost right = { λ v. steps.free (M.right v.known) };
}

impl<I, V, M: Join<V>> Join<LockKnown<I, V>> for Knows<M> {
    ghost both = { λ v w. steps.with_known v (M.both v.known w.known) };

    ghost spent = { steps.free M.spent };
}
