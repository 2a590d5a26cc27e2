//! A lock under a rule: what it keeps is related to what its seats know, between any two steps of its threads (our own).
//!
//! A lock is one atomic number, its word, and one slot for what it keeps.
//!
//! - 0: no seat holds, and what is kept lies in the slot.
//! - 1: a seat holds, and has what is kept. No thread sleeps on the word but one that was woken and has not looked yet.
//! - 2: a seat holds, and a thread may sleep.
//!
//! The step that finds 0 takes the slot; no other seat can then set the word to 0. `unlock` puts the slot back, sets the
//! word to 0, and wakes one thread where it found 2. A thread that slept takes the lock by setting 2, since others may
//! sleep too. That no wake is lost is not proved, and no clause can say it: it rests on these four sentences.

ghost use Rattle.std.specs.Prelude.{◌≡◌, Some, None, [], ◌∷◌, IfSome, IfNone, IsSome, IfOk, IfErr};
ghost use Rattle.swift_shared_book.specs.LockSeat.{IsSeatOf, MayLearn, MayUnlock, free_seat, held_by, holding, new_seat};

// A seat where nothing names what is kept.
mod badge;

// What holds between any two steps of a lock.
pub mod laws;

// The rule, and what each kind of step tells.
mod rule;

// A thread's right to lock.
mod seat;

// What a seat knows, in proofs alone.
mod view;

use crate::lock::rule::{Locks, NamesImage, Publishes, Recalls, TheRule, Unlocks};
use crate::lock::seat::LockToken;
pub use atomic_table::{Join, Split};
use atomic_table::{Refused, Table};
pub use badge::Badge;
pub use rule::{Lesson, LockRule, UnlockOutcome};
pub use seat::LockSeat;
use std::alloc::{AllocError, Global};
use std::hint;
use std::marker::{Brand, Model};
use std::snapshot::Snapshot;
use std::sync::Wait;
pub use view::LockKnown;

/// What a lock can keep. The rule speaks of its image, a value that contracts alone see.
///
/// `Drop`, since a lock that is dropped drops what lies in its slot.
pub trait Locked: Drop {
    type Image;

    ghost image: { Self → Self.Image };
}

/// A lock. Any number of threads share it by reference; each locks with a `LockSeat` of its own. In a clause it is which lock
/// it is, and the image of what it was made with.
#[derive(Drop)]
pub struct Lock<T: Locked, V, P: LockRule<T::Image, V>> {
    pub(crate) table: Table<
        Option<T>,
        LockKnown<T::Image, V>,
        Snapshot<T>,
        TheRule<T, V, P>,
        Global,
    >,
}

impl<T: Locked, V, P: LockRule<T::Image, V>> Model for Lock<T, V, P> {
    ghost use Rattle.std.specs.Prelude.{◌≡◌};
    ghost use Rattle.swift_shared_book.specs.LockSeat.{LockView};

    ghost Value = { LockView T.Image };

    ghost view = { λ l. record { id = l.table.shared.table_id; opened = T.image l.table.shared.key.value } };

    ghost invariant = { λ l. (l.table.shared.table_id.words ≡ 1) × (l.table.shared.table_id.slots ≡ 1) };
}

// The table's only word, and its only slot.
const WORD: usize = 0;

const SLOT: usize = 0;

const FREE: u64 = 0;

const HELD: u64 = 1;

// Held, and a thread may sleep.
const AWAITED: u64 = 2;

// How often a thread looks at a held lock before it tries to take it.
const LOOKS: u32 = 100;

// How often it tries before it sleeps.
const TRIES: u32 = 10;

impl<T: Locked, V, P: LockRule<T::Image, V>> Lock<T, V, P> {
    /// A lock that keeps this value, and its first seat, which knows what the rule says. An `Err` says that a growth was
    /// refused, and gives the value back.
    pub fn new(alloc: Global, value: T) -> Result<(Lock<T, V, P>, LockSeat<T, V>), (T, AllocError)>
        requires { P.holds (T.image value) (P.first (T.image value) ∷ []) }
        ensures opened { IfOk result (λ r. r.0.opened ≡ T.image value) }
        ensures seat { IfOk result (λ r. r.1 ≡ new_seat r.0 (P.first (T.image value))) }
        ensures err { IfErr result (λ r. r.0 ≡ value) }
    {
        let opened = Snapshot::of(&value);
        let mut slots = Vec::new(alloc);
        if let Err(refused) = slots.push(Some(value)) {
            return Err((refused.value.unwrap(), AllocError));
        }
        match Table::new(alloc, &[FREE], slots, &opened) {
            Ok((table, token)) => Ok((Lock { table }, LockSeat::first(token))),
            Err(Refused { mut slots }) => Err((slots.pop().unwrap().unwrap(), AllocError)),
        }
    }

    // Takes what is in the slot, which the token holds.
    fn empty(&self, token: &mut LockToken<T, V>) -> T
        requires lock { token.old.table_id ≡ self.now.id }
        requires full { (value : T) × (token.old.me.1 ≡ (0, Some value) ∷ []) }
        ensures lock { (token.new.table_id ≡ token.old.table_id) × (token.new.id ≡ token.old.id) }
        ensures value { token.old.me.1 ≡ (0, Some result) ∷ [] }
        ensures empty { token.new.me ≡ (token.old.me.0, (0, None) ∷ []) }
    {
        match self.table.shared.exchange(token, SLOT, None) {
            Some(value) => value,
            None => unreachable!(),
        }
    }

    /// Takes what the lock keeps, where no seat holds: one atomic step. The seat learns what the lesson says, which the
    /// rule has to give whatever other seats know.
    pub fn try_lock<L: Lesson<T::Image, V>>(&self, seat: &mut LockSeat<T, V>) -> Option<T>
        requires same_lock { IsSeatOf self.now seat.old }
        requires free { seat.old.held ≡ None }
        requires rule { MayLearn P.holds seat.old.known (L.fact seat.old.known) }
        ensures held { IfSome result (λ x. seat.new ≡ held_by seat.old (T.image x)) }
        ensures fact { IfSome result (λ x. L.fact seat.old.known (T.image x)) }
        ensures none { IfNone result (seat.new ≡ seat.old) }
    {
        let shared = &self.table.shared;
        let found = shared.compare_exchange::<Locks<L>>(&mut seat.token, WORD, FREE, HELD);
        if found != FREE {
            return None;
        }
        Some(self.empty(&mut seat.token))
    }

    // Takes what the lock keeps, where no seat holds, and leaves the word so that who unlocks wakes a thread that sleeps.
    fn lock_awaited<L: Lesson<T::Image, V>>(&self, seat: &mut LockSeat<T, V>) -> Option<T>
        requires same_lock { IsSeatOf self.now seat.old }
        requires free { seat.old.held ≡ None }
        requires rule { MayLearn P.holds seat.old.known (L.fact seat.old.known) }
        ensures held { IfSome result (λ x. seat.new ≡ held_by seat.old (T.image x)) }
        ensures fact { IfSome result (λ x. L.fact seat.old.known (T.image x)) }
        ensures none { IfNone result (seat.new ≡ seat.old) }
    {
        let shared = &self.table.shared;
        let found = shared.swap::<Locks<L>>(&mut seat.token, WORD, AWAITED);
        if found != FREE {
            return None;
        }
        Some(self.empty(&mut seat.token))
    }

    // Looks for a while whether the lock is free. It looks too where another thread sleeps: a lock is held for a moment, and to
    // sleep costs more. A thread that was woken holds by `AWAITED`, so who did not look would sleep in its turn, and each wake would be
    // followed by the next.
    fn spin(&self) {
        for _ in 0..LOOKS {
            if self.table.shared.peek(WORD) == FREE {
                return;
            }
            hint::spin_loop();
        }
    }

    // Takes what the lock keeps, if it is found free within some looks. Another thread may be faster after each.
    #[inline(never)]
    fn lock_awake<L: Lesson<T::Image, V>>(&self, seat: &mut LockSeat<T, V>) -> Option<T>
        requires same_lock { IsSeatOf self.now seat.old }
        requires free { seat.old.held ≡ None }
        requires rule { MayLearn P.holds seat.old.known (L.fact seat.old.known) }
        ensures held { IfSome result (λ x. seat.new ≡ held_by seat.old (T.image x)) }
        ensures fact { IfSome result (λ x. L.fact seat.old.known (T.image x)) }
        ensures none { IfNone result (seat.new ≡ seat.old) }
    {
        'looks: for _ in 0..TRIES {
            self.spin();
            if let Some(value) = self.try_lock::<L>(seat) {
                return Some(value);
            }
        }
        None
    }

    // Takes what the lock keeps, and sleeps until it can.
    #[inline(never)]
    fn lock_asleep<L: Lesson<T::Image, V>, R: Wait>(&self, rt: &R, seat: &mut LockSeat<T, V>) -> T
        requires same_lock { IsSeatOf self.now seat.old }
        requires free { seat.old.held ≡ None }
        requires rule { MayLearn P.holds seat.old.known (L.fact seat.old.known) }
        ensures held { seat.new ≡ held_by seat.old (T.image result) }
        ensures fact { L.fact seat.old.known (T.image result) }
    {
        'waits: for _ in rt.forever() {
            if let Some(value) = self.lock_awaited::<L>(seat) {
                return value;
            }
            self.table.shared.park(rt, WORD, AWAITED as u32);
            self.spin();
        }
        unreachable!()
    }

    /// Takes what the lock keeps, and waits until it can: it looks for some microseconds, and then sleeps until a thread that
    /// unlocks wakes it. Where the lock is free, it is one atomic step. What the seat learns is as for `try_lock`.
    pub fn lock<L: Lesson<T::Image, V>, R: Wait>(&self, rt: &R, seat: &mut LockSeat<T, V>) -> T
        requires same_lock { IsSeatOf self.now seat.old }
        requires free { seat.old.held ≡ None }
        requires rule { MayLearn P.holds seat.old.known (L.fact seat.old.known) }
        ensures held { seat.new ≡ held_by seat.old (T.image result) }
        ensures fact { L.fact seat.old.known (T.image result) }
    {
        if let Some(value) = self.try_lock::<L>(seat) {
            return value;
        }
        if let Some(value) = self.lock_awake::<L>(seat) {
            return value;
        }
        self.lock_asleep::<L, R>(rt, seat)
    }

    // Puts a value into the slot, which the token holds, and which is empty.
    fn fill(&self, token: &mut LockToken<T, V>, value: T)
        requires lock { token.old.table_id ≡ self.now.id }
        requires empty { token.old.me.1 ≡ (0, None) ∷ [] }
        ensures lock { (token.new.table_id ≡ token.old.table_id) × (token.new.id ≡ token.old.id) }
        ensures full { token.new.me ≡ (token.old.me.0, (0, Some value) ∷ []) }
    {
        match self.table.shared.exchange(token, SLOT, Some(value)) {
            None => {}
            Some(_) => unreachable!(),
        }
    }

    /// Gives a value back: one atomic step, and a call of the system where another thread may sleep. The rule has to
    /// allow this value for what the seat took, whatever other seats know, and the seat then knows what the outcome says.
    pub fn unlock<O: UnlockOutcome<T::Image, V>>(&self, seat: &mut LockSeat<T, V>, value: T)
        requires same_lock { IsSeatOf self.now seat.old }
        requires holds { IsSome seat.old.held }
        requires rule { IfSome seat.old.held (λ taken. MayUnlock P.holds seat.old.known taken (T.image value) (O.then seat.old.known taken (T.image value))) }
        ensures seat { seat.new ≡ free_seat seat.old seat.new.known }
        ensures then { IfSome seat.old.held (λ taken. O.then seat.old.known taken (T.image value) seat.new.known) }
    {
        self.fill(&mut seat.token, value);
        let shared = &self.table.shared;
        let found = shared.swap::<Unlocks<O>>(&mut seat.token, WORD, FREE);
        if found == AWAITED {
            shared.wake_one(WORD);
        }
    }

    // Puts the image of a value, which K names, in the place of what the seat took: one load, by which nothing changes but what the seat
    // knows.
    fn publish_named<K: NamesImage<T::Image>, O: UnlockOutcome<T::Image, V>>(
        &self,
        seat: &mut LockSeat<T, V>,
        value: &T,
    )
        requires name { K.image ≡ Some (T.image value.now) }
        requires same_lock { IsSeatOf self.now seat.old }
        requires holds { IsSome seat.old.held }
        requires rule { IfSome seat.old.held (λ taken. MayUnlock P.holds seat.old.known taken (T.image value.now) (O.then seat.old.known taken (T.image value.now))) }
        ensures seat { seat.new ≡ holding seat.old seat.new.known (T.image value.now) }
        ensures then { IfSome seat.old.held (λ taken. O.then seat.old.known taken (T.image value.now) seat.new.known) }
    {
        let _value = value;
        let shared = &self.table.shared;
        let _found = shared.load::<Publishes<K, O>>(&mut seat.token, WORD);
    }

    /// Makes this value what the seat took, as if it were given back and taken again at once: one load. The rule has to allow it as for
    /// `unlock`, and the seat, which still holds, then knows what the outcome says. So a thread makes several steps by one lock.
    pub fn publish<O: UnlockOutcome<T::Image, V>>(&self, seat: &mut LockSeat<T, V>, value: &T)
        requires same_lock { IsSeatOf self.now seat.old }
        requires holds { IsSome seat.old.held }
        requires rule { IfSome seat.old.held (λ taken. MayUnlock P.holds seat.old.known taken (T.image value.now) (O.then seat.old.known taken (T.image value.now))) }
        ensures seat { seat.new ≡ holding seat.old seat.new.known (T.image value.now) }
        ensures then { IfSome seat.old.held (λ taken. O.then seat.old.known taken (T.image value.now) seat.new.known) }
    {
        self.publish_named::<Brand, O>(seat, value);
    }

    /// The rule holds of what a seat took for as long as it holds: the seat learns what the lesson says of that. One load.
    pub fn recall<L: Lesson<T::Image, V>>(&self, seat: &mut LockSeat<T, V>)
        requires same_lock { IsSeatOf self.now seat.old }
        requires rule { MayLearn P.holds seat.old.known (L.fact seat.old.known) }
        ensures same { seat.new ≡ seat.old }
        ensures fact { IfSome seat.old.held (L.fact seat.old.known) }
    {
        let shared = &self.table.shared;
        let _found = shared.load::<Recalls<L>>(&mut seat.token, WORD);
    }

    /// Gives the lock up: what it keeps, where no seat holds. What a seat still holds stays with whoever has it.
    pub fn close<L: Lesson<T::Image, V>>(self, seat: LockSeat<T, V>) -> Option<T>
        requires same_lock { IsSeatOf self seat }
        requires free { seat.held ≡ None }
        requires rule { MayLearn P.holds seat.known (L.fact seat.known) }
        ensures { IfSome result (λ x. L.fact seat.known (T.image x)) }
    {
        let Lock { table } = self;
        let LockSeat { token } = seat;
        let mut closed = table.close_with(token);
        let word = closed.word(WORD);
        let slot = closed.take(SLOT);
        closed.free();
        if word == FREE { slot } else { None }
    }
}
