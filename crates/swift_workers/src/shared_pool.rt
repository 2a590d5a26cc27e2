//! The pool as workers share it.

ghost use Rattle.std.specs.Prelude.{◌≡◌, ◌≢◌, ◌⊎◌, ◌≤◌, ◌<◌, true, Ok, Err, None, Some, [], IfOk, IfNone, IsErr, IsSome, length};
ghost use Rattle.swift_workers.specs.declared.pool.WorkerNext.TheVariants.{Stop};
ghost use Rattle.swift_workers.specs.Pools.{IsEndOf, PoolCall, first_known, split_left, split_new};
ghost use Rattle.swift_workers.specs.PoolCallsInside.{HasCalled, HasStopped, IsPoolSeatOf, IsRunOut};
ghost use Rattle.swift_workers.specs.PoolSeatsInside.{HasTaken, MayGiveBack};
ghost use Rattle.swift_workers.specs.PoolsInside.{IsNextOrRest};

use crate::bell::{Bell, Rest};
use crate::chain::Chain;
use crate::fault::Halt;
use crate::known::PoolTold;
use crate::pool::{Pool, WorkerNext, is_for};
use crate::rule::{Calls, Finds, NamesCall, OneMore, PoolRule};
use crate::shelf::PoolShelf;
use crossbeam_utils::CachePadded;
use crossbeam_utils::atomic::AtomicCell;
use std::alloc::Global;
use std::array;
use std::marker::{Brand, Model};
use std::snapshot::Snapshot;
use std::sync::Wait;
use swift_script::Script;
use swift_shared_book::lock::{Lock, LockSeat};
use swift_types::ExecId;
use swift_types::limits::WORKERS;

// How long a worker watches the others before it sleeps: so many atomic steps on a line of its own, of some 8 ns each.
const WATCH: u32 = 3_200;

// Before that it waits for the end of a turn, so many times as long as these steps take.
const PARTS: u32 = 16;

const PART: u32 = 800;

// Others that end so many turns in that time are quick: a turn takes less than what it costs to fetch the lines of the cache that
// another worker writes in each.
const QUICK: u64 = 16;

// In so many turns of a calm run one more worker is woken, to watch.
const TRIES: u64 = 2_048;

/// The pool under its lock, and a bell for each worker (our own).
///
/// A worker that is told to pause sleeps until somebody rings. That no ring is missing is only tested. This is why there is none:
///
/// - What a worker does changes at its bell under the lock of the pool, in the call that tells it, or by a ring. So a worker
///   that is found awake or on its way after a token was put looks into the pool again, and it is not told to pause
///   while there is a token that it may run.
/// - A call that puts a token, and does not take it at once, then rings a worker that waits and may run it. It rings none if none
///   waits, or if as many that may run it are on their way as there are tokens.
/// - Tokens and workers under way end in these calls alone. So the worker whose turn is the last one is told to stop, and whoever
///   is told to stop rings all others. So does whoever gives the run up.
///
/// Short turns that call each other's actors are slower on two workers than on one, since what each writes the other has to fetch. So a
/// worker that runs a chain of calls may be told to rest: it watches how many turns the others end in some microseconds, and sleeps
/// where those are quick. While a run is calm, which begins with a rest, a call that puts a token rings nobody for it where its own worker may
/// run it, but once in some thousand turns. The calm ends where the others are found slow, or a worker's turns are links no more. No ring is
/// missing then either:
///
/// - A worker is told to rest under the lock, and only while another may run each token that lies there, and does not wait. That one
///   looks into the pool again, and while such a token lies there it is not told to pause; and to rest only if yet another does not wait.
/// - A worker that puts a token, may run it and does not ring goes on with a turn, and looks into the pool after it; or it is told to
///   rest, as above.
/// - A worker that rests is one that waits. So it is rung for what it alone may run, and at the end.
#[derive(Drop)]
pub struct SharedPool {
    lock: Lock<PoolShelf, PoolTold, PoolRule>,
    bells: [CachePadded<Bell>; WORKERS],
    // Whether the run is calm.
    calm: CachePadded<AtomicCell<bool>>,
    // How many turns have ended while it was. It changes under the lock of the pool.
    turns: CachePadded<AtomicCell<u64>>,
}

impl Model for SharedPool {
    ghost use Rattle.std.specs.Coded.{codes};
    ghost use Rattle.swift_script.specs.Codes.{expression_code, statement_code, block_code};
    ghost use Rattle.swift_workers.specs.PoolCallsInside.{SharedPoolView};

    ghost Value = { SharedPoolView };

    ghost coded = { Prim.hlevel (codes, expression_code, statement_code (block_code (Prim.hlevel (codes, expression_code)) (Prim.hlevel (codes, expression_code)))) };

    ghost view = { λ p. record { id = p.lock.id; crew = p.lock.opened.view.crew } };
}

/// A worker's right to take the pool, and what it knows of the run: whether it owes what follows from a token that it took, whether it was
/// told to stop, and each of its calls. A pool is made with its first seat, and each further one is split from another. It has no bytes.
pub type PoolSeat = LockSeat<PoolShelf, PoolTold>;

impl SharedPool {
    /// No token, and nobody waits. The seat is under way: it owes the tokens of the roots.
    pub fn new(alloc: Global, script: &Script, workers: u32) -> Result<(SharedPool, PoolSeat), Halt>
        ensures crew { IfOk result (λ r. r.0.crew ≡ record { script = script.now; workers = workers }) }
        ensures seat { IfOk result (λ r. IsPoolSeatOf r.0 r.1) }
        ensures known { IfOk result (λ r. r.1.known.view ≡ first_known r.0.crew) }
    {
        let Ok(pool) = Box::new(alloc, Pool::new(alloc)) else {
            return Err(Halt::Memory);
        };
        let shelf = PoolShelf {
            pool,
            script: Snapshot::of(script),
            workers: Snapshot::of(&workers),
        };
        let Ok((lock, seat)) = Lock::new(alloc, shelf) else {
            return Err(Halt::Memory);
        };
        Ok((SharedPool::of(lock), seat))
    }

    // Nobody waits.
    fn of(lock: Lock<PoolShelf, PoolTold, PoolRule>) -> SharedPool
        ensures { result ≡ record { id = lock.id; crew = lock.opened.view.crew } }
    {
        SharedPool {
            lock,
            bells: array::from_fn(|_| CachePadded::new(Bell::new())),
            calm: CachePadded::new(AtomicCell::new(false)),
            turns: CachePadded::new(AtomicCell::new(0)),
        }
    }

    /// A seat for one more worker.
    pub fn split(&self, seat: &mut PoolSeat) -> PoolSeat
        requires seat { IsPoolSeatOf self.now seat.old }
        requires parts { seat.old.known.view.owes < seat.old.known.view.parts }
        ensures left { (seat.new.lock ≡ seat.old.lock) × (seat.new.held ≡ None) × (seat.new.known.view ≡ split_left seat.old.known.view) }
        ensures new { (result.lock ≡ self.now.id) × (result.held ≡ None) × (result.known.view ≡ split_new seat.old.known.view) }
    {
        seat.split::<OneMore, PoolRule>(&self.lock)
    }

    // Takes the pool, and waits until it can.
    fn take<R: Wait>(&self, rt: &R, seat: &mut PoolSeat) -> PoolShelf
        requires { IsPoolSeatOf self.now seat.old }
        ensures { HasTaken self.now seat.old seat.new result }
    {
        self.lock.lock::<Finds, R>(rt, seat)
    }

    // Gives the pool back, with which this call was made.
    fn give_named<K: NamesCall>(
        &self,
        seat: &mut PoolSeat,
        shelf: PoolShelf,
        worker: u32,
        ends: u32,
        put: &[ExecId],
        told: Option<Halt>,
        next: Option<WorkerNext>,
    )
        requires name { K.call ≡ record { worker = worker; ends = ends; put = put.now; told = told; next = next } }
        requires lock { seat.old.lock ≡ self.now.id }
        requires gives { MayGiveBack seat.old.known.view seat.old.held shelf.script.value shelf.workers.value shelf.pool.value (record { worker = worker; ends = ends; put = put.now; told = told; next = next }) }
        ensures { HasCalled (record { worker = worker; ends = ends; put = put.now; told = told; next = next }) seat.old seat.new }
    {
        let _of_worker = worker;
        let _ends = ends;
        let _put = put.len();
        let _told = told;
        let _next = next;
        self.lock.unlock::<Calls<K>>(seat, shelf);
    }

    // The same, where the call has no name.
    fn give(
        &self,
        seat: &mut PoolSeat,
        shelf: PoolShelf,
        worker: u32,
        ends: u32,
        put: &[ExecId],
        told: Option<Halt>,
        next: Option<WorkerNext>,
    )
        requires lock { seat.old.lock ≡ self.now.id }
        requires gives { MayGiveBack seat.old.known.view seat.old.held shelf.script.value shelf.workers.value shelf.pool.value (record { worker = worker; ends = ends; put = put.now; told = told; next = next }) }
        ensures { HasCalled (record { worker = worker; ends = ends; put = put.now; told = told; next = next }) seat.old seat.new }
    {
        self.give_named::<Brand>(seat, shelf, worker, ends, put, told, next);
    }

    /// Puts the first tokens, in order: what the first seat owes. It rings nobody, so it is for the time before the workers start. Where
    /// one of them is refused memory, the run is given up.
    pub fn put_first<R: Wait>(&self, rt: &R, seat: &mut PoolSeat, tokens: &[ExecId])
        requires seat { IsPoolSeatOf self.now seat.old }
        requires owes { seat.old.known.view.owes ≡ 1 }
        ensures { (c : PoolCall) × HasCalled c seat.old seat.new × IsEndOf tokens.now (Ok tt) c × (c.next ≡ None) }
    {
        let mut shelf = self.take(rt, seat);
        let ended = shelf.pool.end_turn(tokens, Ok(()));
        self.give(seat, shelf, 0, 1, &tokens[..ended.put], ended.told, None);
    }

    /// What a worker does first.
    pub fn next<R: Wait>(
        &self,
        rt: &R,
        seat: &mut PoolSeat,
        script: &Script,
        workers: u32,
        worker: u32,
    ) -> WorkerNext
        requires seat { IsPoolSeatOf self.now seat.old }
        requires crew { self.now.crew ≡ record { script = script.now; workers = workers } }
        requires owes { (seat.old.known.view.owes ≡ 0) × (0 < seat.old.known.view.parts) }
        ensures { HasCalled (record { worker = worker; ends = 0; put = []; told = None; next = Some result }) seat.old seat.new }
    {
        let mut shelf = self.take(rt, seat);
        let next = shelf.pool.next(script, workers, worker);
        self.note(worker, next);
        self.give(seat, shelf, worker, 0, &[], None, Some(next));
        next
    }

    /// The end of a worker's turn, and what it does next: these tokens go behind the others, in order, and it takes the oldest token that it
    /// may run. Where the turn was refused, or a token was refused memory, the run is given up. Where its chain is long it may be told to
    /// rest.
    pub fn turn_over<R: Wait>(
        &self,
        rt: &R,
        seat: &mut PoolSeat,
        tokens: &[ExecId],
        done: Result<(), Halt>,
        script: &Script,
        workers: u32,
        worker: u32,
        chain: Chain,
    ) -> WorkerNext
        requires seat { IsPoolSeatOf self.now seat.old }
        requires crew { self.now.crew ≡ record { script = script.now; workers = workers } }
        requires owes { seat.old.known.view.owes ≡ 1 }
        ensures called { (c : PoolCall) × HasCalled c seat.old seat.new × IsEndOf tokens.now done c × (c.worker ≡ worker) × (c.next ≡ Some result) }
        ensures refused { IsErr done → result ≡ Stop }
    {
        let mut shelf = self.take(rt, seat);
        let pool = &mut *shelf.pool;
        let ended = pool.end_turn(tokens, done);
        let next = self.next_after(pool, script, workers, worker, chain);
        let left = pool.token_count();
        self.note(worker, next);
        let rings = workers > 1 && self.rings(chain);
        self.give(
            seat,
            shelf,
            worker,
            1,
            &tokens[..ended.put],
            ended.told,
            Some(next),
        );
        self.ring_after(tokens, next, left, rings, script, workers, worker);
        next
    }

    // What a worker does after a turn.
    fn next_after(
        &self,
        pool: &mut Pool,
        script: &Script,
        workers: u32,
        worker: u32,
        chain: Chain,
    ) -> WorkerNext
        requires { pool.old.under_way < 4294967295 }
        ensures { IsNextOrRest script.now workers worker pool.old result pool.new }
    {
        if chain.is_long() {
            self.rest_or_next(pool, script, workers, worker)
        } else {
            pool.next(script, workers, worker)
        }
    }

    // After a turn that has put these tokens, of which so many are left, rings for those that its worker does not take.
    fn ring_after(
        &self,
        tokens: &[ExecId],
        next: WorkerNext,
        left: usize,
        rings: bool,
        script: &Script,
        workers: u32,
        worker: u32,
    ) {
        if workers == 1 || matches!(next, WorkerNext::Rest) {
            // Nobody else is there to be rung, or who sees to the tokens is awake.
            return;
        }
        for on in tokens {
            let is_asked = rings || !is_for(script, workers, worker, *on);
            if is_asked && !is_visit(next, *on) && self.coming_for(script, workers, *on) < left {
                self.ring_for(script, workers, *on);
            }
        }
    }

    // A worker rests where another that does not wait may run each token that lies there. Else it does what the pool says.
    fn rest_or_next(
        &self,
        pool: &mut Pool,
        script: &Script,
        workers: u32,
        worker: u32,
    ) -> WorkerNext
        requires { pool.old.under_way < 4294967295 }
        ensures { IsNextOrRest script.now workers worker pool.old result pool.new }
    {
        for (other, bell) in self.bells.iter().enumerate() {
            let other = other as u32;
            if other < workers
                && other != worker
                && bell.rest() != Rest::Waits
                && pool.is_all_for(script, workers, other)
            {
                return WorkerNext::Rest;
            }
        }
        pool.next(script, workers, worker)
    }

    // Whether a call that ends a turn rings for tokens that its own worker may run, too. Under the lock of the pool.
    fn rings(&self, chain: Chain) -> bool {
        if !self.calm.load() {
            return true;
        }
        if chain.is_broken() {
            self.end_calm();
            return true;
        }
        let turns = self.turns.load().wrapping_add(1);
        self.turns.store(turns);
        turns % TRIES == 0
    }

    // All look again for tokens for which nobody was rung.
    fn end_calm(&self) {
        self.calm.store(false);
        self.ring_all();
    }

    // What a worker was told, under the lock.
    fn note(&self, worker: u32, next: WorkerNext) {
        let rest = match next {
            WorkerNext::Pause | WorkerNext::Rest => Rest::Waits,
            WorkerNext::Visit(_) | WorkerNext::Stop => Rest::Awake,
        };
        if let Some(bell) = self.bells.get(worker as usize) {
            bell.set(rest);
        }
        match next {
            WorkerNext::Stop => self.ring_all(),
            WorkerNext::Rest => self.calm.store(true),
            WorkerNext::Visit(_) | WorkerNext::Pause => {}
        }
    }

    /// After a pause that it was told, a worker waits here until there may be a token for it, or the run has ended. Then it is told what
    /// it does next. It owes nothing meanwhile.
    pub fn pause<R: Wait>(
        &self,
        rt: &R,
        seat: &mut PoolSeat,
        script: &Script,
        workers: u32,
        worker: u32,
    ) -> WorkerNext
        requires seat { IsPoolSeatOf self.now seat.old }
        requires crew { self.now.crew ≡ record { script = script.now; workers = workers } }
        requires owes { (seat.old.known.view.owes ≡ 0) × (0 < seat.old.known.view.parts) }
        ensures { HasCalled (record { worker = worker; ends = 0; put = []; told = None; next = Some result }) seat.old seat.new }
    {
        if let Some(bell) = self.bells.get(worker as usize) {
            bell.wait(rt);
        }
        self.look(rt, seat, script, workers, worker)
    }

    /// A worker that was told to rest watches the others here. Where they are quick it waits, as in a pause; else the calm ends. Then
    /// it is told what it does next. It owes nothing meanwhile.
    pub fn rest<R: Wait>(
        &self,
        rt: &R,
        seat: &mut PoolSeat,
        script: &Script,
        workers: u32,
        worker: u32,
    ) -> WorkerNext
        requires seat { IsPoolSeatOf self.now seat.old }
        requires crew { self.now.crew ≡ record { script = script.now; workers = workers } }
        requires owes { (seat.old.known.view.owes ≡ 0) × (0 < seat.old.known.view.parts) }
        ensures { HasCalled (record { worker = worker; ends = 0; put = []; told = None; next = Some result }) seat.old seat.new }
    {
        if let Some(bell) = self.bells.get(worker as usize) {
            // One that was rung meanwhile has not seen enough.
            if self.are_quick(bell) || bell.rest() != Rest::Waits {
                bell.wait(rt);
            } else {
                self.end_calm();
            }
        }
        self.look(rt, seat, script, workers, worker)
    }

    // What a worker does next that was rung. In a calm run it may rest again.
    fn look<R: Wait>(
        &self,
        rt: &R,
        seat: &mut PoolSeat,
        script: &Script,
        workers: u32,
        worker: u32,
    ) -> WorkerNext
        requires seat { IsPoolSeatOf self.now seat.old }
        requires crew { self.now.crew ≡ record { script = script.now; workers = workers } }
        requires owes { (seat.old.known.view.owes ≡ 0) × (0 < seat.old.known.view.parts) }
        ensures { HasCalled (record { worker = worker; ends = 0; put = []; told = None; next = Some result }) seat.old seat.new }
    {
        let mut shelf = self.take(rt, seat);
        let next = self.next_at_look(&mut shelf.pool, script, workers, worker);
        self.note(worker, next);
        self.give(seat, shelf, worker, 0, &[], None, Some(next));
        next
    }

    // What a worker does that looks into the pool again.
    fn next_at_look(
        &self,
        pool: &mut Pool,
        script: &Script,
        workers: u32,
        worker: u32,
    ) -> WorkerNext
        requires { pool.old.under_way < 4294967295 }
        ensures { IsNextOrRest script.now workers worker pool.old result pool.new }
    {
        if self.calm.load() {
            self.rest_or_next(pool, script, workers, worker)
        } else {
            pool.next(script, workers, worker)
        }
    }

    // Whether the others end many turns while the worker of this bell lets time pass. The time begins with a turn's end, since one of
    // them may have to wake up first.
    fn are_quick(&self, bell: &Bell) -> bool {
        let start = self.turns.load();
        for _ in 0..PARTS {
            if self.turns.load() != start {
                break;
            }
            bell.pass(PART);
        }
        let start = self.turns.load();
        bell.pass(WATCH);
        self.turns.load().wrapping_sub(start) >= QUICK
    }

    /// The run is given up, for the first cause that is told.
    pub fn give_up<R: Wait>(&self, rt: &R, seat: &mut PoolSeat, halt: Halt)
        requires { IsPoolSeatOf self.now seat.old }
        ensures { (c : PoolCall) × HasCalled c seat.old seat.new × (c.ends ≡ 0) × (c.told ≡ Some halt) × (c.next ≡ None) }
    {
        let mut shelf = self.take(rt, seat);
        shelf.pool.give_up(halt);
        self.give(seat, shelf, 0, 0, &[], Some(halt), None);
        self.ring_all();
    }

    /// Why the run was given up, if it was. Where it was not, and the worker of this seat was told to stop, no token is left, and no worker
    /// owes anything. A pool that was not given back gives the run up, too.
    pub fn into_halt(self, seat: PoolSeat) -> Option<Halt>
        requires { IsPoolSeatOf self seat }
        ensures told { seat.known.view.told ≡ true → IsSome result }
        ensures over { seat.known.view.over ≡ true → IfNone result (IsRunOut self.crew seat.known) }
    {
        let SharedPool {
            lock,
            bells,
            calm,
            turns,
        } = self;
        drop(bells);
        drop(calm);
        drop(turns);
        match lock.close::<Finds>(seat) {
            Some(shelf) => shelf.pool.halt(),
            None => Some(Halt::Unfinished),
        }
    }

    // How many workers are on their way to the pool that may run this executor.
    fn coming_for(&self, script: &Script, workers: u32, on: ExecId) -> usize {
        let mut coming = 0usize;
        for (worker, bell) in self.bells.iter().enumerate() {
            if bell.rest() == Rest::Comes && is_for(script, workers, worker as u32, on) {
                coming = coming.saturating_add(1);
            }
        }
        coming
    }

    // Rings a worker that waits and may run this executor.
    fn ring_for(&self, script: &Script, workers: u32, on: ExecId) {
        for (worker, bell) in self.bells.iter().enumerate() {
            let waits = bell.rest() == Rest::Waits;
            if waits && is_for(script, workers, worker as u32, on) && bell.ring() {
                return;
            }
        }
    }

    fn ring_all(&self) {
        for bell in &self.bells {
            let _waited = bell.ring();
        }
    }
}

// Whether a worker is told to visit this executor.
fn is_visit(next: WorkerNext, on: ExecId) -> bool {
    match next {
        WorkerNext::Visit(visited) => visited == on,
        WorkerNext::Pause | WorkerNext::Rest | WorkerNext::Stop => false,
    }
}
