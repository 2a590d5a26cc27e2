//! The tokens of executors that have jobs.

ghost use Rattle.std.specs.Prelude.{◌≡◌, ◌≢◌, ◌-◌, ◌≤◌, ◌<◌, ◌++◌, ◌∷◌, ◌↔◌, [], All, None, Some, IfNone, IfSome, IsSomeAnd, IsTrue, OnOk, OnErr, length, slice_get, take};
ghost use Rattle.swift_workers.specs.Pools.{IsCauseOf, MayVisit, or_else};
ghost use Rattle.swift_workers.specs.PoolsInside.{HasEnded, IsNext, IsTakenFromPool};

use crate::fault::Halt;
use std::alloc::{AllocError, Global};
use std::collections::VecDeque;
use swift_executor::may_run;
use swift_script::Script;
use swift_types::ExecId;

/// The tokens of a run, as one worker at a time sees them (our own).
#[derive(Drop)]
pub struct Pool {
    // The executors that have jobs and that no worker visits, the oldest token first.
    tokens: VecDeque<ExecId>,
    // How many workers are between taking a token and having sent what came of it.
    under_way: u32,
    // Why the run is given up.
    halt: Option<Halt>,
}

/// How a turn has ended: how many of its tokens were put, and the cause that it told for giving the run up.
#[derive(Clone, Copy)]
pub struct Ended {
    pub put: usize,
    pub told: Option<Halt>,
}

/// What a worker does next.
#[derive(Clone, Copy)]
pub enum WorkerNext {
    /// It visits this executor, whose token it has taken.
    Visit(ExecId),
    /// No token is one that it may run, but a token is left or a worker is under way.
    Pause,
    /// Tokens are left, and another worker will see to each of them. A pool alone never says so.
    Rest,
    Stop,
}

/// Whether an executor is one that this worker may run.
pub fn is_for(script: &Script, workers: u32, worker: u32, on: ExecId) -> bool
    ensures { IsTrue result ↔ MayVisit script.now workers worker on }
{
    workers > 0 && may_run(script.executor_kind(on), workers, worker)
}

// The place of the oldest token that this worker may run.
fn place_for(tokens: &VecDeque<ExecId>, script: &Script, workers: u32, worker: u32) -> Option<usize>
    ensures none { IfNone result (All (λ t. MayVisit script.now workers worker t → ⊥) tokens.now.items) }
    ensures within { IfSome result (λ place. place < length tokens.now.items) }
    ensures here { IfSome result (λ place. IsSomeAnd (slice_get tokens.now.items place) (MayVisit script.now workers worker)) }
    ensures before { IfSome result (λ place. All (λ t. MayVisit script.now workers worker t → ⊥) (take place tokens.now.items)) }
{
    for place in 0..tokens.len() {
        if is_for(script, workers, worker, tokens[place]) {
            return Some(place);
        }
    }
    None
}

// Whether each token is one that this worker may run.
fn are_for(tokens: &VecDeque<ExecId>, script: &Script, workers: u32, worker: u32) -> bool
    ensures { IsTrue result → All (MayVisit script.now workers worker) tokens.now.items }
{
    for k in 0..tokens.len() {
        if !is_for(script, workers, worker, tokens[k]) {
            return false;
        }
    }
    true
}

// Whether the oldest token is one that this worker may run.
fn is_first_for(tokens: &VecDeque<ExecId>, script: &Script, workers: u32, worker: u32) -> bool
    ensures { IsTrue result → IsSomeAnd (slice_get tokens.now.items 0) (MayVisit script.now workers worker) }
{
    match tokens.front() {
        Some(on) => is_for(script, workers, worker, *on),
        None => false,
    }
}

// Why a turn gives the run up: its own cause, or else that a token was refused memory.
fn cause_of(done: Result<(), Halt>, is_cut_short: bool) -> Option<Halt>
    ensures { IsCauseOf done is_cut_short result }
{
    match done {
        Err(halt) => Some(halt),
        Ok(()) if is_cut_short => Some(Halt::Memory),
        Ok(()) => None,
    }
}

impl Pool {
    /// No token. One worker is under way, with the roots.
    pub fn new(alloc: Global) -> Pool
        ensures tokens { result.tokens.items ≡ [] }
        ensures under_way { result.under_way ≡ 1 }
        ensures halt { result.halt ≡ None }
    {
        Pool {
            tokens: VecDeque::new(alloc),
            under_way: 1,
            halt: None,
        }
    }

    // Takes the token at this place.
    fn take(&mut self, place: usize) -> ExecId
        requires place { place < length self.old.tokens.items }
        requires room { self.old.under_way < 4294967295 }
        ensures { IsTakenFromPool self.old place result self.new }
    {
        self.under_way += 1;
        let taken = if place == 0 {
            self.tokens.pop_front()
        } else {
            self.tokens.remove(place)
        };
        match taken {
            Some(on) => on,
            None => unreachable!(),
        }
    }

    /// Takes the oldest token that this worker may run.
    pub fn next(&mut self, script: &Script, workers: u32, worker: u32) -> WorkerNext
        requires { self.old.under_way < 4294967295 }
        ensures { IsNext (MayVisit script.now workers worker) self.old result self.new }
    {
        if self.halt.is_some() {
            return WorkerNext::Stop;
        }
        // Nearly always so.
        if is_first_for(&self.tokens, script, workers, worker) {
            return WorkerNext::Visit(self.take(0));
        }
        self.next_by_place(script, workers, worker)
    }

    // Takes the oldest token that this worker may run, where the run is not given up, by a look at each token.
    #[inline(never)]
    fn next_by_place(&mut self, script: &Script, workers: u32, worker: u32) -> WorkerNext
        requires halt { self.old.halt ≡ None }
        requires room { self.old.under_way < 4294967295 }
        ensures { IsNext (MayVisit script.now workers worker) self.old result self.new }
    {
        if let Some(place) = place_for(&self.tokens, script, workers, worker) {
            return WorkerNext::Visit(self.take(place));
        }
        if self.tokens.is_empty() && self.under_way == 0 {
            WorkerNext::Stop
        } else {
            WorkerNext::Pause
        }
    }

    /// Whether there are tokens, this worker may run the executor of each, and the run is not given up.
    pub fn is_all_for(&self, script: &Script, workers: u32, worker: u32) -> bool
        ensures halt { IsTrue result → self.now.halt ≡ None }
        ensures some { IsTrue result → self.now.tokens.items ≢ [] }
        ensures all { IsTrue result → All (MayVisit script.now workers worker) self.now.tokens.items }
    {
        if self.halt.is_some() {
            return false;
        }
        if self.tokens.is_empty() {
            return false;
        }
        are_for(&self.tokens, script, workers, worker)
    }

    /// How many tokens there are.
    pub fn token_count(&self) -> usize
        ensures { result ≡ length self.now.tokens.items }
    {
        self.tokens.len()
    }

    /// Puts a token behind the others. After an error there is none more.
    pub fn put(&mut self, on: ExecId) -> Result<(), AllocError>
        ensures ok { OnOk result (self.new.tokens.items ≡ self.old.tokens.items ++ on ∷ []) }
        ensures err { OnErr result (self.new.tokens.items ≡ self.old.tokens.items) }
        ensures under_way { self.new.under_way ≡ self.old.under_way }
        ensures halt { self.new.halt ≡ self.old.halt }
    {
        self.tokens.push_back(on)?;
        Ok(())
    }

    // Puts these tokens behind the others, in order, and says how many: where one is refused memory, none that comes after it is put.
    fn put_all(&mut self, tokens: &[ExecId]) -> usize
        ensures within { result ≤ length tokens.now }
        ensures tokens { self.new.tokens.items ≡ self.old.tokens.items ++ take result tokens.now }
        ensures under_way { self.new.under_way ≡ self.old.under_way }
        ensures halt { self.new.halt ≡ self.old.halt }
    {
        for put in 0..tokens.len() {
            if self.put(tokens[put]).is_err() {
                return put;
            }
        }
        tokens.len()
    }

    /// A worker has finished what followed from its token, and these tokens go behind the others. Where it was refused, or one of them was
    /// refused memory, the run is given up. It says how many were put, and the cause.
    pub fn end_turn(&mut self, tokens: &[ExecId], done: Result<(), Halt>) -> Ended
        ensures { HasEnded self.old tokens.now done result self.new }
    {
        self.under_way = self.under_way.saturating_sub(1);
        let put = self.put_all(tokens);
        let told = cause_of(done, put < tokens.len());
        if let Some(halt) = told {
            self.give_up(halt);
        }
        Ended { put, told }
    }

    /// The run is given up, for the first cause that is told.
    pub fn give_up(&mut self, halt: Halt)
        ensures tokens { self.new.tokens.items ≡ self.old.tokens.items }
        ensures under_way { self.new.under_way ≡ self.old.under_way }
        ensures halt { self.new.halt ≡ or_else self.old.halt (Some halt) }
    {
        if self.halt.is_none() {
            self.halt = Some(halt);
        }
    }

    /// Why the run was given up, if it was.
    pub fn halt(&self) -> Option<Halt>
        ensures { result ≡ self.now.halt }
    {
        self.halt
    }
}
