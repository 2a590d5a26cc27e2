//! A book, with the right to open its executors and to add its roots.

ghost use Rattle.std.specs.Prelude.{◌≡◌, IfOk, Some};
ghost use Rattle.std.specs.Arc.{arc_value};
ghost use Rattle.swift_executor.specs.Inbox.{new_pass, new_taker};

use crate::desks::door::Door;
use crate::desks::owned::BookOf;
use std::alloc::{AllocError, Global};
use std::marker::Model;
use std::sync::{Arc, Wait};
use swift_executor::Exec;
use swift_executor::inbox::{ExecutorSite, Inbox, Pass, Taker};
use swift_job::spend_all;
use swift_script::Script;
use swift_shared_book::{BookLock, BookSeat, TicketedJob, TicketedJobs};
use swift_tasks::{Book, BookFault};
use swift_types::{Ending, ExecId, RootId, TaskId};
use test_support::CaseFault;

/// A book as threads share it, with its script and the seat that opens accounts and adds roots, and how many of both there are. In a
/// clause it is its lock.
pub struct Booked {
    script: Arc<Script>,
    lock: Arc<BookLock>,
    seat: BookSeat,
    executors: usize,
    roots: usize,
}

impl Drop for Booked {
    fn drop(self) {
        let Booked {
            script,
            lock,
            seat,
            executors: _,
            roots: _,
        } = self;
        drop(seat);
        drop(lock);
        drop(script);
    }
}

impl Model for Booked {
    ghost use Rattle.std.specs.Prelude.{◌≡◌, Some};
    ghost use Rattle.std.specs.Arc.{arc_value};
    ghost use Rattle.std.specs.Coded.{codes};
    ghost use Rattle.atomic_table.specs.Seated.{TableId};
    ghost use Rattle.swift_shared_book.specs.Shared.{IsSeatOf};

    ghost Value = { TableId };

    ghost coded = { Prim.hlevel codes };

    ghost view = { λ b. (arc_value b.lock).id };

    ghost invariant = { λ b. IsSeatOf (arc_value b.lock) b.seat × ((arc_value b.lock).script ≡ arc_value b.script) × (b.seat.knows.maker ≡ Some (record { executors = b.executors; roots = b.roots })) };
}

impl Booked {
    /// A book without tasks.
    pub fn new(alloc: Global, script: Arc<Script>) -> Result<Booked, CaseFault> {
        let Ok(book) = Book::new(alloc, Arc::clone(&script)?) else {
            return Err(CaseFault::Memory);
        };
        match BookLock::new(alloc, book) {
            Ok((lock, seat)) => {
                let Ok(lock) = Arc::new(alloc, lock) else {
                    return Err(CaseFault::Memory);
                };
                Ok(Booked {
                    script,
                    lock,
                    seat,
                    executors: 0,
                    roots: 0,
                })
            }
            Err((book, AllocError)) => {
                let (_log, jobs) = book.close();
                spend_all(jobs);
                Err(CaseFault::Memory)
            }
        }
    }

    /// The next executor of the script, made for `workers` workers and with this room, and its first desk. 0 workers are made 1, and
    /// so is a room of 0. A refusal is `Memory`, after which no executor can be opened, or `Form`, where the script has no more.
    pub fn open<K: BookOf>(
        &mut self,
        alloc: Global,
        workers: u32,
        room: usize,
    ) -> Result<Door<K>, CaseFault>
        requires { Some self.old ≡ K.lock }
        ensures { self.new ≡ self.old }
    {
        if self.executors >= self.script.executor_count() {
            return Err(CaseFault::Form);
        }
        let Ok(number) = u32::try_from(self.executors) else {
            return Err(CaseFault::Form);
        };
        let script = Arc::clone(&self.script)?;
        let lock = Arc::clone(&self.lock)?;
        let account = self.lock.open_account(&mut self.seat);
        self.executors += 1;
        let (workers, room) = (workers.max(1), room.max(1));
        let (exec, desk) = Exec::new(alloc, script, ExecId(number), workers, room, account)?;
        let exec = Arc::new(alloc, exec)?;
        Ok(Door::new(exec, desk, lock))
    }

    /// An inbox for the jobs of this book that run at an executor of its script, with its first pass and its taker. A refusal is `Memory`,
    /// or `Form`, where it has room for nothing.
    pub fn inbox(
        &self,
        alloc: Global,
        executor: ExecId,
        room: usize,
    ) -> Result<(Inbox, Pass, Taker), CaseFault>
        ensures pass { IfOk result (λ r. r.1 ≡ new_pass r.0) }
        ensures taker { IfOk result (λ r. r.2 ≡ new_taker r.0) }
        ensures book { IfOk result (λ r. r.0.site.book ≡ Some self.now) }
    {
        if room == 0 {
            return Err(CaseFault::Form);
        }
        let script = Arc::clone(&self.script)?;
        let site = ExecutorSite::of_book(script, executor, self.seat.name());
        Ok(Inbox::new(alloc, site, room)?)
    }

    /// The lock of the book.
    pub fn book(&self) -> &BookLock
        ensures { result.now.id ≡ self.now }
    {
        &self.lock
    }

    /// No jobs of this book.
    pub fn no_jobs(&mut self, alloc: Global) -> TicketedJobs
        ensures jobs { result.book ≡ self.old }
        ensures same { self.new ≡ self.old }
    {
        self.lock.no_jobs(alloc, &mut self.seat)
    }

    /// Adds a root, and its job to these. A refusal is `Memory`, and nothing has changed then; or `Form`, where it is not the next
    /// root of the script.
    pub fn add_root<R: Wait>(
        &mut self,
        rt: &R,
        root: u32,
        jobs: &mut TicketedJobs,
    ) -> Result<(), CaseFault>
        requires { jobs.old.book ≡ self.old }
        ensures jobs { jobs.new.book ≡ jobs.old.book }
        ensures same { self.new ≡ self.old }
    {
        if root as usize != self.roots {
            return Err(CaseFault::Form);
        }
        match self.lock.add_root(rt, &mut self.seat, RootId(root), jobs) {
            Ok(()) => {
                self.roots += 1;
                Ok(())
            }
            Err(BookFault::Memory) => Err(CaseFault::Memory),
            Err(_) => Err(CaseFault::Form),
        }
    }

    /// Adds the next root: its job. A refusal is that of `add_root`.
    pub fn next_job<R: Wait>(&mut self, rt: &R, alloc: Global) -> Result<TicketedJob, CaseFault>
        ensures job { IfOk result (λ t. t.book ≡ Some self.old) }
        ensures same { self.new ≡ self.old }
    {
        let Ok(root) = u32::try_from(self.roots) else {
            return Err(CaseFault::Form);
        };
        let mut jobs = self.no_jobs(alloc);
        self.add_root(rt, root, &mut jobs)?;
        match jobs.take_first(&self.lock) {
            Some(job) => Ok(job),
            None => Err(CaseFault::Form),
        }
    }

    /// How a task has ended.
    pub fn ending<R: Wait>(&mut self, rt: &R, task: u32) -> Option<Ending>
        ensures { self.new ≡ self.old }
    {
        let open = self.lock.lock(rt, &mut self.seat);
        let ending = open.book.ending(TaskId(task));
        self.lock.leave(&mut self.seat, open);
        ending
    }
}
