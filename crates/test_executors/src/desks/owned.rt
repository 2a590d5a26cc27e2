//! What is of one book, by its type.

ghost use Rattle.std.specs.Prelude.{◌≡◌, Some};

use crate::desks::booked::Booked;
use crate::desks::door::Door;
use std::alloc::Global;
use std::marker::{Brand, Model, PhantomData};
use std::sync::Wait;
use swift_job::Job;
use swift_shared_book::{TicketedJob, TicketedJobs};
use swift_turn::Body;
use swift_types::{Ending, TaskId};
use test_support::CaseFault;

/// The book of a case, by a type. Proofs alone see it: of a value under a lock only its type is known, and so it is known that the
/// executors and the jobs of a case are of one book.
pub trait BookOf {
    ghost use Rattle.std.specs.Prelude.{Option};
    ghost use Rattle.atomic_table.specs.Seated.{TableId};

    ghost lock: { Option TableId };
}

impl BookOf for Brand {
    ghost use Rattle.std.specs.Prelude.{None};

    ghost lock = { None };
}

/// A job of this book.
pub struct OwnJob<K: BookOf> {
    job: TicketedJob,
    of: PhantomData<K>,
}

impl<K: BookOf> Drop for OwnJob<K> {
    fn drop(self) {
        let OwnJob { job, of: _ } = self;
        drop(job);
    }
}

impl<K: BookOf> Model for OwnJob<K> {
    ghost use Rattle.std.specs.Prelude.{◌≡◌};

    ghost Value = { Unit {0} };

    ghost view = { λ _. tt };

    ghost invariant = { λ j. j.job.book ≡ K.lock };
}

impl<K: BookOf> OwnJob<K> {
    /// A job of this book.
    pub fn new(job: TicketedJob) -> OwnJob<K>
        requires { job.book ≡ K.lock }
    {
        OwnJob {
            job,
            of: PhantomData,
        }
    }

    /// The task whose turn it is.
    pub fn task(&self) -> TaskId {
        self.job.job().task()
    }

    /// The turn's number among the turns of its task.
    pub fn number(&self) -> u32 {
        self.job.job().number()
    }

    /// The job.
    pub fn job(&self) -> &Job<Body> {
        self.job.job()
    }

    /// The job with its ticket.
    pub fn into_job(self) -> TicketedJob
        ensures { result.book ≡ K.lock }
    {
        let OwnJob { job, of: _ } = self;
        job
    }
}

/// This book.
pub struct OwnBooked<K: BookOf> {
    booked: Booked,
    of: PhantomData<K>,
}

impl<K: BookOf> Drop for OwnBooked<K> {
    fn drop(self) {
        let OwnBooked { booked, of: _ } = self;
        drop(booked);
    }
}

impl<K: BookOf> Model for OwnBooked<K> {
    ghost use Rattle.std.specs.Prelude.{◌≡◌, Some};

    ghost Value = { Unit {0} };

    ghost view = { λ _. tt };

    ghost invariant = { λ b. Some b.booked ≡ K.lock };
}

impl<K: BookOf> OwnBooked<K> {
    /// This book.
    pub fn new(booked: Booked) -> OwnBooked<K>
        requires { Some booked ≡ K.lock }
    {
        OwnBooked {
            booked,
            of: PhantomData,
        }
    }

    /// The next executor (`Booked::open`).
    pub fn open(&mut self, alloc: Global, workers: u32, room: usize) -> Result<Door<K>, CaseFault> {
        self.booked.open(alloc, workers, room)
    }

    /// No jobs of this book.
    pub fn no_jobs(&mut self, alloc: Global) -> TicketedJobs
        ensures { Some result.book ≡ K.lock }
    {
        self.booked.no_jobs(alloc)
    }

    /// Adds a root, and its job to these (`Booked::add_root`).
    pub fn add_root<R: Wait>(
        &mut self,
        rt: &R,
        root: u32,
        jobs: &mut TicketedJobs,
    ) -> Result<(), CaseFault>
        requires { Some jobs.old.book ≡ K.lock }
        ensures { jobs.new.book ≡ jobs.old.book }
    {
        self.booked.add_root(rt, root, jobs)
    }

    /// Takes the oldest of these jobs out.
    pub fn take_first(&self, jobs: &mut TicketedJobs) -> Option<OwnJob<K>>
        requires { Some jobs.old.book ≡ K.lock }
    {
        let job = jobs.take_first(self.booked.book())?;
        Some(OwnJob::new(job))
    }

    /// How a task has ended.
    pub fn ending<R: Wait>(&mut self, rt: &R, task: u32) -> Option<Ending> {
        self.booked.ending(rt, task)
    }
}
