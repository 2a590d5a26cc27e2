//! An executor, with a right to use it.

ghost use Rattle.std.specs.Prelude.{IsTrue, ◌≡◌, Some, IfSome};
ghost use Rattle.std.specs.Arc.{arc_value};
ghost use Rattle.swift_executor.specs.Site.{CanRunAt};
ghost use Rattle.swift_executor.specs.Exec.{IsBookOf, IsDeskOf};

use crate::desks::owned::{BookOf, OwnJob};
use crate::desks::poller::Poller;
use std::alloc::AllocError;
use std::marker::{Model, PhantomData};
use std::sync::{Arc, Wait};
use swift_executor::inbox::ExecutorSite;
use swift_executor::{Desk, Exec, ExecFault, Gate, LookOutcome, Onlooker, VisitOutcome};
use swift_shared_book::{BookLock, TicketedJob, TicketedJobs};
use swift_word::BeforeCount;

/// An executor, with one of its desks and its book, which is known by the type.
pub struct Door<K: BookOf> {
    exec: Arc<Exec>,
    desk: Desk,
    book: Arc<BookLock>,
    of: PhantomData<K>,
}

impl<K: BookOf> Drop for Door<K> {
    fn drop(self) {
        let Door {
            exec,
            desk,
            book,
            of: _,
        } = self;
        drop(desk);
        drop(exec);
        drop(book);
    }
}

impl<K: BookOf> Model for Door<K> {
    ghost use Rattle.std.specs.Prelude.{◌≡◌, Some};
    ghost use Rattle.std.specs.Arc.{arc_value};
    ghost use Rattle.swift_executor.specs.Exec.{IsBookOf, IsDeskOf};

    ghost Value = { Unit {0} };

    ghost view = { λ _. tt };

    ghost invariant = { λ d. IsDeskOf (arc_value d.exec) d.desk × IsBookOf (arc_value d.exec) (arc_value d.book) × (Some (arc_value d.book).id ≡ K.lock) };
}

/// Whether a job of its book can run at an executor: its body is of that script and has not ended, and its running frame is of an actor of
/// that executor.
pub(crate) fn can_run(site: &ExecutorSite, job: &TicketedJob) -> bool
    requires { job.now.book ≡ site.now.book }
    ensures { IsTrue result → CanRunAt site.now job.now }
{
    let (script, body) = (site.script(), job.job().body());
    script.says_the_same(body.script())
        && body.is_running()
        && script.actor_executor(body.actor()) == site.executor()
}

impl<K: BookOf> Door<K> {
    /// An executor, with a desk of it, and its book.
    pub fn new(exec: Arc<Exec>, desk: Desk, book: Arc<BookLock>) -> Door<K>
        requires desk { IsDeskOf (arc_value exec) desk }
        requires book { IsBookOf (arc_value exec) (arc_value book) }
        requires lock { Some (arc_value book).id ≡ K.lock }
    {
        Door {
            exec,
            desk,
            book,
            of: PhantomData,
        }
    }

    /// Another desk of the same executor.
    pub fn split(&mut self) -> Result<Door<K>, AllocError> {
        let exec = Arc::clone(&self.exec)?;
        let book = Arc::clone(&self.book)?;
        let desk = self.desk.split(&exec);
        Ok(Door {
            exec,
            desk,
            book,
            of: PhantomData,
        })
    }

    /// How many jobs may still be sent by it.
    pub fn allowance(&self) -> u64 {
        self.desk.allowance()
    }

    /// Sends a job. It comes back where it can't run there, and then with no fault, or was refused.
    pub fn enqueue<R: Wait, G: Gate>(
        &mut self,
        rt: &R,
        job: OwnJob<K>,
        gate: &G,
    ) -> Result<BeforeCount, (OwnJob<K>, Option<ExecFault>)> {
        let job = job.into_job();
        if !can_run(self.exec.site(), &job) {
            return Err((OwnJob::new(job), None));
        }
        match self.exec.enqueue(rt, &mut self.desk, job, gate) {
            Ok(was) => Ok(was),
            Err((job, fault)) => Err((OwnJob::new(job), Some(fault))),
        }
    }

    /// A visit of a worker, which runs one turn at most. The jobs that it makes come behind these, which are of its book.
    pub fn run<R: Wait, G: Gate>(
        &mut self,
        rt: &R,
        worker: u32,
        poller: &Poller,
        jobs: &mut TicketedJobs,
        gate: &G,
    ) -> Result<VisitOutcome, ExecFault>
        requires { Some jobs.old.book ≡ K.lock }
        ensures { jobs.new.book ≡ jobs.old.book }
    {
        let mut cx = poller.solo.begin();
        let desk = &mut self.desk;
        let ran = self
            .exec
            .run_some(rt, desk, worker, 1, &self.book, &mut cx, jobs, gate);
        cx.cancel();
        ran
    }

    /// Shows the executor to an onlooker.
    pub fn look<R: Wait, L: Onlooker>(&mut self, rt: &R, onlooker: &mut L) -> LookOutcome {
        self.exec.look(rt, &mut self.desk, &self.book, onlooker)
    }

    /// Takes the jobs out of a list, the oldest first, and puts them behind these. Where there is no memory for the place of one, it is
    /// spent.
    pub fn take_all(&self, mut jobs: TicketedJobs, list: &mut Vec<OwnJob<K>>)
        requires { Some jobs.book ≡ K.lock }
    {
        'taking: for _ in 0..jobs.len() {
            let Some(job) = jobs.take_first(&self.book) else {
                return;
            };
            let _ = list.push(OwnJob::new(job));
        }
    }

    /// The executor and the desk, where no other desk of it is left.
    pub fn into_exec(self) -> Option<(Exec, Desk)>
        ensures { IfSome result (λ r. IsDeskOf r.0 r.1) }
    {
        let Door {
            exec,
            desk,
            book: _,
            of: _,
        } = self;
        let exec = Arc::into_inner(exec)?;
        Some((exec, desk))
    }
}
