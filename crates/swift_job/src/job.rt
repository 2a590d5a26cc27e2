//! A job: one turn of a task that is still to be run.

ghost use Rattle.std.specs.Prelude.{◌≡◌};

use std::marker::Model;
use swift_types::{Resume, TaskId};

/// One turn of a task that is still to be run (SE-0392 speaks of such jobs; that they must be spent is our own).
///
/// It can be neither cloned nor dropped: whoever holds it hands it on, or gives it up by `spend`. So each job that was
/// made is spent at most once and cannot be lost unseen; that only one is made of a turn is for its maker. In a clause
/// a job is the record of its four parts, `job.task`, `job.number`, `job.resume` and `job.body`.
pub struct Job<B> {
    task: TaskId,
    number: u32,
    resume: Resume,
    body: B,
}

impl<B> Model for Job<B> {
    ghost use Rattle.swift_job.specs.Job.{JobView};

    ghost Value = { JobView B };

    ghost view = { λ j. record { task = j.task; number = j.number; resume = j.resume; body = j.body } };
}

impl<B> Job<B> {
    /// The job of a task's turn of this number, with what the turn begins with and the body that runs it.
    pub fn new(task: TaskId, number: u32, resume: Resume, body: B) -> Job<B>
        ensures { result ≡ record { task = task; number = number; resume = resume; body = body } }
    {
        Job {
            task,
            number,
            resume,
            body,
        }
    }

    /// The task whose turn it is.
    pub fn task(&self) -> TaskId
        ensures { result ≡ self.now.task }
    {
        self.task
    }

    /// The turn's number among the turns of its task, from 0.
    pub fn number(&self) -> u32
        ensures { result ≡ self.now.number }
    {
        self.number
    }

    /// What the turn begins with.
    pub fn resume(&self) -> Resume
        ensures { result ≡ self.now.resume }
    {
        self.resume
    }

    /// What runs the turn.
    pub fn body(&self) -> &B
        ensures { result.now ≡ self.now.body }
    {
        &self.body
    }

    /// Gives the job up for its parts: task, number, resume and body.
    pub fn spend(self) -> (TaskId, u32, Resume, B)
        ensures { result ≡ (self.task, self.number, self.resume, self.body) }
    {
        let Job {
            task,
            number,
            resume,
            body,
        } = self;
        (task, number, resume, body)
    }
}

/// Spends these jobs, and drops what would have run them.
pub fn spend_all<B: Drop>(mut jobs: Vec<Job<B>>) {
    while let Some(job) = jobs.pop() {
        let (_task, _number, _resume, _body) = job.spend();
    }
    jobs.destroy_empty();
}
