//! Jobs that were given, and jobs that were not.

ghost use Rattle.std.specs.Prelude.{◌<◌, IfSome, length};

use crate::scripts::Scripts;
use std::alloc::AllocFailed;
use swift_job::Job;
use swift_turn::Body;
use swift_types::TaskId;
use test_support::{CaseFault, Words};

/// Gives a job up.
pub fn spend(job: Job<Body>) {
    let (_task, _number, _resume, _body) = job.spend();
}

/// The place of the job of a task.
pub fn place_of(jobs: &[Job<Body>], task: TaskId) -> Option<usize>
    ensures { IfSome result (λ place. place < length jobs.now) }
{
    for (place, job) in jobs.iter().enumerate() {
        if job.task() == task {
            return Some(place);
        }
    }
    None
}

/// Takes the job of a task out.
pub fn take(jobs: &mut Vec<Job<Body>>, task: TaskId) -> Option<Job<Body>> {
    let place = place_of(jobs, task)?;
    Some(jobs.swap_remove(place))
}

/// Adds a job. Where there is no memory for its place, it is given up.
pub fn keep(jobs: &mut Vec<Job<Body>>, job: Job<Body>) -> Result<(), CaseFault> {
    match jobs.push(job) {
        Ok(()) => Ok(()),
        Err(AllocFailed { value }) => {
            spend(value);
            Err(CaseFault::Memory)
        }
    }
}

/// A job that was not given by a book, by the words after its task: `as NUMBER RESUME`, with `of WHICH` for one of another script.
pub fn made(scripts: &Scripts, named: TaskId, how: &str) -> Result<Job<Body>, CaseFault> {
    let mut words = Words::new(how);
    if !words.has("as") {
        return Err(CaseFault::Form);
    }
    let (turn, resume) = (words.number(), words.resume());
    let which = if words.has("of") {
        Some(words.next())
    } else {
        None
    };
    if !words.are_right() {
        return Err(CaseFault::Form);
    }
    let body = scripts.body_of(which)?;
    Ok(Job::new(named, turn, resume, body))
}
