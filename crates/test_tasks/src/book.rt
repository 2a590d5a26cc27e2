//! Calls on a book.

ghost use Rattle.swift_turn.specs.Body.{IsRunning};

use crate::answers::{tell_jobs, told_events, told_levels, told_priorities};
use crate::done::{TurnDone, done_of};
use crate::jobs::{keep, made, place_of, spend, take};
use crate::scripts::Scripts;
use crate::show;
use std::alloc::Global;
use swift_job::{Job, spend_all};
use swift_tasks::{Book, BookFault};
use swift_turn::Body;
use swift_types::{Env, RootId, TaskId};
use test_support::{CaseFault, Part, Said, Words};

/// A book, and the jobs that it gave and that were not applied. A call that is refused memory is made again.
pub struct Tasks {
    alloc: Global,
    scripts: Scripts,
    book: Book,
    jobs: Vec<Job<Body>>,
    // Those that the call that is being made gave.
    given: Vec<Job<Body>>,
}

impl Tasks {
    /// A book of this script.
    pub fn new(alloc: Global, text: &str) -> Result<Tasks, CaseFault> {
        let scripts = Scripts::read(alloc, text)?;
        let script = scripts.own.clone()?;
        let Ok(book) = Book::new(alloc, script) else {
            return Err(CaseFault::Memory);
        };
        Ok(Tasks {
            alloc,
            scripts,
            book,
            jobs: Vec::new(alloc),
            given: Vec::new(alloc),
        })
    }

    // Makes a call, with what a turn has done, and writes what it answered.
    fn call(&mut self, words: &mut Words<'_>, done: &str, out: &mut Said) -> Result<(), CaseFault> {
        match words.next() {
            "levels" => told_levels(out, self.book.levels()),
            "open_tasks" => out.count("", self.book.open_tasks() as u64),
            "priorities" => return self.priorities(words, out),
            "root" => return self.add_root(RootId(words.number()), out),
            "cancel" => told(out, self.book.cancel(words.task())),
            "ending" => show::ending(out, self.book.ending(words.task())),
            "origin" => show::origin(out, self.book.origin(words.task())),
            call => return self.with_job(call, words, done, out),
        }
        Ok(())
    }

    // A call of a job, which is told by these words.
    fn with_job(
        &mut self,
        call: &str,
        words: &mut Words<'_>,
        done: &str,
        out: &mut Said,
    ) -> Result<(), CaseFault> {
        let (named, how) = (words.task(), words.all());
        match call {
            "begin" => {
                self.begin(named, how, out)?;
                Ok(())
            }
            "apply" => self.apply(named, how, done, out),
            "turn" => self.turn(named, how, done, out),
            _ => Err(CaseFault::Form),
        }
    }

    fn add_root(&mut self, root: RootId, out: &mut Said) -> Result<(), CaseFault> {
        match self.book.add_root(root) {
            Ok(job) => {
                out.put("ok");
                keep(&mut self.given, job)
            }
            Err(fault) => {
                out.value(&fault);
                Ok(())
            }
        }
    }

    // Begins the turn of a job. Whether it has begun.
    fn begin(&mut self, named: TaskId, how: &str, out: &mut Said) -> Result<bool, CaseFault> {
        if how.is_empty() {
            let Some(place) = place_of(&self.jobs, named) else {
                out.put("no job");
                return Ok(false);
            };
            Ok(begun(out, self.book.begin(&self.jobs[place])))
        } else {
            let job = made(&self.scripts, named, how)?;
            let answer = self.book.begin(&job);
            spend(job);
            Ok(begun(out, answer))
        }
    }

    // Begins the turn of a job, and applies it if it has begun.
    fn turn(
        &mut self,
        named: TaskId,
        how: &str,
        done: &str,
        out: &mut Said,
    ) -> Result<(), CaseFault> {
        if !self.begin(named, how, out)? {
            return Ok(());
        }
        out.put(", ");
        self.apply(named, how, done, out)
    }

    // Applies a job.
    fn apply(
        &mut self,
        named: TaskId,
        how: &str,
        done: &str,
        out: &mut Said,
    ) -> Result<(), CaseFault> {
        let done = done_of(self.alloc, &self.scripts.own, done)?;
        if how.is_empty() {
            self.apply_given(named, done, out)
        } else {
            self.apply_made(named, how, done, out)
        }
    }

    // Applies the last job that was given for a task. It stays where that is refused.
    fn apply_given(
        &mut self,
        named: TaskId,
        done: TurnDone,
        out: &mut Said,
    ) -> Result<(), CaseFault> {
        let Some(job) = take(&mut self.jobs, named) else {
            out.put("no job");
            return Ok(());
        };
        match self.applied(job, done, out)? {
            Some(job) => keep(&mut self.jobs, job),
            None => Ok(()),
        }
    }

    // Applies a job that was not given.
    fn apply_made(
        &mut self,
        named: TaskId,
        how: &str,
        done: TurnDone,
        out: &mut Said,
    ) -> Result<(), CaseFault> {
        let job = made(&self.scripts, named, how)?;
        let left = match self.applied(job, done, out)? {
            Some(job) => Some(job),
            // The job that the book gave for this turn is no longer the task's last one.
            None => take(&mut self.jobs, named),
        };
        if let Some(job) = left {
            spend(job);
        }
        Ok(())
    }

    // Applies a job, and writes the answer. It comes back where that is refused.
    fn applied(
        &mut self,
        job: Job<Body>,
        done: TurnDone,
        out: &mut Said,
    ) -> Result<Option<Job<Body>>, CaseFault> {
        if !job.body().is_running() {
            spend(job);
            return Err(CaseFault::Form);
        }
        match apply_again(&mut self.book, job, done, &mut self.given) {
            Ok(()) => {
                out.put("ok");
                Ok(None)
            }
            Err((job, fault)) => {
                out.value(&fault);
                Ok(Some(job))
            }
        }
    }

    fn priorities(&mut self, words: &mut Words<'_>, out: &mut Said) -> Result<(), CaseFault> {
        let mut tasks: Vec<TaskId> = Vec::new(self.alloc);
        for word in words.all().split_terminator(' ') {
            tasks.push(TaskId(words.number_of(word)))?;
        }
        told_priorities(out, &tasks, self.book.levels());
        Ok(())
    }

    /// Closes the book, and writes how many events it had, and the jobs of the tasks that wait.
    pub fn close(self, out: &mut Said) {
        let Tasks {
            alloc: _,
            scripts,
            book,
            jobs,
            given,
        } = self;
        let (log, waiting) = book.close();
        out.count("closed: ", log.len() as u64);
        out.count(" events, ", jobs.len() as u64);
        out.put(" jobs not applied");
        tell_jobs(out, &scripts.own, &waiting);
        spend_all(waiting);
        spend_all(jobs);
        spend_all(given);
    }
}

impl Part for Tasks {
    // A call, with what a turn has done behind a semicolon, and each event and job that follow.
    fn answer(
        &mut self,
        _alloc: Global,
        words: &mut Words<'_>,
        out: &mut Said,
    ) -> Result<(), CaseFault> {
        let is_quiet = words.has("quiet");
        let text = words.all();
        let (head, done) = text.split_once("; ").unwrap_or((text, ""));
        let mut head = Words::new(head);
        let events = self.book.log().len();
        self.call(&mut head, done, out)?;
        if !head.are_right() {
            words.refuse();
        }
        if !is_quiet {
            told_events(out, self.book.log(), events);
            tell_jobs(out, &self.scripts.own, &self.given);
        }
        Ok(self.jobs.append(&mut self.given)?)
    }
}

// Writes what a turn that has begun is given. Whether it has begun.
fn begun(out: &mut Said, answer: Result<Env, BookFault>) -> bool {
    match answer {
        Ok(env) => {
            show::env(out, env);
            true
        }
        Err(fault) => {
            out.value(&fault);
            false
        }
    }
}

// Writes whether a call was refused, and why.
fn told(out: &mut Said, answer: Result<(), BookFault>) {
    match answer {
        Ok(()) => out.put("ok"),
        Err(fault) => out.value(&fault),
    }
}

// Applies a job, again where that is refused memory. It comes back where it is refused.
fn apply_again(
    book: &mut Book,
    job: Job<Body>,
    done: TurnDone,
    given: &mut Vec<Job<Body>>,
) -> Result<(), (Job<Body>, BookFault)>
    requires { IsRunning job.body }
{
    let TurnDone { effects, exit } = done;
    let applied = match book.apply(job, &exit, effects, given) {
        Err((job, effects, BookFault::Memory)) => book.apply(job, &exit, effects, given),
        applied => applied,
    };
    match applied {
        Ok(()) => Ok(()),
        Err((job, _effects, fault)) => Err((job, fault)),
    }
}
