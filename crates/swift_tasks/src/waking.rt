//! Which tasks go on after a turn.

ghost use Rattle.std.specs.Prelude.{◌≡◌, ◌+◌, ◌<◌, ◌≤◌, [], ◌∷◌, ◌++◌, Some, None, length, slice_set, vec_len, vec_capacity};
ghost use Rattle.std.specs.List.{AllByRecursion};
ghost use Rattle.swift_script.specs.Scripts.{ScriptView};
ghost use Rattle.swift_groups.specs.Close.{close_of};
ghost use Rattle.swift_turn.specs.Body.{IsRunning, GoesOn, at_rest};
ghost use Rattle.swift_events.specs.Lives.{life_of};
ghost use Rattle.swift_events.specs.Relations.{waiters_of, group_of, parent_of};
ghost use Rattle.swift_history.specs.TurnEnds.{wake, wake_each, wake_closing, wake_owner, wake_parent, wake_all, resume_at, followed};
ghost use Rattle.swift_tasks.specs.ApplyingInside.{follows_of};
ghost use Rattle.swift_tasks.specs.BookInvariant.{FitsScript};
ghost use Rattle.swift_tasks.specs.Books.{IsJobOf};

use crate::exits::{resume_at, resume_of};
use crate::held::WaitingTask;
use swift_events::{JobStage, Origin};
use swift_groups::Close;
use swift_job::Job;
use swift_ledger::Ledger;
use swift_turn::{Body, Step};
use swift_types::{Ending, Resume, TaskId};

// A task that waits goes on with this, and waits no more.
fn wake(held: &mut [Option<WaitingTask>], jobs: &mut Vec<Job<Body>>, task: TaskId, resume: Resume)
    requires room { vec_len jobs.old < vec_capacity jobs.old }
    ensures follows { follows_of held.new jobs.new.items ≡ wake task.0 resume (follows_of held.old jobs.old.items) }
    ensures bodies { (script : ScriptView) → AllByRecursion (FitsScript script) held.old
        → AllByRecursion (FitsScript script) held.new × (AllByRecursion (IsJobOf script) jobs.old.items → AllByRecursion (IsJobOf script) jobs.new.items) }
    ensures few { vec_len jobs.new ≤ vec_len jobs.old + 1 }
    ensures capacity { vec_capacity jobs.new ≡ vec_capacity jobs.old }
{
    let place = task.0 as usize;
    if place < held.len() {
        if let Some(WaitingTask { number, body }) = held[place].take() {
            let resume = resume_at(number, resume);
            jobs.push_reserved(Job::new(task, number, resume, body));
        }
    }
}

// The waiters of a task go on with this, in order of waiting.
fn wake_waiters(
    ledger: &Ledger,
    held: &mut [Option<WaitingTask>],
    jobs: &mut Vec<Job<Body>>,
    task: TaskId,
    resume: Resume,
)
    requires room { vec_len jobs.old + length (waiters_of task.0 ledger.now.log) ≤ vec_capacity jobs.old }
    ensures follows { follows_of held.new jobs.new.items ≡ wake_each (waiters_of task.0 ledger.now.log) resume (follows_of held.old jobs.old.items) }
    ensures bodies { (script : ScriptView) → AllByRecursion (FitsScript script) held.old
        → AllByRecursion (FitsScript script) held.new × (AllByRecursion (IsJobOf script) jobs.old.items → AllByRecursion (IsJobOf script) jobs.new.items) }
    ensures few { vec_len jobs.new ≤ vec_len jobs.old + length (waiters_of task.0 ledger.now.log) }
    ensures capacity { vec_capacity jobs.new ≡ vec_capacity jobs.old }
{
    let mut place = 0;
    'wake: while let Some(waiter) = ledger.waiter(task, place) {
        wake(held, jobs, waiter, resume);
        place += 1;
    }
}

// The owner that closes a group goes on, where each child has ended.
fn wake_closing(
    ledger: &Ledger,
    held: &mut [Option<WaitingTask>],
    jobs: &mut Vec<Job<Body>>,
    owner: TaskId,
    group: u32,
)
    requires room { vec_len jobs.old < vec_capacity jobs.old }
    ensures follows { follows_of held.new jobs.new.items ≡ wake_closing owner.0 (close_of (group_of owner.0 group ledger.now.log)) (follows_of held.old jobs.old.items) }
    ensures bodies { (script : ScriptView) → AllByRecursion (FitsScript script) held.old
        → AllByRecursion (FitsScript script) held.new × (AllByRecursion (IsJobOf script) jobs.old.items → AllByRecursion (IsJobOf script) jobs.new.items) }
    ensures few { vec_len jobs.new ≤ vec_len jobs.old + 1 }
    ensures capacity { vec_capacity jobs.new ≡ vec_capacity jobs.old }
{
    match ledger.close_of(owner, group) {
        Close::Done => wake(held, jobs, owner, Resume::Go),
        Close::Wait => {}
    }
}

// The owner of a child that has ended goes on, where it has waited for this.
fn wake_owner(
    ledger: &Ledger,
    held: &mut [Option<WaitingTask>],
    jobs: &mut Vec<Job<Body>>,
    owner: TaskId,
    group: u32,
    ending: Ending,
)
    requires room { vec_len jobs.old < vec_capacity jobs.old }
    ensures follows { follows_of held.new jobs.new.items ≡ wake_owner owner.0 group ending (life_of owner.0 ledger.now.log).stage ledger.now.log (follows_of held.old jobs.old.items) }
    ensures bodies { (script : ScriptView) → AllByRecursion (FitsScript script) held.old
        → AllByRecursion (FitsScript script) held.new × (AllByRecursion (IsJobOf script) jobs.old.items → AllByRecursion (IsJobOf script) jobs.new.items) }
    ensures few { vec_len jobs.new ≤ vec_len jobs.old + 1 }
    ensures capacity { vec_capacity jobs.new ≡ vec_capacity jobs.old }
{
    match ledger.life(owner).stage {
        Some(JobStage::Asks(asked)) => {
            if asked == group {
                wake(held, jobs, owner, resume_of(ending));
            }
        }
        Some(JobStage::Closes(closed)) => {
            if closed == group {
                wake_closing(ledger, held, jobs, owner, group);
            }
        }
        _ => {}
    }
}

// Where task `task` that has ended is a child, its owner goes on, if it has waited for this.
fn wake_parent(
    ledger: &Ledger,
    held: &mut [Option<WaitingTask>],
    jobs: &mut Vec<Job<Body>>,
    task: TaskId,
    ending: Ending,
)
    requires room { vec_len jobs.old < vec_capacity jobs.old }
    ensures follows { follows_of held.new jobs.new.items ≡ wake_parent (parent_of task.0 ledger.now.log) ending ledger.now.log (follows_of held.old jobs.old.items) }
    ensures bodies { (script : ScriptView) → AllByRecursion (FitsScript script) held.old
        → AllByRecursion (FitsScript script) held.new × (AllByRecursion (IsJobOf script) jobs.old.items → AllByRecursion (IsJobOf script) jobs.new.items) }
    ensures few { vec_len jobs.new ≤ vec_len jobs.old + 1 }
    ensures capacity { vec_capacity jobs.new ≡ vec_capacity jobs.old }
{
    match ledger.life(task).origin {
        Some(Origin::Child(owner, group)) => wake_owner(ledger, held, jobs, owner, group, ending),
        _ => {}
    }
}

// All that have waited for the end of a task go on.
fn wake_all(
    ledger: &Ledger,
    held: &mut [Option<WaitingTask>],
    jobs: &mut Vec<Job<Body>>,
    task: TaskId,
    ending: Ending,
)
    requires room { vec_len jobs.old + length (waiters_of task.0 ledger.now.log) < vec_capacity jobs.old }
    ensures follows { follows_of held.new jobs.new.items ≡ wake_all task.0 ending ledger.now.log (follows_of held.old jobs.old.items) }
    ensures bodies { (script : ScriptView) → AllByRecursion (FitsScript script) held.old
        → AllByRecursion (FitsScript script) held.new × (AllByRecursion (IsJobOf script) jobs.old.items → AllByRecursion (IsJobOf script) jobs.new.items) }
    ensures few { vec_len jobs.new ≤ vec_len jobs.old + length (waiters_of task.0 ledger.now.log) + 1 }
    ensures capacity { vec_capacity jobs.new ≡ vec_capacity jobs.old }
{
    wake_waiters(ledger, held, jobs, task, resume_of(ending));
    wake_parent(ledger, held, jobs, task, ending);
}

// A task goes on with this in its turn of this number.
fn go_on(jobs: &mut Vec<Job<Body>>, task: TaskId, number: u32, resume: Resume, mut body: Body)
    requires running { IsRunning body }
    requires room { vec_len jobs.old < vec_capacity jobs.old }
    ensures jobs { jobs.new.items ≡ jobs.old.items ++ record { task = task; number = number; resume = resume_at number resume; body = at_rest body } ∷ [] }
    ensures capacity { vec_capacity jobs.new ≡ vec_capacity jobs.old }
{
    let resume = resume_at(number, resume);
    body.rest();
    jobs.push_reserved(Job::new(task, number, resume, body));
}

// A task waits, before its turn of this number.
fn hold(held: &mut [Option<WaitingTask>], task: TaskId, number: u32, mut body: Body)
    requires there { task.0 < length held.old }
    ensures held { held.new ≡ slice_set held.old task.0 (Some (record { number = number; body = at_rest body })) }
{
    body.rest();
    held[task.0 as usize] = Some(WaitingTask { number, body });
}

// What follows from a turn: the task goes on with this in its turn of this number; or it has ended, and those that have
// waited for it go on; or it waits.
pub fn follow(
    ledger: &Ledger,
    held: &mut [Option<WaitingTask>],
    jobs: &mut Vec<Job<Body>>,
    task: TaskId,
    number: u32,
    body: Body,
    resume: Option<Resume>,
    step: Step,
)
    requires there { task.0 < length held.old }
    requires running { GoesOn step → IsRunning body }
    requires goes { (next : Resume) → resume ≡ Some next → GoesOn step }
    requires room { vec_len jobs.old + length (waiters_of task.0 ledger.now.log) < vec_capacity jobs.old }
    ensures follows { follows_of held.new jobs.new.items ≡ followed task.0 number body.task resume step ledger.now.log (follows_of held.old jobs.old.items) }
    ensures bodies { (script : ScriptView) → body.script ≡ script → AllByRecursion (FitsScript script) held.old
        → AllByRecursion (FitsScript script) held.new × (AllByRecursion (IsJobOf script) jobs.old.items → AllByRecursion (IsJobOf script) jobs.new.items) }
    ensures few { vec_len jobs.new ≤ vec_len jobs.old + length (waiters_of task.0 ledger.now.log) + 1 }
    ensures capacity { vec_capacity jobs.new ≡ vec_capacity jobs.old }
{
    match resume {
        Some(resume) => go_on(jobs, task, number, resume, body),
        None => match step {
            Step::Ended(ending) => wake_all(ledger, held, jobs, task, ending),
            Step::Await => hold(held, task, number, body),
            Step::Run(_, _) => hold(held, task, number, body),
        },
    }
}
