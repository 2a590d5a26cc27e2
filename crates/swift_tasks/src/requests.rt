//! Calls between turns: roots, cancels, priorities, and the end of the run.

ghost use Rattle.std.specs.Prelude.{◌≡◌, ◌<◌, ◌≤◌, [], ◌∷◌, ◌++◌, None, Some, IfOk, IfErr, OnOk, OnErr, MatchResult, map, vec_len, vec_capacity};
ghost use Rattle.std.specs.Arc.{arc_value};
ghost use Rattle.std.specs.Borrow.{sem};
ghost use Rattle.std.specs.Io.BufRead.{Rests};
ghost use Rattle.std.specs.List.{AllByRecursion};
ghost use Rattle.swift_types.specs.declared.limits.TheConstants.{TASKS};
ghost use Rattle.swift_types.specs.declared.id.TaskId.{TaskId};
ghost use Rattle.swift_script.specs.Scripts.{ScriptView, root_count};
ghost use Rattle.swift_ledger.specs.Levels.{AreLevels, HaveStayed};
ghost use Rattle.swift_events.specs.Lives.{life_of};
ghost use Rattle.swift_turn.specs.Body.{idle};
ghost use Rattle.swift_history.specs.TurnEnds.{root_job, root_events};
ghost use Rattle.swift_tasks.specs.BookInvariant.{FitsScript, held_views};
ghost use Rattle.swift_tasks.specs.Books.{IsJobOf, jobs_held};
ghost use Rattle.swift_history.specs.Jobs.{job_facts};
ghost use Rattle.swift_tasks.specs.Refusals.{IsRefusal, refusal_of_root, refusal_of_cancel};

use crate::book::Book;
use crate::fault::BookFault;
use crate::held::WaitingTask;
use crate::refusals::unless_open;
use std::alloc::Global;
use std::sync::Arc;
use swift_events::Event;
use swift_job::Job;
use swift_ledger::Ledger;
use swift_locals::Bindings;
use swift_log::EventLog;
use swift_script::Script;
use swift_turn::Body;
use swift_types::{Resume, RootId, TaskId};

impl Book {
    ghost use Rattle.swift_tasks.specs.contracts.book.Book.{the_row};

    /// Adds a root: its task has the root's number, method, arguments and priority, and no bindings. The job of its first
    /// turn comes back. A refusal is `Unknown` for a root that the script lacks or that was added before, or else `Memory`.
    pub fn add_root(&mut self, root: RootId) -> Result<Job<Body>, BookFault>
        ensures job { IfOk result (λ job. job_facts job ≡ root_job self.old.script root.0) }
        ensures body { IfOk result (IsJobOf self.old.script) }
        ensures ok { OnOk result (self.new ≡ record self.old { log = self.old.log ++ root_events self.old.script root.0 }) }
        ensures err { OnErr result (self.new ≡ self.old) }
        ensures refused { MatchResult result (λ _. refusal_of_root self.old.script self.old.log root.0 ≡ None) (IsRefusal (refusal_of_root self.old.script self.old.log root.0)) }
    {
        if let Some(fault) = self.refusal_of_root(root) {
            return Err(fault);
        }
        self.ledger.reserve(2)?;
        let body = root_body(self.alloc, &self.script, root)?;
        note_root(&mut self.ledger, &self.script, root);
        Ok(Job::new(TaskId(root.0), 0, Resume::Start, body))
    }

    // Why a root can't be added.
    fn refusal_of_root(&self, root: RootId) -> Option<BookFault>
        ensures cause { result ≡ refusal_of_root self.now.script self.now.log root.0 }
        ensures there { result ≡ None → root.0 < root_count self.now.script }
        ensures unmade { result ≡ None → (life_of root.0 self.now.log).origin ≡ None }
    {
        if (root.0 as usize) < self.script.root_count()
            && self.ledger.life(TaskId(root.0)).origin.is_none()
        {
            None
        } else {
            Some(BookFault::Unknown)
        }
    }

    /// Cancels a task, with the children of its groups (SE-0304). A refusal is `Unknown`, `Completed` or `Memory`, the first of
    /// these that stands, and changes nothing. Time linear in the tasks of the run where the task was not cancelled yet, else constant.
    pub fn cancel(&mut self, task: TaskId) -> Result<(), BookFault>
        ensures ok { OnOk result (self.new ≡ record self.old { log = self.old.log ++ Event.CancelTask task ∷ [] }) }
        ensures err { OnErr result (self.new ≡ self.old) }
        ensures refused { MatchResult result (λ _. refusal_of_cancel self.old.log task.0 ≡ None) (IsRefusal (refusal_of_cancel self.old.log task.0)) }
    {
        if let Some(fault) = unless_open(self.ledger.life(task)) {
            return Err(fault);
        }
        self.ledger.reserve(1)?;
        self.ledger.note(Event::CancelTask(task));
        Ok(())
    }

    /// The levels of the tasks, by the number of the task: one more than the number of the priority, and 0 for a task that was
    /// not made, as for each past the end (our own). It takes no memory. Constant time where no task was made and no wait
    /// has raised a priority since the last call, else time that is linear in the tasks.
    pub fn levels(&mut self) -> &[u8]
        // What the book is once the levels are no longer borrowed.
        ensures* same { sem 𝓛 (Rests the_row self.entry (λ new. new ≡ self.old)) }
        ensures levels { AreLevels self.old.log result.now }
    {
        self.ledger.levels()
    }

    /// How many events there were when a level may have changed last (`Ledger::levels_changed`).
    pub fn levels_changed(&self) -> usize
        ensures { HaveStayed self.now.log result }
    {
        self.ledger.levels_changed()
    }

    /// Gives up the log, and the job of each task that still waits, by the number of the task. Such a job goes on where its
    /// task has waited, as if that were over; its turn is never begun by this book. It takes no memory.
    pub fn close(self) -> (EventLog, Vec<Job<Body>>)
        ensures log { result.0.events ≡ self.log }
        ensures jobs { map job_facts result.1.items ≡ jobs_held 0 self.held }
        ensures bodies { AllByRecursion (IsJobOf self.script) result.1.items }
    {
        let Book {
            alloc: _,
            script: _,
            ledger,
            held,
            spare,
        } = self;
        let _tasks = ledger.tasks();
        let jobs = jobs_of(held, spare);
        (ledger.close(), jobs)
    }
}

// The task of a root before its first turn.
fn root_body(alloc: Global, script: &Arc<Script>, root: RootId) -> Result<Body, BookFault>
    requires { root.0 < root_count (arc_value script.now) }
    ensures script { IfOk result (λ body. body.script ≡ arc_value script.now) }
    ensures task { IfOk result (λ body. body.task ≡ (root_job (arc_value script.now) root.0).frames) }
    ensures rest { IfOk result (λ body. body.phase ≡ idle) }
    ensures err { IfErr result (λ fault. fault ≡ BookFault.Memory) }
{
    script.facts();
    let args = script.root_args(root).to_vec(alloc)?;
    let bindings = Bindings::new(alloc);
    let method = script.root_method(root);
    Ok(Body::start(alloc, script.clone()?, method, args, bindings)?)
}

// Writes that a root was added, and the job of its first turn.
fn note_root(ledger: &mut Ledger, script: &Script, root: RootId)
    requires there { root.0 < ledger.old.roots }
    requires unmade { (life_of root.0 ledger.old.log).origin ≡ None }
    requires spare { 1 < ledger.old.spare }
    ensures roots { ledger.new.roots ≡ ledger.old.roots }
    ensures log { ledger.new.log ≡ ledger.old.log ++ root_events script.now root.0 }
{
    let task = TaskId(root.0);
    let priority = script.root_priority(root);
    ledger.note(Event::Root(task, priority));
    ledger.note_give(task, 0, Resume::Start);
}

// The jobs of the tasks that wait, by the number of the task, in a list that has the room for them.
fn jobs_of(mut held: Vec<Option<WaitingTask>>, mut jobs: Vec<Job<Body>>) -> Vec<Job<Body>>
    requires empty { jobs.items ≡ [] }
    requires room { vec_len held ≤ vec_capacity jobs }
    requires few { vec_len held ≤ TASKS }
    ensures jobs { map job_facts result.items ≡ jobs_held 0 (held_views held.items) }
    ensures bodies { (script : ScriptView) → AllByRecursion (FitsScript script) held.items → AllByRecursion (IsJobOf script) result.items }
{
    while let Some(waiting) = held.pop() {
        if let Some(WaitingTask { number, body }) = waiting {
            jobs.push_reserved(Job::new(TaskId(held.len() as u32), number, Resume::Go, body));
        }
    }
    jobs.reverse();
    jobs
}
