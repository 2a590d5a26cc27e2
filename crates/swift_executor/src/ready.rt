//! The jobs that are ready.

ghost use Rattle.std.specs.Prelude.{◌≡◌, ◌≢◌, ◌+◌, ◌<◌, ◌≤◌, ◌^◌, ◌↔◌, [], ◌∷◌, ◌++◌, All, IfOk, IfSome, IfNone, IsTrue, length, map, replicate, take, vec_capacity, vec_len, if◌then◌else◌, nat_lt, false};
ghost use Rattle.std.specs.List.Sorted.{IsPermutation};
ghost use Rattle.swift_types.specs.declared.id.TaskId.{TaskId};
ghost use Rattle.swift_types.specs.declared.limits.TheConstants.{TASKS};
ghost use Rattle.swift_executor.specs.Queue.{IsRestorable, TakesFirst};
ghost use Rattle.swift_executor.specs.ReadyInside.{Comes, HasTaskAt};
ghost use Rattle.swift_executor.specs.Ready.{Adds, AreAtMost, AreHigher, CanRestore, ComesFirst, Forwards, HasRoom, IsClear, level_at, priority_of, ready_job, tasks_in, times};

use crate::queue::Queue;
use crate::tasks::ReadyTasks;
use std::alloc::{AllocError, Global};
use std::marker::Model;
use swift_job::Job;
use swift_types::limits::TASKS;
use swift_types::{Priority, TaskId};

/// The jobs that are ready, with room that was made at the start. No call but `with_room` takes memory.
///
/// A job counts at the level that a book gave its task; levels never fall.
pub struct ReadyJobs<B> {
    queue: Queue<B>,
    // Jobs of tasks that have another one in the queue or taken out, the oldest first.
    behind: Vec<Job<B>>,
    // The tasks of all these jobs.
    tasks: ReadyTasks,
    // The greatest level that a book gave, by the number of the task.
    levels: Vec<u8>,
    // How many events there were when the levels of all tasks were given last.
    counted: usize,
}

impl<B> Model for ReadyJobs<B> {
    ghost use Rattle.swift_executor.specs.Ready.{ReadyJobsView};

    ghost Value = { ReadyJobsView B };

    ghost use Rattle.std.specs.Prelude.{map};
    ghost use Rattle.swift_executor.specs.ReadyInside.{ReadyInvariant, job_of};

    ghost view = { λ r. record { front = map job_of r.queue.jobs; behind = r.behind.items; room = r.queue.room; arrived = r.queue.arrived; levels = r.levels.items; counted = r.counted } };

    ghost invariant = { ReadyInvariant };
}

// The priority of a level.
fn priority_of(level: u8) -> Priority
    ensures { result ≡ priority_of level }
{
    if level < 2 {
        Priority::Background
    } else if level < 3 {
        Priority::Low
    } else if level < 4 {
        Priority::Medium
    } else {
        Priority::High
    }
}

// Takes the job that comes first out of a queue, with the number of its arrival.
fn take_from<B>(queue: &mut Queue<B>, by_arrival: bool) -> Option<(Job<B>, u64)>
    ensures none { IfNone result ((queue.old.jobs ≡ []) × (queue.new ≡ queue.old)) }
    ensures some { IfSome result (λ r. TakesFirst (Comes by_arrival) queue.old.jobs r.0 r.1 queue.new.jobs) }
    ensures len { IfSome result (λ _. length queue.new.jobs + 1 ≡ length queue.old.jobs) }
    ensures restorable { IfSome result (λ r. IsRestorable queue.new r.0.task r.1) }
    ensures room { queue.new.room ≡ queue.old.room }
    ensures arrived { queue.new.arrived ≡ queue.old.arrived }
{
    if by_arrival {
        queue.take_oldest()
    } else {
        queue.take()
    }
}

impl<B> ReadyJobs<B> {
    /// No job, with room for this many.
    pub fn with_room(alloc: Global, room: usize) -> Result<ReadyJobs<B>, AllocError>
        ensures { IfOk result (λ r. r ≡ record { front = []; behind = []; room = room; arrived = 0; levels = replicate TASKS 0; counted = 0 }) }
    {
        let tasks = ReadyTasks::with_room(alloc, room)?;
        let levels = vec![in alloc; 0; TASKS]?;
        let queue = Queue::with_room(alloc, room)?;
        match Vec::with_capacity(alloc, room) {
            Ok(behind) => Ok(ReadyJobs {
                queue,
                behind,
                tasks,
                levels,
                counted: 0,
            }),
            Err(fault) => {
                queue.close();
                Err(fault)
            }
        }
    }

    /// Whether there is room for one more job, and a number for its arrival, beside `taken` that were taken out: one or
    /// none.
    pub fn has_room(&self, taken: usize) -> bool
        requires { taken ≤ 1 }
        ensures { IsTrue result ↔ HasRoom self.now taken }
    {
        let inside = self.queue.len() + self.behind.len();
        inside < self.queue.room()
            && inside + taken < self.queue.room()
            && self.queue.arrived() + (self.behind.len() as u64) < u64::MAX
    }

    /// The tasks of the jobs, in an order that means nothing.
    pub fn tasks(&self) -> &[TaskId]
        ensures { (t : TaskId) → times t result.now ≡ times t (tasks_in self.now) }
    {
        self.tasks.as_slice()
    }

    /// Adds a job, as the newest.
    pub fn add(&mut self, job: Job<B>)
        requires { HasRoom self.old 0 }
        ensures { Adds self.old job self.new }
    {
        let task = job.task();
        let priority = priority_of(self.level(task));
        let _inside = self.queue.len();
        self.tasks.add(task);
        if self.queue.holds(task) {
            self.behind.push_reserved(job);
        } else {
            self.queue.put(job, priority);
        }
    }

    // The level of a task.
    fn level(&self, task: TaskId) -> u8
        ensures { result ≡ level_at self.now.levels task }
    {
        let at = task.0 as usize;
        if at < self.levels.len() {
            self.levels[at]
        } else {
            0
        }
    }

    /// The priority at which the jobs of a task count.
    pub fn priority(&self, task: TaskId) -> Priority {
        priority_of(self.level(task))
    }

    /// Whether the levels of all tasks were given last when the log had so many events, or more.
    pub fn has_counted(&self, changed: usize) -> bool
        ensures { IsTrue result ↔ (changed ≤ self.now.counted) }
    {
        changed <= self.counted
    }

    /// Counts each task at the greater of its level and the one that is given, by the number of the task. Where nothing
    /// has changed it is one comparison of bytes.
    pub fn count(&mut self, given: &[u8])
        requires { length given.now ≤ TASKS }
        ensures front { IsPermutation self.old.front self.new.front }
        ensures levels { AreHigher self.old.levels given.now self.new.levels }
        ensures rest { self.new ≡ record self.old { front = self.new.front; levels = self.new.levels } }
    {
        let seen = &self.levels.as_slice()[..given.len()];
        if seen == given {
            return;
        }
        self.count_each(given);
    }

    /// `count`, which takes constant time where no level has changed since the levels of all tasks were given last: where the log had
    /// `changed` events when one may have changed last, and had no fewer when they were given. None where that is not known.
    pub fn count_since(&mut self, given: &[u8], changed: Option<usize>)
        requires few { length given.now ≤ TASKS }
        requires stayed { IfSome changed (λ n. n ≤ self.old.counted → AreAtMost given.now self.old.levels) }
        ensures front { IsPermutation self.old.front self.new.front }
        ensures levels { AreHigher self.old.levels given.now self.new.levels }
        ensures rest { self.new ≡ record self.old { front = self.new.front; levels = self.new.levels } }
    {
        if let Some(changed) = changed {
            if changed <= self.counted {
                return;
            }
        }
        self.count(given);
    }

    /// The levels of all tasks were given when there were this many events.
    pub fn counts_from(&mut self, events: usize)
        ensures { self.new ≡ record self.old { counted = events } }
    {
        self.counted = events;
    }

    // Raises the level of each task to the one given, where that is greater, task by task.
    fn count_each(&mut self, given: &[u8])
        requires { length given.now ≤ TASKS }
        ensures front { IsPermutation self.old.front self.new.front }
        ensures levels { AreHigher self.old.levels given.now self.new.levels }
        ensures rest { self.new ≡ record self.old { front = self.new.front; levels = self.new.levels } }
    {
        for place in 0..given.len() {
            self.raise(place, given[place]);
        }
    }

    // Counts one task at the greater of its level and this one.
    fn raise(&mut self, place: usize, level: u8)
        requires { place < TASKS }
        ensures front { IsPermutation self.old.front self.new.front }
        ensures level { (t : TaskId) → t.0 ≡ place → level_at self.new.levels t ≡ (if nat_lt (level_at self.old.levels t) level then level else level_at self.old.levels t) }
        ensures others { (t : TaskId) → t.0 ≢ place → level_at self.new.levels t ≡ level_at self.old.levels t }
        ensures rest { self.new ≡ record self.old { front = self.new.front; levels = self.new.levels } }
    {
        if self.levels[place] < level {
            self.levels[place] = level;
            self.queue.raise(TaskId(place as u32), priority_of(level));
        }
    }

    /// Takes the job that comes first out of the front, with the number of its arrival.
    pub fn take(&mut self, by_arrival: bool) -> Option<(Job<B>, u64)>
        ensures none { IfNone result ((self.old.front ≡ []) × (self.new ≡ self.old)) }
        ensures first { IfSome result (λ r. All (ComesFirst by_arrival self.old.levels (ready_job r.0 r.1)) self.old.front) }
        ensures rest { IfSome result (λ r. IsPermutation self.old.front (ready_job r.0 r.1 ∷ self.new.front)) }
        ensures same { self.new ≡ record self.old { front = self.new.front } }
        ensures restorable { IfSome result (λ r. CanRestore self.new r.0.task r.1) }
    {
        let Some((job, arrival)) = take_from(&mut self.queue, by_arrival) else {
            return None;
        };
        self.tasks.remove(job.task());
        Some((job, arrival))
    }

    /// Puts a job back that was taken out, with the number of its arrival.
    pub fn restore(&mut self, job: Job<B>, arrival: u64)
        requires { CanRestore self.old job.task arrival }
        ensures front { IsPermutation (ready_job job arrival ∷ self.old.front) self.new.front }
        ensures rest { self.new ≡ record self.old { front = self.new.front } }
    {
        let task = job.task();
        let priority = priority_of(self.level(task));
        let _inside = self.queue.len();
        self.tasks.add(task);
        self.queue.restore(job, arrival, priority);
    }

    /// Brings the oldest job of a task behind to the front, if there is one.
    pub fn forward(&mut self, task: TaskId)
        requires { IsClear self.old.front task }
        ensures { Forwards self.old task self.new }
    {
        let Some(place) = place_behind(&self.behind, task) else {
            return;
        };
        let priority = priority_of(self.level(task));
        let _inside = self.queue.len();
        let job = self.behind.remove(place);
        self.queue.put(job, priority);
    }

    /// Whether a job of the task waits behind. In time by the jobs behind.
    pub fn is_behind(&self, task: TaskId) -> bool
        ensures { result ≡ false → All (λ j. j.task ≢ task) self.now.behind }
    {
        place_behind(&self.behind, task).is_some()
    }

    /// All jobs, in no order that means anything.
    pub fn into_jobs(self) -> Vec<Job<B>>
        ensures { IsPermutation (map (λ x. x.job) self.front ++ self.behind) result.items }
    {
        let ReadyJobs {
            queue,
            behind,
            tasks: _,
            levels: _,
            counted: _,
        } = self;
        empty_into(queue, behind)
    }
}

// The place of the oldest job of a task.
fn place_behind<B>(behind: &[Job<B>], task: TaskId) -> Option<usize>
    ensures none { IfNone result (All (λ j. j.task ≢ task) behind.now) }
    ensures here { IfSome result (λ place. HasTaskAt behind.now task place) }
    ensures before { IfSome result (λ place. All (λ j. j.task ≢ task) (take place behind.now)) }
{
    for place in 0..behind.len() {
        if behind[place].task() == task {
            return Some(place);
        }
    }
    None
}

// Puts all jobs of a queue behind those of a list that has the room.
fn empty_into<B>(queue: Queue<B>, jobs: Vec<Job<B>>) -> Vec<Job<B>>
    requires { vec_len jobs + length queue.jobs ≤ vec_capacity jobs }
    ensures { IsPermutation (jobs.items ++ map (λ w. w.job) queue.jobs) result.items }
{
    let mut queue = queue;
    let mut jobs = jobs;
    'empty: while let Some((job, _)) = queue.take() {
        jobs.push_reserved(job);
    }
    queue.close();
    jobs
}
