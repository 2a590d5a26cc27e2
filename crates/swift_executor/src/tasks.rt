//! The tasks whose jobs are ready.

ghost use Rattle.std.specs.Prelude.{◌≡◌, ◌<◌, ◌≤◌, [], ◌∷◌, Contains, IfOk, length, slice_index_or};
ghost use Rattle.swift_types.specs.declared.id.TaskId.{TaskId};
ghost use Rattle.std.specs.List.Sorted.{IsPermutation};

use std::alloc::{AllocError, Global};
use std::marker::Model;
use swift_types::TaskId;
use swift_types::limits::TASKS;

/// The tasks of the jobs that are ready, in an order that means nothing. A task is added and removed in constant time, but for
/// one that stands there twice or is numbered 1,024 or more.
#[derive(Drop)]
pub struct ReadyTasks {
    tasks: Vec<TaskId>,
    // By the number of a task, where it was put last. It may stand elsewhere.
    places: Vec<u32>,
}

impl Model for ReadyTasks {
    ghost use Rattle.std.specs.Prelude.{vec_capacity};
    ghost use Rattle.swift_executor.specs.TasksInside.{ReadyTasksView};

    ghost Value = { ReadyTasksView };

    ghost view = { λ t. record { tasks = t.tasks.items; room = vec_capacity t.tasks } };
}

impl ReadyTasks {
    /// No task, with room for this many.
    pub fn with_room(alloc: Global, room: usize) -> Result<ReadyTasks, AllocError>
        ensures tasks { IfOk result (λ t. t.tasks ≡ []) }
        ensures room { IfOk result (λ t. room ≤ t.room) }
    {
        let places = vec![in alloc; 0; TASKS]?;
        let tasks = Vec::with_capacity(alloc, room)?;
        Ok(ReadyTasks { tasks, places })
    }

    /// The tasks.
    pub fn as_slice(&self) -> &[TaskId]
        ensures { result.now ≡ self.now.tasks }
    {
        &self.tasks
    }

    /// Adds a task.
    pub fn add(&mut self, task: TaskId)
        requires { length self.old.tasks < self.old.room }
        ensures tasks { IsPermutation (task ∷ self.old.tasks) self.new.tasks }
        ensures room { self.new.room ≡ self.old.room }
    {
        note(&mut self.places, task, self.tasks.len());
        self.tasks.push_reserved(task);
    }

    /// Removes a task, once.
    pub fn remove(&mut self, task: TaskId)
        requires { Contains self.old.tasks task }
        ensures tasks { IsPermutation self.old.tasks (task ∷ self.new.tasks) }
        ensures room { self.new.room ≡ self.old.room }
    {
        let place = place_of(&self.tasks, &self.places, task);
        if let Some(last) = self.tasks.pop() {
            if place < self.tasks.len() {
                note(&mut self.places, last, place);
                self.tasks[place] = last;
            }
        }
    }
}

// Notes where a task stands.
fn note(places: &mut Vec<u32>, task: TaskId, place: usize) {
    let at = task.0 as usize;
    if at < places.len() {
        if let Ok(place) = u32::try_from(place) {
            places[at] = place;
        }
    }
}

// Where a task stands.
fn place_of(tasks: &[TaskId], places: &[u32], task: TaskId) -> usize
    requires { Contains tasks.now task }
    ensures there { result < length tasks.now }
    ensures task { (d : TaskId) → slice_index_or tasks.now result d ≡ task }
{
    let at = task.0 as usize;
    if at < places.len() {
        let place = places[at] as usize;
        if place < tasks.len() && tasks[place] == task {
            return place;
        }
    }
    match tasks.iter().position(|other| *other == task) {
        Some(place) => place,
        None => unreachable!(),
    }
}
