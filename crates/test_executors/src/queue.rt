//! A queue of jobs, each with its task's number as its body: `put TASK PRIORITY`, `take`, `take_oldest`, `put_back
//! PRIORITY` for a job that is taken and put back with another priority, `raise TASK PRIORITY`, `holds TASK`, `len`,
//! `room`, `arrived`, `is_empty`. The first line of a case is its room.

use std::alloc::{AllocError, Global};
use swift_executor::queue::Queue;
use swift_job::Job;
use swift_types::{Priority, Resume, TaskId};
use test_support::{CaseFault, Form, Part, Said, Words, play};

// A queue, and what answers calls on it.
struct QueuePart {
    queue: Queue<u32>,
}

// Puts a job of a task, where that may be done.
fn put(queue: &mut Queue<u32>, task: TaskId, priority: Priority) -> &'static str {
    if queue.len() >= queue.room() || queue.arrived() == u64::MAX {
        return "full";
    }
    if queue.holds(task) {
        return "inside";
    }
    queue.put(Job::new(task, 0, Resume::Start, task.0), priority);
    "ok"
}

// The task and the arrival number of what was taken.
fn told(taken: Option<(Job<u32>, u64)>) -> Option<(u32, u64)> {
    let (job, arrival) = taken?;
    let (task, _number, _resume, _body) = job.spend();
    Some((task.0, arrival))
}

// Takes a job and puts it back with another priority. Its task and its arrival number.
fn put_back(queue: &mut Queue<u32>, priority: Priority) -> Option<(u32, u64)> {
    let (job, arrival) = queue.take()?;
    let task = job.task();
    queue.restore(job, arrival, priority);
    Some((task.0, arrival))
}

fn shown(out: &mut Said, found: Option<(u32, u64)>) {
    match found {
        Some((task, arrival)) => {
            out.number("task ", i64::from(task));
            out.count(" arrival ", arrival)
        }
        None => out.put("none"),
    }
}

fn yes_or_no(out: &mut Said, is_so: bool) {
    out.put(if is_so { "yes" } else { "no" })
}

// Raises the priority of a task's job.
fn raise(queue: &mut Queue<u32>, words: &mut Words<'_>, out: &mut Said) {
    let task = words.task();
    queue.raise(task, words.priority());
    out.put("ok")
}

impl Part for QueuePart {
    fn answer(
        &mut self,
        _alloc: Global,
        words: &mut Words<'_>,
        out: &mut Said,
    ) -> Result<(), CaseFault> {
        let queue = &mut self.queue;
        match words.next() {
            "put" => out.put(put(queue, words.task(), words.priority())),
            "take" => shown(out, told(queue.take())),
            "take_oldest" => shown(out, told(queue.take_oldest())),
            "put_back" => shown(out, put_back(queue, words.priority())),
            "raise" => raise(queue, words, out),
            "holds" => yes_or_no(out, queue.holds(words.task())),
            "len" => out.count("", queue.len() as u64),
            "room" => out.count("", queue.room() as u64),
            "arrived" => out.count("", queue.arrived()),
            "is_empty" => yes_or_no(out, queue.is_empty()),
            _ => words.refuse(),
        }
        Ok(())
    }
}

// Takes the rest, and gives the queue up. How many were left?
fn empty(mut queue: Queue<u32>) -> u64 {
    let mut left = 0u64;
    while let Some(taken) = queue.take() {
        let _ = told(Some(taken));
        left = left.saturating_add(1);
    }
    queue.close();
    left
}

// A queue with this room, made again where it is refused memory.
fn opened(alloc: Global, room: usize) -> Result<Queue<u32>, AllocError> {
    match Queue::with_room(alloc, room) {
        Err(AllocError) => Queue::with_room(alloc, room),
        made => made,
    }
}

/// Makes a queue and the calls of a case, and says how many jobs are left.
pub fn play_queue(alloc: Global, case: &str, out: &mut Said) -> Result<(), CaseFault> {
    let Some((room, calls)) = case.split_once('\n') else {
        return Err(CaseFault::Form);
    };
    let mut head = Words::new(room);
    let room = head.size();
    if !head.are_right() {
        return Err(CaseFault::Form);
    }
    let Ok(queue) = opened(alloc, room) else {
        out.put("out of memory\n");
        return Ok(());
    };
    let mut part = QueuePart { queue };
    let played = play(alloc, &mut part, Form::Plain, calls, out);
    let QueuePart { queue } = part;
    let left = empty(queue);
    played?;
    out.count("", left);
    out.put(" left\n");
    Ok(())
}
