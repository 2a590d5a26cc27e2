//! What calls answer.

use crate::show;
use swift_job::Job;
use swift_log::EventLog;
use swift_script::Script;
use swift_tasks::BookFault;
use swift_turn::Body;
use swift_types::{Priority, TaskId};
use test_support::Said;

/// The events from this place on, each a line.
pub fn told_events(out: &mut Said, log: &EventLog, from: usize) {
    for place in from..log.len() {
        out.put("\n  ");
        show::event(out, log.event(place));
    }
}

/// Jobs, each a line.
pub fn tell_jobs(out: &mut Said, script: &Script, jobs: &[Job<Body>]) {
    for job in jobs {
        out.put("\n  ");
        show::job(out, script, job);
    }
}

/// The priorities of these tasks, in order, by the levels of all tasks; what a call on a task that was not made is refused with where
/// one of them was not.
pub fn told_priorities(out: &mut Said, tasks: &[TaskId], levels: &[u8]) {
    if tasks.iter().any(|task| level_of(levels, *task) == 0) {
        return out.value(&BookFault::Unknown);
    }
    let mut between = "";
    for task in tasks {
        out.put(between);
        out.put(priority_at(level_of(levels, *task)));
        between = " ";
    }
}

// The level of a task, 0 where it was not made.
fn level_of(levels: &[u8], task: TaskId) -> u8 {
    *levels.get(task.0 as usize).unwrap_or(&0)
}

// The priority of a level above 0.
fn priority_at(level: u8) -> &'static str {
    match level {
        1 => show::priority(Priority::Background),
        2 => show::priority(Priority::Low),
        3 => show::priority(Priority::Medium),
        _ => show::priority(Priority::High),
    }
}

/// Levels of tasks, in order.
pub fn told_levels(out: &mut Said, levels: &[u8]) {
    let mut between = "";
    for level in levels {
        out.number(between, i64::from(*level));
        between = " ";
    }
}
