//! Small values as numbers. Each function appends its value's numbers; out of memory, some of them may stand there.

ghost use Rattle.std.specs.Prelude.{◌≡◌, ◌++◌, pos, [], ◌∷◌, OnOk};
ghost use Rattle.swift_explorer.specs.Numbers.{ending_numbers, env_numbers, fault_numbers, flag_numbers, given_numbers, life_numbers, link_numbers, option_numbers, origin_numbers, priority_numbers, resume_numbers, stage_numbers, task_numbers, wide_numbers};

use std::alloc::AllocError;
use swift_escalation::PriorityEvent as Link;
use swift_events::{JobStage, LastJob, Life, Origin};
use swift_types::{Ending, Env, Fault, Priority, Resume, TaskId};

/// A value.
pub fn put_value(key: &mut Vec<i64>, value: i64) -> Result<(), AllocError>
    ensures { OnOk result (key.new.items ≡ key.old.items ++ value ∷ []) }
{
    key.push(value)?;
    Ok(())
}

/// A flag: 1 or 0.
pub fn put_flag(key: &mut Vec<i64>, flag: bool) -> Result<(), AllocError>
    ensures { OnOk result (key.new.items ≡ key.old.items ++ flag_numbers flag) }
{
    if flag {
        put_value(key, 1)
    } else {
        put_value(key, 0)
    }
}

/// A number.
pub fn put_number(key: &mut Vec<i64>, number: u32) -> Result<(), AllocError>
    ensures { OnOk result (key.new.items ≡ key.old.items ++ pos number ∷ []) }
{
    put_value(key, i64::from(number))
}

/// A number of 64 bits: its halves.
pub fn put_wide(key: &mut Vec<i64>, number: u64) -> Result<(), AllocError>
    ensures { OnOk result (key.new.items ≡ key.old.items ++ wide_numbers number) }
{
    put_number(key, (number / 4_294_967_296) as u32)?;
    put_number(key, (number % 4_294_967_296) as u32)
}

/// A task.
pub fn put_task(key: &mut Vec<i64>, task: TaskId) -> Result<(), AllocError>
    ensures { OnOk result (key.new.items ≡ key.old.items ++ task_numbers task) }
{
    put_number(key, task.0)
}

fn put_priority(key: &mut Vec<i64>, priority: Priority) -> Result<(), AllocError>
    ensures { OnOk result (key.new.items ≡ key.old.items ++ priority_numbers priority) }
{
    put_number(key, u32::from(priority.number()))
}

/// A fault.
pub fn put_fault(key: &mut Vec<i64>, fault: Fault) -> Result<(), AllocError>
    ensures { OnOk result (key.new.items ≡ key.old.items ++ fault_numbers fault) }
{
    match fault {
        Fault::Thrown(value) => {
            put_value(key, 0)?;
            put_value(key, value)
        }
        Fault::Cancelled => put_value(key, 1),
        Fault::Invariant => put_value(key, 2),
        Fault::Overflow => put_value(key, 3),
        Fault::Steps => put_value(key, 4),
        Fault::Turns => put_value(key, 5),
        Fault::Depth => put_value(key, 6),
        Fault::Tasks => put_value(key, 7),
        Fault::Empty => put_value(key, 8),
        Fault::Isolation => put_value(key, 9),
    }
}

/// An ending.
pub fn put_ending(key: &mut Vec<i64>, ending: Ending) -> Result<(), AllocError>
    ensures { OnOk result (key.new.items ≡ key.old.items ++ ending_numbers ending) }
{
    match ending {
        Ending::Value(value) => {
            put_value(key, 0)?;
            put_value(key, value)
        }
        Ending::Fault(fault) => {
            put_value(key, 1)?;
            put_fault(key, fault)
        }
    }
}

/// What a turn begins with.
pub fn put_resume(key: &mut Vec<i64>, resume: Resume) -> Result<(), AllocError>
    ensures { OnOk result (key.new.items ≡ key.old.items ++ resume_numbers resume) }
{
    match resume {
        Resume::Start => put_value(key, 0),
        Resume::Go => put_value(key, 1),
        Resume::Value(value) => {
            put_value(key, 2)?;
            put_value(key, value)
        }
        Resume::Fault(fault) => {
            put_value(key, 3)?;
            put_fault(key, fault)
        }
    }
}

/// Where a task comes from.
pub fn put_origin(key: &mut Vec<i64>, origin: Origin) -> Result<(), AllocError>
    ensures { OnOk result (key.new.items ≡ key.old.items ++ origin_numbers origin) }
{
    match origin {
        Origin::Root => put_value(key, 0),
        Origin::Child(owner, group) => {
            put_value(key, 1)?;
            put_number(key, owner.0)?;
            put_number(key, group)
        }
        Origin::Spawned(by) => {
            put_value(key, 2)?;
            put_number(key, by.0)
        }
        Origin::Detached(by) => {
            put_value(key, 3)?;
            put_number(key, by.0)
        }
    }
}

fn put_origin_if(key: &mut Vec<i64>, origin: Option<Origin>) -> Result<(), AllocError>
    ensures { OnOk result (key.new.items ≡ key.old.items ++ option_numbers origin_numbers origin) }
{
    match origin {
        None => put_value(key, 0),
        Some(origin) => {
            put_value(key, 1)?;
            put_origin(key, origin)
        }
    }
}

fn put_given_if(key: &mut Vec<i64>, given: Option<LastJob>) -> Result<(), AllocError>
    ensures { OnOk result (key.new.items ≡ key.old.items ++ option_numbers given_numbers given) }
{
    match given {
        None => put_value(key, 0),
        Some(given) => {
            put_value(key, 1)?;
            put_number(key, given.number)?;
            put_resume(key, given.resume)
        }
    }
}

fn put_env(key: &mut Vec<i64>, env: Env) -> Result<(), AllocError>
    ensures { OnOk result (key.new.items ≡ key.old.items ++ env_numbers env) }
{
    put_priority(key, env.priority)?;
    put_flag(key, env.cancelled)?;
    put_number(key, env.room)
}

fn put_stage(key: &mut Vec<i64>, stage: JobStage) -> Result<(), AllocError>
    ensures { OnOk result (key.new.items ≡ key.old.items ++ stage_numbers stage) }
{
    match stage {
        JobStage::Given => put_value(key, 0),
        JobStage::Begun(env) => {
            put_value(key, 1)?;
            put_env(key, env)
        }
        JobStage::Applied => put_value(key, 2),
        JobStage::Waits(awaited) => {
            put_value(key, 3)?;
            put_number(key, awaited.0)
        }
        JobStage::Asks(group) => {
            put_value(key, 4)?;
            put_number(key, group)
        }
        JobStage::Closes(group) => {
            put_value(key, 5)?;
            put_number(key, group)
        }
    }
}

fn put_stage_if(key: &mut Vec<i64>, stage: Option<JobStage>) -> Result<(), AllocError>
    ensures { OnOk result (key.new.items ≡ key.old.items ++ option_numbers stage_numbers stage) }
{
    match stage {
        None => put_value(key, 0),
        Some(stage) => {
            put_value(key, 1)?;
            put_stage(key, stage)
        }
    }
}

fn put_ending_if(key: &mut Vec<i64>, ending: Option<Ending>) -> Result<(), AllocError>
    ensures { OnOk result (key.new.items ≡ key.old.items ++ option_numbers ending_numbers ending) }
{
    match ending {
        None => put_value(key, 0),
        Some(ending) => {
            put_value(key, 1)?;
            put_ending(key, ending)
        }
    }
}

/// What is known of a task by its own events.
pub fn put_life(key: &mut Vec<i64>, life: Life) -> Result<(), AllocError>
    ensures { OnOk result (key.new.items ≡ key.old.items ++ life_numbers life) }
{
    put_origin_if(key, life.origin)?;
    put_given_if(key, life.given)?;
    put_stage_if(key, life.stage)?;
    put_ending_if(key, life.ending)
}

/// A link between tasks.
pub fn put_link(key: &mut Vec<i64>, link: Link) -> Result<(), AllocError>
    ensures { OnOk result (key.new.items ≡ key.old.items ++ link_numbers link) }
{
    match link {
        Link::Root(task, priority) => {
            put_value(key, 0)?;
            put_number(key, task.0)?;
            put_priority(key, priority)
        }
        Link::Child { task, parent, own } => {
            put_value(key, 1)?;
            put_number(key, task.0)?;
            put_number(key, parent.0)?;
            put_priority(key, own)
        }
        Link::Free(task, priority) => {
            put_value(key, 2)?;
            put_number(key, task.0)?;
            put_priority(key, priority)
        }
        Link::Wait(task, awaited) => {
            put_value(key, 3)?;
            put_number(key, task.0)?;
            put_number(key, awaited.0)
        }
    }
}
