//! Names of tasks: what people call a task of a run.
#![tactic(auto)]

ghost use Rattle.std.specs.Prelude.{◌≡◌, ◌++◌, IfOk, IfSome, OnOk, decimal};
ghost use Rattle.task_names.specs.Names.{is_made_by, made_of, maker_of, name_within, task_name};

use itoa::Buffer;
use std::alloc::{AllocError, Global};
use swift_events::Origin;
use swift_script::Script;
use swift_types::{Ending, RootId, TaskId};

// Appends a number in decimal.
fn number(out: &mut Vec<u8>, value: usize) -> Result<(), AllocError>
    ensures { OnOk result (out.new.items ≡ out.old.items ++ decimal value) }
{
    let mut buffer = Buffer::new();
    out.extend_from_slice(buffer.format(value).as_bytes())
}

/// The task that has made another one; none has made a root.
pub fn maker_of(origin: Origin) -> Option<TaskId>
    ensures { result ≡ maker_of origin }
{
    match origin {
        Origin::Root => None,
        Origin::Child(by, _) | Origin::Spawned(by) | Origin::Detached(by) => Some(by),
    }
}

// Whether a task that comes from there was made by this one.
fn is_made_by(origin: Origin, maker: TaskId) -> bool
    ensures { result ≡ is_made_by maker origin }
{
    match maker_of(origin) {
        Some(by) => by.0 == maker.0,
        None => false,
    }
}

// How many of these tasks a task has made.
fn made_of(endings: &[(Origin, Ending)], maker: TaskId) -> usize
    ensures { result ≡ made_of endings.now maker }
{
    endings
        .iter()
        .filter(|ended| is_made_by(ended.0, maker))
        .count()
}

// Appends the name of a task, which with its makers is of at most so many tasks.
fn write_within(
    out: &mut Vec<u8>,
    script: &Script,
    endings: &[(Origin, Ending)],
    task: TaskId,
    tasks: usize,
) -> Result<(), AllocError>
    ensures { OnOk result (out.new.items ≡ out.old.items ++ name_within tasks script.now endings.now task.0) }
{
    let place = task.0 as usize;
    if tasks == 0 || place >= endings.len() {
        return Ok(());
    }
    let (origin, _) = endings[place];
    match maker_of(origin) {
        None => out.extend_from_slice(script.root_name(RootId(task.0))),
        Some(maker) => {
            write_within(out, script, endings, maker, tasks - 1)?;
            out.extend_from_slice(b"/")?;
            number(out, made_of(&endings[..place + 1], maker))
        }
    }
}

/// Appends the name of a task of a run whose tasks come from there, as `task_name` has it.
///
/// # Errors
///
/// `AllocError` where there is no memory for it; a part of it may be there.
pub fn put_task_name(
    out: &mut Vec<u8>,
    script: &Script,
    endings: &[(Origin, Ending)],
    task: TaskId,
) -> Result<(), AllocError>
    ensures { OnOk result (out.new.items ≡ out.old.items ++ task_name script.now endings.now task.0) }
{
    write_within(out, script, endings, task, endings.len())
}

/// The name of a task of a run whose tasks come from there, in their order (our own): of a root's its root's name, `second`; and of
/// another one its maker's, and its place among those that its maker has made, from 1: `second/1`. Empty where there is no such task.
///
/// It costs the tasks before it for each of its makers.
///
/// # Errors
///
/// `AllocError` where there is no memory for it.
pub fn task_name(
    alloc: Global,
    script: &Script,
    endings: &[(Origin, Ending)],
    task: TaskId,
) -> Result<Vec<u8>, AllocError>
    ensures { IfOk result (λ name. name.items ≡ task_name script.now endings.now task.0) }
{
    let mut name = Vec::new(alloc);
    put_task_name(&mut name, script, endings, task)?;
    Ok(name)
}

/// The first task of this name, as `task_name` has it, if there is one.
///
/// It costs the square of the number of tasks, for each maker.
///
/// # Errors
///
/// `AllocError` where there is no memory for names.
pub fn find_task(
    alloc: Global,
    script: &Script,
    endings: &[(Origin, Ending)],
    name: &[u8],
) -> Result<Option<TaskId>, AllocError>
    ensures some { IfOk result (λ o. IfSome o (λ task. task_name script.now endings.now task.0 ≡ name.now)) }
{
    for place in 0..endings.len() {
        let Ok(number) = u32::try_from(place) else {
            return Ok(None);
        };
        let own = task_name(alloc, script, endings, TaskId(number))?;
        if own.as_slice() == name {
            return Ok(Some(TaskId(number)));
        }
    }
    Ok(None)
}
