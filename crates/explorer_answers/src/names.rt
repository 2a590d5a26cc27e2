//! What the tasks of an outcome are called.

ghost use Rattle.std.specs.Prelude.{◌≡◌, ◌++◌, OnOk};
ghost use Rattle.task_names.specs.Names.{maker_of};
ghost use Rattle.explorer_answers.specs.Names.{made_text, made_texts, names_line, names_text};

use crate::text::put_number;
use std::alloc::{AllocError, Global};
use swift_events::Origin;
use swift_script::Script;
use swift_types::{Ending, TaskId};
use task_names::{maker_of, put_task_name};

// A task's name beside its number.
fn put_called(
    out: &mut Vec<u8>,
    script: &Script,
    endings: &[(Origin, Ending)],
    task: TaskId,
    maker: TaskId,
) -> Result<(), AllocError>
    ensures { OnOk result (out.new.items ≡ out.old.items ++ made_text script.now endings.now task.0 (Some maker)) }
{
    out.extend_from_slice(b" t")?;
    put_number(out, task.0 as usize)?;
    out.extend_from_slice(b" (")?;
    put_task_name(out, script, endings, task)?;
    out.extend_from_slice(b")")
}

// The same of a task that comes from there, if it is no root.
fn put_made(
    out: &mut Vec<u8>,
    script: &Script,
    endings: &[(Origin, Ending)],
    task: TaskId,
    origin: Origin,
) -> Result<(), AllocError>
    ensures { OnOk result (out.new.items ≡ out.old.items ++ made_text script.now endings.now task.0 (maker_of origin)) }
{
    match maker_of(origin) {
        None => Ok(()),
        Some(maker) => put_called(out, script, endings, task, maker),
    }
}

// All of them.
fn put_all_made(
    out: &mut Vec<u8>,
    script: &Script,
    endings: &[(Origin, Ending)],
) -> Result<(), AllocError>
    ensures { OnOk result (out.new.items ≡ out.old.items ++ made_texts script.now endings.now 0 endings.now) }
{
    for place in 0..endings.len() {
        let Ok(number) = u32::try_from(place) else {
            return Err(AllocError);
        };
        put_made(out, script, endings, TaskId(number), endings[place].0)?;
    }
    Ok(())
}

// A line of these names, if there are any.
fn put_line(out: &mut Vec<u8>, names: &[u8]) -> Result<(), AllocError>
    ensures { OnOk result (out.new.items ≡ out.old.items ++ names_line names.now) }
{
    match names {
        [] => Ok(()),
        [_, ..] => {
            out.extend_from_slice(b"names")?;
            out.extend_from_slice(names)?;
            out.extend_from_slice(b"\n")
        }
    }
}

/// Appends the line of what the tasks are called that are no roots: `names t2 (first/1)`; nothing where each is a root.
pub(crate) fn put_names(
    alloc: Global,
    out: &mut Vec<u8>,
    script: &Script,
    endings: &[(Origin, Ending)],
) -> Result<(), AllocError>
    ensures { OnOk result (out.new.items ≡ out.old.items ++ names_text script.now endings.now) }
{
    let mut names = Vec::new(alloc);
    put_all_made(&mut names, script, endings)?;
    put_line(out, &names)
}
