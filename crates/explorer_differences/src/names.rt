//! What the tasks of two outcomes are called.

ghost use Rattle.std.specs.Prelude.{◌≡◌, ◌++◌, IfOk, OnOk, length};
ghost use Rattle.explorer_differences.specs.Names.{called_text, called_texts, names_difference, names_of, own_names, shared_names};

use crate::lines::put_number;
use std::alloc::{AllocError, Global};
use swift_events::Origin;
use swift_explorer::RunOutcome;
use swift_script::Script;
use swift_types::{Ending, TaskId};
use task_names::put_task_name;

// A task, with its name beside its number.
fn put_called(
    out: &mut Vec<u8>,
    script: &Script,
    endings: &[(Origin, Ending)],
    task: TaskId,
) -> Result<(), AllocError>
    ensures { OnOk result (out.new.items ≡ out.old.items ++ called_text script.now endings.now task.0) }
{
    out.extend_from_slice(b" t")?;
    put_number(out, task.0)?;
    out.extend_from_slice(b" (")?;
    put_task_name(out, script, endings, task)?;
    out.extend_from_slice(b")")
}

// All of them.
#[tactic(auto, using(crate::proofs::Naming::called_all))]
fn put_all_called(
    out: &mut Vec<u8>,
    script: &Script,
    endings: &[(Origin, Ending)],
) -> Result<(), AllocError>
    ensures { OnOk result (out.new.items ≡ out.old.items ++ called_texts script.now endings.now 0 (length endings.now)) }
{
    for place in 0..endings.len() {
        let Ok(number) = u32::try_from(place) else {
            return Err(AllocError);
        };
        put_called(out, script, endings, TaskId(number))?;
    }
    Ok(())
}

// Those of an outcome.
fn called(alloc: Global, script: &Script, outcome: &RunOutcome) -> Result<Vec<u8>, AllocError>
    ensures { IfOk result (λ names. names.items ≡ names_of script.now outcome.now) }
{
    let mut names = Vec::new(alloc);
    put_all_called(&mut names, script, &outcome.endings)?;
    Ok(names)
}

// A line of names that both have, if there are any.
fn put_shared(out: &mut Vec<u8>, names: &[u8]) -> Result<(), AllocError>
    ensures { OnOk result (out.new.items ≡ out.old.items ++ shared_names names.now) }
{
    match names {
        [] => Ok(()),
        [_, ..] => {
            out.extend_from_slice(b"names")?;
            out.extend_from_slice(names)?;
            out.extend_from_slice(b"\n")
        }
    }
}

// A line of names of one outcome.
fn put_own(out: &mut Vec<u8>, number: u32, names: &[u8]) -> Result<(), AllocError>
    ensures { OnOk result (out.new.items ≡ out.old.items ++ own_names number names.now) }
{
    out.extend_from_slice(b"names in ")?;
    put_number(out, number)?;
    out.extend_from_slice(b":")?;
    out.extend_from_slice(names)?;
    out.extend_from_slice(b"\n")
}

// Names that both have, or those of each.
fn put_told_names(
    out: &mut Vec<u8>,
    numbers: (u32, u32),
    first: &[u8],
    second: &[u8],
) -> Result<(), AllocError>
    ensures { OnOk result (out.new.items ≡ out.old.items ++ names_difference numbers.0 numbers.1 first.now second.now) }
{
    if first == second {
        return put_shared(out, first);
    }
    put_own(out, numbers.0, first)?;
    put_own(out, numbers.1, second)
}

/// Appends what the tasks of two outcomes are called: in one line, where that is the same.
pub(crate) fn put_names(
    alloc: Global,
    out: &mut Vec<u8>,
    script: &Script,
    numbers: (u32, u32),
    first: &RunOutcome,
    second: &RunOutcome,
) -> Result<(), AllocError>
    ensures { OnOk result (out.new.items ≡ out.old.items ++ names_difference numbers.0 numbers.1 (names_of script.now first.now) (names_of script.now second.now)) }
{
    let left = called(alloc, script, first)?;
    let right = called(alloc, script, second)?;
    put_told_names(out, numbers, &left, &right)
}
