//! What is said of each turn.

ghost use Rattle.std.specs.Prelude.{◌≡◌, ◌++◌, OnOk, codes, decimal, drop};
ghost use Rattle.run_page.specs.RunJson.{AppendsTold, IsTold, IsToldOfOne, IsToldOfRun, all_explained_json, applied_turn, applied_turns, explained_json, last_turns};

use crate::append::{labelled, say};
use crate::quote::labelled_text;
use nuchapay_runs::{Explained, explain_turn};
use std::alloc::{AllocError, Global};
use swift_events::Event;
use swift_log::EventLog;
use swift_report::Report;
use swift_script::Script;
use swift_types::TaskId;

/// How many turns are explained at most: the last ones that were applied.
pub(crate) const EXPLAINED: usize = 1_000;

// What is said of a turn, after a comma.
fn explained(out: &mut Vec<u8>, task: TaskId, number: u32, said: &[u8]) -> Result<(), AllocError>
    ensures { OnOk result (out.new.items ≡ out.old.items ++ explained_json task.0 number said.now) }
{
    labelled(out, b",\n[", task.0)?;
    labelled(out, b",", number)?;
    labelled_text(out, b",\"", said)?;
    say(out, b"\"]")
}

// What is said of a turn, unless it was folded.
fn explanation(
    alloc: Global,
    out: &mut Vec<u8>,
    script: &Script,
    report: &Report,
    task: TaskId,
    number: u32,
) -> Result<(), AllocError>
    ensures { OnOk result (AppendsTold (IsTold script.now report.now task.0 number) all_explained_json out.old.items out.new.items) }
{
    match explain_turn(alloc, script, report, task, number)? {
        Explained::Found(said) => explained(out, task, number, &said),
        Explained::Folded | Explained::Nowhere => Ok(()),
    }
}

// The turn that an event applies.
fn applied_turn(event: Event) -> Option<(TaskId, u32)>
    ensures { result ≡ applied_turn event }
{
    match event {
        Event::Apply(task, number) => Some((task, number)),
        _ => None,
    }
}

// What is said of a turn, if there is one.
fn explanation_of(
    alloc: Global,
    out: &mut Vec<u8>,
    script: &Script,
    report: &Report,
    turn: Option<(TaskId, u32)>,
) -> Result<(), AllocError>
    ensures { OnOk result (AppendsTold (IsToldOfOne script.now report.now turn) all_explained_json out.old.items out.new.items) }
{
    match turn {
        Some((task, number)) => explanation(alloc, out, script, report, task, number),
        None => Ok(()),
    }
}

// From which place of the log turns are explained.
fn first_explained(log: &EventLog) -> usize
    ensures { applied_turns (drop result log.now.events) ≡ last_turns log.now.events }
{
    let mut many = 0_usize;
    for back in 0..log.len() {
        let place = log.len() - 1 - back;
        if applied_turn(log.event(place)).is_some() {
            if many == EXPLAINED {
                return place + 1;
            }
            many += 1;
        }
    }
    0
}

/// What is said of the last turns of a run. Each costs what the report's text costs, and playing the turns of its executor's journal.
pub(crate) fn explanations(
    alloc: Global,
    out: &mut Vec<u8>,
    script: &Script,
    report: &Report,
) -> Result<(), AllocError>
    ensures { OnOk result (AppendsTold (IsToldOfRun script.now report.now) all_explained_json out.old.items out.new.items) }
{
    for place in first_explained(&report.log)..report.log.len() {
        let turn = applied_turn(report.log.event(place));
        explanation_of(alloc, out, script, report, turn)?;
    }
    Ok(())
}
