//! The report with what is said of each turn.

ghost use Rattle.std.specs.Prelude.{◌≡◌, ◌+◌, ◌<◌, ◌^◌, false, length, slice_get, slice_index_or, IfOk, OnOk};
ghost use Rattle.script_code.specs.Seen.{rows_of};
ghost use Rattle.swift_journal.specs.Records.{RecordView};
ghost use Rattle.swift_history.specs.Replay.{fields_after};
ghost use Rattle.swift_report.specs.Text.{folded_count, report_text as text_of};
ghost use Rattle.nuchapay_runs.specs.Noted.{fields_before, first_lines, noted_executor, noted_executors, noted_text, noted_turn, noted_turns};
ghost use Rattle.nuchapay_runs.specs.Notes.{IsAnnotated};
ghost use Rattle.nuchapay_runs.specs.SaysInside.{Says};

use crate::line::{write_folded, write_heading, write_turn};
use crate::notes::{write_first, write_notes};
use crate::text::Text;
use run_pictures::Player;
use run_pictures::picture::box_at;
use std::alloc::{AllocError, Global};
use swift_events::Origin;
use swift_journal::{Checkpoint, Journal};
use swift_report::{Report, report_text};
use swift_script::Script;
use swift_types::{Ending, ExecId};

// Goes on with the line of the turn at a place of a journal, which is that of this number among all turns of its executor, and what is said
// of it. The turn is played.
fn write_noted_turn(
    out: &mut Text,
    alloc: Global,
    script: &Script,
    endings: &[(Origin, Ending)],
    executor: ExecId,
    line: usize,
    journal: &Journal,
    place: usize,
    player: &mut Player,
) -> Result<(), AllocError>
    requires turn { place < length journal.now }
    requires same { rows_of player.old.turn.fields.items ≡ rows_of player.old.fields.items }
    ensures noted { OnOk result ((d : RecordView) → Says out.old out.new (noted_turn script.now endings.now executor.0 line (rows_of player.old.fields.items) (slice_index_or journal.now place d))) }
    ensures fields { OnOk result ((d : RecordView) → rows_of player.new.fields.items ≡ fields_after script.now (rows_of player.old.fields.items) (slice_index_or journal.now place d)) }
    ensures same { OnOk result (rows_of player.new.turn.fields.items ≡ rows_of player.new.fields.items) }
{
    let turn = box_at(journal, executor.0 as usize, place);
    write_turn(out, script, line, &turn);
    write_first(out, script, endings, turn.task, turn.number);
    let found = journal.read(alloc, place)?;
    let values = player.play(alloc, script, found)?;
    write_notes(out, alloc, script, executor, &player.fields, &values);
    Ok(())
}

// From where the turns of an executor's journal are played: how many were folded before them, and the fields then.
#[derive(Clone, Copy)]
struct JournalStart<'a> {
    folded: usize,
    fields: &'a [Vec<i64>],
}

fn start_of(checkpoints: &[Checkpoint], executor: usize) -> JournalStart<'_>
    ensures folded { result.folded ≡ folded_count (slice_get checkpoints.now executor) }
    ensures limit { result.folded < 2 ^ 63 }
    ensures fields { rows_of result.fields.now ≡ fields_before (slice_get checkpoints.now executor) }
{
    match checkpoints.get(executor) {
        Some(checkpoint) => JournalStart {
            folded: checkpoint.len(),
            fields: checkpoint.fields(),
        },
        None => JournalStart {
            folded: 0,
            fields: &[],
        },
    }
}

// Goes on with the lines of the turns of a journal, with what is said of each.
fn write_noted_turns(
    out: &mut Text,
    alloc: Global,
    script: &Script,
    endings: &[(Origin, Ending)],
    executor: ExecId,
    start: JournalStart<'_>,
    journal: &Journal,
) -> Result<(), AllocError>
    requires { start.folded < 2 ^ 63 }
    ensures { OnOk result (Says out.old out.new (noted_turns script.now endings.now executor.0 start.entry.folded (rows_of start.entry.fields.now) journal.now)) }
{
    let mut player = Player::new(alloc, start.fields)?;
    for place in 0..journal.len() {
        write_noted_turn(
            out,
            alloc,
            script,
            endings,
            executor,
            start.folded + place,
            journal,
            place,
            &mut player,
        )?;
    }
    Ok(())
}

// Goes on with the lines of an executor.
fn write_noted_executor(
    out: &mut Text,
    alloc: Global,
    script: &Script,
    endings: &[(Origin, Ending)],
    executor: ExecId,
    start: JournalStart<'_>,
    journal: &Journal,
) -> Result<(), AllocError>
    requires { start.folded < 2 ^ 63 }
    ensures { OnOk result (Says out.old out.new (noted_executor script.now endings.now executor.0 start.entry.folded (rows_of start.entry.fields.now) journal.now)) }
{
    write_heading(out, script, executor, start.folded + journal.len());
    write_folded(out, start.folded);
    write_noted_turns(out, alloc, script, endings, executor, start, journal)
}

// Goes on with the lines of all executors.
fn write_noted_executors(
    out: &mut Text,
    alloc: Global,
    script: &Script,
    endings: &[(Origin, Ending)],
    checkpoints: &[Checkpoint],
    journals: &[Journal],
) -> Result<(), AllocError>
    ensures { OnOk result (Says out.old out.new (noted_executors script.now endings.now checkpoints.now 0 journals.now)) }
{
    for (place, journal) in journals.iter().enumerate() {
        let Ok(number) = u32::try_from(place) else {
            return Err(AllocError);
        };
        let start = start_of(checkpoints, place);
        write_noted_executor(out, alloc, script, endings, ExecId(number), start, journal)?;
    }
    Ok(())
}

// The text with what is said of each turn.
fn noted_report(alloc: Global, script: &Script, report: &Report) -> Result<Vec<u8>, AllocError>
    ensures { IfOk result (λ said. said.items ≡ noted_text script.now report.now) }
{
    let tasks = report_text(alloc, script, report, true)?;
    let mut out = Text::new(alloc);
    out.say(b"journals\n");
    write_noted_executors(
        &mut out,
        alloc,
        script,
        &report.endings,
        &report.checkpoints,
        &report.journals,
    )?;
    out.say(&tasks);
    out.into_bytes()
}

/// The text of a report on a script, with its journals, and below the line of each turn the fields that it changed, a line for each;
/// of a turn that was undone, what it would have left, and which invariant is false there; and of a task's first turn what the task is
/// called, as `task_name` has it (the format is our own). These lines begin with four spaces. Without them the text is that of
/// `report_text`. Of turns that were folded nothing is said.
///
/// It costs what the report's text and `turn_values` cost.
///
/// # Errors
///
/// `AllocError` where there is no memory for it.
pub fn report_with_values(
    alloc: Global,
    script: &Script,
    report: &Report,
) -> Result<Vec<u8>, AllocError>
    ensures said { IfOk result (λ said. said.items ≡ noted_text script.now report.now) }
    ensures annotated { IfOk result (λ said. IsAnnotated (text_of script.now report.now false) said.items) }
{
    noted_report(alloc, script, report)
}
