//! One turn explained.

ghost use Rattle.std.specs.Prelude.{◌≡◌, ◌+◌, ◌<◌, ◌≤◌, length, map, slice_index_or, take, IfOk, IfSome};
ghost use Rattle.script_code.specs.Instructions.{FollowsCode};
ghost use Rattle.script_code.specs.Layout.{code_at};
ghost use Rattle.script_code.specs.Seen.{rows_of};
ghost use Rattle.script_compiler.specs.IsCompiled.{actor_number};
ghost use Rattle.swift_script.specs.Scripts.{method_actor, method_code, method_count};
ghost use Rattle.swift_journal.specs.Records.{RecordView, owned_view};
ghost use Rattle.swift_history.specs.Replay.{replay};
ghost use Rattle.swift_report.specs.Text.{line_of};
ghost use Rattle.run_pictures.specs.Values.{values_from, values_views};
ghost use Rattle.nuchapay_runs.specs.Explains.{Explains, IsNotFolded, IsWhyAt, Tells};
ghost use Rattle.nuchapay_runs.specs.KnownInside.{TellsAt, known_of};
ghost use Rattle.nuchapay_runs.specs.LinesInside.{line_in};
ghost use Rattle.nuchapay_runs.specs.SaysInside.{Says};
ghost use Rattle.nuchapay_runs.specs.NamedInside.{names_view};
ghost use Rattle.nuchapay_runs.specs.Why.{head_text, meantime_text, own_place, place_among, task_text, why_text};

use crate::formula::NamesAt;
use crate::line::write_turn;
use crate::names::{Found, find_turn};
use crate::printed::{method_text, method_word, variables_of};
use crate::text::Text;
use crate::why::{write_ends, write_fields, write_found, write_meanwhile, write_name_note};
use crate::words::Words;
use run_pictures::picture::{TurnBox, box_at};
use run_pictures::{TurnValues, fields_before, last_turn, turn_values};
use script_code::Instruction;
use std::alloc::{AllocError, Global};
use swift_events::Origin;
use swift_journal::{Checkpoint, Journal, OwnedRecord};
use swift_report::Report;
use swift_script::Script;
use swift_types::{ActorId, Ending, ExecId, MethodId, TaskId};

/// What is known of a turn (our own).
#[derive(Drop)]
pub enum Explained {
    /// It stands in a journal: the text that explains it.
    Found(Vec<u8>),
    /// It was folded into a checkpoint, which keeps neither the frame nor the fields from before it.
    Folded,
    /// The run has no such turn.
    Nowhere,
}

/// Explains a turn of a report on a script, by its task and its number there (the format is our own): the line of the report for it; its
/// task by its name; its method, and at which statement it began and its frame goes on; what it began with, its variables and the bindings
/// that stood; the fields of its actor, and others that it changed; of a turn that was undone, what it would have left and which invariant
/// is false there; and for each field of its actor that turns of other tasks changed since its task's last turn on that executor, a line
/// for each of these turns.
///
/// It costs a look over the script's text, and playing the turns of the executor's journal at most twice.
///
/// # Errors
///
/// `AllocError` where there is no memory for it.
pub fn explain_turn(
    alloc: Global,
    script: &Script,
    report: &Report,
    task: TaskId,
    number: u32,
) -> Result<Explained, AllocError>
    ensures stands { IfOk result (Explains report.now task.0 number) }
    ensures told { IfOk result (Tells script.now report.now task.0 number) }
{
    match find_turn(report, task, number) {
        Found::Folded => Ok(Explained::Folded),
        Found::Nowhere => Ok(Explained::Nowhere),
        Found::Journal(executor, place) => { explain_at(alloc, script, report, executor, place) }
    }
}

// Explains the turn at a place of an executor's journal.
fn explain_at(
    alloc: Global,
    script: &Script,
    report: &Report,
    executor: usize,
    place: usize,
) -> Result<Explained, AllocError>
    ensures folded { IfOk result IsNotFolded }
    ensures told { IfOk result (TellsAt script.now report.now executor place) }
{
    let Some(journal) = report.journals.get(executor) else {
        return Ok(Explained::Nowhere);
    };
    let Some(checkpoint) = report.checkpoints.get(executor) else {
        return Ok(Explained::Nowhere);
    };
    let Ok(executor) = u32::try_from(executor) else {
        return Ok(Explained::Nowhere);
    };
    if place >= journal.len() {
        return Ok(Explained::Nowhere);
    }
    let method = journal.method(place);
    if method.0 as usize >= script.method_count() {
        return Ok(Explained::Nowhere);
    }
    let executor = ExecId(executor);
    let position = checkpoint.len() + place;
    let said = turn_text(
        alloc,
        script,
        &report.endings,
        executor,
        checkpoint,
        position,
        journal,
        place,
        method,
    )?;
    Ok(Explained::Found(said))
}

// The place of an actor among those of its executor.
fn place_among(actors: &[ActorId], actor: ActorId) -> usize
    ensures { result ≡ place_among (map actor_number actors.now) actor.0 }
{
    for place in 0..actors.len() {
        if actors[place] == actor {
            return place;
        }
    }
    actors.len()
}

// A turn that is explained.
#[derive(Clone, Copy)]
struct ExplainedTurn<'a> {
    names: NamesAt<'a>,
    // Where the tasks of the run come from.
    endings: &'a [(Origin, Ending)],
    // The text of its method, and the instructions.
    method: &'a [u8],
    instructions: &'a [Instruction],
    // Its place among all turns of its executor, those of the journal, and its place among these.
    position: usize,
    journal: &'a Journal,
    place: usize,
    // What the report's line says of it, and what it was.
    line: TurnBox,
    found: &'a OwnedRecord,
    // The fields from before it, what it did to them, and what each turn of the journal did.
    before: &'a [Vec<i64>],
    own: &'a TurnValues,
    values: &'a [TurnValues],
    // The place of the last turn of its task.
    last: Option<usize>,
}

// The text of the turn at a place of a journal, which is one of this method.
fn turn_text(
    alloc: Global,
    script: &Script,
    endings: &[(Origin, Ending)],
    executor: ExecId,
    start: &Checkpoint,
    position: usize,
    journal: &Journal,
    place: usize,
    method: MethodId,
) -> Result<Vec<u8>, AllocError>
    requires place { place < length journal.now }
    requires position { position ≡ length start.now.view.folded + place }
    requires method { method.0 < method_count script.now }
    requires of_method { (d : RecordView) → method.0 ≡ (slice_index_or journal.now place d).frame.method }
    ensures { IfOk result (λ text. IsWhyAt script.now endings.now executor.0 start.now journal.now place text.items) }
{
    let found = journal.read(alloc, place)?;
    let actor = script.method_actor(method);
    let printed = Words::new(alloc, script.printed())?;
    let word = method_word(&printed, actor.0 as usize, script.method_name(method));
    let params = script.method_params(method) as usize;
    let variables = variables_of(alloc, &printed, word, params)?;
    let before = fields_before(alloc, script, start.fields(), journal, place)?;
    let values = turn_values(alloc, script, start.fields(), journal)?;
    let names = NamesAt {
        script,
        executor,
        actor,
        variables: &variables,
    };
    let body = method_text(&printed, word);
    let instructions = script.instructions(method);
    why_text(
        alloc,
        names,
        endings,
        body,
        instructions,
        start,
        position,
        journal,
        place,
        &found,
        &before,
        &values,
    )
}

// The text of the turn at a place of a journal, of which this is known.
fn why_text(
    alloc: Global,
    names: NamesAt<'_>,
    endings: &[(Origin, Ending)],
    method: &[u8],
    instructions: &[Instruction],
    start: &Checkpoint,
    position: usize,
    journal: &Journal,
    place: usize,
    found: &OwnedRecord,
    before: &[Vec<i64>],
    values: &[TurnValues],
) -> Result<Vec<u8>, AllocError>
    requires place { place < length journal.now }
    requires position { position ≡ length start.now.view.folded + place }
    requires actor { names.actor.0 ≡ method_actor names.script.now found.now.frame.method.0 }
    requires instructions { FollowsCode instructions.now (method_code names.script.now found.now.frame.method.0) (code_at (method_code names.script.now found.now.frame.method.0)) }
    requires found { (d : RecordView) → owned_view found.now ≡ slice_index_or journal.now place d }
    requires before { rows_of before.now ≡ replay names.script.now start.now.view.fields (take place journal.now) }
    requires values { values_views values.now ≡ values_from names.script.now start.now.view.fields journal.now }
    ensures { IfOk result (λ text. IsWhyAt names.entry.script.now endings.now names.entry.executor.0 start.now journal.now place text.items) }
{
    let turn = ExplainedTurn {
        names,
        endings,
        method,
        instructions,
        position,
        journal,
        place,
        line: box_at(journal, names.executor.0 as usize, place),
        found,
        before,
        own: &values[place],
        values,
        last: last_turn(journal, place),
    };
    let mut out = Text::new(alloc);
    write_why(&mut out, alloc, &turn);
    out.into_bytes()
}

// Whose turn it is.
fn write_task(out: &mut Text, script: &Script, endings: &[(Origin, Ending)], task: TaskId)
    ensures { Says out.old out.new (task_text script.now endings.now task.0) }
{
    out.say(b"task\n    t");
    out.number(task.0);
    write_name_note(out, script, endings, task);
    out.say(b"\n")
}

// The line of the report, the task, the method, and where in it the turn began and its frame goes on.
fn write_head(out: &mut Text, turn: &ExplainedTurn<'_>)
    requires line { line_in turn.now.line ≡ line_of (owned_view turn.now.found.now) }
    ensures { Says out.old out.new (head_text (known_of turn.now)) }
{
    write_turn(out, turn.names.script, turn.position, &turn.line);
    out.say(
        b"    place, task.turn, worker, method, priority, cancelled, what it began with -> how it ended\n",
    );
    write_task(out, turn.names.script, turn.endings, turn.found.task);
    out.say(b"method\n    ");
    out.say(turn.method);
    write_ends(out, &turn.names, turn.instructions, turn.found)
}

// The changes of fields of the turn's actor, which stands at this place of its executor, since the last turn of its task there.
fn write_since(out: &mut Text, turn: &ExplainedTurn<'_>, actor: usize)
    requires last { IfSome turn.now.last (λ last. last < turn.now.place) }
    requires turns { turn.now.place ≤ length turn.now.journal.now }
    requires values { turn.now.place ≤ length turn.now.values.now }
    requires actor { actor ≡ own_place (names_view turn.now.names) }
    ensures { Says out.old out.new (meantime_text (known_of turn.now)) }
{
    if let Some(last) = turn.last {
        write_meanwhile(
            out,
            turn.names.script,
            turn.names.executor,
            actor,
            turn.endings,
            turn.found.task,
            turn.journal,
            turn.values,
            last + 1,
            turn.place,
        )
    }
}

// The whole text.
fn write_why(out: &mut Text, alloc: Global, turn: &ExplainedTurn<'_>)
    requires line { line_in turn.now.line ≡ line_of (owned_view turn.now.found.now) }
    requires last { IfSome turn.now.last (λ last. last < turn.now.place) }
    requires turns { turn.now.place ≤ length turn.now.journal.now }
    requires values { turn.now.place ≤ length turn.now.values.now }
    ensures { Says out.old out.new (why_text (known_of turn.now)) }
{
    let NamesAt {
        script,
        executor,
        actor,
        ..
    } = turn.names;
    let actor = place_among(script.executor_actors(executor), actor);
    write_head(out, turn);
    write_found(out, &turn.names, turn.found);
    write_fields(out, alloc, script, executor, actor, turn.before, turn.own);
    write_since(out, turn, actor)
}
