//! How a job is played, put back and written.

ghost use Rattle.std.specs.Prelude.{◌≡◌, ◌<◌, ◌++◌, [], ◌∷◌, IfErr, IfOk, OnErr, OnOk, List, ℤ, length};
ghost use Rattle.futures.specs.Task.{Keeps};
ghost use Rattle.script_code.specs.Seen.{rows_of};
ghost use Rattle.swift_types.specs.declared.limits.TheConstants.{FOLD};
ghost use Rattle.swift_interpreter.specs.TurnStates.{exit_view};
ghost use Rattle.swift_journal.specs.Records.{frame_if_lent};
ghost use Rattle.swift_history.specs.Jobs.{job_facts};
ghost use Rattle.swift_interpreter.specs.Frames.{frame_view};
ghost use Rattle.swift_script.specs.Scripts.{method_count};
ghost use Rattle.swift_turn.specs.Body.{IsRunning, callers_of};
ghost use Rattle.swift_executor.specs.PlayingInside.{CanGoBack, HasFoldRoom, HasJob, HasTurned, IsUnturned, JobTurned, JobUnturned, MaySpare, Settles, WritesRecord};
ghost use Rattle.swift_executor.specs.State.{before_turn, frame_after};
ghost use Rattle.swift_executor.specs.StateInside.{stage_of};

use crate::chosen::{ChosenStage, PlayedTurn, fill, take_out};
use futures::task::Context;
use std::alloc::{AllocError, Global};
use std::mem;
use swift_interpreter::{Exit, Frame};
use swift_job::Job;
use swift_journal::{Checkpoint, Journal, Record};
use swift_turn::Body;
use swift_types::limits::FOLD;
use swift_types::{Env, Resume};
use swift_undo::InvariantRows;

// A copy of these rows.
fn copy_of(alloc: Global, from: &[Vec<i64>]) -> Result<Vec<Vec<i64>>, AllocError>
    ensures { IfOk result (λ rows. rows_of rows.items ≡ rows_of from.now) }
{
    let mut rows = Vec::new(alloc);
    for row in from {
        rows.push(Vec::from_slice(alloc, row)?)?;
    }
    Ok(rows)
}

// Runs a turn of a body on the fields that `played` has, of which all invariants hold, and leaves there what it gives. `rows` has
// the row that each of them reads. Where there is no memory for it, the body has had no turn, and but for the fields before it what is
// there means nothing.
fn play_body(
    body: &mut Body,
    cx: &mut Context<'_>,
    rows: &InvariantRows,
    resume: Resume,
    env: Env,
    played: &mut PlayedTurn,
) -> Result<(), AllocError>
    requires running { IsRunning body.old }
    requires spared { MaySpare rows.now played.old.fields.before body.old }
    ensures ok { OnOk result (HasTurned body.old body.new played.old.fields.before resume env played.new) }
    ensures same { played.new.fields.before ≡ played.old.fields.before }
    ensures err { OnErr result (IsUnturned body.old body.new) }
    ensures kept { Keeps cx.old cx.new }
{
    played.exit = played.fields.play(
        body,
        cx,
        rows,
        resume,
        env,
        &mut played.frame,
        &mut played.effects,
    )?;
    Ok(())
}

/// Runs the turn of the job in its place, on the fields that `played` has, of which all invariants hold. Where there is no memory
/// for it, the job has had none.
pub fn play_job(
    place: &mut Option<Job<Body>>,
    cx: &mut Context<'_>,
    rows: &InvariantRows,
    env: Env,
    played: &mut PlayedTurn,
) -> Result<(), AllocError>
    requires { HasJob place.old (λ j. IsRunning j.body × MaySpare rows.now played.old.fields.before j.body) }
    ensures ok { OnOk result (HasJob place.old (λ old. HasJob place.new (λ new. JobTurned old new played.old.fields.before env played.new))) }
    ensures same { played.new.fields.before ≡ played.old.fields.before }
    ensures err { OnErr result (HasJob place.old (λ old. HasJob place.new (JobUnturned old))) }
    ensures kept { Keeps cx.old cx.new }
{
    let (task, number, resume, mut body) = take_out(place).spend();
    let turned = play_body(&mut body, cx, rows, resume, env, played);
    fill(place, Job::new(task, number, resume, body));
    turned
}

/// The job with this frame in place of the one that runs.
pub fn with_frame(job: Job<Body>, frame: Frame) -> Job<Body>
    requires running { IsRunning job.body }
    requires method { frame.method.0 < method_count job.body.script }
    ensures job { job_facts result ≡ record (job_facts job) { frames = record { frames = frame_view frame ∷ callers_of job.body.task.frames; outer = job.body.task.outer } } }
    ensures script { result.body.script ≡ job.body.script }
{
    let (task, number, resume, mut body) = job.spend();
    body.put_back(frame);
    Job::new(task, number, resume, body)
}

/// The job as it was when it was chosen. The frame that was kept for this goes back, and then it means nothing.
pub fn as_chosen(
    alloc: Global,
    job: Job<Body>,
    stage: ChosenStage,
    played: &mut PlayedTurn,
) -> Job<Body>
    requires running { IsRunning job.body }
    requires frame { CanGoBack job played.old stage }
    ensures job { job_facts result ≡ before_turn (stage_of played.old stage) job }
    ensures script { result.body.script ≡ job.body.script }
    ensures same { played.new.fields ≡ played.old.fields }
{
    match stage {
        ChosenStage::Picked | ChosenStage::Begun(_, _) => job,
        ChosenStage::Played(_, _) => {
            let frame = mem::replace(&mut played.frame, Frame::new(alloc));
            with_frame(job, frame)
        }
    }
}

// The frame after a turn that ended so, where one goes on.
fn after<'a>(body: &'a Body, exit: &Exit) -> Option<&'a Frame>
    requires { IsRunning body.now }
    ensures { frame_if_lent result ≡ frame_after (exit_view exit.now) body.now.task.frames }
{
    match exit {
        Exit::Return(_) | Exit::Fault(_) => None,
        _ => Some(body.top()),
    }
}

/// Writes the record of a turn that was played.
pub fn write_record(
    journal: &mut Journal,
    job: &Job<Body>,
    stage: ChosenStage,
    played: &PlayedTurn,
) -> Result<(), AllocError>
    requires { IsRunning job.now.body }
    ensures ok { OnOk result (WritesRecord played.now stage job.now journal.old journal.new) }
    ensures err { OnErr result (journal.new ≡ journal.old) }
{
    let ChosenStage::Played(worker, env) = stage else {
        return Ok(());
    };
    journal.push(&Record {
        task: job.task(),
        number: job.number(),
        worker,
        frame: &played.frame,
        outer: job.body().outer(),
        resume: job.resume(),
        env,
        exit: &played.exit,
        effects: &played.effects,
        after: after(job.body(), &played.exit),
    })
}

/// Makes room for folding a journal, where it is full, with the fields after it.
pub fn room_to_fold(
    alloc: Global,
    journal: &Journal,
    checkpoint: &mut Checkpoint,
    fields: &[Vec<i64>],
) -> Result<Option<Vec<Vec<i64>>>, AllocError>
    ensures same { checkpoint.new.view ≡ checkpoint.old.view }
    ensures ok { IfOk result (λ copy. HasFoldRoom copy checkpoint.new journal.now (rows_of fields.now)) }
{
    if journal.len() < FOLD {
        return Ok(None);
    }
    let copy = copy_of(alloc, fields)?;
    checkpoint.make_room(journal)?;
    Ok(Some(copy))
}

/// Folds a journal for which there is room.
pub fn settle(journal: &mut Journal, checkpoint: &mut Checkpoint, copy: Option<Vec<Vec<i64>>>)
    requires { (rows : List (List ℤ)) × HasFoldRoom copy checkpoint.old journal.old rows }
    ensures { Settles copy journal.old journal.new checkpoint.old checkpoint.new }
{
    if let Some(copy) = copy {
        checkpoint.fold(journal, copy);
    }
}
