//! One turn, compared with the journal or taken from a checkpoint.

ghost use Rattle.std.specs.Prelude.{◌≡◌, ◌<◌, ◌↔◌, ◌+◌, count_by, IfOk, IfSome, IsTrue, None};
ghost use Rattle.swift_interpreter.specs.Frames.{effect_view, effect_views, frame_view, frame_if};
ghost use Rattle.swift_interpreter.specs.TurnStates.{exit_view};
ghost use Rattle.swift_journal.specs.Records.{frame_if_lent};
ghost use Rattle.swift_history.specs.Histories.{IsLeft, LeavesFrame, left_as, makes_own, opens_group};
ghost use Rattle.swift_script.specs.Scripts.{method_count};
ghost use Rattle.swift_turn.specs.Body.{HasFirst, IsRunning};
ghost use Rattle.swift_certificate.specs.ReplayInside.{Folds, IsNext, TakesFolded};

use std::alloc::{AllocError, Global};
use swift_interpreter::{Effect, Exit, Frame};
use swift_journal::{Checkpoint, Folded, Journal};
use swift_steps::{NextTurn, PlayedTurn};
use swift_turn::Body;
use swift_types::TaskId;

/// How far an executor was followed: how many of its checkpoint's turns and of its journal's there were.
#[derive(Drop)]
pub struct ExecutorProgress {
    pub folded: usize,
    pub played: usize,
}

/// A turn of a checkpoint, which is to be applied.
#[derive(Drop)]
pub struct FoldedTurn {
    pub ready: NextTurn,
    pub exit: Exit,
    pub effects: Vec<Effect>,
}

// Whether an effect counts among the tasks that its task has made of its own.
fn makes_own(effect: &Effect) -> bool
    ensures { result ≡ makes_own (effect_view effect.now) }
{
    matches!(effect, Effect::Spawn { .. } | Effect::Detach(_, _))
}

fn opens_group(effect: &Effect) -> bool
    ensures { result ≡ opens_group (effect_view effect.now) }
{
    matches!(effect, Effect::Open)
}

// A task's counts in a frame: how many tasks it has spawned or detached, and how many groups it has opened.
#[derive(Clone, Copy)]
struct MadeCounts {
    made: u64,
    opened: u64,
}

// The task's counts in a frame after these effects. Nothing where one would not fit.
fn counts_after(frame: &Frame, effects: &[Effect]) -> Option<MadeCounts>
    ensures made { IfSome result (λ c. c.made ≡ frame.now.made + count_by makes_own (effect_views effects.now)) }
    ensures opened { IfSome result (λ c. c.opened ≡ frame.now.opened + count_by opens_group (effect_views effects.now)) }
{
    let mut counts = MadeCounts {
        made: frame.made,
        opened: frame.opened,
    };
    for effect in effects {
        if makes_own(effect) {
            counts.made = counts.made.checked_add(1)?;
        }
        if opens_group(effect) {
            counts.opened = counts.opened.checked_add(1)?;
        }
    }
    Some(counts)
}

// The frame with its task's counts after these effects. Nothing where a count would not fit.
fn count_effects(mut frame: Frame, effects: &[Effect]) -> Option<Frame>
    ensures counts { IfSome result (λ after. frame_view after ≡ left_as (frame_view frame) (effect_views effects.now) None) }
    ensures method { IfSome result (λ after. after.method ≡ frame.method) }
{
    let counts = counts_after(&frame, effects)?;
    frame.made = counts.made;
    frame.opened = counts.opened;
    Some(frame)
}

// Whether a frame is left by such an exit.
fn is_left(exit: &Exit) -> bool
    ensures { IsTrue result ↔ IsLeft (exit_view exit.now) }
{
    matches!(exit, Exit::Return(_) | Exit::Fault(_))
}

/// Whether a turn that was played, of a frame like this, is the next one of an executor's journal. It counts as played then.
pub fn is_next(
    row: &mut ExecutorProgress,
    journal: &Journal,
    scratch: &mut Journal,
    turn: &PlayedTurn,
    frame: &Frame,
) -> Result<bool, AllocError>
    requires { IsRunning turn.now.ready.body }
    ensures { IfOk result (λ yes. IsTrue yes → IsNext journal.now row.old row.new turn.now (frame_view frame.now)) }
{
    let place = row.played;
    if place >= journal.len() {
        return Ok(false);
    }
    if !journal.has(place, &turn.record(frame, journal.worker(place)), scratch)? {
        return Ok(false);
    }
    row.played += 1;
    Ok(true)
}

// The frame with which a task goes on after a turn that is not played.
fn frame_after(
    body: &Body,
    effects: &[Effect],
    after: Option<Frame>,
) -> Result<Option<Frame>, AllocError>
    requires { IsRunning body.now }
    ensures left { IfOk result (λ answer. IfSome answer (λ frame. HasFirst body.now.task.frames (λ p. frame_view frame ≡ left_as p (effect_views effects.now) (frame_if after)))) }
    ensures method { IfOk result (λ answer. IfSome answer (λ frame. frame.method.0 < method_count body.now.script)) }
{
    match after {
        Some(frame) if body.can_put_back(&frame) => Ok(Some(frame)),
        Some(_) => Ok(None),
        None => Ok(count_effects(body.frame()?, effects)),
    }
}

// A task's job after a turn that was not played, which has ended so. Nothing where the frame after it cannot stand there.
fn go_on(
    ready: NextTurn,
    exit: Exit,
    effects: Vec<Effect>,
    after: Option<Frame>,
) -> Result<Option<FoldedTurn>, AllocError>
    requires running { IsRunning ready.body }
    ensures { IfOk result (λ answer. IfSome answer (λ done. TakesFolded ready (effect_views effects.items) (exit_view exit) (frame_if after) done)) }
{
    let Some(frame) = frame_after(&ready.body, &effects, after)? else {
        return Ok(None);
    };
    let mut ready = ready;
    ready.body.put_back(frame);
    Ok(Some(FoldedTurn {
        ready,
        exit,
        effects,
    }))
}

// Whether a turn of a frame, with these effects and this exit, can have left this frame.
fn can_leave(frame: &Frame, effects: &[Effect], exit: &Exit, after: Option<&Frame>) -> bool
    ensures { IsTrue result → LeavesFrame (frame_view frame.now) (effect_views effects.now) (exit_view exit.now) (frame_if_lent after.entry) }
{
    let Some(left) = after else {
        return is_left(exit);
    };
    match counts_after(frame, effects) {
        Some(counts) => !is_left(exit) && left.made == counts.made && left.opened == counts.opened,
        None => false,
    }
}

/// Takes the next turn of an executor's checkpoint. It is not played again. Nothing where the checkpoint has a turn of another
/// task or number there, one that cannot have left the frame that stands there, or none.
pub fn fold(
    alloc: Global,
    row: &mut ExecutorProgress,
    checkpoint: &Checkpoint,
    task: TaskId,
    ready: NextTurn,
) -> Result<Option<FoldedTurn>, AllocError>
    requires running { IsRunning ready.body }
    ensures { IfOk result (λ answer. IfSome answer (λ done. Folds checkpoint.now.view row.old row.new task ready done)) }
{
    if row.folded >= checkpoint.len() {
        return Ok(None);
    }
    let Folded {
        task: of,
        number,
        exit,
        effects,
        after,
    } = checkpoint.read(alloc, row.folded)?;
    if of != task || number != ready.number {
        return Ok(None);
    }
    if !can_leave(ready.body.top(), &effects, &exit, after.as_ref()) {
        return Ok(None);
    }
    row.folded += 1;
    go_on(ready, exit, effects, after)
}
