//! One turn: entered, played and left.

ghost use Rattle.std.specs.Prelude.{◌≡◌, ◌<◌, ◌⊎◌, true, IfErr, IfOk, IsSome, OnErr, OnOk, None, Some};
ghost use Rattle.futures.specs.Task.{Keeps};
ghost use Rattle.script_code.specs.Seen.{rows_of};
ghost use Rattle.swift_interpreter.specs.Frames.{effect_views, frame_view};
ghost use Rattle.swift_script.specs.Scripts.{method_count};
ghost use Rattle.swift_interpreter.specs.Saved.{restored};
ghost use Rattle.swift_interpreter.specs.TurnStates.{exit_view};
ghost use Rattle.swift_turn.specs.Body.{IfRunning, IsRunning, Registers, at_rest, callers_of, ending_if, idle, invariants_at, left, polled_in, Polls, entered};
ghost use Rattle.swift_undo.specs.Laws.{AllHold};
ghost use Rattle.swift_undo.specs.Rows.{HaveRows};

use crate::body::Body;
use crate::outcome::TurnOutcome;
use futures::Future;
use futures::task::Context;
use std::alloc::AllocError;
use swift_interpreter::{Effect, Exit, Frame, SavedRows};
use swift_types::{Env, Resume};
use swift_undo::InvariantRows;

/// Plays a whole turn on fields in place, in buffers of the caller's that are used again from turn to turn: `fields` become
/// those after the turn, `before` the frame as it was, and `effects` what it did, in order; what the last two had before
/// counts for nothing. A turn that was entered before is given up. It is polled once, as by `poll` of `Body`.
///
/// All invariants of the actors of the frame's executor hold before it: only those are tested whose rows it has set. `rows` has the row
/// that each of them reads, in order (`rows_of_invariants` of `swift_undo`); one beside which no row stands is tested.
///
/// `saved` becomes the rows that the turn has set, as they were before it, also after an error; what it had before counts for nothing.
///
/// After an error the body is as it was, but that no turn is under way, the fields are as before, and the rest means nothing. Its
/// cost is the turn's steps, the sizes of the frame's variables and own bindings, the rows of fields that it sets, and the invariants that it
/// tests: it does not look at the others. It takes memory only for what the turn makes, for the rows of fields that it sets, and where a
/// buffer is too small.
pub fn play_turn_from(
    body: &mut Body,
    cx: &mut Context<'_>,
    rows: &InvariantRows,
    fields: &mut Vec<Vec<i64>>,
    saved: &mut SavedRows,
    resume: Resume,
    env: Env,
    before: &mut Frame,
    effects: &mut Vec<Effect>,
) -> Result<Exit, AllocError>
    requires running { IsRunning body.old }
    requires rows { IfRunning body.old.task.frames (λ p. HaveRows rows.now (invariants_at body.old.script p)) }
    requires hold { IfRunning body.old.task.frames (λ p. AllHold (invariants_at body.old.script p) (rows_of fields.old.items)) }
    // The theorem: the fields, the effects and the exit are those of the kept turn of the frame that ran, and the body stands for
    // what it leaves.
    ensures turn { IfOk result (λ exit. Polls body.old.script body.old.task.outer body.old.task.frames (entered (rows_of fields.old.items) resume env)
        body.new.task.frames (left (rows_of fields.new.items) (effect_views effects.new.items) (exit_view exit))) }
    // The fields are again as they were, once the rows are put back.
    ensures saved { restored saved.new (rows_of fields.new.items) ≡ rows_of fields.old.items }
    // The frame that ran, as it was.
    ensures before { OnOk result (IfRunning body.old.task.frames (λ p. p ≡ frame_view before.new)) }
    ensures method { OnOk result (before.new.method.0 < method_count body.old.script) }
    ensures rest { OnOk result (body.new ≡ record body.old { task = record body.old.task { frames = body.new.task.frames }; phase = idle; waker = body.new.waker }) }
    // Where the turn waits, the waker of the task that is polled lies in the slot of the body's source, unless none could be made.
    ensures waits { IfOk result (λ exit. Registers (exit_view exit) → (cx.new.lacks_waker ≡ true) ⊎ (body.new.waker ≡ Some (polled_in cx.old))) }
    // Else, where the task goes on, the next poll is asked for.
    ensures yields { IfOk result (λ exit. ending_if (callers_of body.old.task.frames) (exit_view exit) ≡ None → (Registers (exit_view exit) → ⊥) → cx.new.is_woken ≡ true) }
    // A waker lies there only where the turn waits.
    ensures slot { IfOk result (λ exit. IsSome body.new.waker → Registers (exit_view exit)) }
    ensures err { OnErr result (body.new ≡ at_rest body.old) }
    ensures back { OnErr result (rows_of fields.new.items ≡ rows_of fields.old.items) }
    ensures kept { Keeps cx.old cx.new }
{
    body.play_in_place(cx, rows, fields, saved, resume, env, before, effects)
}

/// Enters a turn, plays it without a poll and leaves it, for whoever replays a turn and waits for nothing, and for a task that has not
/// ended (`is_running`): the kept turn of the frame that runs. No waker is made, and one that lies in the slot of the body's source
/// stays there. The body then stands for what that turn leaves. Out of memory, the fields come back, and the body is as it was, but that a
/// turn which was entered before may be given up. Its cost is the turn's steps, the sizes of the frame's variables and own bindings, the
/// fields of the actors that it sets, and the invariants of its executor's actors. It takes memory for what it makes, and where
/// what it keeps to undo it is more than that of any turn before.
pub fn replay_turn(
    body: &mut Body,
    fields: Vec<Vec<i64>>,
    resume: Resume,
    env: Env,
) -> Result<TurnOutcome, (Vec<Vec<i64>>, AllocError)>
    requires { IsRunning body.old }
    ensures turn { IfOk result (λ r. Polls body.old.script body.old.task.outer body.old.task.frames (entered (rows_of fields.items) resume env)
        body.new.task.frames (left (rows_of r.fields.items) (effect_views r.effects.items) (exit_view r.exit))) }
    ensures rest { OnOk result (body.new ≡ record body.old { task = record body.old.task { frames = body.new.task.frames }; phase = idle }) }
    ensures back { IfErr result (λ e. rows_of e.0.items ≡ rows_of fields.items) }
    ensures err { OnErr result ((body.new ≡ body.old) ⊎ (body.new ≡ at_rest body.old)) }
{
    body.enter(fields, resume, env)?;
    body.play_turn();
    body.leave()
}
