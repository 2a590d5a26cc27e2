//! Whether the effects and the exit of a turn fit it.

ghost use Rattle.std.specs.Prelude.{◌≡◌, ◌+◌, ◌<◌, ◌≤◌, ◌^◌, ◌&&◌, true, false, IfSome, IfNone};
ghost use Rattle.swift_script.specs.SameScripts.{same_scripts};
ghost use Rattle.swift_script.specs.Scripts.{ScriptView};
ghost use Rattle.swift_interpreter.specs.Frames.{invocation_view, effect_view, effect_views};
ghost use Rattle.swift_interpreter.specs.TurnStates.{exit_view};
ghost use Rattle.swift_history.specs.Checks.{can_run, can_name, can_use, fits_effect, counted, fits_exit, fits_turn, counters};
ghost use Rattle.swift_tasks.specs.Refusals.{fits_begun};
ghost use Rattle.swift_tasks.specs.CountedInside.{counters_of, UnopenedAreNotClosed};

use swift_events::JobStage;
use swift_interpreter::{Effect, Exit, Invocation, TaskName};
use swift_ledger::Ledger;
use swift_script::Script;
use swift_types::TaskId;

/// What a task has made by a place among the effects of its turn, and how many tasks the turn may still make.
#[derive(Clone, Copy)]
pub struct EffectCounts {
    pub own: usize,
    pub opened: usize,
    pub room: u32,
}

// Whether an invocation is of a method of its actor, with as many arguments as that has parameters.
fn runs(script: &Script, invocation: &Invocation) -> bool
    ensures { result ≡ can_run script.now (invocation_view invocation.now) }
{
    let method = invocation.method;
    (method.0 as usize) < script.method_count()
        && script.method_actor(method).0 == invocation.actor.0
        && invocation.args.as_slice().len() == script.method_params(method) as usize
}

// Whether a task that a turn names is there by then.
fn names(script: &Script, ledger: &Ledger, counts: EffectCounts, name: TaskName) -> bool
    ensures { result ≡ can_name script.now ledger.now.log (counters_of counts) name }
{
    match name {
        TaskName::Root(root) => {
            (root.0 as usize) < script.root_count() && ledger.life(TaskId(root.0)).origin.is_some()
        }
        TaskName::Own(number) => (number as usize) < counts.own,
    }
}

// Whether a group that a turn names is open by then.
fn uses(ledger: &Ledger, task: TaskId, counts: EffectCounts, group: u32) -> bool
    requires { UnopenedAreNotClosed ledger.now.log }
    ensures { result ≡ can_use task.0 ledger.now.log (counters_of counts) group }
{
    if group as usize >= counts.opened {
        return false;
    }
    group as usize >= ledger.opened(task) || ledger.is_open_group(task, group)
}

// The counts after an effect, if it fits at its place.
fn counted_on(
    script: &Script,
    ledger: &Ledger,
    task: TaskId,
    counts: EffectCounts,
    effect: &Effect,
) -> Option<EffectCounts>
    requires own { counts.own < 2 ^ 63 }
    requires closed { UnopenedAreNotClosed ledger.now.log }
    ensures none { IfNone result (fits_effect script.now task.0 ledger.now.log (counters_of counts) (effect_view effect.now) ≡ false) }
    ensures fits { IfSome result (λ after. fits_effect script.now task.0 ledger.now.log (counters_of counts) (effect_view effect.now) ≡ true) }
    ensures counted { IfSome result (λ after. counters_of after ≡ counted (counters_of counts) (effect_view effect.now)) }
    ensures few { IfSome result (λ after. after.own + after.room ≤ counts.own + counts.room) }
{
    let EffectCounts { own, opened, room } = counts;
    match effect {
        Effect::Spawn { invocation, .. } | Effect::Detach(invocation, _) => {
            if room == 0 || !runs(script, invocation) {
                return None;
            }
            Some(EffectCounts {
                own: own + 1,
                opened,
                room: room - 1,
            })
        }
        Effect::Open => {
            if opened >= 1 << 32 {
                return None;
            }
            Some(EffectCounts {
                own,
                opened: opened + 1,
                room,
            })
        }
        Effect::Add {
            group,
            invocation,
            ..
        } => {
            if room == 0 || !uses(ledger, task, counts, *group) || !runs(script, invocation) {
                return None;
            }
            Some(EffectCounts {
                own,
                opened,
                room: room - 1,
            })
        }
        Effect::CancelTask(name) => names(script, ledger, counts, *name).then_some(counts),
        Effect::CancelGroup(group) => uses(ledger, task, counts, *group).then_some(counts),
    }
}

// Whether the exit fits after the effects.
fn leaves(script: &Script, ledger: &Ledger, task: TaskId, counts: EffectCounts, exit: &Exit) -> bool
    requires { UnopenedAreNotClosed ledger.now.log }
    ensures { result ≡ fits_exit script.now task.0 ledger.now.log (counters_of counts) (exit_view exit.now) }
{
    match exit {
        Exit::Call(invocation) => runs(script, invocation),
        Exit::Wait(name) => names(script, ledger, counts, *name),
        Exit::Next(group) => uses(ledger, task, counts, *group),
        Exit::Close(group, _) => uses(ledger, task, counts, *group),
        Exit::Yield | Exit::Return(_) | Exit::Fault(_) => true,
    }
}

/// Whether the effects of a turn, in order, and its exit fit the log in which it has begun, with these counts. It takes time
/// linear in the effects.
pub fn turn_fits(
    script: &Script,
    ledger: &Ledger,
    task: TaskId,
    begun: EffectCounts,
    effects: &[Effect],
    exit: &Exit,
) -> bool
    requires own { begun.own ≤ 2 ^ 32 }
    requires closed { UnopenedAreNotClosed ledger.now.log }
    ensures { result ≡ fits_turn script.now task.0 ledger.now.log (counters_of begun) (effect_views effects.now) (exit_view exit.now) }
{
    let mut counts = begun;
    for effect in effects {
        let Some(after) = counted_on(script, ledger, task, counts, effect) else {
            return false;
        };
        counts = after;
    }
    leaves(script, ledger, task, counts, exit)
}

/// Whether a turn at this stage of its task has begun, and its effects and its exit fit. It asks what the task has made before only
/// where an effect, or the exit, may name such a thing.
pub fn begun_fits(
    script: &Script,
    ledger: &Ledger,
    task: TaskId,
    stage: Option<JobStage>,
    effects: &[Effect],
    exit: &Exit,
) -> bool
    requires { UnopenedAreNotClosed ledger.now.log }
    ensures { (other : ScriptView) → fits_begun script.now ledger.now.log task.0 other (effect_views effects.now) (exit_view exit.now) stage ≡ (result && same_scripts script.now other) }
{
    match stage {
        Some(JobStage::Begun(env)) => fits_room(script, ledger, task, env.room, effects, exit),
        _ => false,
    }
}

// Whether the effects and the exit of a turn that may make `room` tasks fit.
fn fits_room(
    script: &Script,
    ledger: &Ledger,
    task: TaskId,
    room: u32,
    effects: &[Effect],
    exit: &Exit,
) -> bool
    requires { UnopenedAreNotClosed ledger.now.log }
    ensures { result ≡ fits_turn script.now task.0 ledger.now.log (counters task.0 ledger.now.log room) (effect_views effects.now) (exit_view exit.now) }
{
    if effects.is_empty() {
        match exit {
            Exit::Call(invocation) => return runs(script, invocation),
            Exit::Yield | Exit::Return(_) | Exit::Fault(_) => return true,
            Exit::Wait(_) | Exit::Next(_) | Exit::Close(_, _) => {}
        }
    }
    let counts = counts_of(ledger, task, room);
    turn_fits(script, ledger, task, counts, effects, exit)
}

// What a task has made before its turn, which may make `room` tasks.
fn counts_of(ledger: &Ledger, task: TaskId, room: u32) -> EffectCounts
    ensures counts { counters_of result ≡ counters task.0 ledger.now.log room }
    ensures few { result.own ≤ 2 ^ 32 }
{
    let _tasks = ledger.tasks();
    EffectCounts {
        own: ledger.own_count(task),
        opened: ledger.opened(task),
        room,
    }
}
