//! The bodies of the tasks that a turn makes.

ghost use Rattle.std.specs.Prelude.{◌≡◌, ◌<◌, ◌∷◌, [], map, IfOk};
ghost use Rattle.std.specs.Arc.{arc_value};
ghost use Rattle.std.specs.List.{AllByRecursion};
ghost use Rattle.swift_script.specs.Scripts.{method_count};
ghost use Rattle.swift_interpreter.specs.Frames.{invocation_view, effect_view, effect_views};
ghost use Rattle.swift_turn.specs.Body.{idle};
ghost use Rattle.swift_history.specs.TurnEnds.{beginning};
ghost use Rattle.swift_tasks.specs.BodiesInside.{CanStart, IsBodyOf, AreBodiesOf};

use std::alloc::{AllocError, Global};
use std::sync::Arc;
use swift_interpreter::{Effect, Invocation};
use swift_locals::Bindings;
use swift_script::Script;
use swift_turn::Body;

// A task before its first turn.
fn start(
    alloc: Global,
    script: &Arc<Script>,
    invocation: &Invocation,
    bindings: Bindings,
) -> Result<Body, AllocError>
    requires { invocation.now.method.0 < method_count (arc_value script.now) }
    ensures script { IfOk result (λ body. body.script ≡ arc_value script.now) }
    ensures task { IfOk result (λ body. let i = invocation_view invocation.now in body.task ≡ beginning (arc_value script.now) i.method i.args bindings) }
    ensures rest { IfOk result (λ body. body.phase ≡ idle) }
{
    let args = invocation.args.to_vec(alloc)?;
    Body::start(alloc, script.clone()?, invocation.method, args, bindings)
}

// The body of the task that an effect makes, if it makes one.
fn body_of(alloc: Global, script: &Arc<Script>, effect: &Effect) -> Result<Option<Body>, AllocError>
    requires { CanStart (arc_value script.now) (effect_view effect.now) }
    ensures { IfOk result (λ body. IsBodyOf (arc_value script.now) (effect_view effect.now) body) }
{
    match effect {
        Effect::Spawn {
            invocation,
            bindings,
            ..
        }
        | Effect::Add {
            invocation,
            bindings,
            ..
        } => {
            let bindings = bindings.copy()?;
            Ok(Some(start(alloc, script, invocation, bindings)?))
        }
        Effect::Detach(invocation, _) => {
            Ok(Some(start(alloc, script, invocation, Bindings::new(alloc))?))
        }
        Effect::Open | Effect::CancelTask(_) | Effect::CancelGroup(_) => Ok(None),
    }
}

/// The bodies of the tasks that effects make, a place for each effect. They have copies of what the effects say. Without effects
/// it takes no memory.
pub fn bodies_of(
    alloc: Global,
    script: &Arc<Script>,
    effects: &[Effect],
) -> Result<Vec<Option<Body>>, AllocError>
    requires { AllByRecursion (CanStart (arc_value script.now)) (effect_views effects.now) }
    ensures { IfOk result (λ bodies. AreBodiesOf (arc_value script.now) (effect_views effects.now) bodies.items) }
{
    // Most turns have none.
    if effects.is_empty() {
        return Ok(Vec::new(alloc));
    }
    let mut bodies = Vec::with_capacity(alloc, effects.len())?;
    for effect in effects {
        bodies.push(body_of(alloc, script, effect)?)?;
    }
    Ok(bodies)
}
