//! What a script has for any method. For one that it lacks it has an empty body.

ghost use Rattle.std.specs.Prelude.{◌≡◌};
ghost use Rattle.script_code.specs.Instructions.{FollowsCode};
ghost use Rattle.script_code.specs.Layout.{code_at};
ghost use Rattle.script_code.specs.Tree.{terms_of};
ghost use Rattle.swift_script.specs.Scripts.{actor_executor, executor_invariants, method_actor, method_code};

use script_code::{Formula, Instruction};
use swift_script::Script;
use swift_types::{ActorId, MethodId};

/// The instructions of a method.
pub fn instructions_of(script: &Script, method: MethodId) -> &[Instruction]
    ensures { FollowsCode result.now (method_code script.now method.0) (code_at (method_code script.now method.0)) }
{
    if (method.0 as usize) < script.method_count() {
        script.instructions(method)
    } else {
        &[]
    }
}

// The actor that a method is of.
#[tactic(auto, using(crate::proofs::Past::no_actor))]
fn actor_of(script: &Script, method: MethodId) -> ActorId
    ensures { result.0 ≡ method_actor script.now method.0 }
{
    if (method.0 as usize) < script.method_count() {
        script.method_actor(method)
    } else {
        ActorId(0)
    }
}

/// The invariants of the actors that run on the executor of a method's actor.
pub fn invariants_of(script: &Script, method: MethodId) -> &[Formula]
    ensures { terms_of result.now ≡ executor_invariants script.now (actor_executor script.now (method_actor script.now method.0)) }
{
    script.executor_invariants(script.actor_executor(actor_of(script, method)))
}
