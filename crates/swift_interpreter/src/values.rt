//! What a frame reads.

ghost use Rattle.std.specs.Prelude.{◌≡◌, ◌++◌, IfOk};
ghost use Rattle.swift_interpreter.specs.Frames.{invocation_if};
ghost use Rattle.swift_interpreter.specs.Turn.{handle_at as handle_of, invoked};
ghost use Rattle.swift_interpreter.specs.TurnStates.{values_of};
ghost use Rattle.script_code.specs.Seen.{pairs_of, scene_of};
ghost use Rattle.script_code.specs.Tree.{target_of, terms_of};
ghost use Rattle.script_code.specs.Value.{evs};

use crate::effect::Invocation;
use script_code::{Binding, CompiledCall, Formula, Sight, value};
use std::alloc::{AllocError, Global};
use swift_locals::Bindings;

// What a call runs. None where an argument has no value.
#[inline(never)]
pub fn invoke(
    alloc: Global,
    call: &CompiledCall,
    sight: Sight<'_>,
) -> Result<Option<Invocation>, AllocError>
    ensures { IfOk result (λ i. let c = target_of call.now in invocation_if i ≡ invoked c (evs c.args (scene_of sight.entry))) }
{
    let Some(args) = values(alloc, &call.args, sight)? else {
        return Ok(None);
    };
    Ok(Some(Invocation {
        actor: call.actor,
        method: call.method,
        args,
    }))
}

// The values of arguments, from left to right. None where one has none.
fn values(
    alloc: Global,
    formulas: &[Formula],
    sight: Sight<'_>,
) -> Result<Option<Vec<i64>>, AllocError>
    ensures { IfOk result (λ vs. values_of vs ≡ evs (terms_of formulas.now) (scene_of sight.entry)) }
{
    let mut vs = Vec::new(alloc);
    for e in formulas {
        let Some(v) = value(e, sight) else {
            return Ok(None);
        };
        vs.push(v)?;
    }
    Ok(Some(vs))
}

// The number that a handle holds. A handle that is not there counts as 0.
pub fn handle_at(handles: &[u32], handle: u32) -> u32
    ensures { result ≡ handle_of handles.now handle }
{
    match handles.get(handle as usize) {
        Some(number) => *number,
        None => 0,
    }
}

// A copy of the bindings that stand in a frame.
pub fn standing(outer: &Bindings, own: &[Binding]) -> Result<Bindings, AllocError>
    ensures { IfOk result (λ all. all ≡ pairs_of own.now ++ outer.now) }
{
    let mut all = outer.copy()?;
    for binding in own {
        all.bind(binding.local, binding.value)?;
    }
    Ok(all)
}
