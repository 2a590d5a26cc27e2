//! The bindings of callers.

ghost use Rattle.std.specs.Prelude.{◌≡◌, ◌++◌, ◌∷◌, drop, OnOk, OnErr};
ghost use Rattle.script_code.specs.Seen.{pairs_of};
ghost use Rattle.swift_interpreter.specs.Frames.{frame_view};

use crate::stack::Stack;
use script_code::Binding;
use std::alloc::AllocError;
use std::mem;
use swift_interpreter::Frame;
use swift_locals::Bindings;

// Puts the bindings of a frame, whose innermost is the last, in front of those from before it began. Out of memory,
// these are as before.
#[tactic(auto, using(crate::proofs::Cuts::within, crate::proofs::Cuts::cut_again))]
pub fn bind_all(outer: &mut Bindings, own: &[Binding]) -> Result<(), AllocError>
    ensures ok { OnOk result (outer.new ≡ pairs_of own.now ++ outer.old) }
    ensures err { OnErr result (outer.new ≡ outer.old) }
{
    let depth = outer.depth();
    for binding in own {
        if outer.bind(binding.local, binding.value).is_err() {
            outer.cut(depth);
            return Err(AllocError);
        }
    }
    Ok(())
}

// Drops the innermost `count` bindings.
pub fn unbind_all(outer: &mut Bindings, count: usize)
    ensures { outer.new ≡ drop count outer.old }
{
    outer.cut(outer.depth().saturating_sub(count));
}

// A frame begins over the one that runs, and finds its bindings too. Out of memory, all is as before.
pub fn begin_over(
    callers: &mut Stack,
    running: &mut Frame,
    outer: &mut Bindings,
    callee: Frame,
) -> Result<(), AllocError>
    ensures callers { OnOk result (callers.new ≡ frame_view running.old ∷ callers.old) }
    ensures running { OnOk result (running.new ≡ callee) }
    ensures outer { OnOk result (outer.new ≡ pairs_of running.old.own.items ++ outer.old) }
    ensures same_callers { OnErr result (callers.new ≡ callers.old) }
    ensures same_running { OnErr result (running.new ≡ running.old) }
    ensures same_outer { OnErr result (outer.new ≡ outer.old) }
{
    bind_all(outer, &running.own)?;
    let caller = mem::replace(running, callee);
    if let Err(refused) = callers.push(caller) {
        *running = refused.value;
        unbind_all(outer, running.own.len());
        return Err(AllocError);
    }
    Ok(())
}
