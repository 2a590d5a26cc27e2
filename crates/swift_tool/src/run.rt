//! From a script's text to a report's.

ghost use Rattle.std.specs.Prelude.{◌≡◌, ◌⊎◌, ◌<◌, ◌↔◌, Err, IfErr, IfOk};
ghost use Rattle.swift_types.specs.declared.limits.TheConstants.{WORKERS};
ghost use Rattle.swift_workers.specs.declared.fault.RunFault.TheVariants.{Workers};
ghost use Rattle.swift_tool.specs.declared.fault.ToolFault.TheVariants.{Run};
ghost use Rattle.swift_tool.specs.Run.{IsCrew, IsRefusal, IsRunOf, Leaves, WritesRun, end_well};

use crate::fault::ToolFault;
use std::alloc::AllocGlobal;
use std::io::Write;
use std::random::RandomSource;
use std::sync::{Arc, Wait};
use std::thread::Threads;
use swift_events::Origin;
use swift_report::{report_text, write_all};
use swift_script::read;
use swift_types::Ending;
use swift_types::limits::WORKERS;
use swift_workers::{Gate, RunFault, run};

/// Runs the script that a text spells, on `workers` threads, and writes the text of its report, in one piece as far as the
/// device takes it; with `quiet` the journals are left out. True where no task ended with a fault. The gate is called at the
/// moments of the run, by the thread that comes to them. It waits for the threads that it makes. Nothing is flushed.
///
/// # Errors
///
/// `Run(Workers)` for any number of workers but 1 to 8, before anything is made. `Script` where the text is refused, and
/// `Run` where the run is. In these cases nothing is written. `Device` where a write failed or took no byte: then a
/// prefix of the report's text is written, and not all of it.
pub fn run_text<R, G, W>(
    rt: &R,
    bytes: &[u8],
    workers: u32,
    quiet: bool,
    gate: &G,
    out: &mut W,
) -> Result<bool, ToolFault>
where
    R: RandomSource + AllocGlobal + Threads + Wait + Sync,
    G: Gate + Sync,
    W: Write,
    ensures text { IfOk result (λ well. WritesRun bytes.now quiet well (W.contents out.old) (W.contents out.new)) }
    ensures workers { (result ≡ Err (Run Workers)) ↔ ((workers ≡ 0) ⊎ (WORKERS < workers)) }
    ensures refused { IfErr result (λ e. Leaves bytes.now workers quiet (W.contents out.old) (W.contents out.new) e) }
{
    if workers == 0 || workers as usize > WORKERS {
        return Err(ToolFault::Run(RunFault::Workers));
    }
    let (text, is_well) = run_to_text(rt, bytes, workers, quiet, gate)?;
    write_all(out, &text)?;
    Ok(is_well)
}

// The text of a run's report, and whether each task ended with a value.
fn run_to_text<R, G>(
    rt: &R,
    bytes: &[u8],
    workers: u32,
    quiet: bool,
    gate: &G,
) -> Result<(Vec<u8>, bool), ToolFault>
where
    R: RandomSource + AllocGlobal + Threads + Wait + Sync,
    G: Gate + Sync,
    requires { IsCrew workers }
    ensures text { IfOk result (λ r. IsRunOf bytes.now quiet r.0.items r.1) }
    ensures refused { IfErr result (IsRefusal bytes.now workers) }
{
    let alloc = rt.alloc();
    let found = read(alloc, bytes)?;
    found.facts();
    let script = Arc::new(alloc, found)?;
    let shared = Arc::clone(&script)?;
    let report = run(rt, shared, workers, gate)?;
    let text = report_text(alloc, &script, &report, quiet)?;
    let is_well = all_ended_well(&report.endings);
    Ok((text, is_well))
}

/// Whether each task ended with a value.
pub(crate) fn all_ended_well(endings: &[(Origin, Ending)]) -> bool
    ensures { result ≡ end_well endings.now }
{
    match endings {
        [] => true,
        [(_, ending), rest @ ..] => match ending {
            Ending::Value(_) => all_ended_well(rest),
            Ending::Fault(_) => false,
        },
    }
}
