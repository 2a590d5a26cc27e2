//! Runs, and what is said of them.

use crate::change::make;
use crate::gated::{gated, turns};
use crate::meeting::meet;
use crate::moments::moments;
use std::alloc::{AllocGlobal, Global};
use std::random::RandomSource;
use std::sync::{Arc, Wait};
use std::thread::Threads;
use swift_certificate::legal;
use swift_report::Report;
use swift_script::{Script, ScriptFaultKind, read};
use swift_workers::{Gate, Open, RunFault, run};
use test_support::{CaseFault, Said};

// The script of a text.
fn script_of(alloc: Global, text: &str) -> Result<Arc<Script>, CaseFault> {
    match read(alloc, text.as_bytes()) {
        Ok(script) => Ok(Arc::new(alloc, script)?),
        Err(fault) if fault.kind == ScriptFaultKind::Memory => Err(CaseFault::Memory),
        Err(_) => Err(CaseFault::Script),
    }
}

/// The report of a run on this number of workers, with this gate.
pub fn run_with<R, G>(
    rt: &R,
    script: &Arc<Script>,
    workers: u32,
    gate: &G,
) -> Result<Report, CaseFault>
where
    R: RandomSource + AllocGlobal + Threads + Wait + Sync,
    G: Gate + Sync,
{
    match run(rt, Arc::clone(script)?, workers, gate) {
        Ok(report) => Ok(report),
        Err(RunFault::Memory) => Err(CaseFault::Memory),
        Err(_) => Err(CaseFault::Script),
    }
}

/// Writes what is said in a case of this kind.
pub fn answer<R>(
    rt: &R,
    kind: &str,
    title: &str,
    text: &str,
    out: &mut Said,
) -> Result<(), CaseFault>
where
    R: RandomSource + AllocGlobal + Threads + Wait + Sync,
{
    match kind {
        "faults" => {
            faults(out);
            Ok(())
        }
        "changed" => changed(rt, title, text, out),
        _ => answer_script(rt, kind, &script_of(rt.alloc(), text)?, out),
    }
}

// What is said of a script in a case of this kind.
fn answer_script<R>(
    rt: &R,
    kind: &str,
    script: &Arc<Script>,
    out: &mut Said,
) -> Result<(), CaseFault>
where
    R: RandomSource + AllocGlobal + Threads + Wait + Sync,
{
    match kind {
        "crew" => crew(rt, script, out),
        "moments" => moments(rt, script, out),
        "turns" => turns(rt, script, out),
        "gated" => gated(rt, script, out),
        "legal" => legal_on_two(rt, script, out),
        "meet" => meet(rt, script, out),
        _ => Err(CaseFault::Form),
    }
}

// Each fault of a run.
fn faults(out: &mut Said) {
    for fault in [
        RunFault::Workers,
        RunFault::Memory,
        RunFault::Unfinished,
        RunFault::Illegal,
        RunFault::Executor,
    ] {
        out.value(&fault);
        out.put("\n");
    }
}

// Runs on no worker, and on nine.
fn crew<R>(rt: &R, script: &Arc<Script>, out: &mut Said) -> Result<(), CaseFault>
where
    R: RandomSource + AllocGlobal + Threads + Wait + Sync,
{
    for workers in [0, 9] {
        match run(rt, Arc::clone(script)?, workers, &Open) {
            Ok(_) => out.put("wrong: it has run"),
            Err(fault) => out.value(&fault),
        }
        out.put("\n");
    }
    Ok(())
}

// Writes whether a report is legal.
fn tell_legal(
    alloc: Global,
    script: &Arc<Script>,
    report: &Report,
    out: &mut Said,
) -> Result<(), CaseFault> {
    out.whether("legal: ", legal(alloc, script, report)?);
    out.put("\n");
    Ok(())
}

// Whether the report of a run on two workers is legal.
fn legal_on_two<R>(rt: &R, script: &Arc<Script>, out: &mut Said) -> Result<(), CaseFault>
where
    R: RandomSource + AllocGlobal + Threads + Wait + Sync,
{
    let report = run_with(rt, script, 2, &Open)?;
    tell_legal(rt.alloc(), script, &report, out)
}

// Whether the report of a run of the first of these scripts is legal for the second, once it is changed.
fn changed<R>(rt: &R, change: &str, scripts: &str, out: &mut Said) -> Result<(), CaseFault>
where
    R: RandomSource + AllocGlobal + Threads + Wait + Sync,
{
    let alloc = rt.alloc();
    let (first, second) = scripts.split_once("\n--\n").unwrap_or((scripts, scripts));
    let mut report = run_with(rt, &script_of(alloc, first)?, 1, &Open)?;
    make(alloc, &mut report, change)?;
    tell_legal(alloc, &script_of(alloc, second)?, &report, out)
}
