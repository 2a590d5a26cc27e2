//! Runs whose threads give way.

use crate::workers::run_with;
use std::alloc::{AllocError, AllocGlobal, Global};
use std::random::RandomSource;
use std::sync::atomic::{AtomicU32, Ordering};
use std::sync::{Arc, Wait};
use std::thread;
use std::thread::Threads;
use swift_certificate::legal;
use swift_report::{Report, report_text};
use swift_script::Script;
use swift_workers::{Gate, Moment, Open};
use test_support::{CaseFault, Said};

// How many workers run the turns.
const WORKERS: u32 = 4;

// At how many moments a thread gives way, one in each run.
const PLACES: u32 = 200;

// Gives the thread's time to another at one moment of a run.
#[derive(Drop)]
struct Yielding {
    seen: AtomicU32,
    // How many moments come before it.
    place: u32,
}

impl Yielding {
    fn at_place(place: u32) -> Yielding {
        Yielding {
            seen: AtomicU32::new(0),
            place,
        }
    }
}

impl Gate for Yielding {
    fn at(&self, _moment: Moment) {
        if self.seen.fetch_add(1, Ordering::SeqCst) == self.place {
            thread::yield_now();
        }
    }
}

// A report's text without the lines of its turns, which are those that begin with a digit.
fn without_turns(alloc: Global, text: &[u8]) -> Result<Vec<u8>, AllocError> {
    let mut kept = Vec::new(alloc);
    let mut is_first = true;
    let mut is_turn = false;
    for &byte in text {
        if is_first {
            is_turn = byte.is_ascii_digit();
        }
        if !is_turn {
            kept.push(byte)?;
        }
        is_first = byte == b'\n';
    }
    Ok(kept)
}

// The text of a report without the lines of its turns, and whether it is legal.
fn judged(
    alloc: Global,
    script: &Arc<Script>,
    report: &Report,
) -> Result<(Vec<u8>, bool), CaseFault> {
    let is_legal = legal(alloc, script, report)?;
    let text = report_text(alloc, script, report, false)?;
    Ok((without_turns(alloc, &text)?, is_legal))
}

// The text of the report of a run with this gate, without the lines of its turns, and whether it is legal.
fn judged_with<R, G>(rt: &R, script: &Arc<Script>, gate: &G) -> Result<(Vec<u8>, bool), CaseFault>
where
    R: RandomSource + AllocGlobal + Threads + Wait + Sync,
    G: Gate + Sync,
{
    let report = run_with(rt, script, WORKERS, gate)?;
    judged(rt.alloc(), script, &report)
}

/// The report of a run without the lines of its turns, and whether it is legal.
pub fn turns<R>(rt: &R, script: &Arc<Script>, out: &mut Said) -> Result<(), CaseFault>
where
    R: RandomSource + AllocGlobal + Threads + Wait + Sync,
{
    let (found, is_legal) = judged_with(rt, script, &Open)?;
    out.bytes(&found);
    out.whether("legal: ", is_legal);
    out.put("\n");
    Ok(())
}

/// The report of a run without the lines of its turns, and of how many of the runs in which a thread gives way at one moment it is that
/// one, and legal.
pub fn gated<R>(rt: &R, script: &Arc<Script>, out: &mut Said) -> Result<(), CaseFault>
where
    R: RandomSource + AllocGlobal + Threads + Wait + Sync,
{
    let (first, _) = judged_with(rt, script, &Open)?;
    let (mut same, mut lawful) = (0u32, 0u32);
    for place in 0..PLACES {
        let (found, is_legal) = judged_with(rt, script, &Yielding::at_place(place))?;
        same = same.saturating_add(u32::from(found.as_slice() == first.as_slice()));
        lawful = lawful.saturating_add(u32::from(is_legal));
    }
    out.bytes(&first);
    out.count("gated 1..", u64::from(PLACES));
    out.count(": ", u64::from(same));
    out.count(" the same, ", u64::from(lawful));
    out.put(" legal\n");
    Ok(())
}
