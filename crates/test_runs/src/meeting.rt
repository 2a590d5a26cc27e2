//! Two executors that wait for each other.

use crate::workers::run_with;
use std::alloc::AllocGlobal;
use std::random::RandomSource;
use std::sync::atomic::{AtomicBool, AtomicU32, Ordering};
use std::sync::{Arc, Wait};
use std::thread;
use std::thread::Threads;
use swift_script::Script;
use swift_types::ExecId;
use swift_workers::{Gate, Moment};
use test_support::{CaseFault, Said};

// How often a worker looks for the other.
const LOOKS: u32 = 1_000_000;

// Each of the first two executors waits where it is begun, until the other is begun.
#[derive(Drop)]
struct Meeting {
    first: AtomicBool,
    second: AtomicBool,
    met: AtomicU32,
}

impl Meeting {
    // One executor is begun. Looks whether the other is.
    fn wait(&self, own: &AtomicBool, other: &AtomicBool) {
        own.store(true, Ordering::SeqCst);
        for _ in 0..LOOKS {
            if other.load(Ordering::SeqCst) {
                let _ = self.met.fetch_add(1, Ordering::SeqCst);
                return;
            }
            thread::yield_now();
        }
    }
}

impl Gate for Meeting {
    fn at(&self, moment: Moment) {
        match moment {
            Moment::Began(ExecId(0), _) => self.wait(&self.first, &self.second),
            Moment::Began(ExecId(1), _) => self.wait(&self.second, &self.first),
            _ => {}
        }
    }
}

/// How many of two executors have met the other in a run on two workers.
pub fn meet<R>(rt: &R, script: &Arc<Script>, out: &mut Said) -> Result<(), CaseFault>
where
    R: RandomSource + AllocGlobal + Threads + Wait + Sync,
{
    let gate = Meeting {
        first: AtomicBool::new(false),
        second: AtomicBool::new(false),
        met: AtomicU32::new(0),
    };
    run_with(rt, script, 2, &gate)?;
    out.count("", u64::from(gate.met.load(Ordering::SeqCst)));
    out.put(" have met the other\n");
    Ok(())
}
