//! What a gate is given of a run.

use crate::workers::run_with;
use std::alloc::AllocGlobal;
use std::random::RandomSource;
use std::sync::atomic::{AtomicU32, Ordering};
use std::sync::{Arc, Wait};
use std::thread::Threads;
use swift_script::Script;
use swift_types::{ExecId, TaskId};
use swift_workers::{Gate, Moment};
use test_support::{CaseFault, Said};

// Counts the moments of each kind, and the turns of task 1 on executor 0.
#[derive(Drop)]
struct Counting {
    took: AtomicU32,
    began: AtomicU32,
    accepted: AtomicU32,
    chose: AtomicU32,
    turned: AtomicU32,
    ended: AtomicU32,
    pushed: AtomicU32,
    counted: AtomicU32,
    turns_of_1: AtomicU32,
}

impl Counting {
    fn none() -> Counting {
        Counting {
            took: AtomicU32::new(0),
            began: AtomicU32::new(0),
            accepted: AtomicU32::new(0),
            chose: AtomicU32::new(0),
            turned: AtomicU32::new(0),
            ended: AtomicU32::new(0),
            pushed: AtomicU32::new(0),
            counted: AtomicU32::new(0),
            turns_of_1: AtomicU32::new(0),
        }
    }

    // The count of moments of this kind.
    fn count_of(&self, moment: Moment) -> &AtomicU32 {
        match moment {
            Moment::Took(_, _) => &self.took,
            Moment::Began(_, _) => &self.began,
            Moment::Accepted(_, _) => &self.accepted,
            Moment::Chose { .. } => &self.chose,
            Moment::Turned { .. } => &self.turned,
            Moment::Ended(_, _) => &self.ended,
            Moment::Pushed(_, _) => &self.pushed,
            Moment::Counted(_, _) => &self.counted,
        }
    }
}

impl Gate for Counting {
    fn at(&self, moment: Moment) {
        count(self.count_of(moment));
        if let Moment::Turned {
            executor: ExecId(0),
            task: TaskId(1),
            ..
        } = moment
        {
            count(&self.turns_of_1);
        }
    }
}

fn count(times: &AtomicU32) {
    let _ = times.fetch_add(1, Ordering::SeqCst);
}

// A count, behind these words.
fn tell(out: &mut Said, words: &'static str, times: &AtomicU32) {
    out.count(words, u64::from(times.load(Ordering::SeqCst)));
}

/// How often a gate was told of each kind of moment, and of a turn of task 1 on executor 0.
pub fn moments<R>(rt: &R, script: &Arc<Script>, out: &mut Said) -> Result<(), CaseFault>
where
    R: RandomSource + AllocGlobal + Threads + Wait + Sync,
{
    let gate = Counting::none();
    run_with(rt, script, 1, &gate)?;
    tell(out, "took ", &gate.took);
    tell(out, ", began ", &gate.began);
    tell(out, ", accepted ", &gate.accepted);
    tell(out, ", chose ", &gate.chose);
    tell(out, ", turned ", &gate.turned);
    tell(out, ", ended ", &gate.ended);
    tell(out, ", pushed ", &gate.pushed);
    tell(out, ", counted ", &gate.counted);
    tell(out, ", turned of task 1 ", &gate.turns_of_1);
    out.put("\n");
    Ok(())
}
