//! What executors leave.

ghost use Rattle.std.specs.Prelude.{◌≡◌, None};

use crate::desks::door::Door;
use crate::desks::jobs::Jobs;
use crate::desks::owned::BookOf;
use crate::desks::setting::Setting;
use std::alloc::{AllocError, Global};
use std::sync::Wait;
use swift_executor::{Closed, ExecState};
use swift_log::EventLog;
use swift_report::{Report, report_text};
use test_support::{CaseFault, Said};

/// The turns and fields that executors leave, in the order in which they were closed.
pub struct Leavings {
    report: Report,
}

/// What an executor leaves beside its turns.
#[derive(Drop)]
pub struct Left {
    /// How many jobs were counted and not run.
    pub pending: u64,
    pub ready: Jobs,
    pub inbox: Jobs,
}

impl Drop for Leavings {
    fn drop(self) {
        let Leavings { report } = self;
        drop(report);
    }
}

impl Leavings {
    /// Those of no executor, with room for those of `room` executors.
    pub fn new(alloc: Global, room: usize) -> Result<Leavings, AllocError> {
        let journals = Vec::with_capacity(alloc, room)?;
        let checkpoints = Vec::with_capacity(alloc, room)?;
        let fields = Vec::with_capacity(alloc, room)?;
        let report = Report {
            journals,
            checkpoints,
            log: EventLog::new(alloc),
            endings: Vec::new(alloc),
            fields,
        };
        Ok(Leavings { report })
    }

    /// Adds what a state leaves in which no job is chosen. Its jobs.
    pub fn add(&mut self, state: ExecState) -> Jobs
        requires { state.chosen ≡ None }
    {
        let (list, journal, fields, checkpoint) = state.into_parts();
        let _ = self.report.journals.push(journal);
        let _ = self.report.checkpoints.push(checkpoint);
        let _ = self.report.fields.push(fields);
        Jobs { list }
    }

    /// Closes an executor with the last of its desks. None where it has another, or a desk holds it.
    pub fn close<K: BookOf, R: Wait>(&mut self, rt: &R, door: Door<K>) -> Option<Left> {
        let (exec, desk) = door.into_exec()?;
        let Closed {
            pending,
            state,
            inbox,
            is_orderly: _,
            desk: _,
        } = exec.close(rt, desk);
        let inbox = Jobs { list: inbox };
        let (state, _taker, _seat) = state?;
        let ready = self.add(state);
        Some(Left {
            pending,
            ready,
            inbox,
        })
    }

    /// Writes a report of the turns and fields, without tasks.
    pub fn tell(&self, alloc: Global, setting: &Setting, out: &mut Said) -> Result<(), CaseFault> {
        let text = report_text(alloc, &setting.script, &self.report, false)?;
        out.bytes(&text);
        Ok(())
    }
}
