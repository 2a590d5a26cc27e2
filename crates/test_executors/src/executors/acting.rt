//! Calls that a gate makes.

use crate::executors::callee::{Callee, play};
use std::sync::{Mutex, Wait};
use swift_executor::{Gate, Moment};
use test_support::Said;

/// A gate that makes calls at the first moment of this name, and writes what they answer.
#[derive(Drop)]
pub struct Acting<'a, R: Wait, C: Callee<R>> {
    pub rt: &'a R,
    pub callee: &'a C,
    pub moment: &'a str,
    pub calls: &'a str,
    pub lines: Mutex<Said>,
}

// The name of a moment, whatever executor, worker and task it is of.
pub(crate) fn name_of(moment: Moment) -> &'static str {
    match moment {
        Moment::Took(_, _) => "Took",
        Moment::Began(_, _) => "Began",
        Moment::Accepted(_, _) => "Accepted",
        Moment::Chose { .. } => "Chose",
        Moment::Turned { .. } => "Turned",
        Moment::Ended(_, _) => "Ended",
        Moment::Pushed(_, _) => "Pushed",
        Moment::Counted(_, _) => "Counted",
    }
}

impl<'a, R: Wait, C: Callee<R>> Gate for Acting<'a, R, C> {
    fn at(&self, moment: Moment) {
        let mut lines = self.lines.lock(self.rt);
        if lines.is_empty() && name_of(moment) == self.moment {
            let before = "  at that moment: ";
            play(self.rt, self.callee, before, self.calls, 0, &mut lines);
        }
    }
}
