//! Task groups: `reserve CALLS`, `open OWNER`, `add GROUP TASK`, `finished GROUP TASK VALUE` or with `cancelled` for a
//! fault, `next GROUP`, `cancel_all GROUP`, `is_cancelled GROUP`, `close GROUP`.

use std::alloc::Global;
use swift_groups::{Close, GroupFault, GroupId, Groups, NextResult};
use swift_types::{Ending, Fault};
use test_support::{CaseFault, Part, Said, Words};

/// Task groups, and what answers calls on them.
#[derive(Drop)]
pub struct GroupsPart {
    groups: Groups,
}

impl GroupsPart {
    /// No group yet.
    pub fn new(alloc: Global) -> GroupsPart {
        GroupsPart {
            groups: Groups::new(alloc),
        }
    }
}

fn group(words: &mut Words<'_>) -> GroupId {
    GroupId(words.size())
}

fn ending(words: &mut Words<'_>) -> Ending {
    if words.has("cancelled") {
        return Ending::Fault(Fault::Cancelled);
    }
    Ending::Value(words.value())
}

fn shown(out: &mut Said, next: NextResult) {
    match next {
        NextResult::Result(task, ended) => {
            out.number("task ", i64::from(task.0));
            show_ending(out, ended)
        }
        NextResult::Wait => out.put("wait"),
        NextResult::Empty => out.put("empty"),
    }
}

fn show_ending(out: &mut Said, ended: Ending) {
    match ended {
        Ending::Value(value) => out.number(" value ", value),
        Ending::Fault(fault) => out.debug(" fault ", &fault),
    }
}

fn told(out: &mut Said, done: Result<(), GroupFault>) {
    match done {
        Ok(()) => out.put("ok"),
        Err(fault) => out.value(&fault),
    }
}

fn yes_or_no(out: &mut Said, is_so: Result<bool, GroupFault>) {
    match is_so {
        Ok(is_so) => out.whether("", is_so),
        Err(fault) => out.value(&fault),
    }
}

fn closed(out: &mut Said, close: Result<Close, GroupFault>) {
    match close {
        Ok(Close::Done) => out.put("done"),
        Ok(Close::Wait) => out.put("wait"),
        Err(fault) => out.value(&fault),
    }
}

fn opened(out: &mut Said, opened: Result<GroupId, GroupFault>) {
    match opened {
        Ok(GroupId(opened)) => out.count("group ", opened as u64),
        Err(fault) => out.value(&fault),
    }
}

fn next(out: &mut Said, next: Result<NextResult, GroupFault>) {
    match next {
        Ok(next) => shown(out, next),
        Err(fault) => out.value(&fault),
    }
}

// A child of a group has ended.
fn finished(groups: &mut Groups, words: &mut Words<'_>) -> Result<(), GroupFault> {
    let (group, child) = (group(words), words.task());
    groups.finished(group, child, ending(words))
}

impl Part for GroupsPart {
    fn answer(
        &mut self,
        _alloc: Global,
        words: &mut Words<'_>,
        out: &mut Said,
    ) -> Result<(), CaseFault> {
        match words.next() {
            "reserve" => told(out, self.groups.reserve(words.size())),
            "open" => opened(out, self.groups.open(words.task())),
            "add" => told(out, self.groups.add(group(words), words.task())),
            "finished" => told(out, finished(&mut self.groups, words)),
            "next" => next(out, self.groups.next(group(words))),
            "cancel_all" => told(out, self.groups.cancel_all(group(words))),
            "is_cancelled" => yes_or_no(out, self.groups.is_cancelled(group(words))),
            "close" => closed(out, self.groups.close(group(words))),
            _ => words.refuse(),
        }
        Ok(())
    }
}
