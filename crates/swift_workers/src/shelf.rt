//! The pool where it lies in its lock.

use crate::known::PoolImage;
use crate::pool::Pool;
use std::snapshot::Snapshot;
use swift_script::Script;
use swift_shared_book::lock::Locked;

/// A pool that threads share, while none has taken it. It lies in a box, so that the lock moves one pointer. The script and the number
/// of workers are those of the run: contracts alone see them.
#[derive(Drop)]
pub struct PoolShelf {
    pub pool: Box<Pool>,
    pub script: Snapshot<Script>,
    pub workers: Snapshot<u32>,
}

impl Locked for PoolShelf {
    type Image = PoolImage;

    ghost use Rattle.swift_workers.specs.PoolFactsInside.{facts_of};

    ghost image = { λ s. record { view = record { crew = record { script = s.script.value; workers = s.workers.value }; facts = facts_of s.pool.value } } };
}
