//! What a pass knows of its inbox. No value of these types is made.

use crate::inbox::site::ExecutorSite;
use std::collections::LinkedList;
use std::marker::Model;
use swift_shared_book::TicketedJob;

/// A job that went through a pass: its task, number, resume and frames.
pub struct NotedJob {
    ticketed: TicketedJob,
}

impl Model for NotedJob {
    ghost use Rattle.swift_history.specs.TurnEnds.{JobFacts};
    ghost use Rattle.swift_history.specs.Jobs.{job_facts};

    ghost Value = { JobFacts };

    ghost view = { λ n. job_facts n.ticketed.job };
}

/// A pass's view.
pub struct PassKnown {
    // Whose jobs the inbox is for. The first pass of a new queue knows none.
    pub site: Option<ExecutorSite>,
    // Whether jobs come out through this pass. If not, they go in.
    pub takes: bool,
    // The jobs that were put in through this pass, the oldest first.
    pub pushed: LinkedList<NotedJob>,
    // The jobs that were taken out through this pass, the oldest first.
    pub taken: LinkedList<NotedJob>,
}
