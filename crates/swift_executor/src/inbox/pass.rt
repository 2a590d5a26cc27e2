//! A thread's right to put.

ghost use Rattle.std.specs.Prelude.{◌≡◌};
ghost use Rattle.swift_executor.specs.Inbox.{IsPassOf, new_pass};

use crate::inbox::Inbox;
use crate::inbox::rule::NewPass;
use crate::inbox::view::PassKnown;
use std::marker::Model;
use swift_shared_book::TicketedJob;

/// What the queue calls a pass.
pub(crate) type RawPass = crossbeam_queue::Pass<TicketedJob, PassKnown>;

/// A thread's right to put jobs into one inbox. An inbox is made with its first pass, and each further one is split from
/// another. A pass may go to another thread, and can't be shared: each of its steps changes what it knows. It has no bytes.
///
/// In a clause a pass is its inbox, the executor whose jobs that is for, and the jobs that were put in through this pass,
/// the oldest first. None comes out through it: that is for the inbox's `Taker`. Where a pass is dropped, its account still
/// counts.
#[derive(Drop)]
pub struct Pass {
    pub(crate) raw: RawPass,
}

impl Model for Pass {
    ghost use Rattle.std.specs.Coded.{codes};
    ghost use Rattle.swift_script.specs.Codes.{expression_code, statement_code, block_code};
    ghost use Rattle.std.specs.Prelude.{◌≡◌, [], false};
    ghost use Rattle.crossbeam_queue.specs.Passes.{view as known};
    ghost use Rattle.swift_executor.specs.Inbox.{PassView};

    ghost Value = { PassView };

    ghost coded = { Prim.hlevel (codes, expression_code, statement_code (block_code (Prim.hlevel (codes, expression_code)) (Prim.hlevel (codes, expression_code)))) };

    ghost view = { λ p. record { inbox = p.raw.table_id; site = (known p.raw).site; pushed = (known p.raw).pushed } };

    ghost invariant = { λ p. (p.raw.me.1 ≡ []) × ((known p.raw).takes ≡ false) };
}

impl Pass {
    /// A new pass of the same inbox, through which nothing went yet. This pass keeps what it knows. It takes no memory.
    pub fn split(&mut self, inbox: &Inbox) -> Pass
        requires { IsPassOf inbox.now self.old }
        ensures kept { self.new ≡ self.old }
        ensures new { result ≡ new_pass inbox.now }
    {
        let raw = inbox.queue.another::<NewPass>(&mut self.raw);
        Pass { raw }
    }
}
