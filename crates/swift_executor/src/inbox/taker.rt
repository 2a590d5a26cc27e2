//! The one right to take out of an inbox.

use crate::inbox::pass::RawPass;
use std::marker::Model;

/// The right to take jobs out of one inbox. An inbox is made with it, and there is no other: it can't be copied or split, and
/// what a `Pass` does puts jobs in alone. So whoever has it knows each job that ever came out of the inbox. It may go to
/// another thread, and can't be shared. It has no bytes.
///
/// In a clause a taker is its inbox, the executor whose jobs that is for, and the jobs that came out through it, the oldest
/// first. Where it is dropped, nothing comes out any more.
#[derive(Drop)]
pub struct Taker {
    pub(crate) raw: RawPass,
}

impl Model for Taker {
    ghost use Rattle.std.specs.Coded.{codes};
    ghost use Rattle.swift_script.specs.Codes.{expression_code, statement_code, block_code};
    ghost use Rattle.std.specs.Prelude.{◌≡◌, [], true};
    ghost use Rattle.crossbeam_queue.specs.Passes.{view as known};
    ghost use Rattle.swift_executor.specs.Inbox.{TakerView};

    ghost Value = { TakerView };

    ghost coded = { Prim.hlevel (codes, expression_code, statement_code (block_code (Prim.hlevel (codes, expression_code)) (Prim.hlevel (codes, expression_code)))) };

    ghost view = { λ t. record { inbox = t.raw.table_id; site = (known t.raw).site; taken = (known t.raw).taken } };

    ghost invariant = { λ t. (t.raw.me.1 ≡ []) × ((known t.raw).takes ≡ true) };
}
