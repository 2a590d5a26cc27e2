//! The name of an executor's state, by which its word knows it, and what its desks note of it.

ghost use Rattle.atomic_table.specs.Seated.{TableId, table_id_coded};
ghost use Rattle.std.specs.Coded.{codes};
ghost use Rattle.swift_script.specs.Codes.{expression_code, statement_code, block_code};
ghost use Rattle.swift_executor.specs.Taken.{TakenView};

use crate::inbox::ExecutorSite;
use std::marker::Model;

/// Which inbox it is. No value of it is made.
pub struct InboxName {
    pub ghost inbox: { TableId } by { table_id_coded },
}

impl Model for InboxName {
    ghost use base.Fml.{ftrue};

    ghost also_owns = { λ _. ftrue };
}

/// Whose state it is, and from which inbox it takes its jobs. No value of it is made.
pub struct StateName {
    pub site: ExecutorSite,
    pub inbox: InboxName,
}

/// A state as clauses see it while no worker holds it, which a desk notes where it takes it or gives it back. No value of it is made. It is
/// a type of its own, in which no jobs lie.
pub struct StateImage {
    pub ghost resting: { TakenView } by { Prim.hlevel (codes, expression_code, statement_code (block_code (Prim.hlevel (codes, expression_code)) (Prim.hlevel (codes, expression_code)))) },
}

impl Model for StateImage {
    ghost use base.Fml.{ftrue};

    ghost also_owns = { λ _. ftrue };
}
