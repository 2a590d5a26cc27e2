//! What the lock of a pool keeps, and what its seats know.

ghost use Rattle.std.specs.Coded.{codes};
ghost use Rattle.swift_script.specs.Codes.{expression_code, statement_code, block_code};
ghost use Rattle.swift_workers.specs.Pools.{PoolKnown, PoolView};

use std::marker::Model;

/// What the lock of a pool keeps. No value of it is made.
pub struct PoolImage {
    pub ghost view: { PoolView } by { Prim.hlevel (codes, expression_code, statement_code (block_code (Prim.hlevel (codes, expression_code)) (Prim.hlevel (codes, expression_code)))) },
}

impl Model for PoolImage {
    ghost use base.Fml.{ftrue};

    ghost also_owns = { λ _. ftrue };
}

/// What a seat knows of the pool. No value of it is made.
pub struct PoolTold {
    pub ghost view: { PoolKnown } by { Prim.hlevel (codes, expression_code, statement_code (block_code (Prim.hlevel (codes, expression_code)) (Prim.hlevel (codes, expression_code)))) },
}

impl Model for PoolTold {
    ghost use base.Fml.{ftrue};

    ghost also_owns = { λ _. ftrue };
}
