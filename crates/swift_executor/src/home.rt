//! Which executor it is, and what its actors' invariants read.

ghost use Rattle.std.specs.Prelude.{◌≡◌, IfOk};
ghost use Rattle.std.specs.Arc.{arc_value};
ghost use Rattle.swift_script.specs.Scripts.{executor_invariants};
ghost use Rattle.swift_undo.specs.Rows.{HaveRows};

use std::alloc::{AllocError, Global};
use std::marker::Model;
use std::sync::Arc;
use swift_script::Script;
use swift_types::ExecId;
use swift_undo::{InvariantRows, rows_of_invariants};

/// An executor of a script, by its number, with the rows of fields that the invariants of its actors read.
pub struct Home {
    script: Arc<Script>,
    executor: ExecId,
    rows: InvariantRows,
}

// By hand, so that it is not taken apart in each proof of a function that drops one.
impl Drop for Home {
    fn drop(self) {
        let Home {
            script,
            executor: _,
            rows,
        } = self;
        drop(script);
        drop(rows);
    }
}

impl Model for Home {
    ghost use Rattle.std.specs.Arc.{arc_value};
    ghost use Rattle.std.specs.Coded.{codes};
    ghost use Rattle.swift_script.specs.Codes.{expression_code, statement_code, block_code};
    ghost use Rattle.swift_script.specs.Scripts.{executor_invariants};
    ghost use Rattle.swift_undo.specs.Rows.{HaveRows};
    ghost use Rattle.swift_executor.specs.HomeInside.{HomeView};

    ghost Value = { HomeView };

    ghost coded = { Prim.hlevel (codes, expression_code, statement_code (block_code (Prim.hlevel (codes, expression_code)) (Prim.hlevel (codes, expression_code)))) };

    ghost view = { λ h. record { script = arc_value h.script; executor = h.executor.0 } };

    ghost invariant = { λ h. HaveRows h.rows (executor_invariants (arc_value h.script) h.executor.0) };
}

impl Home {
    /// The rows are looked for here, once. Out of memory nothing remains.
    pub fn new(alloc: Global, script: Arc<Script>, executor: ExecId) -> Result<Self, AllocError>
        ensures { IfOk result (λ h. h ≡ record { script = arc_value script; executor = executor.0 }) }
    {
        let rows = rows_of_invariants(alloc, script.executor_invariants(executor))?;
        Ok(Home {
            script,
            executor,
            rows,
        })
    }

    pub fn script(&self) -> &Script
        ensures { result.now ≡ self.now.script }
    {
        &self.script
    }

    pub fn executor(&self) -> ExecId
        ensures { result.0 ≡ self.now.executor }
    {
        self.executor
    }

    /// The rows that the invariants of its actors read, as `play_turn_from` of `swift_turn` takes them.
    pub fn rows(&self) -> &InvariantRows
        ensures { HaveRows result.now (executor_invariants self.now.script self.now.executor) }
    {
        &self.rows
    }
}
