//! Where jobs are sent.

ghost use Rattle.std.specs.Prelude.{◌≡◌};
ghost use Rattle.std.specs.Arc.{arc_value};

use std::marker::Model;
use std::sync::Arc;
use swift_script::Script;
use swift_shared_book::BookName;
use swift_types::ExecId;

/// One executor of a script: where jobs are sent (SE-0392). It also says which book gives its jobs, if any does (our own),
/// which takes no bytes. In a clause it is the script, the executor's number, and the book by its lock.
#[derive(Drop)]
pub struct ExecutorSite {
    script: Arc<Script>,
    executor: ExecId,
    book: BookName,
}

impl Model for ExecutorSite {
    ghost use Rattle.std.specs.Coded.{codes};
    ghost use Rattle.swift_script.specs.Codes.{expression_code, statement_code, block_code};
    ghost use Rattle.std.specs.Arc.{arc_value};
    ghost use Rattle.swift_executor.specs.Site.{SiteView};

    ghost Value = { SiteView };

    ghost coded = { Prim.hlevel (codes, expression_code, statement_code (block_code (Prim.hlevel (codes, expression_code)) (Prim.hlevel (codes, expression_code)))) };

    ghost view = { λ s. record { script = arc_value s.script; executor = s.executor.0; book = s.book } };
}

impl ExecutorSite {
    /// The executor of this number, of this script, for jobs that this book gave.
    pub fn of_book(script: Arc<Script>, executor: ExecId, book: BookName) -> ExecutorSite
        ensures { result ≡ record { script = arc_value script; executor = executor.0; book = book } }
    {
        ExecutorSite {
            script,
            executor,
            book,
        }
    }

    /// The script.
    pub fn script(&self) -> &Arc<Script>
        ensures { arc_value result.now ≡ self.now.script }
    {
        &self.script
    }

    /// The executor's number among those of the script.
    pub fn executor(&self) -> ExecId
        ensures { result.0 ≡ self.now.executor }
    {
        self.executor
    }
}
