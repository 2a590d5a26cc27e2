//! Declarations.

ghost use Rattle.std.specs.Prelude.{◌≡◌, OnOk};
ghost use Rattle.script_grammar.specs.Tree.{text_if, view_if, view_root};
ghost use Rattle.script_printing.specs.Pieces.{pieces_of_invariant, pieces_of_on, pieces_of_start};
ghost use Rattle.script_printing.specs.Printed.{after};

use crate::call::write_priority;
use crate::list::{write_all, write_list};
use crate::part::{Write, write_assigned, write_with_keyword};
use crate::statement::write_block;
use crate::token::{write_keyword, write_magnitude, write_name, write_number, write_sign};
use script_grammar::{Actor, Executor, Expr, Field, Local, Method, Name, Root};
use script_tokens::{Keyword, Mark};
use std::alloc::AllocError;
use swift_types::ExecutorKind;

impl Write for i64 {
    ghost use Rattle.std.specs.Prelude.{ℤ};
    ghost use Rattle.script_printing.specs.Pieces.{pieces_of_int};

    ghost View = { ℤ };

    ghost view = { λ n. n };

    ghost pieces = { pieces_of_int };

    /// The minus is a token of its own.
    #[tactic(auto, using(crate::proofs::Written::after_after))]
    fn write(&self, out: &mut Vec<u8>) -> Result<(), AllocError> {
        if *self < 0 {
            write_sign(out, Mark::Minus)?;
        }
        write_magnitude(out, self.unsigned_abs())
    }
}

impl Write for ExecutorKind {
    ghost use Rattle.swift_types.specs.declared.executor_kind.ExecutorKind.{ExecutorKind};
    ghost use Rattle.script_printing.specs.Pieces.{pieces_of_kind};

    ghost View = { ExecutorKind };

    ghost view = { λ kind. kind };

    ghost pieces = { pieces_of_kind };

    #[tactic(auto, using(crate::proofs::Written::after_after))]
    fn write(&self, out: &mut Vec<u8>) -> Result<(), AllocError> {
        match self {
            ExecutorKind::Priority => write_keyword(out, Keyword::Priority),
            ExecutorKind::Fifo => write_keyword(out, Keyword::Fifo),
            ExecutorKind::Pinned(worker) => {
                write_keyword(out, Keyword::Pinned)?;
                write_number(out, *worker)
            }
        }
    }
}

impl Write for Executor {
    ghost use Rattle.script_grammar.specs.Tree.{ExecutorTree, view_executor};
    ghost use Rattle.script_printing.specs.Pieces.{after_executor_keyword};

    ghost View = { ExecutorTree };

    ghost view = { view_executor };

    ghost pieces = { after_executor_keyword };

    #[tactic(auto, using(crate::proofs::Written::after_after))]
    fn write(&self, out: &mut Vec<u8>) -> Result<(), AllocError> {
        write_name(out, &self.name.text)?;
        self.kind.write(out)?;
        write_sign(out, Mark::Semicolon)
    }
}

impl Write for Local {
    ghost use Rattle.script_grammar.specs.Tree.{LocalTree, view_local};
    ghost use Rattle.script_printing.specs.Pieces.{after_local_keyword};

    ghost View = { LocalTree };

    ghost view = { view_local };

    ghost pieces = { after_local_keyword };

    #[tactic(auto, using(crate::proofs::Written::after_after))]
    fn write(&self, out: &mut Vec<u8>) -> Result<(), AllocError> {
        write_assigned(out, &self.name, &self.default)?;
        write_sign(out, Mark::Semicolon)
    }
}

impl Write for Field {
    ghost use Rattle.script_grammar.specs.Tree.{FieldTree, view_field};
    ghost use Rattle.script_printing.specs.Pieces.{pieces_of_field};

    ghost View = { FieldTree };

    ghost view = { view_field };

    ghost pieces = { pieces_of_field };

    #[tactic(auto, using(crate::proofs::Written::after_after))]
    fn write(&self, out: &mut Vec<u8>) -> Result<(), AllocError> {
        write_keyword(out, Keyword::Var)?;
        write_assigned(out, &self.name, &self.start)?;
        write_sign(out, Mark::Semicolon)
    }
}

/// An invariant, or nothing.
#[tactic(auto, using(crate::proofs::Written::after_after, crate::proofs::Written::after_none))]
fn write_invariant(out: &mut Vec<u8>, invariant: &Option<Expr>) -> Result<(), AllocError>
    ensures { OnOk result (out.new.items ≡ after out.old.items (pieces_of_invariant (view_if invariant.now))) }
{
    match invariant {
        Some(test) => {
            write_with_keyword(out, Keyword::Invariant, test)?;
            write_sign(out, Mark::Semicolon)
        }
        None => Ok(()),
    }
}

impl Write for Method {
    ghost use Rattle.script_grammar.specs.Tree.{MethodTree, view_method};
    ghost use Rattle.script_printing.specs.Pieces.{pieces_of_method};

    ghost View = { MethodTree };

    ghost view = { view_method };

    ghost pieces = { pieces_of_method };

    #[tactic(auto, using(crate::proofs::Written::after_after))]
    fn write(&self, out: &mut Vec<u8>) -> Result<(), AllocError> {
        write_keyword(out, Keyword::Func)?;
        write_name(out, &self.name.text)?;
        write_sign(out, Mark::Open)?;
        write_list(out, &self.params)?;
        write_sign(out, Mark::Close)?;
        write_block(out, &self.body)
    }
}

/// The executor that is named, or nothing.
#[tactic(auto, using(crate::proofs::Written::after_none))]
fn write_on(out: &mut Vec<u8>, executor: &Option<Name>) -> Result<(), AllocError>
    ensures { OnOk result (out.new.items ≡ after out.old.items (pieces_of_on (text_if executor.now))) }
{
    match executor {
        Some(name) => write_with_keyword(out, Keyword::On, name),
        None => Ok(()),
    }
}

impl Write for Actor {
    ghost use Rattle.script_grammar.specs.Tree.{ActorTree, view_actor};
    ghost use Rattle.script_printing.specs.Pieces.{after_actor_keyword};

    ghost View = { ActorTree };

    ghost view = { view_actor };

    ghost pieces = { after_actor_keyword };

    #[tactic(auto, using(crate::proofs::Written::after_after))]
    fn write(&self, out: &mut Vec<u8>) -> Result<(), AllocError> {
        write_name(out, &self.name.text)?;
        write_on(out, &self.executor)?;
        write_sign(out, Mark::OpenBrace)?;
        write_all(out, &self.fields)?;
        write_invariant(out, &self.invariant)?;
        write_all(out, &self.methods)?;
        write_sign(out, Mark::CloseBrace)
    }
}

/// What a root calls.
#[tactic(auto, using(crate::proofs::Written::after_after, crate::proofs::Written::same_list))]
fn write_start(out: &mut Vec<u8>, root: &Root) -> Result<(), AllocError>
    ensures { OnOk result (out.new.items ≡ after out.old.items (pieces_of_start (view_root root.now))) }
{
    write_name(out, &root.actor.text)?;
    write_sign(out, Mark::Dot)?;
    write_name(out, &root.method.text)?;
    write_sign(out, Mark::Open)?;
    write_list(out, &root.args)?;
    write_sign(out, Mark::Close)
}

impl Write for Root {
    ghost use Rattle.script_grammar.specs.Tree.{RootTree, view_root};
    ghost use Rattle.script_printing.specs.Pieces.{after_root_keyword};

    ghost View = { RootTree };

    ghost view = { view_root };

    ghost pieces = { after_root_keyword };

    #[tactic(auto, using(crate::proofs::Written::after_after))]
    fn write(&self, out: &mut Vec<u8>) -> Result<(), AllocError> {
        write_name(out, &self.name.text)?;
        write_sign(out, Mark::Assign)?;
        write_start(out, self)?;
        write_priority(out, self.priority)?;
        write_sign(out, Mark::Semicolon)
    }
}
