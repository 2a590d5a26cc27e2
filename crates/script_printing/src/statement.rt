//! Statements and blocks.

ghost use Rattle.std.specs.Prelude.{◌≡◌, ◌∷◌, OnOk, map};
ghost use Rattle.script_tokens.specs.Pieces.{Key};
ghost use Rattle.script_grammar.specs.Tree.{text_of, view_stmt, block_tree};
ghost use Rattle.script_printing.specs.Pieces.{pieces_of_stmt, pieces_of_block, assigned, braced};
ghost use Rattle.script_printing.specs.Printed.{after};

use crate::part::{Write, write_assigned, write_with_keyword};
use crate::token::{write_keyword, write_sign};
use script_grammar::{Action, Head, Name, Stmt};
use script_tokens::{Keyword, Mark};
use std::alloc::AllocError;

/// A keyword, and what a name is set to after it.
#[tactic(auto, using(crate::proofs::Written::after_after))]
fn write_binding<T: Write>(
    out: &mut Vec<u8>,
    keyword: Keyword,
    name: &Name,
    part: &T,
) -> Result<(), AllocError>
    ensures { OnOk result (out.new.items ≡ after out.old.items (Key keyword ∷ assigned (text_of name.now) (T.pieces (T.view part.now)))) }
{
    write_keyword(out, keyword)?;
    write_assigned(out, name, part)
}

impl Write for Action {
    ghost use Rattle.script_grammar.specs.Tree.{ActionTree, view_action};
    ghost use Rattle.script_printing.specs.Pieces.{pieces_of_action};

    ghost View = { ActionTree };

    ghost view = { view_action };

    ghost pieces = { pieces_of_action };

    fn write(&self, out: &mut Vec<u8>) -> Result<(), AllocError> {
        match self {
            Action::Let(variable, value) => write_binding(out, Keyword::Let, variable, value),
            Action::LetTask(variable, make) => write_binding(out, Keyword::Let, variable, make),
            Action::Assign(variable, value) => write_assigned(out, variable, value),
            Action::Await(wait) => write_with_keyword(out, Keyword::Await, wait),
            Action::Make(make) => make.write(out),
            Action::Add(add) => write_with_keyword(out, Keyword::Add, add),
            Action::Cancel(name) => write_with_keyword(out, Keyword::Cancel, name),
            Action::Return(value) => write_with_keyword(out, Keyword::Return, value),
            Action::Throw(value) => write_with_keyword(out, Keyword::Throw, value),
            Action::Check => write_keyword(out, Keyword::Check),
            Action::Yield => write_keyword(out, Keyword::Yield),
        }
    }
}

impl Write for Head {
    ghost use Rattle.script_grammar.specs.Tree.{HeadTree, view_head};
    ghost use Rattle.script_printing.specs.Pieces.{pieces_of_head};

    ghost View = { HeadTree };

    ghost view = { view_head };

    ghost pieces = { pieces_of_head };

    fn write(&self, out: &mut Vec<u8>) -> Result<(), AllocError> {
        match self {
            Head::If(test) => write_with_keyword(out, Keyword::If, test),
            Head::While(test) => write_with_keyword(out, Keyword::While, test),
            Head::Bind(local, value) => write_binding(out, Keyword::Bind, local, value),
            Head::Group(group) => write_with_keyword(out, Keyword::Group, group),
            Head::Assume(actor) => write_with_keyword(out, Keyword::Assume, actor),
        }
    }
}

/// One statement, and the statements in it.
#[cycle(statement)]
fn write_stmt(out: &mut Vec<u8>, stmt: &Stmt) -> Result<(), AllocError>
    ensures { OnOk result (out.new.items ≡ after out.old.items (pieces_of_stmt (view_stmt stmt.now))) }
{
    match stmt {
        Stmt::Do(action) => {
            action.write(out)?;
            write_sign(out, Mark::Semicolon)
        }
        Stmt::Block(head, block) => {
            head.write(out)?;
            write_block(out, block)
        }
        Stmt::IfElse(test, held, failed) => {
            write_with_keyword(out, Keyword::If, test)?;
            write_block(out, held)?;
            write_keyword(out, Keyword::Else)?;
            write_block(out, failed)
        }
    }
}

/// Statements in braces.
#[cycle(statement)]
#[tactic(auto, using(crate::proofs::Written::after_after))]
pub(crate) fn write_block(out: &mut Vec<u8>, block: &[Stmt]) -> Result<(), AllocError>
    ensures { OnOk result (out.new.items ≡ after out.old.items (braced (pieces_of_block (block_tree (map view_stmt block.now))))) }
{
    write_sign(out, Mark::OpenBrace)?;
    write_stmts(out, block)?;
    write_sign(out, Mark::CloseBrace)
}

/// Statements, one after the other.
#[cycle(statement)]
fn write_stmts(out: &mut Vec<u8>, stmts: &[Stmt]) -> Result<(), AllocError>
    ensures { OnOk result (out.new.items ≡ after out.old.items (pieces_of_block (block_tree (map view_stmt stmts.now)))) }
{
    for stmt in stmts {
        write_stmt(out, stmt)?;
    }
    Ok(())
}
