//! The statements of a method, whose names are places.

ghost use Rattle.std.specs.Prelude.{◌≡◌, OnOk};
ghost use Rattle.script_code.specs.Tree.{term_of, followed, end, choice, loop};
ghost use Rattle.script_code.specs.Statements.{operation_of, code_if, code_of};

use crate::formula::Formula;
use crate::instruction::Act;
use std::alloc::AllocError;

/// A statement of a method, with places for its names (our own).
#[derive(Drop)]
pub enum Statement {
    /// What is done at once, or ends the turn. The end of a method and a test are none: they stand for nothing here.
    Do(Act),
    /// What is done where a test holds, and what where it does not.
    IfElse(Formula, Vec<Statement>, Vec<Statement>),
    /// What is done as long as a test holds.
    While(Formula, Vec<Statement>),
}

/// Puts what is done at once after the others. `Err` says that there was no memory.
pub fn push_act(statements: &mut Vec<Statement>, act: Act) -> Result<(), AllocError>
    ensures { OnOk result (code_of statements.new.items ≡ followed (code_of statements.old.items) (code_if (operation_of act))) }
{
    statements.push(Statement::Do(act))?;
    Ok(())
}

/// Puts statements for where a test holds, and others for where it does not, after those that are there. `Err` says that
/// there was no memory.
pub fn push_choice(
    statements: &mut Vec<Statement>,
    test: Formula,
    held: Vec<Statement>,
    failed: Vec<Statement>,
) -> Result<(), AllocError>
    ensures { OnOk result (code_of statements.new.items ≡ followed (code_of statements.old.items) (choice (term_of test) (code_of held.items) (code_of failed.items) end)) }
{
    statements.push(Statement::IfElse(test, held, failed))?;
    Ok(())
}

/// Puts statements that are done as long as a test holds after those that are there. `Err` says that there was no memory.
pub fn push_loop(
    statements: &mut Vec<Statement>,
    test: Formula,
    body: Vec<Statement>,
) -> Result<(), AllocError>
    ensures { OnOk result (code_of statements.new.items ≡ followed (code_of statements.old.items) (loop (term_of test) (code_of body.items) end)) }
{
    statements.push(Statement::While(test, body))?;
    Ok(())
}
