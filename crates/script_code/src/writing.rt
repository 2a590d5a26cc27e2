//! From the statements of a method to its instructions. These are written from the end on: so each instruction is written
//! after those that follow it.

ghost use Rattle.std.specs.Prelude.{◌≡◌, ◌≤◌, ◌<◌, ◌+◌, ◌++◌, ◌∷◌, [], length, map, IfOk, OnOk};
ghost use Rattle.script_code.specs.Instructions.{FollowsCode};
ghost use Rattle.script_code.specs.Layout.{count, greatest, meaning_of, entry, written, code_at};
ghost use Rattle.script_code.specs.Statements.{operation_of, code_if, code_said, code_of};

use crate::emit::{link, push_instruction, renumber};
use crate::instruction::{Act, Instruction};
use crate::laws::written_code_implements;
use crate::statement::Statement;
use std::alloc::{AllocError, Global};

// Writes an instruction of which either of two may follow, and answers its number.
fn write_test(
    instructions: &mut Vec<Instruction>,
    act: Act,
    next: u32,
    other: u32,
) -> Result<u32, AllocError>
    requires { length instructions.old.items ≤ greatest }
    ensures lines { OnOk result (map meaning_of instructions.new.items ≡ map meaning_of instructions.old.items ++ meaning_of (record { act = act; next = next; other = other }) ∷ []) }
    ensures number { IfOk result (λ n. n ≡ length instructions.old.items) }
{
    let number = instructions.len() as u32;
    push_instruction(instructions, act, next, other)?;
    Ok(number)
}

// Writes what is done at once, and answers its number.
fn write_act(instructions: &mut Vec<Instruction>, act: Act, next: u32) -> Result<u32, AllocError>
    requires { length instructions.old.items ≤ greatest }
    ensures lines { OnOk result (map meaning_of instructions.new.items ≡ map meaning_of instructions.old.items ++ written (code_if (operation_of act)) (length instructions.old.items) next) }
    ensures start { IfOk result (λ n. n ≡ entry (code_if (operation_of act)) (length instructions.old.items) next) }
{
    match &act {
        Act::End | Act::Test(_) => Ok(next),
        _ => write_test(instructions, act, next, next),
    }
}

// Writes a statement, whose instructions go on at the instruction `next`. The answer is the instruction that it begins
// with.
#[cycle(write)]
fn write_statement(
    instructions: &mut Vec<Instruction>,
    statement: Statement,
    next: u32,
) -> Result<u32, AllocError>
    requires { length instructions.old.items + count (code_said statement) ≤ greatest }
    ensures lines { OnOk result (map meaning_of instructions.new.items ≡ map meaning_of instructions.old.items ++ written (code_said statement) (length instructions.old.items) next) }
    ensures start { IfOk result (λ n. n ≡ entry (code_said statement) (length instructions.old.items) next) }
{
    match statement {
        Statement::Do(act) => write_act(instructions, act, next),
        Statement::IfElse(test, held, failed) => {
            let other = write_statements(instructions, failed, next)?;
            let first = write_statements(instructions, held, next)?;
            write_test(instructions, Act::Test(test), first, other)
        }
        Statement::While(test, body) => {
            let here = write_test(instructions, Act::End, next, next)?;
            let first = write_statements(instructions, body, here)?;
            link(instructions, here, Act::Test(test), first, next);
            Ok(here)
        }
    }
}

// Writes statements, the last one first.
#[cycle(write)]
fn write_statements(
    instructions: &mut Vec<Instruction>,
    statements: Vec<Statement>,
    next: u32,
) -> Result<u32, AllocError>
    requires { length instructions.old.items + count (code_of statements.items) ≤ greatest }
    ensures lines { OnOk result (map meaning_of instructions.new.items ≡ map meaning_of instructions.old.items ++ written (code_of statements.items) (length instructions.old.items) next) }
    ensures start { IfOk result (λ n. n ≡ entry (code_of statements.items) (length instructions.old.items) next) }
{
    let mut left = statements;
    let mut first = next;
    while let Some(statement) = left.pop() {
        first = write_statement(instructions, statement, first)?;
    }
    Ok(first)
}

/// The instructions of a method with these statements. Following them from instruction 0 on stands for the statements. Time and
/// memory are linear in the statements; `Err` says that there was no memory.
pub fn instructions_of(
    alloc: Global,
    statements: Vec<Statement>,
) -> Result<Vec<Instruction>, AllocError>
    // They take no more instructions than have numbers of 32 bits.
    requires { count (code_of statements.items) < greatest }
    ensures { IfOk result (λ v. FollowsCode v.items (code_of statements.items) (code_at (code_of statements.items))) }
{
    let mut instructions = Vec::new(alloc);
    write_test(&mut instructions, Act::End, 0, 0)?;
    let first = write_statements(&mut instructions, statements, 0)?;
    renumber(&mut instructions, first);
    written_code_implements();
    Ok(instructions)
}
