//! Blocks and their statements: their names stand there. Each puts what it stands for after the statements that are there.

ghost use Rattle.std.specs.Prelude.{◌≡◌, ◌<◌, ◌≤◌, ◌+◌, suc, length, map, IfOk, OnOk};
ghost use Rattle.swift_types.specs.declared.limits.TheConstants.{BYTES};
ghost use Rattle.script_grammar.specs.Tree.{Headed, Assume, text_of, view_head, view_stmt, block_tree};
ghost use Rattle.script_grammar.specs.Size.{stmt_size, block_size};
ghost use Rattle.script_names.specs.Texts.{place_of};
ghost use Rattle.script_names.specs.Rules.{past_head, past_stmt, past_block, head_error, stmt_error, block_error, scope_after, scope_within};
ghost use Rattle.script_names.specs.Finds.{Finds};
ghost use Rattle.script_code.specs.Layout.{greatest};
ghost use Rattle.script_code.specs.Statements.{code_of};
ghost use Rattle.script_code.specs.Tree.{followed};
ghost use Rattle.script_compiler.specs.Lowered.{headed_code, stmt_code, block_code};

use crate::lowering::action::{action, new_name};
use crate::lowering::expression::expression;
use crate::lowering::plan::Plan;
use crate::lowering::standing::StandingNames;
use script_code::{Act, Statement, push_act, push_choice, push_loop};
use script_grammar::{Head, Name, Stmt};
use script_names::{CheckError, NameErrorKind, NameKind, at_name, declared_fault, where_so};
use std::alloc::Global;

// An `assume` names an actor, none of whose fields has a name that stands there. From then on its fields stand there, in
// place of those of the actor before. It takes time linear in those fields or in the names of the method that are new
// since the last `assume` of that actor, whichever are fewer. The answer is its place.
fn assume(scope: &mut StandingNames<'_>, at: &mut u32, name: &Name) -> Result<usize, CheckError>
    requires { at.old < BYTES }
    ensures finds { Finds result (head_error scope.old at.old (Assume (text_of name.now))) }
    ensures after { OnOk result (at.new ≡ suc at.old) }
    ensures within { OnOk result (scope.new ≡ scope_within scope.old (Assume (text_of name.now))) }
    ensures place { IfOk result (λ n. n ≡ place_of scope.old.directory.actors (text_of name.now)) }
{
    let Some(place) = scope.declared().actor(&name.text) else {
        return Err(CheckError::at(NameErrorKind::Unknown, *at));
    };
    let is_taken = scope.has_field_name_of(place)?;
    at_name(at, where_so(is_taken, NameErrorKind::Twice))?;
    scope.assume(place);
    Ok(place)
}

// The block of an `assume`, which is run where the actor runs on the same executor as the one before. What stands in the
// block stands afterwards.
#[cycle(block)]
#[tactic(auto, using(script_code::proofs::Layouts::followed_then, script_names::proofs::Grows::block_grows))]
fn assumed(
    alloc: Global,
    plan: &Plan,
    scope: &mut StandingNames<'_>,
    at: &mut u32,
    statements: &mut Vec<Statement>,
    name: &Name,
    body: &[Stmt],
) -> Result<(), CheckError>
    requires names { past_block (block_tree (map view_stmt body.now)) (past_head (Assume (text_of name.now)) at.old) ≤ BYTES }
    requires room { length scope.old.kinds + block_size (block_tree (map view_stmt body.now)) ≤ greatest }
    ensures finds { Finds result (stmt_error scope.old at.old (Headed (Assume (text_of name.now)) (block_tree (map view_stmt body.now)))) }
    ensures after { OnOk result (at.new ≡ past_block (block_tree (map view_stmt body.now)) (past_head (Assume (text_of name.now)) at.old)) }
    ensures code { OnOk result (code_of statements.new.items ≡ followed (code_of statements.old.items) (headed_code plan.now scope.old (Assume (text_of name.now)) (block_code plan.now (scope_within scope.old (Assume (text_of name.now))) (block_tree (map view_stmt body.now))))) }
    ensures scope { OnOk result (scope.new ≡ scope_within scope.old (Assume (text_of name.now))) }
{
    let before = plan.executor(scope.actor());
    let actor = assume(scope, at, name)?;
    if plan.executor(actor) != before {
        // What stands in the block is looked at all the same.
        drop(inner(alloc, plan, scope, at, body)?);
        return Ok(push_act(statements, Act::Isolated)?);
    }
    push_act(statements, Act::Assume)?;
    block(alloc, plan, scope, at, statements, body)
}

// A block with its head. What stands in the block stands afterwards.
#[cycle(block)]
#[tactic(auto, using(script_code::proofs::Layouts::followed_then, script_names::proofs::Grows::block_grows, script_names::proofs::Grows::grows))]
fn headed(
    alloc: Global,
    plan: &Plan,
    scope: &mut StandingNames<'_>,
    at: &mut u32,
    statements: &mut Vec<Statement>,
    head: &Head,
    body: &[Stmt],
) -> Result<(), CheckError>
    requires names { past_block (block_tree (map view_stmt body.now)) (past_head (view_head head.now) at.old) ≤ BYTES }
    requires room { length scope.old.kinds + (1 + block_size (block_tree (map view_stmt body.now))) ≤ greatest }
    ensures finds { Finds result (stmt_error scope.old at.old (Headed (view_head head.now) (block_tree (map view_stmt body.now)))) }
    ensures after { OnOk result (at.new ≡ past_block (block_tree (map view_stmt body.now)) (past_head (view_head head.now) at.old)) }
    ensures code { OnOk result (code_of statements.new.items ≡ followed (code_of statements.old.items) (headed_code plan.now scope.old (view_head head.now) (block_code plan.now (scope_within scope.old (view_head head.now)) (block_tree (map view_stmt body.now))))) }
    ensures scope { OnOk result (scope.new ≡ scope_within scope.old (view_head head.now)) }
{
    match head {
        Head::If(test) => {
            let test = expression(alloc, plan, scope, at, test)?;
            let held = inner(alloc, plan, scope, at, body)?;
            Ok(push_choice(statements, test, held, Vec::new(alloc))?)
        }
        Head::While(test) => {
            let test = expression(alloc, plan, scope, at, test)?;
            let again = inner(alloc, plan, scope, at, body)?;
            Ok(push_loop(statements, test, again)?)
        }
        Head::Bind(name, set_to) => {
            at_name(at, declared_fault(scope.declared().local(&name.text)))?;
            let (local, _) = plan.local(&name.text);
            let value = expression(alloc, plan, scope, at, set_to)?;
            push_act(statements, Act::Bind(local, value))?;
            scope.bind();
            block(alloc, plan, scope, at, statements, body)?;
            Ok(push_act(statements, Act::Unbind)?)
        }
        Head::Group(name) => {
            new_name(scope, at, name)?;
            push_act(statements, Act::Open(scope.counts().handles))?;
            scope.add(alloc, &name.text, NameKind::Group)?;
            block(alloc, plan, scope, at, statements, body)?;
            Ok(push_act(statements, Act::Close)?)
        }
        Head::Assume(name) => assumed(alloc, plan, scope, at, statements, name, body),
    }
}

// A statement. What it makes stands after it.
#[cycle(block)]
fn statement(
    alloc: Global,
    plan: &Plan,
    scope: &mut StandingNames<'_>,
    at: &mut u32,
    statements: &mut Vec<Statement>,
    stmt: &Stmt,
) -> Result<(), CheckError>
    requires names { past_stmt (view_stmt stmt.now) at.old ≤ BYTES }
    requires room { length scope.old.kinds + stmt_size (view_stmt stmt.now) ≤ greatest }
    ensures finds { Finds result (stmt_error scope.old at.old (view_stmt stmt.now)) }
    ensures after { OnOk result (at.new ≡ past_stmt (view_stmt stmt.now) at.old) }
    ensures code { OnOk result (code_of statements.new.items ≡ followed (code_of statements.old.items) (stmt_code plan.now scope.old (view_stmt stmt.now))) }
    ensures scope { OnOk result (scope.new ≡ scope_after scope.old (view_stmt stmt.now)) }
{
    match stmt {
        Stmt::Do(done) => action(alloc, plan, scope, at, statements, done),
        Stmt::Block(head, body) => {
            let outside = scope.outside();
            headed(alloc, plan, scope, at, statements, head, body)?;
            scope.leave(outside);
            Ok(())
        }
        Stmt::IfElse(test, held, failed) => {
            let test = expression(alloc, plan, scope, at, test)?;
            let held = inner(alloc, plan, scope, at, held)?;
            let failed = inner(alloc, plan, scope, at, failed)?;
            Ok(push_choice(statements, test, held, failed)?)
        }
    }
}

// The statements of a block, after those that are there. What they make stands to the end of the block.
#[cycle(block)]
fn block(
    alloc: Global,
    plan: &Plan,
    scope: &mut StandingNames<'_>,
    at: &mut u32,
    statements: &mut Vec<Statement>,
    block: &[Stmt],
) -> Result<(), CheckError>
    requires names { past_block (block_tree (map view_stmt block.now)) at.old ≤ BYTES }
    requires room { length scope.old.kinds + block_size (block_tree (map view_stmt block.now)) ≤ greatest }
    ensures finds { Finds result (block_error scope.old at.old (block_tree (map view_stmt block.now))) }
    ensures after { OnOk result (at.new ≡ past_block (block_tree (map view_stmt block.now)) at.old) }
    ensures code { OnOk result (code_of statements.new.items ≡ followed (code_of statements.old.items) (block_code plan.now scope.old (block_tree (map view_stmt block.now)))) }
    ensures scope { OnOk result (scope.new ≡ scope.old) }
{
    let outside = scope.outside();
    for stmt in block {
        statement(alloc, plan, scope, at, statements, stmt)?;
    }
    scope.leave(outside);
    Ok(())
}

/// The statements of a block alone, with places for names. Linear in the statements and in all within them.
#[cycle(block)]
pub(crate) fn inner(
    alloc: Global,
    plan: &Plan,
    scope: &mut StandingNames<'_>,
    at: &mut u32,
    body: &[Stmt],
) -> Result<Vec<Statement>, CheckError>
    requires names { past_block (block_tree (map view_stmt body.now)) at.old ≤ BYTES }
    requires room { length scope.old.kinds + block_size (block_tree (map view_stmt body.now)) ≤ greatest }
    ensures finds { Finds result (block_error scope.old at.old (block_tree (map view_stmt body.now))) }
    ensures after { OnOk result (at.new ≡ past_block (block_tree (map view_stmt body.now)) at.old) }
    ensures code { IfOk result (λ v. code_of v.items ≡ block_code plan.now scope.old (block_tree (map view_stmt body.now))) }
    ensures scope { OnOk result (scope.new ≡ scope.old) }
{
    let mut statements = Vec::new(alloc);
    block(alloc, plan, scope, at, &mut statements, body)?;
    Ok(statements)
}
