//! Statements and blocks, from tokens.

ghost use Rattle.std.specs.Prelude.{◌≡◌, ◌-◌, ◌++◌, ◌∷◌, [], map, length, OnOk};
ghost use Rattle.script_tokens.specs.Pieces.{piece};
ghost use Rattle.script_grammar.specs.Tree.{view, view_head, view_stmt};
ghost use Rattle.script_parser.specs.Model.Steps.{Gives};
ghost use Rattle.script_parser.specs.Model.Statements.{region_in, head_part_at, head_at, choice_at, headed_at, stmt_at, many_at, block_at};

use crate::action::{action, allow_begin};
use crate::expression::expr;
use crate::fault::{Kind, ReadError};
use crate::limits::NESTING;
use crate::one_token::{TokenSlice, closing_brace, name, refusal, sign};
use script_grammar::{Atoms, Expr, Head, Region, Stmt};
use script_tokens::{Keyword, Mark, Token};
use std::alloc::{AllocError, Global};

// The region that the head's block is.
fn region_of(head: &Head, region: Region) -> Region
    ensures { result ≡ region_in (view_head head.now) region }
{
    match head {
        Head::Group(_) => Region::Group,
        Head::Assume(_) => Region::Assume,
        Head::If(_) | Head::While(_) | Head::Bind(..) => region,
    }
}

// What stands in front of a block, but for an `if`.
#[tactic(auto, unfolding(crate::specs::Model::Statements::head_part_at))]
fn head_part(alloc: Global, tokens: TokenSlice<'_>) -> Result<(Head, TokenSlice<'_>), ReadError>
    ensures { Gives (λ x. (view_head x.0, map piece x.1.now)) result (head_part_at NESTING (map piece tokens.now)) }
{
    match tokens {
        [] => Err(refusal(Kind::EndsEarly, tokens)),
        [Token::Key(Keyword::While), rest @ ..] => {
            let (test, rest) = expr(alloc, Atoms::Every, NESTING, rest)?;
            Ok((Head::While(test), rest))
        }
        [Token::Key(Keyword::Bind), rest @ ..] => {
            let (local, rest) = name(alloc, rest)?;
            let rest = sign(Mark::Assign, rest)?;
            let (value, rest) = expr(alloc, Atoms::Every, NESTING, rest)?;
            Ok((Head::Bind(local, value), rest))
        }
        [Token::Key(Keyword::Group), rest @ ..] => {
            let (group, rest) = name(alloc, rest)?;
            Ok((Head::Group(group), rest))
        }
        [Token::Key(Keyword::Assume), rest @ ..] => {
            let (actor, rest) = name(alloc, rest)?;
            Ok((Head::Assume(actor), rest))
        }
        _ => Err(refusal(Kind::Unexpected, tokens)),
    }
}

// What stands in front of a block, in a region in which it may stand.
#[tactic(auto, unfolding(crate::specs::Model::Statements::head_at))]
fn head(
    alloc: Global,
    region: Region,
    tokens: TokenSlice<'_>,
) -> Result<(Head, TokenSlice<'_>), ReadError>
    ensures { Gives (λ x. (view_head x.0, map piece x.1.now)) result (head_at NESTING region (map piece tokens.now)) }
{
    let tokens = allow_begin(region, tokens)?;
    head_part(alloc, tokens)
}

// What is after the block of an `if`.
#[cycle(statement)]
#[tactic(auto, unfolding(crate::specs::Model::Statements::choice_at))]
fn choice(
    alloc: Global,
    region: Region,
    blocks: u32,
    test: Expr,
    held: Vec<Stmt>,
    tokens: TokenSlice<'_>,
) -> Result<(Stmt, TokenSlice<'_>), ReadError>
    ensures { Gives (λ x. (view_stmt x.0, map piece x.1.now)) result (choice_at (block_at NESTING blocks region) (view test) (map view_stmt held.items) (map piece tokens.now)) }
{
    match tokens {
        [Token::Key(Keyword::Else), rest @ ..] => {
            let (failed, rest) = block(alloc, region, blocks, rest)?;
            Ok((Stmt::IfElse(test, held, failed), rest))
        }
        _ => Ok((Stmt::Block(Head::If(test), held), tokens)),
    }
}

// A head and its block.
#[cycle(statement)]
#[tactic(auto, unfolding(crate::specs::Model::Statements::headed_at))]
fn head_and_block(
    alloc: Global,
    region: Region,
    blocks: u32,
    tokens: TokenSlice<'_>,
) -> Result<(Stmt, TokenSlice<'_>), ReadError>
    ensures { Gives (λ x. (view_stmt x.0, map piece x.1.now)) result (headed_at NESTING region (block_at NESTING blocks) (map piece tokens.now)) }
{
    let (head, rest) = head(alloc, region, tokens)?;
    let (body, rest) = block(alloc, region_of(&head, region), blocks, rest)?;
    Ok((Stmt::Block(head, body), rest))
}

// One statement, where `blocks` blocks may still be opened.
#[cycle(statement)]
#[tactic(auto, unfolding(crate::specs::Model::Statements::stmt_at))]
fn stmt(
    alloc: Global,
    region: Region,
    blocks: u32,
    tokens: TokenSlice<'_>,
) -> Result<(Stmt, TokenSlice<'_>), ReadError>
    ensures { Gives (λ x. (view_stmt x.0, map piece x.1.now)) result (stmt_at NESTING region (block_at NESTING blocks) (map piece tokens.now)) }
{
    match tokens {
        [Token::Key(Keyword::If), rest @ ..] => {
            let (test, rest) = expr(alloc, Atoms::Every, NESTING, rest)?;
            let (held, rest) = block(alloc, region, blocks, rest)?;
            choice(alloc, region, blocks, test, held, rest)
        }
        [
            Token::Key(Keyword::While | Keyword::Bind | Keyword::Group | Keyword::Assume),
            ..
        ] => { head_and_block(alloc, region, blocks, tokens) }
        _ => {
            let (action, rest) = action(alloc, region, tokens)?;
            Ok((Stmt::Do(Box::new(alloc, action)?), rest))
        }
    }
}

// Puts a statement after the others. A block within others often holds one, so the first takes no room for more.
fn add_stmt(stmts: &mut Vec<Stmt>, stmt: Stmt) -> Result<(), AllocError>
    ensures { OnOk result (stmts.new.items ≡ stmts.old.items ++ stmt ∷ []) }
{
    if stmts.is_empty() {
        match stmts.reserve_exact(1) {
            Ok(()) => {}
            Err(fault) => {
                // By name: at the end of its scope it would take the prover a minute.
                drop(stmt);
                return Err(fault);
            }
        }
    }
    stmts.push(stmt)?;
    Ok(())
}

// The statements up to the closing brace, which is taken too.
#[cycle(statement)]
fn statements(
    alloc: Global,
    region: Region,
    blocks: u32,
    tokens: TokenSlice<'_>,
) -> Result<(Vec<Stmt>, TokenSlice<'_>), ReadError>
    ensures { Gives (λ x. (map view_stmt x.0.items, map piece x.1.now)) result (many_at NESTING region (block_at NESTING blocks) (length tokens.now) (map piece tokens.now)) }
{
    let mut stmts = Vec::new(alloc);
    let mut rest = tokens;
    for _ in 0..tokens.len() {
        match closing_brace(rest) {
            Some(after) => return Ok((stmts, after)),
            None => {}
        }
        let (next, after) = stmt(alloc, region, blocks, rest)?;
        add_stmt(&mut stmts, next)?;
        rest = after;
    }
    Err(refusal(Kind::EndsEarly, rest))
}

// A block, where `blocks` blocks may still be opened, itself among them.
#[cycle(statement)]
#[tactic(auto, unfolding(crate::specs::Model::Statements::block_at))]
pub(crate) fn block(
    alloc: Global,
    region: Region,
    blocks: u32,
    tokens: TokenSlice<'_>,
) -> Result<(Vec<Stmt>, TokenSlice<'_>), ReadError>
    ensures { Gives (λ x. (map view_stmt x.0.items, map piece x.1.now)) result (block_at NESTING blocks region (map piece tokens.now)) }
{
    let rest = sign(Mark::OpenBrace, tokens)?;
    if blocks == 0 {
        return Err(refusal(Kind::TooDeep, tokens));
    }
    statements(alloc, region, blocks - 1, rest)
}
