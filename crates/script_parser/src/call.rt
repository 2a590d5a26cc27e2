//! Calls of methods, from tokens.

ghost use Rattle.std.specs.Prelude.{◌≡◌, ◌+◌, ◌-◌, map, length};
ghost use Rattle.script_tokens.specs.Pieces.{piece};
ghost use Rattle.script_grammar.specs.declared.region.Atoms.TheVariants.{Every};
ghost use Rattle.script_grammar.specs.Tree.{view, view_call};
ghost use Rattle.script_parser.specs.Model.Steps.{Gives};
ghost use Rattle.script_parser.specs.Model.Parts.{with_first, comma_at, list_at, close_at, items_at};
ghost use Rattle.script_parser.specs.Model.Expressions.{expr_in};
ghost use Rattle.script_parser.specs.Model.Actions.{call_at};

use crate::expression::expr;
use crate::fault::{Kind, ReadError};
use crate::limits::NESTING;
use crate::one_token::{TokenSlice, closing, name, refusal, sign};
use script_grammar::{Atoms, Call, Expr};
use script_tokens::Mark;
use std::alloc::Global;

// An argument, inside the parenthesis of its call.
#[tactic(auto, unfolding(crate::specs::Model::Parts::comma_at))]
fn next_argument(alloc: Global, tokens: TokenSlice<'_>) -> Result<(Expr, TokenSlice<'_>), ReadError>
    ensures { Gives (λ x. (view x.0, map piece x.1.now)) result (comma_at (expr_in Every NESTING (NESTING - 1)) (map piece tokens.now)) }
{
    let rest = sign(Mark::Comma, tokens)?;
    expr(alloc, Atoms::Every, NESTING - 1, rest)
}

fn more_arguments(
    alloc: Global,
    first: Expr,
    tokens: TokenSlice<'_>,
) -> Result<(Vec<Expr>, TokenSlice<'_>), ReadError>
    ensures { Gives (λ x. (map view x.0.items, map piece x.1.now)) result (with_first (view first) (items_at close_at (comma_at (expr_in Every NESTING (NESTING - 1))) (length tokens.now + 1) (map piece tokens.now))) }
{
    let mut items = Vec::new(alloc);
    items.push(first)?;
    let mut rest = tokens;
    for _ in 0..tokens.len() + 1 {
        match closing(rest) {
            Some(after) => return Ok((items, after)),
            None => {}
        }
        let (next, after) = next_argument(alloc, rest)?;
        items.push(next)?;
        rest = after;
    }
    Err(refusal(Kind::EndsEarly, rest))
}

#[tactic(auto, unfolding(crate::specs::Model::Parts::list_at))]
fn arguments(
    alloc: Global,
    tokens: TokenSlice<'_>,
) -> Result<(Vec<Expr>, TokenSlice<'_>), ReadError>
    ensures { Gives (λ x. (map view x.0.items, map piece x.1.now)) result (list_at (expr_in Every NESTING (NESTING - 1)) (map piece tokens.now)) }
{
    match closing(tokens) {
        Some(rest) => Ok((Vec::new(alloc), rest)),
        None => {
            let (first, rest) = expr(alloc, Atoms::Every, NESTING - 1, tokens)?;
            more_arguments(alloc, first, rest)
        }
    }
}

#[tactic(auto, unfolding(crate::specs::Model::Actions::call_at))]
pub(crate) fn call(
    alloc: Global,
    tokens: TokenSlice<'_>,
) -> Result<(Call, TokenSlice<'_>), ReadError>
    ensures { Gives (λ x. (view_call x.0, map piece x.1.now)) result (call_at NESTING (map piece tokens.now)) }
{
    let (actor, rest) = name(alloc, tokens)?;
    let rest = sign(Mark::Dot, rest)?;
    let (method, rest) = name(alloc, rest)?;
    let rest = sign(Mark::Open, rest)?;
    let (args, rest) = arguments(alloc, rest)?;
    Ok((
        Call {
            actor,
            method,
            args,
        },
        rest,
    ))
}
