//! What is waited for, and the values of variables, from tokens.

ghost use Rattle.std.specs.Prelude.{◌≡◌, map};
ghost use Rattle.script_tokens.specs.Pieces.{piece};
ghost use Rattle.script_grammar.specs.Tree.{view_if, view_awaited, view_wait, view_value};
ghost use Rattle.script_parser.specs.Model.Steps.{Gives};
ghost use Rattle.script_parser.specs.Model.Actions.{awaited_at, else_at, wait_at, value_at};

use crate::call::call;
use crate::expression::expr;
use crate::fault::ReadError;
use crate::limits::NESTING;
use crate::one_token::{TokenSlice, name};
use script_grammar::{Atoms, Awaited, Expr, Value, Wait};
use script_tokens::{Keyword, Token};
use std::alloc::Global;

#[tactic(auto, unfolding(crate::specs::Model::Actions::awaited_at))]
fn parse_awaited(
    alloc: Global,
    tokens: TokenSlice<'_>,
) -> Result<(Awaited, TokenSlice<'_>), ReadError>
    ensures { Gives (λ x. (view_awaited x.0, map piece x.1.now)) result (awaited_at NESTING (map piece tokens.now)) }
{
    match tokens {
        [Token::Key(Keyword::Task), rest @ ..] => {
            let (task, rest) = name(alloc, rest)?;
            Ok((Awaited::Task(task), rest))
        }
        [Token::Key(Keyword::Next), rest @ ..] => {
            let (group, rest) = name(alloc, rest)?;
            Ok((Awaited::Next(group), rest))
        }
        _ => {
            let (call, rest) = call(alloc, tokens)?;
            Ok((Awaited::Call(call), rest))
        }
    }
}

#[tactic(auto, unfolding(crate::specs::Model::Actions::else_at))]
fn other(alloc: Global, tokens: TokenSlice<'_>) -> Result<(Option<Expr>, TokenSlice<'_>), ReadError>
    ensures { Gives (λ x. (view_if x.0, map piece x.1.now)) result (else_at NESTING (map piece tokens.now)) }
{
    match tokens {
        [Token::Key(Keyword::Else), rest @ ..] => {
            let (value, rest) = expr(alloc, Atoms::Every, NESTING, rest)?;
            Ok((Some(value), rest))
        }
        _ => Ok((None, tokens)),
    }
}

// What is waited for, after its keyword.
#[tactic(auto, unfolding(crate::specs::Model::Actions::wait_at))]
pub(crate) fn wait(
    alloc: Global,
    tokens: TokenSlice<'_>,
) -> Result<(Wait, TokenSlice<'_>), ReadError>
    ensures { Gives (λ x. (view_wait x.0, map piece x.1.now)) result (wait_at NESTING (map piece tokens.now)) }
{
    let (awaited, rest) = parse_awaited(alloc, tokens)?;
    let (other, rest) = other(alloc, rest)?;
    Ok((Wait { awaited, other }, rest))
}

#[tactic(auto, unfolding(crate::specs::Model::Actions::value_at))]
pub(crate) fn value(
    alloc: Global,
    tokens: TokenSlice<'_>,
) -> Result<(Value, TokenSlice<'_>), ReadError>
    ensures { Gives (λ x. (view_value x.0, map piece x.1.now)) result (value_at NESTING (map piece tokens.now)) }
{
    match tokens {
        [Token::Key(Keyword::Await), rest @ ..] => {
            let (wait, rest) = wait(alloc, rest)?;
            Ok((Value::Await(wait), rest))
        }
        _ => {
            let (value, rest) = expr(alloc, Atoms::Every, NESTING, tokens)?;
            Ok((Value::Expr(value), rest))
        }
    }
}
