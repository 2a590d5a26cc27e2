//! Actors, from tokens.

ghost use Rattle.std.specs.Prelude.{◌≡◌, ◌+◌, map, length};
ghost use Rattle.std.specs.Option.{option_map};
ghost use Rattle.script_tokens.specs.Pieces.{piece};
ghost use Rattle.script_grammar.specs.Tree.{text_of, text_if, view_if, view_field, view_method, view_actor};
ghost use Rattle.script_parser.specs.Model.Steps.{Gives};
ghost use Rattle.script_parser.specs.Model.Parts.{name_at, with_first, close_at, comma_at, list_at, brace_at, items_at};
ghost use Rattle.script_parser.specs.Model.Declarations.{fields_end, field_at, on_at, invariant_at, method_at, actor_at};

use crate::expression::expr;
use crate::fault::{Kind, ReadError};
use crate::limits::NESTING;
use crate::number::setting;
use crate::one_token::{TokenSlice, closing, closing_brace, name, refusal, sign};
use crate::statement::block;
use script_grammar::{Actor, Atoms, Expr, Field, Method, Name, Region};
use script_tokens::{Keyword, Mark, Token};
use std::alloc::Global;

#[tactic(auto, unfolding(crate::specs::Model::Parts::comma_at))]
fn next_name(alloc: Global, tokens: TokenSlice<'_>) -> Result<(Name, TokenSlice<'_>), ReadError>
    ensures { Gives (λ x. (text_of x.0, map piece x.1.now)) result (comma_at name_at (map piece tokens.now)) }
{
    let rest = sign(Mark::Comma, tokens)?;
    name(alloc, rest)
}

fn more_names(
    alloc: Global,
    first: Name,
    tokens: TokenSlice<'_>,
) -> Result<(Vec<Name>, TokenSlice<'_>), ReadError>
    ensures { Gives (λ x. (map text_of x.0.items, map piece x.1.now)) result (with_first (text_of first) (items_at close_at (comma_at name_at) (length tokens.now + 1) (map piece tokens.now))) }
{
    let mut items = Vec::new(alloc);
    items.push(first)?;
    let mut rest = tokens;
    for _ in 0..tokens.len() + 1 {
        match closing(rest) {
            Some(after) => return Ok((items, after)),
            None => {}
        }
        let (next, after) = next_name(alloc, rest)?;
        items.push(next)?;
        rest = after;
    }
    Err(refusal(Kind::EndsEarly, rest))
}

#[tactic(auto, unfolding(crate::specs::Model::Parts::list_at))]
fn params(alloc: Global, tokens: TokenSlice<'_>) -> Result<(Vec<Name>, TokenSlice<'_>), ReadError>
    ensures { Gives (λ x. (map text_of x.0.items, map piece x.1.now)) result (list_at name_at (map piece tokens.now)) }
{
    match closing(tokens) {
        Some(rest) => Ok((Vec::new(alloc), rest)),
        None => {
            let (first, rest) = name(alloc, tokens)?;
            more_names(alloc, first, rest)
        }
    }
}

#[tactic(auto, unfolding(crate::specs::Model::Declarations::fields_end))]
fn end_of_fields(tokens: TokenSlice<'_>) -> Option<TokenSlice<'_>>
    ensures { option_map (λ x. map piece x.now) result ≡ fields_end (map piece tokens.now) }
{
    match tokens {
        [Token::Key(Keyword::Var), ..] => None,
        _ => Some(tokens),
    }
}

#[tactic(auto, unfolding(crate::specs::Model::Declarations::field_at))]
fn field(alloc: Global, tokens: TokenSlice<'_>) -> Result<(Field, TokenSlice<'_>), ReadError>
    ensures { Gives (λ x. (view_field x.0, map piece x.1.now)) result (field_at (map piece tokens.now)) }
{
    match tokens {
        [] => Err(refusal(Kind::EndsEarly, tokens)),
        [Token::Key(Keyword::Var), rest @ ..] => {
            let ((name, start), rest) = setting(alloc, rest)?;
            Ok((Field { name, start }, rest))
        }
        _ => Err(refusal(Kind::Unexpected, tokens)),
    }
}

fn fields(alloc: Global, tokens: TokenSlice<'_>) -> Result<(Vec<Field>, TokenSlice<'_>), ReadError>
    ensures { Gives (λ x. (map view_field x.0.items, map piece x.1.now)) result (items_at fields_end field_at (length tokens.now + 1) (map piece tokens.now)) }
{
    let mut items = Vec::new(alloc);
    let mut rest = tokens;
    for _ in 0..tokens.len() + 1 {
        match end_of_fields(rest) {
            Some(after) => return Ok((items, after)),
            None => {}
        }
        let (next, after) = field(alloc, rest)?;
        items.push(next)?;
        rest = after;
    }
    Err(refusal(Kind::EndsEarly, rest))
}

#[tactic(auto, unfolding(crate::specs::Model::Declarations::invariant_at))]
fn invariant(
    alloc: Global,
    tokens: TokenSlice<'_>,
) -> Result<(Option<Expr>, TokenSlice<'_>), ReadError>
    ensures { Gives (λ x. (view_if x.0, map piece x.1.now)) result (invariant_at NESTING (map piece tokens.now)) }
{
    match tokens {
        [Token::Key(Keyword::Invariant), rest @ ..] => {
            let (test, rest) = expr(alloc, Atoms::Plain, NESTING, rest)?;
            let rest = sign(Mark::Semicolon, rest)?;
            Ok((Some(test), rest))
        }
        _ => Ok((None, tokens)),
    }
}

#[tactic(auto, unfolding(crate::specs::Model::Declarations::method_at))]
fn method(alloc: Global, tokens: TokenSlice<'_>) -> Result<(Method, TokenSlice<'_>), ReadError>
    ensures { Gives (λ x. (view_method x.0, map piece x.1.now)) result (method_at NESTING (map piece tokens.now)) }
{
    match tokens {
        [] => Err(refusal(Kind::EndsEarly, tokens)),
        [Token::Key(Keyword::Func), rest @ ..] => {
            let (name, rest) = name(alloc, rest)?;
            let rest = sign(Mark::Open, rest)?;
            let (params, rest) = params(alloc, rest)?;
            let (body, rest) = block(alloc, Region::Method, NESTING, rest)?;
            Ok((Method { name, params, body }, rest))
        }
        _ => Err(refusal(Kind::Unexpected, tokens)),
    }
}

fn methods(
    alloc: Global,
    tokens: TokenSlice<'_>,
) -> Result<(Vec<Method>, TokenSlice<'_>), ReadError>
    ensures { Gives (λ x. (map view_method x.0.items, map piece x.1.now)) result (items_at brace_at (method_at NESTING) (length tokens.now + 1) (map piece tokens.now)) }
{
    let mut items = Vec::new(alloc);
    let mut rest = tokens;
    for _ in 0..tokens.len() + 1 {
        match closing_brace(rest) {
            Some(after) => return Ok((items, after)),
            None => {}
        }
        let (next, after) = method(alloc, rest)?;
        items.push(next)?;
        rest = after;
    }
    Err(refusal(Kind::EndsEarly, rest))
}

// The executor that an actor is on, if one is named.
#[tactic(auto, unfolding(crate::specs::Model::Declarations::on_at))]
fn on(alloc: Global, tokens: TokenSlice<'_>) -> Result<(Option<Name>, TokenSlice<'_>), ReadError>
    ensures { Gives (λ x. (text_if x.0, map piece x.1.now)) result (on_at (map piece tokens.now)) }
{
    match tokens {
        [Token::Key(Keyword::On), rest @ ..] => {
            let (executor, rest) = name(alloc, rest)?;
            Ok((Some(executor), rest))
        }
        _ => Ok((None, tokens)),
    }
}

// An actor after its keyword.
#[tactic(auto, unfolding(crate::specs::Model::Declarations::actor_at))]
pub(crate) fn actor(
    alloc: Global,
    tokens: TokenSlice<'_>,
) -> Result<(Actor, TokenSlice<'_>), ReadError>
    ensures { Gives (λ x. (view_actor x.0, map piece x.1.now)) result (actor_at NESTING (map piece tokens.now)) }
{
    let (name, rest) = name(alloc, tokens)?;
    let (executor, rest) = on(alloc, rest)?;
    let rest = sign(Mark::OpenBrace, rest)?;
    let (fields, rest) = fields(alloc, rest)?;
    let (invariant, rest) = invariant(alloc, rest)?;
    let (methods, rest) = methods(alloc, rest)?;
    Ok((
        Actor {
            name,
            executor,
            fields,
            invariant,
            methods,
        },
        rest,
    ))
}
