//! Statements without a block, from tokens.

ghost use Rattle.std.specs.Prelude.{◌≡◌, map};
ghost use Rattle.script_tokens.specs.Pieces.{piece};
ghost use Rattle.script_grammar.specs.Tree.{text_of, view_action};
ghost use Rattle.script_grammar.specs.Grammar.{may_act, may_return};
ghost use Rattle.script_parser.specs.Model.Steps.{Gives};
ghost use Rattle.script_parser.specs.Model.Actions.{may_begin, begun_at, variable_at, let_at, assign_at, part_at, action_at};

use crate::expression::expr;
use crate::fault::{Kind, ReadError};
use crate::limits::NESTING;
use crate::make::{add, make};
use crate::one_token::{TokenSlice, allow, name, name_of, refusal, sign};
use crate::wait::{value, wait};
use script_grammar::{Action, Atoms, Name, Region};
use script_tokens::{Keyword, Mark, Token};
use std::alloc::Global;

fn may_act_in(region: Region) -> bool
    ensures { result ≡ may_act region }
{
    match region {
        Region::Method | Region::Group => true,
        Region::Assume => false,
    }
}

fn may_return_in(region: Region) -> bool
    ensures { result ≡ may_return region }
{
    match region {
        Region::Method => true,
        Region::Group | Region::Assume => false,
    }
}

// Whether a statement or a value may begin so in the region.
#[tactic(auto, unfolding(crate::specs::Model::Actions::may_begin))]
fn may_begin_in(region: Region, tokens: TokenSlice<'_>) -> bool
    ensures { result ≡ may_begin region (map piece tokens.now) }
{
    match tokens {
        [Token::Key(Keyword::Return), ..] => may_return_in(region),
        [
            Token::Key(
                Keyword::Add
                | Keyword::Await
                | Keyword::Bind
                | Keyword::Cancel
                | Keyword::Detach
                | Keyword::Group
                | Keyword::Spawn
                | Keyword::Yield,
            ),
            ..
        ] => may_act_in(region),
        _ => true,
    }
}

// The tokens, where a statement or a value may begin so in the region.
#[tactic(auto, unfolding(crate::specs::Model::Actions::begun_at))]
pub(crate) fn allow_begin(
    region: Region,
    tokens: TokenSlice<'_>,
) -> Result<TokenSlice<'_>, ReadError>
    ensures { Gives (λ x. map piece x.now) result (begun_at region (map piece tokens.now)) }
{
    allow(may_begin_in(region, tokens), tokens)
}

// A variable, after its `=`.
#[tactic(auto, unfolding(crate::specs::Model::Actions::variable_at))]
fn variable(
    alloc: Global,
    variable: Name,
    tokens: TokenSlice<'_>,
) -> Result<(Action, TokenSlice<'_>), ReadError>
    ensures { Gives (λ x. (view_action x.0, map piece x.1.now)) result (variable_at NESTING (text_of variable) (map piece tokens.now)) }
{
    match tokens {
        [Token::Key(Keyword::Detach | Keyword::Spawn), ..] => {
            let (make, rest) = make(alloc, tokens)?;
            Ok((Action::LetTask(variable, make), rest))
        }
        _ => {
            let (value, rest) = value(alloc, tokens)?;
            Ok((Action::Let(variable, value), rest))
        }
    }
}

// A `let` after its keyword.
#[tactic(auto, unfolding(crate::specs::Model::Actions::let_at))]
fn definition(
    alloc: Global,
    region: Region,
    tokens: TokenSlice<'_>,
) -> Result<(Action, TokenSlice<'_>), ReadError>
    ensures { Gives (λ x. (view_action x.0, map piece x.1.now)) result (let_at NESTING region (map piece tokens.now)) }
{
    let (name, rest) = name(alloc, tokens)?;
    let rest = sign(Mark::Assign, rest)?;
    let rest = allow_begin(region, rest)?;
    variable(alloc, name, rest)
}

// An assignment after the name of this text.
#[tactic(auto, unfolding(crate::specs::Model::Actions::assign_at))]
fn assignment<'a>(
    alloc: Global,
    region: Region,
    text: &[u8],
    tokens: TokenSlice<'a>,
) -> Result<(Action, TokenSlice<'a>), ReadError>
    ensures { Gives (λ x. (view_action x.0, map piece x.1.now)) result (assign_at NESTING region text.now (map piece tokens.now)) }
{
    let variable = name_of(alloc, text)?;
    let rest = sign(Mark::Assign, tokens)?;
    let rest = allow_begin(region, rest)?;
    let (value, rest) = value(alloc, rest)?;
    Ok((Action::Assign(variable, value), rest))
}

// A statement up to its semicolon.
#[tactic(auto, unfolding(crate::specs::Model::Actions::part_at))]
fn part(
    alloc: Global,
    region: Region,
    tokens: TokenSlice<'_>,
) -> Result<(Action, TokenSlice<'_>), ReadError>
    ensures { Gives (λ x. (view_action x.0, map piece x.1.now)) result (part_at NESTING region (map piece tokens.now)) }
{
    match tokens {
        [] => Err(refusal(Kind::EndsEarly, tokens)),
        [Token::Name(text), rest @ ..] => assignment(alloc, region, text, rest),
        [Token::Key(Keyword::Let), rest @ ..] => definition(alloc, region, rest),
        [Token::Key(Keyword::Await), rest @ ..] => {
            let (wait, rest) = wait(alloc, rest)?;
            Ok((Action::Await(wait), rest))
        }
        [Token::Key(Keyword::Detach | Keyword::Spawn), ..] => {
            let (make, rest) = make(alloc, tokens)?;
            Ok((Action::Make(make), rest))
        }
        [Token::Key(Keyword::Add), rest @ ..] => {
            let (add, rest) = add(alloc, rest)?;
            Ok((Action::Add(add), rest))
        }
        [Token::Key(Keyword::Cancel), rest @ ..] => {
            let (name, rest) = name(alloc, rest)?;
            Ok((Action::Cancel(name), rest))
        }
        [Token::Key(Keyword::Return), rest @ ..] => {
            let (value, rest) = expr(alloc, Atoms::Every, NESTING, rest)?;
            Ok((Action::Return(value), rest))
        }
        [Token::Key(Keyword::Throw), rest @ ..] => {
            let (value, rest) = expr(alloc, Atoms::Every, NESTING, rest)?;
            Ok((Action::Throw(value), rest))
        }
        [Token::Key(Keyword::Check), rest @ ..] => Ok((Action::Check, rest)),
        [Token::Key(Keyword::Yield), rest @ ..] => Ok((Action::Yield, rest)),
        _ => Err(refusal(Kind::Unexpected, tokens)),
    }
}

// A statement without a block.
#[tactic(auto, unfolding(crate::specs::Model::Actions::action_at))]
pub(crate) fn action(
    alloc: Global,
    region: Region,
    tokens: TokenSlice<'_>,
) -> Result<(Action, TokenSlice<'_>), ReadError>
    ensures { Gives (λ x. (view_action x.0, map piece x.1.now)) result (action_at NESTING region (map piece tokens.now)) }
{
    let tokens = allow_begin(region, tokens)?;
    let (action, rest) = part(alloc, region, tokens)?;
    let rest = sign(Mark::Semicolon, rest)?;
    Ok((action, rest))
}
