//! Tasks that are made, from tokens.

ghost use Rattle.std.specs.Prelude.{◌≡◌, map};
ghost use Rattle.script_tokens.specs.Pieces.{piece};
ghost use Rattle.script_grammar.specs.Tree.{view_make, view_add};
ghost use Rattle.script_parser.specs.Model.Steps.{Gives};
ghost use Rattle.script_parser.specs.Model.Actions.{make_at, unless_at, child_at, add_at};

use crate::call::call;
use crate::fault::{Kind, ReadError};
use crate::limits::NESTING;
use crate::one_token::{TokenSlice, name, refusal};
use crate::priority::{given_or_medium, priority_if};
use script_grammar::{Add, Make};
use script_tokens::{Keyword, Token};
use std::alloc::Global;

// A task that is spawned or detached.
#[tactic(auto, unfolding(crate::specs::Model::Actions::make_at))]
pub(crate) fn make(
    alloc: Global,
    tokens: TokenSlice<'_>,
) -> Result<(Make, TokenSlice<'_>), ReadError>
    ensures { Gives (λ x. (view_make x.0, map piece x.1.now)) result (make_at NESTING (map piece tokens.now)) }
{
    match tokens {
        [] => Err(refusal(Kind::EndsEarly, tokens)),
        [Token::Key(Keyword::Spawn), rest @ ..] => {
            let (call, rest) = call(alloc, rest)?;
            let (priority, rest) = priority_if(rest)?;
            Ok((Make::Spawn(call, priority), rest))
        }
        [Token::Key(Keyword::Detach), rest @ ..] => {
            let (call, rest) = call(alloc, rest)?;
            let (priority, rest) = priority_if(rest)?;
            Ok((Make::Detach(call, given_or_medium(priority)), rest))
        }
        _ => Err(refusal(Kind::Unexpected, tokens)),
    }
}

#[tactic(auto, unfolding(crate::specs::Model::Actions::unless_at))]
fn unless(tokens: TokenSlice<'_>) -> (bool, TokenSlice<'_>)
    ensures { (result.0, map piece result.1.now) ≡ unless_at (map piece tokens.now) }
{
    match tokens {
        [Token::Key(Keyword::Unless), rest @ ..] => (true, rest),
        _ => (false, tokens),
    }
}

// A child of a group, after its keyword.
#[tactic(auto, unfolding(crate::specs::Model::Actions::add_at, crate::specs::Model::Actions::child_at))]
pub(crate) fn add(alloc: Global, tokens: TokenSlice<'_>) -> Result<(Add, TokenSlice<'_>), ReadError>
    ensures { Gives (λ x. (view_add x.0, map piece x.1.now)) result (add_at NESTING (map piece tokens.now)) }
{
    let (group, rest) = name(alloc, tokens)?;
    let (unless, rest) = unless(rest);
    let (call, rest) = call(alloc, rest)?;
    let (priority, rest) = priority_if(rest)?;
    Ok((
        Add {
            group,
            unless,
            call,
            priority,
        },
        rest,
    ))
}
