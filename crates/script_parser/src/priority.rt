//! Priorities, from tokens.

ghost use Rattle.std.specs.Prelude.{◌≡◌, map};
ghost use Rattle.script_tokens.specs.Pieces.{piece};
ghost use Rattle.script_grammar.specs.Grammar.{priority_of, or_medium};
ghost use Rattle.script_parser.specs.Model.Steps.{Gives};
ghost use Rattle.script_parser.specs.Model.Actions.{level_named_at, given_at};

use crate::fault::{Kind, ReadError};
use crate::one_token::{TokenSlice, refusal};
use script_tokens::{Keyword, Token};
use swift_types::Priority;

fn priority_named(keyword: Keyword) -> Option<Priority>
    ensures { result ≡ priority_of keyword }
{
    match keyword {
        Keyword::Background => Some(Priority::Background),
        Keyword::Low => Some(Priority::Low),
        Keyword::Medium => Some(Priority::Medium),
        Keyword::High => Some(Priority::High),
        _ => None,
    }
}

#[tactic(auto, unfolding(crate::specs::Model::Actions::level_named_at))]
fn level_named(tokens: TokenSlice<'_>) -> Result<(Priority, TokenSlice<'_>), ReadError>
    ensures { Gives (λ x. (x.0, map piece x.1.now)) result (level_named_at (map piece tokens.now)) }
{
    match tokens {
        [] => Err(refusal(Kind::EndsEarly, tokens)),
        [Token::Key(keyword), rest @ ..] => match priority_named(*keyword) {
            Some(priority) => Ok((priority, rest)),
            None => Err(refusal(Kind::Unexpected, tokens)),
        },
        _ => Err(refusal(Kind::Unexpected, tokens)),
    }
}

// A priority after `at`, if one stands there.
#[tactic(auto, unfolding(crate::specs::Model::Actions::given_at))]
pub(crate) fn priority_if(
    tokens: TokenSlice<'_>,
) -> Result<(Option<Priority>, TokenSlice<'_>), ReadError>
    ensures { Gives (λ x. (x.0, map piece x.1.now)) result (given_at (map piece tokens.now)) }
{
    match tokens {
        [Token::Key(Keyword::At), rest @ ..] => {
            let (priority, rest) = level_named(rest)?;
            Ok((Some(priority), rest))
        }
        _ => Ok((None, tokens)),
    }
}

pub(crate) fn given_or_medium(given: Option<Priority>) -> Priority
    ensures { result ≡ or_medium given }
{
    match given {
        Some(priority) => priority,
        None => Priority::Medium,
    }
}
