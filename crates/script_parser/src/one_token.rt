//! The parts of a rule that are one token.

ghost use Rattle.std.specs.Prelude.{◌≡◌, map};
ghost use Rattle.std.specs.Option.{option_map};
ghost use Rattle.script_tokens.specs.Pieces.{piece};
ghost use Rattle.script_grammar.specs.Tree.{text_of};
ghost use Rattle.script_parser.specs.declared.fault.ReadError.TheVariants as errors;
ghost use Rattle.script_parser.specs.Model.Steps.{at, Gives, allowed_at};
ghost use Rattle.script_parser.specs.Model.Parts.{code_of, name_at, sign_at, brace_at, close_at};

use crate::fault::{Kind, ParseFault, ReadError};
use script_grammar::Name;
use script_tokens::{Mark, NameText, Token};
use std::alloc::Global;

/// The tokens that are still to be read.
pub(crate) type TokenSlice<'a> = &'a [Token];

// The fault at the front of the tokens.
pub(crate) fn refusal(kind: Kind, tokens: TokenSlice<'_>) -> ReadError
    ensures { result ≡ errors.Fault (at kind (map piece tokens.now)) }
{
    let tokens_left = tokens.len();
    ReadError::Fault(ParseFault { kind, tokens_left })
}

// The tokens, where what they begin with may stand.
pub(crate) fn allow(may: bool, tokens: TokenSlice<'_>) -> Result<TokenSlice<'_>, ReadError>
    ensures { Gives (λ x. map piece x.now) result (allowed_at may (map piece tokens.now)) }
{
    if may {
        Ok(tokens)
    } else {
        Err(refusal(Kind::Unexpected, tokens))
    }
}

fn code(mark: Mark) -> u8
    ensures { result ≡ code_of mark }
{
    mark as u8
}

// The name of this text.
pub(crate) fn name_of(alloc: Global, text: &[u8]) -> Result<Name, ReadError>
    ensures { Gives text_of result (Ok text.now) }
{
    let text = NameText::from_slice(alloc, text)?;
    Ok(Name { text })
}

#[tactic(auto, unfolding(crate::specs::Model::Parts::name_at))]
pub(crate) fn name(
    alloc: Global,
    tokens: TokenSlice<'_>,
) -> Result<(Name, TokenSlice<'_>), ReadError>
    ensures { Gives (λ x. (text_of x.0, map piece x.1.now)) result (name_at (map piece tokens.now)) }
{
    match tokens {
        [] => Err(refusal(Kind::EndsEarly, tokens)),
        [Token::Name(text), rest @ ..] => Ok((name_of(alloc, text)?, rest)),
        _ => Err(refusal(Kind::Unexpected, tokens)),
    }
}

#[tactic(auto, unfolding(crate::specs::Model::Parts::sign_at))]
pub(crate) fn sign(mark: Mark, tokens: TokenSlice<'_>) -> Result<TokenSlice<'_>, ReadError>
    ensures { Gives (λ x. map piece x.now) result (sign_at mark (map piece tokens.now)) }
{
    match tokens {
        [] => Err(refusal(Kind::EndsEarly, tokens)),
        [Token::Sign(found), rest @ ..] => {
            if code(*found) == code(mark) {
                Ok(rest)
            } else {
                Err(refusal(Kind::Unexpected, tokens))
            }
        }
        _ => Err(refusal(Kind::Unexpected, tokens)),
    }
}

#[tactic(auto, unfolding(crate::specs::Model::Parts::brace_at))]
pub(crate) fn closing_brace(tokens: TokenSlice<'_>) -> Option<TokenSlice<'_>>
    ensures { option_map (λ x. map piece x.now) result ≡ brace_at (map piece tokens.now) }
{
    match tokens {
        [Token::Sign(Mark::CloseBrace), rest @ ..] => Some(rest),
        _ => None,
    }
}

#[tactic(auto, unfolding(crate::specs::Model::Parts::close_at))]
pub(crate) fn closing(tokens: TokenSlice<'_>) -> Option<TokenSlice<'_>>
    ensures { option_map (λ x. map piece x.now) result ≡ close_at (map piece tokens.now) }
{
    match tokens {
        [Token::Sign(Mark::Close), rest @ ..] => Some(rest),
        _ => None,
    }
}
