//! Whole numbers, from tokens.

ghost use Rattle.std.specs.Prelude.{◌≡◌, map, IfOk, FitsSigned};
ghost use Rattle.std.specs.Int.{w64};
ghost use Rattle.script_tokens.specs.Pieces.{piece};
ghost use Rattle.script_parser.specs.Model.Steps.{Gives};
ghost use Rattle.script_parser.specs.Model.Declarations.{number_at, opposite_at, int_at, setting_at};
ghost use Rattle.script_grammar.specs.Tree.{text_of};

use crate::fault::{Kind, ReadError};
use crate::one_token::{TokenSlice, name, refusal, sign};
use script_grammar::Name;
use script_tokens::{Mark, Token};
use std::alloc::Global;

#[tactic(auto, unfolding(crate::specs::Model::Declarations::number_at))]
pub(crate) fn number(tokens: TokenSlice<'_>) -> Result<(i64, TokenSlice<'_>), ReadError>
    ensures gives { Gives (λ x. (x.0, map piece x.1.now)) result (number_at (map piece tokens.now)) }
    ensures fits { IfOk result (λ x. FitsSigned w64 x.0) }
{
    match tokens {
        [] => Err(refusal(Kind::EndsEarly, tokens)),
        [Token::Num(value), rest @ ..] => Ok((*value, rest)),
        [Token::Huge, ..] => Err(refusal(Kind::OutOfRange, tokens)),
        _ => Err(refusal(Kind::Unexpected, tokens)),
    }
}

// The opposite of the number at `digits`.
#[tactic(auto, unfolding(crate::specs::Model::Declarations::opposite_at))]
fn opposite<'a>(
    value: i64,
    digits: TokenSlice<'_>,
    rest: TokenSlice<'a>,
) -> Result<(i64, TokenSlice<'a>), ReadError>
    ensures gives { Gives (λ x. (x.0, map piece x.1.now)) result (opposite_at (map piece digits.now) value (map piece rest.now)) }
    ensures fits { IfOk result (λ x. FitsSigned w64 x.0) }
{
    if value == i64::MIN {
        return Err(refusal(Kind::OutOfRange, digits));
    }
    Ok((-value, rest))
}

// A number, perhaps after a minus.
#[tactic(auto, unfolding(crate::specs::Model::Declarations::int_at))]
pub(crate) fn int(tokens: TokenSlice<'_>) -> Result<(i64, TokenSlice<'_>), ReadError>
    ensures gives { Gives (λ x. (x.0, map piece x.1.now)) result (int_at (map piece tokens.now)) }
    ensures fits { IfOk result (λ x. FitsSigned w64 x.0) }
{
    match tokens {
        [Token::Sign(Mark::Minus), digits @ ..] => {
            let (value, rest) = number(digits)?;
            opposite(value, digits, rest)
        }
        _ => number(tokens),
    }
}

// A name and the number that it is set to, up to the semicolon.
#[tactic(auto, unfolding(crate::specs::Model::Declarations::setting_at))]
pub(crate) fn setting(
    alloc: Global,
    tokens: TokenSlice<'_>,
) -> Result<((Name, i64), TokenSlice<'_>), ReadError>
    ensures gives { Gives (λ x. ((text_of x.0.0, x.0.1), map piece x.1.now)) result (setting_at (map piece tokens.now)) }
    ensures fits { IfOk result (λ x. FitsSigned w64 x.0.1) }
{
    let (name, rest) = name(alloc, tokens)?;
    let rest = sign(Mark::Assign, rest)?;
    let (value, rest) = int(rest)?;
    let rest = sign(Mark::Semicolon, rest)?;
    Ok(((name, value), rest))
}
