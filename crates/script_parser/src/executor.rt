//! Executors and task locals, from tokens.

ghost use Rattle.std.specs.Prelude.{◌≡◌, map};
ghost use Rattle.script_tokens.specs.Pieces.{piece};
ghost use Rattle.script_grammar.specs.Tree.{view_executor, view_local};
ghost use Rattle.script_parser.specs.Model.Steps.{Gives};
ghost use Rattle.script_parser.specs.Model.Declarations.{kind_at, executor_at, local_at};

use crate::fault::{Kind, ReadError};
use crate::number::{number, setting};
use crate::one_token::{TokenSlice, name, refusal, sign};
use script_grammar::{Executor, Local};
use script_tokens::{Keyword, Mark, Token};
use std::alloc::Global;
use swift_types::ExecutorKind;

#[tactic(auto, unfolding(crate::specs::Model::Declarations::kind_at))]
fn kind(tokens: TokenSlice<'_>) -> Result<(ExecutorKind, TokenSlice<'_>), ReadError>
    ensures { Gives (λ x. (x.0, map piece x.1.now)) result (kind_at (map piece tokens.now)) }
{
    match tokens {
        [] => Err(refusal(Kind::EndsEarly, tokens)),
        [Token::Key(Keyword::Priority), rest @ ..] => Ok((ExecutorKind::Priority, rest)),
        [Token::Key(Keyword::Fifo), rest @ ..] => Ok((ExecutorKind::Fifo, rest)),
        [Token::Key(Keyword::Pinned), rest @ ..] => {
            let (worker, rest) = number(rest)?;
            Ok((ExecutorKind::Pinned(worker), rest))
        }
        _ => Err(refusal(Kind::Unexpected, tokens)),
    }
}

// An executor after its keyword.
#[tactic(auto, unfolding(crate::specs::Model::Declarations::executor_at))]
pub(crate) fn executor(
    alloc: Global,
    tokens: TokenSlice<'_>,
) -> Result<(Executor, TokenSlice<'_>), ReadError>
    ensures { Gives (λ x. (view_executor x.0, map piece x.1.now)) result (executor_at (map piece tokens.now)) }
{
    let (name, rest) = name(alloc, tokens)?;
    let (kind, rest) = kind(rest)?;
    let rest = sign(Mark::Semicolon, rest)?;
    Ok((Executor { name, kind }, rest))
}

// A task local after its keyword.
#[tactic(auto, unfolding(crate::specs::Model::Declarations::local_at))]
pub(crate) fn local(
    alloc: Global,
    tokens: TokenSlice<'_>,
) -> Result<(Local, TokenSlice<'_>), ReadError>
    ensures { Gives (λ x. (view_local x.0, map piece x.1.now)) result (local_at (map piece tokens.now)) }
{
    let ((name, default), rest) = setting(alloc, tokens)?;
    Ok((Local { name, default }, rest))
}
