//! Roots, from tokens.

ghost use Rattle.std.specs.Prelude.{◌≡◌, ◌+◌, ◌++◌, ◌∷◌, [], map, length, IfOk, OnOk, IfErr, FitsSigned};
ghost use Rattle.std.specs.Int.{w64};
ghost use Rattle.script_parser.specs.declared.fault.ReadError.TheVariants.{Memory};
ghost use Rattle.script_tokens.specs.Pieces.{piece};
ghost use Rattle.script_grammar.specs.Tree.{view_root};
ghost use Rattle.script_parser.specs.Model.Steps.{Gives};
ghost use Rattle.script_parser.specs.Model.Parts.{with_first, close_at, comma_at, list_at, items_at};
ghost use Rattle.script_parser.specs.Model.Declarations.{int_at, root_at};

use crate::fault::{Kind, ReadError};
use crate::number::int;
use crate::one_token::{TokenSlice, closing, name, refusal, sign};
use crate::priority::{given_or_medium, priority_if};
use script_grammar::Root;
use script_tokens::Mark;
use std::alloc::Global;

#[tactic(auto, unfolding(crate::specs::Model::Parts::comma_at))]
fn next_int(tokens: TokenSlice<'_>) -> Result<(i64, TokenSlice<'_>), ReadError>
    ensures gives { Gives (λ x. (x.0, map piece x.1.now)) result (comma_at int_at (map piece tokens.now)) }
    ensures fits { IfOk result (λ x. FitsSigned w64 x.0) }
{
    let rest = sign(Mark::Comma, tokens)?;
    int(rest)
}

// One more number. It is unchanged after an error.
fn add_int(items: &mut Vec<i64>, value: i64) -> Result<(), ReadError>
    ensures ok { OnOk result (items.new.items ≡ items.old.items ++ value ∷ []) }
    ensures memory { IfErr result (λ e. e ≡ Memory) }
{
    items.push(value)?;
    Ok(())
}

fn more_ints<'a>(
    alloc: Global,
    first: &i64,
    tokens: TokenSlice<'a>,
) -> Result<(Vec<i64>, TokenSlice<'a>), ReadError>
    ensures { Gives (λ x. (x.0.items, map piece x.1.now)) result (with_first first.now (items_at close_at (comma_at int_at) (length tokens.now + 1) (map piece tokens.now))) }
{
    let mut items = Vec::new(alloc);
    add_int(&mut items, *first)?;
    let mut rest = tokens;
    for _ in 0..tokens.len() + 1 {
        match closing(rest) {
            Some(after) => return Ok((items, after)),
            None => {}
        }
        let (next, after) = next_int(rest)?;
        add_int(&mut items, next)?;
        rest = after;
    }
    Err(refusal(Kind::EndsEarly, rest))
}

#[tactic(auto, unfolding(crate::specs::Model::Parts::list_at))]
fn ints(alloc: Global, tokens: TokenSlice<'_>) -> Result<(Vec<i64>, TokenSlice<'_>), ReadError>
    ensures { Gives (λ x. (x.0.items, map piece x.1.now)) result (list_at int_at (map piece tokens.now)) }
{
    match closing(tokens) {
        Some(rest) => Ok((Vec::new(alloc), rest)),
        None => {
            let (first, rest) = int(tokens)?;
            more_ints(alloc, &first, rest)
        }
    }
}

// A root after its keyword.
#[tactic(auto, unfolding(crate::specs::Model::Declarations::root_at))]
pub(crate) fn root(
    alloc: Global,
    tokens: TokenSlice<'_>,
) -> Result<(Root, TokenSlice<'_>), ReadError>
    ensures { Gives (λ x. (view_root x.0, map piece x.1.now)) result (root_at (map piece tokens.now)) }
{
    let (root, rest) = name(alloc, tokens)?;
    let rest = sign(Mark::Assign, rest)?;
    let (actor, rest) = name(alloc, rest)?;
    let rest = sign(Mark::Dot, rest)?;
    let (method, rest) = name(alloc, rest)?;
    let rest = sign(Mark::Open, rest)?;
    let (args, rest) = ints(alloc, rest)?;
    let (priority, rest) = priority_if(rest)?;
    let rest = sign(Mark::Semicolon, rest)?;
    Ok((
        Root {
            name: root,
            actor,
            method,
            args,
            priority: given_or_medium(priority),
        },
        rest,
    ))
}
