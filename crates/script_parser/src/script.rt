//! Whole scripts, from tokens.

ghost use Rattle.std.specs.Prelude.{◌≡◌, ◌+◌, map, length, List, ℕ, IfOk, IfErr};
ghost use Rattle.std.specs.Option.{option_map};
ghost use Rattle.script_tokens.specs.Pieces.{piece};
ghost use Rattle.script_grammar.specs.Tree.{DeclTree, view_decl};
ghost use Rattle.script_grammar.specs.Grammar.{IsScript};
ghost use Rattle.script_parser.specs.Model.Steps.{Gives};
ghost use Rattle.script_parser.specs.Model.Parts.{items_at};
ghost use Rattle.script_parser.specs.Model.Declarations.{decl_at, decls_end};
ghost use Rattle.script_parser.specs.Answers.{IsReadAs, SpellsNothing, IsFirstFault};

use crate::actor::actor;
use crate::executor::{executor, local};
use crate::fault::{Kind, ReadError};
use crate::limits::NESTING;
use crate::one_token::{TokenSlice, refusal};
use crate::root::root;
use script_grammar::Decl;
use script_tokens::{Keyword, Token};
use std::alloc::Global;

#[tactic(auto, unfolding(crate::specs::Model::Declarations::decls_end))]
fn end_of_decls(tokens: TokenSlice<'_>) -> Option<TokenSlice<'_>>
    ensures { option_map (λ x. map piece x.now) result ≡ decls_end (map piece tokens.now) }
{
    match tokens {
        [] => Some(tokens),
        _ => None,
    }
}

#[tactic(auto, unfolding(crate::specs::Model::Declarations::decl_at))]
fn decl(alloc: Global, tokens: TokenSlice<'_>) -> Result<(Decl, TokenSlice<'_>), ReadError>
    ensures { Gives (λ x. (view_decl x.0, map piece x.1.now)) result (decl_at NESTING (map piece tokens.now)) }
{
    match tokens {
        [] => Err(refusal(Kind::EndsEarly, tokens)),
        [Token::Key(Keyword::Executor), rest @ ..] => {
            let (executor, rest) = executor(alloc, rest)?;
            Ok((Decl::Executor(executor), rest))
        }
        [Token::Key(Keyword::Local), rest @ ..] => {
            let (local, rest) = local(alloc, rest)?;
            Ok((Decl::Local(local), rest))
        }
        [Token::Key(Keyword::Actor), rest @ ..] => {
            let (actor, rest) = actor(alloc, rest)?;
            Ok((Decl::Actor(actor), rest))
        }
        [Token::Key(Keyword::Root), rest @ ..] => {
            let (root, rest) = root(alloc, rest)?;
            Ok((Decl::Root(root), rest))
        }
        _ => Err(refusal(Kind::Unexpected, tokens)),
    }
}

fn decls(alloc: Global, tokens: TokenSlice<'_>) -> Result<(Vec<Decl>, TokenSlice<'_>), ReadError>
    ensures { Gives (λ x. (map view_decl x.0.items, map piece x.1.now)) result (items_at decls_end (decl_at NESTING) (length tokens.now + 1) (map piece tokens.now)) }
{
    let mut items = Vec::new(alloc);
    let mut rest = tokens;
    for _ in 0..tokens.len() + 1 {
        match end_of_decls(rest) {
            Some(after) => return Ok((items, after)),
            None => {}
        }
        let (next, after) = decl(alloc, rest)?;
        items.push(next)?;
        rest = after;
    }
    Err(refusal(Kind::EndsEarly, rest))
}

/// The declarations that the tokens of a script spell, in text order. No tokens spell no declarations.
///
/// `ReadError::Fault` is the fault that is met first, from left to right: a token that does not fit, a number that no
/// `i64` holds, the end of the text, or what passes `NESTING`. `ReadError::Memory` says that a growth was refused.
///
/// Time and memory are linear in the tokens, and the stack that is used is bounded by the limit. The grammar is our own.
pub fn parse(alloc: Global, tokens: &[Token]) -> Result<Vec<Decl>, ReadError>
    // What is read is spelled so.
    ensures found { IfOk result (λ v. IsScript NESTING (map piece tokens.now) (map view_decl v.items)) }
    // What is spelled so is read, unless memory runs out.
    ensures accepted { (tree : List DeclTree) → IsScript NESTING (map piece tokens.now) tree → IsReadAs tree result }
    // A fault stands only where nothing within the limits is spelled.
    ensures refused { IfErr result (SpellsNothing (map piece tokens.now)) }
    // It is the fault that is met first.
    ensures fault { IfErr result (IsFirstFault (map piece tokens.now)) }
{
    let (decls, _) = decls(alloc, tokens)?;
    Ok(decls)
}
