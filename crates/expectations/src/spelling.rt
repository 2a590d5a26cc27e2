//! Tokens with the field of an actor as one name.

ghost use Rattle.std.specs.Prelude.{◌≡◌, ◌<◌, ◌++◌, ◌∷◌, IfOk, IfSome, length, map};
ghost use Rattle.std.specs.Option.{option_map};
ghost use Rattle.script_tokens.specs.Pieces.{piece};
ghost use Rattle.script_grammar.specs.Tree.{view, view_actor};
ghost use Rattle.expectations.specs.FirstInside.{field_first, first_of, name_first, named_with};
ghost use Rattle.expectations.specs.Texts.{Joins, SpellsTest, actor_with, as_invariant};

use script_grammar::{Actor, Decl, Expr};
use script_parser::{Kind, ParseFault, ReadError, parse};
use script_tokens::{Keyword, Mark, NameText, Token};
use std::alloc::{AllocError, Global};

/// Tokens, and how many of the text's come before each.
#[derive(Drop)]
pub(crate) struct Joined {
    pub tokens: Vec<Token>,
    pub places: Vec<usize>,
}

// A token with bytes of its own.
fn copy_of(alloc: Global, token: &Token) -> Result<Token, AllocError>
    ensures { IfOk result (λ t. piece t ≡ piece token.now) }
{
    match token {
        Token::Num(number) => Ok(Token::Num(*number)),
        Token::Huge => Ok(Token::Huge),
        Token::Name(text) => Ok(Token::Name(NameText::from_slice(alloc, text)?)),
        Token::Key(keyword) => Ok(Token::Key(*keyword)),
        Token::Sign(mark) => Ok(Token::Sign(*mark)),
        Token::Stray => Ok(Token::Stray),
    }
}

// The name of an actor's field.
fn dotted(alloc: Global, actor: &[u8], field: &[u8]) -> Result<NameText, AllocError>
    ensures { IfOk result (λ name. name.items ≡ actor.now ++ 46 ∷ field.now) }
{
    let mut name = NameText::from_slice(alloc, actor)?;
    name.push(b'.')?;
    name.extend_from_slice(field)?;
    Ok(name)
}

// The name at the front, and the tokens after it.
fn name_first(tokens: &[Token]) -> Option<(&[u8], &[Token])>
    ensures { option_map (λ x. (x.0.now, map piece x.1.now)) result ≡ name_first (map piece tokens.now) }
{
    match tokens {
        [Token::Name(text), rest @ ..] => Some((text, rest)),
        _ => None,
    }
}

// The name after a dot at the front, and the tokens after it.
fn field_first(tokens: &[Token]) -> Option<(&[u8], &[Token])>
    ensures { option_map (λ x. (x.0.now, map piece x.1.now)) result ≡ field_first (map piece tokens.now) }
{
    match tokens {
        [Token::Sign(Mark::Dot), rest @ ..] => name_first(rest),
        _ => None,
    }
}

// The name of an actor, or of the field of it that is named after it, and the tokens after that.
fn named<'a>(
    alloc: Global,
    actor: &[u8],
    tokens: &'a [Token],
) -> Result<(Token, &'a [Token]), AllocError>
    ensures { IfOk result (λ x. (piece x.0, map piece x.1.now) ≡ named_with actor.now (map piece tokens.now) (field_first (map piece tokens.now))) }
{
    match field_first(tokens) {
        Some((field, rest)) => Ok((Token::Name(dotted(alloc, actor, field)?), rest)),
        None => Ok((Token::Name(NameText::from_slice(alloc, actor)?), tokens)),
    }
}

// The first token, where an actor's field is one, and the tokens after it.
fn first(alloc: Global, tokens: &[Token]) -> Result<(Token, &[Token]), AllocError>
    requires { 0 < length tokens.now }
    ensures { IfOk result (λ x. (piece x.0, map piece x.1.now) ≡ first_of (map piece tokens.now)) }
{
    match tokens {
        [Token::Name(actor), rest @ ..] => named(alloc, actor, rest),
        [first, rest @ ..] => Ok((copy_of(alloc, first)?, rest)),
        [] => Ok((Token::Stray, tokens)),
    }
}

/// The tokens of an expectation, with each field of an actor as one name. Linear in the tokens.
///
/// # Errors
///
/// `AllocError` where no memory was left.
pub(crate) fn join(alloc: Global, tokens: &[Token]) -> Result<Joined, AllocError>
    ensures { IfOk result (λ j. Joins (map piece tokens.now) (map piece j.tokens.items)) }
{
    let mut names = Vec::new(alloc);
    let mut places = Vec::new(alloc);
    let mut rest = tokens;
    'tokens: while !rest.is_empty() {
        let (token, after) = first(alloc, rest)?;
        names.push(token)?;
        places.push(tokens.len().saturating_sub(rest.len()))?;
        rest = after;
    }
    Ok(Joined {
        tokens: names,
        places,
    })
}

// The tokens of an actor that has an invariant and nothing else.
fn as_invariant(alloc: Global, tokens: Vec<Token>) -> Result<Vec<Token>, AllocError>
    ensures { IfOk result (λ ts. map piece ts.items ≡ as_invariant (map piece tokens.items)) }
{
    let mut out = Vec::new(alloc);
    out.push(Token::Key(Keyword::Actor))?;
    out.push(Token::Name(Vec::new(alloc)))?;
    out.push(Token::Sign(Mark::OpenBrace))?;
    out.push(Token::Key(Keyword::Invariant))?;
    for token in tokens {
        out.push(token)?;
    }
    out.push(Token::Sign(Mark::Semicolon))?;
    out.push(Token::Sign(Mark::CloseBrace))?;
    Ok(out)
}

// The invariant of an actor that has nothing else.
fn test_of(mut actor: Actor) -> Option<Expr>
    ensures { IfSome result (λ e. view_actor actor ≡ actor_with (view e)) }
{
    let is_alone = actor.name.text.is_empty()
        && actor.executor.is_none()
        && actor.fields.is_empty()
        && actor.methods.is_empty();
    if is_alone {
        actor.invariant.take()
    } else {
        None
    }
}

/// The expression that the tokens of an expectation spell, as they would in an invariant. Linear in the tokens.
///
/// # Errors
///
/// `Fault` where they spell none: how many tokens are left there counts two that stand after them. `Memory` where no memory was left.
pub(crate) fn spelled(alloc: Global, tokens: Vec<Token>) -> Result<Expr, ReadError>
    ensures { IfOk result (λ e. SpellsTest (map piece tokens.items) (view e)) }
{
    let whole = as_invariant(alloc, tokens)?;
    let mut decls = parse(alloc, &whole)?;
    let last = decls.pop();
    if decls.is_empty()
        && let Some(Decl::Actor(actor)) = last
        && let Some(test) = test_of(actor)
    {
        return Ok(test);
    }
    Err(ReadError::Fault(ParseFault {
        kind: Kind::Unexpected,
        tokens_left: 0,
    }))
}
