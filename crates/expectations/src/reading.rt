//! From a text to an expectation.

ghost use Rattle.std.specs.Prelude.{IfOk};
ghost use Rattle.script_code.specs.Tree.{term_of};
ghost use Rattle.script_grammar.specs.Tree.{view};
ghost use Rattle.expectations.specs.Questions.{IsExpected};
ghost use Rattle.expectations.specs.Texts.{IsRead, IsTest, Names, SpellsExpression};

use crate::expectation::Expectation;
use crate::fault::{ExpectationError, Misread, MisreadKind};
use crate::naming::named;
use crate::spelling::{Joined, join, spelled};
use script_code::Formula;
use script_grammar::Expr;
use script_parser::{Kind, ParseFault, ReadError};
use script_tokens::{Mark, Token, tokens};
use std::alloc::{AllocError, AllocFailed, Global};
use swift_script::Script;

// How many bytes an expectation may have.
const BYTES: usize = 1_000;

// Why no expression was read: there was no memory, or this is wrong.
#[derive(Clone, Copy)]
enum Unread {
    Memory,
    Wrong(MisreadKind),
}

impl From<AllocError> for Unread {
    fn from(_e: AllocError) -> Unread {
        Unread::Memory
    }
}

impl<T: Drop> From<AllocFailed<T>> for Unread {
    fn from(_e: AllocFailed<T>) -> Unread {
        Unread::Memory
    }
}

// A name, as a formula.
fn named_one(script: &Script, name: &[u8]) -> Result<Formula, Unread>
    ensures { IfOk result (λ f. Names script.now name.now (term_of f)) }
{
    match named(script, name) {
        Ok(found) => Ok(found),
        Err(kind) => Err(Unread::Wrong(kind)),
    }
}

// An expression, with what its names stand for.
fn resolved(alloc: Global, script: &Script, expr: &Expr) -> Result<Formula, Unread>
    ensures { IfOk result (λ f. IsRead script.now (view expr.now) (term_of f)) }
{
    match expr {
        Expr::Number(number) => Ok(Formula::Number(*number)),
        Expr::Name(name) => Ok(named_one(script, &name.text)?),
        Expr::Negate(operand) => {
            let operand = resolved(alloc, script, operand)?;
            Ok(Formula::Negate(Box::new(alloc, operand)?))
        }
        Expr::Not(operand) => {
            let operand = resolved(alloc, script, operand)?;
            Ok(Formula::Not(Box::new(alloc, operand)?))
        }
        Expr::Binary(operator, left, right) => {
            let left = Box::new(alloc, resolved(alloc, script, left)?)?;
            let right = Box::new(alloc, resolved(alloc, script, right)?)?;
            Ok(Formula::Binary(*operator, left, right))
        }
        Expr::Local(_) | Expr::Priority | Expr::Cancelled => {
            Err(Unread::Wrong(MisreadKind::Unexpected))
        }
    }
}

// What is wrong at a byte of an expectation's text, from 0.
fn misread(byte: usize, kind: MisreadKind) -> ExpectationError {
    ExpectationError::Misread(Misread {
        number: 0,
        line: 0,
        byte: byte.saturating_add(1),
        kind,
    })
}

// At which byte the token begins that has `place` tokens of the text before it; the length of the text where it has no more. The prefix of
// the text that ends with this byte is the first with more tokens than these. Quadratic in the text, which is short.
fn byte_of(alloc: Global, text: &[u8], place: usize) -> Result<usize, AllocError> {
    for end in 0..text.len() {
        if tokens(alloc, &text[..end + 1])?.tokens.len() > place {
            return Ok(end);
        }
    }
    Ok(text.len())
}

// The first name that stands for nothing: how many of the text's tokens come before it, and what is wrong.
fn first_unknown(script: &Script, joined: &Joined) -> Option<(usize, MisreadKind)> {
    for at in 0..joined.tokens.len() {
        if let Token::Name(text) = &joined.tokens[at]
            && let Err(kind) = named(script, text)
        {
            return Some((joined.places.get(at).copied().unwrap_or(0), kind));
        }
    }
    None
}

// The first semicolon.
fn first_semicolon(joined: &Joined) -> Option<usize> {
    for at in 0..joined.tokens.len() {
        if let Token::Sign(Mark::Semicolon) = &joined.tokens[at] {
            return joined.places.get(at).copied();
        }
    }
    None
}

fn kind_of(kind: Kind) -> MisreadKind {
    match kind {
        Kind::Unexpected => MisreadKind::Unexpected,
        Kind::OutOfRange => MisreadKind::OutOfRange,
        Kind::EndsEarly => MisreadKind::EndsEarly,
        Kind::TooDeep => MisreadKind::TooDeep,
    }
}

// At which token a fault stands: how many of the text's come before it. What stands after the expectation is not of its text: there it ends
// early, unless a semicolon in it has ended it before.
fn blamed(fault: ParseFault, places: &[usize], semicolon: Option<usize>) -> (usize, MisreadKind) {
    let left = fault.tokens_left.saturating_sub(2);
    if left > 0 {
        let at = places.len().saturating_sub(left);
        let place = places.get(at).copied().unwrap_or(usize::MAX);
        return (place, kind_of(fault.kind));
    }
    match semicolon {
        Some(place) => (place, MisreadKind::Unexpected),
        None => (usize::MAX, MisreadKind::EndsEarly),
    }
}

// The expression that a text spells, whose names are all those of fields and roots.
fn expression_in(alloc: Global, script: &Script, text: &[u8]) -> Result<Expr, ExpectationError>
    ensures { IfOk result (λ e. SpellsExpression text.now (view e)) }
{
    let found = tokens(alloc, text)?;
    let joined = join(alloc, &found.tokens)?;
    if let Some((place, kind)) = first_unknown(script, &joined) {
        return Err(misread(byte_of(alloc, text, place)?, kind));
    }
    let semicolon = first_semicolon(&joined);
    let Joined { tokens, places } = joined;
    match spelled(alloc, tokens) {
        Ok(expr) => Ok(expr),
        Err(ReadError::Memory) => Err(ExpectationError::Memory),
        Err(ReadError::Fault(fault)) => {
            let (place, kind) = blamed(fault, &places, semicolon);
            Err(misread(byte_of(alloc, text, place)?, kind))
        }
    }
}

/// The expectation that a text is: an expression of the language over `Actor.field` and the names of roots (our own). Linear in the text
/// and the names of the script.
///
/// # Errors
///
/// `Misread` where the text is no expectation of the script, and at which of its bytes; `Memory` where no memory was left.
pub(crate) fn read_test(
    alloc: Global,
    script: &Script,
    text: &[u8],
) -> Result<Expectation, ExpectationError>
    ensures { IfOk result (IsExpected script.now text.now) }
{
    if text.len() > BYTES {
        return Err(misread(BYTES, MisreadKind::TooLong));
    }
    let expr = expression_in(alloc, script, text)?;
    match resolved(alloc, script, &expr) {
        Ok(test) => Ok(Expectation::Test(Vec::from_slice(alloc, text)?, test)),
        Err(Unread::Memory) => Err(ExpectationError::Memory),
        Err(Unread::Wrong(kind)) => Err(misread(0, kind)),
    }
}
