//! Expressions, from tokens.

ghost use Rattle.std.specs.Prelude.{◌≡◌, ◌<◌, ◌-◌, map};
ghost use Rattle.script_tokens.specs.Pieces.{piece};
ghost use Rattle.std.specs.Option.{option_map};
ghost use Rattle.script_grammar.specs.Tree.{view, Negated, Inverted, Both};
ghost use Rattle.script_grammar.specs.Grammar.{precedence_of, has_every_atom};
ghost use Rattle.script_parser.specs.Model.Steps.{Gives};
ghost use Rattle.script_parser.specs.Model.Expressions.{checked, closed_at, operator_in, operator_at, most_operators, operands_at, atom_at, unary_at, level_at, inside_at, expr_in};

use crate::fault::{Kind, ReadError};
use crate::limits::NESTING;
use crate::measured::Measured;
use crate::one_token::{TokenSlice, allow, name, name_of, refusal};
use script_grammar::{Atoms, Expr};
use script_tokens::{Keyword, Mark, Token};
use std::alloc::Global;
use swift_types::Operator;

fn operator_of_mark(mark: Mark) -> Option<Operator>
    ensures { result ≡ operator_in mark }
{
    match mark {
        Mark::Or => Some(Operator::Or),
        Mark::And => Some(Operator::And),
        Mark::Equal => Some(Operator::Equal),
        Mark::Unequal => Some(Operator::Unequal),
        Mark::Less => Some(Operator::Less),
        Mark::AtMost => Some(Operator::AtMost),
        Mark::Greater => Some(Operator::Greater),
        Mark::AtLeast => Some(Operator::AtLeast),
        Mark::Plus => Some(Operator::Plus),
        Mark::Minus => Some(Operator::Minus),
        Mark::Times => Some(Operator::Times),
        _ => None,
    }
}

fn precedence(operator: Operator) -> u32
    ensures { result ≡ precedence_of operator }
{
    match operator {
        Operator::Or => 5,
        Operator::And => 4,
        Operator::Equal
        | Operator::Unequal
        | Operator::Less
        | Operator::AtMost
        | Operator::Greater
        | Operator::AtLeast => 3,
        Operator::Plus | Operator::Minus => 2,
        Operator::Times => 1,
    }
}

#[tactic(auto, unfolding(crate::specs::Model::Expressions::operator_at))]
fn next_operator(level: u32, tokens: TokenSlice<'_>) -> Option<(Operator, TokenSlice<'_>)>
    ensures { option_map (λ x. (x.0, map piece x.1.now)) result ≡ operator_at level (map piece tokens.now) }
{
    match tokens {
        [Token::Sign(mark), rest @ ..] => match operator_of_mark(*mark) {
            Some(operator) => {
                if precedence(operator) == level {
                    Some((operator, rest))
                } else {
                    None
                }
            }
            None => None,
        },
        _ => None,
    }
}

#[inline(always)]
#[tactic(auto, unfolding(crate::specs::Model::Expressions::checked))]
fn negate(alloc: Global, operand: Measured, prefix: TokenSlice<'_>) -> Result<Measured, ReadError>
    ensures { Gives (λ m. view m.expr) result (checked NESTING (map piece prefix.now) (Negated (view operand.expr))) }
{
    let Measured { expr, height } = operand;
    if height == NESTING {
        return Err(refusal(Kind::TooDeep, prefix));
    }
    let expr = Expr::Negate(Box::new(alloc, expr)?);
    let height = height + 1;
    Ok(Measured { expr, height })
}

#[inline(always)]
#[tactic(auto, unfolding(crate::specs::Model::Expressions::checked))]
fn invert(alloc: Global, operand: Measured, prefix: TokenSlice<'_>) -> Result<Measured, ReadError>
    ensures { Gives (λ m. view m.expr) result (checked NESTING (map piece prefix.now) (Inverted (view operand.expr))) }
{
    let Measured { expr, height } = operand;
    if height == NESTING {
        return Err(refusal(Kind::TooDeep, prefix));
    }
    let expr = Expr::Not(Box::new(alloc, expr)?);
    let height = height + 1;
    Ok(Measured { expr, height })
}

#[tactic(auto, unfolding(crate::specs::Model::Expressions::checked))]
fn both(
    alloc: Global,
    operator: Operator,
    left: Measured,
    right: Measured,
    between: TokenSlice<'_>,
) -> Result<Measured, ReadError>
    ensures { Gives (λ m. view m.expr) result (checked NESTING (map piece between.now) (Both operator (view left.expr) (view right.expr))) }
{
    let highest = left.height.max(right.height);
    if highest == NESTING {
        return Err(refusal(Kind::TooDeep, between));
    }
    let height = highest + 1;
    let left = Box::new(alloc, left.expr)?;
    let right = Box::new(alloc, right.expr)?;
    let expr = Expr::Binary(operator, left, right);
    Ok(Measured { expr, height })
}

#[tactic(auto, unfolding(crate::specs::Model::Expressions::closed_at))]
fn close(inner: Measured, tokens: TokenSlice<'_>) -> Result<(Measured, TokenSlice<'_>), ReadError>
    ensures { Gives (λ x. (view x.0.expr, map piece x.1.now)) result (closed_at (view inner.expr) (map piece tokens.now)) }
{
    match tokens {
        [] => Err(refusal(Kind::EndsEarly, tokens)),
        [Token::Sign(Mark::Close), rest @ ..] => Ok((inner, rest)),
        _ => Err(refusal(Kind::Unexpected, tokens)),
    }
}

fn every_atom(atoms: Atoms) -> bool
    ensures { result ≡ has_every_atom atoms }
{
    match atoms {
        Atoms::Every => true,
        Atoms::Plain => false,
    }
}

// An atom without a parenthesis.
#[tactic(auto, unfolding(crate::specs::Model::Expressions::atom_at))]
fn atom(
    alloc: Global,
    atoms: Atoms,
    tokens: TokenSlice<'_>,
) -> Result<(Measured, TokenSlice<'_>), ReadError>
    ensures { Gives (λ x. (view x.0.expr, map piece x.1.now)) result (atom_at atoms (map piece tokens.now)) }
{
    match tokens {
        [] => Err(refusal(Kind::EndsEarly, tokens)),
        [Token::Num(value), rest @ ..] => {
            let expr = Expr::Number(*value);
            Ok((Measured { expr, height: 1 }, rest))
        }
        [Token::Name(text), rest @ ..] => {
            let expr = Expr::Name(name_of(alloc, text)?);
            Ok((Measured { expr, height: 1 }, rest))
        }
        [Token::Huge, ..] => Err(refusal(Kind::OutOfRange, tokens)),
        [Token::Sign(Mark::At), rest @ ..] => {
            allow(every_atom(atoms), tokens)?;
            let (local, rest) = name(alloc, rest)?;
            let expr = Expr::Local(local);
            Ok((Measured { expr, height: 1 }, rest))
        }
        [Token::Key(Keyword::Priority), rest @ ..] => {
            allow(every_atom(atoms), tokens)?;
            let expr = Expr::Priority;
            Ok((Measured { expr, height: 1 }, rest))
        }
        [Token::Key(Keyword::Cancelled), rest @ ..] => {
            allow(every_atom(atoms), tokens)?;
            let expr = Expr::Cancelled;
            Ok((Measured { expr, height: 1 }, rest))
        }
        _ => Err(refusal(Kind::Unexpected, tokens)),
    }
}

// An atom after at most `prefixes` further prefixes, the first of which stands at `first`.
#[cycle(expression)]
#[tactic(auto, unfolding(crate::specs::Model::Expressions::unary_at))]
fn unary<'a>(
    alloc: Global,
    atoms: Atoms,
    opens: u32,
    prefixes: u32,
    first: TokenSlice<'_>,
    tokens: TokenSlice<'a>,
) -> Result<(Measured, TokenSlice<'a>), ReadError>
    ensures { Gives (λ x. (view x.0.expr, map piece x.1.now)) result (unary_at atoms NESTING (inside_at atoms NESTING opens) (map piece first.now) prefixes (map piece tokens.now)) }
{
    match tokens {
        [Token::Sign(Mark::Open), rest @ ..] => {
            let (inner, rest) = inside(alloc, atoms, opens, tokens, rest)?;
            close(inner, rest)
        }
        [Token::Sign(Mark::Minus), rest @ ..] => {
            if prefixes == 0 {
                return Err(refusal(Kind::TooDeep, first));
            }
            let (operand, rest) = unary(alloc, atoms, opens, prefixes - 1, first, rest)?;
            Ok((negate(alloc, operand, tokens)?, rest))
        }
        [Token::Sign(Mark::Bang), rest @ ..] => {
            if prefixes == 0 {
                return Err(refusal(Kind::TooDeep, first));
            }
            let (operand, rest) = unary(alloc, atoms, opens, prefixes - 1, first, rest)?;
            Ok((invert(alloc, operand, tokens)?, rest))
        }
        _ => atom(alloc, atoms, tokens),
    }
}

// How many operators of one precedence may follow one another.
fn most_operators(precedence: u32) -> u32
    ensures { result ≡ most_operators NESTING precedence }
{
    if precedence == 3 { 1 } else { NESTING }
}

// An expression whose operators bind at least as tightly. A level without an operator costs one look at the next token.
#[cycle(expression)]
fn level(
    alloc: Global,
    atoms: Atoms,
    opens: u32,
    loosest: u32,
    tokens: TokenSlice<'_>,
) -> Result<(Measured, TokenSlice<'_>), ReadError>
    ensures { Gives (λ x. (view x.0.expr, map piece x.1.now)) result (level_at atoms NESTING (inside_at atoms NESTING opens) loosest (map piece tokens.now)) }
{
    let (mut left, mut rest) = unary(alloc, atoms, opens, NESTING - 1, tokens, tokens)?;
    for tighter in 0..loosest {
        let precedence = tighter + 1;
        if next_operator(precedence, rest).is_some() {
            let most = most_operators(precedence);
            let (next, after) = operands(alloc, atoms, opens, precedence, most, left, rest)?;
            left = next;
            rest = after;
        }
    }
    Ok((left, rest))
}

// At most `most` further operands, each after an operator of this precedence.
#[cycle(expression)]
#[tactic(auto, unfolding(crate::specs::Model::Expressions::operands_at))]
fn operands(
    alloc: Global,
    atoms: Atoms,
    opens: u32,
    precedence: u32,
    most: u32,
    first: Measured,
    tokens: TokenSlice<'_>,
) -> Result<(Measured, TokenSlice<'_>), ReadError>
    requires { 0 < precedence }
    ensures { Gives (λ x. (view x.0.expr, map piece x.1.now)) result (operands_at NESTING (level_at atoms NESTING (inside_at atoms NESTING opens) (precedence - 1)) precedence most (view first.expr) (map piece tokens.now)) }
{
    let mut left = first;
    let mut rest = tokens;
    for _ in 0..most {
        let Some((operator, following)) = next_operator(precedence, rest) else {
            return Ok((left, rest));
        };
        let (right, after) = level(alloc, atoms, opens, precedence - 1, following)?;
        left = both(alloc, operator, left, right, rest)?;
        rest = after;
    }
    Ok((left, rest))
}

// What stands in the parenthesis at `paren`, where `opens` parentheses may still be opened, this one among them.
#[cycle(expression)]
#[tactic(auto, unfolding(crate::specs::Model::Expressions::inside_at))]
fn inside<'a>(
    alloc: Global,
    atoms: Atoms,
    opens: u32,
    paren: TokenSlice<'_>,
    tokens: TokenSlice<'a>,
) -> Result<(Measured, TokenSlice<'a>), ReadError>
    ensures { Gives (λ x. (view x.0.expr, map piece x.1.now)) result (inside_at atoms NESTING opens (map piece paren.now) (map piece tokens.now)) }
{
    if opens == 0 {
        return Err(refusal(Kind::TooDeep, paren));
    }
    level(alloc, atoms, opens - 1, 5, tokens)
}

// An expression at the front, in which at most `opens` parentheses are open at once.
pub(crate) fn expr(
    alloc: Global,
    atoms: Atoms,
    opens: u32,
    tokens: TokenSlice<'_>,
) -> Result<(Expr, TokenSlice<'_>), ReadError>
    ensures { Gives (λ x. (view x.0, map piece x.1.now)) result (expr_in atoms NESTING opens (map piece tokens.now)) }
{
    let (Measured { expr, .. }, rest) = level(alloc, atoms, opens, 5, tokens)?;
    Ok((expr, rest))
}
