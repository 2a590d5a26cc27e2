//! Expressions: numbers, and tests.

ghost use Rattle.std.specs.Prelude.{◌≡◌, ◌++◌, map, pos};
ghost use Rattle.script_grammar.specs.Grammar.{precedence_of};
ghost use Rattle.swift_types.specs.declared.operator.Operator.TheVariants.{Unequal};
ghost use Rattle.script_grammar.specs.Tree.{Both, Number, view, view_decl};
ghost use Rattle.plain_parts.specs.Expressions.{as_test, expr_bytes, is_made_of_parts, left_of};
ghost use Rattle.plain_parts.specs.Pages.{GoesOn, closed, opened, operand_bytes, said_sign};
ghost use Rattle.plain_parts.specs.Names.{value_name};

use crate::names::say_value;
use crate::page::Page;
use script_grammar::{Decl, Expr};
use swift_types::Operator;

// How many kinds of operators hold as tightly as one, or more.
fn precedence(operator: Operator) -> u8
    ensures { result ≡ precedence_of operator }
{
    match operator {
        Operator::Or => 5,
        Operator::And => 4,
        Operator::Equal
        | Operator::Unequal
        | Operator::Less
        | Operator::AtMost
        | Operator::Greater
        | Operator::AtLeast => 3,
        Operator::Plus | Operator::Minus => 2,
        Operator::Times => 1,
    }
}

// Which operators stand on the left of one without parentheses: operators group to the left, and comparisons do not.
fn left(operator: Operator) -> u8
    ensures { result ≡ left_of operator }
{
    match operator {
        Operator::Or => 5,
        Operator::And => 4,
        Operator::Equal
        | Operator::Unequal
        | Operator::Less
        | Operator::AtMost
        | Operator::Greater
        | Operator::AtLeast
        | Operator::Plus
        | Operator::Minus => 2,
        Operator::Times => 1,
    }
}

// An operator, with a space on both sides.
fn sign(operator: Operator) -> &'static str
    ensures { result.now ≡ said_sign operator }
{
    match operator {
        Operator::Or => " || ",
        Operator::And => " && ",
        Operator::Equal => " == ",
        Operator::Unequal => " != ",
        Operator::Less => " < ",
        Operator::AtMost => " <= ",
        Operator::Greater => " > ",
        Operator::AtLeast => " >= ",
        Operator::Plus => " + ",
        Operator::Minus => " - ",
        Operator::Times => " * ",
    }
}

fn open(page: &mut Page, is_inner: bool)
    ensures { GoesOn page.old page.new (opened is_inner) }
{
    page.say(if is_inner { "(" } else { "" })
}

fn close(page: &mut Page, is_inner: bool)
    ensures { GoesOn page.old page.new (closed is_inner) }
{
    page.say(if is_inner { ")" } else { "" })
}

// Whether an expression begins with a prefix, or is an operator between two.
fn is_made(expr: &Expr) -> bool
    ensures { result ≡ is_made_of_parts (view expr.now) }
{
    match expr {
        Expr::Negate(_) | Expr::Not(_) | Expr::Binary(_, _, _) => true,
        Expr::Number(_) | Expr::Name(_) | Expr::Local(_) | Expr::Priority | Expr::Cancelled => {
            false
        }
    }
}

// What stands behind a prefix.
#[cycle(number)]
fn operand(page: &mut Page, decls: &[Decl], expr: &Expr, prefix: &str)
    ensures { GoesOn page.old page.new (prefix.now ++ operand_bytes (value_name (map view_decl decls.now)) (view expr.now)) }
{
    let is_inner = is_made(expr);
    page.say(prefix);
    open(page, is_inner);
    number_at(page, decls, expr, 5);
    close(page, is_inner)
}

// A number, in which operators up to a precedence stand without parentheses. An operator holds more tightly the less its precedence is.
#[cycle(number)]
fn number_at(page: &mut Page, decls: &[Decl], expr: &Expr, most: u8)
    ensures { GoesOn page.old page.new (expr_bytes (value_name (map view_decl decls.now)) (view expr.now) most) }
{
    match expr {
        Expr::Number(number) => page.say_number(*number),
        Expr::Name(name) => say_value(page, decls, name),
        Expr::Cancelled => page.say("Task.isCancelled"),
        Expr::Negate(inner) => operand(page, decls, inner, "-"),
        Expr::Not(inner) => operand(page, decls, inner, "!"),
        Expr::Binary(operator, first, second) => {
            let is_inner = most < precedence(*operator);
            open(page, is_inner);
            number_at(page, decls, first, left(*operator));
            page.say(sign(*operator));
            number_at(page, decls, second, precedence(*operator) - 1);
            close(page, is_inner)
        }
        Expr::Local(_) | Expr::Priority => page.say(""),
    }
}

// Whether a test begins with a prefix, or is an operator between two.
fn is_made_test(expr: &Expr) -> bool
    ensures { result ≡ is_made_of_parts (as_test (view expr.now)) }
{
    match expr {
        Expr::Cancelled => false,
        _ => true,
    }
}

// A number that is compared with 0.
fn nonzero_at(page: &mut Page, decls: &[Decl], expr: &Expr, most: u8)
    ensures { GoesOn page.old page.new (expr_bytes (value_name (map view_decl decls.now)) (Both Unequal (view expr.now) (Number (pos 0))) most) }
{
    let is_inner = most < 3;
    open(page, is_inner);
    number_at(page, decls, expr, 2);
    page.say(sign(Operator::Unequal));
    page.say_number(0);
    close(page, is_inner)
}

// A test, in which operators up to a precedence stand without parentheses.
fn test_at(page: &mut Page, decls: &[Decl], expr: &Expr, most: u8)
    ensures { GoesOn page.old page.new (expr_bytes (value_name (map view_decl decls.now)) (as_test (view expr.now)) most) }
{
    match expr {
        Expr::Not(inner) => {
            let is_inner = is_made_test(inner);
            page.say("!");
            open(page, is_inner);
            test_at(page, decls, inner, 5);
            close(page, is_inner)
        }
        Expr::Binary(Operator::Or, first, second) => {
            let is_inner = most < 5;
            open(page, is_inner);
            test_at(page, decls, first, 5);
            page.say(" || ");
            test_at(page, decls, second, 4);
            close(page, is_inner)
        }
        Expr::Binary(Operator::And, first, second) => {
            let is_inner = most < 4;
            open(page, is_inner);
            test_at(page, decls, first, 4);
            page.say(" && ");
            test_at(page, decls, second, 3);
            close(page, is_inner)
        }
        Expr::Binary(Operator::Plus | Operator::Minus | Operator::Times, _, _)
        | Expr::Number(_)
        | Expr::Name(_)
        | Expr::Negate(_)
        | Expr::Local(_)
        | Expr::Priority => nonzero_at(page, decls, expr, most),
        Expr::Binary(_, _, _) | Expr::Cancelled => number_at(page, decls, expr, most),
    }
}

/// A number.
pub fn say_number(page: &mut Page, decls: &[Decl], expr: &Expr)
    ensures { GoesOn page.old page.new (expr_bytes (value_name (map view_decl decls.now)) (view expr.now) 5) }
{
    number_at(page, decls, expr, 5)
}

/// A number behind `??`.
pub fn say_other(page: &mut Page, decls: &[Decl], expr: &Expr)
    ensures { GoesOn page.old page.new (expr_bytes (value_name (map view_decl decls.now)) (view expr.now) 0) }
{
    number_at(page, decls, expr, 0)
}

/// A test.
pub fn say_test(page: &mut Page, decls: &[Decl], expr: &Expr)
    ensures { GoesOn page.old page.new (expr_bytes (value_name (map view_decl decls.now)) (as_test (view expr.now)) 5) }
{
    test_at(page, decls, expr, 5)
}
