//! Expressions.

use crate::page::SwiftPage;
use crate::prelude::Difference;
use crate::scope::MethodScope;
use crate::words::{say_member, say_value};
use script_grammar::{Expr, Name};
use swift_types::Operator;

/// What an expression is wanted as.
#[derive(Clone, Copy, PartialEq, Eq)]
pub(crate) enum Want {
    /// A number.
    Number,
    /// A test, which Swift keeps apart from numbers.
    Test,
}

// How tightly a part holds together, from the operator that holds least.
const ANY: u8 = 0;

const OR: u8 = 1;

const AND: u8 = 2;

const COMPARED: u8 = 3;

const SUM: u8 = 4;

const PRODUCT: u8 = 5;

const SIGNED: u8 = 6;

const ATOM: u8 = 7;

// How an operator is written, what it makes, what it is used on, and how tightly it holds.
#[derive(Clone, Copy)]
struct WrittenExpr {
    sign: &'static str,
    gives: Want,
    takes: Want,
    level: u8,
}

const fn sign_of(sign: &'static str, gives: Want, takes: Want, level: u8) -> WrittenExpr {
    WrittenExpr {
        sign,
        gives,
        takes,
        level,
    }
}

fn operator(operator: Operator) -> WrittenExpr {
    match operator {
        Operator::Or => sign_of(" || ", Want::Test, Want::Test, OR),
        Operator::And => sign_of(" && ", Want::Test, Want::Test, AND),
        Operator::Equal => sign_of(" == ", Want::Test, Want::Number, COMPARED),
        Operator::Unequal => sign_of(" != ", Want::Test, Want::Number, COMPARED),
        Operator::Less => sign_of(" < ", Want::Test, Want::Number, COMPARED),
        Operator::AtMost => sign_of(" <= ", Want::Test, Want::Number, COMPARED),
        Operator::Greater => sign_of(" > ", Want::Test, Want::Number, COMPARED),
        Operator::AtLeast => sign_of(" >= ", Want::Test, Want::Number, COMPARED),
        Operator::Plus => sign_of(" +! ", Want::Number, Want::Number, SUM),
        Operator::Minus => sign_of(" -! ", Want::Number, Want::Number, SUM),
        Operator::Times => sign_of(" *! ", Want::Number, Want::Number, PRODUCT),
    }
}

// What an expression is in Swift, and how tightly it holds.
fn kind(expr: &Expr) -> (Want, u8) {
    match expr {
        Expr::Number(_) | Expr::Name(_) | Expr::Local(_) | Expr::Priority | Expr::Cancelled => {
            (Want::Number, ATOM)
        }
        Expr::Negate(_) => (Want::Number, SIGNED),
        Expr::Not(operand) => match is_test(operand) {
            true => (Want::Test, ATOM),
            false => (Want::Test, COMPARED),
        },
        Expr::Binary(sign, _, _) => {
            let written = operator(*sign);
            (written.gives, written.level)
        }
    }
}

fn is_test(expr: &Expr) -> bool {
    match expr {
        Expr::Not(_) => true,
        Expr::Binary(sign, _, _) => match operator(*sign).gives {
            Want::Test => true,
            Want::Number => false,
        },
        _ => false,
    }
}

/// Whether an expression is a number that the script spells.
pub(crate) fn is_literal(expr: &Expr) -> bool {
    match expr {
        Expr::Number(_) => true,
        Expr::Negate(operand) => match &**operand {
            Expr::Number(_) => true,
            _ => false,
        },
        _ => false,
    }
}

// Whether a test is one of numbers that the script spells. Swift warns where it sees that a branch never runs, so the test is a call.
fn is_known(expr: &Expr) -> bool {
    match expr {
        Expr::Not(operand) => is_literal(operand),
        Expr::Binary(Operator::And | Operator::Or, _, _) => false,
        Expr::Binary(_, left, right) => is_literal(left) && is_literal(right),
        _ => false,
    }
}

// What stands around an expression where a part that holds so tightly is wanted.
fn frame(expr: &Expr, want: Want, level: u8) -> (&'static str, &'static str) {
    let (is, holds) = kind(expr);
    match (want, is) {
        (Want::Number, Want::Test) => ("Run.number(", ")"),
        (Want::Test, Want::Number) if is_literal(expr) => ("Run.holds(", " != 0)"),
        (Want::Test, Want::Test) if is_known(expr) => ("Run.holds(", ")"),
        (Want::Test, Want::Number) if level > COMPARED => ("(", " != 0)"),
        (Want::Test, Want::Number) => ("", " != 0"),
        _ if level > holds => ("(", ")"),
        _ => ("", ""),
    }
}

fn say_name(page: &mut SwiftPage, scope: &MethodScope<'_>, name: &Name) {
    if scope.is_assumed(name) {
        page.say("other.");
    }
    say_value(page, name)
}

// What a task asks of itself.
fn say_own(page: &mut SwiftPage, word: &str) {
    page.see(Difference::AtThatMoment);
    page.say(word)
}

fn say_expr(page: &mut SwiftPage, scope: &MethodScope<'_>, expr: &Expr, want: Want, level: u8) {
    let (before, after) = frame(expr, want, level);
    page.say(before);
    match expr {
        Expr::Number(number) => page.say_number(*number),
        Expr::Name(name) => say_name(page, scope, name),
        Expr::Local(name) => {
            page.say("Local.");
            say_member(page, name);
        }
        Expr::Priority => say_own(page, "Run.priority"),
        Expr::Cancelled => say_own(page, "Run.cancelled"),
        Expr::Negate(operand) => {
            page.say(minus(operand));
            say_expr(page, scope, operand, Want::Number, ATOM);
        }
        Expr::Not(operand) => {
            let (sign, wanted, held, end) = inverted(operand);
            page.say(sign);
            say_expr(page, scope, operand, wanted, held);
            page.say(end);
        }
        Expr::Binary(sign, left, right) => {
            let written = operator(*sign);
            let (first, second) = sides(written.level);
            say_expr(page, scope, left, written.takes, first);
            page.say(written.sign);
            say_expr(page, scope, right, written.takes, second);
        }
    }
    page.say(after)
}

// A number can have its sign as it is; any other minus is tested for overflow.
fn minus(operand: &Expr) -> &'static str {
    match operand {
        Expr::Number(_) => "-",
        _ => "-!",
    }
}

// What stands before what is inverted, as what that is wanted, and what stands after it.
fn inverted(operand: &Expr) -> (&'static str, Want, u8, &'static str) {
    if is_test(operand) {
        ("!(", Want::Test, ANY, ")")
    } else {
        ("", Want::Number, SUM, " == 0")
    }
}

// How tightly both sides of an operator have to hold. Operators group to the left, and comparisons do not.
fn sides(level: u8) -> (u8, u8) {
    match level {
        OR => (OR, AND),
        AND => (AND, COMPARED),
        COMPARED => (SUM, SUM),
        SUM => (SUM, PRODUCT),
        _ => (PRODUCT, SIGNED),
    }
}

/// Whether an expression can overflow.
pub(crate) fn may_throw(expr: &Expr) -> bool {
    match expr {
        Expr::Number(_) | Expr::Name(_) | Expr::Local(_) | Expr::Priority | Expr::Cancelled => {
            false
        }
        Expr::Negate(operand) => match &**operand {
            Expr::Number(_) => false,
            _ => true,
        },
        Expr::Not(operand) => may_throw(operand),
        Expr::Binary(Operator::Plus | Operator::Minus | Operator::Times, _, _) => true,
        Expr::Binary(_, left, right) => may_throw(left) || may_throw(right),
    }
}

/// A number, after `try` where it can overflow.
pub(crate) fn say_number(page: &mut SwiftPage, scope: &MethodScope<'_>, expr: &Expr) {
    say_try(page, may_throw(expr));
    say_expr(page, scope, expr, Want::Number, ANY)
}

/// A test, after `try` where it can overflow.
pub(crate) fn say_test(page: &mut SwiftPage, scope: &MethodScope<'_>, expr: &Expr) {
    say_try(page, may_throw(expr));
    say_expr(page, scope, expr, Want::Test, ANY)
}

/// `try`, or nothing.
pub(crate) fn say_try(page: &mut SwiftPage, may_throw: bool) {
    match may_throw {
        true => page.say("try "),
        false => {}
    }
}

/// A number, where a `try` stands before it.
pub(crate) fn say_tried(page: &mut SwiftPage, scope: &MethodScope<'_>, expr: &Expr) {
    say_expr(page, scope, expr, Want::Number, ANY)
}
