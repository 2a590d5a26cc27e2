//! Expressions.

ghost use Rattle.std.specs.Prelude.{◌≡◌, OnOk};
ghost use Rattle.script_grammar.specs.Grammar.{mark_of};
ghost use Rattle.script_grammar.specs.Tree.{view, view_if};
ghost use Rattle.script_printing.specs.Pieces.{pieces_of, pieces_of_else};
ghost use Rattle.script_printing.specs.Printed.{after};

use crate::part::{Write, write_with_keyword};
use crate::token::{write_bang, write_keyword, write_minus, write_name, write_number, write_sign};
use script_grammar::{Expr, Name};
use script_tokens::{Keyword, Mark};
use std::alloc::AllocError;
use swift_types::Operator;

impl Write for Name {
    ghost use Rattle.std.specs.Prelude.{List, ℕ};
    ghost use Rattle.script_grammar.specs.Tree.{text_of};
    ghost use Rattle.script_printing.specs.Pieces.{pieces_of_name};

    ghost View = { List ℕ };

    ghost view = { text_of };

    ghost pieces = { pieces_of_name };

    fn write(&self, out: &mut Vec<u8>) -> Result<(), AllocError> {
        write_name(out, &self.text)
    }
}

impl Write for Expr {
    ghost use Rattle.script_grammar.specs.Tree.{ExprTree};

    ghost View = { ExprTree };

    ghost view = { view };

    ghost pieces = { pieces_of };

    fn write(&self, out: &mut Vec<u8>) -> Result<(), AllocError> {
        write_expr(out, self)
    }
}

fn mark(operator: Operator) -> Mark
    ensures { result ≡ mark_of operator }
{
    match operator {
        Operator::Or => Mark::Or,
        Operator::And => Mark::And,
        Operator::Equal => Mark::Equal,
        Operator::Unequal => Mark::Unequal,
        Operator::Less => Mark::Less,
        Operator::AtMost => Mark::AtMost,
        Operator::Greater => Mark::Greater,
        Operator::AtLeast => Mark::AtLeast,
        Operator::Plus => Mark::Plus,
        Operator::Minus => Mark::Minus,
        Operator::Times => Mark::Times,
    }
}

/// An expression, with each use of an operator in a parenthesis.
#[tactic(auto, using(crate::proofs::Written::after_after))]
pub(crate) fn write_expr(out: &mut Vec<u8>, expr: &Expr) -> Result<(), AllocError>
    ensures { OnOk result (out.new.items ≡ after out.old.items (pieces_of (view expr.now))) }
{
    match expr {
        Expr::Number(number) => write_number(out, *number),
        Expr::Name(name) => write_name(out, &name.text),
        Expr::Local(name) => {
            write_sign(out, Mark::At)?;
            write_name(out, &name.text)
        }
        Expr::Priority => write_keyword(out, Keyword::Priority),
        Expr::Cancelled => write_keyword(out, Keyword::Cancelled),
        Expr::Negate(operand) => {
            write_minus(out)?;
            write_expr(out, operand)?;
            write_sign(out, Mark::Close)
        }
        Expr::Not(operand) => {
            write_bang(out)?;
            write_expr(out, operand)?;
            write_sign(out, Mark::Close)
        }
        Expr::Binary(operator, left, right) => {
            write_sign(out, Mark::Open)?;
            write_expr(out, left)?;
            write_sign(out, mark(*operator))?;
            write_expr(out, right)?;
            write_sign(out, Mark::Close)
        }
    }
}

/// An `else` with its value, or nothing.
#[tactic(auto, using(crate::proofs::Written::after_none))]
pub(crate) fn write_else(out: &mut Vec<u8>, other: &Option<Expr>) -> Result<(), AllocError>
    ensures { OnOk result (out.new.items ≡ after out.old.items (pieces_of_else (view_if other.now))) }
{
    match other {
        Some(value) => write_with_keyword(out, Keyword::Else, value),
        None => Ok(()),
    }
}
