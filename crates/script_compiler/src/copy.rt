//! Formulas that are copied.

ghost use Rattle.std.specs.Prelude.{◌≡◌, IfOk};
ghost use Rattle.script_code.specs.Tree.{term_of};

use script_code::Formula;
use std::alloc::{AllocError, Global};

/// A second formula that says the same, in time and memory linear in it.
pub(crate) fn copy_formula(alloc: Global, formula: &Formula) -> Result<Formula, AllocError>
    ensures { IfOk result (λ f. term_of f ≡ term_of formula.now) }
{
    match formula {
        Formula::Number(n) => Ok(Formula::Number(*n)),
        Formula::Variable(x) => Ok(Formula::Variable(*x)),
        Formula::Field(place) => Ok(Formula::Field(*place)),
        Formula::Local(local, default) => Ok(Formula::Local(*local, *default)),
        Formula::Priority => Ok(Formula::Priority),
        Formula::Cancelled => Ok(Formula::Cancelled),
        Formula::Negate(operand) => {
            let operand = copy_formula(alloc, operand)?;
            Ok(Formula::Negate(Box::new(alloc, operand)?))
        }
        Formula::Not(operand) => {
            let operand = copy_formula(alloc, operand)?;
            Ok(Formula::Not(Box::new(alloc, operand)?))
        }
        Formula::Binary(operator, left, right) => {
            let left = copy_formula(alloc, left)?;
            let right = copy_formula(alloc, right)?;
            Ok(Formula::Binary(*operator, Box::new(alloc, left)?, Box::new(alloc, right)?))
        }
    }
}
