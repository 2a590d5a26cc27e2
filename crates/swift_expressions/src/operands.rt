//! Operands of calls.

ghost use Rattle.std.specs.Prelude.{◌≡◌, length};
ghost use Rattle.swift_expressions.specs.Instructions.{KeepsRefusal};
ghost use Rattle.swift_expressions.specs.Lowered.{and_one, no_operands};
ghost use Rattle.swift_expressions.specs.States.{Becomes, state_of, with_operand};

use crate::code::NONE;
use crate::lowering::Lowering;
use crate::typed::Typed;

/// Operands of a call that were lowered.
#[derive(Clone, Copy)]
pub struct Operands {
    /// The place of the first one, or `NONE`.
    pub first: usize,
    /// The place of the last one, or `NONE`.
    pub last: usize,
    /// How many there are.
    pub count: usize,
}

impl Operands {
    /// No operands.
    pub(crate) fn none() -> Operands
        ensures { result ≡ no_operands }
    {
        Operands {
            first: NONE,
            last: NONE,
            count: 0,
        }
    }

    /// These, and one more behind them.
    pub(crate) fn with(self, lowering: &mut Lowering<'_>, given: Typed) -> Operands
        ensures state { Becomes lowering.new (with_operand given self.last (state_of lowering.old)) }
        ensures found { result ≡ and_one self (length lowering.old.code.operands.items) }
        ensures refused { KeepsRefusal lowering.old lowering.new }
    {
        let last = lowering.operand(given, self.last);
        Operands {
            first: if self.count == 0 { last } else { self.first },
            last,
            count: self.count.saturating_add(1),
        }
    }
}
