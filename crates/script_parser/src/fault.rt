//! Why tokens spell no script.

ghost use Rattle.std.specs.Prelude.{◌≡◌};
ghost use Rattle.script_parser.specs.declared.fault.ReadError.TheVariants.{Memory};

use std::alloc::{AllocError, AllocFailed};

/// What is wrong with a text's tokens. The grammar and its limits are our own.
#[derive(Clone, Copy, Debug, PartialEq, Eq)]
pub enum Kind {
    /// A token that does not fit there, or that may not stand in that part of a method or an invariant. A number that
    /// is too large is one too where no number fits.
    Unexpected,
    /// A number that no `i64` holds, where a number fits.
    OutOfRange,
    /// The text ends before its last declaration does.
    EndsEarly,
    /// An open block or parenthesis too many, where the parenthesis of a call is one too, or an operator whose
    /// expression would be too high.
    TooDeep,
}

/// What is wrong with a text's tokens, and where.
#[derive(Clone, Copy, Debug)]
pub struct ParseFault {
    /// What is wrong.
    pub kind: Kind,
    /// How many tokens are left at the one that is at fault, itself included: 0 where the text ends early. In a run of
    /// too many prefixes the first one is at fault.
    pub tokens_left: usize,
}

/// Why nothing was read.
#[derive(Debug, Drop)]
pub enum ReadError {
    /// A growth was refused. It says nothing about the tokens.
    Memory,
    /// The tokens spell no script within the limits.
    Fault(ParseFault),
}

impl From<AllocError> for ReadError {
    ghost from_gives = { λ _ e. e ≡ Memory };

    fn from(_e: AllocError) -> ReadError {
        ReadError::Memory
    }
}

impl<T: Drop> From<AllocFailed<T>> for ReadError {
    ghost from_gives = { λ _ e. e ≡ Memory };

    fn from(_e: AllocFailed<T>) -> ReadError {
        ReadError::Memory
    }
}
