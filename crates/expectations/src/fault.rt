//! Why a text is no expectation.

ghost use Rattle.std.specs.Prelude.{◌≡◌};
ghost use Rattle.expectations.specs.declared.fault.ExpectationError.TheVariants.{Memory};

use std::alloc::{AllocError, AllocFailed};
use thiserror::Error;

/// What is wrong with the text of an expectation (our own).
#[derive(Clone, Copy, Debug, PartialEq, Eq, Error)]
pub enum MisreadKind {
    /// A token that does not fit.
    #[error("unexpected token")]
    Unexpected,
    /// A number that no `i64` holds.
    #[error("number out of i64")]
    OutOfRange,
    /// The text ends where more has to come.
    #[error("the expectation ends early")]
    EndsEarly,
    /// More than 32 parentheses are open, or the expression is higher than 32.
    #[error("nesting over 32")]
    TooDeep,
    /// The script has no such actor.
    #[error("the script has no such actor")]
    NoActor,
    /// The actor has no such field.
    #[error("the actor has no such field")]
    NoField,
    /// The script has no such root. A field is named with its actor.
    #[error("the script has no such root; a field is named with its actor, as Account.balance")]
    NoRoot,
    /// More than 1,000 bytes.
    #[error("more than 1000 bytes")]
    TooLong,
}

/// What is wrong with the text of an expectation, and where.
#[derive(Clone, Copy, Debug, PartialEq, Eq)]
pub struct Misread {
    /// Which of all expectations it is, from 1: first those of the command line, then those of the script's comments.
    pub number: usize,
    /// The line of the script, from 1; 0 for one of the command line.
    pub line: usize,
    /// At which byte of the expectation's text, from 1.
    pub byte: usize,
    /// What is wrong.
    pub kind: MisreadKind,
}

/// Why no expectation was read.
#[derive(Clone, Copy, Debug, PartialEq, Eq)]
pub enum ExpectationError {
    /// A growth was refused. It says nothing about the texts.
    Memory,
    /// A text is no expectation of the script.
    Misread(Misread),
}

impl From<AllocError> for ExpectationError {
    ghost from_gives = { λ _ e. e ≡ Memory };

    fn from(_e: AllocError) -> ExpectationError {
        ExpectationError::Memory
    }
}

impl<T: Drop> From<AllocFailed<T>> for ExpectationError {
    ghost from_gives = { λ _ e. e ≡ Memory };

    fn from(_e: AllocFailed<T>) -> ExpectationError {
        ExpectationError::Memory
    }
}
