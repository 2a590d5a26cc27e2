//! What is wrong with a name.

ghost use Rattle.std.specs.Prelude.{◌≡◌};
ghost use Rattle.script_names.specs.declared.error.CheckError.TheVariants.{Memory};

use std::alloc::{AllocError, AllocFailed};

/// What is wrong with a name at its place (our own).
#[derive(Clone, Copy)]
pub enum NameErrorKind {
    /// The name is taken there.
    Twice,
    /// Nothing of that name is in scope.
    Unknown,
    /// A call with another number of arguments than the method has parameters.
    Arguments,
    /// The name means something else there: a task, a group and a number are confused.
    Confused,
    /// A child is added inside a `bind` that was opened inside its group.
    BoundInside,
    /// One executor, actor or root more than there may be.
    TooMany,
    /// The number after `pinned` is above the greatest number of a worker. It comes two tokens after the executor's
    /// name.
    TooGreat,
}

/// What is wrong, and how many names come in the text before the name that is concerned.
#[derive(Clone, Copy)]
pub struct NameError {
    /// What is wrong.
    pub kind: NameErrorKind,
    /// How many names come before it, from the start of the text.
    pub names_before: u32,
}

/// Why names were not found in order.
#[derive(Drop)]
pub enum CheckError {
    /// A growth was refused.
    Memory,
    /// A name is at fault.
    Name(NameError),
}

impl From<AllocError> for CheckError {
    ghost from_gives = { λ _ e. e ≡ Memory };

    fn from(_e: AllocError) -> CheckError {
        CheckError::Memory
    }
}

impl<T: Drop> From<AllocFailed<T>> for CheckError {
    ghost from_gives = { λ _ e. e ≡ Memory };

    fn from(_e: AllocFailed<T>) -> CheckError {
        CheckError::Memory
    }
}

impl CheckError {
    /// This is wrong with the name before which `names_before` names come.
    pub fn at(kind: NameErrorKind, names_before: u32) -> CheckError
        ensures { result ≡ CheckError.Name (record { kind = kind; names_before = names_before }) }
    {
        CheckError::Name(NameError { kind, names_before })
    }
}
