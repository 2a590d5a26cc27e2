//! Why a text is not accepted.

ghost use Rattle.std.specs.Prelude.{◌≡◌, None};
ghost use Rattle.swift_script.specs.declared.fault.ScriptFaultKind.TheVariants.{Memory};

use script_tokens::Span;
use std::alloc::{AllocError, AllocFailed};
use thiserror::Error;

/// What is wrong with a text. Each kind has a number that stays its own (our own).
#[derive(Clone, Copy, Debug, PartialEq, Eq, Error)]
pub enum ScriptFaultKind {
    /// A byte that is neither 0x20 to 0x7E nor a tab, an LF or a CR.
    #[error("S1 byte outside ASCII text")]
    NotText,
    /// A token that does not fit.
    #[error("S2 unexpected token")]
    Unexpected,
    /// A number that no `i64` holds.
    #[error("S3 number out of i64")]
    OutOfRange,
    /// A name that is taken where it is declared.
    #[error("S4 name given twice")]
    NameTwice,
    /// A name that does not stand where it is used.
    #[error("S5 unknown name")]
    UnknownName,
    /// A call with another number of arguments than its method has parameters.
    #[error("S6 wrong number of arguments")]
    Arguments,
    /// A name that stands for something else: a task, a group and a number are confused.
    #[error("S7 task, group and number confused")]
    Confused,
    /// An invariant that is 0, or overflows, of the start values of the fields.
    #[error("S8 invariant false at the start")]
    InvariantFalse,
    /// A child that is added inside a `bind` that was opened inside its group.
    #[error("S9 add in a bind inside its group")]
    BoundInside,
    /// A root that waits for itself or for a root that is declared after it.
    #[error("S10 a root waits for a later root")]
    RootWaits,
    /// More than 65,536 bytes, 64 declared executors, 64 actors or 1,024 roots, or a number above 7 after `pinned`.
    #[error("S11 a limit is passed")]
    LimitPassed,
    /// The text ends where more has to come.
    #[error("S12 text ends early")]
    EndsEarly,
    /// More than 32 blocks or parentheses are open, or an expression is higher than 32.
    #[error("S13 nesting over 32")]
    TooDeep,
    /// A growth was refused.
    #[error("S14 no memory")]
    Memory,
}

/// What is wrong with a text, and where.
#[derive(Clone, Copy, Debug, PartialEq, Eq, Error)]
#[error("line {line}: {kind}")]
pub struct ScriptFault {
    /// The line, counted by LF from 1; 0 where memory ran out.
    pub line: u32,
    /// What is wrong.
    pub kind: ScriptFaultKind,
    /// The bytes that are to blame: a token, a byte outside text, or the end of the text, as if one more byte stood there; none
    /// where the text is too long or memory ran out.
    pub span: Option<Span>,
}

impl ScriptFault {
    /// The fault where memory runs out, which stands on no line and blames no bytes.
    pub(crate) const MEMORY: ScriptFault = ScriptFault {
        line: 0,
        kind: ScriptFaultKind::Memory,
        span: None,
    };

    /// The fault of a text that is too long to be read.
    pub(crate) const TOO_LONG: ScriptFault = ScriptFault {
        line: 1,
        kind: ScriptFaultKind::LimitPassed,
        span: None,
    };
}

impl From<AllocError> for ScriptFault {
    ghost from_gives = { λ _ f. (f.kind ≡ Memory) × (f.line ≡ 0) × (f.span ≡ None) };

    fn from(_e: AllocError) -> ScriptFault {
        ScriptFault::MEMORY
    }
}

impl<T: Drop> From<AllocFailed<T>> for ScriptFault {
    ghost from_gives = { λ _ f. (f.kind ≡ Memory) × (f.line ≡ 0) × (f.span ≡ None) };

    fn from(_e: AllocFailed<T>) -> ScriptFault {
        ScriptFault::MEMORY
    }
}
