//! Mistakes that are often made, by what stands around the token.

ghost use Rattle.std.specs.Prelude.{IfSome, map};
ghost use Rattle.script_hints.specs.Mistakes.{IsKnown, StandsAround};

// A table is a macro that gives its rows to one of two others, `words!` or `mendings!`. A row is
//
//     [two tokens before, the one that does not fit, three after it] fits A lacks B shows C writes D => what is said;
//
// with `_` where any token may stand. What it says nothing of is left out, and then does not matter, is not shown, or is not written.

// A token of a row, as it stands in the words.
macro_rules! token {
    (_) => {
        ""
    };
    ($spelling:literal) => {
        $spelling
    };
}

// What a row shows.
macro_rules! shown {
    () => {
        Shown::Nothing
    };
    ($shown:ident) => {
        Shown::$shown
    };
}

// What a row writes.
macro_rules! repair {
    () => {
        Repair::Nothing
    };
    ($repair:ident) => {
        Repair::$repair
    };
    ($repair:ident($($part:literal),+)) => {
        Repair::$repair($($part),+)
    };
}

// The words of all rows.
macro_rules! words {
    ($(
        [$($token:tt)*]
        $(fits $fits:literal)?
        $(lacks $lacks:literal)?
        $(shows $shown:ident)?
        $(writes $repair:ident $(($($part:literal),+))?)?
        => $help:literal;
    )*) => {
        [$([$(token!($token),)* concat!($($fits)?), concat!($($lacks)?), $help]),*]
    };
}

// What is shown and written for all rows.
macro_rules! mendings {
    ($(
        [$($token:tt)*]
        $(fits $fits:literal)?
        $(lacks $lacks:literal)?
        $(shows $shown:ident)?
        $(writes $repair:ident $(($($part:literal),+))?)?
        => $help:literal;
    )*) => {
        [$(Mending {
            shown: shown!($($shown)?),
            repair: repair!($($repair $(($($part),+))?)?),
        }),*]
    };
}

// In an expression, or at the end of a statement.
mod expressions;
// Outside of methods.
mod declarations;
// At the beginning of a statement.
mod statements;

use crate::mistake::Made;
use script_context::{Blamed, Expected};

/// Which mistake was made at the token that is blamed, of those that are known.
pub(crate) fn mistake_at(blamed: Blamed<'_>, expected: &Expected) -> Option<Made>
    ensures known { IfSome result (λ made. IsKnown (map (λ x. x.now) made.words.now)) }
    ensures stands { IfSome result (λ made. StandsAround blamed.entry (map (λ x. x.now) made.words.now)) }
{
    if let Some(found) = declarations::find(blamed, expected) {
        return Some(found);
    }
    if let Some(found) = statements::find(blamed, expected) {
        return Some(found);
    }
    expressions::find(blamed, expected)
}
