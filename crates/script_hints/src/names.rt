//! Names that are unknown, taken, or something else.

// Names that stand for something else than is wanted.
mod confused;
// Names that are taken.
mod twice;
// Names that stand for nothing.
mod unknown;

ghost use Rattle.std.specs.Prelude.{◌≡◌, IfOk, IfSome};
ghost use Rattle.script_context.specs.Declarations.{IsNamedAs, called};
ghost use Rattle.script_hints.specs.Helps.{other_text};

use crate::text::quoted_in;
pub use confused::confused_hint;
use script_context::{Blamed, Declared, Wanted, declared_at, is_named};
use std::alloc::{AllocError, Global};
pub use twice::twice_hint;
pub use unknown::unknown_hint;

// What the name that is blamed is declared as at a place, if it is.
fn declared_as(blamed: Blamed<'_>, place: usize) -> Option<Declared>
    ensures { IfSome result (IsNamedAs blamed.entry.tokens.now place blamed.entry.found.now) }
{
    if is_named(blamed.tokens, place, blamed.found) {
        declared_at(blamed.tokens, place)
    } else {
        None
    }
}

// What something is called that is declared.
fn called<'a>(kind: Declared) -> &'a [u8]
    ensures { result.now ≡ called kind }
{
    kind.called().as_bytes()
}

// That a name is that of something else than is wanted.
fn other_text(
    alloc: Global,
    name: &[u8],
    kind: Declared,
    wanted: Wanted,
) -> Result<Vec<u8>, AllocError>
    ensures { IfOk result (λ text. text.items ≡ other_text name.now kind wanted) }
{
    let after: [&[u8]; 4] = [
        b" is ",
        called(kind),
        b", and here stands the name of ",
        wanted.called().as_bytes(),
    ];
    quoted_in(alloc, b"", name, &after)
}
