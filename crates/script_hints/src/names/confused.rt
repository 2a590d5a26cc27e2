//! Names that stand for something else than is wanted.

ghost use Rattle.std.specs.Prelude.{◌≡◌, IfOk, IfSome};
ghost use Rattle.script_context.specs.Declarations.{IsNamedAs};
ghost use Rattle.script_hints.specs.Helps.{HelpsConfused, value_text};

use crate::hint::{Fix, Hint, Note};
use crate::names::{called, declared_as, other_text};
use crate::text::quoted_in;
use script_context::{Blamed, Declared, Wanted, could_stand, wanted_at};
use std::alloc::{AllocError, Global};

/// What helps where a name stands for something else than is wanted: what it is, and what it takes.
///
/// # Errors
///
/// `AllocError` where there is no memory for it.
pub fn confused_hint(alloc: Global, blamed: Blamed<'_>) -> Result<Hint, AllocError>
    ensures { IfOk result (λ hint. HelpsConfused blamed.entry hint.help.items) }
{
    let wanted = wanted_at(blamed.tokens, blamed.place);
    let Some((place, kind)) = meaning_of(blamed) else {
        return Ok(Hint::none(alloc));
    };
    let note = Some(Note {
        place,
        label: kind.label(),
    });
    let fix = other_wait(alloc, blamed, wanted, kind);
    let help = confused_text(alloc, blamed, place, wanted, kind);
    Hint::of(alloc, help, note, fix)
}

fn confused_text(
    alloc: Global,
    blamed: Blamed<'_>,
    place: usize,
    wanted: Wanted,
    kind: Declared,
) -> Result<Vec<u8>, AllocError>
    requires { IsNamedAs blamed.tokens.now place blamed.found.now kind }
    ensures { IfOk result (λ text. HelpsConfused blamed.entry text.items) }
{
    match kind {
        Declared::Task if wanted == Wanted::Value => {
            value_text(alloc, blamed.found, Declared::Task, b"task ")
        }
        Declared::Group if wanted == Wanted::Value => {
            value_text(alloc, blamed.found, Declared::Group, b"next ")
        }
        _ => other_text(alloc, blamed.found, kind, wanted),
    }
}

fn value_text<'a>(
    alloc: Global,
    name: &'a [u8],
    kind: Declared,
    keyword: &'a [u8],
) -> Result<Vec<u8>, AllocError>
    ensures { IfOk result (λ text. text.items ≡ value_text name.now kind keyword.now) }
{
    let after: [&[u8]; 6] = [
        b" is ",
        called(kind),
        b": what it gives is `let v = await ",
        keyword,
        name,
        b";`",
    ];
    quoted_in(alloc, b"", name, &after)
}

// The other keyword, where a task stands after `next` or a group after `task`.
fn other_wait(
    alloc: Global,
    blamed: Blamed<'_>,
    wanted: Wanted,
    kind: Declared,
) -> Result<Option<Fix>, AllocError> {
    let words: &[u8] = match kind {
        Declared::Task if wanted == Wanted::Group => b"task",
        Declared::Group if wanted == Wanted::Task => b"next",
        _ => return Ok(None),
    };
    match blamed.place.checked_sub(1) {
        Some(before) => Fix::over(alloc, before, words),
        None => Ok(None),
    }
}

// The declaration that a name means at the place: the last one that stands there.
fn meaning_of(blamed: Blamed<'_>) -> Option<(usize, Declared)>
    ensures { IfSome result (λ found. IsNamedAs blamed.entry.tokens.now found.0 blamed.entry.found.now found.1) }
{
    for at in (0..blamed.place).rev() {
        if let Some(kind) = declared_as(blamed, at)
            && could_mean(blamed, at, kind)
        {
            return Some((at, kind));
        }
    }
    None
}

// Whether a field or a name of a method that is declared at a place could stand at the one that is blamed.
fn could_mean(blamed: Blamed<'_>, place: usize, kind: Declared) -> bool {
    (kind == Declared::Field || kind.is_inner())
        && could_stand(blamed.tokens, place, kind, blamed.place)
}
