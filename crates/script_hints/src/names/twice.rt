//! Names that are taken.

ghost use Rattle.std.specs.Prelude.{◌≡◌, IfOk, IfSome, IsTrue};
ghost use Rattle.script_context.specs.Declarations.{IsNamedAs};
ghost use Rattle.script_hints.specs.Helps.{HelpsTwice, IsShared, taken_text};

use crate::hint::{Hint, Note};
use crate::names::{called, declared_as};
use crate::text::quoted_in;
use script_context::{
    Blamed, Declared, actor_end, actor_named, actor_of, declared_at, is_key, is_seen, last_key,
    name_at, named_as, still_stands,
};
use script_tokens::{Keyword, Token};
use std::alloc::{AllocError, Global};

/// What helps where a name is taken: what has it.
///
/// # Errors
///
/// `AllocError` where there is no memory for it.
pub fn twice_hint(alloc: Global, blamed: Blamed<'_>) -> Result<Hint, AllocError>
    ensures { IfOk result (λ hint. HelpsTwice blamed.entry hint.help.items) }
{
    if blamed.place > 0 && is_key(blamed.tokens, blamed.place - 1, Keyword::Assume) {
        return shared_hint(alloc, blamed);
    }
    match first_of(blamed) {
        Some((place, kind)) => taken_hint(alloc, blamed, place, kind),
        None => Ok(Hint::none(alloc)),
    }
}

fn taken_hint(
    alloc: Global,
    blamed: Blamed<'_>,
    place: usize,
    kind: Declared,
) -> Result<Hint, AllocError>
    requires { IsNamedAs blamed.tokens.now place blamed.found.now kind }
    ensures { IfOk result (λ hint. HelpsTwice blamed.entry hint.help.items) }
{
    let note = Some(Note {
        place,
        label: kind.label(),
    });
    let words = b": give this one another name, as `";
    let help = taken_text(alloc, blamed.found, kind, words);
    Hint::of(alloc, help, note, Ok(None))
}

// What helps at the actor of an `assume` that has a field of a name that is taken.
fn shared_hint(alloc: Global, blamed: Blamed<'_>) -> Result<Hint, AllocError>
    ensures { IfOk result (λ hint. HelpsTwice blamed.entry hint.help.items) }
{
    match field_taken(blamed) {
        Some(place) => shared_at(alloc, blamed, place),
        None => Ok(Hint::none(alloc)),
    }
}

fn shared_at(alloc: Global, blamed: Blamed<'_>, place: usize) -> Result<Hint, AllocError>
    requires { IsShared blamed place }
    ensures { IfOk result (λ hint. HelpsTwice blamed.entry hint.help.items) }
{
    let Some(kind) = declared_at(blamed.tokens, place) else {
        return Ok(Hint::none(alloc));
    };
    let Some(name) = name_at(blamed.tokens, place) else {
        return Ok(Hint::none(alloc));
    };
    let note = Some(Note {
        place,
        label: kind.label(),
    });
    let words = b", and of a field of this actor: give the first another name, as `";
    let help = taken_text(alloc, name, kind, words);
    Hint::of(alloc, help, note, Ok(None))
}

fn taken_text<'a>(
    alloc: Global,
    name: &'a [u8],
    kind: Declared,
    words: &'a [u8],
) -> Result<Vec<u8>, AllocError>
    ensures { IfOk result (λ text. text.items ≡ taken_text name.now kind words.now) }
{
    let after: [&[u8]; 5] = [b" is the name of ", called(kind), words, name, b"2`"];
    quoted_in(alloc, b"", name, &after)
}

// What has the name of what is declared at the place, before it.
fn first_of(blamed: Blamed<'_>) -> Option<(usize, Declared)>
    ensures { IfSome result (λ found. IsNamedAs blamed.entry.tokens.now found.0 blamed.entry.found.now found.1) }
{
    let tokens = blamed.tokens;
    let kind = declared_at(tokens, blamed.place)?;
    for at in 0..blamed.place {
        if let Some(other) = declared_as(blamed, at)
            && is_one_space(tokens, at, other, blamed.place, kind)
        {
            return Some((at, other));
        }
    }
    None
}

// Whether two declarations can't have one name.
fn is_one_space(
    tokens: &[Token],
    first: usize,
    kind: Declared,
    second: usize,
    other: Declared,
) -> bool {
    match other {
        Declared::Executor | Declared::Actor => {
            matches!(kind, Declared::Executor | Declared::Actor)
        }
        Declared::Local | Declared::Root => kind == other,
        Declared::Field | Declared::Method => {
            kind == other && actor_of(tokens, first) == actor_of(tokens, second)
        }
        _ => (kind == Declared::Field || kind.is_inner()) && is_seen(tokens, first, kind, second),
    }
}

// What has the name of a field of the actor that is named at the place.
fn field_taken(blamed: Blamed<'_>) -> Option<usize>
    ensures { IfSome result (IsShared blamed.entry) }
{
    let actor = actor_named(blamed.tokens, blamed.found)?;
    let from = last_key(blamed.tokens, blamed.place, Keyword::Func)?.saturating_add(1);
    for at in from..blamed.place {
        if still_declared(blamed, at) && is_shared(blamed, actor, at) {
            return Some(at);
        }
    }
    None
}

// Whether what is declared at a place still stands at the one that is blamed.
fn still_declared(blamed: Blamed<'_>, place: usize) -> bool {
    match declared_at(blamed.tokens, place) {
        Some(kind) => still_stands(blamed.tokens, place, kind, blamed.place),
        None => false,
    }
}

// Whether the name at a place is that of a field of an actor.
fn is_shared(blamed: Blamed<'_>, actor: usize, place: usize) -> bool
    ensures { IsTrue result → IsShared blamed.entry place }
{
    let tokens = blamed.tokens;
    match name_at(tokens, place) {
        Some(name) => {
            let end = actor_end(tokens, actor);
            named_as(tokens, actor, end, name, Declared::Field).is_some()
        }
        None => false,
    }
}
