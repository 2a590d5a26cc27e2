//! Names that stand for nothing.

ghost use Rattle.std.specs.Prelude.{◌≡◌, ◌∷◌, [], ◌⊎◌, IfOk, IfSome, codes};
ghost use Rattle.std.specs.List.{concat};
ghost use Rattle.script_context.specs.Declarations.{IsDeclared, IsNamedAs};
ghost use Rattle.script_hints.specs.Helps.{HelpsUnknown, apart_words, late_text, local_text, near_text, quoted, root_text, undeclared_text};

use crate::hint::{Fix, FixPlace, Hint, Note};
use crate::names::{declared_as, other_text};
use crate::text::{bytes, joined, quoted, quoted_in};
use script_context::{
    Blamed, Declared, Wanted, actor_of, is_in_its_let, name_at, nearest, wanted_at,
};
use std::alloc::{AllocError, Global};

/// What helps where a name stands for nothing: what has that name elsewhere, or the nearest name that could stand there.
///
/// # Errors
///
/// `AllocError` where there is no memory for it.
pub fn unknown_hint(alloc: Global, blamed: Blamed<'_>) -> Result<Hint, AllocError>
    ensures { IfOk result (λ hint. HelpsUnknown blamed.entry hint.help.items) }
{
    let wanted = wanted_at(blamed.tokens, blamed.place);
    if wanted == Wanted::Value
        && let Some(number) = number_meant(blamed.found)
    {
        return meant_number(alloc, blamed, number);
    }
    if wanted == Wanted::Actor
        && let Some(actor) = own_actor(blamed)
    {
        return own_name(alloc, blamed, actor);
    }
    if let Some((place, kind)) = elsewhere(blamed, wanted) {
        return known_elsewhere(alloc, blamed, wanted, place, kind);
    }
    match nearest(blamed.tokens, blamed.place) {
        Some((place, kind)) => nearly(alloc, blamed, place, kind),
        None => undeclared(alloc, blamed, wanted),
    }
}

// The number that is meant by a word of another language.
fn number_meant(name: &[u8]) -> Option<&'static [u8]>
    ensures { IfSome result (λ number. (name.now ≡ codes "true") ⊎ (name.now ≡ codes "false")) }
{
    if name == b"true".as_slice() {
        Some(b"1")
    } else if name == b"false".as_slice() {
        Some(b"0")
    } else {
        None
    }
}

fn meant_number(alloc: Global, blamed: Blamed<'_>, number: &[u8]) -> Result<Hint, AllocError>
    ensures { IfOk result (λ hint. hint.help.items ≡ codes "`1` stands for true, and `0` for false") }
{
    let fix = Fix::over(alloc, blamed.place, number);
    let help = bytes(alloc, b"`1` stands for true, and `0` for false");
    Hint::of(alloc, help, None, fix)
}

// The actor that is meant by `self`.
fn own_actor(blamed: Blamed<'_>) -> Option<usize>
    ensures { IfSome result (λ actor. blamed.entry.found.now ≡ codes "self") }
{
    if blamed.found == b"self".as_slice() {
        actor_of(blamed.tokens, blamed.place)
    } else {
        None
    }
}

fn own_name(alloc: Global, blamed: Blamed<'_>, actor: usize) -> Result<Hint, AllocError>
    ensures { IfOk result (λ hint. hint.help.items ≡ codes "an actor is named by its own name") }
{
    let name = name_at(blamed.tokens, actor).unwrap_or(b"");
    let fix = Fix::over(alloc, blamed.place, name);
    let help = bytes(alloc, b"an actor is named by its own name");
    Hint::of(alloc, help, None, fix)
}

// Where the name is declared, with what it declares; first where it is what is wanted.
fn elsewhere(blamed: Blamed<'_>, wanted: Wanted) -> Option<(usize, Declared)>
    ensures { IfSome result (λ found. IsNamedAs blamed.entry.tokens.now found.0 blamed.entry.found.now found.1) }
{
    let mut other = None;
    for at in 0..blamed.tokens.len() {
        if let Some(kind) = declared_as(blamed, at) {
            if wanted.takes(kind) {
                return Some((at, kind));
            }
            if other.is_none() {
                other = Some((at, kind));
            }
        }
    }
    other
}

fn known_elsewhere(
    alloc: Global,
    blamed: Blamed<'_>,
    wanted: Wanted,
    place: usize,
    kind: Declared,
) -> Result<Hint, AllocError>
    requires { IsNamedAs blamed.tokens.now place blamed.found.now kind }
    ensures { IfOk result (λ hint. HelpsUnknown blamed.entry hint.help.items) }
{
    let note = Some(Note {
        place,
        label: kind.label(),
    });
    let is_value = wanted == Wanted::Value;
    match kind {
        Declared::Local if is_value => read_local(alloc, blamed, note),
        Declared::Root if is_value => {
            let help = root_text(alloc, blamed.found);
            Hint::of(alloc, help, note, Ok(None))
        }
        _ => {
            let help = kept_from(alloc, blamed, wanted, place, kind);
            Hint::of(alloc, help, note, Ok(None))
        }
    }
}

// The value of a task local, which stands behind `@`.
fn read_local(alloc: Global, blamed: Blamed<'_>, note: Option<Note>) -> Result<Hint, AllocError>
    ensures { IfOk result (λ hint. hint.help.items ≡ local_text blamed.entry.found.now) }
{
    let parts: [&[u8]; 2] = [b"@", blamed.found];
    let place = FixPlace::Over(blamed.place, blamed.place);
    let fix = Fix::at(place, joined(alloc, &parts));
    Hint::of(alloc, local_text(alloc, blamed.found), note, fix)
}

fn local_text(alloc: Global, name: &[u8]) -> Result<Vec<u8>, AllocError>
    ensures { IfOk result (λ text. text.items ≡ local_text name.now) }
{
    let after: [&[u8]; 1] = [b" is a task local, which is read after `@`"];
    quoted_in(alloc, b"", name, &after)
}

fn root_text(alloc: Global, name: &[u8]) -> Result<Vec<u8>, AllocError>
    ensures { IfOk result (λ text. text.items ≡ root_text name.now) }
{
    let after: [&[u8]; 3] = [
        b" is a root, whose value is waited for: `let v = await task ",
        name,
        b";`",
    ];
    quoted_in(alloc, b"", name, &after)
}

// Why what has the name can't be named at the place.
fn kept_from(
    alloc: Global,
    blamed: Blamed<'_>,
    wanted: Wanted,
    place: usize,
    kind: Declared,
) -> Result<Vec<u8>, AllocError>
    requires { IsNamedAs blamed.tokens.now place blamed.found.now kind }
    ensures { IfOk result (λ text. HelpsUnknown blamed.entry text.items) }
{
    if !wanted.takes(kind) {
        other_text(alloc, blamed.found, kind, wanted)
    } else if is_in_its_let(blamed.tokens, place, blamed.place) {
        late_text(alloc, blamed.found)
    } else {
        apart_text(alloc, blamed.found, kind)
    }
}

fn late_text(alloc: Global, name: &[u8]) -> Result<Vec<u8>, AllocError>
    ensures { IfOk result (λ text. text.items ≡ late_text name.now) }
{
    let after: [&[u8]; 1] = [b" stands from the end of its `let` on"];
    quoted_in(alloc, b"", name, &after)
}

fn apart_text(alloc: Global, name: &[u8], kind: Declared) -> Result<Vec<u8>, AllocError>
    ensures { IfOk result (λ text. text.items ≡ concat (quoted name.now ∷ apart_words kind ∷ [])) }
{
    quoted_in(alloc, b"", name, &[apart_words(kind)])
}

fn apart_words(kind: Declared) -> &'static [u8]
    ensures { result.now ≡ apart_words kind }
{
    match kind {
        Declared::Field => b" is a field of another actor: let a method of that one return it",
        Declared::Method => b" is a method of another actor",
        Declared::Parameter => b" is a parameter of another method: pass it on",
        _ => b" stands in its own block alone: declare it before the block that has both",
    }
}

fn nearly(
    alloc: Global,
    blamed: Blamed<'_>,
    place: usize,
    kind: Declared,
) -> Result<Hint, AllocError>
    requires { IsDeclared blamed.tokens.now place kind }
    ensures { IfOk result (λ hint. HelpsUnknown blamed.entry hint.help.items) }
{
    match name_at(blamed.tokens, place) {
        Some(name) => {
            let note = Some(Note {
                place,
                label: kind.label(),
            });
            let fix = Fix::over(alloc, blamed.place, name);
            Hint::of(alloc, near_text(alloc, kind, name), note, fix)
        }
        None => undeclared(alloc, blamed, Wanted::Value),
    }
}

fn near_text(alloc: Global, kind: Declared, name: &[u8]) -> Result<Vec<u8>, AllocError>
    ensures { IfOk result (λ text. text.items ≡ near_text kind name.now) }
{
    let name = quoted(alloc, name)?;
    let parts: [&[u8]; 3] = [kind.called().as_bytes(), b" is spelled nearly so: ", &name];
    joined(alloc, &parts)
}

fn undeclared(alloc: Global, blamed: Blamed<'_>, wanted: Wanted) -> Result<Hint, AllocError>
    ensures { IfOk result (λ hint. hint.help.items ≡ undeclared_text blamed.entry.found.now wanted) }
{
    let help = undeclared_text(alloc, blamed.found, wanted);
    Hint::of(alloc, help, None, Ok(None))
}

fn undeclared_text(alloc: Global, name: &[u8], wanted: Wanted) -> Result<Vec<u8>, AllocError>
    ensures { IfOk result (λ text. text.items ≡ undeclared_text name.now wanted) }
{
    let after: [&[u8]; 2] = [b": here stands the name of ", wanted.called().as_bytes()];
    quoted_in(alloc, b"nothing is called ", name, &after)
}
