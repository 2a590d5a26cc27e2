//! Other refusals than of a token or a name.

ghost use Rattle.std.specs.Prelude.{◌≡◌, [], IfOk};
ghost use Rattle.script_hints.specs.Helps.{HelpsHuge, HelpsInvariant, HelpsLimit, limit_text};

use crate::hint::{Fix, Hint, Note};
use crate::text::{HintText, bytes, joined};
use script_context::{
    Blamed, Declared, actor_of, declared_at, is_named, is_sign, name_at, next_sign, open_block,
};
use script_tokens::{Keyword, Mark, Token};
use std::alloc::{AllocError, Global};

/// What helps at a number that is too large: the greatest one that can be written.
///
/// # Errors
///
/// `AllocError` where there is no memory for it.
pub fn huge_hint(alloc: Global, blamed: Blamed<'_>) -> Result<Hint, AllocError>
    ensures { IfOk result (λ hint. HelpsHuge blamed.entry hint.help.items) }
{
    let before = blamed.place.saturating_sub(1);
    let words = if is_sign(blamed.tokens, before, Mark::Minus) {
        LEAST
    } else {
        GREATEST
    };
    let note = match given_to(blamed) {
        Some(place) => Some(Note {
            place,
            label: "this was to have the number",
        }),
        None => None,
    };
    let fix = Fix::over(alloc, blamed.place, b"9223372036854775807");
    Hint::of(alloc, bytes(alloc, words), note, fix)
}

static LEAST: &[u8] =
    b"the least number that can be written is -9223372036854775807; one less is computed, by `- 1`";

static GREATEST: &[u8] = b"the greatest number is 9223372036854775807";

// The name before the nearest `=` on the left, in the same statement.
fn given_to(blamed: Blamed<'_>) -> Option<usize> {
    let tokens = blamed.tokens;
    for at in (1..blamed.place).rev() {
        if is_sign(tokens, at, Mark::Assign) {
            return Some(at - 1);
        }
        if is_sign(tokens, at, Mark::Semicolon)
            || is_sign(tokens, at, Mark::OpenBrace)
            || is_sign(tokens, at, Mark::CloseBrace)
        {
            return None;
        }
    }
    None
}

/// What helps where a limit is passed: which.
///
/// # Errors
///
/// `AllocError` where there is no memory for it.
pub fn limit_hint(alloc: Global, blamed: Blamed<'_>) -> Result<Hint, AllocError>
    ensures { IfOk result (λ hint. HelpsLimit blamed.entry hint.help.items) }
{
    let kind = declared_at(blamed.tokens, blamed.place);
    let fix = match kind {
        Some(Declared::Executor | Declared::Actor | Declared::Root) => Ok(None),
        _ => Fix::over(alloc, blamed.place, b"7"),
    };
    Hint::of(alloc, bytes(alloc, limit_text(kind)), None, fix)
}

fn limit_text(kind: Option<Declared>) -> &'static [u8]
    ensures { result.now ≡ limit_text kind }
{
    match kind {
        Some(Declared::Executor) => b"there are at most 64 executors: let several actors share one",
        Some(Declared::Actor) => b"there are at most 64 actors: split the script",
        Some(Declared::Root) => b"there are at most 1,024 roots: split the script",
        _ => b"a worker has a number from 0 to 7",
    }
}

/// What helps where too much is open: what was opened first.
///
/// # Errors
///
/// `AllocError` where there is no memory for it.
pub fn deep_hint(alloc: Global, blamed: Blamed<'_>) -> Result<Hint, AllocError>
    ensures { IfOk result (λ hint. hint.help.items ≡ []) }
{
    let tokens = blamed.tokens;
    let first = if is_sign(tokens, blamed.place, Mark::Open) {
        outermost(tokens, blamed.place, Mark::Open, Mark::Close, 0)
    } else if is_sign(tokens, blamed.place, Mark::OpenBrace) {
        outermost(tokens, blamed.place, Mark::OpenBrace, Mark::CloseBrace, 1)
    } else {
        None
    };
    let note = match first {
        Some(place) => Some(Note {
            place,
            label: "32 are open, from this one on",
        }),
        None => None,
    };
    Hint::of(alloc, Ok(Vec::new(alloc)), note, Ok(None))
}

// Where the first of these marks stands that is still open at a place, not counting so many around all others.
fn outermost(
    tokens: &[Token],
    place: usize,
    open: Mark,
    close: Mark,
    around: usize,
) -> Option<usize> {
    let mut deep = 0usize;
    let mut first = None;
    for at in 0..place {
        if is_sign(tokens, at, open) {
            if deep == around {
                first = Some(at);
            }
            deep = deep.saturating_add(1);
        } else if is_sign(tokens, at, close) {
            deep = deep.saturating_sub(1);
        }
    }
    if deep > around { first } else { None }
}

/// What helps at the keyword of an invariant that is false at the start: the start values of the fields that it names.
///
/// # Errors
///
/// `AllocError` where there is no memory for it.
pub fn false_invariant_hint(alloc: Global, blamed: Blamed<'_>) -> Result<Hint, AllocError>
    ensures { IfOk result (λ hint. HelpsInvariant hint.help.items) }
{
    let from = actor_of(blamed.tokens, blamed.place).unwrap_or(0);
    let Some(first) = first_used(blamed, from) else {
        let help = bytes(alloc, b"it names no field, and is never true");
        return Hint::of(alloc, help, None, Ok(None));
    };
    let note = Some(Note {
        place: first,
        label: "this field begins with that number",
    });
    Hint::of(alloc, starts_text(alloc, blamed, first), note, Ok(None))
}

fn starts_text(alloc: Global, blamed: Blamed<'_>, first: usize) -> Result<Vec<u8>, AllocError>
    ensures { IfOk result (λ text. HelpsInvariant text.items) }
{
    let fields = said_starts(alloc, blamed, first)?;
    let parts: [&[u8]; 3] = [
        b"it is false, or overflows, with ",
        &fields,
        b": choose other start values, or another invariant",
    ];
    joined(alloc, &parts)
}

// The fields that the invariant names, the first of them at a place, with their numbers.
fn said_starts(alloc: Global, blamed: Blamed<'_>, first: usize) -> Result<Vec<u8>, AllocError> {
    let mut text = HintText::new(alloc);
    for at in first..blamed.place {
        if is_used(blamed, at) {
            if at != first {
                text.say(", ");
            }
            say_start(&mut text, blamed, at);
        }
    }
    text.finish()
}

// The first field that the invariant names, from a place on.
fn first_used(blamed: Blamed<'_>, from: usize) -> Option<usize> {
    for at in from..blamed.place {
        if is_used(blamed, at) {
            return Some(at);
        }
    }
    None
}

// Whether a field is declared at a place that the invariant names.
fn is_used(blamed: Blamed<'_>, place: usize) -> bool {
    let tokens = blamed.tokens;
    let end = next_sign(tokens, blamed.place, Mark::Semicolon);
    match (declared_at(tokens, place), name_at(tokens, place)) {
        (Some(Declared::Field), Some(name)) => {
            (blamed.place..end).any(|at| is_named(tokens, at, name))
        }
        _ => false,
    }
}

// `x = -1`, where a field is declared.
fn say_start(help: &mut HintText, blamed: Blamed<'_>, place: usize) {
    let end = next_sign(blamed.tokens, place, Mark::Semicolon);
    help.say("`");
    help.say_token(blamed, place);
    help.say(" = ");
    for at in place.saturating_add(2)..end {
        help.say_token(blamed, at);
    }
    help.say("`");
}

/// What helps where a child is added inside a `bind` that was opened inside its group: that `bind`.
///
/// # Errors
///
/// `AllocError` where there is no memory for it.
pub fn bound_hint(alloc: Global, blamed: Blamed<'_>) -> Result<Hint, AllocError>
    ensures { IfOk result (λ hint. hint.help.items ≡ []) }
{
    let tokens = blamed.tokens;
    let note = match open_block(tokens, blamed.place, Keyword::Bind) {
        Some(place) => Some(Note {
            place,
            label: "this `bind` was opened inside the group",
        }),
        None => None,
    };
    Hint::of(alloc, Ok(Vec::new(alloc)), note, Ok(None))
}
