//! Roots that wait for later ones.

ghost use Rattle.std.specs.Prelude.{◌≡◌, IfOk, IfSome};
ghost use Rattle.script_hints.specs.Helps.{HelpsRoot, IsRoot, later_text};

use crate::hint::{Hint, Note};
use crate::text::{bytes, quoted_in};
use script_context::{
    Blamed, Declared, actor_end, actor_named, declared_at, is_key, is_named, is_sign, name_at,
    named_as, still_stands,
};
use script_tokens::{Keyword, Mark, Token};
use std::alloc::{AllocError, Global};

/// What helps at the keyword of a root that waits for itself or for a later one: which.
///
/// # Errors
///
/// `AllocError` where there is no memory for it.
pub fn root_hint(alloc: Global, blamed: Blamed<'_>) -> Result<Hint, AllocError>
    ensures { IfOk result (λ hint. HelpsRoot blamed.entry hint.help.items) }
{
    let Some(place) = waited_for(alloc, blamed)? else {
        return Ok(Hint::none(alloc));
    };
    if place == blamed.place.saturating_add(1) {
        let help = bytes(
            alloc,
            b"it waits for itself, which never ends: wait for another root",
        );
        return Hint::of(alloc, help, None, Ok(None));
    }
    match name_at(blamed.tokens, place) {
        Some(name) => {
            let note = Some(Note {
                place,
                label: "this root is declared later",
            });
            Hint::of(alloc, later_text(alloc, name), note, Ok(None))
        }
        None => Ok(Hint::none(alloc)),
    }
}

fn later_text(alloc: Global, name: &[u8]) -> Result<Vec<u8>, AllocError>
    ensures { IfOk result (λ text. text.items ≡ later_text name.now) }
{
    let after: [&[u8]; 1] = [b", by its method or one that it calls: declare that root first"];
    quoted_in(alloc, b"it waits for ", name, &after)
}

// Where the root is declared that is waited for: of what the root's method names, or a method that it calls, and so on.
fn waited_for(alloc: Global, blamed: Blamed<'_>) -> Result<Option<usize>, AllocError>
    ensures { IfOk result (λ found. IfSome found (IsRoot blamed.entry)) }
{
    let tokens = blamed.tokens;
    let mut reached = Vec::new(alloc);
    if let Some(method) = method_at(tokens, blamed.place.saturating_add(3)) {
        reached.push(method)?;
    }
    // Each method is looked at once, and there are fewer than tokens.
    for next in 0..tokens.len() {
        let Some(method) = reached.get(next) else {
            return Ok(None);
        };
        let found = waited_in(blamed, *method, &mut reached)?;
        if found.is_some() {
            return Ok(found);
        }
    }
    Ok(None)
}

// The same of a method's own statements. The methods that it calls are reached by then.
fn waited_in(
    blamed: Blamed<'_>,
    method: usize,
    reached: &mut Vec<usize>,
) -> Result<Option<usize>, AllocError>
    ensures { IfOk result (λ found. IfSome found (IsRoot blamed.entry)) }
{
    for at in method..method_end(blamed.tokens, method) {
        if let Some(root) = later_root(blamed, at) {
            return Ok(Some(root));
        }
        if let Some(other) = method_at(blamed.tokens, at) {
            reach(reached, other)?;
        }
    }
    Ok(None)
}

fn reach(reached: &mut Vec<usize>, method: usize) -> Result<(), AllocError> {
    if reached.iter().any(|known| *known == method) {
        return Ok(());
    }
    reached.push(method)?;
    Ok(())
}

// Where a method is declared whose call stands at a place: `A.f(`.
fn method_at(tokens: &[Token], place: usize) -> Option<usize> {
    if !is_sign(tokens, place.saturating_add(1), Mark::Dot) {
        return None;
    }
    let actor = actor_named(tokens, name_at(tokens, place)?)?;
    let name = name_at(tokens, place.saturating_add(2))?;
    named_as(
        tokens,
        actor,
        actor_end(tokens, actor),
        name,
        Declared::Method,
    )
}

// Where a method ends, by the place of its name: at the next one, or at the next declaration of the text.
fn method_end(tokens: &[Token], method: usize) -> usize {
    let ended = (method..tokens.len()).find(|at| {
        is_key(tokens, *at, Keyword::Func)
            || is_key(tokens, *at, Keyword::Actor)
            || is_key(tokens, *at, Keyword::Root)
    });
    ended.unwrap_or(tokens.len())
}

// Where the root is declared that is waited for at a place, if that is the root that is blamed or a later one.
fn later_root(blamed: Blamed<'_>, place: usize) -> Option<usize>
    ensures { IfSome result (IsRoot blamed.entry) }
{
    let tokens = blamed.tokens;
    if !is_key(tokens, place, Keyword::Task) {
        return None;
    }
    let name = name_at(tokens, place.saturating_add(1))?;
    if is_task(tokens, place, name) {
        return None;
    }
    named_as(tokens, blamed.place, tokens.len(), name, Declared::Root)
}

// Whether a name stands for a task of a method at a place.
fn is_task(tokens: &[Token], place: usize, name: &[u8]) -> bool {
    (0..place).any(|at| {
        is_named(tokens, at, name)
            && declared_at(tokens, at) == Some(Declared::Task)
            && still_stands(tokens, at, Declared::Task, place)
    })
}
