//! How many arguments a call has.

ghost use Rattle.std.specs.Prelude.{◌≡◌, IfOk, IfSome};
ghost use Rattle.script_context.specs.Declarations.{IsNamedAs};
ghost use Rattle.script_hints.specs.Helps.{HelpsArguments, arguments_text};

use crate::hint::{Hint, Note};
use crate::text::{counted, quoted_in};
use script_context::{Blamed, Declared, actor_end, actor_named, is_sign, name_at, named_as};
use script_tokens::{Mark, Token};
use std::alloc::{AllocError, Global};

/// What helps at a method's name with another number of arguments than it has parameters: both numbers, and where the method stands.
///
/// # Errors
///
/// `AllocError` where there is no memory for it.
pub fn arguments_hint(alloc: Global, blamed: Blamed<'_>) -> Result<Hint, AllocError>
    ensures { IfOk result (λ hint. HelpsArguments blamed.entry hint.help.items) }
{
    let Some(place) = called(blamed) else {
        return Ok(Hint::none(alloc));
    };
    let given = parts(blamed.tokens, blamed.place.saturating_add(1));
    let has = parts(blamed.tokens, place.saturating_add(1));
    let note = Some(Note {
        place,
        label: "this method is declared here",
    });
    let help = arguments_text(alloc, blamed.found, has, given);
    Hint::of(alloc, help, note, Ok(None))
}

fn arguments_text(
    alloc: Global,
    name: &[u8],
    has: usize,
    given: usize,
) -> Result<Vec<u8>, AllocError>
    ensures { IfOk result (λ text. text.items ≡ arguments_text name.now has given) }
{
    let has = counted(alloc, has, b"parameter")?;
    let given = counted(alloc, given, b"argument")?;
    let after: [&[u8]; 4] = [b" has ", &has, b", and is given ", &given];
    quoted_in(alloc, b"", name, &after)
}

// Where the method is declared that is called at the place.
fn called(blamed: Blamed<'_>) -> Option<usize>
    ensures { IfSome result (λ at. IsNamedAs blamed.entry.tokens.now at blamed.entry.found.now Declared.Method) }
{
    let tokens = blamed.tokens;
    let actor = actor_named(tokens, name_at(tokens, blamed.place.checked_sub(2)?)?)?;
    let end = actor_end(tokens, actor);
    named_as(tokens, actor, end, blamed.found, Declared::Method)
}

// How many parts stand in the parenthesis at a place, with commas between them.
fn parts(tokens: &[Token], open: usize) -> usize {
    if is_sign(tokens, open.saturating_add(1), Mark::Close) {
        return 0;
    }
    let mut count = 1usize;
    let mut deep = 0usize;
    for at in open..tokens.len() {
        if is_sign(tokens, at, Mark::Open) {
            deep = deep.saturating_add(1);
        } else if is_sign(tokens, at, Mark::Close) {
            deep = deep.saturating_sub(1);
        } else if deep == 1 && is_sign(tokens, at, Mark::Comma) {
            count = count.saturating_add(1);
        }
        if deep == 0 {
            return count;
        }
    }
    count
}
