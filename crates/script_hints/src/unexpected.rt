//! A token that does not fit.

ghost use Rattle.std.specs.Prelude.{◌≡◌, ◌==◌, if◌then◌else◌, IfOk, Ok, codes, map};
ghost use Rattle.script_hints.specs.Helps.{HelpsEnd, HelpsUnexpected, keyword_text, missing_text};
ghost use Rattle.script_hints.specs.Mistakes.{IsKnown, StandsAround};

use crate::hint::{Fix, Hint, Note};
use crate::listing::list_expected;
use crate::mistake::{Made, Repair, filled_text, fix_of, note_of};
use crate::mistakes::mistake_at;
use crate::text::{bytes, counted, joined, quoted_in};
use script_context::{
    Blamed, Candidate, Expected, braces_at, few, find_expected, name_at, open_brace, within,
};
use script_tokens::Keyword;
use std::alloc::{AllocError, Global};

/// What helps at a token that does not fit: what could have stood there, and for mistakes that are often made what to write.
///
/// # Errors
///
/// `AllocError` where there is no memory for it.
pub fn unexpected_hint(alloc: Global, blamed: Blamed<'_>) -> Result<Hint, AllocError>
    ensures { IfOk result (λ hint. HelpsUnexpected blamed.entry hint.help.items) }
{
    let expected = find_expected(alloc, blamed)?;
    let hint = hint_of(alloc, blamed, &expected)?;
    with_expected(alloc, blamed, &expected, hint)
}

fn hint_of(alloc: Global, blamed: Blamed<'_>, expected: &Expected) -> Result<Hint, AllocError>
    ensures { IfOk result (λ hint. HelpsUnexpected blamed.entry hint.help.items) }
{
    match mistake_at(blamed, expected) {
        Some(made) => of_mistake(alloc, blamed, made),
        None => misspelled(alloc, blamed, expected),
    }
}

// A hint, with what could stand at the place.
fn with_expected(
    alloc: Global,
    blamed: Blamed<'_>,
    expected: &Expected,
    hint: Hint,
) -> Result<Hint, AllocError>
    ensures { IfOk result (λ told. told.help.items ≡ hint.help.items) }
{
    let expected = list_expected(alloc, blamed, expected)?;
    Ok(Hint { expected, ..hint })
}

fn of_mistake(alloc: Global, blamed: Blamed<'_>, made: Made) -> Result<Hint, AllocError>
    requires known { IsKnown (map (λ x. x.now) made.words.now) }
    requires stands { StandsAround blamed (map (λ x. x.now) made.words.now) }
    ensures { IfOk result (λ hint. HelpsUnexpected blamed.entry hint.help.items) }
{
    let note = note_of(made.mending.shown, blamed);
    let fix = fix_of(alloc, made.mending.repair, blamed);
    let help = filled_text(alloc, made.help().as_bytes(), blamed);
    Hint::of(alloc, help, note, fix)
}

// A keyword that is meant by a name, at the place or before it.
fn misspelled(alloc: Global, blamed: Blamed<'_>, expected: &Expected) -> Result<Hint, AllocError>
    ensures { IfOk result (λ hint. HelpsUnexpected blamed.entry hint.help.items) }
{
    if let Some(keyword) = near_keyword(blamed, blamed.place, expected) {
        return meant(alloc, blamed, blamed.place, keyword);
    }
    match blamed.place.checked_sub(1) {
        Some(before) => misspelled_at(alloc, blamed, before),
        None => Ok(Hint::none(alloc)),
    }
}

// A keyword that is meant by the name at an earlier place.
fn misspelled_at(alloc: Global, blamed: Blamed<'_>, place: usize) -> Result<Hint, AllocError>
    ensures { IfOk result (λ hint. HelpsUnexpected blamed.entry hint.help.items) }
{
    let earlier = Blamed {
        tokens: blamed.tokens,
        place,
        found: b"",
    };
    let possible = find_expected(alloc, earlier)?;
    match near_keyword(blamed, place, &possible) {
        Some(keyword) => meant(alloc, blamed, place, keyword),
        None => Ok(Hint::none(alloc)),
    }
}

// The keyword that could stand at a place and is spelled nearly as the name there.
fn near_keyword(blamed: Blamed<'_>, place: usize, expected: &Expected) -> Option<Keyword> {
    let name = name_at(blamed.tokens, place)?;
    for candidate in &expected.candidates {
        if let Candidate::Key(keyword) = candidate {
            if within(few(name.len()), name, keyword.spelling()) {
                return Some(*keyword);
            }
        }
    }
    None
}

fn meant(
    alloc: Global,
    blamed: Blamed<'_>,
    place: usize,
    keyword: Keyword,
) -> Result<Hint, AllocError>
    ensures { IfOk result (λ hint. HelpsUnexpected blamed.entry hint.help.items) }
{
    let fix = Fix::over(alloc, place, keyword.spelling());
    Hint::of(alloc, keyword_text(alloc, keyword), None, fix)
}

fn keyword_text(alloc: Global, keyword: Keyword) -> Result<Vec<u8>, AllocError>
    ensures { IfOk result (λ text. text.items ≡ keyword_text keyword) }
{
    let before = b"a keyword is spelled nearly so: ";
    quoted_in(alloc, before, keyword.spelling(), &[])
}

/// What helps where a text ends early: what could stand at its end, the brace that is open, and what closes all that are.
///
/// # Errors
///
/// `AllocError` where there is no memory for it.
pub fn end_hint(alloc: Global, blamed: Blamed<'_>) -> Result<Hint, AllocError>
    ensures { IfOk result (λ hint. HelpsEnd hint.help.items) }
{
    let expected = find_expected(alloc, blamed)?;
    let hint = end_of(alloc, blamed, &expected)?;
    with_expected(alloc, blamed, &expected, hint)
}

fn end_of(alloc: Global, blamed: Blamed<'_>, expected: &Expected) -> Result<Hint, AllocError>
    ensures { IfOk result (λ hint. HelpsEnd hint.help.items) }
{
    if expected.has(";") {
        let help = bytes(alloc, b"add `;` at the end");
        ended(alloc, blamed, help, Repair::After(1, ";"))
    } else if expected.has("}") {
        let open = braces_at(blamed.tokens, blamed.place);
        ended(alloc, blamed, missing_text(alloc, open), Repair::Close(0))
    } else {
        let help = bytes(alloc, b"write the rest");
        ended(alloc, blamed, help, Repair::Nothing)
    }
}

fn missing_text(alloc: Global, count: usize) -> Result<Vec<u8>, AllocError>
    ensures { IfOk result (λ text. text.items ≡ missing_text count) }
{
    let braces = counted(alloc, count, b"brace")?;
    let parts: [&[u8]; 3] = [b"close what is open: ", &braces, missing_verb(count)];
    joined(alloc, &parts)
}

fn missing_verb(count: usize) -> &'static [u8]
    ensures { result.now ≡ (if count == 1 then codes " is missing" else codes " are missing") }
{
    if count == 1 {
        b" is missing"
    } else {
        b" are missing"
    }
}

fn ended(
    alloc: Global,
    blamed: Blamed<'_>,
    help: Result<Vec<u8>, AllocError>,
    repair: Repair,
) -> Result<Hint, AllocError>
    ensures { IfOk result (λ hint. help ≡ Ok hint.help) }
{
    let note = match open_brace(blamed.tokens, blamed.place) {
        Some(place) => Some(Note {
            place,
            label: "this brace is still open",
        }),
        None => None,
    };
    let fix = fix_of(alloc, repair, blamed);
    Hint::of(alloc, help, note, fix)
}
