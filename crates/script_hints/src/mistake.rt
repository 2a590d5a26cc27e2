//! Which mistake was made at a token.

ghost use Rattle.std.specs.Prelude.{◌≡◌, ◌⊎◌, ◌++◌, [], IfOk, IfSome, IsTrue, OnOk, Contains, false, map, slice_index_or};
ghost use Rattle.script_hints.specs.Helps.{IsFilled};
ghost use Rattle.script_hints.specs.Mistakes.{Fits, FitsName, FitsToken, IsAround, IsOfClass, IsSomewhere, Meets, StandsAround, class_of};
ghost use Rattle.script_hints.specs.Spelled.{filled, is_dollar, named, place_in, said};

use crate::hint::{Fix, FixPlace, Note};
use crate::text::{HintText, bytes, push_token};
use script_context::{
    Blamed, Declared, Expected, actor_end, actor_named, actor_of, braces_at, is_sign, last_key,
    name_at, named_as, next_sign, open_block, open_brace, open_parenthesis, word, word_at,
};
use script_tokens::{Keyword, Mark, Token};
use std::alloc::{AllocError, Global};

/// The words of a mistake that is often made. First six tokens: two before the one that does not fit, itself, and three after it, each as
/// a spelling, as a class of tokens in capitals, or empty where any token may stand there. Then what could stand there, with a name as `x`
/// and a number as `1`, and what could not, each empty where that does not matter. Last what is said: `$1` is the token at that place of
/// the six, `$a` the name of the actor around.
pub(crate) type Words = [&'static str; 9];

const FITS: usize = 6;

const LACKS: usize = 7;

const HELP: usize = 8;

/// What is shown and written for a mistake.
#[derive(Clone, Copy)]
pub(crate) struct Mending {
    /// Which other token is shown. Where there is none, it is not this mistake.
    pub shown: Shown,
    /// What to write.
    pub repair: Repair,
}

/// A mistake that was made.
#[derive(Clone, Copy)]
pub(crate) struct Made {
    /// Its words.
    pub words: &'static Words,
    /// What is shown and written for it.
    pub mending: Mending,
}

impl Made {
    /// What is said.
    pub(crate) fn help(self) -> &'static str
        ensures { result.now ≡ slice_index_or (map (λ x. x.now) self.words.now) 8 [] }
    {
        self.words[HELP]
    }
}

/// Which other token is shown.
#[derive(Clone, Copy)]
pub(crate) enum Shown {
    Nothing,
    /// The token before.
    Before,
    /// The innermost brace that is open.
    OpenBrace,
    /// The innermost parenthesis that is open.
    OpenParenthesis,
    /// The invariant of the same actor.
    Invariant,
    /// The group around the place.
    Group,
}

/// What to write, with places as in the list of tokens.
#[derive(Clone, Copy)]
pub(crate) enum Repair {
    Nothing,
    /// This, after a token.
    After(usize, &'static str),
    /// This, in the place of the tokens from one to another.
    Over(usize, usize, &'static str),
    /// So many braces, that this many are open.
    Close(usize),
    /// One invariant of two.
    Join,
    /// The value that is waited for, kept before it is returned.
    Keep,
}

/// The place of the token that a pattern or a text names by a number.
pub(crate) fn place_in(blamed: Blamed<'_>, number: usize) -> Option<usize>
    ensures { result ≡ place_in blamed.entry number }
{
    blamed.place.checked_add(number)?.checked_sub(2)
}

/// The first of these mistakes that was made, with what is shown and written for each.
pub(crate) fn find_mistake(
    mistakes: &'static [Words],
    mended: &'static [Mending],
    blamed: Blamed<'_>,
    expected: &Expected,
) -> Option<Made>
    ensures known { IfSome result (λ made. Contains (map (map (λ x. x.now)) mistakes.now) (map (λ x. x.now) made.words.now)) }
    ensures stands { IfSome result (λ made. StandsAround blamed.entry (map (λ x. x.now) made.words.now)) }
{
    for (number, words) in mistakes.iter().enumerate() {
        if let Some(mending) = mended.get(number)
            && is_made(words, *mending, blamed, expected)
        {
            return Some(Made {
                words,
                mending: *mending,
            });
        }
    }
    None
}

fn is_made(words: &Words, mending: Mending, blamed: Blamed<'_>, expected: &Expected) -> bool
    ensures { IsTrue result → StandsAround blamed.entry (map (λ x. x.now) words.now) }
{
    let fits = words[FITS];
    let lacks = words[LACKS];
    stand(words, blamed)
        && (fits.is_empty() || expected.has(fits))
        && (lacks.is_empty() || !expected.has(lacks))
        && is_shown(mending.shown, blamed)
}

// Whether tokens stand around the place as the words of a mistake have them.
fn stand(words: &Words, blamed: Blamed<'_>) -> bool
    ensures { IsTrue result → StandsAround blamed.entry (map (λ x. x.now) words.now) }
{
    for number in 0..FITS {
        if !meets(blamed, number, words[number]) {
            return false;
        }
    }
    true
}

// Whether a pattern is empty, or the token that it stands for fits it.
fn meets(blamed: Blamed<'_>, number: usize, pattern: &str) -> bool
    ensures { IsTrue result → Meets blamed.entry number pattern.now }
{
    if pattern.is_empty() {
        return true;
    }
    match place_in(blamed, number) {
        Some(place) => fits(blamed, pattern, place),
        None => false,
    }
}

fn fits(blamed: Blamed<'_>, pattern: &str, place: usize) -> bool
    ensures { IsTrue result → Fits blamed.entry pattern.now place }
{
    if place == blamed.place && pattern.as_bytes() == blamed.found {
        return true;
    }
    if let Some(token) = blamed.tokens.get(place)
        && fits_token(pattern, token)
    {
        return true;
    }
    match name_at(blamed.tokens, place) {
        Some(name) => fits_name(pattern, blamed, name),
        None => false,
    }
}

fn fits_token(pattern: &str, token: &Token) -> bool
    ensures { IsTrue result → FitsToken pattern.now token.now }
{
    is_of_class(pattern, token) || pattern.as_bytes() == word(token)
}

fn is_of_class(pattern: &str, token: &Token) -> bool
    ensures { IsTrue result → IsOfClass pattern.now token.now }
{
    match token {
        Token::Name(_) => is_either(pattern, "NAME", "WORD"),
        Token::Key(_) => is_either(pattern, "KEYWORD", "WORD"),
        Token::Num(_) | Token::Huge => pattern == "NUMBER",
        Token::Sign(mark) => pattern == class_of(*mark),
        Token::Stray => false,
    }
}

fn is_either(pattern: &str, one: &str, other: &str) -> bool
    ensures { IsTrue result → (pattern.now ≡ one.now) ⊎ (pattern.now ≡ other.now) }
{
    pattern == one || pattern == other
}

fn class_of(mark: Mark) -> &'static str
    ensures { result.now ≡ class_of mark }
{
    match mark {
        Mark::Plus | Mark::Minus | Mark::Times => "SUM",
        Mark::Equal | Mark::Unequal => "COMPARES",
        Mark::Less | Mark::AtMost | Mark::Greater | Mark::AtLeast => "COMPARES",
        _ => "",
    }
}

// Whether a name stands for an actor, for a method of the actor around the place, or for that actor.
fn fits_name(pattern: &str, blamed: Blamed<'_>, name: &[u8]) -> bool
    ensures { IsTrue result → FitsName blamed.entry pattern.now name.now }
{
    match pattern {
        "ACTOR" => is_actor(blamed, name),
        "METHOD" => is_method(blamed, name),
        "THIS" => is_this(blamed, name),
        _ => false,
    }
}

fn is_actor(blamed: Blamed<'_>, name: &[u8]) -> bool
    ensures { IsTrue result → IsSomewhere blamed.entry name.now Declared.Actor }
{
    actor_named(blamed.tokens, name).is_some()
}

fn is_method(blamed: Blamed<'_>, name: &[u8]) -> bool
    ensures { IsTrue result → IsSomewhere blamed.entry name.now Declared.Method }
{
    let tokens = blamed.tokens;
    match actor_of(tokens, blamed.place) {
        Some(actor) => {
            let end = actor_end(tokens, actor);
            named_as(tokens, actor, end, name, Declared::Method).is_some()
        }
        None => false,
    }
}

fn is_this(blamed: Blamed<'_>, name: &[u8]) -> bool
    ensures { IsTrue result → IsAround blamed.entry name.now }
{
    match actor_of(blamed.tokens, blamed.place) {
        Some(actor) => word_at(blamed.tokens, actor) == name,
        None => false,
    }
}

fn is_shown(shown: Shown, blamed: Blamed<'_>) -> bool {
    match shown {
        Shown::Nothing => true,
        _ => place_of(shown, blamed).is_some(),
    }
}

/// The other token that is shown, with what is said of it.
pub(crate) fn note_of(shown: Shown, blamed: Blamed<'_>) -> Option<Note> {
    match place_of(shown, blamed) {
        Some(place) => Some(Note {
            place,
            label: label_of(shown),
        }),
        None => None,
    }
}

fn place_of(shown: Shown, blamed: Blamed<'_>) -> Option<usize> {
    match shown {
        Shown::Nothing => None,
        Shown::Before => blamed.place.checked_sub(1),
        Shown::OpenBrace => open_brace(blamed.tokens, blamed.place),
        Shown::OpenParenthesis => open_parenthesis(blamed.tokens, blamed.place),
        Shown::Invariant => invariant_of(blamed),
        Shown::Group => open_block(blamed.tokens, blamed.place, Keyword::Group),
    }
}

fn label_of(shown: Shown) -> &'static str {
    match shown {
        Shown::Nothing => "",
        Shown::Before => "add `;` after this",
        Shown::OpenBrace => "this brace is still open",
        Shown::OpenParenthesis => "this parenthesis is still open",
        Shown::Invariant => "the first invariant",
        Shown::Group => "this group is still open",
    }
}

// Where the invariant of the actor around the place stands.
fn invariant_of(blamed: Blamed<'_>) -> Option<usize> {
    let actor = last_key(blamed.tokens, blamed.place, Keyword::Actor)?;
    let found = last_key(blamed.tokens, blamed.place, Keyword::Invariant)?;
    if actor < found { Some(found) } else { None }
}

/// Words with the tokens that they name by a `$`.
///
/// # Errors
///
/// `AllocError` where there is no memory for them.
pub(crate) fn filled_text(
    alloc: Global,
    words: &[u8],
    blamed: Blamed<'_>,
) -> Result<Vec<u8>, AllocError>
    ensures { IfOk result (λ text. IsFilled blamed.entry words.now text.items) }
{
    let mut text = Vec::new(alloc);
    fill(
        &mut text,
        words,
        blamed,
        actor_of(blamed.tokens, blamed.place),
    )?;
    Ok(text)
}

fn fill(
    text: &mut Vec<u8>,
    words: &[u8],
    blamed: Blamed<'_>,
    actor: Option<usize>,
) -> Result<(), AllocError>
    ensures { OnOk result (text.new.items ≡ text.old.items ++ filled words.now false blamed.entry actor) }
{
    let mut is_name = false;
    for byte in words {
        push_said(text, *byte, is_name, blamed, actor)?;
        is_name = is_dollar(is_name, *byte);
    }
    Ok(())
}

// Whether a byte is a `$` in front of the next one.
fn is_dollar(is_name: bool, byte: u8) -> bool
    ensures { result ≡ is_dollar is_name byte }
{
    if is_name { false } else { byte == b'$' }
}

fn push_said(
    text: &mut Vec<u8>,
    byte: u8,
    is_name: bool,
    blamed: Blamed<'_>,
    actor: Option<usize>,
) -> Result<(), AllocError>
    ensures { OnOk result (text.new.items ≡ text.old.items ++ said is_name blamed.entry actor byte) }
{
    if is_name {
        push_named(text, byte, blamed, actor)
    } else if byte == b'$' {
        Ok(())
    } else {
        text.extend_from_slice(&[byte])
    }
}

fn push_named(
    text: &mut Vec<u8>,
    byte: u8,
    blamed: Blamed<'_>,
    actor: Option<usize>,
) -> Result<(), AllocError>
    ensures { OnOk result (text.new.items ≡ text.old.items ++ named blamed.entry actor byte) }
{
    let place = if byte == b'a' {
        actor
    } else {
        place_in(blamed, usize::from(byte.saturating_sub(b'0')))
    };
    match place {
        Some(place) => push_token(text, blamed, place),
        None => Ok(()),
    }
}

/// What to write for a mistake.
pub(crate) fn fix_of(
    alloc: Global,
    repair: Repair,
    blamed: Blamed<'_>,
) -> Result<Option<Fix>, AllocError> {
    match repair {
        Repair::Nothing => Ok(None),
        Repair::After(number, words) => match place_in(blamed, number) {
            Some(place) => filled(alloc, FixPlace::After(place), words, blamed),
            None => Ok(None),
        },
        Repair::Over(first, last, words) => {
            match (place_in(blamed, first), place_in(blamed, last)) {
                (Some(first), Some(last)) => {
                    filled(alloc, FixPlace::Over(first, last), words, blamed)
                }
                _ => Ok(None),
            }
        }
        Repair::Close(open) => closing(alloc, open, blamed),
        Repair::Join => joined(alloc, blamed),
        Repair::Keep => kept(alloc, blamed),
    }
}

fn filled(
    alloc: Global,
    place: FixPlace,
    words: &str,
    blamed: Blamed<'_>,
) -> Result<Option<Fix>, AllocError> {
    Fix::at(place, filled_text(alloc, words.as_bytes(), blamed))
}

// So many braces that `open` are open.
fn closing(alloc: Global, open: usize, blamed: Blamed<'_>) -> Result<Option<Fix>, AllocError> {
    let Some(before) = blamed.place.checked_sub(1) else {
        return Ok(None);
    };
    let mut text = HintText::new(alloc);
    let many = braces_at(blamed.tokens, blamed.place).saturating_sub(open);
    for _ in 0..many {
        text.say(" }");
    }
    Fix::at(FixPlace::After(before), text.finish())
}

// The second of two invariants behind the first one. Where either has an `||`, the two mean something else without parentheses.
fn joined(alloc: Global, blamed: Blamed<'_>) -> Result<Option<Fix>, AllocError> {
    let tokens = blamed.tokens;
    let (Some(first), Some(before)) = (invariant_of(blamed), blamed.place.checked_sub(1)) else {
        return Ok(None);
    };
    let end = next_sign(tokens, blamed.place, Mark::Semicolon);
    let has_or = (first..end).any(|at| is_sign(tokens, at, Mark::Or));
    if has_or || next_sign(tokens, first, Mark::Semicolon) != before {
        return Ok(None);
    }
    Fix::at(FixPlace::Over(before, blamed.place), bytes(alloc, b" &&"))
}

static NAMES: [&str; 4] = ["v", "value", "kept", "found"];

// A name that stands nowhere in the text.
fn new_name(tokens: &[Token]) -> Option<&'static str> {
    NAMES.iter().copied().find(|name| !tokens.iter().any(|token| word(token) == name.as_bytes()))
}

// `return await A.f();` as two statements.
fn kept(alloc: Global, blamed: Blamed<'_>) -> Result<Option<Fix>, AllocError> {
    let tokens = blamed.tokens;
    let end = next_sign(tokens, blamed.place, Mark::Semicolon);
    let (Some(name), Some(first)) = (new_name(tokens), blamed.place.checked_sub(1)) else {
        return Ok(None);
    };
    let place = FixPlace::Over(first, end.saturating_sub(1));
    Fix::at(place, kept_text(alloc, blamed, name, end))
}

// What is waited for, from the place to an end, kept under a name that is returned.
fn kept_text(
    alloc: Global,
    blamed: Blamed<'_>,
    name: &str,
    end: usize,
) -> Result<Vec<u8>, AllocError> {
    let mut text = HintText::new(alloc);
    text.say("let ");
    text.say(name);
    text.say(" = ");
    say_tokens(&mut text, blamed, end);
    text.say("; return ");
    text.say(name);
    text.finish()
}

fn say_tokens(text: &mut HintText, blamed: Blamed<'_>, end: usize) {
    for at in blamed.place..end {
        if at != blamed.place && is_apart(blamed.tokens, at) {
            text.say(" ");
        }
        text.say_token(blamed, at);
    }
}

// Whether a space is laid before a token.
fn is_apart(tokens: &[Token], place: usize) -> bool {
    let before = place.saturating_sub(1);
    let is_close = is_sign(tokens, place, Mark::Dot)
        || is_sign(tokens, place, Mark::Close)
        || is_sign(tokens, place, Mark::Comma)
        || (is_sign(tokens, place, Mark::Open) && name_at(tokens, before).is_some());
    let is_tight = is_sign(tokens, before, Mark::Dot)
        || is_sign(tokens, before, Mark::Open)
        || is_sign(tokens, before, Mark::Bang)
        || is_sign(tokens, before, Mark::At);
    !is_close && !is_tight
}
