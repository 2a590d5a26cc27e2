//! Texts that are written.

ghost use Rattle.std.specs.Prelude.{◌≡◌, ◌++◌, IfOk, OnOk, map};
ghost use Rattle.std.specs.List.{concat};
ghost use Rattle.std.specs.Fmt.{signed_decimal};
ghost use Rattle.script_hints.specs.Helps.{counted, quoted};
ghost use Rattle.script_hints.specs.Spelled.{spelled_at};

use script_context::{Blamed, word};
use script_tokens::Token;
use std::alloc::{AllocError, Global};

/// Parts, one behind the other.
///
/// # Errors
///
/// `AllocError` where there is no memory for them.
pub(crate) fn joined(alloc: Global, parts: &[&[u8]]) -> Result<Vec<u8>, AllocError>
    ensures { IfOk result (λ text. text.items ≡ concat (map (λ part. part.now) parts.now)) }
{
    let mut text = Vec::new(alloc);
    push_all(&mut text, parts)?;
    Ok(text)
}

// Puts parts behind a text.
fn push_all(text: &mut Vec<u8>, parts: &[&[u8]]) -> Result<(), AllocError>
    ensures { OnOk result (text.new.items ≡ text.old.items ++ concat (map (λ part. part.now) parts.now)) }
{
    for part in parts {
        text.extend_from_slice(part)?;
    }
    Ok(())
}

/// These bytes.
///
/// # Errors
///
/// `AllocError` where there is no memory for them.
pub(crate) fn bytes(alloc: Global, words: &[u8]) -> Result<Vec<u8>, AllocError>
    ensures { IfOk result (λ text. text.items ≡ words.now) }
{
    Vec::from_slice(alloc, words)
}

/// Bytes in back-quotes.
///
/// # Errors
///
/// `AllocError` where there is no memory for them.
pub(crate) fn quoted(alloc: Global, bytes: &[u8]) -> Result<Vec<u8>, AllocError>
    ensures { IfOk result (λ text. text.items ≡ quoted bytes.now) }
{
    let parts: [&[u8]; 3] = [b"`", bytes, b"`"];
    joined(alloc, &parts)
}

/// Bytes in back-quotes, between these words and these parts.
///
/// # Errors
///
/// `AllocError` where there is no memory for them.
pub(crate) fn quoted_in(
    alloc: Global,
    before: &[u8],
    bytes: &[u8],
    after: &[&[u8]],
) -> Result<Vec<u8>, AllocError>
    ensures { IfOk result (λ text. text.items ≡ before.now ++ (quoted bytes.now ++ concat (map (λ part. part.now) after.now))) }
{
    let mut text = Vec::new(alloc);
    push_quoted(&mut text, before, bytes)?;
    push_all(&mut text, after)?;
    Ok(text)
}

// Puts words and bytes in back-quotes behind a text.
fn push_quoted(text: &mut Vec<u8>, before: &[u8], bytes: &[u8]) -> Result<(), AllocError>
    ensures { OnOk result (text.new.items ≡ text.old.items ++ (before.now ++ quoted bytes.now)) }
{
    text.extend_from_slice(before)?;
    text.extend_from_slice(b"`")?;
    text.extend_from_slice(bytes)?;
    text.extend_from_slice(b"`")
}

/// A number of things: the word for one, with an `s` where it is not 1.
///
/// # Errors
///
/// `AllocError` where there is no memory for it.
pub(crate) fn counted(alloc: Global, count: usize, one: &[u8]) -> Result<Vec<u8>, AllocError>
    ensures { IfOk result (λ text. text.items ≡ counted count one.now) }
{
    let number = count.to_string(alloc)?;
    let ending: &[u8] = if count == 1 { b"" } else { b"s" };
    let parts: [&[u8]; 4] = [number.as_bytes(), b" ", one, ending];
    joined(alloc, &parts)
}

/// Puts the spelling of a token behind a text.
///
/// # Errors
///
/// `AllocError` where there is no memory for it.
pub(crate) fn push_token(
    text: &mut Vec<u8>,
    blamed: Blamed<'_>,
    place: usize,
) -> Result<(), AllocError>
    ensures { OnOk result (text.new.items ≡ text.old.items ++ spelled_at blamed.entry place) }
{
    if place == blamed.place {
        return text.extend_from_slice(blamed.found);
    }
    match blamed.tokens.get(place) {
        Some(Token::Num(number)) => push_number(text, *number),
        Some(token) => text.extend_from_slice(word(token)),
        None => Ok(()),
    }
}

fn push_number(text: &mut Vec<u8>, number: i64) -> Result<(), AllocError>
    ensures { OnOk result (text.new.items ≡ text.old.items ++ signed_decimal number) }
{
    let digits = number.to_string(*text.allocator())?;
    text.extend_from_slice(digits.as_bytes())
}

/// A text that is being written. Where memory runs out it ends there, and `finish` says so.
#[derive(Drop)]
pub(crate) struct HintText {
    bytes: Vec<u8>,
    is_cut: bool,
}

impl HintText {
    /// No bytes.
    pub(crate) fn new(alloc: Global) -> HintText {
        HintText {
            bytes: Vec::new(alloc),
            is_cut: false,
        }
    }

    /// The text, if there was memory for all of it.
    pub(crate) fn finish(self) -> Result<Vec<u8>, AllocError> {
        let HintText { bytes, is_cut } = self;
        if is_cut { Err(AllocError) } else { Ok(bytes) }
    }

    /// Puts words behind it.
    pub(crate) fn say(&mut self, words: &str) {
        self.say_bytes(words.as_bytes())
    }

    /// Puts bytes behind it.
    pub(crate) fn say_bytes(&mut self, bytes: &[u8]) {
        if !self.is_cut && self.bytes.extend_from_slice(bytes).is_err() {
            self.is_cut = true;
        }
    }

    /// Puts bytes behind it, in back-quotes.
    pub(crate) fn quote(&mut self, bytes: &[u8]) {
        self.say("`");
        self.say_bytes(bytes);
        self.say("`");
    }

    /// Puts the spelling of a token behind it.
    pub(crate) fn say_token(&mut self, blamed: Blamed<'_>, place: usize) {
        if !self.is_cut && push_token(&mut self.bytes, blamed, place).is_err() {
            self.is_cut = true;
        }
    }
}
