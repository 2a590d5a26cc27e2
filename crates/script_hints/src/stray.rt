//! Bytes outside ASCII.

ghost use Rattle.std.specs.Prelude.{◌≡◌, [], if◌then◌else◌, IfOk, codes};
ghost use Rattle.script_hints.specs.Helps.{HelpsStray, stray_end, stray_head, stray_text};

use crate::text::{bytes, joined};
use std::alloc::{AllocError, Global};

/// What helps where a byte stands that no script has (our own).
#[derive(Drop)]
pub struct StrayHint {
    /// What stands there, and what to do.
    pub help: Vec<u8>,
    /// How many bytes are to be replaced, from that byte on.
    pub width: usize,
    /// What to write there; none where that is not known.
    pub text: Option<&'static str>,
}

/// What helps at a byte that no script has, by the text from it on, and whether it stands in a comment.
///
/// # Errors
///
/// `AllocError` where there is no memory for it.
pub fn stray_hint(alloc: Global, rest: &[u8], in_comment: bool) -> Result<StrayHint, AllocError>
    ensures { IfOk result (λ hint. HelpsStray in_comment hint.width hint.help.items) }
{
    let (code, width) = character(rest);
    let digits = hexadecimal(alloc, code, digits_of(code, width))?;
    let help = stray_text(alloc, width, &digits, in_comment)?;
    Ok(StrayHint {
        help,
        width,
        text: in_ascii(code),
    })
}

fn stray_text(
    alloc: Global,
    width: usize,
    digits: &[u8],
    in_comment: bool,
) -> Result<Vec<u8>, AllocError>
    ensures { IfOk result (λ text. text.items ≡ stray_text in_comment width digits.now) }
{
    let head = stray_head(alloc, width)?;
    let end = stray_end(alloc, in_comment)?;
    let parts: [&[u8]; 3] = [&head, digits, &end];
    joined(alloc, &parts)
}

fn stray_end(alloc: Global, in_comment: bool) -> Result<Vec<u8>, AllocError>
    ensures { IfOk result (λ text. text.items ≡ stray_end in_comment) }
{
    let parts: [&[u8]; 3] = [
        place_words(in_comment),
        b": a script has only printable ASCII, tabs, LF and CR",
        end_words(in_comment),
    ];
    joined(alloc, &parts)
}

fn place_words(in_comment: bool) -> &'static [u8]
    ensures { result.now ≡ (if in_comment then codes ", in a comment" else []) }
{
    if in_comment { b", in a comment" } else { b"" }
}

fn end_words(in_comment: bool) -> &'static [u8]
    ensures { result.now ≡ (if in_comment then codes ", in comments too" else []) }
{
    if in_comment {
        b", in comments too"
    } else {
        b""
    }
}

fn stray_head(alloc: Global, width: usize) -> Result<Vec<u8>, AllocError>
    ensures { IfOk result (λ text. text.items ≡ stray_head width) }
{
    if width == 1 {
        return bytes(alloc, b"this byte is ");
    }
    let count = width.to_string(alloc)?;
    let parts: [&[u8]; 3] = [b"these ", count.as_bytes(), b" bytes are the character U+"];
    joined(alloc, &parts)
}

// How many digits of the number of a character are written, or of a byte.
fn digits_of(code: u32, width: usize) -> u32 {
    if width == 1 {
        2
    } else if code > 0xFFFF {
        6
    } else {
        4
    }
}

// The character at the front, and how many bytes it has; a byte that begins none by itself.
fn character(bytes: &[u8]) -> (u32, usize) {
    let Some(first) = bytes.first() else {
        return (0, 1);
    };
    let (bits, more) = bits_of(*first);
    match followed(bytes, bits, more) {
        Some(code) => (code, more.saturating_add(1)),
        None => (u32::from(*first), 1),
    }
}

// What the first byte of a character has of its number, and how many bytes follow; none follow one that begins no character.
fn bits_of(first: u8) -> (u32, usize) {
    match first {
        0xC2..=0xDF => (u32::from(first & 0x1F), 1),
        0xE0..=0xEF => (u32::from(first & 0x0F), 2),
        0xF0..=0xF4 => (u32::from(first & 0x07), 3),
        _ => (u32::from(first), 0),
    }
}

// The number of a character, by what its first byte has of it; nothing where too few bytes follow that go on with one.
fn followed(bytes: &[u8], bits: u32, more: usize) -> Option<u32> {
    let mut code = bits;
    for place in 0..more {
        code = code << 6 | six(bytes, place + 1)?;
    }
    Some(code)
}

// What a byte has of the number of a character that it goes on with.
fn six(bytes: &[u8], place: usize) -> Option<u32> {
    match bytes.get(place) {
        Some(byte @ 0x80..=0xBF) => Some(u32::from(*byte & 0x3F)),
        _ => None,
    }
}

static DIGITS: [u8; 16] = *b"0123456789ABCDEF";

// The last so many digits of a number.
fn hexadecimal(alloc: Global, number: u32, digits: u32) -> Result<Vec<u8>, AllocError> {
    let mut text = Vec::new(alloc);
    for place in (0..8u32).rev() {
        if place < digits {
            let digit = (number >> (4 * place)) & 0xF;
            text.push(DIGITS[digit as usize])?;
        }
    }
    Ok(text)
}

// What is written for a character in ASCII.
fn in_ascii(code: u32) -> Option<&'static str> {
    match code {
        0xA0 | 0x202F | 0xFEFF => Some(" "),
        0xC4 => Some("Ae"),
        0xD6 => Some("Oe"),
        0xDC => Some("Ue"),
        0xE4 => Some("ae"),
        0xF6 => Some("oe"),
        0xFC => Some("ue"),
        0xDF => Some("ss"),
        0xE0..=0xE2 => Some("a"),
        0xE7 => Some("c"),
        0xE8..=0xEB => Some("e"),
        0xF1 => Some("n"),
        0x2013 | 0x2014 | 0x2212 => Some("-"),
        0x2018 | 0x2019 => Some("'"),
        0x201C | 0x201D => Some("\""),
        0x2026 => Some(".."),
        0x2264 => Some("<="),
        0x2265 => Some(">="),
        0x2260 => Some("!="),
        _ => None,
    }
}
