//! The lines of a text.

ghost use Rattle.std.specs.Prelude.{◌≡◌, ◌<◌, ◌≤◌, ◌-◌, map, length, IfOk, IfSome};
ghost use Rattle.std.specs.String.{string_bytes};
ghost use Rattle.nuchapay_tool.specs.Sources.{after_feed, before_feed, dots, feed_in, shown_byte, shown_line, skip_lines, source_line};

use std::alloc::{AllocError, Global};

// How many bytes of a line are shown at most.
pub(crate) const SHOWN: usize = 1_000;

/// A line of a text as it is shown to people: without its line feed, a tab and a CR as a space, and any other byte that
/// is not printable ASCII as a question mark. After 1,000 bytes two dots stand for the others. Empty past the last line.
/// Linear in the text.
///
/// # Errors
///
/// `AllocError` where there is no memory for the line.
pub(crate) fn shown_line(alloc: Global, text: &[u8], line: u32) -> Result<String, AllocError>
    ensures { IfOk result (λ shown. string_bytes shown ≡ shown_line text.now line) }
{
    let whole = source_line(text, line);
    let front = shown(alloc, &whole[..whole.len().min(SHOWN)])?;
    let parts = [front.as_str(), dots(whole.len())];
    parts.as_slice().concat(alloc)
}

// What stands for the bytes of a line of this length that are not shown.
fn dots(len: usize) -> &'static str
    ensures { result.now ≡ dots len }
{
    if len > SHOWN { " .." } else { "" }
}

/// Bytes as they are shown to people.
///
/// # Errors
///
/// `AllocError` where there is no memory for them.
pub(crate) fn shown(alloc: Global, line: &[u8]) -> Result<String, AllocError>
    ensures { IfOk result (λ shown. string_bytes shown ≡ map shown_byte line.now) }
{
    let bytes: Vec<u8> = line.iter().map(|b| shown_byte(*b)).collect(alloc)?;
    Ok(String::from_utf8(bytes).unwrap())
}

fn shown_byte(byte: u8) -> u8
    ensures { result ≡ shown_byte byte }
{
    match byte {
        b' '..=b'~' => byte,
        b'\t' | b'\r' => b' ',
        _ => b'?',
    }
}

// A line of a text, counted from 1.
fn source_line(text: &[u8], line: u32) -> &[u8]
    ensures { result.now ≡ source_line text.now line }
{
    first_line(from_line(text, line))
}

/// What stands from a line on, which is counted from 1.
pub(crate) fn from_line(text: &[u8], line: u32) -> &[u8]
    ensures rest { result.now ≡ skip_lines (line - 1) text.now }
    ensures shorter { length result.now ≤ length text.now }
{
    let mut rest = text;
    let before = line.saturating_sub(1);
    for _ in 0..before {
        rest = after_line(rest);
    }
    rest
}

/// What stands before the first line feed.
pub(crate) fn first_line(text: &[u8]) -> &[u8]
    ensures line { result.now ≡ before_feed (feed_in text.now) text.now }
    ensures shorter { length result.now ≤ length text.now }
{
    match line_feed(text) {
        Some(place) => &text[..place],
        None => text,
    }
}

// What stands after the first line.
fn after_line(text: &[u8]) -> &[u8]
    ensures rest { result.now ≡ after_feed (feed_in text.now) text.now }
    ensures shorter { length result.now ≤ length text.now }
{
    match line_feed(text) {
        Some(place) => &text[place + 1..],
        None => &[],
    }
}

// The place of the first line feed.
fn line_feed(text: &[u8]) -> Option<usize>
    ensures place { result ≡ feed_in text.now }
    ensures within { IfSome result (λ place. place < length text.now) }
{
    text.iter().position(|byte| *byte == b'\n')
}
