//! Texts as JSON has them.

ghost use Rattle.std.specs.Prelude.{◌≡◌, ◌++◌, IfOk, OnOk};
ghost use Rattle.std.specs.String.{string_bytes};
ghost use Rattle.nuchapay_tool.specs.ChecksJson.{escaped, escaped_byte, escaped_text};

use crate::source::shown;
use std::alloc::{AllocError, Global};

/// A text of printable ASCII, as JSON has it in a text: a quote and a backslash behind a backslash.
///
/// # Errors
///
/// `AllocError` where there is no memory for it.
pub(crate) fn escaped_text(alloc: Global, text: &str) -> Result<String, AllocError>
    ensures { IfOk result (λ said. string_bytes said ≡ escaped_text text.now) }
{
    let mut bytes = Vec::new(alloc);
    push_escaped(&mut bytes, text.as_bytes())?;
    shown(alloc, &bytes)
}

fn push_escaped(said: &mut Vec<u8>, text: &[u8]) -> Result<(), AllocError>
    ensures { OnOk result (said.new.items ≡ said.old.items ++ escaped text.now) }
{
    for byte in text {
        push_byte(said, *byte)?;
    }
    Ok(())
}

fn push_byte(said: &mut Vec<u8>, byte: u8) -> Result<(), AllocError>
    ensures { OnOk result (said.new.items ≡ said.old.items ++ escaped_byte byte) }
{
    match byte {
        b'"' => said.extend_from_slice(b"\\\""),
        b'\\' => said.extend_from_slice(b"\\\\"),
        _ => said.extend_from_slice(&[byte]),
    }
}

/// A text as JSON has it in a text: a quote, a backslash and a control by an escape.
///
/// # Errors
///
/// `AllocError` where there is no memory for it.
pub(crate) fn escaped_name(alloc: Global, name: &str) -> Result<String, AllocError> {
    let mut text = String::new(alloc);
    for letter in name.chars() {
        push_letter(&mut text, letter)?;
    }
    Ok(text)
}

fn push_letter(text: &mut String, letter: char) -> Result<(), AllocError> {
    match letter {
        '"' => text.push_str("\\\""),
        '\\' => text.push_str("\\\\"),
        '\0'..='\u{1f}' => push_control(text, letter as u32),
        _ => text.push(letter),
    }
}

fn push_control(text: &mut String, code: u32) -> Result<(), AllocError> {
    text.push_str(if code < 16 { "\\u000" } else { "\\u001" })?;
    text.push_str(DIGITS[(code & 15) as usize])
}

static DIGITS: [&str; 16] = [
    "0", "1", "2", "3", "4", "5", "6", "7", "8", "9", "a", "b", "c", "d", "e", "f",
];
