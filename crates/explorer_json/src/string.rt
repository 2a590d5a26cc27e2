//! Strings.

ghost use Rattle.std.specs.Prelude.{◌≡◌, ◌<◌, ◌++◌, OnOk};
ghost use Rattle.explorer_json.specs.Strings.{byte_json, bytes_json, hex_digit, string_json};

use crate::append::say;
use std::alloc::AllocError;

// A digit to base 16.
fn hex_digit(number: u8) -> u8
    requires { number < 16 }
    ensures { result ≡ hex_digit number }
{
    if number < 10 {
        48 + number
    } else {
        87 + number
    }
}

// A byte below 32, by its number.
fn put_control(out: &mut Vec<u8>, byte: u8) -> Result<(), AllocError>
    requires { byte < 32 }
    ensures { OnOk result (out.new.items ≡ out.old.items ++ byte_json byte) }
{
    say(out, b"\\u00")?;
    say(out, &[hex_digit(byte / 16), hex_digit(byte % 16)])
}

// A byte of a text, as a string has it.
fn put_byte(out: &mut Vec<u8>, byte: u8) -> Result<(), AllocError>
    ensures { OnOk result (out.new.items ≡ out.old.items ++ byte_json byte) }
{
    if byte == b'"' {
        return say(out, b"\\\"");
    }
    if byte == b'\\' {
        return say(out, b"\\\\");
    }
    if byte < 32 {
        return put_control(out, byte);
    }
    say(out, &[byte])
}

fn put_bytes(out: &mut Vec<u8>, text: &[u8]) -> Result<(), AllocError>
    ensures { OnOk result (out.new.items ≡ out.old.items ++ bytes_json text.now) }
{
    for place in 0..text.len() {
        put_byte(out, text[place])?;
    }
    Ok(())
}

/// Appends a text between quotation marks, with a backslash where JSON wants one (RFC 8259).
pub fn put_string(out: &mut Vec<u8>, text: &[u8]) -> Result<(), AllocError>
    ensures { OnOk result (out.new.items ≡ out.old.items ++ string_json text.now) }
{
    say(out, b"\"")?;
    put_bytes(out, text)?;
    say(out, b"\"")
}
