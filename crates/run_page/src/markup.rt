//! JSON that can't be markup.

ghost use Rattle.std.specs.Prelude.{◌≡◌, ◌++◌, OnOk};
ghost use Rattle.run_page.specs.Escapes.{escaped, escaped_byte};

use crate::append::say;
use std::alloc::AllocError;

// Appends a byte of JSON, spelled as JSON's escape where it could begin or end markup. Such a byte stands in strings alone.
fn escape_byte(out: &mut Vec<u8>, byte: u8) -> Result<(), AllocError>
    ensures { OnOk result (out.new.items ≡ out.old.items ++ escaped_byte byte) }
{
    if byte == b'<' {
        say(out, b"\\u003c")
    } else if byte == b'>' {
        say(out, b"\\u003e")
    } else if byte == b'&' {
        say(out, b"\\u0026")
    } else {
        say(out, &[byte])
    }
}

/// Appends JSON with each byte that could begin or end markup spelled as JSON's escape: the same JSON (our own). Linear in it.
///
/// # Errors
///
/// Memory ran out.
pub fn escape(out: &mut Vec<u8>, json: &[u8]) -> Result<(), AllocError>
    ensures { OnOk result (out.new.items ≡ out.old.items ++ escaped json.now) }
{
    for byte in json {
        escape_byte(out, *byte)?;
    }
    Ok(())
}
