//! Texts as JSON.

ghost use Rattle.std.specs.Prelude.{◌≡◌, ◌++◌, OnOk};
ghost use Rattle.run_page.specs.Escapes.{quoted, quoted_byte};

use crate::append::say;
use std::alloc::AllocError;

// Appends a byte of a text as it stands in a string of JSON; a control character but a tab and a line feed as a space.
fn quote_byte(out: &mut Vec<u8>, byte: u8) -> Result<(), AllocError>
    ensures { OnOk result (out.new.items ≡ out.old.items ++ quoted_byte byte) }
{
    if byte == b'"' {
        say(out, b"\\\"")
    } else if byte == b'\\' {
        say(out, b"\\\\")
    } else if byte == b'\n' {
        say(out, b"\\n")
    } else if byte == b'\t' {
        say(out, b"\\t")
    } else if byte < b' ' {
        say(out, b" ")
    } else {
        say(out, &[byte])
    }
}

/// Appends a text as it stands in a string of JSON, without the quotes round it. Linear in it.
pub(crate) fn quote(out: &mut Vec<u8>, text: &[u8]) -> Result<(), AllocError>
    ensures { OnOk result (out.new.items ≡ out.old.items ++ quoted text.now) }
{
    for byte in text {
        quote_byte(out, *byte)?;
    }
    Ok(())
}

/// Appends a text as a string of JSON, after its label, which ends with the quote before it.
pub(crate) fn labelled_text(out: &mut Vec<u8>, label: &[u8], text: &[u8]) -> Result<(), AllocError>
    ensures { OnOk result (out.new.items ≡ out.old.items ++ (label.now ++ quoted text.now)) }
{
    say(out, label)?;
    quote(out, text)
}
