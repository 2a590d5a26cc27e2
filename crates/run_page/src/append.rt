//! Numbers and commas at the end of a text.

ghost use Rattle.std.specs.Prelude.{◌≡◌, ◌++◌, OnOk};
ghost use Rattle.run_page.specs.RunJson.{comma};

use itoa::{Buffer, Integer};
use std::alloc::AllocError;

/// Appends a text (our own). Linear in it.
///
/// # Errors
///
/// Memory ran out.
pub fn say(out: &mut Vec<u8>, text: &[u8]) -> Result<(), AllocError>
    ensures { OnOk result (out.new.items ≡ out.old.items ++ text.now) }
{
    out.extend_from_slice(text)
}

/// Appends a text that is UTF-8 (our own), as [`say`] does.
pub fn say_text(out: &mut Vec<u8>, text: &str) -> Result<(), AllocError>
    ensures { OnOk result (out.new.items ≡ out.old.items ++ text.now) }
{
    say(out, text.as_bytes())
}

// Appends a number in decimal.
fn number<I: Integer>(out: &mut Vec<u8>, value: I) -> Result<(), AllocError>
    ensures { OnOk result (out.new.items ≡ out.old.items ++ I.text value) }
{
    let mut buffer = Buffer::new();
    out.extend_from_slice(buffer.format(value).as_bytes())
}

/// Appends a number after its label.
pub(crate) fn labelled<I: Integer>(
    out: &mut Vec<u8>,
    label: &[u8],
    value: I,
) -> Result<(), AllocError>
    ensures { OnOk result (out.new.items ≡ out.old.items ++ (label.now ++ I.text value)) }
{
    say(out, label)?;
    number(out, value)
}

/// Appends a comma, unless the element at this place is the first of its list.
pub(crate) fn comma(out: &mut Vec<u8>, place: usize) -> Result<(), AllocError>
    ensures { OnOk result (out.new.items ≡ out.old.items ++ comma place) }
{
    let text: &[u8] = if place == 0 { b"" } else { b",\n" };
    say(out, text)
}
