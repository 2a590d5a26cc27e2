//! Pieces of texts.

ghost use Rattle.std.specs.Prelude.{◌≡◌, ◌++◌, OnOk};

use itoa::{Buffer, Integer};
use std::alloc::AllocError;

/// Appends a text.
pub(crate) fn say(out: &mut Vec<u8>, text: &[u8]) -> Result<(), AllocError>
    ensures { OnOk result (out.new.items ≡ out.old.items ++ text.now) }
{
    out.extend_from_slice(text)
}

/// Appends a number in decimal, with a minus where it is negative and no zeros in front.
pub(crate) fn number<I: Integer>(out: &mut Vec<u8>, value: I) -> Result<(), AllocError>
    ensures { OnOk result (out.new.items ≡ out.old.items ++ I.text value) }
{
    let mut buffer = Buffer::new();
    out.extend_from_slice(buffer.format(value).as_bytes())
}

/// Appends a number after its label.
pub(crate) fn labelled<I: Integer>(
    out: &mut Vec<u8>,
    label: &[u8],
    value: I,
) -> Result<(), AllocError>
    ensures { OnOk result (out.new.items ≡ out.old.items ++ (label.now ++ I.text value)) }
{
    say(out, label)?;
    number(out, value)
}
