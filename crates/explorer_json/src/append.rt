//! Numbers and commas at the end of a text.

ghost use Rattle.std.specs.Prelude.{◌≡◌, ◌++◌, OnOk, decimal};
ghost use Rattle.swift_report.specs.ReportJson.{comma};

use itoa::Buffer;
use std::alloc::AllocError;

/// Appends a text.
pub(crate) fn say(out: &mut Vec<u8>, text: &[u8]) -> Result<(), AllocError>
    ensures { OnOk result (out.new.items ≡ out.old.items ++ text.now) }
{
    out.extend_from_slice(text)
}

/// Appends a number after its label.
pub(crate) fn labelled(out: &mut Vec<u8>, label: &[u8], number: usize) -> Result<(), AllocError>
    ensures { OnOk result (out.new.items ≡ out.old.items ++ (label.now ++ decimal number)) }
{
    let mut buffer = Buffer::new();
    say(out, label)?;
    say(out, buffer.format(number).as_bytes())
}

/// Appends a comma, unless the element at this place is the first of its list.
pub(crate) fn comma(out: &mut Vec<u8>, place: usize) -> Result<(), AllocError>
    ensures { OnOk result (out.new.items ≡ out.old.items ++ comma 0 place) }
{
    let text: &[u8] = if place == 0 { b"" } else { b"," };
    say(out, text)
}
