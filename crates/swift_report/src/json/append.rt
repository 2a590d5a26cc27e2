//! Texts, labels and commas at the end of a text.

ghost use Rattle.std.specs.Prelude.{◌≡◌, ◌++◌, OnOk};
ghost use Rattle.swift_report.specs.ReportJson.{comma};

use crate::append::number;
use itoa::Integer;
use std::alloc::AllocError;

/// Appends a text.
pub(crate) fn say(out: &mut Vec<u8>, text: &[u8]) -> Result<(), AllocError>
    ensures { OnOk result (out.new.items ≡ out.old.items ++ text.now) }
{
    out.extend_from_slice(text)
}

/// Appends three texts.
pub(crate) fn say_three(
    out: &mut Vec<u8>,
    first: &[u8],
    second: &[u8],
    third: &[u8],
) -> Result<(), AllocError>
    ensures { OnOk result (out.new.items ≡ out.old.items ++ (first.now ++ second.now ++ third.now)) }
{
    say(out, first)?;
    say(out, second)?;
    say(out, third)
}

/// Appends a number after its label.
pub(crate) fn labelled<I: Integer>(
    out: &mut Vec<u8>,
    label: &[u8],
    value: I,
) -> Result<(), AllocError>
    ensures { OnOk result (out.new.items ≡ out.old.items ++ (label.now ++ I.text value)) }
{
    say(out, label)?;
    number(out, value)
}

/// Appends a comma, unless the element at this place is the first of its list.
pub(crate) fn comma(out: &mut Vec<u8>, first: usize, place: usize) -> Result<(), AllocError>
    ensures { OnOk result (out.new.items ≡ out.old.items ++ comma first place) }
{
    let text: &[u8] = if place == first { b"" } else { b"," };
    say(out, text)
}
