//! Lines of two texts that differ.

ghost use Rattle.std.specs.Prelude.{◌≡◌, ◌++◌, OnOk, codes, count_by, decimal, drop, take};
ghost use Rattle.std.specs.List.{position};
ghost use Rattle.explorer_differences.specs.Lines.{after_line, after_lines, alone_text, both_text, first_line, in_text, is_feed, line_difference, line_end, lines_difference, tail, told_text};

use crate::words::shared_words;
use itoa::Buffer;
use std::alloc::AllocError;

/// The first bytes of a text; all where there are fewer.
pub(crate) fn front(text: &[u8], many: usize) -> &[u8]
    ensures { result.now ≡ take many text.now }
{
    &text[..many.min(text.len())]
}

/// What comes after the first bytes of a text.
pub(crate) fn back(text: &[u8], many: usize) -> &[u8]
    ensures { result.now ≡ drop many text.now }
{
    &text[many.min(text.len())..]
}

// The place of the first line feed.
fn line_feed(text: &[u8]) -> Option<usize>
    ensures { result ≡ position is_feed text.now }
{
    text.iter().position(|byte| *byte == b'\n')
}

// Where the first line of a text ends.
fn line_end(text: &[u8]) -> usize
    ensures { result ≡ line_end text.now }
{
    match line_feed(text) {
        Some(at) => at,
        None => text.len(),
    }
}

// The first line of a text, without its line feed.
fn first_line(text: &[u8]) -> &[u8]
    ensures { result.now ≡ first_line text.now }
{
    front(text, line_end(text))
}

// The bytes after the first.
fn tail(text: &[u8]) -> &[u8]
    ensures { result.now ≡ tail text.now }
{
    match text {
        [] => text,
        [_, rest @ ..] => rest,
    }
}

/// The lines after the first of a text.
pub(crate) fn after_line(text: &[u8]) -> &[u8]
    ensures { result.now ≡ after_line text.now }
{
    tail(back(text, line_end(text)))
}

/// The lines after so many of a text.
#[tactic(auto, using(crate::proofs::Passing::after_all))]
pub(crate) fn after_lines(text: &[u8], many: usize) -> &[u8]
    ensures { result.now ≡ after_lines many text.now }
{
    let mut rest = text;
    for _ in 0..many {
        rest = after_line(rest);
    }
    rest
}

// How many lines a text has that are ended.
fn lines_in(text: &[u8]) -> usize
    ensures { result ≡ count_by is_feed text.now }
{
    text.iter().filter(|byte| **byte == b'\n').count()
}

/// Appends a number.
pub(crate) fn put_number(out: &mut Vec<u8>, number: u32) -> Result<(), AllocError>
    ensures { OnOk result (out.new.items ≡ out.old.items ++ decimal number) }
{
    let mut buffer = Buffer::new();
    out.extend_from_slice(buffer.format(number).as_bytes())
}

// In which outcome something is so.
fn put_in(out: &mut Vec<u8>, number: u32) -> Result<(), AllocError>
    ensures { OnOk result (out.new.items ≡ out.old.items ++ in_text number) }
{
    out.extend_from_slice(b" in ")?;
    put_number(out, number)
}

// A line that one outcome alone has.
fn put_alone(out: &mut Vec<u8>, line: &[u8], number: u32) -> Result<(), AllocError>
    ensures { OnOk result (out.new.items ≡ out.old.items ++ alone_text number line.now) }
{
    out.extend_from_slice(line)?;
    out.extend_from_slice(b" only")?;
    put_in(out, number)?;
    out.extend_from_slice(b"\n")
}

// A line that both have, each its own.
fn put_both(
    out: &mut Vec<u8>,
    numbers: (u32, u32),
    first: &[u8],
    second: &[u8],
) -> Result<(), AllocError>
    ensures { OnOk result (out.new.items ≡ out.old.items ++ both_text numbers.0 numbers.1 first.now second.now) }
{
    out.extend_from_slice(first)?;
    put_in(out, numbers.0)?;
    out.extend_from_slice(b",")?;
    out.extend_from_slice(back(second, shared_words(first, second)))?;
    put_in(out, numbers.1)?;
    out.extend_from_slice(b"\n")
}

// Lines that are not the same, of which one may be missing.
fn put_told(
    out: &mut Vec<u8>,
    numbers: (u32, u32),
    first: &[u8],
    second: &[u8],
) -> Result<(), AllocError>
    ensures { OnOk result (out.new.items ≡ out.old.items ++ told_text numbers.0 numbers.1 first.now second.now) }
{
    if first.is_empty() {
        return put_alone(out, second, numbers.1);
    }
    if second.is_empty() {
        return put_alone(out, first, numbers.0);
    }
    put_both(out, numbers, first, second)
}

// A line, where it is not the same in both.
fn put_line(
    out: &mut Vec<u8>,
    numbers: (u32, u32),
    first: &[u8],
    second: &[u8],
) -> Result<(), AllocError>
    ensures { OnOk result (out.new.items ≡ out.old.items ++ line_difference numbers.0 numbers.1 first.now second.now) }
{
    if first == second {
        return Ok(());
    }
    put_told(out, numbers, first, second)
}

/// Appends the lines of two texts that are not the same, each with the one at its place in the other.
#[tactic(auto, using(crate::proofs::Passing::differences_all))]
pub(crate) fn put_lines(
    out: &mut Vec<u8>,
    numbers: (u32, u32),
    first: &[u8],
    second: &[u8],
) -> Result<(), AllocError>
    ensures { OnOk result (out.new.items ≡ out.old.items ++ lines_difference numbers.0 numbers.1 first.now second.now) }
{
    let many = lines_in(first).max(lines_in(second));
    let mut left = first;
    let mut right = second;
    for _ in 0..many {
        put_line(out, numbers, first_line(left), first_line(right))?;
        left = after_line(left);
        right = after_line(right);
    }
    Ok(())
}
