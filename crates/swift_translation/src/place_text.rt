//! The text of a table of methods.

ghost use Rattle.std.specs.Prelude.{◌≡◌, IfOk};
ghost use Rattle.swift_translation.specs.PlaceTexts.{line_of_method, lines_text, place_line, place_lines, row_text, span_text};
ghost use Rattle.swift_translation.specs.WritingInside.{GoesOn};

use crate::places::{MethodPlace, finished};
use crate::writer::Writer;
use std::alloc::{AllocError, Global};

/// The numbers of the first and the last of some lines.
pub(crate) fn say_lines(out: &mut Writer, alloc: Global, first: usize, last: usize)
    ensures { GoesOn out.old out.new (lines_text first last) }
{
    out.place(alloc, first);
    out.say(" to ");
    out.place(alloc, last)
}

// A file and some of its lines.
fn say_span(out: &mut Writer, alloc: Global, file: &str, first: usize, last: usize)
    ensures { GoesOn out.old out.new (span_text file.now first last) }
{
    out.say(" ");
    out.say(file);
    out.say(":");
    say_lines(out, alloc, first, last)
}

// A name, and some lines of a file.
fn say_row(out: &mut Writer, alloc: Global, file: &str, name: &[u8], first: usize, last: usize)
    ensures { GoesOn out.old out.new (row_text file.now name.now first last) }
{
    out.say("    ");
    out.bytes(name);
    say_span(out, alloc, file, first, last);
    out.say("\n")
}

// A line of the table.
fn say_place(out: &mut Writer, alloc: Global, file: &str, place: &MethodPlace)
    ensures { GoesOn out.old out.new (place_line file.now place.now) }
{
    say_row(out, alloc, file, &place.name, place.first, place.last)
}

// The lines of methods.
fn say_places(out: &mut Writer, alloc: Global, file: &str, places: &[MethodPlace])
    ensures { GoesOn out.old out.new (place_lines file.now places.now) }
{
    if let [place, rest @ ..] = places {
        say_place(out, alloc, file, place);
        say_places(out, alloc, file, rest)
    }
}

// The line of the first method of a name, if there is one.
fn say_method(out: &mut Writer, alloc: Global, file: &str, name: &[u8], places: &[MethodPlace])
    ensures { GoesOn out.old out.new (line_of_method file.now name.now places.now) }
{
    if let [place, rest @ ..] = places {
        if place.name.as_slice() == name {
            say_place(out, alloc, file, place)
        } else {
            say_method(out, alloc, file, name, rest)
        }
    }
}

/// A line for each method of a table, with its lines in the file of a name, as `    account.withdraw account.swift:6 to 11`. Linear in the
/// table.
///
/// # Errors
///
/// `AllocError` where there is no memory for them.
pub fn places_text(alloc: Global, file: &str, places: &[MethodPlace]) -> Result<Vec<u8>, AllocError>
    ensures { IfOk result (λ said. said.items ≡ place_lines file.now places.now) }
{
    let mut out = Writer::new(alloc);
    say_places(&mut out, alloc, file, places);
    finished(out)
}

/// That line for the method of a name, as `account.withdraw`; nothing where the table has none. Linear in the table.
///
/// # Errors
///
/// `AllocError` where there is no memory for it.
pub fn method_line(
    alloc: Global,
    file: &str,
    name: &[u8],
    places: &[MethodPlace],
) -> Result<Vec<u8>, AllocError>
    ensures { IfOk result (λ said. said.items ≡ line_of_method file.now name.now places.now) }
{
    let mut out = Writer::new(alloc);
    say_method(&mut out, alloc, file, name, places);
    finished(out)
}
