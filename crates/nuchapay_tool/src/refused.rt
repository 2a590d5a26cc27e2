//! The text of a refusal.

ghost use Rattle.std.specs.Prelude.{◌≡◌, IfOk};
ghost use Rattle.std.specs.String.{string_bytes};
ghost use Rattle.nuchapay_tool.specs.Marks.{column_text};
ghost use Rattle.nuchapay_tool.specs.Refusals.{advice_text, arrow_text, bar_text, expected_text, head_text, label_text, lines_beside, located_text, lost_text, place_text, refusal_text, said_beside, second_text, source_text, text_beside};

use crate::colours::{blue, bold, plain, red};
use crate::mark::{LineMark, column_text, mark_text};
use crate::page::Page;
use crate::source::shown_line;
use std::alloc::{AllocError, Global};

/// What is said of a refusal: its page's number and text, where it is, that line of the text with a mark under it, what was expected
/// there, unless that is empty, and what to do.
/// Linear in the text.
///
/// # Errors
///
/// `AllocError` where there is no memory for it.
pub(crate) fn refusal(
    alloc: Global,
    colour: bool,
    file: &str,
    text: &[u8],
    line: u32,
    mark: Option<LineMark>,
    page: &Page,
    expected: &str,
    help: &str,
) -> Result<String, AllocError>
    ensures { IfOk result (λ said. string_bytes said ≡ refusal_text colour file.now text.now line mark page.now expected.now help.now) }
{
    let head = head(alloc, colour, page.name, page.title)?;
    let place = if line == 0 {
        lost(alloc, colour, help)?
    } else {
        located(alloc, colour, file, text, line, mark, expected, help)?
    };
    let parts = [head.as_str(), place.as_str()];
    parts.as_slice().concat(alloc)
}

/// The number and the text of a refusal.
///
/// # Errors
///
/// `AllocError` where there is no memory for it.
pub(crate) fn head(
    alloc: Global,
    colour: bool,
    name: &str,
    title: &str,
) -> Result<String, AllocError>
    ensures { IfOk result (λ said. string_bytes said ≡ head_text colour name.now title.now) }
{
    let parts = [
        red(colour),
        "error[",
        name,
        "]",
        plain(colour),
        bold(colour),
        ": ",
        title,
        plain(colour),
        "\n",
    ];
    parts.as_slice().concat(alloc)
}

// What is said where no line is known.
fn lost(alloc: Global, colour: bool, help: &str) -> Result<String, AllocError>
    ensures { IfOk result (λ said. string_bytes said ≡ lost_text colour help.now) }
{
    let parts = [bold(colour), "help", plain(colour), ": ", help, "\n"];
    parts.as_slice().concat(alloc)
}

/// What follows the first line of a refusal: where it is, that line of the text with a mark, what was expected, and what to do.
///
/// # Errors
///
/// `AllocError` where there is no memory for it.
pub(crate) fn located(
    alloc: Global,
    colour: bool,
    file: &str,
    text: &[u8],
    line: u32,
    mark: Option<LineMark>,
    expected: &str,
    help: &str,
) -> Result<String, AllocError>
    ensures { IfOk result (λ said. string_bytes said ≡ located_text colour file.now text.now line mark expected.now help.now) }
{
    let number = line.to_string(alloc)?;
    let gutter = " ".repeat(alloc, number.len())?;
    beside(
        alloc,
        colour,
        gutter.as_str(),
        number.as_str(),
        file,
        text,
        line,
        mark,
        expected,
        help,
    )
}

// The refusal at a line of a text, with `number` beside that line, and the gutter beside all else.
fn beside(
    alloc: Global,
    colour: bool,
    gutter: &str,
    number: &str,
    file: &str,
    text: &[u8],
    line: u32,
    mark: Option<LineMark>,
    expected: &str,
    help: &str,
) -> Result<String, AllocError>
    ensures { IfOk result (λ said. string_bytes said ≡ text_beside colour gutter.now number.now file.now text.now line mark expected.now help.now) }
{
    let shown = lines_beside(alloc, colour, gutter, number, file, text, line, mark)?;
    let said = said_beside(alloc, colour, gutter, expected, help)?;
    let parts = [shown.as_str(), said.as_str()];
    parts.as_slice().concat(alloc)
}

// Where something is, and that line of the text with the mark under it.
fn lines_beside(
    alloc: Global,
    colour: bool,
    gutter: &str,
    number: &str,
    file: &str,
    text: &[u8],
    line: u32,
    mark: Option<LineMark>,
) -> Result<String, AllocError>
    ensures { IfOk result (λ said. string_bytes said ≡ lines_beside colour gutter.now number.now file.now text.now line mark) }
{
    let arrow = arrow(alloc, colour, gutter, file, number, mark)?;
    let bar = bar(alloc, colour, gutter)?;
    let source = source(alloc, colour, number, text, line)?;
    let under = mark_text(alloc, colour, gutter, mark)?;
    let parts = [
        arrow.as_str(),
        bar.as_str(),
        source.as_str(),
        under.as_str(),
    ];
    parts.as_slice().concat(alloc)
}

// What was expected, and what to do.
fn said_beside(
    alloc: Global,
    colour: bool,
    gutter: &str,
    expected: &str,
    help: &str,
) -> Result<String, AllocError>
    ensures { IfOk result (λ said. string_bytes said ≡ said_beside colour gutter.now expected.now help.now) }
{
    let bar = bar(alloc, colour, gutter)?;
    let note = expected_line(alloc, colour, gutter, expected)?;
    let advice = advice(alloc, colour, gutter, "help", help)?;
    let parts = [bar.as_str(), note.as_str(), advice.as_str()];
    parts.as_slice().concat(alloc)
}

// What was expected, unless nothing is said of that.
fn expected_line(
    alloc: Global,
    colour: bool,
    gutter: &str,
    expected: &str,
) -> Result<String, AllocError>
    ensures { IfOk result (λ said. string_bytes said ≡ expected_text colour gutter.now expected.now) }
{
    if expected.len() == 0 {
        Ok(String::new(alloc))
    } else {
        advice(alloc, colour, gutter, "note", expected)
    }
}

/// What is said of a second place that is concerned: a label, where it is, and that line of the text with a mark under it.
///
/// # Errors
///
/// `AllocError` where there is no memory for it.
pub(crate) fn second_place(
    alloc: Global,
    colour: bool,
    file: &str,
    text: &[u8],
    line: u32,
    mark: Option<LineMark>,
    label: &str,
) -> Result<String, AllocError>
    ensures { IfOk result (λ said. string_bytes said ≡ second_text colour file.now text.now line mark label.now) }
{
    let number = line.to_string(alloc)?;
    let gutter = " ".repeat(alloc, number.len())?;
    let shown = lines_beside(
        alloc,
        colour,
        gutter.as_str(),
        number.as_str(),
        file,
        text,
        line,
        mark,
    )?;
    let label = label_line(alloc, colour, label)?;
    let parts = [label.as_str(), shown.as_str()];
    parts.as_slice().concat(alloc)
}

// What is said of a second place.
fn label_line(alloc: Global, colour: bool, label: &str) -> Result<String, AllocError>
    ensures { IfOk result (λ said. string_bytes said ≡ label_text colour label.now) }
{
    let parts = [bold(colour), "note", plain(colour), ": ", label, "\n"];
    parts.as_slice().concat(alloc)
}

// The file, the line and the column.
fn arrow<'a>(
    alloc: Global,
    colour: bool,
    gutter: &'a str,
    file: &'a str,
    number: &'a str,
    mark: Option<LineMark>,
) -> Result<String, AllocError>
    ensures { IfOk result (λ said. string_bytes said ≡ arrow_text colour gutter.now file.now number.now (column_text mark)) }
{
    let column = column_text(alloc, mark)?;
    let parts = [
        gutter,
        blue(colour),
        "--> ",
        plain(colour),
        file,
        ":",
        number,
        column.as_str(),
        "\n",
    ];
    parts.as_slice().concat(alloc)
}

// A line with nothing on it.
fn bar(alloc: Global, colour: bool, gutter: &str) -> Result<String, AllocError>
    ensures { IfOk result (λ said. string_bytes said ≡ bar_text colour gutter.now) }
{
    let parts = [gutter, blue(colour), " |", plain(colour), "\n"];
    parts.as_slice().concat(alloc)
}

// The line of the text.
fn source(
    alloc: Global,
    colour: bool,
    number: &str,
    text: &[u8],
    line: u32,
) -> Result<String, AllocError>
    ensures { IfOk result (λ said. string_bytes said ≡ source_text colour number.now text.now line) }
{
    let shown = shown_line(alloc, text, line)?;
    let parts = [
        blue(colour),
        number,
        " |",
        plain(colour),
        " ",
        shown.as_str(),
        "\n",
    ];
    parts.as_slice().concat(alloc)
}

// What was expected, or what to do, after the word for it.
fn advice(
    alloc: Global,
    colour: bool,
    gutter: &str,
    word: &str,
    said: &str,
) -> Result<String, AllocError>
    ensures { IfOk result (λ told. string_bytes told ≡ advice_text colour gutter.now word.now said.now) }
{
    let parts = [
        gutter,
        blue(colour),
        " =",
        plain(colour),
        " ",
        bold(colour),
        word,
        plain(colour),
        ": ",
        said,
        "\n",
    ];
    parts.as_slice().concat(alloc)
}
