//! The mark under a line of a text.

ghost use Rattle.std.specs.Prelude.{◌≡◌, IfOk};
ghost use Rattle.std.specs.String.{string_bytes};
ghost use Rattle.nuchapay_tool.specs.Marks.{column_text, drawn_text, mark_of, mark_text};

use crate::colours::{blue, plain, red};
use crate::source::{SHOWN, first_line, from_line};
use script_tokens::Span;
use std::alloc::{AllocError, Global};

/// Where on its line stands what is to blame (our own).
#[derive(Clone, Copy)]
pub(crate) struct LineMark {
    /// The place of its first byte on the line, from 1.
    pub column: usize,
    /// How many bytes it is.
    pub width: usize,
}

/// Where on a line some bytes of a text stand; none where they do not lie on it. The place behind the last byte of the text lies on its
/// last line.
pub(crate) fn mark_of(text: &[u8], line: u32, span: Option<Span>) -> Option<LineMark>
    ensures { result ≡ mark_of text.now line span }
{
    let Some(span) = span else {
        return None;
    };
    let rest = from_line(text, line);
    let start = text.len() - rest.len();
    let end = start + first_line(rest).len();
    if start <= span.from
        && span.from <= span.to
        && span.from <= text.len()
        && span.to.min(text.len()) <= end
    {
        Some(LineMark {
            column: span.from - start + 1,
            width: span.to - span.from,
        })
    } else {
        None
    }
}

/// What is said of the column, which counts bytes from 1.
pub(crate) fn column_text(alloc: Global, mark: Option<LineMark>) -> Result<String, AllocError>
    ensures { IfOk result (λ said. string_bytes said ≡ column_text mark) }
{
    match mark {
        Some(mark) => {
            let column = mark.column.to_string(alloc)?;
            let parts = [":", column.as_str()];
            parts.as_slice().concat(alloc)
        }
        None => Ok(String::new(alloc)),
    }
}

/// The line with the mark, unless that is behind what is shown of the line.
pub(crate) fn mark_text(
    alloc: Global,
    colour: bool,
    gutter: &str,
    mark: Option<LineMark>,
) -> Result<String, AllocError>
    ensures { IfOk result (λ said. string_bytes said ≡ mark_text colour gutter.now mark) }
{
    match mark {
        Some(mark) => {
            let before = mark.column.saturating_sub(1);
            if before <= SHOWN && mark.width <= SHOWN - before {
                drawn(alloc, colour, gutter, mark)
            } else {
                Ok(String::new(alloc))
            }
        }
        None => Ok(String::new(alloc)),
    }
}

fn drawn(alloc: Global, colour: bool, gutter: &str, mark: LineMark) -> Result<String, AllocError>
    ensures { IfOk result (λ said. string_bytes said ≡ drawn_text colour gutter.now mark) }
{
    let before = " ".repeat(alloc, mark.column.saturating_sub(1))?;
    let under = "^".repeat(alloc, mark.width)?;
    let parts = [
        gutter,
        blue(colour),
        " |",
        plain(colour),
        " ",
        before.as_str(),
        red(colour),
        under.as_str(),
        plain(colour),
        "\n",
    ];
    parts.as_slice().concat(alloc)
}
