//! A file that is refused before there is a script.

ghost use Rattle.std.specs.Prelude.{◌≡◌, IfOk};
ghost use Rattle.std.specs.String.{string_bytes};
ghost use Rattle.nuchapay_tool.specs.Files.{blamed_on_line, refused_file_text};

use crate::mark::mark_of;
use crate::refused::{head, located};
use crate::source::first_line;
use script_tokens::{Span, line_of};
use std::alloc::{AllocError, Global};

/// Why a file that would have become a script is refused (our own): texts of printable ASCII.
#[derive(Clone, Copy)]
pub struct FileRefusal {
    /// The number of the rule that is broken.
    pub code: &'static str,
    /// What is wrong, in a word, without a quote or a backslash.
    pub title: &'static str,
    /// What to do.
    pub help: &'static str,
    /// The bytes to blame, in bytes from 0: the first one,
    pub from: usize,
    /// and the one after the last.
    pub to: usize,
}

/// Says why a file is refused before there is a script, as `check` says it of a script: the number of the rule and what is wrong, where the
/// bytes to blame begin, that line of the file with a mark under those of them that stand on it, and what to do. `file` is what the file is
/// called, and `text` what stands in it; with the escapes of a terminal's colours where these are asked for. Linear in the text.
///
/// # Errors
///
/// `AllocError` where there is no memory for it.
pub fn refused_file(
    alloc: Global,
    file: &str,
    text: &[u8],
    colour: bool,
    refusal: FileRefusal,
) -> Result<String, AllocError>
    ensures { IfOk result (λ said. string_bytes said ≡ refused_file_text colour file.now text.now refusal) }
{
    let line = line_of(text, refusal.from);
    let mark = mark_of(text, line, Some(blamed_on_line(text, refusal)));
    let head = head(alloc, colour, refusal.code, refusal.title)?;
    let place = located(alloc, colour, file, text, line, mark, "", refusal.help)?;
    let parts = [head.as_str(), place.as_str()];
    parts.as_slice().concat(alloc)
}

// Those of the bytes to blame that stand on the line of the first; at least that place.
fn blamed_on_line(text: &[u8], refusal: FileRefusal) -> Span
    ensures { result ≡ blamed_on_line text.now refusal }
{
    let from = refusal.from.min(text.len());
    let (_, rest) = text.split_at(from);
    let many = refusal
        .to
        .saturating_sub(from)
        .min(first_line(rest).len())
        .max(1);
    Span {
        from,
        to: from + many,
    }
}
