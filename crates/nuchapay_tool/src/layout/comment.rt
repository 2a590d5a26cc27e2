//! Comments between tokens.

ghost use Rattle.std.specs.Prelude.{◌<◌, IfSome, length};
ghost use Rattle.nuchapay_tool.specs.LayoutsInside.{HasNoFeed};

use crate::source::first_line;
use script_tokens::Span;

/// A comment, and where it stands.
#[derive(Clone, Copy)]
pub(crate) struct Comment<'a> {
    /// What stands behind its two slashes, without white space at its end.
    pub text: &'a [u8],
    /// How many line feeds stand between it and what comes before it.
    pub feeds: usize,
}

/// How many line feeds a text has.
pub(crate) fn feeds_in(text: &[u8]) -> usize {
    text.iter().filter(|byte| **byte == b'\n').count()
}

/// What stands between the token before a place and the token at it; from the last token on, up to the end.
pub(crate) fn between<'a>(text: &'a [u8], spans: &[Span], place: usize) -> &'a [u8] {
    let from = match place.checked_sub(1) {
        Some(before) => spans.get(before).map_or(text.len(), |span| span.to),
        None => 0,
    };
    let to = spans.get(place).map_or(text.len(), |span| span.from);
    text.get(from..to).unwrap_or(&[])
}

// A line without its line feed, and without white space at its end.
fn trimmed_line(text: &[u8]) -> &[u8]
    ensures { HasNoFeed result.now }
{
    first_line(text).trim_ascii_end()
}

/// The first comment of what stands between two tokens, and what stands after it. Nothing where there is none.
pub(crate) fn next_comment(gap: &[u8]) -> Option<(Comment<'_>, &[u8])>
    ensures line { IfSome result (λ found. HasNoFeed found.0.text.now) }
    ensures shorter { IfSome result (λ found. length found.1.now < length gap.now) }
{
    let start = gap.iter().position(|byte| *byte == b'/')?;
    let (before, from) = gap.split_at(start);
    let behind = from.get(2..)?;
    let comment = Comment {
        text: trimmed_line(behind),
        feeds: feeds_in(before),
    };
    let (_, after) = behind.split_at(first_line(behind).len());
    Some((comment, after))
}
