//! What comes between two tokens, and round comments.

use crate::layout::part::LayoutPart;

/// What comes between two tokens.
#[derive(Clone, Copy)]
pub(crate) enum Gap {
    Nothing,
    Space,
    /// A line break.
    Line,
    /// A line break, and an empty line.
    EmptyLine,
}

/// What comes before a token that is `depth` blocks deep, by the token before it.
pub(crate) fn gap_before(before: LayoutPart, part: LayoutPart, depth: usize) -> Gap {
    match part {
        LayoutPart::Open
        | LayoutPart::Close
        | LayoutPart::Semicolon
        | LayoutPart::Comma
        | LayoutPart::Dot => Gap::Nothing,
        LayoutPart::CloseBrace => match before {
            LayoutPart::OpenBrace => Gap::Space,
            _ => Gap::Line,
        },
        LayoutPart::Else => Gap::Space,
        _ => gap_after(before, part, depth),
    }
}

// What comes before a token that is no sign of its own, by what is before it.
fn gap_after(before: LayoutPart, part: LayoutPart, depth: usize) -> Gap {
    let is_apart = matches!(part, LayoutPart::Head);
    match before {
        LayoutPart::Open | LayoutPart::Round | LayoutPart::Dot | LayoutPart::Prefix => Gap::Nothing,
        LayoutPart::OpenBrace => Gap::Line,
        LayoutPart::Semicolon if is_apart => Gap::EmptyLine,
        LayoutPart::Semicolon => Gap::Line,
        LayoutPart::CloseBrace if is_apart || depth == 0 => Gap::EmptyLine,
        LayoutPart::CloseBrace => Gap::Line,
        _ => Gap::Space,
    }
}

/// Whether what comes after a token goes on with what it stands in: a statement, a declaration or the head of a block.
pub(crate) fn is_inside(before: LayoutPart) -> bool {
    !matches!(
        before,
        LayoutPart::Semicolon | LayoutPart::OpenBrace | LayoutPart::CloseBrace
    )
}

// A line break, with an empty line where there was one.
fn break_of(feeds: usize) -> Gap {
    if feeds > 1 { Gap::EmptyLine } else { Gap::Line }
}

/// What comes before a comment before which so many line feeds stand, after a token or another comment: behind a token on its line stands a
/// space. `plain` is what would come between the tokens round it.
pub(crate) fn gap_before_comment(has_comment: bool, plain: Gap, feeds: usize) -> Gap {
    if has_comment {
        break_of(feeds)
    } else if feeds == 0 {
        Gap::Space
    } else if matches!(plain, Gap::EmptyLine) {
        Gap::EmptyLine
    } else {
        break_of(feeds)
    }
}

/// What comes before a token, after a comment behind which so many line feeds stand.
pub(crate) fn gap_after_comment(part: LayoutPart, feeds: usize) -> Gap {
    match part {
        LayoutPart::CloseBrace => Gap::Line,
        _ => break_of(feeds),
    }
}
