//! Lines of text.

use crate::picture::picture_text::PictureText;

/// Begins a line of text of these classes at a place.
pub(crate) fn begin_text(out: &mut PictureText, class: &str, x: usize, y: usize) {
    out.fill_with("<text class=\"@\" x=\"$\" y=\"$\">", class, &[x, y])
}

/// Ends a line of text.
pub(crate) fn end_text(out: &mut PictureText) {
    out.say(b"</text>\n")
}

/// Writes at most `most` characters of a line of text.
pub(crate) fn write_text(
    out: &mut PictureText,
    class: &str,
    at: (usize, usize),
    text: &[u8],
    most: usize,
) {
    begin_text(out, class, at.0, at.1);
    out.fitting(text, most);
    end_text(out)
}
