//! What stands below a box: what its turn did, in lines.

use crate::picture::picture_text::PictureText;
use crate::picture::text::{begin_text, end_text, write_text};

// How many lines find room below a box, how many characters of 11 pixels in each, and how far apart they are.
const LINES: usize = 3;

const FITTING: usize = 20;

const APART: usize = 14;

// How many lines there are: each ends with a line feed.
fn count_lines(lines: &[u8]) -> usize {
    let mut count = 0_usize;
    for byte in lines {
        if *byte == b'\n' {
            count = count.saturating_add(1);
        }
    }
    count
}

// How many lines are left.
fn write_more(out: &mut PictureText, class: &str, at: (usize, usize), count: usize) {
    begin_text(out, class, at.0, at.1);
    out.fill("and $ more", &[count]);
    end_text(out)
}

/// Writes lines, each of which ends with a line feed, one below the other. Where there are more than find room, the last one that does says
/// how many are left.
pub(crate) fn write_below(out: &mut PictureText, lines: &[u8], class: &str, x: usize, top: usize) {
    let count = count_lines(lines);
    for (place, line) in lines.split(|byte| *byte == b'\n').enumerate() {
        if place >= count.min(LINES) {
            return;
        }
        let y = place
            .saturating_add(1)
            .saturating_mul(APART)
            .saturating_add(top);
        if place.saturating_add(1) == LINES && count > LINES {
            write_more(out, class, (x, y), count.saturating_sub(place));
        } else {
            write_text(out, class, (x, y), line, FITTING);
        }
    }
}

/// Writes lines, each of which ends with a line feed, one after the other: each is led in by a semicolon.
pub(crate) fn write_beside(out: &mut PictureText, lines: &[u8]) {
    if !lines.is_empty() {
        out.say(b"; ");
    }
    for (place, byte) in lines.iter().enumerate() {
        if *byte != b'\n' {
            out.escaped(&[*byte]);
        } else if place.saturating_add(1) < lines.len() {
            out.say(b"; ");
        }
    }
}
