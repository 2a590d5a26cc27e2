//! Long answers by their first and last lines.

use crate::said::Said;

// How many lines are written at each end.
const LINES: usize = 8;

// The sum of a text's bytes, which differs for most texts that differ.
fn sum_of(text: &[u8]) -> u64 {
    let mut sum: u64 = 0;
    for byte in text {
        sum = sum.wrapping_mul(31).wrapping_add(u64::from(*byte));
    }
    sum
}

// Whether the line at this place is written, of `lines` lines.
fn is_written(place: usize, lines: usize) -> bool {
    place < LINES || lines.saturating_sub(LINES) <= place
}

/// Writes a text whose lines are ASCII, but of more than sixteen lines only the first and the last eight, and between them what is
/// left out.
pub fn write(text: &str, out: &mut Said) {
    let lines = text.lines().count();
    for (place, line) in text.lines().enumerate() {
        if is_written(place, lines) {
            out.put(line);
            out.put("\n");
        } else if place == LINES {
            out.count(".. ", lines.saturating_sub(2 * LINES) as u64);
            out.count(" lines more, ", text.len() as u64);
            out.count(" bytes in all, sum ", sum_of(text.as_bytes()));
            out.put("\n");
        }
    }
}
