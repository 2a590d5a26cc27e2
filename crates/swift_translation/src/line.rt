//! The line of a text on which a place lies.

ghost use Rattle.std.specs.Prelude.{◌≡◌, ◌<◌, ◌≤◌, ◌+◌, IfSome, length, max, take};
ghost use Rattle.swift_translation.specs.Lines.{after_feed, before_feed, feed_in, feeds, left_of, right_of, skip_lines};

/// The later one of two places.
pub(crate) fn later(left: usize, right: usize) -> usize
    ensures { result ≡ max left right }
{
    if left < right { right } else { left }
}

/// The line of a text on which a place lies.
#[derive(Clone, Copy)]
pub(crate) struct Line<'a> {
    /// Its number, from 1.
    pub number: usize,
    /// What stands on it to the left of the place.
    pub left: &'a [u8],
    /// What stands on it from the place on.
    pub right: &'a [u8],
}

/// The line on which a place lies. A place behind the text stands for its end. Linear in the text.
pub(crate) fn line_at(text: &[u8], place: usize) -> Line<'_>
    ensures number { result.number ≡ feeds (take place text.now) + 1 }
    ensures left { result.left.now ≡ left_of text.now place }
    ensures right { result.right.now ≡ right_of text.now place }
{
    let (left, right) = text.split_at(place.min(text.len()));
    let before = feeds(left);
    Line {
        number: before + 1,
        left: from_line(left, before),
        right: first_line(right),
    }
}

/// The number of the line on which a place lies, from 1. A place behind the text stands for its end. Linear in the text.
#[tactic(auto, using(crate::proofs::Feeds::feeds_before))]
pub(crate) fn line_number(text: &[u8], place: usize) -> usize
    ensures number { result ≡ feeds (take place text.now) + 1 }
    ensures most { result ≤ feeds text.now + 1 }
{
    let (left, _) = text.split_at(place.min(text.len()));
    feeds(left) + 1
}

// How many lines end in a text.
fn feeds(text: &[u8]) -> usize
    ensures feeds { result ≡ feeds text.now }
    ensures within { result ≤ length text.now }
{
    text.iter().filter(|b| **b == b'\n').count()
}

// What stands after the first lines.
fn from_line(text: &[u8], before: usize) -> &[u8]
    ensures { result.now ≡ skip_lines before text.now }
{
    let mut rest = text;
    for _ in 0..before {
        rest = after_line(rest);
    }
    rest
}

// What stands before the first line feed.
fn first_line(text: &[u8]) -> &[u8]
    ensures { result.now ≡ before_feed (feed_in text.now) text.now }
{
    match line_feed(text) {
        Some(place) => &text[..place],
        None => text,
    }
}

// What stands after the first line.
fn after_line(text: &[u8]) -> &[u8]
    ensures { result.now ≡ after_feed (feed_in text.now) text.now }
{
    match line_feed(text) {
        Some(place) => &text[place + 1..],
        None => &[],
    }
}

// The place of the first line feed.
fn line_feed(text: &[u8]) -> Option<usize>
    ensures place { result ≡ feed_in text.now }
    ensures within { IfSome result (λ place. place < length text.now) }
{
    text.iter().position(|byte| *byte == b'\n')
}
