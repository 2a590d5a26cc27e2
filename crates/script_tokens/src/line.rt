//! On which line a byte stands.

ghost use Rattle.std.specs.Prelude.{◌≡◌};
ghost use Rattle.script_tokens.specs.Lines.{line_of};

/// The line of the byte of a text that has `place` bytes before it; from the end of the text on, its last line. Lines count from
/// 1, by LF, and no further than 4294967295. Linear in the bytes before.
pub fn line_of(text: &[u8], place: usize) -> u32
    ensures { result ≡ line_of text.now place }
{
    let (before, _) = text.split_at(place.min(text.len()));
    let feeds = before.iter().filter(|b| **b == b'\n').count();
    u32::try_from(feeds.saturating_add(1)).unwrap_or(u32::MAX)
}
