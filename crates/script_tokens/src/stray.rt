//! Bytes that no script may contain.

ghost use Rattle.std.specs.Prelude.{◌≡◌, ◌↔◌, ◌<◌, IsSome, IfSome, false, length};
ghost use Rattle.std.specs.List.{prefix_len};
ghost use Rattle.script_tokens.specs.Bytes.{is_text, is_text_byte};

use crate::class::text_len;

/// How many bytes stand before the first byte that no script may contain, if there is one. Allowed are printable ASCII (0x20 to
/// 0x7E), tabs, LFs and CRs. Linear in the bytes.
pub fn stray_byte(text: &[u8]) -> Option<usize>
    // There is one exactly where the text isn't made of bytes that a script may contain.
    ensures found { IsSome result ↔ (is_text text.now ≡ false) }
    // As many bytes stand before it as may stand at the front.
    ensures place { IfSome result (λ place. place ≡ prefix_len is_text_byte text.now) }
    ensures within { IfSome result (λ place. place < length text.now) }
{
    let place = text_len(text);
    if place < text.len() {
        Some(place)
    } else {
        None
    }
}
