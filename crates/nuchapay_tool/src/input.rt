//! A script from a device.

ghost use Rattle.std.specs.Prelude.{◌≡◌, ◌<◌, ◌≤◌, ◌+◌, IfOk, length, vec_len};
ghost use Rattle.std.specs.Io.KnownBytes.{Consumes, IsAtEnd};
ghost use Rattle.nuchapay_tool.specs.InputInside.{TakesMore};

use std::alloc::Global;
use std::io;
use std::io::Read;
use swift_types::limits::BYTES;

/// Reads to the end, or until there is one byte more than the longest script has: at most 65,537 bytes are taken.
///
/// Linear in what is read, beside the reader's own cost.
///
/// # Errors
///
/// That of the first read that fails, an interrupted one too; out of memory. What was taken by then is lost.
pub fn read_input<R: Read>(alloc: Global, from: &mut R) -> io::Result<Vec<u8>>
    ensures taken { IfOk result (λ text. Consumes (R.remaining from.old) (R.remaining from.new) text.items) }
    ensures most { IfOk result (λ text. vec_len text ≤ BYTES + 1) }
    ensures whole { IfOk result (λ text. vec_len text ≤ BYTES → IsAtEnd (R.remaining from.new)) }
{
    let mut text = Vec::new(alloc);
    let mut chunk = [0; 4_096];
    while text.len() <= BYTES {
        let room = (BYTES + 1 - text.len()).min(chunk.len());
        if read_more(from, &mut chunk[..room], &mut text)? == 0 {
            return Ok(text);
        }
    }
    Ok(text)
}

// Reads once, as much as there is room for in the chunk. How many bytes came after the text: none at the end.
fn read_more<R: Read>(from: &mut R, chunk: &mut [u8], text: &mut Vec<u8>) -> io::Result<usize>
    ensures taken { IfOk result (TakesMore (R.remaining from.old) (R.remaining from.new) text.old.items text.new.items) }
    ensures len { IfOk result (λ n. vec_len text.new ≡ vec_len text.old + n) }
    ensures most { IfOk result (λ n. n ≤ length chunk.old) }
    ensures end { IfOk result (λ n. n ≡ 0 → 0 < length chunk.old → IsAtEnd (R.remaining from.new)) }
{
    let taken = from.read(chunk)?;
    text.extend_from_slice(&chunk[..taken])?;
    Ok(taken)
}
