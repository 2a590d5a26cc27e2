//! A whole text into a writer.

ghost use Rattle.std.specs.Prelude.{◌≡◌, [], IsOk, OnOk, OnErr};
ghost use Rattle.std.specs.Io.KnownBytes.{Appends};
ghost use Rattle.swift_report.specs.Part.{WritesPart};

use std::io::Write;
use thiserror::Error;

/// A write failed, or took no byte.
#[derive(Clone, Copy, Debug, PartialEq, Eq, Error)]
#[error("device")]
pub struct Device;

/// Writes all of a text, in order: what a write left is handed on to the next. Nothing is flushed.
///
/// Linear in the text, beside the writer's own cost: no byte is copied here.
///
/// # Errors
///
/// `Device` at the first write that fails, an interrupted one too, or takes no byte. The bytes that the writes before
/// it took are written: a prefix of the text, and not all of it. An empty text is written without a write.
pub fn write_all<W: Write>(out: &mut W, text: &[u8]) -> Result<(), Device>
    ensures ok { OnOk result (Appends (W.contents out.old) (W.contents out.new) text.now) }
    ensures empty { text.now ≡ [] → IsOk result }
    ensures err { OnErr result (WritesPart (W.contents out.old) (W.contents out.new) text.now) }
{
    let mut written = 0;
    while written < text.len() {
        match out.write(&text[written..]) {
            Ok(0) => return Err(Device),
            Ok(taken) => written += taken,
            Err(_) => return Err(Device),
        }
    }
    Ok(())
}
