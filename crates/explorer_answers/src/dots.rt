//! What the dots of schedules mean.

ghost use Rattle.std.specs.Prelude.{◌≡◌, ◌++◌, OnOk};
ghost use Rattle.explorer_answers.specs.Dots.{are_dots, has_dots, legend, with_legend};

use std::alloc::AllocError;

/// What the dots in the line of a schedule mean, in a line (our own).
pub const DOTS: &str =
    "    t0.1.. begins a turn, and ..t0.1 ends it; what stands between runs on other executors\n";

fn are_dots(before: u8, byte: u8) -> bool
    ensures { result ≡ are_dots before byte }
{
    before == b'.' && byte == b'.'
}

// Whether two dots stand side by side in a text.
fn has_dots(text: &[u8]) -> bool
    ensures { result ≡ has_dots 0 text.now }
{
    let mut before = 0;
    for byte in text {
        if are_dots(before, *byte) {
            return true;
        }
        before = *byte;
    }
    false
}

// What dots mean, where there are some.
fn legend(has_dots: bool) -> &'static str
    ensures { result.now ≡ legend has_dots }
{
    if has_dots { DOTS } else { "" }
}

/// Appends a text of schedules, after a line on what their dots mean, where some have dots. Linear in it.
pub(crate) fn put_with_legend(out: &mut Vec<u8>, text: &[u8]) -> Result<(), AllocError>
    ensures { OnOk result (out.new.items ≡ out.old.items ++ with_legend text.now) }
{
    out.extend_from_slice(legend(has_dots(text)).as_bytes())?;
    out.extend_from_slice(text)
}
