//! The sum of a script's text, by which a file says of which script it is.
#![tactic(auto)]

ghost use Rattle.std.specs.Prelude.{◌≡◌, IfOk, string_bytes};
ghost use Rattle.script_sums.specs.Sums.{script_sum};

use sha2::{Digest, Sha256};
use std::alloc::{AllocError, Global};

/// The sum of a script's text (our own): the SHA-256 of its bytes (FIPS 180-4), in 64 small hexadecimal digits. Linear in the text.
///
/// # Errors
///
/// `AllocError` where no memory is left for it.
pub fn script_sum(alloc: Global, text: &[u8]) -> Result<String, AllocError>
    ensures { IfOk result (λ sum. string_bytes sum ≡ script_sum text.now) }
{
    hex::encode(alloc, Sha256::digest(text))
}
