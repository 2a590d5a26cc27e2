//! The value of a number.

ghost use Rattle.std.specs.Prelude.{◌≡◌};
ghost use Rattle.script_tokens.specs.Lexes.{number_of};
ghost use Rattle.script_tokens.specs.Pieces.{lexeme_piece};

use crate::lexeme::Lexeme;

/// The lexeme of a number that these digits spell. Leading zeros say nothing.
pub(crate) fn number(digits: &[u8]) -> Lexeme<'_>
    ensures { lexeme_piece result ≡ number_of digits.now }
{
    let mut value: u64 = 0;
    for d in digits {
        // A tenth of the greatest `i64`: with one more digit it would be too large.
        if value > 922337203685477580 {
            return Lexeme::Huge;
        }
        value = value * 10 + u64::from(d.saturating_sub(b'0'));
    }
    if value > 9223372036854775807 {
        Lexeme::Huge
    } else {
        Lexeme::Num(value as i64)
    }
}
