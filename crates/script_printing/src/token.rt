//! One token, after a space.

ghost use Rattle.std.specs.Prelude.{◌≡◌, ◌++◌, ◌∷◌, [], OnOk, pos};
ghost use Rattle.std.specs.Fmt.{decimal};
ghost use Rattle.script_tokens.specs.declared.mark.Mark.TheVariants.{Open, Minus, Bang};
ghost use Rattle.script_tokens.specs.Pieces.{Num, Name, Key, Sign};
ghost use Rattle.script_printing.specs.Printed.{after};

use script_tokens::{Keyword, Mark};
use std::alloc::AllocError;

/// The digits of a number, without leading zeros.
#[tactic(auto, using(std::proofs::lemmas::Fmt::decimal_digit))]
fn digits(out: &mut Vec<u8>, number: u64) -> Result<(), AllocError>
    ensures { OnOk result (out.new.items ≡ out.old.items ++ decimal number) }
{
    if number < 10 {
        out.push(b'0' + number as u8)?;
        return Ok(());
    }
    digits(out, number / 10)?;
    out.push(b'0' + (number % 10) as u8)?;
    Ok(())
}

#[tactic(auto, unfolding(crate::specs::Printed::after))]
pub(crate) fn write_sign(out: &mut Vec<u8>, mark: Mark) -> Result<(), AllocError>
    ensures { OnOk result (out.new.items ≡ after out.old.items (Sign mark ∷ [])) }
{
    out.push(b' ')?;
    out.extend_from_slice(mark.spelling())
}

/// The parenthesis and the sign that a `-` begins with, in one go.
#[tactic(auto, unfolding(crate::specs::Printed::after))]
pub(crate) fn write_minus(out: &mut Vec<u8>) -> Result<(), AllocError>
    ensures { OnOk result (out.new.items ≡ after out.old.items (Sign Open ∷ Sign Minus ∷ [])) }
{
    out.extend_from_slice(b" ( -")
}

/// The parenthesis and the sign that a `!` begins with, in one go.
#[tactic(auto, unfolding(crate::specs::Printed::after))]
pub(crate) fn write_bang(out: &mut Vec<u8>) -> Result<(), AllocError>
    ensures { OnOk result (out.new.items ≡ after out.old.items (Sign Open ∷ Sign Bang ∷ [])) }
{
    out.extend_from_slice(b" ( !")
}

#[tactic(auto, unfolding(crate::specs::Printed::after))]
pub(crate) fn write_keyword(out: &mut Vec<u8>, keyword: Keyword) -> Result<(), AllocError>
    ensures { OnOk result (out.new.items ≡ after out.old.items (Key keyword ∷ [])) }
{
    out.push(b' ')?;
    out.extend_from_slice(keyword.spelling())
}

#[tactic(auto, unfolding(crate::specs::Printed::after))]
pub(crate) fn write_name(out: &mut Vec<u8>, name: &[u8]) -> Result<(), AllocError>
    ensures { OnOk result (out.new.items ≡ after out.old.items (Name name.now ∷ [])) }
{
    out.push(b' ')?;
    out.extend_from_slice(name)
}

#[tactic(auto, unfolding(crate::specs::Printed::after))]
pub(crate) fn write_magnitude(out: &mut Vec<u8>, number: u64) -> Result<(), AllocError>
    ensures { OnOk result (out.new.items ≡ after out.old.items (Num (pos number) ∷ [])) }
{
    out.push(b' ')?;
    digits(out, number)
}

#[tactic(auto, unfolding(crate::specs::Printed::after))]
pub(crate) fn write_number(out: &mut Vec<u8>, number: i64) -> Result<(), AllocError>
    ensures { OnOk result (out.new.items ≡ after out.old.items (Num number ∷ [])) }
{
    out.push(b' ')?;
    if number < 0 {
        out.push(b'-')?;
    }
    digits(out, number.unsigned_abs())
}
