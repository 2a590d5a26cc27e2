//! Lists of what is printed.

ghost use Rattle.std.specs.Prelude.{◌≡◌, ◌++◌, ◌∷◌, OnOk, map};
ghost use Rattle.std.specs.List.{flat_map};
ghost use Rattle.script_tokens.specs.Pieces.{Key};
ghost use Rattle.script_printing.specs.Pieces.{after_comma, listed};
ghost use Rattle.script_printing.specs.Printed.{after, line_of};

use crate::part::{Write, write_line};
use crate::token::write_sign;
use script_tokens::{Keyword, Mark};
use std::alloc::AllocError;

/// All of them, one after the other.
pub(crate) fn write_all<T: Write>(out: &mut Vec<u8>, items: &[T]) -> Result<(), AllocError>
    ensures { OnOk result (out.new.items ≡ after out.old.items (flat_map T.pieces (map T.view items.now))) }
{
    for item in items {
        item.write(out)?;
    }
    Ok(())
}

#[tactic(auto, using(crate::proofs::Written::after_after, crate::proofs::Written::after_none))]
fn write_after_comma<T: Write>(out: &mut Vec<u8>, item: &T) -> Result<(), AllocError>
    ensures { OnOk result (out.new.items ≡ after out.old.items (after_comma T.pieces (T.view item.now))) }
{
    write_sign(out, Mark::Comma)?;
    item.write(out)
}

/// Each after a comma.
fn write_more<T: Write>(out: &mut Vec<u8>, items: &[T]) -> Result<(), AllocError>
    ensures { OnOk result (out.new.items ≡ after out.old.items (flat_map (after_comma T.pieces) (map T.view items.now))) }
{
    for item in items {
        write_after_comma(out, item)?;
    }
    Ok(())
}

/// All of them, with commas between them.
pub(crate) fn write_list<T: Write>(out: &mut Vec<u8>, items: &[T]) -> Result<(), AllocError>
    ensures { OnOk result (out.new.items ≡ after out.old.items (listed T.pieces (map T.view items.now))) }
{
    match items {
        [] => Ok(()),
        [first, rest @ ..] => {
            first.write(out)?;
            write_more(out, rest)?;
            Ok(())
        }
    }
}

/// Each on a line of its own, after a keyword.
pub(crate) fn write_lines<T: Write>(
    out: &mut Vec<u8>,
    keyword: Keyword,
    items: &[T],
) -> Result<(), AllocError>
    ensures { OnOk result (out.new.items ≡ out.old.items ++ flat_map (λ x. line_of (Key keyword ∷ T.pieces x)) (map T.view items.now)) }
{
    for item in items {
        write_line(out, keyword, item)?;
    }
    Ok(())
}
