//! The parts of a page that are the same for all searches, as the files in page/ have them.

// What was found.
mod found;
// What stands round the style, the data and the script.
mod frame;
// In which order turns run.
mod orders;
// What the reader does.
mod reader;
// The style.
mod style;
// The table of outcomes.
mod table;
// What the turns of an outcome did.
mod turns;

ghost use Rattle.std.specs.Prelude.{◌≡◌, ◌++◌, OnOk};
ghost use Rattle.explorer_page.specs.Pages.{back_text, front_text, script_text};

use found::FOUND;
pub(crate) use frame::MIDDLE;
use frame::{BELOW, BODY, END, HEAD};
use orders::ORDERS;
use reader::READER;
use run_page::say_text;
use std::alloc::AllocError;
use style::STYLE;
use table::TABLE;
use turns::TURNS;

/// Appends what stands before the answer.
pub(crate) fn front(out: &mut Vec<u8>) -> Result<(), AllocError>
    ensures { OnOk result (out.new.items ≡ out.old.items ++ front_text) }
{
    say_text(out, HEAD)?;
    say_text(out, STYLE)?;
    say_text(out, BODY)
}

// Appends the script.
fn script(out: &mut Vec<u8>) -> Result<(), AllocError>
    ensures { OnOk result (out.new.items ≡ out.old.items ++ script_text) }
{
    say_text(out, FOUND)?;
    say_text(out, TABLE)?;
    say_text(out, ORDERS)?;
    say_text(out, TURNS)?;
    say_text(out, READER)
}

/// Appends what stands after the data.
pub(crate) fn back(out: &mut Vec<u8>) -> Result<(), AllocError>
    ensures { OnOk result (out.new.items ≡ out.old.items ++ back_text) }
{
    say_text(out, BELOW)?;
    script(out)?;
    say_text(out, END)
}
