//! The parts of a page that are the same for all runs, as the files in page/ have them.

// The turn that is chosen, and the tasks.
mod chosen;
// What stands round the style, the data and the script.
mod frame;
// The lanes.
mod lanes;
// The method of a turn.
mod method;
// What the reader does.
mod reader;
// The run.
mod run;
// The style.
mod style;
// What a turn did, in words.
mod words;

ghost use Rattle.std.specs.Prelude.{◌≡◌, ◌++◌, OnOk};
ghost use Rattle.run_page.specs.Pages.{back_text, front_text, script_text};

use crate::append::say_text;
use chosen::CHOSEN;
pub(crate) use frame::MIDDLE;
use frame::{BELOW, BODY, END, HEAD};
use lanes::LANES;
use method::METHOD;
use reader::READER;
use run::RUN;
use std::alloc::AllocError;
use style::STYLE;
use words::WORDS;

/// Appends what stands before the report.
pub(crate) fn front(out: &mut Vec<u8>) -> Result<(), AllocError>
    ensures { OnOk result (out.new.items ≡ out.old.items ++ front_text) }
{
    say_text(out, HEAD)?;
    say_text(out, STYLE)?;
    say_text(out, BODY)
}

// Appends the script.
fn script(out: &mut Vec<u8>) -> Result<(), AllocError>
    ensures { OnOk result (out.new.items ≡ out.old.items ++ script_text) }
{
    say_text(out, RUN)?;
    say_text(out, WORDS)?;
    say_text(out, METHOD)?;
    say_text(out, LANES)?;
    say_text(out, CHOSEN)?;
    say_text(out, READER)
}

/// Appends what stands after the data.
pub(crate) fn back(out: &mut Vec<u8>) -> Result<(), AllocError>
    ensures { OnOk result (out.new.items ≡ out.old.items ++ back_text) }
{
    say_text(out, BELOW)?;
    script(out)?;
    say_text(out, END)
}
