//! The whole page.

ghost use Rattle.std.specs.Prelude.{◌≡◌, ◌++◌, IfOk, OnOk};
ghost use Rattle.std.specs.Arc.{arc_value};
ghost use Rattle.run_page.specs.Escapes.{escaped};
ghost use Rattle.explorer_page.specs.Pages.{IsPage, more_json, page_bytes, said_json};

use crate::more::{SearchHeading, SearchedFile, put_more};
use crate::runs::{PageError, runs_of, shown};
use crate::texts::{MIDDLE, back, front};
use expectations::Expectation;
use explorer_json::{answer_json, swift_answer_json};
use run_page::{escape, say_text};
use std::alloc::{AllocError, Global};
use std::sync::Arc;
use swift_explorer::FoundOutcomes;
use swift_report::Report;
use swift_script::Script;

// The answer, as `explore --format json` prints it.
fn said(
    alloc: Global,
    of: SearchedFile,
    text: &[u8],
    script: &Script,
    asked: &[Expectation],
    found: &FoundOutcomes,
) -> Result<Vec<u8>, AllocError>
    ensures { IfOk result (λ json. json.items ≡ said_json of text.now script.now asked.now found.now) }
{
    match of {
        SearchedFile::Script => answer_json(alloc, text, script, asked, found),
        SearchedFile::Swift => swift_answer_json(alloc, text, script, asked, found),
    }
}

fn answer_part(
    alloc: Global,
    out: &mut Vec<u8>,
    of: SearchedFile,
    text: &[u8],
    script: &Script,
    asked: &[Expectation],
    found: &FoundOutcomes,
) -> Result<(), AllocError>
    ensures { OnOk result (out.new.items ≡ out.old.items ++ escaped (said_json of text.now script.now asked.now found.now)) }
{
    let json = said(alloc, of, text, script, asked, found)?;
    escape(out, &json)
}

fn more_part(
    alloc: Global,
    out: &mut Vec<u8>,
    script: &Script,
    heading: SearchHeading<'_>,
    runs: &[Report],
) -> Result<(), AllocError>
    ensures { OnOk result (out.new.items ≡ out.old.items ++ escaped (more_json script.now heading.entry runs.now)) }
{
    let mut json = Vec::new(alloc);
    put_more(alloc, &mut json, script, heading, runs)?;
    escape(out, &json)
}

fn parts(
    alloc: Global,
    out: &mut Vec<u8>,
    heading: SearchHeading<'_>,
    of: SearchedFile,
    script: &Script,
    asked: &[Expectation],
    found: &FoundOutcomes,
    runs: &[Report],
) -> Result<(), AllocError>
    ensures { OnOk result (out.new.items ≡ out.old.items ++ page_bytes heading.entry of script.now asked.now found.now runs.now) }
{
    front(out)?;
    answer_part(alloc, out, of, heading.text, script, asked, found)?;
    say_text(out, MIDDLE)?;
    more_part(alloc, out, script, heading, runs)?;
    back(out)
}

/// What a search of the script that `heading.text` spells has found, as a page for a browser (the form is our own): the bytes of one file
/// of HTML, which loads nothing. It shows the outcomes, what is expected of them and which fail, in which order the turns of each run, from
/// where they part, and of the first 100 what each turn did. In it stand the answer as JSON, and beside it the script's text and the runs.
///
/// Of a Swift file it says, too, before which outcomes the process ends, and which are at a limit that Swift does not have.
///
/// The schedule of each outcome that is shown is followed once more, its report is followed by `legal`, and its turns are played once more.
///
/// # Errors
///
/// `PageError::Memory` where no memory is left for it; the others where a schedule of `found` is none of this script.
pub fn page_text(
    alloc: Global,
    heading: SearchHeading<'_>,
    of: SearchedFile,
    script: &Arc<Script>,
    asked: &[Expectation],
    found: &FoundOutcomes,
) -> Result<Vec<u8>, PageError>
    ensures { IfOk result (λ page. IsPage heading.entry of (arc_value script.now) asked.now found.now page.items) }
{
    let runs = runs_of(alloc, script, shown(&found.outcomes))?;
    let mut out = Vec::new(alloc);
    parts(alloc, &mut out, heading, of, script, asked, found, &runs)?;
    Ok(out)
}
