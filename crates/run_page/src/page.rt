//! The whole page.

ghost use Rattle.std.specs.Prelude.{◌≡◌, ◌++◌, IfOk, OnOk, false};
ghost use Rattle.swift_report.specs.ReportJson.{report_json as json_of};
ghost use Rattle.run_page.specs.Escapes.{escaped};
ghost use Rattle.run_page.specs.Pages.{IsPage, page_bytes};
ghost use Rattle.run_page.specs.RunJson.{AppendsTold, IsToldOfRun, more_json};

use crate::append::say_text;
use crate::markup::escape;
use crate::more::{Heading, more};
use crate::texts::{MIDDLE, back, front};
use std::alloc::{AllocError, Global};
use swift_report::{Report, report_json};
use swift_script::Script;

// The report, as `run --format json` prints it.
fn report_part(
    alloc: Global,
    out: &mut Vec<u8>,
    script: &Script,
    report: &Report,
) -> Result<(), AllocError>
    ensures { OnOk result (out.new.items ≡ out.old.items ++ escaped (json_of script.now report.now false)) }
{
    let json = report_json(alloc, script, report, false)?;
    escape(out, &json)
}

fn more_part(
    alloc: Global,
    out: &mut Vec<u8>,
    script: &Script,
    report: &Report,
    heading: Heading<'_>,
) -> Result<(), AllocError>
    ensures { OnOk result (AppendsTold (IsToldOfRun script.now report.now) (λ told. escaped (more_json script.now report.now heading.entry told)) out.old.items out.new.items) }
{
    let mut json = Vec::new(alloc);
    more(alloc, &mut json, script, report, heading)?;
    escape(out, &json)
}

fn parts(
    alloc: Global,
    out: &mut Vec<u8>,
    script: &Script,
    report: &Report,
    heading: Heading<'_>,
) -> Result<(), AllocError>
    ensures { OnOk result (AppendsTold (IsToldOfRun script.now report.now) (page_bytes script.now report.now heading.entry) out.old.items out.new.items) }
{
    front(out)?;
    report_part(alloc, out, script, report)?;
    say_text(out, MIDDLE)?;
    more_part(alloc, out, script, report, heading)?;
    back(out)
}

/// A run of a script as a page for a browser (the form is our own): the bytes of one file of HTML, which loads nothing. It shows the lanes
/// and turns of the run, and of a turn that is chosen what is known of it. In it stand the report as JSON, and beside it the log, what each
/// turn did to the fields, and what is said of each of the last 1,000 turns.
///
/// Each turn of the journals is played once more, and for each turn that is explained so are all of its executor's.
///
/// # Errors
///
/// `AllocError` where no memory is left for it.
pub fn page_text(
    alloc: Global,
    script: &Script,
    report: &Report,
    heading: Heading<'_>,
) -> Result<Vec<u8>, AllocError>
    ensures { IfOk result (λ text. IsPage script.now report.now heading.entry text.items) }
{
    let mut out = Vec::new(alloc);
    parts(alloc, &mut out, script, report, heading)?;
    Ok(out)
}
