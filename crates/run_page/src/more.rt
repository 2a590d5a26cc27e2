//! What stands beside the report.

ghost use Rattle.std.specs.Prelude.{◌≡◌, ◌++◌, OnOk, codes, decimal};
ghost use Rattle.run_page.specs.RunJson.{AppendsTold, IsToldOfRun, heading_json, more_json, run_json};

use crate::append::{labelled, say};
use crate::explanations::{EXPLAINED, explanations};
use crate::log::events;
use crate::quote::labelled_text;
use crate::values::all_values;
use std::alloc::{AllocError, Global};
use swift_report::Report;
use swift_script::Script;

/// What a page is headed with (our own).
#[derive(Clone, Copy)]
pub struct Heading<'a> {
    /// What the run is called, as the script's path.
    pub name: &'a str,
    /// On how many threads it ran.
    pub workers: u32,
    /// The text that spells the script.
    pub source: &'a [u8],
}

// What a page is headed with.
fn put_heading(out: &mut Vec<u8>, heading: Heading<'_>) -> Result<(), AllocError>
    ensures { OnOk result (out.new.items ≡ out.old.items ++ heading_json heading.entry) }
{
    labelled_text(out, b"{\"name\":\"", heading.name.as_bytes())?;
    labelled(out, b"\",\"workers\":", heading.workers)?;
    labelled_text(out, b",\n\"source\":\"", heading.source)
}

// The log, and what turns did.
fn run(alloc: Global, out: &mut Vec<u8>, script: &Script, report: &Report) -> Result<(), AllocError>
    ensures { OnOk result (out.new.items ≡ out.old.items ++ run_json script.now report.now) }
{
    say(out, b"\",\n\"log\":[\n")?;
    events(out, &report.log)?;
    say(out, b"],\n\"values\":[\n")?;
    all_values(alloc, out, script, report)?;
    labelled(out, b"],\n\"why\":[", EXPLAINED)
}

/// Appends what stands beside the report: what the page is headed with, the log, what each turn did to the fields, and what is said of it.
pub(crate) fn more(
    alloc: Global,
    out: &mut Vec<u8>,
    script: &Script,
    report: &Report,
    head: Heading<'_>,
) -> Result<(), AllocError>
    ensures { OnOk result (AppendsTold (IsToldOfRun script.now report.now) (more_json script.now report.now head.entry) out.old.items out.new.items) }
{
    put_heading(out, head)?;
    run(alloc, out, script, report)?;
    explanations(alloc, out, script, report)?;
    say(out, b"]}\n")
}
