//! What stands beside the answer.

ghost use Rattle.std.specs.Prelude.{◌≡◌, ◌++◌, OnOk, codes};
ghost use Rattle.swift_report.specs.ReportJson.{comma};
ghost use Rattle.explorer_page.specs.Pages.{heading_json, more_json, run_json, runs_json};

use explorer_json::put_string;
use nuchapay_runs::report_with_values;
use run_page::say;
use std::alloc::{AllocError, Global};
use swift_report::Report;
use swift_script::Script;

/// What a page is headed with (our own).
#[derive(Clone, Copy)]
pub struct SearchHeading<'a> {
    /// What the script is called, as its path.
    pub name: &'a str,
    /// The text that spells the script.
    pub text: &'a [u8],
}

/// What was searched (our own).
#[derive(Clone, Copy)]
pub enum SearchedFile {
    /// A script.
    Script,
    /// The script that a Swift file becomes.
    Swift,
}

// What a page is headed with, up to where the runs begin.
fn put_heading(out: &mut Vec<u8>, heading: SearchHeading<'_>) -> Result<(), AllocError>
    ensures { OnOk result (out.new.items ≡ out.old.items ++ heading_json heading.entry) }
{
    say(out, b"{\"name\":")?;
    put_string(out, heading.name.as_bytes())?;
    say(out, b",\n\"source\":")?;
    put_string(out, heading.text)?;
    say(out, b",\n\"runs\":[")
}

// Appends a comma, unless the element at this place is the first of its list.
fn put_comma(out: &mut Vec<u8>, place: usize) -> Result<(), AllocError>
    ensures { OnOk result (out.new.items ≡ out.old.items ++ comma 0 place) }
{
    let text: &[u8] = if place == 0 { b"" } else { b"," };
    say(out, text)
}

// The run at a place, as `run --values` prints it.
fn put_run(
    alloc: Global,
    out: &mut Vec<u8>,
    script: &Script,
    place: usize,
    run: &Report,
) -> Result<(), AllocError>
    ensures { OnOk result (out.new.items ≡ out.old.items ++ run_json script.now place run.now) }
{
    let text = report_with_values(alloc, script, run)?;
    put_comma(out, place)?;
    say(out, b"\n")?;
    put_string(out, &text)
}

fn put_runs(
    alloc: Global,
    out: &mut Vec<u8>,
    script: &Script,
    runs: &[Report],
) -> Result<(), AllocError>
    ensures { OnOk result (out.new.items ≡ out.old.items ++ runs_json script.now 0 runs.now) }
{
    for place in 0..runs.len() {
        put_run(alloc, out, script, place, &runs[place])?;
    }
    Ok(())
}

/// Appends what stands beside the answer: what the page is headed with, and runs.
pub(crate) fn put_more(
    alloc: Global,
    out: &mut Vec<u8>,
    script: &Script,
    heading: SearchHeading<'_>,
    runs: &[Report],
) -> Result<(), AllocError>
    ensures { OnOk result (out.new.items ≡ out.old.items ++ more_json script.now heading.entry runs.now) }
{
    put_heading(out, heading)?;
    put_runs(alloc, out, script, runs)?;
    say(out, b"]}\n")
}
