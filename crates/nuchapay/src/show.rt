//! A run as a picture.

ghost use Rattle.std.specs.Prelude.{IfOk};
ghost use Rattle.nuchapay.specs.Runs.{HasEndedWell, IsOfRun};

use crate::values::{all_ended_well, run_text};
use nuchapay_runs::broken_invariants;
use nuchapay_tool::PictureFormat;
use run_page::{Heading, page_text};
use run_pictures::TurnValues;
use run_pictures::picture::{
    Picture, PictureFault, PlayedTurns, picture_of, played_turns, svg_text, write_trace,
};
use std::alloc::{AllocError, AllocGlobal, Global};
use std::io::Write;
use std::random::RandomSource;
use std::sync::{Arc, Wait};
use std::thread::Threads;
use swift_report::{Report, write_all};
use swift_script::Script;
use swift_tool::ToolFault;
use swift_types::ExecId;

/// Runs a script, and writes the run as a picture in this format. `name` is the script's path. Whether each task ended with a value.
pub fn show_run<R, W>(
    rt: &R,
    text: &[u8],
    name: &str,
    workers: u32,
    format: PictureFormat,
    out: &mut W,
) -> Result<bool, ToolFault>
where
    R: RandomSource + AllocGlobal + Threads + Wait + Sync,
    W: Write,
    ensures { IfOk result (λ well. IsOfRun text.now (HasEndedWell well)) }
{
    let (script, report) = run_text(rt, text, workers)?;
    let heading = Heading {
        name,
        workers,
        source: text,
    };
    show_report(rt.alloc(), &script, &report, heading, format, out)?;
    Ok(all_ended_well(&report.endings))
}

// The invariants that the turns of each executor would have left false.
fn all_broken(
    alloc: Global,
    script: &Script,
    values: &[Vec<TurnValues>],
) -> Result<Vec<Vec<Vec<u8>>>, AllocError> {
    let mut all = Vec::with_capacity(alloc, values.len())?;
    for place in 0..values.len() {
        let Ok(executor) = u32::try_from(place) else {
            return Err(AllocError);
        };
        all.push(broken_invariants(alloc, script, ExecId(executor), &values[place])?)?;
    }
    Ok(all)
}

// A run as SVG.
fn drawn(
    alloc: Global,
    script: &Script,
    report: &Report,
    picture: &Picture,
    heading: Heading<'_>,
) -> Result<Vec<u8>, AllocError> {
    let values = played_turns(alloc, script, report)?;
    let broken = all_broken(alloc, script, &values)?;
    let played = PlayedTurns {
        values: &values,
        broken: &broken,
    };
    svg_text(
        alloc,
        script,
        report,
        picture,
        played,
        heading.name,
        heading.workers,
    )
}

/// Writes the run of a report as a picture in this format, under this heading.
pub fn show_report<W: Write>(
    alloc: Global,
    script: &Arc<Script>,
    report: &Report,
    heading: Heading<'_>,
    format: PictureFormat,
    out: &mut W,
) -> Result<(), ToolFault> {
    let picture = picture_of(alloc, report)?;
    match format {
        PictureFormat::Svg => {
            let text = drawn(alloc, script, report, &picture, heading)?;
            write_all(out, &text)?;
        }
        PictureFormat::Html => {
            let page = page_text(alloc, script, report, heading)?;
            write_all(out, &page)?;
        }
        PictureFormat::Trace => traced(write_trace(alloc, script, &picture, out))?,
    }
    Ok(())
}

// What came of writing a trace, as the fault of a tool.
fn traced(written: Result<(), PictureFault>) -> Result<(), ToolFault> {
    match written {
        Ok(()) => Ok(()),
        Err(PictureFault::Memory) => Err(ToolFault::from(AllocError)),
        Err(PictureFault::Device) => Err(ToolFault::Device),
    }
}
