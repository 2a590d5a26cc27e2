//! Whether a whole report is legal.

ghost use Rattle.std.specs.Prelude.{◌≡◌, IfOk, IsTrue};
ghost use Rattle.std.specs.Arc.{arc_value};
ghost use Rattle.swift_history.specs.Histories.{IsLegal};
ghost use Rattle.swift_certificate.specs.Reports.{report_view};
ghost use Rattle.swift_certificate.specs.ReplayInside.{IsReplay};

use crate::replay::Replay;
use std::alloc::{AllocError, Global};
use std::sync::Arc;
use swift_report::Report;
use swift_script::Script;

/// Whether a report is a legal one of a script: some history of blocks, each of which may stand after those before it, wrote
/// its log, left its journals and checkpoints and leads to its fields, and its tasks have ended as it says (our own; SE-0304,
/// SE-0306, SE-0311 and SE-0392 for what may follow what). It is true only of legal reports; that it is true of each legal
/// report is not promised.
///
/// The report is followed along its log by a second book, and each turn that is not folded is played again. It takes time and
/// memory linear in the log, the journals and the endings, and what the turns themselves cost. An `Err` says that a growth was
/// refused.
pub fn legal(alloc: Global, script: &Arc<Script>, report: &Report) -> Result<bool, AllocError>
    ensures { IfOk result (λ yes. IsTrue yes → IsLegal (arc_value script.now) (report_view report.now)) }
{
    let mut replay = Replay::new(alloc, script, report)?;
    let answer = follow(&mut replay, report);
    replay.close();
    answer
}

// Follows a report along its log to its end.
fn follow(replay: &mut Replay, report: &Report) -> Result<bool, AllocError>
    requires { IsReplay (report_view report.now) replay.old }
    ensures { IfOk result (λ yes. IsTrue yes → IsLegal (arc_value replay.old.history.script) (report_view report.now)) }
{
    for place in 0..report.log.len() {
        // The book has written the rest of a block by itself.
        if place >= replay.history.book.log().len()
            && !replay.step(report, report.log.event(place))?
        {
            return Ok(false);
        }
    }
    replay.agrees(report)
}
