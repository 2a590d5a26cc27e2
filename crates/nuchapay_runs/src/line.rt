//! The lines of a report, one by one.

ghost use Rattle.std.specs.Prelude.{◌≡◌};
ghost use Rattle.swift_report.specs.Text.{env_text, flag_text, folded_text, heading_text, kind_text, resume_and_exit_text, run_text, turn_text};
ghost use Rattle.nuchapay_runs.specs.LinesInside.{line_in};
ghost use Rattle.nuchapay_runs.specs.SaysInside.{Says};

use crate::text::Text;
use run_pictures::picture::TurnBox;
use swift_script::Script;
use swift_types::{Env, ExecId, ExecutorKind};

// The turn's place, its task, its number there and its worker.
fn write_run(out: &mut Text, place: usize, turn: &TurnBox)
    ensures { Says out.old out.new (run_text place (line_in turn.now)) }
{
    out.number(place);
    out.say(b" t");
    out.number(turn.task.0);
    out.say(b".");
    out.number(turn.number);
    out.say(b" w");
    out.number(turn.worker)
}

fn flag(set: bool) -> &'static [u8]
    ensures { result.now ≡ flag_text set }
{
    if set { b"1" } else { b"0" }
}

// What a turn was given.
fn write_env(out: &mut Text, env: &Env)
    ensures { Says out.old out.new (env_text env.now) }
{
    out.say(b" p");
    out.number(env.priority.number());
    out.say(b" c");
    out.say(flag(env.cancelled))
}

// How a turn began and how it ended.
fn write_ends(out: &mut Text, script: &Script, turn: &TurnBox)
    ensures { Says out.old out.new (resume_and_exit_text script.now (line_in turn.now)) }
{
    out.resume(turn.resume);
    out.say(b" -> ");
    out.exit(script, turn.exit)
}

/// Goes on with the line of a turn, which stands at this place of its executor's turns.
pub(crate) fn write_turn(out: &mut Text, script: &Script, place: usize, turn: &TurnBox)
    ensures { Says out.old out.new (turn_text script.now place (line_in turn.now)) }
{
    write_run(out, place, turn);
    out.say(b" ");
    out.method(script, turn.method);
    write_env(out, &turn.env);
    out.say(b" ");
    write_ends(out, script, turn);
    out.say(b"\n")
}

fn write_kind(out: &mut Text, kind: ExecutorKind)
    ensures { Says out.old out.new (kind_text kind) }
{
    match kind {
        ExecutorKind::Priority => out.say(b"priority"),
        ExecutorKind::Fifo => out.say(b"fifo"),
        ExecutorKind::Pinned(worker) => {
            out.say(b"pinned ");
            out.number(worker)
        }
    }
}

/// Goes on with the line of an executor that has so many turns.
pub(crate) fn write_heading(out: &mut Text, script: &Script, executor: ExecId, turns: usize)
    ensures { Says out.old out.new (heading_text script.now executor.0 turns) }
{
    out.say(b"executor ");
    out.say(script.executor_name(executor));
    out.say(b" ");
    write_kind(out, script.executor_kind(executor));
    out.say(b" turns ");
    out.number(turns);
    out.say(b"\n")
}

/// Goes on with the line that says how many turns were folded, where some were.
pub(crate) fn write_folded(out: &mut Text, folded: usize)
    ensures { Says out.old out.new (folded_text folded) }
{
    if folded > 0 {
        out.say(b"folded ");
        out.number(folded);
        out.say(b"\n")
    }
}
