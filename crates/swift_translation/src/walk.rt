//! The instructions of a body, one after another.

ghost use Rattle.std.specs.Prelude.{◌≡◌, IsFalse};
ghost use Rattle.swift_translation.specs.Bodies.{body_text, context_of, is_closure, last_of, left, run_text, turn_frame, turn_progress, turn_text, unit_body};
ghost use Rattle.swift_translation.specs.MethodTexts.{end_text};
ghost use Rattle.swift_translation.specs.WritingInside.{GoesOn, progress_of};

use crate::body::Body;
use crate::frame::{Frame, begin, first_frame, write_end};
use crate::source::Source;
use crate::step::step;
use crate::writer::Writer;
use swift_expressions::{Unit, UnitKind};
use swift_syntax::Rule;
use swift_types::limits::BYTES;

/// The most instructions that a method may have with all that is put into it.
pub const MOST: u32 = 100_000;

// Ends the method that is written. The one that it is put into, if there is one.
fn end(out: &mut Writer, body: &mut Body<'_>, frame: Frame) -> Option<Frame>
    ensures text { GoesOn out.old out.new (end_text (context_of body.old.source (progress_of body.old) frame.serial) frame) }
    ensures source { body.new.source ≡ body.old.source }
    ensures progress { progress_of body.new ≡ left (progress_of body.old) }
    ensures next { result ≡ last_of (progress_of body.old).callers }
{
    let at = body.context(frame.serial);
    write_end(out, &at, frame);
    body.leave()
}

// An instruction, or the end of a method. The method that is written next, if the body goes on.
fn turn(out: &mut Writer, body: &mut Body<'_>, frame: Frame) -> Option<Frame>
    ensures text { GoesOn out.old out.new (turn_text body.old.source (progress_of body.old) frame) }
    ensures source { body.new.source ≡ body.old.source }
    ensures progress { IsFalse out.new.is_partial → progress_of body.new ≡ turn_progress body.old.source (progress_of body.old) frame }
    ensures next { IsFalse out.new.is_partial → result ≡ turn_frame body.old.source (progress_of body.old) frame }
{
    if frame.at >= frame.to {
        end(out, body, frame)
    } else {
        let instruction = body.source.instruction_at(frame.at);
        Some(step(out, body, frame, instruction))
    }
}

// Whether no more is to be written: a rule is broken, or the text is longer than a script may be.
fn is_enough(out: &Writer) -> bool {
    out.refused.is_some() || out.text.len() > BYTES
}

// The turns of a body from a method on.
fn run(out: &mut Writer, body: &mut Body<'_>, first: Frame, most: u32)
    ensures { GoesOn out.old out.new (run_text body.old.source (progress_of body.old) first most) }
{
    let mut next = Some(first);
    for _ in 0..most {
        let Some(frame) = next else {
            return;
        };
        if is_enough(out) {
            break;
        }
        next = turn(out, body, frame);
    }
    out.refuse(Rule::TooLarge, 0)
}

// The statements of a unit that was looked for.
#[tactic(auto, unfolding(crate::specs::Bodies::unit_body))]
fn write_unit_body(out: &mut Writer, source: &Source<'_>, unit: usize, found: Unit)
    ensures { GoesOn out.old out.new (unit_body source.now unit found) }
{
    let mut body = Body::new(*source);
    let first = first_frame(unit, found);
    let at = body.context(0);
    begin(out, &at, first.result, first.needs_done);
    run(out, &mut body, first, MOST)
}

/// Whether a unit is a closure.
pub(crate) fn is_closure(kind: UnitKind) -> bool
    ensures { result ≡ is_closure kind }
{
    matches!(kind, UnitKind::Closure)
}

/// The statements of a unit, with the methods that are put into it.
#[tactic(auto, unfolding(crate::specs::Bodies::body_text))]
pub(crate) fn write_body(out: &mut Writer, source: &Source<'_>, unit: usize)
    ensures { GoesOn out.old out.new (body_text source.now unit) }
{
    if let Some(found) = source.unit_at(unit) {
        let own = source.of_closure(is_closure(found.kind));
        write_unit_body(out, &own, unit, found)
    }
}
