//! A picture as a trace.

use crate::picture::boxes::TurnBox;
use crate::picture::fault::PictureFault;
use crate::picture::links::Link;
use crate::picture::picture_text::PictureText;
use crate::picture::placed::PlacedTurn;
use crate::picture::{Picture, word};
use std::alloc::Global;
use std::io::Write;
use swift_report::write_all;
use swift_script::Script;
use swift_types::limits::WORKERS;

// After how many bytes a piece of the text is written.
const PIECE: usize = 65_536;

// The number of an executor's process. None is 0, which stands for an idle processor.
fn process(executor: usize) -> usize {
    executor.saturating_add(1)
}

// The number of a worker's thread in an executor's process. No two threads have one number.
fn thread(turn: &TurnBox) -> usize {
    process(turn.executor)
        .saturating_mul(10)
        .saturating_add(turn.worker as usize)
}

// Begins an event of a kind.
fn begin_event(out: &mut PictureText, kind: &str, executor: usize) {
    let between: &[u8] = if out.bytes().ends_with(b"[") {
        b"\n"
    } else {
        b",\n"
    };
    out.say(between);
    out.fill_with("{\"ph\":\"@\",\"pid\":$", kind, &[process(executor)])
}

// Names an executor's process, and says how many of its turns were folded.
fn name_process(out: &mut PictureText, script: &Script, executor: usize, folded: usize) {
    begin_event(out, "M", executor);
    out.say(b",\"name\":\"process_name\",\"args\":{\"name\":\"");
    out.say(word::executor_name(script, executor));
    out.say(b"\"}}");
    if folded == 0 {
        return;
    }
    begin_event(out, "M", executor);
    out.fill(
        ",\"name\":\"process_labels\",\"args\":{\"labels\":\"folded $\"}}",
        &[folded],
    )
}

// Names the thread of a turn's worker in its executor's process.
fn name_thread(out: &mut PictureText, turn: &TurnBox) {
    begin_event(out, "M", turn.executor);
    out.fill(
        ",\"tid\":$,\"name\":\"thread_name\",\"args\":{\"name\":\"worker $\"}}",
        &[thread(turn), turn.worker as usize],
    )
}

// A truth value, as JSON has it.
fn truth(is_so: bool) -> &'static str {
    if is_so { "true" } else { "false" }
}

// What is known of a turn.
fn write_arguments(out: &mut PictureText, script: &Script, turn: &TurnBox, is_undone: bool) {
    let priority = turn.env.priority.number();
    out.fill_with(
        ",\"args\":{\"task\":\"t$\",\"number\":$,\"priority\":$,\"cancelled\":@,\"resume\":\"",
        truth(turn.env.cancelled),
        &[
            turn.task.0 as usize,
            turn.number as usize,
            priority as usize,
        ],
    );
    out.resume(turn.resume);
    out.say(b"\",\"exit\":\"");
    out.exit(script, turn.exit);
    out.fill_with("\",\"undone\":@}}", truth(is_undone), &[])
}

// A turn as a complete event.
fn write_turn(out: &mut PictureText, script: &Script, turn: &TurnBox, placed: &PlacedTurn) {
    let moment = &placed.moment;
    begin_event(out, "X", turn.executor);
    let lasts = moment.end.saturating_sub(moment.begin);
    out.fill(
        ",\"tid\":$,\"ts\":$,\"dur\":$,\"cat\":\"turn\",\"name\":\"",
        &[thread(turn), moment.begin, lasts],
    );
    out.turn(turn);
    out.say(b" ");
    out.method(script, turn.method);
    out.say(if placed.is_undone {
        b"\",\"cname\":\"terrible\""
    } else {
        b"\""
    });
    write_arguments(out, script, turn, placed.is_undone)
}

// One end of a flow event: the number of the flow is that of the box that it leads to.
fn write_flow_end(out: &mut PictureText, kind: &str, link: Link, number: usize, turn: &TurnBox) {
    begin_event(out, kind, turn.executor);
    out.fill_with(
        ",\"tid\":$,\"id\":$,\"cat\":\"job\",\"name\":\"@\",\"ts\":",
        link.word(),
        &[thread(turn), number],
    )
}

// The flow from a turn to the one whose job it made. It begins just before the end of the first.
fn write_flow(
    out: &mut PictureText,
    number: usize,
    maker: (&TurnBox, &PlacedTurn),
    turn: (&TurnBox, &PlacedTurn),
) {
    let link = Link::between(maker.0, turn.0);
    write_flow_end(out, "s", link, number, maker.0);
    out.fill("$.5}", &[maker.1.moment.end.saturating_sub(1)]);
    write_flow_end(out, "f", link, number, turn.0);
    out.fill("$,\"bp\":\"e\"}", &[turn.1.moment.begin])
}

// The flow to the turn of a box from the one that made its job, by their places.
fn write_flow_to(out: &mut PictureText, picture: &Picture, maker: usize, place: usize) {
    match (picture.at(maker), picture.at(place)) {
        (Some(maker), Some(turn)) => write_flow(out, place, maker, turn),
        _ => {}
    }
}

fn write_processes(piece: &mut PictureText, script: &Script, folded: &[usize]) {
    for (executor, count) in folded.iter().enumerate() {
        name_process(piece, script, executor, *count);
    }
}

// Writes a piece once it is long enough, if there was memory for it. A new one is begun then.
fn hand_on<W: Write>(out: &mut W, piece: &mut PictureText) -> Result<(), PictureFault> {
    piece.whole()?;
    if piece.bytes().len() >= PIECE {
        write_all(out, piece.bytes())?;
        piece.clear();
    }
    Ok(())
}

// The threads of workers, each once, and before its first turn.
fn write_turns<W: Write>(
    out: &mut W,
    piece: &mut PictureText,
    script: &Script,
    picture: &Picture,
) -> Result<(), PictureFault> {
    let mut executor = usize::MAX;
    let mut named = [false; WORKERS];
    for (turn, placed) in picture.boxes.iter().zip(&picture.placed) {
        if turn.executor != executor {
            executor = turn.executor;
            named = [false; WORKERS];
        }
        if let Some(is_named) = named.get_mut(turn.worker as usize) {
            if !*is_named {
                *is_named = true;
                name_thread(piece, turn);
            }
        }
        write_turn(piece, script, turn, placed);
        hand_on(out, piece)?;
    }
    Ok(())
}

fn write_flows<W: Write>(
    out: &mut W,
    piece: &mut PictureText,
    picture: &Picture,
) -> Result<(), PictureFault> {
    for (place, placed) in picture.placed.iter().enumerate() {
        if let Some(maker) = placed.maker {
            write_flow_to(piece, picture, maker, place);
            hand_on(out, piece)?;
        }
    }
    Ok(())
}

// All pieces. In a function of its own, so that none has to be let go where a write fails.
fn write_pieces<W: Write>(
    out: &mut W,
    piece: &mut PictureText,
    script: &Script,
    picture: &Picture,
) -> Result<(), PictureFault> {
    piece.say(b"{\"displayTimeUnit\":\"ms\",\"traceEvents\":[");
    write_processes(piece, script, &picture.folded);
    write_turns(out, piece, script, picture)?;
    write_flows(out, piece, picture)?;
    piece.say(b"\n]}\n");
    piece.whole()?;
    write_all(out, piece.bytes())?;
    Ok(())
}

/// Writes a picture as JSON in the Trace Event Format, which Perfetto and chrome://tracing read (the format is Google's; what is written
/// of a run is our own). An executor is a process, a worker a thread of it, a turn a complete event, and what made what a flow. The time
/// is the place in the log, in microseconds. All of it is ASCII, and no character needs an escape.
///
/// In time linear in the picture. The text is written in pieces of some 64 KiB, and no more of it is kept in memory. Nothing is flushed.
///
/// # Errors
///
/// `Memory` where there is no memory for a piece; `Device` at the first write that fails or takes no byte. What was written by then is a
/// prefix of the text.
pub fn write_trace<W: Write>(
    alloc: Global,
    script: &Script,
    picture: &Picture,
    out: &mut W,
) -> Result<(), PictureFault> {
    let mut piece = PictureText::after(Vec::with_capacity(alloc, 2 * PIECE)?);
    write_pieces(out, &mut piece, script, picture)
}
