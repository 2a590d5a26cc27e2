//! The box of a turn, with what stands in it and below it.

ghost use Rattle.std.specs.Prelude.{◌≡◌, ◌/◌, List};
ghost use Rattle.swift_events.specs.declared.life.Origin.{Origin};
ghost use Rattle.swift_script.specs.Scripts.{ScriptView};
ghost use Rattle.swift_types.specs.declared.outcome.Ending.{Ending};
ghost use Rattle.task_names.specs.Names.{task_name};
ghost use Rattle.run_pictures.specs.Drawn.{IsBox, box_text, class_text, does_text, outline_text, place_text, title_text, who_text};
ghost use Rattle.run_pictures.specs.SaysInside.{AreNames, Says, SaysSome, box_top};

use crate::TurnValues;
use crate::picture::below::{write_below, write_beside};
use crate::picture::boxes::TurnBox;
use crate::picture::layout::{COLUMNS, LEFT, Layout, MARGIN, TALL, WIDE, colour, left_of};
use crate::picture::picture_text::PictureText;
use crate::picture::placed::PlacedTurn;
use crate::picture::text::{begin_text, end_text, write_text};
use crate::picture::{Picture, word};
use swift_journal::BriefExit;
use swift_log::EventLog;
use swift_script::Script;
use swift_types::ActorId;

// How many characters of a font of 11 pixels find room in a line of a box.
const IN_BOX: usize = 17;

// How wide such a character is, in hundredths of a pixel.
const CHARACTER: usize = 662;

// How many characters of a name are shown at least.
const LEAST_NAME: usize = 4;

// Which turn it is, what its task is called, and its worker.
fn write_who(out: &mut PictureText, view: View<'_>, turn: &TurnBox)
    ensures { (es : List (Origin × Ending)) → AreNames view.entry.script.now es view.entry.names.now → Says out.old out.new (who_text view.entry.script.now es turn.now) }
{
    out.turn(turn);
    out.say(b" (");
    out.say(view.name(turn.task.0 as usize));
    out.say(b") w");
    out.number(turn.worker)
}

// Its method, what it was given and began with, and how it ended.
fn write_does(out: &mut PictureText, script: &Script, turn: &TurnBox)
    ensures { Says out.old out.new (does_text script.now turn.now) }
{
    out.method(script, turn.method);
    out.say(b" ");
    out.env(turn);
    out.say(b" ");
    out.resume(turn.resume);
    out.say(b" -> ");
    out.exit(script, turn.exit)
}

// The line of a turn.
fn write_title(out: &mut PictureText, view: View<'_>, turn: &TurnBox)
    ensures { (es : List (Origin × Ending)) → AreNames view.entry.script.now es view.entry.names.now → Says out.old out.new (title_text view.entry.script.now es turn.now) }
{
    write_who(out, view, turn);
    out.say(b" ");
    write_does(out, view.script, turn)
}

// What the title says after that: whether the turn was undone, and what it did.
fn write_more(out: &mut PictureText, is_undone: bool, lines: &[u8]) {
    if is_undone {
        out.say(b" (undone)");
    }
    write_beside(out, lines)
}

// The class of an outline.
fn write_class(out: &mut PictureText, turn: &TurnBox, is_undone: bool)
    ensures { Says out.old out.new (class_text turn.now is_undone) }
{
    if is_undone {
        out.say(b"x")
    } else {
        out.say(b"c");
        out.number(colour(turn.task))
    }
}

// Where an outline stands.
fn write_place(out: &mut PictureText, left: usize, top: usize, width: usize)
    ensures { Says out.old out.new (place_text left top width) }
{
    out.say(b"\" x=\"");
    out.number(left);
    out.say(b"\" y=\"");
    out.number(top);
    out.say(b"\" width=\"");
    out.number(width)
}

// The outline of a box.
fn write_outline(
    out: &mut PictureText,
    turn: &TurnBox,
    is_undone: bool,
    at: (usize, usize),
    width: usize,
)
    ensures { Says out.old out.new (outline_text turn.now is_undone at.0 at.1 width) }
{
    out.say(b"<rect class=\"");
    write_class(out, turn, is_undone);
    write_place(out, at.0, at.1, width);
    out.say(b"\" height=\"");
    out.number(TALL);
    out.say(b"\" rx=\"6\"/>\n")
}

// The cross over the box of a turn that was undone.
fn write_cross(out: &mut PictureText, is_undone: bool, at: (usize, usize), width: usize) {
    if !is_undone {
        return;
    }
    let left = at.0.saturating_add(4);
    let right = at.0.saturating_add(width).saturating_sub(4);
    let top = at.1.saturating_add(4);
    let bottom = at.1.saturating_add(TALL - 4);
    out.fill(
        "<path class=\"y\" d=\"M$,$L$,$M$,$L$,$\"/>\n",
        &[left, top, right, bottom, right, top, left, bottom],
    )
}

// Whether an executor has an actor's name, as one that is the actor's own.
fn is_named_after(script: &Script, executor: usize, actor: ActorId) -> bool {
    word::executor_name(script, executor) == script.actor_name(actor)
}

// The method of a turn, without its actor where the lane has the actor's name.
fn short_method(out: &mut PictureText, script: &Script, turn: &TurnBox) {
    if (turn.method.0 as usize) < script.method_count() {
        let actor = script.method_actor(turn.method);
        if is_named_after(script, turn.executor, actor) {
            return out.say(script.method_name(turn.method));
        }
    }
    out.method(script, turn.method)
}

// How a turn ended; of a call the method alone, since a line leads to its actor.
fn short_exit(out: &mut PictureText, script: &Script, exit: BriefExit) {
    if let BriefExit::Call(_, called) = exit {
        if (called.0 as usize) < script.method_count() {
            out.say(b"call ");
            return out.say(script.method_name(called));
        }
    }
    out.exit(script, exit)
}

// The first line in a box: the turn, and what it was given, where its task's priority was raised since the turn before with a mark.
fn write_first_line(
    out: &mut PictureText,
    turn: &TurnBox,
    was_raised: bool,
    is_undone: bool,
    at: (usize, usize),
) {
    let y = at.1.saturating_add(17);
    begin_text(
        out,
        if is_undone { "b u" } else { "b" },
        at.0.saturating_add(8),
        y,
    );
    out.turn(turn);
    end_text(out);
    let class = if was_raised { "b e" } else { "g e" };
    begin_text(out, class, at.0.saturating_add(WIDE - 8), y);
    if was_raised {
        out.say("\u{25b2}".as_bytes());
    }
    out.env(turn);
    end_text(out)
}

// How many characters what a turn was given takes in a box.
fn env_length(turn: &TurnBox, was_raised: bool) -> usize {
    let raised = if was_raised { 1 } else { 0 };
    let given: usize = if turn.env.cancelled { 5 } else { 2 };
    given.saturating_add(raised)
}

// In the first line of a box, what the task is called, as far as there is room for it.
fn write_name_in(
    out: &mut PictureText,
    view: View<'_>,
    turn: &TurnBox,
    was_raised: bool,
    is_undone: bool,
    at: (usize, usize),
    scratch: &mut PictureText,
) {
    scratch.clear();
    scratch.turn(turn);
    let before = scratch.bytes().len().saturating_add(1);
    let taken = before
        .saturating_add(env_length(turn, was_raised))
        .saturating_add(1);
    let room = IN_BOX.saturating_sub(taken);
    if room < LEAST_NAME {
        return;
    }
    let x = (before.saturating_mul(CHARACTER) / 100)
        .saturating_add(8)
        .saturating_add(at.0);
    let class = if is_undone { "u" } else { "v" };
    let place = (x, at.1.saturating_add(17));
    write_text(out, class, place, view.name(turn.task.0 as usize), room)
}

// The other lines in a box: the method, what the turn began with, and how it ended.
fn write_other_lines(
    out: &mut PictureText,
    script: &Script,
    turn: &TurnBox,
    is_undone: bool,
    at: (usize, usize),
    scratch: &mut PictureText,
) {
    let x = at.0.saturating_add(8);
    scratch.clear();
    short_method(scratch, script, turn);
    write_text(
        out,
        "v",
        (x, at.1.saturating_add(32)),
        scratch.bytes(),
        IN_BOX,
    );
    scratch.clear();
    scratch.resume(turn.resume);
    write_text(
        out,
        "g",
        (x, at.1.saturating_add(47)),
        scratch.bytes(),
        IN_BOX,
    );
    scratch.clear();
    short_exit(scratch, script, turn.exit);
    let class = if is_undone { "u" } else { "v" };
    begin_text(out, class, x, at.1.saturating_add(62));
    out.say("\u{2192} ".as_bytes());
    out.fitting(scratch.bytes(), IN_BOX - 2);
    end_text(out)
}

// Whether a task's priority was raised between its turn before and this one.
fn was_raised(picture: &Picture, turn: &TurnBox, placed: &PlacedTurn) -> bool {
    let Some(place) = placed.before else {
        return false;
    };
    match picture.boxes.get(place) {
        Some(before) => before.env.priority.number() < turn.env.priority.number(),
        None => false,
    }
}

/// What boxes are drawn of.
#[derive(Clone, Copy)]
pub(crate) struct View<'a> {
    pub script: &'a Script,
    pub log: &'a EventLog,
    pub picture: &'a Picture,
    pub layout: &'a Layout,
    /// What each task is called.
    pub names: &'a [Vec<u8>],
    /// What the turns of each executor did to its fields.
    pub values: &'a [Vec<TurnValues>],
    /// The invariant that each of them would have left false, in words.
    pub broken: &'a [Vec<Vec<u8>>],
}

impl<'a> View<'a> {
    /// What a task is called.
    pub fn name(&self, task: usize) -> &'a [u8]
        ensures { (script : ScriptView) (es : List (Origin × Ending)) → AreNames script es self.now.names.now → result.now ≡ task_name script es task }
    {
        match self.names.get(task) {
            Some(name) => name,
            None => &[],
        }
    }

    /// The invariant that the turn at a place of an executor's journal would have left false; nothing where it is none.
    pub fn broken_at(&self, executor: usize, place: usize) -> &'a [u8] {
        let Some(turns) = self.broken.get(executor) else {
            return &[];
        };
        match turns.get(place) {
            Some(invariant) => invariant,
            None => &[],
        }
    }
}

// What of a box reaches into further rows: its outline, with the turn's name.
fn write_rest(out: &mut PictureText, view: View<'_>, turn: &TurnBox, placed: &PlacedTurn) {
    let layout = view.layout;
    let last = layout.last_row(placed);
    for row in layout.row(placed).saturating_add(1)..last.saturating_add(1) {
        let left = LEFT - 8;
        let right = if row == last {
            layout.right(placed)
        } else {
            layout.width.saturating_sub(MARGIN)
        };
        let at = (left, layout.box_top(row, turn.executor));
        let width = right.saturating_sub(left);
        write_outline(out, turn, placed.is_undone, at, width);
        write_cross(out, placed.is_undone, at, width);
        begin_text(out, "g", LEFT, at.1.saturating_add(17));
        out.turn(turn);
        out.say(b" goes on");
        end_text(out);
    }
}

/// What is written on, again and again: the lines below a box, a line in it, and all that comes after its outline.
#[derive(Drop)]
pub(crate) struct Scratch {
    pub below: PictureText,
    pub line: PictureText,
    pub rest: PictureText,
}

// What stands in a box after its outline, and below it.
fn write_inside(
    out: &mut PictureText,
    view: View<'_>,
    turn: &TurnBox,
    placed: &PlacedTurn,
    at: (usize, usize),
    lines: &[u8],
    line: &mut PictureText,
) {
    let is_undone = placed.is_undone;
    let raised = was_raised(view.picture, turn, placed);
    write_first_line(out, turn, raised, is_undone, at);
    write_name_in(out, view, turn, raised, is_undone, at, line);
    write_other_lines(out, view.script, turn, is_undone, at, line);
    write_rest(out, view, turn, placed);
    out.say(b"</g>\n");
    let class = if is_undone { "u m" } else { "g m" };
    write_below(out, lines, class, at.0, at.1.saturating_add(TALL))
}

// The box of a turn at a place, so wide. After its title says so much more; after its outline stands the rest.
fn write_parts(
    out: &mut PictureText,
    view: View<'_>,
    turn: &TurnBox,
    is_undone: bool,
    more: &[u8],
    at: (usize, usize),
    width: usize,
    rest: &[u8],
)
    ensures { (es : List (Origin × Ending)) → AreNames view.entry.script.now es view.entry.names.now → Says out.old out.new (box_text view.entry.script.now es turn.now is_undone more.now at.0 at.1 width rest.now) }
{
    out.say(b"<g><title>");
    write_title(out, view, turn);
    out.say(more);
    out.say(b"</title>\n");
    write_outline(out, turn, is_undone, at, width);
    out.say(rest)
}

/// The box of a turn whose cell has this place, with the lines that are in `scratch` below it.
pub(crate) fn write_card(
    out: &mut PictureText,
    view: View<'_>,
    turn: &TurnBox,
    placed: &PlacedTurn,
    slot: usize,
    scratch: &mut Scratch,
)
    ensures { (es : List (Origin × Ending)) → AreNames view.entry.script.now es view.entry.names.now → SaysSome (IsBox view.entry.script.now es (box_top view.entry.layout.now) turn.now placed.now.is_undone slot) out.old out.new }
{
    let at = (
        left_of(slot),
        view.layout.box_top(slot / COLUMNS, turn.executor),
    );
    let width = view.layout.first_right(placed).saturating_sub(at.0);
    let lines = scratch.below.bytes();
    scratch.rest.clear();
    write_cross(&mut scratch.rest, placed.is_undone, at, width);
    write_inside(
        &mut scratch.rest,
        view,
        turn,
        placed,
        at,
        lines,
        &mut scratch.line,
    );
    scratch.line.clear();
    write_more(&mut scratch.line, placed.is_undone, lines);
    let more = scratch.line.bytes();
    write_parts(
        out,
        view,
        turn,
        placed.is_undone,
        more,
        at,
        width,
        scratch.rest.bytes(),
    )
}
