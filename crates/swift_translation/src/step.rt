//! Instructions as statements, and the blocks that they open and close.

ghost use Rattle.std.specs.Prelude.{◌≡◌, IsFalse, true};
ghost use Rattle.swift_translation.specs.BlockTexts.{bind_head, bind_text, group_text, guarded_text, head_text, looped_text, rest_text, setting_text, task_text, test_text, while_text};
ghost use Rattle.swift_translation.specs.Bodies.{block_progress, block_text, brace_text, callee_of, close_text, context_of, entered, frame_by, kind_of, next_frame, opened, or_next, plain_text, popped, progress_by, put_in_progress, put_in_text, put_text, step_frame, step_progress, step_text, text_by, turn_over_text};
ghost use Rattle.swift_translation.specs.WritingInside.{GoesOn, progress_of};

use crate::body::Body;
use crate::frame::{Frame, begin, callee_frame, moved, write_params};
use crate::line::later;
use crate::naming::{write_made_between, write_variable};
use crate::source::Context;
use crate::statement::{
    add, give_back, make, write_field_set, write_print, write_require, write_set, write_throw,
    write_word,
};
use crate::value::{write_local, write_value};
use crate::wait::{begin_line, wait};
use crate::writer::Writer;
use swift_expressions::{Instruction, Target};
use swift_syntax::Rule;

// The end of a block, where it is written.
fn write_brace(out: &mut Writer, at: &Context<'_>, last: Option<bool>)
    ensures { GoesOn out.old out.new (brace_text at.now last) }
{
    if let Some(true) = last {
        begin_line(out, at, "}")
    }
}

// Closes the innermost block.
#[tactic(auto, unfolding(crate::specs::Bodies::close_text))]
fn close(out: &mut Writer, body: &mut Body<'_>)
    ensures text { GoesOn out.old out.new (close_text body.old.source (progress_of body.old)) }
    ensures source { body.new.source ≡ body.old.source }
    ensures progress { progress_of body.new ≡ popped (progress_of body.old) }
{
    let last = body.pop();
    let at = body.context(0);
    write_brace(out, &at, last)
}

// `else` between two blocks.
#[tactic(auto, unfolding(crate::specs::Bodies::turn_over_text))]
fn turn_over(out: &mut Writer, body: &mut Body<'_>)
    ensures text { GoesOn out.old out.new (turn_over_text body.old.source (progress_of body.old)) }
    ensures source { body.new.source ≡ body.old.source }
    ensures progress { IsFalse out.new.is_partial → progress_of body.new ≡ opened true (popped (progress_of body.old)) }
{
    body.pop();
    let at = body.context(0);
    begin_line(out, &at, "} else {");
    body.open(out, true)
}

// A word, a value, and a brace.
#[tactic(auto, unfolding(crate::specs::BlockTexts::test_text))]
fn write_test(out: &mut Writer, at: &Context<'_>, word: &str, value: usize)
    ensures { GoesOn out.old out.new (test_text at.now word.now value) }
{
    begin_line(out, at, word);
    write_value(out, at, value);
    out.say(" {")
}

// A value that is tested where the method has not returned.
#[tactic(auto, unfolding(crate::specs::BlockTexts::guarded_text))]
fn write_guarded(out: &mut Writer, at: &Context<'_>, value: usize)
    ensures { GoesOn out.old out.new (guarded_text at.now value) }
{
    write_made_between(out, at, "(!", "done", " && ");
    write_value(out, at, value);
    out.say(")")
}

// What is tested before each turn of a loop: also that the method has not returned, where something notes that.
fn write_looped(out: &mut Writer, at: &Context<'_>, needs_done: bool, value: usize)
    ensures { GoesOn out.old out.new (looped_text at.now needs_done value) }
{
    if needs_done {
        write_guarded(out, at, value)
    } else {
        write_value(out, at, value)
    }
}

#[tactic(auto, unfolding(crate::specs::BlockTexts::while_text))]
fn write_while(out: &mut Writer, at: &Context<'_>, needs_done: bool, value: usize)
    ensures { GoesOn out.old out.new (while_text at.now needs_done value) }
{
    begin_line(out, at, "while ");
    write_looped(out, at, needs_done, value);
    out.say(" {")
}

#[tactic(auto, unfolding(crate::specs::BlockTexts::group_text))]
fn write_group(out: &mut Writer, at: &Context<'_>, variable: usize)
    ensures { GoesOn out.old out.new (group_text at.now variable) }
{
    begin_line(out, at, "group ");
    write_variable(out, at, variable);
    out.say(" {")
}

// What stands before the value of a task local that is bound.
#[tactic(auto, unfolding(crate::specs::BlockTexts::bind_head))]
fn begin_bind(out: &mut Writer, at: &Context<'_>, local: usize)
    ensures { GoesOn out.old out.new (bind_head at.now local) }
{
    begin_line(out, at, "bind ");
    write_local(out, &at.source, local);
    out.say(" = ")
}

#[tactic(auto, unfolding(crate::specs::BlockTexts::bind_text))]
fn write_bind(out: &mut Writer, at: &Context<'_>, local: usize, value: usize)
    ensures { GoesOn out.old out.new (bind_text at.now local value) }
{
    begin_bind(out, at, local);
    write_value(out, at, value);
    out.say(" {")
}

// What follows is done unless the method has returned, where something notes that.
fn write_rest(out: &mut Writer, at: &Context<'_>, needs_done: bool)
    ensures { GoesOn out.old out.new (rest_text at.now needs_done) }
{
    if needs_done {
        out.line(at.open_blocks);
        write_made_between(out, at, "if (!", "done", ") {")
    }
}

// The head of the block that an instruction opens.
fn write_head(out: &mut Writer, at: &Context<'_>, needs_done: bool, instruction: Instruction)
    ensures { GoesOn out.old out.new (head_text at.now needs_done instruction) }
{
    match instruction {
        Instruction::If(value) => write_test(out, at, "if ", value),
        Instruction::While(value) => write_while(out, at, needs_done, value),
        Instruction::Group(variable) => write_group(out, at, variable),
        Instruction::Bind(local, value) => write_bind(out, at, local, value),
        Instruction::Rest => write_rest(out, at, needs_done),
        _ => {}
    }
}

// The head of a block, which opens.
fn open_head(
    out: &mut Writer,
    body: &mut Body<'_>,
    frame: Frame,
    instruction: Instruction,
    is_written: bool,
)
    ensures text { GoesOn out.old out.new (head_text (context_of body.old.source (progress_of body.old) frame.serial) frame.needs_done instruction) }
    ensures source { body.new.source ≡ body.old.source }
    ensures progress { IsFalse out.new.is_partial → progress_of body.new ≡ opened is_written (progress_of body.old) }
{
    let at = body.context(frame.serial);
    write_head(out, &at, frame.needs_done, instruction);
    body.open(out, is_written)
}

// An instruction that opens or closes a block.
fn step_block(out: &mut Writer, body: &mut Body<'_>, frame: Frame, instruction: Instruction)
    ensures text { GoesOn out.old out.new (block_text body.old.source (progress_of body.old) frame instruction) }
    ensures source { body.new.source ≡ body.old.source }
    ensures progress { IsFalse out.new.is_partial → progress_of body.new ≡ block_progress (progress_of body.old) frame instruction }
{
    match instruction {
        Instruction::Rest => open_head(out, body, frame, instruction, frame.needs_done),
        Instruction::Else => turn_over(out, body),
        Instruction::End => close(out, body),
        _ => open_head(out, body, frame, instruction, true),
    }
}

// An instruction that sets something.
fn step_set(out: &mut Writer, at: &Context<'_>, instruction: Instruction)
    ensures { GoesOn out.old out.new (setting_text at.now instruction) }
{
    match instruction {
        Instruction::Let(variable, value) => write_set(out, at, "let ", variable, value),
        Instruction::Set(variable, value) => write_set(out, at, "", variable, value),
        Instruction::SetField(field, value) => write_field_set(out, at, field, value),
        Instruction::Print(place, value) => write_print(out, at, place, value),
        Instruction::Require(value, line) => write_require(out, at, value, line),
        _ => {}
    }
}

// An instruction that waits, makes, adds or cancels a task, or ends a turn or a method.
fn step_task(out: &mut Writer, at: &Context<'_>, frame: Frame, instruction: Instruction)
    ensures { GoesOn out.old out.new (task_text at.now frame instruction) }
{
    match instruction {
        Instruction::Wait(target, what, otherwise) => {
            wait(out, at, frame.at, target, what, otherwise)
        }
        Instruction::Make(variable, is_detached, callee, urgency) => {
            make(out, at, variable, is_detached, callee, urgency)
        }
        Instruction::Add(group, is_only, callee, urgency) => {
            add(out, at, group, is_only, callee, urgency)
        }
        Instruction::Cancel(variable) => write_word(out, at, "cancel ", variable),
        Instruction::Check => begin_line(out, at, "check;"),
        Instruction::Yield => begin_line(out, at, "yield;"),
        Instruction::Return(value) => give_back(out, at, frame.result, frame.needs_done, value),
        Instruction::Throw(value) => write_throw(out, at, value),
        _ => {}
    }
}

// A method that is put in where another one is at an instruction: its parameters, and the variables that it begins with.
#[tactic(auto, unfolding(crate::specs::Bodies::put_text))]
fn put_unit(out: &mut Writer, body: &mut Body<'_>, frame: Frame, callee: Frame, first: usize)
    ensures text { GoesOn out.old out.new (put_text body.old.source (progress_of body.old) frame callee first) }
    ensures source { body.new.source ≡ body.old.source }
    ensures progress { IsFalse out.new.is_partial → progress_of body.new ≡ entered (next_frame frame) (progress_of body.old) }
{
    let at = body.context(callee.serial);
    write_params(out, &at, callee.unit, first, frame.serial);
    begin(out, &at, callee.result, callee.needs_done);
    body.enter(out, next_frame(frame))
}

// Puts a method in. The method that is written next.
fn put_in(
    out: &mut Writer,
    body: &mut Body<'_>,
    frame: Frame,
    callee: Option<Frame>,
    first: usize,
    token: usize,
) -> Frame
    ensures text { GoesOn out.old out.new (put_in_text body.old.source (progress_of body.old) frame callee first) }
    ensures source { body.new.source ≡ body.old.source }
    ensures progress { IsFalse out.new.is_partial → progress_of body.new ≡ put_in_progress (progress_of body.old) frame callee }
    ensures next { IsFalse out.new.is_partial → result ≡ or_next frame callee }
{
    let Some(callee) = callee else {
        return next_frame(frame);
    };
    if body.is_inside(frame, callee.unit) {
        out.refuse(Rule::Recursion, token);
        return next_frame(frame);
    }
    put_unit(out, body, frame, callee, first);
    callee
}

// The method that an instruction puts in, if there is one.
fn callee_of(body: &Body<'_>, frame: Frame, target: Target, unit: usize) -> Option<Frame>
    ensures { result ≡ callee_of body.now.source (progress_of body.now) frame target unit }
{
    match body.source.unit_at(unit) {
        Some(found) => {
            let serial = body.serial.saturating_add(1);
            Some(callee_frame(unit, found, serial, target, frame.serial))
        }
        None => None,
    }
}

// The method that is written, at the instruction behind this one.
fn next_frame(frame: Frame) -> Frame
    ensures { result ≡ next_frame frame }
{
    moved(frame, frame.at.saturating_add(1))
}

// An instruction that puts nothing in and opens and closes no block.
fn step_plain(out: &mut Writer, at: &Context<'_>, frame: Frame, instruction: Instruction)
    ensures { GoesOn out.old out.new (plain_text at.now frame instruction) }
{
    match instruction {
        Instruction::Let(..)
        | Instruction::Set(..)
        | Instruction::SetField(..)
        | Instruction::Print(..)
        | Instruction::Require(..) => step_set(out, at, instruction),
        _ => step_task(out, at, frame, instruction),
    }
}

/// What an instruction does.
#[derive(Clone, Copy)]
pub(crate) enum StepKind {
    /// It goes on at a place.
    Skip(usize),
    /// It puts a method in: where its value goes, its unit, the first of its operands, and the token of the call.
    Put(Target, usize, usize, usize),
    /// It opens or closes a block.
    Block,
    /// It is a statement.
    Plain,
}

fn kind_of(instruction: Instruction) -> StepKind
    ensures { result ≡ kind_of instruction }
{
    match instruction {
        Instruction::Skip(to) => StepKind::Skip(to),
        Instruction::Inline(target, unit, first, token) => {
            StepKind::Put(target, unit, first, token)
        }
        Instruction::If(_)
        | Instruction::Else
        | Instruction::While(_)
        | Instruction::Group(_)
        | Instruction::Bind(..)
        | Instruction::Rest
        | Instruction::End => StepKind::Block,
        _ => StepKind::Plain,
    }
}

// An instruction that does this.
fn step_by(
    out: &mut Writer,
    body: &mut Body<'_>,
    frame: Frame,
    instruction: Instruction,
    kind: StepKind,
) -> Frame
    ensures text { GoesOn out.old out.new (text_by body.old.source (progress_of body.old) frame instruction kind) }
    ensures source { body.new.source ≡ body.old.source }
    ensures progress { IsFalse out.new.is_partial → progress_of body.new ≡ progress_by body.old.source (progress_of body.old) frame instruction kind }
    ensures next { IsFalse out.new.is_partial → result ≡ frame_by body.old.source (progress_of body.old) frame kind }
{
    match kind {
        StepKind::Skip(to) => moved(frame, later(to, frame.at.saturating_add(1))),
        StepKind::Put(target, unit, first, token) => {
            let callee = callee_of(body, frame, target, unit);
            put_in(out, body, frame, callee, first, token)
        }
        StepKind::Block => {
            step_block(out, body, frame, instruction);
            next_frame(frame)
        }
        StepKind::Plain => {
            let at = body.context(frame.serial);
            step_plain(out, &at, frame, instruction);
            next_frame(frame)
        }
    }
}

/// An instruction of a method that is written. The method that is written next, from its next instruction on.
#[tactic(auto, unfolding(crate::specs::Bodies::step_text, crate::specs::Bodies::step_progress, crate::specs::Bodies::step_frame))]
pub(crate) fn step(
    out: &mut Writer,
    body: &mut Body<'_>,
    frame: Frame,
    instruction: Instruction,
) -> Frame
    ensures text { GoesOn out.old out.new (step_text body.old.source (progress_of body.old) frame instruction) }
    ensures source { body.new.source ≡ body.old.source }
    ensures progress { IsFalse out.new.is_partial → progress_of body.new ≡ step_progress body.old.source (progress_of body.old) frame instruction }
    ensures next { IsFalse out.new.is_partial → result ≡ step_frame body.old.source (progress_of body.old) frame instruction }
{
    step_by(out, body, frame, instruction, kind_of(instruction))
}
