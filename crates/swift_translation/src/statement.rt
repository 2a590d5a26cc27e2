//! Instructions that open and close no block, as statements.

ghost use Rattle.std.specs.Prelude.{◌≡◌};
ghost use Rattle.swift_translation.specs.StatementTexts.{add_head, add_text, adding_text, done_text, ended_text, field_set_text, give_text, given_head, given_text, make_text, making_text, or_zero_text, own_field_text, print_text, require_block, require_head, require_line, require_text, result_text, return_text, set_text, throw_text, word_text};
ghost use Rattle.swift_translation.specs.Words.{urgency_text};
ghost use Rattle.swift_translation.specs.WritingInside.{GoesOn};

use crate::frame::ResultPlace;
use crate::naming::{PRECONDITION, write_field_name, write_made, write_printed, write_variable};
use crate::source::Context;
use crate::value::write_value;
use crate::wait::{begin_line, begin_set, write_callee};
use crate::writer::Writer;
use swift_expressions::{Callee, NONE};
use swift_types::Priority;

// A value, and the end of a statement.
#[tactic(auto, unfolding(crate::specs::StatementTexts::ended_text))]
fn end_value(out: &mut Writer, at: &Context<'_>, value: usize)
    ensures { GoesOn out.old out.new (ended_text at.now value) }
{
    write_value(out, at, value);
    out.say(";")
}

/// A variable gets a value, or begins with it.
#[tactic(auto, unfolding(crate::specs::StatementTexts::set_text))]
pub(crate) fn write_set(
    out: &mut Writer,
    at: &Context<'_>,
    word: &str,
    variable: usize,
    value: usize,
)
    ensures { GoesOn out.old out.new (set_text at.now word.now variable value) }
{
    begin_set(out, at, word, variable);
    end_value(out, at, value)
}

// The name of a field of the own actor.
#[tactic(auto, unfolding(crate::specs::StatementTexts::own_field_text))]
fn write_field(out: &mut Writer, at: &Context<'_>, field: usize)
    ensures { GoesOn out.old out.new (own_field_text at.now field) }
{
    if let Some(declared) = at.source.tree.fields.get(field).copied() {
        write_field_name(out, &at.source, declared.name)
    }
}

/// A field of the own actor gets a value.
#[tactic(auto, unfolding(crate::specs::StatementTexts::field_set_text))]
pub(crate) fn write_field_set(out: &mut Writer, at: &Context<'_>, field: usize, value: usize)
    ensures { GoesOn out.old out.new (field_set_text at.now field value) }
{
    out.line(at.open_blocks);
    write_field(out, at, field);
    out.say(" = ");
    end_value(out, at, value)
}

/// A value is printed.
#[tactic(auto, unfolding(crate::specs::StatementTexts::print_text))]
pub(crate) fn write_print(out: &mut Writer, at: &Context<'_>, place: usize, value: usize)
    ensures { GoesOn out.old out.new (print_text at.now place value) }
{
    out.line(at.open_blocks);
    write_printed(out, &at.source, place);
    out.say(" = ");
    end_value(out, at, value)
}

// The head of the block that is done at the first value that does not hold.
#[tactic(auto, unfolding(crate::specs::StatementTexts::require_head))]
fn begin_require(out: &mut Writer, at: &Context<'_>)
    ensures { GoesOn out.old out.new (require_head at.now) }
{
    begin_line(out, at, "if (");
    out.say(PRECONDITION);
    out.say(" == 0 && (!")
}

// The statement that notes the line of a value that does not hold.
#[tactic(auto, unfolding(crate::specs::StatementTexts::require_line))]
fn note_line(out: &mut Writer, at: &Context<'_>, line: usize)
    ensures { GoesOn out.old out.new (require_line at.now line) }
{
    begin_line(out, at, "    ");
    out.say(PRECONDITION);
    out.say(" = ");
    out.place(at.source.alloc, line)
}

// The same in a block.
#[tactic(auto, unfolding(crate::specs::StatementTexts::require_block))]
fn note_failure(out: &mut Writer, at: &Context<'_>, line: usize)
    ensures { GoesOn out.old out.new (require_block at.now line) }
{
    out.say(")) {");
    note_line(out, at, line);
    out.say(";");
    begin_line(out, at, "}")
}

/// The first value that does not hold leaves its line.
#[tactic(auto, unfolding(crate::specs::StatementTexts::require_text))]
pub(crate) fn write_require(out: &mut Writer, at: &Context<'_>, value: usize, line: usize)
    ensures { GoesOn out.old out.new (require_text at.now value line) }
{
    begin_require(out, at);
    write_value(out, at, value);
    note_failure(out, at, line)
}

// `at` with a priority, if there is one.
fn write_urgency(out: &mut Writer, urgency: Option<Priority>)
    ensures { GoesOn out.old out.new (urgency_text urgency) }
{
    match urgency {
        Some(Priority::Background) => out.say(" at background;"),
        Some(Priority::Low) => out.say(" at low;"),
        Some(Priority::Medium) => out.say(" at medium;"),
        Some(Priority::High) => out.say(" at high;"),
        None => out.say(";"),
    }
}

// How a task begins: apart from the one that makes it, or as its child.
fn making(is_detached: bool) -> &'static str
    ensures { result.now ≡ making_text is_detached }
{
    if is_detached { "detach " } else { "spawn " }
}

/// A task begins.
#[tactic(auto, unfolding(crate::specs::StatementTexts::make_text))]
pub(crate) fn make(
    out: &mut Writer,
    at: &Context<'_>,
    variable: usize,
    is_detached: bool,
    callee: Callee,
    urgency: Option<Priority>,
)
    ensures { GoesOn out.old out.new (make_text at.now variable is_detached callee urgency) }
{
    begin_set(out, at, "let ", variable);
    out.say(making(is_detached));
    write_callee(out, at, callee);
    write_urgency(out, urgency)
}

// Between a group and its child: whether it begins only where the group is not cancelled.
fn adding(is_only: bool) -> &'static str
    ensures { result.now ≡ adding_text is_only }
{
    if is_only { " unless " } else { " " }
}

// The beginning of a statement that adds a child to a group.
#[tactic(auto, unfolding(crate::specs::StatementTexts::add_head))]
fn begin_add(out: &mut Writer, at: &Context<'_>, group: usize, is_only: bool)
    ensures { GoesOn out.old out.new (add_head at.now group is_only) }
{
    begin_line(out, at, "add ");
    write_variable(out, at, group);
    out.say(adding(is_only))
}

/// A child of a group begins.
#[tactic(auto, unfolding(crate::specs::StatementTexts::add_text))]
pub(crate) fn add(
    out: &mut Writer,
    at: &Context<'_>,
    group: usize,
    is_only: bool,
    callee: Callee,
    urgency: Option<Priority>,
)
    ensures { GoesOn out.old out.new (add_text at.now group is_only callee urgency) }
{
    begin_add(out, at, group, is_only);
    write_callee(out, at, callee);
    write_urgency(out, urgency)
}

/// A word and what is named.
#[tactic(auto, unfolding(crate::specs::StatementTexts::word_text))]
pub(crate) fn write_word(out: &mut Writer, at: &Context<'_>, word: &str, variable: usize)
    ensures { GoesOn out.old out.new (word_text at.now word.now variable) }
{
    begin_line(out, at, word);
    write_variable(out, at, variable);
    out.say(";")
}

/// The method ends with a fault.
#[tactic(auto, unfolding(crate::specs::StatementTexts::throw_text))]
pub(crate) fn write_throw(out: &mut Writer, at: &Context<'_>, value: usize)
    ensures { GoesOn out.old out.new (throw_text at.now value) }
{
    begin_line(out, at, "throw ");
    end_value(out, at, value)
}

fn write_or_zero(out: &mut Writer, at: &Context<'_>, value: usize)
    ensures { GoesOn out.old out.new (or_zero_text at.now value) }
{
    if value == NONE {
        out.say("0")
    } else {
        write_value(out, at, value)
    }
}

// What a method returns.
#[tactic(auto, unfolding(crate::specs::StatementTexts::return_text))]
fn write_return(out: &mut Writer, at: &Context<'_>, value: usize)
    ensures { GoesOn out.old out.new (return_text at.now value) }
{
    begin_line(out, at, "return ");
    write_or_zero(out, at, value);
    out.say(";")
}

/// The variable to which the value of a method goes; none where it is returned.
pub(crate) fn write_result(out: &mut Writer, at: &Context<'_>, to: ResultPlace)
    ensures { GoesOn out.old out.new (result_text at.now to) }
{
    match to {
        ResultPlace::Returned => {}
        ResultPlace::Own => write_made(out, at, "result"),
        ResultPlace::Variable(variable, serial) => {
            write_variable(out, &at.of_serial(serial), variable)
        }
    }
}

// The beginning of a statement that sets the variable to which the value of a method goes.
#[tactic(auto, unfolding(crate::specs::StatementTexts::given_head))]
fn begin_given(out: &mut Writer, at: &Context<'_>, to: ResultPlace)
    ensures { GoesOn out.old out.new (given_head at.now to) }
{
    out.line(at.open_blocks);
    write_result(out, at, to);
    out.say(" = ")
}

// The value of a method goes to a variable.
#[tactic(auto, unfolding(crate::specs::StatementTexts::given_text))]
fn write_given(out: &mut Writer, at: &Context<'_>, to: ResultPlace, value: usize)
    ensures { GoesOn out.old out.new (given_text at.now to value) }
{
    begin_given(out, at, to);
    write_or_zero(out, at, value);
    out.say(";")
}

// A method notes that it has returned, where something asks for that.
fn note_done(out: &mut Writer, at: &Context<'_>, needs_done: bool)
    ensures { GoesOn out.old out.new (done_text at.now needs_done) }
{
    if needs_done {
        out.line(at.open_blocks);
        write_made(out, at, "done");
        out.say(" = 1;")
    }
}

/// A value goes to where the method's value goes, and the rest of the method is passed over.
pub(crate) fn give_back(
    out: &mut Writer,
    at: &Context<'_>,
    to: ResultPlace,
    needs_done: bool,
    value: usize,
)
    ensures { GoesOn out.old out.new (give_text at.now to needs_done value) }
{
    if let ResultPlace::Returned = to {
        write_return(out, at, value)
    } else {
        write_given(out, at, to, value);
        note_done(out, at, needs_done)
    }
}
