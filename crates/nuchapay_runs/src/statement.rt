//! Statements in words, by the instructions that they were compiled to.

ghost use Rattle.std.specs.Prelude.{◌≡◌, ◌++◌, codes};
ghost use Rattle.script_code.specs.Tree.{target_of, term_of, terms_of, wanted_of};
ghost use Rattle.swift_script.specs.Scripts.{method_name};
ghost use Rattle.nuchapay_runs.specs.Formulas.{formula_text};
ghost use Rattle.nuchapay_runs.specs.NamedInside.{names_view, wanted_if_lent};
ghost use Rattle.nuchapay_runs.specs.SaysInside.{Says};
ghost use Rattle.nuchapay_runs.specs.Statements.{act_text, awaited_at, awaited_by, awaited_text, call_text, called_text, cancel_text, kept_text, listed_text, open_text, receiver_text, statement_text};

use crate::formula::{NamesAt, write_field, write_formula, write_variable};
use crate::text::Text;
use script_code::{Act, Cancelled, CompiledAwait, CompiledCall, Formula, Instruction, NumberPlace};
use swift_script::Script;
use swift_types::{MethodId, RootId};

// Where a number is kept.
fn write_kept(out: &mut Text, names: &NamesAt<'_>, place: NumberPlace)
    ensures { Says out.old out.new (kept_text (names_view names.now) place) }
{
    match place {
        NumberPlace::Variable(variable) => write_variable(out, names, variable as usize),
        NumberPlace::Field(field) => write_field(out, names, field),
    }
}

// An expression after its words.
fn write_with(out: &mut Text, names: &NamesAt<'_>, words: &[u8], formula: &Formula)
    ensures { Says out.old out.new (words.now ++ formula_text (names_view names.now) (term_of formula.now)) }
{
    out.say(words);
    write_formula(out, names, formula)
}

// The name of a method; nothing for one that the script lacks.
#[tactic(auto, using(crate::proofs::Past::no_method_name))]
fn name_of(script: &Script, method: MethodId) -> &[u8]
    ensures { result.now ≡ method_name script.now method.0 }
{
    if (method.0 as usize) < script.method_count() {
        script.method_name(method)
    } else {
        &[]
    }
}

// Expressions with commas between them, and a space in front of the first.
fn write_listed(out: &mut Text, names: &NamesAt<'_>, formulas: &[Formula])
    ensures { Says out.old out.new (listed_text (names_view names.now) (codes " ") (terms_of formulas.now)) }
{
    let mut between: &[u8] = b" ";
    for formula in formulas {
        out.say(between);
        between = b" , ";
        write_formula(out, names, formula);
    }
}

// A method by its names.
fn write_called(out: &mut Text, names: &NamesAt<'_>, call: &CompiledCall)
    ensures { Says out.old out.new (called_text (names_view names.now) (target_of call.now)) }
{
    out.say(names.script.actor_name(call.actor));
    out.say(b" . ");
    out.say(name_of(names.script, call.method))
}

// A call after its word.
fn write_call(out: &mut Text, names: &NamesAt<'_>, word: &[u8], call: &CompiledCall)
    ensures { Says out.old out.new (call_text (names_view names.now) word.now (target_of call.now)) }
{
    out.say(word);
    out.say(b" ");
    write_called(out, names, call);
    out.say(b" (");
    write_listed(out, names, &call.args);
    out.say(b" )")
}

// What is waited for.
fn write_awaited(out: &mut Text, names: &NamesAt<'_>, awaited: &CompiledAwait)
    ensures { Says out.old out.new (awaited_text (names_view names.now) (wanted_of awaited.now)) }
{
    match awaited {
        CompiledAwait::Call(call) => write_call(out, names, b"await", call),
        CompiledAwait::Root(root) => {
            out.say(b"await root ");
            out.say(names.script.root_name(*root))
        }
        CompiledAwait::Task(_) => out.say(b"await task"),
        CompiledAwait::Next(_) => out.say(b"await next"),
    }
}

// What is cancelled.
fn write_cancel(out: &mut Text, names: &NamesAt<'_>, cancelled: Cancelled)
    ensures { Says out.old out.new (cancel_text (names_view names.now) cancelled) }
{
    match cancelled {
        Cancelled::Root(root) => {
            out.say(b"cancel root ");
            out.say(names.script.root_name(root))
        }
        Cancelled::Task(_) => out.say(b"cancel task"),
        Cancelled::Group(_) => out.say(b"cancel group"),
    }
}

// Where what was waited for is kept, if anywhere.
fn write_receiver(out: &mut Text, names: &NamesAt<'_>, place: Option<NumberPlace>)
    ensures { Says out.old out.new (receiver_text (names_view names.now) place) }
{
    if let Some(place) = place {
        write_kept(out, names, place);
        out.say(b" = ")
    }
}

// What an act waits for, if it does.
fn awaited_by(act: &Act) -> Option<&CompiledAwait>
    ensures { wanted_if_lent result ≡ awaited_by act.now }
{
    match act {
        Act::Wait(awaited) => Some(awaited),
        _ => None,
    }
}

// What is waited for at the instruction of this number, if that is known.
fn awaited_at(instructions: &[Instruction], line: usize) -> Option<&CompiledAwait>
    ensures { wanted_if_lent result ≡ awaited_at instructions.now line }
{
    for instruction in instructions {
        if instruction.next as usize == line {
            let awaited = awaited_by(&instruction.act);
            if awaited.is_some() {
                return awaited;
            }
        }
    }
    None
}

// An await that stands open.
fn write_open(out: &mut Text, names: &NamesAt<'_>, awaited: Option<&CompiledAwait>)
    ensures { Says out.old out.new (open_text (names_view names.now) (wanted_if_lent awaited.entry)) }
{
    match awaited {
        Some(awaited) => write_awaited(out, names, awaited),
        None => out.say(b"await"),
    }
}

// The statement that an act stands for.
fn write_act(
    out: &mut Text,
    names: &NamesAt<'_>,
    instructions: &[Instruction],
    line: usize,
    act: &Act,
)
    ensures { Says out.old out.new (act_text (names_view names.now) instructions.now line act.now) }
{
    match act {
        Act::End => out.say(b"the end of the method"),
        Act::Test(test) => write_with(out, names, b"the test ", test),
        Act::SetVariable(variable, value) => {
            write_variable(out, names, *variable as usize);
            out.say(b" = ");
            write_formula(out, names, value)
        }
        Act::SetField(place, value) => {
            write_field(out, names, *place);
            out.say(b" = ");
            write_formula(out, names, value)
        }
        Act::Return(value) => write_with(out, names, b"return ", value),
        Act::Throw(value) => write_with(out, names, b"throw ", value),
        Act::Check => out.say(b"check"),
        Act::Yield => out.say(b"yield"),
        Act::Wait(awaited) => write_awaited(out, names, awaited),
        Act::Receive(place, _) => {
            write_receiver(out, names, *place);
            write_open(out, names, awaited_at(instructions, line))
        }
        Act::Spawn { call, .. } => write_call(out, names, b"spawn", call),
        Act::Detach { call, .. } => write_call(out, names, b"detach", call),
        Act::Add { call, .. } => write_call(out, names, b"add", call),
        Act::Cancel(cancelled) => write_cancel(out, names, *cancelled),
        Act::Open(_) => out.say(b"group"),
        Act::Close => out.say(b"the end of a group"),
        Act::Bind(local, value) => {
            out.say(b"bind ");
            out.say(names.script.local_name(*local));
            out.say(b" = ");
            write_formula(out, names, value)
        }
        Act::Unbind => out.say(b"the end of a bind"),
        Act::Assume | Act::Isolated => out.say(b"assume"),
    }
}

/// Goes on with the statement that an instruction stands for, without its blocks and its semicolon; a test may be that of an `if` or of a
/// `while`. In time linear in the method.
pub(crate) fn write_statement(
    out: &mut Text,
    names: &NamesAt<'_>,
    instructions: &[Instruction],
    line: usize,
)
    ensures { Says out.old out.new (statement_text (names_view names.now) instructions.now line) }
{
    match instructions.get(line) {
        Some(instruction) => write_act(out, names, instructions, line, &instruction.act),
        None => out.say(b"the end of the method"),
    }
}
