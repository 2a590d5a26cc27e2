//! How names of a script are spelled.

ghost use Rattle.std.specs.Prelude.{◌≡◌, ◌++◌, ◌∷◌, [], codes, decimal};
ghost use Rattle.swift_translation.specs.Names as names;
ghost use Rattle.swift_translation.specs.Names.{caught_name, closure_in, closure_in_function, closure_in_main, file_name, pair, temporary_name, variable_name};
ghost use Rattle.swift_translation.specs.WritingInside.{GoesOn};

use crate::word::is_kept;
use crate::writer::Writer;
use std::alloc::Global;

// Whether a name ends in `_`.
fn ends_low(name: &[u8]) -> bool
    ensures { result ≡ names.ends_low name.now }
{
    match name {
        [] => false,
        [last] => *last == 95,
        [_, rest @ ..] => ends_low(rest),
    }
}

// Whether a name begins as those of printed values.
fn begins(prefix: &[u8], name: &[u8]) -> bool
    ensures { result ≡ names.begins prefix.now name.now }
{
    match prefix {
        [] => true,
        [first, rest @ ..] => match name {
            [] => false,
            [letter, others @ ..] => *first == *letter && begins(rest, others),
        },
    }
}

/// A name of the file.
pub(crate) fn spell_name(out: &mut Writer, name: &[u8])
    ensures { GoesOn out.old out.new (file_name name.now) }
{
    let is_taken = is_kept(name) || ends_low(name);
    out.bytes(name);
    out.say(if is_taken { "_" } else { "" })
}

// A number, and behind a mark another one where that is not 0.
fn spell_pair(out: &mut Writer, alloc: Global, first: usize, mark: &str, second: usize)
    ensures { GoesOn out.old out.new (pair first mark.now second) }
{
    out.place(alloc, first);
    if second != 0 {
        out.say(mark);
        out.place(alloc, second);
    }
}

/// A field, or a variable of the file, before which so many have its name, of a method that was put in as the one of this number; 0 is none.
pub(crate) fn spell_variable(
    out: &mut Writer,
    alloc: Global,
    name: &[u8],
    duplicate: usize,
    serial: usize,
)
    ensures { GoesOn out.old out.new (variable_name name.now duplicate serial) }
{
    if duplicate == 0 && (serial == 0 && !begins(b"print_line", name)) {
        spell_name(out, name);
        return;
    }
    out.bytes(name);
    out.say("_");
    spell_pair(out, alloc, serial, "d", duplicate);
    out.say("_")
}

/// A variable without a name, by its place.
pub(crate) fn spell_temporary(out: &mut Writer, alloc: Global, place: usize, serial: usize)
    ensures { GoesOn out.old out.new (temporary_name place serial) }
{
    out.say("m");
    spell_pair(out, alloc, place, "s", serial);
    out.say("_")
}

/// The task for a call whose error is caught, by the place of its instruction.
pub(crate) fn spell_caught(out: &mut Writer, alloc: Global, place: usize, serial: usize)
    ensures { GoesOn out.old out.new (caught_name place serial) }
{
    out.say("caught");
    spell_pair(out, alloc, place, "s", serial);
    out.say("_")
}

/// A word, a number and `_`.
pub(crate) fn spell_made(out: &mut Writer, alloc: Global, word: &str, number: usize)
    ensures { GoesOn out.old out.new (word.now ++ decimal number ++ 95 ∷ []) }
{
    out.say(word);
    out.place(alloc, number);
    out.say("_")
}

/// A word, the line on which something stands, and which one it is there; 0 is the first.
pub(crate) fn spell_spot(out: &mut Writer, alloc: Global, word: &str, line: usize, which: usize)
    ensures { GoesOn out.old out.new (word.now ++ pair line (codes "_") which) }
{
    out.say(word);
    spell_pair(out, alloc, line, "_", which)
}

/// The method that a closure became which stands in a method of an instance, on a line; 0, or which one it is there.
pub(crate) fn spell_closure(
    out: &mut Writer,
    alloc: Global,
    instance: &[u8],
    method: &[u8],
    line: usize,
    which: usize,
)
    ensures { GoesOn out.old out.new (closure_in instance.now method.now line which) }
{
    out.bytes(instance);
    out.say("_");
    out.bytes(method);
    spell_spot(out, alloc, "_line", line, which)
}

/// The method that a closure became which stands in a function outside of actors.
pub(crate) fn spell_function_closure(
    out: &mut Writer,
    alloc: Global,
    function: &[u8],
    line: usize,
    which: usize,
)
    ensures { GoesOn out.old out.new (closure_in_function function.now line which) }
{
    out.bytes(function);
    spell_spot(out, alloc, "_line", line, which)
}

/// The method that a closure of `main` became.
pub(crate) fn spell_main_closure(out: &mut Writer, alloc: Global, line: usize, which: usize)
    ensures { GoesOn out.old out.new (closure_in_main line which) }
{
    out.say("main");
    spell_spot(out, alloc, "_line", line, which)
}
