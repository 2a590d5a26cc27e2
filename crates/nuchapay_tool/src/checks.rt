//! Whether a text is a script, and why not.

ghost use Rattle.std.specs.Prelude.{◌≡◌, IfOk};
ghost use Rattle.std.specs.String.{string_bytes};
ghost use Rattle.swift_script.specs.FaultPlaces.{IsAtItsPlace};
ghost use Rattle.swift_script.specs.Refuses.{Refuses};
ghost use Rattle.nuchapay_tool.specs.Advised.{help_text};
ghost use Rattle.nuchapay_tool.specs.Checks.{IsRefusedAs, Says, accepted_text, counted, counts_text, rootless, second_part};

use crate::advice::{Second, advise};
use crate::mark::mark_of;
use crate::page::Page;
use crate::pages::page_of;
use crate::refused::{refusal, second_place};
use crate::topic::Topic;
use std::alloc::{AllocError, Global};
use swift_script::{Script, ScriptFault, read};

/// What a check says of a text (our own): the text to show.
#[derive(Drop)]
pub enum Checked {
    /// It is a script: how many actors, methods and roots it has.
    Accepted(String),
    /// It is refused: for which cause, on which line, with that line and what to do.
    Refused(String),
}

/// Reads a text and says whether it is a script (the form is our own). `file` is what the text is called. A refusal has a mark under the
/// bytes that it blames, and the escapes of a terminal's colours where these are asked for. Where the grammar is at fault, what could have
/// stood there is said, in the time of some sixty readings of the method that is concerned; a second token that is concerned is shown
/// too. Else linear in the text.
///
/// # Errors
///
/// `AllocError` where there is no memory for what is to be said. Where there was none to read the text, it is refused with S14.
pub fn check(alloc: Global, file: &str, text: &[u8], colour: bool) -> Result<Checked, AllocError>
    ensures { IfOk result (Says colour file.now text.now) }
{
    match read(alloc, text) {
        Ok(script) => Ok(Checked::Accepted(accepted(alloc, file, &script)?)),
        Err(fault) => Ok(Checked::Refused(refused(alloc, file, text, colour, fault)?)),
    }
}

// What is said of a text that is refused.
fn refused(
    alloc: Global,
    file: &str,
    text: &[u8],
    colour: bool,
    fault: ScriptFault,
) -> Result<String, AllocError>
    requires cause { Refuses fault.kind text.now }
    requires place { IsAtItsPlace fault text.now }
    ensures { IfOk result (λ said. IsRefusedAs colour file.now text.now (string_bytes said)) }
{
    let mark = mark_of(text, fault.line, fault.span);
    let page = page_of(Topic::Script(fault.kind));
    let advice = advise(alloc, text, fault.kind, fault.span)?;
    let help = help_of(advice.help.as_str(), page);
    let expected = advice.expected.as_str();
    let first = refusal(
        alloc, colour, file, text, fault.line, mark, page, expected, help,
    )?;
    let second = second_text(alloc, colour, file, text, advice.second)?;
    let parts = [first.as_str(), second.as_str()];
    parts.as_slice().concat(alloc)
}

/// What is said to do: what helps, or, where that is nothing, what the page of the refusal says.
pub(crate) fn help_of<'a>(help: &'a str, page: &'a Page) -> &'a str
    ensures { result.now ≡ help_text help.now page.now }
{
    if help.len() == 0 { page.help } else { help }
}

// What is said of a second token that is concerned, if there is one.
fn second_text(
    alloc: Global,
    colour: bool,
    file: &str,
    text: &[u8],
    second: Option<Second>,
) -> Result<String, AllocError>
    ensures { IfOk result (λ said. string_bytes said ≡ second_part colour file.now text.now second) }
{
    match second {
        None => Ok(String::new(alloc)),
        Some(second) => {
            let mark = mark_of(text, second.line, Some(second.span));
            second_place(alloc, colour, file, text, second.line, mark, second.label)
        }
    }
}

// What is said of a script.
fn accepted(alloc: Global, file: &str, script: &Script) -> Result<String, AllocError>
    ensures { IfOk result (λ said. string_bytes said ≡ accepted_text file.now script.now) }
{
    let counts = counts(alloc, file, script)?;
    let parts = [counts.as_str(), rootless(script.root_count())];
    parts.as_slice().concat(alloc)
}

// How many actors, methods and roots a script has.
fn counts(alloc: Global, file: &str, script: &Script) -> Result<String, AllocError>
    ensures { IfOk result (λ said. string_bytes said ≡ counts_text file.now script.now) }
{
    let actors = counted(alloc, script.actor_count(), "actor")?;
    let methods = counted(alloc, script.method_count(), "method")?;
    let roots = counted(alloc, script.root_count(), "root")?;
    let parts = [
        file,
        ": ",
        actors.as_str(),
        ", ",
        methods.as_str(),
        ", ",
        roots.as_str(),
        "\n",
    ];
    parts.as_slice().concat(alloc)
}

// What is said beside the counts, by the number of roots.
fn rootless(count: usize) -> &'static str
    ensures { result.now ≡ rootless count }
{
    if count == 0 {
        "note: it has no root, and nothing of it will run; `root a = A.f();` begins a task\n"
    } else {
        ""
    }
}

// A number of things: `count`, and the word for one, with an `s` where it is not 1.
fn counted(alloc: Global, count: usize, one: &str) -> Result<String, AllocError>
    ensures { IfOk result (λ said. string_bytes said ≡ counted count one.now) }
{
    let number = count.to_string(alloc)?;
    let ending = if count == 1 { "" } else { "s" };
    let parts = [number.as_str(), " ", one, ending];
    parts.as_slice().concat(alloc)
}
