//! Whether a text is a script, as JSON.

ghost use Rattle.std.specs.Prelude.{◌≡◌, IfOk, Some};
ghost use Rattle.std.specs.String.{string_bytes};
ghost use Rattle.swift_script.specs.FaultPlaces.{IsAtItsPlace};
ghost use Rattle.swift_script.specs.Refuses.{Refuses};
ghost use Rattle.nuchapay_tool.specs.Advised.{help_text};
ghost use Rattle.nuchapay_tool.specs.Marks.{mark_of};
ghost use Rattle.nuchapay_tool.specs.ChecksJson.{IsRefusedFileJson, IsRefusedJson, Tells, accepted_json, advice_json, body_json, bytes_json, code_json, column_of, counts_json, from_of, place_json, refused_file_json, rootless_json, second_json, to_of};

use crate::advice::{Advice, Second, advise};
use crate::checks::{Checked, help_of};
use crate::files::FileRefusal;
use crate::fixes::Change;
use crate::json_text::{escaped_name, escaped_text};
use crate::mark::{LineMark, mark_of};
use crate::page::Page;
use crate::pages::page_of;
use crate::topic::Topic;
use script_tokens::{Span, line_of};
use std::alloc::{AllocError, Global};
use swift_script::{Script, ScriptFault, read};

/// Reads a text and says whether it is a script, as `check` does, as a line of JSON for an editor (the form is our own): an object with
/// the members `file`, `accepted`, `actors`, `methods` and `roots` where it is, and `diagnostics`, a list of one object or none. Each has
/// `severity`, `code`, `title`, `from` and `to` in bytes from 0, `line` and `column` in bytes from 1, `expected`, `help`, `second` with its
/// place and its `label`, and `fix` with its place and its `text`; `second` and `fix` may be `null`. Where no place is known, it is 0.
///
/// # Errors
///
/// `AllocError` where there is no memory for what is to be said. Where there was none to read the text, it is refused with S14.
pub fn check_json(alloc: Global, file: &str, text: &[u8]) -> Result<Checked, AllocError>
    ensures { IfOk result (Tells text.now) }
{
    match read(alloc, text) {
        Ok(script) => {
            let name = escaped_name(alloc, file)?;
            Ok(Checked::Accepted(accepted_json(alloc, &name, &script)?))
        }
        Err(fault) => Ok(Checked::Refused(refused_json(alloc, file, text, fault)?)),
    }
}

/// Says that a file is refused before there is a script, as `check_json` says it of a script, as a line of JSON. `text` is what stands in
/// the file. The place is that of the bytes to blame; `expected` is empty, and `second` and `fix` are `null`. Linear in the text.
///
/// # Errors
///
/// `AllocError` where there is no memory for it.
pub fn refused_file_json(
    alloc: Global,
    file: &str,
    text: &[u8],
    refusal: FileRefusal,
) -> Result<String, AllocError>
    ensures { IfOk result (λ said. IsRefusedFileJson text.now refusal (string_bytes said)) }
{
    let name = escaped_name(alloc, file)?;
    file_json(alloc, &name, text, refusal)
}

// What is said of a file that is refused.
fn file_json(
    alloc: Global,
    name: &String,
    text: &[u8],
    refusal: FileRefusal,
) -> Result<String, AllocError>
    ensures { IfOk result (λ said. string_bytes said ≡ refused_file_json (string_bytes name.now) text.now refusal) }
{
    let FileRefusal { from, to, .. } = refusal;
    let code = code_json(alloc, refusal.code, refusal.title)?;
    let place = bytes_json(alloc, text, Span { from, to })?;
    let said = advice_json(alloc, "", refusal.help)?;
    let parts = [
        "{\"file\":\"",
        name.as_str(),
        "\",\"accepted\":false,\"diagnostics\":[",
        code.as_str(),
        place.as_str(),
        said.as_str(),
        "\"second\":null,\"fix\":null}]}\n",
    ];
    parts.as_slice().concat(alloc)
}

// What is said of a script.
fn accepted_json(alloc: Global, name: &String, script: &Script) -> Result<String, AllocError>
    ensures { IfOk result (λ said. string_bytes said ≡ accepted_json (string_bytes name.now) script.now) }
{
    let body = body_json(alloc, script)?;
    let parts = [
        "{\"file\":\"",
        name.as_str(),
        "\",\"accepted\":true,",
        body.as_str(),
    ];
    parts.as_slice().concat(alloc)
}

// Its counts, and a note where it has no root.
fn body_json(alloc: Global, script: &Script) -> Result<String, AllocError>
    ensures { IfOk result (λ said. string_bytes said ≡ body_json script.now) }
{
    let counts = counts_json(alloc, script)?;
    let parts = [
        counts.as_str(),
        "\"diagnostics\":[",
        rootless_json(script.root_count()),
        "]}\n",
    ];
    parts.as_slice().concat(alloc)
}

// How many actors, methods and roots a script has.
fn counts_json(alloc: Global, script: &Script) -> Result<String, AllocError>
    ensures { IfOk result (λ said. string_bytes said ≡ counts_json script.now) }
{
    let actors = script.actor_count().to_string(alloc)?;
    let methods = script.method_count().to_string(alloc)?;
    let roots = script.root_count().to_string(alloc)?;
    let parts = [
        "\"actors\":",
        actors.as_str(),
        ",\"methods\":",
        methods.as_str(),
        ",\"roots\":",
        roots.as_str(),
        ",",
    ];
    parts.as_slice().concat(alloc)
}

// What is said of a script without a root.
fn rootless_json(count: usize) -> &'static str
    ensures { result.now ≡ rootless_json count }
{
    if count == 0 {
        "{\"severity\":\"note\",\"code\":\"\",\"title\":\"no root\",\"from\":0,\"to\":0,\"line\":1,\"column\":1,\"expected\":\"\",\"help\":\"nothing of it will run: `root a = A.f();` begins a task\",\"second\":null,\"fix\":null}"
    } else {
        ""
    }
}

// What is said of a text that is refused.
fn refused_json(
    alloc: Global,
    file: &str,
    text: &[u8],
    fault: ScriptFault,
) -> Result<String, AllocError>
    requires cause { Refuses fault.kind text.now }
    requires place { IsAtItsPlace fault text.now }
    ensures { IfOk result (λ said. IsRefusedJson text.now (string_bytes said)) }
{
    let page = page_of(Topic::Script(fault.kind));
    let advice = advise(alloc, text, fault.kind, fault.span)?;
    let second = second_json(alloc, text, advice.second)?;
    let said = said_json(alloc, page, &advice)?;
    let fix = fix_json(alloc, text, &advice.fix)?;
    drop(advice);
    let name = escaped_name(alloc, file)?;
    let code = code_json(alloc, page.name, page.title)?;
    let mark = mark_of(text, fault.line, fault.span);
    let place = place_json(alloc, text, fault.line, fault.span, mark)?;
    let parts = [
        "{\"file\":\"",
        name.as_str(),
        "\",\"accepted\":false,\"diagnostics\":[",
        code.as_str(),
        place.as_str(),
        said.as_str(),
        second.as_str(),
        fix.as_str(),
        "}]}\n",
    ];
    parts.as_slice().concat(alloc)
}

// The number and the title of a refusal.
#[tactic(auto, unfolding(crate::specs::ChecksJson::code_json))]
fn code_json(alloc: Global, name: &str, title: &str) -> Result<String, AllocError>
    ensures { IfOk result (λ said. string_bytes said ≡ code_json name.now title.now) }
{
    let parts = [
        "{\"severity\":\"error\",\"code\":\"",
        name,
        "\",\"title\":\"",
        title,
        "\",",
    ];
    parts.as_slice().concat(alloc)
}

// The place of some bytes, with the mark on their line.
#[tactic(auto, unfolding(crate::specs::ChecksJson::place_json))]
fn place_json(
    alloc: Global,
    text: &[u8],
    line: u32,
    span: Option<Span>,
    mark: Option<LineMark>,
) -> Result<String, AllocError>
    ensures { IfOk result (λ said. string_bytes said ≡ place_json text.now line span mark) }
{
    let from = from_of(text, span).to_string(alloc)?;
    let to = to_of(text, span).to_string(alloc)?;
    let column = column_of(line, mark).to_string(alloc)?;
    let line = line.to_string(alloc)?;
    let parts = [
        "\"from\":",
        from.as_str(),
        ",\"to\":",
        to.as_str(),
        ",\"line\":",
        line.as_str(),
        ",\"column\":",
        column.as_str(),
        ",",
    ];
    parts.as_slice().concat(alloc)
}

// The place of some bytes, on the line of the first.
#[tactic(auto, unfolding(crate::specs::ChecksJson::bytes_json))]
fn bytes_json(alloc: Global, text: &[u8], span: Span) -> Result<String, AllocError>
    ensures { IfOk result (λ said. string_bytes said ≡ bytes_json text.now span) }
{
    let line = line_of(text, span.from);
    let first = Span {
        from: span.from,
        to: span.from,
    };
    let mark = mark_of(text, line, Some(first));
    place_json(alloc, text, line, Some(span), mark)
}

// The first of some bytes; 0 where they are not known.
fn from_of(text: &[u8], span: Option<Span>) -> usize
    ensures { result ≡ from_of text.now span }
{
    match span {
        Some(span) => span.from.min(text.len()),
        None => 0,
    }
}

// The first after some bytes; 0 where they are not known.
fn to_of(text: &[u8], span: Option<Span>) -> usize
    ensures { result ≡ to_of text.now span }
{
    match span {
        Some(span) => span.to.min(text.len()),
        None => 0,
    }
}

// The column of a mark on a line; where there is none the first, and none on line 0.
fn column_of(line: u32, mark: Option<LineMark>) -> usize
    ensures { result ≡ column_of line mark }
{
    match mark {
        Some(mark) => mark.column,
        None => { if line == 0 { 0 } else { 1 } }
    }
}

fn said_json(alloc: Global, page: &Page, advice: &Advice) -> Result<String, AllocError>
    ensures { IfOk result (λ said. string_bytes said ≡ advice_json (string_bytes advice.now.expected) (help_text (string_bytes advice.now.help) page.now)) }
{
    let expected = advice.expected.as_str();
    let help = help_of(advice.help.as_str(), page);
    advice_json(alloc, expected, help)
}

// What was expected, and what to do.
#[tactic(auto, unfolding(crate::specs::ChecksJson::advice_json))]
fn advice_json(alloc: Global, expected: &str, help: &str) -> Result<String, AllocError>
    ensures { IfOk result (λ said. string_bytes said ≡ advice_json expected.now help.now) }
{
    let expected = escaped_text(alloc, expected)?;
    let help = escaped_text(alloc, help)?;
    let parts = [
        "\"expected\":\"",
        expected.as_str(),
        "\",\"help\":\"",
        help.as_str(),
        "\",",
    ];
    parts.as_slice().concat(alloc)
}

// A second token that is concerned.
#[tactic(auto, unfolding(crate::specs::ChecksJson::second_json))]
fn second_json(alloc: Global, text: &[u8], second: Option<Second>) -> Result<String, AllocError>
    ensures { IfOk result (λ said. string_bytes said ≡ second_json text.now second) }
{
    match second {
        Some(second) => label_json(alloc, text, second),
        None => String::from_str(alloc, "\"second\":null,"),
    }
}

#[tactic(auto, unfolding(crate::specs::ChecksJson::second_json))]
fn label_json(alloc: Global, text: &[u8], second: Second) -> Result<String, AllocError>
    ensures { IfOk result (λ said. string_bytes said ≡ second_json text.now (Some second)) }
{
    let span = Some(second.span);
    let mark = mark_of(text, second.line, span);
    let place = place_json(alloc, text, second.line, span, mark)?;
    let parts = [
        "\"second\":{",
        place.as_str(),
        "\"label\":\"",
        second.label,
        "\"},",
    ];
    parts.as_slice().concat(alloc)
}

// What to write, and where.
fn fix_json(alloc: Global, text: &[u8], fix: &Option<Change>) -> Result<String, AllocError> {
    match fix {
        Some(change) => change_json(alloc, text, change),
        None => String::from_str(alloc, "\"fix\":null"),
    }
}

fn change_json(alloc: Global, text: &[u8], change: &Change) -> Result<String, AllocError> {
    let place = bytes_json(alloc, text, change.span)?;
    let words = escaped_text(alloc, change.text.as_str())?;
    let parts = [
        "\"fix\":{",
        place.as_str(),
        "\"text\":\"",
        words.as_str(),
        "\"}",
    ];
    parts.as_slice().concat(alloc)
}
