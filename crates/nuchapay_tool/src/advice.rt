//! What helps to mend a text that is refused.

ghost use Rattle.std.specs.Prelude.{◌≡◌, ◌≤◌, IfOk, IfSome, Ok, length, nat_lt};
ghost use Rattle.std.specs.List.{prefix_len};
ghost use Rattle.std.specs.String.{string_bytes};
ghost use Rattle.script_tokens.specs.Spans.{StandAt};
ghost use Rattle.nuchapay_tool.specs.Advised.{Helps, HelpsByte, HelpsToken, HintHelps, IsHelp, IsOnToken, IsWithin, bytes_of};

use crate::fixes::{Change, change_of, offered};
use crate::source::shown;
use script_context::Blamed;
use script_hints::{
    Hint, Note, arguments_hint, bound_hint, confused_hint, deep_hint, end_hint,
    false_invariant_hint, huge_hint, limit_hint, root_hint, stray_hint, twice_hint,
    unexpected_hint, unknown_hint,
};
use script_tokens::{Span, Tokens, line_of, tokens};
use std::alloc::{AllocError, Global};
use swift_script::ScriptFaultKind;

/// A second token that is concerned (our own).
#[derive(Clone, Copy)]
pub(crate) struct Second {
    /// Its bytes.
    pub span: Span,
    /// The line on which it begins.
    pub line: u32,
    /// What is said of it.
    pub label: &'static str,
}

/// What helps to mend a text that is refused (our own).
#[derive(Drop)]
pub(crate) struct Advice {
    /// What could have stood there, and what does; empty where that says nothing.
    pub expected: String,
    /// What to do; empty where nothing better is known than what the page of the refusal says.
    pub help: String,
    /// The second token that is concerned.
    pub second: Option<Second>,
    /// What to write.
    pub fix: Option<Change>,
}

// A hint, and the bytes of each token.
#[derive(Drop)]
struct Found {
    hint: Hint,
    spans: Vec<Span>,
}

impl Advice {
    // What helps, from the calls that made its parts.
    fn of(
        expected: Result<String, AllocError>,
        help: Result<String, AllocError>,
        second: Option<Second>,
        fix: Result<Option<Change>, AllocError>,
    ) -> Result<Advice, AllocError>
        ensures help { IfOk result (λ a. help ≡ Ok a.help) }
        ensures second { IfOk result (λ a. a.second ≡ second) }
        ensures fix { IfOk result (λ a. fix ≡ Ok a.fix) }
    {
        let expected = expected?;
        let help = help?;
        let fix = fix?;
        Ok(Advice {
            expected,
            help,
            second,
            fix,
        })
    }
}

/// What helps to mend a text that is refused for this cause at these bytes. A fix is offered only where the text is read further with it.
/// It takes the time of some sixty readings of the method that is concerned, and one of the text.
///
/// # Errors
///
/// `AllocError` where there is no memory for it.
pub(crate) fn advise(
    alloc: Global,
    text: &[u8],
    kind: ScriptFaultKind,
    blame: Option<Span>,
) -> Result<Advice, AllocError>
    ensures help { IfOk result (λ a. IsHelp kind text.now blame (string_bytes a.help)) }
    ensures second { IfOk result (λ a. IfSome a.second (λ s. IsOnToken text.now s.span)) }
    ensures fix { IfOk result (λ a. IfSome a.fix (λ c. IsWithin text.now c.span)) }
{
    match blame {
        None => Ok(Advice {
            expected: String::new(alloc),
            help: String::new(alloc),
            second: None,
            fix: None,
        }),
        Some(blame) => match kind {
            ScriptFaultKind::NotText => of_byte(alloc, text, blame),
            _ => of_token(alloc, text, kind, blame),
        },
    }
}

// What helps at a byte that no script has.
fn of_byte(alloc: Global, text: &[u8], blame: Span) -> Result<Advice, AllocError>
    ensures help { IfOk result (λ a. HelpsByte (string_bytes a.help)) }
    ensures second { IfOk result (λ a. IfSome a.second (λ s. IsOnToken text.now s.span)) }
    ensures fix { IfOk result (λ a. IfSome a.fix (λ c. IsWithin text.now c.span)) }
{
    let from = blame.from.min(text.len());
    let hint = stray_hint(alloc, &text[from..], is_in_comment(&text[..from]))?;
    let help = shown(alloc, &hint.help);
    let to = from.saturating_add(hint.width).min(text.len());
    let change = in_place(alloc, Span { from, to }, hint.text);
    drop(hint);
    let fix = match change {
        Ok(change) => offered(alloc, text, ScriptFaultKind::NotText, blame, change),
        Err(error) => Err(error),
    };
    Advice::of(Ok(String::new(alloc)), help, None, fix)
}

// These words in the place of some bytes.
fn in_place(
    alloc: Global,
    span: Span,
    words: Option<&'static str>,
) -> Result<Option<Change>, AllocError> {
    match words {
        Some(words) => {
            let text = String::from_str(alloc, words)?;
            Ok(Some(Change { span, text }))
        }
        None => Ok(None),
    }
}

// Whether a comment stands open at the end of a text.
fn is_in_comment(text: &[u8]) -> bool {
    let mut slashes = 0u8;
    let mut is_open = false;
    for byte in text {
        match *byte {
            b'\n' => {
                is_open = false;
                slashes = 0;
            }
            b'/' if slashes == 0 => slashes = 1,
            b'/' => is_open = true,
            _ => slashes = 0,
        }
    }
    is_open
}

// What helps at a token, or at the end.
fn of_token(
    alloc: Global,
    text: &[u8],
    kind: ScriptFaultKind,
    blame: Span,
) -> Result<Advice, AllocError>
    ensures help { IfOk result (λ a. HelpsToken kind text.now blame (string_bytes a.help)) }
    ensures second { IfOk result (λ a. IfSome a.second (λ s. IsOnToken text.now s.span)) }
    ensures fix { IfOk result (λ a. IfSome a.fix (λ c. IsWithin text.now c.span)) }
{
    let Found { hint, spans } = hint_at(alloc, text, kind, blame)?;
    let help = shown(alloc, &hint.help);
    let expected = shown(alloc, &hint.expected);
    let second = second_of(text, &spans, hint.note);
    let change = change_of(alloc, &spans, hint.fix);
    let fix = match change {
        Ok(change) => offered(alloc, text, kind, blame, change),
        Err(error) => Err(error),
    };
    Advice::of(expected, help, second, fix)
}

// What helps at the token that begins with the first of these bytes, or at the end.
fn hint_at(
    alloc: Global,
    text: &[u8],
    kind: ScriptFaultKind,
    blame: Span,
) -> Result<Found, AllocError>
    ensures helps { IfOk result (λ found. HintHelps kind text.now blame found.hint.help.items) }
    ensures spans { IfOk result (λ found. StandAt text.now text.now found.spans.items) }
{
    let Tokens { tokens, spans } = tokens(alloc, text)?;
    let blamed = Blamed {
        tokens: &tokens,
        place: place_at(&spans, blame.from),
        found: bytes_of(text, blame),
    };
    let hint = hint_of(alloc, kind, blamed)?;
    Ok(Found { hint, spans })
}

// How many tokens begin before a byte.
fn place_at(spans: &[Span], from: usize) -> usize
    ensures { result ≡ prefix_len (λ s. nat_lt s.from from) spans.now }
{
    spans.iter().take_while(|span| span.from < from).count()
}

fn bytes_of(text: &[u8], span: Span) -> &[u8]
    ensures { result.now ≡ bytes_of text.now span }
{
    let to = span.to.min(text.len());
    &text[span.from.min(to)..to]
}

// What helps, by the cause.
fn hint_of(alloc: Global, kind: ScriptFaultKind, blamed: Blamed<'_>) -> Result<Hint, AllocError>
    ensures { IfOk result (λ hint. Helps kind blamed.entry hint.help.items) }
{
    match kind {
        ScriptFaultKind::Unexpected => unexpected_hint(alloc, blamed),
        ScriptFaultKind::OutOfRange => huge_hint(alloc, blamed),
        ScriptFaultKind::NameTwice => twice_hint(alloc, blamed),
        ScriptFaultKind::UnknownName => unknown_hint(alloc, blamed),
        ScriptFaultKind::Arguments => arguments_hint(alloc, blamed),
        ScriptFaultKind::Confused => confused_hint(alloc, blamed),
        ScriptFaultKind::InvariantFalse => false_invariant_hint(alloc, blamed),
        ScriptFaultKind::BoundInside => bound_hint(alloc, blamed),
        ScriptFaultKind::RootWaits => root_hint(alloc, blamed),
        ScriptFaultKind::LimitPassed => limit_hint(alloc, blamed),
        ScriptFaultKind::EndsEarly => end_hint(alloc, blamed),
        ScriptFaultKind::TooDeep => deep_hint(alloc, blamed),
        ScriptFaultKind::NotText | ScriptFaultKind::Memory => Ok(Hint::none(alloc)),
    }
}

// The bytes of the second token.
fn second_of(text: &[u8], spans: &[Span], note: Option<Note>) -> Option<Second>
    requires { StandAt text.now text.now spans.now }
    ensures { IfSome result (λ s. IsOnToken text.now s.span) }
{
    let Some(note) = note else {
        return None;
    };
    match spans.get(note.place).copied() {
        Some(span) => Some(Second {
            span,
            line: line_of(text, span.from),
            label: note.label,
        }),
        None => None,
    }
}
