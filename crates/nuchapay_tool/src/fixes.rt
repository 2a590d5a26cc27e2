//! What to write, where that helps.

ghost use Rattle.std.specs.Prelude.{◌≡◌, ◌≤◌, IfOk, IfSome, length};
ghost use Rattle.nuchapay_tool.specs.Advised.{IsWithin};

use crate::source::shown;
use script_hints::{Fix, FixPlace};
use script_tokens::Span;
use std::alloc::{AllocError, Global};
use swift_script::{ScriptFaultKind, read};

/// What to write in the place of some bytes (our own).
#[derive(Drop)]
pub(crate) struct Change {
    /// The bytes.
    pub span: Span,
    /// What to write.
    pub text: String,
}

/// The change that a fix is, if its tokens are among these.
pub(crate) fn change_of(
    alloc: Global,
    spans: &[Span],
    fix: Option<Fix>,
) -> Result<Option<Change>, AllocError> {
    let Some(fix) = fix else {
        return Ok(None);
    };
    match span_of(spans, fix.place) {
        Some(span) => Ok(Some(Change {
            span,
            text: shown(alloc, &fix.text)?,
        })),
        None => Ok(None),
    }
}

fn span_of(spans: &[Span], place: FixPlace) -> Option<Span> {
    match place {
        FixPlace::After(place) => {
            let span = spans.get(place)?;
            Some(Span {
                from: span.to,
                to: span.to,
            })
        }
        FixPlace::Over(first, last) => {
            let from = spans.get(first)?.from;
            let to = spans.get(last)?.to;
            Some(Span { from, to })
        }
    }
}

/// A change, if the text is accepted with it or is refused further on.
pub(crate) fn offered(
    alloc: Global,
    text: &[u8],
    kind: ScriptFaultKind,
    blame: Span,
    change: Option<Change>,
) -> Result<Option<Change>, AllocError>
    ensures { IfOk result (λ found. IfSome found (λ c. IsWithin text.now c.span)) }
{
    let Some(change) = change else {
        return Ok(None);
    };
    let Span { from, to } = change.span;
    if from > to || to > text.len() {
        return Ok(None);
    }
    if is_better(alloc, text, kind, blame, &change)? {
        Ok(Some(change))
    } else {
        Ok(None)
    }
}

fn is_better(
    alloc: Global,
    text: &[u8],
    kind: ScriptFaultKind,
    blame: Span,
    change: &Change,
) -> Result<bool, AllocError>
    requires order { change.now.span.from ≤ change.now.span.to }
    requires within { change.now.span.to ≤ length text.now }
{
    let Span { from, to } = change.span;
    let parts = [&text[..from], change.text.as_bytes(), &text[to..]];
    let changed: Vec<u8> = parts.as_slice().concat(alloc)?;
    let fault = match read(alloc, &changed) {
        Ok(script) => {
            drop(script);
            return Ok(true);
        }
        Err(fault) => fault,
    };
    if fault.kind == ScriptFaultKind::Memory {
        return Err(AllocError);
    }
    if stage(fault.kind) != stage(kind) {
        return Ok(stage(fault.kind) > stage(kind));
    }
    match fault.span {
        Some(next) => {
            let is_after = next.from >= from.saturating_add(change.text.len());
            let left = changed.len().saturating_sub(next.from);
            Ok(is_after && left < text.len().saturating_sub(blame.from))
        }
        None => Ok(false),
    }
}

// How far a text was read that is refused so.
fn stage(kind: ScriptFaultKind) -> u8 {
    match kind {
        ScriptFaultKind::Memory => 0,
        ScriptFaultKind::NotText => 1,
        ScriptFaultKind::Unexpected | ScriptFaultKind::OutOfRange => 2,
        ScriptFaultKind::EndsEarly | ScriptFaultKind::TooDeep => 2,
        ScriptFaultKind::InvariantFalse => 4,
        ScriptFaultKind::RootWaits => 5,
        _ => 3,
    }
}
