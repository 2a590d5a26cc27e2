//! From bytes to declarations.

ghost use Rattle.std.specs.Prelude.{◌≡◌, ◌≤◌, map, length, true, Some, IfOk, IfErr};
ghost use Rattle.script_tokens.specs.Bytes.{is_text};
ghost use Rattle.script_grammar.specs.Tree.{view_decl};
ghost use Rattle.swift_script.specs.Accepted.{IsPlain};
ghost use Rattle.swift_script.specs.FaultPlaces.{IsAtItsPlace, fault_line};
ghost use Rattle.swift_script.specs.Refuses.{Refuses};
ghost use Rattle.swift_script.specs.SpelledInside.{AreKept, IsSpelled, grammar_kind, read_kind, read_span};

use crate::fault::{ScriptFault, ScriptFaultKind};
use crate::place::span_at;
use script_grammar::Decl;
use script_parser::{Kind, ReadError, parse};
use script_tokens::{Span, Tokens, line_of, stray_byte, tokens};
use std::alloc::Global;
use swift_types::limits::BYTES;

/// The declarations of a text, and its tokens.
#[derive(Drop)]
pub(crate) struct Spelled {
    pub decls: Vec<Decl>,
    pub tokens: Tokens,
}

/// The declarations that a text spells.
pub(crate) fn spell(alloc: Global, text: &[u8]) -> Result<Spelled, ScriptFault>
    ensures spelled { IfOk result (λ s. IsSpelled text.now (map view_decl s.decls.items) s.tokens) }
    ensures refused { IfErr result (λ e. Refuses e.kind text.now) }
    ensures place { IfErr result (λ e. IsAtItsPlace e text.now) }
{
    if text.len() > BYTES {
        return Err(ScriptFault::TOO_LONG);
    }
    if let Some(from) = stray_byte(text) {
        let span = Span { from, to: from + 1 };
        return Err(fault_at(text, span, ScriptFaultKind::NotText));
    }
    let tokens = all_tokens(alloc, text)?;
    declarations(alloc, text, tokens)
}

/// The tokens of a text.
pub(crate) fn all_tokens(alloc: Global, text: &[u8]) -> Result<Tokens, ScriptFault>
    ensures kept { IfOk result (AreKept text.now) }
    ensures refused { IfErr result (λ e. Refuses e.kind text.now) }
    ensures place { IfErr result (λ e. IsAtItsPlace e text.now) }
{
    match tokens(alloc, text) {
        Ok(tokens) => Ok(tokens),
        Err(_) => Err(ScriptFault::MEMORY),
    }
}

// The declarations that the tokens of a plain text spell.
fn declarations(alloc: Global, text: &[u8], tokens: Tokens) -> Result<Spelled, ScriptFault>
    requires plain { IsPlain text.now }
    requires kept { AreKept text.now tokens }
    ensures spelled { IfOk result (λ s. IsSpelled text.now (map view_decl s.decls.items) s.tokens) }
    ensures refused { IfErr result (λ e. Refuses e.kind text.now) }
    ensures place { IfErr result (λ e. IsAtItsPlace e text.now) }
{
    match parse(alloc, &tokens.tokens) {
        Ok(decls) => Ok(Spelled { decls, tokens }),
        Err(error) => Err(refusal(text, &tokens, error)),
    }
}

fn refusal(text: &[u8], tokens: &Tokens, error: ReadError) -> ScriptFault
    ensures kind { result.kind ≡ read_kind error }
    ensures span { result.span ≡ read_span text.now tokens.now error }
    ensures line { result.line ≡ fault_line result.span result.kind text.now }
{
    match error {
        ReadError::Memory => ScriptFault::MEMORY,
        ReadError::Fault(found) => {
            let place = tokens.spans.len().saturating_sub(found.tokens_left);
            let span = span_at(text, &tokens.spans, place);
            fault_at(text, span, kind_of(found.kind))
        }
    }
}

/// A fault of these bytes.
pub(crate) fn fault_at(text: &[u8], span: Span, kind: ScriptFaultKind) -> ScriptFault
    ensures kind { result.kind ≡ kind }
    ensures span { result.span ≡ Some span }
    ensures line { result.line ≡ fault_line result.span result.kind text.now }
{
    ScriptFault {
        line: line_of(text, span.from),
        kind,
        span: Some(span),
    }
}

fn kind_of(kind: Kind) -> ScriptFaultKind
    ensures { result ≡ grammar_kind kind }
{
    match kind {
        Kind::Unexpected => ScriptFaultKind::Unexpected,
        Kind::OutOfRange => ScriptFaultKind::OutOfRange,
        Kind::EndsEarly => ScriptFaultKind::EndsEarly,
        Kind::TooDeep => ScriptFaultKind::TooDeep,
    }
}
