//! The rules on names and counts.

ghost use Rattle.std.specs.Prelude.{◌≡◌, ◌≤◌, None, map, IfOk, IfErr};
ghost use Rattle.swift_types.specs.declared.limits.TheConstants.{BYTES};
ghost use Rattle.script_grammar.specs.Tree.{view_decl};
ghost use Rattle.script_grammar.specs.Size.{script_size};
ghost use Rattle.script_names.specs.Rules.{names_in, names_error};
ghost use Rattle.script_printing.specs.Script.{script_in};
ghost use Rattle.script_compiler.specs.IsCompiled.{IsCompiled};
ghost use Rattle.swift_script.specs.Scripts.{parts_of};
ghost use Rattle.swift_script.specs.FaultPlaces.{IsAtItsPlace, fault_line, past_name};
ghost use Rattle.swift_script.specs.Refuses.{Refuses};
ghost use Rattle.swift_script.specs.SpelledInside.{IsSpelled, names_kind, check_kind, check_span};

use crate::fault::{ScriptFault, ScriptFaultKind};
use crate::place::{Sought, place_of, span_at};
use crate::spelled::fault_at;
use script_compiler::{Compiled, compile};
use script_grammar::Decl;
use script_names::{CheckError, NameErrorKind, Seed};
use script_tokens::Tokens;
use std::alloc::Global;

/// What the declarations are compiled to, where their names are in order.
pub(crate) fn compile_named(
    alloc: Global,
    text: &[u8],
    decls: &[Decl],
    tokens: &Tokens,
) -> Result<Compiled, ScriptFault>
    requires names { names_in (map view_decl decls.now) ≤ BYTES }
    requires size { script_size (map view_decl decls.now) ≤ BYTES }
    ensures names { IfOk result (λ d. names_error (map view_decl decls.now) ≡ None) }
    ensures compiled { IfOk result (λ c. IsCompiled c (parts_of (script_in (map view_decl decls.now)))) }
    ensures refused { IsSpelled text.now (map view_decl decls.now) tokens.now → IfErr result (λ e. Refuses e.kind text.now) }
    ensures place { IsSpelled text.now (map view_decl decls.now) tokens.now → IfErr result (λ e. IsAtItsPlace e text.now) }
{
    match compile(alloc, Seed::of(text), decls) {
        Ok(compiled) => Ok(compiled),
        Err(error) => Err(refusal(text, tokens, error)),
    }
}

fn refusal(text: &[u8], tokens: &Tokens, error: CheckError) -> ScriptFault
    ensures kind { result.kind ≡ check_kind error }
    ensures span { result.span ≡ check_span text.now tokens.now error }
    ensures line { result.line ≡ fault_line result.span result.kind text.now }
{
    match error {
        CheckError::Memory => ScriptFault::MEMORY,
        CheckError::Name(found) => {
            let name = place_of(&tokens.tokens, Sought::Name, found.names_before as usize);
            let place = name.saturating_add(past_name(found.kind));
            fault_at(
                text,
                span_at(text, &tokens.spans, place),
                kind_of(found.kind),
            )
        }
    }
}

// How many tokens after the name the fault stands.
fn past_name(kind: NameErrorKind) -> usize
    ensures { result ≡ past_name kind }
{
    match kind {
        NameErrorKind::TooGreat => 2,
        _ => 0,
    }
}

fn kind_of(kind: NameErrorKind) -> ScriptFaultKind
    ensures { result ≡ names_kind kind }
{
    match kind {
        NameErrorKind::Twice => ScriptFaultKind::NameTwice,
        NameErrorKind::Unknown => ScriptFaultKind::UnknownName,
        NameErrorKind::Arguments => ScriptFaultKind::Arguments,
        NameErrorKind::Confused => ScriptFaultKind::Confused,
        NameErrorKind::BoundInside => ScriptFaultKind::BoundInside,
        NameErrorKind::TooMany | NameErrorKind::TooGreat => ScriptFaultKind::LimitPassed,
    }
}
