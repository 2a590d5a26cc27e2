//! The rules that are looked at once a script is compiled: on invariants, and on roots that wait.

ghost use Rattle.std.specs.Prelude.{◌≡◌, ◌≤◌, None, length, map, IfOk, IfSome, IfNone};
ghost use Rattle.swift_types.specs.declared.limits.TheConstants.{BYTES};
ghost use Rattle.script_grammar.specs.Tree.{view_actor};
ghost use Rattle.script_compiler.specs.IsCompiled.{IsCompiled};
ghost use Rattle.swift_script.specs.Accepted.{first_false, NoRootWaits};
ghost use Rattle.swift_script.specs.BrokenInside.{IsBroken};
ghost use Rattle.swift_script.specs.FaultPlaces.{IsAtItsPlace, invariants_before};
ghost use Rattle.swift_script.specs.Refuses.{Refuses};
ghost use Rattle.swift_script.specs.ScriptInvariant.{tree_of};
ghost use Rattle.swift_script.specs.Scripts.{parts_of};
ghost use Rattle.swift_script.specs.SpelledInside.{IsNamed};

use crate::fault::{ScriptFault, ScriptFaultKind};
use crate::place::{Sought, place_of, span_at};
use crate::spelled::fault_at;
use crate::split::Declarations;
use script_compiler::{Compiled, first_false, first_waiting_root};
use script_grammar::Actor;
use script_tokens::Tokens;
use std::alloc::{AllocError, Global};

/// A rule that a compiled script breaks, and what breaks it.
#[derive(Clone, Copy)]
pub(crate) enum BrokenRule {
    /// The invariant of the actor at this place does not hold at the start.
    FalseInvariant(usize),
    /// The root at this place waits for itself or for a later one.
    WaitingRoot(usize),
}

// How many of the actors before a place have an invariant.
fn invariants_before(actors: &[Actor], place: usize) -> usize
    ensures { result ≡ invariants_before place (map view_actor actors.now) }
{
    let mut count = 0;
    for (k, actor) in actors.iter().enumerate() {
        if k == place {
            return count;
        }
        if actor.invariant.is_some() {
            count += 1;
        }
    }
    count
}

/// The first rule that a compiled script breaks: that each actor's invariant holds of what the fields of its executor's actors start
/// with, and that each root waits only for roots that are declared before it. Linear in the fields, the invariants, the instructions
/// and the roots. `Err` says that there was no memory.
pub(crate) fn first_broken(
    alloc: Global,
    declarations: &Declarations,
    compiled: &Compiled,
) -> Result<Option<BrokenRule>, AllocError>
    requires compiled { IsCompiled compiled.now (parts_of (tree_of declarations.now)) }
    requires few { length compiled.now.methods.items ≤ BYTES }
    ensures broken { IfOk result (λ found. IfSome found (IsBroken (tree_of declarations.now))) }
    ensures starts { IfOk result (λ found. IfNone found (first_false (tree_of declarations.now) ≡ None)) }
    ensures waits { IfOk result (λ found. IfNone found (NoRootWaits (tree_of declarations.now))) }
{
    // The clauses alone speak of the declarations.
    let _ = declarations;
    match first_false(alloc, compiled)? {
        None => match first_waiting_root(alloc, compiled)? {
            None => Ok(None),
            Some(root) => Ok(Some(BrokenRule::WaitingRoot(root))),
        },
        Some(actor) => Ok(Some(BrokenRule::FalseInvariant(actor))),
    }
}

/// The fault of a script that breaks a rule, at the keyword of what breaks it. Linear in the text.
pub(crate) fn fault_of(
    text: &[u8],
    tokens: &Tokens,
    declarations: &Declarations,
    rule: BrokenRule,
) -> ScriptFault
    requires { IsBroken (tree_of declarations.now) rule }
    ensures refused { IsNamed text.now (tree_of declarations.now) tokens.now → Refuses result.kind text.now }
    ensures place { IsNamed text.now (tree_of declarations.now) tokens.now → IsAtItsPlace result text.now }
{
    match rule {
        BrokenRule::FalseInvariant(actor) => {
            let before = invariants_before(&declarations.actors, actor);
            let place = place_of(&tokens.tokens, Sought::Invariant, before);
            fault_at(
                text,
                span_at(text, &tokens.spans, place),
                ScriptFaultKind::InvariantFalse,
            )
        }
        BrokenRule::WaitingRoot(root) => {
            let place = place_of(&tokens.tokens, Sought::Root, root);
            fault_at(
                text,
                span_at(text, &tokens.spans, place),
                ScriptFaultKind::RootWaits,
            )
        }
    }
}
