//! Laws of scripts. They call nothing: each is its contract.

ghost use Rattle.std.specs.Prelude.{◌≡◌, ◌<◌, ◌≤◌, ℕ, List, IsTrue, length};
ghost use Rattle.swift_types.specs.declared.limits.TheConstants.{BYTES};
ghost use Rattle.script_grammar.specs.Size.{script_size};
ghost use Rattle.script_grammar.specs.Tree.{DeclTree};
ghost use Rattle.script_names.specs.Rules.{names_in};
ghost use Rattle.script_code.specs.Value.{holds};
ghost use Rattle.script_printing.specs.Script.{ScriptView};
ghost use Rattle.script_printing.specs.Printed.{printed};
ghost use Rattle.swift_script.specs.Accepted.{IsPlain, Spells, SpellsDecls, WasAccepted};
ghost use Rattle.swift_script.specs.Scripts.{actor_count, actor_invariant, actor_executor, executor_start};

/// A law: a text spells at most one script, whatever the limits.
pub fn one_tree()
    ensures { (m n : ℕ) (text : List ℕ) (s t : ScriptView) → Spells m text s → Spells n text t → s ≡ t }
{}

/// A law: accepted scripts with one printed form are one script.
pub fn one_printed_form()
    ensures { (s t : ScriptView) → WasAccepted s → WasAccepted t → printed s ≡ printed t → s ≡ t }
{}

/// A law: each actor's invariant, if it has one, holds of what the fields of its executor's actors start with, in a
/// script that is accepted.
pub fn invariants_hold_at_the_start()
    ensures { (s : ScriptView) (actor : ℕ) → WasAccepted s → actor < actor_count s → IsTrue (holds (actor_invariant s actor) (executor_start s (actor_executor s actor))) }
{}

/// A law: a script is no larger than the text that spells it, whatever the limit of nesting, and so no larger than a text
/// may be long.
pub fn scripts_are_short()
    ensures text { (limit : ℕ) (text : List ℕ) (decls : List DeclTree) → SpellsDecls limit text decls → script_size decls ≤ length text }
    ensures bytes { (limit : ℕ) (text : List ℕ) (decls : List DeclTree) → IsPlain text → SpellsDecls limit text decls → script_size decls ≤ BYTES }
{}

/// A law: a script has no more names than the text that spells it has bytes, whatever the limit of nesting, and so no more
/// than a text may have bytes.
pub fn names_are_few()
    ensures text { (limit : ℕ) (text : List ℕ) (decls : List DeclTree) → SpellsDecls limit text decls → names_in decls ≤ length text }
    ensures bytes { (limit : ℕ) (text : List ℕ) (decls : List DeclTree) → IsPlain text → SpellsDecls limit text decls → names_in decls ≤ BYTES }
{}
