//! From the text of a script.

ghost use Rattle.std.specs.Prelude.{◌≡◌, IfErr, IfOk, map, None};
ghost use Rattle.script_grammar.specs.Tree.{view_decl};
ghost use Rattle.script_parser.specs.declared.limits.TheConstants.{NESTING};
ghost use Rattle.swift_script.specs.Accepted.{SpellsDecls};
ghost use Rattle.plain_forms.specs.Searches.{form_in};
ghost use Rattle.swift_plain.specs.declared.translated.PlainError.TheVariants.{Memory, Script};
ghost use Rattle.swift_plain.specs.Translations.{IsFileOf, IsPlainOf, IsRefusedAs, IsRefusedIn, IsWhyNot};

use crate::file::file_text;
use crate::thrower::throwers;
use plain_forms::{Form, FoundForm, first_form};
use script_grammar::Decl;
use script_parser::{ReadError, parse};
use script_tokens::{Keyword, Token, Tokens, line_of, tokens};
use std::alloc::{AllocError, Global};
use swift_script::{ScriptFault, read};

/// Why there is no plain Swift of a text (our own).
#[derive(Clone, Copy, Debug, PartialEq, Eq)]
pub enum PlainError {
    /// The text is refused as a script.
    Script(ScriptFault),
    /// A form of the script has no plain Swift: the first one, and the line of its first name or number.
    Form(u32, Form),
    /// There is no memory.
    Memory,
}

impl From<AllocError> for PlainError {
    ghost from_gives = { λ _ error. error ≡ Memory };

    fn from(_e: AllocError) -> PlainError {
        PlainError::Memory
    }
}

impl From<ScriptFault> for PlainError {
    ghost from_gives = { λ fault error. error ≡ Script fault };

    fn from(fault: ScriptFault) -> PlainError {
        PlainError::Script(fault)
    }
}

// Whether a token is a name, a number, or an atom that is a word.
fn is_atom(token: &Token) -> bool {
    match token {
        Token::Num(_) | Token::Name(_) => true,
        Token::Key(Keyword::Priority | Keyword::Cancelled) => true,
        _ => false,
    }
}

// The first byte of the atom that has so many before it; the end of the text, if there is none.
fn atom_place(text: &[u8], found: &Tokens, before: usize) -> usize {
    let mut left = before;
    for (token, span) in found.tokens.iter().zip(found.spans.iter()) {
        if is_atom(token) {
            if left == 0 {
                return span.from;
            }
            left -= 1;
        }
    }
    text.len()
}

// The declarations of a text that is a script.
fn declarations(alloc: Global, text: &[u8]) -> Result<Vec<Decl>, AllocError>
    ensures { IfOk result (λ decls. SpellsDecls NESTING text.now (map view_decl decls.items)) }
{
    let found = tokens(alloc, text)?;
    match parse(alloc, &found.tokens) {
        Ok(decls) => Ok(decls),
        Err(ReadError::Memory | ReadError::Fault(_)) => Err(AllocError),
    }
}

// The line of a form.
fn line_of_form(alloc: Global, text: &[u8], before: usize) -> Result<u32, AllocError> {
    let found = tokens(alloc, text)?;
    Ok(line_of(text, atom_place(text, &found, before)))
}

// The form that is found, with its line.
fn form_error(alloc: Global, text: &[u8], found: FoundForm) -> PlainError
    ensures { IsRefusedAs found.form result }
{
    match line_of_form(alloc, text, found.before) {
        Ok(line) => PlainError::Form(line, found.form),
        Err(_) => PlainError::Memory,
    }
}

// The form of a script that has no plain Swift, if there is one, as an error.
fn want_plain(alloc: Global, text: &[u8], decls: &[Decl]) -> Result<(), PlainError>
    ensures plain { IfOk result (λ done. form_in (map view_decl decls.now) ≡ None) }
    ensures refused { IfErr result (λ error. IsRefusedIn (map view_decl decls.now) error) }
{
    match first_form(decls) {
        Some(found) => Err(form_error(alloc, text, found)),
        None => Ok(()),
    }
}

// The file of declarations.
fn plain_text(alloc: Global, decls: &[Decl]) -> Result<Vec<u8>, AllocError>
    ensures { IfOk result (λ said. IsFileOf (map view_decl decls.now) said.items) }
{
    let known = throwers(alloc, decls)?;
    let said = file_text(alloc, decls, &known)?;
    Ok(said)
}

/// The plain Swift of a script, by its text: a file of the subset that is read back as that script, up to what docs/SWIFT_IN.md says (our
/// own).
///
/// # Errors
///
/// Why there is none: the text is no script, a form has no plain Swift, or there is no memory.
#[tactic(auto, using(crate::proofs::Why::why_not))]
pub fn plain_swift(alloc: Global, text: &[u8]) -> Result<Vec<u8>, PlainError>
    // It is the text that a definition gives of the declarations, none of which has a form without plain Swift.
    ensures translated { IfOk result (λ said. IsPlainOf text.now said.items) }
    // What is refused is no script, or has a form without plain Swift, of which the first one is told; unless memory runs out.
    ensures refused { IfErr result (λ error. IsWhyNot error text.now) }
{
    let script = read(alloc, text)?;
    drop(script);
    let decls = declarations(alloc, text)?;
    want_plain(alloc, text, &decls)?;
    let said = plain_text(alloc, &decls)?;
    Ok(said)
}
