//! Whole files.
#![tactic(auto, using(crate::proofs::Grown::grows_same, crate::proofs::Grown::grows_on, crate::proofs::Refused::grows_taken))]

ghost use Rattle.std.specs.Prelude.{◌≡◌, ◌<◌, All, IfOk, IfSome, IsNone, None, length};
ghost use Rattle.std.specs.Option.{option_map};
ghost use Rattle.swift_syntax.specs.Declarations.{SpellsDeclarations, SpellsFile, rows_of};
ghost use Rattle.swift_syntax.specs.DeclaringInside.{Puts};
ghost use Rattle.swift_syntax.specs.Expressions.{kind_at};
ghost use Rattle.swift_syntax.specs.Lexes.{AreTokensOf};
ghost use Rattle.swift_syntax.specs.Places.{IsBlamedIn, IsTokenOf, IsTooLarge};
ghost use Rattle.swift_syntax.specs.ReadersInside.{Extends, Grows, IsBegun};

use crate::declaration::declaration;
use crate::list::tokens;
use crate::reader::Reader;
use crate::rule::{Breach, Refusal, Rule};
use crate::sign::Sign;
use crate::token::{Token, TokenKind};
use crate::tree::{ExprForm, StmtForm, Tree};
use std::alloc::{AllocError, Global};
use swift_types::limits::BYTES;

/// A file with its tokens and its tree.
#[derive(Drop)]
pub struct ReadFile {
    /// Its tokens.
    pub tokens: Vec<Token>,
    /// Its tree; what was read of it, where it is refused. In a Box, since the prover spells out what a value holds in place.
    pub tree: Box<Tree>,
    /// The first rule that it breaks.
    pub refused: Option<Refusal>,
}

// Puts what the places 0 stand for: none.
fn begin(reader: &mut Reader<'_>)
    ensures begun { IsNone reader.new.refused → IsBegun reader.new }
    ensures at { IsNone reader.new.refused → reader.new.at ≡ reader.old.at }
    ensures extends { Extends reader.old reader.new }
{
    reader.expr(ExprForm::Missing, 0);
    reader.no_argument();
    reader.stmt(StmtForm::Return, 0);
}

// All declarations of a file.
fn declarations(reader: &mut Reader<'_>)
    ensures { Puts reader.old reader.new (λ s. SpellsDeclarations s reader.old.at (rows_of reader.old.tree.value) (rows_of reader.new.tree.value)) }
{
    for _ in 0..reader.tokens.len() {
        if reader.takes(Sign::Semicolon) {
            continue;
        }
        if let TokenKind::End = reader.here().kind {
            return;
        }
        declaration(reader);
        reader.separator();
    }
    want_end(reader);
}

// Refuses all but the end of the text.
fn want_end(reader: &mut Reader<'_>)
    ensures end { IsNone reader.new.refused → (kind_at reader.old.tokens.now reader.old.at ≡ TokenKind.End) × (reader.new ≡ reader.old) }
    ensures grows { Grows reader.old reader.new }
{
    match reader.here().kind {
        TokenKind::End => {}
        _ => reader.unexpected(),
    }
}

/// Reads the tokens of a file and its tree, up to the first rule that it breaks. Where it breaks none, its tokens spell the tree, from the
/// first one to the last: what is declared, with its statements and expressions. Arguments are left aside there, and the names in the list
/// of a closure. Names and types are not looked at. Linear in the text.
///
/// # Errors
///
/// `AllocError` where there is no memory for the tokens or for an empty tree. Where there is none for more of the tree, the file is refused.
pub fn read_file(alloc: Global, text: &[u8]) -> Result<ReadFile, AllocError>
    // The text consists of these tokens, and of no others (`one_reading`).
    ensures lexed { IfOk result (λ file. AreTokensOf text.now file.tokens.items) }
    ensures tokens { IfOk result (λ file. All (IsTokenOf text.now) file.tokens.items) }
    ensures blamed { IfOk result (λ file. IfSome file.refused (IsBlamedIn text.now)) }
    // Where it is not refused, its tokens spell its tree, and no token is left over.
    ensures spelled { IfOk result (λ file. file.refused ≡ None → SpellsFile text.now file.tokens.items file.tree.value) }
    ensures large { IfOk result (λ file. BYTES < length text.now → IsTooLarge (option_map (λ r. r.rule) file.refused)) }
{
    let tokens = tokens(alloc, text)?;
    let (tree, breach) = read_tokens(alloc, text, &tokens)?;
    let refused = refusal_of(breach, text, &tokens);
    Ok(ReadFile {
        tokens,
        tree,
        refused,
    })
}

// The refusal of a text with these tokens, if it breaks a rule.
fn refusal_of(breach: Option<Breach>, text: &[u8], tokens: &[Token]) -> Option<Refusal>
    requires { All (IsTokenOf text.now) tokens.now }
    ensures blamed { IfSome result (IsBlamedIn text.now) }
    ensures rule { option_map (λ r. r.rule) result ≡ option_map (λ b. b.rule) breach }
{
    match breach {
        Some(breach) => Some(breach.refusal(text, tokens)),
        None => None,
    }
}

// The tree of these tokens, and the first rule that the text breaks.
fn read_tokens(
    alloc: Global,
    text: &[u8],
    tokens: &[Token],
) -> Result<(Box<Tree>, Option<Breach>), AllocError>
    ensures spelled { IfOk result (λ read. read.1 ≡ None → SpellsFile text.now tokens.now read.0.value) }
    ensures large { IfOk result (λ read. BYTES < length text.now → IsTooLarge (option_map (λ b. b.rule) read.1)) }
{
    if text.len() > BYTES {
        let breach = Breach {
            rule: Rule::TooLarge,
            token: 0,
        };
        return Ok((Box::new(alloc, Tree::new(alloc))?, Some(breach)));
    }
    let mut reader = Reader::new(alloc, text, tokens)?;
    begin(&mut reader);
    declarations(&mut reader);
    Ok((reader.tree, reader.refused))
}
