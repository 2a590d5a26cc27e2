//! From the text of a file to that of a script.

ghost use Rattle.std.specs.Prelude.{◌≤◌, All, IfOk, length};
ghost use Rattle.swift_syntax.specs.Places.{IsBlamedIn, IsTokenOf};
ghost use Rattle.swift_translation.specs.MethodPlaces.{IsPlaceIn};
ghost use Rattle.swift_translation.specs.ScriptTexts.{IsWrittenOf};
ghost use Rattle.swift_translation.specs.Translations.{IsScriptOf, IfPlaced, IfRefused, IfScript};

use crate::places::{MethodPlace, places};
use crate::script::script;
use crate::source::Source;
use std::alloc::{AllocError, Global};
use swift_expressions::Code;
use swift_lowering::lower;
use swift_syntax::{Breach, Refusal, Rule, Token, Tree, read_file};
use swift_types::limits::BYTES;

/// The script that a Swift file becomes.
#[derive(Drop)]
pub struct SwiftScript {
    /// Its text.
    pub text: Vec<u8>,
    /// From which lines of the file its methods are, but for those that read a field.
    pub places: Vec<MethodPlace>,
}

/// What becomes of a Swift file.
#[derive(Drop)]
pub enum Translation {
    /// A script.
    Script(SwiftScript),
    /// The first rule of the subset that the file breaks.
    Refused(Refusal),
}

// The script of instructions, or the first rule that is broken.
fn written(
    alloc: Global,
    text: &[u8],
    tokens: &[Token],
    tree: &Box<Tree>,
    code: &Code,
) -> Result<Translation, AllocError>
    requires { All (IsTokenOf text.now) tokens.now }
    ensures script { IfOk result (IfScript (λ s. length s ≤ BYTES)) }
    ensures placed { IfOk result (IfPlaced (IsPlaceIn text.now)) }
    ensures blamed { IfOk result (IfRefused (IsBlamedIn text.now)) }
    ensures text { IfOk result (IfScript (IsWrittenOf text.now tokens.now tree.now.value code.now)) }
{
    let source = Source::new(alloc, text, tokens, tree, code);
    let (script, breach) = script(&source);
    if let Some(breach) = breach {
        return Ok(Translation::Refused(breach.refusal(text, tokens)));
    }
    if script.len() > BYTES {
        let breach = Breach {
            rule: Rule::TooLarge,
            token: 0,
        };
        return Ok(Translation::Refused(breach.refusal(text, tokens)));
    }
    let places = places(alloc, text, tokens, tree, code)?;
    Ok(Translation::Script(SwiftScript {
        text: script,
        places,
    }))
}

/// The script that a Swift file becomes, with the lines that its methods are from, or the first rule that the file breaks. A script is
/// written of the tree that the file's tokens spell. The text of a script, and a file that becomes one, has at most 65,536 bytes.
///
/// # Errors
///
/// `AllocError` where there is no memory for the tokens, for an empty tree, or for the table of methods.
pub fn translate(alloc: Global, text: &[u8]) -> Result<Translation, AllocError>
    ensures text { IfOk result (IfScript (IsScriptOf text.now)) }
    ensures script { IfOk result (IfScript (λ s. length s ≤ BYTES)) }
    ensures file { IfOk result (IfScript (λ s. length text.now ≤ BYTES)) }
    ensures placed { IfOk result (IfPlaced (IsPlaceIn text.now)) }
    ensures blamed { IfOk result (IfRefused (IsBlamedIn text.now)) }
{
    let file = read_file(alloc, text)?;
    if let Some(refused) = file.refused {
        return Ok(Translation::Refused(refused));
    }
    let lowered = lower(alloc, text, &file.tokens, &file.tree);
    if let Some(refused) = lowered.refused {
        return Ok(Translation::Refused(refused));
    }
    let made = written(alloc, text, &file.tokens, &file.tree, &lowered.code)?;
    Ok(made)
}
