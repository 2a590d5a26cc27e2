//! A script as a person would lay it out.

ghost use Rattle.std.specs.Prelude.{◌≡◌, IfErr, IfOk, IsTrue, None};
ghost use Rattle.swift_script.specs.Accepted.{IsAccepted};
ghost use Rattle.swift_script.specs.FaultPlaces.{IsAtItsPlace};
ghost use Rattle.swift_script.specs.Refuses.{Refuses};
ghost use Rattle.swift_script.specs.declared.fault.ScriptFaultKind.TheVariants.{Memory};
ghost use Rattle.nuchapay_tool.specs.Prints.{IsLaidOutOf};

use crate::layout::layout;
use script_tokens::tokens;
use std::alloc::{AllocError, Global};
use swift_script::{Script, ScriptFault, ScriptFaultKind, print_script, read};

/// The script that a text spells, as a person would lay it out (our own): one statement on a line, blocks indented, and no parenthesis
/// without which the same is read. Declarations and comments stand where they stood.
///
/// What is laid out is read again, and is handed out only where it is the same script; else the printed form is, which has no comments.
/// That happens where the text would be longer than 65,536 bytes, and in no other case that is known. Linear in these texts.
///
/// # Errors
///
/// The refusal of the text; S14 also where there is no memory to lay it out, or to read it again.
pub fn pretty(alloc: Global, text: &[u8]) -> Result<Vec<u8>, ScriptFault>
    ensures laid { IfOk result (λ said. IsLaidOutOf text.now said.items) }
    ensures refused { IfErr result (λ fault. Refuses fault.kind text.now) }
    ensures place { IfErr result (λ fault. IsAtItsPlace fault text.now) }
{
    let script = read(alloc, text)?;
    let laid = laid_out(alloc, text)?;
    if is_read_as(alloc, &laid, &script)? {
        Ok(laid)
    } else {
        let printed = print_script(alloc, &script)?;
        Ok(printed.into_bytes())
    }
}

// A script, laid out.
fn laid_out(alloc: Global, text: &[u8]) -> Result<Vec<u8>, AllocError> {
    let found = tokens(alloc, text)?;
    layout(alloc, text, &found.tokens, &found.spans)
}

// Whether a text is accepted as this script.
fn is_read_as(alloc: Global, text: &[u8], script: &Script) -> Result<bool, ScriptFault>
    ensures is { IfOk result (λ same. IsTrue same → IsAccepted text.now script.now) }
    ensures memory { IfErr result (λ fault. (fault.kind ≡ Memory) × (fault.line ≡ 0) × (fault.span ≡ None)) }
{
    match read(alloc, text) {
        Ok(again) => Ok(again.says_the_same(script)),
        Err(fault) => match fault.kind {
            ScriptFaultKind::Memory => Err(fault),
            _ => Ok(false),
        },
    }
}
