//! The printed form of a text.

ghost use Rattle.std.specs.Prelude.{IfErr, IfOk};
ghost use Rattle.std.specs.String.{string_bytes};
ghost use Rattle.swift_script.specs.FaultPlaces.{IsAtItsPlace};
ghost use Rattle.swift_script.specs.Refuses.{Refuses};
ghost use Rattle.nuchapay_tool.specs.Prints.{IsPrintedOf};

use std::alloc::Global;
use swift_script::{ScriptFault, print_script, read};

/// The printed form of the script that a text spells (the form is our own). It spells the same script, and is read as such
/// unless it is longer than 65,536 bytes. Linear in both texts.
///
/// # Errors
///
/// The refusal of the text; S14 also where there is no memory for the printed form.
pub fn print(alloc: Global, text: &[u8]) -> Result<String, ScriptFault>
    ensures printed { IfOk result (λ said. IsPrintedOf text.now (string_bytes said)) }
    ensures refused { IfErr result (λ fault. Refuses fault.kind text.now) }
    ensures place { IfErr result (λ fault. IsAtItsPlace fault text.now) }
{
    let script = read(alloc, text)?;
    Ok(print_script(alloc, &script)?)
}
