//! What is printed.

ghost use Rattle.std.specs.Prelude.{◌≡◌, ◌++◌, ◌∷◌, OnOk, List};
ghost use Rattle.script_tokens.specs.Pieces.{TokenView, Key};
ghost use Rattle.script_grammar.specs.Tree.{text_of};
ghost use Rattle.script_printing.specs.Pieces.{assigned};
ghost use Rattle.script_printing.specs.Printed.{after, line_of};

use crate::token::{write_keyword, write_name, write_sign};
use script_grammar::Name;
use script_tokens::{Keyword, Mark};
use std::alloc::AllocError;

/// What is printed as tokens. Of a declaration these are the tokens after its keyword.
pub(crate) trait Write {
    /// What it says.
    ghost View: { Type 0 };

    ghost view: { Self → View };

    /// The tokens that say it.
    ghost pieces: { View → List TokenView };

    /// Puts its tokens after what is written, each after a space.
    fn write(&self, out: &mut Vec<u8>) -> Result<(), AllocError>
        ensures { OnOk result (out.new.items ≡ after out.old.items (pieces (view self.now))) };
}

/// A keyword, and what stands after it.
#[tactic(auto, using(crate::proofs::Written::after_after))]
pub(crate) fn write_with_keyword<T: Write>(
    out: &mut Vec<u8>,
    keyword: Keyword,
    part: &T,
) -> Result<(), AllocError>
    ensures { OnOk result (out.new.items ≡ after out.old.items (Key keyword ∷ T.pieces (T.view part.now))) }
{
    write_keyword(out, keyword)?;
    part.write(out)
}

/// What a name is set to.
#[tactic(auto, using(crate::proofs::Written::after_after))]
pub(crate) fn write_assigned<T: Write>(
    out: &mut Vec<u8>,
    name: &Name,
    part: &T,
) -> Result<(), AllocError>
    ensures { OnOk result (out.new.items ≡ after out.old.items (assigned (text_of name.now) (T.pieces (T.view part.now)))) }
{
    write_name(out, &name.text)?;
    write_sign(out, Mark::Assign)?;
    part.write(out)
}

/// A line of a keyword and what stands after it.
#[tactic(auto, unfolding(crate::specs::Printed::after))]
pub(crate) fn write_line<T: Write>(
    out: &mut Vec<u8>,
    keyword: Keyword,
    part: &T,
) -> Result<(), AllocError>
    ensures { OnOk result (out.new.items ≡ out.old.items ++ line_of (Key keyword ∷ T.pieces (T.view part.now))) }
{
    out.extend_from_slice(keyword.spelling())?;
    part.write(out)?;
    out.push(b'\n')?;
    Ok(())
}
