//! An expression with its height.

ghost use Rattle.std.specs.Prelude.{◌≡◌, ◌≤◌};
ghost use Rattle.script_grammar.specs.Tree.{view, height_of};
ghost use Rattle.script_parser.specs.declared.limits.TheConstants.{NESTING};

use script_grammar::Expr;

/// An expression within the limit of its height.
#[derive(Drop)]
pub struct Measured {
    pub expr: Expr,
    pub height: u32,
    ghost measured: { height ≡ height_of (view expr) },
    ghost bounded: { height ≤ NESTING },
}
