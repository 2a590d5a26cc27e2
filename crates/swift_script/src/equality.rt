//! Equality of scripts.

ghost use Rattle.std.specs.Cmp.{partial_equiv_from_equiv, on_equiv, nat_eq_equiv};
ghost use Rattle.std.specs.Cmp.Lexicographic.{lists_equiv};
ghost use Rattle.script_printing.specs.Printed.{printed};
ghost use Rattle.swift_script.specs.SameScripts.{same_scripts};

use crate::script::Script;

/// Scripts are equal where their trees are: they declare the same, whatever their spaces, comments, redundant
/// parentheses, and the order of declarations of different kinds. It takes time linear in the printed forms, and no
/// memory (our own).
impl PartialEq for Script {
    ghost eq = { same_scripts };

    ghost laws = { partial_equiv_from_equiv (on_equiv printed (lists_equiv nat_eq_equiv)) };

    fn eq(&self, other: &Script) -> bool {
        self.says_the_same(other)
    }
}

impl Eq for Script {
    ghost laws = { on_equiv printed (lists_equiv nat_eq_equiv) };
}
