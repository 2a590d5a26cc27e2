//! What stands before a declaration.

ghost use Rattle.std.specs.Prelude.{◌≡◌, ◌<◌, [], suc, OnOk};
ghost use Rattle.swift_types.specs.declared.limits.TheConstants.{BYTES};
ghost use Rattle.script_grammar.specs.Tree.{text_of};
ghost use Rattle.script_names.specs.Rules.{repeat_error};
ghost use Rattle.script_names.specs.Finds.{Finds};

use crate::error::{CheckError, NameErrorKind};
use crate::fault::{at_name, where_so};
use crate::seed::Seed;
use crate::texts::Names;
use script_grammar::Name;
use std::alloc::Global;
use std::marker::Model;

/// What stands before a declaration: the names of executors and actors together, those of task locals and of roots, and
/// how many executors and actors there are.
pub struct SeenNames {
    pub places: Names,
    pub locals: Names,
    pub roots: Names,
    pub executors: usize,
    pub actors: usize,
}

impl Drop for SeenNames {
    fn drop(self) {
        let SeenNames {
            places,
            locals,
            roots,
            executors: _,
            actors: _,
        } = self;
        drop(places);
        drop(locals);
        drop(roots);
    }
}

impl Model for SeenNames {
    ghost use Rattle.script_names.specs.Rules.{SeenView};

    ghost Value = { SeenView };

    ghost view = { λ s. record { places = s.places; locals = s.locals; roots = s.roots; executors = s.executors; actors = s.actors } };
}

impl SeenNames {
    /// Nothing stands before the first declaration.
    pub fn nothing(alloc: Global, seed: Seed) -> SeenNames
        ensures { result ≡ record { places = []; locals = []; roots = []; executors = 0; actors = 0 } }
    {
        SeenNames {
            places: Names::new(alloc, seed),
            locals: Names::new(alloc, seed),
            roots: Names::new(alloc, seed),
            executors: 0,
            actors: 0,
        }
    }
}

/// The name is none of those.
pub fn unless_seen(seen: &Names, at: &mut u32, name: &Name) -> Result<(), CheckError>
    requires { at.old < BYTES }
    ensures finds { Finds result (repeat_error seen.now at.old (text_of name.now)) }
    ensures after { OnOk result (at.new ≡ suc at.old) }
{
    let is_seen = seen.contains(&name.text);
    at_name(at, where_so(is_seen, NameErrorKind::Twice))
}
