//! Declarations by kinds.

ghost use Rattle.std.specs.Prelude.{◌≡◌, map, IfOk, OnOk};
ghost use Rattle.script_grammar.specs.Tree.{view_decl};
ghost use Rattle.script_printing.specs.Script.{script_in};
ghost use Rattle.swift_script.specs.ScriptInvariant.{tree_of, with_last};

use script_grammar::{Actor, Decl, Executor, Local, Root};
use std::alloc::{AllocError, Global};

/// The declarations of a script, each kind in text order.
pub(crate) struct Declarations {
    pub executors: Vec<Executor>,
    pub locals: Vec<Local>,
    pub actors: Vec<Actor>,
    pub roots: Vec<Root>,
}

impl Drop for Declarations {
    fn drop(self) {
        let Declarations {
            executors,
            locals,
            actors,
            roots,
        } = self;
        drop(executors);
        drop(locals);
        drop(actors);
        drop(roots);
    }
}

impl Declarations {
    // Puts a declaration after the others of its kind.
    fn add(&mut self, decl: Decl) -> Result<(), AllocError>
        ensures { OnOk result (tree_of self.new ≡ with_last (view_decl decl) (tree_of self.old)) }
    {
        match decl {
            Decl::Executor(executor) => self.executors.push(executor)?,
            Decl::Local(local) => self.locals.push(local)?,
            Decl::Actor(actor) => self.actors.push(actor)?,
            Decl::Root(root) => self.roots.push(root)?,
        }
        Ok(())
    }
}

/// The declarations by their kinds.
pub(crate) fn split(alloc: Global, decls: Vec<Decl>) -> Result<Declarations, AllocError>
    ensures { IfOk result (λ d. tree_of d ≡ script_in (map view_decl decls.items)) }
{
    let mut split = Declarations {
        executors: Vec::new(alloc),
        locals: Vec::new(alloc),
        actors: Vec::new(alloc),
        roots: Vec::new(alloc),
    };
    for decl in decls {
        split.add(decl)?;
    }
    Ok(split)
}
