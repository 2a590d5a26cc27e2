//! Scripts that were read.

ghost use Rattle.std.specs.Prelude.{◌≡◌, ◌↔◌, ℕ, ◌+◌, ◌<◌, ◌≤◌, length, IfOk, IsTrue};
ghost use Rattle.script_printing.specs.Printed.{printed};
ghost use Rattle.script_code.specs.Seen.{rows_of};
ghost use Rattle.script_code.specs.Tree.{terms_of};
ghost use Rattle.script_code.specs.Value.{holds};
ghost use Rattle.script_compiler.specs.Calls.{CallsAreThere};
ghost use Rattle.script_compiler.specs.Fits.{MethodsFit};
ghost use Rattle.script_compiler.specs.IsCompiled.{IsMethod};
ghost use Rattle.swift_script.specs.LentInside.{executor_lent, local_lent, actor_lent, root_lent};
ghost use Rattle.swift_script.specs.ScriptInvariant.{ScriptInvariant};
ghost use Rattle.swift_script.specs.TreeInside.{tree_in};
ghost use Rattle.swift_script.specs.Accepted.{WasAccepted, NoRootWaits};
ghost use Rattle.swift_script.specs.SameScripts.{same_scripts};
ghost use Rattle.swift_script.specs.Scripts.{executor_at, local_at, actor_at, method_at, root_at, executor_count, executor_invariants, executor_start, actor_count, actor_executor, actor_invariant, method_count, method_params, parts_of, root_count, root_method, root_args};

use script_code::Formula;
use script_compiler::{
    Compiled, CompiledActor, CompiledExecutor, CompiledLocal, CompiledMethod, CompiledRoot,
};
use std::alloc::{AllocError, Global};
use std::marker::Model;
use swift_types::limits::{ACTORS, EXECUTORS, TASKS};
use swift_types::{ActorId, ExecId, LocalId, MethodId, RootId};

/// A script that `read` accepted: no rule on its names, counts, invariants and roots is broken, and it is compiled.
///
/// All that a turn needs of it is found in constant time. Contracts see its tree, of which its printed form is kept and what it was
/// compiled to. The tree is what the printed form spells, so that no type of the tree goes with each type that has a script.
pub struct Script {
    printed: Vec<u8>,
    compiled: Compiled,
}

// By hand, so that what a script has is not taken apart in each proof of a crate above.
impl Drop for Script {
    fn drop(self) {
        let Script { printed, compiled } = self;
        drop(printed);
        drop(compiled);
    }
}

impl Model for Script {
    ghost use Rattle.std.specs.Coded.{codes};
    ghost use Rattle.script_printing.specs.Script.{ScriptView};
    ghost use Rattle.swift_script.specs.Codes.{expression_code, statement_code, block_code};

    ghost Value = { ScriptView };

    ghost coded = { Prim.hlevel (codes, expression_code, statement_code (block_code (Prim.hlevel (codes, expression_code)) (Prim.hlevel (codes, expression_code)))) };

    ghost use Rattle.swift_script.specs.ScriptInvariant.{ScriptInvariant};
    ghost use Rattle.swift_script.specs.TreeInside.{tree_in};

    ghost view = { λ s. tree_in s.printed.items };

    ghost invariant = { λ s. ScriptInvariant (tree_in s.printed.items) s.printed.items s.compiled };
}

impl Script {
    /// The script that this printed form spells, and what it is compiled to.
    pub(crate) fn of(printed: Vec<u8>, compiled: Compiled) -> Script
        requires { ScriptInvariant (tree_in printed.items) printed.items compiled }
        ensures { result ≡ tree_in printed.items }
    {
        Script { printed, compiled }
    }

    /// The printed form (`print_script`), in constant time. Two scripts have one printed form only if they are equal.
    pub fn printed(&self) -> &[u8]
        ensures printed { result.now ≡ printed self.now }
        // A text of this script was accepted.
        ensures accepted { WasAccepted self.now }
    {
        &self.printed
    }

    /// How many executors there are: the declared ones (SE-0392), and those that actors have of their own (SE-0306); 128 at most.
    pub fn executor_count(&self) -> usize
        ensures { result ≡ executor_count self.now }
    {
        self.compiled.executors.len()
    }

    /// How many actors there are, 64 at most (SE-0306).
    pub fn actor_count(&self) -> usize
        ensures { result ≡ actor_count self.now }
    {
        self.compiled.actors.len()
    }

    /// How many methods there are.
    pub fn method_count(&self) -> usize
        ensures { result ≡ method_count self.now }
    {
        self.compiled.methods.len()
    }

    /// How many roots there are, 1,024 at most (our own).
    pub fn root_count(&self) -> usize
        ensures { result ≡ root_count self.now }
    {
        self.compiled.roots.len()
    }

    /// Whether two scripts are equal: they declare the same, whatever their spaces, comments, redundant parentheses,
    /// and the order of declarations of different kinds. It is one comparison of their printed forms, and takes no
    /// memory.
    pub fn says_the_same(&self, other: &Script) -> bool
        ensures same { IsTrue result ↔ (self.now ≡ other.now) }
        ensures printed { result ≡ same_scripts self.now other.now }
    {
        self.printed.as_slice() == other.printed.as_slice()
    }

    /// The invariants of the actors that run on an executor, of those that have one, in text order; none for an executor
    /// that the script lacks. In constant time.
    pub fn executor_invariants(&self, executor: ExecId) -> &[Formula]
        ensures { terms_of result.now ≡ executor_invariants self.now executor.0 }
    {
        self.compiled.invariants(executor)
    }

    /// What the fields of the actors that run on an executor start with, a row for each actor, in text order; no rows
    /// for an executor that the script lacks. `Err` says that there was no memory. Linear in the fields.
    pub fn executor_start(
        &self,
        alloc: Global,
        executor: ExecId,
    ) -> Result<Vec<Vec<i64>>, AllocError>
        ensures { IfOk result (λ rows. rows_of rows.items ≡ executor_start self.now executor.0) }
    {
        self.compiled.start_rows(alloc, executor)
    }

    /// What holds of each script, since a text of it was accepted. It does nothing.
    pub fn facts(&self)
        ensures accepted { WasAccepted self.now }
        ensures actors { actor_count self.now ≤ ACTORS }
        ensures roots { root_count self.now ≤ TASKS }
        ensures declared { length self.now.executors ≤ EXECUTORS }
        // As many as may be declared, and one for each actor.
        ensures executors { executor_count self.now ≤ EXECUTORS + ACTORS }
        // Each invariant holds at the start.
        ensures starts { (actor : ℕ) → actor < actor_count self.now → IsTrue (holds (actor_invariant self.now actor) (executor_start self.now (actor_executor self.now actor))) }
        // Each root runs a method that is there, with as many arguments as it has parameters.
        ensures methods { (root : ℕ) → root < root_count self.now → root_method self.now root < method_count self.now }
        ensures args { (root : ℕ) → root < root_count self.now → length (root_args self.now root) ≡ method_params self.now (root_method self.now root) }
        // Each call, spawn, detach and add names a method that is there, of that actor, with as many parameters.
        ensures calls { CallsAreThere (parts_of self.now) }
        // Each method's code names places that it has, and uses handles as what was kept there.
        ensures handles { MethodsFit (parts_of self.now) }
        // No root waits for itself or for a later one.
        ensures waits { NoRootWaits self.now }
    {
        let _ = self.printed();
    }

    pub(crate) fn executor(&self, executor: ExecId) -> Option<&CompiledExecutor>
        ensures { executor_lent result ≡ executor_at self.now executor.0 }
    {
        self.compiled.executors.get(executor.0 as usize)
    }

    pub(crate) fn local(&self, local: LocalId) -> Option<&CompiledLocal>
        ensures { local_lent result ≡ local_at self.now local.0 }
    {
        self.compiled.locals.get(local.0 as usize)
    }

    pub(crate) fn actor(&self, actor: ActorId) -> Option<&CompiledActor>
        ensures { actor_lent result ≡ actor_at self.now actor.0 }
    {
        self.compiled.actors.get(actor.0 as usize)
    }

    pub(crate) fn method(&self, method: MethodId) -> &CompiledMethod
        requires { method.0 < method_count self.now }
        ensures { IsMethod result.now (method_at self.now method.0) }
    {
        &self.compiled.methods[method.0 as usize]
    }

    pub(crate) fn root(&self, root: RootId) -> Option<&CompiledRoot>
        ensures { root_lent result ≡ root_at self.now root.0 }
    {
        self.compiled.roots.get(root.0 as usize)
    }
}
