//! What is known of the names in scope and of the fields of other actors.

ghost use Rattle.std.specs.Prelude.{◌≡◌, ◌==◌, ℕ, [], if◌then◌else◌, map, min, slice_index_or, OnOk, OnErr};

use std::alloc::{AllocError, Global};
use std::marker::Model;

/// For each actor, by its place, how many of the oldest names in scope are known to be no names of its fields. So an
/// `assume` of an actor that was assumed before looks at newer names alone.
#[derive(Drop)]
pub(crate) struct CheckedNames {
    counts: Vec<usize>,
}

impl Model for CheckedNames {
    ghost use Rattle.std.specs.Prelude.{ℕ, List};

    ghost Value = { List ℕ };

    ghost view = { λ c. c.counts.items };
}

impl CheckedNames {
    /// Nothing is known.
    pub(crate) fn nothing(alloc: Global) -> CheckedNames
        ensures { result ≡ [] }
    {
        CheckedNames {
            counts: Vec::new(alloc),
        }
    }

    /// How many of the oldest names are known to be no names of the fields of the actor at a place.
    pub(crate) fn of(&self, actor: usize) -> usize
        ensures { result ≡ slice_index_or self.now actor 0 }
    {
        self.counts.get(actor).copied().unwrap_or(0)
    }

    /// From here on `names` are known of that actor.
    pub(crate) fn note(&mut self, actor: usize, names: usize) -> Result<(), AllocError>
        ensures noted { OnOk result ((k : ℕ) → slice_index_or self.new k 0 ≡ (if k == actor then names else slice_index_or self.old k 0)) }
        ensures err { OnErr result ((k : ℕ) → slice_index_or self.new k 0 ≡ slice_index_or self.old k 0) }
    {
        while self.counts.len() <= actor {
            self.counts.push(0)?;
        }
        self.counts[actor] = names;
        Ok(())
    }

    /// No more than `names` names are in scope. It takes time linear in the actors up to the last one that is known of.
    pub(crate) fn lower(&mut self, names: usize)
        ensures { self.new ≡ map (min names) self.old }
    {
        for count in self.counts.iter_mut() {
            *count = names.min(*count);
        }
    }
}
