//! The methods of all actors, each found by its actor's place and its own name.

ghost use Rattle.std.specs.Prelude.{◌≡◌, ◌<◌, ◌≤◌, [], not, is_some, length, IfOk, IfSome, OnOk};
ghost use Rattle.script_names.specs.Texts.{is_among, place_of, with_name};
ghost use Rattle.script_names.specs.Methods.{method_key, key_is};

use crate::seed::Seed;
use indexmap::IndexSet;
use std::alloc::{AllocError, Global};
use std::marker::Model;

/// A method, by the place of its actor among the actors, and by its own name.
#[derive(PartialEq, Eq, Hash, Drop)]
pub(crate) struct MethodKey {
    pub(crate) actor: usize,
    pub(crate) name: Vec<u8>,
}

impl MethodKey {
    fn new(alloc: Global, actor: usize, name: &[u8]) -> Result<MethodKey, AllocError>
        ensures { IfOk result (λ k. key_is k ≡ method_key actor name.now) }
    {
        let name = Vec::from_slice(alloc, name)?;
        Ok(MethodKey { actor, name })
    }
}

/// Methods in the order of their first places, each standing once.
#[derive(Drop)]
pub(crate) struct Methods {
    set: IndexSet<MethodKey, Seed>,
}

impl Model for Methods {
    ghost use Rattle.std.specs.Prelude.{ℕ, List, map};
    ghost use Rattle.script_names.specs.Methods.{key_is};

    ghost Value = { List (List ℕ) };

    ghost view = { λ m. map key_is m.set.keys };
}

impl Methods {
    /// No methods.
    pub(crate) fn new(alloc: Global, seed: Seed) -> Methods
        ensures { result ≡ [] }
    {
        let set = IndexSet::with_hasher(alloc, seed);
        Methods { set }
    }

    /// The place of a method, which counts from 0. The name is copied for the time of the call.
    pub(crate) fn place(
        &self,
        alloc: Global,
        actor: usize,
        name: &[u8],
    ) -> Result<Option<usize>, AllocError>
        ensures found { IfOk result (λ o. is_some o ≡ is_among self.now (method_key actor name.now)) }
        ensures place { IfOk result (λ o. IfSome o (λ n. n ≡ place_of self.now (method_key actor name.now))) }
        ensures within { IfOk result (λ o. IfSome o (λ n. n < length self.now)) }
    {
        let key = MethodKey::new(alloc, actor, name)?;
        Ok(self.set.get_index_of(&key))
    }

    /// Puts a method after the others, and says whether it is new: one that is there stays where it is.
    pub(crate) fn add(
        &mut self,
        alloc: Global,
        actor: usize,
        name: &[u8],
    ) -> Result<bool, AllocError>
        ensures new { IfOk result (λ b. b ≡ not (is_among self.old (method_key actor name.now))) }
        ensures added { OnOk result (self.new ≡ with_name self.old (method_key actor name.now)) }
    {
        let key = MethodKey::new(alloc, actor, name)?;
        let (_, is_new) = self.set.insert_full(key)?;
        Ok(is_new)
    }
}
