//! Sets of keys.

ghost use Rattle.std.specs.Prelude.{◌≡◌, ◌⊎◌, ◌↔◌, ℕ, [], ◌∷◌, List, Contains, OnOk, OnErr};
ghost use Rattle.std.proofs.Common.{ap};
ghost use Rattle.std.specs.List.{list_any};
ghost use Rattle.std.specs.Str.{bytes_eq};
ghost use Rattle.std.specs.Cmp.{on_equiv, on_per, partial_equiv_from_equiv};
ghost use Rattle.std.specs.Cmp.Lexicographic.{nat_list_eq_equiv};
ghost use Rattle.std.proofs.lemmas.Slice.Eq.{bytes_eq-Decides};

use std::alloc::{AllocError, Global};
use std::collections::HashSet;
use std::hash::{Hash, Hasher};
use std::marker::Model;

/// A key: bytes, which are hashed all at once.
#[derive(Drop)]
pub(crate) struct Key {
    /// The bytes.
    pub(crate) bytes: Vec<u8>,
}

impl PartialEq for Key {
    ghost eq = { λ a b. bytes_eq a.bytes.items b.bytes.items };

    ghost laws = { on_per (λ k. k.bytes.items) (partial_equiv_from_equiv nat_list_eq_equiv) };

    fn eq(&self, other: &Key) -> bool {
        self.bytes.as_slice() == other.bytes.as_slice()
    }
}

impl Eq for Key {
    ghost laws = { on_equiv (λ k. k.bytes.items) nat_list_eq_equiv };
}

impl Hash for Key {
    ghost hash_input = { λ k. k.bytes.items ∷ [] };

    ghost respects_eq = { λ a b is. ap (λ (l : List ℕ). l ∷ []) ((bytes_eq-Decides a.bytes.items b.bytes.items).0 is) };

    fn hash<H: Hasher>(&self, state: &mut H) {
        state.write(&self.bytes);
    }
}

/// Keys, each of which is found by its hash.
#[derive(Drop)]
pub(crate) struct KeySet {
    set: HashSet<Key>,
}

impl Model for KeySet {
    ghost use Rattle.std.specs.Prelude.{ℕ, List, map};

    ghost Value = { List (List ℕ) };

    ghost view = { λ k. map (λ v. v.bytes.items) k.set.keys };
}

impl KeySet {
    /// No keys. Takes no memory.
    pub(crate) fn new(alloc: Global) -> KeySet
        ensures { result ≡ [] }
    {
        KeySet {
            set: HashSet::new(alloc),
        }
    }

    /// Whether a key is there.
    pub(crate) fn contains(&self, key: &Key) -> bool
        ensures { result ≡ list_any (bytes_eq key.now.bytes.items) self.now }
    {
        self.set.contains(key)
    }

    /// Puts a key in. Where memory runs out, nothing changes.
    pub(crate) fn add(&mut self, key: Key) -> Result<(), AllocError>
        ensures ok { OnOk result ((k : List ℕ) → Contains self.new k ↔ (Contains self.old k ⊎ (key.bytes.items ≡ k))) }
        ensures err { OnErr result (self.new ≡ self.old) }
    {
        self.set.insert(key)?;
        Ok(())
    }
}
