//! Lists of names without repeats, in which a name is found by its hash.

ghost use Rattle.std.specs.Prelude.{◌≡◌, ◌<◌, ◌≤◌, [], false, is_some, length, take, IfOk, IfSome, OnOk, OnErr};
ghost use Rattle.script_names.specs.Texts.{is_among, place_of, texts_of, with_name};
ghost use Rattle.script_names.specs.Scope.{share_a_name};

use crate::seed::Seed;
use indexmap::IndexSet;
use std::alloc::{AllocError, Global};
use std::marker::Model;

/// Names in the order of their first places, each standing once.
pub struct Names {
    set: IndexSet<Vec<u8>, Seed>,
}

impl Drop for Names {
    fn drop(self) {
        let Names { set } = self;
        drop(set);
    }
}

impl Model for Names {
    ghost use Rattle.std.specs.Prelude.{ℕ, List};
    ghost use Rattle.script_names.specs.Texts.{texts_of};

    ghost Value = { List (List ℕ) };

    ghost view = { λ n. texts_of n.set.keys };
}

impl Names {
    /// No names.
    pub fn new(alloc: Global, seed: Seed) -> Names
        ensures { result ≡ [] }
    {
        let set = IndexSet::with_hasher(alloc, seed);
        Names { set }
    }

    /// How many names there are.
    pub fn len(&self) -> usize
        ensures { result ≡ length self.now }
    {
        self.set.len()
    }

    /// Whether a name is one of these.
    pub fn contains(&self, name: &[u8]) -> bool
        ensures { result ≡ is_among self.now name.now }
    {
        match self.set.as_slice() {
            // Where there are no names, none is hashed.
            [] => false,
            _ => self.set.contains(name),
        }
    }

    /// The place of a name, which counts from 0.
    pub fn place(&self, name: &[u8]) -> Option<usize>
        ensures found { is_some result ≡ is_among self.now name.now }
        ensures place { IfSome result (λ n. n ≡ place_of self.now name.now) }
        ensures within { IfSome result (λ n. n < length self.now) }
    {
        match self.set.as_slice() {
            [] => None,
            _ => self.set.get_index_of(name),
        }
    }

    /// The place of a name, or how many names there are.
    pub(crate) fn place_or_len(&self, name: &[u8]) -> usize
        ensures place { result ≡ place_of self.now name.now }
        ensures within { result ≤ length self.now }
    {
        self.place(name).unwrap_or(self.len())
    }

    // Whether some of these texts is one of the names, in time linear in them.
    fn has_any(&self, texts: &[Vec<u8>]) -> bool
        ensures { result ≡ share_a_name self.now (texts_of texts.now) }
    {
        for text in texts {
            if self.contains(text) {
                return true;
            }
        }
        false
    }

    /// Whether some name of another list is one of these, where its first `cleared` ones are known to be none. It
    /// takes time linear in these names or in those that are not known, whichever are fewer.
    pub(crate) fn has_any_of(&self, others: &Names, cleared: usize) -> bool
        requires cleared { share_a_name self.now (take cleared others.now) ≡ false }
        requires within { cleared ≤ length others.now }
        ensures { result ≡ share_a_name self.now others.now }
    {
        if self.len() < others.len() - cleared {
            others.has_any(self.set.as_slice())
        } else {
            let (_, newer) = others.set.as_slice().split_at(cleared);
            self.has_any(newer)
        }
    }

    /// The place of a name, which goes after the others where it is new. Where memory runs out, nothing changes.
    pub fn add(&mut self, alloc: Global, name: &[u8]) -> Result<usize, AllocError>
        ensures place { IfOk result (λ n. n ≡ place_of self.old name.now) }
        ensures ok { OnOk result (self.new ≡ with_name self.old name.now) }
        ensures err { OnErr result (self.new ≡ self.old) }
    {
        let (place, _) = self.set.insert_full(Vec::from_slice(alloc, name)?)?;
        Ok(place)
    }

    /// Keeps the first `len` names, in time linear in those that go.
    pub fn truncate(&mut self, len: usize)
        ensures { self.new ≡ take len self.old }
    {
        self.set.truncate(len);
    }
}
