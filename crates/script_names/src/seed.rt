//! How names are hashed.

ghost use Rattle.std.specs.Prelude.{◌≡◌};
ghost use Rattle.script_names.specs.Seeds.{begun_with};

use std::hash::{BuildHasher, DefaultHasher, FoldHasher, Hasher};

/// With what each hash of a name of one script begins: a hash of the whole text. So nobody can choose names for their
/// hashes, since to change a name is to change the seed, and a text of many names is read in time linear in it (our own).
#[derive(Clone, Copy)]
pub struct Seed {
    begun: FoldHasher,
}

impl Seed {
    /// The seed of a text, in time linear in it.
    pub fn of(text: &[u8]) -> Seed
        // `begun` is the hasher that `build_hasher` gives.
        ensures { result.begun ≡ begun_with text.now }
    {
        let mut hasher = DefaultHasher::new();
        hasher.write(text);
        let mut begun = FoldHasher::default();
        begun.write_u64(hasher.finish());
        Seed { begun }
    }
}

impl BuildHasher for Seed {
    type Hasher = FoldHasher;

    ghost build_hasher = { λ s. s.begun };

    fn build_hasher(&self) -> FoldHasher {
        self.begun
    }
}
