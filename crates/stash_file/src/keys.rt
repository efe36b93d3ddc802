ghost use Rattle.std.specs.Prelude.{◌≡◌};

use kdb_base::PlainKey;
use std::marker::Model;

/// A master key and its version.
#[derive(Clone, Copy, PartialEq, Eq)]
pub struct StashKey {
    pub version: u32,
    pub key: PlainKey,
}

/// Master keys in the order of their file.
#[derive(Drop)]
pub struct StashList {
    items: Vec<StashKey>,
}

impl Model for StashList {
    ghost use Rattle.std.specs.Prelude.{List};
    ghost use Rattle.stash_file.specs.declared.keys.StashKey.{StashKey};

    ghost Value = { List StashKey };

    ghost view = { λ s. s.items.items };
}

impl StashList {
    /// The keys of this vector, without a copy.
    pub fn from_vec(items: Vec<StashKey>) -> StashList
        ensures { result ≡ items.items }
    {
        StashList { items }
    }

    /// The keys as a vector, without a copy.
    pub fn into_vec(self) -> Vec<StashKey>
        ensures { result.items ≡ self }
    {
        self.items
    }

    /// The keys in the order of the file.
    pub fn as_slice(&self) -> &[StashKey]
        ensures { result.now ≡ self.now }
    {
        &self.items
    }
}
