//! The entries of a keytab.

ghost use Rattle.std.specs.Prelude.{◌≡◌, ◌↔◌, [], length, map, IsTrue};
ghost use Rattle.std.specs.List.{All};
ghost use Rattle.stash_file.specs.Answers.{told};
ghost use Rattle.keytab_out.specs.Entries.{IsListed};

use stash_file::Entry;
use std::alloc::Global;
use std::marker::Model;
use std::mem;

/// The entries of a keytab in the order of the file. Each is one that a keytab can hold.
#[derive(Drop)]
pub struct KeytabList {
    items: Vec<Entry>,
}

impl Model for KeytabList {
    ghost use Rattle.std.specs.Prelude.{List, map};
    ghost use Rattle.std.specs.List.{All};
    ghost use Rattle.stash_file.specs.Answers.{told};
    ghost use Rattle.stash_file.specs.Pieces.{Told};
    ghost use Rattle.keytab_out.specs.Entries.{IsListed};

    ghost Value = { List Told };

    ghost view = { λ s. map told s.items.items };

    ghost invariant = { λ s. All IsListed (map told s.items.items) };
}

impl KeytabList {
    /// A keytab without entries.
    pub fn new(alloc: Global) -> KeytabList
        ensures { result ≡ [] }
    {
        KeytabList {
            items: Vec::new(alloc),
        }
    }

    /// The entries of this vector, without a copy.
    pub(crate) fn from_vec(items: Vec<Entry>) -> KeytabList
        requires { All IsListed (map told items.items) }
        ensures { result ≡ map told items.items }
    {
        KeytabList { items }
    }

    /// The entries as a vector, without a copy. An empty list stays.
    pub(crate) fn take(&mut self) -> Vec<Entry>
        ensures value { map told result.items ≡ self.old }
        ensures listed { All IsListed (map told result.items) }
        ensures empty { self.new ≡ [] }
    {
        let alloc = *self.items.allocator();
        mem::replace(&mut self.items, Vec::new(alloc))
    }

    /// The entries in the order of the file.
    pub fn as_slice(&self) -> &[Entry]
        ensures value { map told result.now ≡ self.now }
        ensures listed { All IsListed (map told result.now) }
    {
        &self.items
    }

    /// How many entries there are.
    pub fn len(&self) -> usize
        ensures { result ≡ length self.now }
    {
        self.items.len()
    }

    pub fn is_empty(&self) -> bool
        ensures { IsTrue result ↔ (self.now ≡ []) }
    {
        self.items.is_empty()
    }
}
