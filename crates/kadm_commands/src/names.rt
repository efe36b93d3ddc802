//! Lists of names.

ghost use Rattle.std.specs.Prelude.{◌≡◌};
ghost use Rattle.tagged_data.specs.KeyOrder.{AreInOrder};

use kdb_base::Blob;
use std::marker::Model;

/// Names in the order of their bytes, each once.
#[derive(Debug, Drop)]
pub struct NameList {
    items: Vec<Blob>,
}

impl Model for NameList {
    ghost use Rattle.std.specs.Prelude.{List, ℕ};
    ghost use Rattle.tagged_data.specs.KeyOrder.{AreInOrder};

    ghost Value = { List (List ℕ) };

    ghost view = { λ n. n.items.items };

    ghost invariant = { λ n. AreInOrder n.items.items };
}

impl NameList {
    /// The names of this vector, without a copy.
    pub fn from_vec(items: Vec<Blob>) -> NameList
        requires { AreInOrder items.items }
        ensures { result ≡ items.items }
    {
        NameList { items }
    }

    pub fn as_slice(&self) -> &[Blob]
        ensures value { result.now ≡ self.now }
        ensures order { AreInOrder result.now }
    {
        &self.items
    }
}
