//! What is kept by the version of a master key: when it becomes active, the key itself, and the
//! auxiliary keys.
ghost use Rattle.std.specs.Prelude.{◌≡◌, [], map};
ghost use Rattle.std.proofs.Common.{rules};
ghost use Rattle.std.specs.Cmp.Rules.{comparing};
ghost use Rattle.kdb_base.specs.Versions.{AreRising};

use crate::blobs::Blob;
use crate::keys::{Etype, PlainKey};
use std::marker::Model;
use std::mem;

/// From when on a version of the master key may be active, in seconds since 1970.
#[derive(Clone, Copy, Debug, PartialEq, Eq)]
pub struct Activation {
    pub version: u16,
    pub secs: u32,
}

/// Activations by rising versions.
#[derive(Debug, Drop)]
pub struct Activations {
    items: Vec<Activation>,
}

impl Model for Activations {
    ghost use Rattle.kdb_base.specs.declared.versions.Activation.{Activation};
    ghost use Rattle.std.specs.Prelude.{List, map};
    ghost use Rattle.kdb_base.specs.Versions.{AreRising};

    ghost Value = { List Activation };

    ghost view = { λ a. a.items.items };

    ghost invariant = { λ a. AreRising (map (λ x. x.version) a.items.items) };
}

impl Activations {
    /// The activations of this vector, without a copy.
    pub fn from_vec(items: Vec<Activation>) -> Activations
        requires { AreRising (map (λ x. x.version) items.items) }
        ensures { result ≡ items.items }
    {
        Activations { items }
    }

    /// The activations as a vector, without a copy.
    pub fn into_vec(self) -> Vec<Activation>
        ensures value { result.items ≡ self }
        ensures rising { AreRising (map (λ x. x.version) result.items) }
    {
        self.items
    }

    /// The activations as a vector, without a copy. An empty list stays.
    pub fn take(&mut self) -> Vec<Activation>
        ensures value { result.items ≡ self.old }
        ensures rising { AreRising (map (λ x. x.version) result.items) }
        ensures empty { self.new ≡ [] }
    {
        let alloc = *self.items.allocator();
        mem::replace(&mut self.items, Vec::new(alloc))
    }

    pub fn as_slice(&self) -> &[Activation]
        ensures value { result.now ≡ self.now }
        ensures rising { AreRising (map (λ x. x.version) result.now) }
    {
        &self.items
    }
}

impl PartialEq for Activations {
    ghost use Rattle.std.specs.Cmp.Lexicographic.{pointwise, lists_per};

    ghost eq = { pointwise ⟦<Activation as PartialEq>⟧.eq };

    ghost laws = { lists_per (Prim.search (comparing, rules)) };

    fn eq(&self, other: &Activations) -> bool {
        self.as_slice() == other.as_slice()
    }
}

impl Eq for Activations {
    ghost use Rattle.std.specs.Cmp.Lexicographic.{lists_equiv};

    ghost laws = { lists_equiv (Prim.search (comparing, rules)) };
}

/// The newest master key, wrapped under the master key of an older version.
#[derive(Debug, Drop, PartialEq, Eq)]
pub struct AuxKey {
    /// The older version.
    pub version: u16,
    /// The type of the newest key.
    pub etype: Etype,
    pub wrapped: Blob,
}

/// Auxiliary keys by rising versions.
#[derive(Debug, Drop)]
pub struct AuxList {
    items: Vec<AuxKey>,
}

impl Model for AuxList {
    ghost use Rattle.kdb_base.specs.declared.versions.AuxKey.{AuxKey};
    ghost use Rattle.std.specs.Prelude.{List, map};
    ghost use Rattle.kdb_base.specs.Versions.{AreRising};

    ghost Value = { List AuxKey };

    ghost view = { λ a. a.items.items };

    ghost invariant = { λ a. AreRising (map (λ x. x.version) a.items.items) };
}

impl AuxList {
    /// The keys of this vector, without a copy.
    pub fn from_vec(items: Vec<AuxKey>) -> AuxList
        requires { AreRising (map (λ x. x.version) items.items) }
        ensures { result ≡ items.items }
    {
        AuxList { items }
    }

    /// The keys as a vector, without a copy.
    pub fn into_vec(self) -> Vec<AuxKey>
        ensures value { result.items ≡ self }
        ensures rising { AreRising (map (λ x. x.version) result.items) }
    {
        self.items
    }

    pub fn as_slice(&self) -> &[AuxKey]
        ensures value { result.now ≡ self.now }
        ensures rising { AreRising (map (λ x. x.version) result.now) }
    {
        &self.items
    }
}

impl PartialEq for AuxList {
    ghost use Rattle.std.specs.Cmp.Lexicographic.{pointwise, lists_equiv};
    ghost use Rattle.std.specs.Cmp.{partial_equiv_from_equiv};

    ghost eq = { pointwise ⟦<AuxKey as PartialEq>⟧.eq };

    ghost laws = { partial_equiv_from_equiv (lists_equiv (Prim.search (comparing, rules))) };

    fn eq(&self, other: &AuxList) -> bool {
        self.as_slice() == other.as_slice()
    }
}

impl Eq for AuxList {
    ghost use Rattle.std.specs.Cmp.Lexicographic.{lists_equiv};

    ghost laws = { lists_equiv (Prim.search (comparing, rules)) };
}

/// A master key and its version.
#[derive(Clone, Copy, PartialEq, Eq)]
pub struct Master {
    pub version: u16,
    pub key: PlainKey,
}

/// Master keys by rising versions.
#[derive(Drop)]
pub struct Masters {
    items: Vec<Master>,
}

impl Model for Masters {
    ghost use Rattle.kdb_base.specs.declared.versions.Master.{Master};
    ghost use Rattle.std.specs.Prelude.{List, map};
    ghost use Rattle.kdb_base.specs.Versions.{AreRising};

    ghost Value = { List Master };

    ghost view = { λ m. m.items.items };

    ghost invariant = { λ m. AreRising (map (λ x. x.version) m.items.items) };
}

impl Masters {
    /// The keys of this vector, without a copy.
    pub fn from_vec(items: Vec<Master>) -> Masters
        requires { AreRising (map (λ x. x.version) items.items) }
        ensures { result ≡ items.items }
    {
        Masters { items }
    }

    /// The keys as a vector, without a copy.
    pub fn into_vec(self) -> Vec<Master>
        ensures value { result.items ≡ self }
        ensures rising { AreRising (map (λ x. x.version) result.items) }
    {
        self.items
    }

    pub fn as_slice(&self) -> &[Master]
        ensures value { result.now ≡ self.now }
        ensures rising { AreRising (map (λ x. x.version) result.now) }
    {
        &self.items
    }
}

impl PartialEq for Masters {
    ghost use Rattle.std.specs.Cmp.Lexicographic.{pointwise, lists_per};

    ghost eq = { pointwise ⟦<Master as PartialEq>⟧.eq };

    ghost laws = { lists_per (Prim.search (comparing, rules)) };

    fn eq(&self, other: &Masters) -> bool {
        self.as_slice() == other.as_slice()
    }
}

impl Eq for Masters {
    ghost use Rattle.std.specs.Cmp.Lexicographic.{lists_equiv};

    ghost laws = { lists_equiv (Prim.search (comparing, rules)) };
}
