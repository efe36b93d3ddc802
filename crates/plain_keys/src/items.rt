//! Keys of principals in the plain. None of these types prints itself: what it would print is a key.

ghost use Rattle.std.specs.Prelude.{◌≡◌};

use kdb_base::{PlainKey, Salt};
use std::marker::Model;

/// A key of a principal.
#[derive(Drop)]
pub struct PlainItem {
    /// The version, from 1.
    pub kvno: u16,
    pub salt: Salt,
    pub key: PlainKey,
}

/// Keys of a principal in their order.
#[derive(Drop)]
pub struct PlainItems {
    items: Vec<PlainItem>,
}

impl Model for PlainItems {
    ghost use Rattle.std.specs.Prelude.{List};
    ghost use Rattle.plain_keys.specs.declared.items.PlainItem.{PlainItem};

    ghost Value = { List PlainItem };

    ghost view = { λ k. k.items.items };
}

impl PlainItems {
    /// The keys of this vector, without a copy.
    pub fn from_vec(items: Vec<PlainItem>) -> PlainItems
        ensures { result ≡ items.items }
    {
        PlainItems { items }
    }

    /// The keys as a vector, without a copy.
    pub fn into_vec(self) -> Vec<PlainItem>
        ensures { result.items ≡ self }
    {
        self.items
    }

    pub fn as_slice(&self) -> &[PlainItem]
        ensures { result.now ≡ self.now }
    {
        &self.items
    }
}

/// Keys in their order.
#[derive(Drop)]
pub struct PlainKeys {
    items: Vec<PlainKey>,
}

impl Model for PlainKeys {
    ghost use Rattle.std.specs.Prelude.{List};
    ghost use Rattle.kdb_base.specs.Key.{Key};

    ghost Value = { List Key };

    ghost view = { λ k. k.items.items };
}

impl PlainKeys {
    /// The keys of this vector, without a copy.
    pub fn from_vec(items: Vec<PlainKey>) -> PlainKeys
        ensures { result ≡ items.items }
    {
        PlainKeys { items }
    }

    /// The keys as a vector, without a copy.
    pub fn into_vec(self) -> Vec<PlainKey>
        ensures { result.items ≡ self }
    {
        self.items
    }

    pub fn as_slice(&self) -> &[PlainKey]
        ensures { result.now ≡ self.now }
    {
        &self.items
    }
}

/// The keys of an earlier password, and the version that they had.
#[derive(Drop)]
pub struct PlainSet {
    pub kvno: u16,
    pub keys: PlainKeys,
}

/// Remembered sets, newest first.
#[derive(Drop)]
pub struct PlainSets {
    items: Vec<PlainSet>,
}

impl Model for PlainSets {
    ghost use Rattle.std.specs.Prelude.{List};
    ghost use Rattle.plain_keys.specs.declared.items.PlainSet.{PlainSet};

    ghost Value = { List PlainSet };

    ghost view = { λ s. s.items.items };
}

impl PlainSets {
    /// The sets of this vector, without a copy.
    pub fn from_vec(items: Vec<PlainSet>) -> PlainSets
        ensures { result ≡ items.items }
    {
        PlainSets { items }
    }

    /// The sets as a vector, without a copy.
    pub fn into_vec(self) -> Vec<PlainSet>
        ensures { result.items ≡ self }
    {
        self.items
    }

    pub fn as_slice(&self) -> &[PlainSet]
        ensures { result.now ≡ self.now }
    {
        &self.items
    }
}
