//! What is shown of a principal. No key is among it.

ghost use Rattle.std.specs.Prelude.{◌≡◌};

use kdb_base::{Blob, Etype};
use std::marker::Model;

/// What is shown of a key.
#[derive(Clone, Copy, Debug)]
pub struct KeyShown {
    pub kvno: u16,
    pub etype: Etype,
    /// Whether it has a salt of its own, as after a rename.
    pub special: bool,
}

/// What is shown of the keys of a principal, in their order.
#[derive(Debug, Drop)]
pub struct KeysShown {
    items: Vec<KeyShown>,
}

impl Model for KeysShown {
    ghost use Rattle.std.specs.Prelude.{List};
    ghost use Rattle.kadm_commands.specs.declared.shown.KeyShown.{KeyShown};

    ghost Value = { List KeyShown };

    ghost view = { λ k. k.items.items };
}

impl KeysShown {
    /// The keys of this vector, without a copy.
    pub fn from_vec(items: Vec<KeyShown>) -> KeysShown
        ensures { result ≡ items.items }
    {
        KeysShown { items }
    }

    pub fn as_slice(&self) -> &[KeyShown]
        ensures { result.now ≡ self.now }
    {
        &self.items
    }
}

/// A principal as `getprinc` shows it. Times are in seconds since 1970, 0 for never, and lives in seconds.
#[derive(Debug, Drop)]
pub struct PrincShown {
    /// The name in its printed form.
    pub name: Blob,
    pub expire: u32,
    pub pw_expire: u32,
    /// The last time at which a password or a random key was set.
    pub pw_changed: Option<u32>,
    pub max_life: u32,
    pub max_renew: u32,
    pub modified: u32,
    /// The printed name of who changed it last.
    pub modifier: Blob,
    /// The version of the master key that protects the keys.
    pub mkvno: u16,
    pub attributes: u32,
    pub policy: Option<Blob>,
    pub keys: KeysShown,
}
