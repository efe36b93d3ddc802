//! Keys that are handed out in the plain, as a keytab wants them.
ghost use Rattle.std.specs.Prelude.{◌≡◌};

use crate::keys::PlainKey;
use std::marker::Model;

/// A key of a principal and its version.
#[derive(Clone, Copy, PartialEq, Eq)]
pub struct Extract {
    pub kvno: u16,
    pub key: PlainKey,
}

/// Extracted keys, in the order of their record.
#[derive(Drop)]
pub struct ExtractList {
    items: Vec<Extract>,
}

impl Model for ExtractList {
    ghost use Rattle.kdb_base.specs.declared.extracts.Extract.{Extract};
    ghost use Rattle.std.specs.Prelude.{List};

    ghost Value = { List Extract };

    ghost view = { λ e. e.items.items };
}

impl ExtractList {
    /// The keys of this vector, without a copy.
    pub fn from_vec(items: Vec<Extract>) -> ExtractList
        ensures { result ≡ items.items }
    {
        ExtractList { items }
    }

    /// The keys as a vector, without a copy.
    pub fn into_vec(self) -> Vec<Extract>
        ensures { result.items ≡ self }
    {
        self.items
    }

    pub fn as_slice(&self) -> &[Extract]
        ensures { result.now ≡ self.now }
    {
        &self.items
    }
}
