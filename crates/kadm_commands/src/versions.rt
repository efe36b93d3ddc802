//! What is told of the versions of the master key.

ghost use Rattle.std.specs.Prelude.{◌≡◌, map};
ghost use Rattle.kdb_base.specs.Versions.{AreRising};
ghost use Rattle.kadm_commands.specs.declared.versions.MasterRow.{MasterRow};
ghost use Rattle.kadm_commands.specs.declared.versions.PurgeRow.{PurgeRow};

use kdb_base::Etype;
use serving_versions::Cause;
use std::marker::Model;

/// A master key as `list_mkeys` shows it.
#[derive(Clone, Copy, Debug)]
pub struct MasterRow {
    pub version: u16,
    pub etype: Etype,
    /// When it becomes or became active, in seconds since 1970, where it has an activation.
    pub secs: Option<u32>,
    /// Whether it is active now.
    pub active: bool,
}

/// Master keys by rising versions.
#[derive(Debug, Drop)]
pub struct MasterRows {
    items: Vec<MasterRow>,
}

impl Model for MasterRows {
    ghost use Rattle.std.specs.Prelude.{List, map};
    ghost use Rattle.kadm_commands.specs.declared.versions.MasterRow.{MasterRow};
    ghost use Rattle.kdb_base.specs.Versions.{AreRising};

    ghost Value = { List MasterRow };

    ghost view = { λ r. r.items.items };

    ghost invariant = { λ r. AreRising (map (λ (row : MasterRow). row.version) r.items.items) };
}

impl MasterRows {
    /// The rows of this vector, without a copy.
    pub fn from_vec(items: Vec<MasterRow>) -> MasterRows
        requires { AreRising (map (λ (row : MasterRow). row.version) items.items) }
        ensures { result ≡ items.items }
    {
        MasterRows { items }
    }

    pub fn as_slice(&self) -> &[MasterRow]
        ensures { result.now ≡ self.now }
    {
        &self.items
    }
}

/// What `purge_mkeys` did with a version: why it was kept, or None where it was deleted.
#[derive(Clone, Copy, Debug)]
pub struct PurgeRow {
    pub version: u16,
    pub cause: Option<Cause>,
}

/// Versions of the master key, rising.
#[derive(Debug, Drop)]
pub struct PurgeRows {
    items: Vec<PurgeRow>,
}

impl Model for PurgeRows {
    ghost use Rattle.std.specs.Prelude.{List, map};
    ghost use Rattle.kadm_commands.specs.declared.versions.PurgeRow.{PurgeRow};
    ghost use Rattle.kdb_base.specs.Versions.{AreRising};

    ghost Value = { List PurgeRow };

    ghost view = { λ r. r.items.items };

    ghost invariant = { λ r. AreRising (map (λ (row : PurgeRow). row.version) r.items.items) };
}

impl PurgeRows {
    /// The rows of this vector, without a copy.
    pub fn from_vec(items: Vec<PurgeRow>) -> PurgeRows
        requires { AreRising (map (λ (row : PurgeRow). row.version) items.items) }
        ensures { result ≡ items.items }
    {
        PurgeRows { items }
    }

    pub fn as_slice(&self) -> &[PurgeRow]
        ensures { result.now ≡ self.now }
    {
        &self.items
    }
}
