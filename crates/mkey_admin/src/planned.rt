//! What commands of master keys come to.

ghost use Rattle.std.specs.Prelude.{◌≡◌};
ghost use Rattle.mkey_admin.specs.Plans.{reply_at};

use kadm_commands::{PurgeRows, Reply};
use kdb_base::{Masters, Point};
use princ_rows::Op;

/// What is answered to a change of the master keys, but for the change's point.
#[derive(Debug, Drop)]
pub enum Told {
    /// `add_mkey`: the new version.
    Added(u16),
    /// `use_mkey`: the version, and when it becomes active, in seconds since 1970.
    Used(u16, u32),
    /// `purge_mkeys`: every version listed before.
    Purged(PurgeRows),
}

impl Told {
    /// The answer to the change, which got this point.
    pub fn reply(self, point: Point) -> Reply
        ensures { result ≡ reply_at point self }
    {
        match self {
            Told::Added(version) => Reply::MasterAdded(point, version),
            Told::Used(version, secs) => Reply::MasterUsed(point, version, secs),
            Told::Purged(rows) => Reply::MastersPurged(Some(point), rows),
        }
    }
}

/// A change of K/M's record. It does not print itself, since it holds keys.
#[derive(Drop)]
pub struct MasterChange {
    /// The change of the rows.
    pub op: Op,
    /// The master keys behind it.
    pub masters: Masters,
    pub told: Told,
}

/// What an accepted command comes to. It does not print itself, since it holds keys.
#[derive(Drop)]
pub enum MasterPlan {
    /// It makes no change, and this is its answer.
    Answer(Reply),
    /// It makes this change.
    Change(MasterChange),
}
