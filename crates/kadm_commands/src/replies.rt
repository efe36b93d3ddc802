//! What commands answer.

use crate::names::NameList;
use crate::shown::PrincShown;
use crate::versions::{MasterRows, PurgeRows};
use kdb_base::{Blob, ExtractList, Point, Refusal};
use policy_rules::Policy;
use tagged_data::StringAttributes;

/// How many principals a rekeying of many came to.
#[derive(Clone, Copy, Debug, PartialEq, Eq)]
pub struct Totals {
    pub updated: u32,
    /// Those that were under the active version already.
    pub already: u32,
    /// Those that were deleted meanwhile.
    pub gone: u32,
}

/// The answer to a command. It does not print itself: what `extract` answers are keys.
#[derive(Drop)]
pub enum Reply {
    /// A change was made, and this is its point.
    Done(Point),
    /// `getprinc`.
    Shown(PrincShown),
    /// `listprincs` and `listpols`.
    Listed(NameList),
    /// `getstrs`.
    Strings(StringAttributes),
    /// `extract`.
    Extracted(ExtractList),
    /// `getpol`.
    PolicyShown(Policy),
    /// `getprivs`: the letters of the privileges, in the order of `admcilspe`.
    Privileges(Blob),
    /// `add_mkey`: the point and the new version.
    MasterAdded(Point, u16),
    /// `use_mkey`: the point, the version, and when it becomes active, in seconds since 1970.
    MasterUsed(Point, u16, u32),
    /// `list_mkeys`.
    MastersListed(MasterRows),
    /// `purge_mkeys`: the point where a version was deleted, and every version listed before.
    MastersPurged(Option<Point>, PurgeRows),
    /// `update_princ_encryption`.
    Rekeyed(Totals),
    /// `stash`.
    Stashed,
    /// Nothing was done.
    Refused(Refusal),
}
