//! The commands of administrators, as values.

use crate::options::PrincOptions;
use crate::policies::{ModPolicy, PolicyChoice};
use kdb_base::{Blob, Etype};
use plain_keys::NewKeys;
use policy_rules::Policy;
use princ_name::Name;

/// `addprinc`.
#[derive(Drop)]
pub struct AddPrinc {
    pub name: Name,
    /// `-pw` or `-randkey`, with the types of `-e`; None for `-nokey`.
    pub keys: Option<NewKeys>,
    pub policy: Option<PolicyChoice>,
    pub options: PrincOptions,
}

/// `modprinc`.
#[derive(Debug, Drop)]
pub struct ModPrinc {
    pub name: Name,
    pub policy: Option<PolicyChoice>,
    pub options: PrincOptions,
}

/// `cpw`.
#[derive(Drop)]
pub struct ChangeKeys {
    pub name: Name,
    pub keys: NewKeys,
    /// `-keepold`: the keys of before stay beside the new ones.
    pub keep_old: bool,
}

/// `renprinc`.
#[derive(Debug, Drop)]
pub struct RenPrinc {
    pub name: Name,
    pub new_name: Name,
}

/// `purgekeys`.
#[derive(Debug, Drop)]
pub struct PurgeKeys {
    pub name: Name,
    /// `-keepkvno`: the least version that stays. None for the greatest one.
    pub keep: Option<u16>,
}

/// `setstr`.
#[derive(Debug, Drop)]
pub struct SetString {
    pub name: Name,
    pub key: Blob,
    pub value: Blob,
}

/// `delstr`.
#[derive(Debug, Drop)]
pub struct DelString {
    pub name: Name,
    pub key: Blob,
}

/// `use_mkey`.
#[derive(Clone, Copy, Debug)]
pub struct UseMaster {
    pub version: u16,
    /// When the version becomes active, in seconds since 1970. None for the moment of the command.
    pub secs: Option<u32>,
}

/// A command of an administrator. Its names have the realm of the database that it is given to. It does not print
/// itself: what it would print may be a password.
#[derive(Drop)]
pub enum Command {
    AddPrinc(AddPrinc),
    ModPrinc(ModPrinc),
    ChangeKeys(ChangeKeys),
    RenPrinc(RenPrinc),
    DelPrinc(Name),
    GetPrinc(Name),
    /// With the glob of the names to list, which is matched against printed names. None lists all.
    ListPrincs(Option<Blob>),
    PurgeKeys(PurgeKeys),
    SetString(SetString),
    DelString(DelString),
    GetStrings(Name),
    /// `extract`: the newest keys, for a keytab.
    Extract(Name),
    AddPolicy(Policy),
    ModPolicy(ModPolicy),
    DelPolicy(Blob),
    GetPolicy(Blob),
    ListPolicies,
    GetPrivs,
    /// `add_mkey`, with the encryption type of the new master key. None for that of the newest one.
    AddMaster(Option<Etype>),
    UseMaster(UseMaster),
    ListMasters,
    PurgeMasters,
    /// `update_princ_encryption`, with the glob of the names to rekey. None rekeys all.
    RekeyPrincs(Option<Blob>),
    Stash,
    Dump,
}
