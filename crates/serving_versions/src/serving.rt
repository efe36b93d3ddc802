//! Which versions of the master key serve, so that they may not be purged.

ghost use Rattle.std.specs.Prelude.{◌≡◌, ◌≤◌, IfOk, nat_eq, option_map};
ghost use Rattle.kdb_base.specs.Limits.{most_rows};
ghost use Rattle.master_keys.specs.Versions.{last_version};
ghost use Rattle.serving_versions.specs.Versions.{cause_from, cause_of, dead_versions, is_active_at};
ghost use Rattle.serving_versions.specs.Versions.{is_pending, is_under, protected_by, serves, serving_masters};

use kdb_base::{Activations, Masters, MemoryOut};
use kdb_plain::{PlainPrinc, PlainPrincs, State, is_master_name};
use key_activation::active_at;
use std::alloc::Global;

/// Why a version of the master key serves.
#[derive(Clone, Copy, Debug, PartialEq, Eq)]
pub enum Cause {
    /// It protects so many principals other than K/M.
    Protects(u32),
    /// It is active.
    Active,
    /// It is the newest.
    Newest,
    /// It has an activation that is yet to come.
    Pending,
}

fn is_under(realm: &[u8], version: u16, princ: &PlainPrinc) -> bool
    ensures { result ≡ is_under realm.now version princ.now }
{
    princ.mkvno == version && !is_master_name(realm, princ.name.as_slice())
}

/// How many principals other than K/M a version of the master key protects, in a database of this realm.
#[tactic(auto, unfolding(crate::specs::Versions::protected_by))]
pub fn protected_by(realm: &[u8], princs: &PlainPrincs, version: u16) -> u32
    ensures count { result ≡ protected_by realm.now princs.now version }
    ensures few { result ≤ most_rows }
{
    princs
        .as_slice()
        .iter()
        .filter(|princ| is_under(realm, version, princ))
        .count() as u32
}

#[tactic(auto, unfolding(master_keys::specs::Versions::last_version))]
fn is_newest(masters: &Masters, version: u16) -> bool
    ensures { result ≡ nat_eq version (last_version masters.now) }
{
    match masters.as_slice() {
        [] => version == 0,
        [.., newest] => version == newest.version,
    }
}

fn is_active(activations: &Activations, secs: u32, version: u16) -> bool
    ensures { result ≡ is_active_at activations.now secs version }
{
    match active_at(activations, secs) {
        Some(active) => active == version,
        None => false,
    }
}

#[tactic(auto, unfolding(crate::specs::Versions::is_pending))]
fn is_pending(activations: &Activations, secs: u32, version: u16) -> bool
    ensures { result ≡ is_pending activations.now secs version }
{
    activations.as_slice().iter().any(|activation| activation.version == version
        && secs < activation.secs)
}

/// Why a version that protects `count` principals serves at `secs`, in seconds since 1970: the first cause that
/// holds. None where it does not serve.
#[tactic(auto, unfolding(crate::specs::Versions::cause_from))]
pub fn cause_from(
    count: u32,
    masters: &Masters,
    activations: &Activations,
    secs: u32,
    version: u16,
) -> Option<Cause>
    ensures { result ≡ cause_from count masters.now activations.now secs version }
{
    if count > 0 {
        return Some(Cause::Protects(count));
    }
    if is_active(activations, secs, version) {
        return Some(Cause::Active);
    }
    if is_newest(masters, version) {
        return Some(Cause::Newest);
    }
    if is_pending(activations, secs, version) {
        return Some(Cause::Pending);
    }
    None
}

/// Why a version of the master key serves at `secs`, in seconds since 1970: the first cause that holds. None where it
/// does not serve.
#[tactic(auto, unfolding(crate::specs::Versions::cause_of))]
pub fn cause_of(state: &State, secs: u32, version: u16) -> Option<Cause>
    ensures { result ≡ cause_of state.now secs version }
{
    let count = protected_by(state.realm.as_slice(), &state.princs, version);
    cause_from(count, &state.masters, &state.activations, secs, version)
}

/// Whether a version of the master key serves at `secs`, in seconds since 1970.
pub fn serves(state: &State, secs: u32, version: u16) -> bool
    ensures { result ≡ serves state.now secs version }
{
    cause_of(state, secs, version).is_some()
}

/// The master keys that serve at `secs`, in seconds since 1970.
///
/// # Errors
///
/// `MemoryOut` where memory is wanted and not given.
pub fn serving_masters(alloc: Global, state: &State, secs: u32) -> Result<Masters, MemoryOut>
    ensures { IfOk result (λ masters. masters ≡ serving_masters state.now secs) }
{
    let mut items = state.masters.as_slice().to_vec(alloc)?;
    items.retain(|master| serves(state, secs, master.version));
    Ok(Masters::from_vec(items))
}

/// The versions of the master key that do not serve at `secs`, in seconds since 1970, in the order of the master keys,
/// which is by rising versions.
///
/// # Errors
///
/// `MemoryOut` where memory is wanted and not given.
#[tactic(auto, unfolding(crate::specs::Versions::dead_versions))]
pub fn dead_versions(alloc: Global, state: &State, secs: u32) -> Result<Vec<u16>, MemoryOut>
    ensures { IfOk result (λ versions. versions.items ≡ dead_versions state.now secs) }
{
    let versions = state
        .masters
        .as_slice()
        .iter()
        .map(|master| master.version)
        .filter(|version| !serves(state, secs, *version))
        .collect(alloc)?;
    Ok(versions)
}
