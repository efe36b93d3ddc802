//! The master keys without some versions.

ghost use Rattle.std.specs.Prelude.{◌≡◌, IfOk, filter, option_map};
ghost use Rattle.std.specs.List.{Contains};
ghost use Rattle.princ_record.specs.Princs.{IsPrinc};
ghost use Rattle.master_keys.specs.Chain.{IsChain};
ghost use Rattle.master_keys.specs.Purging.{live_masters, live_part, purged_record};
ghost use Rattle.master_keys.specs.Versions.{is_live, last_version};

use kdb_base::{Activations, AuxList, Masters, MemoryOut};
use princ_record::{ChainPart, Keys, Princ, copy};
use std::alloc::Global;

/// Whether the version is not among the dead ones.
#[tactic(auto, unfolding(crate::specs::Versions::is_live))]
fn is_live(dead: &[u16], version: u16) -> bool
    ensures { result ≡ is_live dead.now version }
{
    !dead.contains(&version)
}

/// The keys that are not of a dead version.
fn live_keys(keys: Keys, dead: &[u16]) -> Keys
    ensures { result ≡ filter (λ k. is_live dead.now k.kvno) keys }
{
    let mut items = keys.into_vec();
    items.retain(|item| is_live(dead, item.kvno));
    Keys::from_vec(items)
}

/// The activations that are not of a dead version.
fn live_activations(list: Activations, dead: &[u16]) -> Activations
    ensures { result ≡ filter (λ a. is_live dead.now a.version) list }
{
    let mut items = list.into_vec();
    items.retain(|activation| is_live(dead, activation.version));
    Activations::from_vec(items)
}

/// The auxiliary keys that are not of a dead version.
fn live_aux(list: AuxList, dead: &[u16]) -> AuxList
    ensures { result ≡ filter (λ a. is_live dead.now a.version) list }
{
    let mut items = list.into_vec();
    items.retain(|aux| is_live(dead, aux.version));
    AuxList::from_vec(items)
}

/// What stands at K/M alone, without the dead versions.
#[tactic(auto, unfolding(crate::specs::Purging::live_part))]
fn live_part(part: ChainPart, dead: &[u16]) -> ChainPart
    ensures { result ≡ live_part dead.now part }
{
    ChainPart {
        activations: live_activations(part.activations, dead),
        aux: live_aux(part.aux, dead),
    }
}

/// The same, where it is there.
fn live_chain(chain: Option<ChainPart>, dead: &[u16]) -> Option<ChainPart>
    ensures { result ≡ option_map (live_part dead.now) chain }
{
    match chain {
        Some(part) => Some(live_part(part, dead)),
        None => None,
    }
}

/// The record without the dead versions.
#[tactic(auto, unfolding(crate::specs::Purging::purged_record))]
fn purged_record(entry: Princ, dead: &[u16]) -> Princ
    ensures { result ≡ purged_record dead.now entry }
{
    let mut purged = entry;
    purged.keys = live_keys(purged.keys, dead);
    purged.chain = live_chain(purged.chain, dead);
    purged
}

/// The master keys that are not of a dead version.
fn live_masters(alloc: Global, masters: &Masters, dead: &[u16]) -> Result<Masters, MemoryOut>
    ensures { IfOk result (λ m. m ≡ live_masters dead.now masters.now) }
{
    let mut items = masters.as_slice().to_vec(alloc)?;
    items.retain(|master| is_live(dead, master.version));
    Ok(Masters::from_vec(items))
}

/// K/M's record and the master keys without the versions in `dead`: their keys, their activations and their
/// auxiliary keys go. A version that is not there has no effect.
///
/// # Errors
///
/// `MemoryOut` where memory is wanted and not given.
pub fn purge(
    alloc: Global,
    entry: &Princ,
    masters: &Masters,
    dead: &[u16],
) -> Result<(Princ, Masters), MemoryOut>
    requires chain { IsChain entry.now masters.now }
    // The newest master key stays.
    requires newest { ¬ Contains dead.now (last_version masters.now) }
    ensures entry { IfOk result (λ both. both.0 ≡ purged_record dead.now entry.now) }
    ensures masters { IfOk result (λ both. both.1 ≡ live_masters dead.now masters.now) }
    ensures chain { IfOk result (λ both. IsChain both.0 both.1) }
    // A record that has a spelling gets one.
    ensures spelled { IsPrinc entry.now → IfOk result (λ both. IsPrinc both.0) }
{
    let purged = purged_record(copy(alloc, entry)?, dead);
    let live = live_masters(alloc, masters, dead)?;
    Ok((purged, live))
}
