//! A new newest master key.

ghost use Rattle.std.specs.Prelude.{◌≡◌, ◌+◌, ◌*◌, ◌<◌, ◌≤◌, ◌++◌, ◌∷◌, [], IfOk, length, map, option_map};
ghost use Rattle.std.specs.List.{AllZip};
ghost use Rattle.kdb_base.specs.Limits.{most_masters};
ghost use Rattle.kdb_base.specs.Versions.{AreRising};
ghost use Rattle.princ_record.specs.Princs.{IsPrinc};
ghost use Rattle.master_keys.specs.Adding.{AreListed, IsInactive, activations_in, added_keys};
ghost use Rattle.master_keys.specs.Adding.{added_masters, added_record, aux_key, aux_keys};
ghost use Rattle.master_keys.specs.Adding.{newest_first, newest_item, next_version, with_aux};
ghost use Rattle.master_keys.specs.Chain.{IsAuxOf, IsChain};
ghost use Rattle.master_keys.specs.Rewrapping.{Holds};
ghost use Rattle.master_keys.specs.Versions.{last_version};

use crate::rewrapping::{confounder, with_master, wrap_items};
use crate::wrapping::MasterKey;
use kdb_base::{AuxKey, AuxList, Master, Masters, MemoryOut, PlainKey, Salt};
use princ_record::{ChainPart, KeyItem, Princ};
use std::alloc::Global;

/// The new key, wrapped under itself.
#[tactic(auto, unfolding(crate::specs::Adding::newest_item))]
fn newest_item(
    alloc: Global,
    version: u16,
    key: &PlainKey,
    itself: &MasterKey,
    random: &[u8],
) -> Result<KeyItem, MemoryOut>
    requires random { 16 ≤ length random.now }
    requires itself { itself.now ≡ key.now }
    ensures item { IfOk result (λ x. x ≡ newest_item version key.now random.now) }
    ensures holds { IfOk result (λ x. Holds key.now x key.now) }
{
    let wrapped = itself.wrap(alloc, key, &confounder(random, 0))?;
    Ok(KeyItem {
        kvno: version,
        etype: key.etype(),
        salt: Salt::Normal,
        wrapped,
    })
}

/// The keys, the newest first.
#[tactic(auto, unfolding(crate::specs::Adding::newest_first))]
fn newest_first(alloc: Global, masters: &[Master]) -> Result<Vec<PlainKey>, MemoryOut>
    ensures { IfOk result (λ v. v.items ≡ newest_first masters.now) }
{
    let keys = masters
        .iter()
        .rev()
        .map(|master| master.key)
        .collect(alloc)?;
    Ok(keys)
}

/// The keys of the record: the new one under itself, and the old ones under it.
#[tactic(auto, unfolding(crate::specs::Adding::added_keys))]
fn added_keys(
    alloc: Global,
    version: u16,
    items: &[KeyItem],
    masters: &[Master],
    key: &PlainKey,
    random: &[u8],
) -> Result<Vec<KeyItem>, MemoryOut>
    requires types { AllZip (λ item key. item.etype ≡ key.etype) items.now (newest_first masters.now) }
    requires random { 16 * (1 + length items.now) ≤ length random.now }
    ensures keys { IfOk result (λ v. v.items ≡ added_keys version items.now masters.now key.now random.now) }
    ensures holds { IfOk result (λ v. AllZip (Holds key.now) v.items (key.now ∷ newest_first masters.now)) }
{
    let older = newest_first(alloc, masters)?;
    let newest = MasterKey::new(key);
    let mut keys = wrap_items(alloc, &newest, random, 1, items, &older)?;
    let newest = newest_item(alloc, version, key, &newest, random)?;
    keys.insert(0, newest)?;
    Ok(keys)
}

/// The new key under a master key.
#[tactic(auto, unfolding(crate::specs::Adding::aux_key))]
fn aux_key(
    alloc: Global,
    key: &PlainKey,
    confounder: &[u8; 16],
    master: &Master,
) -> Result<AuxKey, MemoryOut>
    ensures aux { IfOk result (λ x. x ≡ aux_key key.now confounder.now master.now) }
    ensures is { IfOk result (λ x. IsAuxOf key.now x master.now) }
{
    let wrapped = MasterKey::new(&master.key).wrap(alloc, key, confounder)?;
    Ok(AuxKey {
        version: master.version,
        etype: key.etype(),
        wrapped,
    })
}

/// The new key under each of the master keys, with the confounders from a place on.
fn aux_keys(
    alloc: Global,
    key: &PlainKey,
    random: &[u8],
    place: usize,
    masters: &[Master],
) -> Result<Vec<AuxKey>, MemoryOut>
    requires { 16 * (place + length masters.now) ≤ length random.now }
    ensures keys { IfOk result (λ v. v.items ≡ aux_keys key.now random.now place masters.now) }
    ensures are { IfOk result (λ v. AllZip (IsAuxOf key.now) v.items masters.now) }
{
    let mut list = Vec::with_capacity(alloc, masters.len())?;
    for (at, master) in masters.iter().enumerate() {
        let confounder = confounder(random, place + at);
        let aux = aux_key(alloc, key, &confounder, master)?;
        list.push(aux)?;
    }
    Ok(list)
}

/// What stands at K/M alone, with these auxiliary keys.
fn with_aux(chain: Option<ChainPart>, aux: AuxList) -> Option<ChainPart>
    ensures { result ≡ option_map (with_aux aux) chain }
{
    match chain {
        Some(part) => Some(ChainPart {
            activations: part.activations,
            aux,
        }),
        None => None,
    }
}

/// The record with these keys and auxiliary keys, which names this version.
fn with_newest(
    alloc: Global,
    entry: &Princ,
    version: u16,
    keys: Vec<KeyItem>,
    aux: AuxList,
) -> Result<Princ, MemoryOut>
    ensures { IfOk result (λ p. p ≡ record entry.now {
      mkvno = version;
      keys = keys.items;
      chain = option_map (with_aux aux) entry.now.chain;
    }) }
{
    let mut added = with_master(alloc, entry, version, keys)?;
    added.chain = with_aux(added.chain, aux);
    Ok(added)
}

/// The master keys with one more behind them.
fn push_master(alloc: Global, masters: &Masters, newest: Master) -> Result<Masters, MemoryOut>
    requires { AreRising (map (λ m. m.version) (masters.now ++ newest ∷ [])) }
    ensures { IfOk result (λ m. m ≡ masters.now ++ newest ∷ []) }
{
    let mut items = masters.as_slice().to_vec(alloc)?;
    items.push(newest)?;
    Ok(Masters::from_vec(items))
}

/// K/M's record and the master keys with `key` as the newest, of the version after the greatest. The first
/// 16 bytes of `random` are the confounder of the first key of the record, the next 16 of the second, and so
/// on; those of the auxiliary keys follow. The rest is not used. The activations stay as they are, so that the new
/// version is not active.
///
/// # Errors
///
/// `MemoryOut` where memory is wanted and not given.
pub fn add(
    alloc: Global,
    entry: &Princ,
    masters: &Masters,
    key: &PlainKey,
    random: &[u8; 1008],
) -> Result<(Princ, Masters), MemoryOut>
    requires chain { IsChain entry.now masters.now }
    requires few { length masters.now < most_masters }
    requires greatest { last_version masters.now < 65535 }
    ensures entry { IfOk result (λ both. both.0 ≡ added_record entry.now masters.now key.now random.now) }
    ensures masters { IfOk result (λ both. both.1 ≡ added_masters masters.now key.now) }
    ensures chain { IfOk result (λ both. IsChain both.0 both.1) }
    // The activations stay as they were; where they name listed versions, none names the new one.
    ensures activations { IfOk result (λ both. activations_in both.0.chain ≡ activations_in entry.now.chain) }
    ensures inactive { AreListed masters.now (activations_in entry.now.chain)
        → IfOk result (λ both. IsInactive (next_version masters.now) (activations_in both.0.chain)) }
    // A record that has a spelling gets one.
    ensures spelled { IsPrinc entry.now → IfOk result (λ both. IsPrinc both.0) }
{
    let version = entry.mkvno + 1;
    let items = entry.keys.as_slice();
    let older = masters.as_slice();
    let keys = added_keys(alloc, version, items, older, key, random)?;
    let aux = aux_keys(alloc, key, random, 1 + items.len(), older)?;
    let added = with_newest(alloc, entry, version, keys, AuxList::from_vec(aux))?;
    let all = push_master(alloc, masters, Master { version, key: *key })?;
    Ok((added, all))
}
