//! The keys that are remembered when a password changes, and whether a new password was in use before.

ghost use Rattle.std.specs.Prelude.{◌≡◌, ◌||◌, IfOk, filter, map};
ghost use Rattle.std.specs.List.{list_any};
ghost use Rattle.policy_rules.specs.Reuse.{is_among};
ghost use Rattle.plain_keys.specs.Keys.{has_kvno, is_item, is_reused, newest_keys, newest_kvno};
ghost use Rattle.plain_keys.specs.Keys.{newest_set, old_keys, remembered, with_newest};

use crate::items::{PlainItem, PlainKeys, PlainSet, PlainSets};
use kdb_base::{MemoryOut, PlainKey};
use std::alloc::Global;
use tagged_data::copy_all;

/// The greatest version of the keys, 0 without a key. Versions never rise, so it is that of the first.
pub fn newest_kvno(keys: &[PlainItem]) -> u16
    ensures { result ≡ newest_kvno keys.now }
{
    match keys {
        [] => 0,
        [first, ..] => first.kvno,
    }
}

/// The keys of a version.
fn keys_of_version(alloc: Global, kvno: u16, keys: &[PlainItem]) -> Result<Vec<PlainKey>, MemoryOut>
    ensures { IfOk result (λ found. found.items ≡ map (λ k. k.key) (filter (has_kvno kvno) keys.now)) }
{
    let found = keys
        .iter()
        .filter(|item| item.kvno == kvno)
        .map(|item| item.key)
        .collect(alloc)?;
    Ok(found)
}

/// The keys of the greatest version.
///
/// # Errors
///
/// `MemoryOut` where memory is wanted and not given.
#[tactic(auto, unfolding(crate::specs::Keys::newest_keys))]
pub fn newest_keys(alloc: Global, keys: &[PlainItem]) -> Result<PlainKeys, MemoryOut>
    ensures { IfOk result (λ newest. newest ≡ newest_keys keys.now) }
{
    let newest = keys_of_version(alloc, newest_kvno(keys), keys)?;
    Ok(PlainKeys::from_vec(newest))
}

/// The keys of the greatest version, as they are remembered.
fn newest_set(alloc: Global, keys: &[PlainItem]) -> Result<PlainSet, MemoryOut>
    ensures { IfOk result (λ set. set ≡ newest_set keys.now) }
{
    let newest = newest_keys(alloc, keys)?;
    Ok(PlainSet {
        kvno: newest_kvno(keys),
        keys: newest,
    })
}

/// The keys of the greatest version before those of earlier ones, where there is a key.
fn with_newest(
    alloc: Global,
    keys: &[PlainItem],
    old: &[PlainSet],
) -> Result<Vec<PlainSet>, MemoryOut>
    ensures { IfOk result (λ sets. sets.items ≡ with_newest keys.now old.now) }
{
    let mut sets = copy_all(alloc, old)?;
    if keys.is_empty() {
        return Ok(sets);
    }
    let newest = newest_set(alloc, keys)?;
    sets.insert(0, newest)?;
    Ok(sets)
}

/// What is remembered once these keys are replaced: the keys of the greatest version and the sets of earlier ones,
/// at most one less than `history`, which counts the new password too.
///
/// # Errors
///
/// `MemoryOut` where memory is wanted and not given.
#[tactic(auto, unfolding(crate::specs::Keys::remembered))]
pub fn remembered(
    alloc: Global,
    history: u16,
    keys: &[PlainItem],
    old: &[PlainSet],
) -> Result<PlainSets, MemoryOut>
    ensures { IfOk result (λ sets. sets ≡ remembered history keys.now old.now) }
{
    let mut sets = with_newest(alloc, keys, old)?;
    sets.truncate(usize::from(history.saturating_sub(1)));
    Ok(PlainSets::from_vec(sets))
}

/// Whether the item is of this version, and its key is this one.
fn is_item(kvno: u16, key: &PlainKey, item: &PlainItem) -> bool
    ensures { result ≡ is_item kvno key.now item.now }
{
    item.kvno == kvno && item.key == *key
}

fn any_item(kvno: u16, key: &PlainKey, items: &[PlainItem]) -> bool
    ensures { result ≡ list_any (is_item kvno key.now) items.now }
{
    items.iter().any(|item| is_item(kvno, key, item))
}

fn holds(set: &PlainSet, key: &PlainKey) -> bool
    ensures { result ≡ is_among set.now.keys key.now }
{
    set.keys.as_slice().iter().any(|other| other == key)
}

fn any_set(key: &PlainKey, sets: &[PlainSet]) -> bool
    ensures { result ≡ list_any (λ set. is_among set.keys key.now) sets.now }
{
    sets.iter().any(|set| holds(set, key))
}

/// Whether the key is one of the greatest version.
fn is_newest(key: &PlainKey, items: &[PlainItem]) -> bool
    ensures { result ≡ is_among (newest_keys items.now) key.now }
{
    any_item(newest_kvno(items), key, items)
}

/// Whether the key is a remembered one.
fn is_remembered(key: &PlainKey, sets: &[PlainSet]) -> bool
    ensures { result ≡ is_among (old_keys sets.now) key.now }
{
    any_set(key, sets)
}

fn is_used(key: &PlainKey, items: &[PlainItem], sets: &[PlainSet]) -> bool
    ensures { result ≡ (is_among (newest_keys items.now) key.now || is_among (old_keys sets.now) key.now) }
{
    is_newest(key, items) || is_remembered(key, sets)
}

/// Whether a new key equals, in its encryption type and its bytes, a key of the greatest version or a remembered
/// one.
#[tactic(auto, unfolding(crate::specs::Keys::is_reused))]
pub fn is_reused(fresh: &[PlainKey], keys: &[PlainItem], old: &[PlainSet]) -> bool
    ensures { result ≡ is_reused fresh.now keys.now old.now }
{
    fresh.iter().any(|key| is_used(key, keys, old))
}
