//! Keys that are remembered when a password changes.

ghost use Rattle.std.specs.Prelude.{◌≡◌, ◌*◌, ◌≤◌, List, length, take, IfOk};
ghost use Rattle.std.specs.List.{AllZip};
ghost use Rattle.plain_keys.specs.Keys.{newest_keys, newest_set, remembered, with_newest};
ghost use Rattle.plain_keys.specs.declared.items.PlainSet.{PlainSet};
ghost use Rattle.row_keys.specs.Remembering.{remembered_sets, wrapped_old_key};
ghost use Rattle.row_keys.specs.Remembering.{wrapped_old_keys, wrapped_set, with_wrapped_set};
ghost use Rattle.row_keys.specs.Shows.{ShowsOldKey, ShowsSet};

use kdb_base::{MemoryOut, PlainKey};
use master_keys::MasterKey;
use plain_keys::{PlainItem, newest_keys, newest_kvno};
use princ_keys::{OldKey, OldKeys, OldSet, OldSets};
use std::alloc::Global;

/// The bytes of a confounder.
const CONFOUNDER_LEN: usize = 16;

/// The key, wrapped under the history key with this confounder.
#[tactic(auto, unfolding(crate::specs::Remembering::wrapped_old_key))]
fn wrapped_old_key(
    alloc: Global,
    history: &MasterKey,
    confounder: &[u8; 16],
    key: &PlainKey,
) -> Result<OldKey, MemoryOut>
    ensures key { IfOk result (λ x. x ≡ wrapped_old_key history.now confounder.now key.now) }
    ensures shows { IfOk result (λ x. ShowsOldKey history.now x key.now) }
{
    let wrapped = history.wrap(alloc, key, confounder)?;
    Ok(OldKey {
        etype: key.etype(),
        wrapped,
    })
}

/// The first 16 bytes.
fn confounder_of(random: &[u8]) -> [u8; 16]
    requires { 16 ≤ length random.now }
    ensures { result ≡ take 16 random.now }
{
    let mut confounder = [0; 16];
    confounder.copy_from_slice(&random[..CONFOUNDER_LEN]);
    confounder
}

/// The keys, wrapped under the history key, each with the next 16 bytes.
fn wrapped_old_keys(
    alloc: Global,
    history: &MasterKey,
    random: &[u8],
    keys: &[PlainKey],
) -> Result<Vec<OldKey>, MemoryOut>
    requires { 16 * length keys.now ≤ length random.now }
    ensures keys { IfOk result (λ v. v.items ≡ wrapped_old_keys history.now random.now keys.now) }
    ensures shows { IfOk result (λ v. AllZip (ShowsOldKey history.now) v.items keys.now) }
{
    let mut out = Vec::with_capacity(alloc, keys.len())?;
    let mut left = random;
    for key in keys {
        let wrapped = wrapped_old_key(alloc, history, &confounder_of(left), key)?;
        out.push(wrapped)?;
        let (_, behind) = left.split_at(CONFOUNDER_LEN);
        left = behind;
    }
    Ok(out)
}

/// The keys of the greatest version, as a record remembers them.
fn wrapped_set(
    alloc: Global,
    history: &MasterKey,
    random: &[u8],
    keys: &[PlainItem],
) -> Result<OldSet, MemoryOut>
    requires { 16 * length (newest_keys keys.now) ≤ length random.now }
    ensures set { IfOk result (λ s. s ≡ wrapped_set history.now random.now keys.now) }
    ensures shows { IfOk result (λ s. ShowsSet history.now s (newest_set keys.now)) }
{
    let newest = newest_keys(alloc, keys)?;
    let wrapped = wrapped_old_keys(alloc, history, random, newest.as_slice())?;
    Ok(OldSet {
        kvno: newest_kvno(keys),
        keys: OldKeys::from_vec(wrapped),
    })
}

/// The keys of the greatest version before those of earlier ones, where there is a key.
fn with_wrapped_set(
    alloc: Global,
    history: &MasterKey,
    random: &[u8],
    keys: &[PlainItem],
    old: OldSets,
) -> Result<Vec<OldSet>, MemoryOut>
    requires { 16 * length (newest_keys keys.now) ≤ length random.now }
    ensures sets { IfOk result (λ v. v.items ≡ with_wrapped_set history.now random.now keys.now old) }
    ensures shows { (plain : List PlainSet) → AllZip (ShowsSet history.now) old plain
        → IfOk result (λ v. AllZip (ShowsSet history.now) v.items (with_newest keys.now plain)) }
{
    let mut sets = old.into_vec();
    if keys.is_empty() {
        return Ok(sets);
    }
    let newest = wrapped_set(alloc, history, random, keys)?;
    sets.insert(0, newest)?;
    Ok(sets)
}

/// What a record remembers once these keys are replaced: the keys of the greatest version, each wrapped under the
/// history key with the next 16 bytes, and the sets of earlier ones, at most one less than `count`, which counts the
/// new password too.
///
/// # Errors
///
/// `MemoryOut` where memory is wanted and not given.
#[tactic(auto, unfolding(crate::specs::Remembering::remembered_sets, plain_keys::specs::Keys::remembered))]
pub fn remembered_sets(
    alloc: Global,
    history: &MasterKey,
    count: u16,
    random: &[u8],
    keys: &[PlainItem],
    old: OldSets,
) -> Result<OldSets, MemoryOut>
    requires { 16 * length (newest_keys keys.now) ≤ length random.now }
    ensures sets { IfOk result (λ s. s ≡ remembered_sets history.now count random.now keys.now old) }
    ensures shows { (plain : List PlainSet) → AllZip (ShowsSet history.now) old plain
        → IfOk result (λ s. AllZip (ShowsSet history.now) s (remembered count keys.now plain)) }
{
    let mut sets = with_wrapped_set(alloc, history, random, keys, old)?;
    sets.truncate(usize::from(count.saturating_sub(1)));
    Ok(OldSets::from_vec(sets))
}
