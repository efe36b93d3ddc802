//! A record's keys, wrapped anew under another master key.

ghost use Rattle.std.specs.Prelude.{◌≡◌, ◌≢◌, ℕ, ◌+◌, ◌*◌, ◌<◌, ◌≤◌, List, Err, None, IfErr, IfOk, MatchResult, length};
ghost use Rattle.std.specs.List.{All, AllZip};
ghost use Rattle.kdb_base.specs.Key.{Key};
ghost use Rattle.kdb_base.specs.Limits.{most_keys};
ghost use Rattle.princ_record.specs.Princs.{IsPrinc};
ghost use Rattle.master_keys.specs.Rewrapping.{HoldNotAll, Holds, HoldsOne, IsRewrapped};
ghost use Rattle.master_keys.specs.Rewrapping.{confounder, with_key, with_keys};

use crate::faults::{ChainFault, Unopened};
use crate::wrapping::MasterKey;
use kdb_base::{MemoryOut, PlainKey};
use princ_keys::copy_salt;
use princ_record::{KeyItem, Keys, Princ, copy};
use std::alloc::Global;

/// The bytes of a confounder.
const CONFOUNDER_LEN: usize = 16;

/// The confounder of a place, where those of the places before it stand in front.
#[tactic(auto, unfolding(crate::specs::Rewrapping::confounder))]
pub(crate) fn confounder(random: &[u8], place: usize) -> [u8; 16]
    requires { 16 * (place + 1) ≤ length random.now }
    ensures { result ≡ confounder random.now place }
{
    let mut bytes = [0; 16];
    bytes.copy_from_slice(&random[CONFOUNDER_LEN * place..CONFOUNDER_LEN * (place + 1)]);
    bytes
}

/// The item with this key in it, wrapped under a master key.
#[tactic(auto, unfolding(crate::specs::Rewrapping::with_key))]
fn wrap_item(
    alloc: Global,
    master: &MasterKey,
    confounder: &[u8; 16],
    item: &KeyItem,
    key: &PlainKey,
) -> Result<KeyItem, MemoryOut>
    requires { item.now.etype ≡ key.now.etype }
    ensures item { IfOk result (λ x. x ≡ with_key master.now confounder.now item.now key.now) }
    ensures holds { IfOk result (λ x. Holds master.now x key.now) }
{
    let salt = copy_salt(alloc, &item.salt)?;
    let wrapped = master.wrap(alloc, key, confounder)?;
    Ok(KeyItem {
        kvno: item.kvno,
        etype: item.etype,
        salt,
        wrapped,
    })
}

/// The items with these keys in them, wrapped under a master key. The confounder of the first is the 16 bytes of
/// `random` at this place, counted in confounders, that of the second the next 16, and so on.
///
/// # Errors
///
/// `MemoryOut` where memory is wanted and not given.
pub fn wrap_items(
    alloc: Global,
    master: &MasterKey,
    random: &[u8],
    place: usize,
    items: &[KeyItem],
    keys: &[PlainKey],
) -> Result<Vec<KeyItem>, MemoryOut>
    requires types { AllZip (λ item key. item.etype ≡ key.etype) items.now keys.now }
    requires random { 16 * (place + length items.now) ≤ length random.now }
    ensures items { IfOk result (λ v. v.items ≡ with_keys master.now random.now place items.now keys.now) }
    ensures holds { IfOk result (λ v. AllZip (Holds master.now) v.items keys.now) }
{
    let mut out = Vec::with_capacity(alloc, items.len())?;
    for (at, item) in items.iter().enumerate() {
        let confounder = confounder(random, place + at);
        let item = wrap_item(alloc, master, &confounder, item, &keys[at])?;
        out.push(item)?;
    }
    Ok(out)
}

/// The keys that the items hold under a master key, by place.
///
/// # Errors
///
/// `Wrong` where some item holds no key of its type under it, and `MemoryOut` where memory is wanted and not given.
pub fn open_keys(
    alloc: Global,
    master: &MasterKey,
    items: &[KeyItem],
) -> Result<Vec<PlainKey>, Unopened>
    ensures ok { IfOk result (λ keys. AllZip (Holds master.now) items.now keys.items) }
    // What the items hold is given, unless memory runs out.
    ensures only { (plain : List Key) → AllZip (Holds master.now) items.now plain
        → MatchResult result (λ keys. keys.items ≡ plain) (λ fault. fault ≡ Unopened.MemoryOut) }
    ensures wrong { result ≡ Err Unopened.Wrong → HoldNotAll master.now items.now }
{
    let mut keys = Vec::new(alloc);
    for item in items {
        match master.unwrap(alloc, item.etype, item.wrapped.as_slice()) {
            Ok(key) => keys.push(key)?,
            Err(fault) => return Err(fault),
        }
    }
    Ok(keys)
}

/// The record with these keys under the master key of this version.
pub(crate) fn with_master(
    alloc: Global,
    princ: &Princ,
    version: u16,
    keys: Vec<KeyItem>,
) -> Result<Princ, MemoryOut>
    ensures { IfOk result (λ p. p ≡ record princ.now { mkvno = version; keys = keys.items }) }
{
    let mut copied = copy(alloc, princ)?;
    copied.mkvno = version;
    copied.keys = Keys::from_vec(keys);
    Ok(copied)
}

/// The record with each of its keys wrapped anew, under the master key `fresh` of this version in place of
/// `old`. The first 16 bytes of `random` are the first key's confounder, the next 16 the second's, and so on.
/// Nothing is derived here, so who goes through many records derives once.
///
/// # Errors
///
/// `StashWrong` where some key does not unwrap under `old`, and `MemoryOut` where memory is wanted and not
/// given.
pub fn rewrap_by(
    alloc: Global,
    princ: &Princ,
    old: &MasterKey,
    version: u16,
    fresh: &MasterKey,
    random: &[u8; 512],
) -> Result<Princ, ChainFault>
    requires { length princ.now.keys ≤ most_keys }
    ensures ok { IfOk result (λ p. IsRewrapped princ.now old.now version fresh.now random.now p) }
    // The keys that it held under `old` it holds under `fresh`.
    ensures only { (plain : List Key) → AllZip (Holds old.now) princ.now.keys plain
        → IfOk result (λ p. AllZip (Holds fresh.now) p.keys plain) }
    // A record other than K/M's that has a spelling gets one, under a version from 1.
    ensures spelled { IsPrinc princ.now → princ.now.chain ≡ None → 0 < version → IfOk result (λ p. IsPrinc p) }
    // Where each key unwraps, only memory can be wanted.
    ensures complete { All (HoldsOne old.now) princ.now.keys → IfErr result (λ fault. fault ≡ ChainFault.MemoryOut) }
    ensures wrong { result ≡ Err ChainFault.StashWrong → HoldNotAll old.now princ.now.keys }
    ensures known { (asked : ℕ) → result ≢ Err (ChainFault.UnknownMaster asked) }
{
    let items = princ.keys.as_slice();
    let keys = match open_keys(alloc, old, items) {
        Ok(keys) => keys,
        Err(fault) => return Err(ChainFault::from(fault)),
    };
    let Ok(keys) = wrap_items(alloc, fresh, random, 0, items, &keys) else {
        return Err(ChainFault::MemoryOut);
    };
    match with_master(alloc, princ, version, keys) {
        Ok(rewrapped) => Ok(rewrapped),
        Err(MemoryOut) => Err(ChainFault::MemoryOut),
    }
}

/// The record with each of its keys wrapped anew, as `rewrap_by` does it, by master keys from which nothing is
/// derived yet.
///
/// # Errors
///
/// Those of `rewrap_by`.
pub fn rewrap(
    alloc: Global,
    princ: &Princ,
    old: &PlainKey,
    version: u16,
    fresh: &PlainKey,
    random: &[u8; 512],
) -> Result<Princ, ChainFault>
    requires { length princ.now.keys ≤ most_keys }
    ensures ok { IfOk result (λ p. IsRewrapped princ.now old.now version fresh.now random.now p) }
    // The keys that it held under `old` it holds under `fresh`.
    ensures only { (plain : List Key) → AllZip (Holds old.now) princ.now.keys plain
        → IfOk result (λ p. AllZip (Holds fresh.now) p.keys plain) }
    // A record other than K/M's that has a spelling gets one, under a version from 1.
    ensures spelled { IsPrinc princ.now → princ.now.chain ≡ None → 0 < version → IfOk result (λ p. IsPrinc p) }
    // Where each key unwraps, only memory can be wanted.
    ensures complete { All (HoldsOne old.now) princ.now.keys → IfErr result (λ fault. fault ≡ ChainFault.MemoryOut) }
    ensures wrong { result ≡ Err ChainFault.StashWrong → HoldNotAll old.now princ.now.keys }
    ensures known { (asked : ℕ) → result ≢ Err (ChainFault.UnknownMaster asked) }
{
    let old = MasterKey::new(old);
    let fresh = MasterKey::new(fresh);
    rewrap_by(alloc, princ, &old, version, &fresh, random)
}
