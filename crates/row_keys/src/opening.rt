//! Wrapped keys of a record, opened.

ghost use Rattle.std.specs.Prelude.{◌≡◌, List, Err, None, IfOk, MatchResult};
ghost use Rattle.std.specs.List.{AllZip};
ghost use Rattle.kdb_base.specs.Key.{Key};
ghost use Rattle.kdb_plain.specs.Heads.{plain_of};
ghost use Rattle.kdb_plain.specs.declared.princs.PlainPrinc.{PlainPrinc};
ghost use Rattle.plain_keys.specs.declared.items.PlainItem.{PlainItem};
ghost use Rattle.plain_keys.specs.declared.items.PlainSet.{PlainSet};
ghost use Rattle.row_keys.specs.Shows.{ShowsItem, ShowsOldKey, ShowsSet, ShowsUnder};

use kdb_base::MemoryOut;
use kdb_plain::{PlainPrinc, plain_of};
use master_keys::{MasterKey, Unopened};
use plain_keys::{PlainItem, PlainItems, PlainKeys, PlainSet, PlainSets};
use princ_keys::{KeyItem, OldKey, OldSet, copy_salt};
use princ_record::{Princ, copy};
use std::alloc::Global;

fn open_item(alloc: Global, master: &MasterKey, item: &KeyItem) -> Result<PlainItem, Unopened>
    ensures ok { IfOk result (λ k. ShowsItem master.now item.now k) }
    ensures only { (k : PlainItem) → ShowsItem master.now item.now k
        → MatchResult result (λ found. found ≡ k) (λ fault. fault ≡ Unopened.MemoryOut) }
{
    match master.unwrap(alloc, item.etype, item.wrapped.as_slice()) {
        Ok(key) => match copy_salt(alloc, &item.salt) {
            Ok(salt) => Ok(PlainItem {
                kvno: item.kvno,
                salt,
                key,
            }),
            Err(_) => Err(Unopened::MemoryOut),
        },
        Err(fault) => Err(fault),
    }
}

/// The keys that a record's items hold under a master key, with their versions and salts.
///
/// # Errors
///
/// `Wrong` where some item holds no key of its type under the master key, and `MemoryOut` where memory is wanted
/// and not given.
pub fn open_items(
    alloc: Global,
    master: &MasterKey,
    items: &[KeyItem],
) -> Result<PlainItems, Unopened>
    ensures ok { IfOk result (λ keys. AllZip (ShowsItem master.now) items.now keys) }
    // What the items hold is given, unless memory runs out.
    ensures only { (plain : List PlainItem) → AllZip (ShowsItem master.now) items.now plain
        → MatchResult result (λ keys. keys ≡ plain) (λ fault. fault ≡ Unopened.MemoryOut) }
    ensures wrong { result ≡ Err Unopened.Wrong → (plain : List PlainItem)
        → ¬ AllZip (ShowsItem master.now) items.now plain }
{
    let mut keys = Vec::new(alloc);
    for item in items {
        match open_item(alloc, master, item) {
            Ok(key) => keys.push(key)?,
            Err(fault) => return Err(fault),
        }
    }
    Ok(PlainItems::from_vec(keys))
}

fn open_old_keys(alloc: Global, history: &MasterKey, kept: &[OldKey]) -> Result<PlainKeys, Unopened>
    ensures ok { IfOk result (λ keys. AllZip (ShowsOldKey history.now) kept.now keys) }
    ensures only { (plain : List Key) → AllZip (ShowsOldKey history.now) kept.now plain
        → MatchResult result (λ keys. keys ≡ plain) (λ fault. fault ≡ Unopened.MemoryOut) }
{
    let mut keys = Vec::new(alloc);
    for old in kept {
        match history.unwrap(alloc, old.etype, old.wrapped.as_slice()) {
            Ok(key) => keys.push(key)?,
            Err(fault) => return Err(fault),
        }
    }
    Ok(PlainKeys::from_vec(keys))
}

fn open_set(alloc: Global, history: &MasterKey, set: &OldSet) -> Result<PlainSet, Unopened>
    ensures ok { IfOk result (λ plain. ShowsSet history.now set.now plain) }
    ensures only { (plain : PlainSet) → ShowsSet history.now set.now plain
        → MatchResult result (λ found. found ≡ plain) (λ fault. fault ≡ Unopened.MemoryOut) }
{
    match open_old_keys(alloc, history, set.keys.as_slice()) {
        Ok(keys) => Ok(PlainSet {
            kvno: set.kvno,
            keys,
        }),
        Err(fault) => Err(fault),
    }
}

/// The keys that remembered sets hold under the history key.
///
/// # Errors
///
/// `Wrong` where some remembered key holds no key of its type under the history key, and `MemoryOut` where memory
/// is wanted and not given.
pub fn open_sets(alloc: Global, history: &MasterKey, sets: &[OldSet]) -> Result<PlainSets, Unopened>
    ensures ok { IfOk result (λ plain. AllZip (ShowsSet history.now) sets.now plain) }
    // What the sets hold is given, unless memory runs out.
    ensures only { (all : List PlainSet) → AllZip (ShowsSet history.now) sets.now all
        → MatchResult result (λ plain. plain ≡ all) (λ fault. fault ≡ Unopened.MemoryOut) }
    ensures wrong { result ≡ Err Unopened.Wrong → (all : List PlainSet) → ¬ AllZip (ShowsSet history.now) sets.now all }
{
    let mut plain = Vec::new(alloc);
    for set in sets {
        match open_set(alloc, history, set) {
            Ok(set) => plain.push(set)?,
            Err(fault) => return Err(fault),
        }
    }
    Ok(PlainSets::from_vec(plain))
}

/// The fields of the record with these keys.
fn with_plain(
    alloc: Global,
    princ: &Princ,
    keys: PlainItems,
    old: PlainSets,
) -> Result<PlainPrinc, MemoryOut>
    ensures { IfOk result (λ q. q ≡ plain_of princ.now keys old) }
{
    let head = copy(alloc, princ)?;
    Ok(plain_of(head, keys, old))
}

/// The principal of a record, its keys opened by the master key of its version and its remembered keys by the
/// history key.
///
/// # Errors
///
/// `Wrong` where some key does not open, and `MemoryOut` where memory is wanted and not given.
pub fn open_princ(
    alloc: Global,
    master: &MasterKey,
    history: &MasterKey,
    princ: &Princ,
) -> Result<PlainPrinc, Unopened>
    ensures ok { IfOk result (λ q. ShowsUnder master.now history.now princ.now q) }
    // The principal that the record shows is given, unless memory runs out.
    ensures only { (q : PlainPrinc) → ShowsUnder master.now history.now princ.now q
        → MatchResult result (λ found. found ≡ q) (λ fault. fault ≡ Unopened.MemoryOut) }
{
    let keys = match open_items(alloc, master, princ.keys.as_slice()) {
        Ok(keys) => keys,
        Err(fault) => return Err(fault),
    };
    let old = match open_sets(alloc, history, princ.old.as_slice()) {
        Ok(old) => old,
        Err(fault) => return Err(fault),
    };
    match with_plain(alloc, princ, keys, old) {
        Ok(plain) => Ok(plain),
        Err(_) => Err(Unopened::MemoryOut),
    }
}
