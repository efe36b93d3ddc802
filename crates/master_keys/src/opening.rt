//! The chain of master keys, opened by one of them.

ghost use Rattle.std.specs.Prelude.{◌≡◌, ◌≢◌, ◌↔◌, ◌++◌, ◌∷◌, [], List, None, Err, map, reverse};
ghost use Rattle.std.specs.Prelude.{IfErr, IfOk, IfSome, OnOk, IsTrue, MatchResult, false, nat_eq, ℕ};
ghost use Rattle.std.specs.List.{All, AllZip, Contains, list_any};
ghost use Rattle.kdb_base.specs.Key.{Key};
ghost use Rattle.kdb_base.specs.Versions.{AreRising};
ghost use Rattle.kdb_base.specs.declared.versions.Master.{Master};
ghost use Rattle.master_keys.specs.Chain.{HasVersion, IsChain, IsKeyOf, LeadsTo, Lists, Opens};

use crate::faults::{ChainFault, Unopened};
use crate::wrapping::MasterKey;
use kdb_base::{AuxKey, Master, Masters, PlainKey};
use princ_record::{KeyItem, Princ};
use std::alloc::Global;

/// Whether a key of this version is there.
fn has_version(keys: &[KeyItem], version: u16) -> bool
    ensures { result ≡ list_any (λ k. nat_eq k.kvno version) keys.now }
{
    keys.iter().any(|item| item.kvno == version)
}

/// The auxiliary key of this version.
fn find_aux(list: &[AuxKey], version: u16) -> Option<&AuxKey>
    ensures some { IfSome result (λ aux. Contains list.now aux.now) }
    ensures version { IfSome result (λ aux. aux.now.version ≡ version) }
    ensures none { result ≡ None → All (λ aux. aux.version ≢ version) list.now }
{
    list.iter().find(|aux| aux.version == version)
}

/// The newest key, by the key of this version: that key itself, or what the auxiliary key of the version
/// holds under it.
fn newest_key(
    alloc: Global,
    entry: &Princ,
    version: u16,
    key: &PlainKey,
) -> Result<PlainKey, Unopened>
    ensures ok { IfOk result (λ newest. LeadsTo entry.now version key.now newest) }
    ensures only { (newest : Key) → LeadsTo entry.now version key.now newest
        → MatchResult result (λ found. found ≡ newest) (λ fault. fault ≡ Unopened.MemoryOut) }
{
    if version == entry.mkvno {
        return Ok(*key);
    }
    let Some(part) = &entry.chain else {
        return Err(Unopened::Wrong);
    };
    match find_aux(part.aux.as_slice(), version) {
        Some(aux) => MasterKey::new(key).unwrap(alloc, aux.etype, aux.wrapped.as_slice()),
        None => Err(Unopened::Wrong),
    }
}

/// The master key of a key of the entry, under the newest.
fn open_master(alloc: Global, newest: &MasterKey, item: &KeyItem) -> Result<Master, Unopened>
    ensures ok { IfOk result (λ master. IsKeyOf newest.now item.now master) }
    ensures only { (master : Master) → IsKeyOf newest.now item.now master
        → MatchResult result (λ found. found ≡ master) (λ fault. fault ≡ Unopened.MemoryOut) }
{
    match newest.unwrap(alloc, item.etype, item.wrapped.as_slice()) {
        Ok(key) => Ok(Master {
            version: item.kvno,
            key,
        }),
        Err(fault) => Err(fault),
    }
}

/// The master keys of the entry's keys, in the entry's order.
fn open_masters(
    alloc: Global,
    newest: &MasterKey,
    keys: &[KeyItem],
) -> Result<Vec<Master>, Unopened>
    ensures ok { IfOk result (λ masters. AllZip (IsKeyOf newest.now) keys.now masters.items) }
    ensures only { (masters : List Master) → AllZip (IsKeyOf newest.now) keys.now masters
        → MatchResult result (λ found. found.items ≡ masters) (λ fault. fault ≡ Unopened.MemoryOut) }
{
    let mut masters = Vec::new(alloc);
    for item in keys {
        let master = open_master(alloc, newest, item)?;
        masters.push(master)?;
    }
    Ok(masters)
}

/// Whether each version is above the one before it.
fn are_rising(masters: &[Master]) -> bool
    ensures { IsTrue result ↔ AreRising (map (λ m. m.version) masters.now) }
{
    masters.is_sorted_by(|a, b| a.version < b.version)
}

/// Whether the master keys have this version with this key.
fn has_master(masters: &[Master], version: u16, key: &PlainKey) -> bool
    ensures yes { IsTrue result → Lists masters.now version key.now }
    ensures no { result ≡ false → All (λ m. m ≢ record { version = version; key = key.now }) masters.now }
{
    masters
        .iter()
        .any(|master| master.version == version && master.key == *key)
}

/// The master keys of the entry, by the key of this version.
fn open_chain(
    alloc: Global,
    entry: &Princ,
    version: u16,
    key: &PlainKey,
) -> Result<Masters, Unopened>
    ensures ok { IfOk result (λ masters. Opens entry.now version key.now masters) }
    ensures only { (masters : List Master) → Opens entry.now version key.now masters
        → MatchResult result (λ found. found ≡ masters) (λ fault. fault ≡ Unopened.MemoryOut) }
{
    let newest = newest_key(alloc, entry, version, key)?;
    let newest = MasterKey::new(&newest);
    let mut masters = open_masters(alloc, &newest, entry.keys.as_slice())?;
    masters.reverse();
    if !are_rising(&masters) {
        return Err(Unopened::Wrong);
    }
    if !has_master(&masters, version, key) {
        return Err(Unopened::Wrong);
    }
    Ok(Masters::from_vec(masters))
}

/// The master keys of K/M's entry, opened by the key of one version: by that key the newest one, and by the
/// newest all others. Whether they are a chain is another question, which `holds_chain` answers.
///
/// # Errors
///
/// `UnknownMaster` exactly where the entry has no key of this version, `StashWrong` where it has one and the
/// key does not open it, and `MemoryOut` where memory is wanted and not given.
pub fn open_with(
    alloc: Global,
    entry: &Princ,
    version: u16,
    key: &PlainKey,
) -> Result<Masters, ChainFault>
    ensures ok { IfOk result (λ masters. Opens entry.now version key.now masters) }
    // The entry has the versions of the masters, the greatest first.
    ensures versions { IfOk result
        (λ masters. map (λ k. k.kvno) entry.now.keys ≡ reverse (map (λ m. m.version) masters)) }
    // What the key opens is opened, unless memory runs out.
    ensures complete { (masters : List Master) → Opens entry.now version key.now masters
        → MatchResult result (λ found. found ≡ masters) (λ fault. fault ≡ ChainFault.MemoryOut) }
    // From each version of a chain its key opens that chain, unless memory runs out.
    ensures chain { (masters : List Master) → IsChain entry.now masters → Lists masters version key.now
        → MatchResult result (λ found. found ≡ masters) (λ fault. fault ≡ ChainFault.MemoryOut) }
    ensures unknown { (asked : ℕ) → result ≡ Err (ChainFault.UnknownMaster asked)
        → ¬ HasVersion entry.now.keys version }
    ensures only_unknown { ¬ HasVersion entry.now.keys version → result ≡ Err (ChainFault.UnknownMaster version) }
    ensures known { result ≡ Err ChainFault.StashWrong → HasVersion entry.now.keys version }
    ensures wrong { result ≡ Err ChainFault.StashWrong → (masters : List Master)
        → ¬ Opens entry.now version key.now masters }
{
    if !has_version(entry.keys.as_slice(), version) {
        return Err(ChainFault::UnknownMaster { version });
    }
    match open_chain(alloc, entry, version, key) {
        Ok(masters) => Ok(masters),
        Err(fault) => Err(ChainFault::from(fault)),
    }
}
