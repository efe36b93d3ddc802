//! Whether master keys are the chain of an entry.

ghost use Rattle.std.specs.Prelude.{◌≡◌, ◌≢◌, ◌++◌, ◌∷◌, [], List, None, Ok, map};
ghost use Rattle.std.specs.Prelude.{reverse, true, false, IfErr, IfSome, OnOk};
ghost use Rattle.std.specs.List.{AllZip};
ghost use Rattle.kdb_base.specs.Key.{Key};
ghost use Rattle.kdb_base.specs.Versions.{AreRising};
ghost use Rattle.kdb_base.specs.declared.versions.Master.{Master};
ghost use Rattle.master_keys.specs.Chain.{IsAuxOf, IsChain, IsKeyOf};

use crate::faults::Unopened;
use crate::wrapping::MasterKey;
use kdb_base::{AuxKey, Master, Masters, MemoryOut, PlainKey};
use princ_record::{KeyItem, Princ};
use std::alloc::Global;

/// The last master key, which is of this version, and those before it.
fn split_newest(masters: &[Master], version: u16) -> Option<(&Master, &[Master])>
    ensures some { IfSome result (λ parts. masters.now ≡ parts.1.now ++ parts.0.now ∷ []) }
    ensures version { IfSome result (λ parts. parts.0.now.version ≡ version) }
    ensures none { result ≡ None → (older : List Master) (key : Key)
        → masters.now ≢ older ++ record { version = version; key = key } ∷ [] }
{
    let (newest, older) = masters.split_last()?;
    if newest.version != version {
        return None;
    }
    Some((newest, older))
}

/// Judges whether the key of the entry is this master key, wrapped under the newest.
fn check_key(
    alloc: Global,
    newest: &MasterKey,
    item: &KeyItem,
    master: &Master,
) -> Result<(), Unopened>
    ensures ok { OnOk result (IsKeyOf newest.now item.now master.now) }
    ensures only { IsKeyOf newest.now item.now master.now → IfErr result (λ fault. fault ≡ Unopened.MemoryOut) }
{
    if item.kvno != master.version {
        return Err(Unopened::Wrong);
    }
    let opened = newest.unwrap(alloc, item.etype, item.wrapped.as_slice())?;
    if opened != master.key {
        return Err(Unopened::Wrong);
    }
    Ok(())
}

/// Judges whether the keys of the entry are these master keys, the last first, wrapped under the newest.
fn check_keys(
    alloc: Global,
    newest: &MasterKey,
    keys: &[KeyItem],
    masters: &[Master],
) -> Result<(), Unopened>
    ensures ok { OnOk result (AllZip (IsKeyOf newest.now) keys.now (reverse masters.now)) }
    ensures only { AllZip (IsKeyOf newest.now) keys.now (reverse masters.now)
        → IfErr result (λ fault. fault ≡ Unopened.MemoryOut) }
{
    let mut left = masters;
    for item in keys {
        let Some((master, before)) = left.split_last() else {
            return Err(Unopened::Wrong);
        };
        check_key(alloc, newest, item, master)?;
        left = before;
    }
    if left.is_empty() {
        Ok(())
    } else {
        Err(Unopened::Wrong)
    }
}

/// Judges whether the auxiliary key holds the newest key under this older one.
fn check_aux(alloc: Global, newest: &PlainKey, aux: &AuxKey, older: &Master) -> Result<(), Unopened>
    ensures ok { OnOk result (IsAuxOf newest.now aux.now older.now) }
    ensures only { IsAuxOf newest.now aux.now older.now → IfErr result (λ fault. fault ≡ Unopened.MemoryOut) }
{
    if aux.version != older.version {
        return Err(Unopened::Wrong);
    }
    let opened = MasterKey::new(&older.key).unwrap(alloc, aux.etype, aux.wrapped.as_slice())?;
    if opened != *newest {
        return Err(Unopened::Wrong);
    }
    Ok(())
}

/// Judges whether the auxiliary keys hold the newest key under each of the older ones.
fn check_aux_list(
    alloc: Global,
    newest: &PlainKey,
    list: &[AuxKey],
    older: &[Master],
) -> Result<(), Unopened>
    ensures ok { OnOk result (AllZip (IsAuxOf newest.now) list.now older.now) }
    ensures only { AllZip (IsAuxOf newest.now) list.now older.now → IfErr result (λ fault. fault ≡ Unopened.MemoryOut) }
{
    let mut left = older;
    for aux in list {
        let Some((master, later)) = left.split_first() else {
            return Err(Unopened::Wrong);
        };
        check_aux(alloc, newest, aux, master)?;
        left = later;
    }
    if left.is_empty() {
        Ok(())
    } else {
        Err(Unopened::Wrong)
    }
}

/// Judges whether these are the master keys of the entry.
fn check_chain(alloc: Global, entry: &Princ, masters: &[Master]) -> Result<(), Unopened>
    requires { AreRising (map (λ m. m.version) masters.now) }
    ensures ok { OnOk result (IsChain entry.now masters.now) }
    ensures only { IsChain entry.now masters.now → IfErr result (λ fault. fault ≡ Unopened.MemoryOut) }
{
    let Some((newest, older)) = split_newest(masters, entry.mkvno) else {
        return Err(Unopened::Wrong);
    };
    let Some(part) = &entry.chain else {
        return Err(Unopened::Wrong);
    };
    check_keys(
        alloc,
        &MasterKey::new(&newest.key),
        entry.keys.as_slice(),
        masters,
    )?;
    check_aux_list(alloc, &newest.key, part.aux.as_slice(), older)
}

/// Whether these are the master keys of K/M's entry: its keys are theirs by falling versions, wrapped under
/// the newest, which is the one that the record names, and its auxiliary keys are the newest, wrapped under
/// each older one, and nothing else.
///
/// # Errors
///
/// `MemoryOut` where memory is wanted and not given.
pub fn holds_chain(alloc: Global, entry: &Princ, masters: &Masters) -> Result<bool, MemoryOut>
    ensures yes { result ≡ Ok true → IsChain entry.now masters.now }
    ensures no { result ≡ Ok false → ¬ IsChain entry.now masters.now }
{
    match check_chain(alloc, entry, masters.as_slice()) {
        Ok(()) => Ok(true),
        Err(Unopened::Wrong) => Ok(false),
        Err(Unopened::MemoryOut) => Err(MemoryOut),
    }
}
