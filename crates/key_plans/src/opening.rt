//! What is opened before keys are judged and made. Where a key does not open, or none is there, want of memory is
//! answered: rows that show a state have all of them.

ghost use Rattle.std.specs.Prelude.{◌≡◌, IfOk, List, Some};
ghost use Rattle.std.specs.List.{AllZip};
ghost use Rattle.kdb_base.specs.Key.{Key};
ghost use Rattle.kdb_plain.specs.States.{first_key, master_of};
ghost use Rattle.key_plans.specs.Opening.{IsActiveMaster, IsHistoryKey, IsOpened, active_by};
ghost use Rattle.master_keys.specs.First.{master_name};
ghost use Rattle.plain_keys.specs.declared.items.PlainItem.{PlainItem};
ghost use Rattle.row_keys.specs.Lookups.{record_named};
ghost use Rattle.row_keys.specs.Shows.{ShowsItem};

use command_plans::causes::found;
use command_plans::given::Given;
use kdb_base::{Master, MemoryOut, PlainKey};
use kdb_plain::{PlainPrinc, first_key, history_name, master_name, master_of};
use key_activation::active_at;
use master_keys::MasterKey;
use plain_keys::PlainItem;
use princ_record::Princ;
use row_keys::{open_items, open_princ};
use std::alloc::Global;

fn first_of(keys: &[PlainItem]) -> Result<PlainKey, MemoryOut>
    ensures { (key : Key) → first_key keys.now ≡ Some key → IfOk result (λ k. k ≡ key) }
{
    match first_key(keys) {
        Some(key) => Ok(key),
        None => Err(MemoryOut),
    }
}

/// The first key of the record.
fn first_opened(alloc: Global, given: &Given, princ: &Princ) -> Result<PlainKey, MemoryOut>
    ensures { (master : Key) (plain : List PlainItem) (key : Key)
        → master_of given.now.masters.now princ.now.mkvno ≡ Some master → AllZip (ShowsItem master) princ.now.keys plain
        → first_key plain ≡ Some key → IfOk result (λ k. k ≡ key) }
{
    match master_of(given.masters, princ.mkvno) {
        Some(master) => {
            match open_items(alloc, &MasterKey::new(&master), princ.keys.as_slice()) {
                Ok(keys) => first_of(keys.as_slice()),
                Err(_) => Err(MemoryOut),
            }
        }
        None => Err(MemoryOut),
    }
}

/// The key that protects remembered keys: the first of kadmin/history.
pub(crate) fn history_key(alloc: Global, given: &Given) -> Result<PlainKey, MemoryOut>
    ensures { IfOk result (λ key. IsHistoryKey given.now key) }
{
    let name = history_name(alloc, given.realm)?;
    match found(given, name.as_slice()) {
        Some(princ) => first_opened(alloc, given, princ),
        None => Err(MemoryOut),
    }
}

/// The principal of the record, its keys and its remembered keys in the plain.
pub(crate) fn opened(
    alloc: Global,
    given: &Given,
    history: &PlainKey,
    princ: &Princ,
) -> Result<PlainPrinc, MemoryOut>
    ensures { IfOk result (λ q. IsOpened given.now.masters.now history.now princ.now q) }
{
    match master_of(given.masters, princ.mkvno) {
        Some(master) => {
            match open_princ(
                alloc,
                &MasterKey::new(&master),
                &MasterKey::new(history),
                princ,
            ) {
                Ok(plain) => Ok(plain),
                Err(_) => Err(MemoryOut),
            }
        }
        None => Err(MemoryOut),
    }
}

/// The version that is active by the record of K/M.
fn active_of(entry: &Princ, secs: u32) -> Option<u16>
    ensures { result ≡ active_by (Some entry.now) secs }
{
    match &entry.chain {
        Some(part) => active_at(&part.activations, secs),
        None => None,
    }
}

/// The version of the master key that is active at the moment.
fn active_version(alloc: Global, given: &Given) -> Result<Option<u16>, MemoryOut>
    ensures { IfOk result (λ v. v
        ≡ active_by (record_named (master_name given.now.realm.now) given.now.rows.now.princs) given.now.moment.secs) }
{
    let name = master_name(alloc, given.realm)?;
    match found(given, name.as_slice()) {
        Some(entry) => Ok(active_of(entry, given.moment.secs())),
        None => Ok(None),
    }
}

/// The master key of this version.
fn listed(given: &Given, version: u16) -> Result<Master, MemoryOut>
    ensures version { IfOk result (λ m. m.version ≡ version) }
    ensures key { IfOk result (λ m. master_of given.now.masters.now version ≡ Some m.key) }
{
    match master_of(given.masters, version) {
        Some(key) => Ok(Master { version, key }),
        None => Err(MemoryOut),
    }
}

/// The master key that is active at the moment, under which new keys are kept.
pub(crate) fn active_master(alloc: Global, given: &Given) -> Result<Master, MemoryOut>
    ensures { IfOk result (λ m. IsActiveMaster given.now m) }
{
    match active_version(alloc, given)? {
        Some(version) => listed(given, version),
        None => Err(MemoryOut),
    }
}
