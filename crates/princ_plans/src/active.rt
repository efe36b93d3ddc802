//! The version of the master key under which new keys are kept.

ghost use Rattle.std.specs.Prelude.{◌≡◌, IfOk, IfSome};
ghost use Rattle.princ_plans.specs.Active.{IsActiveMaster, active_given, active_of};
ghost use Rattle.princ_record.specs.Princs.{IsPrinc};
ghost use Rattle.tagged_data.specs.Numbers.{IsVersion};

use command_plans::causes::found;
use command_plans::given::Given;
use kdb_base::{MemoryOut, PlainKey};
use kdb_plain::{master_name, master_of};
use key_activation::active_at;
use princ_record::Princ;
use std::alloc::Global;

/// The active version of the master key, with that key.
#[derive(Drop)]
pub(crate) struct ActiveMaster {
    pub(crate) version: u16,
    pub(crate) key: PlainKey,
}

/// The active version, by the activations of K/M's record.
fn active_of(given: &Given, entry: &Princ) -> Option<u16>
    ensures version { result ≡ active_of given.now entry.now }
    ensures known { IsPrinc entry.now → IfSome result IsVersion }
{
    match &entry.chain {
        Some(part) => active_at(&part.activations, given.moment.secs()),
        None => None,
    }
}

/// The active version, where rows tell it.
fn active_version(alloc: Global, given: &Given) -> Result<Option<u16>, MemoryOut>
    ensures version { IfOk result (λ version. version ≡ active_given given.now) }
    ensures known { IfOk result (λ version. IfSome version IsVersion) }
{
    let name = master_name(alloc, given.realm)?;
    match found(given, name.as_slice()) {
        Some(entry) => Ok(active_of(given, entry)),
        None => Ok(None),
    }
}

/// The master key under which new keys are kept. Where rows tell none that is listed, want of memory is answered: rows
/// that show a state tell one.
pub(crate) fn active_master(alloc: Global, given: &Given) -> Result<ActiveMaster, MemoryOut>
    ensures { IfOk result (λ master. IsActiveMaster given.now master.version master.key) }
{
    match active_version(alloc, given)? {
        Some(version) => match master_of(given.masters, version) {
            Some(key) => Ok(ActiveMaster { version, key }),
            None => Err(MemoryOut),
        },
        None => Err(MemoryOut),
    }
}
