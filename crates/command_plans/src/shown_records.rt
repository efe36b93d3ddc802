//! What is shown of records.

ghost use Rattle.std.specs.Prelude.{◌≡◌, IfOk, map};
ghost use Rattle.command_plans.specs.ShownRecords.{key_shown, record_shown};
ghost use Rattle.kdb_model.specs.Steps.{is_special};

use kadm_commands::{KeyShown, KeysShown, PrincShown};
use kdb_base::{Blob, MemoryOut, Salt};
use princ_keys::KeyItem;
use princ_record::Princ;
use std::alloc::Global;

fn is_special(salt: &Salt) -> bool
    ensures { result ≡ is_special salt.now }
{
    match salt {
        Salt::Normal => false,
        Salt::Special(_) => true,
    }
}

fn key_shown(item: &KeyItem) -> KeyShown
    ensures { result ≡ key_shown item.now }
{
    KeyShown {
        kvno: item.kvno,
        etype: item.etype,
        special: is_special(&item.salt),
    }
}

fn keys_shown(alloc: Global, items: &[KeyItem]) -> Result<KeysShown, MemoryOut>
    ensures { IfOk result (λ keys. keys ≡ map key_shown items.now) }
{
    let mut keys = Vec::with_capacity(alloc, items.len())?;
    for item in items {
        keys.push(key_shown(item))?;
    }
    Ok(KeysShown::from_vec(keys))
}

pub fn copy_name(alloc: Global, name: &Option<Blob>) -> Result<Option<Blob>, MemoryOut>
    ensures { IfOk result (λ x. x ≡ name.now) }
{
    match name {
        Some(name) => {
            let name = Blob::from_bytes(alloc, name.as_slice())?;
            Ok(Some(name))
        }
        None => Ok(None),
    }
}

/// What `getprinc` shows of a record.
#[tactic(auto, unfolding(crate::specs::ShownRecords::record_shown))]
pub fn record_shown(alloc: Global, princ: &Princ) -> Result<PrincShown, MemoryOut>
    ensures { IfOk result (λ shown. shown ≡ record_shown princ.now) }
{
    let name = Blob::from_bytes(alloc, princ.name.as_slice())?;
    let modifier = Blob::from_bytes(alloc, princ.modifier.as_slice())?;
    let policy = copy_name(alloc, &princ.policy)?;
    let keys = keys_shown(alloc, princ.keys.as_slice())?;
    Ok(PrincShown {
        name,
        expire: princ.expire,
        pw_expire: princ.pw_expire,
        pw_changed: princ.pw_changed,
        max_life: princ.max_life,
        max_renew: princ.max_renew,
        modified: princ.modified,
        modifier,
        mkvno: princ.mkvno,
        attributes: princ.attributes,
        policy,
        keys,
    })
}
