//! Copies of records. Only want of memory can refuse one.

ghost use Rattle.std.specs.Prelude.{◌≡◌, IfOk};

use crate::facts::ChainPart;
use crate::princs::Princ;
use kdb_base::{Blob, MemoryOut};
use std::alloc::Global;
use tagged_data::Copied;

fn copy_name(alloc: Global, name: &Option<Blob>) -> Result<Option<Blob>, MemoryOut>
    ensures { IfOk result (λ x. x ≡ name.now) }
{
    match name {
        Some(name) => {
            let name = name.copied(alloc)?;
            Ok(Some(name))
        }
        None => Ok(None),
    }
}

fn copy_part(alloc: Global, part: &ChainPart) -> Result<ChainPart, MemoryOut>
    ensures { IfOk result (λ x. x ≡ part.now) }
{
    let activations = part.activations.copied(alloc)?;
    let aux = part.aux.copied(alloc)?;
    Ok(ChainPart { activations, aux })
}

fn copy_chain(alloc: Global, chain: &Option<ChainPart>) -> Result<Option<ChainPart>, MemoryOut>
    ensures { IfOk result (λ x. x ≡ chain.now) }
{
    match chain {
        Some(part) => {
            let part = copy_part(alloc, part)?;
            Ok(Some(part))
        }
        None => Ok(None),
    }
}

/// The same principal.
pub fn copy(alloc: Global, value: &Princ) -> Result<Princ, MemoryOut>
    ensures { IfOk result (λ p. p ≡ value.now) }
{
    let name = value.name.copied(alloc)?;
    let modifier = value.modifier.copied(alloc)?;
    let keys = value.keys.copied(alloc)?;
    let policy = copy_name(alloc, &value.policy)?;
    let old = value.old.copied(alloc)?;
    let chain = copy_chain(alloc, &value.chain)?;
    let strings = value.strings.copied(alloc)?;
    Ok(Princ {
        name,
        attributes: value.attributes,
        max_life: value.max_life,
        max_renew: value.max_renew,
        expire: value.expire,
        pw_expire: value.pw_expire,
        pw_changed: value.pw_changed,
        modified: value.modified,
        modifier,
        mkvno: value.mkvno,
        keys,
        policy,
        old,
        chain,
        strings,
    })
}
