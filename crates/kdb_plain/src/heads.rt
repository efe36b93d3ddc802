//! The fields of a plain principal without its keys, as a record.

ghost use Rattle.std.specs.Prelude.{◌≡◌, IfOk};
ghost use Rattle.kdb_plain.specs.Heads.{plain_head, plain_of};

use crate::copies::copy_name;
use crate::princs::PlainPrinc;
use kdb_base::MemoryOut;
use plain_keys::{PlainItems, PlainSets};
use princ_record::{Keys, OldSets, Princ};
use std::alloc::Global;
use tagged_data::Copied;

/// The fields of a principal as a record without keys, remembered keys and a chain.
///
/// # Errors
///
/// `MemoryOut` where memory is wanted and not given.
pub fn plain_head(alloc: Global, princ: &PlainPrinc) -> Result<Princ, MemoryOut>
    ensures { IfOk result (λ head. head ≡ plain_head princ.now) }
{
    let name = princ.name.copied(alloc)?;
    let modifier = princ.modifier.copied(alloc)?;
    let policy = copy_name(alloc, &princ.policy)?;
    let strings = princ.strings.copied(alloc)?;
    Ok(Princ {
        name,
        attributes: princ.attributes,
        max_life: princ.max_life,
        max_renew: princ.max_renew,
        expire: princ.expire,
        pw_expire: princ.pw_expire,
        pw_changed: princ.pw_changed,
        modified: princ.modified,
        modifier,
        mkvno: princ.mkvno,
        keys: Keys::from_vec(Vec::new(alloc)),
        policy,
        old: OldSets::from_vec(Vec::new(alloc)),
        chain: None,
        strings,
    })
}

/// The principal of these fields, keys and remembered keys, without a copy. The record's own keys go.
pub fn plain_of(head: Princ, keys: PlainItems, old: PlainSets) -> PlainPrinc
    ensures { result ≡ plain_of head keys old }
{
    PlainPrinc {
        name: head.name,
        attributes: head.attributes,
        max_life: head.max_life,
        max_renew: head.max_renew,
        expire: head.expire,
        pw_expire: head.pw_expire,
        pw_changed: head.pw_changed,
        modified: head.modified,
        modifier: head.modifier,
        mkvno: head.mkvno,
        keys,
        policy: head.policy,
        old,
        strings: head.strings,
    }
}
