//! The records of a creation.

ghost use Rattle.std.specs.Prelude.{◌≡◌, ◌++◌, ◌∷◌, ◌≤◌, [], length, IfOk};
ghost use Rattle.kdb_plain.specs.States.{history_name};
ghost use Rattle.master_keys.specs.First.{admin_name, first_record};
ghost use Rattle.princ_record.specs.RowLimits.{IsRow};
ghost use Rattle.first_rows.specs.Creation.{first_kept, first_wrapped, history_types};
ghost use Rattle.first_rows.specs.Creation.{master_confounder, ticket_name, ticket_types};

use crate::create_spec::CreateSpec;
use crate::first_keys::{first_items, master_confounder};
use kdb_base::{Blob, Etype, Masters, MemoryOut, PlainKey};
use kdb_plain::history_name;
use master_keys::{MasterKey, new_chain};
use princ_keys::{KeyItem, Keys, OldSets};
use princ_record::Princ;
use std::alloc::Global;
use tagged_data::StringAttributes;

/// The printed name of the administrator of the machine.
#[tactic(auto, unfolding(master_keys::specs::First::admin_name))]
fn admin_name(alloc: Global, realm: &[u8]) -> Result<Blob, MemoryOut>
    ensures { IfOk result (λ name. name ≡ admin_name realm.now) }
{
    let mut name = Vec::new(alloc);
    name.extend_from_slice(b"admin/local@")?;
    name.extend_from_slice(realm)?;
    Ok(Blob::from_vec(name))
}

/// The printed name of the principal whose keys protect tickets.
#[tactic(auto, unfolding(crate::specs::Creation::ticket_name))]
fn ticket_name(alloc: Global, realm: &[u8]) -> Result<Blob, MemoryOut>
    ensures { IfOk result (λ name. name ≡ ticket_name realm.now) }
{
    let mut name = Vec::new(alloc);
    name.extend_from_slice(b"krbtgt/")?;
    name.extend_from_slice(realm)?;
    name.extend_from_slice(b"@")?;
    name.extend_from_slice(realm)?;
    Ok(Blob::from_vec(name))
}

/// The record of a principal other than K/M with these keys.
#[tactic(auto, unfolding(crate::specs::Creation::first_head))]
fn first_kept(
    alloc: Global,
    realm: &[u8],
    name: Blob,
    secs: u32,
    items: Vec<KeyItem>,
) -> Result<Princ, MemoryOut>
    ensures { IfOk result (λ p. p ≡ first_kept realm.now name secs items.items) }
{
    let modifier = admin_name(alloc, realm)?;
    Ok(Princ {
        name,
        attributes: 0,
        max_life: 0,
        max_renew: 0,
        expire: 0,
        pw_expire: 0,
        pw_changed: Some(secs),
        modified: secs,
        modifier,
        mkvno: 1,
        keys: Keys::from_vec(items),
        policy: None,
        old: OldSets::from_vec(Vec::new(alloc)),
        chain: None,
        strings: StringAttributes::new(alloc),
    })
}

/// The record of K/M, and the master keys.
pub(crate) fn master_record(
    alloc: Global,
    spec: &CreateSpec,
    key: &PlainKey,
    secs: u32,
    random: &[u8],
) -> Result<(Princ, Masters), MemoryOut>
    requires { 48 ≤ length random.now }
    ensures entry { IfOk result
        (λ both. both.0 ≡ first_record spec.now.realm key.now secs (master_confounder spec.now random.now)) }
    ensures row { IfOk result (λ both. IsRow both.0) }
    ensures masters { IfOk result (λ both. both.1 ≡ record { version = 1; key = key.now } ∷ []) }
{
    let confounder = master_confounder(spec, random);
    let (entry, masters) = new_chain(alloc, spec.realm(), key, secs, confounder)?;
    Ok((entry, masters))
}

/// The record of kadmin/history, whose key stands at the front of the block.
pub(crate) fn history_record(
    alloc: Global,
    spec: &CreateSpec,
    master: &MasterKey,
    secs: u32,
    random: &[u8],
) -> Result<Princ, MemoryOut>
    requires { 48 ≤ length random.now }
    ensures entry { IfOk result
        (λ p. p ≡ first_wrapped master.now spec.now.realm (history_name spec.now.realm) secs history_types random.now) }
    ensures row { IfOk result (λ p. IsRow p) }
{
    let items = first_items(alloc, master, &[Etype::Aes256], random)?;
    let name = history_name(alloc, spec.realm())?;
    let entry = first_kept(alloc, spec.realm(), name, secs, items)?;
    Ok(entry)
}

/// The record of krbtgt, whose keys stand at the front of the block.
pub(crate) fn ticket_record(
    alloc: Global,
    spec: &CreateSpec,
    master: &MasterKey,
    secs: u32,
    random: &[u8],
) -> Result<Princ, MemoryOut>
    requires { 80 ≤ length random.now }
    ensures entry { IfOk result
        (λ p. p ≡ first_wrapped master.now spec.now.realm (ticket_name spec.now.realm) secs ticket_types random.now) }
    ensures row { IfOk result (λ p. IsRow p) }
{
    let items = first_items(alloc, master, &[Etype::Aes256, Etype::Aes128], random)?;
    let name = ticket_name(alloc, spec.realm())?;
    let entry = first_kept(alloc, spec.realm(), name, secs, items)?;
    Ok(entry)
}
