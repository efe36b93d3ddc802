//! K/M's record: who may change it, where it is found, and the change that puts it.

ghost use Rattle.std.specs.Prelude.{◌≡◌, IfOk, Some};
ghost use Rattle.kdb_model.specs.Access.{master_parts};
ghost use Rattle.mkey_admin.specs.Plans.{IsEntry, IsMasterPut, master_denied};
ghost use Rattle.princ_name.specs.Realms.{IsRealm};
ghost use Rattle.princ_record.specs.Princs.{IsPrinc};

use crate::planned::{MasterChange, MasterPlan, Told};
use command_plans::causes::{denial, found};
use command_plans::given::Given;
use kdb_base::limits::MAX_ROW_LEN;
use kdb_base::{Masters, MemoryOut, Refusal};
use kdb_plain::master_name;
use princ_name::laws::{printed_form_spells_the_name, word_spells_one_name};
use princ_name::{Name, parse_name};
use princ_record::{ChainPart, Princ, encoded_len};
use princ_rows::Op;
use std::alloc::Global;

/// The name of K/M.
fn master_parts(alloc: Global, realm: &[u8]) -> Result<Name, MemoryOut>
    requires { IsRealm realm.now }
    ensures { IfOk result (λ name. name ≡ master_parts realm.now) }
{
    printed_form_spells_the_name();
    word_spells_one_name();
    let text = master_name(alloc, realm)?;
    match parse_name(alloc, text.as_slice(), realm) {
        Ok(name) => Ok(name),
        Err(_) => Err(MemoryOut),
    }
}

/// The refusal of a change of K/M, or of a look at it, where the access list does not allow that.
pub(crate) fn master_denial(alloc: Global, given: &Given) -> Result<Option<Refusal>, MemoryOut>
    requires { IsRealm given.now.realm.now }
    ensures { IfOk result (λ denied. denied ≡ master_denied given.now) }
{
    let name = master_parts(alloc, given.realm)?;
    Ok(denial(given, b's', Some(&name)))
}

/// K/M's record. Rows that show a state have it.
pub(crate) fn master_entry<'a>(alloc: Global, given: &Given<'a>) -> Result<&'a Princ, MemoryOut>
    ensures { IfOk result (λ p. IsEntry given.now p.now) }
{
    let name = master_name(alloc, given.realm)?;
    match found(given, name.as_slice()) {
        Some(entry) => Ok(entry),
        None => Err(MemoryOut),
    }
}

/// What stands at K/M alone.
pub(crate) fn chain_part(entry: &Princ) -> Result<&ChainPart, MemoryOut>
    ensures { IfOk result (λ part. entry.now.chain ≡ Some part.now) }
{
    match &entry.chain {
        Some(part) => Ok(part),
        None => Err(MemoryOut),
    }
}

/// The change that puts K/M's record, if it is short enough.
pub(crate) fn put(entry: Princ, masters: Masters, told: Told) -> Result<MasterPlan, Refusal>
    requires { IsPrinc entry }
    ensures { IsMasterPut entry masters told result }
{
    let size = encoded_len(&entry);
    if size > MAX_ROW_LEN {
        return Err(Refusal::RecordTooLarge { size: size as u64 });
    }
    let op = Op::PutPrinc(entry);
    Ok(MasterPlan::Change(MasterChange { op, masters, told }))
}
