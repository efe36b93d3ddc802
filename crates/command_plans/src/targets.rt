//! The record that a command changes, and a record that is put.

ghost use Rattle.std.specs.Prelude.{◌≡◌, Err, IfOk, Some};
ghost use Rattle.command_plans.specs.Targets.{IsBy, IsPut, IsTarget, by_given, target_refusal};
ghost use Rattle.kdb_base.specs.declared.outcomes.Refusal.{Refusal};
ghost use Rattle.kdb_model.specs.Fields.{marked};
ghost use Rattle.princ_rows.specs.declared.entries.Op.TheVariants as op;
ghost use Rattle.princ_name.specs.Names.{printed};
ghost use Rattle.princ_record.specs.Princs.{IsPrinc};
ghost use Rattle.princ_rows.specs.Rows.{AreRows};

use crate::causes::{denial, first, found, present, protection};
use crate::given::Given;
use crate::planned::Planned;
use kdb_base::limits::MAX_ROW_LEN;
use kdb_base::{MemoryOut, Refusal};
use princ_name::{Name, print_name};
use princ_record::{Princ, encoded_len};
use princ_rows::Op;
use std::alloc::Global;

/// The record of a principal other than K/M and kadmin/history, to which the client may do what the letter says.
pub fn target<'a>(
    given: &Given<'a>,
    letter: u8,
    name: &Name,
    text: &[u8],
) -> Result<&'a Princ, Refusal>
    requires { text.now ≡ printed name.now }
    ensures ok { IfOk result (λ p. IsTarget given.now letter name.now p.now) }
    ensures err { (why : Refusal) → result ≡ Err why → target_refusal given.now letter name.now ≡ Some why }
    ensures rows { AreRows given.now.rows.now }
{
    let before = [denial(given, letter, Some(name)), protection(given, text)];
    present(
        first(&before),
        found(given, text),
        Refusal::UnknownPrincipal,
    )
}

/// The record with the command's client as who changed it.
pub fn marked_by(alloc: Global, given: &Given, mut head: Princ) -> Result<Princ, MemoryOut>
    ensures head { IfOk result (λ h. h ≡ marked (by_given given.now) head) }
    ensures by { IfOk result (λ h. IsBy (by_given given.now)) }
{
    let _ = given.client.realm();
    let client = print_name(alloc, given.client)?;
    head.modified = given.moment.secs();
    head.modifier = client;
    Ok(head)
}

/// The change that puts this record, if it is short enough.
pub fn put(princ: Princ) -> Result<Planned, Refusal>
    requires { IsPrinc princ }
    ensures { IsPut op.PutPrinc princ result }
{
    let size = encoded_len(&princ);
    if size > MAX_ROW_LEN {
        return Err(Refusal::RecordTooLarge { size: size as u64 });
    }
    Ok(Planned::Change(Op::PutPrinc(princ)))
}
