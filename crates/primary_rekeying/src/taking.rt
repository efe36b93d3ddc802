//! A principal that is taken, to be wrapped anew outside.

ghost use Rattle.std.specs.Prelude.{◌≡◌, true, false, IfOk, IfSome, Ok, Some};
ghost use Rattle.kdb_histories.specs.Asks.{at_clock};
ghost use Rattle.kdb_model.specs.Rekeying.{active_at, take_of};
ghost use Rattle.kdb_plain.specs.declared.states.State.{State};
ghost use Rattle.primary_core.specs.Opened.{HasState};
ghost use Rattle.primary_rekeying.specs.Moving.{IsTake, active_by};
ghost use Rattle.primary_rekeying.specs.declared.taking.TakeAnswer.TheVariants.{Closed as IsClosed};
ghost use Rattle.princ_name.specs.Printed.{is_master};
ghost use Rattle.princ_record.specs.Princs.{IsPrinc};
ghost use Rattle.row_keys.specs.Lookups.{record_named};
ghost use Rattle.tagged_data.specs.Numbers.{IsVersion};

use kdb_base::{MemoryOut, Time};
use kdb_plain::master_name;
use key_activation::active_at;
use primary_core::Primary;
use princ_record::Princ;
use rekey_work::{Taken, take};
use row_keys::record_named;
use std::alloc::Global;

/// What a take of one principal comes to. It does not print itself: what it would print are keys.
#[derive(Drop)]
pub enum TakeAnswer {
    /// Its record, with the master keys from which and to which it is to be moved.
    Ready(Taken),
    /// It is under the active version: nothing is to be done.
    Already,
    /// The name is not there any more.
    Gone,
    /// A change failed by the disk.
    Closed,
}

// The active version, by the activations of K/M's record.
fn active_of(entry: &Princ, secs: u32) -> Option<u16>
    ensures version { result ≡ active_by (Some entry.now) secs }
    ensures known { IsPrinc entry.now → IfSome result IsVersion }
{
    match &entry.chain {
        Some(part) => active_at(&part.activations, secs),
        None => None,
    }
}

// The version of the master key that is active at the clock's moment.
pub(crate) fn active_version(
    alloc: Global,
    primary: &Primary,
    now: Time,
) -> Result<Option<u16>, MemoryOut>
    ensures version { (s : State) → HasState primary.now s
        → IfOk result (λ version. version ≡ active_at s (at_clock now false)) }
    ensures known { IfOk result (λ version. IfSome version IsVersion) }
{
    let database = primary.database();
    let name = master_name(alloc, database.realm().as_slice())?;
    let _ = database.rows().princs();
    let secs = database.point().time.later(now).secs();
    match record_named(database.rows(), name.as_slice()) {
        Some(entry) => Ok(active_of(entry, secs)),
        None => Ok(None),
    }
}

// Takes the principal of this name, where the primary is open.
pub(crate) fn take_open(
    alloc: Global,
    primary: &Primary,
    name: &[u8],
    now: Time,
) -> Result<TakeAnswer, MemoryOut>
    requires { is_master name.now ≡ false }
    ensures { (s : State) → HasState primary.now s → IfOk result (λ answer.
        IsTake answer (take_of s (at_clock now false) (record_named name.now primary.now.kept.rows.princs))) }
{
    primary.holds_opened();
    let rows = primary.database().rows();
    let _ = rows.princs();
    let Some(princ) = record_named(rows, name) else {
        return Ok(TakeAnswer::Gone);
    };
    let Some(active) = active_version(alloc, primary, now)? else {
        return Ok(TakeAnswer::Already);
    };
    match take(alloc, princ, primary.masters(), active)? {
        Some(taken) => Ok(TakeAnswer::Ready(taken)),
        None => Ok(TakeAnswer::Already),
    }
}

/// Takes the principal of this printed name, to be rekeyed outside: its record, the version that is active at the
/// clock's moment, and the master keys of both. Nothing is changed. The name is not K/M's.
///
/// # Errors
///
/// `MemoryOut` where memory is wanted and not given.
pub fn rekey_take(
    alloc: Global,
    primary: &Primary,
    name: &[u8],
    now: Time,
) -> Result<TakeAnswer, MemoryOut>
    requires { is_master name.now ≡ false }
    ensures take { (s : State) → primary.now.kept.broken ≡ false → HasState primary.now s → IfOk result (λ answer.
        IsTake answer (take_of s (at_clock now false) (record_named name.now primary.now.kept.rows.princs))) }
    ensures closed { primary.now.kept.broken ≡ true → result ≡ Ok IsClosed }
{
    if primary.is_closed() {
        return Ok(TakeAnswer::Closed);
    }
    take_open(alloc, primary, name, now)
}
