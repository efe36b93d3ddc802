//! Settling what was made of a record.

ghost use Rattle.std.specs.Prelude.{◌≡◌, IfOk, IfSome, Some, option_map};
ghost use Rattle.kdb_model.specs.Rekeying.{has_keys, is_key, is_record, is_version, unless_same};
ghost use Rattle.kdb_plain.specs.States.{master_of};
ghost use Rattle.princ_record.specs.Princs.{IsPrinc, princ};
ghost use Rattle.rekey_work.specs.Works.{changes, settled_of, settled_with};

use crate::works::{Rewrapped, Settled, Taken};
use kdb_base::{Masters, MemoryOut, PlainKey};
use kdb_plain::master_of;
use princ_record::{Princ, copy, encode};
use std::alloc::Global;

/// Whether two records are one: they have one spelling.
fn is_record(alloc: Global, one: &Princ, other: &Princ) -> Result<bool, MemoryOut>
    requires one { IsPrinc one.now }
    requires other { IsPrinc other.now }
    ensures { IfOk result (λ same. same ≡ is_record one.now other.now) }
{
    let one = encode(alloc, one)?;
    let other = encode(alloc, other)?;
    Ok(one.as_slice() == other.as_slice())
}

/// Whether this is the master key of the version.
fn is_master(masters: &Masters, version: u16, key: &PlainKey) -> bool
    ensures { result ≡ is_key (master_of masters.now version) key.now }
{
    match master_of(masters, version) {
        Some(found) => found == *key,
        None => false,
    }
}

/// Whether both versions still have the keys that were taken.
#[tactic(auto, unfolding(kdb_model::specs::Rekeying::has_keys))]
fn has_keys(masters: &Masters, taken: &Taken) -> bool
    ensures { result ≡ has_keys masters.now taken.now }
{
    is_master(masters, taken.princ().mkvno, taken.old())
        && is_master(masters, taken.version(), taken.fresh())
}

/// The record that was found in place of the one that was taken.
fn other_record(alloc: Global, same: bool, stored: &Princ) -> Result<Option<Princ>, MemoryOut>
    ensures { IfOk result (λ found. found ≡ unless_same same (Some stored.now)) }
{
    if same {
        return Ok(None);
    }
    let stored = copy(alloc, stored)?;
    Ok(Some(stored))
}

/// The active version in place of the one that was taken.
fn other_version(same: bool, active: u16) -> Option<u16>
    ensures { result ≡ unless_same same (Some active) }
{
    if same { None } else { Some(active) }
}

/// What changed meanwhile: the record that stands, and the active version, each where it is another than was taken.
#[tactic(auto, unfolding(kdb_model::specs::Rekeying::may_settle))]
fn changes(
    alloc: Global,
    stored: &Princ,
    masters: &Masters,
    active: u16,
    taken: &Taken,
) -> Result<Option<Settled>, MemoryOut>
    requires { IsPrinc stored.now }
    ensures { IfOk result (λ found. found ≡ changes masters.now active stored.now taken.now) }
{
    taken.holds();
    let same = is_record(alloc, stored, taken.princ())?;
    let stays = active == taken.version();
    if same && stays && has_keys(masters, taken) {
        return Ok(None);
    }
    let found = other_record(alloc, same, stored)?;
    Ok(Some(Settled::Changed(found, other_version(stays, active))))
}

/// What becomes of work for a record that stands.
fn settled(changed: Option<Settled>, made: Rewrapped) -> Settled
    ensures { result ≡ settled_of changed made }
{
    match changed {
        Some(changed) => changed,
        None => Settled::Updated(made.into_made()),
    }
}

/// What becomes of a record that was taken and wrapped anew, where `now` is the record that stands by its name, these
/// are the master keys, and `active` is the active version. It is to be stored only where nothing changed meanwhile.
///
/// # Errors
///
/// `MemoryOut` where memory is wanted and not given.
#[tactic(auto, unfolding(crate::specs::Works::settled_with, kdb_model::specs::Rekeying::may_settle))]
pub fn settle(
    alloc: Global,
    now: Option<&Princ>,
    masters: &Masters,
    active: u16,
    made: Rewrapped,
) -> Result<Settled, MemoryOut>
    requires { IfSome now (λ stored. IsPrinc stored.now) }
    ensures { IfOk result
        (λ s. s ≡ settled_with (option_map (λ stored. stored.now) now.entry) masters.now active made) }
{
    let Some(stored) = now else {
        return Ok(Settled::Gone);
    };
    let changed = changes(alloc, stored, masters, active, made.taken())?;
    Ok(settled(changed, made))
}
