//! What a rekeying comes to, before anything is written.

ghost use Rattle.std.specs.Prelude.{◌≡◌, false, IfOk, None, Ok, Some};
ghost use Rattle.kdb_histories.specs.Asks.{RekeyedNow, Settles};
ghost use Rattle.kdb_plain.specs.States.{master_of};
ghost use Rattle.master_keys.specs.Rewrapping.{IsRewrapped};
ghost use Rattle.primary_rekeying.specs.Moving.{IsFoundOut, MayStore};
ghost use Rattle.princ_name.specs.Names.{NameParts, printed};
ghost use Rattle.princ_name.specs.Printed.{is_master};
ghost use Rattle.princ_record.specs.declared.princs.Princ.{Princ as Record};
ghost use Rattle.rekey_work.specs.declared.works.Settled.TheVariants.{Gone, Updated};
ghost use Rattle.row_keys.specs.Lookups.{record_named};

use crate::facts::{holds_moment, holds_point};
use crate::taking::{TakeAnswer, active_version, take_open};
use kdb_base::{MemoryOut, Time};
use kdb_plain::laws::valid_later;
use master_keys::laws::blobs_hold_one_key;
use primary_core::Primary;
use princ_record::laws::principals_have_their_own_spellings;
use rekey_work::{Rewrapped, Settled, Taken, rewrap_taken, settle};
use row_keys::laws::records_have_their_lengths;
use row_keys::{MasterRing, record_named};
use std::alloc::Global;

// What is made of a record that was taken, by the two of the master keys that are ready which it was taken with.
fn rewrap_ready(
    alloc: Global,
    ring: &MasterRing,
    taken: Taken,
    random: &[u8; 512],
) -> Result<Rewrapped, MemoryOut>
    requires old { master_of ring.now taken.princ.mkvno ≡ Some taken.old }
    requires fresh { master_of ring.now taken.version ≡ Some taken.fresh }
    ensures taken { IfOk result (λ work. work.taken ≡ taken) }
    ensures made { IfOk result
        (λ work. IsRewrapped taken.princ taken.old taken.version taken.fresh random.now work.made) }
{
    let old = ring.find(taken.princ().mkvno);
    let fresh = ring.find(taken.version());
    match (old, fresh) {
        (Some(old), Some(fresh)) => match rewrap_taken(alloc, taken, old, fresh, random) {
            Ok(work) => Ok(work),
            Err(_) => Err(MemoryOut),
        },
        // Both are there.
        _ => Err(MemoryOut),
    }
}

// What a rekeying at once comes to: an answer, or the record that is to be stored.
pub(crate) fn rekeyed(
    alloc: Global,
    primary: &Primary,
    ring: &MasterRing,
    name: &[u8],
    now: Time,
    random: &[u8; 512],
) -> Result<Settled, MemoryOut>
    requires ring { ring.now ≡ primary.now.masters }
    requires name { is_master name.now ≡ false }
    ensures absent { record_named name.now primary.now.kept.rows.princs ≡ None → IfOk result (λ found. found ≡ Gone) }
    ensures found_out { (who : NameParts) → printed who ≡ name.now
        → IfOk result (IsFoundOut primary.now (RekeyedNow who now random.now)) }
    ensures may { (made : Record) → result ≡ Ok (Updated made) → MayStore primary.now now made }
{
    valid_later();
    records_have_their_lengths();
    blobs_hold_one_key();
    primary.holds_opened();
    holds_moment(now);
    holds_point(primary.point());
    let _ = primary.database().rows().princs();
    match take_open(alloc, primary, name, now)? {
        TakeAnswer::Ready(taken) => match rewrap_ready(alloc, ring, taken, random) {
            Ok(work) => {
                work.holds_work();
                Ok(Settled::Updated(work.into_made()))
            }
            Err(_) => Err(MemoryOut),
        },
        TakeAnswer::Already => Ok(Settled::Already),
        TakeAnswer::Gone => Ok(Settled::Gone),
        // An open primary takes.
        TakeAnswer::Closed => Err(MemoryOut),
    }
}

// What work that comes back comes to: an answer, or the record that is to be stored.
pub(crate) fn settled(
    alloc: Global,
    primary: &Primary,
    work: Rewrapped,
    now: Time,
) -> Result<Settled, MemoryOut>
    ensures found_out { (who : NameParts) → printed who ≡ work.taken.princ.name
        → IfOk result (IsFoundOut primary.now (Settles who now work)) }
    ensures may { (made : Record) → result ≡ Ok (Updated made) → MayStore primary.now now made }
{
    valid_later();
    records_have_their_lengths();
    blobs_hold_one_key();
    principals_have_their_own_spellings();
    primary.holds_opened();
    work.holds_work();
    holds_moment(now);
    holds_point(primary.point());
    let rows = primary.database().rows();
    let _ = rows.princs();
    let Some(active) = active_version(alloc, primary, now)? else {
        // A primary has an active version.
        drop(work);
        return Err(MemoryOut);
    };
    let stored = record_named(rows, work.taken().princ().name.as_slice());
    settle(alloc, stored, primary.masters(), active, work)
}
