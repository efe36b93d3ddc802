//! Principals rekeyed one by one: beside commands, where what was taken comes back, or at once.

ghost use Rattle.std.specs.Prelude.{◌≡◌, ◌≢◌, true, false, Err, None, Ok, OnErr, OnOk, Some};
ghost use Rattle.kdb_base.specs.declared.outcomes.Halt.TheVariants.{MemoryOut as IsMemoryOut, DiskFault as IsDiskFault};
ghost use Rattle.kdb_base.specs.declared.outcomes.Refusal.{Refusal as Refuses};
ghost use Rattle.kdb_base.specs.declared.outcomes.Refusal.TheVariants.{Closed};
ghost use Rattle.kdb_base.specs.declared.outcomes.Stop.TheVariants as stops;
ghost use Rattle.kdb_disk.specs.Frames.{IsCall, IsCrashSafe};
ghost use Rattle.kdb_histories.specs.Asks.{Answer as Answers, RekeyedNow, Settles};
ghost use Rattle.kdb_histories.specs.Calls.{Perform};
ghost use Rattle.kdb_histories.specs.Leaving.{Does, MayReach};
ghost use Rattle.kdb_histories.specs.Seen.{after_ask, seen};
ghost use Rattle.kdb_plain.specs.declared.states.State.{State};
ghost use Rattle.primary_core.specs.Opened.{HasState, MayLeave, place_of};
ghost use Rattle.primary_rekeying.specs.Moving.{answer_of, is_updated};
ghost use Rattle.princ_name.specs.Names.{NameParts, printed};
ghost use Rattle.princ_name.specs.Printed.{is_master};
ghost use Rattle.rekey_work.specs.declared.works.Settled.{Settled as Found};
ghost use Rattle.rekey_work.specs.declared.works.Settled.TheVariants.{Gone};
ghost use Rattle.row_keys.specs.Lookups.{record_named};
ghost use Rattle.store_files.specs.Kept.{IsOnDisk};

use crate::finding::{rekeyed, settled};
use crate::storing::finish;
use kdb_base::{Halt, Refusal, Stop, Time};
use kdb_disk::Disk;
use primary_core::Primary;
use rekey_work::{Rewrapped, Settled};
use row_keys::MasterRing;
use std::alloc::Global;
use store_files::laws::what_is_kept_is_recovered;

/// Stores what was made of a principal that was taken, where it is still the one that was taken, the version is
/// still active and both master keys are the same; else it tells what is another. It answers the record that is
/// stored.
///
/// # Errors
///
/// `Closed` after a fault of the disk; where it would be stored `RecordTooLarge`, and `TimeEnd` where the log is to
/// begin anew and no later time is left; `Halt` where memory is wanted and not given, and then nothing is changed,
/// or the disk failed, after which the primary is closed.
pub fn rekey_settle<D: Disk>(
    alloc: Global,
    primary: &mut Primary,
    disk: &mut D,
    made: Rewrapped,
    now: Time,
) -> Result<Settled, Stop>
    requires on { D.tells → primary.old.kept.broken ≡ false → IsOnDisk primary.old.kept (D.view disk.old) }
    ensures does { (s : State) (who : NameParts) (answer : Answers) → primary.old.kept.broken ≡ false
        → HasState primary.old s → printed who ≡ made.taken.princ.name → answer_of result ≡ Some answer
        → Does (place_of primary.old) s (Perform (Settles who now made)) answer (place_of primary.new) }
    ensures state { (s : State) (who : NameParts) (answer : Answers) → primary.old.kept.broken ≡ false
        → HasState primary.old s → printed who ≡ made.taken.princ.name → answer_of result ≡ Some answer
        → HasState primary.new (after_ask (Settles who now made) (seen (place_of primary.old) s)).state }
    ensures closed { primary.old.kept.broken ≡ true → result ≡ Err (stops.Refused Closed) }
    ensures keeps { (told : Found) → result ≡ Ok told → is_updated told ≡ false
        → (primary.new ≡ primary.old) × (disk.new ≡ disk.old) }
    ensures refused_keeps { (why : Refuses) → result ≡ Err (stops.Refused why)
        → (primary.new ≡ primary.old) × (disk.new ≡ disk.old) }
    ensures crash { (s : State) (who : NameParts)
        → primary.old.kept.broken ≡ false → HasState primary.old s → printed who ≡ made.taken.princ.name
        → IsCrashSafe D.Disk disk.old disk.new (MayLeave (place_of primary.old) s (Perform (Settles who now made))) }
    ensures reach { (s : State) (who : NameParts) → HasState primary.old s → printed who ≡ made.taken.princ.name
        → OnErr result (MayReach (place_of primary.old) s (Perform (Settles who now made)) (place_of primary.new)) }
    ensures rows { OnErr result ((place_of primary.new).rows ≡ (place_of primary.old).rows) }
    ensures masters { primary.new.masters ≡ primary.old.masters }
    ensures dumps { (primary.new.dumps ≡ primary.old.dumps) × (primary.new.room ≡ primary.old.room) }
    ensures on { D.tells → OnOk result (IsOnDisk primary.new.kept (D.view disk.new)) }
    ensures memory { result ≡ Err (stops.Halt IsMemoryOut) → disk.new ≡ disk.old }
    ensures memory_place { result ≡ Err (stops.Halt IsMemoryOut) → place_of primary.new ≡ place_of primary.old }
    ensures still { D.tells → result ≡ Err (stops.Halt IsMemoryOut) → IsOnDisk primary.new.kept (D.view disk.new) }
    ensures whole { OnOk result (primary.new.kept.broken ≡ false) }
    ensures whole_still { result ≡ Err (stops.Halt IsMemoryOut) → primary.new.kept.broken ≡ false }
    ensures broken { result ≡ Err (stops.Halt IsDiskFault) → primary.new.kept.broken ≡ true }
    ensures call { IsCall D.Disk disk.old disk.new (result ≡ Err (stops.Halt IsDiskFault)) }
{
    what_is_kept_is_recovered(disk);
    if primary.is_closed() {
        return Err(Stop::Refused(Refusal::Closed));
    }
    match settled(alloc, primary, made, now) {
        Ok(found) => finish(alloc, primary, disk, found, now),
        Err(_) => Err(Stop::Halt(Halt::MemoryOut)),
    }
}

/// Rekeys the principal of this printed name at once: its keys are wrapped under the version of the master key that is
/// active at the clock's moment, with a block of random bytes. The name is none of K/M. The ring has the primary's
/// master keys: who goes through many principals makes it once. It answers the record that is stored.
///
/// # Errors
///
/// Those of `rekey_settle`.
pub fn rekey_now<D: Disk>(
    alloc: Global,
    primary: &mut Primary,
    disk: &mut D,
    ring: &MasterRing,
    name: &[u8],
    now: Time,
    random: &[u8; 512],
) -> Result<Settled, Stop>
    requires on { D.tells → primary.old.kept.broken ≡ false → IsOnDisk primary.old.kept (D.view disk.old) }
    requires ring { ring.now ≡ primary.old.masters }
    requires name { is_master name.now ≡ false }
    ensures does { (s : State) (who : NameParts) (answer : Answers) → primary.old.kept.broken ≡ false
        → HasState primary.old s → printed who ≡ name.now → answer_of result ≡ Some answer
        → Does (place_of primary.old) s (Perform (RekeyedNow who now random.now)) answer (place_of primary.new) }
    ensures state { (s : State) (who : NameParts) (answer : Answers) → primary.old.kept.broken ≡ false
        → HasState primary.old s → printed who ≡ name.now → answer_of result ≡ Some answer
        → HasState primary.new (after_ask (RekeyedNow who now random.now) (seen (place_of primary.old) s)).state }
    ensures closed { primary.old.kept.broken ≡ true → result ≡ Err (stops.Refused Closed) }
    ensures absent { primary.old.kept.broken ≡ false → record_named name.now primary.old.kept.rows.princs ≡ None
        → result ≢ Err (stops.Halt IsMemoryOut) → result ≡ Ok Gone }
    ensures keeps { (told : Found) → result ≡ Ok told → is_updated told ≡ false
        → (primary.new ≡ primary.old) × (disk.new ≡ disk.old) }
    ensures refused_keeps { (why : Refuses) → result ≡ Err (stops.Refused why)
        → (primary.new ≡ primary.old) × (disk.new ≡ disk.old) }
    ensures crash { (s : State) (who : NameParts) → primary.old.kept.broken ≡ false
        → HasState primary.old s → printed who ≡ name.now → IsCrashSafe D.Disk disk.old disk.new
        (MayLeave (place_of primary.old) s (Perform (RekeyedNow who now random.now))) }
    ensures reach { (s : State) (who : NameParts) → HasState primary.old s → printed who ≡ name.now → OnErr result
        (MayReach (place_of primary.old) s (Perform (RekeyedNow who now random.now)) (place_of primary.new)) }
    ensures rows { OnErr result ((place_of primary.new).rows ≡ (place_of primary.old).rows) }
    ensures masters { primary.new.masters ≡ primary.old.masters }
    ensures dumps { (primary.new.dumps ≡ primary.old.dumps) × (primary.new.room ≡ primary.old.room) }
    ensures on { D.tells → OnOk result (IsOnDisk primary.new.kept (D.view disk.new)) }
    ensures memory { result ≡ Err (stops.Halt IsMemoryOut) → disk.new ≡ disk.old }
    ensures memory_place { result ≡ Err (stops.Halt IsMemoryOut) → place_of primary.new ≡ place_of primary.old }
    ensures still { D.tells → result ≡ Err (stops.Halt IsMemoryOut) → IsOnDisk primary.new.kept (D.view disk.new) }
    ensures whole { OnOk result (primary.new.kept.broken ≡ false) }
    ensures whole_still { result ≡ Err (stops.Halt IsMemoryOut) → primary.new.kept.broken ≡ false }
    ensures broken { result ≡ Err (stops.Halt IsDiskFault) → primary.new.kept.broken ≡ true }
    ensures call { IsCall D.Disk disk.old disk.new (result ≡ Err (stops.Halt IsDiskFault)) }
{
    what_is_kept_is_recovered(disk);
    if primary.is_closed() {
        return Err(Stop::Refused(Refusal::Closed));
    }
    match rekeyed(alloc, primary, ring, name, now, random) {
        Ok(found) => finish(alloc, primary, disk, found, now),
        Err(_) => Err(Stop::Halt(Halt::MemoryOut)),
    }
}
