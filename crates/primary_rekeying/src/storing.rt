//! A rekeyed record is stored.

ghost use Rattle.std.specs.Prelude.{◌≡◌, true, false, Err, Ok, OnErr, OnOk, Some};
ghost use Rattle.kdb_base.specs.declared.outcomes.Halt.TheVariants.{MemoryOut as IsMemoryOut, DiskFault as IsDiskFault};
ghost use Rattle.kdb_base.specs.declared.outcomes.Refusal.{Refusal as Refuses};
ghost use Rattle.kdb_base.specs.declared.outcomes.Stop.TheVariants as stops;
ghost use Rattle.kdb_disk.specs.Frames.{IsCall, IsCrashSafe};
ghost use Rattle.kdb_histories.specs.Asks.{Answer as Answers, Ask, clock_of};
ghost use Rattle.kdb_histories.specs.Calls.{Perform};
ghost use Rattle.kdb_histories.specs.Leaving.{Does, MayReach};
ghost use Rattle.kdb_histories.specs.Seen.{after_ask, seen};
ghost use Rattle.kdb_plain.specs.declared.states.State.{State};
ghost use Rattle.primary_core.specs.Opened.{HasState, MayLeave, place_of};
ghost use Rattle.primary_rekeying.specs.Moving.{IsFoundOut, IsStored, MayStore, answer_of, is_updated};
ghost use Rattle.princ_record.specs.declared.princs.Princ.{Princ as Record};
ghost use Rattle.rekey_work.specs.declared.works.Settled.{Settled as Settles};
ghost use Rattle.rekey_work.specs.declared.works.Settled.TheVariants.{Updated};
ghost use Rattle.store_files.specs.Kept.{IsOnDisk};

use kdb_base::limits::MAX_ROW_LEN;
use kdb_base::{Halt, Refusal, Stop, Time};
use kdb_disk::Disk;
use primary_core::{DecidedChange, Primary};
use princ_record::{Princ, copy, encoded_len};
use princ_rows::Op;
use rekey_work::Settled;
use std::alloc::Global;
use store_files::laws::what_is_kept_is_recovered;

// Stores the record in the place of the one with its name.
fn store<D: Disk>(
    alloc: Global,
    primary: &mut Primary,
    disk: &mut D,
    made: Princ,
    now: Time,
) -> Result<Settled, Stop>
    requires on { D.tells → IsOnDisk primary.old.kept (D.view disk.old) }
    requires whole { primary.old.kept.broken ≡ false }
    requires may { MayStore primary.old now made }
    ensures does { (s : State) (ask : Ask) (answer : Answers)
        → clock_of ask ≡ now → HasState primary.old s → IsStored primary.old ask made → answer_of result ≡ Some answer
        → Does (place_of primary.old) s (Perform ask) answer (place_of primary.new) }
    ensures state { (s : State) (ask : Ask) (answer : Answers)
        → clock_of ask ≡ now → HasState primary.old s → IsStored primary.old ask made → answer_of result ≡ Some answer
        → HasState primary.new (after_ask ask (seen (place_of primary.old) s)).state }
    ensures keeps { (told : Settles) → result ≡ Ok told → is_updated told ≡ false
        → (primary.new ≡ primary.old) × (disk.new ≡ disk.old) }
    ensures refused_keeps { (why : Refuses) → result ≡ Err (stops.Refused why)
        → (primary.new ≡ primary.old) × (disk.new ≡ disk.old) }
    ensures crash { (s : State) (ask : Ask)
        → clock_of ask ≡ now → HasState primary.old s → IsStored primary.old ask made
        → IsCrashSafe D.Disk disk.old disk.new (MayLeave (place_of primary.old) s (Perform ask)) }
    ensures reach { (s : State) (ask : Ask)
        → clock_of ask ≡ now → HasState primary.old s → IsStored primary.old ask made
        → OnErr result (MayReach (place_of primary.old) s (Perform ask) (place_of primary.new)) }
    ensures rows { OnErr result ((place_of primary.new).rows ≡ (place_of primary.old).rows) }
    ensures masters { primary.new.masters ≡ primary.old.masters }
    ensures dumps { (primary.new.dumps ≡ primary.old.dumps) × (primary.new.room ≡ primary.old.room) }
    ensures on { D.tells → OnOk result (IsOnDisk primary.new.kept (D.view disk.new)) }
    ensures memory { result ≡ Err (stops.Halt IsMemoryOut) → disk.new ≡ disk.old }
    ensures memory_place { result ≡ Err (stops.Halt IsMemoryOut) → place_of primary.new ≡ place_of primary.old }
    ensures still { D.tells → result ≡ Err (stops.Halt IsMemoryOut) → IsOnDisk primary.new.kept (D.view disk.new) }
    ensures whole { OnOk result (primary.new.kept.broken ≡ false) }
    ensures whole_still { result ≡ Err (stops.Halt IsMemoryOut) → primary.new.kept.broken ≡ false }
    ensures broken { result ≡ Err (stops.Halt IsDiskFault) → primary.new.kept.broken ≡ true }
    ensures call { IsCall D.Disk disk.old disk.new (result ≡ Err (stops.Halt IsDiskFault)) }
{
    what_is_kept_is_recovered(disk);
    let len = encoded_len(&made);
    if len > MAX_ROW_LEN {
        return Err(Stop::Refused(Refusal::RecordTooLarge { size: len as u64 }));
    }
    let Ok(kept) = copy(alloc, &made) else {
        return Err(Stop::Halt(Halt::MemoryOut));
    };
    let op = Op::PutPrinc(kept);
    if primary.ends_time(&op) {
        return Err(Stop::Refused(Refusal::TimeEnd));
    }
    match primary.make(alloc, disk, DecidedChange { op, masters: None }, now) {
        Ok(()) => Ok(Settled::Updated(made)),
        Err(halt) => Err(Stop::Halt(halt)),
    }
}

// Stores the record that was found out, or answers.
pub(crate) fn finish<D: Disk>(
    alloc: Global,
    primary: &mut Primary,
    disk: &mut D,
    found: Settled,
    now: Time,
) -> Result<Settled, Stop>
    requires on { D.tells → IsOnDisk primary.old.kept (D.view disk.old) }
    requires whole { primary.old.kept.broken ≡ false }
    requires may { (made : Record) → found ≡ Updated made → MayStore primary.old now made }
    ensures handed_on { is_updated found ≡ false → result ≡ Ok found }
    ensures does { (s : State) (ask : Ask) (answer : Answers) → clock_of ask ≡ now
        → HasState primary.old s → IsFoundOut primary.old ask found → answer_of result ≡ Some answer
        → Does (place_of primary.old) s (Perform ask) answer (place_of primary.new) }
    ensures state { (s : State) (ask : Ask) (answer : Answers) → clock_of ask ≡ now
        → HasState primary.old s → IsFoundOut primary.old ask found → answer_of result ≡ Some answer
        → HasState primary.new (after_ask ask (seen (place_of primary.old) s)).state }
    ensures keeps { (told : Settles) → result ≡ Ok told → is_updated told ≡ false
        → (primary.new ≡ primary.old) × (disk.new ≡ disk.old) }
    ensures refused_keeps { (why : Refuses) → result ≡ Err (stops.Refused why)
        → (primary.new ≡ primary.old) × (disk.new ≡ disk.old) }
    ensures crash { (s : State) (ask : Ask)
        → clock_of ask ≡ now → HasState primary.old s → IsFoundOut primary.old ask found
        → IsCrashSafe D.Disk disk.old disk.new (MayLeave (place_of primary.old) s (Perform ask)) }
    ensures reach { (s : State) (ask : Ask)
        → clock_of ask ≡ now → HasState primary.old s → IsFoundOut primary.old ask found
        → OnErr result (MayReach (place_of primary.old) s (Perform ask) (place_of primary.new)) }
    ensures rows { OnErr result ((place_of primary.new).rows ≡ (place_of primary.old).rows) }
    ensures masters { primary.new.masters ≡ primary.old.masters }
    ensures dumps { (primary.new.dumps ≡ primary.old.dumps) × (primary.new.room ≡ primary.old.room) }
    ensures on { D.tells → OnOk result (IsOnDisk primary.new.kept (D.view disk.new)) }
    ensures memory { result ≡ Err (stops.Halt IsMemoryOut) → disk.new ≡ disk.old }
    ensures memory_place { result ≡ Err (stops.Halt IsMemoryOut) → place_of primary.new ≡ place_of primary.old }
    ensures still { D.tells → result ≡ Err (stops.Halt IsMemoryOut) → IsOnDisk primary.new.kept (D.view disk.new) }
    ensures whole { OnOk result (primary.new.kept.broken ≡ false) }
    ensures whole_still { result ≡ Err (stops.Halt IsMemoryOut) → primary.new.kept.broken ≡ false }
    ensures broken { result ≡ Err (stops.Halt IsDiskFault) → primary.new.kept.broken ≡ true }
    ensures call { IsCall D.Disk disk.old disk.new (result ≡ Err (stops.Halt IsDiskFault)) }
{
    what_is_kept_is_recovered(disk);
    match found {
        Settled::Updated(made) => store(alloc, primary, disk, made, now),
        Settled::Already => Ok(Settled::Already),
        Settled::Gone => Ok(Settled::Gone),
        Settled::Changed(record, version) => Ok(Settled::Changed(record, version)),
    }
}
