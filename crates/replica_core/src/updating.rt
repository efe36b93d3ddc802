//! Updates made one after another.

ghost use Rattle.std.specs.Prelude.{◌≡◌, ◌<◌, ◌≤◌, true, false, Err, None, OnErr, OnOk, Some};
ghost use Rattle.std.specs.List.{All};
ghost use Rattle.iprop_truths.specs.Blocks.{block_for, is_too_long};
ghost use Rattle.iprop_truths.specs.Parts.{IsPart, end_of};
ghost use Rattle.kdb_base.specs.Moments.{micros};
ghost use Rattle.kdb_base.specs.declared.outcomes.Halt.TheVariants.{MemoryOut as IsMemoryOut, DiskFault as IsDiskFault};
ghost use Rattle.kdb_disk.specs.Frames.{IsCall, IsCrashSafe};
ghost use Rattle.kdb_places.specs.Applying.{may_apply};
ghost use Rattle.kdb_places.specs.Places.{next_point, point_of};
ghost use Rattle.princ_rows.specs.Entries.{IsOp, IsSent, entry_len};
ghost use Rattle.replica_core.specs.Taking.{IsSized, IsStopIn, OnHalt, UnlessFaulted, UnlessHalted, one_updated};
ghost use Rattle.replica_core.specs.declared.stops.ReplicaStop.TheVariants.{Gap as IsGap, Halt as Halts};
ghost use Rattle.replica_steps.specs.Judging.{all_updated, follows, gap_in, stop_in, stop_or, updated};
ghost use Rattle.store_files.specs.Kept.{IsOnDisk, place_kept};
ghost use Rattle.store_files.specs.Recovery.{LeavesPart};

use crate::stops::ReplicaStop;
use kdb_base::{Halt, Time};
use kdb_disk::Disk;
use kdb_places::may_apply;
use kdb_store::{Database, entry_length};
use princ_rows::{Entry, Op, copy_op};
use std::alloc::Global;

// Tells a proof that the log holds some entry at most, and does nothing.
fn holds_size(database: &Database)
    ensures { 0 < (place_kept database.now).size }
{
    database.holds_kept();
    database.log().holds_journal();
}

// The length of the blocks of a log in which the entry of this change has its place.
fn block_for(database: &Database, op: &Op) -> u32
    requires { IsOp (Some op.now) }
    ensures value { result ≡ block_for op.now (place_kept database.now) }
    ensures range { (2048 ≤ result) × (result ≤ 16384) }
    ensures fits { entry_len (Some op.now) < result }
{
    let len = entry_length(op);
    if len >= database.block() as usize {
        (len as u32 / 2048 + 1) * 2048
    } else {
        database.block()
    }
}

// Makes a change that is too long for the log, which begins anew at the same point.
fn update_anew<D: Disk>(
    alloc: Global,
    database: &mut Database,
    disk: &mut D,
    op: Op,
    time: Time,
) -> Result<(), Halt>
    requires on { D.tells → IsOnDisk database.old (D.view disk.old) }
    requires whole { database.old.broken ≡ false }
    requires format { (place_kept database.old).format ≡ 2 }
    requires op { IsOp (Some op) }
    requires applies { may_apply op database.old.rows ≡ true }
    requires long { is_too_long op (place_kept database.old) ≡ true }
    requires serial { (point_of (place_kept database.old)).sno < 4294967295 }
    requires time { micros (point_of (place_kept database.old)).time ≤ micros time }
    ensures place { OnOk result (place_kept database.new
        ≡ end_of (place_kept database.old) (updated (place_kept database.old).size op time (place_kept database.old))) }
    ensures part { OnErr result (IsPart (place_kept database.old)
        (updated (place_kept database.old).size op time (place_kept database.old)) (place_kept database.new)) }
    ensures crash { IsCrashSafe D.Disk disk.old disk.new (LeavesPart (place_kept database.old)
        (updated (place_kept database.old).size op time (place_kept database.old))) }
    ensures on { D.tells → OnOk result (IsOnDisk database.new (D.view disk.new)) }
    ensures memory { result ≡ Err IsMemoryOut → disk.new ≡ disk.old }
    ensures still { D.tells → result ≡ Err IsMemoryOut → IsOnDisk database.new (D.view disk.new) }
    ensures whole { OnOk result (database.new.broken ≡ false) }
    ensures whole_still { result ≡ Err IsMemoryOut → database.new.broken ≡ false }
    ensures broken { result ≡ Err IsDiskFault → database.new.broken ≡ true }
    ensures call { IsCall D.Disk disk.old disk.new (result ≡ Err IsDiskFault) }
{
    let base = database.point();
    let block = block_for(database, &op);
    let _point = database.reset_and_commit(alloc, disk, base, block, op, time)?;
    Ok(())
}

// Makes a change whose entry has its place in a block.
fn update_behind<D: Disk>(
    alloc: Global,
    database: &mut Database,
    disk: &mut D,
    op: Op,
    time: Time,
) -> Result<(), Halt>
    requires on { D.tells → IsOnDisk database.old (D.view disk.old) }
    requires whole { database.old.broken ≡ false }
    requires format { (place_kept database.old).format ≡ 2 }
    requires op { IsOp (Some op) }
    requires applies { may_apply op database.old.rows ≡ true }
    requires short { is_too_long op (place_kept database.old) ≡ false }
    requires serial { (point_of (place_kept database.old)).sno < 4294967295 }
    requires time { micros (point_of (place_kept database.old)).time ≤ micros time }
    ensures place { OnOk result (place_kept database.new
        ≡ end_of (place_kept database.old) (updated (place_kept database.old).size op time (place_kept database.old))) }
    ensures part { OnErr result (IsPart (place_kept database.old)
        (updated (place_kept database.old).size op time (place_kept database.old)) (place_kept database.new)) }
    ensures crash { IsCrashSafe D.Disk disk.old disk.new (LeavesPart (place_kept database.old)
        (updated (place_kept database.old).size op time (place_kept database.old))) }
    ensures on { D.tells → OnOk result (IsOnDisk database.new (D.view disk.new)) }
    ensures memory { result ≡ Err IsMemoryOut → disk.new ≡ disk.old }
    ensures still { D.tells → result ≡ Err IsMemoryOut → IsOnDisk database.new (D.view disk.new) }
    ensures whole { OnOk result (database.new.broken ≡ false) }
    ensures whole_still { result ≡ Err IsMemoryOut → database.new.broken ≡ false }
    ensures broken { result ≡ Err IsDiskFault → database.new.broken ≡ true }
    ensures call { IsCall D.Disk disk.old disk.new (result ≡ Err IsDiskFault) }
{
    let _point = database.commit(alloc, disk, op, time)?;
    Ok(())
}

// Makes a change, behind a log that is begun anew where its entry is too long.
fn update<D: Disk>(
    alloc: Global,
    database: &mut Database,
    disk: &mut D,
    op: &Op,
    time: Time,
) -> Result<(), Halt>
    requires on { D.tells → IsOnDisk database.old (D.view disk.old) }
    requires whole { database.old.broken ≡ false }
    requires format { (place_kept database.old).format ≡ 2 }
    requires op { IsOp (Some op.now) }
    requires applies { may_apply op.now database.old.rows ≡ true }
    requires serial { (point_of (place_kept database.old)).sno < 4294967295 }
    requires time { micros (point_of (place_kept database.old)).time ≤ micros time }
    ensures place { OnOk result (place_kept database.new ≡ end_of (place_kept database.old)
        (updated (place_kept database.old).size op.now time (place_kept database.old))) }
    ensures part { OnErr result (IsPart (place_kept database.old)
        (updated (place_kept database.old).size op.now time (place_kept database.old)) (place_kept database.new)) }
    ensures point { OnOk result (point_of (place_kept database.new) ≡ next_point time (place_kept database.old)) }
    ensures sized { IsSized (place_kept database.old) (place_kept database.new) }
    ensures crash { IsCrashSafe D.Disk disk.old disk.new (LeavesPart (place_kept database.old)
        (updated (place_kept database.old).size op.now time (place_kept database.old))) }
    ensures on { D.tells → OnOk result (IsOnDisk database.new (D.view disk.new)) }
    ensures still { D.tells → result ≡ Err IsMemoryOut → IsOnDisk database.new (D.view disk.new) }
    ensures whole { OnOk result (database.new.broken ≡ false) }
    ensures whole_still { result ≡ Err IsMemoryOut → database.new.broken ≡ false }
    ensures broken { result ≡ Err IsDiskFault → database.new.broken ≡ true }
    ensures call { IsCall D.Disk disk.old disk.new (result ≡ Err IsDiskFault) }
{
    holds_size(database);
    let copy = match copy_op(alloc, op) {
        Ok(copy) => copy,
        Err(_) => return Err(Halt::MemoryOut),
    };
    if database.fits(op) {
        return update_behind(alloc, database, disk, copy, time);
    }
    update_anew(alloc, database, disk, copy, time)
}

// The stop at an update that may not be made of the rows.
fn unfit(entry: &Entry) -> ReplicaStop
    ensures { result ≡ IsGap entry.now.point.sno entry.now.point }
{
    ReplicaStop::Gap {
        want: entry.point.sno,
        found: entry.point,
    }
}

// Makes an update, or stops at one that may not be made of the rows.
fn store_one<D: Disk>(
    alloc: Global,
    database: &mut Database,
    disk: &mut D,
    entry: &Entry,
) -> Result<(), ReplicaStop>
    requires on { D.tells → IsOnDisk database.old (D.view disk.old) }
    requires whole { database.old.broken ≡ false }
    requires format { (place_kept database.old).format ≡ 2 }
    requires op { IsOp entry.now.op }
    requires follows { follows true (point_of (place_kept database.old)) entry.now ≡ true }
    ensures stop { IsStopIn result
        (stop_or (place_kept database.old).size entry.now.op entry.now.point (place_kept database.old) (λ p. None)) }
    ensures place { UnlessHalted result (place_kept database.new ≡ end_of (place_kept database.old)
        (one_updated (place_kept database.old).size entry.now.op entry.now.point.time (place_kept database.old))) }
    ensures part { OnHalt result (IsPart (place_kept database.old) (one_updated (place_kept database.old).size
        entry.now.op entry.now.point.time (place_kept database.old)) (place_kept database.new)) }
    ensures point { OnOk result (point_of (place_kept database.new) ≡ entry.now.point) }
    ensures sized { IsSized (place_kept database.old) (place_kept database.new) }
    ensures crash { IsCrashSafe D.Disk disk.old disk.new (LeavesPart (place_kept database.old)
        (one_updated (place_kept database.old).size entry.now.op entry.now.point.time (place_kept database.old))) }
    ensures on { D.tells → UnlessFaulted result (IsOnDisk database.new (D.view disk.new)) }
    ensures whole { UnlessFaulted result (database.new.broken ≡ false) }
    ensures broken { result ≡ Err (Halts IsDiskFault) → database.new.broken ≡ true }
    ensures call { IsCall D.Disk disk.old disk.new (result ≡ Err (Halts IsDiskFault)) }
{
    let _sno = u32::from(entry.point.sno);
    match &entry.op {
        Some(op) => {
            if !may_apply(database.rows(), op) {
                return Err(unfit(entry));
            }
            match update(alloc, database, disk, op, entry.point.time) {
                Ok(()) => Ok(()),
                Err(halt) => Err(ReplicaStop::Halt(halt)),
            }
        }
        None => Err(unfit(entry)),
    }
}

/// Makes the updates one after another, each a change of the database, up to the first that may not be made of the
/// rows.
pub(crate) fn store_all<D: Disk>(
    alloc: Global,
    database: &mut Database,
    disk: &mut D,
    updates: &[Entry],
) -> Result<(), ReplicaStop>
    requires on { D.tells → IsOnDisk database.old (D.view disk.old) }
    requires whole { database.old.broken ≡ false }
    requires format { (place_kept database.old).format ≡ 2 }
    requires sent { All IsSent updates.now }
    requires gap { gap_in true (point_of (place_kept database.old)) updates.now ≡ None }
    ensures stop { IsStopIn result (stop_in (place_kept database.old).size updates.now (place_kept database.old)) }
    ensures place { UnlessHalted result (place_kept database.new ≡ end_of (place_kept database.old)
        (all_updated (place_kept database.old).size updates.now (place_kept database.old))) }
    ensures part { OnHalt result (IsPart (place_kept database.old)
        (all_updated (place_kept database.old).size updates.now (place_kept database.old)) (place_kept database.new)) }
    ensures sized { IsSized (place_kept database.old) (place_kept database.new) }
    ensures crash { IsCrashSafe D.Disk disk.old disk.new (LeavesPart (place_kept database.old)
        (all_updated (place_kept database.old).size updates.now (place_kept database.old))) }
    ensures on { D.tells → UnlessFaulted result (IsOnDisk database.new (D.view disk.new)) }
    ensures whole { UnlessFaulted result (database.new.broken ≡ false) }
    ensures broken { result ≡ Err (Halts IsDiskFault) → database.new.broken ≡ true }
    ensures call { IsCall D.Disk disk.old disk.new (result ≡ Err (Halts IsDiskFault)) }
{
    let mut left = updates;
    while let Some((update, later)) = left.split_first() {
        match store_one(alloc, database, disk, update) {
            Ok(()) => {}
            Err(stop) => return Err(stop),
        }
        left = later;
    }
    Ok(())
}
