//! A replica opened.

ghost use Rattle.std.specs.Prelude.{◌≡◌, ◌≢◌, ◌≤◌, ◌&&◌, ◌∷◌, [], false, true};
ghost use Rattle.std.specs.Prelude.{Err, IfErr, IfOk, None, OnOk, Some, nat_eq};
ghost use Rattle.iprop_truths.specs.Parts.{end_of};
ghost use Rattle.kdb_base.specs.declared.outcomes.Halt.TheVariants.{MemoryOut as IsMemoryOut, DiskFault as IsDiskFault};
ghost use Rattle.kdb_base.specs.declared.outcomes.Refusal.{Refusal as Refuses};
ghost use Rattle.kdb_base.specs.declared.outcomes.Refusal.TheVariants.{NotADatabase as IsNotADatabase};
ghost use Rattle.kdb_base.specs.declared.outcomes.Stop.TheVariants.{Refused, Halt as Halts};
ghost use Rattle.kdb_disk.specs.Frames.{IsCall, IsCrashSafe};
ghost use Rattle.kdb_disk.specs.Moments.{Keeps, LeavesOnly};
ghost use Rattle.kdb_places.specs.Places.{log_anew, point_of};
ghost use Rattle.replica_core.specs.Opened.{IsHeldOn, is_broken, place_of};
ghost use Rattle.replica_core.specs.Opening.{AnswersOpened, MayOpen};
ghost use Rattle.replica_steps.specs.Replicas.{reopened};
ghost use Rattle.store_files.specs.Found.{recovers};
ghost use Rattle.store_files.specs.Kept.{IsOnDisk, place_kept};
ghost use Rattle.store_files.specs.Recovery.{IsLike, LeavesPart};

use crate::replica::Replica;
use kdb_base::{Halt, Refusal, Stop};
use kdb_disk::Disk;
use kdb_store::Database;
use std::alloc::Global;

// Whether the log has this size, and the files are of format 2.
fn is_same(database: &Database, size: u32) -> bool
    ensures { result ≡ (nat_eq (place_kept database.now).format 2 && nat_eq size (place_kept database.now).size) }
{
    database.format() == 2 && size == database.log_size()
}

// Begins the log anew at the same point with this size, in format 2.
fn begin_anew<D: Disk>(
    alloc: Global,
    database: &mut Database,
    disk: &mut D,
    size: u32,
) -> Result<(), Halt>
    requires on { D.tells → IsOnDisk database.old (D.view disk.old) }
    requires whole { database.old.broken ≡ false }
    requires size { (2 ≤ size) × (size ≤ 10000) }
    ensures place { OnOk result (place_kept database.new ≡ log_anew (point_of (place_kept database.old)) size
        (place_kept database.old).block (place_kept database.old)) }
    ensures on { D.tells → OnOk result (IsOnDisk database.new (D.view disk.new)) }
    ensures crash { IsCrashSafe D.Disk disk.old disk.new
        (LeavesPart (place_kept database.old) (log_anew (point_of (place_kept database.old)) size
        (place_kept database.old).block (place_kept database.old) ∷ [])) }
    ensures memory { result ≡ Err IsMemoryOut → disk.new ≡ disk.old }
    ensures whole { OnOk result (database.new.broken ≡ false) }
    ensures call { IsCall D.Disk disk.old disk.new (result ≡ Err IsDiskFault) }
{
    let base = database.point();
    let block = database.block();
    if database.format() == 2 {
        return database.reset(alloc, disk, base, size, block);
    }
    database.migrate(alloc, disk, base, size, block)
}

// Begins the log anew where it has another size, or the files are of format 1.
fn renew<D: Disk>(
    alloc: Global,
    database: &mut Database,
    disk: &mut D,
    size: u32,
) -> Result<(), Halt>
    requires on { D.tells → IsOnDisk database.old (D.view disk.old) }
    requires whole { database.old.broken ≡ false }
    requires size { (2 ≤ size) × (size ≤ 10000) }
    ensures place { OnOk result
        (place_kept database.new ≡ end_of (place_kept database.old) (reopened size (Some (place_kept database.old)))) }
    ensures sized { OnOk result ((database.new.control.size ≡ size) × (database.new.control.format ≡ 2)) }
    ensures on { D.tells → OnOk result (IsOnDisk database.new (D.view disk.new)) }
    ensures crash { IsCrashSafe D.Disk disk.old disk.new
        (LeavesPart (place_kept database.old) (reopened size (Some (place_kept database.old)))) }
    ensures memory { result ≡ Err IsMemoryOut → disk.new ≡ disk.old }
    ensures whole { OnOk result (database.new.broken ≡ false) }
    ensures call { IsCall D.Disk disk.old disk.new (result ≡ Err IsDiskFault) }
{
    if is_same(database, size) {
        return Ok(());
    }
    begin_anew(alloc, database, disk, size)
}

// The replica of a database that was read, with its log begun anew where that is due.
fn open_as<D: Disk>(
    alloc: Global,
    disk: &mut D,
    mut database: Database,
    size: u32,
) -> Result<Replica, Halt>
    requires on { D.tells → IsOnDisk database (D.view disk.old) }
    requires whole { database.broken ≡ false }
    requires size { (2 ≤ size) × (size ≤ 10000) }
    ensures place { IfOk result
        (λ o. place_of o ≡ Some (end_of (place_kept database) (reopened size (Some (place_kept database))))) }
    ensures size { IfOk result (λ o. o.size ≡ size) }
    ensures whole { IfOk result (λ o. is_broken o.database o.failed ≡ false) }
    ensures on { D.tells → IfOk result (λ o. IsHeldOn o.database (D.view disk.new)) }
    ensures crash { IsCrashSafe D.Disk disk.old disk.new
        (LeavesPart (place_kept database) (reopened size (Some (place_kept database)))) }
    ensures memory { result ≡ Err IsMemoryOut → disk.new ≡ disk.old }
    ensures call { IsCall D.Disk disk.old disk.new (result ≡ Err IsDiskFault) }
{
    match renew(alloc, &mut database, disk, size) {
        Ok(()) => Ok(Replica::of_parts(Some(database), size)),
        Err(halt) => {
            drop(database);
            Err(halt)
        }
    }
}

// The replica without a database, where the files have none. Another stop goes on.
fn open_none(stop: Stop, size: u32) -> Result<Replica, Stop>
    requires size { (2 ≤ size) × (size ≤ 10000) }
    ensures none { IfOk result
        (λ o. (o ≡ record { database = None; size = size; failed = false }) × (stop ≡ Refused IsNotADatabase)) }
    ensures other { IfErr result (λ why. (why ≡ stop) × (why ≢ Refused IsNotADatabase)) }
{
    match stop {
        Stop::Refused(Refusal::NotADatabase) => Ok(Replica::of_parts(None, size)),
        other => Err(other),
    }
}

impl Replica {
    /// Opens the replica that the files stand for, with a log of so many entries (2 to 10000). Files without a control
    /// slot in force are a replica without a database. Another size, or files of format 1, begin the log anew at the
    /// same point.
    ///
    /// # Errors
    ///
    /// `Damaged` of the files; `Halt` where memory is wanted and not given, or the disk failed.
    pub fn recover<D: Disk>(alloc: Global, disk: &mut D, size: u32) -> Result<Replica, Stop>
        requires size { (2 ≤ size) × (size ≤ 10000) }
        ensures answer { D.tells → AnswersOpened size result (recovers (D.view disk.old).seen) }
        ensures size { IfOk result (λ o. o.size ≡ size) }
        ensures whole { IfOk result (λ o. is_broken o.database o.failed ≡ false) }
        ensures on { D.tells → IfOk result (λ o. IsHeldOn o.database (D.view disk.new)) }
        ensures moments { D.tells → LeavesOnly (D.view disk.old) (D.view disk.new)
            (MayOpen (D.view disk.old) size (recovers (D.view disk.old).seen)) }
        ensures refused_keeps { D.tells → (why : Refuses) → result ≡ Err (Refused why)
            → Keeps (D.view disk.old) (D.view disk.new) }
        // Where memory ran out, the files stand for what they stood for.
        ensures memory { D.tells → result ≡ Err (Halts IsMemoryOut)
            → LeavesOnly (D.view disk.old) (D.view disk.new) (IsLike (D.view disk.old)) }
        ensures call { IsCall D.Disk disk.old disk.new (result ≡ Err (Halts IsDiskFault)) }
    {
        match Database::recover(alloc, disk) {
            Ok(database) => match open_as(alloc, disk, database, size) {
                Ok(replica) => Ok(replica),
                Err(halt) => Err(Stop::Halt(halt)),
            },
            Err(stop) => open_none(stop, size),
        }
    }
}
