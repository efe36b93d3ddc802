//! An entry of the log written and opened on the disk.
ghost use Rattle.std.specs.Prelude.{◌≡◌, Some, OnOk, IsErr};
ghost use Rattle.kdb_disk.specs.View.{View};
ghost use Rattle.kdb_disk.specs.Frames.{IsCall};
ghost use Rattle.kdb_disk.specs.Moments.{LeavesOnly};
ghost use Rattle.update_log.specs.Logs.{log_committed};
ghost use Rattle.update_log.specs.Moments.{HasLog, IsBodyFor, IsDurable, ReadsOthers};
ghost use Rattle.store_files.specs.Found.{Found};
ghost use Rattle.store_files.specs.Standing.{Holds, IsUnderWay, IsLogOf, IsChange};
ghost use Rattle.kdb_store.specs.Parts.{ArePending};

use kdb_disk::{Disk, DiskFailed};
use princ_rows::Entry;
use update_log::Log;

/// Writes the entry that is prepared into the log and opens it, on the disk. In memory it is prepared still.
/// It takes no memory.
///
/// At each moment a crash leaves all as before, or the entry open in the log.
pub(crate) fn write_entry<D: Disk>(
    disk: &mut D,
    log: &Log,
    entry: &Entry,
    cell: u32,
    body: &[u8],
) -> Result<(), DiskFailed>
    requires ready { log.now.prepared ≡ Some (record { entry = entry.now; cell = cell }) }
    requires body { IsBodyFor (record { entry = entry.now; cell = cell }) log.now.block body.now }
    requires log { D.tells → HasLog log.now (D.view disk.old) }
    requires durable { D.tells → IsDurable log.now.file (D.view disk.old) }
    ensures crash { D.tells → (o : Found) → IsLogOf log.now o → Holds o (D.view disk.old)
        → IsChange o (record { entry = entry.now; cell = cell })
        → LeavesOnly (D.view disk.old) (D.view disk.new) (IsUnderWay (record { entry = entry.now; cell = cell }) o) }
    ensures pending { D.tells → (o : Found) → IsLogOf log.now o → Holds o (D.view disk.old)
        → IsChange o (record { entry = entry.now; cell = cell })
        → OnOk result (ArePending (record { entry = entry.now; cell = cell }) o (D.view disk.new)) }
    ensures log { D.tells → OnOk result (HasLog (log_committed log.now) (D.view disk.new)) }
    ensures durable { D.tells → OnOk result (IsDurable log.now.file (D.view disk.new)) }
    ensures others { D.tells → OnOk result (ReadsOthers log.now.file (D.view disk.old) (D.view disk.new)) }
    ensures call { IsCall D.Disk disk.old disk.new (IsErr result) }
{
    match log.write_ready(disk, entry, cell, body) {
        Ok(()) => {}
        Err(failed) => return Err(failed),
    }
    match log.open_prepared(disk) {
        Ok(()) => Ok(()),
        Err(failed) => Err(failed),
    }
}
