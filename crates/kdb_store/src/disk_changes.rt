//! A change on the disk: its entry in the log, and then its unit.
ghost use Rattle.std.specs.Prelude.{◌≡◌, ◌≢◌, ◌≤◌, ◌-◌, ◌*◌, ℕ, List, Some, Err, OnOk, OnErr, IsErr, length};
ghost use Rattle.kdb_base.specs.declared.outcomes.Halt.TheVariants.{MemoryOut as IsMemoryOut, DiskFault as IsDiskFault};
ghost use Rattle.kdb_disk.specs.View.{View};
ghost use Rattle.kdb_disk.specs.Frames.{IsCall};
ghost use Rattle.kdb_disk.specs.Moments.{LeavesOnly};
ghost use Rattle.princ_rows.specs.Entries.{IsOp, logged};
ghost use Rattle.update_log.specs.Logs.{ComesNext, with_prepared, log_committed};
ghost use Rattle.update_log.specs.Moments.{HasLog, IsBodyFor, IsDurable};
ghost use Rattle.kdb_cells.specs.Cells.{Cell, unit_size};
ghost use Rattle.kdb_cells.specs.FileCells.{IsFileOf};
ghost use Rattle.store_files.specs.Found.{Found, unit_numbered, left_by, with_unit};
ghost use Rattle.store_files.specs.Standing.{Holds, IsUnderWay, after};
ghost use Rattle.kdb_store.specs.Parts.{HoldsAlike, MayCommit};
ghost use Rattle.kdb_store.specs.Writes.{number_of, Writes, IsGivenTo, MayWrite, HoldsCells};

use crate::entry_writes::write_entry;
use kdb_base::Halt;
use kdb_cells::Cells;
use kdb_disk::{Disk, DiskFailed};
use princ_rows::Entry;
use std::alloc::Global;
use store_opening::{UnitWrite, write_unit};
use update_log::Log;

/// Opens the entry that is prepared in the log, and then writes its unit. It takes no memory.
///
/// At each moment a crash leaves all as before, or the entry open in the log and nothing else changed but
/// its unit. After an error the index leads where it led.
pub(crate) fn write_prepared<D: Disk>(
    disk: &mut D,
    log: &mut Log,
    cells: &mut Cells,
    entry: &Entry,
    body: &[u8],
    write: UnitWrite,
) -> Result<(), DiskFailed>
    requires ready { log.old.prepared ≡ Some (record { entry = entry.now; cell = number_of write }) }
    requires body { IsBodyFor (record { entry = entry.now; cell = number_of write }) log.old.block body.now }
    requires log { D.tells → HasLog log.old (D.view disk.old) }
    requires durable { D.tells → IsDurable log.old.file (D.view disk.old) }
    requires format { cells.old.format ≡ 2 }
    requires writes { Writes write (left_by entry.now.op) }
    requires given { IsGivenTo write cells.old }
    requires may { MayWrite write cells.old }
    requires apart { log.old.file ≢ cells.old.file }
    requires within { D.tells
        → number_of write * unit_size cells.old.format ≤ length ((D.view disk.old).seen cells.old.file) }
    ensures crash { D.tells → (o : Found)
        → MayCommit log.old cells.old (record { entry = entry.now; cell = number_of write }) o (D.view disk.old)
        → LeavesOnly (D.view disk.old) (D.view disk.new)
        (IsUnderWay (record { entry = entry.now; cell = number_of write }) o) }
    ensures stands { D.tells → (o : Found)
        → MayCommit log.old cells.old (record { entry = entry.now; cell = number_of write }) o (D.view disk.old)
        → OnOk result (Holds (after (record { entry = entry.now; cell = number_of write }) o) (D.view disk.new)) }
    ensures file { D.tells → (o : Found)
        → MayCommit log.old cells.old (record { entry = entry.now; cell = number_of write }) o (D.view disk.old)
        → OnOk result (IsFileOf cells.new (after (record { entry = entry.now; cell = number_of write }) o).sheet
        ((D.view disk.new).seen cells.old.file)) }
    ensures others { D.tells → OnOk result
        ((g : ℕ) → g ≢ log.old.file → g ≢ cells.old.file → (D.view disk.new).seen g ≡ (D.view disk.old).seen g) }
    ensures log { D.tells → OnOk result (HasLog log.new (D.view disk.new)) }
    ensures durable { D.tells → OnOk result (IsDurable log.new.file (D.view disk.new)) }
    ensures held { OnOk result (log.new ≡ log_committed log.old) }
    ensures leads { (held : List Cell) → HoldsCells cells.old held → number_of write ≤ length held
        → OnOk result (HoldsCells cells.new (with_unit (unit_numbered (number_of write)) (left_by entry.now.op) held)) }
    ensures same_log { OnErr result (log.new ≡ log.old) }
    ensures err { OnErr result (cells.new ≡ cells.old) }
    ensures number { cells.new.file ≡ cells.old.file }
    ensures same_format { cells.new.format ≡ cells.old.format }
    ensures call { IsCall D.Disk disk.old disk.new (IsErr result) }
{
    match write_entry(disk, log, entry, write.number(), body) {
        Ok(()) => {}
        Err(failed) => return Err(failed),
    }
    match write_unit(disk, cells, write) {
        Ok(()) => {
            log.take_prepared();
            Ok(())
        }
        Err(failed) => Err(failed),
    }
}

/// Opens the entry in the log, and then writes its unit. Memory is taken before the first device call.
///
/// At each moment a crash leaves all as before, or the entry open in the log and nothing else changed but
/// its unit. After an error the log holds in memory what it held, and the index leads where it led.
pub(crate) fn write_change<D: Disk>(
    alloc: Global,
    disk: &mut D,
    log: &mut Log,
    cells: &mut Cells,
    entry: &Entry,
    write: UnitWrite,
) -> Result<(), Halt>
    requires comes { ComesNext log.old.held (record { entry = entry.now; cell = number_of write }) }
    requires fits { IsOp entry.now.op }
    requires short { length (logged (record { entry = entry.now; cell = number_of write })) ≤ log.old.block - 1 }
    requires log { D.tells → HasLog log.old (D.view disk.old) }
    requires durable { D.tells → IsDurable log.old.file (D.view disk.old) }
    requires format { cells.old.format ≡ 2 }
    requires writes { Writes write (left_by entry.now.op) }
    requires given { IsGivenTo write cells.old }
    requires may { MayWrite write cells.old }
    requires apart { log.old.file ≢ cells.old.file }
    requires within { D.tells
        → number_of write * unit_size cells.old.format ≤ length ((D.view disk.old).seen cells.old.file) }
    ensures crash { D.tells → (o : Found)
        → MayCommit log.old cells.old (record { entry = entry.now; cell = number_of write }) o (D.view disk.old)
        → LeavesOnly (D.view disk.old) (D.view disk.new)
        (IsUnderWay (record { entry = entry.now; cell = number_of write }) o) }
    ensures stands { D.tells → (o : Found)
        → MayCommit log.old cells.old (record { entry = entry.now; cell = number_of write }) o (D.view disk.old)
        → OnOk result (Holds (after (record { entry = entry.now; cell = number_of write }) o) (D.view disk.new)) }
    ensures file { D.tells → (o : Found)
        → MayCommit log.old cells.old (record { entry = entry.now; cell = number_of write }) o (D.view disk.old)
        → OnOk result (IsFileOf cells.new (after (record { entry = entry.now; cell = number_of write }) o).sheet
        ((D.view disk.new).seen cells.old.file)) }
    ensures others { D.tells → OnOk result
        ((g : ℕ) → g ≢ log.old.file → g ≢ cells.old.file → (D.view disk.new).seen g ≡ (D.view disk.old).seen g) }
    ensures log { D.tells → OnOk result (HasLog log.new (D.view disk.new)) }
    ensures durable { D.tells → OnOk result (IsDurable log.new.file (D.view disk.new)) }
    ensures held { OnOk result (log.new
        ≡ log_committed (with_prepared (Some (record { entry = entry.now; cell = number_of write })) log.old)) }
    ensures leads { (held : List Cell) → HoldsCells cells.old held → number_of write ≤ length held
        → OnOk result (HoldsCells cells.new (with_unit (unit_numbered (number_of write)) (left_by entry.now.op) held)) }
    ensures alike { OnErr result (HoldsAlike log.old log.new) }
    ensures err { OnErr result (cells.new ≡ cells.old) }
    ensures number { cells.new.file ≡ cells.old.file }
    ensures same_format { cells.new.format ≡ cells.old.format }
    ensures memory { result ≡ Err IsMemoryOut → disk.new ≡ disk.old }
    ensures call { IsCall D.Disk disk.old disk.new (result ≡ Err IsDiskFault) }
{
    match log.ready(alloc, entry, write.number()) {
        Ok(text) => match write_prepared(disk, log, cells, entry, &text, write) {
            Ok(()) => Ok(()),
            Err(_) => Err(Halt::DiskFault),
        },
        Err(_) => Err(Halt::MemoryOut),
    }
}
