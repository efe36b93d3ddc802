//! A change of rows in memory and on the disk.
ghost use Rattle.std.specs.Prelude.{◌≡◌, ◌≢◌, ◌≤◌, ◌+◌, ◌-◌, ◌*◌, ◌∷◌, ◌++◌, [], List, ℕ, Some};
ghost use Rattle.std.specs.Prelude.{Err, IfOk, OnOk, OnErr, IsErr, length, map, slice_index_or};
ghost use Rattle.kdb_base.specs.Moments.{micros};
ghost use Rattle.kdb_base.specs.declared.outcomes.Halt.TheVariants.{MemoryOut as IsMemoryOut, DiskFault as IsDiskFault};
ghost use Rattle.kdb_disk.specs.View.{View};
ghost use Rattle.kdb_disk.specs.Frames.{IsCall};
ghost use Rattle.kdb_disk.specs.Moments.{LeavesOnly};
ghost use Rattle.princ_rows.specs.Entries.{IsOp, entry_len, logged};
ghost use Rattle.princ_rows.specs.declared.entries.Logged.{Logged};
ghost use Rattle.princ_rows.specs.Rows.{AreRows};
ghost use Rattle.princ_rows.specs.Effects.{effect, IsRoom};
ghost use Rattle.princ_rows.specs.Undoing.{IsNewName, IsBegun, finished, undone};
ghost use Rattle.update_log.specs.Logs.{ComesNext, with_prepared, log_committed, entry_of};
ghost use Rattle.update_log.specs.Moments.{HasLog, IsDurable};
ghost use Rattle.kdb_cells.specs.Cells.{Cell, unit_size};
ghost use Rattle.kdb_cells.specs.CellFiles.{units};
ghost use Rattle.kdb_cells.specs.FileCells.{IsFileOf};
ghost use Rattle.kdb_cells.specs.Sheets.{Sheet};
ghost use Rattle.kdb_places.specs.Places.{last_entries, committed};
ghost use Rattle.store_files.specs.Found.{Found, unit_numbered, left_by, with_unit};
ghost use Rattle.store_files.specs.Kept.{Kept, AreIndexed, IsOnDisk, place_kept, with_parts};
ghost use Rattle.store_files.specs.Recovery.{LeavesPart};
ghost use Rattle.store_files.specs.Standing.{Holds, IsUnderWay, after};
ghost use Rattle.kdb_store.specs.Parts.{LeadsAlike, HoldsAlike, MayCommit, SameNumbers, StandsOn};
ghost use Rattle.kdb_store.specs.Writes.{number_of, Writes, IsGivenTo, MayWrite, HasEntered, HoldsCells, IsPlan};

use crate::disk_changes::write_change;
use crate::writing::plan;
use kdb_base::{Halt, MemoryOut, Point};
use kdb_cells::Cells;
use kdb_disk::Disk;
use princ_rows::entry_laws::entries_have_their_lengths;
use princ_rows::{Begun, Entry, Op, Rows, copy_op};
use std::alloc::Global;
use store_opening::UnitWrite;
use update_log::Log;

/// A change with all that it wants of memory: its entry, the change of the rows, which is begun, and what
/// is written into its unit.
#[derive(Drop)]
pub struct Planned {
    pub entry: Entry,
    pub begun: Begun,
    pub write: UnitWrite,
}

// Tells a proof that the rows are in order, and does nothing.
pub(crate) fn holds_rows(rows: &Rows)
    ensures { AreRows rows.now }
{
    let _ = rows.princs();
}

// Plans what is written into the unit of a change, and begins the change in the rows.
fn begin_parts(
    alloc: Global,
    cells: &mut Cells,
    rows: &mut Rows,
    op: &Op,
) -> Result<(UnitWrite, Begun), MemoryOut>
    requires op { IsOp (Some op.now) }
    requires room { IsRoom (effect (Some op.now) rows.old) }
    requires name { IsNewName op.now rows.old }
    ensures plan { IfOk result (λ p. IsPlan p.0 op.now (units cells.old) rows.old) }
    ensures given { IfOk result (λ p. IsGivenTo p.0 cells.new) }
    ensures finished { IfOk result (λ p. finished p.1 rows.new ≡ effect (Some op.now) rows.old) }
    ensures back { IfOk result (λ p. undone p.1 rows.new ≡ rows.old) }
    ensures begun { IfOk result (λ p. IsBegun p.1 rows.new) }
    ensures err { OnErr result (rows.new ≡ rows.old) }
    ensures alike { LeadsAlike cells.old cells.new }
{
    let write = plan(alloc, cells, rows, op)?;
    let copy = copy_op(alloc, op)?;
    let begun = rows.begin(copy)?;
    Ok((write, begun))
}

/// Plans a change at this point, and begins it in the rows.
pub(crate) fn begin_change(
    alloc: Global,
    cells: &mut Cells,
    rows: &mut Rows,
    op: Op,
    point: Point,
) -> Result<Planned, MemoryOut>
    requires op { IsOp (Some op) }
    requires room { IsRoom (effect (Some op) rows.old) }
    requires name { IsNewName op rows.old }
    ensures entry { IfOk result (λ p. p.entry ≡ record { point = point; op = Some op }) }
    ensures plan { IfOk result (λ p. IsPlan p.write op (units cells.old) rows.old) }
    ensures given { IfOk result (λ p. IsGivenTo p.write cells.new) }
    ensures finished { IfOk result (λ p. finished p.begun rows.new ≡ effect (Some op) rows.old) }
    ensures back { IfOk result (λ p. undone p.begun rows.new ≡ rows.old) }
    ensures begun { IfOk result (λ p. IsBegun p.begun rows.new) }
    ensures err { OnErr result (rows.new ≡ rows.old) }
    ensures alike { LeadsAlike cells.old cells.new }
{
    let (write, begun) = begin_parts(alloc, cells, rows, &op)?;
    Ok(Planned {
        entry: Entry {
            point,
            op: Some(op),
        },
        begun,
        write,
    })
}

// Writes a change that was begun, and finishes it in the rows or takes it back there.
fn write_begun<D: Disk>(
    alloc: Global,
    disk: &mut D,
    log: &mut Log,
    cells: &mut Cells,
    rows: &mut Rows,
    entry: Entry,
    begun: Begun,
    write: UnitWrite,
) -> Result<(), Halt>
    requires comes { ComesNext log.old.held (record { entry = entry; cell = number_of write }) }
    requires fits { IsOp entry.op }
    requires short { length (logged (record { entry = entry; cell = number_of write })) ≤ log.old.block - 1 }
    requires log { D.tells → HasLog log.old (D.view disk.old) }
    requires durable { D.tells → IsDurable log.old.file (D.view disk.old) }
    requires format { cells.old.format ≡ 2 }
    requires writes { Writes write (left_by entry.op) }
    requires given { IsGivenTo write cells.old }
    requires may { MayWrite write cells.old }
    requires apart { log.old.file ≢ cells.old.file }
    requires within { D.tells
        → number_of write * unit_size cells.old.format ≤ length ((D.view disk.old).seen cells.old.file) }
    requires begun { IsBegun begun rows.old }
    ensures rows { OnOk result (rows.new ≡ finished begun rows.old) }
    ensures back { OnErr result (rows.new ≡ undone begun rows.old) }
    ensures crash { D.tells → (o : Found)
        → MayCommit log.old cells.old (record { entry = entry; cell = number_of write }) o (D.view disk.old)
        → LeavesOnly (D.view disk.old) (D.view disk.new)
        (IsUnderWay (record { entry = entry; cell = number_of write }) o) }
    ensures stands { D.tells → (o : Found)
        → MayCommit log.old cells.old (record { entry = entry; cell = number_of write }) o (D.view disk.old)
        → OnOk result (Holds (after (record { entry = entry; cell = number_of write }) o) (D.view disk.new)) }
    ensures file { D.tells → (o : Found)
        → MayCommit log.old cells.old (record { entry = entry; cell = number_of write }) o (D.view disk.old)
        → OnOk result (IsFileOf cells.new (after (record { entry = entry; cell = number_of write }) o).sheet
        ((D.view disk.new).seen cells.old.file)) }
    ensures others { D.tells → OnOk result
        ((g : ℕ) → g ≢ log.old.file → g ≢ cells.old.file → (D.view disk.new).seen g ≡ (D.view disk.old).seen g) }
    ensures log { D.tells → OnOk result (HasLog log.new (D.view disk.new)) }
    ensures durable { D.tells → OnOk result (IsDurable log.new.file (D.view disk.new)) }
    ensures held { OnOk result
        (log.new ≡ log_committed (with_prepared (Some (record { entry = entry; cell = number_of write })) log.old)) }
    ensures leads { (held : List Cell) → HoldsCells cells.old held → number_of write ≤ length held
        → OnOk result (HoldsCells cells.new (with_unit (unit_numbered (number_of write)) (left_by entry.op) held)) }
    ensures alike { OnErr result (HoldsAlike log.old log.new) }
    ensures err { OnErr result (cells.new ≡ cells.old) }
    ensures number { cells.new.file ≡ cells.old.file }
    ensures same_format { cells.new.format ≡ cells.old.format }
    ensures memory { result ≡ Err IsMemoryOut → disk.new ≡ disk.old }
    ensures call { IsCall D.Disk disk.old disk.new (result ≡ Err IsDiskFault) }
{
    match write_change(alloc, disk, log, cells, &entry, write) {
        Ok(()) => {
            drop(entry);
            rows.finish(begun);
            Ok(())
        }
        Err(halt) => {
            drop(entry);
            rows.undo(begun);
            Err(halt)
        }
    }
}

/// Makes the change in memory and on the disk. Memory is taken before the first device call. After an error
/// nothing of it is in memory.
pub(crate) fn change<D: Disk>(
    alloc: Global,
    disk: &mut D,
    log: &mut Log,
    cells: &mut Cells,
    rows: &mut Rows,
    op: Op,
    point: Point,
) -> Result<(), Halt>
    requires indexed { AreIndexed cells.old rows.old }
    requires op { IsOp (Some op) }
    requires room { IsRoom (effect (Some op) rows.old) }
    requires name { IsNewName op rows.old }
    requires serial { (d : Logged)
        → point.sno ≡ (slice_index_or log.old.held (length log.old.held - 1) d).entry.point.sno + 1 }
    requires time { (d : Logged)
        → micros (slice_index_or log.old.held (length log.old.held - 1) d).entry.point.time ≤ micros point.time }
    requires short { entry_len (Some op) ≤ log.old.block - 1 }
    requires format { cells.old.format ≡ 2 }
    requires apart { log.old.file ≢ cells.old.file }
    requires log { D.tells → HasLog log.old (D.view disk.old) }
    requires durable { D.tells → IsDurable log.old.file (D.view disk.old) }
    requires file { D.tells → (sheet : Sheet) × IsFileOf cells.old sheet ((D.view disk.old).seen cells.old.file) }
    ensures rows { OnOk result (rows.new ≡ effect (Some op) rows.old) }
    ensures back { OnErr result (rows.new ≡ rows.old) }
    ensures indexed { AreIndexed cells.new rows.new }
    ensures held { OnOk result (map entry_of log.new.held
        ≡ last_entries log.old.size (map entry_of log.old.held ++ record { point = point; op = Some op } ∷ [])) }
    ensures entered { OnOk result (HasEntered op point log.old log.new cells.old rows.old) }
    ensures alike { SameNumbers log.old log.new }
    ensures kept { OnErr result (HoldsAlike log.old log.new) }
    ensures number { cells.new.file ≡ cells.old.file }
    ensures same_format { cells.new.format ≡ cells.old.format }
    ensures crash { D.tells → (k : Kept) → StandsOn log.old cells.old rows.old k point (D.view disk.old)
        → LeavesOnly (D.view disk.old) (D.view disk.new)
        (LeavesPart (place_kept (with_parts log.old cells.old rows.old k))
        (committed op point.time (place_kept (with_parts log.old cells.old rows.old k)) ∷ [])) }
    ensures on { D.tells → (k : Kept) → StandsOn log.old cells.old rows.old k point (D.view disk.old)
        → OnOk result (IsOnDisk (with_parts log.new cells.new rows.new k) (D.view disk.new)) }
    ensures others { D.tells → OnOk result
        ((g : ℕ) → g ≢ log.old.file → g ≢ cells.old.file → (D.view disk.new).seen g ≡ (D.view disk.old).seen g) }
    ensures still { D.tells → (k : Kept) → StandsOn log.old cells.old rows.old k point (D.view disk.old)
        → result ≡ Err IsMemoryOut → IsOnDisk (with_parts log.new cells.new rows.new k) (D.view disk.new) }
    ensures memory { result ≡ Err IsMemoryOut → disk.new ≡ disk.old }
    ensures call { IsCall D.Disk disk.old disk.new (result ≡ Err IsDiskFault) }
{
    holds_rows(rows);
    entries_have_their_lengths();
    match begin_change(alloc, cells, rows, op, point) {
        Ok(
            Planned {
                entry,
                begun,
                write,
            },
        ) => { write_begun(alloc, disk, log, cells, rows, entry, begun, write) }
        Err(_) => Err(Halt::MemoryOut),
    }
}
