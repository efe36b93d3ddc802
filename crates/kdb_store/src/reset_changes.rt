//! The log of a database begun anew, with a change behind it.
ghost use Rattle.std.specs.Prelude.{◌≡◌, ◌≢◌, ◌≤◌, ◌<◌, ◌-◌, ◌*◌, ◌∷◌, [], List, ℕ, Some};
ghost use Rattle.std.specs.Prelude.{Err, IfOk, OnOk, OnErr, IsErr, length, map};
ghost use Rattle.kdb_base.specs.Moment.{Moment};
ghost use Rattle.kdb_base.specs.Moments.{micros};
ghost use Rattle.kdb_base.specs.declared.outcomes.Halt.TheVariants.{MemoryOut as IsMemoryOut, DiskFault as IsDiskFault};
ghost use Rattle.kdb_disk.specs.View.{View};
ghost use Rattle.kdb_disk.specs.Frames.{IsCall};
ghost use Rattle.kdb_disk.specs.Moments.{LeavesOnly};
ghost use Rattle.kdb_control.specs.declared.force.Force.TheVariants.{Is};
ghost use Rattle.kdb_control.specs.Moments.{HasInForce};
ghost use Rattle.princ_rows.specs.Entries.{IsOp, entry_len, logged};
ghost use Rattle.princ_rows.specs.declared.entries.Op.{Op as IsChangeOp};
ghost use Rattle.princ_rows.specs.Effects.{effect, IsRoom};
ghost use Rattle.princ_rows.specs.Undoing.{IsNewName, IsBegun, finished, undone};
ghost use Rattle.update_log.specs.Logs.{ComesNext, begun, marker_of, with_prepared, log_committed, entry_of};
ghost use Rattle.update_log.specs.Moments.{IsBodyFor};
ghost use Rattle.kdb_cells.specs.Cells.{Cell, unit_size};
ghost use Rattle.kdb_places.specs.Places.{base_marker, change, last_entries, committed, log_anew};
ghost use Rattle.store_files.specs.Found.{unit_numbered, left_by, with_unit};
ghost use Rattle.store_files.specs.Kept.{Kept, AreIndexed, IsOnDisk, place_kept, with_parts};
ghost use Rattle.store_files.specs.Recovery.{LeavesPart};
ghost use Rattle.store_files.specs.Switches.{IsSpareFor, reset_choice};
ghost use Rattle.store_switches.specs.Switched.{with_log, IsUnder};
ghost use Rattle.kdb_store.specs.Anew.{IsBehind, point_behind};
ghost use Rattle.kdb_store.specs.Parts.{SameNumbers};
ghost use Rattle.kdb_store.specs.Writes.{number_of, Writes, IsGivenTo, MayWrite, HasEntered, HoldsCells};

use crate::changing::{Planned, begin_change, holds_rows};
use crate::disk_changes::write_prepared;
use kdb_base::{Halt, MemoryOut, Point, Time};
use kdb_cells::Cells;
use kdb_control::Control;
use kdb_disk::{Disk, DiskFailed};
use princ_rows::entry_laws::entries_have_their_lengths;
use princ_rows::{Begun, Entry, Op, Rows};
use std::alloc::Global;
use store_opening::UnitWrite;
use store_switches::controls::log_file;
use store_switches::{reset_control, reset_files};
use update_log::{Log, NewLog};

/// A log that is to be begun anew with an entry behind its marker, with all that it wants of memory.
#[derive(Drop)]
pub struct Anew {
    // the log's file as it is begun
    marker: NewLog,
    // the log with the entry prepared
    log: Log,
    // what is written for the entry
    body: Vec<u8>,
}

// Begins the log anew in memory, and prepares this entry behind its marker.
fn ready_anew(
    alloc: Global,
    file: u8,
    base: Point,
    size: u32,
    block: u32,
    entry: &Entry,
    cell: u32,
) -> Result<Anew, MemoryOut>
    requires file { (3 ≤ file) × (file ≤ 4) }
    requires size { (2 ≤ size) × (size ≤ 10000) }
    requires block { (2048 ≤ block) × (block ≤ 16384) }
    requires comes { ComesNext (marker_of base ∷ []) (record { entry = entry.now; cell = cell }) }
    requires fits { IsOp entry.now.op }
    requires short { length (logged (record { entry = entry.now; cell = cell })) ≤ block - 1 }
    ensures marker { IfOk result (λ a. a.marker ≡ begun file base size block) }
    ensures log { IfOk result
        (λ a. a.log ≡ with_prepared (Some (record { entry = entry.now; cell = cell })) (begun file base size block)) }
    ensures body { IfOk result (λ a. IsBodyFor (record { entry = entry.now; cell = cell }) block a.body.items) }
{
    let marker = NewLog::new(alloc, file, base, size, block, None)?;
    let mut log = marker.to_log(alloc)?;
    let body = log.ready(alloc, entry, cell)?;
    Ok(Anew { marker, log, body })
}

// Writes the log as it is begun, puts the choice that names it into force, and makes the change behind it.
fn write_anew<D: Disk>(
    disk: &mut D,
    now: &Control,
    next: &Control,
    marker: &NewLog,
    log: &mut Log,
    cells: &mut Cells,
    entry: &Entry,
    body: &[u8],
    write: UnitWrite,
) -> Result<(), DiskFailed>
    requires kept { D.tells → (k : Kept) × IsUnder now.now k (D.view disk.old) }
    requires older { now.now.format ≡ 2 }
    requires next { next.now ≡ reset_choice next.now.log next.now.base next.now.size next.now.block now.now }
    requires spare { IsSpareFor now.now next.now.log }
    requires size { 0 < next.now.size }
    requires marker { marker.now ≡ begun next.now.log next.now.base next.now.size next.now.block }
    requires log { log.old ≡ with_prepared (Some (record { entry = entry.now; cell = number_of write }))
        (begun next.now.log next.now.base next.now.size next.now.block) }
    requires body { IsBodyFor (record { entry = entry.now; cell = number_of write }) next.now.block body.now }
    requires format { cells.old.format ≡ 2 }
    requires image { cells.old.file ≡ now.now.image }
    requires writes { Writes write (left_by entry.now.op) }
    requires given { IsGivenTo write cells.old }
    requires may { MayWrite write cells.old }
    requires within { D.tells
        → number_of write * unit_size cells.old.format ≤ length ((D.view disk.old).seen cells.old.file) }
    ensures crash { D.tells → (k : Kept) (op : IsChangeOp) (time : Moment)
        → IsBehind now.now next.now.base time k cells.old entry.now write op (D.view disk.old)
        → LeavesOnly (D.view disk.old) (D.view disk.new) (LeavesPart (place_kept k)
        (log_anew next.now.base next.now.size next.now.block (place_kept k)
        ∷ committed op time (log_anew next.now.base next.now.size next.now.block (place_kept k)) ∷ [])) }
    ensures on { D.tells → (k : Kept) (op : IsChangeOp) (time : Moment)
        → IsBehind now.now next.now.base time k cells.old entry.now write op (D.view disk.old)
        → OnOk result (IsOnDisk (with_parts log.new cells.new (effect (Some op) k.rows) (with_log next.now log.new k))
        (D.view disk.new)) }
    ensures others { D.tells → OnOk result ((g : ℕ) → g ≢ 0 → g ≢ next.now.log → g ≢ cells.old.file
        → (D.view disk.new).seen g ≡ (D.view disk.old).seen g) }
    ensures held { OnOk result (log.new ≡ log_committed log.old) }
    ensures leads { (held : List Cell) → HoldsCells cells.old held → number_of write ≤ length held
        → OnOk result (HoldsCells cells.new (with_unit (unit_numbered (number_of write)) (left_by entry.now.op) held)) }
    ensures err { OnErr result (cells.new ≡ cells.old) }
    ensures number { cells.new.file ≡ cells.old.file }
    ensures same_format { cells.new.format ≡ cells.old.format }
    ensures call { IsCall D.Disk disk.old disk.new (IsErr result) }
{
    reset_files(disk, now, next, marker)?;
    write_prepared(disk, log, cells, entry, body, write)
}

// Puts a log that was begun anew into force with the change behind it, and gives it.
fn put_anew<D: Disk>(
    disk: &mut D,
    now: &Control,
    next: &Control,
    marker: &NewLog,
    mut log: Log,
    cells: &mut Cells,
    entry: &Entry,
    body: &[u8],
    write: UnitWrite,
) -> Result<Log, DiskFailed>
    requires kept { D.tells → (k : Kept) × IsUnder now.now k (D.view disk.old) }
    requires older { now.now.format ≡ 2 }
    requires next { next.now ≡ reset_choice next.now.log next.now.base next.now.size next.now.block now.now }
    requires spare { IsSpareFor now.now next.now.log }
    requires size { 0 < next.now.size }
    requires marker { marker.now ≡ begun next.now.log next.now.base next.now.size next.now.block }
    requires log { log ≡ with_prepared (Some (record { entry = entry.now; cell = number_of write }))
        (begun next.now.log next.now.base next.now.size next.now.block) }
    requires body { IsBodyFor (record { entry = entry.now; cell = number_of write }) next.now.block body.now }
    requires format { cells.old.format ≡ 2 }
    requires image { cells.old.file ≡ now.now.image }
    requires writes { Writes write (left_by entry.now.op) }
    requires given { IsGivenTo write cells.old }
    requires may { MayWrite write cells.old }
    requires within { D.tells
        → number_of write * unit_size cells.old.format ≤ length ((D.view disk.old).seen cells.old.file) }
    ensures crash { D.tells → (k : Kept) (op : IsChangeOp) (time : Moment)
        → IsBehind now.now next.now.base time k cells.old entry.now write op (D.view disk.old)
        → LeavesOnly (D.view disk.old) (D.view disk.new) (LeavesPart (place_kept k)
        (log_anew next.now.base next.now.size next.now.block (place_kept k)
        ∷ committed op time (log_anew next.now.base next.now.size next.now.block (place_kept k)) ∷ [])) }
    ensures on { D.tells → (k : Kept) (op : IsChangeOp) (time : Moment)
        → IsBehind now.now next.now.base time k cells.old entry.now write op (D.view disk.old)
        → IfOk result (λ log.
        IsOnDisk (with_parts log cells.new (effect (Some op) k.rows) (with_log next.now log k)) (D.view disk.new)) }
    ensures others { D.tells → OnOk result ((g : ℕ) → g ≢ 0 → g ≢ next.now.log → g ≢ cells.old.file
        → (D.view disk.new).seen g ≡ (D.view disk.old).seen g) }
    ensures held { IfOk result (λ log. log ≡ log_committed (with_prepared (Some (record {
      entry = entry.now;
      cell = number_of write;
    })) (begun next.now.log next.now.base next.now.size next.now.block))) }
    ensures leads { (held : List Cell) → HoldsCells cells.old held → number_of write ≤ length held
        → OnOk result (HoldsCells cells.new (with_unit (unit_numbered (number_of write)) (left_by entry.now.op) held)) }
    ensures err { OnErr result (cells.new ≡ cells.old) }
    ensures number { cells.new.file ≡ cells.old.file }
    ensures same_format { cells.new.format ≡ cells.old.format }
    ensures call { IsCall D.Disk disk.old disk.new (IsErr result) }
{
    match write_anew(disk, now, next, marker, &mut log, cells, entry, body, write) {
        Ok(()) => Ok(log),
        Err(failed) => Err(failed),
    }
}

// Begins the log anew at this base with a change behind it, in memory and on the disk. Memory is taken before
// the first device call. After an error the choice and the log are in memory what they were.
fn reset_parts<D: Disk>(
    alloc: Global,
    disk: &mut D,
    control: &mut Control,
    log: &mut Log,
    cells: &mut Cells,
    entry: &Entry,
    write: UnitWrite,
    base: Point,
    size: u32,
    block: u32,
) -> Result<(), Halt>
    requires kept { D.tells → (k : Kept) × IsUnder control.old k (D.view disk.old) }
    requires older { control.old.format ≡ 2 }
    requires size { (2 ≤ size) × (size ≤ 10000) }
    requires block { (2048 ≤ block) × (block ≤ 16384) }
    requires comes { ComesNext (marker_of base ∷ []) (record { entry = entry.now; cell = number_of write }) }
    requires fits { IsOp entry.now.op }
    requires short { length (logged (record { entry = entry.now; cell = number_of write })) ≤ block - 1 }
    requires format { cells.old.format ≡ 2 }
    requires image { cells.old.file ≡ control.old.image }
    requires writes { Writes write (left_by entry.now.op) }
    requires given { IsGivenTo write cells.old }
    requires may { MayWrite write cells.old }
    requires within { D.tells
        → number_of write * unit_size cells.old.format ≤ length ((D.view disk.old).seen cells.old.file) }
    ensures crash { D.tells → (k : Kept) (op : IsChangeOp) (time : Moment)
        → IsBehind control.old base time k cells.old entry.now write op (D.view disk.old)
        → LeavesOnly (D.view disk.old) (D.view disk.new) (LeavesPart (place_kept k)
        (log_anew base size block (place_kept k) ∷ committed op time (log_anew base size block (place_kept k)) ∷ [])) }
    ensures on { D.tells → (k : Kept) (op : IsChangeOp) (time : Moment)
        → IsBehind control.old base time k cells.old entry.now write op (D.view disk.old)
        → OnOk result (IsOnDisk
        (with_parts log.new cells.new (effect (Some op) k.rows) (with_log control.new log.new k)) (D.view disk.new)) }
    ensures others { D.tells → OnOk result ((g : ℕ) → g ≢ 0 → g ≢ control.new.log → g ≢ cells.old.file
        → (D.view disk.new).seen g ≡ (D.view disk.old).seen g) }
    ensures control { OnOk result (control.new ≡ reset_choice control.new.log base size block control.old) }
    ensures held { OnOk result (log.new ≡ log_committed (with_prepared (Some (record {
      entry = entry.now;
      cell = number_of write;
    })) (begun control.new.log base size block))) }
    ensures same_control { OnErr result (control.new ≡ control.old) }
    ensures same_log { OnErr result (log.new ≡ log.old) }
    ensures leads { (held : List Cell) → HoldsCells cells.old held → number_of write ≤ length held
        → OnOk result (HoldsCells cells.new (with_unit (unit_numbered (number_of write)) (left_by entry.now.op) held)) }
    ensures err { OnErr result (cells.new ≡ cells.old) }
    ensures number { cells.new.file ≡ cells.old.file }
    ensures same_format { cells.new.format ≡ cells.old.format }
    ensures memory { result ≡ Err IsMemoryOut → disk.new ≡ disk.old }
    ensures call { IsCall D.Disk disk.old disk.new (result ≡ Err IsDiskFault) }
{
    let next = reset_control(control, &base, size, block);
    match ready_anew(
        alloc,
        log_file(&next),
        base,
        size,
        block,
        entry,
        write.number(),
    ) {
        Ok(
            Anew {
                marker,
                log: fresh,
                body,
            },
        ) => match put_anew(
            disk, control, &next, &marker, fresh, cells, entry, &body, write,
        ) {
            Ok(put) => {
                *control = next;
                *log = put;
                Ok(())
            }
            Err(_) => Err(Halt::DiskFault),
        },
        Err(_) => Err(Halt::MemoryOut),
    }
}

// Begins the log anew with a change that was begun in the rows, and finishes it there or takes it back.
fn reset_begun<D: Disk>(
    alloc: Global,
    disk: &mut D,
    control: &mut Control,
    log: &mut Log,
    cells: &mut Cells,
    rows: &mut Rows,
    entry: Entry,
    under_way: Begun,
    write: UnitWrite,
    base: Point,
    size: u32,
    block: u32,
) -> Result<(), Halt>
    requires kept { D.tells → (k : Kept) × IsUnder control.old k (D.view disk.old) }
    requires older { control.old.format ≡ 2 }
    requires size { (2 ≤ size) × (size ≤ 10000) }
    requires block { (2048 ≤ block) × (block ≤ 16384) }
    requires comes { ComesNext (marker_of base ∷ []) (record { entry = entry; cell = number_of write }) }
    requires fits { IsOp entry.op }
    requires short { length (logged (record { entry = entry; cell = number_of write })) ≤ block - 1 }
    requires format { cells.old.format ≡ 2 }
    requires image { cells.old.file ≡ control.old.image }
    requires writes { Writes write (left_by entry.op) }
    requires given { IsGivenTo write cells.old }
    requires may { MayWrite write cells.old }
    requires within { D.tells
        → number_of write * unit_size cells.old.format ≤ length ((D.view disk.old).seen cells.old.file) }
    requires begun { IsBegun under_way rows.old }
    ensures rows { OnOk result (rows.new ≡ finished under_way rows.old) }
    ensures back { OnErr result (rows.new ≡ undone under_way rows.old) }
    ensures crash { D.tells → (k : Kept) (op : IsChangeOp) (time : Moment)
        → IsBehind control.old base time k cells.old entry write op (D.view disk.old)
        → LeavesOnly (D.view disk.old) (D.view disk.new) (LeavesPart (place_kept k)
        (log_anew base size block (place_kept k) ∷ committed op time (log_anew base size block (place_kept k)) ∷ [])) }
    ensures on { D.tells → (k : Kept) (op : IsChangeOp) (time : Moment)
        → IsBehind control.old base time k cells.old entry write op (D.view disk.old)
        → OnOk result (IsOnDisk
        (with_parts log.new cells.new (effect (Some op) k.rows) (with_log control.new log.new k)) (D.view disk.new)) }
    ensures others { D.tells → OnOk result ((g : ℕ) → g ≢ 0 → g ≢ control.new.log → g ≢ cells.old.file
        → (D.view disk.new).seen g ≡ (D.view disk.old).seen g) }
    ensures control { OnOk result (control.new ≡ reset_choice control.new.log base size block control.old) }
    ensures held { OnOk result (log.new ≡ log_committed (with_prepared (Some (record {
      entry = entry;
      cell = number_of write;
    })) (begun control.new.log base size block))) }
    ensures same_control { OnErr result (control.new ≡ control.old) }
    ensures same_log { OnErr result (log.new ≡ log.old) }
    ensures leads { (held : List Cell) → HoldsCells cells.old held → number_of write ≤ length held
        → OnOk result (HoldsCells cells.new (with_unit (unit_numbered (number_of write)) (left_by entry.op) held)) }
    ensures err { OnErr result (cells.new ≡ cells.old) }
    ensures number { cells.new.file ≡ cells.old.file }
    ensures same_format { cells.new.format ≡ cells.old.format }
    ensures memory { result ≡ Err IsMemoryOut → disk.new ≡ disk.old }
    ensures call { IsCall D.Disk disk.old disk.new (result ≡ Err IsDiskFault) }
{
    match reset_parts(
        alloc, disk, control, log, cells, &entry, write, base, size, block,
    ) {
        Ok(()) => {
            drop(entry);
            rows.finish(under_way);
            Ok(())
        }
        Err(halt) => {
            drop(entry);
            rows.undo(under_way);
            Err(halt)
        }
    }
}

// The point of the change behind this base, at this time.
pub(crate) fn behind(base: &Point, time: Time) -> Point
    requires { base.now.sno < 4294967295 }
    ensures { result ≡ point_behind base.now time }
{
    Point {
        sno: base.sno + 1,
        time,
    }
}

/// Begins the log anew at this base and makes the change behind it, at this time, in memory and on the disk. Memory is
/// taken before the first device call. After an error nothing of it is in memory.
pub(crate) fn reset_change<D: Disk>(
    alloc: Global,
    disk: &mut D,
    control: &mut Control,
    log: &mut Log,
    cells: &mut Cells,
    rows: &mut Rows,
    base: Point,
    block: u32,
    op: Op,
    time: Time,
) -> Result<(), Halt>
    requires on { D.tells
        → (k : Kept) × IsUnder control.old (with_parts log.old cells.old rows.old k) (D.view disk.old) }
    requires indexed { AreIndexed cells.old rows.old }
    requires older { control.old.format ≡ 2 }
    requires block { (2048 ≤ block) × (block ≤ 16384) }
    requires op { IsOp (Some op) }
    requires room { IsRoom (effect (Some op) rows.old) }
    requires name { IsNewName op rows.old }
    requires serial { base.sno < 4294967295 }
    requires time { micros base.time ≤ micros time }
    requires short { entry_len (Some op) ≤ block - 1 }
    requires format { cells.old.format ≡ 2 }
    requires image { cells.old.file ≡ control.old.image }
    ensures rows { OnOk result (rows.new ≡ effect (Some op) rows.old) }
    ensures back { OnErr result (rows.new ≡ rows.old) }
    ensures indexed { AreIndexed cells.new rows.new }
    ensures control { OnOk result (control.new ≡ reset_choice control.new.log base control.old.size block control.old) }
    ensures alike { OnOk result (SameNumbers (begun control.new.log base control.old.size block) log.new) }
    ensures held { OnOk result (map entry_of log.new.held
        ≡ last_entries control.old.size (base_marker base ∷ change op (point_behind base time) ∷ [])) }
    ensures entered { OnOk result (HasEntered op (point_behind base time)
        (begun control.new.log base control.old.size block) log.new cells.old rows.old) }
    ensures same_control { OnErr result (control.new ≡ control.old) }
    ensures same_log { OnErr result (log.new ≡ log.old) }
    ensures number { cells.new.file ≡ cells.old.file }
    ensures same_format { cells.new.format ≡ cells.old.format }
    ensures crash { D.tells → (k : Kept)
        → IsUnder control.old (with_parts log.old cells.old rows.old k) (D.view disk.old)
        → LeavesOnly (D.view disk.old) (D.view disk.new)
        (LeavesPart (place_kept (with_parts log.old cells.old rows.old k))
        (log_anew base control.old.size block (place_kept (with_parts log.old cells.old rows.old k)) ∷ committed op time
        (log_anew base control.old.size block (place_kept (with_parts log.old cells.old rows.old k))) ∷ [])) }
    ensures on { D.tells → (k : Kept) → IsUnder control.old (with_parts log.old cells.old rows.old k) (D.view disk.old)
        → OnOk result
        (IsOnDisk (with_parts log.new cells.new rows.new (with_log control.new log.new k)) (D.view disk.new)) }
    ensures others { D.tells → OnOk result ((g : ℕ) → g ≢ 0 → g ≢ control.new.log → g ≢ cells.old.file
        → (D.view disk.new).seen g ≡ (D.view disk.old).seen g) }
    ensures still { D.tells → (k : Kept)
        → IsUnder control.old (with_parts log.old cells.old rows.old k) (D.view disk.old)
        → result ≡ Err IsMemoryOut
        → IsOnDisk (with_parts log.new cells.new rows.new (with_log control.new log.new k)) (D.view disk.new) }
    ensures memory { result ≡ Err IsMemoryOut → disk.new ≡ disk.old }
    ensures call { IsCall D.Disk disk.old disk.new (result ≡ Err IsDiskFault) }
{
    holds_rows(rows);
    entries_have_their_lengths();
    let size = size_of(control);
    let point = behind(&base, time);
    match begin_change(alloc, cells, rows, op, point) {
        Ok(
            Planned {
                entry,
                begun,
                write,
            },
        ) => {
            reset_begun(
                alloc, disk, control, log, cells, rows, entry, begun, write, base, size, block,
            )
        }
        Err(_) => Err(Halt::MemoryOut),
    }
}

// How many entries the log of a choice holds at most.
#[tactic(auto, unfolding(kdb_control::specs::Choice::in_ranges))]
fn size_of(control: &Control) -> u32
    ensures value { result ≡ control.now.size }
    ensures range { (2 ≤ result) × (result ≤ 10000) }
{
    control.size
}
