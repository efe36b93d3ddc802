//! The files of a database that is opened, read with the unit of the last entry passed over, and what is to
//! be written again. Nothing here changes a file.
ghost use Rattle.std.specs.Prelude.{◌≡◌, ◌≢◌, ◌≤◌, ℕ, List, Option, Some, None, true, false, IfOk, IfErr, Err};
ghost use Rattle.kdb_base.specs.declared.outcomes.Halt.{Halt as HaltOf};
ghost use Rattle.kdb_base.specs.declared.outcomes.Halt.TheVariants.{DiskFault as IsDiskFault};
ghost use Rattle.kdb_base.specs.declared.outcomes.Refusal.{Refusal as Refuses};
ghost use Rattle.kdb_base.specs.declared.outcomes.Refusal.TheVariants.{Damaged as IsDamagedAt};
ghost use Rattle.kdb_base.specs.declared.outcomes.Stop.TheVariants.{Refused, Halt as Halts};
ghost use Rattle.kdb_disk.specs.Files.{Files};
ghost use Rattle.kdb_disk.specs.Frames.{IsCall};
ghost use Rattle.kdb_disk.specs.Moments.{Keeps, IsSettled};
ghost use Rattle.kdb_disk.specs.View.{View};
ghost use Rattle.update_log.specs.Moments.{HasLog};
ghost use Rattle.update_log.specs.Slots.{slot_of};
ghost use Rattle.kdb_cells.specs.Cells.{Cell};
ghost use Rattle.kdb_cells.specs.CellFiles.{units};
ghost use Rattle.kdb_cells.specs.Scanning.{IsDamage};
ghost use Rattle.store_files.specs.Found.{unit_numbered as unit_of_number, unit_changed, left_by};
ghost use Rattle.store_files.specs.Found.{is_placed as is_placed_in, last_place, found_in};
ghost use Rattle.store_opening.specs.Looking.{last_read, IsHeaded, IsHeadOf, IsFitting, AreCells, AreFitting};
ghost use Rattle.store_opening.specs.Looking.{sheet_read, IsAgain, IsLooked, AreLooked, StopsOpening};
ghost use Rattle.store_opening.specs.Redoing.{AreUnits, IsLookedAt};

use crate::leaving::left_write;
use crate::parts::Parts;
use crate::reading::{holds_files, may_have_unit, read_control, read_stash};
use crate::redoing::{is_placed, rows_after};
use crate::unit_writes::UnitWrite;
use kdb_base::{Blob, Halt, MemoryOut, Refusal, Stop};
use kdb_cells::{Cells, Scanned, scan};
use kdb_control::Control;
use kdb_disk::Disk;
use std::alloc::Global;
use update_log::Log;

/// The choice of files in force, and the log that it names.
#[derive(Drop)]
pub(crate) struct Headed {
    pub(crate) control: Control,
    pub(crate) log: Log,
}

/// What was read of a database, with its rows as they are once the last entry is done again, and what is to
/// be written for that.
#[derive(Drop)]
pub struct Again {
    pub parts: Parts,
    pub write: UnitWrite,
}

// What a log that cannot be read is refused by: its file is damaged.
fn log_stop(control: &Control, stop: Stop) -> Stop
    ensures same { (file place : ℕ) → stop ≡ Refused (IsDamagedAt file place) → result ≡ stop }
    ensures halted { (halt : HaltOf) → stop ≡ Halts halt → result ≡ stop }
    ensures damage { IsDamage result }
    ensures fault { result ≡ Halts IsDiskFault → stop ≡ Halts IsDiskFault }
{
    match stop {
        Stop::Refused(Refusal::Damaged { file, place }) => {
            Stop::Refused(Refusal::Damaged { file, place })
        }
        Stop::Refused(_) => Stop::Refused(Refusal::Damaged {
            file: control.log,
            place: 0,
        }),
        Stop::Halt(halt) => Stop::Halt(halt),
    }
}

// Reads what is in force, and the log.
fn read_log<D: Disk>(alloc: Global, disk: &mut D) -> Result<Headed, Stop>
    ensures headed { IfOk result (λ h. IsHeaded h.control h.log) }
    ensures read { D.tells → IfOk result (λ h. IsHeadOf h.control h.log (D.view disk.old).seen) }
    ensures log { D.tells → IsSettled (D.view disk.old) → IfOk result (λ h. HasLog h.log (D.view disk.new)) }
    ensures refused { D.tells → (r : Refuses) → result ≡ Err (Refused r) → found_in (D.view disk.old).seen ≡ Err r }
    ensures stops { IfErr result StopsOpening }
    ensures keeps { D.tells → Keeps (D.view disk.old) (D.view disk.new) }
    ensures call { IsCall D.Disk disk.old disk.new (result ≡ Err (Halts IsDiskFault)) }
{
    let control = match read_control(disk) {
        Ok(control) => control,
        Err(stop) => return Err(stop),
    };
    holds_files(&control);
    match Log::scan(alloc, disk, &control) {
        Ok(log) => {
            log.holds_journal();
            Ok(Headed { control, log })
        }
        Err(stop) => Err(log_stop(&control, stop)),
    }
}

// The unit of this number, where it is not 0.
fn unit_numbered(cell: u32) -> Option<u32>
    ensures { result ≡ unit_of_number cell }
{
    if cell == 0 { None } else { Some(cell) }
}

// The unit of the last entry, where it has one.
fn last_unit(control: &Control, log: &Log) -> Option<u32>
    ensures { result ≡ unit_changed (last_read control.now log.now) }
{
    unit_numbered(log.last_cell())
}

// The slot of the last entry.
#[tactic(auto, unfolding(update_log::specs::Slots::slot_of, kdb_control::specs::Choice::in_ranges))]
fn last_slot(control: &Control, log: &Log) -> u32
    requires serial { control.now.base.sno ≤ (last_read control.now log.now).entry.point.sno }
    ensures value { result ≡ slot_of control.now.base control.now.size (last_read control.now log.now).entry.point.sno }
    ensures small { result ≤ 10000 }
{
    (log.last().point.sno - control.base.sno) % (control.size + 1)
}

// The last entry's slot is damaged.
#[tactic(auto, unfolding(kdb_control::specs::Choice::in_ranges))]
fn last_damaged(control: &Control, log: &Log) -> Stop
    requires { IsHeaded control.now log.now }
    ensures value { result
        ≡ Refused (IsDamagedAt control.now.log (last_place control.now (last_read control.now log.now))) }
    ensures damage { IsDamage result }
{
    Stop::Refused(Refusal::Damaged {
        file: control.log,
        place: u64::from(last_slot(control, log)) * u64::from(control.block),
    })
}

// Reads the file of cells with the unit of the last entry passed over.
#[tactic(auto, unfolding(kdb_control::specs::Choice::in_ranges))]
fn scan_cells<D: Disk>(
    alloc: Global,
    disk: &mut D,
    control: &Control,
    log: &Log,
) -> Result<Scanned, Stop>
    requires headed { IsHeaded control.now log.now }
    ensures file { IfOk result (λ s. s.cells.file ≡ control.now.image) }
    ensures format { IfOk result (λ s. s.cells.format ≡ control.now.format) }
    ensures cells { IfOk result
        (λ s. AreCells D.tells control.now (last_read control.now log.now) s (D.view disk.old).seen) }
    ensures refused { D.tells → IsHeadOf control.now log.now (D.view disk.old).seen → (r : Refuses)
        → result ≡ Err (Refused r) → found_in (D.view disk.old).seen ≡ Err r }
    ensures damage { IfErr result IsDamage }
    ensures keeps { D.tells → Keeps (D.view disk.old) (D.view disk.new) }
    ensures call { IsCall D.Disk disk.old disk.new (result ≡ Err (Halts IsDiskFault)) }
{
    let within = match may_have_unit(disk, control, log.last_cell()) {
        Ok(within) => within,
        Err(_) => return Err(Stop::Halt(Halt::DiskFault)),
    };
    if !within {
        return Err(last_damaged(control, log));
    }
    scan(
        alloc,
        disk,
        control.image,
        control.format,
        last_unit(control, log),
    )
}

// Whether this unit was given for the change that comes next.
fn is_given(cells: &Cells, unit: Option<u32>) -> bool
    ensures yes { result ≡ true → (units cells.now).placed ≡ unit }
    ensures no { result ≡ false → (units cells.now).placed ≢ unit }
{
    cells.given() == unit
}

// Whether the unit of the last entry was passed over, and what the entry leaves may stand in it.
fn is_fitting(control: &Control, log: &Log, cells: &Cells) -> bool
    requires headed { IsHeaded control.now log.now }
    ensures given { result ≡ true → (units cells.now).placed ≡ unit_changed (last_read control.now log.now) }
    ensures placed { (all : List Cell) → AreUnits control.now.format cells.now all → result ≡ true → is_placed_in
        (unit_changed (last_read control.now log.now)) (left_by (last_read control.now log.now).entry.op) all ≡ true }
    ensures unplaced { (all : List Cell) → AreUnits control.now.format cells.now all
        → (units cells.now).placed ≡ unit_changed (last_read control.now log.now) → result ≡ false → is_placed_in
        (unit_changed (last_read control.now log.now)) (left_by (last_read control.now log.now).entry.op) all ≡ false }
{
    let unit = last_unit(control, log);
    if !is_given(cells, unit) {
        return false;
    }
    is_placed(cells, unit, &log.last().op)
}

// Reads the file of cells, in which what the last entry leaves may stand.
fn read_cells<D: Disk>(
    alloc: Global,
    disk: &mut D,
    control: &Control,
    log: &Log,
) -> Result<Scanned, Stop>
    requires headed { IsHeaded control.now log.now }
    ensures cells { IfOk result
        (λ s. AreFitting D.tells control.now (last_read control.now log.now) s (D.view disk.old).seen) }
    ensures refused { D.tells → IsHeadOf control.now log.now (D.view disk.old).seen → (r : Refuses)
        → result ≡ Err (Refused r) → found_in (D.view disk.old).seen ≡ Err r }
    ensures damage { IfErr result IsDamage }
    ensures keeps { D.tells → Keeps (D.view disk.old) (D.view disk.new) }
    ensures call { IsCall D.Disk disk.old disk.new (result ≡ Err (Halts IsDiskFault)) }
{
    let scanned = match scan_cells(alloc, disk, control, log) {
        Ok(scanned) => scanned,
        Err(stop) => return Err(stop),
    };
    if !is_fitting(control, log, &scanned.cells) {
        return Err(last_damaged(control, log));
    }
    Ok(scanned)
}

// What was read, with all that it wants of memory to do the last entry again.
fn plan_again(
    alloc: Global,
    control: Control,
    log: Log,
    scanned: Scanned,
    stash: Option<Blob>,
) -> Result<Again, MemoryOut>
    requires headed { IsHeaded control log }
    requires fitting { (cells : List Cell) × IsFitting control (last_read control log) scanned cells }
    ensures again { (cells : List Cell) → IsFitting control (last_read control log) scanned cells
        → IfOk result (λ a. IsAgain a cells) }
    ensures looked { (cells : List Cell) (files : Files)
        → IsLookedAt control log.held (last_read control log) (sheet_read scanned cells) stash files
        → IfOk result (λ a. IsLooked a cells files) }
    ensures log { IfOk result (λ a. a.parts.log ≡ log) }
{
    let write = match left_write(alloc, log.last(), log.last_cell()) {
        Ok(write) => write,
        Err(fault) => {
            drop(scanned);
            drop(log);
            return Err(fault);
        }
    };
    let Scanned {
        cells,
        realm,
        princs,
        policies,
    } = scanned;
    let rows = match rows_after(alloc, &log.last().op, princs, policies) {
        Ok(rows) => rows,
        Err(fault) => {
            drop(cells);
            drop(log);
            return Err(fault);
        }
    };
    Ok(Again {
        parts: Parts {
            control,
            log,
            cells,
            rows,
            realm,
            stash,
        },
        write,
    })
}

/// Reads the files of a database in their order: the control file, the log, the number of the last entry's
/// unit, the cells with that unit passed over, the last entry against them, and the stash.
pub(crate) fn look<D: Disk>(alloc: Global, disk: &mut D) -> Result<Again, Stop>
    ensures looked { IfOk result (λ a. AreLooked D.tells a (D.view disk.old).seen) }
    ensures log { D.tells → IsSettled (D.view disk.old) → IfOk result (λ a. HasLog a.parts.log (D.view disk.new)) }
    ensures refused { D.tells → (r : Refuses) → result ≡ Err (Refused r) → found_in (D.view disk.old).seen ≡ Err r }
    ensures stops { IfErr result StopsOpening }
    ensures keeps { D.tells → Keeps (D.view disk.old) (D.view disk.new) }
    ensures call { IsCall D.Disk disk.old disk.new (result ≡ Err (Halts IsDiskFault)) }
{
    let Headed { control, log } = match read_log(alloc, disk) {
        Ok(headed) => headed,
        Err(stop) => return Err(stop),
    };
    let scanned = match read_cells(alloc, disk, &control, &log) {
        Ok(scanned) => scanned,
        Err(stop) => {
            drop(log);
            return Err(stop);
        }
    };
    let stash = match read_stash(alloc, disk, &control) {
        Ok(stash) => stash,
        Err(halt) => {
            drop(scanned);
            drop(log);
            return Err(Stop::Halt(halt));
        }
    };
    match plan_again(alloc, control, log, scanned, stash) {
        Ok(again) => Ok(again),
        Err(_) => Err(Stop::Halt(Halt::MemoryOut)),
    }
}
