//! The units of a file of cells, read one after the other.
ghost use Rattle.std.specs.Prelude.{◌≡◌, ◌≤◌, ◌<◌, ◌+◌, ◌*◌, ◌^◌, ℕ, List, true, false};
ghost use Rattle.std.specs.Prelude.{Some, None, Err, length, take, drop, IfOk, IfErr, OnOk};
ghost use Rattle.kdb_base.specs.declared.outcomes.Refusal.{Refusal as Refuses};
ghost use Rattle.kdb_base.specs.declared.outcomes.Refusal.TheVariants.{Damaged};
ghost use Rattle.kdb_base.specs.declared.outcomes.Stop.TheVariants.{Refused, Halt as Halts};
ghost use Rattle.kdb_base.specs.declared.outcomes.Halt.TheVariants.{DiskFault as IsDiskFault};
ghost use Rattle.kdb_disk.specs.Frames.{IsCall};
ghost use Rattle.kdb_disk.specs.Moments.{Keeps};
ghost use Rattle.kdb_disk.specs.Reader.{left_of, IsOver};
ghost use Rattle.kdb_disk.specs.View.{View};
ghost use Rattle.kdb_format.specs.Answers.{Finds};
ghost use Rattle.kdb_format.specs.declared.faults.FormatFault.TheVariants.{Malformed as IsMalformed};
ghost use Rattle.kdb_cells.specs.Cells.{Cell, IsCell, name_of, cell_of, unit_size as size_of_unit};
ghost use Rattle.kdb_cells.specs.Indexes.{units, count};
ghost use Rattle.kdb_cells.specs.Scanning.{skipping, is_torn as is_torn_unit, placed_at, cell_next};
ghost use Rattle.kdb_cells.specs.Scanning.{MaySkip, AreCellsIn, IsDamage, IsDamaged, IsGathered};
ghost use Rattle.kdb_cells.specs.Scanning.{IsMore, AreGathered, IsRefused, UnitAnswers};
ghost use Rattle.kdb_cells.specs.Sheets.{set_cell, count_of, realm_in};
ghost use Rattle.kdb_cells.specs.declared.units.StoredRow.{StoredRow as Stored};

use crate::cells::unit_size;
use crate::gathering::{Gathered, gather_first, gather_row};
use crate::units::{StoredRow, read_unit};
use kdb_base::{Halt, Refusal, Stop};
use kdb_disk::{Disk, FileReader};
use kdb_format::FormatFault;
use std::alloc::Global;
use std::cmp::min;

/// Whether the unit is the one that is passed over.
pub(crate) fn is_torn(torn: Option<u32>, unit: u64) -> bool
    ensures value { result ≡ is_torn_unit torn unit }
    ensures near { result ≡ true → unit ≤ 4294967295 }
{
    match torn {
        Some(torn) => u64::from(torn) == unit,
        None => false,
    }
}

// The unit at this number is damaged.
fn damaged(file: u8, format: u16, unit: u64) -> Stop
    requires { unit * size_of_unit format < 2 ^ 64 }
    ensures value { result ≡ Refused (Damaged file (unit * size_of_unit format)) }
    ensures damage { IsDamage result }
{
    Stop::Refused(Refusal::Damaged {
        file,
        place: unit * unit_size(format) as u64,
    })
}

// The cell that the bytes of a unit spell, or a free one where it is passed over.
fn read_or_skip(
    alloc: Global,
    format: u16,
    skips: bool,
    bytes: &[u8],
) -> Result<Option<StoredRow>, FormatFault>
    requires most { length bytes.now ≤ size_of_unit format }
    ensures found { Finds result (cell_next format skips bytes.now) }
    ensures stored { IfOk result (λ c. IsCell format c) }
    ensures none { skips ≡ true → IfOk result (λ c. c ≡ None) }
{
    if skips {
        return Ok(None);
    }
    if bytes.len() < unit_size(format) {
        return Err(FormatFault::Malformed);
    }
    read_unit(alloc, format, bytes)
}

// Reads the next unit.
fn read_next<D: Disk>(
    alloc: Global,
    disk: &mut D,
    file: u8,
    format: u16,
    skips: bool,
    unit: u64,
    reader: &mut FileReader,
) -> Result<Option<StoredRow>, Stop>
    requires fits { unit * size_of_unit format < 2 ^ 64 }
    requires over { D.tells → IsOver reader.old (D.view disk.old).seen }
    ensures found { D.tells → UnitAnswers result file (unit * size_of_unit format)
        (cell_next format skips (take (size_of_unit format) (left_of reader.old (D.view disk.old).seen))) }
    ensures damage { IfErr result IsDamage }
    ensures stored { IfOk result (λ c. IsCell format c) }
    ensures none { skips ≡ true → IfOk result (λ c. c ≡ None) }
    ensures left { D.tells → OnOk result (left_of reader.new (D.view disk.new).seen
        ≡ drop (size_of_unit format) (left_of reader.old (D.view disk.old).seen)) }
    ensures over { D.tells → IsOver reader.new (D.view disk.new).seen }
    ensures keeps { D.tells → Keeps (D.view disk.old) (D.view disk.new) }
    ensures call { IsCall D.Disk disk.old disk.new (result ≡ Err (Halts IsDiskFault)) }
{
    let size = unit_size(format);
    match reader.fill(disk, size) {
        Ok(()) => {}
        Err(halt) => return Err(Stop::Halt(halt)),
    }
    let count = min(size, reader.held().len());
    let cell = match read_or_skip(alloc, format, skips, &reader.held()[..count]) {
        Ok(cell) => cell,
        Err(FormatFault::Malformed) => return Err(damaged(file, format, unit)),
        Err(FormatFault::MemoryOut) => return Err(Stop::Halt(Halt::MemoryOut)),
    };
    reader.take(count);
    Ok(cell)
}

// Adds the cell of the next unit. Malformed where its row may not stand there.
fn gather_cell(
    alloc: Global,
    gathered: &mut Gathered,
    torn: Option<u32>,
    unit: u64,
    format: u16,
    cell: Option<StoredRow>,
) -> Result<(), FormatFault>
    requires end { unit + 1 < 2 ^ 64 }
    requires next { gathered.old.index.next ≡ unit }
    requires placed { gathered.old.index.placed ≡ placed_at torn unit }
    requires none { is_torn_unit torn unit ≡ true → cell ≡ None }
    requires stored { IsCell format cell }
    ensures gathered { (cells : List Cell) → IsGathered format (units gathered.old.index)
        (count gathered.old.index) gathered.old.princs.items gathered.old.policies.items cells
        → OnOk result (IsGathered format (units gathered.new.index) (count gathered.new.index) gathered.new.princs.items
        gathered.new.policies.items (set_cell (length cells) cell cells)) }
    ensures next { OnOk result (gathered.new.index.next ≡ unit + 1) }
    ensures placed { OnOk result (gathered.new.index.placed ≡ placed_at torn (unit + 1)) }
    ensures refused { result ≡ Err IsMalformed → (r : Stored)
        × ((cell ≡ Some r) × IsRefused (units gathered.old.index) (count gathered.old.index) (name_of r)) }
{
    match cell {
        Some(row) => gather_row(alloc, gathered, row),
        None => gather_none(gathered, torn, unit),
    }
}

// Adds the next unit, in which no row stands.
fn gather_none(gathered: &mut Gathered, torn: Option<u32>, unit: u64) -> Result<(), FormatFault>
    requires end { unit + 1 < 2 ^ 64 }
    requires next { gathered.old.index.next ≡ unit }
    requires placed { gathered.old.index.placed ≡ placed_at torn unit }
    ensures of { OnOk result ((units gathered.new.index).of ≡ (units gathered.old.index).of) }
    ensures count { OnOk result (count gathered.new.index ≡ count gathered.old.index) }
    ensures princs { gathered.new.princs.items ≡ gathered.old.princs.items }
    ensures policies { gathered.new.policies.items ≡ gathered.old.policies.items }
    ensures next { OnOk result (gathered.new.index.next ≡ unit + 1) }
    ensures placed { OnOk result (gathered.new.index.placed ≡ placed_at torn (unit + 1)) }
    ensures cause { result ≡ Err IsMalformed → ⊥ }
{
    if is_torn(torn, unit) {
        gathered.index.add_given()?;
    } else {
        gathered.index.add_free()?;
    }
    Ok(())
}

// Reads the next unit, and adds its cell.
fn gather_unit<D: Disk>(
    alloc: Global,
    disk: &mut D,
    file: u8,
    format: u16,
    torn: Option<u32>,
    unit: u64,
    reader: &mut FileReader,
    gathered: &mut Gathered,
) -> Result<(), Stop>
    requires first { 1 ≤ unit }
    requires end { unit + 1 < 2 ^ 64 }
    requires fits { unit * size_of_unit format < 2 ^ 64 }
    requires over { D.tells → IsOver reader.old (D.view disk.old).seen }
    requires left { D.tells
        → left_of reader.old (D.view disk.old).seen ≡ drop (unit * size_of_unit format) ((D.view disk.old).seen file) }
    requires torn { D.tells → MaySkip format torn ((D.view disk.old).seen file) }
    requires next { gathered.old.index.next ≡ unit }
    requires placed { gathered.old.index.placed ≡ placed_at torn unit }
    ensures gathered { (cells : List Cell) → length cells ≡ unit → IsGathered format (units gathered.old.index)
        (count gathered.old.index) gathered.old.princs.items gathered.old.policies.items cells
        → (D.tells → AreCellsIn format torn ((D.view disk.old).seen file) cells)
        → OnOk result (IsMore format torn D.tells ((D.view disk.old).seen file) (units gathered.new.index)
        (count gathered.new.index) gathered.new.princs.items gathered.new.policies.items cells) }
    ensures refused { D.tells → (cells : List Cell) → length cells ≡ unit → IsGathered format (units gathered.old.index)
        (count gathered.old.index) gathered.old.princs.items gathered.old.policies.items cells
        → AreCellsIn format torn ((D.view disk.old).seen file) cells
        → (realm : List ℕ) → realm_in format (skipping format torn ((D.view disk.old).seen file)) ≡ Some realm
        → unit < count_of format (skipping format torn ((D.view disk.old).seen file))
        → (r : Refuses) → result ≡ Err (Refused r) → IsDamaged file format torn ((D.view disk.old).seen file) r }
    ensures damage { IfErr result IsDamage }
    ensures next { OnOk result (gathered.new.index.next ≡ unit + 1) }
    ensures placed { OnOk result (gathered.new.index.placed ≡ placed_at torn (unit + 1)) }
    ensures left { D.tells → OnOk result (left_of reader.new (D.view disk.new).seen
        ≡ drop ((unit + 1) * size_of_unit format) ((D.view disk.old).seen file)) }
    ensures over { D.tells → IsOver reader.new (D.view disk.new).seen }
    ensures keeps { D.tells → Keeps (D.view disk.old) (D.view disk.new) }
    ensures call { IsCall D.Disk disk.old disk.new (result ≡ Err (Halts IsDiskFault)) }
{
    let skips = is_torn(torn, unit);
    let cell = match read_next(alloc, disk, file, format, skips, unit, reader) {
        Ok(cell) => cell,
        Err(stop) => return Err(stop),
    };
    match gather_cell(alloc, gathered, torn, unit, format, cell) {
        Ok(()) => Ok(()),
        Err(FormatFault::Malformed) => Err(damaged(file, format, unit)),
        Err(FormatFault::MemoryOut) => Err(Stop::Halt(Halt::MemoryOut)),
    }
}

/// Reads the units from 1 on, up to this one.
pub(crate) fn gather<D: Disk>(
    alloc: Global,
    disk: &mut D,
    file: u8,
    format: u16,
    torn: Option<u32>,
    end: u64,
    reader: &mut FileReader,
) -> Result<Gathered, Stop>
    requires low { (i : ℕ) → torn ≡ Some i → 1 ≤ i }
    requires first { 1 ≤ end }
    requires fits { end * size_of_unit format < 2 ^ 64 }
    requires over { D.tells → IsOver reader.old (D.view disk.old).seen }
    requires left { D.tells
        → left_of reader.old (D.view disk.old).seen ≡ drop (size_of_unit format) ((D.view disk.old).seen file) }
    requires torn { D.tells → MaySkip format torn ((D.view disk.old).seen file) }
    ensures gathered { IfOk result (λ g. AreGathered format torn D.tells ((D.view disk.old).seen file) (units g.index)
        (count g.index) g.princs.items g.policies.items end) }
    ensures placed { IfOk result (λ g. g.index.placed ≡ placed_at torn end) }
    ensures refused { D.tells → (realm : List ℕ) → realm_in format (skipping format torn ((D.view disk.old).seen file))
        ≡ Some realm → end ≤ count_of format (skipping format torn ((D.view disk.old).seen file))
        → (r : Refuses) → result ≡ Err (Refused r) → IsDamaged file format torn ((D.view disk.old).seen file) r }
    ensures damage { IfErr result IsDamage }
    ensures keeps { D.tells → Keeps (D.view disk.old) (D.view disk.new) }
    ensures call { IsCall D.Disk disk.old disk.new (result ≡ Err (Halts IsDiskFault)) }
{
    let mut gathered = gather_first(alloc);
    for unit in 1..end {
        match gather_unit(alloc, disk, file, format, torn, unit, reader, &mut gathered) {
            Ok(()) => {}
            Err(stop) => return Err(stop),
        }
    }
    Ok(gathered)
}
