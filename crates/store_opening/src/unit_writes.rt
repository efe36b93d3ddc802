//! What is written into a unit, on the disk.
ghost use Rattle.std.specs.Prelude.{◌≡◌, ◌≢◌, ◌≤◌, ◌*◌, List, ℕ, Some, None, Option, OnOk, OnErr, IsErr, length};
ghost use Rattle.kdb_disk.specs.Files.{Files};
ghost use Rattle.kdb_disk.specs.View.{View};
ghost use Rattle.kdb_disk.specs.Frames.{IsCall};
ghost use Rattle.kdb_disk.specs.Moments.{LeavesTorn, Stands};
ghost use Rattle.kdb_cells.specs.Cells.{Cell, unit_size, unit_text};
ghost use Rattle.kdb_cells.specs.CellFiles.{units, count};
ghost use Rattle.kdb_cells.specs.FileCells.{AreCellsOf, IsFileOf};
ghost use Rattle.kdb_cells.specs.Sheets.{Sheet, taken};
ghost use Rattle.store_files.specs.Found.{unit_numbered, with_unit};
ghost use Rattle.store_opening.specs.Writes.{number_of, WritesIn, IsGivenTo, MayWrite};
ghost use Rattle.store_opening.specs.Writes.{IsWritten, HoldsCells, changed_sheet};

use kdb_base::Blob;
use kdb_cells::Cells;
use kdb_disk::{Disk, DiskFailed};

/// What a change writes into the file of cells.
#[derive(Drop)]
pub enum UnitWrite {
    /// Nothing: it drops a row that is not there.
    Nothing,
    /// Into the unit of this number a row, by its key, its bytes and its kind.
    Put(u32, Blob, Blob, u8),
    /// The unit of this number is freed.
    Free(u32),
}

impl UnitWrite {
    /// The number of the unit, 0 for none.
    pub fn number(&self) -> u32
        ensures value { result ≡ number_of self.now }
    {
        match self {
            UnitWrite::Nothing => 0,
            UnitWrite::Put(cell, _, _, _) => *cell,
            UnitWrite::Free(cell) => *cell,
        }
    }
}

/// Writes what a change leaves into its unit, on the disk. It takes no memory, and makes two device calls.
///
/// At each moment a crash leaves all files as before, but for that unit.
pub fn write_unit<D: Disk>(
    disk: &mut D,
    cells: &mut Cells,
    write: UnitWrite,
) -> Result<(), DiskFailed>
    requires writes { (c : Cell) × WritesIn cells.old.format write c }
    requires given { IsGivenTo write cells.old }
    requires may { MayWrite write cells.old }
    requires within { D.tells
        → number_of write * unit_size cells.old.format ≤ length ((D.view disk.old).seen cells.old.file) }
    ensures crash { D.tells → LeavesTorn cells.old.file (number_of write * unit_size cells.old.format)
        (unit_size cells.old.format) (D.view disk.old) (D.view disk.new) }
    ensures written { D.tells → number_of write ≢ 0 → OnOk result
        (IsWritten cells.old.file (number_of write * unit_size cells.old.format) (D.view disk.old) (D.view disk.new)) }
    ensures stands { D.tells → (c : Cell) → WritesIn cells.old.format write c
        → number_of write ≢ 0 → OnOk result (Stands cells.old.file (number_of write * unit_size cells.old.format)
        (unit_text cells.old.format c) (D.view disk.old) (D.view disk.new)) }
    ensures nothing { number_of write ≡ 0 → disk.new ≡ disk.old }
    ensures file { D.tells → (c : Cell) (sheet : Sheet) → WritesIn cells.old.format write c
        → IsFileOf cells.old sheet ((D.view disk.old).seen cells.old.file) → OnOk result
        (IsFileOf cells.new (changed_sheet (number_of write) c sheet) ((D.view disk.new).seen cells.old.file)) }
    // The index leads to the cell that was written, whatever the disk tells.
    ensures leads { (c : Cell) (held : List Cell)
        → WritesIn cells.old.format write c → HoldsCells cells.old held → number_of write ≤ length held
        → OnOk result (HoldsCells cells.new (with_unit (unit_numbered (number_of write)) c held)) }
    ensures err { OnErr result (cells.new ≡ cells.old) }
    ensures number { cells.new.file ≡ cells.old.file }
    ensures same_format { cells.new.format ≡ cells.old.format }
    ensures call { IsCall D.Disk disk.old disk.new (IsErr result) }
{
    match write {
        UnitWrite::Nothing => Ok(()),
        UnitWrite::Put(cell, key, row, kind) => cells.put(disk, cell, key, row.as_slice(), kind),
        UnitWrite::Free(cell) => cells.take_out(disk, cell),
    }
}
