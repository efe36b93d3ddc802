//! A file of cells on a disk: a row is put into a unit or taken out of it by one write, so that a
//! crash leaves one unit torn and no other.
ghost use Rattle.std.specs.Prelude.{◌≡◌, ◌≢◌, ◌≤◌, ◌<◌, ◌+◌, ◌*◌, ◌^◌, ℕ, true, false};
ghost use Rattle.std.specs.Prelude.{List, Some, None, length, IfOk, OnOk, OnErr, IsErr};
ghost use Rattle.kdb_base.specs.Limits.{most_rows};
ghost use Rattle.kdb_disk.specs.View.{View};
ghost use Rattle.kdb_disk.specs.Frames.{IsCall};
ghost use Rattle.kdb_disk.specs.Moments.{LeavesTorn, Stands};
ghost use Rattle.kdb_format.specs.Spellings.{zeros as zeros_of};
ghost use Rattle.kdb_cells.specs.Cells.{unit_size as size_of_unit, unit_text, unit_with, IsRowText};
ghost use Rattle.kdb_cells.specs.Leads.{IsFree, IsLeastFree, no_units, giving, freed, leading};
ghost use Rattle.kdb_cells.specs.CellFiles.{is_image, is_format, units, count, place_of, unit_len};
ghost use Rattle.kdb_cells.specs.FileCells.{IsFileOf, with_cell};
ghost use Rattle.kdb_cells.specs.Sheets.{Sheet};
ghost use Rattle.kdb_cells.specs.declared.units.StoredRow.{StoredRow as Stored};

use crate::index::UnitIndex;
use crate::units::{clear_unit, fill_unit};
use kdb_base::{Blob, MemoryOut};
use kdb_disk::{Disk, DiskFailed, write_synced};
use std::alloc::Global;
use std::marker::Model;

/// The length of a unit in files of this format.
#[tactic(auto, unfolding(crate::specs::Cells::unit_size))]
pub fn unit_size(format: u16) -> usize
    ensures value { result ≡ size_of_unit format }
    ensures some { 0 < result }
    ensures small { result ≤ 16384 }
{
    if format == 1 { 8192 } else { 16384 }
}

/// A file of cells: which file it is, its format, and its units.
#[derive(Drop)]
pub struct Cells {
    file: u8,
    format: u16,
    index: UnitIndex,
    // the bytes of one unit
    page: Vec<u8>,
}

impl Model for Cells {
    ghost use Rattle.std.specs.Prelude.{◌≡◌, ◌<◌, length};
    ghost use Rattle.kdb_cells.specs.Cells.{unit_size};
    ghost use Rattle.kdb_cells.specs.CellFiles.{CellFile};

    ghost Value = { CellFile };

    ghost view = { λ c. record { file = c.file; format = c.format; index = c.index } };

    ghost invariant = { λ c. (c.file < 7) × (length c.page.items ≡ unit_size c.format) };
}

fn zeros(alloc: Global, len: usize) -> Result<Vec<u8>, MemoryOut>
    ensures { IfOk result (λ bytes. length bytes.items ≡ len) }
{
    let mut bytes = Vec::new(alloc);
    bytes.resize(len, 0)?;
    Ok(bytes)
}

// The place of a unit in the file.
fn unit_place(format: u16, unit: u32) -> u64
    ensures value { result ≡ unit * size_of_unit format }
    ensures small { result < 2 ^ 47 }
{
    u64::from(unit) * unit_size(format) as u64
}

// Writes the bytes of the row's unit over the page.
fn fill_page(page: &mut Vec<u8>, kind: u8, row: &[u8])
    requires counted { length row.now < 2 ^ 16 }
    requires room { 3 + length row.now ≤ length page.old.items }
    ensures bytes { page.new.items ≡ unit_with (length page.old.items) kind row.now }
    ensures long { length page.new.items ≡ length page.old.items }
{
    fill_unit(page, kind, row);
}

// Writes the bytes of a free unit over the page.
fn clear_page(page: &mut Vec<u8>)
    ensures bytes { page.new.items ≡ zeros_of (length page.old.items) }
    ensures long { length page.new.items ≡ length page.old.items }
{
    clear_unit(page);
}

impl Cells {
    /// The cells of a file that has its first unit alone, in which no row stands.
    ///
    /// `file` is 1 or 2, and `format` 1 or 2.
    pub fn new(alloc: Global, file: u8, format: u16) -> Result<Cells, MemoryOut>
        requires image { is_image file ≡ true }
        requires format { is_format format ≡ true }
        ensures file { IfOk result (λ cells. cells.file ≡ file) }
        ensures format { IfOk result (λ cells. cells.format ≡ format) }
        ensures units { IfOk result (λ cells. units cells ≡ no_units) }
    {
        let page = zeros(alloc, unit_size(format))?;
        Ok(Cells {
            file,
            format,
            index: UnitIndex::new(alloc),
            page,
        })
    }

    /// The cells of a file that has these units. `file` is 1 or 2.
    pub fn with_index(
        alloc: Global,
        file: u8,
        format: u16,
        index: UnitIndex,
    ) -> Result<Cells, MemoryOut>
        requires { is_image file ≡ true }
        ensures { IfOk result (λ cells. cells ≡ record { file = file; format = format; index = index }) }
    {
        let page = zeros(alloc, unit_size(format))?;
        Ok(Cells {
            file,
            format,
            index,
            page,
        })
    }

    /// The number of the file.
    pub fn file(&self) -> u8
        ensures { result ≡ self.now.file }
    {
        self.file
    }

    /// The file's format.
    pub fn format(&self) -> u16
        ensures { result ≡ self.now.format }
    {
        self.format
    }

    /// How many rows there are.
    pub fn len(&self) -> usize
        ensures { result ≡ count self.now }
    {
        self.index.len()
    }

    /// The unit that was given for the change that comes next.
    pub fn given(&self) -> Option<u32>
        ensures { result ≡ (units self.now).placed }
    {
        self.index.given()
    }

    /// Whether the key leads to a unit.
    pub fn holds(&self, key: &[u8]) -> bool
        ensures led { result ≡ true → (units self.now).of key.now ≢ None }
        ensures not_led { result ≡ false → (units self.now).of key.now ≡ None }
    {
        self.index.holds(key)
    }

    /// Gives a unit for the [`Cells::put`] or [`Cells::take_out`] that comes next: the key's own, or
    /// the least free one, or the first one past the file's end. What that call needs of memory is
    /// taken here.
    pub fn place(&mut self, key: &[u8]) -> Result<u32, MemoryOut>
        // at an error, no unit is given
        ensures err { OnErr result (units self.new ≡ giving None (units self.old)) }
        ensures ready { IfOk result (λ unit. units self.new ≡ giving (Some unit) (units self.old)) }
        ensures low { IfOk result (λ unit. 1 ≤ unit) }
        ensures high { IfOk result (λ unit. unit ≤ (units self.old).next) }
        ensures own { (i : ℕ) → (units self.old).of key.now ≡ Some i → IfOk result (λ unit. unit ≡ i) }
        ensures new { (units self.old).of key.now ≡ None → IfOk result (λ unit. IsLeastFree unit (units self.old)) }
        ensures count { count self.new ≡ count self.old }
        ensures file { self.new.file ≡ self.old.file }
        ensures format { self.new.format ≡ self.old.format }
    {
        self.index.place(key)
    }

    /// Writes a row into the unit that was given, on the disk. Then the key leads to the unit, and
    /// no other key does. It takes no memory, and makes two device calls.
    ///
    /// At each moment a crash leaves all files as before, but for that unit.
    pub fn put<D: Disk>(
        &mut self,
        disk: &mut D,
        cell: u32,
        key: Blob,
        row: &[u8],
        kind: u8,
    ) -> Result<(), DiskFailed>
        requires ready { (units self.old).placed ≡ Some cell }
        requires row { (r : Stored) × IsRowText self.old.format kind key row.now r }
        // the key leads to no other unit
        requires alone { (i : ℕ) → (units self.old).of key ≡ Some i → i ≡ cell }
        requires few { IsFree cell (units self.old) → count self.old < most_rows }
        requires within { D.tells → place_of cell self.old ≤ length ((D.view disk.old).seen self.old.file) }
        ensures moments { D.tells → LeavesTorn self.old.file (place_of cell self.old) (unit_len self.old)
            (D.view disk.old) (D.view disk.new) }
        ensures ok { (r : Stored) → IsRowText self.old.format kind key row.now r → D.tells
            → OnOk result (Stands self.old.file (place_of cell self.old) (unit_text self.old.format (Some r))
            (D.view disk.old) (D.view disk.new)) }
        ensures units { OnOk result (units self.new ≡ leading key cell (units self.old)) }
        ensures more { IsFree cell (units self.old) → OnOk result (count self.new ≡ count self.old + 1) }
        ensures as_many { (k : List ℕ) → (units self.old).of k ≡ Some cell
            → OnOk result (count self.new ≡ count self.old) }
        // What the index says stays so of the file, which holds the row in place of what the unit held.
        ensures keeps { (r : Stored) (sheet : Sheet) → IsRowText self.old.format kind key row.now r → 1 ≤ cell
            → D.tells → IsFileOf self.old sheet ((D.view disk.old).seen self.old.file)
            → OnOk result (IsFileOf self.new (with_cell cell (Some r) sheet) ((D.view disk.new).seen self.old.file)) }
        ensures err { OnErr result (self.new ≡ self.old) }
        ensures file { self.new.file ≡ self.old.file }
        ensures format { self.new.format ≡ self.old.format }
        ensures call { IsCall D.Disk disk.old disk.new (IsErr result) }
    {
        fill_page(&mut self.page, kind, row);
        let at = unit_place(self.format, cell);
        match write_synced(disk, self.file, at, &self.page) {
            Ok(()) => {
                self.index.lead(cell, key);
                Ok(())
            }
            Err(failed) => Err(failed),
        }
    }

    /// Frees the unit that was given, on the disk: it is all zeros, and no key leads to it. It takes
    /// no memory, and makes two device calls.
    ///
    /// At each moment a crash leaves all files as before, but for that unit.
    pub fn take_out<D: Disk>(&mut self, disk: &mut D, cell: u32) -> Result<(), DiskFailed>
        requires ready { (units self.old).placed ≡ Some cell }
        requires within { D.tells → place_of cell self.old ≤ length ((D.view disk.old).seen self.old.file) }
        ensures moments { D.tells → LeavesTorn self.old.file (place_of cell self.old) (unit_len self.old)
            (D.view disk.old) (D.view disk.new) }
        ensures ok { D.tells → OnOk result (Stands self.old.file (place_of cell self.old)
            (unit_text self.old.format None) (D.view disk.old) (D.view disk.new)) }
        ensures units { OnOk result (units self.new ≡ freed cell (units self.old)) }
        ensures as_many { IsFree cell (units self.old) → OnOk result (count self.new ≡ count self.old) }
        ensures fewer { (k : List ℕ) → (units self.old).of k ≡ Some cell
            → OnOk result (count self.new + 1 ≡ count self.old) }
        // What the index says stays so of the file, in which the unit is free.
        ensures keeps { (sheet : Sheet)
            → 1 ≤ cell → D.tells → IsFileOf self.old sheet ((D.view disk.old).seen self.old.file)
            → OnOk result (IsFileOf self.new (with_cell cell None sheet) ((D.view disk.new).seen self.old.file)) }
        ensures err { OnErr result (self.new ≡ self.old) }
        ensures file { self.new.file ≡ self.old.file }
        ensures format { self.new.format ≡ self.old.format }
        ensures call { IsCall D.Disk disk.old disk.new (IsErr result) }
    {
        clear_page(&mut self.page);
        let at = unit_place(self.format, cell);
        match write_synced(disk, self.file, at, &self.page) {
            Ok(()) => {
                self.index.free(cell);
                Ok(())
            }
            Err(failed) => Err(failed),
        }
    }
}
