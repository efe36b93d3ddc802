//! A file of cells that is written anew. All memory is taken before the first device call.
ghost use Rattle.std.specs.Prelude.{◌≡◌, ◌≤◌, ◌<◌, ◌*◌, ◌-◌, ◌++◌, ◌∷◌, [], true, None, length, map, IfOk, OnOk, IsErr};
ghost use Rattle.std.specs.List.{All};
ghost use Rattle.kdb_disk.specs.Files.{written};
ghost use Rattle.kdb_disk.specs.Frames.{IsCall};
ghost use Rattle.kdb_disk.specs.Moments.{LeavesOnly, Differs, Replaced};
ghost use Rattle.kdb_disk.specs.View.{View, IsAfter};
ghost use Rattle.kdb_format.specs.Moments.{IsPoint};
ghost use Rattle.kdb_format.specs.Spellings.{zeros};
ghost use Rattle.princ_name.specs.Realms.{is_realm};
ghost use Rattle.princ_rows.specs.Rows.{AreRows};
ghost use Rattle.kdb_cells.specs.Cells.{unit_size as size_of_unit, IsRowOf};
ghost use Rattle.kdb_cells.specs.CellFiles.{is_image, is_format};
ghost use Rattle.kdb_cells.specs.FileCells.{IsFileOf};
ghost use Rattle.cell_files.specs.Building.{text_of, text_units, IsPage, IsBuilt};
ghost use Rattle.cell_files.specs.NewFiles.{file_text, first_unit, sheet_for, stored_rows, with_row};

use crate::building::{Building, add_rows};
use crate::pages::{PIECE, write_units};
use crate::texts::RowText;
use kdb_base::{MemoryOut, Point};
use kdb_cells::{Cells, UnitIndex, push_heading, unit_size};
use kdb_disk::{Disk, DiskFailed, empty_file};
use kdb_format::writing::push_zeros;
use princ_name::Realm;
use princ_rows::Rows;
use std::alloc::Global;
use std::marker::Model;

/// A file of cells that is to be written: a unit for each row, in the rows' order.
#[derive(Drop)]
pub struct NewFile {
    cells: Cells,
    // the bytes of the first unit
    first: Vec<u8>,
    texts: Vec<RowText>,
    // the bytes of a few units
    page: Vec<u8>,
}

impl Model for NewFile {
    ghost use Rattle.std.specs.Prelude.{◌≡◌, ◌≤◌, ◌*◌, ◌++◌, true, length};
    ghost use Rattle.std.specs.List.{All};
    ghost use Rattle.kdb_base.specs.Limits.{most_rows};
    ghost use Rattle.kdb_cells.specs.Cells.{unit_size};
    ghost use Rattle.kdb_cells.specs.CellFiles.{is_image};
    ghost use Rattle.cell_files.specs.Building.{text_units, IsPage};
    ghost use Rattle.cell_files.specs.NewFiles.{NewCells};

    ghost Value = { NewCells };

    ghost view = { λ n.
        record { cells = n.cells; content = n.first.items ++ text_units (unit_size n.cells.format) n.texts.items } };

    ghost invariant = { λ n. (is_image n.cells.file ≡ true)
        × IsPage (unit_size n.cells.format) n.first.items n.texts.items n.page.items };
}

// Adds zeros up to this length.
fn pad(bytes: &mut Vec<u8>, len: usize) -> Result<(), MemoryOut>
    requires { length bytes.old.items ≤ len }
    ensures { OnOk result (bytes.new.items ≡ bytes.old.items ++ zeros (len - length bytes.old.items)) }
{
    push_zeros(bytes, len - bytes.len())
}

// Tells a proof that the realm is one, and that the numbers of the point are in their ranges, and does
// nothing.
fn holds_heading(realm: &Realm, made: &Point)
    ensures realm { is_realm realm.now ≡ true }
    ensures point { IsPoint made.now }
{
    let _realm = realm.as_slice();
    let _sno = made.sno;
    let _secs = made.time.secs();
    let _usecs = made.time.usecs();
}

// The bytes of the first unit.
#[tactic(auto, unfolding(crate::specs::NewFiles::first_unit))]
fn first_text(alloc: Global, format: u16, realm: &Realm, made: &Point) -> Result<Vec<u8>, MemoryOut>
    requires { is_format format ≡ true }
    ensures bytes { IfOk result (λ bytes. bytes.items ≡ first_unit format realm.now made.now) }
    ensures long { IfOk result (λ bytes. length bytes.items ≡ size_of_unit format) }
{
    holds_heading(realm, made);
    let unit = unit_size(format);
    let mut bytes = Vec::with_capacity(alloc, unit)?;
    push_heading(&mut bytes, format, realm, made)?;
    pad(&mut bytes, unit)?;
    Ok(bytes)
}

// Room for a few units of this length.
fn page_of(alloc: Global, unit: usize) -> Result<Vec<u8>, MemoryOut>
    requires { unit ≤ 16384 }
    ensures { IfOk result (λ page. length page.items ≡ 4 * unit) }
{
    let mut page = Vec::new(alloc);
    page.resize(PIECE * unit, 0)?;
    Ok(page)
}

// The units of the rows, from 1 on.
fn build(alloc: Global, format: u16, rows: &Rows) -> Result<Building, MemoryOut>
    requires { All (IsRowOf format) rows.now.princs }
    ensures built { IfOk result (λ b. IsBuilt format b.index (None ∷ map with_row (stored_rows rows.now))) }
    ensures texts { IfOk result (λ b. b.texts.items ≡ map text_of (stored_rows rows.now)) }
    ensures placed { IfOk result (λ b. b.index.placed ≡ None) }
    ensures rows { AreRows rows.now }
{
    let mut building = Building {
        index: UnitIndex::new(alloc),
        texts: Vec::new(alloc),
    };
    add_rows(alloc, format, &mut building, rows.princs())?;
    add_rows(alloc, format, &mut building, rows.policies())?;
    Ok(building)
}

// Writes the first unit and the others into a file that is empty. Nothing is synced.
fn write_content<D: Disk>(
    disk: &mut D,
    file: u8,
    first: &[u8],
    texts: &[RowText],
    page: &mut [u8],
) -> Result<(), DiskFailed>
    requires file { file < 7 }
    requires some { 0 < length first.now }
    requires small { length first.now ≤ 16384 }
    requires page { IsPage (length first.now) first.now texts.now page.old }
    requires empty { D.tells → (D.view disk.old).seen file ≡ [] }
    ensures moments { D.tells
        → LeavesOnly (D.view disk.old) (D.view disk.new) (IsAfter (Differs file) (D.view disk.old)) }
    ensures seen { D.tells → OnOk result ((D.view disk.new).seen
        ≡ written file 0 (first.now ++ text_units (length first.now) texts.now) (D.view disk.old).seen) }
    ensures long { length page.new ≡ length page.old }
    ensures call { IsCall D.Disk disk.old disk.new (IsErr result) }
{
    disk.write_at(file, 0, first)?;
    let unit = first.len();
    write_units(disk, file, unit, unit, texts, page)
}

// Gives the file its content, on the disk.
fn write_file<D: Disk>(
    disk: &mut D,
    file: u8,
    first: &[u8],
    texts: &[RowText],
    page: &mut [u8],
) -> Result<(), DiskFailed>
    requires file { file < 7 }
    requires some { 0 < length first.now }
    requires small { length first.now ≤ 16384 }
    requires page { IsPage (length first.now) first.now texts.now page.old }
    ensures moments { D.tells
        → LeavesOnly (D.view disk.old) (D.view disk.new) (IsAfter (Differs file) (D.view disk.old)) }
    ensures ok { D.tells → OnOk result
        (Replaced file (first.now ++ text_units (length first.now) texts.now) (D.view disk.old) (D.view disk.new)) }
    ensures long { length page.new ≡ length page.old }
    ensures call { IsCall D.Disk disk.old disk.new (IsErr result) }
{
    empty_file(disk, file)?;
    write_content(disk, file, first, texts, page)?;
    disk.sync(file)
}

impl NewFile {
    /// The file of these rows, which takes all memory that is needed to write it. `file` is 1 or 2, and
    /// `format` 1 or 2; `made` is the point at which the file is made, which nothing compares.
    pub fn new(
        alloc: Global,
        file: u8,
        format: u16,
        realm: &Realm,
        made: &Point,
        rows: &Rows,
    ) -> Result<NewFile, MemoryOut>
        requires image { is_image file ≡ true }
        requires format { is_format format ≡ true }
        // in format 1 rows are shorter, and have no string attributes
        requires rows { All (IsRowOf format) rows.now.princs }
        // Its bytes are those of the rows, and the cells lead to them.
        ensures cells { IfOk result (λ n. IsFileOf n.cells (sheet_for realm.now rows.now) n.content) }
        ensures content { IfOk result (λ n. n.content ≡ file_text format realm.now made.now rows.now) }
        ensures file { IfOk result (λ n. n.cells.file ≡ file) }
        ensures format { IfOk result (λ n. n.cells.format ≡ format) }
        ensures placed { IfOk result (λ n. n.cells.index.placed ≡ None) }
    {
        holds_heading(realm, made);
        let first = first_text(alloc, format, realm, made)?;
        let page = page_of(alloc, unit_size(format))?;
        let building = build(alloc, format, rows)?;
        let cells = Cells::with_index(alloc, file, format, building.index)?;
        Ok(NewFile {
            cells,
            first,
            texts: building.texts,
            page,
        })
    }

    /// Writes the file, on the disk: it is cut to nothing and synced, written in pieces of a few units,
    /// and synced. Until then, a crash may leave any content of this file. Memory is not asked for.
    pub fn write<D: Disk>(&mut self, disk: &mut D) -> Result<(), DiskFailed>
        ensures moments { D.tells
            → LeavesOnly (D.view disk.old) (D.view disk.new) (IsAfter (Differs self.old.cells.file) (D.view disk.old)) }
        ensures ok { D.tells
            → OnOk result (Replaced self.old.cells.file self.old.content (D.view disk.old) (D.view disk.new)) }
        ensures stays { self.new ≡ self.old }
        ensures call { IsCall D.Disk disk.old disk.new (IsErr result) }
    {
        let file = self.cells.file();
        write_file(disk, file, &self.first, &self.texts, &mut self.page)
    }

    /// The cells of the file, once it is written.
    pub fn into_cells(self) -> Cells
        ensures { result ≡ self.cells }
    {
        self.cells
    }
}
