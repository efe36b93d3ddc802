//! The units of a new file, written in pieces of a few units.
ghost use Rattle.std.specs.Prelude.{◌≡◌, ◌≤◌, ◌<◌, ◌+◌, ◌*◌, length, take, OnOk, IsErr};
ghost use Rattle.std.specs.List.{All};
ghost use Rattle.kdb_base.specs.Limits.{most_rows};
ghost use Rattle.kdb_disk.specs.Files.{put, written};
ghost use Rattle.kdb_disk.specs.Frames.{IsCall};
ghost use Rattle.kdb_disk.specs.Moments.{LeavesOnly, Differs};
ghost use Rattle.kdb_disk.specs.View.{View, IsAfter};
ghost use Rattle.kdb_cells.specs.Cells.{unit_with};
ghost use Rattle.cell_files.specs.Building.{text_units, HasUnit};

use crate::texts::RowText;
use kdb_cells::fill_unit;
use kdb_disk::{Disk, DiskFailed};
use std::cmp::min;

/// How many units one device call writes at most.
pub(crate) const PIECE: usize = 4;

// Writes a row's unit into the page at this place.
fn fill_at(page: &mut [u8], at: usize, unit: usize, text: &RowText)
    requires fits { HasUnit unit text.now }
    requires within { at + unit ≤ length page.old }
    ensures { page.new ≡ put at (unit_with unit text.now.kind text.now.row) page.old }
{
    fill_unit(&mut page[at..at + unit], text.kind, text.row.as_slice());
}

// Writes the rows' units to the begin of the page. Their length is told.
fn fill_page(page: &mut [u8], unit: usize, texts: &[RowText]) -> usize
    requires fits { All (HasUnit unit) texts.now }
    requires within { length texts.now * unit ≤ length page.old }
    ensures value { result ≡ length texts.now * unit }
    ensures units { take (length texts.now * unit) page.new ≡ text_units unit texts.now }
    ensures long { length page.new ≡ length page.old }
{
    let mut at = 0;
    for text in texts {
        fill_at(page, at, unit, text);
        at += unit;
    }
    at
}

/// Writes the rows' units from this place on, in pieces. Nothing is synced.
pub(crate) fn write_units<D: Disk>(
    disk: &mut D,
    file: u8,
    from: usize,
    unit: usize,
    texts: &[RowText],
    page: &mut [u8],
) -> Result<(), DiskFailed>
    requires file { file < 7 }
    requires small { from ≤ 16384 }
    requires some { 0 < unit }
    requires least { unit ≤ 16384 }
    requires few { length texts.now ≤ most_rows }
    requires fits { All (HasUnit unit) texts.now }
    requires page { 4 * unit ≤ length page.old }
    requires begun { D.tells → length ((D.view disk.old).seen file) ≡ from }
    ensures moments { D.tells
        → LeavesOnly (D.view disk.old) (D.view disk.new) (IsAfter (Differs file) (D.view disk.old)) }
    ensures seen { D.tells
        → OnOk result ((D.view disk.new).seen ≡ written file from (text_units unit texts.now) (D.view disk.old).seen) }
    ensures long { length page.new ≡ length page.old }
    ensures call { IsCall D.Disk disk.old disk.new (IsErr result) }
{
    let mut at = 0;
    while at < texts.len() {
        let count = min(PIECE, texts.len() - at);
        let len = fill_page(page, unit, &texts[at..at + count]);
        let place = from + at * unit;
        disk.write_at(file, place as u64, &page[..len])?;
        at += count;
    }
    Ok(())
}
