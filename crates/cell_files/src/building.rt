//! The units of a new file in memory: to which unit each key leads, and the bytes of the rows.
ghost use Rattle.std.specs.Prelude.{◌≡◌, ◌+◌, ◌++◌, ◌∷◌, [], List, None, OnOk, map};
ghost use Rattle.std.specs.List.{All};
ghost use Rattle.kdb_cells.specs.Cells.{Cell};
ghost use Rattle.cell_files.specs.Building.{text_of, IsNext, MayFollow, IsBuilt};
ghost use Rattle.cell_files.specs.NewFiles.{with_row};

use crate::texts::{RowText, UnitRow};
use kdb_base::{Blob, MemoryOut};
use kdb_cells::UnitIndex;
use princ_rows::Boxed;
use std::alloc::Global;

/// To which units keys lead, and the bytes of the rows in the units from 1 on.
#[derive(Drop)]
pub(crate) struct Building {
    pub(crate) index: UnitIndex,
    pub(crate) texts: Vec<RowText>,
}

// Gives the row the next unit.
fn add_row<T: UnitRow + Drop>(
    alloc: Global,
    format: u16,
    building: &mut Building,
    item: &T,
) -> Result<(), MemoryOut>
    requires placed { building.old.index.placed ≡ None }
    requires fits { T.fits item.now }
    requires next { (cells : List Cell)
        × (IsBuilt format building.old.index cells × IsNext format (T.row_of item.now) cells) }
    ensures built { (cells : List Cell)
        → IsBuilt format building.old.index cells → IsNext format (T.row_of item.now) cells
        → OnOk result (IsBuilt format building.new.index (cells ++ with_row (T.row_of item.now) ∷ [])) }
    ensures texts { OnOk result
        (building.new.texts.items ≡ building.old.texts.items ++ text_of (T.row_of item.now) ∷ []) }
    ensures placed { OnOk result (building.new.index.placed ≡ None) }
{
    let key = Blob::from_bytes(alloc, item.unit_key())?;
    let text = item.text(alloc)?;
    building.index.add_led(key)?;
    building.texts.push(text)?;
    Ok(())
}

/// Gives each of the rows a unit, one after the other.
pub(crate) fn add_rows<T: UnitRow + Drop>(
    alloc: Global,
    format: u16,
    building: &mut Building,
    items: &[Boxed<T>],
) -> Result<(), MemoryOut>
    requires placed { building.old.index.placed ≡ None }
    requires fits { All T.fits items.now }
    requires next { (cells : List Cell)
        × (IsBuilt format building.old.index cells × MayFollow format (map T.row_of items.now) cells) }
    ensures built { (cells : List Cell) → IsBuilt format building.old.index cells
        → MayFollow format (map T.row_of items.now) cells
        → OnOk result (IsBuilt format building.new.index (cells ++ map with_row (map T.row_of items.now))) }
    ensures texts { OnOk result
        (building.new.texts.items ≡ building.old.texts.items ++ map text_of (map T.row_of items.now)) }
    ensures placed { OnOk result (building.new.index.placed ≡ None) }
{
    for item in items {
        add_row(alloc, format, building, item.get())?;
    }
    Ok(())
}
