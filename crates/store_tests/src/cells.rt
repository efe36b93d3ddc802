ghost use Rattle.std.specs.Prelude.{◌≡◌, length, IfOk};

use kdb_base::MemoryOut;
use kdb_cells::units::{FREE, POLICY, PRINC};
use kdb_cells::{Cells, StoredRow, UnitIndex, fill_unit, read_unit, unit_size};
use std::alloc::Global;
use std::process::Abort;
use std::test::*;

// A policy p1: a greatest life of 0 and a least life of 60 seconds, 8 bytes of 3 classes, and a
// history of 2.
const ROW: &[u8] = b"\0\x02p1\0\0\0\0\0\0\0\x3c\0\x08\0\x03\0\x02";

// The row behind its state and its length.
const UNIT: &[u8] = b"\x02\0\x12\0\x02p1\0\0\0\0\0\0\0\x3c\0\x08\0\x03\0\x02";

fn page(alloc: Global, len: usize) -> Result<Vec<u8>, MemoryOut>
    ensures { IfOk result (λ bytes. length bytes.items ≡ len) }
{
    let mut bytes = Vec::new(alloc);
    bytes.resize(len, 0)?;
    Ok(bytes)
}

// The state of a unit with this row, or without one.
fn state_with(row: &Option<StoredRow>) -> u8 {
    match row {
        None => FREE,
        Some(StoredRow::Princ(_)) => PRINC,
        Some(StoredRow::Policy(_)) => POLICY,
    }
}

// The state that is read from a unit of format 2.
fn state_of(alloc: Global, unit: &[u8]) -> Option<u8> {
    if unit.len() != unit_size(2) {
        return None;
    }
    let read = read_unit(alloc, 2, unit);
    let state = match &read {
        Ok(row) => Some(state_with(row)),
        Err(_) => None,
    };
    // drops the row in the library, and not here with all that it may own
    let _ = read.err();
    state
}

fn fill(unit: &mut Vec<u8>, kind: u8) {
    if 3 + ROW.len() <= unit.len() {
        fill_unit(unit, kind, ROW);
    }
}

fn check_unit(rt: &impl Abort, alloc: Global, unit: &mut Vec<u8>) {
    assert_eq!(rt; state_of(alloc, unit.as_slice()), Some(FREE));
    fill(unit, POLICY);
    assert!(rt; unit.starts_with(UNIT));
    assert_eq!(rt; state_of(alloc, unit.as_slice()), Some(POLICY));
    fill(unit, PRINC);
    assert_eq!(rt; state_of(alloc, unit.as_slice()), None);
}

#[test]
fn a_unit_is_read_as_it_is_written(rt: HostRuntime) -> Result<(), Fail> {
    let mut unit = page(rt.alloc(), unit_size(2))?;
    check_unit(&rt, rt.alloc(), &mut unit);
    Ok(())
}

// Frees the unit that a name is given.
fn leave(index: &mut UnitIndex, name: &[u8]) -> Option<u32> {
    match index.place(name) {
        Ok(unit) => {
            index.free(unit);
            Some(unit)
        }
        Err(_) => None,
    }
}

fn check_units(rt: &impl Abort, index: &mut UnitIndex) {
    assert_eq!(rt; leave(index, b"a"), Some(1));
    assert_eq!(rt; leave(index, b"b"), Some(1));
    assert_eq!(rt; index.place(b"c").ok(), Some(1));
    assert_eq!(rt; index.place(b"d").ok(), Some(1));
}

#[test]
fn a_free_unit_is_given_again(rt: HostRuntime) {
    let mut index = UnitIndex::new(rt.alloc());
    check_units(&rt, &mut index);
}

#[test]
fn new_cells_give_the_unit_behind_the_first(rt: HostRuntime) -> Result<(), Fail> {
    let mut cells = Cells::new(rt.alloc(), 1, 2)?;
    assert_eq!(rt; cells.place(b"a").ok(), Some(1));
    assert_eq!(rt; (cells.file(), cells.format(), cells.len()), (1, 2, 0));
    Ok(())
}
