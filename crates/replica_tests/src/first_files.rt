//! Files of format 1, spelled byte for byte: a database that began at serial 1 with amy, and to which serial 2 put bob.
//! Its log has 100 entries at most, in blocks of 4096 bytes.

use kdb_base::Fails;
use kdb_disk::{MemoryDisk, replace_file};
use std::alloc::Global;
use std::test::Fail;

/// The slot in force: its gate, the format, the turn, the files of the rows, the log and the stash, the log's size and
/// block, and the point at which it began.
const CONTROL: &[u8] =
    b"\xa5KDBP\x00\x01\x00\x01\x03\x00\x00\x00\x00\x64\x00\x00\x10\x00\x00\x00\x00\x01\x65\x53\xf1\x00\x00\x00\x00\x00";

/// The first unit of the rows: the format, the realm and the point at which the file was made.
const HEAD: &[u8] =
    b"KDBC\x00\x01\x00\x0bEXAMPLE.ORG\x00\x00\x00\x01\x65\x53\xf1\x00\x00\x00\x00\x00";

/// What stands in a unit before a principal of 75 bytes.
const UNIT: &[u8] = b"\x01\x00\x4b";

const AMY_ROW: &[u8] =
    b"\x00\x0famy@EXAMPLE.ORG\x00\x00\x00\x00\x00\x00\x00\x00\x00\x00\x00\x00\x00\x00\x00\x00\x00\x00\x00\x00\
\x00\x02\x00\x02\x00\x14\x00\xf1\x53\x65bob@EXAMPLE.ORG\x00\x00\x08\x00\x02\x01\x00\x00\x00\x00\x00\x00\x00";

const BOB_ROW: &[u8] =
    b"\x00\x0fbob@EXAMPLE.ORG\x00\x00\x00\x00\x00\x00\x00\x00\x00\x00\x00\x00\x00\x00\x00\x00\x00\x00\x00\x00\
\x00\x02\x00\x02\x00\x14\x00\xf1\x53\x65bob@EXAMPLE.ORG\x00\x00\x08\x00\x02\x01\x00\x00\x00\x00\x00\x00\x00";

/// The marker with which the log begins: its gate and point, and no kind, unit, key and row.
const MARKER: &[u8] = b"\xa5\x00\x00\x00\x01\x65\x53\xf1\x00\x00\x00\x00\x00";

/// What stands before the row in the entry that puts bob into unit 2.
const ENTRY: &[u8] =
    b"\xa5\x00\x00\x00\x02\x65\x53\xf1\x00\x00\x00\x00\x00\x01\x00\x00\x00\x02\x00\x0fbob@EXAMPLE.ORG\x00\x4b";

/// A front, a row and zeros up to so many bytes.
fn push_padded(text: &mut Vec<u8>, front: &[u8], row: &[u8], length: usize) -> Result<(), Fail> {
    let end = text.len().saturating_add(length);
    text.extend_from_slice(front)?;
    text.extend_from_slice(row)?;
    text.resize(end, 0)?;
    Ok(())
}

fn push_units(text: &mut Vec<u8>) -> Result<(), Fail> {
    push_padded(text, HEAD, b"", 8192)?;
    push_padded(text, UNIT, AMY_ROW, 8192)?;
    push_padded(text, UNIT, BOB_ROW, 8192)
}

fn push_log(text: &mut Vec<u8>) -> Result<(), Fail> {
    push_padded(text, MARKER, b"", 4096)?;
    push_padded(text, ENTRY, BOB_ROW, 4096)
}

fn control(alloc: Global) -> Result<Vec<u8>, Fail> {
    let mut text = Vec::new(alloc);
    push_padded(&mut text, CONTROL, b"", 64)?;
    Ok(text)
}

fn units(alloc: Global) -> Result<Vec<u8>, Fail> {
    let mut text = Vec::new(alloc);
    push_units(&mut text)?;
    Ok(text)
}

fn log(alloc: Global) -> Result<Vec<u8>, Fail> {
    let mut text = Vec::new(alloc);
    push_log(&mut text)?;
    Ok(text)
}

fn write_control(alloc: Global, disk: &mut MemoryDisk) -> Result<(), Fail> {
    let text = control(alloc)?;
    replace_file(disk, 0, &text)?;
    Ok(())
}

fn write_units(alloc: Global, disk: &mut MemoryDisk) -> Result<(), Fail> {
    let text = units(alloc)?;
    replace_file(disk, 1, &text)?;
    Ok(())
}

fn write_log(alloc: Global, disk: &mut MemoryDisk) -> Result<(), Fail> {
    let text = log(alloc)?;
    replace_file(disk, 3, &text)?;
    Ok(())
}

fn write_files(alloc: Global, disk: &mut MemoryDisk) -> Result<(), Fail> {
    write_control(alloc, disk)?;
    write_units(alloc, disk)?;
    write_log(alloc, disk)
}

/// A disk with these files.
pub(crate) fn first_files(alloc: Global) -> Result<MemoryDisk, Fail> {
    let mut disk = MemoryDisk::new(alloc, Fails::none(alloc))?;
    write_files(alloc, &mut disk)?;
    Ok(disk)
}
