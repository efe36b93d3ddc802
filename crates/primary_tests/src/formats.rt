//! Files of format 1, which become files of format 2 when they are opened.

use crate::bench::{ANY, Bench, T, shut};
use crate::calls::At;
use crate::patches::{Patch, patch_file};
use crate::turns::Turn::{Ask, Create, File, Format, Format1, Line, Log, Open, Poll};
use crate::turns::{Turn, play};
use kdb_disk::{MemoryDisk, replace_file};
use princ_rows::ReplyCode::FullResyncNeeded;
use std::alloc::Global;
use std::test::Fail;

/// The format, and the serial of the base marker.
const OF_CONTROL: Patch = &[(6, 1), (22, 2)];

const OF_ROWS: Patch = &[(5, 1), (22, 2)];

const OF_LOG: Patch = &[(4, 2)];

/// Leaves the first 8192 bytes of each unit of 16384.
fn shorten_units(alloc: Global, disk: &mut MemoryDisk) -> Result<(), Fail> {
    let mut short = Vec::new(alloc);
    for unit in disk.bytes(1).chunks(16384) {
        short.extend_from_slice(unit.get(..8192).unwrap_or(&[]))?;
    }
    replace_file(disk, 1, &short)?;
    Ok(())
}

fn write_format1(alloc: Global, disk: &mut MemoryDisk) -> Result<(), Fail> {
    shorten_units(alloc, disk)?;
    patch_file(alloc, disk, 1, OF_ROWS)?;
    patch_file(alloc, disk, 3, OF_LOG)?;
    patch_file(alloc, disk, 0, OF_CONTROL)
}

/// Makes files of format 1 of those of a creation, with the serial 2 for their base marker.
pub(crate) fn to_format1(alloc: Global, bench: &mut Bench) -> Result<bool, Fail> {
    let mut disk = shut(bench)?;
    write_format1(alloc, &mut disk)?;
    bench.disk = Some(disk);
    Ok(true)
}

/// A microsecond behind the creation.
const BEHIND: At = (1_700_000_000, 1);

/// A replica of the database of format 1 has to take a dump. The rows are moved into file 2, where
/// four principals stand behind the head in units of 16384 bytes.
static OPENED: [Turn; 9] = [
    Create(1000, "ok 1 1700000000.000000"),
    Format1,
    Open(None, 1, "ok 1 1700000000.000001"),
    Line("addprinc -nokey bob", "ok 2 1700000000.000001"),
    Log(1000, 2048, (1, BEHIND), (2, BEHIND)),
    Ask(ANY, "kiprop/a", T),
    Poll((2, T), FullResyncNeeded, &[]),
    Format(2),
    File(2, 81_920),
];

#[test]
fn files_of_format_1_become_format_2(rt: HostRuntime) -> Result<(), Fail> {
    play(&rt, rt.alloc(), &OPENED)
}
