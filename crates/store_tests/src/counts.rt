//! How many device calls a change makes, and on which files.

use crate::scripts::calls_before;
use crate::steps::{Step, copied, image, run};
use kdb_disk::{MemoryDisk, Pick};
use std::alloc::Global;
use std::test::Fail;

// The count, with one more where there was a change.
fn counted(count: u32, changed: bool) -> u32 {
    if changed {
        count.saturating_add(1)
    } else {
        count
    }
}

// How many calls from this one on change what the file of rows reads, and what the log does, or what the last
// sync of each left.
fn count_changes(
    alloc: Global,
    disk: &MemoryDisk,
    first: u64,
    pick: Pick,
) -> Result<(u32, u32), Fail> {
    if first == 0 {
        return Err(Fail::from("a call"));
    }
    let (mut rows, mut log) = (0u32, 0u32);
    let mut before = image(alloc, disk, first - 1, pick)?;
    for call in first..disk.calls() {
        let after = image(alloc, disk, call, pick)?;
        rows = counted(rows, after.bytes(1) != before.bytes(1));
        log = counted(log, after.bytes(3) != before.bytes(3));
        before = after;
    }
    Ok((rows, log))
}

// Whether one write of a unit and three of the log were made from this call on, each with its own
// sync.
fn are_counted(alloc: Global, changed: &MemoryDisk, first: u64) -> Result<bool, Fail> {
    let written = count_changes(alloc, changed, first, Pick::Written)?;
    let synced = count_changes(alloc, changed, first, Pick::Old)?;
    Ok(written == (1, 3) && synced == (1, 3))
}

// Whether the step is done by so many calls on a copy of the disk, whose place the disk takes.
fn is_counted_on(
    alloc: Global,
    disk: &mut MemoryDisk,
    changed: &mut MemoryDisk,
    step: &Step,
    first: u64,
    calls: u64,
) -> Result<bool, Fail> {
    if run(alloc, changed, step)?.is_some() {
        return Ok(false);
    }
    let made = changed.calls().saturating_sub(first);
    // one more call, inside of which the last sync is done
    *disk = copied(alloc, changed)?;
    let counted = are_counted(alloc, changed, first)?;
    Ok(made == calls && counted)
}

/// Whether the step is done by so many device calls behind its opening, of which one writes a unit, three write
/// the log, and each such write has its own sync.
pub(crate) fn is_counted(
    alloc: Global,
    disk: &mut MemoryDisk,
    step: &Step,
    calls: u64,
) -> Result<bool, Fail> {
    let first = calls_before(alloc, disk, step)?;
    let mut changed = copied(alloc, disk)?;
    is_counted_on(alloc, disk, &mut changed, step, first, calls)
}
