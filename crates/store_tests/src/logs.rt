ghost use Rattle.std.specs.Prelude.{◌≡◌, ◌≢◌, ◌≤◌, ◌+◌, IfOk, OnOk, None, length, ℕ};
ghost use Rattle.princ_rows.specs.Entries.{IsOp, logged};
ghost use Rattle.princ_name.specs.Printed.{IsPrinted};
ghost use Rattle.update_log.specs.Moments.{HasLog, IsDurable};

use kdb_base::{Blob, Fails, Halt, MemoryOut, Point, Time};
use kdb_disk::{Disk, MemoryDisk, Pick};
use princ_name::is_printed;
use princ_rows::entry_laws::entries_have_their_lengths;
use princ_rows::{Entry, Op};
use std::alloc::Global;
use std::process::Abort;
use std::test::*;
use update_log::Log;

// The slot of the base marker: an open gate, the serial 1, 1700000000 seconds (6553f100 in
// hexadecimal) and no microseconds, the kind 0, four zero bytes, an empty key and an empty row.
const MARKER: [u8; 22] = [
    0xa5, 0, 0, 0, 1, 0x65, 0x53, 0xf1, 0, 0, 0, 0, 0, 0, 0, 0, 0, 0, 0, 0, 0, 0,
];

// Another answer than the one that was to come.
#[derive(Debug, Drop)]
struct Unexpected;

fn base() -> Point {
    Point {
        sno: 1,
        time: Time::new(1_700_000_000, 0),
    }
}

// Drops the entry by a call of the library, so that no caller is proved with all that it may own.
fn let_go_of_entry(entry: Entry) {
    let held: Result<Entry, MemoryOut> = Ok(entry);
    let _ = held.err();
}

// The same of a log.
fn let_go_of_log(log: Log) {
    let held: Result<Log, MemoryOut> = Ok(log);
    let _ = held.err();
}

// A printed name.
#[tactic(auto, using(princ_name::specs::PrintedLaws::test_printed))]
fn printed(alloc: Global) -> Result<Blob, Fail>
    ensures printed { IfOk result IsPrinted }
    ensures short { IfOk result (λ name. length name ≤ 255) }
{
    let name = Blob::from_bytes(alloc, b"alice@EXAMPLE.ORG")?;
    if !is_printed(name.as_slice()) || name.len() > 255 {
        return Err(Fail::from(Unexpected));
    }
    Ok(name)
}

// A log of two entries in file 3.
fn make_on(alloc: Global, disk: &mut MemoryDisk) -> Result<Log, Fail>
    ensures log { IfOk result (λ log. HasLog log (⟦<MemoryDisk as Disk>⟧.view disk.new)) }
    ensures durable { IfOk result (λ log. IsDurable log.file (⟦<MemoryDisk as Disk>⟧.view disk.new)) }
    ensures block { IfOk result (λ log. log.block ≡ 2048) }
{
    match Log::make(alloc, disk, 3, base(), 2, 2048, None) {
        Ok(log) => Ok(log),
        Err(halt) => Err(Fail::from(halt)),
    }
}

// The entry that drops a principal, behind the last one and at its time.
#[tactic(auto, unfolding(princ_rows::specs::Entries::key_of, princ_rows::specs::Entries::row_of))]
fn next_entry(alloc: Global, last: &Point) -> Result<Entry, Fail>
    ensures point { IfOk result (λ e. e.point ≡ record { sno = last.now.sno + 1; time = last.now.time }) }
    ensures change { IfOk result (λ e. e.op ≢ None) }
    ensures fits { IfOk result (λ e. IsOp e.op) }
    ensures short { IfOk result (λ e. (cell : ℕ) → length (logged (record { entry = e; cell = cell })) ≤ 2047) }
{
    entries_have_their_lengths();
    if last.sno == u32::MAX {
        return Err(Fail::from(Unexpected));
    }
    let name = printed(alloc)?;
    Ok(Entry {
        point: Point {
            sno: last.sno + 1,
            time: last.time,
        },
        op: Some(Op::DropPrinc(name)),
    })
}

// Prepares and commits the next entry, of the unit that has its serial.
#[tactic(auto, using(update_log::proofs::Spelled::follows))]
fn append(alloc: Global, disk: &mut MemoryDisk, log: &mut Log) -> Result<(), Fail>
    requires log { HasLog log.old (⟦<MemoryDisk as Disk>⟧.view disk.old) }
    requires durable { IsDurable log.old.file (⟦<MemoryDisk as Disk>⟧.view disk.old) }
    requires block { log.old.block ≡ 2048 }
    ensures log { OnOk result (HasLog log.new (⟦<MemoryDisk as Disk>⟧.view disk.new)) }
    ensures durable { OnOk result (IsDurable log.new.file (⟦<MemoryDisk as Disk>⟧.view disk.new)) }
    ensures block { OnOk result (log.new.block ≡ 2048) }
{
    let (_, last) = log.held();
    let entry = next_entry(alloc, &last)?;
    let prepared = log.prepare(alloc, disk, &entry, entry.point.sno);
    let_go_of_entry(entry);
    match prepared {
        Ok(()) => {}
        Err(halt) => return Err(Fail::from(halt)),
    }
    match log.commit(disk) {
        Ok(()) => Ok(()),
        Err(failed) => Err(Fail::from(failed)),
    }
}

// Whether the bytes are the slot of the base marker.
fn is_marker(bytes: &[u8]) -> bool {
    match bytes.strip_prefix(&MARKER) {
        Some(zeros) => zeros.len() == 2026 && zeros.iter().all(|b| *b == 0),
        None => false,
    }
}

// Appends four entries behind the base marker.
fn append_four(alloc: Global, disk: &mut MemoryDisk, log: &mut Log) -> Result<(), Fail>
    requires log { HasLog log.old (⟦<MemoryDisk as Disk>⟧.view disk.old) }
    requires durable { IsDurable log.old.file (⟦<MemoryDisk as Disk>⟧.view disk.old) }
    requires block { log.old.block ≡ 2048 }
{
    if !is_marker(disk.bytes(3)) {
        return Err(Fail::from(Unexpected));
    }
    append(alloc, disk, log)?;
    append(alloc, disk, log)?;
    append(alloc, disk, log)?;
    append(alloc, disk, log)
}

// A log in which four entries came behind the base marker.
fn fill(alloc: Global, disk: &mut MemoryDisk) -> Result<Log, Fail> {
    let mut log = make_on(alloc, disk)?;
    match append_four(alloc, disk, &mut log) {
        Ok(()) => Ok(log),
        Err(fail) => {
            let_go_of_log(log);
            Err(fail)
        }
    }
}

// The first and the last serial, and whether those of 3 to 6 are held.
fn held_in(log: &Log) -> (u32, u32, [bool; 4]) {
    let (first, last) = log.held();
    let held = [
        log.entry(3).is_some(),
        log.entry(4).is_some(),
        log.entry(5).is_some(),
        log.entry(6).is_some(),
    ];
    (first.sno, last.sno, held)
}

fn check_held(rt: &impl Abort, log: &Log) {
    assert_eq!(rt; held_in(log), (4, 5, [false, true, true, false]));
    assert_eq!(rt; (log.last_cell(), log.in_file()), (5, 3));
}

fn check_filled(rt: &impl Abort, alloc: Global, disk: &mut MemoryDisk) -> Result<(), Fail> {
    let log = fill(alloc, disk)?;
    assert_eq!(rt; disk.bytes(3).len(), 6144);
    check_held(rt, &log);
    let_go_of_log(log);
    Ok(())
}

#[test]
fn a_log_holds_its_last_entries(rt: HostRuntime) -> Result<(), Fail> {
    let alloc = rt.alloc();
    let mut disk = MemoryDisk::new(alloc, Fails::none(alloc))?;
    check_filled(&rt, alloc, &mut disk)
}

// Prepares the next entry, where the disk fails.
#[tactic(auto, using(update_log::proofs::Spelled::follows))]
fn prepare_in_vain(alloc: Global, disk: &mut MemoryDisk, log: &mut Log) -> Result<(), Fail>
    requires log { HasLog log.old (⟦<MemoryDisk as Disk>⟧.view disk.old) }
    requires durable { IsDurable log.old.file (⟦<MemoryDisk as Disk>⟧.view disk.old) }
    requires block { log.old.block ≡ 2048 }
{
    let (_, last) = log.held();
    let entry = next_entry(alloc, &last)?;
    let prepared = log.prepare(alloc, disk, &entry, 1);
    let_go_of_entry(entry);
    match prepared {
        Err(Halt::DiskFault) => Ok(()),
        _ => Err(Fail::from(Unexpected)),
    }
}

// Makes a log, and prepares an entry of it in vain.
fn stop_preparing(alloc: Global, disk: &mut MemoryDisk) -> Result<(), Fail> {
    let mut log = make_on(alloc, disk)?;
    let prepared = prepare_in_vain(alloc, disk, &mut log);
    let_go_of_log(log);
    prepared
}

fn begins_with_marker(disk: &MemoryDisk) -> bool {
    match disk.bytes(3).get(..2048) {
        Some(slot) => is_marker(slot),
        None => false,
    }
}

// Whether the base marker stands in this image inside this call.
fn is_marked(alloc: Global, disk: &MemoryDisk, call: u64, pick: Pick) -> Result<bool, Fail> {
    if call >= disk.calls() {
        return Ok(false);
    }
    let image = disk.image_at(alloc, call, pick)?;
    Ok(begins_with_marker(&image))
}

// Whether the base marker stands in each image inside this call.
fn keeps_marker(alloc: Global, disk: &MemoryDisk, call: u64) -> Result<bool, Fail> {
    for pick in [Pick::Written, Pick::Old, Pick::Noise] {
        if !is_marked(alloc, disk, call, pick)? {
            return Ok(false);
        }
    }
    Ok(true)
}

fn check_marker(rt: &impl Abort, alloc: Global, disk: &MemoryDisk) -> Result<(), Fail> {
    for call in 9..13 {
        assert!(rt; keeps_marker(alloc, disk, call)?, "inside call {call}");
    }
    Ok(())
}

// A log is made in nine calls. Then the file's length is asked for, the slot is begun in two calls, and
// the body is written: that call fails.
#[test]
fn an_entry_is_prepared_in_vain(rt: HostRuntime) -> Result<(), Fail> {
    let alloc = rt.alloc();
    let fails = Fails::from_vec(vec![in alloc; 12u64]?);
    let mut disk = MemoryDisk::new(alloc, fails)?;
    stop_preparing(alloc, &mut disk)?;
    check_marker(&rt, alloc, &disk)
}
