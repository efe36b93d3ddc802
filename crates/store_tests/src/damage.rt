//! Bytes of the files changed: where an opening says that they are damaged.

use crate::looks::Look::{Holds, Lacks, LacksPolicy, Stash};
use crate::records::Change::{Drop, DropPolicy, Put, PutPolicy, Rename};
use crate::records::{A, B, KM, POLICY};
use crate::scripts::Turn::{Damaged, Done, Refused, Seen};
use crate::scripts::{Turn, play};
use crate::steps::Step::{Commit, Create, Cut, Destroy, Open, Write, WriteRow};
use crate::steps::{Answer, STASH, Step, T0, copied, made, run};
use kdb_base::Refusal;
use kdb_disk::MemoryDisk;
use std::alloc::Global;
use std::process::Abort;
use std::test::Fail;

/// Bytes that are written at a place, and the place that is then damaged: None where the database opens still.
type Damage = (u64, &'static [u8], Option<u64>);

/// A log of two entries: the base marker, and `a` and `b` in the units 4 and 5.
static TWO: [Step; 3] = [Create(T0, 2), Commit(T0, Put(A)), Commit(T0, Put(B))];

fn wanted(file: u8, place: Option<u64>) -> Option<Refusal> {
    match place {
        Some(place) => Some(Refusal::Damaged { file, place }),
        None => None,
    }
}

fn write_and_open(
    alloc: Global,
    disk: &mut MemoryDisk,
    file: u8,
    at: u64,
    bytes: &'static [u8],
) -> Answer {
    run(alloc, disk, &Write(file, at, bytes))?;
    run(alloc, disk, &Open)
}

// What an opening answers, where these bytes stand at a place of a file.
fn opened_with(
    alloc: Global,
    made: &mut MemoryDisk,
    file: u8,
    at: u64,
    bytes: &'static [u8],
) -> Answer {
    let mut disk = copied(alloc, made)?;
    write_and_open(alloc, &mut disk, file, at, bytes)
}

fn check_damages(
    rt: &impl Abort,
    alloc: Global,
    made: &mut MemoryDisk,
    file: u8,
    named: u8,
    damages: &[Damage],
) -> Result<(), Fail> {
    for (at, bytes, place) in damages {
        let refusal = opened_with(alloc, made, file, *at, bytes)?;
        assert!(rt; refusal == wanted(named, *place), "file {file} at {at}");
    }
    Ok(())
}

// Each damage of this file by itself is answered by its place in the file that is named.
fn check_each(
    rt: &impl Abort,
    alloc: Global,
    file: u8,
    named: u8,
    damages: &[Damage],
) -> Result<(), Fail> {
    let mut made = made(alloc, &TWO)?;
    check_damages(rt, alloc, &mut made, file, named, damages)
}

/// The slot at 0 is open, and the one at 64 has a closed gate alone.
static CONTROLS: [Damage; 18] = [
    (1, b"X", Some(0)),
    // format, turn, files, size, block, microseconds
    (5, b"\0\0", Some(0)),
    (6, b"\x03", Some(0)),
    (7, b"\x03", Some(0)),
    (8, b"\0", Some(0)),
    (8, b"\x03", Some(0)),
    (9, b"\x02", Some(0)),
    (9, b"\x05", Some(0)),
    (10, b"\x04", Some(0)),
    (11, b"\0\0\0\x01", Some(0)),
    (11, b"\0\0\x27\x11", Some(0)),
    (15, b"\0\0\x07\xff", Some(0)),
    (15, b"\0\0\x40\x01", Some(0)),
    (27, b"\0\x0f\x42\x40", Some(0)),
    // the zeros behind
    (63, b"\x01", Some(0)),
    // the other slot: one that is open and breaks the grammar, and two that are not whole
    (64, &[0xa5; 64], Some(64)),
    (64, &[0xa5; 63], None),
    (64, b"\xa5KDBP\0\x02\0", None),
];

/// The base marker at 0, `a` with the serial 2 at 2048, and `b` with the serial 3 at 4096.
static LOGS: [Damage; 24] = [
    // kinds that there are not, or not with this key and row
    (13, b"\x06", Some(0)),
    (2048 + 13, b"\x06", Some(2048)),
    (2048 + 13, b"\0", Some(2048)),
    (2048 + 13, b"\x02", Some(2048)),
    (2048 + 13, b"\x04", Some(2048)),
    // a base marker with a unit, a key, a row, and a time that is not the base's
    (14, b"\0\0\0\x01", Some(0)),
    (18, b"\0\x01x", Some(0)),
    (20, b"\0\x01", Some(0)),
    (12, b"\x01", Some(0)),
    // a microsecond too many, and bytes behind the entry
    (2048 + 9, b"\0\x0f\x42\x40", Some(2048)),
    (2 * 2048 - 1, b"\x01", Some(2048)),
    // a key and a row past the block, and a key that is not the row's name
    (2048 + 18, b"\xff\xff", Some(2048)),
    (2048 + 33, b"\xff\xff", Some(2048)),
    (2048 + 20, b"x", Some(2048)),
    // serials of another slot, and before the base's
    (2048 + 1, b"\0\0\0\x03", Some(2048)),
    (2048 + 1, b"\0\0\0\0", Some(2048)),
    // a serial of this slot, to which the others do not run on, and a time before theirs
    (2048 + 1, b"\0\0\0\x05", Some(0)),
    (4096 + 5, b"\0", Some(0)),
    // a closed gate between the others
    (2048, b"\0", Some(0)),
    // the last entry's unit: none, past the end, and two in which the key of another unit would stand
    (4096 + 14, b"\0\0\0\0", Some(4096)),
    (4096 + 14, b"\0\0\0\x07", Some(4096)),
    (4096 + 14, b"\0\0\0\x06", Some(4096)),
    (4096 + 14, b"\0\0\0\x04", Some(4096)),
    // a closed gate at the end
    (4096, b"\0", None),
];

/// Units 1 to 3 have the first records, and 4 and 5 `a` and `b`, which the last entry changed.
static CELLS: [Damage; 16] = [
    // the magic, the format, the realm and the zeros of the first unit; its point is not compared
    (0, b"X", Some(0)),
    (4, b"\0\x01", Some(0)),
    (5, b"\x03", Some(0)),
    (8, b"_", Some(0)),
    (16383, b"\x01", Some(0)),
    (19, b"\0\0\0\x09", None),
    // a state that there is not, a free unit that is not all zeros, and a principal as a policy
    (2 * 16384, b"\x03", Some(2 * 16384)),
    (2 * 16384, b"\0", Some(2 * 16384)),
    (2 * 16384, b"\x02", Some(2 * 16384)),
    // a row past the unit, none, one with a kind of tag that there is not, and a byte behind one
    (16384 + 1, b"\xff\xff", Some(16384)),
    (16384 + 1, b"\0\0", Some(16384)),
    (16384 + 43, b"\x03", Some(16384)),
    (2 * 16384 - 1, b"\x01", Some(16384)),
    // the units before the last entry's, and that one, which is done again whatever it has
    (5 * 16384 - 1, b"\x01", Some(4 * 16384)),
    (5 * 16384, b"\x09\x09\x09\x09\x09\x09\x09\x09", None),
    (6 * 16384 - 1, b"\x09", None),
];

/// The last entry's key in another unit: the entry in the log is named.
static OTHER_KEY: [Damage; 1] = [(4 * 16384 + 5, b"b", Some(4096))];

#[test]
fn a_damaged_place_is_named(rt: HostRuntime) -> Result<(), Fail> {
    check_each(&rt, rt.alloc(), 0, 0, &CONTROLS)?;
    check_each(&rt, rt.alloc(), 3, 3, &LOGS)?;
    check_each(&rt, rt.alloc(), 1, 1, &CELLS)?;
    check_each(&rt, rt.alloc(), 1, 3, &OTHER_KEY)
}

// ---- the control file

static CONTROL: [Turn; 6] = [
    Done(Create(T0, 2)),
    Done(Write(0, 1, b"X")),
    Refused(Create(T0, 2), Refusal::AlreadyThere),
    Damaged(Destroy, 0, 0),
    Done(Write(0, 0, b"\0")),
    Refused(Open, Refusal::NotADatabase),
];

/// Two open slots: the first once more, then of other turns and without a stash.
static NEWER: [Turn; 13] = [
    Done(Create(T0, 2)),
    Done(Write(
        0,
        64,
        b"\xa5KDBP\0\x02\0\x01\x03\x05\0\0\0\x02\0\0\x08\0\0\0\0\x01\x65\x53\xf1\0\0\0\0\0",
    )),
    Done(Write(0, 95, &[0; 33])),
    Damaged(Open, 0, 64),
    Done(Write(0, 74, b"\0")),
    Done(Write(0, 71, b"\x01")),
    Seen(Stash(None)),
    Done(Write(0, 71, b"\x02")),
    Seen(Stash(Some(STASH))),
    Done(Write(0, 0, b"\0")),
    Seen(Stash(None)),
    Done(Write(0, 64, b"\0")),
    Refused(Open, Refusal::NotADatabase),
];

// ---- the rows

/// The row of the unit 1 once more, in the unit 3.
static TWICE: [Turn; 3] = [
    Done(Create(T0, 2)),
    Done(WriteRow(1, 3 * 16384, b"\x01", KM, 16384)),
    Damaged(Open, 1, 3 * 16384),
];

// ---- the unit of the last entry

/// The last entry renames, puts a policy, or takes a record or a policy away. What is taken away alone may have
/// no unit.
static WITHOUT_UNIT: [Turn; 18] = [
    Done(Create(T0, 2)),
    Done(Commit(T0, Put(A))),
    Done(Commit(T0, Rename(b"a@EXAMPLE.ORG", B))),
    Done(Write(3, 4096 + 14, b"\0\0\0\0")),
    Damaged(Open, 3, 4096),
    Done(Write(3, 4096 + 14, b"\0\0\0\x04")),
    Done(Commit(T0, PutPolicy(POLICY))),
    Done(Write(3, 14, b"\0\0\0\0")),
    Damaged(Open, 3, 0),
    Done(Write(3, 14, b"\0\0\0\x05")),
    Done(Commit(T0, Drop(b"b@EXAMPLE.ORG"))),
    Done(Write(3, 2048 + 14, b"\0\0\0\0")),
    Done(Open),
    Seen(Lacks(b"b@EXAMPLE.ORG")),
    Done(Commit(T0, DropPolicy(b"std"))),
    Done(Write(3, 4096 + 14, b"\0\0\0\0")),
    Done(Open),
    Seen(LacksPolicy(b"std")),
];

// ---- files that are cut off

static CUT: [Turn; 9] = [
    Done(Create(T0, 2)),
    Done(Commit(T0, Put(A))),
    Done(Commit(T0, Put(B))),
    // the last slot without its last byte, and then no open one
    Done(Cut(3, 6143)),
    Seen(Holds((1, T0), (2, T0))),
    Done(Cut(3, 2047)),
    Damaged(Open, 3, 0),
    Done(Cut(0, 63)),
    Refused(Open, Refusal::NotADatabase),
];

/// A file of rows without a whole unit, where the last entry changes none.
static SHORT: [Turn; 3] = [
    Done(Create(T0, 2)),
    Done(Cut(1, 16383)),
    Damaged(Open, 1, 0),
];

#[test]
fn damaged_files_are_refused(rt: HostRuntime) -> Result<(), Fail> {
    play(&rt, rt.alloc(), &CONTROL)?;
    play(&rt, rt.alloc(), &NEWER)?;
    play(&rt, rt.alloc(), &TWICE)?;
    play(&rt, rt.alloc(), &WITHOUT_UNIT)?;
    play(&rt, rt.alloc(), &CUT)?;
    play(&rt, rt.alloc(), &SHORT)
}
