//! What stands in the files: rows in their units, the size of the log, and files of format 1.

use crate::accounts::KEYS;
use crate::runs::{
    Answer, NO_FAULTS, Turn, all_files, check, check_answers, check_run, check_turns, check_words,
    created, dumped, empty_disk, run_at, with_byte,
};
use kdb_base::{Status, Time};
use kdb_disk::{MemoryDisk, replace_file};
use std::alloc::Global;
use std::process::Abort;
use std::test::Fail;

/// Runs `admin` with one line, and compares how long the file of rows is afterwards.
fn check_length(
    rt: &impl Abort,
    alloc: Global,
    disk: &mut MemoryDisk,
    line: &'static str,
    reply: &'static str,
    length: usize,
) -> Result<(), Fail> {
    let turns: [Turn; 1] = [(line, reply)];
    check_turns(rt, alloc, disk, "admin", &turns)?;
    assert_eq!(rt; disk.bytes(1).len(), length, "{line}");
    Ok(())
}

/// A line of `admin`, the reply to it, and how long the file of rows is then.
type Length = (&'static str, &'static str, usize);

const BOB_COMES_AND_GOES: [Length; 2] = [
    ("addprinc -nokey bob", "ok 2 1700000000.000000", 81920),
    ("delprinc bob", "ok 3 1700000000.000000", 81920),
];

const TWO_COME: [Length; 3] = [
    ("addprinc -nokey carol", "ok 4 1700000000.000000", 81920),
    ("addprinc -nokey dave", "ok 5 1700000000.000000", 98304),
    ("renprinc carol zoe", "ok 6 1700000000.000000", 98304),
];

fn check_lengths(
    rt: &impl Abort,
    alloc: Global,
    disk: &mut MemoryDisk,
    lengths: &[Length],
) -> Result<(), Fail> {
    for (line, reply, length) in lengths.iter() {
        check_length(rt, alloc, disk, *line, *reply, *length)?;
    }
    Ok(())
}

/// A principal's row: its state, its length, and its counted name.
fn check_zoe(rt: &impl Abort, disk: &MemoryDisk) {
    let unit = disk.bytes(1).get(65536..81920).unwrap_or(&[]);
    assert!(rt; unit.starts_with(b"\x01"));
    assert!(rt;
        unit.get(3..)
            .unwrap_or(&[])
            .starts_with(b"\0\x0fzoe@EXAMPLE.ORG")
    );
}

fn check_units(rt: &impl Abort, alloc: Global, disk: &mut MemoryDisk) -> Result<(), Fail> {
    // A unit of 16384 bytes for the file's own, and one for each of K/M, kadmin/history and krbtgt.
    assert_eq!(rt; disk.bytes(1).len(), 65536);
    check_lengths(rt, alloc, disk, &BOB_COMES_AND_GOES)?;
    assert!(rt; disk.bytes(1).iter().skip(65536).all(|byte| *byte == 0));
    check_lengths(rt, alloc, disk, &TWO_COME)?;
    check_zoe(rt, disk);
    Ok(())
}

#[test]
fn a_row_has_a_unit_of_its_own(rt: HostRuntime) -> Result<(), Fail> {
    let mut disk = created(rt.alloc(), &[])?;
    check_units(&rt, rt.alloc(), &mut disk)
}

/// The control slot behind another size: turn 1, log file 4, size 5, base 1 1700000000.000001.
const SLOT_OF_FIVE: [u8; 31] = [
    0xa5, 0x4b, 0x44, 0x42, 0x50, 0x00, 0x02, 0x01, 0x01, 0x04, 0x05, 0x00, 0x00, 0x00, 0x05, 0x00,
    0x00, 0x08, 0x00, 0x00, 0x00, 0x00, 0x01, 0x65, 0x53, 0xf1, 0x00, 0x00, 0x00, 0x00, 0x01,
];

const BOB: [Turn; 1] = [("addprinc -nokey bob", "ok 2 1700000000.000001")];

const CAROL: [Turn; 1] = [("addprinc -nokey carol", "ok 3 1700000000.000001")];

fn check_size_of_five(rt: &impl Abort, alloc: Global, disk: &mut MemoryDisk) -> Result<(), Fail> {
    check_turns(rt, alloc, disk, "admin -ulogsize 5", &BOB)?;
    assert!(rt;
        disk.bytes(0)
            .get(64..)
            .unwrap_or(&[])
            .starts_with(&SLOT_OF_FIVE)
    );
    check_turns(rt, alloc, disk, "admin -ulogsize 5", &CAROL)
}

#[test]
fn another_size_begins_the_log_anew(rt: HostRuntime) -> Result<(), Fail> {
    let mut disk = created(rt.alloc(), &[])?;
    check_size_of_five(&rt, rt.alloc(), &mut disk)
}

/// The last moment that there is.
const LAST_MOMENT: (u32, u32) = (4_294_967_295, 999_999);

fn check_made_last(rt: &impl Abort, alloc: Global, disk: &mut MemoryDisk) -> Result<(), Fail> {
    let last = Time::new(LAST_MOMENT.0, LAST_MOMENT.1);
    let words = "create EXAMPLE.ORG";
    let made = run_at(alloc, disk, words, b"", &NO_FAULTS, last)?;
    check(rt, &made, Status::Done, b"ok 1 4294967295.999999\n");
    Ok(())
}

const NO_LATER: [Answer; 2] = [
    ("admin -ulogsize 5", b"err 23 TimeEnd\n"),
    ("kproplog -R", b"err 23 TimeEnd\n"),
];

/// Time never goes back.
const LAST_BOB: [Turn; 1] = [("addprinc -nokey bob", "ok 2 4294967295.999999")];

fn check_last_moment(rt: &impl Abort, alloc: Global, disk: &mut MemoryDisk) -> Result<(), Fail> {
    check_made_last(rt, alloc, disk)?;
    check_answers(rt, alloc, disk, &NO_LATER)?;
    check_turns(rt, alloc, disk, "admin", &LAST_BOB)
}

#[test]
fn no_log_is_begun_behind_the_last_moment(rt: HostRuntime) -> Result<(), Fail> {
    let mut disk = empty_disk(rt.alloc(), &[])?;
    check_last_moment(&rt, rt.alloc(), &mut disk)
}

/// The rows of a file of format 2 in units of 8192 bytes, as format 1 has them.
fn short_units(alloc: Global, bytes: &[u8]) -> Result<Vec<u8>, Fail> {
    let mut short = Vec::new(alloc);
    for unit in bytes.chunks(16384) {
        short.extend_from_slice(unit.get(..8192).unwrap_or(&[]))?;
    }
    // The format stands behind the file's word.
    with_byte(alloc, &short, 5, 1)
}

fn shorten_units(alloc: Global, disk: &mut MemoryDisk) -> Result<(), Fail> {
    let rows = short_units(alloc, disk.bytes(1))?;
    replace_file(disk, 1, &rows)?;
    Ok(())
}

/// Gives the control file this byte at this place.
fn change_control(alloc: Global, disk: &mut MemoryDisk, at: usize, byte: u8) -> Result<(), Fail> {
    let control = with_byte(alloc, disk.bytes(0), at, byte)?;
    replace_file(disk, 0, &control)?;
    Ok(())
}

/// Gives a database format 1: 1 for its format, and units of 8192 bytes.
fn make_format1(alloc: Global, disk: &mut MemoryDisk) -> Result<(), Fail> {
    shorten_units(alloc, disk)?;
    change_control(alloc, disk, 6, 1)
}

fn move_rows(alloc: Global, disk: &mut MemoryDisk) -> Result<(), Fail> {
    let rows = with_byte(alloc, disk.bytes(1), 22, 2)?;
    replace_file(disk, 1, &rows)?;
    Ok(())
}

fn move_log(alloc: Global, disk: &mut MemoryDisk) -> Result<(), Fail> {
    let log = with_byte(alloc, disk.bytes(3), 4, 2)?;
    replace_file(disk, 3, &log)?;
    Ok(())
}

/// Gives the base point of a creation the serial 2: the control file, the rows and the log have it.
fn move_base(alloc: Global, disk: &mut MemoryDisk) -> Result<(), Fail> {
    change_control(alloc, disk, 22, 2)?;
    move_rows(alloc, disk)?;
    move_log(alloc, disk)
}

fn make_moved_format1(alloc: Global, disk: &mut MemoryDisk) -> Result<(), Fail> {
    make_format1(alloc, disk)?;
    move_base(alloc, disk)
}

/// A database of format 1 at 2 1700000000.000000.
fn created_format1(alloc: Global) -> Result<MemoryDisk, Fail> {
    let mut disk = created(alloc, &[])?;
    make_moved_format1(alloc, &mut disk)?;
    Ok(disk)
}

const NAMES: [Turn; 1] = [(
    "listprincs",
    "- K/M@EXAMPLE.ORG\n- bob@EXAMPLE.ORG\n- kadmin/history@EXAMPLE.ORG\n\
- krbtgt/EXAMPLE.ORG@EXAMPLE.ORG\nok",
)];

/// Slot 1: format 2, turn 1, image file 2, log file 4; five units in file 2.
fn check_slot(rt: &impl Abort, disk: &MemoryDisk) {
    let slot = disk.bytes(0).get(64..).unwrap_or(&[]);
    assert!(rt; slot.starts_with(b"\xa5KDBP\0\x02\x01\x02\x04\x05"));
    assert_eq!(rt; disk.bytes(2).len(), 81920);
}

fn check_becoming(rt: &impl Abort, alloc: Global, disk: &mut MemoryDisk) -> Result<(), Fail> {
    assert_eq!(rt; disk.bytes(1).len(), 32768);
    check_turns(rt, alloc, disk, "admin", &BOB)?;
    check_slot(rt, disk);
    check_turns(rt, alloc, disk, "admin", &NAMES)
}

#[test]
fn files_of_format_1_become_format_2(rt: HostRuntime) -> Result<(), Fail> {
    let mut disk = created_format1(rt.alloc())?;
    check_becoming(&rt, rt.alloc(), &mut disk)
}

/// Tells of a database at 2 1700000000.000000 without keys of others than its own.
fn check_words_told(
    rt: &impl Abort,
    alloc: Global,
    disk: &mut MemoryDisk,
    log: &[u8],
) -> Result<(), Fail> {
    check_words(rt, alloc, disk, "kproplog", log)?;
    check_words(rt, alloc, disk, "report keys", KEYS)?;
    let dump = dumped(alloc, disk)?;
    let front = b"kdb dump 2\nrealm EXAMPLE.ORG\npoint 2 1700000000.000000\nprinc ";
    assert!(rt; dump.starts_with(front));
    Ok(())
}

/// The same, and compares all files.
fn check_told(
    rt: &impl Abort,
    alloc: Global,
    disk: &mut MemoryDisk,
    log: &[u8],
) -> Result<(), Fail> {
    let before = all_files(alloc, disk)?;
    check_words_told(rt, alloc, disk, log)?;
    let after = all_files(alloc, disk)?;
    assert!(rt; after.as_slice() == before.as_slice());
    Ok(())
}

const LOG: &[u8] = b"- first 2 1700000000.000000\n- last 2 1700000000.000000\n\
- size 1000 block 2048\n- 2 1700000000.000000 base\nok\n";

const LOG_WITH_BOB: &[u8] = b"- first 1 1700000000.000000\n- last 2 1700000000.000000\n\
- size 1000 block 2048\n- 1 1700000000.000000 base\n- 2 1700000000.000000 put bob@EXAMPLE.ORG\nok\n";

fn check_told_of_none(rt: &impl Abort, alloc: Global) -> Result<(), Fail> {
    let mut disk = created_format1(alloc)?;
    check_told(rt, alloc, &mut disk, LOG)
}

fn add_bob(rt: &impl Abort, alloc: Global, disk: &mut MemoryDisk) -> Result<(), Fail> {
    let bob = b"addprinc -nokey bob\n";
    let added = b"ok 2 1700000000.000000\n";
    check_run(rt, alloc, disk, "admin", bob, added)?;
    make_format1(alloc, disk)
}

/// The last change, which an opening does again, leaves the files as they are too.
fn check_told_of_bob(rt: &impl Abort, alloc: Global) -> Result<(), Fail> {
    let mut disk = created(alloc, &[])?;
    add_bob(rt, alloc, &mut disk)?;
    check_told(rt, alloc, &mut disk, LOG_WITH_BOB)
}

#[test]
fn what_is_told_leaves_format_1(rt: HostRuntime) -> Result<(), Fail> {
    check_told_of_none(&rt, rt.alloc())?;
    check_told_of_bob(&rt, rt.alloc())
}

/// A log begun anew by the opening, one of five entries, and one begun anew once more.
const ANEW: &[u8] = b"- first 1 1700000000.000001\n- last 1 1700000000.000001\n\
- size 1000 block 2048\n- 1 1700000000.000001 base\nok\n";

const ANEW_OF_FIVE: &[u8] = b"- first 1 1700000000.000001\n- last 1 1700000000.000001\n\
- size 5 block 2048\n- 1 1700000000.000001 base\nok\n";

const ANEW_TWICE: &[u8] = b"- first 1 1700000000.000002\n- last 1 1700000000.000002\n\
- size 1000 block 2048\n- 1 1700000000.000002 base\nok\n";

/// Words that open a database of format 1, the input, the reply, and the log behind them.
const OPENED: [(&str, &[u8], &[u8], &[u8]); 5] = [
    (
        "admin",
        b"getprinc nobody\n",
        b"err 4 UnknownPrincipal\n",
        ANEW,
    ),
    (
        "list_mkeys",
        b"",
        b"- 1 aes256-cts-hmac-sha1-96 2023-11-14T22:13:20Z *\nok\n",
        ANEW,
    ),
    ("ktadd a@OTHER", b"", b"err 2 BadName 2\n", ANEW),
    ("admin -ulogsize 5", b"", b"", ANEW_OF_FIVE),
    ("kproplog -R", b"", b"ok 1 1700000000.000002\n", ANEW_TWICE),
];

/// The reply, and how the files stand behind it.
fn check_opening(
    rt: &impl Abort,
    alloc: Global,
    disk: &mut MemoryDisk,
    words: &str,
    input: &[u8],
    reply: &[u8],
) -> Result<(), Fail> {
    check_run(rt, alloc, disk, words, input, reply)?;
    // Slot 1: format 2, turn 1, image file 2, log file 4.
    let slot = disk.bytes(0).get(64..).unwrap_or(&[]);
    assert!(rt; slot.starts_with(b"\xa5KDBP\0\x02\x01\x02\x04\x05"));
    Ok(())
}

fn check_opened(
    rt: &impl Abort,
    alloc: Global,
    words: &str,
    input: &[u8],
    reply: &[u8],
    log: &[u8],
) -> Result<(), Fail> {
    let mut disk = created_format1(alloc)?;
    check_opening(rt, alloc, &mut disk, words, input, reply)?;
    check_words(rt, alloc, &mut disk, "kproplog", log)
}

fn dumped_format1(alloc: Global) -> Result<Vec<u8>, Fail> {
    let mut disk = created_format1(alloc)?;
    dumped(alloc, &mut disk)
}

#[test]
fn an_opening_makes_format_2(rt: HostRuntime) -> Result<(), Fail> {
    for (words, input, reply, log) in OPENED {
        check_opened(&rt, rt.alloc(), words, input, reply, log)?;
    }
    let dump = dumped_format1(rt.alloc())?;
    let loaded = b"ok 1 1700000000.000002\n";
    check_opened(&rt, rt.alloc(), "load", &dump, loaded, ANEW_TWICE)
}
