//! Databases made, opened and ended.

use crate::runs::{
    Answer, NO_FAULTS, Turn, check, check_answers, check_reading, check_turns, check_words,
    created, empty_disk, run_at,
};
use kdb_base::{Status, Time};
use kdb_disk::{MemoryDisk, replace_file};
use std::alloc::Global;
use std::process::Abort;
use std::test::Fail;

/// The control slot of a creation at 1700000000.000000: an open gate, its word, format 2, turn 0, image
/// file 1, log file 3, stash file 5, size 1000, block 2048 and base point; zeros stand behind.
const FIRST_SLOT: [u8; 32] = [
    0xa5, 0x4b, 0x44, 0x42, 0x50, 0x00, 0x02, 0x00, 0x01, 0x03, 0x05, 0x00, 0x00, 0x03, 0xe8, 0x00,
    0x00, 0x08, 0x00, 0x00, 0x00, 0x00, 0x01, 0x65, 0x53, 0xf1, 0x00, 0x00, 0x00, 0x00, 0x00, 0x00,
];

/// A line that changes a new database.
const ALICE: [Turn; 1] = [("addprinc -nokey alice", "ok 2 1700000000.000000")];

fn check_made(rt: &impl Abort, alloc: Global, disk: &mut MemoryDisk) -> Result<(), Fail> {
    let made = b"ok 1 1700000000.000000\n";
    check_words(rt, alloc, disk, "create EXAMPLE.ORG", made)?;
    assert!(rt; disk.bytes(0).starts_with(&FIRST_SLOT));
    assert!(rt; disk.bytes(0).iter().skip(31).all(|byte| *byte == 0));
    Ok(())
}

/// The end of a database, and words around it.
const ENDED: [Answer; 4] = [
    ("create EXAMPLE.ORG", b"err 21 AlreadyThere\n"),
    ("destroy", b"ok\n"),
    ("admin", b"err 20 NotADatabase\n"),
    ("destroy", b"err 20 NotADatabase\n"),
];

fn check_made_again(rt: &impl Abort, alloc: Global, disk: &mut MemoryDisk) -> Result<(), Fail> {
    let words = "create EXAMPLE.ORG";
    let later = Time::new(1_700_000_001, 0);
    let again = run_at(alloc, disk, words, b"", &NO_FAULTS, later)?;
    check(rt, &again, Status::Done, b"ok 1 1700000001.000000\n");
    check_words(rt, alloc, disk, words, b"err 21 AlreadyThere\n")
}

fn check_life(rt: &impl Abort, alloc: Global, disk: &mut MemoryDisk) -> Result<(), Fail> {
    check_made(rt, alloc, disk)?;
    check_turns(rt, alloc, disk, "admin", &ALICE)?;
    check_answers(rt, alloc, disk, &ENDED)?;
    check_made_again(rt, alloc, disk)
}

#[test]
fn a_database_is_made_changed_and_ended(rt: HostRuntime) -> Result<(), Fail> {
    let mut disk = empty_disk(rt.alloc(), &[])?;
    check_life(&rt, rt.alloc(), &mut disk)
}

fn check_no_lines(rt: &impl Abort, alloc: Global, disk: &mut MemoryDisk) -> Result<(), Fail> {
    check_reading(rt, alloc, disk, "admin", b"")?;
    check_turns(rt, alloc, disk, "admin", &ALICE)?;
    check_reading(rt, alloc, disk, "admin", b"")
}

// The last change, which an opening does again, leaves the files as they are too.
#[test]
fn no_lines_change_no_file(rt: HostRuntime) -> Result<(), Fail> {
    let mut disk = created(rt.alloc(), &[])?;
    check_no_lines(&rt, rt.alloc(), &mut disk)
}

/// Words, and the reply to them on an empty disk.
const WORDS: [Answer; 20] = [
    ("frob", b"err 1 BadLine\n"),
    ("", b"err 1 BadLine\n"),
    ("admin x", b"err 1 BadLine\n"),
    ("admin -- --", b"err 1 BadLine\n"),
    ("admin -P x", b"err 1 BadLine\n"),
    ("admin -ulogsize 1", b"err 13 BadValue ulogsize\n"),
    ("create", b"err 1 BadLine\n"),
    ("create EXAMPLE.ORG x", b"err 1 BadLine\n"),
    ("create -P x", b"err 1 BadLine\n"),
    ("create R -P a -P b", b"err 1 BadLine\n"),
    ("create EXAMPLE_ORG", b"err 13 BadValue realm\n"),
    ("create R -ulogsize 10001", b"err 13 BadValue ulogsize\n"),
    (
        "create R -e aes256-cts,aes128-cts",
        b"err 13 BadValue enctypes\n",
    ),
    ("create ", b"err 13 BadValue realm\n"),
    ("destroy x", b"err 1 BadLine\n"),
    ("destroy -f -f", b"err 1 BadLine\n"),
    ("destroy -- -f", b"err 1 BadLine\n"),
    ("admin -ulogsize 5 --", b"err 20 NotADatabase\n"),
    ("destroy -f --", b"err 20 NotADatabase\n"),
    ("create -P --", b"ok 1 1700000000.000000\n"),
];

fn check_first_words(
    rt: &impl Abort,
    alloc: Global,
    words: &str,
    reply: &[u8],
) -> Result<(), Fail> {
    let mut disk = empty_disk(alloc, &[])?;
    check_words(rt, alloc, &mut disk, words, reply)
}

#[test]
fn words_are_judged_first(rt: HostRuntime) -> Result<(), Fail> {
    for (words, reply) in WORDS {
        check_first_words(&rt, rt.alloc(), words, reply)?;
    }
    Ok(())
}

/// Words of a creation at 1700000000, and the stash that it makes: one entry of the components K and M, of version 1,
/// with the type and the bytes of the master key. The keys of the password masterpw with the salt
/// EXAMPLE.ORGKM were made by the rules of RFC 3962 and RFC 8009 with Python's hashlib and OpenSSL's AES. The
/// random key is the beginning of the key stream of the first vector of RFC 8439, A.1.
const STASHES: [(&str, &str); 5] = [
    (
        "create EXAMPLE.ORG -P masterpw",
        "0502000000460002000b4558414d504c452e4f524700014b00014d000000016553f1000100120020\
488b7b932f3b0bd4834d1a4308afca8d81b278505e5f996346a9a85b1690ca7c00000001",
    ),
    (
        "create EXAMPLE.ORG -P masterpw -e aes128-cts",
        "0502000000360002000b4558414d504c452e4f524700014b00014d000000016553f1000100110010\
b8bc18852cffbe266b8922008dd4e84000000001",
    ),
    (
        "create EXAMPLE.ORG -P masterpw -e aes128-sha2",
        "0502000000360002000b4558414d504c452e4f524700014b00014d000000016553f1000100130010\
6c6deca73c478a16c20399c41daeb3ec00000001",
    ),
    (
        "create EXAMPLE.ORG -P masterpw -e aes256-sha2",
        "0502000000460002000b4558414d504c452e4f524700014b00014d000000016553f1000100140020\
4002938d96d310f97c16ece2a11123bd79d789d3b68233095c488d47a77ca3e300000001",
    ),
    (
        "create EXAMPLE.ORG",
        "0502000000460002000b4558414d504c452e4f524700014b00014d000000016553f1000100120020\
76b8e0ada0f13d90405d6ae55386bd28bdd219b8a08ded1aa836efcc8b770dc700000001",
    ),
];

fn push_digits(alloc: Global, digits: &mut Vec<u8>, byte: u8) -> Result<(), Fail> {
    let text = format!(in alloc; "{byte:02x}")?;
    digits.extend_from_slice(text.as_bytes())?;
    Ok(())
}

/// Bytes in hexadecimal digits.
pub(crate) fn hex_of(alloc: Global, bytes: &[u8]) -> Result<Vec<u8>, Fail> {
    let mut digits = Vec::new(alloc);
    for byte in bytes {
        push_digits(alloc, &mut digits, *byte)?;
    }
    Ok(digits)
}

fn check_made_stash(
    rt: &impl Abort,
    alloc: Global,
    disk: &mut MemoryDisk,
    words: &str,
    stash: &str,
) -> Result<(), Fail> {
    check_words(rt, alloc, disk, words, b"ok 1 1700000000.000000\n")?;
    let digits = hex_of(alloc, disk.bytes(5))?;
    assert_eq!(rt; digits.as_slice(), stash.as_bytes());
    check_words(rt, alloc, disk, "admin", b"")
}

fn check_stash(rt: &impl Abort, alloc: Global, words: &str, stash: &str) -> Result<(), Fail> {
    let mut disk = empty_disk(alloc, &[])?;
    check_made_stash(rt, alloc, &mut disk, words, stash)
}

#[test]
fn a_stash_has_the_master_key(rt: HostRuntime) -> Result<(), Fail> {
    for (words, stash) in STASHES {
        check_stash(&rt, rt.alloc(), words, stash)?;
    }
    Ok(())
}

/// What stands in the stash of a database, and the answer to its opening.
const WRONG_STASHES: [(&[u8], &[u8]); 7] = [
    (b"\x05\x01", b"err 22 Damaged 5 0\n"),
    (b"\x05\x02", b"err 18 StashMissing\n"),
    // An entry of size 0 ends the stash.
    (b"\x05\x02\0\0\0\0abc", b"err 18 StashMissing\n"),
    // An entry and a hole past the end.
    (b"\x05\x02\0\0\0\x46abc", b"err 22 Damaged 5 2\n"),
    (b"\x05\x02\xff\xff\xff\xfea", b"err 22 Damaged 5 2\n"),
    // Version 9 alone, and another key of version 1.
    (
        b"\x05\x02\0\0\0\x36\0\x02\0\x0bEXAMPLE.ORG\0\x01K\0\x01M\0\0\0\x01\x65\x53\xf1\0\x09\0\x11\0\x10\
0123456789abcdef\0\0\0\x09",
        b"err 16 UnknownMaster 9\n",
    ),
    (
        b"\x05\x02\0\0\0\x46\0\x02\0\x0bEXAMPLE.ORG\0\x01K\0\x01M\0\0\0\x01\x65\x53\xf1\0\x01\0\x12\0\x20\
0123456789abcdef0123456789abcdef\0\0\0\x01",
        b"err 19 StashWrong\n",
    ),
];

fn check_put_stash(
    rt: &impl Abort,
    alloc: Global,
    disk: &mut MemoryDisk,
    stash: &[u8],
    reply: &[u8],
) -> Result<(), Fail> {
    replace_file(disk, 5, stash)?;
    check_words(rt, alloc, disk, "admin", reply)?;
    // Its end wants none.
    check_words(rt, alloc, disk, "destroy", b"ok\n")
}

fn check_wrong_stash(
    rt: &impl Abort,
    alloc: Global,
    stash: &[u8],
    reply: &[u8],
) -> Result<(), Fail> {
    let mut disk = created(alloc, &[])?;
    check_put_stash(rt, alloc, &mut disk, stash, reply)
}

#[test]
fn an_opening_wants_the_stash(rt: HostRuntime) -> Result<(), Fail> {
    for (stash, reply) in WRONG_STASHES {
        check_wrong_stash(&rt, rt.alloc(), stash, reply)?;
    }
    Ok(())
}

fn push_slot(control: &mut Vec<u8>) -> Result<(), Fail> {
    control.extend_from_slice(&FIRST_SLOT)?;
    control.extend_from_slice(&[0; 32])?;
    Ok(())
}

/// Two open slots with equal turns.
fn equal_slots(alloc: Global) -> Result<Vec<u8>, Fail> {
    let mut control = Vec::new(alloc);
    push_slot(&mut control)?;
    push_slot(&mut control)?;
    Ok(control)
}

fn check_damaged_rows(rt: &impl Abort, alloc: Global, disk: &mut MemoryDisk) -> Result<(), Fail> {
    replace_file(disk, 1, b"KDBC")?;
    check_words(rt, alloc, disk, "admin", b"err 22 Damaged 1 0\n")
}

const OF_EQUAL_SLOTS: [Answer; 3] = [
    ("admin", b"err 22 Damaged 0 64\n"),
    ("destroy", b"err 22 Damaged 0 64\n"),
    ("create EXAMPLE.ORG", b"err 21 AlreadyThere\n"),
];

fn check_equal_slots(rt: &impl Abort, alloc: Global, disk: &mut MemoryDisk) -> Result<(), Fail> {
    let control = equal_slots(alloc)?;
    replace_file(disk, 0, &control)?;
    check_answers(rt, alloc, disk, &OF_EQUAL_SLOTS)
}

#[test]
fn a_damaged_file_is_refused(rt: HostRuntime) -> Result<(), Fail> {
    let mut disk = created(rt.alloc(), &[])?;
    check_damaged_rows(&rt, rt.alloc(), &mut disk)?;
    check_equal_slots(&rt, rt.alloc(), &mut disk)
}
