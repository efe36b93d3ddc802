//! Keytabs that are read from an input, changed and written, by the words of the program. What is written is shown in
//! hexadecimal digits. The keys are random bytes of ChaCha20 under zeros (RFC 8439): a key's bytes, then 16 for its
//! wrapping.

use crate::databases::hex_of;
use crate::runs::{
    Answer, Faults, NO_FAULTS, Outcome, check_answers, check_outcome, check_turns, created,
    repeated, run,
};
use kdb_base::Status;
use kdb_disk::MemoryDisk;
use std::alloc::Global;
use std::process::Abort;
use std::test::Fail;

/// A keytab of alice's keys of version 1: 136 bytes.
const FIRST: &[u8] = b"0502\
000000470001000b4558414d504c452e4f52470005616c696365000000016553f10001\
0012002076b8e0ada0f13d90405d6ae55386bd28bdd219b8a08ded1aa836efcc8b770dc700000001\
000000370001000b4558414d504c452e4f52470005616c696365000000016553f10001\
001100106a43b8f41518a11cc387b669b2ee658600000001";

/// The entries of version 2. Each run has the same random bytes.
const SECOND: &[u8] = b"\
000000470001000b4558414d504c452e4f52470005616c696365000000016553f10002\
0012002076b8e0ada0f13d90405d6ae55386bd28bdd219b8a08ded1aa836efcc8b770dc700000002\
000000370001000b4558414d504c452e4f52470005616c696365000000016553f10002\
001100106a43b8f41518a11cc387b669b2ee658600000002";

// The keytab that a run writes of this one.
fn written(
    rt: &impl Abort,
    alloc: Global,
    disk: &mut MemoryDisk,
    words: &str,
    keytab: &[u8],
) -> Result<Vec<u8>, Fail> {
    let Outcome { status, replies } = run(alloc, disk, words, keytab, &NO_FAULTS)?;
    assert_eq!(rt; status, Status::Done);
    Ok(replies)
}

fn with_alice(rt: &impl Abort, alloc: Global) -> Result<MemoryDisk, Fail> {
    let mut disk = created(alloc, &[])?;
    let added = [("addprinc -randkey alice", "ok 2 1700000000.000000")];
    check_turns(rt, alloc, &mut disk, "admin", &added)?;
    Ok(disk)
}

/// A keytab's digits begin so, and end with the entries of version 2.
fn check_digits(rt: &impl Abort, alloc: Global, keytab: &[u8], front: &[u8]) -> Result<(), Fail> {
    let digits = hex_of(alloc, keytab)?;
    assert!(rt; digits.starts_with(front) && digits.ends_with(SECOND));
    Ok(())
}

/// What a run writes of this keytab is this other one.
fn check_written(
    rt: &impl Abort,
    alloc: Global,
    disk: &mut MemoryDisk,
    words: &str,
    keytab: &[u8],
    wanted: &[u8],
) -> Result<(), Fail> {
    let keytab = written(rt, alloc, disk, words, keytab)?;
    assert_eq!(rt; keytab.as_slice(), wanted);
    Ok(())
}

fn check_refused(
    rt: &impl Abort,
    alloc: Global,
    disk: &mut MemoryDisk,
    words: &str,
    keytab: &[u8],
    reply: &[u8],
) -> Result<(), Fail> {
    let refused = Status::Refused;
    check_outcome(rt, alloc, disk, words, keytab, &NO_FAULTS, refused, reply)
}

/// A keytab with the keys of version 1.
fn first_keys(rt: &impl Abort, alloc: Global, disk: &mut MemoryDisk) -> Result<Vec<u8>, Fail> {
    let first = written(rt, alloc, disk, "ktadd -norandkey alice", b"")?;
    let digits = hex_of(alloc, &first)?;
    assert_eq!(rt; digits.as_slice(), FIRST);
    Ok(first)
}

/// The same with those of version 2 behind them.
fn both_keys(
    rt: &impl Abort,
    alloc: Global,
    disk: &mut MemoryDisk,
    first: &[u8],
) -> Result<Vec<u8>, Fail> {
    let changed = [("cpw -randkey alice", "ok 3 1700000000.000000")];
    check_turns(rt, alloc, disk, "admin", &changed)?;
    let both = written(rt, alloc, disk, "ktadd -norandkey -- alice", first)?;
    assert_eq!(rt; both.len(), 270);
    check_digits(rt, alloc, &both, FIRST)?;
    Ok(both)
}

fn check_newer(
    rt: &impl Abort,
    alloc: Global,
    disk: &mut MemoryDisk,
    both: &[u8],
) -> Result<(), Fail> {
    let words = "ktremove alice@EXAMPLE.ORG old";
    let newer = written(rt, alloc, disk, words, both)?;
    assert_eq!(rt; newer.len(), 136);
    check_digits(rt, alloc, &newer, b"0502")
}

/// Entries are taken out of the keytab with both versions.
fn check_removing(
    rt: &impl Abort,
    alloc: Global,
    disk: &mut MemoryDisk,
    first: &[u8],
    both: &[u8],
) -> Result<(), Fail> {
    check_newer(rt, alloc, disk, both)?;
    check_written(rt, alloc, disk, "ktremove alice@EXAMPLE.ORG 2", both, first)?;
    let none = b"\x05\x02";
    check_written(
        rt,
        alloc,
        disk,
        "ktremove alice@EXAMPLE.ORG all",
        both,
        none,
    )?;
    let reply = b"err 34 UnknownEntry\n";
    check_refused(rt, alloc, disk, "ktremove alice@EXAMPLE.ORG 9", both, reply)
}

fn check_standing(rt: &impl Abort, alloc: Global, disk: &mut MemoryDisk) -> Result<(), Fail> {
    let first = first_keys(rt, alloc, disk)?;
    let both = both_keys(rt, alloc, disk, &first)?;
    check_removing(rt, alloc, disk, &first, &both)
}

// Keys are added behind those that are there, and the older ones are taken out.
#[test]
fn keys_that_stand(rt: HostRuntime) -> Result<(), Fail> {
    let mut disk = with_alice(&rt, rt.alloc())?;
    check_standing(&rt, rt.alloc(), &mut disk)
}

/// A keytab with new keys, of version 2.
fn second_keys(rt: &impl Abort, alloc: Global, disk: &mut MemoryDisk) -> Result<Vec<u8>, Fail> {
    let second = written(rt, alloc, disk, "ktadd alice", b"")?;
    assert_eq!(rt; second.len(), 136);
    check_digits(rt, alloc, &second, b"0502")?;
    Ok(second)
}

/// More new keys are added behind them.
fn check_more_keys(rt: &impl Abort, alloc: Global, disk: &mut MemoryDisk) -> Result<(), Fail> {
    let second = second_keys(rt, alloc, disk)?;
    let both = written(rt, alloc, disk, "ktadd -- alice", &second)?;
    assert_eq!(rt; both.len(), 270);
    assert!(rt; both.starts_with(&second));
    Ok(())
}

fn check_new_keys(rt: &impl Abort, alloc: Global, disk: &mut MemoryDisk) -> Result<(), Fail> {
    check_more_keys(rt, alloc, disk)?;
    let reply = b"err 33 BadKeytab 0\n";
    check_refused(rt, alloc, disk, "ktadd alice", b"\x05\x03", reply)?;
    let changed = [("cpw -randkey -e aes128-cts alice", "ok 5 1700000000.000000")];
    check_turns(rt, alloc, disk, "admin", &changed)
}

// New keys are made, and added behind those that are there.
#[test]
fn keys_that_are_new(rt: HostRuntime) -> Result<(), Fail> {
    let mut disk = with_alice(&rt, rt.alloc())?;
    check_new_keys(&rt, rt.alloc(), &mut disk)
}

fn check_unwritten(rt: &impl Abort, alloc: Global, disk: &mut MemoryDisk) -> Result<(), Fail> {
    let faults = Faults {
        sink: &[0],
        ..NO_FAULTS
    };
    let cut = Status::WriteFault;
    check_outcome(rt, alloc, disk, "ktadd alice", b"", &faults, cut, b"")?;
    let standing = written(rt, alloc, disk, "ktadd -norandkey alice", b"")?;
    check_digits(rt, alloc, &standing, b"0502")
}

// What could not be written was made.
#[test]
fn keys_that_are_not_written(rt: HostRuntime) -> Result<(), Fail> {
    let mut disk = with_alice(&rt, rt.alloc())?;
    check_unwritten(&rt, rt.alloc(), &mut disk)
}

/// Words, and the refusal that is written alone where the input is empty.
const REFUSED: [Answer; 19] = [
    ("ktadd K/M", b"err 8 Protected\n"),
    ("ktadd nobody", b"err 4 UnknownPrincipal\n"),
    ("ktadd a@OTHER", b"err 2 BadName 2\n"),
    ("ktadd -e frob a@OTHER", b"err 13 BadValue enctypes\n"),
    ("ktadd -e frob", b"err 1 BadLine\n"),
    ("ktadd -e aes256-cts -norandkey alice", b"err 1 BadLine\n"),
    ("ktadd", b"err 1 BadLine\n"),
    ("ktadd -norandkey K/M", b"err 8 Protected\n"),
    ("ktadd -norandkey nobody", b"err 4 UnknownPrincipal\n"),
    ("ktadd -norandkey a@OTHER", b"err 2 BadName 2\n"),
    ("ktadd -norandkey -e aes256-cts alice", b"err 1 BadLine\n"),
    ("ktadd -norandkey -norandkey alice", b"err 1 BadLine\n"),
    ("ktadd -norandkey", b"err 1 BadLine\n"),
    ("ktremove alice all", b"err 2 BadName 5\n"),
    ("ktremove alice frob", b"err 2 BadName 5\n"),
    ("ktremove alice@R 0", b"err 13 BadValue kvno\n"),
    ("ktremove alice@R frob", b"err 13 BadValue kvno\n"),
    ("ktremove -f alice@R all", b"err 1 BadLine\n"),
    ("ktremove alice@R all old", b"err 1 BadLine\n"),
];

/// The end of the database, and words behind it.
const ENDED: [Answer; 3] = [
    ("destroy", b"ok\n"),
    ("ktadd -norandkey a@OTHER", b"err 20 NotADatabase\n"),
    ("ktremove a@B all", b"err 34 UnknownEntry\n"),
];

#[test]
fn words_that_are_refused(rt: HostRuntime) -> Result<(), Fail> {
    let mut disk = with_alice(&rt, rt.alloc())?;
    check_answers(&rt, rt.alloc(), &mut disk, &REFUSED)?;
    check_answers(&rt, rt.alloc(), &mut disk, &ENDED)
}

fn check_long_input(rt: &impl Abort, alloc: Global, disk: &mut MemoryDisk) -> Result<(), Fail> {
    let long = repeated(alloc, 0, 1048577)?;
    let reply = b"err 33 BadKeytab 1048576\n";
    check_refused(rt, alloc, disk, "ktadd -norandkey alice", &long, reply)
}

fn check_inputs(rt: &impl Abort, alloc: Global, disk: &mut MemoryDisk) -> Result<(), Fail> {
    let other = b"\x05\x03";
    let reply = b"err 33 BadKeytab 0\n";
    check_refused(rt, alloc, disk, "ktadd -norandkey K/M", other, reply)?;
    check_refused(rt, alloc, disk, "ktremove a@B all", other, reply)?;
    check_long_input(rt, alloc, disk)
}

// Where the input is no keytab, no name is looked up.
#[test]
fn inputs_that_are_refused(rt: HostRuntime) -> Result<(), Fail> {
    let mut disk = with_alice(&rt, rt.alloc())?;
    check_inputs(&rt, rt.alloc(), &mut disk)
}
