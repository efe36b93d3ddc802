//! Records: of passwords, of string attributes, and those whose entries are longer than a block of the log.

use crate::bench::T;
use crate::calls::At;
use crate::turns::Turn::{Create, CreateBy, Line, Lines, Log, LongLine, Open, Row};
use crate::turns::{Turn, play};
use std::test::Fail;

const ALICE: &str = "- principal alice@EXAMPLE.ORG\n- expires never\n- pwexpires never\n\
- pwchanged 2023-11-14T22:13:20Z\n- maxlife 0\n- maxrenewlife 0\n\
- modified 2023-11-14T22:13:20Z admin/local@EXAMPLE.ORG\n- mkvno 1\n- flags none\n\
- policy -\n- key 1 aes256-cts-hmac-sha1-96 normal\n\
- key 1 aes128-cts-hmac-sha1-96 normal\nok";

/// The master key is that of a password, and the stash opens what is under it.
static SHOWN: [Turn; 5] = [
    CreateBy("masterpw", "ok 1 1700000000.000000"),
    Line("addprinc -pw s3cret alice", "ok 2 1700000000.000000"),
    Line("getprinc alice", ALICE),
    Open(None, 1, "ok 2 1700000000.000000"),
    Line("getprinc alice", ALICE),
];

/// A password is judged by its length, by its classes, and by the two before.
static PASSWORDS: [Turn; 12] = [
    Create(1000, "ok 1 1700000000.000000"),
    Line(
        "addpol -minlength 8 -minclasses 3 -history 2 std",
        "ok 2 1700000000.000000",
    ),
    Line(
        "addprinc -policy std -pw Abc1234 carol",
        "err 9 PassTooShort",
    ),
    Line(
        "addprinc -policy std -pw Abc12345 carol",
        "ok 3 1700000000.000000",
    ),
    Line("cpw -pw abcd1234 carol", "err 10 PassClasses"),
    Line("cpw -pw Abc12345 carol", "err 11 PassReused"),
    Line("cpw -pw Xyz98765 carol", "ok 4 1700000000.000000"),
    Line("cpw -pw Abc12345 carol", "err 11 PassReused"),
    Line("cpw -pw Qrs45678 carol", "ok 5 1700000000.000000"),
    Line("cpw -pw Abc12345 carol", "ok 6 1700000000.000000"),
    Line("delpol std", "err 6 PolicyInUse 1"),
    Log(1000, 2048, (1, T), (6, T)),
];

#[test]
fn passwords_go_by_their_policy(rt: HostRuntime) -> Result<(), Fail> {
    play(&rt, rt.alloc(), &SHOWN)?;
    play(&rt, rt.alloc(), &PASSWORDS)
}

// ---- string attributes

/// They are told in the order of their keys, and are sixteen at most.
static STRINGS: [Turn; 22] = [
    Create(1000, "ok 1 1700000000.000000"),
    Line("addprinc -nokey bob", "ok 2 1700000000.000000"),
    Line("setstr bob color blue", "ok 3 1700000000.000000"),
    Line("setstr bob age \"\"", "ok 4 1700000000.000000"),
    Line("getstrs bob", "- age \n- color blue\nok"),
    Line("delstr bob size", "err 31 UnknownString"),
    Line("setstr bob a x", "ok 5 1700000000.000000"),
    Line("setstr bob b x", "ok 6 1700000000.000000"),
    Line("setstr bob c x", "ok 7 1700000000.000000"),
    Line("setstr bob d x", "ok 8 1700000000.000000"),
    Line("setstr bob e x", "ok 9 1700000000.000000"),
    Line("setstr bob f x", "ok 10 1700000000.000000"),
    Line("setstr bob g x", "ok 11 1700000000.000000"),
    Line("setstr bob h x", "ok 12 1700000000.000000"),
    Line("setstr bob i x", "ok 13 1700000000.000000"),
    Line("setstr bob j x", "ok 14 1700000000.000000"),
    Line("setstr bob k x", "ok 15 1700000000.000000"),
    Line("setstr bob l x", "ok 16 1700000000.000000"),
    Line("setstr bob m x", "ok 17 1700000000.000000"),
    Line("setstr bob n x", "ok 18 1700000000.000000"),
    Line("setstr bob o x", "err 30 StringsFull 16"),
    Line("setstr bob a y", "ok 19 1700000000.000000"),
];

/// Seven microseconds behind the creation.
const SEVENTH: At = (1_700_000_000, 7);

/// A row has 87 bytes and 1028 for each of these attributes, and an entry 36 more. Where it is longer than a block, the
/// log is begun anew in blocks of the next multiple of 2048 bytes.
static LONG_STRINGS: [Turn; 20] = [
    Create(1000, "ok 1 1700000000.000000"),
    Line("addprinc -nokey bob", "ok 2 1700000000.000000"),
    LongLine("aa", "ok 3 1700000000.000000"),
    LongLine("ab", "ok 2 1700000000.000001"),
    LongLine("ac", "ok 3 1700000000.000001"),
    LongLine("ad", "ok 2 1700000000.000002"),
    LongLine("ae", "ok 3 1700000000.000002"),
    LongLine("af", "ok 2 1700000000.000003"),
    LongLine("ag", "ok 3 1700000000.000003"),
    LongLine("ah", "ok 2 1700000000.000004"),
    LongLine("ai", "ok 3 1700000000.000004"),
    LongLine("aj", "ok 2 1700000000.000005"),
    LongLine("ak", "ok 3 1700000000.000005"),
    LongLine("al", "ok 2 1700000000.000006"),
    LongLine("am", "ok 3 1700000000.000006"),
    LongLine("an", "ok 2 1700000000.000007"),
    LongLine("ao", "ok 3 1700000000.000007"),
    Log(1000, 16384, (1, SEVENTH), (3, SEVENTH)),
    Row(1, 15507),
    LongLine("ap", "err 14 RecordTooLarge 16535"),
];

#[test]
fn attributes_are_told_and_limited(rt: HostRuntime) -> Result<(), Fail> {
    play(&rt, rt.alloc(), &STRINGS)?;
    play(&rt, rt.alloc(), &LONG_STRINGS)
}

// ---- long names

/// A principal whose name has 200 letters.
const ADD_LONG: &str = "addprinc -randkey nnnnnnnnnnnnnnnnnnnnnnnnnnnnnnnnnnnnnnnnnnnnnnnnnnnnnnnnn\
nnnnnnnnnnnnnnnnnnnnnnnnnnnnnnnnnnnnnnnnnnnnnnnnnnnnnnnnnnnnnnnnnnnnnnnnnnnnnnnn\
nnnnnnnnnnnnnnnnnnnnnnnnnnnnnnnnnnnnnnnnnnnnnnnnnnnnnnnnnnnnnnn";

const ANOTHER_VERSION: &str =
    "cpw -randkey -keepold nnnnnnnnnnnnnnnnnnnnnnnnnnnnnnnnnnnnnnnnnnnnnnnnnnnnn\
nnnnnnnnnnnnnnnnnnnnnnnnnnnnnnnnnnnnnnnnnnnnnnnnnnnnnnnnnnnnnnnnnnnnnnnnnnnnnnnn\
nnnnnnnnnnnnnnnnnnnnnnnnnnnnnnnnnnnnnnnnnnnnnnnnnnnnnnnnnnnnnnnnnnn";

const RENAME_LONG: &str =
    "renprinc nnnnnnnnnnnnnnnnnnnnnnnnnnnnnnnnnnnnnnnnnnnnnnnnnnnnnnnnnnnnnnnnnn\
nnnnnnnnnnnnnnnnnnnnnnnnnnnnnnnnnnnnnnnnnnnnnnnnnnnnnnnnnnnnnnnnnnnnnnnnnnnnnnnn\
nnnnnnnnnnnnnnnnnnnnnnnnnnnnnnnnnnnnnnnnnnnnnnnnnnnnnn b";

/// Two microseconds behind the creation.
const SECOND: At = (1_700_000_000, 2);

/// A name stands in the row and in the entry before it, so the twelfth version of two keys makes an entry of 2057
/// bytes, and the sixteenth one of 2569. By the renaming each key gets a salt of its own: the row then has 8889 bytes,
/// and the entry 9122.
static LONG_NAME: [Turn; 6] = [
    Create(1000, "ok 1 1700000000.000000"),
    Line(ADD_LONG, "ok 2 1700000000.000000"),
    Lines(15, ANOTHER_VERSION, "ok 6 1700000000.000001"),
    Line(RENAME_LONG, "ok 2 1700000000.000002"),
    Log(1000, 10240, (1, SECOND), (2, SECOND)),
    Row(1, 8889),
];

#[test]
fn a_renaming_makes_a_long_entry(rt: HostRuntime) -> Result<(), Fail> {
    play(&rt, rt.alloc(), &LONG_NAME)
}
