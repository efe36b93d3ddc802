//! Policies, string attributes, and what protects a principal.

use crate::runs::{Turn, check_last, check_last_and_log, check_session, repeated};
use std::alloc::Global;
use std::process::Abort;
use std::test::Fail;

/// The rules of passwords: length, classes, and the keys of passwords before.
const PASSWORDS: [Turn; 11] = [
    (
        "addpol -minlength 8 -minclasses 3 -history 2 std",
        "ok 2 1700000000.000000",
    ),
    (
        "addprinc -policy std -pw Abc1234 carol",
        "err 9 PassTooShort",
    ),
    (
        "addprinc -policy std -pw Abc12345 carol",
        "ok 3 1700000000.000000",
    ),
    ("cpw -pw abcd1234 carol", "err 10 PassClasses"),
    ("cpw -pw Abc12345 carol", "err 11 PassReused"),
    ("cpw -pw Xyz98765 carol", "ok 4 1700000000.000000"),
    ("cpw -pw Abc12345 carol", "err 11 PassReused"),
    ("cpw -pw Qrs45678 carol", "ok 5 1700000000.000000"),
    ("cpw -pw Abc12345 carol", "ok 6 1700000000.000000"),
    ("delpol std", "err 6 PolicyInUse 1"),
    ("cpw -pw x nobody", "err 4 UnknownPrincipal"),
];

/// A policy's life. One named default is given to principals of which nothing else is said.
const POLICIES: [Turn; 16] = [
    (
        "addpol -maxlife 1d -minlength 6 default",
        "ok 2 1700000000.000000",
    ),
    ("add_policy default", "err 3 Duplicate"),
    ("addprinc -pw s3cret alice", "ok 3 1700000000.000000"),
    (
        "getprinc alice",
        "- principal alice@EXAMPLE.ORG\n- expires never\n- pwexpires 2023-11-15T22:13:20Z\n\
- pwchanged 2023-11-14T22:13:20Z\n- maxlife 0\n- maxrenewlife 0\n\
- modified 2023-11-14T22:13:20Z admin/local@EXAMPLE.ORG\n- mkvno 1\n- flags none\n- policy default\n\
- key 1 aes256-cts-hmac-sha1-96 normal\n- key 1 aes128-cts-hmac-sha1-96 normal\nok",
    ),
    ("addprinc -pw x -clearpolicy bob", "ok 4 1700000000.000000"),
    ("addprinc -pw x -policy other carol", "err 5 UnknownPolicy"),
    (
        "getpol default",
        "- policy default\n- maxlife 86400\n- minlife 0\n- minlength 6\n- minclasses 1\n- history 1\nok",
    ),
    ("modpol -minclasses 2 default", "ok 5 1700000000.000000"),
    ("cpw -pw abcdef alice", "err 10 PassClasses"),
    ("addpol -history 17 other", "err 13 BadValue history"),
    ("delpol .x", "err 13 BadValue policy"),
    ("listpols", "- default\nok"),
    ("delpol default", "err 6 PolicyInUse 1"),
    ("modprinc -clearpolicy alice", "ok 6 1700000000.000000"),
    ("delpol default", "ok 7 1700000000.000000"),
    ("getpol default", "err 5 UnknownPolicy"),
];

/// String attributes, in the byte order of their keys.
const STRINGS: [Turn; 12] = [
    ("addprinc -nokey bob", "ok 2 1700000000.000000"),
    ("setstr bob color blue", "ok 3 1700000000.000000"),
    ("setstr bob age \"\"", "ok 4 1700000000.000000"),
    ("getstrs bob", "- age \n- color blue\nok"),
    ("delstr bob size", "err 31 UnknownString"),
    ("delstr bob color", "ok 5 1700000000.000000"),
    ("getstrs bob", "- age \nok"),
    ("delstr bob a=b", "err 13 BadValue key"),
    ("setstr bob k \"\t\"", "err 13 BadValue value"),
    ("setstr K/M a b", "err 8 Protected"),
    ("delstr K/M a", "err 8 Protected"),
    ("getstrs K/M", "ok"),
];

/// A line that gives bob an attribute with this letter in its key.
fn push_attribute(out: &mut Vec<u8>, key: u8, value: &[u8]) -> Result<(), Fail> {
    out.extend_from_slice(b"setstr bob a")?;
    out.push(key)?;
    out.push(b' ')?;
    out.extend_from_slice(value)?;
    out.push(b'\n')?;
    Ok(())
}

/// Lines that give bob attributes with these keys, each with this value.
fn attributes(alloc: Global, keys: &[u8], value: &[u8]) -> Result<Vec<u8>, Fail> {
    let mut input = b"addprinc -nokey bob\n".as_slice().to_vec(alloc)?;
    for key in keys {
        push_attribute(&mut input, *key, value)?;
    }
    Ok(input)
}

/// What is done to K/M and kadmin/history, however they are written, and to a principal whose keys are locked down: at
/// the machine itself nothing is kept from the administrator but the former.
const PROTECTED: [Turn; 14] = [
    ("delprinc K/M", "err 8 Protected"),
    ("cpw -randkey kadmin/histor\\y", "err 8 Protected"),
    ("modprinc K/M@EXAMPLE.ORG", "err 8 Protected"),
    ("extract K/M", "err 8 Protected"),
    ("renprinc krbtgt/EXAMPLE.ORG K/M", "err 8 Protected"),
    ("addprinc -nokey K/M", "err 8 Protected"),
    ("addprinc -nokey K\\/M", "ok 2 1700000000.000000"),
    ("addprinc -randkey alice", "ok 3 1700000000.000000"),
    ("modprinc +lockdown_keys alice", "ok 4 1700000000.000000"),
    ("cpw -pw x alice", "ok 5 1700000000.000000"),
    ("renprinc alice bob", "ok 6 1700000000.000000"),
    ("modprinc -lockdown_keys bob", "ok 7 1700000000.000000"),
    ("delprinc bob", "ok 8 1700000000.000000"),
    ("getprivs", "- privileges admcilspe\nok"),
];

#[test]
fn policies_attributes_and_locks_go_by_their_rules(rt: HostRuntime) -> Result<(), Fail> {
    check_session(&rt, rt.alloc(), &PASSWORDS)?;
    check_session(&rt, rt.alloc(), &POLICIES)?;
    check_session(&rt, rt.alloc(), &STRINGS)?;
    check_session(&rt, rt.alloc(), &PROTECTED)
}

/// The log of two entries behind its beginning, in blocks that are longer than each of them.
const OF_ATTRIBUTES: &[u8] = b"- first 1 1700000000.000007\n- last 3 1700000000.000007\n\
- size 1000 block 16384\n- 1 1700000000.000007 base\n\
- 2 1700000000.000007 put bob@EXAMPLE.ORG\n- 3 1700000000.000007 put bob@EXAMPLE.ORG\nok\n";

fn check_many_attributes(rt: &impl Abort, alloc: Global) -> Result<(), Fail> {
    let input = attributes(alloc, b"abcdefghijklmnoppq", b"x")?;
    let last = b"ok 18 1700000000.000000\nok 19 1700000000.000000\nerr 30 StringsFull 16\n";
    check_last(rt, alloc, &input, last)
}

fn check_long_attributes(rt: &impl Abort, alloc: Global) -> Result<(), Fail> {
    let value = repeated(alloc, b'x', 1024)?;
    let input = attributes(alloc, b"abcdefghijklmnop", &value)?;
    let last = b"\nok 3 1700000000.000007\nerr 14 RecordTooLarge 16535\n";
    check_last_and_log(rt, alloc, &input, last, OF_ATTRIBUTES)
}

#[test]
fn a_record_has_sixteen_attributes_and_16000_bytes(rt: HostRuntime) -> Result<(), Fail> {
    check_many_attributes(&rt, rt.alloc())?;
    check_long_attributes(&rt, rt.alloc())
}
