//! What lines of the administrator of the machine are answered.

use crate::databases::{LOCAL, Turn, check_case, check_session, created, push_letters};
use std::alloc::Global;
use std::process::Abort;
use std::test::Fail;

/// A principal with the keys of a password.
const SHOWN: [Turn; 2] = [
    ("addprinc -pw s3cret alice", "ok 2 1700000000.000000"),
    (
        "getprinc alice",
        "- principal alice@EXAMPLE.ORG\n- expires never\n- pwexpires never\n\
- pwchanged 2023-11-14T22:13:20Z\n- maxlife 0\n- maxrenewlife 0\n\
- modified 2023-11-14T22:13:20Z admin/local@EXAMPLE.ORG\n- mkvno 1\n- flags none\n- policy -\n\
- key 1 aes256-cts-hmac-sha1-96 normal\n- key 1 aes128-cts-hmac-sha1-96 normal\nok",
    ),
];

/// Names, each once, and what spells none of the realm.
const NAMES: [Turn; 8] = [
    ("addprinc -nokey bob", "ok 2 1700000000.000000"),
    ("addprinc -nokey bob", "err 3 Duplicate"),
    ("addprinc -nokey a\\/b", "ok 3 1700000000.000000"),
    ("addprinc -nokey a/b", "ok 4 1700000000.000000"),
    ("addprinc -nokey host/", "ok 5 1700000000.000000"),
    ("addprinc -nokey a@", "err 2 BadName 2"),
    ("addprinc -nokey a@X@Y", "err 2 BadName 3"),
    ("addprinc -nokey a@OTHER", "err 2 BadName 2"),
];

/// Length, classes, and the keys of passwords before.
static PASSWORDS: [Turn; 10] = [
    (
        "addpol -minlength 8 -minclasses 3 -history 2 std",
        "ok 2 1700000000.000000",
    ),
    (
        "addprinc -policy std -pw Abc1234 carol",
        "err 9 PassTooShort",
    ),
    (
        "addprinc -policy std -pw Abc12345 carol",
        "ok 3 1700000000.000000",
    ),
    ("cpw -pw abcd1234 carol", "err 10 PassClasses"),
    ("cpw -pw Abc12345 carol", "err 11 PassReused"),
    ("cpw -pw Xyz98765 carol", "ok 4 1700000000.000000"),
    ("cpw -pw Abc12345 carol", "err 11 PassReused"),
    ("cpw -pw Qrs45678 carol", "ok 5 1700000000.000000"),
    ("cpw -pw Abc12345 carol", "ok 6 1700000000.000000"),
    ("delpol std", "err 6 PolicyInUse 1"),
];

/// What is no command, words in quotes, and other words for a command.
const LINES: [Turn; 8] = [
    ("", ""),
    ("# note", ""),
    ("addprinc -nokey \"a b\"", "ok 2 1700000000.000000"),
    ("add_principal -nokey c", "ok 3 1700000000.000000"),
    ("delprinc -force c", "ok 4 1700000000.000000"),
    ("\"a", "err 1 BadLine"),
    ("frob", "err 1 BadLine"),
    ("modprinc -maxlife x bob", "err 13 BadValue maxlife"),
];

/// String attributes, in the byte order of their keys. Where sixteen are full, one has to go before another one comes.
const STRINGS: [Turn; 25] = [
    ("addprinc -nokey bob", "ok 2 1700000000.000000"),
    ("setstr bob color blue", "ok 3 1700000000.000000"),
    ("setstr bob age \"\"", "ok 4 1700000000.000000"),
    ("getstrs bob", "- age \n- color blue\nok"),
    ("delstr bob size", "err 31 UnknownString"),
    ("setstr bob c c", "ok 5 1700000000.000000"),
    ("setstr bob d d", "ok 6 1700000000.000000"),
    ("setstr bob e e", "ok 7 1700000000.000000"),
    ("setstr bob f f", "ok 8 1700000000.000000"),
    ("setstr bob g g", "ok 9 1700000000.000000"),
    ("setstr bob h h", "ok 10 1700000000.000000"),
    ("setstr bob i i", "ok 11 1700000000.000000"),
    ("setstr bob j j", "ok 12 1700000000.000000"),
    ("setstr bob k k", "ok 13 1700000000.000000"),
    ("setstr bob l l", "ok 14 1700000000.000000"),
    ("setstr bob m m", "ok 15 1700000000.000000"),
    ("setstr bob n n", "ok 16 1700000000.000000"),
    ("setstr bob o o", "ok 17 1700000000.000000"),
    ("setstr bob p p", "ok 18 1700000000.000000"),
    ("setstr bob q q", "err 30 StringsFull 16"),
    ("delstr bob color", "ok 19 1700000000.000000"),
    ("delstr bob color", "err 31 UnknownString"),
    ("setstr bob q q", "ok 20 1700000000.000000"),
    ("delstr bob c", "ok 21 1700000000.000000"),
    (
        "getstrs bob",
        "- age \n- d d\n- e e\n- f f\n- g g\n- h h\n- i i\n- j j\n- k k\n- l l\n- m m\n- n n\n- o o\n- p p\n\
- q q\nok",
    ),
];

/// What the random bytes of a line make is its keys; the second line has the byte 1 in its block, and the third 2. A
/// new name leaves the salt, and old keys stay or go.
const KEYS: [Turn; 12] = [
    (
        "addprinc -randkey -e aes128-sha2,aes256-cts svc",
        "ok 2 1700000000.000000",
    ),
    (
        "extract svc",
        "- key 1 aes128-cts-hmac-sha256-128 01010101010101010101010101010101\n\
- key 1 aes256-cts-hmac-sha1-96 0101010101010101010101010101010101010101010101010101010101010101\nok",
    ),
    (
        "cpw -randkey -keepold -e aes128-sha1 svc",
        "ok 3 1700000000.000000",
    ),
    ("renprinc svc web", "ok 4 1700000000.000000"),
    ("getprinc svc", "err 4 UnknownPrincipal"),
    (
        "getprinc web",
        "- principal web@EXAMPLE.ORG\n- expires never\n- pwexpires never\n\
- pwchanged 2023-11-14T22:13:20Z\n- maxlife 0\n- maxrenewlife 0\n\
- modified 2023-11-14T22:13:20Z admin/local@EXAMPLE.ORG\n- mkvno 1\n- flags none\n- policy -\n\
- key 2 aes128-cts-hmac-sha1-96 special\n- key 1 aes128-cts-hmac-sha256-128 special\n\
- key 1 aes256-cts-hmac-sha1-96 special\nok",
    ),
    (
        "extract web",
        "- key 2 aes128-cts-hmac-sha1-96 02020202020202020202020202020202\nok",
    ),
    ("purgekeys -keepkvno 1 web", "ok 5 1700000000.000000"),
    ("purgekeys web", "ok 6 1700000000.000000"),
    ("purgekeys -keepkvno 3 web", "ok 7 1700000000.000000"),
    ("extract web", "ok"),
    ("getprivs", "- privileges admcilspe\nok"),
];

/// Keys expire by the greatest life of their policy, one day here, unless the line itself says when. `addprinc` leaves
/// needchange as the line says, and new keys clear it.
static EXPIRING: [Turn; 13] = [
    ("addpol -maxlife 1d p", "ok 2 1700000000.000000"),
    (
        "addprinc -policy p -pw x +needchange -expire 2030-01-01T00:00:00Z a",
        "ok 3 1700000000.000000",
    ),
    (
        "getprinc a",
        "- principal a@EXAMPLE.ORG\n- expires 2030-01-01T00:00:00Z\n- pwexpires 2023-11-15T22:13:20Z\n\
- pwchanged 2023-11-14T22:13:20Z\n- maxlife 0\n- maxrenewlife 0\n\
- modified 2023-11-14T22:13:20Z admin/local@EXAMPLE.ORG\n- mkvno 1\n- flags +needchange\n- policy p\n\
- key 1 aes256-cts-hmac-sha1-96 normal\n- key 1 aes128-cts-hmac-sha1-96 normal\nok",
    ),
    (
        "addprinc -policy p -pwexpire 2024-02-29T12:00:00Z -pw x b",
        "ok 4 1700000000.000000",
    ),
    (
        "getprinc b",
        "- principal b@EXAMPLE.ORG\n- expires never\n- pwexpires 2024-02-29T12:00:00Z\n\
- pwchanged 2023-11-14T22:13:20Z\n- maxlife 0\n- maxrenewlife 0\n\
- modified 2023-11-14T22:13:20Z admin/local@EXAMPLE.ORG\n- mkvno 1\n- flags none\n- policy p\n\
- key 1 aes256-cts-hmac-sha1-96 normal\n- key 1 aes128-cts-hmac-sha1-96 normal\nok",
    ),
    (
        "addprinc -policy p -pwexpire never -randkey -e aes128-sha2 c",
        "ok 5 1700000000.000000",
    ),
    (
        "getprinc c",
        "- principal c@EXAMPLE.ORG\n- expires never\n- pwexpires never\n\
- pwchanged 2023-11-14T22:13:20Z\n- maxlife 0\n- maxrenewlife 0\n\
- modified 2023-11-14T22:13:20Z admin/local@EXAMPLE.ORG\n- mkvno 1\n- flags none\n- policy p\n\
- key 1 aes128-cts-hmac-sha256-128 normal\nok",
    ),
    ("addprinc -policy p -nokey d", "ok 6 1700000000.000000"),
    (
        "getprinc d",
        "- principal d@EXAMPLE.ORG\n- expires never\n- pwexpires never\n- pwchanged never\n- maxlife 0\n\
- maxrenewlife 0\n- modified 2023-11-14T22:13:20Z admin/local@EXAMPLE.ORG\n- mkvno 1\n- flags none\n- policy p\nok",
    ),
    ("cpw -randkey -e aes256-sha2 a", "ok 7 1700000000.000000"),
    (
        "getprinc a",
        "- principal a@EXAMPLE.ORG\n- expires 2030-01-01T00:00:00Z\n- pwexpires 2023-11-15T22:13:20Z\n\
- pwchanged 2023-11-14T22:13:20Z\n- maxlife 0\n- maxrenewlife 0\n\
- modified 2023-11-14T22:13:20Z admin/local@EXAMPLE.ORG\n- mkvno 1\n- flags none\n- policy p\n\
- key 2 aes256-cts-hmac-sha384-192 normal\nok",
    ),
    ("modprinc -pwexpire never a", "ok 8 1700000000.000000"),
    (
        "getprinc a",
        "- principal a@EXAMPLE.ORG\n- expires 2030-01-01T00:00:00Z\n- pwexpires never\n\
- pwchanged 2023-11-14T22:13:20Z\n- maxlife 0\n- maxrenewlife 0\n\
- modified 2023-11-14T22:13:20Z admin/local@EXAMPLE.ORG\n- mkvno 1\n- flags none\n- policy p\n\
- key 2 aes256-cts-hmac-sha384-192 normal\nok",
    ),
];

/// Policies, and what is listed.
const LISTED: [Turn; 14] = [
    (
        "addpol -maxlife 1d -minlength 6 default",
        "ok 2 1700000000.000000",
    ),
    ("addpol std", "ok 3 1700000000.000000"),
    ("listpols", "- default\n- std\nok"),
    (
        "modpol -minclasses 2 -minlife 60 default",
        "ok 4 1700000000.000000",
    ),
    (
        "getpol default",
        "- policy default\n- maxlife 86400\n- minlife 60\n- minlength 6\n- minclasses 2\n- history 1\nok",
    ),
    ("addprinc -nokey alice", "ok 5 1700000000.000000"),
    ("addprinc -nokey bob", "ok 6 1700000000.000000"),
    ("delpol default", "err 6 PolicyInUse 2"),
    ("delprinc bob", "ok 7 1700000000.000000"),
    ("delpol default", "err 6 PolicyInUse 1"),
    ("modprinc -clearpolicy alice", "ok 8 1700000000.000000"),
    ("delpol default", "ok 9 1700000000.000000"),
    (
        "listprincs",
        "- K/M@EXAMPLE.ORG\n- alice@EXAMPLE.ORG\n- kadmin/history@EXAMPLE.ORG\n\
- krbtgt/EXAMPLE.ORG@EXAMPLE.ORG\nok",
    ),
    ("listprincs k*/?i*", "- kadmin/history@EXAMPLE.ORG\nok"),
];

/// Versions of the master key, each of the newest one's type where none is named. `stash` is given to the interpreter
/// alone.
const MASTERS: [Turn; 12] = [
    ("purge_mkeys", "- kept 1 protects 2\nok 0 purged"),
    ("add_mkey", "ok 2 1700000000.000000 mkvno 2"),
    ("add_mkey -e aes128-sha2", "ok 3 1700000000.000000 mkvno 3"),
    (
        "purge_mkeys",
        "- kept 1 protects 2\n- purged 2\n- kept 3 newest\nok 4 1700000000.000000 1 purged",
    ),
    ("add_mkey", "ok 5 1700000000.000000 mkvno 4"),
    (
        "use_mkey 4 1700003600",
        "ok 6 1700000000.000000 mkvno 4 from 2023-11-14T23:13:20Z",
    ),
    ("use_mkey 2", "err 16 UnknownMaster 2"),
    ("use_mkey 1 1700003600", "err 17 NoActiveMaster"),
    (
        "use_mkey 3",
        "ok 7 1700000000.000000 mkvno 3 from 2023-11-14T22:13:20Z",
    ),
    (
        "list_mkeys",
        "- 1 aes256-cts-hmac-sha1-96 2023-11-14T22:13:20Z\n\
- 3 aes128-cts-hmac-sha256-128 2023-11-14T22:13:20Z *\n\
- 4 aes128-cts-hmac-sha256-128 2023-11-14T23:13:20Z\nok",
    ),
    (
        "purge_mkeys",
        "- kept 1 protects 2\n- kept 3 active\n- kept 4 newest\nok 0 purged",
    ),
    ("stash", "ok"),
];

const SESSIONS: [&[Turn]; 7] = [&SHOWN, &NAMES, &LINES, &STRINGS, &KEYS, &LISTED, &MASTERS];

#[test]
fn lines_are_answered_alike(rt: HostRuntime) -> Result<(), Fail> {
    for turns in SESSIONS {
        check_session(&rt, rt.alloc(), turns)?;
    }
    Ok(())
}

#[test]
fn expirations_are_set_alike(rt: HostRuntime) -> Result<(), Fail> {
    check_session(&rt, rt.alloc(), &EXPIRING)
}

#[test]
fn passwords_are_judged_alike(rt: HostRuntime) -> Result<(), Fail> {
    check_session(&rt, rt.alloc(), &PASSWORDS)
}

/// Lines that end with so many of the letter n, and what they are answered.
const LONG: [(&str, usize, &str); 3] = [
    ("addprinc -nokey ", 243, "ok 2 1700000000.000000"),
    ("addprinc -nokey ", 244, "err 2 BadName 244"),
    ("", 65_537, "err 27 LineTooLong"),
];

fn long_line(alloc: Global, front: &str, count: usize) -> Result<Vec<u8>, Fail> {
    let mut line = front.as_bytes().to_vec(alloc)?;
    push_letters(&mut line, b'n', count)?;
    Ok(line)
}

/// Gives a line over a new database.
fn check_first(rt: &impl Abort, alloc: Global, line: &[u8], wanted: &str) -> Result<(), Fail> {
    let mut database = created(alloc)?;
    check_case(rt, alloc, &mut database, None, LOCAL, line, wanted)
}

fn check_long(rt: &impl Abort, alloc: Global, long: &(&str, usize, &str)) -> Result<(), Fail> {
    let (front, count, wanted) = long;
    let line = long_line(alloc, front, *count)?;
    check_first(rt, alloc, &line, wanted)
}

#[test]
fn long_lines_are_answered_alike(rt: HostRuntime) -> Result<(), Fail> {
    for long in &LONG {
        check_long(&rt, rt.alloc(), long)?;
    }
    Ok(())
}
