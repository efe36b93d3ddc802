//! The order in which refusals are tried: each pair of neighbours that can stand together.

use crate::databases::{
    Case, Database, LOCAL, Turn, check_case, check_cases, check_created, check_turns, created,
    is_accepted, push_letters,
};
use std::alloc::Global;
use std::process::Abort;
use std::test::Fail;

/// A list by which everybody may do all but extract keys.
const ANY: Option<&str> = Some("* *\n");

/// A list by which the client may look at principals alone.
const DENIES: Option<&str> = Some("joe i\n");

/// A list without lines.
const BARE: Option<&str> = Some("");

/// What is there before the tables.
static THERE: [Turn; 4] = [
    (
        "addpol -minlength 8 -minclasses 3 std",
        "ok 2 1700000000.000000",
    ),
    (
        "addprinc -randkey -policy std alice",
        "ok 3 1700000000.000000",
    ),
    ("modprinc +lockdown_keys alice", "ok 4 1700000000.000000"),
    ("addprinc -nokey bob", "ok 5 1700000000.000000"),
];

/// A version that is not there is told before a denial, and a denial before all else.
const DENIED: [Case; 33] = [
    (DENIES, "joe", "use_mkey 9", "err 16 UnknownMaster 9"),
    (DENIES, "joe", "use_mkey 1 1700003600", "err 7 Denied 1"),
    (ANY, "joe", "use_mkey 1 1700003600", "err 17 NoActiveMaster"),
    (DENIES, "joe", "delprinc K/M", "err 7 Denied 1"),
    (ANY, "joe", "delprinc K/M", "err 8 Protected"),
    (DENIES, "joe", "addprinc -nokey K/M", "err 7 Denied 1"),
    (ANY, "joe", "addprinc -nokey K/M", "err 8 Protected"),
    (DENIES, "joe", "modprinc K/M", "err 7 Denied 1"),
    (DENIES, "joe", "cpw -randkey K/M", "err 7 Denied 1"),
    (DENIES, "joe", "renprinc bob K/M", "err 7 Denied 1"),
    (DENIES, "joe", "purgekeys K/M", "err 7 Denied 1"),
    (DENIES, "joe", "setstr K/M k v", "err 7 Denied 1"),
    (DENIES, "joe", "delstr K/M k", "err 7 Denied 1"),
    (DENIES, "joe", "extract K/M", "err 7 Denied 1"),
    (DENIES, "joe", "renprinc nobody bob", "err 7 Denied 1"),
    (DENIES, "joe", "addprinc -nokey bob", "err 7 Denied 1"),
    (ANY, "joe", "addprinc -nokey bob", "err 3 Duplicate"),
    (DENIES, "joe", "addpol std", "err 7 Denied 1"),
    (ANY, "joe", "addpol std", "err 3 Duplicate"),
    (DENIES, "joe", "modprinc nobody", "err 7 Denied 1"),
    (ANY, "joe", "modprinc nobody", "err 4 UnknownPrincipal"),
    (DENIES, "joe", "delprinc alice", "err 7 Denied 1"),
    (ANY, "joe", "delprinc alice", "err 32 LockedDown"),
    (DENIES, "joe", "modpol none", "err 7 Denied 1"),
    (ANY, "joe", "modpol none", "err 5 UnknownPolicy"),
    (DENIES, "joe", "delpol std", "err 7 Denied 1"),
    (ANY, "joe", "delpol std", "err 6 PolicyInUse 1"),
    (DENIES, "joe", "addprinc -pw \"\" carol", "err 7 Denied 1"),
    (ANY, "joe", "addprinc -pw \"\" carol", "err 9 PassTooShort"),
    (
        DENIES,
        "joe",
        "addprinc -policy std -pw abcdefgh carol",
        "err 7 Denied 1",
    ),
    (
        ANY,
        "joe",
        "addprinc -policy std -pw abcdefgh carol",
        "err 10 PassClasses",
    ),
    (DENIES, "joe", "delstr bob size", "err 7 Denied 1"),
    (ANY, "joe", "delstr bob size", "err 31 UnknownString"),
];

/// The database's own keys come before what is there and what is not.
const PROTECTED: [Case; 11] = [
    (
        ANY,
        "joe",
        "addprinc -policy none -pw \"\" kadmin/history",
        "err 8 Protected",
    ),
    (ANY, "joe", "modprinc -policy none K/M", "err 8 Protected"),
    (ANY, "joe", "cpw -pw \"\" kadmin/history", "err 8 Protected"),
    (ANY, "joe", "renprinc bob K/M", "err 8 Protected"),
    (
        ANY,
        "joe",
        "renprinc nobody kadmin/history",
        "err 8 Protected",
    ),
    (ANY, "joe", "renprinc K/M bob", "err 8 Protected"),
    (ANY, "joe", "purgekeys K/M", "err 8 Protected"),
    (ANY, "joe", "setstr K/M k v", "err 8 Protected"),
    (ANY, "joe", "delstr K/M k", "err 8 Protected"),
    (Some("* *e\n"), "joe", "extract K/M", "err 8 Protected"),
    (ANY, "joe", "getstrs K/M", "ok"),
];

/// What is there already, then what is missing, then what is locked down, then the policy.
const THERE_OR_NOT: [Case; 14] = [
    (ANY, "joe", "renprinc nobody bob", "err 3 Duplicate"),
    (ANY, "joe", "renprinc alice bob", "err 3 Duplicate"),
    (
        ANY,
        "joe",
        "addprinc -policy none -pw \"\" bob",
        "err 3 Duplicate",
    ),
    (
        ANY,
        "joe",
        "renprinc nobody carol",
        "err 4 UnknownPrincipal",
    ),
    (
        ANY,
        "joe",
        "modprinc -policy none nobody",
        "err 4 UnknownPrincipal",
    ),
    (ANY, "joe", "cpw -pw \"\" nobody", "err 4 UnknownPrincipal"),
    (ANY, "joe", "delstr nobody k", "err 4 UnknownPrincipal"),
    (
        ANY,
        "joe",
        "modprinc -policy none -lockdown_keys alice",
        "err 32 LockedDown",
    ),
    (
        None,
        "admin/local",
        "modprinc -policy none -lockdown_keys alice",
        "err 5 UnknownPolicy",
    ),
    (
        ANY,
        "joe",
        "modprinc -policy none alice",
        "err 5 UnknownPolicy",
    ),
    (ANY, "joe", "cpw -pw \"\" alice", "err 32 LockedDown"),
    (
        None,
        "admin/local",
        "cpw -pw \"\" alice",
        "err 9 PassTooShort",
    ),
    (
        ANY,
        "joe",
        "addprinc -policy none -pw \"\" carol",
        "err 5 UnknownPolicy",
    ),
    (
        ANY,
        "joe",
        "addprinc -policy std -pw abc carol",
        "err 9 PassTooShort",
    ),
];

/// What is wanted of a password, one after another: its length, its classes, another one than before, its least life.
const OF_PASSWORDS: [Case; 16] = [
    (
        None,
        "admin/local",
        "addprinc -pw abc dora",
        "ok 6 1700000000.000000",
    ),
    (
        None,
        "admin/local",
        "addpol -minlength 4 -minclasses 2 -minlife 1d strict",
        "ok 7 1700000000.000000",
    ),
    (
        None,
        "admin/local",
        "modprinc -policy strict dora",
        "ok 8 1700000000.000000",
    ),
    (BARE, "dora", "cpw -pw abc dora", "err 9 PassTooShort"),
    (
        None,
        "admin/local",
        "modpol -minlength 3 strict",
        "ok 9 1700000000.000000",
    ),
    (BARE, "dora", "cpw -pw abc dora", "err 10 PassClasses"),
    (
        None,
        "admin/local",
        "modpol -minclasses 1 strict",
        "ok 10 1700000000.000000",
    ),
    (BARE, "dora", "cpw -pw abc dora", "err 11 PassReused"),
    (
        BARE,
        "dora",
        "cpw -pw abd dora",
        "err 12 PassTooSoon 2023-11-15T22:13:20Z",
    ),
    (
        BARE,
        "dora",
        "cpw -randkey dora",
        "err 12 PassTooSoon 2023-11-15T22:13:20Z",
    ),
    (
        None,
        "admin/local",
        "modprinc +lockdown_keys dora",
        "ok 11 1700000000.000000",
    ),
    (BARE, "dora", "cpw -pw \"\" dora", "err 32 LockedDown"),
    (BARE, "dora", "cpw -pw abd dora", "err 32 LockedDown"),
    (
        None,
        "admin/local",
        "modprinc -lockdown_keys dora",
        "ok 12 1700000000.000000",
    ),
    (
        Some("joe c\n"),
        "joe",
        "cpw -pw abc dora",
        "err 11 PassReused",
    ),
    (
        Some("joe c\n"),
        "joe",
        "cpw -pw abd dora",
        "ok 13 1700000000.000000",
    ),
];

/// 32 keys are the most; what is wanted of a password, and its least life, come before.
static KEYS_FULL: [Case; 7] = [
    (
        BARE,
        "eve",
        "cpw -pw \"\" -keepold eve",
        "err 9 PassTooShort",
    ),
    (BARE, "eve", "cpw -pw abc -keepold eve", "err 11 PassReused"),
    (
        BARE,
        "eve",
        "cpw -pw abd -keepold eve",
        "err 12 PassTooSoon 2023-11-15T22:13:20Z",
    ),
    (
        BARE,
        "eve",
        "cpw -randkey -keepold eve",
        "err 12 PassTooSoon 2023-11-15T22:13:20Z",
    ),
    (ANY, "joe", "cpw -pw abc -keepold eve", "err 11 PassReused"),
    (ANY, "joe", "cpw -pw abd -keepold eve", "err 28 KeysFull"),
    (ANY, "joe", "cpw -randkey -keepold eve", "err 28 KeysFull"),
];

static TABLES: [&[Case]; 4] = [&DENIED, &PROTECTED, &THERE_OR_NOT, &OF_PASSWORDS];

/// Gives the lines of tables that go on one behind the other.
pub(crate) fn check_tables(
    rt: &impl Abort,
    alloc: Global,
    database: &mut Database,
    tables: &[&[Case]],
) -> Result<(), Fail> {
    for cases in tables {
        check_cases(rt, alloc, database, cases)?;
    }
    Ok(())
}

#[test]
fn refusals_come_in_their_order(rt: HostRuntime) -> Result<(), Fail> {
    let mut database = check_created(&rt, rt.alloc(), &THERE)?;
    check_tables(&rt, rt.alloc(), &mut database, &TABLES)
}

// ---- records that are full

/// A line that sets a string attribute: how it begins, the last letter of the key, and how long the value is.
fn setting(alloc: Global, front: &str, key: u8, len: usize) -> Result<Vec<u8>, Fail> {
    let mut line = front.as_bytes().to_vec(alloc)?;
    line.push(key)?;
    line.push(b' ')?;
    push_letters(&mut line, b'x', len)?;
    Ok(line)
}

fn check_string(
    rt: &impl Abort,
    alloc: Global,
    database: &mut Database,
    front: &str,
    string: &(u8, usize, &str),
) -> Result<(), Fail> {
    let (key, len, wanted) = string;
    let line = setting(alloc, front, *key, *len)?;
    check_case(rt, alloc, database, None, LOCAL, &line, wanted)
}

/// Sets string attributes one after another, and compares what is answered.
pub(crate) fn check_strings(
    rt: &impl Abort,
    alloc: Global,
    database: &mut Database,
    front: &str,
    strings: &[(u8, usize, &str)],
) -> Result<(), Fail> {
    for string in strings {
        check_string(rt, alloc, database, front, string)?;
    }
    Ok(())
}

/// A record has at most 16000 bytes and 16 attributes, and the latter is told first.
pub(crate) static OF_BOB: [(u8, usize, &str); 19] = [
    (b'a', 1024, "ok 3 1700000000.000000"),
    (b'b', 1024, "ok 4 1700000000.000000"),
    (b'c', 1024, "ok 5 1700000000.000000"),
    (b'd', 1024, "ok 6 1700000000.000000"),
    (b'e', 1024, "ok 7 1700000000.000000"),
    (b'f', 1024, "ok 8 1700000000.000000"),
    (b'g', 1024, "ok 9 1700000000.000000"),
    (b'h', 1024, "ok 10 1700000000.000000"),
    (b'i', 1024, "ok 11 1700000000.000000"),
    (b'j', 1024, "ok 12 1700000000.000000"),
    (b'k', 1024, "ok 13 1700000000.000000"),
    (b'l', 1024, "ok 14 1700000000.000000"),
    (b'm', 1024, "ok 15 1700000000.000000"),
    (b'n', 1024, "ok 16 1700000000.000000"),
    (b'o', 1024, "ok 17 1700000000.000000"),
    (b'p', 1024, "err 14 RecordTooLarge 16535"),
    (b'p', 1, "ok 18 1700000000.000000"),
    (b'q', 1024, "err 30 StringsFull 16"),
    (b'p', 1024, "err 14 RecordTooLarge 16535"),
];

#[test]
fn seventeenth_attribute_is_told_before_a_long_record(rt: HostRuntime) -> Result<(), Fail> {
    let mut database = check_created(&rt, rt.alloc(), &[BOB])?;
    check_strings(&rt, rt.alloc(), &mut database, "setstr bob a", &OF_BOB)
}

pub(crate) const BOB: Turn = ("addprinc -nokey bob", "ok 2 1700000000.000000");

/// With fifteen attributes of 1024 letters and this one, the record has 15991 bytes.
const LAST_OF_BOB: [(u8, usize, &str); 1] = [(b'p', 480, "ok 18 1700000000.000000")];

/// A client whose printed name has 42 bytes, 19 more than that of the administrator of the machine.
const LONG: &str = "cccccccccccccccccccccccccccccc";

/// A policy, a new name and the name of whoever changes it make the record longer.
static LONGER: [Case; 8] = [
    (
        None,
        "admin/local",
        "addpol pppppppppppppppppppp",
        "ok 19 1700000000.000000",
    ),
    (
        None,
        "admin/local",
        "modprinc -policy nnnnnnnnnnnnnnnnnnnn bob",
        "err 5 UnknownPolicy",
    ),
    (
        None,
        "admin/local",
        "modprinc -policy pppppppppppppppppppp bob",
        "err 14 RecordTooLarge 16011",
    ),
    (
        None,
        "admin/local",
        "modprinc +lockdown_keys bob",
        "ok 20 1700000000.000000",
    ),
    (
        ANY,
        "joe",
        "renprinc bob bbbbbbbbbbbbbbbbbbbbbbb",
        "err 32 LockedDown",
    ),
    (
        None,
        "admin/local",
        "renprinc bob bbbbbbbbbbbbbbbbbbbbbbb",
        "err 14 RecordTooLarge 16011",
    ),
    (ANY, LONG, "delstr bob size", "err 31 UnknownString"),
    (
        ANY,
        LONG,
        "modprinc -maxlife 1h bob",
        "err 14 RecordTooLarge 16010",
    ),
];

fn check_long_record(rt: &impl Abort, alloc: Global, database: &mut Database) -> Result<(), Fail> {
    check_strings(rt, alloc, database, "setstr bob a", &OF_BOB[..15])?;
    check_strings(rt, alloc, database, "setstr bob a", &LAST_OF_BOB)?;
    check_cases(rt, alloc, database, &LONGER)
}

#[test]
fn long_record_is_told_last(rt: HostRuntime) -> Result<(), Fail> {
    let mut database = check_created(&rt, rt.alloc(), &[BOB])?;
    check_long_record(&rt, rt.alloc(), &mut database)
}

const EVE: [Turn; 2] = [
    ("addpol -minlife 1d slow", "ok 2 1700000000.000000"),
    (
        "addprinc -policy slow -randkey eve",
        "ok 3 1700000000.000000",
    ),
];

/// Gives the principal 15 more versions of keys, the last ones of a password.
fn fill(rt: &impl Abort, alloc: Global, database: &mut Database) -> Result<(), Fail> {
    for _ in 0..14 {
        assert!(rt; is_accepted(rt, alloc, database, b"cpw -randkey -keepold eve")?);
    }
    assert!(rt; is_accepted(rt, alloc, database, b"cpw -pw abc -keepold eve")?);
    Ok(())
}

/// A database with a principal of 16 versions of two keys, the last ones of a password.
fn filled(rt: &impl Abort, alloc: Global) -> Result<Database, Fail> {
    let mut database = check_created(rt, alloc, &EVE)?;
    fill(rt, alloc, &mut database)?;
    Ok(database)
}

/// What more her record has.
static OF_EVE: [(u8, usize, &str); 15] = [
    (b'a', 1024, "ok 19 1700000000.000000"),
    (b'b', 1024, "ok 20 1700000000.000000"),
    (b'c', 1024, "ok 21 1700000000.000000"),
    (b'd', 1024, "ok 22 1700000000.000000"),
    (b'e', 1024, "ok 23 1700000000.000000"),
    (b'f', 1024, "ok 24 1700000000.000000"),
    (b'g', 1024, "ok 25 1700000000.000000"),
    (b'h', 1024, "ok 26 1700000000.000000"),
    (b'i', 1024, "ok 27 1700000000.000000"),
    (b'j', 1024, "ok 28 1700000000.000000"),
    (b'k', 1024, "ok 29 1700000000.000000"),
    (b'l', 1024, "ok 30 1700000000.000000"),
    (b'm', 1024, "ok 31 1700000000.000000"),
    (b'n', 450, "ok 32 1700000000.000000"),
    (b'n', 1024, "err 14 RecordTooLarge 16539"),
];

/// With two keys more than there may be, the record would be too long as well.
const FULL: [Turn; 2] = [
    ("cpw -randkey -keepold eve", "err 28 KeysFull"),
    ("purgekeys -keepkvno 2 eve", "ok 33 1700000000.000000"),
];

/// The two keys that are gone have 128 bytes.
const AGAIN: [(u8, usize, &str); 1] = [(b'n', 578, "ok 34 1700000000.000000")];

const LARGE: [Turn; 1] = [("cpw -randkey -keepold eve", "err 14 RecordTooLarge 16093")];

fn check_full_keys(rt: &impl Abort, alloc: Global, database: &mut Database) -> Result<(), Fail> {
    check_cases(rt, alloc, database, &KEYS_FULL)?;
    check_strings(rt, alloc, database, "setstr eve k", &OF_EVE)?;
    check_turns(rt, alloc, database, &FULL)?;
    check_strings(rt, alloc, database, "setstr eve k", &AGAIN)?;
    check_turns(rt, alloc, database, &LARGE)
}

#[test]
fn full_keys_are_told_before_a_long_record(rt: HostRuntime) -> Result<(), Fail> {
    let mut database = filled(&rt, rt.alloc())?;
    check_full_keys(&rt, rt.alloc(), &mut database)
}

// ---- master keys that are full

/// Gives one version more, and compares what is answered. Each change gets the serial that its version has.
fn check_version(
    rt: &impl Abort,
    alloc: Global,
    database: &mut Database,
    version: u32,
) -> Result<(), Fail> {
    let wanted = format!(in alloc; "ok {version} 1700000000.000000 mkvno {version}")?;
    check_case(
        rt,
        alloc,
        database,
        None,
        LOCAL,
        b"add_mkey",
        wanted.as_str(),
    )
}

/// 32 versions are the most. A denial is told before that, and a version that is not there before a denial.
static MASTERS_FULL: [Case; 6] = [
    (None, "admin/local", "add_mkey", "err 15 TooManyMasters 32"),
    (
        ANY,
        "joe",
        "add_mkey -e aes128-sha2",
        "err 15 TooManyMasters 32",
    ),
    (DENIES, "joe", "add_mkey", "err 7 Denied 1"),
    (BARE, "joe", "add_mkey", "err 7 Denied 0"),
    (DENIES, "joe", "use_mkey 33", "err 16 UnknownMaster 33"),
    (DENIES, "joe", "use_mkey 32", "err 7 Denied 1"),
];

/// The newest stays, and there is room again.
const MASTERS_AGAIN: [Turn; 2] = [
    (
        "purge_mkeys",
        "- kept 1 protects 2\n- purged 2\n- purged 3\n- purged 4\n- purged 5\n- purged 6\n- purged 7\n\
- purged 8\n- purged 9\n- purged 10\n- purged 11\n- purged 12\n- purged 13\n- purged 14\n- purged 15\n\
- purged 16\n- purged 17\n- purged 18\n- purged 19\n- purged 20\n- purged 21\n- purged 22\n- purged 23\n\
- purged 24\n- purged 25\n- purged 26\n- purged 27\n- purged 28\n- purged 29\n- purged 30\n- purged 31\n\
- kept 32 newest\nok 33 1700000000.000000 30 purged",
    ),
    ("add_mkey", "ok 34 1700000000.000000 mkvno 33"),
];

fn check_full_masters(rt: &impl Abort, alloc: Global, database: &mut Database) -> Result<(), Fail> {
    for version in 2..33 {
        check_version(rt, alloc, database, version)?;
    }
    check_cases(rt, alloc, database, &MASTERS_FULL)?;
    check_turns(rt, alloc, database, &MASTERS_AGAIN)
}

#[test]
fn full_master_keys_are_told_behind_a_denial(rt: HostRuntime) -> Result<(), Fail> {
    let mut database = created(rt.alloc())?;
    check_full_masters(&rt, rt.alloc(), &mut database)
}
