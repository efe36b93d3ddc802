//! Principals that are moved under another version of the master key, beside commands and at once.

use crate::answers::Became;
use crate::bench::T;
use crate::calls::At;
use crate::turns::Turn::{
    Ask, Create, Line, Lines, Log, Open, Rekey, RekeyAll, Settle, Take, Work,
};
use crate::turns::{Turn, play};
use std::test::Fail;

const ALICE: &[u8] = b"alice@EXAMPLE.ORG";

/// An hour after the creation, when version 3 becomes active.
const HOUR: At = (1_700_003_600, 0);

const ADD: Turn = Line("addprinc -randkey alice", "ok 2 1700000000.000000");

const ADD_SECOND: Turn = Line("add_mkey", "ok 3 1700000000.000000 mkvno 2");

const ADD_THIRD: Turn = Line("add_mkey", "ok 4 1700000000.000000 mkvno 3");

const USE_THIRD: Turn = Line(
    "use_mkey 3 1700003600",
    "ok 5 1700000000.000000 mkvno 3 from 2023-11-14T23:13:20Z",
);

const HOUR_LATER: Turn = Ask(None, "admin/local", HOUR);

/// New keys are under the version that is active by then.
static ANOTHER: [Turn; 16] = [
    Create(1000, "ok 1 1700000000.000000"),
    ADD,
    ADD_SECOND,
    ADD_THIRD,
    USE_THIRD,
    HOUR_LATER,
    Work(ALICE),
    Work(ALICE),
    Line("cpw -randkey alice", "ok 6 1700003600.000000"),
    Settle(ALICE, Became::AnotherRecord(None)),
    Rekey(ALICE, Became::Already),
    Line("delprinc alice", "ok 7 1700003600.000000"),
    Settle(ALICE, Became::Gone),
    Rekey(ALICE, Became::Gone),
    Take(ALICE, Became::Gone),
    Log(1000, 2048, (1, T), (7, HOUR)),
];

/// Version 2 is active, as the greater one of two that are active from the same second on. No record is under it when
/// it goes.
static PURGED_MEANWHILE: [Turn; 20] = [
    Create(1000, "ok 1 1700000000.000000"),
    ADD,
    ADD_SECOND,
    Line(
        "use_mkey 2",
        "ok 4 1700000000.000000 mkvno 2 from 2023-11-14T22:13:20Z",
    ),
    Work(ALICE),
    Line("add_mkey", "ok 5 1700000000.000000 mkvno 3"),
    Line(
        "use_mkey 3",
        "ok 6 1700000000.000000 mkvno 3 from 2023-11-14T22:13:20Z",
    ),
    Line(
        "purge_mkeys",
        "- kept 1 protects 3\n- purged 2\n- kept 3 active\nok 7 1700000000.000000 1 purged",
    ),
    Settle(ALICE, Became::SameRecord(Some(3))),
    Work(ALICE),
    Work(ALICE),
    Log(1000, 2048, (1, T), (7, T)),
    Settle(ALICE, Became::Stored(3)),
    Log(1000, 2048, (1, T), (8, T)),
    Settle(ALICE, Became::AnotherRecord(None)),
    Take(ALICE, Became::Already),
    Rekey(ALICE, Became::Already),
    Log(1000, 2048, (1, T), (8, T)),
    Open(None, 1, "ok 8 1700000000.000000"),
    Take(ALICE, Became::Already),
];

#[test]
fn work_is_stored_where_nothing_changed_meanwhile(rt: HostRuntime) -> Result<(), Fail> {
    play(&rt, rt.alloc(), &ANOTHER)?;
    play(&rt, rt.alloc(), &PURGED_MEANWHILE)
}

// ---- all of them

const LISTED: &str = "- 1 aes256-cts-hmac-sha1-96 2023-11-14T22:13:20Z *\n\
- 2 aes256-cts-hmac-sha1-96 -\n- 3 aes256-cts-hmac-sha1-96 2023-11-14T23:13:20Z\nok";

const LEFT: &str = "- 3 aes256-cts-hmac-sha1-96 2023-11-14T23:13:20Z *\nok";

const MOVED: &str = "ok 3 principals processed: 3 updated, 0 already current, 0 gone";

const STAYED: &str = "ok 3 principals processed: 0 updated, 3 already current, 0 gone";

const PURGED: &str = "- purged 1\n- purged 2\n- kept 3 protects 3\nok 9 1700003600.000000 2 purged";

static STASHED: [Turn; 17] = [
    Create(1000, "ok 1 1700000000.000000"),
    ADD,
    ADD_SECOND,
    ADD_THIRD,
    USE_THIRD,
    // by the stash of the creation, which has version 1 alone
    Open(None, 1, "ok 5 1700000000.000000"),
    Line("list_mkeys", LISTED),
    Line("use_mkey 9", "err 16 UnknownMaster 9"),
    Line("use_mkey 1 1700003600", "err 17 NoActiveMaster"),
    HOUR_LATER,
    RekeyAll(MOVED),
    Log(1000, 2048, (1, T), (8, HOUR)),
    RekeyAll(STAYED),
    Line("stash", "ok"),
    Line("purge_mkeys", PURGED),
    Open(None, 1, "ok 9 1700003600.000000"),
    Line("list_mkeys", LEFT),
];

/// The stash of the creation has version 1 alone.
static NOT_STASHED: [Turn; 10] = [
    Create(1000, "ok 1 1700000000.000000"),
    ADD,
    ADD_SECOND,
    ADD_THIRD,
    USE_THIRD,
    HOUR_LATER,
    RekeyAll(MOVED),
    Line("purge_mkeys", PURGED),
    Line("list_mkeys", LEFT),
    Open(None, 1, "err 16 UnknownMaster 1"),
];

#[test]
fn a_stash_opens_what_is_purged_behind_it(rt: HostRuntime) -> Result<(), Fail> {
    play(&rt, rt.alloc(), &STASHED)?;
    play(&rt, rt.alloc(), &NOT_STASHED)
}

// ---- as many as there may be

const KEY_ADDED: &str = "add_mkey";

/// A microsecond behind the creation, and two.
const FIRST: At = (1_700_000_000, 1);

const SECOND: At = (1_700_000_000, 2);

/// K/M's entry is longer than a block with the fifteenth version, and with the twenty-ninth.
static THIRTY_TWO: [Turn; 9] = [
    Create(1000, "ok 1 1700000000.000000"),
    Lines(13, KEY_ADDED, "ok 14 1700000000.000000 mkvno 14"),
    Line(KEY_ADDED, "ok 2 1700000000.000001 mkvno 15"),
    Log(1000, 4096, (1, FIRST), (2, FIRST)),
    Lines(13, KEY_ADDED, "ok 15 1700000000.000001 mkvno 28"),
    Line(KEY_ADDED, "ok 2 1700000000.000002 mkvno 29"),
    Lines(3, KEY_ADDED, "ok 5 1700000000.000002 mkvno 32"),
    Log(1000, 6144, (1, SECOND), (5, SECOND)),
    Line(KEY_ADDED, "err 15 TooManyMasters 32"),
];

#[test]
fn thirty_two_versions_are_the_most(rt: HostRuntime) -> Result<(), Fail> {
    play(&rt, rt.alloc(), &THIRTY_TWO)
}
