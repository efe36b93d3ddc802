//! Polls of replicas, and logs that are begun anew.

use crate::bench::{ANY, LOCAL, T};
use crate::calls::At;
use crate::turns::Turn::{Ask, Create, Line, Log, LogTold, Poll, ResetLog, Row};
use crate::turns::{Turn, play};
use princ_rows::ReplyCode::{FullResyncNeeded, Nil, PermDenied, UpdateOk};
use std::test::Fail;

/// A second later.
const LATER: At = (1_700_000_001, 0);

static OF_FOUR: [Turn; 14] = [
    Create(1000, "ok 1 1700000000.000000"),
    Line("addprinc -nokey a", "ok 2 1700000000.000000"),
    Line("addprinc -nokey b", "ok 3 1700000000.000000"),
    Line("addprinc -nokey c", "ok 4 1700000000.000000"),
    Log(1000, 2048, (1, T), (4, T)),
    Ask(ANY, "kiprop/a", T),
    Poll((4, T), Nil, &[]),
    Poll((4, LATER), FullResyncNeeded, &[]),
    Poll((0, (0, 0)), FullResyncNeeded, &[]),
    Poll((5, T), FullResyncNeeded, &[]),
    Poll((2, LATER), FullResyncNeeded, &[]),
    Poll((2, T), UpdateOk, &[3, 4]),
    Ask(Some("kiprop/b p\n"), "kiprop/a", T),
    Poll((4, T), PermDenied, &[]),
];

const TOLD: &str = "- first 4 1700000000.000000\n- last 5 1700000000.000000\n\
- size 2 block 2048\n- 4 1700000000.000000 put c@EXAMPLE.ORG\n\
- 5 1700000000.000000 put d@EXAMPLE.ORG\nok";

/// The log has room for two entries, and five were made.
static OF_TWO: [Turn; 12] = [
    Create(2, "ok 1 1700000000.000000"),
    Line("addprinc -nokey a", "ok 2 1700000000.000000"),
    Line("addprinc -nokey b", "ok 3 1700000000.000000"),
    Line("addprinc -nokey c", "ok 4 1700000000.000000"),
    Line("addprinc -nokey d", "ok 5 1700000000.000000"),
    Log(2, 2048, (4, T), (5, T)),
    LogTold(TOLD),
    Ask(ANY, "kiprop/a", T),
    Poll((5, T), Nil, &[]),
    Poll((4, T), UpdateOk, &[5]),
    Poll((3, T), FullResyncNeeded, &[]),
    Poll((2, T), FullResyncNeeded, &[]),
];

#[test]
fn polls_are_answered_from_the_log(rt: HostRuntime) -> Result<(), Fail> {
    play(&rt, rt.alloc(), &OF_FOUR)?;
    play(&rt, rt.alloc(), &OF_TWO)
}

// ---- logs begun anew

const KEPT: &str = "cpw -randkey -keepold svc";

/// The fifteenth version makes an entry of 2047 bytes, the sixteenth one of 2175, and a block has
/// 2048. An entry has 36 bytes more than the row of svc.
static GROWN: [Turn; 24] = [
    Create(1000, "ok 1 1700000000.000000"),
    Line("addprinc -randkey svc", "ok 2 1700000000.000000"),
    Line(KEPT, "ok 3 1700000000.000000"),
    Line(KEPT, "ok 4 1700000000.000000"),
    Line(KEPT, "ok 5 1700000000.000000"),
    Line(KEPT, "ok 6 1700000000.000000"),
    Line(KEPT, "ok 7 1700000000.000000"),
    Line(KEPT, "ok 8 1700000000.000000"),
    Line(KEPT, "ok 9 1700000000.000000"),
    Line(KEPT, "ok 10 1700000000.000000"),
    Line(KEPT, "ok 11 1700000000.000000"),
    Line(KEPT, "ok 12 1700000000.000000"),
    Line(KEPT, "ok 13 1700000000.000000"),
    Line(KEPT, "ok 14 1700000000.000000"),
    Line(KEPT, "ok 15 1700000000.000000"),
    Line(KEPT, "ok 16 1700000000.000000"),
    Log(1000, 2048, (1, T), (16, T)),
    Row(3, 2011),
    Line(KEPT, "ok 2 1700000000.000001"),
    Row(3, 2139),
    Log(1000, 4096, (1, BEHIND), (2, BEHIND)),
    Line(KEPT, "err 28 KeysFull"),
    Ask(ANY, "kiprop/a", T),
    Poll((16, T), FullResyncNeeded, &[]),
];

/// A microsecond behind the last change, since the clock is not.
const BEHIND: At = (1_700_000_000, 1);

/// The clock was set back by an hour.
static SET_BACK: [Turn; 5] = [
    Create(1000, "ok 1 1700000000.000000"),
    Ask(None, "admin/local", (1_699_996_400, 0)),
    ResetLog("ok 1 1700000000.000001"),
    Log(1000, 2048, (1, BEHIND), (1, BEHIND)),
    Line("addprinc -nokey bob", "ok 2 1700000000.000001"),
];

/// The last time that there is.
const END: At = (u32::MAX, 999_999);

static NO_LATER: [Turn; 6] = [
    Ask(None, "admin/local", END),
    Create(1000, "ok 1 4294967295.999999"),
    LOCAL,
    ResetLog("err 23 TimeEnd"),
    Line("addprinc -nokey bob", "ok 2 4294967295.999999"),
    Log(1000, 2048, (1, END), (2, END)),
];

#[test]
fn logs_begin_anew_while_a_time_is_left(rt: HostRuntime) -> Result<(), Fail> {
    play(&rt, rt.alloc(), &GROWN)?;
    play(&rt, rt.alloc(), &SET_BACK)?;
    play(&rt, rt.alloc(), &NO_LATER)
}
