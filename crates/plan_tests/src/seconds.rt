//! Lines that are given at several seconds of the clock, which may go back.

use crate::databases::{Case, Database, Second, check_seconds, check_sound, created};
use std::alloc::Global;
use std::process::Abort;
use std::test::Fail;

const FIRST: [Case; 1] = [(
    None,
    "admin/local",
    "addprinc -pw s3cret alice",
    "ok 2 1700000100.000000",
)];

/// The clock is behind the last change, whose time is that of the next one. By it one version has to be active.
const BEHIND: [Case; 6] = [
    (
        None,
        "admin/local",
        "addprinc -nokey bob",
        "ok 3 1700000100.000000",
    ),
    (
        None,
        "admin/local",
        "getprinc bob",
        "- principal bob@EXAMPLE.ORG\n- expires never\n- pwexpires never\n- pwchanged never\n- maxlife 0\n\
- maxrenewlife 0\n- modified 2023-11-14T22:15:00Z admin/local@EXAMPLE.ORG\n- mkvno 1\n- flags none\n- policy -\nok",
    ),
    (
        None,
        "admin/local",
        "add_mkey",
        "ok 4 1700000100.000000 mkvno 2",
    ),
    (
        None,
        "admin/local",
        "use_mkey 2 1700000200",
        "ok 5 1700000100.000000 mkvno 2 from 2023-11-14T22:16:40Z",
    ),
    (
        None,
        "admin/local",
        "use_mkey 1 1700000101",
        "err 17 NoActiveMaster",
    ),
    (
        None,
        "admin/local",
        "use_mkey 1 1700000100",
        "ok 6 1700000100.000000 mkvno 1 from 2023-11-14T22:15:00Z",
    ),
];

/// A second before version 2 is active.
const BEFORE: [Case; 4] = [
    (
        None,
        "admin/local",
        "addprinc -nokey carol",
        "ok 7 1700000199.000000",
    ),
    (
        None,
        "admin/local",
        "getprinc carol",
        "- principal carol@EXAMPLE.ORG\n- expires never\n- pwexpires never\n- pwchanged never\n- maxlife 0\n\
- maxrenewlife 0\n- modified 2023-11-14T22:16:39Z admin/local@EXAMPLE.ORG\n- mkvno 1\n- flags none\n- policy -\nok",
    ),
    (
        None,
        "admin/local",
        "list_mkeys",
        "- 1 aes256-cts-hmac-sha1-96 2023-11-14T22:15:00Z *\n\
- 2 aes256-cts-hmac-sha1-96 2023-11-14T22:16:40Z\nok",
    ),
    (
        None,
        "admin/local",
        "purge_mkeys",
        "- kept 1 protects 5\n- kept 2 newest\nok 0 purged",
    ),
];

const ACTIVE: [Case; 2] = [
    (
        None,
        "admin/local",
        "list_mkeys",
        "- 1 aes256-cts-hmac-sha1-96 2023-11-14T22:15:00Z\n\
- 2 aes256-cts-hmac-sha1-96 2023-11-14T22:16:40Z *\nok",
    ),
    (
        None,
        "admin/local",
        "cpw -pw t4cret -keepold alice",
        "ok 8 1700000200.000000",
    ),
];

/// The clock is behind again, and version 2 stays active.
const STILL_ACTIVE: [Case; 5] = [
    (
        None,
        "admin/local",
        "list_mkeys",
        "- 1 aes256-cts-hmac-sha1-96 2023-11-14T22:15:00Z\n\
- 2 aes256-cts-hmac-sha1-96 2023-11-14T22:16:40Z *\nok",
    ),
    (
        None,
        "admin/local",
        "getprinc alice",
        "- principal alice@EXAMPLE.ORG\n- expires never\n- pwexpires never\n\
- pwchanged 2023-11-14T22:16:40Z\n- maxlife 0\n- maxrenewlife 0\n\
- modified 2023-11-14T22:16:40Z admin/local@EXAMPLE.ORG\n- mkvno 2\n- flags none\n- policy -\n\
- key 2 aes256-cts-hmac-sha1-96 normal\n- key 2 aes128-cts-hmac-sha1-96 normal\n\
- key 1 aes256-cts-hmac-sha1-96 normal\n- key 1 aes128-cts-hmac-sha1-96 normal\nok",
    ),
    (
        None,
        "admin/local",
        "addprinc -nokey dora",
        "ok 9 1700000200.000000",
    ),
    (
        None,
        "admin/local",
        "getprinc dora",
        "- principal dora@EXAMPLE.ORG\n- expires never\n- pwexpires never\n- pwchanged never\n- maxlife 0\n\
- maxrenewlife 0\n- modified 2023-11-14T22:16:40Z admin/local@EXAMPLE.ORG\n- mkvno 2\n- flags none\n- policy -\nok",
    ),
    (
        None,
        "admin/local",
        "purge_mkeys",
        "- kept 1 protects 4\n- kept 2 protects 2\nok 0 purged",
    ),
];

static ROLLING: [Second; 5] = [
    (1_700_000_100, &FIRST),
    (1_700_000_000, &BEHIND),
    (1_700_000_199, &BEFORE),
    (1_700_000_200, &ACTIVE),
    (1_700_000_150, &STILL_ACTIVE),
];

fn check_rolling(rt: &impl Abort, alloc: Global, database: &mut Database) -> Result<(), Fail> {
    check_seconds(rt, alloc, database, &ROLLING)?;
    check_sound(alloc, database)
}

#[test]
fn version_becomes_active_between_two_lines(rt: HostRuntime) -> Result<(), Fail> {
    let mut database = created(rt.alloc())?;
    check_rolling(&rt, rt.alloc(), &mut database)
}

/// A list without lines.
const BARE: Option<&str> = Some("");

/// A list that forces an end a day later.
const ENDS: Option<&str> = Some("ops a * -expire 1d\n");

const SLOW: [Case; 2] = [
    (
        None,
        "admin/local",
        "addpol -minlife 1d slow",
        "ok 2 1700000000.000000",
    ),
    (
        None,
        "admin/local",
        "addprinc -policy slow -pw s3cret alice",
        "ok 3 1700000000.000000",
    ),
];

/// A second before a day is over.
const TOO_SOON: [Case; 2] = [
    (
        BARE,
        "alice",
        "cpw -pw t4cret alice",
        "err 12 PassTooSoon 2023-11-15T22:13:20Z",
    ),
    (
        BARE,
        "alice",
        "cpw -randkey alice",
        "err 12 PassTooSoon 2023-11-15T22:13:20Z",
    ),
];

const A_DAY_LATER: [Case; 2] = [
    (
        BARE,
        "alice",
        "cpw -pw t4cret alice",
        "ok 4 1700086400.000000",
    ),
    (
        BARE,
        "alice",
        "cpw -pw u5cret alice",
        "err 12 PassTooSoon 2023-11-16T22:13:20Z",
    ),
];

/// Where the clock has gone back, lives are counted from the time of the last change.
const BACK: [Case; 4] = [
    (
        BARE,
        "alice",
        "cpw -randkey alice",
        "err 12 PassTooSoon 2023-11-16T22:13:20Z",
    ),
    (
        BARE,
        "alice",
        "getprinc alice",
        "- principal alice@EXAMPLE.ORG\n- expires never\n- pwexpires never\n\
- pwchanged 2023-11-15T22:13:20Z\n- maxlife 0\n- maxrenewlife 0\n\
- modified 2023-11-15T22:13:20Z alice@EXAMPLE.ORG\n- mkvno 1\n- flags none\n- policy slow\n\
- key 2 aes256-cts-hmac-sha1-96 normal\n- key 2 aes128-cts-hmac-sha1-96 normal\nok",
    ),
    (ENDS, "ops", "addprinc -nokey bob", "ok 5 1700086400.000000"),
    (
        None,
        "admin/local",
        "getprinc bob",
        "- principal bob@EXAMPLE.ORG\n- expires 2023-11-16T22:13:20Z\n- pwexpires never\n- pwchanged never\n\
- maxlife 0\n- maxrenewlife 0\n- modified 2023-11-15T22:13:20Z ops@EXAMPLE.ORG\n- mkvno 1\n- flags none\n\
- policy -\nok",
    ),
];

static WAITING: [Second; 4] = [
    (1_700_000_000, &SLOW),
    (1_700_086_399, &TOO_SOON),
    (1_700_086_400, &A_DAY_LATER),
    (1_700_000_000, &BACK),
];

#[test]
fn least_life_is_over_to_the_second(rt: HostRuntime) -> Result<(), Fail> {
    let mut database = created(rt.alloc())?;
    check_seconds(&rt, rt.alloc(), &mut database, &WAITING)
}
