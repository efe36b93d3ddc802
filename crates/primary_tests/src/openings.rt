//! Databases that are opened anew, with another log, behind an end, and with keys of another type.

use crate::bench::{ANY, LOCAL, T};
use crate::calls::At;
use crate::patches::Patch;
use crate::turns::Turn::{Ask, Create, End, Keys, Line, Log, Open, Poll, Stash};
use crate::turns::{Turn, play};
use princ_rows::ReplyCode::FullResyncNeeded;
use std::test::Fail;

const T1: At = (1_700_000_000, 1);

const T2: At = (1_700_000_000, 2);

/// The log is begun anew for each other size, a microsecond behind the one before, since the clock stands.
static SIZES: [Turn; 14] = [
    Create(1000, "ok 1 1700000000.000000"),
    Line("addprinc -nokey bob", "ok 2 1700000000.000000"),
    Open(None, 1, "ok 2 1700000000.000000"),
    Open(Some(1000), 1, "ok 2 1700000000.000000"),
    Log(1000, 2048, (1, T), (2, T)),
    Open(Some(5), 1, "ok 1 1700000000.000001"),
    Log(5, 2048, (1, T1), (1, T1)),
    Keys(b"bob@EXAMPLE.ORG", &[]),
    Open(None, 1, "ok 1 1700000000.000001"),
    Log(5, 2048, (1, T1), (1, T1)),
    Open(Some(1000), 1, "ok 1 1700000000.000002"),
    Log(1000, 2048, (1, T2), (1, T2)),
    Keys(b"bob@EXAMPLE.ORG", &[]),
    Line("addprinc -nokey carol", "ok 2 1700000000.000002"),
];

/// A second after the creation.
const NEXT: At = (1_700_000_001, 0);

/// The last poll is that of a replica of the database before.
static ENDED: [Turn; 9] = [
    Create(1000, "ok 1 1700000000.000000"),
    End,
    Open(None, 1, "err 20 NotADatabase"),
    Ask(ANY, "kiprop/a", NEXT),
    Create(1000, "ok 1 1700000001.000000"),
    Log(1000, 2048, (1, NEXT), (1, NEXT)),
    Poll((1, T), FullResyncNeeded, &[]),
    LOCAL,
    Create(1000, "err 21 AlreadyThere"),
];

#[test]
fn databases_are_opened_ended_and_made_anew(rt: HostRuntime) -> Result<(), Fail> {
    play(&rt, rt.alloc(), &SIZES)?;
    play(&rt, rt.alloc(), &ENDED)
}

/// The last time that there is.
const LAST: At = (u32::MAX, 999_999);

/// How many bytes of the stash are left, which others stand in it, and why the database is not
/// opened. The version stands in the bytes 35 and 75 of the stash, and the key from the byte 40 on.
type Cause = (usize, Patch, &'static str);

/// The log is to begin anew in another size, for which no later time is left. Beside that, the
/// first stash has no entry, the second a version that is not listed and another key, and the third
/// another key.
const CAUSES: [Cause; 4] = [
    (2, &[], "err 18 StashMissing"),
    (76, &[(35, 9), (40, 1), (75, 9)], "err 16 UnknownMaster 9"),
    (76, &[(40, 1)], "err 19 StashWrong"),
    (76, &[], "err 23 TimeEnd"),
];

#[test]
fn causes_against_an_opening_come_in_their_order(rt: HostRuntime) -> Result<(), Fail> {
    for (length, patch, wanted) in CAUSES {
        let turns: [Turn; 4] = [
            Ask(None, "admin/local", LAST),
            Create(1000, "ok 1 4294967295.999999"),
            Stash(length, patch),
            Open(Some(5), 1, wanted),
        ];
        play(&rt, rt.alloc(), &turns)?;
    }
    Ok(())
}

/// The stash has version 1 alone, which opens the chain to version 2. Under a key of aes128-cts-hmac-sha256-128 a
/// wrapped key has two bytes, 16 of the confounder, the key and a tag of 16 bytes.
static OF_TWO_TYPES: [Turn; 8] = [
    Create(1000, "ok 1 1700000000.000000"),
    Line("add_mkey -e aes128-sha2", "ok 2 1700000000.000000 mkvno 2"),
    Line(
        "list_mkeys",
        "- 1 aes256-cts-hmac-sha1-96 2023-11-14T22:13:20Z *\n- 2 aes128-cts-hmac-sha256-128 -\nok",
    ),
    Line(
        "use_mkey 2",
        "ok 3 1700000000.000000 mkvno 2 from 2023-11-14T22:13:20Z",
    ),
    Line(
        "addprinc -pw s3cret -e aes256-sha2 bob",
        "ok 4 1700000000.000000",
    ),
    Open(None, 1, "ok 4 1700000000.000000"),
    Keys(b"bob@EXAMPLE.ORG", &[66]),
    Keys(b"K/M@EXAMPLE.ORG", &[50, 66]),
];

#[test]
fn keys_are_wrapped_under_the_greater_version(rt: HostRuntime) -> Result<(), Fail> {
    play(&rt, rt.alloc(), &OF_TWO_TYPES)
}
