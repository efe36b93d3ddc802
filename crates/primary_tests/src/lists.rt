//! Access lists, the limits that they set, and what is asked under them.

use crate::bench::{ANY, LOCAL, T};
use crate::turns::Turn::{Ask, Create, Line, Log, Names};
use crate::turns::{Turn, play};
use std::test::Fail;

/// A version that is not listed is told before a denial, and a denial before all else. K/M is none of the names.
static OF_MASTERS: [Turn; 18] = [
    Create(1000, "ok 1 1700000000.000000"),
    Ask(Some("joe i\n"), "joe", T),
    Line("use_mkey 9", "err 16 UnknownMaster 9"),
    Line("use_mkey 1 1700003600", "err 7 Denied 1"),
    Line("add_mkey", "err 7 Denied 1"),
    Line("list_mkeys", "err 7 Denied 1"),
    Line("purge_mkeys", "err 7 Denied 1"),
    Line("stash", "err 7 Denied 1"),
    Names("*", "err 7 Denied 1"),
    Log(1000, 2048, (1, T), (1, T)),
    Ask(Some("joe s K/M\n"), "joe", T),
    Line("use_mkey 9", "err 16 UnknownMaster 9"),
    Line("use_mkey 1 1700003600", "err 17 NoActiveMaster"),
    Line("add_mkey", "ok 2 1700000000.000000 mkvno 2"),
    Line("stash", "ok"),
    Names(
        "*",
        "- kadmin/history@EXAMPLE.ORG\n- krbtgt/EXAMPLE.ORG@EXAMPLE.ORG\nok",
    ),
    Names("K*", "ok"),
    Names("k*/?i*", "- kadmin/history@EXAMPLE.ORG\nok"),
];

const OPS: Option<&str> = Some("ops/* a * +requires_preauth -maxlife 1h\n");

/// The same line, which goes on behind a line feed.
const OPS_ON_TWO: Option<&str> = Some("ops/* a * \\\n+requires_preauth -maxlife 1h\n");

const BOB: &str = "- principal bob@EXAMPLE.ORG\n- expires never\n- pwexpires never\n\
- pwchanged never\n- maxlife 3600\n- maxrenewlife 0\n\
- modified 2023-11-14T22:13:20Z ops/x@EXAMPLE.ORG\n- mkvno 1\n- flags +requires_preauth\n\
- policy -\nok";

static RESTRICTED: [Turn; 16] = [
    Create(1000, "ok 1 1700000000.000000"),
    Ask(OPS, "ops/x", T),
    Line("getprivs", "- privileges a\nok"),
    Line("addprinc -nokey -maxlife 2h bob", "ok 2 1700000000.000000"),
    Line("delprinc bob", "err 7 Denied 1"),
    Line("renprinc bob rob", "err 7 Denied 1"),
    LOCAL,
    Line("getprinc bob", BOB),
    Line("delprinc bob", "ok 3 1700000000.000000"),
    Ask(OPS_ON_TWO, "ops/x", T),
    Line("getprivs", "- privileges a\nok"),
    Line("addprinc -nokey -maxlife 2h bob", "ok 4 1700000000.000000"),
    Line("delprinc bob", "err 7 Denied 1"),
    Line("renprinc bob rob", "err 7 Denied 1"),
    LOCAL,
    Line("getprinc bob", BOB),
];

#[test]
fn a_list_denies_and_restricts(rt: HostRuntime) -> Result<(), Fail> {
    play(&rt, rt.alloc(), &OF_MASTERS)?;
    play(&rt, rt.alloc(), &RESTRICTED)
}

/// A password is not changed by its principal before its least life is over, unless it has to be.
static TOO_SOON: [Turn; 9] = [
    Create(1000, "ok 1 1700000000.000000"),
    Line("addpol -minlife 1d slow", "ok 2 1700000000.000000"),
    Line(
        "addprinc -policy slow -pw s3cret alice",
        "ok 3 1700000000.000000",
    ),
    Ask(Some(""), "alice", T),
    Line(
        "cpw -pw t4cret alice",
        "err 12 PassTooSoon 2023-11-15T22:13:20Z",
    ),
    LOCAL,
    Line("modprinc +needchange alice", "ok 4 1700000000.000000"),
    Ask(Some(""), "alice", T),
    Line("cpw -pw t4cret alice", "ok 5 1700000000.000000"),
];

#[test]
fn a_password_has_a_least_life(rt: HostRuntime) -> Result<(), Fail> {
    play(&rt, rt.alloc(), &TOO_SOON)
}

/// Keys that are locked down are neither replaced by a password nor taken away or shown, but at the machine itself.
static LOCKED_DOWN: [Turn; 18] = [
    Create(1000, "ok 1 1700000000.000000"),
    Ask(ANY, "joe", T),
    Line("addprinc -randkey alice", "ok 2 1700000000.000000"),
    Line("modprinc +lockdown_keys alice", "ok 3 1700000000.000000"),
    Line("cpw -pw x alice", "err 32 LockedDown"),
    Line("delprinc alice", "err 32 LockedDown"),
    Line("renprinc alice b", "err 32 LockedDown"),
    Line("modprinc -lockdown_keys alice", "err 32 LockedDown"),
    Line("renprinc alice alice", "err 3 Duplicate"),
    Line("cpw -randkey alice", "ok 4 1700000000.000000"),
    Line("extract alice", "err 7 Denied 1"),
    Ask(ANY, "alice", T),
    Line("cpw -pw y alice", "err 32 LockedDown"),
    Ask(Some("* *e\n"), "joe", T),
    Line("extract alice", "err 32 LockedDown"),
    LOCAL,
    Line("modprinc -lockdown_keys alice", "ok 5 1700000000.000000"),
    Line("delprinc alice", "ok 6 1700000000.000000"),
];

#[test]
fn keys_that_are_locked_down_stay(rt: HostRuntime) -> Result<(), Fail> {
    play(&rt, rt.alloc(), &LOCKED_DOWN)
}
