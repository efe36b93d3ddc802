//! What lines are answered under access lists.

use crate::databases::{Case, Turn, check_cases, check_created, check_turns, created};
use crate::order::check_tables;
use std::alloc::Global;
use std::process::Abort;
use std::test::Fail;

/// A list by which everybody may do all but extract keys.
const ANY: Option<&str> = Some("* *\n");

/// A list without lines.
const BARE: Option<&str> = Some("");

/// Lines for three kinds of clients, the last one with a target that is taken of the client.
const TARGETS_OF_CLIENTS: [Case; 4] = [
    (
        Some("joe/admin ADMCIL */root\n*/admin *\n*/user ci *1\n"),
        "joe/admin",
        "delprinc x/root",
        "err 7 Denied 1",
    ),
    (
        Some("joe/admin ADMCIL */root\n*/admin *\n*/user ci *1\n"),
        "joe/admin",
        "delprinc bob",
        "err 4 UnknownPrincipal",
    ),
    (
        Some("joe/admin ADMCIL */root\n*/admin *\n*/user ci *1\n"),
        "bob/user",
        "getprinc bob",
        "err 4 UnknownPrincipal",
    ),
    (
        Some("joe/admin ADMCIL */root\n*/admin *\n*/user ci *1\n"),
        "bob/user",
        "getprinc carol",
        "err 7 Denied 0",
    ),
];

/// A line with restrictions.
const RESTRICTED: [Case; 5] = [
    (
        Some("ops/* a * +requires_preauth -maxlife 1h\n"),
        "ops/x",
        "getprivs",
        "- privileges a\nok",
    ),
    (
        Some("ops/* a * +requires_preauth -maxlife 1h\n"),
        "ops/x",
        "addprinc -nokey -maxlife 2h bob",
        "ok 2 1700000000.000000",
    ),
    (
        ANY,
        "joe",
        "getprinc bob",
        "- principal bob@EXAMPLE.ORG\n- expires never\n- pwexpires never\n- pwchanged never\n- maxlife 3600\n- maxrenewlife 0\n- modified 2023-11-14T22:13:20Z ops/x@EXAMPLE.ORG\n- mkvno 1\n- flags +requires_preauth\n- policy -\nok",
    ),
    (
        Some("ops/* a * +requires_preauth -maxlife 1h\n"),
        "ops/x",
        "delprinc bob",
        "err 7 Denied 1",
    ),
    (
        Some("ops/* a * +requires_preauth -maxlife 1h\n"),
        "ops/x",
        "renprinc bob rob",
        "err 7 Denied 1",
    ),
];

/// The same line, which goes on behind a line feed.
const RESTRICTED_ON_TWO: [Case; 5] = [
    (
        Some("ops/* a * \\\n+requires_preauth -maxlife 1h\n"),
        "ops/x",
        "getprivs",
        "- privileges a\nok",
    ),
    (
        Some("ops/* a * \\\n+requires_preauth -maxlife 1h\n"),
        "ops/x",
        "addprinc -nokey -maxlife 2h bob",
        "ok 2 1700000000.000000",
    ),
    (
        ANY,
        "joe",
        "getprinc bob",
        "- principal bob@EXAMPLE.ORG\n- expires never\n- pwexpires never\n- pwchanged never\n- maxlife 3600\n- maxrenewlife 0\n- modified 2023-11-14T22:13:20Z ops/x@EXAMPLE.ORG\n- mkvno 1\n- flags +requires_preauth\n- policy -\nok",
    ),
    (
        Some("ops/* a * \\\n+requires_preauth -maxlife 1h\n"),
        "ops/x",
        "delprinc bob",
        "err 7 Denied 1",
    ),
    (
        Some("ops/* a * \\\n+requires_preauth -maxlife 1h\n"),
        "ops/x",
        "renprinc bob rob",
        "err 7 Denied 1",
    ),
];

/// A password is not changed by its principal before its least life is over, unless it has to be.
const SOON: [Case; 6] = [
    (
        None,
        "admin/local",
        "addpol -minlife 1d slow",
        "ok 2 1700000000.000000",
    ),
    (
        None,
        "admin/local",
        "addprinc -policy slow -pw s3cret alice",
        "ok 3 1700000000.000000",
    ),
    (
        BARE,
        "alice",
        "cpw -pw t4cret alice",
        "err 12 PassTooSoon 2023-11-15T22:13:20Z",
    ),
    (
        None,
        "admin/local",
        "modprinc +needchange alice",
        "ok 4 1700000000.000000",
    ),
    (
        BARE,
        "alice",
        "cpw -pw t4cret alice",
        "ok 5 1700000000.000000",
    ),
    (
        BARE,
        "alice",
        "cpw -pw u5cret alice",
        "err 12 PassTooSoon 2023-11-15T22:13:20Z",
    ),
];

/// Keys that are locked down are neither replaced by a password nor taken away or shown, but at the machine itself.
const LOCKED: [Case; 15] = [
    (
        ANY,
        "joe",
        "addprinc -randkey alice",
        "ok 2 1700000000.000000",
    ),
    (
        ANY,
        "joe",
        "modprinc +lockdown_keys alice",
        "ok 3 1700000000.000000",
    ),
    (ANY, "joe", "cpw -pw x alice", "err 32 LockedDown"),
    (ANY, "joe", "delprinc alice", "err 32 LockedDown"),
    (ANY, "joe", "renprinc alice b", "err 32 LockedDown"),
    (
        ANY,
        "joe",
        "modprinc -lockdown_keys alice",
        "err 32 LockedDown",
    ),
    (ANY, "joe", "renprinc alice alice", "err 3 Duplicate"),
    (ANY, "joe", "cpw -randkey alice", "ok 4 1700000000.000000"),
    (ANY, "alice", "cpw -pw y alice", "err 32 LockedDown"),
    (ANY, "joe", "extract alice", "err 7 Denied 1"),
    (Some("* *e\n"), "joe", "extract alice", "err 32 LockedDown"),
    (
        Some("* * * -lockdown_keys\n"),
        "joe",
        "modprinc -maxlife 1h alice",
        "err 32 LockedDown",
    ),
    (
        Some("* * * +lockdown_keys\n"),
        "joe",
        "modprinc -lockdown_keys alice",
        "ok 5 1700000000.000000",
    ),
    (
        None,
        "admin/local",
        "modprinc -lockdown_keys alice",
        "ok 6 1700000000.000000",
    ),
    (
        None,
        "admin/local",
        "delprinc alice",
        "ok 7 1700000000.000000",
    ),
];

/// Each letter alone, and all others without it.
const LETTERS: [Case; 34] = [
    (
        Some("joe a\n"),
        "joe",
        "addprinc -nokey bob",
        "err 3 Duplicate",
    ),
    (Some("joe a\n"), "joe", "addpol std", "err 3 Duplicate"),
    (
        Some("joe *eA\n"),
        "joe",
        "addprinc -nokey bob",
        "err 7 Denied 1",
    ),
    (Some("joe *eA\n"), "joe", "addpol std", "err 7 Denied 1"),
    (
        Some("joe d\n"),
        "joe",
        "delprinc nobody",
        "err 4 UnknownPrincipal",
    ),
    (Some("joe d\n"), "joe", "delpol none", "err 5 UnknownPolicy"),
    (
        Some("joe *eD\n"),
        "joe",
        "delprinc nobody",
        "err 7 Denied 1",
    ),
    (Some("joe *eD\n"), "joe", "delpol none", "err 7 Denied 1"),
    (
        Some("joe m\n"),
        "joe",
        "modprinc nobody",
        "err 4 UnknownPrincipal",
    ),
    (
        Some("joe m\n"),
        "joe",
        "purgekeys nobody",
        "err 4 UnknownPrincipal",
    ),
    (
        Some("joe m\n"),
        "joe",
        "setstr nobody k v",
        "err 4 UnknownPrincipal",
    ),
    (
        Some("joe m\n"),
        "joe",
        "delstr nobody k",
        "err 4 UnknownPrincipal",
    ),
    (Some("joe m\n"), "joe", "modpol none", "err 5 UnknownPolicy"),
    (
        Some("joe *eM\n"),
        "joe",
        "modprinc nobody",
        "err 7 Denied 1",
    ),
    (
        Some("joe *eM\n"),
        "joe",
        "purgekeys nobody",
        "err 7 Denied 1",
    ),
    (
        Some("joe *eM\n"),
        "joe",
        "setstr nobody k v",
        "err 7 Denied 1",
    ),
    (
        Some("joe *eM\n"),
        "joe",
        "delstr nobody k",
        "err 7 Denied 1",
    ),
    (Some("joe *eM\n"), "joe", "modpol none", "err 7 Denied 1"),
    (
        Some("joe c\n"),
        "joe",
        "cpw -randkey nobody",
        "err 4 UnknownPrincipal",
    ),
    (
        Some("joe *eC\n"),
        "joe",
        "cpw -randkey nobody",
        "err 7 Denied 1",
    ),
    (
        Some("joe i\n"),
        "joe",
        "getprinc nobody",
        "err 4 UnknownPrincipal",
    ),
    (
        Some("joe i\n"),
        "joe",
        "getstrs nobody",
        "err 4 UnknownPrincipal",
    ),
    (Some("joe i\n"), "joe", "getpol none", "err 5 UnknownPolicy"),
    (
        Some("joe *eI\n"),
        "joe",
        "getprinc nobody",
        "err 7 Denied 1",
    ),
    (Some("joe *eI\n"), "joe", "getstrs nobody", "err 7 Denied 1"),
    (Some("joe *eI\n"), "joe", "getpol none", "err 7 Denied 1"),
    (
        Some("joe l\n"),
        "joe",
        "listprincs b*",
        "- bob@EXAMPLE.ORG\nok",
    ),
    (Some("joe l\n"), "joe", "listpols", "- std\nok"),
    (Some("joe *eL\n"), "joe", "listprincs b*", "err 7 Denied 1"),
    (Some("joe *eL\n"), "joe", "listpols", "err 7 Denied 1"),
    (
        Some("joe s\n"),
        "joe",
        "list_mkeys",
        "- 1 aes256-cts-hmac-sha1-96 2023-11-14T22:13:20Z *\nok",
    ),
    (Some("joe *eS\n"), "joe", "list_mkeys", "err 7 Denied 1"),
    (Some("joe e\n"), "joe", "extract bob", "ok"),
    (Some("joe *eE\n"), "joe", "extract bob", "err 7 Denied 1"),
];

/// Letters count from left to right.
const PRIVILEGES: [Case; 16] = [
    (
        Some("joe *\n"),
        "joe",
        "getprivs",
        "- privileges admcilsp\nok",
    ),
    (
        Some("joe x\n"),
        "joe",
        "getprivs",
        "- privileges admcilsp\nok",
    ),
    (
        Some("joe *e\n"),
        "joe",
        "getprivs",
        "- privileges admcilspe\nok",
    ),
    (
        Some("joe epslicmda\n"),
        "joe",
        "getprivs",
        "- privileges admcilspe\nok",
    ),
    (Some("joe xX\n"), "joe", "getprivs", "- privileges -\nok"),
    (
        Some("joe Xx\n"),
        "joe",
        "getprivs",
        "- privileges admcilsp\nok",
    ),
    (Some("joe eX\n"), "joe", "getprivs", "- privileges e\nok"),
    (
        Some("joe E*\n"),
        "joe",
        "getprivs",
        "- privileges admcilsp\nok",
    ),
    (
        Some("joe *DAe\n"),
        "joe",
        "getprivs",
        "- privileges mcilspe\nok",
    ),
    (Some("joe dDi\n"), "joe", "getprivs", "- privileges i\nok"),
    (Some("joe Ddi\n"), "joe", "getprivs", "- privileges di\nok"),
    (Some("joe p\n"), "joe", "getprivs", "- privileges p\nok"),
    (Some("joe a bob\n"), "joe", "getprivs", "- privileges -\nok"),
    (
        Some("joe a bob\njoe m\n"),
        "joe",
        "getprivs",
        "- privileges m\nok",
    ),
    (
        Some("joe a *\njoe m\n"),
        "joe",
        "getprivs",
        "- privileges a\nok",
    ),
    (Some("mary *\n"), "joe", "getprivs", "- privileges -\nok"),
];

/// The first line whose client and target match decides, by its number; lines that are skipped or joined count.
const DECIDING: [Case; 26] = [
    (
        Some("joe i\njoe *\n"),
        "joe",
        "delprinc bob",
        "err 7 Denied 1",
    ),
    (Some("mary *\n"), "joe", "delprinc bob", "err 7 Denied 0"),
    (BARE, "joe", "delprinc bob", "err 7 Denied 0"),
    (
        Some("# a note\n\njoe i\n"),
        "joe",
        "delprinc bob",
        "err 7 Denied 3",
    ),
    (
        Some("joe \\\ni\nmary i\n"),
        "joe",
        "delprinc bob",
        "err 7 Denied 1",
    ),
    (
        Some("joe \\\ni\nmary i\n"),
        "mary",
        "delprinc bob",
        "err 7 Denied 3",
    ),
    (
        Some("*/admin *\n"),
        "joe/admin",
        "delprinc nobody",
        "err 4 UnknownPrincipal",
    ),
    (
        Some("*/admin *\n"),
        "joe",
        "delprinc nobody",
        "err 7 Denied 0",
    ),
    (
        Some("* d\n"),
        "a/b/c",
        "delprinc nobody",
        "err 4 UnknownPrincipal",
    ),
    (Some("*@* d\n"), "a/b", "delprinc nobody", "err 7 Denied 0"),
    (
        Some("joe d\n"),
        "joe@OTHER",
        "delprinc nobody",
        "err 7 Denied 0",
    ),
    (
        Some("*@OTHER d\n"),
        "joe@OTHER",
        "delprinc nobody",
        "err 4 UnknownPrincipal",
    ),
    (
        Some("*@OTHER d\n"),
        "joe",
        "delprinc nobody",
        "err 7 Denied 0",
    ),
    (
        Some("joe d */root\n"),
        "joe",
        "delprinc bob",
        "err 7 Denied 0",
    ),
    (
        Some("joe d */root\njoe i\n"),
        "joe",
        "delprinc bob",
        "err 7 Denied 2",
    ),
    (
        Some("joe d */root\njoe i\n"),
        "joe",
        "delprinc x/root",
        "err 4 UnknownPrincipal",
    ),
    (
        Some("joe d *@EXAMPLE.ORG\n"),
        "joe",
        "delprinc nobody",
        "err 4 UnknownPrincipal",
    ),
    (
        Some("joe d *@OTHER\n"),
        "joe",
        "delprinc nobody",
        "err 7 Denied 0",
    ),
    (
        Some("*/* i *2/*1\n"),
        "a/b",
        "getstrs b/a",
        "err 4 UnknownPrincipal",
    ),
    (
        Some("*/* i *2/*1\n"),
        "a/b",
        "getstrs a/b",
        "err 7 Denied 0",
    ),
    (
        Some("*@* i krbtgt/*2\n"),
        "joe",
        "getstrs krbtgt/EXAMPLE.ORG",
        "ok",
    ),
    (
        Some("*@* i krbtgt/*1\n"),
        "joe",
        "getstrs krbtgt/EXAMPLE.ORG",
        "err 7 Denied 0",
    ),
    (Some("joe a bob\n"), "joe", "addpol std", "err 7 Denied 0"),
    (
        Some("joe a bob\njoe m\n"),
        "joe",
        "addpol std",
        "err 7 Denied 2",
    ),
    (
        Some("joe s K/M\n"),
        "joe",
        "list_mkeys",
        "- 1 aes256-cts-hmac-sha1-96 2023-11-14T22:13:20Z *\nok",
    ),
    (Some("joe s bob\n"), "joe", "list_mkeys", "err 7 Denied 0"),
];

/// Everybody may change the own keys and look at the own record, and do no more to it.
const OWN: [Case; 8] = [
    (BARE, "bob", "cpw -randkey bob", "ok 4 1700000000.000000"),
    (
        Some("bob C\n"),
        "bob",
        "cpw -pw x bob",
        "ok 5 1700000000.000000",
    ),
    (
        Some("bob I\n"),
        "bob",
        "getprinc bob",
        "- principal bob@EXAMPLE.ORG\n- expires never\n- pwexpires never\n- pwchanged 2023-11-14T22:13:20Z\n- maxlife 0\n- maxrenewlife 0\n- modified 2023-11-14T22:13:20Z bob@EXAMPLE.ORG\n- mkvno 1\n- flags none\n- policy -\n- key 2 aes256-cts-hmac-sha1-96 normal\n- key 2 aes128-cts-hmac-sha1-96 normal\nok",
    ),
    (BARE, "bob", "getstrs bob", "err 7 Denied 0"),
    (BARE, "bob", "extract bob", "err 7 Denied 0"),
    (BARE, "bob", "delprinc bob", "err 7 Denied 0"),
    (BARE, "bob", "cpw -randkey alice", "err 7 Denied 0"),
    (BARE, "bob@OTHER", "cpw -randkey bob", "err 7 Denied 0"),
];

/// A rename asks for a deletion of the old name and then for an addition of the new one without restrictions.
const RENAMED: [Case; 5] = [
    (
        Some("joe d bob\n"),
        "joe",
        "renprinc bob rob",
        "err 7 Denied 0",
    ),
    (
        Some("joe a rob\n"),
        "joe",
        "renprinc bob rob",
        "err 7 Denied 0",
    ),
    (
        Some("joe d bob\njoe *A rob\n"),
        "joe",
        "renprinc bob rob",
        "err 7 Denied 2",
    ),
    (
        Some("joe ad * +requires_preauth\n"),
        "joe",
        "renprinc bob rob",
        "err 7 Denied 1",
    ),
    (
        Some("joe d bob -maxlife 1h\njoe a rob\n"),
        "joe",
        "renprinc bob rob",
        "ok 6 1700000000.000000",
    ),
];

/// Restrictions come after what the line says.
const FORCED: [Case; 21] = [
    (
        Some("joe am * -policy std\n"),
        "joe",
        "addprinc -nokey -clearpolicy n1",
        "ok 7 1700000000.000000",
    ),
    (
        ANY,
        "joe",
        "getprinc n1",
        "- principal n1@EXAMPLE.ORG\n- expires never\n- pwexpires never\n- pwchanged never\n- maxlife 0\n- maxrenewlife 0\n- modified 2023-11-14T22:13:20Z joe@EXAMPLE.ORG\n- mkvno 1\n- flags none\n- policy std\nok",
    ),
    (
        Some("joe am * -policy none\n"),
        "joe",
        "addprinc -nokey n2",
        "err 5 UnknownPolicy",
    ),
    (
        Some("joe am * -policy none\n"),
        "joe",
        "modprinc -clearpolicy n1",
        "err 5 UnknownPolicy",
    ),
    (
        Some("joe am * -clearpolicy\n"),
        "joe",
        "addprinc -nokey -policy std n2",
        "ok 8 1700000000.000000",
    ),
    (
        ANY,
        "joe",
        "getprinc n2",
        "- principal n2@EXAMPLE.ORG\n- expires never\n- pwexpires never\n- pwchanged never\n- maxlife 0\n- maxrenewlife 0\n- modified 2023-11-14T22:13:20Z joe@EXAMPLE.ORG\n- mkvno 1\n- flags none\n- policy -\nok",
    ),
    (
        Some("joe am * -clearpolicy\n"),
        "joe",
        "addprinc -nokey -policy none n3",
        "err 5 UnknownPolicy",
    ),
    (
        Some("joe am * -clearpolicy\n"),
        "joe",
        "modprinc -policy std n1",
        "ok 9 1700000000.000000",
    ),
    (
        ANY,
        "joe",
        "getprinc n1",
        "- principal n1@EXAMPLE.ORG\n- expires never\n- pwexpires never\n- pwchanged never\n- maxlife 0\n- maxrenewlife 0\n- modified 2023-11-14T22:13:20Z joe@EXAMPLE.ORG\n- mkvno 1\n- flags none\n- policy -\nok",
    ),
    (
        Some("joe am * -expire 1d\n"),
        "joe",
        "addprinc -nokey n3",
        "ok 10 1700000000.000000",
    ),
    (
        ANY,
        "joe",
        "getprinc n3",
        "- principal n3@EXAMPLE.ORG\n- expires 2023-11-15T22:13:20Z\n- pwexpires never\n- pwchanged never\n- maxlife 0\n- maxrenewlife 0\n- modified 2023-11-14T22:13:20Z joe@EXAMPLE.ORG\n- mkvno 1\n- flags none\n- policy -\nok",
    ),
    (
        Some("joe am * -expire 1d\n"),
        "joe",
        "modprinc -expire 1700000060 n3",
        "ok 11 1700000000.000000",
    ),
    (
        ANY,
        "joe",
        "getprinc n3",
        "- principal n3@EXAMPLE.ORG\n- expires 2023-11-14T22:14:20Z\n- pwexpires never\n- pwchanged never\n- maxlife 0\n- maxrenewlife 0\n- modified 2023-11-14T22:13:20Z joe@EXAMPLE.ORG\n- mkvno 1\n- flags none\n- policy -\nok",
    ),
    (
        Some("joe am * -expire 1d\n"),
        "joe",
        "modprinc -expire never n3",
        "ok 12 1700000000.000000",
    ),
    (
        ANY,
        "joe",
        "getprinc n3",
        "- principal n3@EXAMPLE.ORG\n- expires 2023-11-15T22:13:20Z\n- pwexpires never\n- pwchanged never\n- maxlife 0\n- maxrenewlife 0\n- modified 2023-11-14T22:13:20Z joe@EXAMPLE.ORG\n- mkvno 1\n- flags none\n- policy -\nok",
    ),
    (
        Some("joe m * -expire 4294967295 -pwexpire 1h -maxrenewlife 1m\n"),
        "joe",
        "modprinc -expire 0 -maxrenewlife 59 n3",
        "ok 13 1700000000.000000",
    ),
    (
        ANY,
        "joe",
        "getprinc n3",
        "- principal n3@EXAMPLE.ORG\n- expires 2106-02-07T06:28:15Z\n- pwexpires 2023-11-14T23:13:20Z\n- pwchanged never\n- maxlife 0\n- maxrenewlife 59\n- modified 2023-11-14T22:13:20Z joe@EXAMPLE.ORG\n- mkvno 1\n- flags none\n- policy -\nok",
    ),
    (
        Some("joe m * -expire 2h -maxrenewlife 1m -allow_tix +requires_preauth\n"),
        "joe",
        "modprinc -maxrenewlife 0 +allow_tix -requires_preauth n3",
        "ok 14 1700000000.000000",
    ),
    (
        ANY,
        "joe",
        "getprinc n3",
        "- principal n3@EXAMPLE.ORG\n- expires 2023-11-15T00:13:20Z\n- pwexpires 2023-11-14T23:13:20Z\n- pwchanged never\n- maxlife 0\n- maxrenewlife 60\n- modified 2023-11-14T22:13:20Z joe@EXAMPLE.ORG\n- mkvno 1\n- flags -allow_tix +requires_preauth\n- policy -\nok",
    ),
    (
        Some("joe *\n"),
        "joe",
        "modprinc -expire never -pwexpire never -maxrenewlife 2d +allow_tix -requires_preauth n3",
        "ok 15 1700000000.000000",
    ),
    (
        ANY,
        "joe",
        "getprinc n3",
        "- principal n3@EXAMPLE.ORG\n- expires never\n- pwexpires never\n- pwchanged never\n- maxlife 0\n- maxrenewlife 172800\n- modified 2023-11-14T22:13:20Z joe@EXAMPLE.ORG\n- mkvno 1\n- flags none\n- policy -\nok",
    ),
];

/// Tables that each begin with a new database.
const APART: [&[Case]; 5] = [
    &TARGETS_OF_CLIENTS,
    &RESTRICTED,
    &RESTRICTED_ON_TWO,
    &SOON,
    &LOCKED,
];

fn check_apart(rt: &impl Abort, alloc: Global, cases: &[Case]) -> Result<(), Fail> {
    let mut database = created(alloc)?;
    check_cases(rt, alloc, &mut database, cases)
}

#[test]
fn lists_are_kept_from_the_first_line_on(rt: HostRuntime) -> Result<(), Fail> {
    for cases in APART {
        check_apart(&rt, rt.alloc(), cases)?;
    }
    Ok(())
}

/// What is there before the other tables.
const THERE: [Turn; 2] = [
    ("addpol std", "ok 2 1700000000.000000"),
    ("addprinc -nokey bob", "ok 3 1700000000.000000"),
];

/// Tables that go on one behind the other.
const BEHIND: [&[Case]; 6] = [&LETTERS, &PRIVILEGES, &DECIDING, &OWN, &RENAMED, &FORCED];

#[test]
fn lists_decide_by_their_rules(rt: HostRuntime) -> Result<(), Fail> {
    let mut database = check_created(&rt, rt.alloc(), &THERE)?;
    check_tables(&rt, rt.alloc(), &mut database, &BEHIND)
}
