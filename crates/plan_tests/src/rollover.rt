//! A change of the master key: what is kept under the old version and under the new one.

use crate::databases::{Database, Turn, check_created, check_sound, check_turns};
use std::alloc::Global;
use std::process::Abort;
use std::test::Fail;

/// A version that is added is not active, and what is made before it is stays under the old one.
static ADDED: [Turn; 5] = [
    ("addprinc -pw s3cret alice", "ok 2 1700000000.000000"),
    ("addprinc -nokey bob", "ok 3 1700000000.000000"),
    ("add_mkey", "ok 4 1700000000.000000 mkvno 2"),
    ("addprinc -nokey carol", "ok 5 1700000000.000000"),
    (
        "getprinc carol",
        "- principal carol@EXAMPLE.ORG\n- expires never\n- pwexpires never\n- pwchanged never\n- maxlife 0\n\
- maxrenewlife 0\n- modified 2023-11-14T22:13:20Z admin/local@EXAMPLE.ORG\n- mkvno 1\n- flags none\n- policy -\nok",
    ),
];

/// New keys go under the active version, and those that are kept beside them are wrapped anew. A new record names it,
/// one without keys too; a new name leaves the version as it is.
const ACTIVE: [Turn; 11] = [
    (
        "use_mkey 2",
        "ok 6 1700000000.000000 mkvno 2 from 2023-11-14T22:13:20Z",
    ),
    ("cpw -pw t4cret -keepold alice", "ok 7 1700000000.000000"),
    (
        "getprinc alice",
        "- principal alice@EXAMPLE.ORG\n- expires never\n- pwexpires never\n\
- pwchanged 2023-11-14T22:13:20Z\n- maxlife 0\n- maxrenewlife 0\n\
- modified 2023-11-14T22:13:20Z admin/local@EXAMPLE.ORG\n- mkvno 2\n- flags none\n- policy -\n\
- key 2 aes256-cts-hmac-sha1-96 normal\n- key 2 aes128-cts-hmac-sha1-96 normal\n\
- key 1 aes256-cts-hmac-sha1-96 normal\n- key 1 aes128-cts-hmac-sha1-96 normal\nok",
    ),
    ("addprinc -nokey dora", "ok 8 1700000000.000000"),
    (
        "getprinc dora",
        "- principal dora@EXAMPLE.ORG\n- expires never\n- pwexpires never\n- pwchanged never\n- maxlife 0\n\
- maxrenewlife 0\n- modified 2023-11-14T22:13:20Z admin/local@EXAMPLE.ORG\n- mkvno 2\n- flags none\n- policy -\nok",
    ),
    (
        "addprinc -randkey -e aes128-sha2 eve",
        "ok 9 1700000000.000000",
    ),
    (
        "extract eve",
        "- key 1 aes128-cts-hmac-sha256-128 08080808080808080808080808080808\nok",
    ),
    ("renprinc bob rob", "ok 10 1700000000.000000"),
    (
        "getprinc rob",
        "- principal rob@EXAMPLE.ORG\n- expires never\n- pwexpires never\n- pwchanged never\n- maxlife 0\n\
- maxrenewlife 0\n- modified 2023-11-14T22:13:20Z admin/local@EXAMPLE.ORG\n- mkvno 1\n- flags none\n- policy -\nok",
    ),
    ("renprinc alice ann", "ok 11 1700000000.000000"),
    (
        "getprinc ann",
        "- principal ann@EXAMPLE.ORG\n- expires never\n- pwexpires never\n\
- pwchanged 2023-11-14T22:13:20Z\n- maxlife 0\n- maxrenewlife 0\n\
- modified 2023-11-14T22:13:20Z admin/local@EXAMPLE.ORG\n- mkvno 2\n- flags none\n- policy -\n\
- key 2 aes256-cts-hmac-sha1-96 special\n- key 2 aes128-cts-hmac-sha1-96 special\n\
- key 1 aes256-cts-hmac-sha1-96 special\n- key 1 aes128-cts-hmac-sha1-96 special\nok",
    ),
];

/// Under the old version are kadmin/history, krbtgt, carol and rob, and under the new one ann, dora and eve. A version
/// that was added, is not active and is the newest no more goes.
const PURGED: [Turn; 5] = [
    (
        "purge_mkeys",
        "- kept 1 protects 4\n- kept 2 protects 3\nok 0 purged",
    ),
    ("add_mkey -e aes256-sha2", "ok 12 1700000000.000000 mkvno 3"),
    ("add_mkey", "ok 13 1700000000.000000 mkvno 4"),
    (
        "purge_mkeys",
        "- kept 1 protects 4\n- kept 2 protects 3\n- purged 3\n- kept 4 newest\nok 14 1700000000.000000 1 purged",
    ),
    (
        "list_mkeys",
        "- 1 aes256-cts-hmac-sha1-96 2023-11-14T22:13:20Z\n- 2 aes256-cts-hmac-sha1-96 2023-11-14T22:13:20Z *\n\
- 4 aes256-cts-hmac-sha384-192 -\nok",
    ),
];

/// What gets new keys is under the version that is active then. kadmin/history alone stays under the old one.
const MOVED: [Turn; 8] = [
    ("cpw -randkey krbtgt/EXAMPLE.ORG", "ok 15 1700000000.000000"),
    ("delprinc carol", "ok 16 1700000000.000000"),
    ("cpw -pw u5cret rob", "ok 17 1700000000.000000"),
    (
        "purge_mkeys",
        "- kept 1 protects 1\n- kept 2 protects 5\n- kept 4 newest\nok 0 purged",
    ),
    (
        "use_mkey 4",
        "ok 18 1700000000.000000 mkvno 4 from 2023-11-14T22:13:20Z",
    ),
    ("cpw -pw u5cret rob", "err 11 PassReused"),
    ("cpw -pw v6cret rob", "ok 19 1700000000.000000"),
    (
        "purge_mkeys",
        "- kept 1 protects 1\n- kept 2 protects 4\n- kept 4 protects 1\nok 0 purged",
    ),
];

fn check_changes(rt: &impl Abort, alloc: Global, database: &mut Database) -> Result<(), Fail> {
    check_sound(alloc, database)?;
    for turns in [&ACTIVE[..], &PURGED, &MOVED] {
        check_turns(rt, alloc, database, turns)?;
        check_sound(alloc, database)?;
    }
    Ok(())
}

#[test]
fn master_key_is_changed_alike(rt: HostRuntime) -> Result<(), Fail> {
    let mut database = check_created(&rt, rt.alloc(), &ADDED)?;
    check_changes(&rt, rt.alloc(), &mut database)
}
