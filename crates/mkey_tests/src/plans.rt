//! What the commands of master keys are answered.

use crate::databases::{
    Asked, CREATED, LATER, Turn, check_created, check_lengths, check_turns, created,
};
use acl_text::Acl;
use kdb_base::Etype;
use std::alloc::Global;
use std::process::Abort;
use std::test::Fail;

/// Two versions are added, and the newest is to become active an hour later.
pub(crate) const ADDED: [Turn; 3] = [
    (
        Asked::Add(None),
        CREATED,
        "ok 2 1700000000.000000 mkvno 2\n",
    ),
    (
        Asked::Add(None),
        CREATED,
        "ok 3 1700000000.000000 mkvno 3\n",
    ),
    (
        Asked::Use(3, Some(LATER)),
        CREATED,
        "ok 4 1700000000.000000 mkvno 3 from 2023-11-14T23:13:20Z\n",
    ),
];

/// A version that no record is under goes, unless it is the newest.
const LISTED: [Turn; 5] = [
    (
        Asked::List,
        CREATED,
        "- 1 aes256-cts-hmac-sha1-96 2023-11-14T22:13:20Z *\n\
- 2 aes256-cts-hmac-sha1-96 -\n\
- 3 aes256-cts-hmac-sha1-96 2023-11-14T23:13:20Z\nok\n",
    ),
    (
        Asked::List,
        LATER,
        "- 1 aes256-cts-hmac-sha1-96 2023-11-14T22:13:20Z\n\
- 2 aes256-cts-hmac-sha1-96 -\n\
- 3 aes256-cts-hmac-sha1-96 2023-11-14T23:13:20Z *\nok\n",
    ),
    (Asked::Use(9, None), CREATED, "err 16 UnknownMaster 9\n"),
    (
        Asked::Use(1, Some(LATER)),
        CREATED,
        "err 17 NoActiveMaster\n",
    ),
    (
        Asked::Purge,
        CREATED,
        "- kept 1 protects 2\n- purged 2\n- kept 3 newest\nok 5 1700000000.000000 1 purged\n",
    ),
];

#[test]
fn versions_are_added_used_and_listed(rt: HostRuntime) -> Result<(), Fail> {
    let mut database = check_created(&rt, rt.alloc(), &ADDED)?;
    check_turns(&rt, rt.alloc(), &mut database, None, &LISTED)
}

/// A version of another type is active from the second of the creation too, and is the greater one.
pub(crate) const OF_TWO_TYPES: [Turn; 4] = [
    (
        Asked::Add(Some(Etype::Aes128Sha2)),
        CREATED,
        "ok 2 1700000000.000000 mkvno 2\n",
    ),
    (
        Asked::List,
        CREATED,
        "- 1 aes256-cts-hmac-sha1-96 2023-11-14T22:13:20Z *\n\
- 2 aes128-cts-hmac-sha256-128 -\nok\n",
    ),
    (
        Asked::Use(2, None),
        CREATED,
        "ok 3 1700000000.000000 mkvno 2 from 2023-11-14T22:13:20Z\n",
    ),
    (
        Asked::List,
        CREATED,
        "- 1 aes256-cts-hmac-sha1-96 2023-11-14T22:13:20Z\n\
- 2 aes128-cts-hmac-sha256-128 2023-11-14T22:13:20Z *\nok\n",
    ),
];

/// A wrapped key is two bytes, 16 of the confounder, the key, and the tag of the master key's type, which is 16 here.
#[test]
fn greater_version_is_active_at_a_tie(rt: HostRuntime) -> Result<(), Fail> {
    let database = check_created(&rt, rt.alloc(), &OF_TWO_TYPES)?;
    check_lengths(&rt, &database, 0, &[50, 66])
}

/// Each version serves, for each of the causes.
const ALL_SERVE: [Turn; 6] = [
    (Asked::Purge, CREATED, "- kept 1 protects 2\nok 0 purged\n"),
    (
        Asked::Add(None),
        CREATED,
        "ok 2 1700000000.000000 mkvno 2\n",
    ),
    (
        Asked::Add(None),
        CREATED,
        "ok 3 1700000000.000000 mkvno 3\n",
    ),
    (
        Asked::Use(2, Some(LATER)),
        CREATED,
        "ok 4 1700000000.000000 mkvno 2 from 2023-11-14T23:13:20Z\n",
    ),
    (
        Asked::Purge,
        CREATED,
        "- kept 1 protects 2\n- kept 2 pending\n- kept 3 newest\nok 0 purged\n",
    ),
    (
        Asked::Purge,
        LATER,
        "- kept 1 protects 2\n- kept 2 active\n- kept 3 newest\nok 0 purged\n",
    ),
];

#[test]
fn versions_that_serve_are_kept(rt: HostRuntime) -> Result<(), Fail> {
    check_created(&rt, rt.alloc(), &ALL_SERVE)?;
    Ok(())
}

/// A version that is not listed is told before a denial, and a denial before that none would be active.
const DENIED: [Turn; 5] = [
    (Asked::Use(9, None), CREATED, "err 16 UnknownMaster 9\n"),
    (Asked::Use(1, Some(LATER)), CREATED, "err 7 Denied 1\n"),
    (Asked::Add(None), CREATED, "err 7 Denied 1\n"),
    (Asked::List, CREATED, "err 7 Denied 1\n"),
    (Asked::Purge, CREATED, "err 7 Denied 1\n"),
];

/// With the privilege.
const ALLOWED: [Turn; 2] = [
    (
        Asked::Use(1, Some(LATER)),
        CREATED,
        "err 17 NoActiveMaster\n",
    ),
    (
        Asked::Use(1, Some(CREATED - 1)),
        CREATED,
        "ok 2 1700000000.000000 mkvno 1 from 2023-11-14T22:13:19Z\n",
    ),
];

pub(crate) fn access(alloc: Global, text: &[u8]) -> Result<Acl, Fail> {
    if text.len() > 100 {
        return Err(Fail::from("a short text"));
    }
    Ok(Acl::read(alloc, text, b"EXAMPLE.ORG")?)
}

/// Gives the commands over a new database, under an access list.
fn check_listed(rt: &impl Abort, alloc: Global, text: &[u8], turns: &[Turn]) -> Result<(), Fail> {
    let mut database = created(alloc)?;
    let acl = access(alloc, text)?;
    check_turns(rt, alloc, &mut database, Some(&acl), turns)
}

#[test]
fn refusals_come_in_their_order(rt: HostRuntime) -> Result<(), Fail> {
    check_listed(&rt, rt.alloc(), b"admin i\n", &DENIED)?;
    check_listed(&rt, rt.alloc(), b"admin s K/M\n", &ALLOWED)
}
