//! Master keys: added, made active, listed, stashed and deleted, and principals moved under them, by lines and words.

use crate::keys::versions;
use crate::runs::{
    Answer, NO_FAULTS, Outcome, Turn, check, check_answers, check_end, check_turns, check_words,
    created, input_of, repeated, replies_of, run, run_at,
};
use kdb_base::{Status, Time};
use kdb_disk::MemoryDisk;
use std::alloc::Global;
use std::process::Abort;
use std::test::Fail;

/// One hour before the third key becomes active.
pub(crate) const ROLLED: [Turn; 8] = [
    ("addprinc -randkey alice", "ok 2 1700000000.000000"),
    ("add_mkey", "ok 3 1700000000.000000 mkvno 2"),
    ("add_mkey", "ok 4 1700000000.000000 mkvno 3"),
    (
        "use_mkey 3 1700003600",
        "ok 5 1700000000.000000 mkvno 3 from 2023-11-14T23:13:20Z",
    ),
    (
        "list_mkeys",
        "- 1 aes256-cts-hmac-sha1-96 2023-11-14T22:13:20Z *\n\
- 2 aes256-cts-hmac-sha1-96 -\n\
- 3 aes256-cts-hmac-sha1-96 2023-11-14T23:13:20Z\n\
ok",
    ),
    ("use_mkey 9", "err 16 UnknownMaster 9"),
    ("use_mkey 1 1700003600", "err 17 NoActiveMaster"),
    (
        "getprinc alice",
        "- principal alice@EXAMPLE.ORG\n- expires never\n- pwexpires never\n\
- pwchanged 2023-11-14T22:13:20Z\n- maxlife 0\n- maxrenewlife 0\n\
- modified 2023-11-14T22:13:20Z admin/local@EXAMPLE.ORG\n- mkvno 1\n- flags none\n- policy -\n\
- key 1 aes256-cts-hmac-sha1-96 normal\n- key 1 aes128-cts-hmac-sha1-96 normal\nok",
    ),
];

/// An hour later new keys go under the third key. The second one serves nothing.
const LATER: [Turn; 7] = [
    ("cpw -randkey alice", "ok 6 1700003600.000000"),
    (
        "update_princ_encryption alice",
        "ok 1 principals processed: 0 updated, 1 already current, 0 gone",
    ),
    ("stash", "ok"),
    (
        "purge_mkeys",
        "- kept 1 protects 2\n- purged 2\n- kept 3 protects 1\nok 7 1700003600.000000 1 purged",
    ),
    (
        "purge_mkeys",
        "- kept 1 protects 2\n- kept 3 protects 1\nok 0 purged",
    ),
    ("add_mkey -e aes128-sha2", "ok 8 1700003600.000000 mkvno 4"),
    (
        "list_mkeys",
        "- 1 aes256-cts-hmac-sha1-96 2023-11-14T22:13:20Z\n\
- 3 aes256-cts-hmac-sha1-96 2023-11-14T23:13:20Z *\n\
- 4 aes128-cts-hmac-sha256-128 -\n\
ok",
    ),
];

/// A session of these lines an hour later.
fn run_later(alloc: Global, disk: &mut MemoryDisk, turns: &[Turn]) -> Result<Outcome, Fail> {
    let input = input_of(alloc, turns)?;
    let later = Time::new(1_700_003_600, 0);
    run_at(alloc, disk, "admin", &input, &NO_FAULTS, later)
}

/// These lines an hour later, in one session.
fn check_later(
    rt: &impl Abort,
    alloc: Global,
    disk: &mut MemoryDisk,
    turns: &[Turn],
) -> Result<(), Fail> {
    let outcome = run_later(alloc, disk, turns)?;
    let replies = replies_of(alloc, turns)?;
    check(rt, &outcome, Status::Done, &replies);
    Ok(())
}

/// The lines before that hour, and these behind it.
fn check_rolled(
    rt: &impl Abort,
    alloc: Global,
    disk: &mut MemoryDisk,
    turns: &[Turn],
) -> Result<(), Fail> {
    check_turns(rt, alloc, disk, "admin", &ROLLED)?;
    check_later(rt, alloc, disk, turns)
}

#[test]
fn a_master_key_is_rolled_over(rt: HostRuntime) -> Result<(), Fail> {
    let mut disk = created(rt.alloc(), &[])?;
    check_rolled(&rt, rt.alloc(), &mut disk, &LATER)
}

/// An hour later all keys go under the third key, so the others are deleted.
const REKEYED: [Turn; 5] = [
    (
        "update_princ_encryption -f c*",
        "ok 0 principals processed: 0 updated, 0 already current, 0 gone",
    ),
    (
        "update_princ_encryption",
        "ok 3 principals processed: 3 updated, 0 already current, 0 gone",
    ),
    (
        "update_princ_encryption",
        "ok 3 principals processed: 0 updated, 3 already current, 0 gone",
    ),
    ("stash", "ok"),
    (
        "purge_mkeys",
        "- purged 1\n- purged 2\n- kept 3 protects 3\nok 9 1700003600.000000 2 purged",
    ),
];

/// In a session of its own, which the stash opens.
const REOPENED: [Turn; 1] = [(
    "list_mkeys",
    "- 3 aes256-cts-hmac-sha1-96 2023-11-14T23:13:20Z *\nok",
)];

#[test]
fn all_principals_are_rekeyed(rt: HostRuntime) -> Result<(), Fail> {
    let mut disk = created(rt.alloc(), &[])?;
    check_rolled(&rt, rt.alloc(), &mut disk, &REKEYED)?;
    check_later(&rt, rt.alloc(), &mut disk, &REOPENED)
}

/// The same, but the third key is not put into the stash.
const UNSTASHED: [Turn; 2] = [
    (
        "update_princ_encryption",
        "ok 3 principals processed: 3 updated, 0 already current, 0 gone",
    ),
    (
        "purge_mkeys",
        "- purged 1\n- purged 2\n- kept 3 protects 3\nok 9 1700003600.000000 2 purged",
    ),
];

/// What needs the stash.
const UNOPENED: [Answer; 4] = [
    ("list_mkeys", b"err 16 UnknownMaster 1\n"),
    ("admin", b"err 16 UnknownMaster 1\n"),
    ("load", b"err 16 UnknownMaster 1\n"),
    ("stash", b"err 16 UnknownMaster 1\n"),
];

// The stash has the first key alone, which is deleted, so nothing that needs it opens any more.
#[test]
fn without_a_stash_of_the_new_key_nothing_opens(rt: HostRuntime) -> Result<(), Fail> {
    let mut disk = created(rt.alloc(), &[])?;
    check_rolled(&rt, rt.alloc(), &mut disk, &UNSTASHED)?;
    check_answers(&rt, rt.alloc(), &mut disk, &UNOPENED)
}

/// A master key of another type, which is active at once by the tie, and a principal whose key is
/// of a third type.
const OF_THREE_TYPES: [Turn; 5] = [
    ("add_mkey -e aes128-sha2", "ok 2 1700000000.000000 mkvno 2"),
    (
        "list_mkeys",
        "- 1 aes256-cts-hmac-sha1-96 2023-11-14T22:13:20Z *\n\
- 2 aes128-cts-hmac-sha256-128 -\n\
ok",
    ),
    (
        "use_mkey 2",
        "ok 3 1700000000.000000 mkvno 2 from 2023-11-14T22:13:20Z",
    ),
    (
        "addprinc -pw s3cret -e aes256-sha2 bob",
        "ok 4 1700000000.000000",
    ),
    (
        "getprinc bob",
        "- principal bob@EXAMPLE.ORG\n- expires never\n- pwexpires never\n\
- pwchanged 2023-11-14T22:13:20Z\n- maxlife 0\n- maxrenewlife 0\n\
- modified 2023-11-14T22:13:20Z admin/local@EXAMPLE.ORG\n- mkvno 2\n- flags none\n- policy -\n\
- key 1 aes256-cts-hmac-sha384-192 normal\nok",
    ),
];

/// In a session of its own, which the stash opens by the first master key. The key of s3cret with
/// the salt EXAMPLE.ORGbob was made by the rules of RFC 8009 with Python's hashlib.
const BY_THE_FIRST: [Turn; 2] = [
    (
        "list_mkeys",
        "- 1 aes256-cts-hmac-sha1-96 2023-11-14T22:13:20Z\n\
- 2 aes128-cts-hmac-sha256-128 2023-11-14T22:13:20Z *\n\
ok",
    ),
    (
        "extract bob",
        "- key 1 aes256-cts-hmac-sha384-192 b4d173d43e061d405b1846e1a475a050d692d13d514d227e559015fa5ca39518\n\
ok",
    ),
];

/// A wrapped key is 18 bytes and a tag longer than the key: 16 bytes of tag under the second master
/// key, which protects K/M and bob, and 12 under the first.
const WRAPPED: &[u8] = b"name\tindex\tkvno\tenctype\tsalt\twrapped\n\
K/M@EXAMPLE.ORG\t0\t2\taes128-cts-hmac-sha256-128\tnormal\t50\n\
K/M@EXAMPLE.ORG\t1\t1\taes256-cts-hmac-sha1-96\tnormal\t66\n\
bob@EXAMPLE.ORG\t0\t1\taes256-cts-hmac-sha384-192\tnormal\t66\n\
kadmin/history@EXAMPLE.ORG\t0\t1\taes256-cts-hmac-sha1-96\tnormal\t62\n\
krbtgt/EXAMPLE.ORG@EXAMPLE.ORG\t0\t1\taes256-cts-hmac-sha1-96\tnormal\t62\n\
krbtgt/EXAMPLE.ORG@EXAMPLE.ORG\t1\t1\taes128-cts-hmac-sha1-96\tnormal\t46\n";

fn check_types(rt: &impl Abort, alloc: Global, disk: &mut MemoryDisk) -> Result<(), Fail> {
    check_turns(rt, alloc, disk, "admin", &OF_THREE_TYPES)?;
    check_turns(rt, alloc, disk, "admin", &BY_THE_FIRST)?;
    check_words(rt, alloc, disk, "report keys", WRAPPED)
}

#[test]
fn a_master_key_of_another_type(rt: HostRuntime) -> Result<(), Fail> {
    let mut disk = created(rt.alloc(), &[])?;
    check_types(&rt, rt.alloc(), &mut disk)
}

/// Words that are lines of master keys, and words that look like them.
const WORDS: [Answer; 12] = [
    (
        "add_mkey -e aes256-sha2",
        b"ok 2 1700000000.000000 mkvno 2\n",
    ),
    (
        "use_mkey 2",
        b"ok 3 1700000000.000000 mkvno 2 from 2023-11-14T22:13:20Z\n",
    ),
    (
        "list_mkeys --",
        b"- 1 aes256-cts-hmac-sha1-96 2023-11-14T22:13:20Z\n\
- 2 aes256-cts-hmac-sha384-192 2023-11-14T22:13:20Z *\nok\n",
    ),
    (
        "purge_mkeys -f",
        b"- kept 1 protects 2\n- kept 2 active\nok 0 purged\n",
    ),
    ("stash", b"ok\n"),
    ("stash x", b"err 1 BadLine\n"),
    (
        "add_mkey -e aes256-sha2,aes128-sha2",
        b"err 13 BadValue enctypes\n",
    ),
    ("use_mkey 70000", b"err 13 BadValue mkvno\n"),
    ("use_mkey 3", b"err 16 UnknownMaster 3\n"),
    ("addprinc -nokey bob", b"err 1 BadLine\n"),
    ("getprinc a@b@c", b"err 1 BadLine\n"),
    (
        "list_mkeys",
        b"- 1 aes256-cts-hmac-sha1-96 2023-11-14T22:13:20Z\n\
- 2 aes256-cts-hmac-sha384-192 2023-11-14T22:13:20Z *\nok\n",
    ),
];

#[test]
fn lines_of_master_keys_are_words_too(rt: HostRuntime) -> Result<(), Fail> {
    let mut disk = created(rt.alloc(), &[])?;
    check_answers(&rt, rt.alloc(), &mut disk, &WORDS)
}

/// This line so many times.
fn lines(alloc: Global, line: &[u8], count: usize) -> Result<Vec<u8>, Fail> {
    let mut input = Vec::new(alloc);
    for _ in 0..count {
        input.extend_from_slice(line)?;
    }
    Ok(input)
}

/// How many master keys are added in one run, the last of the replies, and the log behind them.
type Stage = (usize, &'static [u8], &'static [u8]);

/// The fourteenth key makes the entry longer than a block, and the twenty-eighth does so again.
const STAGES: [Stage; 3] = [
    (
        14,
        b"\nok 14 1700000000.000000 mkvno 14\nok 2 1700000000.000001 mkvno 15\n",
        b"- first 1 1700000000.000001\n- last 2 1700000000.000001\n- size 1000 block 4096\n\
- 1 1700000000.000001 base\n- 2 1700000000.000001 put K/M@EXAMPLE.ORG\nok\n",
    ),
    (
        14,
        b"\nok 15 1700000000.000001 mkvno 28\nok 2 1700000000.000002 mkvno 29\n",
        b"- first 1 1700000000.000002\n- last 2 1700000000.000002\n- size 1000 block 6144\n\
- 1 1700000000.000002 base\n- 2 1700000000.000002 put K/M@EXAMPLE.ORG\nok\n",
    ),
    (
        3,
        b"\nok 5 1700000000.000002 mkvno 32\n",
        b"- first 1 1700000000.000002\n- last 5 1700000000.000002\n- size 1000 block 6144\n\
- 1 1700000000.000002 base\n- 2 1700000000.000002 put K/M@EXAMPLE.ORG\n\
- 3 1700000000.000002 put K/M@EXAMPLE.ORG\n- 4 1700000000.000002 put K/M@EXAMPLE.ORG\n\
- 5 1700000000.000002 put K/M@EXAMPLE.ORG\nok\n",
    ),
];

/// The same of keys whose wrapping takes more bytes: the twelfth and the twenty-fourth begin the log anew.
const LONGER_STAGES: [Stage; 3] = [
    (
        12,
        b"\nok 12 1700000000.000000 mkvno 12\nok 2 1700000000.000001 mkvno 13\n",
        b"- first 1 1700000000.000001\n- last 2 1700000000.000001\n- size 1000 block 4096\n\
- 1 1700000000.000001 base\n- 2 1700000000.000001 put K/M@EXAMPLE.ORG\nok\n",
    ),
    (
        12,
        b"\nok 13 1700000000.000001 mkvno 24\nok 2 1700000000.000002 mkvno 25\n",
        b"- first 1 1700000000.000002\n- last 2 1700000000.000002\n- size 1000 block 6144\n\
- 1 1700000000.000002 base\n- 2 1700000000.000002 put K/M@EXAMPLE.ORG\nok\n",
    ),
    (
        3,
        b"\nok 5 1700000000.000002 mkvno 28\n",
        b"- first 1 1700000000.000002\n- last 5 1700000000.000002\n- size 1000 block 6144\n\
- 1 1700000000.000002 base\n- 2 1700000000.000002 put K/M@EXAMPLE.ORG\n\
- 3 1700000000.000002 put K/M@EXAMPLE.ORG\n- 4 1700000000.000002 put K/M@EXAMPLE.ORG\n\
- 5 1700000000.000002 put K/M@EXAMPLE.ORG\nok\n",
    ),
];

/// The line so many times in a run of its own, and the last of the replies.
fn check_added(
    rt: &impl Abort,
    alloc: Global,
    disk: &mut MemoryDisk,
    line: &[u8],
    count: usize,
    last: &[u8],
) -> Result<(), Fail> {
    let input = lines(alloc, line, count)?;
    check_end(rt, alloc, disk, &input, last)
}

/// The same stage by stage, and the log behind each.
fn check_stages(
    rt: &impl Abort,
    alloc: Global,
    disk: &mut MemoryDisk,
    line: &[u8],
    stages: &[Stage],
) -> Result<(), Fail> {
    for (count, last, log) in stages.iter() {
        check_added(rt, alloc, disk, line, *count, last)?;
        check_words(rt, alloc, disk, "kproplog", log)?;
    }
    Ok(())
}

#[test]
fn thirty_two_master_keys_are_the_most(rt: HostRuntime) -> Result<(), Fail> {
    let mut disk = created(rt.alloc(), &[])?;
    check_stages(&rt, rt.alloc(), &mut disk, b"add_mkey\n", &STAGES)?;
    let one_more = b"err 15 TooManyMasters 32\n";
    check_words(&rt, rt.alloc(), &mut disk, "add_mkey", one_more)
}

#[test]
fn master_keys_with_longer_tags(rt: HostRuntime) -> Result<(), Fail> {
    let mut disk = created(rt.alloc(), &[])?;
    let line = b"add_mkey -e aes256-sha2\n";
    check_stages(&rt, rt.alloc(), &mut disk, line, &LONGER_STAGES)?;
    let last = b"\nok 9 1700000000.000002 mkvno 32\nerr 15 TooManyMasters 32\n";
    check_added(&rt, rt.alloc(), &mut disk, line, 5, last)
}

/// A line at the end of others: its front, and its last word.
fn push_line(out: &mut Vec<u8>, front: &str, last: &[u8]) -> Result<(), Fail> {
    out.extend_from_slice(front.as_bytes())?;
    out.extend_from_slice(last)?;
    out.push(b'\n')?;
    Ok(())
}

/// A line that gives bob the attribute of this number.
fn push_attribute(alloc: Global, out: &mut Vec<u8>, number: u32, value: &[u8]) -> Result<(), Fail> {
    let front = format!(in alloc; "setstr bob s{number} ")?;
    push_line(out, front.as_str(), value)
}

/// Lines that give bob 13 attributes of 1024 bytes.
fn push_attributes(alloc: Global, out: &mut Vec<u8>) -> Result<(), Fail> {
    let value = repeated(alloc, b'x', 1024)?;
    for number in 0..13 {
        push_attribute(alloc, out, number, &value)?;
    }
    Ok(())
}

/// A line that gives him one of 477 bytes.
fn push_last_attribute(alloc: Global, out: &mut Vec<u8>) -> Result<(), Fail> {
    let value = repeated(alloc, b'x', 477)?;
    push_line(out, "setstr bob z ", &value)
}

/// Lines that give bob 16 versions of keys and 14 attributes, so that the row has 15990 bytes.
fn filled(alloc: Global) -> Result<Vec<u8>, Fail> {
    let mut input = versions(alloc, b"bob", 16)?;
    push_attributes(alloc, &mut input)?;
    push_last_attribute(alloc, &mut input)?;
    Ok(input)
}

/// Keys of types with tags of 24 bytes in place of 12.
const TO_LONGER_TAGS: &[u8] = b"add_mkey -e aes256-sha2\nuse_mkey 2\nupdate_princ_encryption\n";

/// Principals behind it: K/M names the newest master key, and all others the one that their keys are under.
const STAYED: &[u8] =
    b"name\tattributes\tmaxlife\tmaxrenewlife\texpire\tpwexpire\tpolicy\tmodified\tmodifier\tmkvno\tstrings\n\
K/M@EXAMPLE.ORG\t00000000\t0\t0\t0\t0\t\t1700000000\tadmin/local@EXAMPLE.ORG\t2\t0\n\
bob@EXAMPLE.ORG\t00000000\t0\t0\t0\t0\t\t1700000000\tadmin/local@EXAMPLE.ORG\t1\t14\n\
kadmin/history@EXAMPLE.ORG\t00000000\t0\t0\t0\t0\t\t1700000000\tadmin/local@EXAMPLE.ORG\t1\t0\n\
krbtgt/EXAMPLE.ORG@EXAMPLE.ORG\t00000000\t0\t0\t0\t0\t\t1700000000\tadmin/local@EXAMPLE.ORG\t1\t0\n";

/// The row of bob, who comes first, would be longer than 16000 bytes under the second master key.
fn check_too_long(rt: &impl Abort, alloc: Global, disk: &mut MemoryDisk) -> Result<(), Fail> {
    let mut input = filled(alloc)?;
    input.extend_from_slice(TO_LONGER_TAGS)?;
    let outcome = run(alloc, disk, "admin", &input, &NO_FAULTS)?;
    assert_eq!(rt; outcome.status, Status::Refused);
    let last = b" mkvno 2 from 2023-11-14T22:13:20Z\nerr 14 RecordTooLarge 16374\n";
    assert!(rt; outcome.replies.ends_with(last));
    Ok(())
}

#[test]
fn a_row_too_long_to_be_rekeyed_stays(rt: HostRuntime) -> Result<(), Fail> {
    let mut disk = created(rt.alloc(), &[])?;
    check_too_long(&rt, rt.alloc(), &mut disk)?;
    check_words(&rt, rt.alloc(), &mut disk, "report principals", STAYED)
}

fn check_text(rt: &impl Abort, alloc: Global, disk: &mut MemoryDisk) -> Result<(), Fail> {
    let outcome = run(alloc, disk, "dump", b"", &NO_FAULTS)?;
    assert_eq!(rt; outcome.status, Status::Done);
    let front = b"kdb dump 2\nrealm EXAMPLE.ORG\npoint 1 1700000000.000000\n";
    assert!(rt; outcome.replies.starts_with(front));
    assert!(rt; outcome.replies.ends_with(b"\nend 3\n"));
    Ok(())
}

/// It wants no stash, and no file is changed by it.
fn check_unchanged(rt: &impl Abort, alloc: Global, disk: &mut MemoryDisk) -> Result<(), Fail> {
    let before = disk.bytes(0).to_vec(alloc)?;
    check_words(rt, alloc, disk, "dump x", b"err 1 BadLine\n")?;
    assert!(rt; disk.bytes(0) == before.as_slice());
    Ok(())
}

const UNTOLD: [Answer; 2] = [("destroy", b"ok\n"), ("dump", b"err 20 NotADatabase\n")];

fn check_told(rt: &impl Abort, alloc: Global, disk: &mut MemoryDisk) -> Result<(), Fail> {
    check_text(rt, alloc, disk)?;
    check_unchanged(rt, alloc, disk)?;
    check_answers(rt, alloc, disk, &UNTOLD)
}

#[test]
fn a_database_is_told_as_text(rt: HostRuntime) -> Result<(), Fail> {
    let mut disk = created(rt.alloc(), &[])?;
    check_told(&rt, rt.alloc(), &mut disk)
}

/// The second key is made active, and principals are moved under it by words, until there is no
/// database.
const MOVED: [Answer; 9] = [
    ("add_mkey", b"ok 2 1700000000.000000 mkvno 2\n"),
    (
        "use_mkey 2",
        b"ok 3 1700000000.000000 mkvno 2 from 2023-11-14T22:13:20Z\n",
    ),
    ("update_princ_encryption [", b"err 13 BadValue glob\n"),
    ("update_princ_encryption a b", b"err 1 BadLine\n"),
    (
        "update_princ_encryption -f kadmin/*",
        b"ok 1 principals processed: 1 updated, 0 already current, 0 gone\n",
    ),
    (
        "update_princ_encryption -- *@OTHER",
        b"ok 0 principals processed: 0 updated, 0 already current, 0 gone\n",
    ),
    (
        "update_princ_encryption",
        b"ok 2 principals processed: 1 updated, 1 already current, 0 gone\n",
    ),
    ("destroy", b"ok\n"),
    ("update_princ_encryption", b"err 20 NotADatabase\n"),
];

#[test]
fn principals_moved_by_words(rt: HostRuntime) -> Result<(), Fail> {
    let mut disk = created(rt.alloc(), &[])?;
    check_answers(&rt, rt.alloc(), &mut disk, &MOVED)
}
