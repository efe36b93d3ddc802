//! What is told of a database: its log as lines, also where it is begun anew, and reports.

use crate::runs::{
    Answer, NO_FAULTS, Turn, check, check_answers, check_turns, check_words, created, empty_disk,
    run_at,
};
use kdb_base::{Status, Time};
use kdb_disk::MemoryDisk;
use std::alloc::Global;
use std::process::Abort;
use std::test::Fail;

const ADDED: [Turn; 4] = [
    ("addprinc -nokey a", "ok 2 1700000000.000000"),
    ("addprinc -nokey b", "ok 3 1700000000.000000"),
    ("addprinc -nokey c", "ok 4 1700000000.000000"),
    ("addprinc -nokey d", "ok 5 1700000000.000000"),
];

/// The last two of them, and nothing of the creation.
const LOGGED: &[u8] = b"- first 4 1700000000.000000\n- last 5 1700000000.000000\n\
- size 2 block 2048\n- 4 1700000000.000000 put c@EXAMPLE.ORG\n\
- 5 1700000000.000000 put d@EXAMPLE.ORG\nok\n";

const OF_THE_LOG: [Answer; 3] = [
    ("kproplog", LOGGED),
    ("kproplog --", LOGGED),
    ("kproplog x", b"err 1 BadLine\n"),
];

fn check_log(rt: &impl Abort, alloc: Global, disk: &mut MemoryDisk) -> Result<(), Fail> {
    let words = "create EXAMPLE.ORG -ulogsize 2";
    check_words(rt, alloc, disk, words, b"ok 1 1700000000.000000\n")?;
    check_turns(rt, alloc, disk, "admin", &ADDED)?;
    check_answers(rt, alloc, disk, &OF_THE_LOG)
}

#[test]
fn the_log_as_lines(rt: HostRuntime) -> Result<(), Fail> {
    let mut disk = empty_disk(rt.alloc(), &[])?;
    check_log(&rt, rt.alloc(), &mut disk)
}

const MASTERS: &[u8] = b"version\tenctype\tactivation\tactive\tprotects\tcause\n\
1\taes256-cts-hmac-sha1-96\t1700000000\tyes\t2\tprotects\n";

pub(crate) const KEYS: &[u8] = b"name\tindex\tkvno\tenctype\tsalt\twrapped\n\
K/M@EXAMPLE.ORG\t0\t1\taes256-cts-hmac-sha1-96\tnormal\t62\n\
kadmin/history@EXAMPLE.ORG\t0\t1\taes256-cts-hmac-sha1-96\tnormal\t62\n\
krbtgt/EXAMPLE.ORG@EXAMPLE.ORG\t0\t1\taes256-cts-hmac-sha1-96\tnormal\t62\n\
krbtgt/EXAMPLE.ORG@EXAMPLE.ORG\t1\t1\taes128-cts-hmac-sha1-96\tnormal\t46\n";

const PRINCIPALS: &[u8] =
    b"name\tattributes\tmaxlife\tmaxrenewlife\texpire\tpwexpire\tpolicy\tmodified\tmodifier\tmkvno\tstrings\n\
K/M@EXAMPLE.ORG\t00000000\t0\t0\t0\t0\t\t1700000000\tadmin/local@EXAMPLE.ORG\t1\t0\n\
kadmin/history@EXAMPLE.ORG\t00000000\t0\t0\t0\t0\t\t1700000000\tadmin/local@EXAMPLE.ORG\t1\t0\n\
krbtgt/EXAMPLE.ORG@EXAMPLE.ORG\t00000000\t0\t0\t0\t0\t\t1700000000\tadmin/local@EXAMPLE.ORG\t1\t0\n";

const POLICIES: &[u8] = b"name\tmaxlife\tminlife\tminlength\tminclasses\thistory\tprincipals\n";

const REPORTS: [Answer; 9] = [
    ("report masters", MASTERS),
    ("report keys", KEYS),
    ("report -- principals", PRINCIPALS),
    ("report policies", POLICIES),
    ("report frob", b"err 1 BadLine\n"),
    ("report", b"err 1 BadLine\n"),
    ("report keys --", b"err 1 BadLine\n"),
    ("destroy", b"ok\n"),
    ("report keys", b"err 20 NotADatabase\n"),
];

#[test]
fn reports_as_tables(rt: HostRuntime) -> Result<(), Fail> {
    let mut disk = created(rt.alloc(), &[])?;
    check_answers(&rt, rt.alloc(), &mut disk, &REPORTS)
}

const BEGINNINGS: [Answer; 4] = [
    ("kproplog -R", b"ok 1 1700000000.000001\n"),
    ("kproplog", ANEW),
    ("kproplog -R --", b"ok 1 1700000000.000002\n"),
    ("kproplog -R -R", b"err 1 BadLine\n"),
];

// The log begins anew a microsecond behind the last change, since the clock still stands at it.
#[test]
fn the_log_begun_anew(rt: HostRuntime) -> Result<(), Fail> {
    let mut disk = created(rt.alloc(), &[])?;
    check_answers(&rt, rt.alloc(), &mut disk, &BEGINNINGS)
}

const ANEW: &[u8] = b"- first 1 1700000000.000001\n- last 1 1700000000.000001\n\
- size 1000 block 2048\n- 1 1700000000.000001 base\nok\n";

fn check_an_hour_before(rt: &impl Abort, alloc: Global, disk: &mut MemoryDisk) -> Result<(), Fail> {
    let before = Time::new(1_699_996_400, 0);
    let anew = run_at(alloc, disk, "kproplog -R", b"", &NO_FAULTS, before)?;
    check(rt, &anew, Status::Done, b"ok 1 1700000000.000001\n");
    Ok(())
}

#[test]
fn the_log_begun_anew_by_a_clock_that_went_back(rt: HostRuntime) -> Result<(), Fail> {
    let mut disk = created(rt.alloc(), &[])?;
    check_an_hour_before(&rt, rt.alloc(), &mut disk)?;
    check_words(&rt, rt.alloc(), &mut disk, "kproplog", ANEW)
}

/// Keys under a master key whose tags have 24 bytes.
const LONGER_KEYS: &[u8] = b"name\tindex\tkvno\tenctype\tsalt\twrapped\n\
K/M@EXAMPLE.ORG\t0\t1\taes256-cts-hmac-sha384-192\tnormal\t74\n\
kadmin/history@EXAMPLE.ORG\t0\t1\taes256-cts-hmac-sha1-96\tnormal\t74\n\
krbtgt/EXAMPLE.ORG@EXAMPLE.ORG\t0\t1\taes256-cts-hmac-sha1-96\tnormal\t74\n\
krbtgt/EXAMPLE.ORG@EXAMPLE.ORG\t1\t1\taes128-cts-hmac-sha1-96\tnormal\t58\n";

fn check_longer_keys(rt: &impl Abort, alloc: Global, disk: &mut MemoryDisk) -> Result<(), Fail> {
    let words = "create EXAMPLE.ORG -P masterpw -e aes256-sha2";
    check_words(rt, alloc, disk, words, b"ok 1 1700000000.000000\n")?;
    check_words(rt, alloc, disk, "report keys", LONGER_KEYS)?;
    assert_eq!(rt; disk.bytes(5).len(), 76);
    Ok(())
}

#[test]
fn keys_under_another_type_of_master_key(rt: HostRuntime) -> Result<(), Fail> {
    let mut disk = empty_disk(rt.alloc(), &[])?;
    check_longer_keys(&rt, rt.alloc(), &mut disk)
}
