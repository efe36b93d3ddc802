//! A primary whose disk failed.

use crate::answers::Became;
use crate::bench::{ANY, Bench, LOCAL, T};
use crate::stops::{account, behind, made};
use crate::turns::Turn::{
    Ask, BeginDump, Create, EndDump, Line, Load, Log, Names, Open, PollClosed, Rekey, ResetLog,
    Settle, Take, Work, WriteStash,
};
use crate::turns::{Turn, play_on};
use kdb_base::Fails;
use kdb_disk::MemoryDisk;
use std::alloc::Global;
use std::process::Abort;
use std::test::Fail;

const SERVICE: &[u8] = b"krbtgt/EXAMPLE.ORG@EXAMPLE.ORG";

/// Version 2 is active, so that there is something to rekey, and a dump and work are held.
static BEFORE: [Turn; 6] = [
    Create(1000, "ok 1 1700000000.000000"),
    Line("add_mkey", "ok 2 1700000000.000000 mkvno 2"),
    Line(
        "use_mkey 2",
        "ok 3 1700000000.000000 mkvno 2 from 2023-11-14T22:13:20Z",
    ),
    Work(SERVICE),
    BeginDump("ok 3 1700000000.000000", 3),
    EndDump,
];

/// The call that fails is the first one of the change, which is not there when the database is opened anew.
static FAILED: [Turn; 21] = [
    Line("addprinc -nokey bob", ""),
    Line("addprinc -nokey bob", "err 26 Closed"),
    Line("getprinc bob", "err 26 Closed"),
    Line("use_mkey 9", "err 26 Closed"),
    Line("list_mkeys", "err 26 Closed"),
    Line("stash", "err 26 Closed"),
    ResetLog("err 26 Closed"),
    WriteStash("err 26 Closed"),
    Load(b"", "err 26 Closed"),
    Settle(SERVICE, Became::Closed),
    Rekey(SERVICE, Became::Closed),
    Take(SERVICE, Became::Closed),
    Ask(ANY, "joe", T),
    Names("*", "err 26 Closed"),
    PollClosed,
    BeginDump("err 26 Closed", 0),
    LOCAL,
    Open(None, 1, "ok 3 1700000000.000000"),
    Log(1000, 2048, (1, T), (3, T)),
    Line("getprinc bob", "err 4 UnknownPrincipal"),
    WriteStash("ok"),
];

/// How many calls of the disk these turns make.
fn calls_of(alloc: Global, turns: &[Turn]) -> Result<u64, Fail> {
    Ok(made(alloc, turns)?.calls())
}

fn play_both(rt: &impl Abort, alloc: Global, bench: &mut Bench) -> Result<(), Fail> {
    play_on(rt, alloc, bench, &BEFORE)?;
    play_on(rt, alloc, bench, &FAILED)
}

#[test]
fn a_primary_is_closed_by_a_fault_of_its_disk(rt: HostRuntime) -> Result<(), Fail> {
    let alloc = rt.alloc();
    let fails = Fails::from_vec([calls_of(alloc, &BEFORE)?].to_vec(alloc)?);
    let mut bench = Bench::new(alloc, fails)?;
    let played = play_both(&rt, alloc, &mut bench);
    drop(bench);
    played
}

// ---- each call of the disk

static MADE: [Turn; 1] = [Create(1000, "ok 1 1700000000.000000")];

static ADDED: [Turn; 2] = [
    Create(1000, "ok 1 1700000000.000000"),
    Line("addprinc -pw s3cret alice", "ok 2 1700000000.000000"),
];

/// The same lines, of which the disk fails by the first.
static CUT: [Turn; 3] = [
    Create(1000, "ok 1 1700000000.000000"),
    Line("addprinc -pw s3cret alice", ""),
    Line("getprinc alice", "err 26 Closed"),
];

/// What the files stand for where this call of the disk failed.
fn left_by(alloc: Global, call: u64) -> Result<Vec<u8>, Fail> {
    let fails = Fails::from_vec([call].to_vec(alloc)?);
    let disk = MemoryDisk::new(alloc, fails)?;
    account(alloc, behind(alloc, disk, &CUT)?)
}

// The files stand for the database before the line or behind it.
#[test]
fn each_call_of_a_disk_fails(rt: HostRuntime) -> Result<(), Fail> {
    let alloc = rt.alloc();
    let before = made(alloc, &MADE)?;
    let after = made(alloc, &ADDED)?;
    let (first, last) = (before.calls(), after.calls());
    assert!(rt; first < last);
    let before = account(alloc, before)?;
    let after = account(alloc, after)?;
    for call in first..last {
        let left = left_by(alloc, call)?;
        let found = left.as_slice() == before.as_slice() || left.as_slice() == after.as_slice();
        assert!(rt; found, "call {call}");
    }
    Ok(())
}
