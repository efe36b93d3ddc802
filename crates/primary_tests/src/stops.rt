//! Calls that are stopped inside of each of their device calls.

use crate::answers::printed;
use crate::bench::{Bench, T, shut};
use crate::calls::{At, Primary, recover, time};
use crate::texts::written_dump;
use crate::turns::Turn::{
    BeginDump, Create, End, EndDump, Format1, Line, Load, Log, LongLine, Open, ResetLog, WriteStash,
};
use crate::turns::{Turn, take_turn};
use kadm_commands::Reply;
use kdb_base::{Fails, Stop};
use kdb_disk::{Disk, MemoryDisk, Pick};
use std::alloc::Global;
use std::process::Abort;
use std::test::Fail;

// Takes the turns, and hands the disk over.
fn take_turns(alloc: Global, bench: &mut Bench, turns: &[Turn]) -> Result<MemoryDisk, Fail> {
    for turn in turns {
        if !take_turn(alloc, bench, turn)? {
            return Err(Fail::from("what a turn comes to"));
        }
    }
    shut(bench)
}

/// The disk behind these turns.
pub(crate) fn behind(alloc: Global, disk: MemoryDisk, turns: &[Turn]) -> Result<MemoryDisk, Fail> {
    let mut bench = Bench::over(alloc, disk)?;
    let left = take_turns(alloc, &mut bench, turns);
    drop(bench);
    left
}

// ---- places

/// The disk as it is inside this call, with no calls.
fn image(alloc: Global, disk: &MemoryDisk, call: u64, pick: Pick) -> Result<MemoryDisk, Fail> {
    if call >= disk.calls() {
        return Err(Fail::from("a call"));
    }
    Ok(disk.image_at(alloc, call, pick)?)
}

/// The disk as it reads, with no calls.
fn copied(alloc: Global, disk: &MemoryDisk) -> Result<MemoryDisk, Fail> {
    image(alloc, disk, disk.calls().saturating_sub(1), Pick::Written)
}

fn dump_of(alloc: Global, primary: &Primary) -> Result<Vec<u8>, Fail> {
    let store = primary.store();
    let realm = store.realm().as_slice();
    written_dump(alloc, realm, store.point(), store.rows())
}

/// The dump, the first serial that the log holds, and the stash.
fn text_of(alloc: Global, primary: &Primary) -> Result<Vec<u8>, Fail> {
    let mut text = dump_of(alloc, primary)?;
    let store = primary.store();
    let (first, _) = store.held();
    text.extend_from_slice(&first.sno.to_be_bytes())?;
    text.extend_from_slice(store.stash().unwrap_or(&[]))?;
    Ok(text)
}

fn refusal_of(alloc: Global, stop: Stop) -> Result<Vec<u8>, Fail> {
    match stop {
        Stop::Refused(why) => {
            let said = printed(alloc, Reply::Refused(why))?;
            Ok(said.as_slice().to_vec(alloc)?)
        }
        Stop::Halt(halt) => Err(Fail::from(halt)),
    }
}

/// What the files of the disk stand for, as a text. Where there is no database, it is the refusal's.
pub(crate) fn account(alloc: Global, disk: MemoryDisk) -> Result<Vec<u8>, Fail> {
    match recover(alloc, disk, None, 1, time(T))? {
        Ok(primary) => {
            let text = text_of(alloc, &primary);
            drop(primary);
            text
        }
        Err((disk, stop)) => {
            drop(disk);
            refusal_of(alloc, stop)
        }
    }
}

/// What the files stand for behind each of these.
fn accounts(alloc: Global, disk: &MemoryDisk, steps: &[&[Turn]]) -> Result<Vec<Vec<u8>>, Fail> {
    let mut accounts = Vec::new(alloc);
    for turns in steps {
        let done = behind(alloc, copied(alloc, disk)?, turns)?;
        accounts.push(account(alloc, done)?)?;
    }
    Ok(accounts)
}

/// Whether this image inside of this call stands for one of the accounts.
fn is_among(
    alloc: Global,
    disk: &MemoryDisk,
    call: u64,
    pick: Pick,
    accounts: &[Vec<u8>],
) -> Result<bool, Fail> {
    let left = account(alloc, image(alloc, disk, call, pick)?)?;
    for one in accounts {
        if one.as_slice() == left.as_slice() {
            return Ok(true);
        }
    }
    Ok(false)
}

/// Whether the images inside of each call from this one on do.
fn are_among(
    alloc: Global,
    disk: &MemoryDisk,
    first: u64,
    accounts: &[Vec<u8>],
) -> Result<bool, Fail> {
    for call in first..disk.calls() {
        for pick in [Pick::Written, Pick::Old, Pick::Noise] {
            if !is_among(alloc, disk, call, pick, accounts)? {
                return Ok(false);
            }
        }
    }
    Ok(first < disk.calls())
}

/// Whether a crash behind all calls leaves nothing but what the last of the accounts tells.
fn is_kept(alloc: Global, disk: &mut MemoryDisk, accounts: &[Vec<u8>]) -> Result<bool, Fail> {
    let [.., done] = accounts else {
        return Ok(false);
    };
    let last = disk.calls();
    // a call that changes nothing
    disk.length(0)?;
    for pick in [Pick::Written, Pick::Old, Pick::Noise] {
        let left = account(alloc, image(alloc, disk, last, pick)?)?;
        if left.as_slice() != done.as_slice() {
            return Ok(false);
        }
    }
    Ok(true)
}

/// Does the last of these steps on a copy of the disk, and compares what each image of each moment of it, behind the
/// device calls of these turns, stands for: for what the files stand for behind one of the steps. Behind it, they stand
/// for the last one alone.
fn stands(
    alloc: Global,
    disk: &MemoryDisk,
    begun: &[Turn],
    steps: &[&[Turn]],
) -> Result<bool, Fail> {
    let [.., step] = steps else {
        return Err(Fail::from("a step"));
    };
    let accounts = accounts(alloc, disk, steps)?;
    let first = behind(alloc, copied(alloc, disk)?, begun)?.calls();
    let mut done = behind(alloc, copied(alloc, disk)?, step)?;
    if !are_among(alloc, &done, first, &accounts)? {
        return Ok(false);
    }
    is_kept(alloc, &mut done, &accounts)
}

/// The disk behind these turns, which begin with an empty one.
pub(crate) fn made(alloc: Global, turns: &[Turn]) -> Result<MemoryDisk, Fail> {
    behind(alloc, MemoryDisk::new(alloc, Fails::none(alloc))?, turns)
}

// ---- a change of keys

/// The log has room for two entries, and five were made.
static OF_TWO: [Turn; 5] = [
    Create(2, "ok 1 1700000000.000000"),
    Line("addprinc -nokey a", "ok 2 1700000000.000000"),
    Line("addprinc -nokey b", "ok 3 1700000000.000000"),
    Line("addprinc -nokey c", "ok 4 1700000000.000000"),
    Line("addprinc -nokey d", "ok 5 1700000000.000000"),
];

const OPEN: Turn = Open(None, 1, "ok 5 1700000000.000000");

static HELD: [Turn; 2] = [OPEN, Log(2, 2048, (4, T), (5, T))];

static KEYS_CHANGED: [Turn; 3] = [
    OPEN,
    Line("cpw -randkey a", "ok 6 1700000000.000000"),
    Log(2, 2048, (5, T), (6, T)),
];

#[test]
fn a_change_of_keys_is_stopped(rt: HostRuntime) -> Result<(), Fail> {
    let disk = made(rt.alloc(), &OF_TWO)?;
    assert!(rt; stands(rt.alloc(), &disk, &[OPEN], &[&HELD, &KEYS_CHANGED])?);
    Ok(())
}

// ---- master keys, dumps and logs

/// Versions 2 and 3 were added, and bob has a string attribute of 1024 bytes.
static BEFORE: [Turn; 5] = [
    Create(2, "ok 1 1700000000.000000"),
    Line("addprinc -nokey bob", "ok 2 1700000000.000000"),
    Line("add_mkey", "ok 3 1700000000.000000 mkvno 2"),
    Line("add_mkey", "ok 4 1700000000.000000 mkvno 3"),
    LongLine("a", "ok 5 1700000000.000000"),
];

static NOTHING: [Turn; 1] = [OPEN];

/// Version 1 protects the three principals other than K/M, and version 3 is the newest.
static PURGE: [Turn; 2] = [
    OPEN,
    Line(
        "purge_mkeys",
        "- kept 1 protects 3\n- purged 2\n- kept 3 newest\nok 6 1700000000.000000 1 purged",
    ),
];

/// A stash of three keys, where there was one of one.
static STASH: [Turn; 2] = [OPEN, WriteStash("ok")];

#[test]
fn a_purge_and_a_stash_are_stopped(rt: HostRuntime) -> Result<(), Fail> {
    let alloc = rt.alloc();
    let disk = made(alloc, &BEFORE)?;
    assert!(rt; stands(alloc, &disk, &NOTHING, &[&NOTHING, &PURGE])?);
    assert!(rt; stands(alloc, &disk, &NOTHING, &[&NOTHING, &STASH])?);
    Ok(())
}

/// The database's own dump, without bob.
static LOAD: [Turn; 4] = [
    OPEN,
    BeginDump("ok 5 1700000000.000000", 4),
    EndDump,
    Load(b"bob@EXAMPLE.ORG", "ok 1 1700000000.000001"),
];

#[test]
fn a_load_is_stopped(rt: HostRuntime) -> Result<(), Fail> {
    let disk = made(rt.alloc(), &BEFORE)?;
    assert!(rt; stands(rt.alloc(), &disk, &NOTHING, &[&NOTHING, &LOAD])?);
    Ok(())
}

/// A microsecond behind the creation.
const BEHIND: At = (1_700_000_000, 1);

/// A second attribute of 1024 bytes, for which the log is begun anew in longer blocks.
static SET_LONG: [Turn; 3] = [
    OPEN,
    LongLine("b", "ok 2 1700000000.000001"),
    Log(2, 4096, (1, BEHIND), (2, BEHIND)),
];

/// The log begun anew, and no more.
static RESET: [Turn; 2] = [OPEN, ResetLog("ok 1 1700000000.000001")];

// The log is begun anew first.
#[test]
fn a_log_begun_anew_for_a_line_is_stopped(rt: HostRuntime) -> Result<(), Fail> {
    let disk = made(rt.alloc(), &BEFORE)?;
    let steps: [&[Turn]; 3] = [&NOTHING, &RESET, &SET_LONG];
    assert!(rt; stands(rt.alloc(), &disk, &NOTHING, &steps)?);
    Ok(())
}

// ---- databases made and ended

static GONE: [Turn; 2] = [Create(2, "ok 1 1700000000.000000"), End];

static MADE: [Turn; 1] = [Create(2, "ok 1 1700000000.000000")];

const OPEN_MADE: Turn = Open(None, 1, "ok 1 1700000000.000000");

static OPENED_AND_ENDED: [Turn; 2] = [OPEN_MADE, End];

#[test]
fn a_creation_and_an_end_are_stopped(rt: HostRuntime) -> Result<(), Fail> {
    let alloc = rt.alloc();
    let disk = made(alloc, &GONE)?;
    assert!(rt; stands(alloc, &disk, &[], &[&[], &MADE])?);
    let disk = made(alloc, &MADE)?;
    assert!(rt;
        stands(
            alloc,
            &disk,
            &[OPEN_MADE],
            &[&[OPEN_MADE], &OPENED_AND_ENDED]
        )?
    );
    Ok(())
}

// ---- files of format 1

static OF_FORMAT_1: [Turn; 2] = [Create(2, "ok 1 1700000000.000000"), Format1];

const OPEN_FORMAT_1: Turn = Open(None, 1, "ok 1 1700000000.000001");

/// The files are written anew in format 2, with a base marker.
static OPENED: [Turn; 1] = [OPEN_FORMAT_1];

static ADDED: [Turn; 2] = [
    OPEN_FORMAT_1,
    Line("addprinc -nokey bob", "ok 2 1700000000.000001"),
];

// The opening may be stopped too. Before it writes, files of format 1 are opened anew.
#[test]
fn files_of_format_1_are_stopped(rt: HostRuntime) -> Result<(), Fail> {
    let disk = made(rt.alloc(), &OF_FORMAT_1)?;
    assert!(rt; stands(rt.alloc(), &disk, &[], &[&OPENED, &ADDED])?);
    Ok(())
}
