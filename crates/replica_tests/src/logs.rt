//! Logs that a replica begins anew: before an update that is too long for a block, and at an opening.

ghost use Rattle.std.specs.Prelude.{◌≡◌, false};
ghost use Rattle.replica_core.specs.Opened.{IsHeldOn, is_broken};

use crate::first_files::first_files;
use crate::given::{AMY, BOB, EVE, SECS, TWO, UPDATES};
use crate::spelled::Reply::Updates;
use crate::spelled::Update::{Drops, Puts};
use crate::steps::{Answer, At, Step, at, opened_with, run, stands};
use kdb_base::Fails;
use kdb_disk::{Disk, MemoryDisk};
use kdb_store::Database;
use replica_core::{Replica, Taken4};
use std::alloc::Global;
use std::process::Abort;
use std::test::*;

/// A replica that is opened, what is done to it, and where it and its log then stand.
#[derive(Clone, Copy)]
struct Turn {
    /// The size of the log with which it is opened.
    size: u32,
    /// A step and what that answers. None where it is opened alone.
    done: Option<(Step, Answer)>,
    /// The length of a block of the log.
    block: u32,
    /// The point of the first entry that the log holds, and of the last one, which is the replica's.
    first: At,
    last: At,
    /// The names of the principals.
    names: &'static [&'static [u8]],
}

const AT_2: At = (2, SECS, 0);

const AT_3: At = (3, SECS, 0);

const AT_4: At = (4, SECS, 0);

const AT_5: At = (5, SECS, 0);

const AT_6: At = (6, SECS, 0);

const AT_7: At = (7, SECS, 0);

const AT_8: At = (8, SECS, 0);

// ---- what is checked

/// Whether the log is what the turn says, in files of format 2.
fn has_log(database: &Database, turn: &Turn) -> bool {
    let (first, last) = database.held();
    database.format() == 2
        && database.log_size() == turn.size
        && database.block() == turn.block
        && at(&first) == turn.first
        && at(&last) == turn.last
}

fn is_there(replica: &Replica, turn: &Turn) -> bool {
    let logged = match replica.database() {
        Some(database) => has_log(database, turn),
        None => false,
    };
    logged && stands(replica, turn.last, turn.names)
}

/// Whether the step answers what the turn says.
fn answers<D: Disk>(
    alloc: Global,
    replica: &mut Replica,
    disk: &mut D,
    turn: &Turn,
) -> Result<bool, Fail>
    requires on { D.tells → IsHeldOn replica.old.database (D.view disk.old) }
    requires whole { is_broken replica.old.database replica.old.failed ≡ false }
{
    match &turn.done {
        Some((step, answer)) => Ok(run(alloc, replica, disk, step)? == *answer),
        None => Ok(true),
    }
}

fn is_done(alloc: Global, disk: &mut MemoryDisk, turn: &Turn) -> Result<bool, Fail> {
    let mut replica = opened_with(alloc, disk, turn.size)?;
    let answered = answers(alloc, &mut replica, disk, turn);
    let there = is_there(&replica, turn);
    drop(replica);
    Ok(answered? && there)
}

/// Whether the disk has the replica and its log there.
fn is_found(alloc: Global, disk: &mut MemoryDisk, turn: &Turn) -> Result<bool, Fail> {
    let replica = opened_with(alloc, disk, turn.size)?;
    let there = is_there(&replica, turn);
    drop(replica);
    Ok(there)
}

fn check_turn(
    rt: &impl Abort,
    alloc: Global,
    disk: &mut MemoryDisk,
    turn: &Turn,
    number: u32,
) -> Result<(), Fail> {
    let done = is_done(alloc, disk, turn)?;
    assert!(rt; done, "turn {number}");
    let found = is_found(alloc, disk, turn)?;
    assert!(rt; found, "behind turn {number}");
    Ok(())
}

/// Takes the turns one after another.
fn play_on(
    rt: &impl Abort,
    alloc: Global,
    disk: &mut MemoryDisk,
    turns: &[Turn],
) -> Result<(), Fail> {
    let mut number = 0u32;
    for turn in turns {
        check_turn(rt, alloc, disk, turn, number)?;
        number = number.saturating_add(1);
    }
    Ok(())
}

fn play(rt: &impl Abort, alloc: Global, turns: &[Turn]) -> Result<(), Fail> {
    let mut disk = MemoryDisk::new(alloc, Fails::none(alloc))?;
    play_on(rt, alloc, &mut disk, turns)
}

fn play_on_first_files(rt: &impl Abort, alloc: Global, turns: &[Turn]) -> Result<(), Fail> {
    let mut disk = first_files(alloc)?;
    play_on(rt, alloc, &mut disk, turns)
}

// ---- updates that are too long

// An entry of 2047 bytes has its place in a block of 2048 behind the gate, and one of 2048 bytes does not: the log
// begins anew at the point before it, with blocks of the next multiple of 2048. Those behind it follow in that log.
const LONG: [Turn; 6] = [
    Turn {
        size: 100,
        done: Some((Step::Load(TWO), Answer::Loaded(AT_2))),
        block: 2048,
        first: AT_2,
        last: AT_2,
        names: &[AMY, BOB],
    },
    Turn {
        size: 100,
        done: Some((
            Step::Answer(Updates(AT_2, &[Puts(AT_3, 2047 - 121)])),
            Answer::Taken(Taken4::Updated(1)),
        )),
        block: 2048,
        first: AT_2,
        last: AT_3,
        names: &[AMY, BOB, EVE],
    },
    Turn {
        size: 100,
        done: Some((
            Step::Answer(Updates(AT_3, &[Puts(AT_4, 2048 - 121)])),
            Answer::Taken(Taken4::Updated(1)),
        )),
        block: 4096,
        first: AT_3,
        last: AT_4,
        names: &[AMY, BOB, EVE],
    },
    Turn {
        size: 100,
        done: Some((
            Step::Answer(Updates(AT_4, &[Drops(AT_5), Puts(AT_6, 4095 - 121)])),
            Answer::Taken(Taken4::Updated(2)),
        )),
        block: 4096,
        first: AT_3,
        last: AT_6,
        names: &[AMY, EVE],
    },
    // behind an update of the same reply
    Turn {
        size: 100,
        done: Some((
            Step::Answer(Updates(AT_6, &[Drops(AT_7), Puts(AT_8, 4096 - 121)])),
            Answer::Taken(Taken4::Updated(2)),
        )),
        block: 6144,
        first: AT_7,
        last: AT_8,
        names: &[AMY, EVE],
    },
    // a load keeps the longer block
    Turn {
        size: 100,
        done: Some((Step::Load(TWO), Answer::Loaded(AT_2))),
        block: 6144,
        first: AT_2,
        last: AT_2,
        names: &[AMY, BOB],
    },
];

#[test]
fn an_update_too_long_for_a_block_begins_the_log_anew(rt: HostRuntime) -> Result<(), Fail> {
    play(&rt, rt.alloc(), &LONG)
}

// ---- another size

const SIZES: [Turn; 7] = [
    Turn {
        size: 1000,
        done: Some((Step::Load(TWO), Answer::Loaded(AT_2))),
        block: 2048,
        first: AT_2,
        last: AT_2,
        names: &[AMY, BOB],
    },
    Turn {
        size: 1000,
        done: Some((Step::Take(UPDATES), Answer::Taken(Taken4::Updated(2)))),
        block: 2048,
        first: AT_2,
        last: AT_4,
        names: &[AMY, EVE],
    },
    Turn {
        size: 2,
        done: None,
        block: 2048,
        first: AT_4,
        last: AT_4,
        names: &[AMY, EVE],
    },
    // a log of two entries holds the last two
    Turn {
        size: 2,
        done: Some((
            Step::Answer(Updates(AT_4, &[Puts(AT_5, 0), Drops(AT_6)])),
            Answer::Taken(Taken4::Updated(2)),
        )),
        block: 2048,
        first: AT_5,
        last: AT_6,
        names: &[AMY, EVE],
    },
    Turn {
        size: 1000,
        done: None,
        block: 2048,
        first: AT_6,
        last: AT_6,
        names: &[AMY, EVE],
    },
    Turn {
        size: 1000,
        done: Some((
            Step::Answer(Updates(AT_6, &[Puts(AT_7, 2048 - 121)])),
            Answer::Taken(Taken4::Updated(1)),
        )),
        block: 4096,
        first: AT_6,
        last: AT_7,
        names: &[AMY, EVE],
    },
    // the block stays
    Turn {
        size: 2,
        done: None,
        block: 4096,
        first: AT_7,
        last: AT_7,
        names: &[AMY, EVE],
    },
];

#[test]
fn another_size_begins_the_log_anew(rt: HostRuntime) -> Result<(), Fail> {
    play(&rt, rt.alloc(), &SIZES)
}

// ---- files of format 1

const SAME_SIZE: [Turn; 2] = [
    Turn {
        size: 100,
        done: None,
        block: 4096,
        first: AT_2,
        last: AT_2,
        names: &[AMY, BOB],
    },
    Turn {
        size: 100,
        done: Some((Step::Take(UPDATES), Answer::Taken(Taken4::Updated(2)))),
        block: 4096,
        first: AT_2,
        last: AT_4,
        names: &[AMY, EVE],
    },
];

const OTHER_SIZE: [Turn; 1] = [Turn {
    size: 2,
    done: None,
    block: 4096,
    first: AT_2,
    last: AT_2,
    names: &[AMY, BOB],
}];

#[test]
fn files_of_format_1_become_those_of_format_2(rt: HostRuntime) -> Result<(), Fail> {
    play_on_first_files(&rt, rt.alloc(), &SAME_SIZE)?;
    play_on_first_files(&rt, rt.alloc(), &OTHER_SIZE)
}
