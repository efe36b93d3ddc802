//! Replicas whose disk fails: at each call of a load and of a reply in turn.

use crate::given::{AMY, BOB, EVE, FOUR, SECS, TWO, UPDATES};
use crate::steps::{Answer, At, Step, opened, run, stands};
use kdb_base::Fails;
use kdb_disk::{FILES, MemoryDisk, replace_file};
use replica_core::Replica;
use std::alloc::Global;
use std::process::Abort;
use std::test::*;

/// A point, and the names of the principals there.
type Place = (At, &'static [&'static [u8]]);

/// A step that is repeated behind the same other ones, each time with a fault at another call of
/// the disk.
#[derive(Clone, Copy)]
struct Case {
    before: &'static [Step],
    step: Step,
    /// Where the replica stands before the step, and each place that the step makes.
    places: &'static [Place],
}

const NOWHERE: Place = ((0, 0, 0), &[]);

const AT_2: Place = ((2, SECS, 0), &[AMY, BOB]);

const CASES: [Case; 3] = [
    Case {
        before: &[],
        step: Step::Load(TWO),
        places: &[NOWHERE, AT_2],
    },
    Case {
        before: &[Step::Load(TWO)],
        step: Step::Load(FOUR),
        places: &[AT_2, ((4, SECS, 0), &[BOB])],
    },
    // One update takes bob away, and the next puts eve.
    Case {
        before: &[Step::Load(TWO)],
        step: Step::Take(UPDATES),
        places: &[AT_2, ((3, SECS, 0), &[AMY]), ((4, SECS, 0), &[AMY, EVE])],
    },
];

/// Opens the replica and does the step: how many calls the disk had before the step, and what it
/// answers.
fn play(alloc: Global, disk: &mut MemoryDisk, step: &Step) -> Result<(u64, Answer), Fail> {
    let mut replica = opened(alloc, disk)?;
    let before = disk.calls();
    let answer = run(alloc, &mut replica, disk, step);
    drop(replica);
    Ok((before, answer?))
}

/// Does the steps one after another.
fn play_all(alloc: Global, disk: &mut MemoryDisk, steps: &[Step]) -> Result<(), Fail> {
    for step in steps {
        play(alloc, disk, step)?;
    }
    Ok(())
}

/// A disk on which these steps were done, of which these calls are to fail.
fn made(alloc: Global, steps: &[Step], fails: Fails) -> Result<MemoryDisk, Fail> {
    let mut disk = MemoryDisk::new(alloc, fails)?;
    play_all(alloc, &mut disk, steps)?;
    Ok(disk)
}

/// How many calls the disk has before the step and behind it.
fn count_calls(alloc: Global, case: &Case) -> Result<(u64, u64), Fail> {
    let mut disk = made(alloc, case.before, Fails::none(alloc))?;
    let (before, _) = play(alloc, &mut disk, &case.step)?;
    Ok((before, disk.calls()))
}

/// Does the step, which the disk ends.
fn play_failing(alloc: Global, disk: &mut MemoryDisk, step: &Step) -> Result<(), Fail> {
    let (_, answer) = play(alloc, disk, step)?;
    if answer != Answer::DiskFault {
        return Err(Fail::from("a fault of the disk"));
    }
    Ok(())
}

/// The disk behind the step, which this call of it ended.
fn failed(alloc: Global, case: &Case, call: u64) -> Result<MemoryDisk, Fail> {
    let fails = Fails::from_vec([call].to_vec(alloc)?);
    let mut disk = made(alloc, case.before, fails)?;
    play_failing(alloc, &mut disk, &case.step)?;
    Ok(disk)
}

fn copy_files(disk: &MemoryDisk, copy: &mut MemoryDisk) -> Result<(), Fail> {
    for file in 0..FILES {
        replace_file(copy, file, disk.bytes(file))?;
    }
    Ok(())
}

/// The same files on a disk of which no call fails.
fn copied(alloc: Global, disk: &MemoryDisk) -> Result<MemoryDisk, Fail> {
    let mut copy = MemoryDisk::new(alloc, Fails::none(alloc))?;
    copy_files(disk, &mut copy)?;
    Ok(copy)
}

/// Whether the replica is at one of these places.
fn stands_at_one(replica: &Replica, places: &[Place]) -> bool {
    for (point, names) in places {
        if stands(replica, *point, names) {
            return true;
        }
    }
    false
}

/// Whether the replica that the files stand for is at one of these places.
fn is_found(alloc: Global, disk: &MemoryDisk, places: &[Place]) -> Result<bool, Fail> {
    let mut copy = copied(alloc, disk)?;
    let replica = opened(alloc, &mut copy)?;
    let stands = stands_at_one(&replica, places);
    drop(replica);
    Ok(stands)
}

/// This call of the step fails.
fn check_call(rt: &impl Abort, alloc: Global, case: &Case, call: u64) -> Result<(), Fail> {
    let disk = failed(alloc, case, call)?;
    let found = is_found(alloc, &disk, case.places)?;
    assert!(rt; found, "call {call}");
    Ok(())
}

/// Each call of the step fails in turn.
fn check_case(rt: &impl Abort, alloc: Global, case: &Case) -> Result<(), Fail> {
    let (before, behind) = count_calls(alloc, case)?;
    assert!(rt; before < behind);
    for call in before..behind {
        check_call(rt, alloc, case, call)?;
    }
    Ok(())
}

#[test]
fn a_fault_of_the_disk_leaves_a_place_that_was_made(rt: HostRuntime) -> Result<(), Fail> {
    for case in &CASES {
        check_case(&rt, rt.alloc(), case)?;
    }
    Ok(())
}
