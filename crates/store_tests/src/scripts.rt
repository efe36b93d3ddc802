//! Steps, and what is asked between them.

use crate::counts::is_counted;
use crate::looks::{Look, is_seen};
use crate::places::{found, is_one_place, let_go_of_place, look_through};
use crate::steps::{Step, copied, image, run};
use kdb_base::{Fails, Refusal};
use kdb_disk::{MemoryDisk, Pick};
use kdb_store::Database;
use std::alloc::Global;
use std::process::Abort;
use std::test::Fail;

#[derive(Clone, Copy)]
pub(crate) enum Turn {
    /// The step is done.
    Done(Step),
    /// It is refused.
    Refused(Step, Refusal),
    /// It is refused, since this place of this file is damaged.
    Damaged(Step, u8, u64),
    /// It is so.
    Seen(Look),
    /// The first step is done. Each image of each moment inside of its device calls stands for the place before,
    /// for the one after, or for the one that the second step would make.
    Stopped(Step, Step),
    /// The step is done by so many device calls: one writes a unit, three write the log, each of these is synced,
    /// and the others look at the log.
    Counted(Step, u64),
}

// The place to which the disk comes by the step.
fn place_after(
    alloc: Global,
    disk: &mut MemoryDisk,
    step: &Step,
) -> Result<Option<Database>, Fail> {
    let mut aside = copied(alloc, disk)?;
    run(alloc, &mut aside, step)?;
    found(alloc, &mut aside)
}

// What a stopped step may leave: the place before, the one that the other step would make, and the one after.
fn places_of(
    alloc: Global,
    disk: &mut MemoryDisk,
    step: &Step,
    other: &Step,
) -> Result<Vec<Option<Database>>, Fail> {
    let mut places = Vec::new(alloc);
    for made in [Step::Open, *other, *step] {
        let place = place_after(alloc, disk, &made)?;
        places.push(place)?;
    }
    Ok(places)
}

// How many calls the disk has had behind an opening.
fn calls_behind(alloc: Global, aside: &mut MemoryDisk) -> Result<u64, Fail> {
    look_through(alloc, aside)?;
    Ok(aside.calls())
}

// How many calls are an opening's.
fn calls_of_opening(alloc: Global, disk: &mut MemoryDisk) -> Result<u64, Fail> {
    let mut aside = copied(alloc, disk)?;
    calls_behind(alloc, &mut aside)
}

/// How many calls are an opening's, before those of the step itself.
pub(crate) fn calls_before(alloc: Global, disk: &mut MemoryDisk, step: &Step) -> Result<u64, Fail> {
    match step {
        Step::Create(_, _) | Step::Open | Step::Destroy => Ok(0),
        _ => calls_of_opening(alloc, disk),
    }
}

fn is_among(place: &Option<Database>, places: &[Option<Database>]) -> bool {
    for one in places {
        if is_one_place(place, one) {
            return true;
        }
    }
    false
}

// Whether the files of the disk stand for one of the places.
fn is_found_among(
    alloc: Global,
    disk: &mut MemoryDisk,
    places: &[Option<Database>],
) -> Result<bool, Fail> {
    match found(alloc, disk) {
        Ok(place) => {
            let among = is_among(&place, places);
            let_go_of_place(place);
            Ok(among)
        }
        Err(fail) => Err(fail),
    }
}

// Whether this image inside of this call does.
fn is_image_among(
    alloc: Global,
    disk: &MemoryDisk,
    call: u64,
    pick: Pick,
    places: &[Option<Database>],
) -> Result<bool, Fail> {
    match image(alloc, disk, call, pick) {
        Ok(mut left) => is_found_among(alloc, &mut left, places),
        Err(fail) => Err(fail),
    }
}

// Whether the three images inside of this call do.
fn stands_at(
    alloc: Global,
    disk: &MemoryDisk,
    call: u64,
    places: &[Option<Database>],
) -> Result<bool, Fail> {
    for pick in [Pick::Written, Pick::Old, Pick::Noise] {
        if !is_image_among(alloc, disk, call, pick, places)? {
            return Ok(false);
        }
    }
    Ok(true)
}

// Whether the step is done, and leaves one of the places wherever it is stopped, from this call on.
fn stands_throughout(
    alloc: Global,
    disk: &mut MemoryDisk,
    step: &Step,
    first: u64,
    places: &[Option<Database>],
) -> Result<bool, Fail> {
    let mut changed = copied(alloc, disk)?;
    if run(alloc, &mut changed, step)?.is_some() {
        return Ok(false);
    }
    for call in first..changed.calls() {
        if !stands_at(alloc, &changed, call, places)? {
            return Ok(false);
        }
    }
    *disk = changed;
    Ok(true)
}

fn is_stopped(
    alloc: Global,
    disk: &mut MemoryDisk,
    step: &Step,
    other: &Step,
) -> Result<bool, Fail> {
    let first = calls_before(alloc, disk, step)?;
    let places = places_of(alloc, disk, step, other)?;
    stands_throughout(alloc, disk, step, first, &places)
}

fn take(alloc: Global, disk: &mut MemoryDisk, turn: &Turn) -> Result<bool, Fail> {
    match turn {
        Turn::Done(step) => Ok(run(alloc, disk, step)?.is_none()),
        Turn::Refused(step, refusal) => Ok(run(alloc, disk, step)? == Some(*refusal)),
        Turn::Damaged(step, file, place) => {
            let (file, place) = (*file, *place);
            Ok(run(alloc, disk, step)? == Some(Refusal::Damaged { file, place }))
        }
        Turn::Seen(look) => is_seen(alloc, disk, look),
        Turn::Stopped(step, other) => is_stopped(alloc, disk, step, other),
        Turn::Counted(step, calls) => is_counted(alloc, disk, step, *calls),
    }
}

/// Takes the turns one after another, over an empty disk.
pub(crate) fn play(rt: &impl Abort, alloc: Global, turns: &[Turn]) -> Result<(), Fail> {
    let mut disk = MemoryDisk::new(alloc, Fails::none(alloc))?;
    let mut number = 0u32;
    for turn in turns {
        let taken = take(alloc, &mut disk, turn)?;
        assert!(rt; taken, "turn {number}");
        number = number.saturating_add(1);
    }
    Ok(())
}
