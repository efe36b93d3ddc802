//! Whether the updates of a reply run on from a point.

ghost use Rattle.std.specs.Prelude.{◌≡◌, ◌<◌, true};
ghost use Rattle.kdb_base.specs.Moments.{micros};
ghost use Rattle.replica_core.specs.Taking.{IsStopIn, OnHalt};
ghost use Rattle.replica_steps.specs.Judging.{follows, gap_in, has_next, wanted};

use crate::stops::ReplicaStop;
use kdb_base::{Point, Time};
use princ_rows::Entry;

// The microseconds since 1970.
fn micros(time: &Time) -> u64
    ensures { result ≡ micros time.now }
{
    time.secs() as u64 * 1_000_000 + time.usecs() as u64
}

// Whether a serial comes behind this point of a database.
fn has_next(based: bool, at: &Point) -> bool
    ensures value { result ≡ has_next based at.now }
    ensures more { result ≡ true → at.now.sno < 4294967295 }
{
    based && at.sno < 4294967295
}

// The serial that comes next.
fn wanted(based: bool, at: &Point) -> u32
    ensures { result ≡ wanted based at.now }
{
    if has_next(based, at) { at.sno + 1 } else { 0 }
}

// Whether the update has the next serial, and a time that is not before.
fn follows(based: bool, at: &Point, update: &Entry) -> bool
    ensures { result ≡ follows based at.now update.now }
{
    if !has_next(based, at) {
        return false;
    }
    update.point.sno == at.sno + 1 && micros(&at.time) <= micros(&update.point.time)
}

/// The first of the updates that does not follow the one before it, and the point of the replica first of all.
#[tactic(auto, unfolding(replica_steps::specs::Judging::gap_in))]
pub(crate) fn first_gap(based: bool, at: &Point, updates: &[Entry]) -> Result<(), ReplicaStop>
    ensures gap { IsStopIn result (gap_in based at.now updates.now) }
    ensures never { OnHalt result ⊥ }
{
    let mut based = based;
    let mut at = *at;
    let mut left = updates;
    while let Some((update, later)) = left.split_first() {
        if !follows(based, &at, update) {
            return Err(ReplicaStop::Gap {
                want: wanted(based, &at),
                found: update.point,
            });
        }
        based = true;
        at = update.point;
        left = later;
    }
    Ok(())
}
