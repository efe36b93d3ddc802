//! The control file of a database that begins, changes its files, and ends.

ghost use Rattle.std.specs.Prelude.{◌≡◌};

use kdb_base::{Fails, Point, Time};
use kdb_control::{Control, ControlStop, erase, read, switch};
use kdb_disk::MemoryDisk;
use std::test::*;

// The number of the control file.
const CONTROL: u8 = 0;

// 1000 is 3e8, 2048 is 800 and 1700000000 is 6553f100 in hexadecimal.
const FIRST_SLOT: [u8; 31] = [
    0xa5, 0x4b, 0x44, 0x42, 0x50, 0, 1, 0, 1, 3, 0, 0, 0, 3, 0xe8, 0, 0, 8, 0, 0, 0, 0, 1, 0x65,
    0x53, 0xf1, 0, 0, 0, 0, 0,
];

#[tactic(auto, unfolding(kdb_control::specs::Choice::in_ranges))]
fn first() -> Control
    ensures { result.turn ≡ 0 }
{
    Control {
        format: 1,
        turn: 0,
        image: 1,
        log: 3,
        stash: 0,
        size: 1000,
        block: 2048,
        base: Point {
            sno: 1,
            time: Time::new(1_700_000_000, 0),
        },
    }
}

#[tactic(auto, unfolding(kdb_control::specs::Choice::in_ranges))]
fn second() -> Control
    ensures { result.turn ≡ 1 }
{
    Control {
        format: 2,
        turn: 1,
        image: 2,
        log: 3,
        stash: 5,
        size: 1000,
        block: 16384,
        base: Point {
            sno: 1,
            time: Time::new(1_700_000_000, 0),
        },
    }
}

#[test]
#[tactic(auto, using(kdb_control::proofs::Emptied::empty_has_nothing, kdb_control::proofs::Emptied::has_in_force), unfolding(kdb_control::specs::Force::turn_after))]
fn a_database_begins_changes_and_ends(rt: HostRuntime) -> Result<(), Fail> {
    let mut disk = MemoryDisk::new(rt.alloc(), Fails::none(rt.alloc()))?;
    let first = first();
    let second = second();
    switch(&mut disk, None, &first)?;
    let rest = disk.bytes(CONTROL).strip_prefix(&FIRST_SLOT);
    assert_eq!(rt; rest.map(|zeros| zeros.len()), Some(34));
    assert!(rt; rest.map(|zeros| zeros.iter().all(|b| *b == 0)) == Some(true));
    assert!(rt; read(&mut disk) == Ok(first));
    switch(&mut disk, Some(&first), &second)?;
    assert_eq!(rt; disk.bytes(CONTROL).len(), 128);
    assert!(rt; read(&mut disk) == Ok(second));
    erase(&mut disk, &second)?;
    assert!(rt; read(&mut disk) == Err(ControlStop::NotADatabase));
    Ok(())
}
