//! As many rows as there may be, and one more.
ghost use Rattle.std.specs.Prelude.{◌≤◌, [], length};
ghost use Rattle.kdb_disk.specs.Untold.{untold};

use crate::formats::SLOT;
use crate::records::{A, BOB, Record, padded};
use crate::steps::Step::{CreateFirst, Write, WriteRow};
use crate::steps::{Answer, Step, T0, answer_of, made};
use kdb_base::Refusal;
use kdb_disk::{Disk, DiskFailed, MemoryDisk};
use kdb_store::Database;
use std::alloc::Global;
use std::cmp::min;
use std::test::*;

/// The length of a unit of format 1.
const UNIT: usize = 8192;

/// A row whose name begins with a number.
const NUMBERED: Record = Record {
    name: b"000000@EXAMPLE.ORG",
    ..A
};

/// Where the last digit of that number stands in a unit: behind the state, the row's length and the name's.
const LAST_DIGIT: usize = 10;

/// A disk over one in memory. Behind the first unit of its file 1 it has so many units more, and in each a row that
/// begins with the unit's number: so long a file is not kept. It tells nothing, and lets go of what is written.
#[derive(Drop)]
struct LongDisk {
    disk: MemoryDisk,
    // one of those units
    unit: Vec<u8>,
    units: u64,
}

// Fills the front of the piece.
fn put_front(piece: &mut [u8], bytes: &[u8]) {
    let count = min(piece.len(), bytes.len());
    piece[..count].copy_from_slice(&bytes[..count]);
}

// Writes the number into a unit.
fn put_number(unit: &mut [u8], number: u64) {
    let mut rest = number;
    for digit in 0..6usize {
        if let Some(place) = unit.get_mut(LAST_DIGIT - digit) {
            *place = b'0'.saturating_add((rest % 10) as u8);
        }
        rest /= 10;
    }
}

impl LongDisk {
    // The unit of this number.
    fn put_unit(&self, piece: &mut [u8], unit: u64) {
        if unit == 0 {
            put_front(piece, self.disk.bytes(1));
        } else {
            put_front(piece, &self.unit);
            put_number(piece, unit);
        }
    }

    // Reads whole units.
    fn read_units(&self, at: u64, into: &mut [u8]) -> usize
        ensures { result ≤ length into.old }
    {
        let count = into.len();
        let mut unit = at / UNIT as u64;
        for piece in into.chunks_mut(UNIT) {
            self.put_unit(piece, unit);
            unit = unit.saturating_add(1);
        }
        count
    }
}

impl Disk for LongDisk {
    ghost tells = { ⊥ };

    ghost view = { λ d. untold };

    ghost faults = { λ d. ⟦<MemoryDisk as Disk>⟧.faults d.disk };

    ghost loans = { λ d. [] };

    fn length(&mut self, file: u8) -> Result<u64, DiskFailed> {
        if file == 1 {
            return Ok(self.units.saturating_add(1).saturating_mul(UNIT as u64));
        }
        self.disk.length(file)
    }

    fn read(&mut self, file: u8, at: u64, into: &mut [u8]) -> Result<usize, DiskFailed> {
        if file == 1 {
            return Ok(self.read_units(at, into));
        }
        if at > self.disk.bytes(file).len() as u64 {
            return Ok(0);
        }
        self.disk.read(file, at, into)
    }

    fn write_at(&mut self, _file: u8, _at: u64, _bytes: &[u8]) -> Result<(), DiskFailed> {
        Ok(())
    }

    fn cut(&mut self, _file: u8, _len: u64) -> Result<(), DiskFailed> {
        Ok(())
    }

    fn sync(&mut self, _file: u8) -> Result<(), DiskFailed> {
        Ok(())
    }

    ghost reads_as_image = { λ d tells. absurd tells };
}

fn open(alloc: Global, long: &mut LongDisk) -> Answer {
    match Database::recover(alloc, long).err() {
        None => Ok(None),
        Some(stop) => answer_of(stop),
    }
}

// What an opening over so many rows answers.
fn opened(alloc: Global, steps: &[Step], units: u64) -> Answer {
    let disk = made(alloc, steps)?;
    let unit = padded(alloc, b"\x01", &NUMBERED, UNIT)?;
    let mut long = LongDisk { disk, unit, units };
    open(alloc, &mut long)
}

/// The last entry puts `bob` into the unit 100000, in the place of the row that stands there, or 100001.
static IN_THE_LAST: [Step; 3] = [
    CreateFirst(T0),
    WriteRow(3, 2048, SLOT, BOB, 2048),
    Write(3, 2048 + 14, b"\0\x01\x86\xa0"),
];

static BEHIND_THE_LAST: [Step; 3] = [
    CreateFirst(T0),
    WriteRow(3, 2048, SLOT, BOB, 2048),
    Write(3, 2048 + 14, b"\0\x01\x86\xa1"),
];

static MADE: [Step; 1] = [CreateFirst(T0)];

#[test]
fn one_row_more_than_there_may_be_is_refused(rt: HostRuntime) -> Result<(), Fail> {
    assert_eq!(rt; opened(rt.alloc(), &IN_THE_LAST, 100_000)?, None);
    let entry = Refusal::Damaged {
        file: 3,
        place: 2048,
    };
    assert_eq!(rt; opened(rt.alloc(), &BEHIND_THE_LAST, 100_000)?, Some(entry));
    // the place of the unit 100001
    let unit = Refusal::Damaged {
        file: 1,
        place: 819_208_192,
    };
    assert_eq!(rt; opened(rt.alloc(), &MADE, 100_001)?, Some(unit));
    Ok(())
}
