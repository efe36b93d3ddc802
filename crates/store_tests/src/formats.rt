//! Files of format 1, and what rows may have in each format.

use crate::looks::Look::RowLength;
use crate::records::{BOB, COLORED_BOB, HISTORY, KEYED_B, KM, KRBTGT, Record};
use crate::scripts::Turn::{Damaged, Done, Seen};
use crate::scripts::{Turn, play};
use crate::steps::Step::{Create, CreateFirst, Destroy, Migrate, Open, WriteRow};
use crate::steps::{Step, T0, T1};
use std::test::Fail;

pub(crate) const MAKE_FIRST: Step = CreateFirst(T0);

/// The first records in the units 1 to 3, of 8192 bytes.
pub(crate) const WITH_KM: Step = WriteRow(1, 8192, b"\x01", KM, 8192);

pub(crate) const WITH_HISTORY: Step = WriteRow(1, 2 * 8192, b"\x01", HISTORY, 8192);

pub(crate) const WITH_KRBTGT: Step = WriteRow(1, 3 * 8192, b"\x01", KRBTGT, 8192);

// ---- what rows may have

/// The slot with the entry that puts a record of `bob` into the unit 4, with the serial 3 at 1700000000.000000: an
/// open gate, the point, kind 1, the unit and the key stand before the row.
pub(crate) const SLOT: &[u8] =
    b"\xa5\0\0\0\x03\x65\x53\xf1\0\0\0\0\0\x01\0\0\0\x04\0\x0fbob@EXAMPLE.ORG";

/// The row of `b` with 32 keys of a salt has 2137 bytes, and the salt 32 times: here 15993 bytes.
const LONGEST: Record = Record {
    salt: &[b's'; 433],
    ..KEYED_B
};

const TOO_LONG: Record = Record {
    salt: &[b's'; 434],
    ..KEYED_B
};

/// And here 7993 bytes.
const LONGEST_FIRST: Record = Record {
    salt: &[b's'; 183],
    ..KEYED_B
};

const TOO_LONG_FIRST: Record = Record {
    salt: &[b's'; 184],
    ..KEYED_B
};

// String attributes are of format 2.
static STRINGS: [Turn; 14] = [
    Done(MAKE_FIRST),
    Done(WITH_KM),
    Done(WITH_HISTORY),
    Done(WITH_KRBTGT),
    Done(WriteRow(1, 16384, b"\x01", BOB, 8192)),
    Done(Open),
    Done(WriteRow(1, 16384, b"\x01", COLORED_BOB, 8192)),
    Damaged(Open, 1, 16384),
    // in the log, where the entry of a record without them is read
    Done(WITH_HISTORY),
    Done(WriteRow(3, 2048, SLOT, BOB, 2048)),
    Done(Open),
    Done(WriteRow(3, 2048, SLOT, COLORED_BOB, 2048)),
    Damaged(Open, 3, 2048),
    Damaged(Migrate(T1, 5), 3, 2048),
];

static LENGTHS: [Turn; 16] = [
    Seen(RowLength(LONGEST, 15993)),
    Seen(RowLength(LONGEST_FIRST, 7993)),
    Done(Create(T0, 2)),
    Done(WriteRow(1, 65536, b"\x01", COLORED_BOB, 16384)),
    Done(Open),
    Done(WriteRow(1, 65536, b"\x01", LONGEST, 16384)),
    Done(Open),
    Done(WriteRow(1, 65536, b"\x01", TOO_LONG, 16384)),
    Damaged(Open, 1, 65536),
    Done(Destroy),
    Done(MAKE_FIRST),
    Done(WITH_KM),
    Done(WriteRow(1, 16384, b"\x01", LONGEST_FIRST, 8192)),
    Done(Open),
    Done(WriteRow(1, 16384, b"\x01", TOO_LONG_FIRST, 8192)),
    Damaged(Open, 1, 16384),
];

#[test]
fn formats_differ(rt: HostRuntime) -> Result<(), Fail> {
    play(&rt, rt.alloc(), &STRINGS)?;
    play(&rt, rt.alloc(), &LENGTHS)
}
