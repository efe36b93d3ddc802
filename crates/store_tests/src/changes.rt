//! A database made, changed and ended: what its files hold.

use crate::looks::Look::{Has, Holds, Lacks, Length, Reads, Row, Zeros};
use crate::records::Change::Put;
use crate::records::{ALICE, HISTORY, KM, KRBTGT};
use crate::scripts::Turn::{Done, Refused, Seen, Stopped};
use crate::scripts::{Turn, play};
use crate::steps::Step::{Commit, Create, Destroy, Open};
use crate::steps::{At, STASH, T0};
use kdb_base::Refusal;
use std::test::Fail;

/// An open gate, KDBP, format 2, turn 0, files 1, 3 and 5, size 1000, block 2048, and the point 1
/// 1700000000.000000.
const FIRST_SLOT: [u8; 31] = [
    0xa5, 0x4b, 0x44, 0x42, 0x50, 0, 2, 0, 1, 3, 5, 0, 0, 3, 0xe8, 0, 0, 8, 0, 0, 0, 0, 1, 0x65,
    0x53, 0xf1, 0, 0, 0, 0, 0,
];

/// KDBC, format 2, the realm and the same point.
const FIRST_UNIT: &[u8] = b"KDBC\0\x02\0\x0bEXAMPLE.ORG\0\0\0\x01\x65\x53\xf1\0\0\0\0\0";

/// The slot of the base marker: an open gate, the same point, kind 0, no unit, no key and no row.
const MARKER: [u8; 22] = [
    0xa5, 0, 0, 0, 1, 0x65, 0x53, 0xf1, 0, 0, 0, 0, 0, 0, 0, 0, 0, 0, 0, 0, 0, 0,
];

// ---- files

static MADE: [Turn; 16] = [
    Done(Create(T0, 1000)),
    Seen(Reads(0, 0, &FIRST_SLOT)),
    Seen(Zeros(0, 31, 33)),
    Seen(Reads(1, 0, FIRST_UNIT)),
    Seen(Zeros(1, 31, 16353)),
    Seen(Row(1, 16384, b"\x01", KM, 16384)),
    Seen(Row(1, 2 * 16384, b"\x01", HISTORY, 16384)),
    Seen(Row(1, 3 * 16384, b"\x01", KRBTGT, 16384)),
    Seen(Length(1, 4 * 16384)),
    Seen(Reads(3, 0, &MARKER)),
    Seen(Zeros(3, 22, 2026)),
    Seen(Length(3, 2048)),
    Seen(Reads(5, 0, STASH)),
    Seen(Length(5, 11)),
    Seen(Length(2, 0)),
    Seen(Length(4, 0)),
];

/// A second after the first creation.
const LATER: At = (1_700_000_001, 0);

static ENDED: [Turn; 15] = [
    Seen(Length(6, 0)),
    Refused(Open, Refusal::NotADatabase),
    Stopped(Create(T0, 1000), Open),
    Stopped(Commit(T0, Put(ALICE)), Open),
    Seen(Holds((1, T0), (2, T0))),
    Refused(Create(T0, 1000), Refusal::AlreadyThere),
    Seen(Has(b"alice@EXAMPLE.ORG")),
    Stopped(Destroy, Open),
    Refused(Open, Refusal::NotADatabase),
    Refused(Destroy, Refusal::NotADatabase),
    Stopped(Create(LATER, 1000), Open),
    Seen(Holds((1, LATER), (1, LATER))),
    Seen(Lacks(b"alice@EXAMPLE.ORG")),
    Seen(Has(b"K/M@EXAMPLE.ORG")),
    Refused(Create(LATER, 1000), Refusal::AlreadyThere),
];

#[test]
fn a_database_is_made_changed_and_ended(rt: HostRuntime) -> Result<(), Fail> {
    play(&rt, rt.alloc(), &MADE)?;
    play(&rt, rt.alloc(), &ENDED)
}
