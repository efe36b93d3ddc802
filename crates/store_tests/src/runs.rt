//! Whole runs, whose changes are stopped inside of each of their device calls. Where the log is begun anew for a
//! change, the place between the two is the third that may be left.

use crate::formats::{MAKE_FIRST, WITH_HISTORY, WITH_KM, WITH_KRBTGT};
use crate::looks::Look::{
    Entry, EntryLength, Format, Has, HasPolicy, Holds, Lacks, LacksPolicy, Length, NoEntry, Reads,
    Row, RowLength, Stash, StaysSame, TooLong, Zeros,
};
use crate::records::Change::{Drop, DropPolicy, Keep, Put, PutPolicy, Rename};
use crate::records::{
    A, B, BOB, C, CAROL, D, DAVE, HISTORY, KEYED_A, KEYED_B, KM, KRBTGT, POLICY, Record, ZOE,
};
use crate::scripts::Turn::{Done, Seen, Stopped};
use crate::scripts::{Turn, play};
use crate::steps::Step::{Commit, Create, Migrate, Open, Replace, Reset, ResetAndCommit};
use crate::steps::{At, T0, T1, T2};
use std::test::Fail;

/// 200 letters n, and the realm.
const LONG: &[u8] =
    b"nnnnnnnnnnnnnnnnnnnnnnnnnnnnnnnnnnnnnnnnnnnnnnnnnnnnnnnnnnnnnnnnnnnnnnnnnnnnnnnnnnnnnnnnnnnnnnnnnnnnnnnnnnnnnnnnnnnnnnnnnnnnnnnnnnnnnnnnnnnnnnnnnnnnnnnnnnnnnnnnnnnnnnnnnnnnnnnnnnnnnnnnnnnnnnnnnnnnnnnn@EXAMPLE.ORG";

/// The salt of that name: the realm, and the letters.
const LONG_SALT: &[u8] =
    b"EXAMPLE.ORGnnnnnnnnnnnnnnnnnnnnnnnnnnnnnnnnnnnnnnnnnnnnnnnnnnnnnnnnnnnnnnnnnnnnnnnnnnnnnnnnnnnnnnnnnnnnnnnnnnnnnnnnnnnnnnnnnnnnnnnnnnnnnnnnnnnnnnnnnnnnnnnnnnnnnnnnnnnnnnnnnnnnnnnnnnnnnnnnnnnnnnnnnnnnnnnnnnnnnnnn";

// ---- the log

static LOGGED: [Turn; 21] = [
    Done(Create(T0, 2)),
    Stopped(Commit(T0, Put(A)), Open),
    Stopped(Commit(T0, Put(B)), Open),
    Stopped(Commit(T0, Put(C)), Open),
    Stopped(Commit(T0, Put(D)), Open),
    Seen(Holds((4, T0), (5, T0))),
    Seen(Format(2, 2, 2048)),
    Seen(Entry(4, 1, b"c@EXAMPLE.ORG")),
    Seen(Entry(5, 1, b"d@EXAMPLE.ORG")),
    Seen(NoEntry(3)),
    Seen(NoEntry(6)),
    // one slot more than entries
    Seen(Length(3, 3 * 2048)),
    // new keys
    Stopped(Commit(T0, Put(KEYED_A)), Open),
    Seen(Holds((5, T0), (6, T0))),
    Seen(Entry(5, 1, b"d@EXAMPLE.ORG")),
    Seen(Entry(6, 1, b"a@EXAMPLE.ORG")),
    Seen(NoEntry(4)),
    Seen(Has(b"b@EXAMPLE.ORG")),
    Seen(Has(b"c@EXAMPLE.ORG")),
    Seen(Row(1, 4 * 16384, b"\x01", KEYED_A, 16384)),
    Seen(Length(3, 3 * 2048)),
];

/// The last time that there is.
const END: At = (u32::MAX, 999_999);

static LATEST: [Turn; 5] = [
    Stopped(Create(END, 1000), Open),
    Seen(Holds((1, END), (1, END))),
    Stopped(Commit(END, Put(BOB)), Open),
    Seen(Holds((1, END), (2, END))),
    Seen(Entry(2, 1, b"bob@EXAMPLE.ORG")),
];

#[test]
fn a_log_holds_its_last_entries(rt: HostRuntime) -> Result<(), Fail> {
    play(&rt, rt.alloc(), &LOGGED)?;
    play(&rt, rt.alloc(), &LATEST)
}

// ---- units

static UNITS: [Turn; 31] = [
    Done(Create(T0, 1000)),
    Seen(Row(1, 16384, b"\x01", KM, 16384)),
    Seen(Row(1, 2 * 16384, b"\x01", HISTORY, 16384)),
    Seen(Row(1, 3 * 16384, b"\x01", KRBTGT, 16384)),
    Seen(Length(1, 65536)),
    Stopped(Commit(T0, Put(BOB)), Open),
    Seen(Row(1, 4 * 16384, b"\x01", BOB, 16384)),
    Seen(Length(1, 81920)),
    Stopped(Commit(T0, Drop(b"bob@EXAMPLE.ORG")), Open),
    Seen(Zeros(1, 4 * 16384, 16384)),
    Seen(Length(1, 81920)),
    Stopped(Commit(T0, Put(CAROL)), Open),
    Seen(Row(1, 4 * 16384, b"\x01", CAROL, 16384)),
    Seen(Length(1, 81920)),
    Stopped(Commit(T0, Put(DAVE)), Open),
    Seen(Row(1, 5 * 16384, b"\x01", DAVE, 16384)),
    Seen(Length(1, 98304)),
    Stopped(Commit(T0, Rename(b"carol@EXAMPLE.ORG", ZOE)), Open),
    Seen(Row(1, 4 * 16384, b"\x01", ZOE, 16384)),
    Seen(Row(1, 5 * 16384, b"\x01", DAVE, 16384)),
    Seen(Length(1, 98304)),
    Seen(Lacks(b"carol@EXAMPLE.ORG")),
    Seen(Has(b"zoe@EXAMPLE.ORG")),
    Stopped(Commit(T0, PutPolicy(POLICY)), Open),
    // its state, and the row's length
    Seen(Reads(
        1,
        6 * 16384,
        b"\x02\0\x13\0\x03std\0\0\0\0\0\0\0\0\0\x08\0\x03\0\x02",
    )),
    Seen(Zeros(1, 6 * 16384 + 22, 16384 - 22)),
    Seen(HasPolicy(b"std")),
    Stopped(Commit(T0, DropPolicy(b"std")), Open),
    Seen(Zeros(1, 6 * 16384, 16384)),
    Seen(LacksPolicy(b"std")),
    Seen(Holds((1, T0), (8, T0))),
];

#[test]
fn units_are_given_and_freed(rt: HostRuntime) -> Result<(), Fail> {
    play(&rt, rt.alloc(), &UNITS)
}

// ---- logs begun anew

const SVC: Record = Record {
    name: b"svc@EXAMPLE.ORG",
    ..KEYED_A
};

static LONGER: [Turn; 27] = [
    Done(Create(T0, 1000)),
    Stopped(Commit(T0, Keep(SVC, 1)), Open),
    Stopped(Commit(T0, Keep(SVC, 2)), Open),
    Stopped(Commit(T0, Keep(SVC, 3)), Open),
    Stopped(Commit(T0, Keep(SVC, 4)), Open),
    Stopped(Commit(T0, Keep(SVC, 5)), Open),
    Stopped(Commit(T0, Keep(SVC, 6)), Open),
    Stopped(Commit(T0, Keep(SVC, 7)), Open),
    Stopped(Commit(T0, Keep(SVC, 8)), Open),
    Stopped(Commit(T0, Keep(SVC, 9)), Open),
    Stopped(Commit(T0, Keep(SVC, 10)), Open),
    Stopped(Commit(T0, Keep(SVC, 11)), Open),
    Stopped(Commit(T0, Keep(SVC, 12)), Open),
    Stopped(Commit(T0, Keep(SVC, 13)), Open),
    Stopped(Commit(T0, Keep(SVC, 14)), Open),
    Stopped(Commit(T0, Keep(SVC, 15)), Open),
    Seen(EntryLength(Keep(SVC, 15), 2047)),
    Seen(Holds((1, T0), (16, T0))),
    Seen(Format(2, 1000, 2048)),
    Seen(EntryLength(Keep(SVC, 16), 2175)),
    Seen(TooLong(Keep(SVC, 16))),
    Stopped(
        ResetAndCommit(T1, 4096, Keep(SVC, 16)),
        Reset(T1, 1000, 4096),
    ),
    Seen(Holds((1, T1), (2, T1))),
    Seen(Format(2, 1000, 4096)),
    Seen(NoEntry(16)),
    Seen(Row(1, 4 * 16384, b"\x01", SVC16, 16384)),
    Seen(Length(1, 5 * 16384)),
];

const SVC16: Record = Record {
    versions: 16,
    ..SVC
};

#[test]
fn a_log_is_begun_anew_for_a_longer_entry(rt: HostRuntime) -> Result<(), Fail> {
    play(&rt, rt.alloc(), &LONGER)
}

const LONG_RECORD: Record = Record {
    name: LONG,
    ..KEYED_B
};

/// The record of the long name under a short one: its keys keep the salt of the long name.
const SHORTENED: Record = Record {
    salt: LONG_SALT,
    ..KEYED_B
};

static RENAMED: [Turn; 11] = [
    Done(Create(T0, 1000)),
    Stopped(
        ResetAndCommit(T1, 4096, Put(LONG_RECORD)),
        Reset(T1, 1000, 4096),
    ),
    Seen(RowLength(SHORTENED, 8889)),
    Seen(EntryLength(Rename(LONG, SHORTENED), 9122)),
    Seen(TooLong(Rename(LONG, SHORTENED))),
    Stopped(
        ResetAndCommit(T2, 10240, Rename(LONG, SHORTENED)),
        Reset(T2, 1000, 10240),
    ),
    Seen(Holds((1, T2), (2, T2))),
    Seen(Format(2, 1000, 10240)),
    Seen(Row(1, 4 * 16384, b"\x01", SHORTENED, 16384)),
    Seen(Length(1, 5 * 16384)),
    Seen(Lacks(LONG)),
];

/// With the block that it has, and with a shorter one and fewer entries.
static BEGUN_ANEW: [Turn; 11] = [
    Done(Create(T0, 1000)),
    Done(Commit(T0, Put(A))),
    Stopped(Reset(T1, 1000, 2048), Open),
    Seen(Holds((1, T1), (1, T1))),
    Seen(Format(2, 1000, 2048)),
    Seen(NoEntry(2)),
    Done(ResetAndCommit(T1, 4096, Put(SVC16))),
    Stopped(Reset(T2, 2, 2048), Open),
    Seen(Holds((1, T2), (1, T2))),
    Seen(Format(2, 2, 2048)),
    Seen(Has(b"svc@EXAMPLE.ORG")),
];

#[test]
fn a_log_is_begun_anew(rt: HostRuntime) -> Result<(), Fail> {
    play(&rt, rt.alloc(), &RENAMED)?;
    play(&rt, rt.alloc(), &BEGUN_ANEW)
}

// ---- files of format 1

static WRITTEN_ANEW: [Turn; 20] = [
    Done(MAKE_FIRST),
    Done(WITH_KM),
    Done(WITH_HISTORY),
    Done(WITH_KRBTGT),
    Seen(Format(1, 2, 2048)),
    Seen(Holds((2, T0), (2, T0))),
    Seen(Length(1, 4 * 8192)),
    Seen(Stash(None)),
    Seen(StaysSame),
    Stopped(Migrate(T1, 2), Open),
    Seen(Format(2, 2, 2048)),
    Seen(Holds((1, T1), (1, T1))),
    Stopped(Commit(T1, Put(BOB)), Open),
    Seen(Holds((1, T1), (2, T1))),
    Seen(Row(2, 16384, b"\x01", KM, 16384)),
    Seen(Row(2, 2 * 16384, b"\x01", HISTORY, 16384)),
    Seen(Row(2, 3 * 16384, b"\x01", KRBTGT, 16384)),
    Seen(Row(2, 4 * 16384, b"\x01", BOB, 16384)),
    Seen(Length(2, 81920)),
    // the second slot: an open gate, KDBP, format 2, the second turn, and files 2 and 4
    Seen(Reads(0, 64, b"\xa5KDBP\0\x02\x01\x02\x04\0\0\0\0\x02")),
];

/// With a log of another size at once, and begun anew once more behind that.
static RESIZED: [Turn; 10] = [
    Done(MAKE_FIRST),
    Done(WITH_KM),
    Done(WITH_HISTORY),
    Done(WITH_KRBTGT),
    Stopped(Migrate(T1, 5), Open),
    Seen(Format(2, 5, 2048)),
    Seen(Holds((1, T1), (1, T1))),
    Stopped(Reset(T2, 5, 2048), Open),
    Seen(Format(2, 5, 2048)),
    Seen(Holds((1, T2), (1, T2))),
];

#[test]
fn files_of_format_1_are_written_anew(rt: HostRuntime) -> Result<(), Fail> {
    play(&rt, rt.alloc(), &WRITTEN_ANEW)?;
    play(&rt, rt.alloc(), &RESIZED)
}

// ---- loads

/// Into files that were not used yet, and back into the first ones, which have more units than it wants.
static LOADED: [Turn; 14] = [
    Done(Create(T0, 2)),
    Done(Commit(T0, Put(B))),
    Stopped(Replace(T1, A), Open),
    Seen(Holds((1, T1), (1, T1))),
    Seen(Row(2, 16384, b"\x01", A, 16384)),
    Seen(Length(2, 2 * 16384)),
    Seen(Lacks(b"K/M@EXAMPLE.ORG")),
    Done(Commit(T1, Put(B))),
    Stopped(Replace(T2, D), Open),
    Seen(Holds((1, T2), (1, T2))),
    Seen(Row(1, 16384, b"\x01", D, 16384)),
    Seen(Length(1, 2 * 16384)),
    Seen(Lacks(b"a@EXAMPLE.ORG")),
    Seen(Stash(Some(b"first stash"))),
];

/// Over files of format 1, and behind their being written anew.
static LOADED_OVER: [Turn; 11] = [
    Done(MAKE_FIRST),
    Done(WITH_KM),
    Done(WITH_HISTORY),
    Done(WITH_KRBTGT),
    Stopped(Replace(T1, A), Open),
    Seen(Format(2, 2, 2048)),
    Seen(Holds((1, T1), (1, T1))),
    Seen(Row(2, 16384, b"\x01", A, 16384)),
    Stopped(Replace(T2, B), Open),
    Seen(Holds((1, T2), (1, T2))),
    Seen(Lacks(b"a@EXAMPLE.ORG")),
];

#[test]
fn rows_are_loaded(rt: HostRuntime) -> Result<(), Fail> {
    play(&rt, rt.alloc(), &LOADED)?;
    play(&rt, rt.alloc(), &LOADED_OVER)
}
