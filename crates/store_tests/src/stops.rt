//! Changes stopped inside of each of their device calls: each image of each such moment stands for the place
//! before or for one that the change makes.

use crate::looks::Look::{Reads, Stash};
use crate::records::Change::{Drop, DropPolicy, Put, PutPolicy, Rename};
use crate::records::{A, B, BOB, CAROL, D, DAVE, KEYED_A, KEYED_B, POLICY, ZOE};
use crate::scripts::Turn::{Counted, Done, Seen, Stopped};
use crate::scripts::{Turn, play};
use crate::steps::Step::{Commit, Create, Destroy, Open, PutStash, Reset, ResetAndCommit};
use crate::steps::{T0, T1, T2};
use std::test::Fail;

static CHANGED: [Turn; 7] = [
    Done(Create(T0, 2)),
    Done(Commit(T0, Put(A))),
    Done(Commit(T0, Put(B))),
    Stopped(Open, Open),
    Stopped(Commit(T0, Put(KEYED_A)), Open),
    Stopped(Commit(T0, Rename(b"a@EXAMPLE.ORG", D)), Open),
    Stopped(Commit(T0, Drop(b"b@EXAMPLE.ORG")), Open),
];

#[test]
fn changes_of_records_are_stopped(rt: HostRuntime) -> Result<(), Fail> {
    play(&rt, rt.alloc(), &CHANGED)
}

static ADDED: [Turn; 4] = [
    Done(Create(T0, 2)),
    Stopped(Commit(T0, PutPolicy(POLICY)), Open),
    Stopped(Commit(T0, DropPolicy(b"std")), Open),
    Stopped(Commit(T0, Put(BOB)), Open),
];

static BEGUN_ANEW: [Turn; 5] = [
    Stopped(Create(T0, 2), Open),
    Done(Commit(T0, Put(A))),
    Stopped(Reset(T1, 2, 4096), Open),
    Done(Commit(T1, Put(B))),
    // the second step begins the log anew without the change
    Stopped(ResetAndCommit(T2, 8192, Put(KEYED_B)), Reset(T2, 2, 8192)),
];

#[test]
fn policies_and_logs_begun_anew_are_stopped(rt: HostRuntime) -> Result<(), Fail> {
    play(&rt, rt.alloc(), &ADDED)?;
    play(&rt, rt.alloc(), &BEGUN_ANEW)
}

static SWITCHED: [Turn; 7] = [
    Done(Create(T0, 2)),
    Done(Commit(T0, Put(B))),
    Seen(Stash(Some(b"first stash"))),
    Stopped(PutStash(b"second stash"), Open),
    Seen(Stash(Some(b"second stash"))),
    Seen(Reads(6, 0, b"second stash")),
    Stopped(Destroy, Open),
];

#[test]
fn another_stash_and_an_end_are_stopped(rt: HostRuntime) -> Result<(), Fail> {
    play(&rt, rt.alloc(), &SWITCHED)
}

// ---- calls of the disk

/// A gate closed, an entry and the gate opened are written into the log, and the unit is: each is synced. The
/// log's length is asked once.
static IN_NEW_SLOTS: [Turn; 6] = [
    Done(Create(T0, 1000)),
    Counted(Commit(T0, Put(BOB)), 9),
    Counted(Commit(T0, Drop(b"bob@EXAMPLE.ORG")), 9),
    Counted(Commit(T0, Put(CAROL)), 9),
    Counted(Commit(T0, Put(DAVE)), 9),
    Counted(Commit(T0, Rename(b"carol@EXAMPLE.ORG", ZOE)), 9),
];

/// The slot's gate is read too, where the log's slots were all used before.
static IN_USED_SLOTS: [Turn; 9] = [
    Done(Create(T0, 2)),
    Done(Commit(T0, Put(A))),
    Done(Commit(T0, Put(B))),
    Counted(Commit(T0, Put(BOB)), 10),
    Counted(Commit(T0, Put(KEYED_A)), 10),
    Counted(Commit(T0, Rename(b"a@EXAMPLE.ORG", D)), 10),
    Counted(Commit(T0, Drop(b"b@EXAMPLE.ORG")), 10),
    Counted(Commit(T0, PutPolicy(POLICY)), 10),
    Counted(Commit(T0, DropPolicy(b"std")), 10),
];

#[test]
fn a_change_makes_four_writes_and_four_syncs(rt: HostRuntime) -> Result<(), Fail> {
    play(&rt, rt.alloc(), &IN_NEW_SLOTS)?;
    play(&rt, rt.alloc(), &IN_USED_SLOTS)
}
