//! Replies that change nothing: refusals of the primary, and updates that do not run on.

use crate::given::{AMY, BOB, NEAR_LAST, SECS, TWO};
use crate::spelled::Reply;
use crate::spelled::Reply::{Busy, Denied, Updates};
use crate::spelled::Update::Drops;
use crate::steps::{Answer, At, Step, Turn, check_turn, play};
use kdb_base::Fails;
use kdb_disk::MemoryDisk;
use replica_core::Taken4;
use std::alloc::Global;
use std::process::Abort;
use std::test::*;

/// Replies to one replica, none of which changes it or its disk, and what they are answered.
#[derive(Clone, Copy)]
struct Cases {
    /// The dump that the replica has loaded, if any, and where it stands with that.
    dump: Option<&'static [u8]>,
    point: At,
    names: &'static [&'static [u8]],
    replies: &'static [(Reply, Answer)],
}

const AT_0: At = (0, 0, 0);

const AT_2: At = (2, SECS, 0);

const AT_3: At = (3, SECS, 0);

const AT_4: At = (4, SECS, 0);

const AT_5: At = (5, SECS, 0);

const AT_6: At = (6, SECS, 0);

// ---- what is checked

fn load(rt: &impl Abort, alloc: Global, disk: &mut MemoryDisk, cases: &Cases) -> Result<(), Fail> {
    let Some(dump) = cases.dump else {
        return Ok(());
    };
    let turn = Turn {
        step: Step::Load(dump),
        answer: Answer::Loaded(cases.point),
        calls_disk: true,
        point: cases.point,
        names: cases.names,
    };
    check_turn(rt, alloc, disk, &turn, 0)
}

fn check_reply(
    rt: &impl Abort,
    alloc: Global,
    disk: &mut MemoryDisk,
    cases: &Cases,
    reply: &(Reply, Answer),
    number: u32,
) -> Result<(), Fail> {
    let turn = Turn {
        step: Step::Answer(reply.0),
        answer: reply.1,
        calls_disk: false,
        point: cases.point,
        names: cases.names,
    };
    check_turn(rt, alloc, disk, &turn, number)
}

fn check_replies(
    rt: &impl Abort,
    alloc: Global,
    disk: &mut MemoryDisk,
    cases: &Cases,
) -> Result<(), Fail> {
    let mut number = 1u32;
    for reply in cases.replies {
        check_reply(rt, alloc, disk, cases, reply, number)?;
        number = number.saturating_add(1);
    }
    Ok(())
}

fn check(rt: &impl Abort, alloc: Global, cases: &Cases) -> Result<(), Fail> {
    let mut disk = MemoryDisk::new(alloc, Fails::none(alloc))?;
    load(rt, alloc, &mut disk, cases)?;
    check_replies(rt, alloc, &mut disk, cases)
}

// ---- refusals of the primary

// They say nothing of a point: one that is not the replica's is not compared.
const REFUSED: &[(Reply, Answer)] = &[
    (Busy(AT_2), Answer::Taken(Taken4::Busy)),
    (Busy(AT_0), Answer::Taken(Taken4::Busy)),
    (Denied(AT_2), Answer::Taken(Taken4::Denied)),
    (Denied(AT_0), Answer::Taken(Taken4::Denied)),
];

const REFUSALS: [Cases; 2] = [
    Cases {
        dump: None,
        point: AT_0,
        names: &[],
        replies: REFUSED,
    },
    Cases {
        dump: Some(TWO),
        point: AT_2,
        names: &[AMY, BOB],
        replies: REFUSED,
    },
];

#[test]
fn a_refusal_of_the_primary_changes_nothing(rt: HostRuntime) -> Result<(), Fail> {
    for cases in &REFUSALS {
        check(&rt, rt.alloc(), cases)?;
    }
    Ok(())
}

// ---- updates that do not run on

// Wanted is the serial behind the last one that runs on, and found the point of the first update that does not.
const GAPS: Cases = Cases {
    dump: Some(TWO),
    point: AT_2,
    names: &[AMY, BOB],
    replies: &[
        (Updates(AT_2, &[Drops(AT_2)]), Answer::Gap(3, AT_2)),
        (Updates(AT_2, &[Drops(AT_4)]), Answer::Gap(3, AT_4)),
        (
            Updates(AT_2, &[Drops(AT_3), Drops(AT_3)]),
            Answer::Gap(4, AT_3),
        ),
        (
            Updates(AT_2, &[Drops(AT_3), Drops(AT_4), Drops(AT_6)]),
            Answer::Gap(5, AT_6),
        ),
        // the first of two
        (
            Updates(AT_2, &[Drops(AT_3), Drops(AT_5), Drops(AT_3)]),
            Answer::Gap(4, AT_5),
        ),
        // earlier than the replica's own time, and than that of the update before
        (
            Updates(AT_2, &[Drops((3, SECS - 1, 999_999))]),
            Answer::Gap(3, (3, SECS - 1, 999_999)),
        ),
        (
            Updates(AT_2, &[Drops((3, SECS, 1)), Drops(AT_4)]),
            Answer::Gap(4, AT_4),
        ),
        (
            Updates(
                AT_2,
                &[
                    Drops(AT_3),
                    Drops((4, SECS + 1, 0)),
                    Drops((5, SECS, 999_999)),
                ],
            ),
            Answer::Gap(5, (5, SECS, 999_999)),
        ),
    ],
};

#[test]
fn nothing_of_a_reply_with_a_gap_is_stored(rt: HostRuntime) -> Result<(), Fail> {
    check(&rt, rt.alloc(), &GAPS)
}

// Another serial, and another time of the same one.
const ELSEWHERE: Cases = Cases {
    dump: Some(TWO),
    point: AT_2,
    names: &[AMY, BOB],
    replies: &[
        (
            Updates(AT_3, &[Drops(AT_6)]),
            Answer::WrongPoint(AT_3, AT_2),
        ),
        (
            Updates((2, SECS, 1), &[Drops(AT_3), Drops(AT_6)]),
            Answer::WrongPoint((2, SECS, 1), AT_2),
        ),
        (
            Updates(AT_0, &[Drops(AT_6)]),
            Answer::WrongPoint(AT_0, AT_2),
        ),
    ],
};

#[test]
fn a_wrong_point_comes_before_a_gap(rt: HostRuntime) -> Result<(), Fail> {
    check(&rt, rt.alloc(), &ELSEWHERE)
}

const NO_DATABASE: Cases = Cases {
    dump: None,
    point: AT_0,
    names: &[],
    replies: &[
        (
            Updates(AT_0, &[Drops((0, SECS, 0))]),
            Answer::Gap(0, (0, SECS, 0)),
        ),
        (
            Updates(AT_0, &[Drops((1, 0, 0)), Drops(AT_2)]),
            Answer::Gap(0, (1, 0, 0)),
        ),
        (
            Updates(AT_2, &[Drops(AT_4)]),
            Answer::WrongPoint(AT_2, AT_0),
        ),
    ],
};

#[test]
fn no_update_runs_on_without_a_database(rt: HostRuntime) -> Result<(), Fail> {
    check(&rt, rt.alloc(), &NO_DATABASE)
}

const AT_NEAR_LAST: At = (4_294_967_294, SECS, 0);

const AT_LAST: At = (4_294_967_295, SECS, 0);

// The greatest serial is taken, and none runs on behind it, within a reply and behind one.
const LAST: [Turn; 5] = [
    Turn {
        step: Step::Load(NEAR_LAST),
        answer: Answer::Loaded(AT_NEAR_LAST),
        calls_disk: true,
        point: AT_NEAR_LAST,
        names: &[BOB],
    },
    Turn {
        step: Step::Answer(Updates(AT_NEAR_LAST, &[Drops(AT_LAST), Drops((0, SECS, 0))])),
        answer: Answer::Gap(0, (0, SECS, 0)),
        calls_disk: false,
        point: AT_NEAR_LAST,
        names: &[BOB],
    },
    Turn {
        step: Step::Answer(Updates(AT_NEAR_LAST, &[Drops(AT_LAST)])),
        answer: Answer::Taken(Taken4::Updated(1)),
        calls_disk: true,
        point: AT_LAST,
        names: &[],
    },
    Turn {
        step: Step::Answer(Updates(AT_LAST, &[Drops((0, SECS, 0))])),
        answer: Answer::Gap(0, (0, SECS, 0)),
        calls_disk: false,
        point: AT_LAST,
        names: &[],
    },
    Turn {
        step: Step::Answer(Updates(AT_LAST, &[Drops((1, SECS, 0))])),
        answer: Answer::Gap(0, (1, SECS, 0)),
        calls_disk: false,
        point: AT_LAST,
        names: &[],
    },
];

#[test]
fn no_update_runs_on_behind_the_greatest_serial(rt: HostRuntime) -> Result<(), Fail> {
    play(&rt, rt.alloc(), &LAST)
}
