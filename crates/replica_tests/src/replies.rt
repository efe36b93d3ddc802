//! Replies that are taken once, and replies that are refused.

use crate::given::{
    AMY, BOB, EVE, FALLING, FIRST, FOUR, MOVED, NOTHING, OLD_TWO, SECS, SKIPPED, TWO, UPDATES,
};
use crate::steps::{Answer, At, Step, Turn, play};
use replica_core::Taken4;
use std::test::*;

const AT_0: At = (0, 0, 0);

const AT_2: At = (2, SECS, 0);

const AT_3: At = (3, SECS, 0);

const AT_4: At = (4, SECS, 0);

const TWO_LOADED: Turn = Turn {
    step: Step::Load(TWO),
    answer: Answer::Loaded(AT_2),
    calls_disk: true,
    point: AT_2,
    names: &[AMY, BOB],
};

const UPDATED: Turn = Turn {
    step: Step::Take(UPDATES),
    answer: Answer::Taken(Taken4::Updated(2)),
    calls_disk: true,
    point: AT_4,
    names: &[AMY, EVE],
};

// The same reply again answers another point than the replica then has.
const ONCE: [Turn; 5] = [
    TWO_LOADED,
    UPDATED,
    Turn {
        step: Step::Take(UPDATES),
        answer: Answer::WrongPoint(AT_2, AT_4),
        calls_disk: false,
        point: AT_4,
        names: &[AMY, EVE],
    },
    TWO_LOADED,
    Turn {
        step: Step::TakeTwice(UPDATES),
        answer: Answer::WrongPoint(AT_2, AT_4),
        calls_disk: true,
        point: AT_4,
        names: &[AMY, EVE],
    },
];

#[test]
fn updates_are_taken_once(rt: HostRuntime) -> Result<(), Fail> {
    play(&rt, rt.alloc(), &ONCE)
}

// So it does behind a dump that was loaded meanwhile, of the point to which it leads.
const LOADED: [Turn; 3] = [
    TWO_LOADED,
    Turn {
        step: Step::LoadAndTake(FOUR, UPDATES),
        answer: Answer::WrongPoint(AT_2, AT_4),
        calls_disk: true,
        point: AT_4,
        names: &[BOB],
    },
    Turn {
        step: Step::Take(UPDATES),
        answer: Answer::WrongPoint(AT_2, AT_4),
        calls_disk: false,
        point: AT_4,
        names: &[BOB],
    },
];

#[test]
fn updates_are_behind_a_load(rt: HostRuntime) -> Result<(), Fail> {
    play(&rt, rt.alloc(), &LOADED)
}

// What a dump of the first version has is followed as what another one has.
const OLD: [Turn; 3] = [
    Turn {
        step: Step::Load(OLD_TWO),
        answer: Answer::Loaded(AT_2),
        calls_disk: true,
        point: AT_2,
        names: &[AMY, BOB],
    },
    UPDATED,
    Turn {
        step: Step::LoadAndTake(OLD_TWO, UPDATES),
        answer: Answer::Taken(Taken4::Updated(2)),
        calls_disk: true,
        point: AT_4,
        names: &[AMY, EVE],
    },
];

#[test]
fn updates_follow_a_dump_of_the_first_version(rt: HostRuntime) -> Result<(), Fail> {
    play(&rt, rt.alloc(), &OLD)
}

// No serial comes behind no database, and no reply comes to a call of the disk.
const NONE: [Turn; 3] = [
    Turn {
        step: Step::Take(NOTHING),
        answer: Answer::Taken(Taken4::Nil),
        calls_disk: false,
        point: AT_0,
        names: &[],
    },
    Turn {
        step: Step::Take(FIRST),
        answer: Answer::Gap(0, (1, SECS, 0)),
        calls_disk: false,
        point: AT_0,
        names: &[],
    },
    Turn {
        step: Step::Take(UPDATES),
        answer: Answer::WrongPoint(AT_2, AT_0),
        calls_disk: false,
        point: AT_0,
        names: &[],
    },
];

#[test]
fn no_serial_comes_behind_no_database(rt: HostRuntime) -> Result<(), Fail> {
    play(&rt, rt.alloc(), &NONE)
}

// A reply is refused as a whole where its updates do not run on. Where one may not be made, those before it are.
const GAPS: [Turn; 4] = [
    TWO_LOADED,
    Turn {
        step: Step::Take(SKIPPED),
        answer: Answer::Gap(3, AT_4),
        calls_disk: false,
        point: AT_2,
        names: &[AMY, BOB],
    },
    Turn {
        step: Step::Take(FALLING),
        answer: Answer::Gap(4, (4, SECS - 1, 0)),
        calls_disk: false,
        point: AT_2,
        names: &[AMY, BOB],
    },
    Turn {
        step: Step::Take(MOVED),
        answer: Answer::Gap(4, AT_4),
        calls_disk: true,
        point: AT_3,
        names: &[AMY, BOB, EVE],
    },
];

#[test]
fn updates_that_do_not_follow_are_refused(rt: HostRuntime) -> Result<(), Fail> {
    play(&rt, rt.alloc(), &GAPS)
}
