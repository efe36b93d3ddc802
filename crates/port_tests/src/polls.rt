//! Polls of a small log.

use iprop_reply::{Status4, sno_status};
use kdb_base::{Point, Time};

const SECS: u32 = 1_700_000_000;

fn at(sno: u32, secs: u32) -> Point {
    Point {
        sno,
        time: Time::new(secs, 0),
    }
}

/// The time of the entry with a serial, in a log that holds 1 to 4, all of one second.
fn time_of(sno: u32) -> Option<Time> {
    if 1 <= sno && sno <= 4 {
        Some(Time::new(SECS, 0))
    } else {
        None
    }
}

/// What a poll of that log comes to.
fn status(asked: Point) -> Status4 {
    let held = (at(1, SECS), at(4, SECS));
    sno_status(held, time_of(asked.sno), asked)
}

#[test]
fn polls_of_four_entries(rt: HostRuntime) {
    let cases: [(Point, Status4); 7] = [
        (at(4, SECS), Status4::Nil),
        (at(4, SECS + 1), Status4::Resync),
        (at(0, 0), Status4::Resync),
        (at(5, SECS), Status4::Resync),
        (at(2, SECS + 1), Status4::Resync),
        (at(2, SECS), Status4::Ok),
        (at(1, SECS), Status4::Ok),
    ];
    for (asked, wanted) in &cases {
        assert!(rt; status(*asked) == *wanted);
    }
}
