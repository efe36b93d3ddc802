//! What polls of a log are answered: one of four entries, one that has lost its oldest, and logs
//! that were begun anew.

ghost use Rattle.std.specs.Prelude.{◌≡◌, ◌≤◌, IfOk, OnOk};

use crate::filled_logs::{SECS, append, at, begun, begun_at, printed};
use kdb_base::{Point, Time};
use primary_answers::reply_to;
use princ_rows::{Op, PollReply, ReplyCode};
use std::alloc::Global;
use std::process::Abort;
use std::test::Fail;
use update_log::Log;

/// Puts a change that drops this principal behind those that the log holds.
fn append_drop(alloc: Global, log: &mut Log, name: &[u8]) -> Result<(), Fail>
    requires { log.old.block ≡ 2048 }
    ensures { OnOk result (log.new.block ≡ 2048) }
{
    append(alloc, log, Op::DropPrinc(printed(alloc, name)?))
}

fn append_three(alloc: Global, log: &mut Log) -> Result<(), Fail>
    requires { log.old.block ≡ 2048 }
    ensures { OnOk result (log.new.block ≡ 2048) }
{
    append_drop(alloc, log, b"a@EXAMPLE.ORG")?;
    append_drop(alloc, log, b"b@EXAMPLE.ORG")?;
    append_drop(alloc, log, b"c@EXAMPLE.ORG")
}

/// A log that holds so many entries, of a base marker and three changes, all of one second: those of serials 2, 3 and 4
/// drop a, b and c.
fn filled(alloc: Global, size: u32) -> Result<Log, Fail>
    requires size { (2 ≤ size) × (size ≤ 10000) }
    ensures block { IfOk result (λ log. log.block ≡ 2048) }
{
    let mut log = begun(alloc, 1, size)?;
    match append_three(alloc, &mut log) {
        Ok(()) => Ok(log),
        Err(fail) => {
            drop(log);
            Err(fail)
        }
    }
}

/// A log that holds two entries, behind four changes: those of serials 4 and 5, which drop c and d.
fn overfull(alloc: Global) -> Result<Log, Fail> {
    let mut log = filled(alloc, 2)?;
    match append_drop(alloc, &mut log, b"d@EXAMPLE.ORG") {
        Ok(()) => Ok(log),
        Err(fail) => {
            drop(log);
            Err(fail)
        }
    }
}

/// Whether the reply tells of the entries that drop these names, in their order, the first of this serial.
fn tells(reply: &PollReply, first: u32, names: &[&[u8]]) -> bool {
    let updates = reply.updates();
    if updates.len() != names.len() {
        return false;
    }
    let mut sno = first;
    for (entry, name) in updates.iter().zip(names) {
        let dropped = match &entry.op {
            Some(Op::DropPrinc(dropped)) => dropped.as_slice() == *name,
            _ => false,
        };
        if !dropped || entry.point != at(sno, SECS) {
            return false;
        }
        sno = sno.saturating_add(1);
    }
    true
}

/// A poll, whether as many dumps as may be are under way, the code of the reply, and the names that its entries drop.
type Poll = (Point, bool, ReplyCode, &'static [&'static [u8]]);

/// Asks the log, and compares the reply.
fn check_poll(rt: &impl Abort, alloc: Global, log: &Log, poll: &Poll) -> Result<(), Fail> {
    let (asked, busy, code, names) = poll;
    let reply = reply_to(alloc, log, *busy, asked)?;
    assert_eq!(rt; reply.code(), *code);
    assert_eq!(rt; reply.asked(), *asked);
    assert!(rt; tells(&reply, asked.sno.saturating_add(1), names));
    Ok(())
}

fn check_polls(rt: &impl Abort, alloc: Global, log: &Log, polls: &[Poll]) -> Result<(), Fail> {
    for poll in polls {
        check_poll(rt, alloc, log, poll)?;
    }
    Ok(())
}

#[test]
fn polls_of_four_entries(rt: HostRuntime) -> Result<(), Fail> {
    let log = filled(rt.alloc(), 10)?;
    let polls: [Poll; 8] = [
        (
            at(2, SECS),
            false,
            ReplyCode::UpdateOk,
            &[b"b@EXAMPLE.ORG", b"c@EXAMPLE.ORG"],
        ),
        (
            at(2, SECS),
            true,
            ReplyCode::UpdateOk,
            &[b"b@EXAMPLE.ORG", b"c@EXAMPLE.ORG"],
        ),
        (at(4, SECS), false, ReplyCode::Nil, &[]),
        (at(4, SECS + 1), false, ReplyCode::FullResyncNeeded, &[]),
        (at(0, 0), false, ReplyCode::FullResyncNeeded, &[]),
        (at(0, 0), true, ReplyCode::Busy, &[]),
        (at(5, SECS), false, ReplyCode::FullResyncNeeded, &[]),
        (at(2, SECS + 1), false, ReplyCode::FullResyncNeeded, &[]),
    ];
    let checked = check_polls(&rt, rt.alloc(), &log, &polls);
    drop(log);
    checked
}

#[test]
fn polls_of_entries_that_are_no_longer_held(rt: HostRuntime) -> Result<(), Fail> {
    let log = overfull(rt.alloc())?;
    let polls: [Poll; 4] = [
        (at(5, SECS), false, ReplyCode::Nil, &[]),
        (at(4, SECS), false, ReplyCode::UpdateOk, &[b"d@EXAMPLE.ORG"]),
        (at(3, SECS), false, ReplyCode::FullResyncNeeded, &[]),
        (at(2, SECS), false, ReplyCode::FullResyncNeeded, &[]),
    ];
    let checked = check_polls(&rt, rt.alloc(), &log, &polls);
    drop(log);
    checked
}

/// The point of this serial a microsecond behind the second.
fn just_behind(sno: u32) -> Point {
    Point {
        sno,
        time: Time::new(SECS, 1),
    }
}

/// A log that was begun anew in the second of what it held before: a base marker and one change,
/// both a microsecond later.
fn renewed(alloc: Global) -> Result<Log, Fail> {
    let mut log = begun_at(alloc, just_behind(1), 1000)?;
    match append_drop(alloc, &mut log, b"bob@EXAMPLE.ORG") {
        Ok(()) => Ok(log),
        Err(fail) => {
            drop(log);
            Err(fail)
        }
    }
}

// What stood at serials 2 and 16 before is gone, though the log has a serial 2 again.
#[test]
fn polls_of_points_before_the_log_was_begun_anew(rt: HostRuntime) -> Result<(), Fail> {
    let log = renewed(rt.alloc())?;
    let polls: [Poll; 3] = [
        (at(16, SECS), false, ReplyCode::FullResyncNeeded, &[]),
        (at(2, SECS), false, ReplyCode::FullResyncNeeded, &[]),
        (just_behind(2), false, ReplyCode::Nil, &[]),
    ];
    let checked = check_polls(&rt, rt.alloc(), &log, &polls);
    drop(log);
    checked
}

// The base marker of the database that was there before had the same serial, a second earlier.
#[test]
fn polls_of_another_database_made_later(rt: HostRuntime) -> Result<(), Fail> {
    let log = begun_at(rt.alloc(), at(1, SECS + 1), 1000)?;
    let polls: [Poll; 2] = [
        (at(1, SECS), false, ReplyCode::FullResyncNeeded, &[]),
        (at(1, SECS + 1), false, ReplyCode::Nil, &[]),
    ];
    let checked = check_polls(&rt, rt.alloc(), &log, &polls);
    drop(log);
    checked
}
