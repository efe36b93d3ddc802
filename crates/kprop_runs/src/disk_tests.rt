//! Runs of a replica on a disk that has a database, that is damaged, or that fails.

use crate::run_replica;
use crate::tests::{DUMP, NIL, TWO, UPDATES, WORDS, link_of, resync, words_of};
use kdb_base::{Blob, Fails, Status};
use kdb_disk::{Disk, MemoryDisk, Pick};
use kdb_ports::{MemoryLink, MemorySink};
use std::alloc::Global;
use std::process::Abort;
use std::test::Fail;

/// What a replica without a database says on a connection: its name, a poll at no point, and an asking for a dump.
const ASKS: &[u8] = b"\x00\x00\x00\x18\x10replica/one@EXAMPLE.ORG\
\x00\x00\x00\x0d\x01\x00\x00\x00\x00\x00\x00\x00\x00\x00\x00\x00\x00\x00\x00\x00\x01\x02";

/// Its name, and a poll at serial 2 at 1700000000.
const POLLS_AT_2: &[u8] = b"\x00\x00\x00\x18\x10replica/one@EXAMPLE.ORG\
\x00\x00\x00\x0d\x01\x00\x00\x00\x02\x65\x53\xf1\x00\x00\x00\x00\x00";

/// Its name, and a poll at serial 4 at 1700000000.
const POLLS_AT_4: &[u8] = b"\x00\x00\x00\x18\x10replica/one@EXAMPLE.ORG\
\x00\x00\x00\x0d\x01\x00\x00\x00\x04\x65\x53\xf1\x00\x00\x00\x00\x00";

/// The words of a run of one round.
const ONE_ROUND: &str = "replica/one@EXAMPLE.ORG 1 1000";

/// The words of a run of none.
const NO_ROUND: &str = "replica/one@EXAMPLE.ORG 0 1000";

// ---- a run

fn empty_disk(alloc: Global) -> Result<MemoryDisk, Fail> {
    Ok(MemoryDisk::new(alloc, Fails::none(alloc))?)
}

/// A run on this disk: how it ended.
fn run_on(
    alloc: Global,
    disk: &mut MemoryDisk,
    line: &str,
    link: &mut MemoryLink,
    sink: &mut MemorySink,
) -> Result<Status, Fail> {
    let words = words_of(alloc, line)?;
    Ok(run_replica(alloc, &words, link, sink, disk))
}

/// The same, where what was written is compared.
fn check_on(
    rt: &impl Abort,
    alloc: Global,
    disk: &mut MemoryDisk,
    line: &str,
    link: &mut MemoryLink,
    status: Status,
    text: &[u8],
) -> Result<(), Fail> {
    let mut sink = MemorySink::new(alloc, Fails::none(alloc))?;
    let ended = run_on(alloc, disk, line, link, &mut sink)?;
    assert_eq!(rt; sink.written(), text);
    assert_eq!(rt; ended, status);
    Ok(())
}

/// A link of which one connection gives this.
fn link_giving(alloc: Global, given: &[u8]) -> Result<MemoryLink, Fail> {
    link_of(alloc, Blob::from_bytes(alloc, given)?, &[])
}

/// A run that loads the database at serial 2 onto a disk with nothing on it.
fn load(rt: &impl Abort, alloc: Global, disk: &mut MemoryDisk) -> Result<(), Fail> {
    let mut link = link_of(alloc, resync(alloc, TWO)?, &[])?;
    let text = b"- round 1 loaded 2 1700000000.000000\nok 2 1700000000.000000\n";
    check_on(rt, alloc, disk, ONE_ROUND, &mut link, Status::Done, text)?;
    assert_eq!(rt; link.sent(0), Some(ASKS));
    Ok(())
}

// ---- runs one after another

/// A run, what its first connection gives, what is sent there, how it ends, and what it writes.
#[derive(Clone, Copy)]
struct Run {
    line: &'static str,
    gives: &'static [u8],
    sent: Option<&'static [u8]>,
    status: Status,
    text: &'static [u8],
}

/// Runs on a disk that has the database at serial 2.
const LATER: [Run; 5] = [
    Run {
        line: ONE_ROUND,
        gives: UPDATES,
        sent: Some(POLLS_AT_2),
        status: Status::Done,
        text: b"- round 1 updated 2 4 1700000000.000000\nok 4 1700000000.000000\n",
    },
    Run {
        line: ONE_ROUND,
        gives: UPDATES,
        sent: Some(POLLS_AT_4),
        status: Status::Refused,
        text: b"- round 1 refused WrongPoint 4 1700000000.000000\nok 4 1700000000.000000\n",
    },
    Run {
        line: NO_ROUND,
        gives: UPDATES,
        sent: None,
        status: Status::Done,
        text: b"ok 4 1700000000.000000\n",
    },
    // its log is begun anew, at the same point
    Run {
        line: "replica/one@EXAMPLE.ORG 1 500",
        gives: NIL,
        sent: Some(POLLS_AT_4),
        status: Status::Done,
        text: b"- round 1 nil 4 1700000000.000000\nok 4 1700000000.000000\n",
    },
    Run {
        line: "replica/one@EXAMPLE.ORG 1 1",
        gives: NIL,
        sent: None,
        status: Status::Refused,
        text: b"err 1 BadLine\n",
    },
];

fn check_run(rt: &impl Abort, alloc: Global, disk: &mut MemoryDisk, run: &Run) -> Result<(), Fail> {
    let mut link = link_giving(alloc, run.gives)?;
    check_on(rt, alloc, disk, run.line, &mut link, run.status, run.text)?;
    assert_eq!(rt; link.sent(0), run.sent);
    Ok(())
}

#[test]
fn a_run_goes_on_from_the_point_of_the_last_one(rt: HostRuntime) -> Result<(), Fail> {
    let mut disk = empty_disk(rt.alloc())?;
    load(&rt, rt.alloc(), &mut disk)?;
    for run in &LATER {
        check_run(&rt, rt.alloc(), &mut disk, run)?;
    }
    Ok(())
}

#[test]
fn a_run_of_no_round_tells_the_point_alone(rt: HostRuntime) -> Result<(), Fail> {
    let mut disk = empty_disk(rt.alloc())?;
    let run = Run {
        line: NO_ROUND,
        gives: NIL,
        sent: None,
        status: Status::Done,
        text: b"ok 0 0.000000\n",
    };
    check_run(&rt, rt.alloc(), &mut disk, &run)
}

// ---- damaged files

/// A slot of the control file: open, of format 2 and turn 0, with the files 1 and 3, no stash, a log of 1000 entries in
/// blocks of 2048 bytes, and serial 2 at 1700000000.
const SLOT: &[u8] = b"\xa5KDBP\x00\x02\x00\x01\x03\x00\x00\x00\x03\xe8\x00\x00\x08\x00\
\x00\x00\x00\x02\x65\x53\xf1\x00\x00\x00\x00\x00\
\x00\x00\x00\x00\x00\x00\x00\x00\x00\x00\x00\x00\x00\x00\x00\x00\
\x00\x00\x00\x00\x00\x00\x00\x00\x00\x00\x00\x00\x00\x00\x00\x00\x00";

/// Bytes that are written at a place of a file behind a load, and how a run then ends.
const DAMAGES: [(u8, u64, &[u8], &[u8]); 6] = [
    // the control file: a slot without its magic, and two open slots of one turn
    (0, 1, b"X", b"err 22 Damaged 0 0\n"),
    (0, 64, SLOT, b"err 22 Damaged 0 64\n"),
    // the file of rows: its magic, and a state of bob's unit that there is not
    (1, 0, b"X", b"err 22 Damaged 1 0\n"),
    (1, 32768, b"\x03", b"err 22 Damaged 1 32768\n"),
    // the log: the gate of its one entry, and that entry's kind
    (3, 0, b"\x00", b"err 22 Damaged 3 0\n"),
    (3, 13, b"\x06", b"err 22 Damaged 3 0\n"),
];

fn write(disk: &mut MemoryDisk, file: u8, at: u64, bytes: &[u8]) -> Result<(), Fail> {
    if file > 6 || at > 1_000_000 || bytes.len() > 16384 {
        return Err(Fail::from("a place and bytes"));
    }
    if at > disk.bytes(file).len() as u64 {
        return Err(Fail::from("a place in the file"));
    }
    Ok(disk.write_at(file, at, bytes)?)
}

/// A load, and then these bytes at this place of a file.
fn load_and_write(
    rt: &impl Abort,
    alloc: Global,
    disk: &mut MemoryDisk,
    file: u8,
    at: u64,
    bytes: &[u8],
) -> Result<(), Fail> {
    load(rt, alloc, disk)?;
    write(disk, file, at, bytes)
}

/// A run is refused, and no connection made.
fn check_refused(
    rt: &impl Abort,
    alloc: Global,
    disk: &mut MemoryDisk,
    text: &[u8],
) -> Result<(), Fail> {
    let mut link = link_giving(alloc, NIL)?;
    check_on(rt, alloc, disk, ONE_ROUND, &mut link, Status::Refused, text)?;
    assert!(rt; link.sent(0).is_none());
    Ok(())
}

fn check_damaged(
    rt: &impl Abort,
    alloc: Global,
    file: u8,
    at: u64,
    bytes: &[u8],
    text: &[u8],
) -> Result<(), Fail> {
    let mut disk = empty_disk(alloc)?;
    load_and_write(rt, alloc, &mut disk, file, at, bytes)?;
    check_refused(rt, alloc, &mut disk, text)
}

#[test]
fn damaged_files_are_refused(rt: HostRuntime) -> Result<(), Fail> {
    for (file, at, bytes, text) in DAMAGES {
        check_damaged(&rt, rt.alloc(), file, at, bytes, text)?;
    }
    Ok(())
}

// ---- calls that fail

/// The lines of a run that loads the database at serial 4, and to which nothing is new then.
const WHOLE: &[u8] = b"- round 1 loaded 4 1700000000.000000\n\
- round 2 nil 4 1700000000.000000\nok 4 1700000000.000000\n";

/// That run: how it ended.
fn run_whole(alloc: Global, disk: &mut MemoryDisk, sink: &mut MemorySink) -> Result<Status, Fail> {
    let mut link = link_of(alloc, resync(alloc, DUMP)?, &[NIL])?;
    run_on(alloc, disk, WORDS, &mut link, sink)
}

/// It on a disk of which these calls fail: how it ended, and that a front of its lines was written.
fn run_failing(rt: &impl Abort, alloc: Global, disk: &mut MemoryDisk) -> Result<Status, Fail> {
    let mut sink = MemorySink::new(alloc, Fails::none(alloc))?;
    let ended = run_whole(alloc, disk, &mut sink)?;
    assert!(rt; WHOLE.starts_with(sink.written()));
    Ok(ended)
}

/// A run of no round tells that the disk has no database, or the one at serial 4.
fn check_whole_or_none(rt: &impl Abort, alloc: Global, disk: &mut MemoryDisk) -> Result<(), Fail> {
    let mut sink = MemorySink::new(alloc, Fails::none(alloc))?;
    let mut link = link_giving(alloc, b"")?;
    let ended = run_on(alloc, disk, NO_ROUND, &mut link, &mut sink)?;
    let none = sink.written() == b"ok 0 0.000000\n".as_slice();
    let whole = sink.written() == b"ok 4 1700000000.000000\n".as_slice();
    assert!(rt; none || whole);
    assert_eq!(rt; ended, Status::Done);
    Ok(())
}

/// How many calls of the disk that run makes.
fn count_calls(rt: &impl Abort, alloc: Global) -> Result<u64, Fail> {
    let mut disk = empty_disk(alloc)?;
    let ended = run_failing(rt, alloc, &mut disk)?;
    assert_eq!(rt; ended, Status::Done);
    Ok(disk.calls())
}

fn check_failed_call(rt: &impl Abort, alloc: Global, call: u64) -> Result<(), Fail> {
    let fails = Fails::from_vec([call].to_vec(alloc)?);
    let mut disk = MemoryDisk::new(alloc, fails)?;
    let ended = run_failing(rt, alloc, &mut disk)?;
    assert_eq!(rt; ended, Status::DiskFault, "call {call}");
    check_whole_or_none(rt, alloc, &mut disk)
}

#[test]
fn a_call_of_the_disk_that_fails_ends_the_run(rt: HostRuntime) -> Result<(), Fail> {
    for call in 0..count_calls(&rt, rt.alloc())? {
        check_failed_call(&rt, rt.alloc(), call)?;
    }
    Ok(())
}

/// What a crash inside of this call leaves, where there is such a call.
fn check_image(
    rt: &impl Abort,
    alloc: Global,
    disk: &MemoryDisk,
    call: u64,
    pick: Pick,
) -> Result<(), Fail> {
    if call >= disk.calls() {
        return Ok(());
    }
    let mut image = disk.image_at(alloc, call, pick)?;
    check_whole_or_none(rt, alloc, &mut image)
}

fn check_crash(rt: &impl Abort, alloc: Global, disk: &MemoryDisk, call: u64) -> Result<(), Fail> {
    for pick in [Pick::Written, Pick::Old, Pick::Noise] {
        check_image(rt, alloc, disk, call, pick)?;
    }
    Ok(())
}

#[test]
fn a_crash_leaves_no_database_or_the_whole_one(rt: HostRuntime) -> Result<(), Fail> {
    let mut disk = empty_disk(rt.alloc())?;
    run_failing(&rt, rt.alloc(), &mut disk)?;
    for call in 0..disk.calls() {
        check_crash(&rt, rt.alloc(), &disk, call)?;
    }
    Ok(())
}

/// A sink of which this write fails.
fn failing_sink(alloc: Global, write: u64) -> Result<MemorySink, Fail> {
    let fails = Fails::from_vec([write].to_vec(alloc)?);
    Ok(MemorySink::new(alloc, fails)?)
}

/// That run on a disk with nothing on it.
fn run_written(alloc: Global, sink: &mut MemorySink) -> Result<Status, Fail> {
    let mut disk = empty_disk(alloc)?;
    run_whole(alloc, &mut disk, sink)
}

/// What is written where each of the writes fails. Each line is one.
const WRITTEN: [&[u8]; 3] = [
    b"",
    b"- round 1 loaded 4 1700000000.000000\n",
    b"- round 1 loaded 4 1700000000.000000\n- round 2 nil 4 1700000000.000000\n",
];

fn check_failed_write(rt: &impl Abort, alloc: Global, write: u64, text: &[u8]) -> Result<(), Fail> {
    let mut sink = failing_sink(alloc, write)?;
    let ended = run_written(alloc, &mut sink)?;
    assert_eq!(rt; sink.written(), text);
    assert_eq!(rt; ended, Status::WriteFault);
    Ok(())
}

#[test]
fn a_write_that_fails_ends_the_run(rt: HostRuntime) -> Result<(), Fail> {
    let mut write = 0u64;
    for text in WRITTEN {
        check_failed_write(&rt, rt.alloc(), write, text)?;
        write = write.saturating_add(1);
    }
    Ok(())
}
