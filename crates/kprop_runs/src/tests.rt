//! Whole runs of a replica in memory.

use crate::run_replica;
use iprop_wire::{Message, write_message};
use kdb_base::{Blob, Fails, Status};
use kdb_disk::MemoryDisk;
use kdb_ports::{MemoryLink, MemorySink};
use std::alloc::Global;
use std::collections::VecDeque;
use std::process::Abort;
use std::test::Fail;

/// The whole database has to be loaded, behind the point of no database.
const RESYNC: &[u8] =
    b"\x00\x00\x00\x12\x11\x02\x00\x00\x00\x00\x00\x00\x00\x00\x00\x00\x00\x00\x00\x00\x00\x00";

/// There is nothing new behind serial 4 at 1700000000.
pub(crate) const NIL: &[u8] =
    b"\x00\x00\x00\x12\x11\x04\x00\x00\x00\x04\x65\x53\xf1\x00\x00\x00\x00\x00\x00\x00\x00\x00";

/// A database at serial 4 with the principal bob.
pub(crate) const DUMP: &[u8] = b"kdb dump 2\nrealm EXAMPLE.ORG\npoint 4 1700000000.000000\n\
princ 000f626f62404558414d504c452e4f5247000000000000000000000000000000000000000000020002\
001400f15365626f62404558414d504c452e4f524700000800020100000000000000\nend 1\n";

/// The same, as a dump of the first version.
const OLD_DUMP: &[u8] = b"kdb dump 1\nrealm EXAMPLE.ORG\npoint 4 1700000000.000000\n\
princ 000f626f62404558414d504c452e4f5247000000000000000000000000000000000000000000020002\
001400f15365626f62404558414d504c452e4f524700000800020100000000000000\nend 1\n";

/// A dump whose third line is no point.
const BAD: &[u8] = b"kdb dump 2\nrealm EXAMPLE.ORG\npoint\n";

/// A database at serial 2 with the principals amy and bob.
pub(crate) const TWO: &[u8] = b"kdb dump 2\nrealm EXAMPLE.ORG\npoint 2 1700000000.000000\n\
princ 000f616d79404558414d504c452e4f5247000000000000000000000000000000000000000000020002\
001400f15365626f62404558414d504c452e4f524700000800020100000000000000\n\
princ 000f626f62404558414d504c452e4f5247000000000000000000000000000000000000000000020002\
001400f15365626f62404558414d504c452e4f524700000800020100000000000000\nend 2\n";

/// Two updates behind serial 2 at 1700000000, by which bob and then amy are deleted.
pub(crate) const UPDATES: &[u8] =
    b"\x00\x00\x00\x12\x11\x00\x00\x00\x00\x02\x65\x53\xf1\x00\x00\x00\x00\x00\x00\x00\x00\x02\
\x00\x00\x00\x21\x14\x00\x00\x00\x03\x65\x53\xf1\x00\x00\x00\x00\x00\x02\x00\x0fbob@EXAMPLE.ORG\x00\x00\
\x00\x00\x00\x21\x14\x00\x00\x00\x04\x65\x53\xf1\x00\x00\x00\x00\x00\x02\x00\x0famy@EXAMPLE.ORG\x00\x00";

/// The words of a run.
pub(crate) const WORDS: &str = "replica/one@EXAMPLE.ORG 2 1000";

/// The frames of a dump.
fn frames_of(alloc: Global, dump: &[u8]) -> Result<Blob, Fail> {
    let message = Message::DumpText(Blob::from_bytes(alloc, dump)?);
    Ok(write_message(alloc, &message)?)
}

/// The reply that the whole database has to be loaded, and this dump behind it.
pub(crate) fn resync(alloc: Global, dump: &[u8]) -> Result<Blob, Fail> {
    let frames = frames_of(alloc, dump)?;
    behind_resync(alloc, frames.as_slice())
}

fn push_given(alloc: Global, gives: &mut VecDeque<Blob>, given: &[u8]) -> Result<(), Fail> {
    let given = Blob::from_bytes(alloc, given)?;
    gives.push_back(given)?;
    Ok(())
}

/// What the connections of a link give: this first, and then each of the others.
fn gives_of(alloc: Global, first: Blob, others: &[&[u8]]) -> Result<VecDeque<Blob>, Fail> {
    let mut gives = VecDeque::new(alloc);
    gives.push_back(first)?;
    for other in others {
        push_given(alloc, &mut gives, other)?;
    }
    Ok(gives)
}

/// A link with such connections.
pub(crate) fn link_of(alloc: Global, first: Blob, others: &[&[u8]]) -> Result<MemoryLink, Fail> {
    let gives = gives_of(alloc, first, others)?;
    Ok(MemoryLink::new(alloc, gives, Fails::none(alloc))?)
}

pub(crate) fn words_of(alloc: Global, line: &str) -> Result<Vec<Vec<u8>>, Fail> {
    let mut words = Vec::new(alloc);
    for word in line.split(' ') {
        words.push(word.as_bytes().to_vec(alloc)?)?;
    }
    Ok(words)
}

/// Runs on an empty disk: how it ended.
fn run(
    alloc: Global,
    words: &[Vec<u8>],
    link: &mut MemoryLink,
    sink: &mut MemorySink,
) -> Result<Status, Fail> {
    let mut disk = MemoryDisk::new(alloc, Fails::none(alloc))?;
    Ok(run_replica(alloc, words, link, sink, &mut disk))
}

/// Runs on an empty disk, and compares what was written.
fn check_run(
    rt: &impl Abort,
    alloc: Global,
    words: &[Vec<u8>],
    link: &mut MemoryLink,
    status: Status,
    text: &[u8],
) -> Result<(), Fail> {
    let mut sink = MemorySink::new(alloc, Fails::none(alloc))?;
    let ended = run(alloc, words, link, &mut sink)?;
    assert_eq!(rt; sink.written(), text);
    assert_eq!(rt; ended, status);
    Ok(())
}

/// The same with the words of this line.
fn check(
    rt: &impl Abort,
    alloc: Global,
    line: &str,
    link: &mut MemoryLink,
    status: Status,
    text: &[u8],
) -> Result<(), Fail> {
    let words = words_of(alloc, line)?;
    check_run(rt, alloc, &words, link, status, text)
}

/// A run over a link that gives this dump, and then that there is nothing new.
fn check_loaded(rt: &impl Abort, alloc: Global, dump: &[u8], text: &[u8]) -> Result<(), Fail> {
    let mut link = link_of(alloc, resync(alloc, dump)?, &[NIL])?;
    check(rt, alloc, WORDS, &mut link, Status::Done, text)?;
    assert!(rt; link.sent(1).is_some());
    assert!(rt; link.sent(2).is_none());
    Ok(())
}

#[test]
fn a_dump_is_loaded_and_nothing_comes_behind(rt: HostRuntime) -> Result<(), Fail> {
    let alloc = rt.alloc();
    let text = b"- round 1 loaded 4 1700000000.000000\n\
- round 2 nil 4 1700000000.000000\nok 4 1700000000.000000\n";
    for dump in [DUMP, OLD_DUMP] {
        check_loaded(&rt, alloc, dump, text)?;
    }
    Ok(())
}

fn check_bad(rt: &impl Abort, alloc: Global) -> Result<(), Fail> {
    let mut link = link_of(alloc, resync(alloc, BAD)?, &[b"\x00\x00\x00\x00"])?;
    let text = b"- round 1 refused DumpBad 3 0 0.000000\n\
- round 2 refused BadFrame 0 0.000000\nok 0 0.000000\n";
    check(rt, alloc, WORDS, &mut link, Status::Refused, text)
}

fn check_cut(rt: &impl Abort, alloc: Global) -> Result<(), Fail> {
    let mut link = link_of(alloc, resync(alloc, DUMP)?, &[RESYNC])?;
    let text = b"- round 1 loaded 4 1700000000.000000\n\
- round 2 cut 4 1700000000.000000\nok 4 1700000000.000000\n";
    check(rt, alloc, WORDS, &mut link, Status::Done, text)
}

#[test]
fn what_is_refused_is_told(rt: HostRuntime) -> Result<(), Fail> {
    check_bad(&rt, rt.alloc())?;
    check_cut(&rt, rt.alloc())
}

/// The reply that the whole database has to be loaded, and these bytes behind it.
fn behind_resync(alloc: Global, bytes: &[u8]) -> Result<Blob, Fail> {
    let mut text = RESYNC.to_vec(alloc)?;
    text.extend_from_slice(bytes)?;
    Ok(Blob::from_vec(text))
}

/// The word of a round whose connection gives this.
fn check_word(rt: &impl Abort, alloc: Global, given: Blob, refused: bool) -> Result<(), Fail> {
    let mut link = link_of(alloc, given, &[])?;
    let words = "replica/one@EXAMPLE.ORG 1 1000";
    let (status, text): (Status, &[u8]) = if refused {
        (
            Status::Refused,
            b"- round 1 refused BadFrame 0 0.000000\nok 0 0.000000\n",
        )
    } else {
        (Status::Done, b"- round 1 cut 0 0.000000\nok 0 0.000000\n")
    };
    check(rt, alloc, words, &mut link, status, text)
}

/// Fronts of messages, the reply to a poll that has an update among them, and whether each is refused where a reply is
/// due, and where a dump is.
const FRONTS: [(&[u8], bool, bool); 8] = [
    (b"\x00\x00\x00\x09\x10", true, true),
    (b"\x00\x00\x00\x0d\x01", true, true),
    (b"\x00\x00\x00\x01\x02", true, true),
    (b"\x00\x00\x00\x09\x12", true, false),
    (b"\x00\x00\x00\x09\x13", true, false),
    (b"\x00\x00\x00\x12\x11", false, false),
    (b"\x00\x00\x00\x09", false, false),
    (
        b"\x00\x00\x00\x12\x11\x00\x00\x00\x00\x02\x65\x53\xf1\x00\x00\x00\x00\x00\x00\x00\x00\x01",
        false,
        true,
    ),
];

/// The front where a reply is due, and where a dump is.
fn check_front(
    rt: &impl Abort,
    alloc: Global,
    front: &[u8],
    by_poll: bool,
    by_asking: bool,
) -> Result<(), Fail> {
    let given = Blob::from_bytes(alloc, front)?;
    check_word(rt, alloc, given, by_poll)?;
    let given = behind_resync(alloc, front)?;
    check_word(rt, alloc, given, by_asking)
}

#[test]
fn another_message_is_refused_at_its_kind(rt: HostRuntime) -> Result<(), Fail> {
    let alloc = rt.alloc();
    for (front, by_poll, by_asking) in FRONTS {
        check_front(&rt, alloc, front, by_poll, by_asking)?;
    }
    Ok(())
}

#[test]
fn updates_are_taken_once(rt: HostRuntime) -> Result<(), Fail> {
    let alloc = rt.alloc();
    let mut link = link_of(alloc, resync(alloc, TWO)?, &[UPDATES, UPDATES])?;
    let text = b"- round 1 loaded 2 1700000000.000000\n\
- round 2 updated 2 4 1700000000.000000\n\
- round 3 refused WrongPoint 4 1700000000.000000\nok 4 1700000000.000000\n";
    let words = "replica/one@EXAMPLE.ORG 3 1000";
    check(&rt, alloc, words, &mut link, Status::Refused, text)
}

/// The primary is busy.
const BUSY: &[u8] =
    b"\x00\x00\x00\x12\x11\x03\x00\x00\x00\x00\x00\x00\x00\x00\x00\x00\x00\x00\x00\x00\x00\x00";

/// The replica may not ask.
const DENIED: &[u8] =
    b"\x00\x00\x00\x12\x11\x05\x00\x00\x00\x00\x00\x00\x00\x00\x00\x00\x00\x00\x00\x00\x00\x00";

/// There is nothing new behind no database.
const NOTHING: &[u8] =
    b"\x00\x00\x00\x12\x11\x04\x00\x00\x00\x00\x00\x00\x00\x00\x00\x00\x00\x00\x00\x00\x00\x00";

/// Update 1 behind no database, by which bob is deleted.
const FIRST: &[u8] =
    b"\x00\x00\x00\x12\x11\x00\x00\x00\x00\x00\x00\x00\x00\x00\x00\x00\x00\x00\x00\x00\x00\x01\
\x00\x00\x00\x21\x14\x00\x00\x00\x01\x65\x53\xf1\x00\x00\x00\x00\x00\x02\x00\x0fbob@EXAMPLE.ORG\x00\x00";

/// Update 4 where update 3 is due.
const SKIPPED: &[u8] =
    b"\x00\x00\x00\x12\x11\x00\x00\x00\x00\x02\x65\x53\xf1\x00\x00\x00\x00\x00\x00\x00\x00\x01\
\x00\x00\x00\x21\x14\x00\x00\x00\x04\x65\x53\xf1\x00\x00\x00\x00\x00\x02\x00\x0fbob@EXAMPLE.ORG\x00\x00";

/// Update 3, and update 4 a microsecond before it.
const FALLING: &[u8] =
    b"\x00\x00\x00\x12\x11\x00\x00\x00\x00\x02\x65\x53\xf1\x00\x00\x00\x00\x00\x00\x00\x00\x02\
\x00\x00\x00\x21\x14\x00\x00\x00\x03\x65\x53\xf1\x00\x00\x00\x00\x01\x02\x00\x0fbob@EXAMPLE.ORG\x00\x00\
\x00\x00\x00\x21\x14\x00\x00\x00\x04\x65\x53\xf1\x00\x00\x00\x00\x00\x02\x00\x0famy@EXAMPLE.ORG\x00\x00";

/// Update 3, which puts eve, and update 4, which renames her to the name of amy.
const MOVED: &[u8] =
    b"\x00\x00\x00\x12\x11\x00\x00\x00\x00\x02\x65\x53\xf1\x00\x00\x00\x00\x00\x00\x00\x00\x02\
\x00\x00\x00\x6c\x14\x00\x00\x00\x03\x65\x53\xf1\x00\x00\x00\x00\x00\x01\x00\x0feve@EXAMPLE.ORG\x00\x4b\
\x00\x0feve@EXAMPLE.ORG\x00\x00\x00\x00\x00\x00\x00\x00\x00\x00\x00\x00\x00\x00\x00\x00\x00\x00\x00\x00\
\x00\x02\x00\x02\x00\x14\x00\xf1\x53\x65bob@EXAMPLE.ORG\x00\x00\x08\x00\x02\x01\x00\x00\x00\x00\x00\x00\x00\
\x00\x00\x00\x6c\x14\x00\x00\x00\x04\x65\x53\xf1\x00\x00\x00\x00\x00\x03\x00\x0feve@EXAMPLE.ORG\x00\x4b\
\x00\x0famy@EXAMPLE.ORG\x00\x00\x00\x00\x00\x00\x00\x00\x00\x00\x00\x00\x00\x00\x00\x00\x00\x00\x00\x00\
\x00\x02\x00\x02\x00\x14\x00\xf1\x53\x65bob@EXAMPLE.ORG\x00\x00\x08\x00\x02\x01\x00\x00\x00\x00\x00\x00\x00";

/// The line of a round that a replica without a database polls in, and the last one.
const POLLED: [(&[u8], Status, &[u8]); 5] = [
    (
        NOTHING,
        Status::Done,
        b"- round 1 nil 0 0.000000\nok 0 0.000000\n",
    ),
    (
        BUSY,
        Status::Done,
        b"- round 1 busy 0 0.000000\nok 0 0.000000\n",
    ),
    (
        DENIED,
        Status::Done,
        b"- round 1 denied 0 0.000000\nok 0 0.000000\n",
    ),
    // no serial runs on from no database
    (
        FIRST,
        Status::Refused,
        b"- round 1 refused Gap 0 0.000000\nok 0 0.000000\n",
    ),
    (
        UPDATES,
        Status::Refused,
        b"- round 1 refused WrongPoint 0 0.000000\nok 0 0.000000\n",
    ),
];

fn check_polled(
    rt: &impl Abort,
    alloc: Global,
    reply: &[u8],
    status: Status,
    text: &[u8],
) -> Result<(), Fail> {
    let mut link = link_of(alloc, Blob::from_bytes(alloc, reply)?, &[])?;
    let words = "replica/one@EXAMPLE.ORG 1 1000";
    check(rt, alloc, words, &mut link, status, text)
}

#[test]
fn the_word_of_a_round_tells_the_reply(rt: HostRuntime) -> Result<(), Fail> {
    for (reply, status, text) in POLLED {
        check_polled(&rt, rt.alloc(), reply, status, text)?;
    }
    Ok(())
}

/// The primary is busy, in answer to a poll at serial 2 at 1700000000.
const BUSY_AT_2: &[u8] =
    b"\x00\x00\x00\x12\x11\x03\x00\x00\x00\x02\x65\x53\xf1\x00\x00\x00\x00\x00\x00\x00\x00\x00";

/// The same behind an asking, which is answered by a dump, or by a reply that it is not given now or may not be asked
/// for. Such a reply names no point.
const ASKED: [(&[u8], Status, &[u8]); 5] = [
    (
        BUSY,
        Status::Done,
        b"- round 1 busy 0 0.000000\nok 0 0.000000\n",
    ),
    (
        DENIED,
        Status::Done,
        b"- round 1 denied 0 0.000000\nok 0 0.000000\n",
    ),
    (
        BUSY_AT_2,
        Status::Refused,
        b"- round 1 refused BadFrame 0 0.000000\nok 0 0.000000\n",
    ),
    (
        NOTHING,
        Status::Refused,
        b"- round 1 refused BadFrame 0 0.000000\nok 0 0.000000\n",
    ),
    (
        RESYNC,
        Status::Refused,
        b"- round 1 refused BadFrame 0 0.000000\nok 0 0.000000\n",
    ),
];

fn check_asked(
    rt: &impl Abort,
    alloc: Global,
    reply: &[u8],
    status: Status,
    text: &[u8],
) -> Result<(), Fail> {
    let mut link = link_of(alloc, behind_resync(alloc, reply)?, &[])?;
    let words = "replica/one@EXAMPLE.ORG 1 1000";
    check(rt, alloc, words, &mut link, status, text)
}

#[test]
fn an_asking_may_be_answered_by_a_reply(rt: HostRuntime) -> Result<(), Fail> {
    for (reply, status, text) in ASKED {
        check_asked(&rt, rt.alloc(), reply, status, text)?;
    }
    Ok(())
}

/// The lines of a replica that has loaded the database at serial 2, and then polls.
const POLLED_AT_2: [(&[u8], Status, &[u8]); 6] = [
    (
        BUSY_AT_2,
        Status::Done,
        b"- round 1 loaded 2 1700000000.000000\n- round 2 busy 2 1700000000.000000\n\
ok 2 1700000000.000000\n",
    ),
    (
        BUSY,
        Status::Done,
        b"- round 1 loaded 2 1700000000.000000\n- round 2 busy 2 1700000000.000000\n\
ok 2 1700000000.000000\n",
    ),
    (
        DENIED,
        Status::Done,
        b"- round 1 loaded 2 1700000000.000000\n- round 2 denied 2 1700000000.000000\n\
ok 2 1700000000.000000\n",
    ),
    (
        SKIPPED,
        Status::Refused,
        b"- round 1 loaded 2 1700000000.000000\n- round 2 refused Gap 2 1700000000.000000\n\
ok 2 1700000000.000000\n",
    ),
    // the whole reply is judged before its first update is made
    (
        FALLING,
        Status::Refused,
        b"- round 1 loaded 2 1700000000.000000\n- round 2 refused Gap 2 1700000000.000000\n\
ok 2 1700000000.000000\n",
    ),
    // but whether an update may be made of the rows shows behind those before it
    (
        MOVED,
        Status::Refused,
        b"- round 1 loaded 2 1700000000.000000\n- round 2 refused Gap 3 1700000000.000000\n\
ok 3 1700000000.000000\n",
    ),
];

fn check_polled_at_2(
    rt: &impl Abort,
    alloc: Global,
    reply: &[u8],
    status: Status,
    text: &[u8],
) -> Result<(), Fail> {
    let mut link = link_of(alloc, resync(alloc, TWO)?, &[reply])?;
    check(rt, alloc, WORDS, &mut link, status, text)
}

#[test]
fn updates_that_leave_a_gap_are_refused(rt: HostRuntime) -> Result<(), Fail> {
    for (reply, status, text) in POLLED_AT_2 {
        check_polled_at_2(&rt, rt.alloc(), reply, status, text)?;
    }
    Ok(())
}

/// The first bytes of the reply with a dump.
fn cut_dump(rt: &impl Abort, alloc: Global) -> Result<Option<Blob>, Fail> {
    let whole = resync(alloc, DUMP)?;
    let part = whole.as_slice().first_chunk::<60>();
    assert!(rt; part.is_some());
    let Some(part) = part else { return Ok(None) };
    Ok(Some(Blob::from_bytes(alloc, part)?))
}

#[test]
fn a_dump_that_ends_early_loads_nothing(rt: HostRuntime) -> Result<(), Fail> {
    let alloc = rt.alloc();
    let Some(part) = cut_dump(&rt, alloc)? else {
        return Ok(());
    };
    let mut link = link_of(alloc, part, &[NIL])?;
    let text = b"- round 1 cut 0 0.000000\n\
- round 2 refused WrongPoint 0 0.000000\nok 0 0.000000\n";
    check(&rt, alloc, WORDS, &mut link, Status::Refused, text)
}

/// A link that gives a dump and then nothing new, and of which this call fails.
fn failing_link(alloc: Global, call: u64) -> Result<MemoryLink, Fail> {
    let fails = Fails::from_vec([call].to_vec(alloc)?);
    let gives = gives_of(alloc, resync(alloc, DUMP)?, &[NIL])?;
    Ok(MemoryLink::new(alloc, gives, fails)?)
}

/// A run of which this call of the link fails.
fn check_failing(rt: &impl Abort, alloc: Global, words: &[Vec<u8>], call: u64) -> Result<(), Fail> {
    let whole = b"- round 1 loaded 4 1700000000.000000\n\
- round 2 nil 4 1700000000.000000\nok 4 1700000000.000000\n";
    let mut link = failing_link(alloc, call)?;
    let mut sink = MemorySink::new(alloc, Fails::none(alloc))?;
    let ended = run(alloc, words, &mut link, &mut sink)?;
    assert!(rt; whole.starts_with(sink.written()));
    let awaited = if call < 9 {
        Status::LinkFault
    } else {
        Status::Done
    };
    assert_eq!(rt; ended, awaited);
    Ok(())
}

#[test]
fn a_call_of_the_link_that_fails_ends_the_run(rt: HostRuntime) -> Result<(), Fail> {
    let alloc = rt.alloc();
    let words = words_of(alloc, WORDS)?;
    // Two rounds make nine calls, of which one each receives: the dump came with the reply that asks for it.
    for call in 0..12 {
        check_failing(&rt, alloc, &words, call)?;
    }
    Ok(())
}

/// A run with the words of this line asks nothing.
fn check_refused(rt: &impl Abort, alloc: Global, line: &str) -> Result<(), Fail> {
    let mut link = link_of(alloc, resync(alloc, DUMP)?, &[NIL])?;
    check(
        rt,
        alloc,
        line,
        &mut link,
        Status::Refused,
        b"err 1 BadLine\n",
    )?;
    assert!(rt; link.sent(0).is_none());
    Ok(())
}

#[test]
fn other_words_are_refused(rt: HostRuntime) -> Result<(), Fail> {
    let alloc = rt.alloc();
    for line in [
        "replica/one@EXAMPLE.ORG 2",
        "replica/one@EXAMPLE.ORG 2 1000 x",
        "replica/one 2 1000",
        "replica/one@EXAMPLE.ORG 4294967296 1000",
        "replica/one@EXAMPLE.ORG 2 1",
        "replica/one@EXAMPLE.ORG 2 10001",
        "replica/one@EXAMPLE.ORG -1 1000",
    ] {
        check_refused(&rt, alloc, line)?;
    }
    Ok(())
}
