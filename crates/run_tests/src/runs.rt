//! Runs of the program in memory.

use kadm_top::run_local;
use kdb_base::{Blob, Fails, Status, Time};
use kdb_disk::{FILES, MemoryDisk};
use kdb_ports::{ChaChaEntropy, MemoryClock, MemorySink, MemorySource};
use std::alloc::Global;
use std::process::Abort;
use std::test::Fail;

/// What a run left behind.
#[derive(Drop)]
pub(crate) struct Outcome {
    pub status: Status,
    pub replies: Vec<u8>,
}

/// The calls of the source, the sink and the source of random bytes that are to fail, by their numbers.
#[derive(Clone, Copy)]
pub(crate) struct Faults<'a> {
    pub source: &'a [u64],
    pub sink: &'a [u64],
    pub draws: &'a [u64],
}

pub(crate) const NO_FAULTS: Faults<'static> = Faults {
    source: &[],
    sink: &[],
    draws: &[],
};

/// The second at which the clock of these runs stands, 2023-11-14T22:13:20Z.
pub(crate) const SECS: u32 = 1_700_000_000;

fn fails(alloc: Global, calls: &[u64]) -> Result<Fails, Fail> {
    Ok(Fails::from_vec(calls.to_vec(alloc)?))
}

/// The words of a command line, separated by spaces.
pub(crate) fn words_of(alloc: Global, line: &str) -> Result<Vec<Vec<u8>>, Fail> {
    let mut words = Vec::new(alloc);
    for word in line.split(' ') {
        push_word(alloc, &mut words, word)?;
    }
    Ok(words)
}

fn push_word(alloc: Global, words: &mut Vec<Vec<u8>>, word: &str) -> Result<(), Fail> {
    let bytes = word.as_bytes().to_vec(alloc)?;
    words.push(bytes)?;
    Ok(())
}

fn source_of(alloc: Global, input: &[u8], faults: &Faults) -> Result<MemorySource, Fail> {
    let failing = fails(alloc, faults.source)?;
    let input = Blob::from_bytes(alloc, input)?;
    Ok(MemorySource::new(input, failing))
}

fn sink_of(alloc: Global, faults: &Faults) -> Result<MemorySink, Fail> {
    let failing = fails(alloc, faults.sink)?;
    Ok(MemorySink::new(alloc, failing)?)
}

/// The random bytes of ChaCha20 under 32 zeros.
fn entropy_of(alloc: Global, faults: &Faults) -> Result<ChaChaEntropy, Fail> {
    let failing = fails(alloc, faults.draws)?;
    Ok(ChaChaEntropy::new(&[0; 32], failing))
}

/// A run over these devices.
fn run_over(
    alloc: Global,
    disk: &mut MemoryDisk,
    words: &str,
    source: &mut MemorySource,
    sink: &mut MemorySink,
    entropy: &mut ChaChaEntropy,
    now: Time,
) -> Result<Status, Fail> {
    let words = words_of(alloc, words)?;
    let mut clock = MemoryClock::new(now);
    let status = run_local(alloc, &words, source, sink, disk, &mut clock, entropy);
    Ok(status)
}

/// A run that writes into this sink.
fn run_into(
    alloc: Global,
    disk: &mut MemoryDisk,
    words: &str,
    input: &[u8],
    faults: &Faults,
    now: Time,
    sink: &mut MemorySink,
) -> Result<Status, Fail> {
    let mut source = source_of(alloc, input, faults)?;
    let mut entropy = entropy_of(alloc, faults)?;
    run_over(alloc, disk, words, &mut source, sink, &mut entropy, now)
}

/// A run at a moment, with the random bytes of ChaCha20 under 32 zeros.
pub(crate) fn run_at(
    alloc: Global,
    disk: &mut MemoryDisk,
    words: &str,
    input: &[u8],
    faults: &Faults,
    now: Time,
) -> Result<Outcome, Fail> {
    let mut sink = sink_of(alloc, faults)?;
    let status = run_into(alloc, disk, words, input, faults, now, &mut sink)?;
    Ok(Outcome {
        status,
        replies: sink.written().to_vec(alloc)?,
    })
}

/// A run at the clock 1700000000.000000.
pub(crate) fn run(
    alloc: Global,
    disk: &mut MemoryDisk,
    words: &str,
    input: &[u8],
    faults: &Faults,
) -> Result<Outcome, Fail> {
    run_at(alloc, disk, words, input, faults, Time::new(SECS, 0))
}

pub(crate) fn check(rt: &impl Abort, outcome: &Outcome, status: Status, replies: &[u8]) {
    assert_eq!(rt; outcome.status, status);
    assert_eq!(rt; outcome.replies.as_slice(), replies);
}

/// Runs with this input and these faults, and compares the status and the replies.
pub(crate) fn check_outcome(
    rt: &impl Abort,
    alloc: Global,
    disk: &mut MemoryDisk,
    words: &str,
    input: &[u8],
    faults: &Faults,
    status: Status,
    replies: &[u8],
) -> Result<(), Fail> {
    let outcome = run(alloc, disk, words, input, faults)?;
    check(rt, &outcome, status, replies);
    Ok(())
}

/// Runs with this input, and compares the reply.
pub(crate) fn check_run(
    rt: &impl Abort,
    alloc: Global,
    disk: &mut MemoryDisk,
    words: &str,
    input: &[u8],
    reply: &[u8],
) -> Result<(), Fail> {
    let outcome = run(alloc, disk, words, input, &NO_FAULTS)?;
    let status = if reply.starts_with(b"err") {
        Status::Refused
    } else {
        Status::Done
    };
    check(rt, &outcome, status, reply);
    Ok(())
}

/// Runs without input, and compares the reply.
pub(crate) fn check_words(
    rt: &impl Abort,
    alloc: Global,
    disk: &mut MemoryDisk,
    words: &str,
    reply: &[u8],
) -> Result<(), Fail> {
    check_run(rt, alloc, disk, words, b"", reply)
}

/// Words of a command line, and the reply to them.
pub(crate) type Answer = (&'static str, &'static [u8]);

/// Runs one after another without input, and compares each reply.
pub(crate) fn check_answers(
    rt: &impl Abort,
    alloc: Global,
    disk: &mut MemoryDisk,
    answers: &[Answer],
) -> Result<(), Fail> {
    for (words, reply) in answers.iter() {
        check_words(rt, alloc, disk, words, reply)?;
    }
    Ok(())
}

/// What `dump` writes.
pub(crate) fn dumped(alloc: Global, disk: &mut MemoryDisk) -> Result<Vec<u8>, Fail> {
    Ok(run(alloc, disk, "dump", b"", &NO_FAULTS)?.replies)
}

/// A line of `admin`, and what is answered to it, without its last line feed; nothing for a line without a
/// reply.
pub(crate) type Turn = (&'static str, &'static str);

fn push_line(out: &mut Vec<u8>, line: &str) -> Result<(), Fail> {
    out.extend_from_slice(line.as_bytes())?;
    out.push(b'\n')?;
    Ok(())
}

/// The lines of these turns, as an input.
pub(crate) fn input_of(alloc: Global, turns: &[Turn]) -> Result<Vec<u8>, Fail> {
    let mut input = Vec::new(alloc);
    for (line, _) in turns.iter() {
        push_line(&mut input, line)?;
    }
    Ok(input)
}

/// All that is answered to them.
pub(crate) fn replies_of(alloc: Global, turns: &[Turn]) -> Result<Vec<u8>, Fail> {
    let mut replies = Vec::new(alloc);
    for (_, reply) in turns.iter() {
        if !reply.is_empty() {
            push_line(&mut replies, reply)?;
        }
    }
    Ok(replies)
}

/// How a run with these lines ends.
fn status_of(turns: &[Turn]) -> Status {
    let mut status = Status::Done;
    for (_, reply) in turns.iter() {
        if reply.starts_with("err") {
            status = Status::Refused;
        }
    }
    status
}

/// A run of their lines at the clock 1700000000.000000.
fn run_turns(
    alloc: Global,
    disk: &mut MemoryDisk,
    words: &str,
    turns: &[Turn],
) -> Result<Outcome, Fail> {
    let input = input_of(alloc, turns)?;
    run(alloc, disk, words, &input, &NO_FAULTS)
}

/// Runs `admin` with these lines, and compares all replies.
pub(crate) fn check_turns(
    rt: &impl Abort,
    alloc: Global,
    disk: &mut MemoryDisk,
    words: &str,
    turns: &[Turn],
) -> Result<(), Fail> {
    let outcome = run_turns(alloc, disk, words, turns)?;
    let replies = replies_of(alloc, turns)?;
    check(rt, &outcome, status_of(turns), &replies);
    Ok(())
}

/// A file behind its number and its length.
fn push_file(alloc: Global, all: &mut Vec<u8>, file: u8, bytes: &[u8]) -> Result<(), Fail> {
    let head = format!(in alloc; "{file} {}\n", bytes.len())?;
    all.extend_from_slice(head.as_bytes())?;
    all.extend_from_slice(bytes)?;
    Ok(())
}

/// All that the files of a disk hold, each file behind its number and its length.
pub(crate) fn all_files(alloc: Global, disk: &MemoryDisk) -> Result<Vec<u8>, Fail> {
    let mut all = Vec::new(alloc);
    for file in 0..FILES {
        push_file(alloc, &mut all, file, disk.bytes(file))?;
    }
    Ok(all)
}

/// Runs without input, and compares the reply, and all files with what they were.
pub(crate) fn check_reading(
    rt: &impl Abort,
    alloc: Global,
    disk: &mut MemoryDisk,
    words: &str,
    reply: &[u8],
) -> Result<(), Fail> {
    let before = all_files(alloc, disk)?;
    check_words(rt, alloc, disk, words, reply)?;
    let after = all_files(alloc, disk)?;
    assert!(rt; after.as_slice() == before.as_slice(), "{words}");
    Ok(())
}

/// The same bytes with another one at this place.
pub(crate) fn with_byte(alloc: Global, bytes: &[u8], at: usize, byte: u8) -> Result<Vec<u8>, Fail> {
    let mut changed = bytes.to_vec(alloc)?;
    if let Some(place) = changed.get_mut(at) {
        *place = byte;
    }
    Ok(changed)
}

/// So many times the same byte.
pub(crate) fn repeated(alloc: Global, byte: u8, count: usize) -> Result<Vec<u8>, Fail> {
    Ok(vec![in alloc; byte; count]?)
}

/// Runs `admin` with these lines over a new database, and compares all replies.
pub(crate) fn check_session(rt: &impl Abort, alloc: Global, turns: &[Turn]) -> Result<(), Fail> {
    let mut disk = created(alloc, &[])?;
    check_turns(rt, alloc, &mut disk, "admin", turns)
}

/// Runs `admin` with this input, and compares the last of the replies.
pub(crate) fn check_end(
    rt: &impl Abort,
    alloc: Global,
    disk: &mut MemoryDisk,
    input: &[u8],
    last: &[u8],
) -> Result<(), Fail> {
    let outcome = run(alloc, disk, "admin", input, &NO_FAULTS)?;
    assert!(rt; outcome.replies.ends_with(last));
    Ok(())
}

/// Compares the front of the log's lines.
fn check_log_front(
    rt: &impl Abort,
    alloc: Global,
    disk: &mut MemoryDisk,
    log: &[u8],
) -> Result<(), Fail> {
    let lines = run(alloc, disk, "kproplog", b"", &NO_FAULTS)?;
    assert!(rt; lines.replies.starts_with(log));
    Ok(())
}

/// Runs `admin` with this input over a new database, and compares the last of the replies.
pub(crate) fn check_last(
    rt: &impl Abort,
    alloc: Global,
    input: &[u8],
    last: &[u8],
) -> Result<(), Fail> {
    let mut disk = created(alloc, &[])?;
    check_end(rt, alloc, &mut disk, input, last)
}

/// The same, and compares the front of the log's lines, which has its size and its block.
pub(crate) fn check_last_and_log(
    rt: &impl Abort,
    alloc: Global,
    input: &[u8],
    last: &[u8],
    log: &[u8],
) -> Result<(), Fail> {
    let mut disk = created(alloc, &[])?;
    check_end(rt, alloc, &mut disk, input, last)?;
    check_log_front(rt, alloc, &mut disk, log)
}

/// A disk with no files, of which these calls are to fail.
pub(crate) fn empty_disk(alloc: Global, disk_fails: &[u64]) -> Result<MemoryDisk, Fail> {
    let failing = fails(alloc, disk_fails)?;
    Ok(MemoryDisk::new(alloc, failing)?)
}

/// A disk with the database of EXAMPLE.ORG, with a random master key. These calls of the disk are to fail.
pub(crate) fn created(alloc: Global, disk_fails: &[u64]) -> Result<MemoryDisk, Fail> {
    let mut disk = empty_disk(alloc, disk_fails)?;
    run(alloc, &mut disk, "create EXAMPLE.ORG", b"", &NO_FAULTS)?;
    Ok(disk)
}
