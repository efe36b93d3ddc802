//! A dump that is written, as a line too, and loaded again.

use crate::runs::{
    Answer, Faults, NO_FAULTS, Turn, check_answers, check_end, check_outcome, check_run,
    check_turns, check_words, created, dumped, with_byte,
};
use kdb_base::Status;
use kdb_disk::MemoryDisk;
use std::alloc::Global;
use std::process::Abort;
use std::test::Fail;

const ADDED: &str = "addprinc -nokey bob";

const BOB: [Turn; 1] = [(ADDED, "ok 2 1700000000.000000")];

const GONE: [Turn; 1] = [("delprinc bob", "ok 3 1700000000.000000")];

const GONE_AGAIN: [Turn; 1] = [("delprinc bob", "ok 2 1700000000.000001")];

fn dumped_with_bob(rt: &impl Abort, alloc: Global, disk: &mut MemoryDisk) -> Result<Vec<u8>, Fail> {
    check_turns(rt, alloc, disk, "admin", &BOB)?;
    dumped(alloc, disk)
}

/// A dump without its end is refused.
fn check_cut(
    rt: &impl Abort,
    alloc: Global,
    disk: &mut MemoryDisk,
    dump: &[u8],
) -> Result<(), Fail> {
    assert!(rt; dump.ends_with(b"end 4\n"));
    let rows = dump.len() - 6;
    let reply = b"err 24 DumpBad 8\n";
    check_run(rt, alloc, disk, "load", &dump[..rows], reply)
}

/// The rows come back, behind a change that took one of them.
fn check_loaded(
    rt: &impl Abort,
    alloc: Global,
    disk: &mut MemoryDisk,
    dump: &[u8],
) -> Result<(), Fail> {
    check_words(rt, alloc, disk, "load x", b"err 1 BadLine\n")?;
    let loaded = b"ok 1 1700000000.000001\n";
    check_run(rt, alloc, disk, "load --", dump, loaded)?;
    check_turns(rt, alloc, disk, "admin", &GONE_AGAIN)
}

const ENDED: [Answer; 2] = [("destroy", b"ok\n"), ("load", b"err 20 NotADatabase\n")];

fn check_loads(rt: &impl Abort, alloc: Global, disk: &mut MemoryDisk) -> Result<(), Fail> {
    let mut dump = dumped_with_bob(rt, alloc, disk)?;
    check_turns(rt, alloc, disk, "admin", &GONE)?;
    check_cut(rt, alloc, disk, &dump)?;
    check_loaded(rt, alloc, disk, &dump)?;
    dump.push(b'x')?;
    check_run(rt, alloc, disk, "load", &dump, b"err 24 DumpBad 9\n")
}

// The rows come back, behind a change that took one of them. A dump that ends early, or that has more behind its
// end, is refused by that line, and the rows stay.
#[test]
fn a_dump_loaded(rt: HostRuntime) -> Result<(), Fail> {
    let mut disk = created(rt.alloc(), &[])?;
    check_loads(&rt, rt.alloc(), &mut disk)?;
    check_answers(&rt, rt.alloc(), &mut disk, &ENDED)
}

/// Lines behind a dump.
const BEHIND: &[u8] = b"listprincs\naddprinc -nokey svc\ncpw -randkey svc\nextract svc\n";

/// The end of a dump's answer, and the replies behind it. The keys are those of the fourth block of random bytes, which
/// are those of ChaCha20 under zeros (RFC 8439) and were made with OpenSSL: a dump takes a block too.
const REPLIES: &[u8] = b"ok\n- K/M@EXAMPLE.ORG\n- kadmin/history@EXAMPLE.ORG\n\
- krbtgt/EXAMPLE.ORG@EXAMPLE.ORG\nok\nok 2 1700000000.000000\nok 3 1700000000.000000\n\
- key 1 aes256-cts-hmac-sha1-96 8f530d653193e12de05ec8ea31e9f040b0e7f9faeb4ae6928e630eec7bb33e21\n\
- key 1 aes128-cts-hmac-sha1-96 14165291d76ea64e9c1d2a61bf28081e\nok\n";

fn push_marked(out: &mut Vec<u8>, line: &[u8]) -> Result<(), Fail> {
    out.extend_from_slice(b"- ")?;
    out.extend_from_slice(line)?;
    out.push(b'\n')?;
    Ok(())
}

/// The lines of a text, each behind a dash and a space.
fn marked(alloc: Global, text: &[u8]) -> Result<Vec<u8>, Fail> {
    let mut out = Vec::new(alloc);
    for line in text.split(|byte| *byte == b'\n') {
        if !line.is_empty() {
            push_marked(&mut out, line)?;
        }
    }
    Ok(out)
}

/// The lines of a database's dump, each behind its mark.
fn marked_dump(alloc: Global, disk: &mut MemoryDisk) -> Result<Vec<u8>, Fail> {
    let dump = dumped(alloc, disk)?;
    marked(alloc, &dump)
}

/// What the line and those behind it are answered.
fn answers(rt: &impl Abort, alloc: Global, disk: &mut MemoryDisk) -> Result<Vec<u8>, Fail> {
    let mut replies = marked_dump(alloc, disk)?;
    assert!(rt; replies.starts_with(b"- kdb dump 2\n- realm EXAMPLE.ORG\n"));
    assert!(rt; replies.ends_with(b"\n- end 3\n"));
    replies.extend_from_slice(REPLIES)?;
    Ok(replies)
}

/// Runs the line and those behind it.
fn check_lines(
    rt: &impl Abort,
    alloc: Global,
    disk: &mut MemoryDisk,
    replies: &[u8],
) -> Result<(), Fail> {
    let mut lines = b"dump\n".as_slice().to_vec(alloc)?;
    lines.extend_from_slice(BEHIND)?;
    let done = Status::Done;
    check_outcome(rt, alloc, disk, "admin", &lines, &NO_FAULTS, done, replies)
}

fn check_line(rt: &impl Abort, alloc: Global, disk: &mut MemoryDisk) -> Result<(), Fail> {
    let replies = answers(rt, alloc, disk)?;
    check_lines(rt, alloc, disk, &replies)
}

// As a line, it is answered by what the word writes, each line behind its mark, and by `ok`.
#[test]
fn a_dump_as_a_line(rt: HostRuntime) -> Result<(), Fail> {
    let mut disk = created(rt.alloc(), &[])?;
    check_line(&rt, rt.alloc(), &mut disk)
}

fn check_cut_line(rt: &impl Abort, alloc: Global, disk: &mut MemoryDisk) -> Result<(), Fail> {
    let lines = marked_dump(alloc, disk)?;
    let cut = Faults {
        sink: &[1],
        ..NO_FAULTS
    };
    let fault = Status::WriteFault;
    check_outcome(rt, alloc, disk, "admin", b"dump\n", &cut, fault, &lines)
}

fn check_undrawn_line(rt: &impl Abort, alloc: Global, disk: &mut MemoryDisk) -> Result<(), Fail> {
    let undrawn = Faults {
        draws: &[0],
        ..NO_FAULTS
    };
    let fault = Status::ReadFault;
    check_outcome(rt, alloc, disk, "admin", b"dump\n", &undrawn, fault, b"")
}

/// What `admin` writes of a dump where the second write fails, and where no random bytes are given.
#[test]
fn a_dump_as_a_line_that_is_cut(rt: HostRuntime) -> Result<(), Fail> {
    let mut disk = created(rt.alloc(), &[])?;
    check_cut_line(&rt, rt.alloc(), &mut disk)?;
    check_undrawn_line(&rt, rt.alloc(), &mut disk)
}

fn push_addition(alloc: Global, input: &mut Vec<u8>, number: u32) -> Result<(), Fail> {
    let line = format!(in alloc; "addprinc -nokey p{number}\n")?;
    input.extend_from_slice(line.as_bytes())?;
    Ok(())
}

/// Lines that add so many principals.
fn additions(alloc: Global, count: u32) -> Result<Vec<u8>, Fail> {
    let mut input = Vec::new(alloc);
    for number in 0..count {
        push_addition(alloc, &mut input, number)?;
    }
    Ok(input)
}

fn count_lines(text: &[u8]) -> u32 {
    let mut count = 0u32;
    for byte in text.iter() {
        if *byte == b'\n' {
            count = count.saturating_add(1);
        }
    }
    count
}

fn add_many(rt: &impl Abort, alloc: Global, disk: &mut MemoryDisk) -> Result<(), Fail> {
    let input = additions(alloc, 500)?;
    let last = b"\nok 501 1700000000.000000\n";
    check_end(rt, alloc, disk, &input, last)
}

/// The dump of a database with 500 principals more than a new one has.
fn long_dump(rt: &impl Abort, alloc: Global) -> Result<Vec<u8>, Fail> {
    let mut disk = created(alloc, &[])?;
    add_many(rt, alloc, &mut disk)?;
    dumped(alloc, &mut disk)
}

/// Loads a text into a new database.
fn check_load(rt: &impl Abort, alloc: Global, text: &[u8], reply: &[u8]) -> Result<(), Fail> {
    let mut disk = created(alloc, &[])?;
    check_run(rt, alloc, &mut disk, "load", text, reply)
}

const LOADED: &[u8] = b"ok 1 1700000000.000001\n";

fn check_first_version(rt: &impl Abort, alloc: Global, dump: &[u8]) -> Result<(), Fail> {
    let first_version = with_byte(alloc, dump, 9, b'1')?;
    assert!(rt; first_version.starts_with(b"kdb dump 1\n"));
    check_load(rt, alloc, &first_version, LOADED)
}

/// The dump, the same by the first version, and without its end.
fn check_long_loads(rt: &impl Abort, alloc: Global, dump: &[u8]) -> Result<(), Fail> {
    assert!(rt; dump.ends_with(b"end 503\n"));
    let rows = dump.len() - 8;
    check_load(rt, alloc, dump, LOADED)?;
    check_first_version(rt, alloc, dump)?;
    check_load(rt, alloc, &dump[..rows], b"err 24 DumpBad 507\n")
}

// Its first three lines, 503 rows and the end are 507 lines.
#[test]
fn a_dump_of_many_rows(rt: HostRuntime) -> Result<(), Fail> {
    let mut dump = long_dump(&rt, rt.alloc())?;
    assert_eq!(rt; count_lines(&dump), 507);
    check_long_loads(&rt, rt.alloc(), &dump)?;
    dump.push(b'x')?;
    check_load(&rt, rt.alloc(), &dump, b"err 24 DumpBad 508\n")
}

/// The lines of a text that is refused, those of the own dump by their numbers, and the reply.
type Hostile = (&'static [&'static str], &'static [u8]);

/// The own dump has seven lines: three that tell the version, the realm and the point, the
/// principals K/M, kadmin/history and krbtgt, and its end.
const HOSTILE: [Hostile; 8] = [
    (&[], b"err 24 DumpBad 1\n"),
    (
        &["kdb dump 9", "2", "3", "4", "5", "6", "7"],
        b"err 24 DumpBad 1\n",
    ),
    (
        &["1", "realm OTHER.ORG", "3", "4", "5", "6", "7"],
        b"err 24 DumpBad 2\n",
    ),
    // The names rise, and each stands once.
    (&["1", "2", "3", "5", "4", "6", "7"], b"err 24 DumpBad 5\n"),
    (
        &["1", "2", "3", "4", "4", "5", "6", "7"],
        b"err 24 DumpBad 5\n",
    ),
    (
        &["1", "2", "3", "4", "5", "6", "end 03"],
        b"err 24 DumpBad 7\n",
    ),
    (
        &["1", "2", "3", "4", "5", "6", "end 4"],
        b"err 24 DumpBad 7\n",
    ),
    // kadmin/history is lacking.
    (&["1", "2", "3", "4", "6", "end 2"], b"err 24 DumpBad 6\n"),
];

/// The line of a text that has this number; another word stands for itself.
fn line_of<'a>(text: &'a [u8], word: &'a [u8]) -> &'a [u8] {
    let mut digit = b'1';
    for line in text.split(|byte| *byte == b'\n') {
        if word == [digit].as_slice() {
            return line;
        }
        digit = digit.saturating_add(1);
    }
    word
}

/// Lines of a text, by their numbers, and others.
fn lines_of(alloc: Global, text: &[u8], words: &[&str]) -> Result<Vec<u8>, Fail> {
    let mut lines = Vec::new(alloc);
    for word in words {
        lines.extend_from_slice(line_of(text, word.as_bytes()))?;
        lines.push(b'\n')?;
    }
    Ok(lines)
}

/// Loads a text that is refused, and compares the own dump behind it with the one before.
fn check_refused(
    rt: &impl Abort,
    alloc: Global,
    disk: &mut MemoryDisk,
    text: &[u8],
    reply: &[u8],
) -> Result<(), Fail> {
    let before = dumped(alloc, disk)?;
    check_run(rt, alloc, disk, "load", text, reply)?;
    check_words(rt, alloc, disk, "dump", &before)
}

fn check_hostile(
    rt: &impl Abort,
    alloc: Global,
    disk: &mut MemoryDisk,
    dump: &[u8],
    words: &[&str],
    reply: &[u8],
) -> Result<(), Fail> {
    let text = lines_of(alloc, dump, words)?;
    check_refused(rt, alloc, disk, &text, reply)
}

fn check_hostile_dumps(rt: &impl Abort, alloc: Global, disk: &mut MemoryDisk) -> Result<(), Fail> {
    let dump = dumped(alloc, disk)?;
    for (words, reply) in HOSTILE {
        check_hostile(rt, alloc, disk, &dump, words, reply)?;
    }
    Ok(())
}

#[test]
fn hostile_dumps(rt: HostRuntime) -> Result<(), Fail> {
    let mut disk = created(rt.alloc(), &[])?;
    check_hostile_dumps(&rt, rt.alloc(), &mut disk)
}

/// The place of a letter in the sixth line: the last digit of 001e, the length of krbtgt's name,
/// with which its row begins.
const LETTER: usize = 780;

/// The place of a digit of the last byte of K/M's wrapped key, behind 55 bytes of three lines,
/// `princ ` and 172 bytes of the row.
const DIGIT: usize = 405;

fn check_letter(
    rt: &impl Abort,
    alloc: Global,
    disk: &mut MemoryDisk,
    dump: &[u8],
) -> Result<(), Fail> {
    let text = with_byte(alloc, dump, LETTER, b'E')?;
    check_refused(rt, alloc, disk, &text, b"err 24 DumpBad 6\n")
}

fn check_digit(
    rt: &impl Abort,
    alloc: Global,
    disk: &mut MemoryDisk,
    dump: &[u8],
    digit: u8,
) -> Result<(), Fail> {
    let text = with_byte(alloc, dump, DIGIT, digit)?;
    if text.as_slice() != dump {
        check_refused(rt, alloc, disk, &text, b"err 19 StashWrong\n")?;
    }
    Ok(())
}

fn check_hostile_bytes(rt: &impl Abort, alloc: Global, disk: &mut MemoryDisk) -> Result<(), Fail> {
    let dump = dumped(alloc, disk)?;
    check_letter(rt, alloc, disk, &dump)?;
    // One of the two may be the digit that stands there.
    for digit in [b'0', b'1'] {
        check_digit(rt, alloc, disk, &dump, digit)?;
    }
    Ok(())
}

#[test]
fn hostile_bytes_in_a_dump(rt: HostRuntime) -> Result<(), Fail> {
    let mut disk = created(rt.alloc(), &[])?;
    check_hostile_bytes(&rt, rt.alloc(), &mut disk)
}

const WITH_AN_ATTRIBUTE: [Turn; 2] = [
    (ADDED, "ok 2 1700000000.000000"),
    ("setstr bob color blue", "ok 3 1700000000.000000"),
];

/// The dump of a database, by the first version.
fn dumped_by_first_version(alloc: Global, disk: &mut MemoryDisk) -> Result<Vec<u8>, Fail> {
    let dump = dumped(alloc, disk)?;
    with_byte(alloc, &dump, 9, b'1')
}

fn check_attribute(rt: &impl Abort, alloc: Global, disk: &mut MemoryDisk) -> Result<(), Fail> {
    check_turns(rt, alloc, disk, "admin", &WITH_AN_ATTRIBUTE)?;
    let text = dumped_by_first_version(alloc, disk)?;
    check_refused(rt, alloc, disk, &text, b"err 24 DumpBad 5\n")
}

// Rows of the first version have none. The one of bob, which stands in the fifth line, is at fault.
#[test]
fn attributes_in_a_dump_of_the_first_version(rt: HostRuntime) -> Result<(), Fail> {
    let mut disk = created(rt.alloc(), &[])?;
    check_attribute(&rt, rt.alloc(), &mut disk)
}
