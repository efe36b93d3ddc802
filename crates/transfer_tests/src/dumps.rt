use dump_text::{Dump, DumpReader, DumpStop, write_dump};
use kdb_ports::{Sink, WriteFailed};
use std::alloc::Global;
use std::process::Abort;
use std::test::Fail;

/// A database without rows.
const EMPTY: &[u8] = b"kdb dump 2\nrealm R\npoint 1 0.000000\nend 0\n";

const HEAD: &[u8] = b"kdb dump 2\nrealm R\npoint 1 0.000000\n";

/// The principal a@R: its counted name, no attributes, lives of 0, the tagged list of two items, who
/// changed it (2) at 1700000000 and its version of the master key (8), no keys, no policy, no old keys.
const PRINC: &[u8] =
    b"princ 0003614052000000000000000000000000000000000000000000020002000800f1536561405200000800020100000000000000";

const UPPER_PRINC: &[u8] =
    b"princ 0003614052000000000000000000000000000000000000000000020002000800F1536561405200000800020100000000000000";

/// The principal b@R, else the same.
const LATER_PRINC: &[u8] =
    b"princ 0003624052000000000000000000000000000000000000000000020002000800f1536561405200000800020100000000000000";

/// The policy std: its counted name, a greatest life of an hour and a least one of 0, at least 8 bytes of
/// 2 classes, and a history of 1.
const POLICY: &[u8] = b"policy 000373746400000e1000000000000800020001";

const ROWS: [&[u8]; 5] = [HEAD, PRINC, b"\n", POLICY, b"\nend 2\n"];

/// Takes one byte a write. The write of the number `fails` fails.
#[derive(Drop)]
struct OneByteSink {
    bytes: Vec<u8>,
    fails: usize,
    faults: u64,
}

impl Sink for OneByteSink {
    ghost use Rattle.std.specs.Prelude.{None};

    ghost taken = { λ _. None };

    ghost faults = { λ s. s.faults };

    fn write(&mut self, bytes: &[u8]) -> Result<usize, WriteFailed> {
        let fails = self.bytes.len() == self.fails;
        if fails || self.bytes.push(bytes[0]).is_err() {
            self.faults = self.faults.saturating_add(1);
            return Err(WriteFailed);
        }
        Ok(1)
    }
}

fn joined(alloc: Global, parts: &[&[u8]]) -> Result<Vec<u8>, Fail> {
    let mut text = Vec::new(alloc);
    for part in parts {
        text.extend_from_slice(part)?;
    }
    Ok(text)
}

fn new_reader(alloc: Global) -> Result<DumpReader, DumpStop> {
    match DumpReader::new(alloc) {
        Ok(reader) => Ok(reader),
        Err(_) => Err(DumpStop::MemoryOut),
    }
}

fn feed_pieces(reader: &mut DumpReader, text: &[u8], size: usize) -> Result<(), DumpStop> {
    for piece in text.chunks(size.max(1)) {
        reader.feed(piece)?;
    }
    Ok(())
}

/// Reads a text in pieces of this size.
fn read(alloc: Global, text: &[u8], size: usize) -> Result<Dump, DumpStop> {
    let mut reader = new_reader(alloc)?;
    feed_pieces(&mut reader, text, size)?;
    reader.finish()
}

/// The line at which a text that comes in pieces of this size is bad, and 0 where it is a dump.
fn bad_line(alloc: Global, text: &[u8], size: usize) -> u32 {
    match read(alloc, text, size) {
        Ok(_) => 0,
        Err(DumpStop::DumpBad { line }) => line,
        Err(_) => u32::MAX,
    }
}

fn write(alloc: Global, dump: &Dump, sink: &mut OneByteSink) -> Result<(), DumpStop> {
    write_dump(alloc, dump.realm.as_slice(), dump.point, &dump.rows, sink)
}

fn sink_of(alloc: Global, fails: usize) -> OneByteSink {
    OneByteSink {
        bytes: Vec::new(alloc),
        fails,
        faults: 0,
    }
}

/// The dump is written as this text.
fn check_written(rt: &impl Abort, alloc: Global, dump: &Dump, text: &[u8]) -> Result<(), Fail> {
    let mut sink = sink_of(alloc, 1000);
    write(alloc, dump, &mut sink)?;
    assert_eq!(rt; sink.bytes.as_slice(), text);
    Ok(())
}

/// The text is read, in pieces of this size, and written again.
fn check_again(rt: &impl Abort, alloc: Global, text: &[u8], size: usize) -> Result<(), Fail> {
    let dump = read(alloc, text, size)?;
    check_written(rt, alloc, &dump, text)
}

#[test]
fn dumps_are_read_and_written(rt: HostRuntime) -> Result<(), Fail> {
    let rows = joined(rt.alloc(), &ROWS)?;
    for text in [EMPTY, rows.as_slice()] {
        for size in [1, 7, 1000] {
            check_again(&rt, rt.alloc(), text, size)?;
        }
    }
    Ok(())
}

/// The dump of the rows, in pieces of this size.
fn dump_of_rows(alloc: Global, size: usize) -> Result<Dump, Fail> {
    let rows = joined(alloc, &ROWS)?;
    Ok(read(alloc, &rows, size)?)
}

#[test]
fn what_a_dump_says(rt: HostRuntime) -> Result<(), Fail> {
    let dump = dump_of_rows(rt.alloc(), 3)?;
    assert_eq!(rt; dump.realm.as_slice(), b"R".as_slice());
    assert_eq!(rt; (dump.point.sno, dump.point.time.secs()), (1, 0));
    assert_eq!(rt; dump.rows.princs().len(), 1);
    assert!(rt; dump.rows.princ(b"a@R").is_some());
    assert!(rt; dump.rows.policy(b"std").is_some());
    Ok(())
}

#[test]
fn a_sink_that_fails(rt: HostRuntime) -> Result<(), Fail> {
    let dump = dump_of_rows(rt.alloc(), 1000)?;
    let mut sink = sink_of(rt.alloc(), 36);
    assert_eq!(rt;
        write(rt.alloc(), &dump, &mut sink),
        Err(DumpStop::WriteFault)
    );
    assert_eq!(rt; sink.bytes.as_slice(), HEAD);
    Ok(())
}

/// Texts that are nearly dumps, and the line at which each is bad.
const NEAR: [(&[&[u8]], u32); 18] = [
    (&[EMPTY], 0),
    (&[b"kdb dump 9\nrealm R\n"], 1),
    (&[b"kdb dump 2 \n"], 1),
    (&[b"kdb dump 2\nrealm R S\n"], 2),
    (&[b"kdb dump 2\nrealm R\npoint 01 0.000000\n"], 3),
    (&[b"kdb dump 2\nrealm R\npoint 1 0.00000\n"], 3),
    (&[b"kdb dump 2\nrealm R\npoint 4294967296 0.000000\n"], 3),
    (&[HEAD, UPPER_PRINC, b"\nend 1\n"], 4),
    (&[HEAD, PRINC, b"0\nend 1\n"], 4),
    (&[HEAD, LATER_PRINC, b"\n", PRINC, b"\nend 2\n"], 5),
    (&[HEAD, PRINC, b"\n", PRINC, b"\nend 2\n"], 5),
    (&[HEAD, POLICY, b"\n", PRINC, b"\nend 2\n"], 5),
    (&[HEAD, PRINC, b"\nend 2\n"], 5),
    (&[HEAD], 4),
    (&[HEAD, b"end 0"], 4),
    (&[HEAD, b"end 00\n"], 4),
    (&[EMPTY, b"x"], 5),
    (&[], 1),
];

/// The text of these parts is bad at this line, in pieces of any size.
fn check_near(rt: &impl Abort, alloc: Global, parts: &[&[u8]], line: u32) -> Result<(), Fail> {
    let text = joined(alloc, parts)?;
    for size in [1, 5, 1000] {
        assert_eq!(rt; bad_line(alloc, &text, size), line);
    }
    Ok(())
}

#[test]
fn near_misses(rt: HostRuntime) -> Result<(), Fail> {
    for (parts, line) in NEAR {
        check_near(&rt, rt.alloc(), parts, line)?;
    }
    Ok(())
}

/// The first lines of both versions.
const FIRST: &[u8] = b"kdb dump 1\n";

const SECOND: &[u8] = b"kdb dump 2\n";

/// The lines behind them.
const REALM_AND_POINT: &[u8] = b"realm R\npoint 1 0.000000\n";

/// The line of PRINC up to its keys.
const ROW_FRONT: &[u8] =
    b"princ 0003614052000000000000000000000000000000000000000000020002000800f1536561405200000800020100";

/// The same principal with the string attribute k of the value v (11) behind its other items.
const ATTRIBUTES: &[u8] =
    b"princ 0003614052000000000000000000000000000000000000000000030002000800f1536561405200000800020100000b00046b007600000000000000";

/// A dump of one principal whose row has 61 bytes and those of its wrapped key, which is so long.
fn one_row(alloc: Global, title: &[u8], length: &[u8], bytes: u16) -> Result<Vec<u8>, Fail> {
    let key = vec![in alloc; b'0'; 2 * usize::from(bytes)]?;
    joined(
        alloc,
        &[
            title,
            REALM_AND_POINT,
            ROW_FRONT,
            b"00010001001200000000",
            length,
            &key,
            b"00000000\nend 1\n",
        ],
    )
}

/// A dump of one row is bad at this line.
fn check_row(
    rt: &impl Abort,
    alloc: Global,
    title: &[u8],
    length: &[u8],
    bytes: u16,
    line: u32,
) -> Result<(), Fail> {
    let text = one_row(alloc, title, length, bytes)?;
    assert_eq!(rt; bad_line(alloc, &text, 1000), line);
    Ok(())
}

#[test]
fn rows_of_the_versions(rt: HostRuntime) -> Result<(), Fail> {
    // Rows of 8000, 8001, 16000 and 16001 bytes.
    let rows: [(&[u8], u16, u32, u32); 4] = [
        (b"1f03", 7939, 0, 0),
        (b"1f04", 7940, 4, 0),
        (b"3e43", 15939, 4, 0),
        (b"3e44", 15940, 4, 4),
    ];
    for (length, bytes, first, second) in rows {
        check_row(&rt, rt.alloc(), FIRST, length, bytes, first)?;
        check_row(&rt, rt.alloc(), SECOND, length, bytes, second)?;
    }
    Ok(())
}

/// Attributes are bad at this line of a dump with this title.
fn check_attributes(rt: &impl Abort, alloc: Global, title: &[u8], line: u32) -> Result<(), Fail> {
    let text = joined(alloc, &[title, REALM_AND_POINT, ATTRIBUTES, b"\nend 1\n"])?;
    for size in [1, 1000] {
        assert_eq!(rt; bad_line(alloc, &text, size), line);
    }
    Ok(())
}

#[test]
fn attributes_stand_in_the_second_version(rt: HostRuntime) -> Result<(), Fail> {
    for (title, line) in [(FIRST, 4), (SECOND, 0)] {
        check_attributes(&rt, rt.alloc(), title, line)?;
    }
    Ok(())
}

/// The dump of the rows in the first version.
fn old_dump(alloc: Global) -> Result<Dump, Fail> {
    let old = joined(
        alloc,
        &[FIRST, REALM_AND_POINT, PRINC, b"\n", POLICY, b"\nend 2\n"],
    )?;
    Ok(read(alloc, &old, 1)?)
}

#[test]
fn the_first_version_is_read(rt: HostRuntime) -> Result<(), Fail> {
    let new = joined(rt.alloc(), &ROWS)?;
    let dump = old_dump(rt.alloc())?;
    check_written(&rt, rt.alloc(), &dump, &new)
}

#[test]
fn a_bad_line_is_told_at_once(rt: HostRuntime) -> Result<(), Fail> {
    let mut reader = DumpReader::new(rt.alloc())?;
    reader.feed(HEAD)?;
    let bad = Err(DumpStop::DumpBad { line: 4 });
    assert_eq!(rt; reader.feed(&[b'a'; 32007]), bad);
    assert_eq!(rt; reader.feed(b"end 0\n"), bad);
    assert_eq!(rt; reader.finish().err(), bad.err());
    Ok(())
}
