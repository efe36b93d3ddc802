// The rows a second that are read from a dump and written as one, of principals with two keys.

use crate::records;
use crate::timing::{print_rate, seconds_since};
use anyhow::Result;
use dump_text::{Dump, DumpReader, write_dump};
use kdb_ports::WriterSink;
use princ_record::encode;
use std::alloc::Global;
use std::io::{Read, Write};
use std::time::{CpuClock, Duration};

/// Rows of the dump.
const ROWS: u32 = 50_000;
/// Bytes of a piece in which the dump is read.
const PIECE: usize = 65_536;
/// The length of the sample's name in its row, and of the names that take its place.
const NAME: usize = 22;

/// Adds two digits for each byte.
fn push_hex(text: &mut Vec<u8>, bytes: &[u8]) -> Result<()> {
    for byte in bytes {
        write!(text, "{byte:02x}")?;
    }
    Ok(())
}

/// A dump whose principals are the sample's row under names of their own, in order.
fn dump_of(alloc: Global, row: &[u8]) -> Result<Vec<u8>> {
    let behind = row.get(2 + NAME..).unwrap_or_default();
    let mut text = Vec::new(alloc);
    write!(
        text,
        "kdb dump 2\nrealm ATHENA.MIT.EDU\npoint 1 1700000000.000000\n"
    )?;
    for number in 0..ROWS {
        write!(text, "princ 0016")?;
        let name = format!(in alloc; "n{number:06}@ATHENA.MIT.EDU")?;
        push_hex(&mut text, name.as_bytes())?;
        push_hex(&mut text, behind)?;
        write!(text, "\n")?;
    }
    write!(text, "end {ROWS}\n")?;
    Ok(text)
}

fn read(alloc: Global, text: &[u8]) -> Result<Dump> {
    let mut reader = DumpReader::new(alloc)?;
    for piece in text.chunks(PIECE) {
        reader.feed(piece)?;
    }
    Ok(reader.finish()?)
}

/// The dump of the sample.
fn sample_text(alloc: Global) -> Result<Vec<u8>> {
    let princ = records::sample(alloc)?;
    let row = encode(alloc, &princ)?;
    dump_of(alloc, row.as_slice())
}

/// Prints how many rows went by in a second since `start`.
fn print_since<R: CpuClock + Print>(rt: &R, name: &str, start: Duration) -> Result<()> {
    print_rate(rt, name, ROWS, seconds_since(rt, start)?)?;
    Ok(())
}

/// Reads the dump, and prints how fast.
fn time_reading<R: CpuClock + Print>(rt: &R, alloc: Global, text: &[u8]) -> Result<Dump> {
    let start = rt.process_cpu_time()?;
    let dump = read(alloc, text)?;
    print_since(rt, "  read", start)?;
    Ok(dump)
}

/// The text of a dump.
fn written(alloc: Global, dump: &Dump) -> Result<Vec<u8>> {
    let mut sink = WriterSink::new(Vec::new(alloc));
    write_dump(
        alloc,
        dump.realm.as_slice(),
        dump.point,
        &dump.rows,
        &mut sink,
    )?;
    Ok(sink.into_writer())
}

/// Writes the dump, and prints how fast.
fn time_writing<R: CpuClock + Print>(rt: &R, alloc: Global, dump: &Dump) -> Result<Vec<u8>> {
    let start = rt.process_cpu_time()?;
    let text = written(alloc, dump)?;
    print_since(rt, "  write", start)?;
    Ok(text)
}

/// Reads and writes the dump.
fn time_both<R: CpuClock + Print>(rt: &R, alloc: Global, text: &[u8]) -> Result<()> {
    let dump = time_reading(rt, alloc, text)?;
    let again = time_writing(rt, alloc, &dump)?;
    if again.as_slice() != text {
        println!(rt; "  what was written is not what was read")?;
    }
    Ok(())
}

/// Prints all figures of dumps.
pub fn report<R: CpuClock + Print>(rt: &R, alloc: Global) -> Result<()> {
    println!(rt; "a dump of principals with two keys")?;
    let text = sample_text(alloc)?;
    time_both(rt, alloc, &text)
}

/// Reads a dump from the input, and prints how many rows are then in memory. A run takes the memory of these rows, the
/// piece that was read last, and little else.
pub fn hold(rt: &HostRuntime, alloc: Global) -> Result<()> {
    let mut input = rt.stdin();
    let mut reader = DumpReader::new(alloc)?;
    let mut piece = [0u8; PIECE];
    for _ in 0..u32::MAX {
        let count = input.read(&mut piece)?;
        if count == 0 {
            break;
        }
        reader.feed(piece.get(..count).unwrap_or_default())?;
    }
    let dump = reader.finish()?;
    let rows = dump.rows.princs().len();
    println!(rt; "rows {rows}")?;
    Ok(())
}
