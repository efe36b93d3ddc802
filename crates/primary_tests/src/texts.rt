//! Dumps as texts.

use dump_text::{Dump, DumpReader, DumpStop, write_dump};
use kdb_base::{Fails, Point};
use kdb_ports::MemorySink;
use princ_rows::Rows;
use std::alloc::Global;
use std::test::Fail;

/// The dump of these rows.
pub(crate) fn written_dump(
    alloc: Global,
    realm: &[u8],
    point: Point,
    rows: &Rows,
) -> Result<Vec<u8>, Fail> {
    let mut sink = MemorySink::new(alloc, Fails::none(alloc))?;
    write_dump(alloc, realm, point, rows, &mut sink)?;
    Ok(sink.written().to_vec(alloc)?)
}

fn feed_pieces(reader: &mut DumpReader, text: &[u8]) -> Result<(), DumpStop> {
    for piece in text.chunks(1000) {
        reader.feed(piece)?;
    }
    Ok(())
}

/// What the text says.
pub(crate) fn read_text(alloc: Global, text: &[u8]) -> Result<Dump, DumpStop> {
    let mut reader = match DumpReader::new(alloc) {
        Ok(reader) => reader,
        Err(_) => return Err(DumpStop::MemoryOut),
    };
    match feed_pieces(&mut reader, text) {
        Ok(()) => reader.finish(),
        Err(stop) => {
            drop(reader);
            Err(stop)
        }
    }
}

/// Whether the text is no dump, by this line.
pub(crate) fn is_bad_at(alloc: Global, text: &[u8], line: u32) -> bool {
    match read_text(alloc, text) {
        Ok(dump) => {
            drop(dump);
            false
        }
        Err(DumpStop::DumpBad { line: found }) => found == line,
        Err(_) => false,
    }
}

pub(crate) fn count_lines(text: &[u8]) -> u32 {
    let mut count = 0u32;
    for byte in text.iter() {
        if *byte == b'\n' {
            count = count.saturating_add(1);
        }
    }
    count
}
