use kdb_format::{Format, FormatFault, read_whole};
use princ_rows::entries::{LoggedFormat, SentFormat};
use std::alloc::Global;
use std::process::Abort;
use std::test::*;

// The serial 5, 1700000000 seconds, which are 6553f100 in hexadecimal, and 7 microseconds.
const POINT: &[u8] = b"\0\0\0\x05\x65\x53\xf1\0\0\0\0\x07";

// The number of a unit, which stands in the log alone.
const CELL: &[u8] = b"\0\0\0\x03";

const NONE: &[u8] = b"\0\0";

const KEY: &[u8] = b"\0\x03b@R";

// The row of b@R behind its length of 51 bytes: no attributes, four numbers of lives, a modification of
// 1700000000 by a@R, no keys, no policy, and nothing remembered.
const ROW: &[u8] =
    b"\0\x33\0\x03b@R\0\0\0\0\0\0\0\0\0\0\0\0\0\0\0\0\0\0\0\0\0\x02\0\x02\0\x08\0\xf1\x53\x65a@R\0\0\x08\0\x02\x01\0\0\0\0\0\0\0";

const POLICY_KEY: &[u8] = b"\0\x03std";

// The row of a policy behind its length of 19 bytes.
const POLICY_ROW: &[u8] = b"\0\x13\0\x03std\0\0\0\x3c\0\0\0\x0a\0\x08\0\x03\0\x02";

fn joined(alloc: Global, parts: &[&[u8]]) -> Result<Vec<u8>, FormatFault> {
    let mut out = Vec::new(alloc);
    for part in parts {
        out.extend_from_slice(part)?;
    }
    Ok(out)
}

/// What bytes that are no entry are answered by.
fn none_by(fault: FormatFault) -> Result<bool, FormatFault> {
    match fault {
        FormatFault::Malformed => Ok(false),
        FormatFault::MemoryOut => Err(FormatFault::MemoryOut),
    }
}

/// Whether the bytes are an entry of the log, which is then written as it was read.
fn is_logged(alloc: Global, bytes: &[u8]) -> Result<bool, FormatFault> {
    match read_whole::<LoggedFormat>(alloc, bytes) {
        Ok(logged) => {
            let mut out = Vec::new(alloc);
            let written = LoggedFormat::write(&mut out, &logged);
            drop(logged);
            written?;
            Ok(out.as_slice() == bytes)
        }
        Err(fault) => none_by(fault),
    }
}

/// The same of an entry on the wire.
fn is_sent(alloc: Global, bytes: &[u8]) -> Result<bool, FormatFault> {
    match read_whole::<SentFormat>(alloc, bytes) {
        Ok(entry) => {
            let mut out = Vec::new(alloc);
            let written = SentFormat::write(&mut out, &entry);
            drop(entry);
            written?;
            Ok(out.as_slice() == bytes)
        }
        Err(fault) => none_by(fault),
    }
}

fn stands_logged(alloc: Global, kind: u8, key: &[u8], row: &[u8]) -> Result<bool, FormatFault> {
    let logged = joined(alloc, &[POINT, &[kind], CELL, key, row])?;
    is_logged(alloc, &logged)
}

fn stands_sent(alloc: Global, kind: u8, key: &[u8], row: &[u8]) -> Result<bool, FormatFault> {
    let sent = joined(alloc, &[POINT, &[kind], key, row])?;
    is_sent(alloc, &sent)
}

/// Whether there is an entry of this kind, key and row in the log, and on the wire.
fn stands(alloc: Global, kind: u8, key: &[u8], row: &[u8]) -> Result<(bool, bool), FormatFault> {
    let logged = stands_logged(alloc, kind, key, row)?;
    let sent = stands_sent(alloc, kind, key, row)?;
    Ok((logged, sent))
}

/// A kind, a key and a row, and where such an entry stands: in the log, and on the wire.
const ENTRIES: [(u8, &[u8], &[u8], (bool, bool)); 18] = [
    // The base marker has no key and no row, and never stands on the wire.
    (0, NONE, NONE, (true, false)),
    (0, KEY, NONE, (false, false)),
    (0, NONE, ROW, (false, false)),
    (1, KEY, ROW, (true, true)),
    // A key that is not the row's name, no row, one of another kind, and one that is cut.
    (1, b"\0\x03c@R", ROW, (false, false)),
    (1, KEY, NONE, (false, false)),
    (1, POLICY_KEY, POLICY_ROW, (false, false)),
    (1, KEY, b"\0\x33\0\x03b@R", (false, false)),
    (2, KEY, NONE, (true, true)),
    // A row behind a drop, and a key that is no printed name.
    (2, KEY, ROW, (false, false)),
    (2, b"\0\x01b", NONE, (false, false)),
    (3, b"\0\x03c@R", ROW, (true, true)),
    (3, b"\0\x01c", ROW, (false, false)),
    (4, POLICY_KEY, POLICY_ROW, (true, true)),
    (4, b"\0\x03sty", POLICY_ROW, (false, false)),
    (5, POLICY_KEY, NONE, (true, true)),
    (5, POLICY_KEY, POLICY_ROW, (false, false)),
    // A kind that there is not.
    (6, KEY, NONE, (false, false)),
];

#[test]
fn what_is_an_entry(rt: HostRuntime) -> Result<(), FormatFault> {
    for (kind, key, row, wanted) in ENTRIES.iter() {
        let found = stands(rt.alloc(), *kind, key, row)?;
        assert_eq!(rt; found, *wanted, "kind {kind}, key {key:?}");
    }
    Ok(())
}

/// The row of b@R with a key of so many wrapped bytes, behind its length: 61 bytes, and the wrapped ones.
fn long_row(alloc: Global, wrapped: u16) -> Result<Vec<u8>, FormatFault> {
    let mut row = Vec::new(alloc);
    row.extend_from_slice(&61u16.saturating_add(wrapped).to_be_bytes())?;
    row.extend_from_slice(&ROW[2..47])?;
    row.extend_from_slice(b"\0\x01\0\x01\0\x12\0\0\0\0")?;
    row.extend_from_slice(&wrapped.to_be_bytes())?;
    for _ in 0..wrapped {
        row.push(7)?;
    }
    row.extend_from_slice(b"\0\0\0\0")?;
    Ok(row)
}

/// A put and a rename with a row of so many wrapped bytes.
fn check_long_row(
    rt: &impl Abort,
    alloc: Global,
    wrapped: u16,
    wanted: bool,
) -> Result<(), FormatFault> {
    let row = long_row(alloc, wrapped)?;
    for (kind, key) in [(1, KEY), (3, b"\0\x03c@R")] {
        let found = stands(alloc, kind, key, &row)?;
        assert_eq!(rt; found, (wanted, wanted), "kind {kind}, {wrapped} bytes");
    }
    Ok(())
}

#[test]
fn a_row_has_at_most_16000_bytes(rt: HostRuntime) -> Result<(), FormatFault> {
    check_long_row(&rt, rt.alloc(), 15_939, true)?;
    check_long_row(&rt, rt.alloc(), 15_940, false)
}
