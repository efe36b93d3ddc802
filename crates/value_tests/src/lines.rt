//! Lines from a source that gives its bytes in pieces, and whose reads may fail.

use kadm_lines::{IntakeFault, LineReader, NextLine};
use kdb_base::MemoryOut;
use kdb_ports::{ReadFailed, Source};
use std::alloc::{AllocError, Global};
use std::test::Fail;

/// Gives its bytes in pieces of one size at most. The read of the number `fails` fails.
#[derive(Drop)]
struct Pieces {
    bytes: Vec<u8>,
    at: usize,
    size: usize,
    fails: u64,
    calls: u64,
    faults: u64,
}

impl Source for Pieces {
    ghost use Rattle.std.specs.Prelude.{None};

    ghost left = { λ _. None };

    ghost faults = { λ s. s.faults };

    fn read(&mut self, into: &mut [u8]) -> Result<usize, ReadFailed> {
        let call = self.calls;
        self.calls = call.saturating_add(1);
        if call == self.fails {
            self.faults = self.faults.saturating_add(1);
            return Err(ReadFailed);
        }
        let rest = &self.bytes[self.at.min(self.bytes.len())..];
        let count = rest.len().min(into.len()).min(self.size);
        into[..count].copy_from_slice(&rest[..count]);
        self.at = self.at.saturating_add(count);
        Ok(count)
    }
}

/// Inputs, by how many bytes each line has, and whether a line feed ends it.
const INPUTS: [&[(usize, bool)]; 11] = [
    &[],
    &[(3, true)],
    &[(3, false)],
    &[(0, true)],
    &[(0, true), (0, true), (1, true), (0, true), (2, false)],
    &[(65536, true), (1, true)],
    &[(65536, false)],
    &[(65537, true), (1, true)],
    &[(65537, false)],
    &[(70000, true), (200000, true), (5, true), (90000, false)],
    &[
        (40000, true),
        (50000, true),
        (60000, true),
        (30000, true),
        (65536, true),
        (7, false),
    ],
];

/// The byte of which the line of this number is made.
fn letter(line: usize) -> u8 {
    b'a' + (line % 26) as u8
}

fn input_of(alloc: Global, lines: &[(usize, bool)]) -> Result<Vec<u8>, AllocError> {
    let mut bytes = Vec::new(alloc);
    for (number, (length, ended)) in lines.iter().enumerate() {
        for _ in 0..*length {
            bytes.push(letter(number))?;
        }
        if *ended {
            bytes.push(b'\n')?;
        }
    }
    Ok(bytes)
}

/// The next line, asked for again after a fault, which the source has once at most.
fn next_line(reader: &mut LineReader, source: &mut Pieces) -> Result<NextLine, IntakeFault> {
    match reader.advance(source) {
        Err(IntakeFault::ReadFault) => reader.advance(source),
        answer => answer,
    }
}

/// Whether the next line is this one.
fn comes(
    reader: &mut LineReader,
    source: &mut Pieces,
    number: usize,
    length: usize,
    ended: bool,
) -> bool {
    let answer = next_line(reader, source);
    let text = reader.text();
    if length > 65536 {
        answer == Ok(NextLine::TooLong { ended }) && text.is_empty()
    } else {
        let same = text.iter().all(|byte| *byte == letter(number));
        answer == Ok(NextLine::Line { ended }) && text.len() == length && same
    }
}

/// How many of these lines come, and then the end.
fn count_lines(reader: &mut LineReader, source: &mut Pieces, lines: &[(usize, bool)]) -> usize {
    for (number, (length, ended)) in lines.iter().enumerate() {
        if !comes(reader, source, number, *length, *ended) {
            return number;
        }
    }
    let end = next_line(reader, source);
    if end == Ok(NextLine::End) {
        lines.len() + 1
    } else {
        lines.len()
    }
}

/// How many of these lines come, and then the end, from a source of such pieces.
fn lines_read(
    alloc: Global,
    lines: &[(usize, bool)],
    size: usize,
    fails: u64,
) -> Result<usize, MemoryOut> {
    let bytes = input_of(alloc, lines)?;
    let mut reader = LineReader::new(alloc)?;
    let mut source = Pieces {
        bytes,
        at: 0,
        size,
        fails,
        calls: 0,
        faults: 0,
    };
    Ok(count_lines(&mut reader, &mut source, lines))
}

#[test]
fn gives_the_lines_in_pieces_of_any_size(rt: HostRuntime) -> Result<(), Fail> {
    for (number, lines) in INPUTS.iter().enumerate() {
        for size in [1, 7, 65536] {
            // all reads succeed, and then the second fails
            for fails in [u64::MAX, 1] {
                let count = lines_read(rt.alloc(), lines, size, fails)?;
                assert_eq!(rt;
                    count,
                    lines.len() + 1,
                    "input {number} in pieces of {size}, failing at {fails}"
                );
            }
        }
    }
    Ok(())
}
