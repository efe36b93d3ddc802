//! A dump read from an input, which is read to its end.

ghost use Rattle.std.specs.Prelude.{◌≡◌, ◌≤◌, ◌<◌, ◌++◌, [], List, ℕ, Err, IfErr};
ghost use Rattle.std.specs.Prelude.{IfOk, IfSome, OnOk, length, option_map};
ghost use Rattle.dump_text.specs.Judged.{judged};
ghost use Rattle.dump_text.specs.Reader.{judged_with};
ghost use Rattle.session_base.specs.Wholes.{IsReadWhole, WereTaken};
ghost use Rattle.session_base.specs.Halts.{Counts, IsReadHalt};
ghost use Rattle.kdb_ports.specs.Told.{IsSpent};

use dump_text::{Dump, DumpReader, DumpStop};
use kdb_base::MemoryOut;
use kdb_ports::Source;
use session_base::SessionHalt;
use std::alloc::Global;

/// How many bytes are taken from an input at most.
const INPUT_LIMIT: u64 = 4294967296;

/// How many bytes are read at once.
const PIECE: usize = 65536;

// So many bytes.
fn blank(alloc: Global, size: usize) -> Result<Vec<u8>, MemoryOut>
    ensures { IfOk result (λ bytes. length bytes.items ≡ size) }
{
    let bytes = vec![in alloc; 0u8; size]?;
    Ok(bytes)
}

// Feeds a piece. Where a line of the text is bad, the reader keeps that, and what comes later is let go.
fn feed_piece(reader: &mut DumpReader, piece: &[u8]) -> Result<(), MemoryOut>
    ensures { OnOk result ((rest : List ℕ) → judged_with reader.new rest ≡ judged_with reader.old (piece.now ++ rest)) }
{
    match reader.feed(piece) {
        Ok(()) => Ok(()),
        Err(DumpStop::DumpBad { .. }) => Ok(()),
        Err(_) => Err(MemoryOut),
    }
}

// Reads into the front of the buffer, so many bytes at most, and feeds them. It answers how many they were.
fn feed_next<S: Source>(
    source: &mut S,
    reader: &mut DumpReader,
    buffer: &mut [u8],
    room: usize,
) -> Result<usize, SessionHalt>
    requires some { 0 < room }
    requires bound { room ≤ length buffer.old }
    ensures bound { IfOk result (λ n. n ≤ room) }
    ensures judged { OnOk result (option_map (judged_with reader.new) (S.left source.new)
        ≡ option_map (judged_with reader.old) (S.left source.old)) }
    ensures taken { IfOk result (λ n. WereTaken n (S.left source.old) (S.left source.new)) }
    ensures end { IfOk result (λ n. n ≡ 0 → IsSpent (S.left source.new)) }
    ensures halt { IfErr result IsReadHalt }
    ensures not_long { result ≡ Err SessionHalt.InputTooLong → ⊥ }
    ensures faults { Counts (S.faults source.old) (S.faults source.new) (result ≡ Err SessionHalt.ReadFault) }
{
    match source.read(&mut buffer[..room]) {
        Ok(count) => match feed_piece(reader, &buffer[..count]) {
            Ok(()) => Ok(count),
            Err(_) => Err(SessionHalt::MemoryOut),
        },
        Err(_) => Err(SessionHalt::ReadFault),
    }
}

// Feeds the whole input, up to its end.
fn feed_all<S: Source>(
    source: &mut S,
    reader: &mut DumpReader,
    buffer: &mut [u8],
) -> Result<(), SessionHalt>
    requires { length buffer.old ≡ 65536 }
    ensures judged { (text : List ℕ) → S.left source.old ≡ Some text
        → OnOk result (judged_with reader.new [] ≡ judged_with reader.old text) }
    ensures read { OnOk result (IsReadWhole (S.left source.old) (S.left source.new)) }
    ensures too_long { result ≡ Err SessionHalt.InputTooLong
        → WereTaken 4294967296 (S.left source.old) (S.left source.new) }
    ensures halt { IfErr result IsReadHalt }
    ensures faults { Counts (S.faults source.old) (S.faults source.new) (result ≡ Err SessionHalt.ReadFault) }
{
    let mut taken: u64 = 0;
    loop {
        let limit = INPUT_LIMIT - taken;
        if limit == 0 {
            return Err(SessionHalt::InputTooLong);
        }
        let room = limit.min(PIECE as u64) as usize;
        match feed_next(source, reader, buffer, room) {
            Ok(count) => {
                if count == 0 {
                    return Ok(());
                }
                taken += count as u64;
            }
            Err(halt) => return Err(halt),
        }
    }
}

// What the reader came to: a dump, or the first bad line.
fn finish(reader: DumpReader) -> Result<Dump, u32>
    ensures { result ≡ judged_with reader [] }
{
    match reader.finish() {
        Ok(dump) => Ok(dump),
        Err(DumpStop::DumpBad { line }) => Err(line),
        Err(_) => Err(0),
    }
}

// Feeds the whole input to the reader, and gives what it came to.
fn read_with<S: Source>(
    source: &mut S,
    reader: DumpReader,
    buffer: &mut [u8],
) -> Result<Result<Dump, u32>, SessionHalt>
    requires { length buffer.old ≡ 65536 }
    ensures judged { (text : List ℕ) → S.left source.old ≡ Some text
        → IfOk result (λ read. read ≡ judged_with reader text) }
    ensures read { OnOk result (IsReadWhole (S.left source.old) (S.left source.new)) }
    ensures too_long { result ≡ Err SessionHalt.InputTooLong
        → WereTaken 4294967296 (S.left source.old) (S.left source.new) }
    ensures halt { IfErr result IsReadHalt }
    ensures faults { Counts (S.faults source.old) (S.faults source.new) (result ≡ Err SessionHalt.ReadFault) }
{
    let mut reader = reader;
    match feed_all(source, &mut reader, buffer) {
        Ok(()) => Ok(finish(reader)),
        Err(halt) => Err(halt),
    }
}

// Reads the whole input through the buffer.
fn read_through<S: Source>(
    alloc: Global,
    source: &mut S,
    buffer: &mut [u8],
) -> Result<Result<Dump, u32>, SessionHalt>
    requires { length buffer.old ≡ 65536 }
    ensures judged { (text : List ℕ) → S.left source.old ≡ Some text → IfOk result (λ read. read ≡ judged text) }
    ensures read { OnOk result (IsReadWhole (S.left source.old) (S.left source.new)) }
    ensures too_long { result ≡ Err SessionHalt.InputTooLong
        → WereTaken 4294967296 (S.left source.old) (S.left source.new) }
    ensures halt { IfErr result IsReadHalt }
    ensures faults { Counts (S.faults source.old) (S.faults source.new) (result ≡ Err SessionHalt.ReadFault) }
{
    match DumpReader::new(alloc) {
        Ok(reader) => read_with(source, reader, buffer),
        Err(_) => Err(SessionHalt::MemoryOut),
    }
}

/// Reads an input to its end: it is a dump, or has a first bad line.
///
/// # Errors
///
/// `ReadFault` where the input failed, `InputTooLong` where 4294967296 bytes were taken and no end had come, and
/// `MemoryOut` where memory is wanted and not given.
pub(crate) fn read_dump<S: Source>(
    alloc: Global,
    source: &mut S,
) -> Result<Result<Dump, u32>, SessionHalt>
    ensures judged { (text : List ℕ) → S.left source.old ≡ Some text → IfOk result (λ read. read ≡ judged text) }
    ensures read { OnOk result (IsReadWhole (S.left source.old) (S.left source.new)) }
    ensures too_long { result ≡ Err SessionHalt.InputTooLong
        → WereTaken 4294967296 (S.left source.old) (S.left source.new) }
    ensures halt { IfErr result IsReadHalt }
    ensures faults { Counts (S.faults source.old) (S.faults source.new) (result ≡ Err SessionHalt.ReadFault) }
{
    match blank(alloc, PIECE) {
        Ok(buffer) => {
            let mut buffer = buffer;
            read_through(alloc, source, buffer.as_mut_slice())
        }
        Err(_) => Err(SessionHalt::MemoryOut),
    }
}
