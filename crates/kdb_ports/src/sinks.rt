ghost use Rattle.std.specs.Prelude.{◌≡◌, ◌<◌, ◌≤◌, ◌++◌, ◌↔◌, [], List, ℕ, Option, Some, None, length};
ghost use Rattle.std.specs.Prelude.{take, Contains, IfOk, IfSome, IsErr, OnErr, OnOk, IsTrue};
ghost use Rattle.kdb_base.specs.Causes.{HasCause};
ghost use Rattle.std.specs.Io.KnownBytes.{Appends, Keeps};
ghost use Rattle.kdb_ports.specs.Told.{after_told, untold};
ghost use Rattle.kdb_ports.specs.Adapters.{AppendsFront};
ghost use Rattle.kdb_ports.specs.Memory.{counted_up};

use kdb_base::{Blob, Fails, MemoryOut};
use std::alloc::Global;
use std::io::{ErrorKind, Write};
use std::marker::Model;
use thiserror::Error;

/// A write failed. The sink's count of faults rose.
#[derive(Clone, Copy, Debug, PartialEq, Eq, Error)]
#[error("the write failed")]
pub struct WriteFailed;

/// Where the bytes of an output go.
pub trait Sink {
    /// The bytes that were taken, where the sink tells them.
    ghost taken: { Self → Option (List ℕ) };

    /// How often a write has failed.
    ghost faults: { Self → ℕ };

    /// Takes a prefix of the bytes, at least one byte.
    fn write(&mut self, bytes: &[u8]) -> Result<usize, WriteFailed>
        requires { 0 < length bytes.now }
        ensures least { IfOk result (λ n. 0 < n) }
        ensures bound { IfOk result (λ n. n ≤ length bytes.now) }
        ensures bytes { IfOk result (λ n. taken self.new ≡ after_told (taken self.old) (take n bytes.now)) }
        ensures err { OnErr result (taken self.new ≡ taken self.old) }
        ensures cause { HasCause (faults self.old) (faults self.new) result };
}

/// A sink in memory.
#[derive(Debug, Drop)]
pub struct MemorySink {
    bytes: Vec<u8>,
    fails: Fails,
    calls: u64,
    faults: u64,
}

impl Model for MemorySink {
    ghost use Rattle.kdb_ports.specs.Memory.{SinkState};

    ghost Value = { SinkState };

    ghost view = { λ s. record { written = s.bytes.items; fails = s.fails; calls = s.calls; faults = s.faults } };
}

impl MemorySink {
    /// A sink that holds nothing yet. Its writes of the numbers in `fails` fail.
    pub fn new(alloc: Global, fails: Fails) -> Result<MemorySink, MemoryOut>
        ensures { IfOk result (λ sink. sink ≡ record { written = []; fails = fails; calls = 0; faults = 0 }) }
    {
        Ok(MemorySink {
            bytes: Vec::new(alloc),
            fails,
            calls: 0,
            faults: 0,
        })
    }

    /// The bytes that were taken.
    pub fn written(&self) -> &[u8]
        ensures { result.now ≡ self.now.written }
    {
        &self.bytes
    }

    /// Counts this call, and answers whether it is to fail.
    fn begin(&mut self) -> bool
        ensures fails { IsTrue result ↔ Contains self.old.fails self.old.calls }
        ensures state { self.new ≡ record self.old { calls = counted_up self.old.calls } }
    {
        let fails = self.fails.contains(self.calls);
        self.calls = self.calls.saturating_add(1);
        fails
    }

    /// Counts a fault.
    fn fail(&mut self) -> WriteFailed
        ensures state { self.new ≡ record self.old { faults = counted_up self.old.faults } }
        ensures later { self.old.faults ≤ self.new.faults }
    {
        self.faults = self.faults.saturating_add(1);
        WriteFailed
    }
}

impl Sink for MemorySink {
    ghost taken = { λ s. Some s.written };

    ghost faults = { λ s. s.faults };

    /// Takes all of the bytes. It fails where its number is among those that are to fail, or where it
    /// finds no memory.
    fn write(&mut self, bytes: &[u8]) -> Result<usize, WriteFailed>
        requires { 0 < length bytes.now }
        ensures least { IfOk result (λ n. 0 < n) }
        ensures bound { IfOk result (λ n. n ≤ length bytes.now) }
        ensures bytes { IfOk result
            (λ n. Some self.new.written ≡ after_told (Some self.old.written) (take n bytes.now)) }
        ensures err { OnErr result (Some self.new.written ≡ Some self.old.written) }
        ensures cause { HasCause self.old.faults self.new.faults result }

        ensures count { IfOk result (λ n. n ≡ length bytes.now) }
        ensures fails { Contains self.old.fails self.old.calls → IsErr result }
        ensures calls { self.new.calls ≡ counted_up self.old.calls }
        ensures kept { self.new.fails ≡ self.old.fails }
        ensures failed { OnErr result (self.new.faults ≡ counted_up self.old.faults) }
        ensures whole { OnOk result (self.new.faults ≡ self.old.faults) }
    {
        if self.begin() {
            return Err(self.fail());
        }
        match self.bytes.extend_from_slice(bytes) {
            Ok(()) => Ok(bytes.len()),
            Err(_) => Err(self.fail()),
        }
    }
}

/// How often a write or a flush is tried again that a signal interrupted.
const RETRIES: u32 = 1000;

/// Writes a front of the bytes once, and again where a signal interrupted that.
fn write_front<W: Write>(writer: &mut W, bytes: &[u8]) -> Result<usize, WriteFailed>
    ensures bound { IfOk result (λ n. n ≤ length bytes.now) }
    ensures got { IfOk result (λ n. Appends (W.contents writer.old) (W.contents writer.new) (take n bytes.now)) }
    ensures kept { OnErr result (Keeps (W.contents writer.old) (W.contents writer.new)) }
{
    for _ in 0..RETRIES {
        match writer.write(bytes) {
            Ok(count) => return Ok(count),
            Err(error) => {
                if error.kind() != ErrorKind::Interrupted {
                    return Err(WriteFailed);
                }
            }
        }
    }
    Err(WriteFailed)
}

/// Flushes what was written once, and again where a signal interrupted that.
fn flush_all<W: Write>(writer: &mut W) -> Result<(), WriteFailed>
    ensures { Keeps (W.contents writer.old) (W.contents writer.new) }
{
    for _ in 0..RETRIES {
        match writer.flush() {
            Ok(()) => return Ok(()),
            Err(error) => {
                if error.kind() != ErrorKind::Interrupted {
                    return Err(WriteFailed);
                }
            }
        }
    }
    Err(WriteFailed)
}

/// Writes a front of the bytes and flushes it. A writer that takes nothing has failed.
fn write_some<W: Write>(writer: &mut W, bytes: &[u8]) -> Result<usize, WriteFailed>
    ensures least { IfOk result (λ n. 0 < n) }
    ensures bound { IfOk result (λ n. n ≤ length bytes.now) }
    ensures got { IfOk result (λ n. Appends (W.contents writer.old) (W.contents writer.new) (take n bytes.now)) }
    ensures part { OnErr result (AppendsFront (W.contents writer.old) (W.contents writer.new) bytes.now) }
{
    let count = write_front(writer, bytes)?;
    if count == 0 {
        return Err(WriteFailed);
    }
    flush_all(writer)?;
    Ok(count)
}

/// A sink over any writer of std. What it took is flushed. It tells nothing of its content to those who use
/// a [`Sink`]; its own clauses `got` and `part` say what the writer got, where std knows what that holds.
#[derive(Drop)]
pub struct WriterSink<W: Write> {
    writer: W,
    faults: u64,
}

impl<W: Write> Model for WriterSink<W> {
    ghost use Rattle.kdb_ports.specs.Adapters.{WriterState};

    ghost Value = { WriterState W };

    ghost view = { λ s. record { writer = s.writer; faults = s.faults } };
}

impl<W: Write> WriterSink<W> {
    /// A sink over this writer, to which nothing was written yet.
    pub fn new(writer: W) -> WriterSink<W>
        ensures { result ≡ record { writer = writer; faults = 0 } }
    {
        WriterSink { writer, faults: 0 }
    }

    /// The writer.
    pub fn into_writer(self) -> W
        ensures { result ≡ self.writer }
    {
        self.writer
    }
}

impl<W: Write> Sink for WriterSink<W> {
    ghost taken = { λ _. untold };

    ghost faults = { λ s. s.faults };

    /// Writes once and flushes. What a signal interrupted is tried again, 999 times at most. Where it fails,
    /// the writer got a front of the bytes or nothing.
    fn write(&mut self, bytes: &[u8]) -> Result<usize, WriteFailed>
        requires { 0 < length bytes.now }
        ensures least { IfOk result (λ n. 0 < n) }
        ensures bound { IfOk result (λ n. n ≤ length bytes.now) }
        ensures bytes { IfOk result (λ n. untold ≡ after_told untold (take n bytes.now)) }
        ensures err { OnErr result (untold ≡ untold) }
        ensures cause { HasCause self.old.faults self.new.faults result }

        ensures got { IfOk result
            (λ n. Appends (W.contents self.old.writer) (W.contents self.new.writer) (take n bytes.now)) }
        ensures part { OnErr result (AppendsFront (W.contents self.old.writer) (W.contents self.new.writer) bytes.now) }
        ensures failed { OnErr result (self.new.faults ≡ counted_up self.old.faults) }
        ensures whole { OnOk result (self.new.faults ≡ self.old.faults) }
    {
        match write_some(&mut self.writer, bytes) {
            Ok(count) => Ok(count),
            Err(failed) => {
                self.faults = self.faults.saturating_add(1);
                Err(failed)
            }
        }
    }
}
