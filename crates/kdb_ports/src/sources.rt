ghost use Rattle.std.specs.Prelude.{◌≡◌, ◌<◌, ◌≤◌, ◌↔◌, [], List, ℕ, Option, Some, None, length};
ghost use Rattle.std.specs.Prelude.{take, drop, min, Contains, IfOk, IsErr, OnErr, OnOk, IsTrue};
ghost use Rattle.kdb_base.specs.Causes.{HasCause};
ghost use Rattle.std.specs.Io.KnownBytes.{ReadConsumes};
ghost use Rattle.kdb_ports.specs.Told.{before_told, untold, IsSpent};
ghost use Rattle.kdb_ports.specs.Memory.{counted_up};

use kdb_base::{Blob, Fails};
use std::io::{ErrorKind, Read};
use std::marker::Model;
use thiserror::Error;

/// A read failed. The source's count of faults rose.
#[derive(Clone, Copy, Debug, PartialEq, Eq, Error)]
#[error("the read failed")]
pub struct ReadFailed;

/// Where the bytes of an input come from.
pub trait Source {
    /// The bytes that are left, where the source tells them.
    ghost left: { Self → Option (List ℕ) };

    /// How often a read has failed.
    ghost faults: { Self → ℕ };

    /// The next bytes of what is left, at the front of `into`. `Ok(0)` is the end of the input.
    fn read(&mut self, into: &mut [u8]) -> Result<usize, ReadFailed>
        requires { 0 < length into.old }
        ensures bound { IfOk result (λ n. n ≤ length into.new) }
        ensures bytes { IfOk result (λ n. left self.old ≡ before_told (take n into.new) (left self.new)) }
        ensures end { IfOk result (λ n. n ≡ 0 → IsSpent (left self.new)) }
        ensures err { OnErr result (left self.new ≡ left self.old) }
        ensures cause { HasCause (faults self.old) (faults self.new) result };
}

/// Puts the bytes at the front of `into`.
pub(crate) fn copy_front(bytes: &[u8], into: &mut [u8])
    requires { length bytes.now ≤ length into.old }
    ensures { take (length bytes.now) into.new ≡ bytes.now }
{
    into[..bytes.len()].copy_from_slice(bytes);
}

/// A source in memory.
#[derive(Debug, Drop)]
pub struct MemorySource {
    bytes: Blob,
    at: usize,
    fails: Fails,
    calls: u64,
    faults: u64,
}

impl Model for MemorySource {
    ghost use Rattle.kdb_ports.specs.Memory.{SourceState};
    ghost use Rattle.std.specs.Prelude.{◌≤◌, length, drop};

    ghost Value = { SourceState };

    ghost view = { λ s. record { left = drop s.at s.bytes; fails = s.fails; calls = s.calls; faults = s.faults } };

    ghost invariant = { λ s. s.at ≤ length s.bytes };
}

impl MemorySource {
    /// A source of these bytes. Its reads of the numbers in `fails` fail.
    pub fn new(bytes: Blob, fails: Fails) -> MemorySource
        ensures { result ≡ record { left = bytes; fails = fails; calls = 0; faults = 0 } }
    {
        MemorySource {
            bytes,
            at: 0,
            fails,
            calls: 0,
            faults: 0,
        }
    }

    /// Counts this call, and answers whether it is to fail.
    fn begin(&mut self) -> bool
        ensures fails { IsTrue result ↔ Contains self.old.fails self.old.calls }
        ensures state { self.new ≡ record self.old { calls = counted_up self.old.calls } }
    {
        let fails = self.fails.contains(self.calls);
        self.calls = self.calls.saturating_add(1);
        fails
    }
}

impl Source for MemorySource {
    ghost left = { λ s. Some s.left };

    ghost faults = { λ s. s.faults };

    /// Gives as many bytes as there are and as fit.
    #[tactic(auto, using(std::proofs::lemmas::List::Folds::drop_split))]
    fn read(&mut self, into: &mut [u8]) -> Result<usize, ReadFailed>
        requires { 0 < length into.old }
        ensures bound { IfOk result (λ n. n ≤ length into.new) }
        ensures bytes { IfOk result (λ n. Some self.old.left ≡ before_told (take n into.new) (Some self.new.left)) }
        ensures end { IfOk result (λ n. n ≡ 0 → IsSpent (Some self.new.left)) }
        ensures err { OnErr result (Some self.new.left ≡ Some self.old.left) }
        ensures cause { HasCause self.old.faults self.new.faults result }

        ensures count { IfOk result (λ n. n ≡ min (length into.old) (length self.old.left)) }
        ensures fails { IsErr result ↔ Contains self.old.fails self.old.calls }
        ensures calls { self.new.calls ≡ counted_up self.old.calls }
        ensures kept { self.new.fails ≡ self.old.fails }
        ensures failed { OnErr result (self.new.faults ≡ counted_up self.old.faults) }
        ensures whole { OnOk result (self.new.faults ≡ self.old.faults) }
    {
        if self.begin() {
            self.faults = self.faults.saturating_add(1);
            return Err(ReadFailed);
        }
        let count = (self.bytes.len() - self.at).min(into.len());
        copy_front(&self.bytes.as_slice()[self.at..self.at + count], into);
        self.at += count;
        Ok(count)
    }
}

/// How often a read is tried again that a signal interrupted.
const RETRIES: u32 = 1000;

/// Reads once, and again where a signal interrupted that.
fn read_some<R: Read>(reader: &mut R, into: &mut [u8]) -> Result<usize, ReadFailed>
    ensures bound { IfOk result (λ n. n ≤ length into.new) }
    ensures gave { ReadConsumes (R.remaining reader.old) (R.remaining reader.new) result into.new }
{
    for _ in 0..RETRIES {
        match reader.read(into) {
            Ok(count) => return Ok(count),
            Err(error) => {
                if error.kind() != ErrorKind::Interrupted {
                    return Err(ReadFailed);
                }
            }
        }
    }
    Err(ReadFailed)
}

/// A source over any reader of std. It tells nothing of its content to those who use a [`Source`]; its own
/// clause `gave` says that it gives what the reader gave, where std knows what that has left.
#[derive(Drop)]
pub struct ReaderSource<R: Read> {
    reader: R,
    faults: u64,
}

impl<R: Read> Model for ReaderSource<R> {
    ghost use Rattle.kdb_ports.specs.Adapters.{ReaderState};

    ghost Value = { ReaderState R };

    ghost view = { λ s. record { reader = s.reader; faults = s.faults } };
}

impl<R: Read> ReaderSource<R> {
    /// A source over this reader, of which nothing is read yet.
    pub fn new(reader: R) -> ReaderSource<R>
        ensures { result ≡ record { reader = reader; faults = 0 } }
    {
        ReaderSource { reader, faults: 0 }
    }
}

impl<R: Read> Source for ReaderSource<R> {
    ghost left = { λ _. untold };

    ghost faults = { λ s. s.faults };

    /// Reads once. A read that a signal interrupted is tried again, 999 times at most.
    fn read(&mut self, into: &mut [u8]) -> Result<usize, ReadFailed>
        requires { 0 < length into.old }
        ensures bound { IfOk result (λ n. n ≤ length into.new) }
        ensures bytes { IfOk result (λ n. untold ≡ before_told (take n into.new) untold) }
        ensures end { IfOk result (λ n. n ≡ 0 → IsSpent untold) }
        ensures err { OnErr result (untold ≡ untold) }
        ensures cause { HasCause self.old.faults self.new.faults result }

        ensures gave { ReadConsumes (R.remaining self.old.reader) (R.remaining self.new.reader) result into.new }
        ensures failed { OnErr result (self.new.faults ≡ counted_up self.old.faults) }
        ensures whole { OnOk result (self.new.faults ≡ self.old.faults) }
    {
        match read_some(&mut self.reader, into) {
            Ok(count) => Ok(count),
            Err(failed) => {
                self.faults = self.faults.saturating_add(1);
                Err(failed)
            }
        }
    }
}
