//! The bytes that a connection gave and that wait.
ghost use Rattle.std.specs.Prelude.{◌≡◌, ◌<◌, ◌≤◌, [], length, take, drop, IfOk, OnErr};
ghost use Rattle.kdb_base.specs.Causes.{HasCause};
ghost use Rattle.kdb_ports.specs.Links.{IsDrained, before_received};

use kdb_base::MemoryOut;
use kdb_ports::{Link, LinkFailed};
use std::alloc::Global;
use std::marker::Model;

/// How many bytes are received at once.
const ROOM: usize = 16384;

/// So many bytes.
fn blank(alloc: Global, size: usize) -> Result<Vec<u8>, MemoryOut>
    ensures { IfOk result (λ bytes. length bytes.items ≡ size) }
{
    let bytes = vec![in alloc; 0u8; size]?;
    Ok(bytes)
}

/// Receives into the first so many bytes.
fn receive_into<L: Link>(link: &mut L, bytes: &mut [u8], limit: usize) -> Result<usize, LinkFailed>
    requires some { 0 < limit }
    requires bound { limit ≤ length bytes.old }
    ensures long { length bytes.new ≡ length bytes.old }
    ensures bound { IfOk result (λ n. n ≤ limit) }
    ensures bytes { IfOk result (λ n. L.wire link.old ≡ before_received (take n bytes.new) (L.wire link.new)) }
    ensures end { IfOk result (λ n. n ≡ 0 → IsDrained (L.wire link.new)) }
    ensures err { OnErr result (L.wire link.new ≡ L.wire link.old) }
    ensures cause { HasCause (L.faults link.old) (L.faults link.new) result }
{
    link.receive(&mut bytes[..limit])
}

/// The bytes that wait, seen as their list.
#[derive(Debug, Drop)]
pub(crate) struct Piece {
    bytes: Vec<u8>,
    // those that wait are `bytes[at..end]`
    at: usize,
    end: usize,
}

impl Model for Piece {
    ghost use Rattle.std.specs.Prelude.{◌≡◌, ◌≤◌, List, ℕ, drop, take, length};

    ghost Value = { List ℕ };

    ghost view = { λ p. drop p.at (take p.end p.bytes.items) };

    ghost invariant = { λ p. (p.at ≤ p.end) × ((p.end ≤ length p.bytes.items) × (length p.bytes.items ≡ 16384)) };
}

impl Piece {
    /// No bytes wait. Only want of memory can refuse it.
    pub(crate) fn new(alloc: Global) -> Result<Piece, MemoryOut>
        ensures { IfOk result (λ p. p ≡ []) }
    {
        let bytes = blank(alloc, ROOM)?;
        Ok(Piece {
            bytes,
            at: 0,
            end: 0,
        })
    }

    /// The bytes that wait.
    pub(crate) fn waiting(&self) -> &[u8]
        ensures { result.now ≡ self.now }
    {
        &self.bytes[..self.end][self.at..]
    }

    /// Lets go of the first so many bytes.
    pub(crate) fn pass(&mut self, count: usize)
        requires { count ≤ length self.old }
        ensures { self.new ≡ drop count self.old }
    {
        self.at += count;
    }

    /// Receives the next bytes, at most so many, in the place of those that wait.
    pub(crate) fn receive<L: Link>(&mut self, link: &mut L, limit: u64) -> Result<usize, LinkFailed>
        requires { 0 < limit }
        ensures count { IfOk result (λ n. n ≡ length self.new) }
        ensures bound { length self.new ≤ limit }
        ensures few { length self.new ≤ 16384 }
        ensures bytes { IfOk result (λ n. L.wire link.old ≡ before_received self.new (L.wire link.new)) }
        ensures end { IfOk result (λ n. n ≡ 0 → IsDrained (L.wire link.new)) }
        ensures err { OnErr result (L.wire link.new ≡ L.wire link.old) }
        ensures none { OnErr result (self.new ≡ []) }
        ensures cause { HasCause (L.faults link.old) (L.faults link.new) result }
    {
        let room = self.bytes.len().min(limit as usize);
        self.at = 0;
        self.end = 0;
        let count = receive_into(link, &mut self.bytes, room)?;
        self.end = count;
        Ok(count)
    }
}
