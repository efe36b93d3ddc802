//! A link: connections to a peer, one after the other.
ghost use Rattle.std.specs.Prelude.{◌≡◌, ◌<◌, ◌≤◌, ◌↔◌, ◌∷◌, ◌++◌, ◌+◌, ◌-◌, [], List, ℕ, Option, Some, None, ◌⊎◌};
ghost use Rattle.std.specs.Prelude.{length, take, min, get_or, Contains, IfOk, IfSome, IsErr, OnErr, OnOk, IsTrue};
ghost use Rattle.kdb_base.specs.Causes.{HasCause};
ghost use Rattle.kdb_ports.specs.Links.{Wire, after_dial, after_sent, before_received, dialled, with_sent, IsDrained};
ghost use Rattle.kdb_ports.specs.Memory.{counted_up};

use crate::sources::copy_front;
use kdb_base::{Blob, Fails, MemoryOut};
use std::alloc::Global;
use std::collections::VecDeque;
use std::marker::Model;
use thiserror::Error;

/// A call on a link failed. The link's count of faults rose.
#[derive(Clone, Copy, Debug, PartialEq, Eq, Error)]
#[error("the link failed")]
pub struct LinkFailed;

/// Connections to one peer, one after the other: each dial makes a new one, on which bytes are then sent and
/// received.
pub trait Link {
    /// What was sent on each connection and what each gives, where the link tells it.
    ghost wire: { Self → Option Wire };

    /// How often a call has failed.
    ghost faults: { Self → ℕ };

    /// Makes a new connection. The one before it is over.
    fn dial(&mut self) -> Result<(), LinkFailed>
        ensures ok { OnOk result (wire self.new ≡ after_dial (wire self.old)) }
        ensures err { OnErr result (wire self.new ≡ wire self.old) }
        ensures cause { HasCause (faults self.old) (faults self.new) result };

    /// Sends all of the bytes on the newest connection. It fails where there is none.
    fn send(&mut self, bytes: &[u8]) -> Result<(), LinkFailed>
        ensures ok { OnOk result (wire self.new ≡ after_sent (wire self.old) bytes.now) }
        ensures err { OnErr result (wire self.new ≡ wire self.old) }
        ensures cause { HasCause (faults self.old) (faults self.new) result };

    /// The next bytes that the newest connection gives, at the front of `into`. `Ok(0)` is the peer's end. It
    /// fails where there is no connection.
    fn receive(&mut self, into: &mut [u8]) -> Result<usize, LinkFailed>
        requires { 0 < length into.old }
        ensures bound { IfOk result (λ n. n ≤ length into.new) }
        ensures bytes { IfOk result (λ n. wire self.old ≡ before_received (take n into.new) (wire self.new)) }
        ensures end { IfOk result (λ n. n ≡ 0 → IsDrained (wire self.new)) }
        ensures err { OnErr result (wire self.new ≡ wire self.old) }
        ensures cause { HasCause (faults self.old) (faults self.new) result };
}

/// What was sent on one connection.
#[derive(Debug, Drop)]
struct Sent {
    bytes: Vec<u8>,
}

impl Model for Sent {
    ghost use Rattle.std.specs.Prelude.{List, ℕ};

    ghost Value = { List ℕ };

    ghost view = { λ s. s.bytes.items };
}

impl Sent {
    /// Adds these bytes, where there is memory for them.
    fn add(&mut self, bytes: &[u8]) -> Result<(), LinkFailed>
        ensures ok { OnOk result (self.new ≡ self.old ++ bytes.now) }
        ensures err { OnErr result (self.new ≡ self.old) }
    {
        match self.bytes.extend_from_slice(bytes) {
            Ok(()) => Ok(()),
            Err(_) => Err(LinkFailed),
        }
    }
}

/// What one connection gives, and how many bytes of it came.
#[derive(Debug, Drop)]
struct Given {
    bytes: Blob,
    at: usize,
}

impl Model for Given {
    ghost use Rattle.std.specs.Prelude.{◌≤◌, List, ℕ, drop, length};

    ghost Value = { List ℕ };

    ghost view = { λ g. drop g.at g.bytes };

    ghost invariant = { λ g. g.at ≤ length g.bytes };
}

impl Given {
    fn new(bytes: Blob) -> Given
        ensures { result ≡ bytes }
    {
        Given { bytes, at: 0 }
    }

    /// As many bytes as there are and as fit.
    #[tactic(auto, using(std::proofs::lemmas::List::Folds::drop_split))]
    fn give(&mut self, into: &mut [u8]) -> usize
        ensures bytes { self.old ≡ take result into.new ++ self.new }
        ensures count { result ≡ min (length into.old) (length self.old) }
        ensures long { length into.new ≡ length into.old }
    {
        let count = (self.bytes.len() - self.at).min(into.len());
        copy_front(&self.bytes.as_slice()[self.at..self.at + count], into);
        self.at += count;
        count
    }
}

/// A link in memory.
#[derive(Debug, Drop)]
pub struct MemoryLink {
    alloc: Global,
    /// The newest first.
    sent: VecDeque<Sent>,
    left: Given,
    to_come: VecDeque<Blob>,
    fails: Fails,
    calls: u64,
    faults: u64,
}

impl Model for MemoryLink {
    ghost use Rattle.kdb_ports.specs.Links.{LinkState};

    ghost Value = { LinkState };

    ghost view = { λ l. record {
      wire = record { sent = l.sent.items; left = l.left; to_come = l.to_come.items };
      fails = l.fails;
      calls = l.calls;
      faults = l.faults;
    } };
}

impl MemoryLink {
    /// A link on which no connection was made. The connection of the kth dial, counted from 0, gives the kth of
    /// these texts, and nothing where there is none. Its calls of the numbers in `fails` fail.
    pub fn new(alloc: Global, gives: VecDeque<Blob>, fails: Fails) -> Result<MemoryLink, MemoryOut>
        ensures { IfOk result (λ link. link ≡ record {
          wire = record { sent = []; left = []; to_come = gives.items };
          fails = fails;
          calls = 0;
          faults = 0;
        }) }
    {
        Ok(MemoryLink {
            alloc,
            sent: VecDeque::new(alloc),
            left: Given::new(Blob::from_vec(Vec::new(alloc))),
            to_come: gives,
            fails,
            calls: 0,
            faults: 0,
        })
    }

    /// What was sent on the connection of this dial, counted from 0. None exactly where there was no such dial.
    pub fn sent(&self, dial: u32) -> Option<&[u8]>
        ensures some { IfSome result (λ text. (dial < length self.now.wire.sent)
            × (text.now ≡ get_or self.now.wire.sent (length self.now.wire.sent - 1 - dial) [])) }
        ensures none { result ≡ None → length self.now.wire.sent ≤ dial }
    {
        let dials = self.sent.len();
        if dial as usize >= dials {
            return None;
        }
        Some(&self.sent[dials - 1 - dial as usize].bytes)
    }

    /// Counts this call, and answers whether it is to fail.
    fn begin(&mut self) -> bool
        ensures fails { IsTrue result ↔ Contains self.old.fails self.old.calls }
        ensures state { self.new ≡ record self.old { calls = counted_up self.old.calls } }
    {
        let fails = self.fails.contains(self.calls);
        self.calls = self.calls.saturating_add(1);
        fails
    }

    /// Counts a fault.
    fn fail(&mut self) -> LinkFailed
        ensures state { self.new ≡ record self.old { faults = counted_up self.old.faults } }
        ensures later { self.old.faults ≤ self.new.faults }
    {
        self.faults = self.faults.saturating_add(1);
        LinkFailed
    }

    /// Makes a new connection, where there is memory for it.
    fn connect(&mut self) -> Result<(), LinkFailed>
        ensures ok { OnOk result (self.new ≡ record self.old { wire = dialled self.old.wire }) }
        ensures err { OnErr result (self.new ≡ self.old) }
    {
        let none = Sent {
            bytes: Vec::new(self.alloc),
        };
        match self.sent.push_front(none) {
            Ok(()) => {}
            Err(_) => return Err(LinkFailed),
        }
        let gives = self.to_come.pop_front();
        let gives = gives.unwrap_or(Blob::from_vec(Vec::new(self.alloc)));
        self.left = Given::new(gives);
        Ok(())
    }

    /// Puts bytes behind what was sent on the newest connection.
    fn put(&mut self, bytes: &[u8]) -> Result<(), LinkFailed>
        ensures ok { OnOk result (self.new ≡ record self.old { wire = with_sent bytes.now self.old.wire }) }
        ensures err { OnErr result (self.new ≡ self.old) }
        ensures open { OnOk result (0 < length self.old.wire.sent) }
    {
        match self.sent.front_mut() {
            Some(sent) => sent.add(bytes),
            None => Err(LinkFailed),
        }
    }
}

impl Link for MemoryLink {
    ghost wire = { λ l. Some l.wire };

    ghost faults = { λ l. l.faults };

    /// It fails where its number is among those that are to fail, or where it finds no memory.
    fn dial(&mut self) -> Result<(), LinkFailed>
        ensures ok { OnOk result (Some self.new.wire ≡ after_dial (Some self.old.wire)) }
        ensures err { OnErr result (Some self.new.wire ≡ Some self.old.wire) }
        ensures cause { HasCause self.old.faults self.new.faults result }

        ensures fails { Contains self.old.fails self.old.calls → IsErr result }
        ensures calls { self.new.calls ≡ counted_up self.old.calls }
        ensures kept { self.new.fails ≡ self.old.fails }
        ensures failed { OnErr result (self.new.faults ≡ counted_up self.old.faults) }
        ensures whole { OnOk result (self.new.faults ≡ self.old.faults) }
    {
        if self.begin() {
            return Err(self.fail());
        }
        match self.connect() {
            Ok(()) => Ok(()),
            Err(_) => Err(self.fail()),
        }
    }

    /// It fails where its number is among those that are to fail, where there is no connection, or where it finds
    /// no memory.
    fn send(&mut self, bytes: &[u8]) -> Result<(), LinkFailed>
        ensures ok { OnOk result (Some self.new.wire ≡ after_sent (Some self.old.wire) bytes.now) }
        ensures err { OnErr result (Some self.new.wire ≡ Some self.old.wire) }
        ensures cause { HasCause self.old.faults self.new.faults result }

        ensures fails { Contains self.old.fails self.old.calls → IsErr result }
        ensures open { OnOk result (0 < length self.old.wire.sent) }
        ensures calls { self.new.calls ≡ counted_up self.old.calls }
        ensures kept { self.new.fails ≡ self.old.fails }
        ensures failed { OnErr result (self.new.faults ≡ counted_up self.old.faults) }
        ensures whole { OnOk result (self.new.faults ≡ self.old.faults) }
    {
        if self.begin() {
            return Err(self.fail());
        }
        match self.put(bytes) {
            Ok(()) => Ok(()),
            Err(_) => Err(self.fail()),
        }
    }

    /// Gives as many bytes as there are and as fit. It fails exactly where its number is among those that are to
    /// fail, or where there is no connection.
    fn receive(&mut self, into: &mut [u8]) -> Result<usize, LinkFailed>
        requires { 0 < length into.old }
        ensures bound { IfOk result (λ n. n ≤ length into.new) }
        ensures bytes { IfOk result (λ n. Some self.old.wire ≡ before_received (take n into.new) (Some self.new.wire)) }
        ensures end { IfOk result (λ n. n ≡ 0 → IsDrained (Some self.new.wire)) }
        ensures err { OnErr result (Some self.new.wire ≡ Some self.old.wire) }
        ensures cause { HasCause self.old.faults self.new.faults result }

        ensures count { IfOk result (λ n. n ≡ min (length into.old) (length self.old.wire.left)) }
        ensures fails { IsErr result ↔ (Contains self.old.fails self.old.calls ⊎ (self.old.wire.sent ≡ [])) }
        ensures calls { self.new.calls ≡ counted_up self.old.calls }
        ensures kept { self.new.fails ≡ self.old.fails }
        ensures failed { OnErr result (self.new.faults ≡ counted_up self.old.faults) }
        ensures whole { OnOk result (self.new.faults ≡ self.old.faults) }
    {
        if self.begin() {
            return Err(self.fail());
        }
        if self.sent.is_empty() {
            return Err(self.fail());
        }
        Ok(self.left.give(into))
    }
}
