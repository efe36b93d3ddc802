//! Connections to one address, one after the other.
ghost use Rattle.std.specs.Prelude.{◌≡◌, ◌<◌, ◌≤◌, Option, None, length, take, IfOk, IsSome, OnErr, OnOk};
ghost use Rattle.std.specs.Io.KnownBytes.{Appends, ReadConsumes};
ghost use Rattle.kdb_base.specs.Causes.{HasCause};
ghost use Rattle.kdb_ports.specs.Adapters.{AppendsFront};
ghost use Rattle.kdb_ports.specs.Links.{after_dial, after_sent, before_received, untold_wire, IsDrained};
ghost use Rattle.kdb_ports.specs.Memory.{counted_up};
ghost use Rattle.tcp_links.specs.States.{OnStream};

use crate::streams::{read_some, write_whole};
use kdb_ports::{Link, LinkFailed};
use std::io;
use std::marker::Model;
use std::net::{Net, OpenStream, SocketAddr, TcpStream};
use std::time::Duration;

/// The seconds that a dial, each read and each write wait for the peer. One that says nothing for a minute is taken for
/// gone, so that a round ends and the next one dials anew.
const PATIENCE: u64 = 60;

/// A connection to this address whose reads and writes do not wait forever.
fn connect<R: Net>(network: &R, peer: &SocketAddr) -> io::Result<R::Stream> {
    let patience = Duration::from_secs(PATIENCE);
    let stream = TcpStream::connect_timeout(network, peer, patience)?;
    stream.set_read_timeout(Some(patience))?;
    stream.set_write_timeout(Some(patience))?;
    Ok(stream)
}

/// Connections over TCP to one address. It tells those who use a [`Link`] nothing of what goes over them; its own
/// clauses say what its stream took and gave, where std knows that of a stream.
#[derive(Drop)]
pub struct TcpLink<R: Net> {
    network: R,
    peer: SocketAddr,
    stream: Option<R::Stream>,
    faults: u64,
}

impl<R: Net> Model for TcpLink<R> {
    ghost use Rattle.tcp_links.specs.States.{TcpState};

    ghost Value = { TcpState R R.Stream };

    ghost view = { λ l. record { network = l.network; peer = l.peer; stream = l.stream; faults = l.faults } };
}

impl<R: Net> TcpLink<R> {
    /// A link to this address on which no connection was made.
    pub fn new(network: R, peer: SocketAddr) -> TcpLink<R>
        ensures { result ≡ record { network = network; peer = peer; stream = None; faults = 0 } }
    {
        TcpLink {
            network,
            peer,
            stream: None,
            faults: 0,
        }
    }

    /// Counts a fault.
    fn fail(&mut self) -> LinkFailed
        ensures state { self.new ≡ record self.old { faults = counted_up self.old.faults } }
        ensures later { self.old.faults ≤ self.new.faults }
    {
        self.faults = self.faults.saturating_add(1);
        LinkFailed
    }

    /// Writes all of the bytes on the newest connection.
    fn put(&mut self, bytes: &[u8]) -> Result<(), LinkFailed>
        ensures open { OnOk result (IsSome self.old.stream) }
        ensures got { OnOk result
            (OnStream (λ s t. Appends (R.Stream.Write.contents s) (R.Stream.Write.contents t) bytes.now) self.old.stream
            self.new.stream) }
        ensures part { OnErr result
            (OnStream (λ s t. AppendsFront (R.Stream.Write.contents s) (R.Stream.Write.contents t) bytes.now)
            self.old.stream self.new.stream) }
        ensures others { self.new ≡ record self.old { stream = self.new.stream } }
    {
        match &mut self.stream {
            Some(stream) => write_whole(stream, bytes),
            None => Err(LinkFailed),
        }
    }

    /// Reads once from the newest connection.
    fn take(&mut self, into: &mut [u8]) -> Result<usize, LinkFailed>
        ensures open { OnOk result (IsSome self.old.stream) }
        ensures bound { IfOk result (λ n. n ≤ length into.new) }
        ensures gave { OnStream (λ s t. ReadConsumes (R.Stream.Read.remaining s)
            (R.Stream.Read.remaining t) result into.new) self.old.stream self.new.stream }
        ensures others { self.new ≡ record self.old { stream = self.new.stream } }
    {
        match &mut self.stream {
            Some(stream) => read_some(stream, into),
            None => Err(LinkFailed),
        }
    }
}

impl<R: Net> Link for TcpLink<R> {
    ghost wire = { λ _. untold_wire };

    ghost faults = { λ l. l.faults };

    /// Connects to the address within a minute. The connection before this one is over, also where no new one is
    /// made.
    fn dial(&mut self) -> Result<(), LinkFailed>
        ensures ok { OnOk result (untold_wire ≡ after_dial untold_wire) }
        ensures err { OnErr result (untold_wire ≡ untold_wire) }
        ensures cause { HasCause self.old.faults self.new.faults result }

        ensures open { OnOk result (IsSome self.new.stream) }
        ensures none { OnErr result (self.new.stream ≡ None) }
        ensures peer { self.new.peer ≡ self.old.peer }
        ensures failed { OnErr result (self.new.faults ≡ counted_up self.old.faults) }
        ensures whole { OnOk result (self.new.faults ≡ self.old.faults) }
    {
        self.stream = None;
        match connect(&self.network, &self.peer) {
            Ok(stream) => {
                self.stream = Some(stream);
                Ok(())
            }
            Err(_) => Err(self.fail()),
        }
    }

    /// Writes all of the bytes. It fails where there is no connection, and where the peer takes nothing for a minute;
    /// after that the peer got a front of the bytes or nothing.
    fn send(&mut self, bytes: &[u8]) -> Result<(), LinkFailed>
        ensures ok { OnOk result (untold_wire ≡ after_sent untold_wire bytes.now) }
        ensures err { OnErr result (untold_wire ≡ untold_wire) }
        ensures cause { HasCause self.old.faults self.new.faults result }

        ensures open { OnOk result (IsSome self.old.stream) }
        ensures got { OnOk result
            (OnStream (λ s t. Appends (R.Stream.Write.contents s) (R.Stream.Write.contents t) bytes.now) self.old.stream
            self.new.stream) }
        ensures part { OnErr result
            (OnStream (λ s t. AppendsFront (R.Stream.Write.contents s) (R.Stream.Write.contents t) bytes.now)
            self.old.stream self.new.stream) }
        ensures peer { self.new.peer ≡ self.old.peer }
        ensures failed { OnErr result (self.new.faults ≡ counted_up self.old.faults) }
        ensures whole { OnOk result (self.new.faults ≡ self.old.faults) }
    {
        match self.put(bytes) {
            Ok(()) => Ok(()),
            Err(_) => Err(self.fail()),
        }
    }

    /// Reads once. It fails where there is no connection, and where nothing came for a minute.
    fn receive(&mut self, into: &mut [u8]) -> Result<usize, LinkFailed>
        requires { 0 < length into.old }
        ensures bound { IfOk result (λ n. n ≤ length into.new) }
        ensures bytes { IfOk result (λ n. untold_wire ≡ before_received (take n into.new) untold_wire) }
        ensures end { IfOk result (λ n. n ≡ 0 → IsDrained untold_wire) }
        ensures err { OnErr result (untold_wire ≡ untold_wire) }
        ensures cause { HasCause self.old.faults self.new.faults result }

        ensures open { OnOk result (IsSome self.old.stream) }
        ensures gave { OnStream (λ s t. ReadConsumes (R.Stream.Read.remaining s)
            (R.Stream.Read.remaining t) result into.new) self.old.stream self.new.stream }
        ensures peer { self.new.peer ≡ self.old.peer }
        ensures failed { OnErr result (self.new.faults ≡ counted_up self.old.faults) }
        ensures whole { OnOk result (self.new.faults ≡ self.old.faults) }
    {
        match self.take(into) {
            Ok(count) => Ok(count),
            Err(_) => Err(self.fail()),
        }
    }
}
