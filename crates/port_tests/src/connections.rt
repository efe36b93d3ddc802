//! Links to a listener of this machine, and over streams that signals interrupt.

use kdb_ports::{Link, LinkFailed};
use std::alloc::Global;
use std::cell::Cell;
use std::io;
use std::io::{ErrorKind, Read, Write};
use std::net::{Ipv4Addr, Net, OpenListener, OpenStream, SocketAddr, TcpListener, TcpStream};
use std::os::fd::{AsRawFd, RawFd};
use std::process::Abort;
use std::test::Fail;
use std::time::Duration;
use tcp_links::TcpLink;

fn listen(rt: &HostRuntime) -> io::Result<TcpListener> {
    TcpListener::bind(rt, SocketAddr::from((Ipv4Addr::LOCALHOST, 0)))
}

/// The peer of the next connection.
fn accepted(listener: &TcpListener) -> Result<TcpStream, Fail> {
    let (peer, _) = listener.accept()?;
    Ok(peer)
}

/// The peer hears what was sent, and answers it.
fn check_heard(rt: &impl Abort, peer: &mut TcpStream) -> Result<(), Fail> {
    let mut heard = [0; 11];
    peer.read_exact(&mut heard)?;
    assert_eq!(rt; &heard, b"hello, poll");
    peer.write_all(b"nil")?;
    Ok(())
}

fn send_both(link: &mut TcpLink<&HostRuntime>) -> Result<(), Fail> {
    link.send(b"hello")?;
    link.send(b", poll")?;
    Ok(())
}

/// Puts what one call receives, two bytes at most, behind the text.
fn receive_more(link: &mut TcpLink<&HostRuntime>, text: &mut Vec<u8>) -> Result<(), Fail> {
    let mut into = [0; 2];
    let count = link.receive(&mut into)?;
    text.extend_from_slice(into.get(..count).unwrap_or_default())?;
    Ok(())
}

/// What four calls receive.
fn received(alloc: Global, link: &mut TcpLink<&HostRuntime>) -> Result<Vec<u8>, Fail> {
    let mut text = Vec::new(alloc);
    for _ in 0..4 {
        receive_more(link, &mut text)?;
    }
    Ok(text)
}

#[test]
fn bytes_go_both_ways(rt: HostRuntime) -> Result<(), Fail> {
    let listener = listen(&rt)?;
    let mut link = TcpLink::new(&rt, listener.local_addr()?);
    link.dial()?;
    let mut peer = accepted(&listener)?;
    send_both(&mut link)?;
    check_heard(&rt, &mut peer)?;
    drop(peer);
    let text = received(rt.alloc(), &mut link)?;
    assert_eq!(rt; text.as_slice(), b"nil".as_slice());
    Ok(())
}

/// The peer of the connection that stands hears what is sent.
fn check_standing(rt: &impl Abort, peer: &mut TcpStream) -> Result<(), Fail> {
    let mut heard = [0; 1];
    peer.read_exact(&mut heard)?;
    assert_eq!(rt; &heard, b"x");
    Ok(())
}

#[test]
fn a_dial_ends_the_connection_before(rt: HostRuntime) -> Result<(), Fail> {
    let listener = listen(&rt)?;
    let mut link = TcpLink::new(&rt, listener.local_addr()?);
    link.dial()?;
    let mut first = accepted(&listener)?;
    link.dial()?;
    let mut second = accepted(&listener)?;
    assert_eq!(rt; first.read(&mut [0; 1])?, 0);
    link.send(b"x")?;
    check_standing(&rt, &mut second)
}

#[test]
fn calls_without_a_connection_fail(rt: HostRuntime) -> Result<(), Fail> {
    let listener = listen(&rt)?;
    let mut link = TcpLink::new(&rt, listener.local_addr()?);
    assert_eq!(rt; link.send(b"x"), Err(LinkFailed));
    assert_eq!(rt; link.receive(&mut [0; 1]), Err(LinkFailed));
    link.dial()?;
    drop(listener);
    assert_eq!(rt; link.dial(), Err(LinkFailed));
    assert_eq!(rt; link.send(b"x"), Err(LinkFailed));
    Ok(())
}

/// What the streams of a network do and were told.
#[derive(Drop)]
struct Record {
    /// How often each call is interrupted before it is done.
    interrupts: u32,
    /// How many bytes were taken.
    taken: Cell<u32>,
    /// The sum of the time limits in seconds.
    limits: Cell<u64>,
}

impl Record {
    fn new(interrupts: u32) -> Record {
        Record {
            interrupts,
            taken: Cell::new(0),
            limits: Cell::new(0),
        }
    }

    fn limit(&self, limit: Duration) {
        self.limits
            .set(self.limits.get().saturating_add(limit.as_secs()));
    }
}

/// A stream that takes and gives a byte at a time.
#[derive(Drop)]
struct Jumpy<'a> {
    record: &'a Record,
    interrupted: u32,
}

impl<'a> Jumpy<'a> {
    /// Whether this call is interrupted.
    fn jump(&mut self) -> io::Result<()> {
        if self.interrupted < self.record.interrupts {
            self.interrupted += 1;
            return Err(io::Error::from(ErrorKind::Interrupted));
        }
        self.interrupted = 0;
        Ok(())
    }
}

impl<'a> Read for Jumpy<'a> {
    fn read(&mut self, buf: &mut [u8]) -> io::Result<usize> {
        self.jump()?;
        match buf.first_mut() {
            Some(byte) => {
                *byte = b'a';
                Ok(1)
            }
            None => Ok(0),
        }
    }
}

impl<'a> Write for Jumpy<'a> {
    fn write(&mut self, buf: &[u8]) -> io::Result<usize> {
        self.jump()?;
        if buf.is_empty() {
            return Ok(0);
        }
        self.record
            .taken
            .set(self.record.taken.get().saturating_add(1));
        Ok(1)
    }

    fn flush(&mut self) -> io::Result<()> {
        Ok(())
    }
}

impl<'a> OpenStream for Jumpy<'a> {
    fn set_read_timeout(&self, dur: Option<Duration>) -> io::Result<()> {
        self.record.limit(dur.unwrap_or(Duration::ZERO));
        Ok(())
    }

    fn set_write_timeout(&self, dur: Option<Duration>) -> io::Result<()> {
        self.record.limit(dur.unwrap_or(Duration::ZERO));
        Ok(())
    }
}

impl<'a> AsRawFd for Jumpy<'a> {
    fn as_raw_fd(&self) -> RawFd {
        -1
    }
}

/// No one listens.
#[derive(Drop)]
struct Deaf<'a> {
    record: &'a Record,
}

impl<'a> OpenListener for Deaf<'a> {
    type Stream = Jumpy<'a>;

    fn accept(&self) -> io::Result<(Jumpy<'a>, SocketAddr)> {
        Err(io::Error::from(ErrorKind::Unsupported))
    }
}

impl<'a> AsRawFd for Deaf<'a> {
    fn as_raw_fd(&self) -> RawFd {
        -1
    }
}

impl<'a> Net for Deaf<'a> {
    type Stream = Jumpy<'a>;

    type Listener = Deaf<'a>;

    fn bind(&self, _addr: SocketAddr) -> io::Result<Deaf<'a>> {
        Err(io::Error::from(ErrorKind::Unsupported))
    }

    fn connect(&self, _addr: SocketAddr) -> io::Result<Jumpy<'a>> {
        Err(io::Error::from(ErrorKind::Unsupported))
    }

    fn connect_timeout(&self, _addr: SocketAddr, timeout: Duration) -> io::Result<Jumpy<'a>> {
        self.record.limit(timeout);
        Ok(Jumpy {
            record: self.record,
            interrupted: 0,
        })
    }
}

fn link_over(record: &Record) -> TcpLink<Deaf<'_>> {
    let peer = SocketAddr::from((Ipv4Addr::LOCALHOST, 754));
    TcpLink::new(Deaf { record }, peer)
}

#[test]
fn what_signals_interrupt_is_tried_again(rt: HostRuntime) -> Result<(), Fail> {
    let record = Record::new(999);
    let mut link = link_over(&record);
    link.dial()?;
    link.send(b"hello")?;
    assert_eq!(rt; record.taken.get(), 5);
    let mut into = [0; 4];
    assert_eq!(rt; link.receive(&mut into), Ok(1));
    assert_eq!(rt; &into, b"a\0\0\0");
    Ok(())
}

#[test]
fn what_is_interrupted_again_and_again_fails(rt: HostRuntime) -> Result<(), Fail> {
    let record = Record::new(2000);
    let mut link = link_over(&record);
    link.dial()?;
    assert_eq!(rt; link.send(b"hello"), Err(LinkFailed));
    assert_eq!(rt; record.taken.get(), 0);
    assert_eq!(rt; link.receive(&mut [0; 4]), Err(LinkFailed));
    Ok(())
}

#[test]
fn a_dial_a_read_and_a_write_wait_a_minute(rt: HostRuntime) -> Result<(), Fail> {
    let record = Record::new(0);
    link_over(&record).dial()?;
    assert_eq!(rt; record.limits.get(), 3 * 60);
    Ok(())
}
